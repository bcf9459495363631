// What a call does to the marks of a page: a row of the table in `specs/Marks.antt`, but for a check that found the
// page sealed.
#[derive(Clone, Copy)]
pub(crate) enum Row {
    FoundOther,
    // The page was put or written to.
    Changed,
    MapsWritable,
    ClearsWritable,
    // The page in the spare buffer becomes resident.
    Enters,
    // The page leaves the list, or the spare buffer.
    Goes,
}
