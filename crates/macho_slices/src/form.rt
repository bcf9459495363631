//! How files of Mach-O images begin.

/// What a file's magic says.
#[derive(Clone, Copy)]
pub enum Form {
    /// The file is one image of 64 bits.
    Thin,
    /// The file has a table of records, one for each image.
    Fat(Width),
}

/// How wide the offset and the size of a record are.
#[derive(Clone, Copy)]
pub enum Width {
    /// Four bytes each.
    Narrow,
    /// Eight bytes each.
    Wide,
}
