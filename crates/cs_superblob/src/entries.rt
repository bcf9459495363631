//! The entries of the table.

use pg_bytes::Range;

/// Where a blob lies: its type, and its bytes, counted from the first byte of the SuperBlob. The range is the
/// whole blob with the eight bytes of its own magic and length.
#[derive(Clone, Copy, Debug, PartialEq, Eq)]
pub struct Seat {
    /// The type of the blob, `CSSLOT_*` of `cs_blobs.h`: 0 is the code directory.
    pub slot: u32,
    /// The bytes of the blob.
    pub range: Range,
}
