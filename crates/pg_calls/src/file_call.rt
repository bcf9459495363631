//! What a call asks of a file.

use cs_blob::Blob;
use cs_policy::{Entry, FileEvent};
use pg_book::Receipt;

/// What is asked of a file: an event, or that a signature is attached, with the receipts of the reading that gave its bytes
/// and of the lookup of its cdhash.
#[derive(Drop)]
pub enum FileCall {
    /// An event that attaches no signature.
    Plain(FileEvent),
    /// The signature is attached as that of the slice with this number.
    Attach {
        slice: u32,
        blob: Blob,
        read: Receipt<Entry>,
        lookup: Receipt<Entry>,
    },
}
