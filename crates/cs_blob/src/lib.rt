//! The signature of one slice: its blobs, its best code directory, and the cdhash by which it is known.
//!
//! `blob` takes the bytes of a signature, which are a SuperBlob or a code directory alone, and refuses them with
//! the first rule that they break. Of several code directories only the one whose hash type has the greatest
//! rank has effect; a `Blob` keeps it with its bytes. The formats are those of XNU's `cs_blobs.h`, described in
//! Apple TN3126.
#![tactic(auto)]

mod candidates;
mod checks;
mod grammar;
mod parts;
mod refusal;
mod signature;

pub use grammar::blob;
pub use refusal::{BlobFail, BlobRefusal};
pub use signature::Blob;

#[cfg(test)]
mod tests;
