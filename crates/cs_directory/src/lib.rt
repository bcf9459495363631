//! Code directories: the blob of a code signature that holds the hashes of a file's pages.
//!
//! `directory` reads one from bytes and refuses it with the first rule that the bytes break. A `Directory`
//! keeps numbers only; its methods read slots, the identifier and the cdhash from the same bytes again.
//! The format is that of `CS_CodeDirectory` in XNU's `cs_blobs.h`, described in Apple TN3126.
#![tactic(auto)]

mod code_directory;
mod grammar;
mod hash_page;
mod refusal;
mod texts;

pub use code_directory::{Directory, FLAG_MASK};
pub use grammar::directory;
pub use hash_page::HashPage;
pub use refusal::DirRefusal;

#[cfg(test)]
mod tests;
