//! Signs Mach-O files ad hoc, and builds trust caches of signed files.
#![tactic(auto)]

mod blobs;
mod body;
mod cacher;
mod code_directory;
mod early;
mod ending;
mod fields;
mod laws;
mod plan;
mod reading;
mod refusal;
mod request;
mod rules;
mod signer;
mod top;
mod words;

pub use cacher::cache;
pub use laws::{caches_list_slices, signed_files_are_listed};
pub use refusal::{CacheFail, SignFail, SignRefusal};
pub use request::HashPage;
pub use signer::sign;
pub use top::cssign_main;

#[cfg(test)]
mod tests;
