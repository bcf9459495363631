//! The index of an embedded code signature: which blobs it has, and where each of them lies.
//!
//! A SuperBlob begins with a table that gives the type and the place of each blob. `index` reads the table and
//! refuses the text with the first rule that it breaks. The blobs themselves are not looked into.
//! The format is that of `CS_SuperBlob` in XNU's `cs_blobs.h`, described in Apple TN3126.
#![tactic(auto)]

mod entries;
mod grammar;
mod refusal;

pub use entries::Seat;
pub use grammar::index;
pub use refusal::{SuperFail, SuperRefusal};

#[cfg(test)]
mod tests;
