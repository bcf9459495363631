//! What the verifier says of a file: for each slice why it is refused, or what it is, and each page that does not
//! match its slot.
//!
//! `verify` makes the report of a file's bytes on one thread, `verify_on` on as many as there are processors; it is the
//! same report. `verify_text` prints it.
#![tactic(auto)]

mod checks;
mod pages;
mod report;
mod shares;
mod text;
mod verifier;

pub use report::{BadPage, BadPages, SliceReport, VerifyFail};
pub use text::verify_text;
pub use verifier::{all_match, verify, verify_on};

#[cfg(test)]
mod share_tests;
#[cfg(test)]
mod tests;
