//! What happens to one file, as a plain step.
//!
//! A plain file is what can be known of a file that processes map: its content, its attached signatures, the regions
//! that map it with what each was given of a page, their private copies, and which pages are resident. `file_step`
//! says what each event leaves and what the file replies, and `Keep` what stays true of every file: a page that a
//! guarded process may execute hashes to its slots. The crate has definitions (`specs/`) and laws alone.
#![tactic(auto)]

mod laws;

pub use laws::{opening_keeps, pages_are_content, replies_fit, steps_keep};
