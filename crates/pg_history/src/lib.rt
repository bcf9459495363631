//! Histories of the plain machine.
//!
//! A history is a list of entries with their stamps. Here stands what the machine is and what happens to it, which events
//! a call makes, when a history is legal, and when the sealing holds after it. The crate has definitions (`specs/`) and
//! laws alone.
#![tactic(auto)]

mod laws;

pub use laws::{
    denials_are_verdicts, ordered_is_solo, parts_answer, scripts_link, scripts_make_few_regions,
};
