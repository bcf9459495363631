//! The parts of a machine, and how one of them is asked.
//!
//! `Opened` holds the files, the processes and the trust list of a run before it starts. An event of a part goes to its
//! object, its process or the trust list by `ask_file`, `ask_process` and `ask_trust`; laws say what a part is after
//! events.
#![tactic(auto)]

mod asking;
mod entries;
mod laws;
mod opened;

pub use asking::{FileAnswer, ask_file, ask_process, ask_trust};
pub use entries::{file_entry, process_entry, signed_range, trust_entry};
pub use laws::{shares_are_enough, told_calls_are_steps};
pub use opened::Opened;
pub use std::alloc::AllocError as NoMemory;

#[cfg(test)]
mod tests;
