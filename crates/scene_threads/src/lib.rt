//! The scripts of a scene on threads, a worker for each, and the top call of the program.
#![tactic(auto)]

mod making;
mod playing;
mod running;
mod shared;
mod top;
mod words;
mod worker;

pub use running::run_opened;
pub use shared::{run_scripts, run_shared};
pub use std::alloc::AllocError as NoMemory;
pub use top::csrun_main;

#[cfg(test)]
mod gates;
#[cfg(test)]
mod tests;
