//! A process: its flags, and which page of which file an address of it means.
//!
//! `Process` answers the eight events of a process. It takes all its memory when it is opened. What it answers
//! and what it is afterwards is the plain step of its event, `process_step`.
#![tactic(auto)]

mod laws;
mod mapping;
mod process;
mod state;

pub use laws::{
    exit_names_each_file, flags_change_at_four_events, overlap_names_the_least, regions_stay_apart,
    unguarded_stays_unguarded,
};
pub use mapping::Mapping;
pub use process::{MAX_REGIONS, NoMemory, Process, REGION_NUMBERS};
pub use state::State;

#[cfg(test)]
mod tests;
