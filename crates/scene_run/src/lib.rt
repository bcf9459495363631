//! Scenes are run: their scripts over the parts that they open, and the text that tells of it.
#![tactic(auto)]

mod early;
mod ending;
mod needs;
mod opening;
mod parts;
mod solo;
mod top;

pub use ending::{journal_of, summary_of, write_end};
pub use needs::needs_of;
pub use opening::open_path;
pub use solo::{open_parts, run_alone, run_solo};
pub use std::alloc::AllocError as NoMemory;
pub use top::csrun_solo;
