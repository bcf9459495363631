//! The parts of a run behind locks, one for each file, each process and the trust list.
//!
//! What lies behind a lock is a cell: the part with its spine of the run's book. The type of a cell keeps that the entries
//! on the spine lead from the part as it was opened to the part as it is, that there is room for all that workers may
//! still use of it, and for a file that the sealing stands and that each attached signature was admitted. A worker asks the
//! parts through a `Hand`. When the run is closed, it gives one history of all workers.
#![tactic(auto)]

mod closing;
mod file_cell;
mod hand;
mod known;
mod naming;
mod process_cell;
mod ready;
mod shared;
mod trust_cell;

pub use closing::Closed;
pub use file_cell::FileCell;
pub use hand::Hand;
pub use naming::Naming;
pub use process_cell::ProcessCell;
pub use ready::Ready;
pub use shared::Shared;
pub use std::alloc::AllocError as NoMemory;
pub use trust_cell::TrustCell;

#[cfg(test)]
mod tests;
