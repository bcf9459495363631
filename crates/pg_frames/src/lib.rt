//! Page frames in one block of memory, with a queue of use.
//!
//! A cache of pages needs a fixed number of page buffers, and to know which of them was used longest ago. An
//! arena has both: its frames lie side by side in one block, and the links of its queue stand in rows beside
//! them. All memory is taken when the arena is opened; each other call takes a fixed number of steps.
#![tactic(auto)]

mod arena;
mod links;
mod rings;
#[cfg(test)]
mod tests;

pub use arena::FrameArena;
// A crate can name an arena in a contract only if the types of its fields are exported.
#[doc(hidden)]
pub use links::Links;
pub use std::alloc::AllocError as NoMemory;
