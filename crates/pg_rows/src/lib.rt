//! A row of plain values of a fixed length in one block of memory.
//!
//! `places` and `blocks` have all raw pointers there are: a block of places of which the first ones are filled,
//! taken from an allocator, filled one after another, lent, and handed back. `row` is a list of fixed length
//! over it, in safe code.
#![tactic(auto)]

mod blocks;
mod places;
mod row;
#[cfg(test)]
mod tests;

// A crate can name a row in a contract only if the types of its fields are exported.
#[doc(hidden)]
pub use places::{Places, Release, Start};
pub use row::Row;
pub use std::alloc::AllocError as NoMemory;
