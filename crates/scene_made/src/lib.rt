//! A scene with its files, made of a number: four scripts, each of 1,003 calls on a file and a process of its own.
//!
//! What is made stands in `specs/Made.antt`.
#![tactic(auto)]

mod calls;
mod files;
mod heads;
mod making;

pub use making::made;
pub use std::alloc::AllocError as NoMemory;

#[cfg(test)]
mod tests;
