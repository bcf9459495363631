//! A machine without locks, on which the calls of scripts are made one after another.
//!
//! `Solo` owns the parts, and enters each event that a call asks for, with its reply, into one history. When it is closed,
//! it gives that history: the plain machine answers it, where the pagers of all files tell their content.
#![tactic(auto)]

mod entering;
mod solo;

pub use solo::Solo;
pub use std::alloc::AllocError as NoMemory;

#[cfg(test)]
mod tests;
