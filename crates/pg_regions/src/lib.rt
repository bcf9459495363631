//! The regions of one file, what they were given of its pages, and their private copies of them.
//!
//! A region is a range of the file's pages that a process has mapped. A record says what a region was given of a
//! page, and a private copy has the page's bytes as one region alone sees them. `Regions` keeps a list of each,
//! and takes all its memory when it is opened. The contracts say what each call leaves of the lists, and what is
//! found in them then (`specs/Steps.antt`).
#![tactic(auto)]

mod copies;
mod records;
mod regions;
mod standing;

pub use regions::Regions;
pub use std::alloc::AllocError as NoMemory;

#[cfg(test)]
mod tests;
