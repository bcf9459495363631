//! A cache of a file's pages over a pager.
//!
//! A cache holds a bounded list of resident pages, most recent first, and one spare buffer. A page is read
//! into the spare buffer before another leaves for it, so a read that fails changes nothing. A page that
//! `put` changed is dirty until it is written to the pager. The pages stand in the frames of an arena and
//! are found by a table that is indexed by their numbers, so no call scans the list. All memory is taken
//! when the cache is opened.
//! The contracts say which pager calls are made and what stands after each (`specs/Steps.antt`).
#![tactic(auto)]

mod cache;
mod card;
mod fault;
mod store;

pub use cache::Cache;
pub use fault::PagerFault;
pub use std::alloc::AllocError as NoMemory;
