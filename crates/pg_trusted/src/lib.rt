//! The trust list: the modules that are trusted from the start, and the trust caches that were loaded.
//!
//! `Trusted` answers the two events of the list, that a declared cache is loaded and that a cdhash is looked
//! up. It takes all its memory when it is opened.
#![tactic(auto)]

mod trusted;

pub use trusted::{MAX_LOADED, NoMemory, Trusted};

#[cfg(test)]
mod tests;
