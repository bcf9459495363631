//! One file with its signatures and mappings.
#![tactic(auto)]

mod access;
mod blobs;
mod compare;
mod enter;
mod evict;
mod give;
mod kept;
mod laws;
mod object;
mod opening;
mod rules;
mod signatures;
mod take;
mod write;

pub use laws::{calls_have_pages, checked_are_sealed};
pub use object::Object;
pub use opening::Room;
pub use std::alloc::AllocError as NoMemory;

#[cfg(test)]
mod tests;
#[cfg(test)]
mod trial;
#[cfg(test)]
mod words;
