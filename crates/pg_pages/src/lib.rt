//! A page cache that can check a page against digests, and keeps what it found.
//!
//! `Pages` is a cache of `pg_cache` with a digester and marks. Its calls on pages are those of the cache, under the
//! same contracts. `check` tells whether the parts of a page have the digests that are wanted. What a page was found
//! sealed by is kept while it stays as it is, so that the next check of it takes no digest. The contracts say what
//! each call does to the marks (`specs/Marks.antt`, `specs/MarkSteps.antt`).
#![tactic(auto)]

mod check;
mod marking;
mod marks;
mod pages;
mod parts;
mod row;

pub use check::Check;
pub use pages::Pages;
pub use pg_cache::PagerFault;
pub use std::alloc::AllocError as NoMemory;

#[cfg(test)]
mod tests;
