//! What a file keeps of the processes that map it: their regions, and what each was given of a page.

use crate::access::Prot;

/// A region of a file: pages that a process has mapped.
#[derive(Clone, Copy, Debug, PartialEq, Eq)]
pub struct Region {
    /// Its number, which no other region has.
    pub id: u32,
    /// The number of the process that has mapped it.
    pub pid: u32,
    /// The first page of the file that is mapped.
    pub first: u64,
    /// How many pages are mapped, from the first one on.
    pub pages: u64,
    /// What the process may do with the pages.
    pub prot: Prot,
    /// Writes change the file, and not a private copy.
    pub shared: bool,
}

/// What a region was given of one page of the file.
#[derive(Clone, Copy, Debug, PartialEq, Eq)]
pub struct Record {
    /// The number of the region.
    pub region: u32,
    /// The page of the file.
    pub page: u64,
    /// The page may be read.
    pub read: bool,
    /// The page may be written.
    pub write: bool,
    /// The page may be executed.
    pub execute: bool,
    /// The process was guarded when it was last given the page for execution.
    pub guarded: bool,
}
