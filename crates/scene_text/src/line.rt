//! A line of a scene, and what the lines above it have declared.

use crate::head::Head;
use cs_policy::Call;

/// What a line of a scene says, behind the first one.
#[derive(Debug, Drop)]
pub enum Line {
    /// A header line.
    Head(Head),
    /// The next script begins.
    Script,
    /// A call of the script that was begun last.
    Call(Call),
}

/// What lines have declared.
#[derive(Clone, Copy, Debug)]
pub struct Known {
    /// How many files.
    pub files: u64,
    /// How many processes.
    pub processes: u64,
    /// How many trust caches that can be loaded.
    pub caches: u64,
    /// Pages have 16,384 bytes, and else 4,096.
    pub large: bool,
    /// A line says how many bytes a page has.
    pub sized: bool,
    /// A line says how many pages of a file are in memory.
    pub limited: bool,
    /// A line says that blobs may go unlisted.
    pub adhoc: bool,
    /// A script has begun.
    pub script: bool,
}
