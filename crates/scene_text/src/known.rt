//! What the lines above a line have declared.

ghost use Rattle.std.specs.Prelude.{◌≡◌, [], IfOk};
ghost use Rattle.scene_text.specs.Known.{known_of, known_after, counted, is_file, is_process, is_cache, is_page_size, is_resident, is_adhoc, is_script, large_after};

use crate::head::Head;
use crate::line::{Known, Line};
use std::alloc::AllocError;

/// One more, where a line declares one. So many that 64 bits do not count them do not fit into memory.
fn counted(count: u64, declares: bool) -> Result<u64, AllocError>
    ensures { IfOk result (λ n. n ≡ counted count declares) }
{
    if declares {
        count.checked_add(1).ok_or(AllocError)
    } else {
        Ok(count)
    }
}

impl Known {
    /// What no lines have declared.
    pub fn nothing() -> Known
        ensures { result ≡ known_of [] }
    {
        Known {
            files: 0,
            processes: 0,
            caches: 0,
            large: false,
            sized: false,
            limited: false,
            adhoc: false,
            script: false,
        }
    }

    /// What is declared behind one more line. The error comes where a count does not fit 64 bits.
    pub fn after(&self, line: &Line) -> Result<Known, AllocError>
        ensures { IfOk result (λ known. known ≡ known_after self.now line.now) }
    {
        Ok(Known {
            files: counted(self.files, line.is_file())?,
            processes: counted(self.processes, line.is_process())?,
            caches: counted(self.caches, line.is_cache())?,
            large: line.large_after(self.large),
            sized: self.sized || line.is_page_size(),
            limited: self.limited || line.is_resident(),
            adhoc: self.adhoc || line.is_adhoc(),
            script: self.script || line.is_script(),
        })
    }
}

impl Line {
    /// Whether it declares a file.
    fn is_file(&self) -> bool
        ensures { result ≡ is_file self.now }
    {
        matches!(self, Line::Head(Head::File { .. } | Head::Raw { .. }))
    }

    /// Whether it declares a process.
    fn is_process(&self) -> bool
        ensures { result ≡ is_process self.now }
    {
        matches!(self, Line::Head(Head::Process { .. }))
    }

    /// Whether it declares a trust cache that can be loaded.
    fn is_cache(&self) -> bool
        ensures { result ≡ is_cache self.now }
    {
        matches!(self, Line::Head(Head::Cache { .. }))
    }

    /// Whether it says how many bytes a page has.
    fn is_page_size(&self) -> bool
        ensures { result ≡ is_page_size self.now }
    {
        matches!(self, Line::Head(Head::PageSize { .. }))
    }

    /// Whether it says how many pages are in memory.
    fn is_resident(&self) -> bool
        ensures { result ≡ is_resident self.now }
    {
        matches!(self, Line::Head(Head::Resident { .. }))
    }

    /// Whether it says that blobs may go unlisted.
    fn is_adhoc(&self) -> bool
        ensures { result ≡ is_adhoc self.now }
    {
        matches!(self, Line::Head(Head::Adhoc))
    }

    /// Whether it begins a script.
    fn is_script(&self) -> bool
        ensures { result ≡ is_script self.now }
    {
        matches!(self, Line::Script)
    }

    /// Whether pages are large behind it, where they were so before it or not.
    fn large_after(&self, before: bool) -> bool
        ensures { result ≡ large_after before self.now }
    {
        match self {
            Line::Head(Head::PageSize { bytes }) => *bytes == 16384,
            _ => before,
        }
    }
}
