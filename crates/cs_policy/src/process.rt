//! Events and replies of a process.

use crate::access::{Access, Prot};
use crate::flags::ProcFlags;

/// What happens to a process.
#[derive(Clone, Copy, Debug, PartialEq, Eq)]
pub enum ProcEvent {
    /// The process starts.
    Start,
    /// Pages of a file are mapped: `pages` pages from the page `first` of the file on, at the address `at`. The
    /// file has `file_pages` pages.
    Insert {
        at: u64,
        file: u32,
        file_pages: u64,
        first: u64,
        pages: u64,
        prot: Prot,
        shared: bool,
    },
    /// The process asks for a page by an address.
    Resolve {
        addr: u64,
        access: Access,
    },
    /// The region that begins at this address is unmapped.
    Remove {
        at: u64,
    },
    /// A debugger attaches.
    Debug,
    /// An access was denied: the process is killed where its flags ask for it, and else spared.
    Punish,
    /// An access was given in spite of a broken rule.
    ClearValid,
    /// The process ends.
    Exit,
}

/// What a process answers. A region goes by its number `id`, a file by its own, and pages are pages of a file.
#[derive(Clone, Copy, Debug, PartialEq, Eq)]
pub enum ProcReply {
    /// The process was not started, or has ended.
    Dead,
    /// The process was killed.
    Killed,
    /// The process was started before.
    Started {
        pid: u32,
    },
    /// The process starts with these flags.
    Began {
        flags: ProcFlags,
    },
    /// The file ends before the pages that were asked for; it has `pages` pages.
    OutOfFile {
        pages: u64,
    },
    /// Addresses of this region were asked for, the one with the least number of those.
    Overlap {
        id: u32,
    },
    /// As many regions stand as can, `limit`.
    Full {
        limit: u32,
    },
    /// The pages are mapped as the region of this number.
    Inserted {
        id: u32,
    },
    /// No region is there.
    NoMap,
    /// The region does not permit the access.
    Prot {
        id: u32,
    },
    /// The address lies in this region and on this page of the file. The process has these flags now.
    Region {
        id: u32,
        file: u32,
        page: u64,
        flags: ProcFlags,
    },
    /// The region is unmapped; its pages were of this file.
    Removed {
        id: u32,
        file: u32,
    },
    /// The process is debugged, and has these flags now.
    Debugged {
        flags: ProcFlags,
    },
    /// The process is killed.
    Kill,
    /// The process goes on.
    Spare,
    /// VALID is cleared, and the process has these flags now.
    Cleared {
        flags: ProcFlags,
    },
    /// The process has ended. Bit k of `files` is set where one of its regions had pages of file k.
    Exited {
        files: u16,
    },
}
