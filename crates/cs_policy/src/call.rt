//! The calls that a script is made of.

use crate::access::{Access, Prot};
use crate::data::{Bytes64, Data};

/// One call of a script. A process, a file and a trust cache go by their numbers, counted from 0 in the order in which
/// the scene declares them, and pages are pages of the file.
#[derive(Debug, Drop)]
pub enum Call {
    /// A process starts.
    Spawn {
        pid: u32,
    },
    /// `pages` pages of a file are mapped at an address, from the page `first` on.
    Map {
        pid: u32,
        addr: u64,
        file: u32,
        first: u64,
        pages: u64,
        prot: Prot,
        shared: bool,
    },
    /// The region that begins at an address is unmapped.
    Unmap {
        pid: u32,
        addr: u64,
    },
    /// The signature of a slice is attached.
    Attach {
        file: u32,
        slice: u32,
    },
    /// A trust cache is loaded.
    LoadTrust {
        cache: u32,
    },
    /// A process asks for the page of an address.
    Fault {
        pid: u32,
        addr: u64,
        access: Access,
    },
    /// A process stores bytes at an address.
    Store {
        pid: u32,
        addr: u64,
        bytes: Bytes64,
    },
    /// A process loads bytes from an address.
    Load {
        pid: u32,
        addr: u64,
        count: u32,
    },
    /// A process fetches bytes for execution from an address.
    Fetch {
        pid: u32,
        addr: u64,
        count: u32,
    },
    /// Data are written to a file, from a byte on.
    Write {
        file: u32,
        at: u64,
        piece: Data,
    },
    /// A page of a file leaves memory.
    Evict {
        file: u32,
        page: u64,
    },
    /// A debugger attaches to a process.
    Debug {
        pid: u32,
    },
    /// A process ends.
    Exit {
        pid: u32,
    },
}
