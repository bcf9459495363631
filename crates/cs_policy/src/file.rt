//! Events and replies of a file.

ghost use Rattle.std.specs.Prelude.{◌≡◌, IfOk, IsErr};
ghost use Rattle.cs_policy.specs.Data.{IsHex};
ghost use Rattle.cs_policy.specs.Entry.{HoldsEventBytes, HoldsReplyBytes};

use crate::access::Access;
use crate::data::{Bytes64, Data};
use crate::denial::Denial;
use crate::flags::ProcFlags;
use crate::refusal::Refusal;
use crate::region::Region;
use pg_bytes::Octets;
use std::alloc::{AllocError, Global};

/// What happens to a file. A slice, a region and a page go by their numbers. `read`, `lookup`, `insert` and `resolve`
/// are stamps of earlier events of the same call, on which the event rests.
#[derive(Debug, Drop)]
pub enum FileEvent {
    /// The bytes of a slice's signature are read.
    ReadSignature {
        slice: u32,
    },
    /// A signature of the slice, whose best code directory has the cdhash, is attached. `read` read its bytes, and
    /// `lookup` looked the cdhash up.
    AddBlob {
        slice: u32,
        cdhash: [u8; 20],
        read: u64,
        lookup: u64,
    },
    /// The bytes that `read` read break the grammar of signatures.
    RefuseBlob {
        read: u64,
        refusal: Refusal,
    },
    /// Data are written from the byte `at` of the file on.
    Write {
        at: u64,
        piece: Data,
    },
    /// A region is added, which `insert` mapped.
    AddRegion {
        region: Region,
        insert: u64,
    },
    /// The region of this number is dropped.
    DropRegion {
        id: u32,
    },
    /// All regions of a process are dropped.
    DropPid {
        pid: u32,
    },
    /// A region asks for a page by a fault. `resolve` found the region, the page and the flags.
    Enter {
        id: u32,
        page: u64,
        access: Access,
        flags: ProcFlags,
        resolve: u64,
    },
    /// Bytes are stored from the byte `at` of a page on, through a region.
    Store {
        id: u32,
        page: u64,
        at: u32,
        bytes: Bytes64,
        resolve: u64,
    },
    /// `count` bytes are loaded from the byte `at` of a page on, through a region.
    Load {
        id: u32,
        page: u64,
        at: u32,
        count: u32,
        resolve: u64,
    },
    /// `count` bytes are fetched for execution from the byte `at` of a page on, through a region.
    Fetch {
        id: u32,
        page: u64,
        at: u32,
        count: u32,
        resolve: u64,
    },
    /// A page leaves memory.
    Evict {
        page: u64,
    },
}

/// What a file answers. An attached signature goes by its number `blob`, counted from 0 in the order of attaching.
#[derive(Debug, Drop)]
pub enum FileReply {
    /// The file is no thin or fat file.
    NoSlices(Refusal),
    /// The file has no such slice; it has `count` slices.
    NoSlice {
        count: u32,
    },
    /// The slice is no signed image.
    NoImage(Refusal),
    /// The pager failed at this page.
    PagerFault {
        page: u64,
    },
    /// The present bytes of the signature's range.
    Read {
        bytes: Octets,
    },
    /// This attached signature is of the same slice and has the same cdhash.
    Already {
        blob: u32,
    },
    /// This attached signature covers a page that the new one covers, too: the one with the least number.
    Overlap {
        blob: u32,
    },
    /// The signature is attached with this number.
    Attached {
        blob: u32,
    },
    /// The refusal is noted.
    Noted,
    /// The write passes the file's end; the file has `length` bytes.
    PastEnd {
        length: u64,
    },
    /// The pager failed; the first `written` bytes stand.
    Short {
        written: u64,
    },
    /// All `count` bytes stand.
    Written {
        count: u64,
    },
    /// The region stands.
    Added,
    /// No region of this number stands that has the page.
    NoRegion {
        id: u32,
    },
    /// The region is dropped, with its records and private copies.
    Dropped,
    /// So many regions are dropped in the same way.
    DroppedAll {
        count: u32,
    },
    /// The access breaks this rule, and is denied.
    Denied(Denial),
    /// The access is given. `victim` is the page that left memory for this one, and `violation` the rule that the
    /// access breaks, where the process is not guarded.
    Given {
        victim: Option<u64>,
        violation: Option<Denial>,
    },
    /// The region may not access the page so.
    NotMapped,
    /// The bytes are stored.
    Stored,
    /// These are the bytes.
    Got {
        bytes: Bytes64,
    },
    /// The page is not in memory.
    NotResident,
    /// The page has left memory.
    Evicted,
}

impl FileEvent {
    /// An equal value. The error, `AllocError`, comes only where the event holds the bytes of a write and there is no
    /// memory for them.
    pub fn copy(&self) -> Result<FileEvent, AllocError>
        ensures value { IfOk result (λ copy. copy ≡ self.now) }
        ensures owned { IsErr result → HoldsEventBytes self.now }
    {
        Ok(match self {
            FileEvent::ReadSignature { slice } => FileEvent::ReadSignature { slice: *slice },
            FileEvent::AddBlob {
                slice,
                cdhash,
                read,
                lookup,
            } => FileEvent::AddBlob {
                slice: *slice,
                cdhash: *cdhash,
                read: *read,
                lookup: *lookup,
            },
            FileEvent::RefuseBlob { read, refusal } => FileEvent::RefuseBlob {
                read: *read,
                refusal: *refusal,
            },
            FileEvent::Write { at, piece } => FileEvent::Write {
                at: *at,
                piece: piece.copy()?,
            },
            FileEvent::AddRegion { region, insert } => FileEvent::AddRegion {
                region: *region,
                insert: *insert,
            },
            FileEvent::DropRegion { id } => FileEvent::DropRegion { id: *id },
            FileEvent::DropPid { pid } => FileEvent::DropPid { pid: *pid },
            FileEvent::Enter {
                id,
                page,
                access,
                flags,
                resolve,
            } => FileEvent::Enter {
                id: *id,
                page: *page,
                access: *access,
                flags: *flags,
                resolve: *resolve,
            },
            FileEvent::Store {
                id,
                page,
                at,
                bytes,
                resolve,
            } => FileEvent::Store {
                id: *id,
                page: *page,
                at: *at,
                bytes: bytes.copy(),
                resolve: *resolve,
            },
            FileEvent::Load {
                id,
                page,
                at,
                count,
                resolve,
            } => FileEvent::Load {
                id: *id,
                page: *page,
                at: *at,
                count: *count,
                resolve: *resolve,
            },
            FileEvent::Fetch {
                id,
                page,
                at,
                count,
                resolve,
            } => FileEvent::Fetch {
                id: *id,
                page: *page,
                at: *at,
                count: *count,
                resolve: *resolve,
            },
            FileEvent::Evict { page } => FileEvent::Evict { page: *page },
        })
    }
}

impl FileReply {
    /// An equal value. The error, `AllocError`, comes only where the reply holds the bytes of a signature and there is
    /// no memory for them.
    pub fn copy(&self) -> Result<FileReply, AllocError>
        ensures value { IfOk result (λ copy. copy ≡ self.now) }
        ensures owned { IsErr result → HoldsReplyBytes self.now }
    {
        Ok(match self {
            FileReply::NoSlices(refusal) => FileReply::NoSlices(*refusal),
            FileReply::NoSlice { count } => FileReply::NoSlice { count: *count },
            FileReply::NoImage(refusal) => FileReply::NoImage(*refusal),
            FileReply::PagerFault { page } => FileReply::PagerFault { page: *page },
            FileReply::Read { bytes } => FileReply::Read {
                bytes: bytes.copy()?,
            },
            FileReply::Already { blob } => FileReply::Already { blob: *blob },
            FileReply::Overlap { blob } => FileReply::Overlap { blob: *blob },
            FileReply::Attached { blob } => FileReply::Attached { blob: *blob },
            FileReply::Noted => FileReply::Noted,
            FileReply::PastEnd { length } => FileReply::PastEnd { length: *length },
            FileReply::Short { written } => FileReply::Short { written: *written },
            FileReply::Written { count } => FileReply::Written { count: *count },
            FileReply::Added => FileReply::Added,
            FileReply::NoRegion { id } => FileReply::NoRegion { id: *id },
            FileReply::Dropped => FileReply::Dropped,
            FileReply::DroppedAll { count } => FileReply::DroppedAll { count: *count },
            FileReply::Denied(denial) => FileReply::Denied(*denial),
            FileReply::Given { victim, violation } => FileReply::Given {
                victim: *victim,
                violation: *violation,
            },
            FileReply::NotMapped => FileReply::NotMapped,
            FileReply::Stored => FileReply::Stored,
            FileReply::Got { bytes } => FileReply::Got {
                bytes: bytes.copy(),
            },
            FileReply::NotResident => FileReply::NotResident,
            FileReply::Evicted => FileReply::Evicted,
        })
    }
}
