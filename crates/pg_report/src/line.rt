//! A line of a journal.

ghost use Rattle.std.specs.Prelude.{◌≡◌};
ghost use Rattle.pg_report.specs.declared.line.JournalFail.TheVariants.{NoMemory};

use cs_policy::Entry;
use std::alloc::{AllocError, AllocFailed};

/// The line of an event, as it is read: its stamp and the entry. Of the bytes of a signature that was read only their
/// number is known, `read`, which is 0 for every other reply. The bytes and the number of pages of a file that was
/// mapped are left out: a reply `Read` has no bytes, and an `Insert` has 0 as its `file_pages`.
#[derive(Debug, Drop)]
pub struct Line {
    pub stamp: u64,
    pub entry: Entry,
    pub read: u64,
}

/// Why a journal was not read.
#[derive(Clone, Copy, Debug, PartialEq, Eq)]
pub enum JournalFail {
    /// There was no memory left.
    NoMemory,
    /// The line with this number, counted from 1, is the first that no journal has there.
    Bad { line: u64 },
}

impl From<AllocError> for JournalFail {
    ghost from_gives = { λ _ e. e ≡ NoMemory };

    fn from(_e: AllocError) -> JournalFail {
        JournalFail::NoMemory
    }
}

impl<T: Drop> From<AllocFailed<T>> for JournalFail {
    ghost from_gives = { λ _ e. e ≡ NoMemory };

    fn from(_e: AllocFailed<T>) -> JournalFail {
        JournalFail::NoMemory
    }
}
