//! How a run ends early, and its one line.

ghost use Rattle.std.specs.Prelude.{◌≡◌, ◌+◌, ◌++◌, ◌≤◌, ◌<◌, ℕ, length, codes, IfOk};
ghost use Rattle.std.specs.Fmt.{decimal};
ghost use Rattle.arrayvec.specs.ArrayString.{array_string_len};
ghost use Rattle.cs_sign.specs.Early.{status_of, item_line};

use crate::refusal::SignRefusal;
use arrayvec::ArrayString;
use pg_bytes::{Status, Which};
use std::alloc::{AllocError, AllocFailed};

/// The most bytes that a file may have.
pub(crate) const MOST: u64 = 67_108_864;

/// Why a run ends before it has made its file.
#[derive(Clone, Copy)]
pub(crate) enum Early {
    /// The words are none of the forms.
    Usage,
    /// The file of an item could not be read.
    Unread { item: u32 },
    /// A file has more bytes than it may have.
    TooLarge,
    /// The file is not signed.
    Refused(SignRefusal),
    /// A file is not sealed: a slice is refused, or a page does not match, or there is no slice.
    NotSealed { item: u32 },
}

/// An early end, or want of memory.
#[derive(Clone, Copy)]
pub(crate) enum Stop {
    Early(Early),
    NoMemory,
}

impl From<AllocError> for Stop {
    ghost use Rattle.cs_sign.specs.declared.early.Stop.TheVariants.{NoMemory};

    ghost from_gives = { λ _ stop. stop ≡ NoMemory };

    fn from(_error: AllocError) -> Stop {
        Stop::NoMemory
    }
}

impl<T: Drop> From<AllocFailed<T>> for Stop {
    ghost use Rattle.cs_sign.specs.declared.early.Stop.TheVariants.{NoMemory};

    ghost from_gives = { λ _ stop. stop ≡ NoMemory };

    fn from(_failed: AllocFailed<T>) -> Stop {
        Stop::NoMemory
    }
}

/// The status of an early end.
pub(crate) fn status_of(early: Early) -> Status
    ensures { result ≡ status_of early }
{
    match early {
        Early::Usage => Status::Usage,
        Early::Unread { item } => Status::FileFault { item },
        Early::TooLarge => Status::Limit {
            which: Which::FileBytes,
            number: MOST,
        },
        Early::Refused(_) | Early::NotSealed { .. } => Status::NotSealed,
    }
}

/// A line of at most 64 bytes, which takes no memory.
pub(crate) type Line = ArrayString<64>;

/// The line of an item: its number between two texts.
pub(crate) fn item_line(before: &str, item: u32, behind: &str) -> Line
    requires before { length before.now ≤ 25 }
    requires behind { length behind.now ≤ 16 }
    ensures { result.bytes ≡ item_line before.now item behind.now }
{
    let mut line = Line::new();
    line.push_str(before);
    let mut buffer = itoa::Buffer::new();
    line.push_str(buffer.format(item));
    line.push_str(behind);
    line
}
