//! The kinds of bad lines, and the tests of columns that lead to them.

ghost use Rattle.std.specs.Prelude.{◌≡◌, ◌<◌, ◌^◌, Ok, Err, ok_or, nat_lt, MatchResult};
ghost use Rattle.scene_text.specs.declared.checks.Refused.TheVariants.{NoMemory, Kind};
ghost use Rattle.scene_text.specs.Checks.{IsDeclared, IsNarrow, in_range_if};

use std::alloc::{AllocError, AllocFailed};

/// The line holds a byte outside 0x20 to 0x7e.
pub const NOT_TEXT: u8 = 1;

/// The first line is not `scene 1`.
pub const FIRST_LINE: u8 = 2;

/// The line begins with no word of the language.
pub const UNKNOWN_WORD: u8 = 3;

/// The line stands at a wrong place.
pub const PLACE: u8 = 4;

/// The line has another number of words.
pub const WORDS: u8 = 5;

/// A word is not of its column's form.
pub const FORM: u8 = 6;

/// A name was not declared above.
pub const UNKNOWN: u8 = 7;

/// A number, an address or a length is outside its range.
pub const RANGE: u8 = 8;

/// The most that a number of 32 bits is.
pub const MOST_SHORT: u64 = 0xffff_ffff;

/// Why a line was not read: the first kind of bad line that it is, or want of memory.
#[derive(Clone, Copy, Debug)]
pub enum Refused {
    NoMemory,
    Kind(u8),
}

impl From<AllocError> for Refused {
    ghost from_gives = { λ _ e. e ≡ NoMemory };

    fn from(_e: AllocError) -> Refused {
        Refused::NoMemory
    }
}

impl<T: Drop> From<AllocFailed<T>> for Refused {
    ghost from_gives = { λ _ e. e ≡ NoMemory };

    fn from(_e: AllocFailed<T>) -> Refused {
        Refused::NoMemory
    }
}

/// What a word says, which is to be of its column's form.
pub fn form<T: Drop>(said: Option<T>) -> Result<T, Refused>
    ensures { result ≡ ok_or said (Kind 6) }
{
    said.ok_or(Refused::Kind(FORM))
}

/// The number of a file, a process or a trust cache, of which so many are declared. So many that the number has more
/// than 32 bits do not fit into memory.
pub fn declared(count: u64, number: u64) -> Result<u32, Refused>
    ensures { IsDeclared count number result }
{
    if number >= count {
        return Err(Refused::Kind(UNKNOWN));
    }
    u32::try_from(number).map_err(|_| Refused::NoMemory)
}

/// A number of 32 bits.
pub fn narrow(number: u64) -> Result<u32, Refused>
    ensures { IsNarrow number result }
{
    u32::try_from(number).map_err(|_| Refused::Kind(RANGE))
}

/// A test of the ranges.
pub fn in_range(holds: bool) -> Result<(), Refused>
    ensures { result ≡ in_range_if holds }
{
    if holds {
        Ok(())
    } else {
        Err(Refused::Kind(RANGE))
    }
}
