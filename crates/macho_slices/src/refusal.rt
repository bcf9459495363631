//! Why bytes are no file of Mach-O images.

use cs_policy::{FAT_FAMILY, Refusal};
use std::alloc::{AllocError, AllocFailed};
use thiserror::Error;

/// The rule that the bytes break first. The rules are tried in the order of the variants, but that Short is tried
/// three times: before the magic, before the number of records, and for the records behind it.
#[derive(Clone, Copy, Debug, PartialEq, Eq, Error)]
pub enum FatRefusal {
    /// There are fewer than the four bytes of a magic, or the header or the records of a fat file are cut.
    #[error("too short for a file of Mach-O images")]
    Short,
    /// The bytes begin neither as a thin file of 64 bits nor as a fat file.
    #[error("not the magic of a file of Mach-O images")]
    BadMagic,
    /// There are `count` records, more than 32.
    #[error("{count} architectures are too many")]
    TooMany { count: u64 },
    /// The slice of record `arch`, counted from 0, ends behind the file. It is the first such record.
    #[error("the slice of architecture {arch} ends behind the file")]
    OutOfFile { arch: u64 },
    /// The slices of the records `a` and `b`, counted from 0, share a byte. `b` is the least number of a slice that
    /// shares one with an earlier slice, and `a` is the least number of such a slice.
    #[error("the slices of the architectures {a} and {b} overlap")]
    Overlap { a: u64, b: u64 },
}

impl FatRefusal {
    ghost use Rattle.std.specs.Prelude.{◌≡◌};
    ghost use Rattle.macho_slices.specs.Refusals.{number_of, arguments_of};

    /// The number by which the refusal is printed, 1 to 5 in the order of the variants.
    pub fn number(&self) -> u8
        ensures { result ≡ number_of self.now }
    {
        match self {
            FatRefusal::Short => 1,
            FatRefusal::BadMagic => 2,
            FatRefusal::TooMany { .. } => 3,
            FatRefusal::OutOfFile { .. } => 4,
            FatRefusal::Overlap { .. } => 5,
        }
    }

    /// The numbers that the refusal tells, in the order of its fields, or 0 in place of each that it lacks.
    fn arguments(&self) -> (u64, u64)
        ensures { result ≡ arguments_of self.now }
    {
        match *self {
            FatRefusal::Short | FatRefusal::BadMagic => (0, 0),
            FatRefusal::TooMany { count } => (count, 0),
            FatRefusal::OutOfFile { arch } => (arch, 0),
            FatRefusal::Overlap { a, b } => (a, b),
        }
    }
}

/// The refusal in numbers, of the family of fat files.
impl From<FatRefusal> for Refusal {
    ghost use Rattle.std.specs.Prelude.{◌≡◌};
    ghost use Rattle.macho_slices.specs.Refusals.{refusal_of};

    ghost from_gives = { λ refusal result. result ≡ refusal_of refusal };

    fn from(refusal: FatRefusal) -> Refusal {
        let (a, b) = refusal.arguments();
        Refusal {
            family: FAT_FAMILY,
            number: refusal.number(),
            a,
            b,
        }
    }
}

/// Why the bytes are refused, or that memory ran out.
#[derive(Clone, Copy, Debug, PartialEq, Eq, Error)]
pub enum FatFail {
    /// The bytes are no file of Mach-O images.
    #[error(transparent)]
    Refused(FatRefusal),
    /// Memory ran out.
    #[error("out of memory")]
    NoMemory,
}

impl From<FatRefusal> for FatFail {
    ghost use Rattle.std.specs.Prelude.{◌≡◌};
    ghost use Rattle.macho_slices.specs.declared.refusal.FatFail.TheVariants.{Refused};

    ghost from_gives = { λ refusal fail. fail ≡ Refused refusal };

    fn from(refusal: FatRefusal) -> FatFail {
        FatFail::Refused(refusal)
    }
}

impl From<AllocError> for FatFail {
    ghost use Rattle.std.specs.Prelude.{◌≡◌};
    ghost use Rattle.macho_slices.specs.declared.refusal.FatFail.TheVariants.{NoMemory};

    ghost from_gives = { λ _ fail. fail ≡ NoMemory };

    fn from(_error: AllocError) -> FatFail {
        FatFail::NoMemory
    }
}

impl<T: Drop> From<AllocFailed<T>> for FatFail {
    ghost use Rattle.std.specs.Prelude.{◌≡◌};
    ghost use Rattle.macho_slices.specs.declared.refusal.FatFail.TheVariants.{NoMemory};

    ghost from_gives = { λ _ fail. fail ≡ NoMemory };

    fn from(_failed: AllocFailed<T>) -> FatFail {
        FatFail::NoMemory
    }
}
