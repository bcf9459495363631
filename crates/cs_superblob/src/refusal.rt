//! Why bytes are no SuperBlob.

use cs_policy::{Refusal, SUPERBLOB_FAMILY};
use std::alloc::{AllocError, AllocFailed};
use thiserror::Error;

/// The first rule, in this order, that the bytes break.
#[derive(Clone, Copy, Debug, PartialEq, Eq, Error)]
pub enum SuperRefusal {
    /// There are fewer bytes than the header has, 12.
    #[error("too short for a SuperBlob")]
    Short,
    /// The bytes begin with `magic`, which is not that of an embedded signature.
    #[error("{magic:#x} is not the magic of an embedded signature")]
    BadMagic { magic: u64 },
    /// The length is below that of the header, or above the bytes given.
    #[error("bad length")]
    LengthBad,
    /// There are more than 1,024 entries, or the table ends behind the SuperBlob.
    #[error("bad number of entries")]
    CountBad,
    /// The blob of entry `index`, counted from 0, begins within the table, is shorter than its own header, or
    /// ends behind the SuperBlob.
    #[error("entry {index} is out of place")]
    EntryOut { index: u64 },
    /// Two entries have the type `slot`.
    #[error("two entries of type {slot:#x}")]
    Twice { slot: u64 },
}

impl SuperRefusal {
    ghost use Rattle.std.specs.Prelude.{◌≡◌};
    ghost use Rattle.cs_superblob.specs.Refusals.{number_of, argument_of};

    /// The number by which the refusal is printed, 1 to 6 in the order of the variants.
    pub fn number(&self) -> u8
        ensures { result ≡ number_of self.now }
    {
        match self {
            SuperRefusal::Short => 1,
            SuperRefusal::BadMagic { .. } => 2,
            SuperRefusal::LengthBad => 3,
            SuperRefusal::CountBad => 4,
            SuperRefusal::EntryOut { .. } => 5,
            SuperRefusal::Twice { .. } => 6,
        }
    }

    /// What else the refusal tells, or 0.
    fn argument(&self) -> u64
        ensures { result ≡ argument_of self.now }
    {
        match *self {
            SuperRefusal::BadMagic { magic } => magic,
            SuperRefusal::EntryOut { index } => index,
            SuperRefusal::Twice { slot } => slot,
            SuperRefusal::Short | SuperRefusal::LengthBad | SuperRefusal::CountBad => 0,
        }
    }
}

/// The refusal in numbers, of the family of SuperBlobs.
impl From<SuperRefusal> for Refusal {
    ghost use Rattle.std.specs.Prelude.{◌≡◌};
    ghost use Rattle.cs_superblob.specs.Refusals.{refusal_of};

    ghost from_gives = { λ refusal result. result ≡ refusal_of refusal };

    fn from(refusal: SuperRefusal) -> Refusal {
        Refusal {
            family: SUPERBLOB_FAMILY,
            number: refusal.number(),
            a: refusal.argument(),
            b: 0,
        }
    }
}

/// Why there is no index.
#[derive(Clone, Copy, Debug, PartialEq, Eq, Error)]
pub enum SuperFail {
    /// The bytes are no SuperBlob.
    #[error(transparent)]
    Refused(SuperRefusal),
    /// Memory ran out.
    #[error("out of memory")]
    NoMemory,
}

impl From<SuperRefusal> for SuperFail {
    ghost use Rattle.std.specs.Prelude.{◌≡◌};
    ghost use Rattle.cs_superblob.specs.declared.refusal.SuperFail.TheVariants.{Refused};

    ghost from_gives = { λ refusal fail. fail ≡ Refused refusal };

    fn from(refusal: SuperRefusal) -> SuperFail {
        SuperFail::Refused(refusal)
    }
}

impl From<AllocError> for SuperFail {
    ghost use Rattle.std.specs.Prelude.{◌≡◌};
    ghost use Rattle.cs_superblob.specs.declared.refusal.SuperFail.TheVariants.{NoMemory};

    ghost from_gives = { λ _ fail. fail ≡ NoMemory };

    fn from(_error: AllocError) -> SuperFail {
        SuperFail::NoMemory
    }
}

impl<T: Drop> From<AllocFailed<T>> for SuperFail {
    ghost use Rattle.std.specs.Prelude.{◌≡◌};
    ghost use Rattle.cs_superblob.specs.declared.refusal.SuperFail.TheVariants.{NoMemory};

    ghost from_gives = { λ _ fail. fail ≡ NoMemory };

    fn from(_failed: AllocFailed<T>) -> SuperFail {
        SuperFail::NoMemory
    }
}
