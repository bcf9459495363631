//! Why bytes are no trust cache.

ghost use Rattle.std.specs.Prelude.{◌≡◌};
ghost use Rattle.cs_trust.specs.declared.refusal.TrustFail.TheVariants as fail;

use cs_policy::{Refusal, TRUST_FAMILY};
pub use std::alloc::AllocError as NoMemory;
use thiserror::Error;

/// The rule that the bytes break first. The rules are tried in the order Short, Version, TooMany, LengthBad,
/// NotSorted.
#[derive(Clone, Copy, Debug, PartialEq, Eq, Error)]
pub enum TrustRefusal {
    /// There are fewer bytes than the header has, 24.
    #[error("too short for a trust cache")]
    Short,
    /// The version `v` is neither 1 nor 2.
    #[error("version {v} is not known")]
    Version { v: u64 },
    /// The bytes are not as many as the header and the number of entries that it gives.
    #[error("bad length")]
    LengthBad,
    /// The entry at `place`, counted from 0, has a cdhash less than that of the entry before.
    #[error("entry {place} is not in order")]
    NotSorted { place: u64 },
    /// The header gives more than 65,536 entries.
    #[error("too many entries")]
    TooMany,
}

impl TrustRefusal {
    ghost use Rattle.cs_trust.specs.Refusals.{number_of, argument_of};

    /// The number by which a printed refusal is told, 1 to 5 in the order of the variants.
    pub fn number(&self) -> u8
        ensures { result ≡ number_of self.now }
    {
        match self {
            TrustRefusal::Short => 1,
            TrustRefusal::Version { .. } => 2,
            TrustRefusal::LengthBad => 3,
            TrustRefusal::NotSorted { .. } => 4,
            TrustRefusal::TooMany => 5,
        }
    }

    /// The version or the place that the refusal tells of, or 0 where it has none.
    fn argument(&self) -> u64
        ensures { result ≡ argument_of self.now }
    {
        match self {
            TrustRefusal::Version { v } => *v,
            TrustRefusal::NotSorted { place } => *place,
            TrustRefusal::Short | TrustRefusal::LengthBad | TrustRefusal::TooMany => 0,
        }
    }
}

/// The refusal in numbers, of the family of trust caches.
impl From<TrustRefusal> for Refusal {
    ghost use Rattle.cs_trust.specs.Refusals.{refusal_of};

    ghost from_gives = { λ refusal result. result ≡ refusal_of refusal };

    fn from(refusal: TrustRefusal) -> Refusal {
        Refusal {
            family: TRUST_FAMILY,
            number: refusal.number(),
            a: refusal.argument(),
            b: 0,
        }
    }
}

/// Why no module was made of bytes.
#[derive(Clone, Copy, Debug, PartialEq, Eq, Error)]
pub enum TrustFail {
    /// The bytes are no trust cache.
    #[error(transparent)]
    Refused(TrustRefusal),
    /// Memory ran out.
    #[error("out of memory")]
    NoMemory,
}

impl From<TrustRefusal> for TrustFail {
    ghost from_gives = { λ refusal result. result ≡ fail.Refused refusal };

    fn from(refusal: TrustRefusal) -> TrustFail {
        TrustFail::Refused(refusal)
    }
}

impl From<NoMemory> for TrustFail {
    ghost from_gives = { λ _ result. result ≡ fail.NoMemory };

    fn from(_refused: NoMemory) -> TrustFail {
        TrustFail::NoMemory
    }
}
