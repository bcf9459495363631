//! Why bytes are no code directory.

use cs_policy::{DIRECTORY_FAMILY, Refusal};
use thiserror::Error;

/// The first rule, in this order, that the bytes break.
#[derive(Clone, Copy, Debug, PartialEq, Eq, Error)]
pub enum DirRefusal {
    /// There are fewer bytes than the shortest header has.
    #[error("too short for a code directory")]
    Short,
    /// The bytes do not begin with the magic of a code directory.
    #[error("not the magic of a code directory")]
    BadMagic,
    /// The length is below that of the version's header, or above the bytes given.
    #[error("bad length")]
    LengthBad,
    /// The version `v` is not from 0x20000 to 0x2ffff.
    #[error("version {v} is not known")]
    Version { v: u64 },
    /// A hash page has 2 to the power `n` bytes, and `n` is neither 12 nor 14.
    #[error("page size 2^{n} is not known")]
    PageSize { n: u64 },
    /// The number `n` is no hash type.
    #[error("hash type {n} is not known")]
    HashType { n: u64 },
    /// A slot has `n` bytes, other than the hash type gives.
    #[error("slots of {n} bytes do not fit the hash type")]
    HashSize { n: u64 },
    /// The special slots begin before the directory, or the code slots end behind it.
    #[error("slots outside the directory")]
    SlotsOut,
    /// There is a scatter vector.
    #[error("scatter vector")]
    Scatter,
    /// The identifier begins behind the directory, or no zero byte ends it there.
    #[error("bad identifier")]
    IdentBad,
    /// The team identifier begins behind the directory, or no zero byte ends it there.
    #[error("bad team identifier")]
    TeamBad,
}

impl DirRefusal {
    ghost use Rattle.std.specs.Prelude.{◌≡◌};
    ghost use Rattle.cs_directory.specs.Refusals.{number_of, argument_of};

    /// The number by which the refusal is printed, 1 to 11 in the order of the variants.
    pub fn number(&self) -> u8
        ensures { result ≡ number_of self.now }
    {
        match self {
            DirRefusal::Short => 1,
            DirRefusal::BadMagic => 2,
            DirRefusal::LengthBad => 3,
            DirRefusal::Version { .. } => 4,
            DirRefusal::PageSize { .. } => 5,
            DirRefusal::HashType { .. } => 6,
            DirRefusal::HashSize { .. } => 7,
            DirRefusal::SlotsOut => 8,
            DirRefusal::Scatter => 9,
            DirRefusal::IdentBad => 10,
            DirRefusal::TeamBad => 11,
        }
    }

    /// The version, the size or the hash type that the refusal tells of, or 0 where it has none.
    fn argument(&self) -> u64
        ensures { result ≡ argument_of self.now }
    {
        match *self {
            DirRefusal::Version { v } => v,
            DirRefusal::PageSize { n } | DirRefusal::HashType { n } | DirRefusal::HashSize { n } =>
                n,
            _ => 0,
        }
    }
}

/// The refusal in numbers, of the family of code directories.
impl From<DirRefusal> for Refusal {
    ghost use Rattle.std.specs.Prelude.{◌≡◌};
    ghost use Rattle.cs_directory.specs.Refusals.{refusal_of};

    ghost from_gives = { λ refusal result. result ≡ refusal_of refusal };

    fn from(refusal: DirRefusal) -> Refusal {
        Refusal {
            family: DIRECTORY_FAMILY,
            number: refusal.number(),
            a: refusal.argument(),
            b: 0,
        }
    }
}
