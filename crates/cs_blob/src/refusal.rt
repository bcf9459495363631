//! Why bytes are no signature of a slice.

use cs_directory::DirRefusal;
use cs_policy::{Refusal, SIGNATURE_FAMILY};
use cs_superblob::{SuperFail, SuperRefusal};
use std::alloc::{AllocError, AllocFailed};
use thiserror::Error;

/// Which rule the bytes break. Where they break several, the refusal is that of the first in the order that
/// `blob` gives.
#[derive(Clone, Copy, Debug, PartialEq, Eq, Error)]
pub enum BlobRefusal {
    /// The bytes begin with no code directory's magic and are no SuperBlob.
    #[error(transparent)]
    Super(SuperRefusal),
    /// A code directory is refused, one among the blobs or one that stands alone.
    #[error(transparent)]
    Dir(DirRefusal),
    /// No blob has type 0.
    #[error("no code directory")]
    NoDirectory,
    /// The code directories of types `a` and `b` have hash types of one rank. The one of type `b` is the first
    /// that repeats a rank, and `a` is the type of the one before it.
    #[error("the code directories {a:#x} and {b:#x} have the same rank")]
    SameRank { a: u64, b: u64 },
    /// The CMS signature is a blob of `len` bytes, and not an empty one of 8.
    #[error("a CMS signature of {len} bytes")]
    CmsPresent { len: u64 },
    /// The digest of the blob of type `slot` is not that special slot of the best directory.
    #[error("special slot {slot} does not match its blob")]
    SpecialMismatch { slot: u64 },
    /// There is a blob of type `slot`, and the best directory has not so many special slots.
    #[error("there is no special slot {slot} for its blob")]
    SpecialMissing { slot: u64 },
    /// The best directory signs more bytes than the slice has.
    #[error("the limit is past the end of the slice")]
    LimitPastEnd,
    /// The hash pages of the best directory have 2 to the power `n` bytes, more than the machine's pages have.
    #[error("hash pages of 2^{n} bytes are larger than the machine's pages")]
    HashPageLarge { n: u64 },
    /// The slice begins at the byte `at` of its file, which is no multiple of the size of the machine's pages.
    #[error("the slice begins at {at}, within a page of the machine")]
    SliceOffset { at: u64 },
}

impl BlobRefusal {
    ghost use Rattle.std.specs.Prelude.{◌≡◌};
    ghost use Rattle.cs_blob.specs.Refusals.{number_of, arguments_of};

    /// The number by which the refusal is printed, 1 to 10 in the order of the variants.
    pub fn number(&self) -> u8
        ensures { result ≡ number_of self.now }
    {
        match self {
            BlobRefusal::Super(_) => 1,
            BlobRefusal::Dir(_) => 2,
            BlobRefusal::NoDirectory => 3,
            BlobRefusal::SameRank { .. } => 4,
            BlobRefusal::CmsPresent { .. } => 5,
            BlobRefusal::SpecialMismatch { .. } => 6,
            BlobRefusal::SpecialMissing { .. } => 7,
            BlobRefusal::LimitPastEnd => 8,
            BlobRefusal::HashPageLarge { .. } => 9,
            BlobRefusal::SliceOffset { .. } => 10,
        }
    }

    /// The numbers that the refusal tells, in the order of its fields, or 0 in place of each that it lacks.
    fn arguments(&self) -> (u64, u64)
        ensures { result ≡ arguments_of self.now }
    {
        match *self {
            BlobRefusal::SameRank { a, b } => (a, b),
            BlobRefusal::CmsPresent { len } => (len, 0),
            BlobRefusal::SpecialMismatch { slot } | BlobRefusal::SpecialMissing { slot } => (
                slot, 0,
            ),
            BlobRefusal::HashPageLarge { n } => (n, 0),
            BlobRefusal::SliceOffset { at } => (at, 0),
            _ => (0, 0),
        }
    }
}

/// The refusal in numbers. Those of the SuperBlob and of a code directory keep their own family; the others have
/// that of signatures.
impl From<BlobRefusal> for Refusal {
    ghost use Rattle.std.specs.Prelude.{◌≡◌};
    ghost use Rattle.cs_blob.specs.Refusals.{refusal_of};

    ghost from_gives = { λ refusal result. result ≡ refusal_of refusal };

    fn from(refusal: BlobRefusal) -> Refusal {
        match refusal {
            BlobRefusal::Super(refusal) => Refusal::from(refusal),
            BlobRefusal::Dir(refusal) => Refusal::from(refusal),
            own => {
                let (a, b) = own.arguments();
                Refusal {
                    family: SIGNATURE_FAMILY,
                    number: own.number(),
                    a,
                    b,
                }
            }
        }
    }
}

/// Why there is no blob.
#[derive(Clone, Copy, Debug, PartialEq, Eq, Error)]
pub enum BlobFail {
    /// The bytes are no signature of the slice.
    #[error(transparent)]
    Refused(BlobRefusal),
    /// Memory ran out.
    #[error("out of memory")]
    NoMemory,
}

impl From<BlobRefusal> for BlobFail {
    ghost use Rattle.std.specs.Prelude.{◌≡◌};
    ghost use Rattle.cs_blob.specs.declared.refusal.BlobFail.TheVariants.{Refused};

    ghost from_gives = { λ refusal fail. fail ≡ Refused refusal };

    fn from(refusal: BlobRefusal) -> BlobFail {
        BlobFail::Refused(refusal)
    }
}

impl From<SuperFail> for BlobFail {
    ghost use Rattle.std.specs.Prelude.{◌≡◌};
    ghost use Rattle.cs_blob.specs.Fails.{from_index};

    ghost from_gives = { λ fail own. own ≡ from_index fail };

    fn from(fail: SuperFail) -> BlobFail {
        match fail {
            SuperFail::Refused(refusal) => BlobFail::Refused(BlobRefusal::Super(refusal)),
            SuperFail::NoMemory => BlobFail::NoMemory,
        }
    }
}

impl From<AllocError> for BlobFail {
    ghost use Rattle.std.specs.Prelude.{◌≡◌};
    ghost use Rattle.cs_blob.specs.declared.refusal.BlobFail.TheVariants.{NoMemory};

    ghost from_gives = { λ _ fail. fail ≡ NoMemory };

    fn from(_error: AllocError) -> BlobFail {
        BlobFail::NoMemory
    }
}

impl<T: Drop> From<AllocFailed<T>> for BlobFail {
    ghost use Rattle.std.specs.Prelude.{◌≡◌};
    ghost use Rattle.cs_blob.specs.declared.refusal.BlobFail.TheVariants.{NoMemory};

    ghost from_gives = { λ _ fail. fail ≡ NoMemory };

    fn from(_failed: AllocFailed<T>) -> BlobFail {
        BlobFail::NoMemory
    }
}
