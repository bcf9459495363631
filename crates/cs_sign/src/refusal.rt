//! Why a file is not signed, and why no trust cache is made.

ghost use Rattle.std.specs.Prelude.{◌≡◌};

use cs_policy::Refusal;
use macho_cmds::{MachFail, MachRefusal};
use std::alloc::{AllocError, AllocFailed};
use std::error::Error;
use std::fmt;
use thiserror::Error;

/// The rule that the file or the request breaks first. The rules are tried in the order of the variants.
#[derive(Clone, Copy, Debug, PartialEq, Eq)]
pub enum SignRefusal {
    /// The file is no thin Mach-O image with a signature.
    Mach(MachRefusal),
    /// The segment `index`, counted from 0 in the order of the segments, ends behind the place where the signature
    /// begins, and is not the first one named `__LINKEDIT`.
    SegmentPast { index: u64 },
    /// There is no segment `__LINKEDIT`, or the first one begins behind the place where the signature begins or does not
    /// end where the file ends.
    LinkeditBad,
    /// The signature does not end where the file ends, or begins before the load commands end.
    SignatureNotLast,
    /// The identifier is empty, has more than 255 bytes, or has a zero byte.
    IdentBad,
    /// The entitlements have `len` bytes, which are more than 65,536.
    EntitlementsLong { len: u64 },
    /// The signed file would have more than 67,108,864 bytes.
    TooLarge,
}

impl SignRefusal {
    ghost use Rattle.cs_sign.specs.Refusals.{number_of, argument_of};

    /// The number by which a printed refusal is told: 1 to 6 in the order of the variants behind the first, and 0 for that
    /// one, which is printed as a refusal of Mach-O images.
    pub fn number(&self) -> u8
        ensures { result ≡ number_of self.now }
    {
        match self {
            SignRefusal::Mach(_) => 0,
            SignRefusal::SegmentPast { .. } => 1,
            SignRefusal::LinkeditBad => 2,
            SignRefusal::SignatureNotLast => 3,
            SignRefusal::IdentBad => 4,
            SignRefusal::EntitlementsLong { .. } => 5,
            SignRefusal::TooLarge => 6,
        }
    }

    /// The index or the length that the refusal tells of, or 0 where it has none.
    fn argument(&self) -> u64
        ensures { result ≡ argument_of self.now }
    {
        match self {
            SignRefusal::SegmentPast { index } => *index,
            SignRefusal::EntitlementsLong { len } => *len,
            _ => 0,
        }
    }
}

/// The refusal as text: that of the Mach-O image, as `mach.2.0.0`, or `sign.NUMBER.ARGUMENT.0` with decimal numbers.
impl fmt::Display for SignRefusal {
    ghost use Rattle.std.specs.Prelude.{Some};
    ghost use Rattle.cs_sign.specs.Refusals.{refusal_text};

    ghost output = { λ refusal. Some (refusal_text refusal) };

    fn fmt<W: fmt::Write>(&self, f: &mut fmt::Formatter<W>) -> fmt::Result {
        if let SignRefusal::Mach(refusal) = *self {
            let refusal = Refusal::from(refusal);
            return write!(f, "{refusal}");
        }
        let number = self.number();
        let argument = self.argument();
        write!(f, "sign.{number}.{argument}.0")
    }
}

impl Error for SignRefusal {}

/// Why a file is not signed.
#[derive(Clone, Copy, Debug, PartialEq, Eq, Error)]
pub enum SignFail {
    /// A rule is broken.
    #[error(transparent)]
    Refused(SignRefusal),
    /// Memory ran out.
    #[error("out of memory")]
    NoMemory,
}

impl From<MachFail> for SignFail {
    ghost use Rattle.cs_sign.specs.Fails.{from_image};

    ghost from_gives = { λ fail own. own ≡ from_image fail };

    fn from(fail: MachFail) -> SignFail {
        match fail {
            MachFail::Refused(refusal) => SignFail::Refused(SignRefusal::Mach(refusal)),
            MachFail::NoMemory => SignFail::NoMemory,
        }
    }
}

impl From<SignRefusal> for SignFail {
    ghost use Rattle.cs_sign.specs.declared.refusal.SignFail.TheVariants.{Refused};

    ghost from_gives = { λ refusal fail. fail ≡ Refused refusal };

    fn from(refusal: SignRefusal) -> SignFail {
        SignFail::Refused(refusal)
    }
}

impl From<AllocError> for SignFail {
    ghost use Rattle.cs_sign.specs.declared.refusal.SignFail.TheVariants.{NoMemory};

    ghost from_gives = { λ _ fail. fail ≡ NoMemory };

    fn from(_error: AllocError) -> SignFail {
        SignFail::NoMemory
    }
}

/// Why no trust cache is made.
#[derive(Clone, Copy, Debug, PartialEq, Eq, Error)]
pub enum CacheFail {
    /// The version `v` is neither 1 nor 2.
    #[error("version {v} is not known")]
    Version { v: u64 },
    /// There are `count` different cdhashes, which are more than 65,536.
    #[error("{count} entries are too many")]
    TooMany { count: u64 },
    /// Memory ran out.
    #[error("out of memory")]
    NoMemory,
}

impl From<AllocError> for CacheFail {
    ghost use Rattle.cs_sign.specs.declared.refusal.CacheFail.TheVariants.{NoMemory};

    ghost from_gives = { λ _ fail. fail ≡ NoMemory };

    fn from(_error: AllocError) -> CacheFail {
        CacheFail::NoMemory
    }
}

impl<T: Drop> From<AllocFailed<T>> for CacheFail {
    ghost use Rattle.cs_sign.specs.declared.refusal.CacheFail.TheVariants.{NoMemory};

    ghost from_gives = { λ _ fail. fail ≡ NoMemory };

    fn from(_failed: AllocFailed<T>) -> CacheFail {
        CacheFail::NoMemory
    }
}
