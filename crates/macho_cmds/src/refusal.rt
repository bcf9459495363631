//! Why a slice of a file is no Mach-O image.

use cs_policy::{IMAGE_FAMILY, Refusal};
use std::alloc::{AllocError, AllocFailed};
use thiserror::Error;

/// The rule that the slice breaks first. The rules are tried in this order: Short and BadMagic on the header,
/// SliceMisaligned, Short on all load commands; then, for each load command in turn, CommandBad, SegmentBad and
/// TwoSignatures; at last NoSignature and SignatureOutOfSlice.
#[derive(Clone, Copy, Debug, PartialEq, Eq, Error)]
pub enum MachRefusal {
    /// The slice has fewer bytes than the header, 32, or than the header and all load commands.
    #[error("too short for a Mach-O image")]
    Short,
    /// The slice does not begin as an image of 64 bits.
    #[error("not the magic of a Mach-O image of 64 bits")]
    BadMagic,
    /// The load command `index`, counted from 0, is cut, has a size that is below 8, no multiple of 8 or past the end
    /// of all load commands, or is that of the signature and has another size than 16.
    #[error("load command {index} is bad")]
    CommandBad { index: u64 },
    /// The load command `index` is a segment whose sections are more than it has room for, or whose bytes pass the
    /// slice's end.
    #[error("the segment of load command {index} is bad")]
    SegmentBad { index: u64 },
    /// No load command is that of a signature.
    #[error("no code signature")]
    NoSignature,
    /// Two load commands are that of a signature.
    #[error("two code signatures")]
    TwoSignatures,
    /// The signature passes the slice's end.
    #[error("the code signature ends behind the slice")]
    SignatureOutOfSlice,
    /// The slice begins in its file at no multiple of 4,096.
    #[error("the slice does not begin at a page")]
    SliceMisaligned,
}

impl MachRefusal {
    ghost use Rattle.std.specs.Prelude.{◌≡◌};
    ghost use Rattle.macho_cmds.specs.Refusals.{number_of, argument_of};

    /// The number by which the refusal is printed, 1 to 8 in the order of the variants.
    pub fn number(&self) -> u8
        ensures { result ≡ number_of self.now }
    {
        match self {
            MachRefusal::Short => 1,
            MachRefusal::BadMagic => 2,
            MachRefusal::CommandBad { .. } => 3,
            MachRefusal::SegmentBad { .. } => 4,
            MachRefusal::NoSignature => 5,
            MachRefusal::TwoSignatures => 6,
            MachRefusal::SignatureOutOfSlice => 7,
            MachRefusal::SliceMisaligned => 8,
        }
    }

    /// The index of the load command that the refusal tells of, or 0 where it has none.
    fn argument(&self) -> u64
        ensures { result ≡ argument_of self.now }
    {
        match *self {
            MachRefusal::CommandBad { index } | MachRefusal::SegmentBad { index } => index,
            _ => 0,
        }
    }
}

/// The refusal in numbers, of the family of Mach-O images.
impl From<MachRefusal> for Refusal {
    ghost use Rattle.std.specs.Prelude.{◌≡◌};
    ghost use Rattle.macho_cmds.specs.Refusals.{refusal_of};

    ghost from_gives = { λ refusal result. result ≡ refusal_of refusal };

    fn from(refusal: MachRefusal) -> Refusal {
        Refusal {
            family: IMAGE_FAMILY,
            number: refusal.number(),
            a: refusal.argument(),
            b: 0,
        }
    }
}

/// Why there is no image.
#[derive(Clone, Copy, Debug, PartialEq, Eq, Error)]
pub enum MachFail {
    /// The slice is no image.
    #[error(transparent)]
    Refused(MachRefusal),
    /// Memory ran out.
    #[error("out of memory")]
    NoMemory,
}

impl From<MachRefusal> for MachFail {
    ghost use Rattle.std.specs.Prelude.{◌≡◌};
    ghost use Rattle.macho_cmds.specs.declared.refusal.MachFail.TheVariants.{Refused};

    ghost from_gives = { λ refusal fail. fail ≡ Refused refusal };

    fn from(refusal: MachRefusal) -> MachFail {
        MachFail::Refused(refusal)
    }
}

impl From<AllocError> for MachFail {
    ghost use Rattle.std.specs.Prelude.{◌≡◌};
    ghost use Rattle.macho_cmds.specs.declared.refusal.MachFail.TheVariants.{NoMemory};

    ghost from_gives = { λ _ fail. fail ≡ NoMemory };

    fn from(_error: AllocError) -> MachFail {
        MachFail::NoMemory
    }
}

impl<T: Drop> From<AllocFailed<T>> for MachFail {
    ghost use Rattle.std.specs.Prelude.{◌≡◌};
    ghost use Rattle.macho_cmds.specs.declared.refusal.MachFail.TheVariants.{NoMemory};

    ghost from_gives = { λ _ fail. fail ≡ NoMemory };

    fn from(_failed: AllocFailed<T>) -> MachFail {
        MachFail::NoMemory
    }
}
