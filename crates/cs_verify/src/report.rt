//! The report of a file.

use cs_policy::Refusal;
use macho_slices::{FatFail, FatRefusal};
use pg_bytes::Octets;
use pg_digest::{Digest, HashKind};
use std::alloc::{AllocError, AllocFailed};
use std::marker::Model;
use thiserror::Error;

/// A hash page below the limit that does not match its slot. A hash page has as many bytes as the code directory says,
/// the last one those up to the limit.
#[derive(Clone, Copy, Debug, PartialEq, Eq)]
pub struct BadPage {
    /// The page's number, counted from 0 in the slice, which is that of its slot.
    pub page: u64,
    /// The digest of its bytes, or `None` where it has no slot.
    pub found: Option<Digest>,
    /// The digest that its slot has, or `None` where it has no slot.
    pub wanted: Option<Digest>,
}

/// The pages of a slice that do not match, in ascending order.
///
/// Contracts see them as a list.
#[derive(Debug, Drop)]
pub struct BadPages {
    list: Vec<BadPage>,
}

impl Model for BadPages {
    ghost use Rattle.std.specs.Prelude.{List};
    ghost use Rattle.cs_verify.specs.declared.report.BadPage.{BadPage};

    ghost Value = { List BadPage };

    ghost view = { λ pages. pages.list.items };
}

impl BadPages {
    ghost use Rattle.std.specs.Prelude.{◌≡◌};

    /// The pages of a vector, which it takes over; no memory is taken.
    pub fn new(items: Vec<BadPage>) -> BadPages
        ensures { result ≡ items.items }
    {
        BadPages { list: items }
    }

    /// The pages.
    pub fn items(&self) -> &[BadPage]
        ensures { result.now ≡ self.now }
    {
        &self.list
    }
}

/// What is said of one slice of a file.
#[derive(Debug, Drop)]
pub enum SliceReport {
    /// The slice is no image, or its signature is none: the first broken rule.
    Refused(Refusal),
    /// The slice is a signed image.
    Accepted {
        /// The architecture, `CPU_TYPE_*` of `mach/machine.h`.
        cputype: u32,
        /// The variant of the architecture, `CPU_SUBTYPE_*`.
        cpusubtype: u32,
        /// What the image is for, `MH_*` of `mach-o/loader.h`.
        filetype: u32,
        /// The cdhash of the best code directory.
        cdhash: [u8; 20],
        /// The hash type of that directory.
        kind: HashKind,
        /// Its flags, under the mask of those that have effect.
        flags: u32,
        /// How many bytes of the slice it signs.
        limit: u64,
        /// How many code slots it has.
        slots: u64,
        /// Its identifier, without the zero byte that ends it.
        ident: Octets,
        /// The hash pages below the limit that do not match or have no slot.
        bad: BadPages,
        /// How many hash pages the limit reaches.
        pages: u64,
    },
}

impl SliceReport {
    ghost use Rattle.std.specs.Prelude.{◌≡◌};
    ghost use Rattle.cs_verify.specs.Report.{matches};

    /// Whether the slice is a signed image, and each of its hash pages below the limit matches.
    pub fn matches(&self) -> bool
        ensures { result ≡ matches self.now }
    {
        match self {
            SliceReport::Refused(_) => false,
            SliceReport::Accepted { bad, .. } => bad.items().is_empty(),
        }
    }
}

/// Why there is no report.
#[derive(Clone, Copy, Debug, PartialEq, Eq, Error)]
pub enum VerifyFail {
    /// The file is no file of Mach-O images.
    #[error(transparent)]
    Refused(FatRefusal),
    /// Memory ran out.
    #[error("out of memory")]
    NoMemory,
}

impl From<FatFail> for VerifyFail {
    ghost use Rattle.std.specs.Prelude.{◌≡◌};
    ghost use Rattle.cs_verify.specs.Fails.{from_slices};

    ghost from_gives = { λ fail own. own ≡ from_slices fail };

    fn from(fail: FatFail) -> VerifyFail {
        match fail {
            FatFail::Refused(refusal) => VerifyFail::Refused(refusal),
            FatFail::NoMemory => VerifyFail::NoMemory,
        }
    }
}

impl From<AllocError> for VerifyFail {
    ghost use Rattle.std.specs.Prelude.{◌≡◌};
    ghost use Rattle.cs_verify.specs.declared.report.VerifyFail.TheVariants.{NoMemory};

    ghost from_gives = { λ _ fail. fail ≡ NoMemory };

    fn from(_error: AllocError) -> VerifyFail {
        VerifyFail::NoMemory
    }
}

impl<T: Drop> From<AllocFailed<T>> for VerifyFail {
    ghost use Rattle.std.specs.Prelude.{◌≡◌};
    ghost use Rattle.cs_verify.specs.declared.report.VerifyFail.TheVariants.{NoMemory};

    ghost from_gives = { λ _ fail. fail ≡ NoMemory };

    fn from(_failed: AllocFailed<T>) -> VerifyFail {
        VerifyFail::NoMemory
    }
}
