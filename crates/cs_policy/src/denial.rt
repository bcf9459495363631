//! Why an access to a page is denied.

ghost use Rattle.std.specs.Prelude.{◌≡◌};
ghost use Rattle.cs_policy.specs.Denial.{number_of};

use pg_digest::Digest;

/// The rule that an access to a page breaks: the first of those that it breaks, in the order in which they are tried.
/// Each names the page of the file.
#[derive(Clone, Copy, Debug, PartialEq, Eq)]
pub enum Denial {
    /// The region has a private copy of the page, which is never executed.
    PrivateCopy {
        page: u64,
    },
    /// No attached code directory covers the page.
    Unsigned {
        page: u64,
    },
    /// The code directory that covers the page has no slot for all of it below its limit.
    BeyondLimit {
        page: u64,
    },
    /// A shared region may write the page; `region` is the one with the least number.
    WritableShared {
        page: u64,
        region: u32,
    },
    /// The page's bytes do not hash to the code slot `slot`, the first of the page's for which that is so: the digest
    /// of these bytes is `found`, and the slot has `wanted`.
    Mismatch {
        page: u64,
        slot: u64,
        found: Digest,
        wanted: Digest,
    },
    /// A shared region asks to write a page that a code directory covers.
    SealedWrite {
        page: u64,
    },
}

impl Denial {
    /// The number of the denial, counted from 1 in the order of the variants.
    pub fn number(&self) -> u8
        ensures { result ≡ number_of self.now }
    {
        match self {
            Denial::PrivateCopy { .. } => 1,
            Denial::Unsigned { .. } => 2,
            Denial::BeyondLimit { .. } => 3,
            Denial::WritableShared { .. } => 4,
            Denial::Mismatch { .. } => 5,
            Denial::SealedWrite { .. } => 6,
        }
    }
}
