//! Events and replies of the trust list.

use crate::refusal::Refusal;

/// What happens to the trust list.
#[derive(Clone, Copy, Debug, PartialEq, Eq)]
pub enum TrustEvent {
    /// The declared trust cache of this number, counted from 0, is loaded.
    LoadModule { cache: u32 },
    /// A cdhash is looked up.
    Lookup { cdhash: [u8; 20] },
}

/// What the trust list answers.
#[derive(Clone, Copy, Debug, PartialEq, Eq)]
pub enum TrustReply {
    /// The cache's bytes are no trust cache.
    Refused(Refusal),
    /// As many modules are loaded as can be, `limit`.
    Full { limit: u32 },
    /// The cache is loaded as the module of this number.
    Loaded { module: u32 },
    /// The cdhash stands in this module, the least one that has it, at this place, the least one there. Both
    /// count from 0, and static modules come before loaded ones.
    Listed { module: u32, place: u64 },
    /// No entry of any module has the cdhash.
    Unlisted,
}
