//! What stands in a trust cache.

/// An entry of a trust cache. Only the cdhash is looked at, and compared; the rest is kept as it stands.
#[derive(Clone, Copy, Debug, PartialEq, Eq)]
pub struct Entry {
    /// The cdhash of a code directory that is trusted.
    pub cdhash: [u8; 20],
    /// The number of the hash type of that directory.
    pub hash_type: u8,
    /// The flags of the entry.
    pub flags: u8,
    /// What an entry of version 2 has besides; one of version 1 has nothing.
    pub more: Option<More>,
}

/// The last bytes of an entry of version 2.
#[derive(Clone, Copy, Debug, PartialEq, Eq)]
pub struct More {
    /// The category of the entry.
    pub category: u8,
    /// A byte that is reserved.
    pub reserved: u8,
}
