//! The size of a hash page.

ghost use Rattle.std.specs.Prelude.{◌≡◌, ◌^◌, ◌⊎◌};
ghost use Rattle.cs_directory.specs.HashPages.{bits_of, bytes_of};
ghost use Rattle.cs_directory.specs.HashPages as pages;

/// How many bytes of the file a code slot is the digest of: 4,096 or 16,384, and for the last slot those up to the
/// limit.
#[derive(Clone, Copy, Debug, PartialEq, Eq)]
pub enum HashPage {
    /// A hash page has 4,096 bytes, 2 to the power 12.
    Small,
    /// A hash page has 16,384 bytes, 2 to the power 14.
    Large,
}

/// The size whose base-2 logarithm is `bits`; `None` exactly where it is neither 12 nor 14.
#[tactic(auto, unfolding(crate::specs::HashPages::page_numbered))]
pub fn page_numbered(bits: u8) -> Option<HashPage>
    ensures { result ≡ pages.page_numbered bits }
{
    match bits {
        12 => Some(HashPage::Small),
        14 => Some(HashPage::Large),
        _ => None,
    }
}

impl HashPage {
    /// The base-2 logarithm of the size, 12 or 14.
    pub fn bits(self) -> u8
        ensures { result ≡ bits_of self }
    {
        match self {
            HashPage::Small => 12,
            HashPage::Large => 14,
        }
    }

    /// The size in bytes: 2 to the power of `bits`.
    pub fn bytes(self) -> u64
        ensures bytes { result ≡ bytes_of self }
        ensures power { result ≡ 2 ^ bits_of self }
        ensures known { (result ≡ 4096) ⊎ (result ≡ 16384) }
    {
        match self {
            HashPage::Small => 4096,
            HashPage::Large => 16_384,
        }
    }
}
