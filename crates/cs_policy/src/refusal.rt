//! Why bytes were refused.

ghost use Rattle.std.specs.Prelude.{◌≡◌, Some};
ghost use Rattle.cs_policy.specs.Refusal.{family_name, refusal_text};

use std::fmt;

/// The family of the refusals of fat files.
pub const FAT_FAMILY: u8 = 1;

/// The family of the refusals of Mach-O images.
pub const IMAGE_FAMILY: u8 = 2;

/// The family of the refusals of SuperBlobs.
pub const SUPERBLOB_FAMILY: u8 = 3;

/// The family of the refusals of code directories.
pub const DIRECTORY_FAMILY: u8 = 4;

/// The family of the refusals of signatures.
pub const SIGNATURE_FAMILY: u8 = 5;

/// The family of the refusals of trust caches.
pub const TRUST_FAMILY: u8 = 6;

/// The first rule of its format that a text breaks, in numbers. All refusals fit in one.
#[derive(Clone, Copy, Debug, PartialEq, Eq)]
pub struct Refusal {
    /// The format: one of `FAT_FAMILY`, `IMAGE_FAMILY`, `SUPERBLOB_FAMILY`, `DIRECTORY_FAMILY`,
    /// `SIGNATURE_FAMILY` and `TRUST_FAMILY`, which are 1 to 6.
    pub family: u8,
    /// The number of the refusal in its family, counted from 1. The numbers need not follow the order in
    /// which the rules are tried.
    pub number: u8,
    /// The refusal's first argument, or 0 where it has none.
    pub a: u64,
    /// The refusal's second argument, or 0 where it has none.
    pub b: u64,
}

/// The refusal as text: `FAMILY.NUMBER.A.B`, with the family's name (`fat`, `mach`, `super`, `dir`, `blob` or `trust`)
/// and decimal numbers, as `fat.5.0.2`.
impl fmt::Display for Refusal {
    ghost output = { λ refusal. Some (refusal_text refusal) };

    fn fmt<W: fmt::Write>(&self, f: &mut fmt::Formatter<W>) -> fmt::Result {
        let Refusal { number, a, b, .. } = *self;
        let family = family_name(self.family);
        write!(f, "{family}.{number}.{a}.{b}")
    }
}

/// The name of a family, or `unknown` for a number that no family has.
#[tactic(auto, unfolding(crate::specs::Refusal::family_name))]
fn family_name(family: u8) -> &'static str
    ensures { result.now ≡ family_name family }
{
    match family {
        FAT_FAMILY => "fat",
        IMAGE_FAMILY => "mach",
        SUPERBLOB_FAMILY => "super",
        DIRECTORY_FAMILY => "dir",
        SIGNATURE_FAMILY => "blob",
        TRUST_FAMILY => "trust",
        _ => "unknown",
    }
}

#[cfg(test)]
mod tests;
