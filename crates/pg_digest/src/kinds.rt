//! The hash types that a code directory may name.
ghost use Rattle.std.specs.Prelude.{◌≡◌, ◌≤◌, ◌↔◌, IsSome, IfSome};
ghost use Rattle.pg_digest.specs.Kinds.{kind_numbered, number_of, rank_of, size_of};

/// A hash type of code signing: `CS_HASHTYPE_*` of XNU's `cs_blobs.h`.
#[derive(Clone, Copy, Debug, PartialEq, Eq)]
pub enum HashKind {
    /// SHA-1, with 20 bytes: `CS_HASHTYPE_SHA1`.
    Sha1,
    /// SHA-256, with 32 bytes: `CS_HASHTYPE_SHA256`.
    Sha256,
    /// SHA-256 cut to its first 20 bytes: `CS_HASHTYPE_SHA256_TRUNCATED`.
    Sha256Short,
    /// SHA-384, with 48 bytes: `CS_HASHTYPE_SHA384`.
    Sha384,
}

/// The hash type with this number, the byte `hashType` of a code directory, or `None` exactly where
/// the number is outside 1 to 4. The numbers are those of `CS_HASHTYPE_*` in `cs_blobs.h`.
#[tactic(auto, unfolding(crate::specs::Kinds::kind_numbered))]
pub fn kind_of(number: u8) -> Option<HashKind>
    ensures value { result ≡ kind_numbered number }
    ensures numbered { IfSome result (λ kind. number_of kind ≡ number) }
    ensures within { IsSome result ↔ ((1 ≤ number) × (number ≤ 4)) }
{
    match number {
        1 => Some(HashKind::Sha1),
        2 => Some(HashKind::Sha256),
        3 => Some(HashKind::Sha256Short),
        4 => Some(HashKind::Sha384),
        _ => None,
    }
}

/// The number of a hash type, by which a code directory names it: 1 to 4 in the order of the types.
pub fn number(kind: HashKind) -> u8
    ensures { result ≡ number_of kind }
{
    match kind {
        HashKind::Sha1 => 1,
        HashKind::Sha256 => 2,
        HashKind::Sha256Short => 3,
        HashKind::Sha384 => 4,
    }
}

/// How many bytes a digest of this type has: 20, 32, 20 and 48 in the order of the types.
pub fn size(kind: HashKind) -> u8
    ensures { result ≡ size_of kind }
{
    match kind {
        HashKind::Sha1 | HashKind::Sha256Short => 20,
        HashKind::Sha256 => 32,
        HashKind::Sha384 => 48,
    }
}

/// The strength of a hash type, from 1 to 4. It rises in the order SHA-1, SHA-256 cut, SHA-256,
/// SHA-384, in which XNU prefers the code directories of one signature: `hash_rank` of its
/// `ubc_subr.c`.
pub fn rank(kind: HashKind) -> u8
    ensures { result ≡ rank_of kind }
{
    match kind {
        HashKind::Sha1 => 1,
        HashKind::Sha256Short => 2,
        HashKind::Sha256 => 3,
        HashKind::Sha384 => 4,
    }
}
