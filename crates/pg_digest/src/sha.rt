//! The digester of the SHA functions.
ghost use Rattle.std.specs.Prelude.{◌≡◌, ◌+◌, ◌-◌, ◌^◌, ◌≤◌, length, min};
ghost use Rattle.pg_bytes.specs.Counts.{Rose};
ghost use Rattle.pg_digest.specs.Digests.{sha_hash};
ghost use Rattle.pg_digest.specs.DigestLaws.{length-sha_hash};
ghost use Rattle.pg_digest.specs.Kinds.{size_of};

use crate::digesters::Digester;
use crate::digests::{Digest, kept};
use crate::kinds::HashKind;
use sha1::Sha1;
use sha2::{Digest as _, Sha256, Sha384};
use std::marker::Model;

/// The digester of the functions of FIPS 180-4, seen as the number of its calls.
#[derive(Debug, Drop)]
pub struct ShaDigester {
    calls: u64,
}

impl Model for ShaDigester {
    ghost use Rattle.std.specs.Prelude.{ℕ};

    ghost Value = { ℕ };

    ghost view = { λ digester. digester.calls };
}

impl ShaDigester {
    /// A digester that was not called yet.
    pub fn new() -> ShaDigester
        ensures { result ≡ 0 }
    {
        ShaDigester { calls: 0 }
    }
}

impl Digester for ShaDigester {
    ghost hash = { sha_hash };

    ghost calls = { λ calls. calls };

    ghost sized = { length-sha_hash };

    // One call more, up to the number at which the count stands still.
    fn hash(&mut self, kind: HashKind, bytes: &[u8]) -> Digest
        ensures value { result ≡ sha_hash kind bytes.now }
        ensures sized { length result ≡ size_of kind }
        ensures counted { Rose self.old self.new }
        ensures once { self.new ≤ self.old + 1 }
        ensures by_one { self.new ≡ min (self.old + 1) (2 ^ 64 - 1) }
    {
        self.calls = self.calls.saturating_add(1);
        sha_digest(kind, bytes)
    }
}

// The digest of `bytes` by the function of FIPS 180-4 that `kind` names.
#[tactic(auto, unfolding(crate::specs::Digests::sha_hash))]
fn sha_digest(kind: HashKind, bytes: &[u8]) -> Digest
    ensures value { result ≡ sha_hash kind bytes.now }
    ensures sized { length result ≡ size_of kind }
{
    match kind {
        HashKind::Sha1 => kept(&Sha1::digest(bytes)),
        HashKind::Sha256 => kept(&Sha256::digest(bytes)),
        HashKind::Sha256Short => kept(&Sha256::digest(bytes)[..20]),
        HashKind::Sha384 => kept(&Sha384::digest(bytes)),
    }
}
