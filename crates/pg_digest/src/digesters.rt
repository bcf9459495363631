//! What computes digests.
ghost use Rattle.std.specs.Prelude.{◌≡◌, ◌+◌, ◌≤◌, ℕ, List, length};
ghost use Rattle.pg_bytes.specs.Counts.{Rose};
ghost use Rattle.pg_digest.specs.Kinds.{size_of};
ghost use Rattle.pg_digest.specs.declared.kinds.HashKind.{HashKind};

use crate::digests::Digest;
use crate::kinds::HashKind;

/// What computes digests. Its function of a hash type and a message is fixed for the type of the
/// digester, and generic code does not know it: it learns a digest only by a call, and the count
/// shows that there was one.
pub trait Digester {
    /// The digest of a message under a hash type.
    ghost hash: { HashKind → List ℕ → List ℕ };

    /// The calls so far. The count stands still once it is 2^64 - 1.
    ghost calls: { Self → ℕ };

    /// The digest of `bytes` under `kind`, with as many bytes as `kind` says. Each call counts, once.
    fn hash(&mut self, kind: HashKind, bytes: &[u8]) -> Digest
        ensures value { result ≡ hash kind bytes.now }
        ensures counted { Rose (calls self.old) (calls self.new) }
        ensures once { calls self.new ≤ calls self.old + 1 };

    // A digest has the length of its hash type.
    ghost sized: { (kind : HashKind) (bytes : List ℕ) → length (hash kind bytes) ≡ size_of kind };
}
