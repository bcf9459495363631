//! An accepted signature.

ghost use Rattle.std.specs.Prelude.{◌≡◌};

use cs_directory::Directory;
use pg_bytes::{Range, bytes_in};
use std::marker::Model;

/// The signature of one slice, as `blob` accepts it: its bytes, the best of its code directories with the bytes
/// of that one, the slice, and the cdhash. Contracts see it as a record of these, `specs/Signature.antt`.
#[derive(Debug, Drop)]
pub struct Blob {
    pub(crate) bytes: Vec<u8>,
    pub(crate) best: Directory,
    pub(crate) place: Range,
    pub(crate) slice: Range,
    pub(crate) cdhash: [u8; 20],
}

impl Model for Blob {
    ghost use Rattle.cs_blob.specs.Signature.{Signature};
    ghost use Rattle.pg_bytes.specs.Ranges.{bytes_in};
    ghost use Rattle.cs_blob.specs.Parts.{IsWithin};

    ghost Value = { Signature };

    ghost view = { λ a. record {
      bytes = a.bytes.items;
      best = a.best;
      best_bytes = bytes_in a.bytes.items a.place;
      slice = a.slice;
      cdhash = a.cdhash;
    } };

    // The best directory's bytes lie within those of the signature.
    ghost invariant = { λ a. IsWithin a.bytes.items a.place };
}

impl Blob {
    /// The bytes of the whole signature, with those that lie behind its last blob.
    pub fn bytes(&self) -> &[u8]
        ensures { result.now ≡ self.now.bytes }
    {
        &self.bytes
    }

    /// The code directory of greatest rank, the only one that has effect.
    pub fn best(&self) -> &Directory
        ensures { result.now ≡ self.now.best }
    {
        &self.best
    }

    /// The bytes of the blob of that directory, from which its slots and its identifier are read. Where the
    /// signature is a code directory alone, these are all its bytes.
    pub fn best_bytes(&self) -> &[u8]
        ensures { result.now ≡ self.now.best_bytes }
    {
        bytes_in(&self.bytes, &self.place)
    }

    /// The slice of the file that is signed: its first byte in the file, and how many bytes it has.
    pub fn slice(&self) -> &Range
        ensures { result.now ≡ self.now.slice }
    {
        &self.slice
    }

    /// The cdhash of the best directory: the first 20 bytes of the digest of the whole directory by its own
    /// hash type.
    pub fn cdhash(&self) -> &[u8; 20]
        ensures { result.now ≡ self.now.cdhash }
    {
        &self.cdhash
    }
}
