//! A digest in a value of fixed size.
ghost use Rattle.std.specs.Prelude.{◌≡◌, ◌≤◌, ◌↔◌, length, nat_eq, IsSome, IfSome};
ghost use Rattle.std.specs.Cmp.{partial_equiv_from_equiv};
ghost use Rattle.std.specs.Cmp.Lexicographic.{nat_list_eq_equiv, pointwise};

use std::marker::Model;

// The longest digest, that of SHA-384.
const MOST: usize = 48;

/// A digest, seen as the list of its bytes, of which there are at most 48, as many as SHA-384 has.
/// It holds its bytes itself. Two digests are equal exactly where their bytes are.
#[derive(Clone, Copy, Debug)]
pub struct Digest {
    bytes: [u8; MOST],
    used: u8,
}

impl Model for Digest {
    ghost use Rattle.std.specs.Prelude.{ℕ, List, length, take};
    ghost use Rattle.pg_digest.specs.Room.{IsPadded, padded};
    ghost use Rattle.pg_digest.specs.RoomLaws.{padded-take, length-take-padded};

    ghost Value = { List ℕ };

    ghost view = { λ d. take d.used d.bytes };

    // The bytes behind the digest are zeros, so that the list of bytes fixes the fields.
    ghost invariant = { λ d. IsPadded d.used d.bytes };

    ghost inverse = { λ digest. record { bytes = padded digest; used = length digest } };

    ghost inverse_ok = { λ d known i. record {
      bytes = padded-take d.used d.bytes known i;
      used = length-take-padded d.used d.bytes known i;
    } };
}

impl PartialEq for Digest {
    ghost eq = { pointwise nat_eq };

    ghost laws = { partial_equiv_from_equiv nat_list_eq_equiv };

    fn eq(&self, other: &Digest) -> bool {
        digest_bytes(self) == digest_bytes(other)
    }
}

impl Eq for Digest {
    ghost laws = { nat_list_eq_equiv };
}

/// The bytes of a digest.
pub fn digest_bytes(d: &Digest) -> &[u8]
    ensures value { result.now ≡ d.now }
    ensures most { length d.now ≤ 48 }
{
    &d.bytes[..usize::from(d.used)]
}

/// The digest with just these bytes, or `None` exactly where there are more than 48.
pub fn digest_of(bytes: &[u8]) -> Option<Digest>
    ensures value { IfSome result (λ digest. digest ≡ bytes.now) }
    ensures fits { IsSome result ↔ (length bytes.now ≤ 48) }
{
    if bytes.len() > MOST {
        return None;
    }
    Some(kept(bytes))
}

// The digest with these bytes, which fit.
pub(crate) fn kept(bytes: &[u8]) -> Digest
    requires { length bytes.now ≤ 48 }
    ensures { result ≡ bytes.now }
{
    let mut padded = [0; MOST];
    padded[..bytes.len()].copy_from_slice(bytes);
    Digest {
        bytes: padded,
        used: bytes.len() as u8,
    }
}
