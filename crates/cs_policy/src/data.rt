//! The bytes that events carry.

ghost use Rattle.std.specs.Prelude.{◌≡◌, ◌<◌, ◌≤◌, ◌↔◌, length, nat_eq, IsSome, IfSome, IfOk, IsErr};
ghost use Rattle.std.specs.Cmp.{partial_equiv_from_equiv};
ghost use Rattle.std.specs.Cmp.Lexicographic.{nat_list_eq_equiv, pointwise};
ghost use Rattle.cs_policy.specs.Data.{data_bytes, IsHex};

use pg_bytes::Octets;
use std::alloc::{AllocError, Global};
use std::marker::Model;

// The most bytes of one store, load or fetch.
const MOST: usize = 64;

/// The bytes of one store, load or fetch: a list of 1 to 64 of them. It holds them itself.
#[derive(Debug, Drop)]
pub struct Bytes64 {
    bytes: [u8; MOST],
    used: u8,
}

impl Model for Bytes64 {
    ghost use Rattle.std.specs.Prelude.{ℕ, List, ◌<◌, ◌≤◌, take};

    ghost Value = { List ℕ };

    ghost view = { λ held. take held.used held.bytes };

    ghost invariant = { λ held. (0 < held.used) × (held.used ≤ 64) };
}

impl Bytes64 {
    /// These bytes, or `None` exactly where there are none or more than 64.
    pub fn new(bytes: &[u8]) -> Option<Bytes64>
        ensures value { IfSome result (λ held. held ≡ bytes.now) }
        ensures fits { IsSome result ↔ ((0 < length bytes.now) × (length bytes.now ≤ 64)) }
    {
        if bytes.is_empty() || bytes.len() > MOST {
            return None;
        }
        Some(kept(bytes))
    }

    /// The bytes.
    pub fn bytes(&self) -> &[u8]
        ensures value { result.now ≡ self.now }
        ensures some { 0 < length self.now }
        ensures most { length self.now ≤ 64 }
    {
        &self.bytes[..usize::from(self.used)]
    }

    /// An equal value.
    pub fn copy(&self) -> Bytes64
        ensures { result ≡ self.now }
    {
        Bytes64 {
            bytes: self.bytes,
            used: self.used,
        }
    }
}

// These bytes, which fit.
fn kept(bytes: &[u8]) -> Bytes64
    requires some { 0 < length bytes.now }
    requires most { length bytes.now ≤ 64 }
    ensures { result ≡ bytes.now }
{
    let mut held = [0; MOST];
    held[..bytes.len()].copy_from_slice(bytes);
    Bytes64 {
        bytes: held,
        used: bytes.len() as u8,
    }
}

impl PartialEq for Bytes64 {
    ghost eq = { pointwise nat_eq };

    ghost laws = { partial_equiv_from_equiv nat_list_eq_equiv };

    fn eq(&self, other: &Bytes64) -> bool {
        self.bytes() == other.bytes()
    }
}

impl Eq for Bytes64 {
    ghost laws = { nat_list_eq_equiv };
}

/// The data of a write.
#[derive(Debug, Drop)]
pub enum Data {
    /// These bytes.
    Hex(Octets),
    /// So many times this byte.
    Fill { byte: u8, count: u32 },
}

impl Data {
    /// An equal value. The error, `AllocError`, comes only where bytes were given and there is no memory for them.
    pub fn copy(&self) -> Result<Data, AllocError>
        ensures value { IfOk result (λ copy. copy ≡ self.now) }
        ensures owned { IsErr result → IsHex self.now }
    {
        match self {
            Data::Hex(bytes) => Ok(Data::Hex(bytes.copy()?)),
            Data::Fill { byte, count } => Ok(Data::Fill {
                byte: *byte,
                count: *count,
            }),
        }
    }
}
