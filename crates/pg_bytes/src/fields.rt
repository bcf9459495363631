//! Fields of a text.

ghost use Rattle.std.specs.Prelude.{◌≡◌, ◌+◌, ◌≤◌, length, nat_le};
ghost use Rattle.pg_bytes.specs.Fields.{field, be32_at, be64_at, le32_at, le64_at};
ghost use Rattle.pg_bytes.specs.Ranges.{bytes_in};

use byteorder::{BigEndian, ByteOrder, LittleEndian};

/// A part of a text: `len` bytes from the byte `at` on, which is counted from 0.
#[derive(Clone, Copy, Debug, PartialEq, Eq)]
pub struct Range {
    pub at: u64,
    pub len: u64,
}

/// The bytes of a range, which ends within the text.
#[tactic(auto, unfolding(crate::specs::Ranges::bytes_in))]
pub fn bytes_in<'a>(bytes: &'a [u8], range: &Range) -> &'a [u8]
    requires within { range.now.at + range.now.len ≤ length bytes.now }
    ensures bytes { result.now ≡ bytes_in bytes.now range.now }
    ensures len { length result.now ≡ range.now.len }
{
    let (_, rest) = bytes.split_at(range.at as usize);
    let (part, _) = rest.split_at(range.len as usize);
    part
}

/// Whether `size` bytes stand at a place.
fn holds(bytes: &[u8], at: u64, size: u64) -> bool
    ensures { result ≡ nat_le (at + size) (length bytes.now) }
{
    match at.checked_add(size) {
        Some(end) => end <= bytes.len() as u64,
        None => false,
    }
}

/// The big-endian number of the four bytes at `at`, which end within the text.
#[tactic(auto, unfolding(crate::specs::Fields::be32_at))]
pub fn be32_at(bytes: &[u8], at: u64) -> u32
    requires within { at + 4 ≤ length bytes.now }
    ensures { result ≡ be32_at bytes.now at }
{
    BigEndian::read_u32(&bytes[at as usize..])
}

/// The big-endian number of the eight bytes at `at`, which end within the text.
#[tactic(auto, unfolding(crate::specs::Fields::be64_at))]
pub fn be64_at(bytes: &[u8], at: u64) -> u64
    requires within { at + 8 ≤ length bytes.now }
    ensures { result ≡ be64_at bytes.now at }
{
    BigEndian::read_u64(&bytes[at as usize..])
}

/// The little-endian number of the four bytes at `at`, which end within the text.
#[tactic(auto, unfolding(crate::specs::Fields::le32_at))]
pub fn le32_at(bytes: &[u8], at: u64) -> u32
    requires within { at + 4 ≤ length bytes.now }
    ensures { result ≡ le32_at bytes.now at }
{
    LittleEndian::read_u32(&bytes[at as usize..])
}

/// The little-endian number of the eight bytes at `at`, which end within the text.
#[tactic(auto, unfolding(crate::specs::Fields::le64_at))]
pub fn le64_at(bytes: &[u8], at: u64) -> u64
    requires within { at + 8 ≤ length bytes.now }
    ensures { result ≡ le64_at bytes.now at }
{
    LittleEndian::read_u64(&bytes[at as usize..])
}

/// The big-endian number of the four bytes at `at`; `None` exactly where they pass the end.
pub fn be32(bytes: &[u8], at: u64) -> Option<u32>
    ensures { result ≡ field 4 bytes.now at (be32_at bytes.now at) }
{
    holds(bytes, at, 4).then(|| be32_at(bytes, at))
}

/// The big-endian number of the eight bytes at `at`; `None` exactly where they pass the end.
pub fn be64(bytes: &[u8], at: u64) -> Option<u64>
    ensures { result ≡ field 8 bytes.now at (be64_at bytes.now at) }
{
    holds(bytes, at, 8).then(|| be64_at(bytes, at))
}

/// The little-endian number of the four bytes at `at`; `None` exactly where they pass the end.
pub fn le32(bytes: &[u8], at: u64) -> Option<u32>
    ensures { result ≡ field 4 bytes.now at (le32_at bytes.now at) }
{
    holds(bytes, at, 4).then(|| le32_at(bytes, at))
}

/// The little-endian number of the eight bytes at `at`; `None` exactly where they pass the end.
pub fn le64(bytes: &[u8], at: u64) -> Option<u64>
    ensures { result ≡ field 8 bytes.now at (le64_at bytes.now at) }
{
    holds(bytes, at, 8).then(|| le64_at(bytes, at))
}
