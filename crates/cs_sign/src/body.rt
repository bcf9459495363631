//! The bytes that are signed.

ghost use Rattle.std.specs.Prelude.{◌≡◌, ◌+◌, ◌-◌, ◌≤◌, ◌<◌, ◌^◌, length, take, IfOk};
ghost use Rattle.cs_sign.specs.Body.{word_bytes, long_bytes, put, linkedit_size, linkedit_vmsize, resized, IsRoomy};
ghost use Rattle.cs_sign.specs.Body as bodies;

use crate::plan::Plan;
use byteorder::{ByteOrder, LittleEndian};
use pg_bytes::le64_at;
use std::alloc::{AllocError, Global};

/// How many bytes a page of memory has, of which a segment takes whole ones.
const MEMORY_PAGE: u64 = 16_384;

/// Writes a number of four bytes at a place, the least byte first.
fn put_word(bytes: &mut [u8], at: u64, number: u32)
    requires { at + 4 ≤ length bytes.old }
    ensures { bytes.new ≡ put bytes.old at (word_bytes number) }
{
    LittleEndian::write_u32(&mut bytes[at as usize..], number);
}

/// Writes a number of eight bytes at a place, the least byte first.
fn put_long(bytes: &mut [u8], at: u64, number: u64)
    requires { at + 8 ≤ length bytes.old }
    ensures { bytes.new ≡ put bytes.old at (long_bytes number) }
{
    LittleEndian::write_u64(&mut bytes[at as usize..], number);
}

/// Writes the three sizes that a signature of so many bytes changes, where `vmsize` is that of `__LINKEDIT`.
fn resize(bytes: &mut [u8], plan: &Plan, size: u64, vmsize: u64)
    requires signature { plan.now.signature + 16 ≤ length bytes.old }
    requires linkedit { plan.now.linkedit.at + 72 ≤ length bytes.old }
    requires begins { plan.now.linkedit.fileoff ≤ plan.now.limit }
    requires fits { plan.now.limit + size < 2 ^ 32 }
    ensures { bytes.new ≡ resized bytes.old plan.now size vmsize }
{
    put_word(bytes, plan.signature + 12, size as u32);
    let filesize = plan.limit + size - plan.linkedit.fileoff;
    put_long(bytes, plan.linkedit.at + 48, filesize);
    put_long(bytes, plan.linkedit.at + 32, vmsize);
}

/// How many bytes of memory `__LINKEDIT` takes with a signature of so many bytes.
fn vmsize(bytes: &[u8], plan: &Plan, size: u64) -> u64
    requires room { IsRoomy bytes.now plan.now }
    requires fits { plan.now.limit + size < 2 ^ 32 }
    ensures { result ≡ linkedit_vmsize bytes.now plan.now size }
{
    let filesize = plan.limit + size - plan.linkedit.fileoff;
    le64_at(bytes, plan.linkedit.at + 32).max(filesize.next_multiple_of(MEMORY_PAGE))
}

/// The bytes before the signature, with the sizes that a signature of so many bytes changes. There is room for it behind
/// them.
pub(crate) fn body(
    alloc: Global,
    bytes: &[u8],
    plan: &Plan,
    size: u64,
) -> Result<Vec<u8>, AllocError>
    requires room { IsRoomy bytes.now plan.now }
    requires fits { plan.now.limit + size < 2 ^ 32 }
    ensures { IfOk result (λ made. made.items ≡ bodies.body bytes.now plan.now size) }
{
    let mut made = Vec::with_capacity(alloc, (plan.limit + size) as usize)?;
    made.extend_from_slice(&bytes[..plan.limit as usize])?;
    let vmsize = vmsize(bytes, plan, size);
    resize(&mut made, plan, size, vmsize);
    Ok(made)
}
