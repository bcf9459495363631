//! The rules of a file of Mach-O images, tried in their order.

ghost use Rattle.std.specs.Prelude.{◌≡◌, ◌^◌, ◌<◌, All, IfOk, IfErr, OnOk, None, Some, MatchResult, IsTrue, IsFalse, position};
ghost use Rattle.macho_slices.specs.Layout.{count, form_of, fat_slices, slices_by};
ghost use Rattle.macho_slices.specs.Layout as layout;
ghost use Rattle.pg_bytes.specs.Rules.{Tries, first};
ghost use Rattle.macho_slices.specs.Rules.{Refuses, start_rules, table_rules, ends_behind, place_rules, overlap_rules, meets, broken, HasTable};
ghost use Rattle.macho_slices.specs.Slices.{IsSlices, IsWithin};

use crate::form::{Form, Width};
use crate::refusal::{FatFail, FatRefusal};
use pg_bytes::{Range, be32_at, be64_at, le32_at};
use std::alloc::Global;

/// The magic of a thin file, whose numbers have their least byte first.
const THIN_MAGIC: u32 = 0xfeed_facf;

/// The magic of a fat file with offsets and sizes of four bytes.
const NARROW_MAGIC: u32 = 0xcafe_babe;

/// The magic of a fat file with offsets and sizes of eight bytes.
const WIDE_MAGIC: u32 = 0xcafe_babf;

/// The most records that a table may have.
const MOST_RECORDS: u64 = 32;

/// The slices of the file, in the order of its records: a thin file is one slice, the whole file, and a fat file has
/// none where its table is empty. The refusal is that of the first rule that is broken. `FatRefusal` has them in
/// their order: the places of all slices are tried before any two are compared. The other error, NoMemory, comes where
/// there is no memory for the list of slices.
pub fn slices(alloc: Global, bytes: &[u8]) -> Result<Vec<Range>, FatFail>
    ensures accepted { IfOk result (λ found. IsSlices bytes.now found.items) }
    ensures within { IfOk result (λ found. All (IsWithin bytes.now) found.items) }
    ensures refused { IfErr result (Refuses (broken bytes.now)) }
{
    match begun(bytes)? {
        Form::Thin => whole(alloc, bytes),
        Form::Fat(width) => {
            tabled(bytes, width)?;
            let found = placed(alloc, bytes, width)?;
            apart(&found)?;
            Ok(found)
        }
    }
}

/// The rules on how the file begins.
fn begun(bytes: &[u8]) -> Result<Form, FatRefusal>
    ensures tries { Tries (start_rules bytes.now) result }
    ensures form { IfOk result (λ form. form_of bytes.now ≡ Some form) }
{
    if bytes.len() < 4 {
        return Err(FatRefusal::Short);
    }
    if le32_at(bytes, 0) == THIN_MAGIC {
        return Ok(Form::Thin);
    }
    match be32_at(bytes, 0) {
        NARROW_MAGIC => Ok(Form::Fat(Width::Narrow)),
        WIDE_MAGIC => Ok(Form::Fat(Width::Wide)),
        _ => Err(FatRefusal::BadMagic),
    }
}

/// The slice of a thin file.
fn whole(alloc: Global, bytes: &[u8]) -> Result<Vec<Range>, FatFail>
    ensures slices { IfOk result (λ found. found.items ≡ slices_by (Some Form.Thin) bytes.now) }
    ensures refused { IfErr result (Refuses None) }
{
    let mut found = Vec::with_capacity(alloc, 1)?;
    found.push(Range {
        at: 0,
        len: bytes.len() as u64,
    })?;
    Ok(found)
}

/// The rules on the header of a fat file and on how long its table is.
fn tabled(bytes: &[u8], width: Width) -> Result<(), FatRefusal>
    ensures tries { Tries (table_rules width bytes.now) result }
    ensures table { OnOk result (HasTable width bytes.now) }
{
    if bytes.len() < 8 {
        return Err(FatRefusal::Short);
    }
    let count = u64::from(be32_at(bytes, 4));
    if count > MOST_RECORDS {
        return Err(FatRefusal::TooMany { count });
    }
    if record_at(width, count) > bytes.len() as u64 {
        return Err(FatRefusal::Short);
    }
    Ok(())
}

/// Where record `i`, counted from 0, begins.
fn record_at(width: Width, i: u64) -> u64
    requires { i < 2 ^ 32 }
    ensures { result ≡ layout.record_at width i }
{
    match width {
        Width::Narrow => 8 + 20 * i,
        Width::Wide => 8 + 32 * i,
    }
}

/// The slices, where the rules on their places are kept.
fn placed(alloc: Global, bytes: &[u8], width: Width) -> Result<Vec<Range>, FatFail>
    requires { HasTable width bytes.now }
    ensures slices { IfOk result (λ found. found.items ≡ fat_slices width bytes.now) }
    ensures kept { OnOk result (first (place_rules width bytes.now) ≡ None) }
    ensures refused { IfErr result (Refuses (first (place_rules width bytes.now))) }
{
    let count = u64::from(be32_at(bytes, 4));
    let mut found = Vec::with_capacity(alloc, count as usize)?;
    for i in 0..count {
        found.push(placed_slice(bytes, width, i)?)?;
    }
    Ok(found)
}

/// The slice of record `i`, or the refusal where it ends behind the file.
fn placed_slice(bytes: &[u8], width: Width, i: u64) -> Result<Range, FatRefusal>
    requires table { HasTable width bytes.now }
    requires within { i < count bytes.now }
    ensures { MatchResult result
        (λ slice. IsFalse (ends_behind width bytes.now i)
        × (slice ≡ layout.slice_at width bytes.now i))
        (λ refusal. IsTrue (ends_behind width bytes.now i)
        × (refusal ≡ FatRefusal.OutOfFile i)) }
{
    let Range { at, len } = slice_at(bytes, width, i);
    match at.checked_add(len) {
        Some(end) if end <= bytes.len() as u64 => Ok(Range { at, len }),
        _ => Err(FatRefusal::OutOfFile { arch: i }),
    }
}

/// The slice of record `i`.
fn slice_at(bytes: &[u8], width: Width, i: u64) -> Range
    requires table { HasTable width bytes.now }
    requires within { i < count bytes.now }
    ensures { result ≡ layout.slice_at width bytes.now i }
{
    let at = record_at(width, i);
    match width {
        Width::Narrow => Range {
            at: u64::from(be32_at(bytes, at + 8)),
            len: u64::from(be32_at(bytes, at + 12)),
        },
        Width::Wide => Range {
            at: be64_at(bytes, at + 8),
            len: be64_at(bytes, at + 16),
        },
    }
}

/// The rules on how the slices lie to one another: none shares a byte with an earlier one.
fn apart(found: &[Range]) -> Result<(), FatRefusal>
    ensures { Tries (overlap_rules found.now) result }
{
    for (b, slice) in found.iter().enumerate() {
        if let Some(a) = first_meeting(&found[..b], slice) {
            return Err(FatRefusal::Overlap {
                a: a as u64,
                b: b as u64,
            });
        }
    }
    Ok(())
}

/// The first of the slices that shares a byte with this one.
fn first_meeting(earlier: &[Range], slice: &Range) -> Option<usize>
    ensures { result ≡ position (λ other. meets other slice.now) earlier.now }
{
    earlier.iter().position(|other| meet(other, slice))
}

/// Whether two slices share a byte: each begins before the other's end. The differences stop at 0, and no sum is
/// taken.
fn meet(slice: &Range, other: &Range) -> bool
    ensures { result ≡ meets slice.now other.now }
{
    slice.at.saturating_sub(other.at) < other.len && other.at.saturating_sub(slice.at) < slice.len
}
