//! The rules of a code directory, tried in their order.

ghost use Rattle.std.specs.Prelude.{◌≡◌, ◌≤◌, length, IfOk, IfErr, OnOk};
ghost use Rattle.pg_digest.specs.Kinds.{size_of};
ghost use Rattle.cs_directory.specs.Layout.{hash_size, length_field};
ghost use Rattle.cs_directory.specs.Layout as layout;
ghost use Rattle.pg_bytes.specs.Rules.{Tries};
ghost use Rattle.cs_directory.specs.Rules.{IsFramed, lacks_text, frame_rules, hash_rules, slot_rules, text_rules, broken};
ghost use Rattle.cs_directory.specs.Directory.{directory_in, IsDirectory, IsInside};

use crate::code_directory::Directory;
use crate::hash_page::{HashPage, page_numbered};
use crate::refusal::DirRefusal;
use crate::texts::{behind, front, zero_place};
use pg_bytes::be32_at;
use pg_digest::{HashKind, kind_of, size};

/// The magic by which a code directory is told from other blobs of a signature.
const MAGIC: u32 = 0xfade_0c02;

/// The code directory at the front of the bytes: bytes behind its length are no part of it. The refusal is
/// that of the first rule that is broken. `DirRefusal` has them in their order, and a length below that of
/// the version's header is refused as LengthBad right after a bad version.
#[tactic(auto, using(crate::proofs::RuleFacts::broken_by_text))]
pub fn directory(bytes: &[u8]) -> Result<Directory, DirRefusal>
    ensures accepted { IfOk result (IsDirectory bytes.now) }
    ensures inside { IfOk result (IsInside bytes.now) }
    ensures refused { IfErr result (λ refusal. broken bytes.now ≡ Some refusal) }
{
    framed(bytes)?;
    let (page, kind) = hashed(bytes)?;
    let directory = Directory::of(bytes, kind, page);
    slots_placed(bytes, &directory)?;
    named(bytes, &directory)?;
    Ok(directory)
}

/// The rules on the blob: its size, magic, length and version.
fn framed(bytes: &[u8]) -> Result<(), DirRefusal>
    ensures tries { Tries (frame_rules bytes.now) result }
    ensures framed { OnOk result (IsFramed bytes.now) }
{
    if bytes.len() < 44 {
        return Err(DirRefusal::Short);
    }
    if be32_at(bytes, 0) != MAGIC {
        return Err(DirRefusal::BadMagic);
    }
    let length = u64::from(be32_at(bytes, 4));
    if length < 44 || length > bytes.len() as u64 {
        return Err(DirRefusal::LengthBad);
    }
    let version = be32_at(bytes, 8);
    if !(0x20000..=0x2ffff).contains(&version) {
        return Err(DirRefusal::Version {
            v: u64::from(version),
        });
    }
    if length < header_length(version) {
        return Err(DirRefusal::LengthBad);
    }
    Ok(())
}

/// How many bytes the header of a version has: later versions add fields at its end.
#[tactic(auto, unfolding(crate::specs::Layout::header_length))]
fn header_length(version: u32) -> u64
    ensures { result ≡ layout.header_length version }
{
    match version {
        0..0x20100 => 44,
        0x20100..0x20200 => 48,
        0x20200..0x20300 => 52,
        0x20300..0x20400 => 64,
        0x20400..0x20500 => 88,
        _ => 96,
    }
}

/// The rules on how pages are hashed.
fn hashed(bytes: &[u8]) -> Result<(HashPage, HashKind), DirRefusal>
    requires { 44 ≤ length bytes.now }
    ensures tries { Tries (hash_rules bytes.now) result }
    ensures page { IfOk result (λ found. found.0 ≡ layout.page bytes.now) }
    ensures kind { IfOk result (λ found. found.1 ≡ layout.kind bytes.now) }
    ensures size { IfOk result (λ found. hash_size bytes.now ≡ size_of found.1) }
{
    let bits = bytes[39];
    let Some(page) = page_numbered(bits) else {
        return Err(DirRefusal::PageSize { n: u64::from(bits) });
    };
    let hash_type = bytes[37];
    let Some(kind) = kind_of(hash_type) else {
        return Err(DirRefusal::HashType {
            n: u64::from(hash_type),
        });
    };
    let hash_size = bytes[36];
    if hash_size != size(kind) {
        return Err(DirRefusal::HashSize {
            n: u64::from(hash_size),
        });
    }
    Ok((page, kind))
}

/// The rules on where the slots lie.
#[tactic(auto, unfolding(crate::specs::Layout::header_length))]
fn slots_placed(bytes: &[u8], d: &Directory) -> Result<(), DirRefusal>
    requires framed { IsFramed bytes.now }
    requires fields { d.now ≡ directory_in bytes.now }
    requires size { hash_size bytes.now ≡ size_of d.now.kind }
    ensures { Tries (slot_rules bytes.now) result }
{
    let size = u64::from(size(d.kind));
    let hash_offset = u64::from(d.hash_offset);
    if u64::from(d.special_slots) * size > hash_offset
        || hash_offset + u64::from(d.code_slots) * size > u64::from(d.length)
    {
        return Err(DirRefusal::SlotsOut);
    }
    if d.version >= 0x20100 && be32_at(bytes, 44) != 0 {
        return Err(DirRefusal::Scatter);
    }
    Ok(())
}

/// The rules on the identifiers.
#[tactic(auto, unfolding(crate::specs::Layout::header_length))]
fn named(bytes: &[u8], d: &Directory) -> Result<(), DirRefusal>
    requires framed { IsFramed bytes.now }
    requires fields { d.now ≡ directory_in bytes.now }
    ensures { Tries (text_rules bytes.now) result }
{
    if no_text(bytes, d.length, d.ident_offset) {
        return Err(DirRefusal::IdentBad);
    }
    if d.version >= 0x20200 {
        let team_offset = be32_at(bytes, 48);
        if team_offset != 0 && no_text(bytes, d.length, team_offset) {
            return Err(DirRefusal::TeamBad);
        }
    }
    Ok(())
}

/// Whether no text that a zero byte ends begins at the place, within the directory.
fn no_text(bytes: &[u8], end: u32, at: u32) -> bool
    requires end { end ≡ length_field bytes.now }
    requires within { end ≤ length bytes.now }
    ensures { result ≡ lacks_text bytes.now at }
{
    at >= end || zero_place(behind(front(bytes, end), at)).is_none()
}
