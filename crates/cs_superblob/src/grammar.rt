//! The rules of a SuperBlob, tried in their order.

ghost use Rattle.std.specs.Prelude.{◌≡◌, ◌<◌, ◌==◌, All, IfOk, IfErr, OnOk, None, MatchResult, true, false};
ghost use Rattle.std.specs.List.{list_any};
ghost use Rattle.cs_superblob.specs.Layout.{seats, seat_at};
ghost use Rattle.cs_superblob.specs.Layout as layout;
ghost use Rattle.pg_bytes.specs.Rules.{Tries, first};
ghost use Rattle.cs_superblob.specs.Rules.{Refuses, frame_rules, place_rules, repeat_rules, broken, IsFramed, IsPlaced, IsMisplaced};
ghost use Rattle.cs_superblob.specs.Index.{IsIndex, IsInside};

use crate::entries::Seat;
use crate::refusal::{SuperFail, SuperRefusal};
use pg_bytes::{Range, be32_at};
use std::alloc::Global;

/// The magic by which an embedded signature is told from other blobs.
const MAGIC: u32 = 0xfade_0cc0;

/// The most entries that a table may have.
const MOST_ENTRIES: u64 = 1024;

/// The entries of the SuperBlob at the front of the bytes, in the order of its table: bytes behind its length
/// are no part of it. The refusal is that of the first rule that is broken. `SuperRefusal` has them in their
/// order: the places of all entries are tried before any two types are compared. `NoMemory` comes where there is
/// no memory for the list of entries.
pub fn index(alloc: Global, bytes: &[u8]) -> Result<Vec<Seat>, SuperFail>
    ensures accepted { IfOk result (λ found. IsIndex bytes.now found.items) }
    ensures inside { IfOk result (λ found. All (IsInside bytes.now) found.items) }
    ensures refused { IfErr result (Refuses (broken bytes.now)) }
{
    framed(bytes)?;
    let found = placed(alloc, bytes)?;
    distinct(bytes, &found)?;
    Ok(found)
}

/// The rules on the header and on how long the table is.
fn framed(bytes: &[u8]) -> Result<(), SuperRefusal>
    ensures tries { Tries (frame_rules bytes.now) result }
    ensures framed { OnOk result (IsFramed bytes.now) }
{
    if bytes.len() < 12 {
        return Err(SuperRefusal::Short);
    }
    let magic = be32_at(bytes, 0);
    if magic != MAGIC {
        return Err(SuperRefusal::BadMagic {
            magic: u64::from(magic),
        });
    }
    let length = u64::from(be32_at(bytes, 4));
    if length < 12 || length > bytes.len() as u64 {
        return Err(SuperRefusal::LengthBad);
    }
    let count = u64::from(be32_at(bytes, 8));
    if count > MOST_ENTRIES || 12 + 8 * count > length {
        return Err(SuperRefusal::CountBad);
    }
    Ok(())
}

/// The entries, where the rules on their places are kept.
fn placed(alloc: Global, bytes: &[u8]) -> Result<Vec<Seat>, SuperFail>
    requires { IsFramed bytes.now }
    ensures seats { IfOk result (λ found. found.items ≡ seats bytes.now) }
    ensures kept { OnOk result (first (place_rules bytes.now) ≡ None) }
    ensures refused { IfErr result (Refuses (first (place_rules bytes.now))) }
{
    let count = be32_at(bytes, 8);
    let mut found = Vec::with_capacity(alloc, count as usize)?;
    for i in 0..u64::from(count) {
        found.push(placed_entry(bytes, i)?)?;
    }
    Ok(found)
}

/// Entry `i`, or the refusal where its blob does not lie between the table and the SuperBlob's end.
fn placed_entry(bytes: &[u8], i: u64) -> Result<Seat, SuperRefusal>
    requires framed { IsFramed bytes.now }
    requires within { i < layout.count bytes.now }
    ensures placed { IfOk result (IsPlaced bytes.now i) }
    ensures out { IfErr result (IsMisplaced bytes.now i) }
{
    let out = SuperRefusal::EntryOut { index: i };
    let length = u64::from(be32_at(bytes, 4));
    let slot = be32_at(bytes, 12 + 8 * i);
    let at = u64::from(be32_at(bytes, 16 + 8 * i));
    if at < 12 + 8 * u64::from(be32_at(bytes, 8)) || at + 8 > length {
        return Err(out);
    }
    let len = u64::from(be32_at(bytes, at + 4));
    if len < 8 || at + len > length {
        return Err(out);
    }
    Ok(Seat {
        slot,
        range: Range { at, len },
    })
}

/// The rules on the types: no entry's is that of an earlier entry.
fn distinct(bytes: &[u8], found: &[Seat]) -> Result<(), SuperRefusal>
    requires { found.now ≡ seats bytes.now }
    ensures { Tries (repeat_rules bytes.now) result }
{
    for (i, seat) in found.iter().enumerate() {
        if has_slot(&found[..i], seat.slot) {
            return Err(SuperRefusal::Twice {
                slot: u64::from(seat.slot),
            });
        }
    }
    Ok(())
}

/// Whether an entry has the type.
fn has_slot(found: &[Seat], slot: u32) -> bool
    ensures { result ≡ list_any (λ seat. seat.slot == slot) found.now }
{
    found.iter().any(|seat| seat.slot == slot)
}
