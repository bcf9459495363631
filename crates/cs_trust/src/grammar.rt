//! The rules of a trust cache, tried in their order.

ghost use Rattle.std.specs.Prelude.{◌≡◌, ◌+◌, ◌^◌, ◌<◌, ◌≤◌, length, IfOk, IfErr, IfSome, MatchOption, None, Some};
ghost use Rattle.pg_bytes.specs.Rules.{Tries};
ghost use Rattle.cs_trust.specs.Order.{cdhashes_of};
ghost use Rattle.cs_trust.specs.Layout.{entry_place, entries};
ghost use Rattle.cs_trust.specs.Layout as layout;
ghost use Rattle.cs_trust.specs.Rules as rules;
ghost use Rattle.cs_trust.specs.Rules.{frame_rules, order_rules, IsFramed, IsModule, IsCause};

use crate::entries::{Entry, More};
use crate::refusal::{NoMemory, TrustFail, TrustRefusal};
use crate::trust_module::{MAX_ENTRIES, Module};
use pg_bytes::le32_at;
use std::alloc::Global;

/// The trust cache that the bytes are, all of them. A refusal is that of the first rule that is broken. The other error,
/// `NoMemory`, comes where there is no memory for the entries.
pub fn module(alloc: Global, bytes: &[u8]) -> Result<Module, TrustFail>
    ensures accepted { IfOk result (IsModule bytes.now) }
    ensures refused { IfErr result (IsCause bytes.now) }
{
    let frame = framed(bytes)?;
    let entries = entries_of(alloc, bytes, frame)?;
    ordered(&entries)?;
    Ok(Module::of(entries))
}

/// What the header says.
#[derive(Clone, Copy)]
struct Frame {
    /// The version of the layout.
    version: u32,
    /// How many entries there are.
    count: u32,
}

/// The rules on the header and the length.
fn framed(bytes: &[u8]) -> Result<Frame, TrustRefusal>
    ensures tries { Tries (frame_rules bytes.now) result }
    ensures framed { IfOk result (λ frame. IsFramed bytes.now frame.version frame.count) }
{
    if bytes.len() < 24 {
        return Err(TrustRefusal::Short);
    }
    let version = le32_at(bytes, 0);
    if version != 1 && version != 2 {
        return Err(TrustRefusal::Version {
            v: u64::from(version),
        });
    }
    let count = le32_at(bytes, 20);
    if count > MAX_ENTRIES {
        return Err(TrustRefusal::TooMany);
    }
    if bytes.len() as u64 != place_of_entry(version, count) {
        return Err(TrustRefusal::LengthBad);
    }
    Ok(Frame { version, count })
}

/// Where the entry at `place`, counted from 0, begins, and where one before it ends.
fn place_of_entry(version: u32, place: u32) -> u64
    requires { place ≤ 65536 }
    ensures value { result ≡ entry_place version place }
    ensures limit { result < 2 ^ 32 }
{
    match version {
        2 => 24 + 24 * u64::from(place),
        _ => 24 + 22 * u64::from(place),
    }
}

/// The entries, in their order.
fn entries_of(alloc: Global, bytes: &[u8], frame: Frame) -> Result<Vec<Entry>, NoMemory>
    requires { IsFramed bytes.now frame.version frame.count }
    ensures { IfOk result (λ found. found.items ≡ entries bytes.now) }
{
    let mut found = Vec::with_capacity(alloc, frame.count as usize)?;
    for place in 0..frame.count {
        found.push(entry_at(bytes, frame.version, place))?;
    }
    Ok(found)
}

/// The entry at `place`, counted from 0.
fn entry_at(bytes: &[u8], version: u32, place: u32) -> Entry
    requires version { version ≡ layout.version bytes.now }
    requires place { place < 65536 }
    requires within { entry_place version (place + 1) ≤ length bytes.now }
    ensures { result ≡ layout.entry_at bytes.now place }
{
    let at = place_of_entry(version, place) as usize;
    let mut cdhash = [0; 20];
    cdhash.copy_from_slice(&bytes[at..at + 20]);
    Entry {
        cdhash,
        hash_type: bytes[at + 20],
        flags: bytes[at + 21],
        more: more_at(bytes, version, at + 22),
    }
}

/// What stands behind the first 22 bytes of an entry.
fn more_at(bytes: &[u8], version: u32, at: usize) -> Option<More>
    requires within { version ≡ 2 → at + 2 ≤ length bytes.now }
    ensures { result ≡ layout.more_at version bytes.now at }
{
    if version == 2 {
        Some(More {
            category: bytes[at],
            reserved: bytes[at + 1],
        })
    } else {
        None
    }
}

/// The rule on the order of the entries.
fn ordered(entries: &[Entry]) -> Result<(), TrustRefusal>
    ensures { Tries (order_rules (cdhashes_of entries.now)) result }
{
    match first_fall(entries) {
        Some(place) => Err(TrustRefusal::NotSorted {
            place: place as u64,
        }),
        None => Ok(()),
    }
}

/// The first place whose entry has a cdhash less than the one before.
fn first_fall(entries: &[Entry]) -> Option<usize>
    ensures { result ≡ rules.first_fall (cdhashes_of entries.now) }
{
    for place in 1..entries.len() {
        if entries[place]
            .cdhash
            .cmp(&entries[place - 1].cdhash)
            .is_lt()
        {
            return Some(place);
        }
    }
    None
}
