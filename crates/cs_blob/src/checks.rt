//! The rules on what stands beside the best code directory.

ghost use Rattle.std.specs.Prelude.{◌-◌, ◌≤◌, ◌<◌, All, IfErr, OnOk, Some};
ghost use Rattle.cs_blob.specs.Parts.{IsWithin};
ghost use Rattle.std.specs.Option.{ForSome};
ghost use Rattle.pg_bytes.specs.Counts.{RoseBy};
ghost use Rattle.pg_bytes.specs.PageSize.{IsPageSize};
ghost use Rattle.cs_blob.specs.Digests.{special_blobs, digests_among, digests_to, Digests, IsEarly, IsLast};
ghost use Rattle.cs_blob.specs.Rules.{cms_rule, special_rule, each_special, fit_rules, machine_rules, Tries};
ghost use Rattle.cs_blob.specs.Signed.{IsCandidate};

use crate::candidates::Candidate;
use crate::parts::entry;
use crate::refusal::BlobRefusal;
use cs_superblob::Seat;
use pg_bytes::{Range, bytes_in};
use pg_digest::{Digester, digest_bytes};

/// The type of the CMS signature.
const CMS: u32 = 0x10000;

/// The size of an empty CMS signature: its magic and its length.
const EMPTY: u64 = 8;

/// The rule on the CMS signature: only an empty one is accepted.
#[tactic(auto, unfolding(crate::specs::Rules::cms_rule))]
pub fn no_cms(entries: &[Seat]) -> Result<(), BlobRefusal>
    ensures tries { Tries (cms_rule entries.now) result }
    ensures early { IfErr result IsEarly }
{
    match entry(entries, CMS) {
        Some(seat) if seat.range.len != EMPTY => Err(BlobRefusal::CmsPresent {
            len: seat.range.len,
        }),
        _ => Ok(()),
    }
}

/// The rules on the blobs that have special slots, 1 to 11.
pub fn specials<D: Digester>(
    bytes: &[u8],
    entries: &[Seat],
    best: &Candidate,
    d: &mut D,
) -> Result<(), BlobRefusal>
    requires within { All (λ seat. IsWithin bytes.now seat.range) entries.now }
    requires best { IsCandidate bytes.now best.now }
    ensures tries { Tries (each_special D.hash bytes.now entries.now best.now) result }
    ensures digests { RoseBy (digests_among entries.now result) (D.calls d.old) (D.calls d.new) }
{
    for slot in 1..12 {
        special(bytes, entries, best, slot, d)?;
    }
    Ok(())
}

/// The rule on the blob of one special slot. Where there is no such blob, the slot is not looked at.
#[tactic(auto, unfolding(crate::specs::Rules::special_rule))]
fn special<D: Digester>(
    bytes: &[u8],
    entries: &[Seat],
    best: &Candidate,
    slot: u32,
    d: &mut D,
) -> Result<(), BlobRefusal>
    requires within { All (λ seat. IsWithin bytes.now seat.range) entries.now }
    requires best { IsCandidate bytes.now best.now }
    requires slot { 0 < slot }
    requires last { slot < 12 }
    ensures tries { Tries (special_rule D.hash bytes.now entries.now best.now slot) result }
    ensures digests { Digests (special_blobs entries.now (slot - 1))
        (digests_to entries.now slot result) (D.calls d.old) (D.calls d.new) }
{
    let Some(seat) = entry(entries, slot) else {
        return Ok(());
    };
    let slot = u64::from(slot);
    let best_bytes = bytes_in(bytes, &best.seat.range);
    let Some(wanted) = best.directory.special(best_bytes, slot) else {
        return Err(BlobRefusal::SpecialMissing { slot });
    };
    let digest = d.hash(best.directory.kind(), bytes_in(bytes, &seat.range));
    if digest_bytes(&digest) != wanted {
        return Err(BlobRefusal::SpecialMismatch { slot });
    }
    Ok(())
}

/// The rules on how the best code directory fits the slice and the machine's pages, whose size may be given.
#[tactic(auto, unfolding(crate::specs::Rules::fit_rules))]
pub fn fits(best: &Candidate, slice: &Range, page: Option<u32>) -> Result<(), BlobRefusal>
    requires page { ForSome page IsPageSize }
    ensures tries { Tries (fit_rules best.now slice.now page) result }
    ensures within { OnOk result (best.now.directory.limit ≤ slice.now.len) }
    ensures last { IfErr result IsLast }
{
    if best.directory.limit() > slice.len {
        return Err(BlobRefusal::LimitPastEnd);
    }
    match page {
        Some(page) => fits_pages(best, slice, page),
        None => Ok(()),
    }
}

/// The rules on the machine's pages, of this size: a hash page is no larger, and the slice begins where a page does.
fn fits_pages(best: &Candidate, slice: &Range, page: u32) -> Result<(), BlobRefusal>
    requires { 0 < page }
    ensures tries { Tries (machine_rules best.now slice.now (Some page)) result }
    ensures last { IfErr result IsLast }
{
    if best.directory.page_size() > u64::from(page) {
        return Err(BlobRefusal::HashPageLarge {
            n: best.directory.page_bits(),
        });
    }
    if slice.at % u64::from(page) != 0 {
        return Err(BlobRefusal::SliceOffset { at: slice.at });
    }
    Ok(())
}
