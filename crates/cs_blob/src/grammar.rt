//! The rules of a signature, tried in their order.

ghost use Rattle.std.specs.Prelude.{◌≤◌, IfOk, IfErr};
ghost use Rattle.std.specs.Option.{ForSome};
ghost use Rattle.pg_bytes.specs.Counts.{RoseBy};
ghost use Rattle.pg_bytes.specs.PageSize.{IsPageSize};
ghost use Rattle.cs_blob.specs.Parts.{entries};
ghost use Rattle.cs_blob.specs.Digests.{digests_of, digests_to_best};
ghost use Rattle.cs_blob.specs.Rules.{broken, Refuses};
ghost use Rattle.cs_blob.specs.Signed.{IsSignature, IsBest};

use crate::candidates::{Candidate, candidates_of, distinct_ranks, strongest};
use crate::checks::{fits, no_cms, specials};
use crate::parts::parts_of;
use crate::refusal::BlobFail;
use crate::signature::Blob;
use pg_bytes::{Range, bytes_in};
use pg_digest::Digester;
use std::alloc::Global;

/// The signature of the slice. The rules, of which the first that is broken gives the refusal: the bytes are a
/// code directory or a SuperBlob; there is a blob of type 0; each code directory, of type 0 or 0x1000 to 0x1004,
/// is one; no two have hash types of one rank; a CMS signature is empty; for each type from 1 to 11, a blob of
/// it has a special slot in the best directory and matches it; that directory's limit is within the slice; where the
/// size of the machine's pages is given, which is 4,096 or 16,384, that directory's hash pages are no larger, and the
/// slice begins at a multiple of it. The digester is called once for each blob of those types, up to the one that is
/// refused, and once more for the cdhash. Where a rule before them is broken, or memory runs out, it is not called.
/// `NoMemory` comes where there is no memory for the lists of its entries and of its code directories. On an error the
/// bytes are dropped.
pub fn blob<D: Digester>(
    alloc: Global,
    bytes: Vec<u8>,
    slice: &Range,
    page: Option<u32>,
    d: &mut D,
) -> Result<Blob, BlobFail>
    requires page { ForSome page IsPageSize }
    ensures accepted { IfOk result (IsSignature D.hash bytes.items slice.now page) }
    ensures limited { IfOk result (λ held. held.best.limit ≤ slice.now.len) }
    ensures refused { IfErr result (Refuses (broken D.hash bytes.items slice.now page)) }
    ensures digests { RoseBy (digests_of (entries bytes.items) result)
        (D.calls d.old) (D.calls d.new) }
{
    let best = best_of(alloc, &bytes, slice, page, d)?;
    let cdhash = best.directory.cdhash(bytes_in(&bytes, &best.seat.range), d);
    Ok(Blob {
        bytes,
        best: best.directory,
        place: best.seat.range,
        slice: *slice,
        cdhash,
    })
}

/// The best code directory of a signature of the slice.
fn best_of<D: Digester>(
    alloc: Global,
    bytes: &[u8],
    slice: &Range,
    page: Option<u32>,
    d: &mut D,
) -> Result<Candidate, BlobFail>
    requires page { ForSome page IsPageSize }
    ensures accepted { IfOk result (IsBest D.hash bytes.now slice.now page) }
    ensures limited { IfOk result (λ best. best.directory.limit ≤ slice.now.len) }
    ensures refused { IfErr result (Refuses (broken D.hash bytes.now slice.now page)) }
    ensures digests { RoseBy (digests_to_best (entries bytes.now) result)
        (D.calls d.old) (D.calls d.new) }
{
    let parts = parts_of(alloc, bytes)?;
    let found = candidates_of(alloc, bytes, &parts.directories)?;
    distinct_ranks(&found)?;
    no_cms(&parts.entries)?;
    let best = strongest(&found);
    specials(bytes, &parts.entries, &best, d)?;
    fits(&best, slice, page)?;
    Ok(best)
}
