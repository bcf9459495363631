//! The code directories of a signature, and the best of them.

ghost use Rattle.std.specs.Prelude.{◌≡◌, [], ◌==◌, ◌<◌, All, IfOk, IfErr, OnOk, None, Some, length, find};
ghost use Rattle.cs_blob.specs.Parts.{IsWithin};
ghost use Rattle.cs_blob.specs.Candidates.{candidate, ranked};
ghost use Rattle.cs_blob.specs.Candidates as candidates;
ghost use Rattle.cs_blob.specs.Rules.{directory_rule, each_directory, same_ranks, Tries, Refuses};
ghost use Rattle.cs_blob.specs.Digests.{IsEarly, IsEarlyFail};
ghost use Rattle.cs_blob.specs.Signed.{IsCandidate};

use crate::refusal::{BlobFail, BlobRefusal};
use cs_directory::{Directory, directory};
use cs_superblob::Seat;
use pg_bytes::bytes_in;
use pg_digest::rank;
use std::alloc::Global;

/// A code directory and where its bytes lie in the signature.
#[derive(Clone, Copy, Debug, PartialEq, Eq)]
pub struct Candidate {
    pub seat: Seat,
    pub directory: Directory,
}

/// The code directories, if none of them is refused.
pub fn candidates_of(
    alloc: Global,
    bytes: &[u8],
    seats: &[Seat],
) -> Result<Vec<Candidate>, BlobFail>
    requires { All (λ seat. IsWithin bytes.now seat.range) seats.now }
    ensures found { IfOk result (λ found. found.items ≡ candidates.among bytes.now seats.now) }
    ensures sound { IfOk result (λ found. All (IsCandidate bytes.now) found.items) }
    ensures kept { OnOk result (each_directory bytes.now seats.now ≡ None) }
    ensures refused { IfErr result (Refuses (each_directory bytes.now seats.now)) }
    ensures early { IfErr result IsEarlyFail }
{
    let mut found = Vec::with_capacity(alloc, seats.len())?;
    for seat in seats {
        found.push(candidate_at(bytes, seat)?)?;
    }
    Ok(found)
}

/// The code directory of one entry.
#[tactic(auto, unfolding(crate::specs::Candidates::candidate, crate::specs::Rules::directory_rule))]
fn candidate_at(bytes: &[u8], seat: &Seat) -> Result<Candidate, BlobRefusal>
    requires { IsWithin bytes.now seat.now.range }
    ensures found { IfOk result (λ found. found ≡ candidate bytes.now seat.now) }
    ensures sound { IfOk result (IsCandidate bytes.now) }
    ensures tries { Tries (directory_rule bytes.now seat.now) result }
    ensures early { IfErr result IsEarly }
{
    match directory(bytes_in(bytes, &seat.range)) {
        Ok(directory) => Ok(Candidate {
            seat: *seat,
            directory,
        }),
        Err(refusal) => Err(BlobRefusal::Dir(refusal)),
    }
}

/// The rule on ranks: no two code directories have the same.
pub fn distinct_ranks(found: &[Candidate]) -> Result<(), BlobRefusal>
    ensures tries { Tries (same_ranks [] found.now) result }
    ensures early { IfErr result IsEarly }
{
    for (i, candidate) in found.iter().enumerate() {
        if let Some(earlier) = of_rank(&found[..i], rank(candidate.directory.kind())) {
            return Err(BlobRefusal::SameRank {
                a: u64::from(earlier.seat.slot),
                b: u64::from(candidate.seat.slot),
            });
        }
    }
    Ok(())
}

/// The first code directory of a rank.
fn of_rank(found: &[Candidate], wanted: u8) -> Option<Candidate>
    ensures { result ≡ find (λ candidate. ranked candidate == wanted) found.now }
{
    found
        .iter()
        .copied()
        .find(|candidate| rank(candidate.directory.kind()) == wanted)
}

/// The code directory of the greatest rank.
pub fn strongest(found: &[Candidate]) -> Candidate
    requires { 0 < length found.now }
    ensures { Some result ≡ candidates.strongest found.now }
{
    let mut best = found[0];
    for candidate in &found[1..] {
        if rank(best.directory.kind()) < rank(candidate.directory.kind()) {
            best = *candidate;
        }
    }
    best
}
