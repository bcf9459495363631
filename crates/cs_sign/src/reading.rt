//! The files of a run: how each is read, and what is taken from it.

ghost use Rattle.std.specs.Prelude.{◌≡◌, ◌≤◌, ℕ, [], length, map, Some, IfOk, OnOk, string_bytes};
ghost use Rattle.pg_digest.specs.Digests.{sha_hash};
ghost use Rattle.pg_io.specs.Files.{Told, next_read};
ghost use Rattle.cs_sign.specs.Reading.{limited, read_of, hash_in, hashes_in, matched_hashes, sealed_hashes, cached, finds, after_reads, Answers, GoesAs, ReadsSome, CachedSome, ReadsWithin, IsCaused, items_of};

use crate::early::{Early, MOST, Stop};
use cs_verify::{SliceReport, VerifyFail, all_match, verify};
use pg_digest::ShaDigester;
use pg_io::{Files, ReadFail};
use std::alloc::{AllocError, Global};

/// A file that was read, where it has no more bytes than it may have.
fn limited(bytes: Vec<u8>) -> Result<Vec<u8>, Stop>
    ensures told { Answers items_of (limited bytes.items) result }
    ensures cause { (count : ℕ) → IsCaused result count count }
{
    if bytes.len() as u64 > MOST {
        return Err(Stop::Early(Early::TooLarge));
    }
    Ok(bytes)
}

/// Reads the file of an item.
pub(crate) fn read_item<F: Files>(
    alloc: Global,
    files: &mut F,
    path: &str,
    item: u32,
) -> Result<Vec<u8>, Stop>
    ensures told { (told : Told) → F.tells files.old ≡ Some told →
        Answers items_of (read_of item (next_read told path.now)) result }
    ensures some { GoesAs (ReadsSome item) items_of result }
    ensures read { (told : Told) → F.tells files.old ≡ Some told →
        OnOk result (F.tells files.new ≡ Some (after_reads 1 told)) }
    ensures reads { (told : Told) → F.tells files.old ≡ Some told →
        ReadsWithin told 1 (F.tells files.new) }
    ensures cause { IsCaused result (F.faults files.old) (F.faults files.new) }
{
    match files.read(alloc, path, MOST + 1) {
        Err(ReadFail::NoMemory) => Err(Stop::NoMemory),
        Err(ReadFail::Failed) => Err(Stop::Early(Early::Unread { item })),
        Ok(bytes) => limited(bytes),
    }
}

/// The cdhash of a slice that is accepted.
fn hash_in(report: &SliceReport) -> Option<[u8; 20]>
    ensures { result ≡ hash_in report.now }
{
    match report {
        SliceReport::Refused(_) => None,
        SliceReport::Accepted { cdhash, .. } => Some(*cdhash),
    }
}

/// The cdhashes of a report.
fn hashes_in(alloc: Global, reports: &[SliceReport]) -> Result<Vec<[u8; 20]>, AllocError>
    ensures { IfOk result (λ found. found.items ≡ hashes_in reports.now) }
{
    reports
        .iter()
        .filter_map(|report| hash_in(report))
        .collect(alloc)
}

/// The cdhashes of a report, where all of it matches.
fn matched_hashes(alloc: Global, reports: &[SliceReport], item: u32) -> Result<Vec<[u8; 20]>, Stop>
    ensures told { Answers items_of (matched_hashes item reports.now) result }
    ensures found { IfOk result (λ found. found.items ≡ hashes_in reports.now) }
    ensures cause { (count : ℕ) → IsCaused result count count }
{
    if !all_match(reports) {
        return Err(Stop::Early(Early::NotSealed { item }));
    }
    Ok(hashes_in(alloc, reports)?)
}

/// The cdhashes of the slices of a file that is sealed.
fn sealed_hashes(alloc: Global, bytes: &[u8], item: u32) -> Result<Vec<[u8; 20]>, Stop>
    ensures told { Answers items_of (sealed_hashes sha_hash item bytes.now) result }
    ensures few { IfOk result (λ found. length found.items ≤ 32) }
    ensures cause { (count : ℕ) → IsCaused result count count }
{
    let mut digester = ShaDigester::new();
    match verify(alloc, bytes, &mut digester) {
        Ok(reports) => matched_hashes(alloc, &reports, item),
        Err(VerifyFail::Refused(_)) => Err(Stop::Early(Early::NotSealed { item })),
        Err(VerifyFail::NoMemory) => Err(Stop::NoMemory),
    }
}

/// The cdhashes of the slices of files that are sealed, in the order of their paths.
pub(crate) fn cached<F: Files>(
    alloc: Global,
    files: &mut F,
    paths: &[String],
) -> Result<Vec<[u8; 20]>, Stop>
    requires { length paths.now ≤ 64 }
    ensures told { (told : Told) → F.tells files.old ≡ Some told →
        Answers items_of (cached sha_hash 0 (finds told (map string_bytes paths.now)) []) result }
    ensures some { GoesAs (CachedSome sha_hash (length paths.now)) items_of result }
    ensures reads { (told : Told) → F.tells files.old ≡ Some told →
        ReadsWithin told (length paths.now) (F.tells files.new) }
    ensures cause { IsCaused result (F.faults files.old) (F.faults files.new) }
    ensures few { IfOk result (λ found. length found.items ≤ 2048) }
{
    let mut found = Vec::new(alloc);
    for item in 0..paths.len() {
        let bytes = read_item(alloc, files, paths[item].as_str(), item as u32)?;
        let more = sealed_hashes(alloc, &bytes, item as u32)?;
        found.extend_from_slice(&more)?;
    }
    Ok(found)
}
