//! The hash pages of an image in shares, each on a thread of its own where one can be had.

ghost use Rattle.std.specs.Prelude.{◌≡◌, ◌*◌, ◌+◌, ◌<◌, ◌≤◌, ℕ, IfOk, length, slice_index_or, vec_len};
ghost use Rattle.pg_digest.specs.Digests.{sha_hash};
ghost use Rattle.cs_directory.specs.Directory.{IsDirectory};
ghost use Rattle.cs_verify.specs.Pages.{pages_of, bad_pages};
ghost use Rattle.cs_verify.specs.Shares.{share_start, bad_in_share};

use crate::pages::{bad_between, pages_of};
use crate::report::BadPage;
use cs_directory::Directory;
use pg_digest::ShaDigester;
use std::alloc::{AllocError, Global};
use std::thread;
use std::thread::Threads;

/// The least pages that a share has where there is more than one, so that its thread costs little beside it.
const LEAST: u64 = 128;

/// The hash pages of an image that do not match or have no slot, ascending, by the standard digests.
pub fn bad_pages<R: Threads + Sync>(
    rt: &R,
    alloc: Global,
    directory: &Directory,
    directory_bytes: &[u8],
    image: &[u8],
) -> Result<Vec<BadPage>, AllocError>
    requires directory { IsDirectory directory_bytes.now directory.now }
    requires limited { directory.now.limit ≤ length image.now }
    ensures { IfOk result (λ bad.
        bad.items ≡ bad_pages sha_hash directory.now directory_bytes.now image.now) }
{
    let signed = &image[..directory.limit() as usize];
    let count = share_count(rt, pages_of(directory));
    let shares = bad_by_share(rt, alloc, directory, directory_bytes, signed, count)?;
    let mut bad = Vec::new(alloc);
    for share in &shares {
        let Ok(found) = share else {
            return Err(AllocError);
        };
        bad.extend_from_slice(found)?;
    }
    Ok(bad)
}

/// In how many shares so many pages are looked at: one for each processor, or fewer, so that each has its least; and
/// one where the pages are too few for two.
fn share_count<R: Threads>(rt: &R, pages: u64) -> usize
    ensures some { 0 < result }
    ensures large { 1 < result → 128 * result ≤ pages }
{
    let most = pages / LEAST;
    if most < 2 {
        return 1;
    }
    most.min(processors(rt)) as usize
}

/// How many processors this thread may run on, or one where that is not known.
fn processors<R: Threads>(rt: &R) -> u64
    ensures { 0 < result }
{
    thread::available_parallelism(rt).map_or(1, |count| count.get() as u64)
}

/// What is found in each share, in their order.
fn bad_by_share<R: Threads + Sync>(
    rt: &R,
    alloc: Global,
    directory: &Directory,
    directory_bytes: &[u8],
    signed: &[u8],
    count: usize,
) -> Result<Vec<Result<Vec<BadPage>, AllocError>>, AllocError>
    requires directory { IsDirectory directory_bytes.now directory.now }
    requires signed { length signed.now ≡ directory.now.limit }
    requires some { 0 < count }
    ensures count { IfOk result (λ shares. vec_len shares ≡ count) }
    ensures each { IfOk result (λ shares. (share : ℕ) (d : _) → share < count →
        IfOk (slice_index_or shares.items share d) (λ bad. bad.items ≡
        bad_in_share sha_hash directory.now directory_bytes.now signed.now count share)) }
{
    thread::map_indices(
        rt,
        alloc,
        count,
        &|share| bad_in_share(alloc, directory, directory_bytes, signed, count, share),
    )
}

/// What is found in one share of so many, by a digester of its own.
fn bad_in_share(
    alloc: Global,
    directory: &Directory,
    directory_bytes: &[u8],
    signed: &[u8],
    count: usize,
    share: usize,
) -> Result<Vec<BadPage>, AllocError>
    requires directory { IsDirectory directory_bytes.now directory.now }
    requires signed { length signed.now ≡ directory.now.limit }
    requires share { share < count }
    ensures { IfOk result (λ bad. bad.items ≡
        bad_in_share sha_hash directory.now directory_bytes.now signed.now count share) }
{
    let pages = pages_of(directory);
    let from = share_start(pages, count as u64, share as u64);
    let to = share_start(pages, count as u64, share as u64 + 1);
    bad_between(
        alloc,
        directory,
        directory_bytes,
        signed,
        from,
        to,
        &mut ShaDigester::new(),
    )
}

/// The first page of a share, of so many; behind the last share, the number of pages.
fn share_start(pages: u64, count: u64, share: u64) -> u64
    requires some { 0 < count }
    requires share { share ≤ count }
    ensures start { result ≡ share_start pages count share }
    ensures within { result ≤ pages }
{
    share * (pages / count) + share.min(pages % count)
}
