//! Steps on resident pages, and hashes of a page, timed.

ghost use Rattle.std.specs.Prelude.{◌≡◌, ◌+◌, ◌<◌, ◌≤◌, IfOk, OnOk, length};
ghost use Rattle.pg_cache.specs.Cache.{KeepsSizes};
ghost use Rattle.pages_bench.specs.Benched.{HasBenched, IsBenched};

use crate::fail::BenchFail;
use pg_cache::Cache;
use pg_digest::{Digest, Digester, HashKind, ShaDigester, digest_bytes};
use pg_io::{MemPager, Pager};
use pg_pages::{Check, PagerFault, Pages};
use std::alloc::Global;
use std::rt::Clock;
use std::time::{Duration, Instant};

/// How many pages the file has, and how many bytes each page.
pub const PAGES: u32 = 4096;

/// How often each step is made.
pub const STEPS: u32 = 100_000;

/// How often a page is hashed.
pub const HASHES: u32 = 1_000;

// The pages of a file of `PAGES` pages of zeros in memory.
type Benched = Pages<MemPager, ShaDigester>;

// A cache over that file, of whose pages `limit` may be resident.
fn cached(alloc: Global, limit: u32) -> Result<Cache<MemPager>, BenchFail>
    requires some { 0 < limit }
    requires most { limit ≤ PAGES }
    ensures pages { IfOk result HasBenched }
{
    let bytes = vec![in alloc; 0; PAGES as usize * PAGES as usize]?;
    let pager = MemPager::new(bytes, Vec::new(alloc), PAGES)?;
    Ok(Cache::open(alloc, pager, limit)?)
}

// The pages of such a cache.
fn opened(alloc: Global, limit: u32) -> Result<Benched, BenchFail>
    requires some { 0 < limit }
    requires most { limit ≤ PAGES }
    ensures pages { IfOk result IsBenched }
{
    let cache = cached(alloc, limit)?;
    Ok(Pages::open(alloc, cache, ShaDigester::new())?)
}

// Brings the first `limit` pages.
fn fill(pages: &mut Benched, limit: u32) -> Result<(), PagerFault>
    requires pages { IsBenched pages.old }
    requires most { limit ≤ PAGES }
    ensures pages { OnOk result (IsBenched pages.new) }
{
    for page in 0..limit {
        pages.bring(u64::from(page))?;
    }
    Ok(())
}

// Brings pages below `used` in turn, and counts those for which none had to leave.
fn bring_all(pages: &mut Benched, used: u32) -> Result<u32, PagerFault>
    requires pages { IsBenched pages.old }
    requires some { 0 < used }
    requires most { used ≤ PAGES }
    ensures pages { OnOk result (IsBenched pages.new) }
    ensures count { IfOk result (λ brought. brought ≤ STEPS) }
{
    let mut brought = 0;
    for step in 0..STEPS {
        if pages.bring(page_at(step, used))?.is_none() {
            brought += 1;
        }
    }
    Ok(brought)
}

// Checks pages below `used` in turn against the digest, and counts those that have it.
fn check_all(pages: &mut Benched, used: u32, wanted: &[u8]) -> Result<u32, PagerFault>
    requires pages { IsBenched pages.old }
    requires some { 0 < used }
    requires most { used ≤ PAGES }
    requires digest { length wanted.now ≡ 32 }
    ensures pages { OnOk result (IsBenched pages.new) }
    ensures count { IfOk result (λ checked. checked ≤ STEPS) }
{
    let mut checked = 0;
    for step in 0..STEPS {
        let check = pages.check(page_at(step, used), HashKind::Sha256, PAGES, wanted)?;
        if check == Check::Sealed {
            checked += 1;
        }
    }
    Ok(checked)
}

// Puts a byte into pages below `used` in turn, where they are resident, and counts these.
fn put_all(pages: &mut Benched, used: u32) -> u32
    requires pages { IsBenched pages.old }
    requires some { 0 < used }
    ensures pages { IsBenched pages.new }
    ensures count { result ≤ STEPS }
{
    let mut written = 0;
    for step in 0..STEPS {
        let page = page_at(step, used);
        if pages.is_resident(page) {
            pages.put(page, (page as u32 % 64) * 64, &[1]);
            written += 1;
        }
    }
    written
}

// Writes a byte into pages below `used` of bare bytes in turn, as the puts do, and counts the writes.
fn write_all(bytes: &mut [u8], used: u32) -> u32
    requires some { 0 < used }
    requires most { used ≤ PAGES }
    ensures count { result ≤ STEPS }
{
    let mut made = 0;
    for step in 0..STEPS {
        let page = page_at(step, used) as usize;
        if let Some(byte) = bytes.get_mut(page * PAGES as usize + page % 64 * 64) {
            *byte = 1;
            made += 1;
        }
    }
    made
}

// The page of a step: each below `used` comes in turn, where that is a power of two, far from the one before.
fn page_at(step: u32, used: u32) -> u64
    requires { 0 < used }
    ensures { result < used }
{
    u64::from(step) * 1021 % u64::from(used)
}

// The SHA-256 digest of a page of zeros.
fn digest_of_zeros(alloc: Global) -> Result<Digest, BenchFail>
    ensures length { IfOk result (λ digest. length digest ≡ 32) }
{
    let page = vec![in alloc; 0u8; PAGES as usize]?;
    Ok(ShaDigester::new().hash(HashKind::Sha256, &page))
}

// Hashes a page of zeros again and again, and gives how long one hash takes in all.
fn hash_all<D: Digester>(digester: &mut D, page: &[u8]) {
    for _ in 0..HASHES {
        let _ = digester.hash(HashKind::Sha256, page);
    }
}

/// The steps that were made with so many resident pages, and the times between two readings of the clock, before each
/// kind of them and after it. No clause speaks of times.
#[derive(Clone, Copy)]
pub struct Run {
    /// How many brings of a resident page.
    pub brought: u32,
    /// How many checks of a page that is validated.
    pub checked: u32,
    /// How many puts.
    pub written: u32,
    pub bring_took: Duration,
    pub check_took: Duration,
    pub put_took: Duration,
}

impl Run {
    /// With `limit` resident pages, brings, checks and puts `STEPS` times each, over the first `used` of them. Each page
    /// is checked before the checks that are timed, so that it is validated.
    pub fn timed<R: Clock>(rt: &R, alloc: Global, limit: u32, used: u32) -> Result<Run, BenchFail>
        requires some { 0 < used }
        requires fewer { used ≤ limit }
        requires most { limit ≤ PAGES }
        ensures brought { IfOk result (λ run. run.brought ≤ STEPS) }
        ensures checked { IfOk result (λ run. run.checked ≤ STEPS) }
        ensures written { IfOk result (λ run. run.written ≤ STEPS) }
    {
        let mut pages = opened(alloc, limit)?;
        fill(&mut pages, limit)?;
        let start = now(rt)?;
        let brought = bring_all(&mut pages, used)?;
        let bring_took = since(rt, start)?;
        let digest = digest_of_zeros(alloc)?;
        check_all(&mut pages, used, digest_bytes(&digest))?;
        let start = now(rt)?;
        let checked = check_all(&mut pages, used, digest_bytes(&digest))?;
        let check_took = since(rt, start)?;
        let start = now(rt)?;
        let written = put_all(&mut pages, used);
        let put_took = since(rt, start)?;
        Ok(Run {
            brought,
            checked,
            written,
            bring_took,
            check_took,
            put_took,
        })
    }
}

/// Writes a byte `STEPS` times into the first `used` of so many pages of bare bytes, and gives how often, and the time.
/// It touches as much memory as the puts, and nothing else.
pub fn writes_timed<R: Clock>(
    rt: &R,
    alloc: Global,
    used: u32,
) -> Result<(u32, Duration), BenchFail>
    requires some { 0 < used }
    requires most { used ≤ PAGES }
    ensures count { IfOk result (λ timed. timed.0 ≤ STEPS) }
{
    let mut bytes = vec![in alloc; 0u8; PAGES as usize * PAGES as usize]?;
    let start = now(rt)?;
    let written = write_all(&mut bytes, used);
    Ok((written, since(rt, start)?))
}

/// The time of `HASHES` SHA-256 hashes of one page of zeros.
pub fn hashes_timed<R: Clock>(rt: &R, alloc: Global) -> Result<Duration, BenchFail> {
    let page = vec![in alloc; 0u8; PAGES as usize]?;
    let mut digester = ShaDigester::new();
    let start = now(rt)?;
    hash_all(&mut digester, &page);
    since(rt, start)
}

fn now<R: Clock>(rt: &R) -> Result<Instant, BenchFail> {
    Instant::now(rt).map_err(|_| BenchFail::NoClock)
}

fn since<R: Clock>(rt: &R, start: Instant) -> Result<Duration, BenchFail> {
    start.elapsed(rt).map_err(|_| BenchFail::NoClock)
}
