//! Faults on checked pages, and hashes of a page, timed.

ghost use Rattle.std.specs.Prelude.{◌≡◌, ◌+◌, ◌*◌, ◌<◌, ◌≤◌, IfOk};
ghost use Rattle.pg_regions.specs.RegionsNow.{spare};

use crate::fail::BenchFail;
use crate::file::{CODE, PAGE, map, opened};
use cs_policy::{Access, FileReply, ProcFlags};
use pg_digest::{Digester, HashKind, ShaDigester};
use pg_io::MemPager;
use pg_object::Object;
use std::alloc::Global;
use std::rt::Clock;
use std::time::{Duration, Instant};

/// How many faults are timed.
pub const FAULTS: u32 = 100_000;

/// How many regions there can be.
pub const MOST: u32 = 4096;

/// How often a page is hashed.
pub const HASHES: u32 = 1_000;

// A fault for execution by a process on which code signing is enforced: whether it is given.
fn fault(object: &mut Object<MemPager, ShaDigester>, id: u32, page: u64) -> bool
    requires { 0 < (spare object.old.regions).records }
    ensures { (spare object.old.regions).records ≤ (spare object.new.regions).records + 1 }
{
    let reply = object.enter(id, page, Access::Execute, ProcFlags::ENFORCEMENT, 0);
    match reply {
        FileReply::Given { .. } => true,
        _ => false,
    }
}

// So many faults of the last regions, of which there are `holders`, each of them on one sealed page after another, and
// counts those that are given.
fn fault_each(
    object: &mut Object<MemPager, ShaDigester>,
    regions: u32,
    holders: u32,
    count: u32,
) -> u32
    requires some { 0 < holders }
    requires last { holders ≤ regions }
    requires room { count ≤ (spare object.old.regions).records }
    ensures count { result ≤ count }
    ensures room { (spare object.old.regions).records ≤ (spare object.new.regions).records + count }
{
    let mut given = 0;
    for step in 0..count {
        let id = regions - holders + step % holders;
        if fault(object, id, u64::from(step / holders)) {
            given += 1;
        }
    }
    given
}

// So many faults of the last regions in turn, of which there are `turn`, on the sealed pages in turn, and counts those
// that are given.
fn fault_all(object: &mut Object<MemPager, ShaDigester>, regions: u32, turn: u32, count: u32) -> u32
    requires some { 0 < turn }
    requires last { turn ≤ regions }
    requires room { count ≤ (spare object.old.regions).records }
    ensures { result ≤ count }
{
    let mut given = 0;
    for step in 0..count {
        let id = regions - turn + step % turn;
        if fault(object, id, u64::from(step % CODE)) {
            given += 1;
        }
    }
    given
}

/// Which regions map the file.
#[derive(Clone, Copy)]
pub struct Setting {
    /// How many regions there are.
    pub regions: u32,
    /// How many of them, the last ones, have a record of each page.
    pub holders: u32,
    /// How many of them, the last ones, fault in turn.
    pub turn: u32,
}

/// The faults that were given: those that give regions their records, and those that are timed. The time lies between two
/// readings of the clock, before the latter and after them. No clause speaks of times.
#[derive(Clone, Copy)]
pub struct Run {
    pub before: u32,
    pub given: u32,
    pub took: Duration,
}

impl Run {
    /// In this setting `FAULTS` faults of regions in turn on pages in turn, each of which was checked before.
    pub fn timed<R: Clock>(rt: &R, alloc: Global, setting: Setting) -> Result<Run, BenchFail>
        requires some { 0 < setting.turn }
        requires holders { setting.turn ≤ setting.holders }
        requires last { setting.holders ≤ setting.regions }
        requires most { setting.regions ≤ MOST }
        ensures before { IfOk result (λ run. run.before ≤ setting.holders * CODE) }
        ensures given { IfOk result (λ run. run.given ≤ FAULTS) }
    {
        let (regions, holders) = (setting.regions, setting.holders);
        let first = holders * CODE;
        let mut object = opened(alloc, regions, first + FAULTS)?;
        map(&mut object, regions);
        let before = fault_each(&mut object, regions, holders, first);
        let start = now(rt)?;
        let given = fault_all(&mut object, regions, setting.turn, FAULTS);
        Ok(Run {
            before,
            given,
            took: since(rt, start)?,
        })
    }
}

// Hashes a page of zeros again and again.
fn hash_all<D: Digester>(digester: &mut D, page: &[u8]) {
    for _ in 0..HASHES {
        let _ = digester.hash(HashKind::Sha256, page);
    }
}

/// The time of `HASHES` SHA-256 hashes of one page of zeros.
pub fn hashes_timed<R: Clock>(rt: &R, alloc: Global) -> Result<Duration, BenchFail> {
    let page = vec![in alloc; 0u8; PAGE as usize]?;
    let mut digester = ShaDigester::new();
    let start = now(rt)?;
    hash_all(&mut digester, &page);
    since(rt, start)
}

fn now<R: Clock>(rt: &R) -> Result<Instant, BenchFail> {
    Instant::now(rt).map_err(|_| BenchFail::NoClock)
}

fn since<R: Clock>(rt: &R, start: Instant) -> Result<Duration, BenchFail> {
    start.elapsed(rt).map_err(|_| BenchFail::NoClock)
}
