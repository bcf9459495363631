//! A run: callers draw on parts of their own, all at once.

ghost use Rattle.std.specs.Prelude.{◌≡◌, ◌≢◌, ◌*◌, ◌<◌, ◌^◌, IfOk, IfErr};
ghost use Rattle.pg_book.specs.Needs.{rows};
ghost use Rattle.book_bench.specs.OwnParts.{own_needs, own_row, own_table};
ghost use Rattle.book_bench.specs.Runs.{IsReady, IsRunHistory};
ghost use Rattle.book_bench.specs.Fails.{IsRunFail};

use crate::fail::BenchFail;
use crate::hand::{Hand, apart, draw_each, paired};
use pg_book::{AllNeeds, Book, Needs, OpenFail, Stamped};
use std::alloc::{AllocError, Global};
use std::rt::Clock;
use std::thread::Threads;
use std::time::{Duration, Instant};

// What the caller needs of the part: so many entries on the part of its own number, and nothing of the others.
fn needs_at(caller: usize, part: usize, draws: u64) -> Needs
    ensures { result ≡ own_needs draws caller part }
{
    Needs {
        entries: if part == caller { draws } else { 0 },
        regions: 0,
        records: 0,
        copies: 0,
        blobs: 0,
        numbers: 0,
    }
}

fn row_of(
    alloc: Global,
    callers: usize,
    draws: u64,
    caller: usize,
) -> Result<Vec<Needs>, AllocError>
    ensures { IfOk result (λ v. v.items ≡ own_row callers draws caller) }
{
    (0..callers)
        .map(|part| needs_at(caller, part, draws))
        .collect(alloc)
}

fn table_of(alloc: Global, callers: usize, draws: u64) -> Result<AllNeeds, AllocError>
    ensures { IfOk result (λ v. rows v ≡ own_table callers draws) }
{
    let mut all = Vec::new(alloc);
    for caller in 0..callers {
        all.push(row_of(alloc, callers, draws, caller)?)?;
    }
    Ok(all)
}

// A book for so many callers and as many parts, where each caller may draw `draws` times on the part of its own number,
// and a hand for each caller, in the order of their numbers.
fn open(alloc: Global, callers: usize, draws: u64) -> Result<(Book<u64>, Vec<Hand>), BenchFail>
    requires callers { (0 < callers) × (callers < 2 ^ 32) }
    requires entries { callers * draws < 2 ^ 63 }
    ensures ready { IfOk result (λ r. IsReady callers draws r.0 r.1.items) }
    ensures fails { IfErr result (λ fail. (fail ≢ BenchFail.NoClock) × IsRunFail callers fail) }
{
    let needs = table_of(alloc, callers, draws)?;
    let (book, spines, passes) = match Book::open(alloc, needs) {
        Ok(opened) => opened,
        Err(OpenFail::NoMemory { .. }) => return Err(BenchFail::NoMemory),
        Err(
            OpenFail::Found {
                back: _needs,
                wanted,
                found,
            },
        ) => {
            return Err(BenchFail::NotOpened { wanted, found });
        }
    };
    let hands = paired(alloc, spines, passes)?;
    Ok((book, hands))
}

/// The history of a run, and the time between two readings of the clock, before the draws and after them. No clause
/// speaks of the time.
#[derive(Drop)]
pub struct Run {
    pub history: Vec<Stamped<u64>>,
    pub took: Duration,
}

impl Run {
    /// The run of so many callers, each on the part of its own number, who draw `draws` times each.
    pub fn timed<R: Threads + Clock + Sync>(
        rt: &R,
        alloc: Global,
        callers: usize,
        draws: u64,
    ) -> Result<Run, BenchFail>
        requires callers { (0 < callers) × (callers < 2 ^ 32) }
        requires entries { callers * draws < 2 ^ 63 }
        ensures history { IfOk result (λ r. IsRunHistory callers draws r.history.items) }
        ensures fails { IfErr result (IsRunFail callers) }
    {
        let (book, hands) = open(alloc, callers, draws)?;
        let Ok(start) = Instant::now(rt) else {
            return Err(BenchFail::NoClock);
        };
        let hands = draw_each(rt, hands, draws)?;
        let Ok(took) = start.elapsed(rt) else {
            return Err(BenchFail::NoClock);
        };
        let (spines, passes) = apart(alloc, hands)?;
        let Ok(history) = book.close(spines, passes) else {
            return Err(BenchFail::NoMemory);
        };
        Ok(Run { history, took })
    }
}
