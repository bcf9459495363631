//! The bare peer of a draw: `fetch_add` on one word. No clause says what the word holds or how long a step takes.

ghost use Rattle.std.specs.Prelude.{◌≡◌, ◌⊎◌, IfErr};

use crate::fail::BenchFail;
use std::alloc::Global;
use std::rt::Clock;
use std::sync::atomic::{AtomicU64, Ordering};
use std::thread;
use std::thread::Threads;
use std::time::{Duration, Instant};

/// What a word held after steps of `fetch_add`, and the time between two readings of the clock, before and after them.
#[derive(Clone, Copy)]
pub struct Adds {
    pub total: u64,
    pub took: Duration,
}

// Adds 1 to the word so often, and gives what the last step found. A draw uses what its step found too.
fn add_all(word: &AtomicU64, adds: u64) -> u64 {
    let mut found = 0;
    for _ in 0..adds {
        found = word.fetch_add(1, Ordering::SeqCst);
    }
    found
}

impl Adds {
    /// Adds 1 to one word, `adds` times in each of so many jobs of `thread::map_indices`.
    pub fn timed<R: Threads + Clock + Sync>(
        rt: &R,
        alloc: Global,
        threads: usize,
        adds: u64,
    ) -> Result<Adds, BenchFail>
        ensures fails { IfErr result (λ fail. (fail ≡ BenchFail.NoMemory) ⊎ (fail ≡ BenchFail.NoClock)) }
    {
        let word = AtomicU64::new(0);
        let shared = &word;
        let Ok(start) = Instant::now(rt) else {
            return Err(BenchFail::NoClock);
        };
        let _ = thread::map_indices(rt, alloc, threads, &|_| add_all(shared, adds))?;
        let Ok(took) = start.elapsed(rt) else {
            return Err(BenchFail::NoClock);
        };
        Ok(Adds {
            total: word.into_inner(),
            took,
        })
    }
}
