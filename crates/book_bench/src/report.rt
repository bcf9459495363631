//! What the program tells.

ghost use Rattle.std.specs.Prelude.{◌≡◌, ◌<◌, ◌==◌, ◌⊎◌, ℕ, count_by, length, string_bytes, IfOk, IfErr};
ghost use Rattle.std.specs.Duration.{as_nanos};
ghost use Rattle.book_bench.specs.Runs.{IsRunHistory};
ghost use Rattle.book_bench.specs.Reports.{run_text, times_text, IsReport};
ghost use Rattle.book_bench.specs.Fails.{IsRunFail};

use crate::adds::Adds;
use crate::asked::Asked;
use crate::fail::BenchFail;
use crate::run::Run;
use pg_book::Stamped;
use std::alloc::{AllocError, Global};
use std::rt::Clock;
use std::thread::Threads;
use std::time::Duration;

/// The callers of the run that is told. Times are told of so many, beside those of one.
pub const CALLERS: usize = 4;

// How many entries are the first of their callers.
fn first_draws(history: &[Stamped<u64>]) -> usize
    ensures { result ≡ count_by (λ e. e.entry == 0) history.now }
{
    history.iter().filter(|entry| entry.entry == 0).count()
}

// A history as three lines: how many callers drew, how often in all, and the first and the last stamp.
fn summary(alloc: Global, history: &[Stamped<u64>]) -> Result<String, AllocError>
    requires { 0 < length history.now }
    ensures { (callers draws : ℕ) → 0 < draws → IsRunHistory callers draws history.now →
        IfOk result (λ s. string_bytes s ≡ run_text callers draws) }
{
    let callers = first_draws(history);
    let draws = history.len();
    let first = history[0].stamp;
    let last = history[draws - 1].stamp;
    format!(in alloc; "callers {callers}\ndraws {draws}\nstamps {first} to {last}\n")
}

// Two times in nanoseconds as two lines: of one that did what is named, and of `CALLERS`.
fn times(alloc: Global, what: &str, one: Duration, all: Duration) -> Result<String, AllocError>
    ensures { IfOk result (λ s. string_bytes s ≡ times_text what.now (as_nanos one) (as_nanos all)) }
{
    let one = one.as_nanos();
    let all = all.as_nanos();
    format!(in alloc; "{what} by 1 took {one} ns\n{what} by {CALLERS} took {all} ns\n")
}

/// The whole text that is asked for: what is the same of every run of `CALLERS` callers, the number that a bare word
/// held, and times where they are asked for. No clause says what that number and the times are.
pub fn report<R: Threads + Clock + Sync>(
    rt: &R,
    alloc: Global,
    asked: Asked,
) -> Result<String, BenchFail>
    ensures told { IfOk result (λ s. IsReport CALLERS asked (string_bytes s)) }
    ensures fails { IfErr result (λ fail. IsRunFail CALLERS fail ⊎ IsRunFail 1 fail) }
{
    let run = Run::timed(rt, alloc, CALLERS, asked.draws)?;
    let summary = summary(alloc, run.history.as_slice())?;
    let adds = Adds::timed(rt, alloc, CALLERS, asked.draws)?;
    let total = adds.total;
    if !asked.timed {
        return Ok(format!(in alloc; "{summary}adds {total}\n")?);
    }
    let run_by_one = Run::timed(rt, alloc, 1, asked.draws)?;
    let adds_by_one = Adds::timed(rt, alloc, 1, asked.draws)?;
    let draw_times = times(alloc, "draws", run_by_one.took, run.took)?;
    let add_times = times(alloc, "adds", adds_by_one.took, adds.took)?;
    Ok(format!(in alloc; "{summary}adds {total}\n{draw_times}{add_times}")?)
}
