//! A text that is read and printed again, timed.

ghost use Rattle.std.specs.Prelude.{◌≡◌, IfOk, map};
ghost use Rattle.text_bench.specs.Benched.{history_of, IsSceneAgain, IsJournalAgain};

use crate::fail::BenchFail;
use cs_policy::Entry;
use pg_report::{Line, Stamped, journal, read_journal};
use scene_text::{print, scene};
use std::alloc::{AllocError, Global};
use std::rt::Clock;
use std::time::{Duration, Instant};

/// What was printed of what a text says, and the times between two readings of the clock, before a step and after it.
/// No clause speaks of times.
#[derive(Drop)]
pub struct Run {
    pub printed: Vec<u8>,
    pub read_took: Duration,
    pub print_took: Duration,
}

impl Run {
    /// Reads the scene of a text, and prints it.
    pub fn of_scene<R: Clock>(rt: &R, alloc: Global, text: &[u8]) -> Result<Run, BenchFail>
        ensures { IfOk result (λ run. IsSceneAgain text.now run.printed.items) }
    {
        let start = now(rt)?;
        let scene = scene(alloc, text)?;
        let read_took = since(rt, start)?;
        let start = now(rt)?;
        let printed = print(alloc, &scene)?;
        let print_took = since(rt, start)?;
        Ok(Run {
            printed,
            read_took,
            print_took,
        })
    }

    /// Reads the lines of a text, and prints a history of their entries.
    pub fn of_journal<R: Clock>(rt: &R, alloc: Global, text: &[u8]) -> Result<Run, BenchFail>
        ensures { IfOk result (λ run. IsJournalAgain text.now run.printed.items) }
    {
        let start = now(rt)?;
        let (lines, calls) = read_journal(alloc, text)?;
        let read_took = since(rt, start)?;
        let history = history_of(alloc, lines)?;
        let start = now(rt)?;
        let printed = journal(alloc, &history, calls)?;
        let print_took = since(rt, start)?;
        Ok(Run {
            printed,
            read_took,
            print_took,
        })
    }
}

/// The entry of a line with its stamp.
fn stamped(line: Line) -> Stamped<Entry>
    ensures { result ≡ record { stamp = line.stamp; part = 0; caller = 0; entry = line.entry } }
{
    Stamped {
        stamp: line.stamp,
        part: 0,
        caller: 0,
        entry: line.entry,
    }
}

/// The entries of lines with their stamps.
fn history_of(alloc: Global, lines: Vec<Line>) -> Result<Vec<Stamped<Entry>>, AllocError>
    ensures { IfOk result (λ history. history.items ≡ history_of lines.items) }
{
    lines.into_iter().map(stamped).collect(alloc)
}

/// The time of a plain copy of a text.
pub fn copy_timed<R: Clock>(rt: &R, alloc: Global, text: &[u8]) -> Result<Duration, BenchFail> {
    let start = now(rt)?;
    let _copy = copy_of(alloc, text)?;
    since(rt, start)
}

/// A copy of a text.
fn copy_of(alloc: Global, text: &[u8]) -> Result<Vec<u8>, AllocError>
    ensures { IfOk result (λ copy. copy.items ≡ text.now) }
{
    Vec::from_slice(alloc, text)
}

fn now<R: Clock>(rt: &R) -> Result<Instant, BenchFail> {
    Instant::now(rt).map_err(|_| BenchFail::NoClock)
}

fn since<R: Clock>(rt: &R, start: Instant) -> Result<Duration, BenchFail> {
    start.elapsed(rt).map_err(|_| BenchFail::NoClock)
}
