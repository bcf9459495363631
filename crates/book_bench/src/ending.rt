//! How the program ends.

ghost use Rattle.std.specs.Prelude.{◌≡◌, ◌≢◌, ◌↔◌, map, string_bytes};
ghost use Rattle.book_bench.specs.Endings.{code_of, IsUnasked};

use crate::asked::{Asked, MOST};
use crate::fail::BenchFail;
use crate::report::report;
use std::alloc::Global;
use std::rt::Clock;
use std::thread::Threads;

/// The status of a report that was printed.
pub const DONE: u8 = 0;

/// The status of a run that was given up for another cause.
pub const GIVEN_UP: u8 = 1;

/// The status of a command line that asks for nothing.
pub const USAGE: u8 = 2;

/// The status of a report that could not be printed whole.
pub const UNWRITTEN: u8 = 5;

/// The status of a run that was given up for want of memory.
pub const NO_MEMORY: u8 = 8;

fn code_of(fail: BenchFail) -> u8
    ensures { result ≡ code_of fail }
{
    match fail {
        BenchFail::NoMemory => NO_MEMORY,
        BenchFail::NoClock | BenchFail::NotOpened { .. } => GIVEN_UP,
    }
}

/// Says on standard error why there is no report, and gives the exit status.
pub fn given_up(rt: &impl Eprint, fail: BenchFail) -> u8
    ensures { result ≡ code_of fail }
{
    let _ = eprintln!(rt; "book_bench: {fail}");
    code_of(fail)
}

// Prints the report at once. No clause says what is printed.
fn reported<R: Threads + Clock + Sync + Print + Eprint>(rt: &R, alloc: Global, asked: Asked) -> u8
    ensures { result ≢ USAGE }
{
    match report(rt, alloc, asked) {
        Err(fail) => given_up(rt, fail),
        Ok(text) => match rt.print(text) {
            Ok(()) => DONE,
            Err(_) => UNWRITTEN,
        },
    }
}

/// Prints the report that the words ask for, which do not name the program, or says on standard error why there is
/// none, and gives the exit status. The clause says which words ask for nothing, and none says what is printed.
pub fn book_bench_main<R: Threads + Clock + Sync + Print + Eprint>(
    rt: &R,
    alloc: Global,
    words: &[String],
) -> u8
    ensures usage { (result ≡ USAGE) ↔ IsUnasked (map string_bytes words.now) }
{
    match Asked::from_words(words) {
        Some(asked) => reported(rt, alloc, asked),
        None => {
            let _ = eprintln!(rt; "usage: book_bench [DRAWS], where DRAWS is 1 to {MOST}");
            USAGE
        }
    }
}
