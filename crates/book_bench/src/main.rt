//! `book_bench [DRAWS]` times the draws of a call book, beside bare steps of `fetch_add` on one word.
//!
//! Four callers draw on parts of their own, as jobs of threads, and the history that the book gives when it is closed is
//! told in three lines: how many callers drew, how often in all, and the first and the last stamp. One more line tells
//! what a bare word held after as many adds. With no word each caller draws 1,000 times. With the number of draws a
//! caller, times follow: the draws by one caller and by four, and the adds by one job and by four. Of the bare word and
//! of times no clause says more than that a number stands there.
//!
//! `ending` has all that the program does; `report` the text, from a run (`run`, over `hand`) and the bare word
//! (`adds`); `asked` reads the command line.
#![tactic(auto)]

mod adds;
mod asked;
mod ending;
mod fail;
mod hand;
mod report;
mod run;

use ending::{book_bench_main, given_up};
use fail::BenchFail;
use pg_bytes::arguments;
use std::alloc::AllocError;
use std::env;
use std::io::ErrorKind;
use std::process::ExitCode;
use std::rt::Env;

/// The words of the command line, of which the first names the program; two empty words where one of them is no text.
/// Want of memory is the only error.
fn command_line(rt: &(impl Env + AllocGlobal)) -> Result<Vec<String>, AllocError> {
    let mut words = Vec::new(rt.alloc());
    match env::args(rt) {
        Ok(args) => {
            for word in args {
                words.push(word)?;
            }
        }
        Err(e) if e.kind() == ErrorKind::OutOfMemory => return Err(AllocError),
        Err(_) => {
            for _ in 0..2 {
                words.push(String::new(rt.alloc()))?;
            }
        }
    }
    Ok(words)
}

fn main(rt: HostRuntime) -> ExitCode {
    let status = match command_line(&rt) {
        Ok(words) => book_bench_main(&rt, rt.alloc(), arguments(&words)),
        Err(AllocError) => given_up(&rt, BenchFail::NoMemory),
    };
    ExitCode::from(status)
}
