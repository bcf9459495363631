//! `pages_bench` times steps on resident pages of a file: on 16 pages of 16, on 16 of 4,096, and on 4,096 of 4,096.
//!
//! On standard output stand how many brings, checks and puts were made; on standard error how long they took, how long
//! bare writes of a byte into as many pages took, and how long SHA-256 hashes of one page of 4,096 bytes took. Of times
//! no clause says more than that a number stands there.
#![tactic(auto)]

mod fail;
mod run;

use fail::BenchFail;
use run::{HASHES, Run, hashes_timed, writes_timed};
use std::alloc::Global;
use std::process::ExitCode;
use std::rt::Clock;

/// How many pages are resident in each run, and how many of them it steps over.
const RUNS: [(u32, u32); 3] = [(16, 16), (4096, 16), (4096, 4096)];

fn report<R: Clock + Print + Eprint>(rt: &R, alloc: Global) -> Result<(), BenchFail> {
    for (limit, used) in RUNS {
        let run = Run::timed(rt, alloc, limit, used)?;
        let (brought, checked, written) = (run.brought, run.checked, run.written);
        let (bring, put) = (run.bring_took.as_nanos(), run.put_took.as_nanos());
        let check = run.check_took.as_nanos();
        let _ = println!(rt;
            "{used} pages of {limit}: {brought} brings, {checked} checks, {written} puts"
        );
        let _ = eprintln!(rt; "{brought} brings on {used} of {limit} took {bring} ns");
        let _ = eprintln!(rt; "{checked} checks on {used} of {limit} took {check} ns");
        let _ = eprintln!(rt; "{written} puts on {used} of {limit} took {put} ns");
    }
    for (limit, used) in RUNS {
        let (written, took) = writes_timed(rt, alloc, used)?;
        let took = took.as_nanos();
        let _ = eprintln!(rt; "{written} bare writes on {used} of {limit} took {took} ns");
    }
    let took = hashes_timed(rt, alloc)?.as_nanos();
    let _ = eprintln!(rt; "{HASHES} hashes took {took} ns");
    Ok(())
}

fn main(rt: HostRuntime) -> ExitCode {
    match report(&rt, rt.alloc()) {
        Ok(()) => ExitCode::from(0),
        Err(fail) => {
            let _ = eprintln!(rt; "pages_bench: {fail}");
            ExitCode::from(1)
        }
    }
}
