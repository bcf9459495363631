//! `object_bench` times faults on checked pages of one file of 256 pages: of one region of it alone, of one of 4,096 that
//! alone has records of these pages, of one of 4,096 that all have records of each page, and of these in turn.
//!
//! On standard output stands how many faults were given; on standard error how long they took, and how long SHA-256
//! hashes of one page of 4,096 bytes took. Of times no clause says more than that a number stands there.
#![tactic(auto)]

ghost use Rattle.std.specs.Prelude.{◌<◌, ◌≤◌};

mod fail;
mod file;
mod run;

use fail::BenchFail;
use run::{HASHES, MOST, Run, Setting, hashes_timed};
use std::alloc::Global;
use std::process::ExitCode;
use std::rt::Clock;

// Times the faults in one setting.
fn report_run<R: Clock + Print + Eprint>(
    rt: &R,
    alloc: Global,
    setting: Setting,
) -> Result<(), BenchFail>
    requires some { 0 < setting.turn }
    requires holders { setting.turn ≤ setting.holders }
    requires last { setting.holders ≤ setting.regions }
    requires most { setting.regions ≤ MOST }
{
    let run = Run::timed(rt, alloc, setting)?;
    let (regions, holders, turn) = (setting.regions, setting.holders, setting.turn);
    let (before, given) = (run.before, run.given);
    let took = run.took.as_nanos();
    let _ = println!(rt;
        "{turn} of {holders} of {regions} regions: {before} faults before, {given} faults"
    );
    let _ = eprintln!(rt;
        "{given} faults of {turn} of {holders} of {regions} regions took {took} ns"
    );
    Ok(())
}

fn report<R: Clock + Print + Eprint>(rt: &R, alloc: Global) -> Result<(), BenchFail> {
    let alone = Setting {
        regions: 1,
        holders: 1,
        turn: 1,
    };
    let among = Setting {
        regions: MOST,
        holders: 1,
        turn: 1,
    };
    let beside = Setting {
        regions: MOST,
        holders: MOST,
        turn: 1,
    };
    let in_turn = Setting {
        regions: MOST,
        holders: MOST,
        turn: MOST,
    };
    report_run(rt, alloc, alone)?;
    report_run(rt, alloc, among)?;
    report_run(rt, alloc, beside)?;
    report_run(rt, alloc, in_turn)?;
    let took = hashes_timed(rt, alloc)?.as_nanos();
    let _ = eprintln!(rt; "{HASHES} hashes took {took} ns");
    Ok(())
}

fn main(rt: HostRuntime) -> ExitCode {
    match report(&rt, rt.alloc()) {
        Ok(()) => ExitCode::from(0),
        Err(fail) => {
            let _ = eprintln!(rt; "object_bench: {fail}");
            ExitCode::from(1)
        }
    }
}
