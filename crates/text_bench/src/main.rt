//! `text_bench SCENE JOURNAL` times how a scene and a journal, which stand in these two files, are read and printed,
//! and how long a plain copy of each text takes.
//!
//! On standard output stand how many bytes each text has, and how many were printed; on standard error how long each
//! step took. Of times no clause says more than that a number stands there.
#![tactic(auto)]

mod fail;
mod run;

use fail::BenchFail;
use pg_bytes::arguments;
use pg_io::{DiskFiles, Files};
use run::{Run, copy_timed};
use std::alloc::{AllocError, Global};
use std::process::ExitCode;
use std::rt::{Clock, Env};
use std::{env, rt};

/// The most bytes of a text.
const MOST: u64 = 1 << 30;

/// The words of the command line, of which the first names the program; none where they cannot be had.
fn command_line(rt: &(impl Env + AllocGlobal)) -> Result<Vec<String>, AllocError> {
    let mut words = Vec::new(rt.alloc());
    if let Ok(args) = env::args(rt) {
        for word in args {
            words.push(word)?;
        }
    }
    Ok(words)
}

/// Tells how many bytes a text has and how many were printed, and the times.
fn tell<R: Clock + Print + Eprint>(
    rt: &R,
    alloc: Global,
    name: &str,
    text: &[u8],
    run: &Run,
) -> Result<(), BenchFail> {
    let (read, printed) = (text.len(), run.printed.len());
    let _ = println!(rt; "{name}: {read} bytes read, {printed} printed");
    let copied = copy_timed(rt, alloc, text)?.as_nanos();
    let _ = eprintln!(rt; "{name}: copied in {copied} ns");
    let took = run.read_took.as_nanos();
    let _ = eprintln!(rt; "{name}: read in {took} ns");
    let took = run.print_took.as_nanos();
    let _ = eprintln!(rt; "{name}: printed in {took} ns");
    Ok(())
}

fn report<R: Clock + Print + Eprint + rt::Files>(
    rt: &R,
    alloc: Global,
    words: &[String],
) -> Result<(), BenchFail> {
    let [scene, journal] = words else {
        return Err(BenchFail::Usage);
    };
    let mut files = DiskFiles::new(rt);
    let text = files.read(alloc, scene, MOST)?;
    tell(rt, alloc, "scene", &text, &Run::of_scene(rt, alloc, &text)?)?;
    let text = files.read(alloc, journal, MOST)?;
    tell(
        rt,
        alloc,
        "journal",
        &text,
        &Run::of_journal(rt, alloc, &text)?,
    )
}

fn main(rt: HostRuntime) -> ExitCode {
    let alloc = rt.alloc();
    let ended = match command_line(&rt) {
        Ok(words) => report(&rt, alloc, arguments(&words)),
        Err(AllocError) => Err(BenchFail::NoMemory),
    };
    match ended {
        Ok(()) => ExitCode::from(0),
        Err(fail) => {
            let _ = eprintln!(rt; "text_bench: {fail}");
            ExitCode::from(1)
        }
    }
}
