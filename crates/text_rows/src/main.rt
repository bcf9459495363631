//! `text_rows TABLE` tries a table of scenes, journals and their lines: each row says what has to come of its text.
//!
//! A row is `WANTED PLACE TEXT`. TEXT stands at PLACE in a whole text (see `place`), and `\n` in it is an LF. WANTED is
//! `good` where the whole text is read and printed as it stands, and `taken` where it is read and its one form is another;
//! else `LINE.KIND` for a scene and `LINE` for a journal: the first bad line, and its kind. Empty rows and those that begin
//! with `#` say nothing.
//!
//! Each row of which something else comes is printed, and at last how many there are.
#![tactic(auto)]

mod fail;
mod place;
mod row;

use fail::RowFail;
use pg_bytes::arguments;
use pg_io::{DiskFiles, Files};
use row::Row;
use std::alloc::{AllocError, Global};
use std::process::ExitCode;
use std::rt::Env;
use std::{env, rt};

/// The most bytes of a table.
const MOST: u64 = 1 << 20;

/// The words of the command line, of which the first names the program; none where they cannot be had.
fn command_line(rt: &(impl Env + AllocGlobal)) -> Result<Vec<String>, AllocError> {
    let mut words = Vec::new(rt.alloc());
    if let Ok(args) = env::args(rt) {
        for word in args {
            words.push(word)?;
        }
    }
    Ok(words)
}

/// Tries each row of a table.
fn tried(rt: &impl Print, alloc: Global, table: &str) -> Result<(), RowFail> {
    let (mut count, mut others) = (0_u64, 0_u64);
    for (number, line) in table.lines().enumerate() {
        if line.is_empty() || line.starts_with('#') {
            continue;
        }
        let row = Row::of(line).ok_or(RowFail::NoRow { number })?;
        let came = row.outcome(alloc)?;
        count = count.saturating_add(1);
        if came.as_str() != row.wanted {
            others = others.saturating_add(1);
            let _ = println!(rt; "row {}: {came} came of {line}", number.saturating_add(1));
        }
    }
    let _ = println!(rt; "{count} rows, {others} of them with another outcome");
    Ok(())
}

fn report<R: Print + rt::Files>(rt: &R, alloc: Global, words: &[String]) -> Result<(), RowFail> {
    let [table] = words else {
        return Err(RowFail::Usage);
    };
    let text = DiskFiles::new(rt).read(alloc, table, MOST)?;
    let Ok(table) = str::from_utf8(&text) else {
        return Err(RowFail::NoText);
    };
    tried(rt, alloc, table)
}

fn main(rt: HostRuntime) -> ExitCode {
    let alloc = rt.alloc();
    let ended = match command_line(&rt) {
        Ok(words) => report(&rt, alloc, arguments(&words)),
        Err(AllocError) => Err(RowFail::NoMemory),
    };
    match ended {
        Ok(()) => ExitCode::from(0),
        Err(fail) => {
            let _ = eprintln!(rt; "text_rows: {fail}");
            ExitCode::from(1)
        }
    }
}
