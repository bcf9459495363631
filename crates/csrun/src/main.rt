//! `csrun SCENE` runs a scene over the files that it names and prints its journal.
//!
//! All that the program does is the top call of `scene_threads`, which carries its promise; `main` hands it the runtime, the
//! real files and the real output, and a gate at which no worker waits.
#![tactic(auto)]

use pg_bytes::{Status, arguments, code};
use pg_io::{DiskFiles, OpenGate, StdoutSink};
use scene_threads::csrun_main;
use std::alloc::AllocError;
use std::env;
use std::io::ErrorKind;
use std::process::ExitCode;
use std::rt::Env;

/// The words of the command line, of which the first names the program; none where one of them is no text. Want of
/// memory is the only error.
fn command_line(rt: &(impl Env + AllocGlobal)) -> Result<Vec<String>, AllocError> {
    let mut words = Vec::new(rt.alloc());
    match env::args(rt) {
        Ok(args) => {
            for word in args {
                words.push(word)?;
            }
        }
        Err(e) if e.kind() == ErrorKind::OutOfMemory => return Err(AllocError),
        Err(_) => {}
    }
    Ok(words)
}

fn main(rt: HostRuntime) -> ExitCode {
    let Ok(words) = command_line(&rt) else {
        return ExitCode::from(code(&Status::NoMemory));
    };
    let mut files = DiskFiles::new(&rt);
    let mut out = StdoutSink::new(&rt);
    let status = csrun_main(
        &rt,
        rt.alloc(),
        arguments(&words),
        &mut files,
        &mut out,
        &OpenGate,
    );
    ExitCode::from(code(&status))
}

#[cfg(test)]
mod rows;
#[cfg(test)]
mod tests;
