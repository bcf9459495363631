//! `csverify PATH` reports each slice of a Mach-O or fat file, and each page that does not match its slot.
//!
//! `top` has the top calls, which do all that the program does and carry its promise: `main` hands `csverify_on` the
//! runtime, the real files and the real output, and `csverify_main` does the same on one thread. Below them, `ending`
//! goes through the steps of a run, `words` reads the command line, and `reporter` makes the report of the file.
#![tactic(auto)]

mod ending;
mod reporter;
mod top;
mod words;

use pg_bytes::{Status, arguments, code};
use pg_io::{DiskFiles, StdoutSink};
use std::alloc::AllocError;
use std::env;
use std::io::ErrorKind;
use std::process::ExitCode;
use std::rt::Env;
pub use top::{csverify_main, csverify_on};

/// The words of the command line, of which the first names the program; none where one of them is no text. Want of
/// memory is the only error.
fn command_line(rt: &(impl Env + AllocGlobal)) -> Result<Vec<String>, AllocError> {
    let mut words = Vec::new(rt.alloc());
    match env::args(rt) {
        Ok(args) => {
            for word in args {
                words.push(word)?;
            }
        }
        Err(e) if e.kind() == ErrorKind::OutOfMemory => return Err(AllocError),
        Err(_) => {}
    }
    Ok(words)
}

fn main(rt: HostRuntime) -> ExitCode {
    let Ok(words) = command_line(&rt) else {
        return ExitCode::from(code(&Status::NoMemory));
    };
    let mut files = DiskFiles::new(&rt);
    let mut out = StdoutSink::new(&rt);
    let status = csverify_on(&rt, rt.alloc(), arguments(&words), &mut files, &mut out);
    ExitCode::from(code(&status))
}

#[cfg(test)]
mod tests;
