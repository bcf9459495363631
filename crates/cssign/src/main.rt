//! `cssign sign PATH IDENT 4|16 [PATH]` signs a Mach-O file anew, ad hoc, and `cssign cache PATH..` builds a trust cache
//! of signed files. Either writes the file that it makes to standard output.
//!
//! All that the program does is the top call of `cs_sign`, which carries its promise; `main` hands it the real files and
//! the real output.
#![tactic(auto)]

use cs_sign::cssign_main;
use pg_bytes::{Status, arguments, code};
use pg_io::{DiskFiles, StdoutSink};
use std::alloc::AllocError;
use std::env;
use std::io::ErrorKind;
use std::process::ExitCode;
use std::rt::Env;

/// The words of the command line, of which the first names the program; none where one of them is no text. Want of
/// memory is the only error.
fn command_line(rt: &(impl Env + AllocGlobal)) -> Result<Vec<String>, AllocError> {
    let mut words = Vec::new(rt.alloc());
    match env::args(rt) {
        Ok(args) => {
            for word in args {
                words.push(word)?;
            }
        }
        Err(e) if e.kind() == ErrorKind::OutOfMemory => return Err(AllocError),
        Err(_) => {}
    }
    Ok(words)
}

fn main(rt: HostRuntime) -> ExitCode {
    let Ok(words) = command_line(&rt) else {
        return ExitCode::from(code(&Status::NoMemory));
    };
    let mut files = DiskFiles::new(&rt);
    let mut out = StdoutSink::new(&rt);
    let status = cssign_main(rt.alloc(), arguments(&words), &mut files, &mut out);
    ExitCode::from(code(&status))
}

#[cfg(test)]
mod tests;
