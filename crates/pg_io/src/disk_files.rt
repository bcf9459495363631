ghost use Rattle.std.specs.Prelude.{◌≡◌, ◌≤◌, IfOk, vec_len, None};

use crate::files::{Files, ReadFail};
use std::alloc::Global;
use std::fs::OpenFile;
use std::io::{ErrorKind, Read};
use std::marker::Model;
use std::{fs, io, rt};

/// The system's files, which tell nothing of their content. A name is a path.
#[derive(Drop)]
pub struct DiskFiles<R> {
    rt: R,
    faults: u64,
}

impl<R> Model for DiskFiles<R> {
    ghost use Rattle.std.specs.Prelude.{ℕ};

    ghost Value = { ℕ };

    ghost view = { λ files. files.faults };
}

impl<R> DiskFiles<R> {
    /// The files of this runtime. No read has failed yet.
    pub fn new(rt: R) -> DiskFiles<R>
        ensures { result ≡ 0 }
    {
        DiskFiles { rt, faults: 0 }
    }
}

impl<R: rt::Files> Files for DiskFiles<R> {
    ghost tells = { λ _. None };

    ghost faults = { λ faults. faults };

    fn read(&mut self, alloc: Global, name: &str, most: u64) -> Result<Vec<u8>, ReadFail> {
        match read_first(&self.rt, alloc, name, most) {
            Ok(bytes) => Ok(bytes),
            Err(error) if error.kind() == ErrorKind::OutOfMemory => Err(ReadFail::NoMemory),
            Err(_) => {
                self.faults = self.faults.saturating_add(1);
                Err(ReadFail::Failed)
            }
        }
    }
}

// The first `most` bytes of a file, or all.
fn read_first<R: rt::Files>(rt: &R, alloc: Global, name: &str, most: u64) -> io::Result<Vec<u8>>
    ensures { IfOk result (λ v. vec_len v ≤ most) }
{
    let file = fs::open(rt, name)?;
    let length = file.metadata()?.len().min(most) as usize;
    // All memory is taken at once. One byte more lets the read that meets the file's end fit too.
    let mut bytes = Vec::with_capacity(alloc, length.saturating_add(1))?;
    file.take(most).read_to_end(&mut bytes)?;
    // No more than `most` bytes came; nothing that is stated of a system's file says so.
    bytes.truncate(most as usize);
    Ok(bytes)
}
