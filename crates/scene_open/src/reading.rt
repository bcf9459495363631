//! Reading the file of an item.

ghost use Rattle.std.specs.Prelude.{◌≡◌, IsAscii};
ghost use Rattle.scene_open.specs.Ends.{IsCaused};
ghost use Rattle.scene_open.specs.Drafts.{GivesFile};

use pg_bytes::{Octets, Status};
use pg_io::{Files, ReadFail};
use std::alloc::Global;
use std::str;

/// A path as text.
fn text_of(path: &[u8]) -> &str
    requires { IsAscii path.now }
    ensures { result.now ≡ path.now }
{
    str::from_utf8(path).unwrap()
}

/// Reads the file of the item of this number: at most so many of its first bytes.
pub fn read_file<F: Files>(
    alloc: Global,
    files: &mut F,
    path: &Octets,
    most: u64,
    number: u32,
) -> Result<Vec<u8>, Status>
    requires { IsAscii path.now }
    ensures gives { GivesFile path.now most number (F.tells files.old) (F.tells files.new) result }
    ensures cause { IsCaused result (F.faults files.old) (F.faults files.new) }
{
    match files.read(alloc, text_of(path.bytes()), most) {
        Ok(bytes) => Ok(bytes),
        Err(ReadFail::Failed) => Err(Status::FileFault { item: number }),
        Err(ReadFail::NoMemory) => Err(Status::NoMemory),
    }
}
