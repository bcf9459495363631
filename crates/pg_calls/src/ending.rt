//! A process ends.

ghost use Rattle.std.specs.Prelude.{◌≡◌, ◌==◌, ◌<◌};
ghost use Rattle.std.specs.Int.{bit_at};
ghost use Rattle.cs_policy.specs.declared.call.Call.TheVariants as call;
ghost use Rattle.pg_calls.specs.Parts.{PartsNow};
ghost use Rattle.pg_calls.specs.Calls.{IsDeclared, HasRoomFor, Enters, BreaksOff};
ghost use Rattle.pg_history.specs.Calls.{files_in};
ghost use Rattle.pg_calls.specs.Exits.{AreDeclared, HasRoomToDrop, Drops};

use crate::ask::ask_file;
use crate::parts::Parts;
use crate::replies::exited;
use cs_policy::{FileEvent, ProcEvent, Reply, Who};

// The most files of a run.
const MOST_FILES: u32 = 16;

// Whether the file of this number is among those whose bits are set.
fn has_file(files: u16, number: u32) -> bool
    requires { number < 16 }
    ensures { result ≡ (bit_at files number == 1) }
{
    files >> number & 1 == 1
}

// Has each of the files drop the regions of a process.
fn drop_regions<T: Parts>(parts: &mut T, who: Who, pid: u32, files: u16)
    requires serves { T.serves parts.old who.worker }
    requires declared { AreDeclared (T.shows parts.old).numbers files }
    requires room { HasRoomToDrop (T.shows parts.old) who }
    ensures drops { Drops who pid (files_in files) (T.shows parts.old) (T.shows parts.new) }
    ensures serves { T.serves parts.new who.worker }
{
    for number in 0..MOST_FILES {
        if has_file(files, number) {
            ask_file(parts, who, number, FileEvent::DropPid { pid });
        }
    }
}

/// Ends a process: `Exit`, and for each file of its regions, ascending, `DropPid`. The answer is the reply to `Exit`.
pub fn exit<T: Parts>(parts: &mut T, who: Who, pid: u32) -> Reply
    requires serves { T.serves parts.old who.worker }
    requires declared { IsDeclared (T.shows parts.old).numbers (call.Exit pid) }
    requires room { HasRoomFor (T.shows parts.old) who (call.Exit pid) }
    ensures enters { Enters T.hash (call.Exit pid) who (T.shows parts.old) result
        (T.shows parts.new) }
    ensures serves { T.serves parts.new who.worker }
{
    let exit = parts.process(who, pid, ProcEvent::Exit);
    let Some(files) = exited(&exit.entry.reply) else {
        return exit.entry.reply;
    };
    drop_regions(parts, who, pid, files);
    exit.entry.reply
}
