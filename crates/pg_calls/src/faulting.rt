//! A process asks for a page.

ghost use Rattle.std.specs.Prelude.{◌≡◌, ◌<◌, length, IfOk, OnErr};
ghost use Rattle.cs_policy.specs.declared.call.Call.TheVariants as call;
ghost use Rattle.pg_calls.specs.Parts.{PartsNow};
ghost use Rattle.pg_calls.specs.Calls.{IsDeclared, HasRoomFor, Enters, BreaksOff};

use crate::ask::ask_file;
use crate::parts::Parts;
use crate::replies::{found, judged};
use cs_policy::{Access, FileEvent, ProcEvent, Reply, Who};

/// Asks for the page of an address of a process: `Resolve`, and where the address is mapped `Enter`, by the flags that were
/// found. A denial has the process punished by `Punish`, and a rule that is broken without one clears its VALID by
/// `ClearValid`. The answer is the reply to `Enter`, or else to `Resolve`.
pub fn fault<T: Parts>(parts: &mut T, who: Who, pid: u32, addr: u64, access: Access) -> Reply
    requires serves { T.serves parts.old who.worker }
    requires declared { IsDeclared (T.shows parts.old).numbers (call.Fault pid addr access) }
    requires room { HasRoomFor (T.shows parts.old) who (call.Fault pid addr access) }
    ensures enters { Enters T.hash (call.Fault pid addr access) who (T.shows parts.old) result
        (T.shows parts.new) }
    ensures serves { T.serves parts.new who.worker }
{
    let resolve = parts.process(who, pid, ProcEvent::Resolve { addr, access });
    let Some(page) = found(&resolve.entry.reply) else {
        return resolve.entry.reply;
    };
    let enter = FileEvent::Enter {
        id: page.id,
        page: page.page,
        access,
        flags: page.flags,
        resolve: resolve.stamp,
    };
    let enter = ask_file(parts, who, page.file, enter);
    let Some(consequence) = judged(&enter.entry.reply) else {
        return enter.entry.reply;
    };
    parts.process(who, pid, consequence);
    enter.entry.reply
}
