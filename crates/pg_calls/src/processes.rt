//! Calls of a process.

ghost use Rattle.std.specs.Prelude.{◌≡◌, ◌<◌, length, IfOk, OnErr};
ghost use Rattle.cs_policy.specs.declared.call.Call.TheVariants as call;
ghost use Rattle.pg_calls.specs.Parts.{PartsNow};
ghost use Rattle.pg_calls.specs.Calls.{IsDeclared, HasRoomFor, Enters, BreaksOff};

use crate::ask::ask_file;
use crate::parts::Parts;
use crate::replies::{inserted, removed};
use cs_policy::{FileEvent, ProcEvent, Prot, Region, Reply, Who};

/// Starts a process. The answer is the reply to `Start`.
pub fn spawn<T: Parts>(parts: &mut T, who: Who, pid: u32) -> Reply
    requires serves { T.serves parts.old who.worker }
    requires declared { IsDeclared (T.shows parts.old).numbers (call.Spawn pid) }
    requires room { HasRoomFor (T.shows parts.old) who (call.Spawn pid) }
    ensures enters { Enters T.hash (call.Spawn pid) who (T.shows parts.old) result
        (T.shows parts.new) }
    ensures serves { T.serves parts.new who.worker }
{
    parts.process(who, pid, ProcEvent::Start).entry.reply
}

/// Maps pages of a file into a process: `Insert`, and where the region was inserted `AddRegion`. The answer is the reply to
/// the last of these events.
pub fn map<T: Parts>(
    parts: &mut T,
    who: Who,
    pid: u32,
    at: u64,
    file: u32,
    first: u64,
    pages: u64,
    prot: Prot,
    shared: bool,
) -> Reply
    requires serves { T.serves parts.old who.worker }
    requires declared { IsDeclared (T.shows parts.old).numbers
        (call.Map pid at file first pages prot shared) }
    requires room { HasRoomFor (T.shows parts.old) who
        (call.Map pid at file first pages prot shared) }
    ensures enters { Enters T.hash (call.Map pid at file first pages prot shared)
        who (T.shows parts.old) result (T.shows parts.new) }
    ensures serves { T.serves parts.new who.worker }
{
    let file_pages = parts.file_pages(file);
    let insert = ProcEvent::Insert {
        at,
        file,
        file_pages,
        first,
        pages,
        prot,
        shared,
    };
    let insert = parts.process(who, pid, insert);
    let Some(id) = inserted(&insert.entry.reply) else {
        return insert.entry.reply;
    };
    let region = Region {
        id,
        pid,
        first,
        pages,
        prot,
        shared,
    };
    let add = FileEvent::AddRegion {
        region,
        insert: insert.stamp,
    };
    ask_file(parts, who, file, add).entry.reply
}

/// Unmaps the region of a process that begins at an address: `Remove`, and where there was one `DropRegion`. The answer is the
/// reply to the last of these events.
pub fn unmap<T: Parts>(parts: &mut T, who: Who, pid: u32, at: u64) -> Reply
    requires serves { T.serves parts.old who.worker }
    requires declared { IsDeclared (T.shows parts.old).numbers (call.Unmap pid at) }
    requires room { HasRoomFor (T.shows parts.old) who (call.Unmap pid at) }
    ensures enters { Enters T.hash (call.Unmap pid at) who (T.shows parts.old) result
        (T.shows parts.new) }
    ensures serves { T.serves parts.new who.worker }
{
    let remove = parts.process(who, pid, ProcEvent::Remove { at });
    let Some((id, file)) = removed(&remove.entry.reply) else {
        return remove.entry.reply;
    };
    ask_file(parts, who, file, FileEvent::DropRegion { id })
        .entry
        .reply
}

/// Has a process debugged. The answer is the reply to `Debug`.
pub fn debug<T: Parts>(parts: &mut T, who: Who, pid: u32) -> Reply
    requires serves { T.serves parts.old who.worker }
    requires declared { IsDeclared (T.shows parts.old).numbers (call.Debug pid) }
    requires room { HasRoomFor (T.shows parts.old) who (call.Debug pid) }
    ensures enters { Enters T.hash (call.Debug pid) who (T.shows parts.old) result
        (T.shows parts.new) }
    ensures serves { T.serves parts.new who.worker }
{
    parts.process(who, pid, ProcEvent::Debug).entry.reply
}
