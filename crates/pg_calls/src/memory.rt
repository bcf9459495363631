//! Bytes that a process stores, loads or fetches.

ghost use Rattle.std.specs.Prelude.{◌≡◌, ◌<◌, ◌%◌, length, IfOk, OnErr};
ghost use Rattle.cs_policy.specs.declared.call.Call.TheVariants as call;
ghost use Rattle.pg_calls.specs.Parts.{PartsNow};
ghost use Rattle.pg_calls.specs.Calls.{IsDeclared, HasRoomFor, Enters, BreaksOff};

use crate::ask::ask_file;
use crate::parts::Parts;
use crate::replies::found;
use cs_policy::{Access, Bytes64, FileEvent, ProcEvent, Reply, Who};

// Where in its page an address lies.
fn place_in_page(addr: u64, size: u32) -> u32
    requires { 0 < size }
    ensures { result ≡ addr % size }
{
    (addr % u64::from(size)) as u32
}

/// Stores bytes at an address of a process: `Resolve` for writing, and where the address is mapped `Store`. The answer is the
/// reply to the last of these events.
pub fn store<T: Parts>(parts: &mut T, who: Who, pid: u32, addr: u64, bytes: Bytes64) -> Reply
    requires serves { T.serves parts.old who.worker }
    requires declared { IsDeclared (T.shows parts.old).numbers (call.Store pid addr bytes) }
    requires room { HasRoomFor (T.shows parts.old) who (call.Store pid addr bytes) }
    ensures enters { Enters T.hash (call.Store pid addr bytes) who (T.shows parts.old) result
        (T.shows parts.new) }
    ensures serves { T.serves parts.new who.worker }
{
    let at = place_in_page(addr, parts.page_size());
    let access = Access::Write;
    let resolve = parts.process(who, pid, ProcEvent::Resolve { addr, access });
    let Some(page) = found(&resolve.entry.reply) else {
        return resolve.entry.reply;
    };
    let store = FileEvent::Store {
        id: page.id,
        page: page.page,
        at,
        bytes,
        resolve: resolve.stamp,
    };
    ask_file(parts, who, page.file, store).entry.reply
}

/// Loads bytes from an address of a process: `Resolve` for reading, and where the address is mapped `Load`. The answer is the
/// reply to the last of these events.
pub fn load<T: Parts>(parts: &mut T, who: Who, pid: u32, addr: u64, count: u32) -> Reply
    requires serves { T.serves parts.old who.worker }
    requires declared { IsDeclared (T.shows parts.old).numbers (call.Load pid addr count) }
    requires room { HasRoomFor (T.shows parts.old) who (call.Load pid addr count) }
    ensures enters { Enters T.hash (call.Load pid addr count) who (T.shows parts.old) result
        (T.shows parts.new) }
    ensures serves { T.serves parts.new who.worker }
{
    let at = place_in_page(addr, parts.page_size());
    let access = Access::Read;
    let resolve = parts.process(who, pid, ProcEvent::Resolve { addr, access });
    let Some(page) = found(&resolve.entry.reply) else {
        return resolve.entry.reply;
    };
    let load = FileEvent::Load {
        id: page.id,
        page: page.page,
        at,
        count,
        resolve: resolve.stamp,
    };
    ask_file(parts, who, page.file, load).entry.reply
}

/// Fetches bytes for execution from an address of a process: `Resolve` for execution, and where the address is mapped
/// `Fetch`. The answer is the reply to the last of these events.
pub fn fetch<T: Parts>(parts: &mut T, who: Who, pid: u32, addr: u64, count: u32) -> Reply
    requires serves { T.serves parts.old who.worker }
    requires declared { IsDeclared (T.shows parts.old).numbers (call.Fetch pid addr count) }
    requires room { HasRoomFor (T.shows parts.old) who (call.Fetch pid addr count) }
    ensures enters { Enters T.hash (call.Fetch pid addr count) who (T.shows parts.old) result
        (T.shows parts.new) }
    ensures serves { T.serves parts.new who.worker }
{
    let at = place_in_page(addr, parts.page_size());
    let access = Access::Execute;
    let resolve = parts.process(who, pid, ProcEvent::Resolve { addr, access });
    let Some(page) = found(&resolve.entry.reply) else {
        return resolve.entry.reply;
    };
    let fetch = FileEvent::Fetch {
        id: page.id,
        page: page.page,
        at,
        count,
        resolve: resolve.stamp,
    };
    ask_file(parts, who, page.file, fetch).entry.reply
}
