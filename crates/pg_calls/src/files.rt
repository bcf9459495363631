//! Calls of a file, and of the trust list.

ghost use Rattle.std.specs.Prelude.{◌≡◌, ◌<◌, length, IfOk, OnErr};
ghost use Rattle.cs_policy.specs.declared.call.Call.TheVariants as call;
ghost use Rattle.pg_calls.specs.Parts.{PartsNow};
ghost use Rattle.pg_calls.specs.Calls.{IsDeclared, HasRoomFor, Enters, BreaksOff};

use crate::NoMemory;
use crate::ask::ask_file;
use crate::file_call::FileCall;
use crate::parts::Parts;
use cs_policy::{Data, FileEvent, Reply, TrustEvent, Who};

/// Writes data into a file. The answer is the reply to `Write`. After `NoMemory` no event was made.
pub fn write<T: Parts>(
    parts: &mut T,
    who: Who,
    file: u32,
    at: u64,
    piece: Data,
) -> Result<Reply, NoMemory>
    requires serves { T.serves parts.old who.worker }
    requires declared { IsDeclared (T.shows parts.old).numbers (call.Write file at piece) }
    requires room { HasRoomFor (T.shows parts.old) who (call.Write file at piece) }
    ensures enters { IfOk result (λ reply. Enters T.hash (call.Write file at piece) who
        (T.shows parts.old) reply (T.shows parts.new)) }
    ensures unmade { OnErr result (T.shows parts.new ≡ T.shows parts.old) }
    ensures serves { T.serves parts.new who.worker }
{
    let write = FileCall::Plain(FileEvent::Write { at, piece });
    let written = parts.file(who, file, write)?;
    Ok(written.entry.reply)
}

/// Takes a page of a file out of memory. The answer is the reply to `Evict`.
pub fn evict<T: Parts>(parts: &mut T, who: Who, file: u32, page: u64) -> Reply
    requires serves { T.serves parts.old who.worker }
    requires declared { IsDeclared (T.shows parts.old).numbers (call.Evict file page) }
    requires room { HasRoomFor (T.shows parts.old) who (call.Evict file page) }
    ensures enters { Enters T.hash (call.Evict file page) who (T.shows parts.old) result
        (T.shows parts.new) }
    ensures serves { T.serves parts.new who.worker }
{
    ask_file(parts, who, file, FileEvent::Evict { page })
        .entry
        .reply
}

/// Loads a declared trust cache. The answer is the reply to `LoadModule`.
pub fn load_trust<T: Parts>(parts: &mut T, who: Who, cache: u32) -> Reply
    requires serves { T.serves parts.old who.worker }
    requires declared { IsDeclared (T.shows parts.old).numbers (call.LoadTrust cache) }
    requires room { HasRoomFor (T.shows parts.old) who (call.LoadTrust cache) }
    ensures enters { Enters T.hash (call.LoadTrust cache) who (T.shows parts.old) result
        (T.shows parts.new) }
    ensures serves { T.serves parts.new who.worker }
{
    parts
        .trust(who, TrustEvent::LoadModule { cache })
        .entry
        .reply
}
