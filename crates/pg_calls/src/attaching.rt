//! The signature of a slice is attached.

ghost use Rattle.std.specs.Prelude.{◌≡◌, false, IfOk, OnErr};
ghost use Rattle.std.specs.Option.{option_copied, option_map_or, option_and_then};
ghost use Rattle.pg_bytes.specs.PageSize.{IsPageSize};
ghost use Rattle.cs_policy.specs.declared.call.Call.TheVariants as call;
ghost use Rattle.pg_history.specs.Machine.{bytes_read};
ghost use Rattle.pg_history.specs.Calls.{admits, is_adhoc, of_file, of_trust};
ghost use Rattle.pg_calls.specs.Calls.{IsDeclared, HasRoomFor, Enters, BreaksOff};
ghost use Rattle.pg_calls.specs.Tried.{Tries};

use crate::NoMemory;
use crate::ask::ask_file;
use crate::file_call::FileCall;
use crate::parts::Parts;
use cs_blob::{Blob, BlobFail, blob};
use cs_policy::{FileEvent, FileReply, Refusal, Reply, TrustEvent, TrustReply, Who};
use pg_bytes::{Octets, Range};
use pg_digest::Digester;
use std::alloc::Global;

// The flag ADHOC of a code directory.
const ADHOC: u32 = 0x2;

// The bytes that a reading gave.
fn bytes_read(reply: &Reply) -> Option<&Octets>
    ensures { option_copied result ≡ option_and_then bytes_read (of_file reply.now) }
{
    match reply {
        Reply::File(FileReply::Read { bytes }) => Some(bytes),
        _ => None,
    }
}

// Whether the best code directory of a signature has the flag ADHOC.
fn is_adhoc(blob: &Blob) -> bool
    ensures { result ≡ is_adhoc blob.now }
{
    blob.best().flags() & ADHOC == ADHOC
}

// Whether the trust list's answer lets the signature be attached: it is listed, or the policy lets it go unlisted and its best
// code directory has the flag ADHOC.
fn admits(adhoc: bool, blob: &Blob, answer: &Reply) -> bool
    ensures { result ≡ option_map_or (admits adhoc blob.now) (of_trust answer.now) false }
{
    match answer {
        Reply::Trust(TrustReply::Listed { .. }) => true,
        Reply::Trust(TrustReply::Unlisted) => adhoc && is_adhoc(blob),
        _ => false,
    }
}

// What bytes are as a signature.
enum Tried {
    Signed(Blob),
    Refused(Refusal),
}

// Tries bytes as a signature of a slice, on a machine with pages of this size.
fn try_bytes<D: Digester>(
    alloc: Global,
    bytes: &Octets,
    range: &Range,
    page: u32,
    digester: &mut D,
) -> Result<Tried, NoMemory>
    requires { IsPageSize page }
    ensures { IfOk result (Tries D.hash bytes.now range.now page) }
{
    let owned = bytes.bytes().to_vec(alloc)?;
    match blob(alloc, owned, range, Some(page), digester) {
        Ok(blob) => Ok(Tried::Signed(blob)),
        Err(BlobFail::Refused(refusal)) => Ok(Tried::Refused(Refusal::from(refusal))),
        Err(BlobFail::NoMemory) => Err(NoMemory),
    }
}

/// Attaches the signature of a slice: `ReadSignature`; where bytes were read that are no signature of the slice,
/// `RefuseBlob`, and else `Lookup` of the cdhash; and where the answer admits the signature, `AddBlob`. The answer is the reply
/// to the last of these events. The digester has the function of the files' digesters.
///
/// After `NoMemory` no event was made, or the `ReadSignature` alone.
pub fn attach<T: Parts, D: Digester>(
    alloc: Global,
    parts: &mut T,
    who: Who,
    file: u32,
    slice: u32,
    digester: &mut D,
) -> Result<Reply, NoMemory>
    requires serves { T.serves parts.old who.worker }
    requires same_hash { D.hash ≡ T.hash }
    requires declared { IsDeclared (T.shows parts.old).numbers (call.Attach file slice) }
    requires room { HasRoomFor (T.shows parts.old) who (call.Attach file slice) }
    ensures enters { IfOk result (λ reply. Enters T.hash (call.Attach file slice) who
        (T.shows parts.old) reply (T.shows parts.new)) }
    ensures broken_off { OnErr result (BreaksOff T.hash (call.Attach file slice) who
        (T.shows parts.old) (T.shows parts.new)) }
    ensures serves { T.serves parts.new who.worker }
{
    let read = parts.file(
        who,
        file,
        FileCall::Plain(FileEvent::ReadSignature { slice }),
    )?;
    let Some(bytes) = bytes_read(&read.entry.reply) else {
        return Ok(read.entry.reply);
    };
    let Some(range) = parts.slice(file, slice) else {
        unreachable!()
    };
    let page = parts.page_size();
    let blob = match try_bytes(alloc, bytes, &range, page, digester)? {
        Tried::Signed(blob) => blob,
        Tried::Refused(refusal) => {
            let refuse = FileEvent::RefuseBlob {
                read: read.stamp,
                refusal,
            };
            return Ok(ask_file(parts, who, file, refuse).entry.reply);
        }
    };
    let cdhash = *blob.cdhash();
    let lookup = parts.trust(who, TrustEvent::Lookup { cdhash });
    let adhoc = parts.adhoc();
    if !admits(adhoc, &blob, &lookup.entry.reply) {
        return Ok(lookup.entry.reply);
    }
    let attach = FileCall::Attach {
        slice,
        blob,
        read,
        lookup,
    };
    let Ok(attached) = parts.file(who, file, attach) else {
        unreachable!()
    };
    Ok(attached.entry.reply)
}
