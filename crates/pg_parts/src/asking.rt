//! One part is asked.

ghost use Rattle.std.specs.Prelude.{◌≡◌, ◌<◌, None, Some, length, IfOk, IsErr, OnErr};
ghost use Rattle.cs_policy.specs.Entry.{HoldsReplyBytes};
ghost use Rattle.pg_object.specs.Acts.{Acts};
ghost use Rattle.pg_object.specs.Kept.{IsKept};
ghost use Rattle.pg_process.specs.ProcessStep.{process_step};
ghost use Rattle.pg_trusted.specs.TrustStep.{trust_step};
ghost use Rattle.cs_policy.specs.declared.file.FileEvent.TheVariants as event;
ghost use Rattle.pg_history.specs.Machine.{slice_read};
ghost use Rattle.pg_calls.specs.Room.{file_uses};
ghost use Rattle.pg_calls.specs.Asking.{event_of, TakesMemory};
ghost use Rattle.pg_parts.specs.Opened.{HasSpare};
ghost use Rattle.pg_parts.specs.Asking.{MayAskPlain, MayAttach, MayAskFile, AsksFile, MayAskProcess, MayAskTrust};

use crate::NoMemory;
use cs_blob::Blob;
use cs_policy::{FileEvent, FileReply, ProcEvent, ProcReply, TrustEvent, TrustReply};
use pg_calls::FileCall;
use pg_digest::Digester;
use pg_io::Pager;
use pg_object::Object;
use pg_process::Process;
use pg_trusted::Trusted;
use std::alloc::Global;

/// An event of a file, and the file's reply to it.
#[derive(Drop)]
pub struct FileAnswer {
    pub event: FileEvent,
    pub reply: FileReply,
}

/// Asks a file, and gives the event with its reply twice, in equal values. There is room for what the event uses.
///
/// `NoMemory` comes only of an event that reads a signature or writes, and then all is as before.
pub fn ask_file<P: Pager, D: Digester>(
    alloc: Global,
    object: &mut Object<P, D>,
    asked: FileCall,
) -> Result<(FileAnswer, FileAnswer), NoMemory>
    requires may { MayAskFile D.hash object.old asked }
    requires room { HasSpare object.old (file_uses (event_of asked)) }
    ensures asks { IfOk result (λ twins. AsksFile D.hash object.old asked twins.0 object.new) }
    ensures twins { IfOk result (λ twins. twins.1 ≡ twins.0) }
    ensures kept { IfOk result (λ _. IsKept D.hash object.new) }
    ensures unchanged { OnErr result (object.new ≡ object.old) }
    ensures memory { IsErr result → TakesMemory (event_of asked) }
{
    match asked {
        FileCall::Plain(event) => ask_plain(alloc, object, event),
        FileCall::Attach {
            slice,
            blob,
            read,
            lookup,
        } => Ok(attach(object, slice, blob, read.stamp, lookup.stamp)),
    }
}

// Asks for an event that attaches no signature.
fn ask_plain<P: Pager, D: Digester>(
    alloc: Global,
    object: &mut Object<P, D>,
    event: FileEvent,
) -> Result<(FileAnswer, FileAnswer), NoMemory>
    requires may { MayAskPlain object.old event }
    requires room { HasSpare object.old (file_uses event) }
    ensures event { IfOk result (λ twins. twins.0.event ≡ event) }
    ensures acts { IfOk result (λ twins. Acts D.hash object.old event None twins.0.reply object.new) }
    ensures twins { IfOk result (λ twins. twins.1 ≡ twins.0) }
    ensures kept { IfOk result (λ _. IsKept D.hash object.new) }
    ensures unchanged { OnErr result (object.new ≡ object.old) }
    ensures memory { IsErr result → TakesMemory event }
{
    let again = event.copy()?;
    let (reply, twin) = act_twice(alloc, object, &event)?;
    let answer = FileAnswer { event, reply };
    let twin = FileAnswer {
        event: again,
        reply: twin,
    };
    Ok((answer, twin))
}

// The reply to an event that attaches no signature, twice.
fn act_twice<P: Pager, D: Digester>(
    alloc: Global,
    object: &mut Object<P, D>,
    asked: &FileEvent,
) -> Result<(FileReply, FileReply), NoMemory>
    requires may { MayAskPlain object.old asked.now }
    requires room { HasSpare object.old (file_uses asked.now) }
    ensures acts { IfOk result (λ replies. Acts D.hash object.old asked.now None replies.0 object.new) }
    ensures twins { IfOk result (λ replies. replies.1 ≡ replies.0) }
    ensures kept { IfOk result (λ _. IsKept D.hash object.new) }
    ensures unchanged { OnErr result (object.new ≡ object.old) }
    ensures memory { IsErr result → TakesMemory asked.now }
{
    match asked {
        FileEvent::ReadSignature { slice } => Ok(object.read_signature(alloc, *slice)?),
        asked => {
            let reply = act(object, asked);
            let Ok(twin) = reply.copy() else {
                unreachable!()
            };
            Ok((reply, twin))
        }
    }
}

// The reply to an event that reads and attaches no signature.
fn act<P: Pager, D: Digester>(object: &mut Object<P, D>, asked: &FileEvent) -> FileReply
    requires may { MayAskPlain object.old asked.now }
    requires unread { slice_read asked.now ≡ None }
    requires room { HasSpare object.old (file_uses asked.now) }
    ensures acts { Acts D.hash object.old asked.now None result object.new }
    ensures kept { IsKept D.hash object.new }
    ensures small { HoldsReplyBytes result → ⊥ }
{
    match asked {
        FileEvent::RefuseBlob { read, refusal } => object.refuse_blob(*read, *refusal),
        FileEvent::Write { at, piece } => object.write(*at, piece),
        FileEvent::AddRegion { region, insert } => object.add_region(*region, *insert),
        FileEvent::DropRegion { id } => object.drop_region(*id),
        FileEvent::DropPid { pid } => object.drop_pid(*pid),
        FileEvent::Enter {
            id,
            page,
            access,
            flags,
            resolve,
        } => object.enter(*id, *page, *access, *flags, *resolve),
        FileEvent::Store {
            id,
            page,
            at,
            bytes,
            resolve,
        } => object.store(*id, *page, *at, bytes, *resolve),
        FileEvent::Load {
            id,
            page,
            at,
            count,
            resolve,
        } => object.load(*id, *page, *at, *count, *resolve),
        FileEvent::Fetch {
            id,
            page,
            at,
            count,
            resolve,
        } => object.fetch(*id, *page, *at, *count, *resolve),
        FileEvent::Evict { page } => object.evict(*page),
        FileEvent::ReadSignature { .. } | FileEvent::AddBlob { .. } => unreachable!(),
    }
}

// Attaches a signature whose bytes were read and whose cdhash was looked up at these stamps.
fn attach<P: Pager, D: Digester>(
    object: &mut Object<P, D>,
    slice: u32,
    blob: Blob,
    read: u64,
    lookup: u64,
) -> (FileAnswer, FileAnswer)
    requires may { MayAttach D.hash object.old slice blob }
    requires room { length object.old.blobs < 64 }
    ensures event { result.0.event ≡ event.AddBlob slice blob.cdhash read lookup }
    ensures acts { Acts D.hash object.old (event.AddBlob slice blob.cdhash read lookup) (Some blob)
        result.0.reply object.new }
    ensures twins { result.1 ≡ result.0 }
    ensures kept { IsKept D.hash object.new }
{
    let cdhash = *blob.cdhash();
    let reply = object.add_blob(slice, blob, read, lookup);
    let Ok(twin) = reply.copy() else {
        unreachable!()
    };
    let answer = FileAnswer {
        event: FileEvent::AddBlob {
            slice,
            cdhash,
            read,
            lookup,
        },
        reply,
    };
    let twin = FileAnswer {
        event: FileEvent::AddBlob {
            slice,
            cdhash,
            read,
            lookup,
        },
        reply: twin,
    };
    (answer, twin)
}

/// Asks a process.
pub fn ask_process(process: &mut Process, asked: ProcEvent) -> ProcReply
    requires may { MayAskProcess process.old asked }
    ensures reply { result ≡ (process_step process.old asked).0 }
    ensures after { process.new ≡ (process_step process.old asked).1 }
{
    match asked {
        ProcEvent::Start => process.start(),
        ProcEvent::Insert {
            at,
            file,
            file_pages,
            first,
            pages,
            prot,
            shared,
        } => process.insert(at, file, file_pages, first, pages, prot, shared),
        ProcEvent::Resolve { addr, access } => process.resolve(addr, access),
        ProcEvent::Remove { at } => process.remove(at),
        ProcEvent::Debug => process.debug(),
        ProcEvent::Punish => process.punish(),
        ProcEvent::ClearValid => process.clear_valid(),
        ProcEvent::Exit => process.exit(),
    }
}

/// Asks the trust list.
pub fn ask_trust(list: &mut Trusted, asked: TrustEvent) -> TrustReply
    requires may { MayAskTrust list.old asked }
    ensures reply { result ≡ (trust_step list.old asked).0 }
    ensures after { list.new ≡ (trust_step list.old asked).1 }
{
    match asked {
        TrustEvent::LoadModule { cache } => list.load(cache),
        TrustEvent::Lookup { cdhash } => list.lookup(&cdhash),
    }
}
