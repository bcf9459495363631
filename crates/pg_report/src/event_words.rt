//! Printing events.

ghost use Rattle.std.specs.Prelude.{◌≡◌, ◌++◌, ◌∷◌, [], drop, OnOk, decimal};
ghost use Rattle.pg_words.specs.Lines.{spaced};
ghost use Rattle.pg_words.specs.Numbers.{address_text};
ghost use Rattle.pg_report.specs.Forms.{stamp_text};
ghost use Rattle.pg_report.specs.Events.{file_event_words, proc_event_words, trust_event_words, event_words};
ghost use Rattle.cs_policy.specs.declared.file.FileEvent.TheVariants as file;
ghost use Rattle.pg_report.specs.EventTable.{insert};
ghost use Rattle.cs_policy.specs.Refusal.{refusal_text};

use bitflags::Flags;
use cs_policy::{
    Access, Event, FileEvent, ProcEvent, ProcFlags, Prot, Refusal, Region, TrustEvent,
};
use pg_words::{
    add_access, add_address, add_data, add_flags, add_hex, add_name, add_number, add_prot,
    add_share, add_word, put, put_number,
};
use std::alloc::{AllocError, Global};

/// One more word: the stamp of an earlier event.
pub fn add_stamp(text: &mut Vec<u8>, stamp: u64) -> Result<(), AllocError>
    ensures { OnOk result (text.new.items ≡ text.old.items ++ 32 ∷ stamp_text stamp) }
{
    put(text, b" @")?;
    put_number(text, stamp)
}

/// One more word: a refusal.
pub fn add_refusal(alloc: Global, text: &mut Vec<u8>, refusal: &Refusal) -> Result<(), AllocError>
    ensures { OnOk result (text.new.items ≡ text.old.items ++ 32 ∷ refusal_text refusal.now) }
{
    let word = format!(in alloc; "{refusal}")?;
    add_word(text, word.as_bytes())
}

/// A word and a number.
pub fn add_count(text: &mut Vec<u8>, word: &[u8], count: u64) -> Result<(), AllocError>
    ensures { OnOk result (text.new.items ≡ text.old.items ++ spaced (word.now ∷ decimal count ∷ [])) }
{
    add_word(text, word)?;
    add_number(text, count)
}

/// A word and an address.
fn add_place(alloc: Global, text: &mut Vec<u8>, word: &[u8], addr: u64) -> Result<(), AllocError>
    ensures { OnOk result (text.new.items ≡
        text.old.items ++ spaced (word.now ∷ address_text addr ∷ [])) }
{
    add_word(text, word)?;
    add_address(alloc, text, addr)
}

/// A signature that is attached.
fn add_blob(
    alloc: Global,
    text: &mut Vec<u8>,
    slice: u32,
    cdhash: &[u8; 20],
    read: u64,
    lookup: u64,
) -> Result<(), AllocError>
    ensures { OnOk result (text.new.items ≡
        text.old.items ++ spaced (file_event_words (file.AddBlob slice cdhash.now read lookup))) }
{
    add_count(text, b"addblob", u64::from(slice))?;
    add_hex(alloc, text, cdhash.as_slice())?;
    add_stamp(text, read)?;
    add_stamp(text, lookup)
}

/// The pages that are mapped, and how.
fn add_pages(
    text: &mut Vec<u8>,
    first: u64,
    pages: u64,
    prot: Prot,
    shared: bool,
) -> Result<(), AllocError>
    ensures { OnOk result (text.new.items ≡
        text.old.items ++ spaced (drop 2 (insert.words (0, 0, first, pages, prot, shared)))) }
{
    add_number(text, first)?;
    add_number(text, pages)?;
    add_prot(text, prot)?;
    add_share(text, shared)
}

/// A region that is added.
fn add_region(text: &mut Vec<u8>, region: &Region, insert: u64) -> Result<(), AllocError>
    ensures { OnOk result (text.new.items ≡
        text.old.items ++ spaced (file_event_words (file.AddRegion region.now insert))) }
{
    put(text, b" addregion")?;
    add_number(text, u64::from(region.id))?;
    add_name(text, b'p', region.pid)?;
    add_pages(text, region.first, region.pages, region.prot, region.shared)?;
    add_stamp(text, insert)
}

/// An access by a fault.
fn add_enter(
    alloc: Global,
    text: &mut Vec<u8>,
    id: u32,
    page: u64,
    access: Access,
    flags: ProcFlags,
    resolve: u64,
) -> Result<(), AllocError>
    ensures { OnOk result (text.new.items ≡
        text.old.items ++ spaced (file_event_words (file.Enter id page access flags resolve))) }
{
    put(text, b" enter")?;
    add_number(text, u64::from(id))?;
    add_number(text, page)?;
    add_access(text, access)?;
    add_flags(alloc, text, flags.bits())?;
    add_stamp(text, resolve)
}

/// A word, and a place in a page that a region has.
fn add_touch(text: &mut Vec<u8>, word: &[u8], id: u32, page: u64, at: u32) -> Result<(), AllocError>
    ensures { OnOk result (text.new.items ≡
        text.old.items ++ spaced (word.now ∷ decimal id ∷ decimal page ∷ decimal at ∷ [])) }
{
    add_word(text, word)?;
    add_number(text, u64::from(id))?;
    add_number(text, page)?;
    add_number(text, u64::from(at))
}

/// An event of a file.
fn add_file_event(alloc: Global, text: &mut Vec<u8>, event: &FileEvent) -> Result<(), AllocError>
    ensures { OnOk result (text.new.items ≡ text.old.items ++ spaced (file_event_words event.now)) }
{
    match event {
        FileEvent::ReadSignature { slice } => add_count(text, b"readsig", u64::from(*slice)),
        FileEvent::AddBlob {
            slice,
            cdhash,
            read,
            lookup,
        } => { add_blob(alloc, text, *slice, cdhash, *read, *lookup) }
        FileEvent::RefuseBlob { read, refusal } => {
            put(text, b" refuse")?;
            add_stamp(text, *read)?;
            add_refusal(alloc, text, refusal)
        }
        FileEvent::Write { at, piece } => {
            add_count(text, b"write", *at)?;
            add_data(alloc, text, piece)
        }
        FileEvent::AddRegion { region, insert } => { add_region(text, region, *insert) }
        FileEvent::DropRegion { id } => add_count(text, b"dropregion", u64::from(*id)),
        FileEvent::DropPid { pid } => {
            put(text, b" droppid")?;
            add_name(text, b'p', *pid)
        }
        FileEvent::Enter {
            id,
            page,
            access,
            flags,
            resolve,
        } => { add_enter(alloc, text, *id, *page, *access, *flags, *resolve) }
        FileEvent::Store {
            id,
            page,
            at,
            bytes,
            resolve,
        } => {
            add_touch(text, b"store", *id, *page, *at)?;
            add_hex(alloc, text, bytes.bytes())?;
            add_stamp(text, *resolve)
        }
        FileEvent::Load {
            id,
            page,
            at,
            count,
            resolve,
        } => {
            add_touch(text, b"load", *id, *page, *at)?;
            add_number(text, u64::from(*count))?;
            add_stamp(text, *resolve)
        }
        FileEvent::Fetch {
            id,
            page,
            at,
            count,
            resolve,
        } => {
            add_touch(text, b"fetch", *id, *page, *at)?;
            add_number(text, u64::from(*count))?;
            add_stamp(text, *resolve)
        }
        FileEvent::Evict { page } => add_count(text, b"evict", *page),
    }
}

/// What a mapping maps, behind its address.
fn add_mapping(
    text: &mut Vec<u8>,
    file: u32,
    first: u64,
    pages: u64,
    prot: Prot,
    shared: bool,
) -> Result<(), AllocError>
    ensures { OnOk result (text.new.items ≡
        text.old.items ++ spaced (drop 1 (insert.words (0, file, first, pages, prot, shared)))) }
{
    add_name(text, b'f', file)?;
    add_pages(text, first, pages, prot, shared)
}

/// An event of a process.
fn add_proc_event(alloc: Global, text: &mut Vec<u8>, event: &ProcEvent) -> Result<(), AllocError>
    ensures { OnOk result (text.new.items ≡ text.old.items ++ spaced (proc_event_words event.now)) }
{
    match *event {
        ProcEvent::Start => put(text, b" start"),
        ProcEvent::Insert {
            at,
            file,
            first,
            pages,
            prot,
            shared,
            ..
        } => {
            add_place(alloc, text, b"insert", at)?;
            add_mapping(text, file, first, pages, prot, shared)
        }
        ProcEvent::Resolve { addr, access } => {
            add_place(alloc, text, b"resolve", addr)?;
            add_access(text, access)
        }
        ProcEvent::Remove { at } => add_place(alloc, text, b"remove", at),
        ProcEvent::Debug => put(text, b" debug"),
        ProcEvent::Punish => put(text, b" punish"),
        ProcEvent::ClearValid => put(text, b" clearvalid"),
        ProcEvent::Exit => put(text, b" exit"),
    }
}

/// An event of the trust list.
fn add_trust_event(alloc: Global, text: &mut Vec<u8>, event: &TrustEvent) -> Result<(), AllocError>
    ensures { OnOk result (text.new.items ≡ text.old.items ++ spaced (trust_event_words event.now)) }
{
    match event {
        TrustEvent::LoadModule { cache } => {
            put(text, b" loadmodule")?;
            add_name(text, b'c', *cache)
        }
        TrustEvent::Lookup { cdhash } => {
            put(text, b" lookup")?;
            add_hex(alloc, text, cdhash.as_slice())
        }
    }
}

/// An event, its words each behind a space.
pub fn add_event(alloc: Global, text: &mut Vec<u8>, event: &Event) -> Result<(), AllocError>
    ensures { OnOk result (text.new.items ≡ text.old.items ++ spaced (event_words event.now)) }
{
    match event {
        Event::File(event) => add_file_event(alloc, text, event),
        Event::Proc(event) => add_proc_event(alloc, text, event),
        Event::Trust(event) => add_trust_event(alloc, text, event),
    }
}
