//! What the words of events say.

ghost use Rattle.std.specs.Prelude.{◌≡◌};
ghost use Rattle.pg_words.specs.Lines.{texts};
ghost use Rattle.pg_words.specs.Rows.{row0, row1};
ghost use Rattle.pg_report.specs.Forms.{short, long, process_form};
ghost use Rattle.pg_report.specs.EventTable as row;
ghost use Rattle.pg_report.specs.EventRows.{file_event_row, proc_event_row, trust_event_row, file_event_of, proc_event_of, trust_event_of, event_of};
ghost use Rattle.pg_report.specs.Gives.{Gives};

use crate::forms::{Unread, data, flags, refusal, said, stamp, stored};
use crate::words::{FileWord, ProcWord, TrustWord, file_word, proc_word, trust_word};
use cs_policy::{Event, FileEvent, Place, ProcEvent, Region, TrustEvent};
use pg_words::{access, address, cdhash, number, prot, share, short_name, short_number};
use std::alloc::Global;

/// `addblob K CDHASH @READ @LOOKUP`
fn add_blob(columns: &[&[u8]]) -> Result<FileEvent, Unread>
    ensures { Gives result (row.add_blob.says (texts columns.now)) }
{
    let [slice, cdhash_word, read, lookup] = columns else {
        return Err(Unread::OtherForm);
    };
    let slice = said(short_number(slice))?;
    let cdhash = said(cdhash(cdhash_word))?;
    let read = said(stamp(read))?;
    let lookup = said(stamp(lookup))?;
    Ok(FileEvent::AddBlob {
        slice,
        cdhash,
        read,
        lookup,
    })
}

/// `refuse @READ R`
fn refuse(alloc: Global, columns: &[&[u8]]) -> Result<FileEvent, Unread>
    ensures { Gives result (row.refuse_blob.says (texts columns.now)) }
{
    let [read, refusal_word] = columns else {
        return Err(Unread::OtherForm);
    };
    let read = said(stamp(read))?;
    let refusal = refusal(alloc, refusal_word)?;
    Ok(FileEvent::RefuseBlob { read, refusal })
}

/// `write OFF DATA`
fn write(alloc: Global, columns: &[&[u8]]) -> Result<FileEvent, Unread>
    ensures { Gives result (row.write.says (texts columns.now)) }
{
    let [at, piece] = columns else {
        return Err(Unread::OtherForm);
    };
    let at = said(number(at))?;
    let piece = data(alloc, piece)?;
    Ok(FileEvent::Write { at, piece })
}

/// `addregion ID pP FIRST PAGES PROT SHARE @INSERT`
fn add_region(columns: &[&[u8]]) -> Result<FileEvent, Unread>
    ensures { Gives result (row.add_region.says (texts columns.now)) }
{
    let [id, pid, first, pages, prot_word, share_word, insert] = columns else {
        return Err(Unread::OtherForm);
    };
    let id = said(short_number(id))?;
    let pid = said(short_name(b'p', pid))?;
    let first = said(number(first))?;
    let pages = said(number(pages))?;
    let prot = said(prot(prot_word))?;
    let shared = said(share(share_word))?;
    let insert = said(stamp(insert))?;
    Ok(FileEvent::AddRegion {
        region: Region {
            id,
            pid,
            first,
            pages,
            prot,
            shared,
        },
        insert,
    })
}

/// `enter ID PAGE A FLAGS @RESOLVE`
fn enter(columns: &[&[u8]]) -> Result<FileEvent, Unread>
    ensures { Gives result (row.enter.says (texts columns.now)) }
{
    let [id, page, access_word, flags_word, resolve] = columns else {
        return Err(Unread::OtherForm);
    };
    let id = said(short_number(id))?;
    let page = said(number(page))?;
    let access = said(access(access_word))?;
    let flags = said(flags(flags_word))?;
    let resolve = said(stamp(resolve))?;
    Ok(FileEvent::Enter {
        id,
        page,
        access,
        flags,
        resolve,
    })
}

/// `store ID PAGE AT HEX @RESOLVE`
fn store(alloc: Global, columns: &[&[u8]]) -> Result<FileEvent, Unread>
    ensures { Gives result (row.store.says (texts columns.now)) }
{
    let [id, page, at, bytes, resolve] = columns else {
        return Err(Unread::OtherForm);
    };
    let id = said(short_number(id))?;
    let page = said(number(page))?;
    let at = said(short_number(at))?;
    let bytes = stored(alloc, bytes)?;
    let resolve = said(stamp(resolve))?;
    Ok(FileEvent::Store {
        id,
        page,
        at,
        bytes,
        resolve,
    })
}

/// `load ID PAGE AT COUNT @RESOLVE`
fn load(columns: &[&[u8]]) -> Result<FileEvent, Unread>
    ensures { Gives result (row.load.says (texts columns.now)) }
{
    let [id, page, at, count, resolve] = columns else {
        return Err(Unread::OtherForm);
    };
    let id = said(short_number(id))?;
    let page = said(number(page))?;
    let at = said(short_number(at))?;
    let count = said(short_number(count))?;
    let resolve = said(stamp(resolve))?;
    Ok(FileEvent::Load {
        id,
        page,
        at,
        count,
        resolve,
    })
}

/// `fetch ID PAGE AT COUNT @RESOLVE`
fn fetch(columns: &[&[u8]]) -> Result<FileEvent, Unread>
    ensures { Gives result (row.fetch.says (texts columns.now)) }
{
    let [id, page, at, count, resolve] = columns else {
        return Err(Unread::OtherForm);
    };
    let id = said(short_number(id))?;
    let page = said(number(page))?;
    let at = said(short_number(at))?;
    let count = said(short_number(count))?;
    let resolve = said(stamp(resolve))?;
    Ok(FileEvent::Fetch {
        id,
        page,
        at,
        count,
        resolve,
    })
}

/// A number of 32 bits as the only column.
pub fn only_short(columns: &[&[u8]]) -> Result<u32, Unread>
    ensures { Gives result (row1 short (λ n. n) (texts columns.now)) }
{
    let [word] = columns else {
        return Err(Unread::OtherForm);
    };
    said(short_number(word))
}

/// A number of 64 bits as the only column.
pub fn only_long(columns: &[&[u8]]) -> Result<u64, Unread>
    ensures { Gives result (row1 long (λ n. n) (texts columns.now)) }
{
    let [word] = columns else {
        return Err(Unread::OtherForm);
    };
    said(number(word))
}

/// A process as the only column.
pub fn only_process(columns: &[&[u8]]) -> Result<u32, Unread>
    ensures { Gives result (row1 process_form (λ n. n) (texts columns.now)) }
{
    let [word] = columns else {
        return Err(Unread::OtherForm);
    };
    said(short_name(b'p', word))
}

/// What the words behind the first one say, of an event of a file.
fn file_columns(alloc: Global, key: FileWord, columns: &[&[u8]]) -> Result<FileEvent, Unread>
    ensures { Gives result (file_event_row key (texts columns.now)) }
{
    match key {
        FileWord::ReadSignature => {
            let slice = only_short(columns)?;
            Ok(FileEvent::ReadSignature { slice })
        }
        FileWord::AddBlob => add_blob(columns),
        FileWord::RefuseBlob => refuse(alloc, columns),
        FileWord::Write => write(alloc, columns),
        FileWord::AddRegion => add_region(columns),
        FileWord::DropRegion => {
            let id = only_short(columns)?;
            Ok(FileEvent::DropRegion { id })
        }
        FileWord::DropPid => {
            let pid = only_process(columns)?;
            Ok(FileEvent::DropPid { pid })
        }
        FileWord::Enter => enter(columns),
        FileWord::Store => store(alloc, columns),
        FileWord::Load => load(columns),
        FileWord::Fetch => fetch(columns),
        FileWord::Evict => {
            let page = only_long(columns)?;
            Ok(FileEvent::Evict { page })
        }
    }
}

/// What the words of an event of a file say.
#[tactic(auto, unfolding(crate::specs::EventRows::file_event_of))]
fn file_event(alloc: Global, words: &[&[u8]]) -> Result<FileEvent, Unread>
    ensures { Gives result (file_event_of (texts words.now)) }
{
    let [word, columns @ ..] = words else {
        return Err(Unread::OtherForm);
    };
    file_columns(alloc, said(file_word(word))?, columns)
}

/// `insert ADDR fF FIRST PAGES PROT SHARE`
fn insert(columns: &[&[u8]]) -> Result<ProcEvent, Unread>
    ensures { Gives result (row.insert.says (texts columns.now)) }
{
    let [at, file, first, pages, prot_word, share_word] = columns else {
        return Err(Unread::OtherForm);
    };
    let at = said(address(at))?;
    let file = said(short_name(b'f', file))?;
    let first = said(number(first))?;
    let pages = said(number(pages))?;
    let prot = said(prot(prot_word))?;
    let shared = said(share(share_word))?;
    Ok(ProcEvent::Insert {
        at,
        file,
        file_pages: 0,
        first,
        pages,
        prot,
        shared,
    })
}

/// `resolve ADDR A`
fn resolve(columns: &[&[u8]]) -> Result<ProcEvent, Unread>
    ensures { Gives result (row.resolve.says (texts columns.now)) }
{
    let [addr, access_word] = columns else {
        return Err(Unread::OtherForm);
    };
    let addr = said(address(addr))?;
    let access = said(access(access_word))?;
    Ok(ProcEvent::Resolve { addr, access })
}

/// `remove ADDR`
fn remove(columns: &[&[u8]]) -> Result<ProcEvent, Unread>
    ensures { Gives result (row.remove.says (texts columns.now)) }
{
    let [at] = columns else {
        return Err(Unread::OtherForm);
    };
    let at = said(address(at))?;
    Ok(ProcEvent::Remove { at })
}

/// An event or a reply that is one word alone.
pub fn plain<T: Drop>(columns: &[&[u8]], made: T) -> Result<T, Unread>
    ensures { Gives result (row0 made (texts columns.now)) }
{
    if columns.is_empty() {
        Ok(made)
    } else {
        Err(Unread::OtherForm)
    }
}

/// What the words behind the first one say, of an event of a process.
fn proc_columns(key: ProcWord, columns: &[&[u8]]) -> Result<ProcEvent, Unread>
    ensures { Gives result (proc_event_row key (texts columns.now)) }
{
    match key {
        ProcWord::Start => plain(columns, ProcEvent::Start),
        ProcWord::Insert => insert(columns),
        ProcWord::Resolve => resolve(columns),
        ProcWord::Remove => remove(columns),
        ProcWord::Debug => plain(columns, ProcEvent::Debug),
        ProcWord::Punish => plain(columns, ProcEvent::Punish),
        ProcWord::ClearValid => plain(columns, ProcEvent::ClearValid),
        ProcWord::Exit => plain(columns, ProcEvent::Exit),
    }
}

/// What the words of an event of a process say.
#[tactic(auto, unfolding(crate::specs::EventRows::proc_event_of))]
fn proc_event(words: &[&[u8]]) -> Result<ProcEvent, Unread>
    ensures { Gives result (proc_event_of (texts words.now)) }
{
    let [word, columns @ ..] = words else {
        return Err(Unread::OtherForm);
    };
    proc_columns(said(proc_word(word))?, columns)
}

/// What the words behind the first one say, of an event of the trust list.
fn trust_columns(key: TrustWord, columns: &[&[u8]]) -> Result<TrustEvent, Unread>
    ensures { Gives result (trust_event_row key (texts columns.now)) }
{
    let [column] = columns else {
        return Err(Unread::OtherForm);
    };
    match key {
        TrustWord::LoadModule => {
            let cache = said(short_name(b'c', column))?;
            Ok(TrustEvent::LoadModule { cache })
        }
        TrustWord::Lookup => {
            let cdhash = said(cdhash(column))?;
            Ok(TrustEvent::Lookup { cdhash })
        }
    }
}

/// What the words of an event of the trust list say.
#[tactic(auto, unfolding(crate::specs::EventRows::trust_event_of))]
fn trust_event(words: &[&[u8]]) -> Result<TrustEvent, Unread>
    ensures { Gives result (trust_event_of (texts words.now)) }
{
    let [word, columns @ ..] = words else {
        return Err(Unread::OtherForm);
    };
    trust_columns(said(trust_word(word))?, columns)
}

/// What the words of an event of a part say.
pub fn event(alloc: Global, place: Place, words: &[&[u8]]) -> Result<Event, Unread>
    ensures { Gives result (event_of place (texts words.now)) }
{
    match place {
        Place::File(_) => Ok(Event::File(file_event(alloc, words)?)),
        Place::Process(_) => Ok(Event::Proc(proc_event(words)?)),
        Place::Trust => Ok(Event::Trust(trust_event(words)?)),
    }
}
