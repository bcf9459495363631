//! What the words of replies of processes and of the trust list say, each behind its event.

ghost use Rattle.pg_words.specs.Lines.{texts};
ghost use Rattle.pg_words.specs.Rows.{row1};
ghost use Rattle.pg_report.specs.Forms.{flags_form, only};
ghost use Rattle.pg_report.specs.ReplyTable.{region, removed, exited, listed};
ghost use Rattle.pg_report.specs.ReplyRows.{dead_row, idle_row, start_row, insert_row, resolve_row, remove_row, debug_row, punish_row, clear_row, exit_row, proc_reply_row, load_module_row, lookup_row, trust_reply_row};
ghost use Rattle.pg_report.specs.Gives.{Gives};

use crate::event_lines::{only_long, only_process, only_short, plain};
use crate::forms::{Unread, files, flags, only, said};
use crate::reply_lines::only_refusal;
use crate::words::ReplyWord;
use cs_policy::{ProcEvent, ProcFlags, ProcReply, TrustEvent, TrustReply};
use pg_words::{number, short_name, short_number};
use std::alloc::Global;

/// Flags as the only column.
fn only_flags(columns: &[&[u8]]) -> Result<ProcFlags, Unread>
    ensures { Gives result (row1 flags_form (λ f. f) (texts columns.now)) }
{
    let [word] = columns else {
        return Err(Unread::OtherForm);
    };
    said(flags(word))
}

/// A limit as the only column.
fn only_limit(limit: u32, columns: &[&[u8]]) -> Result<u32, Unread>
    ensures { Gives result (row1 (only limit) (λ n. n) (texts columns.now)) }
{
    let [word] = columns else {
        return Err(Unread::OtherForm);
    };
    said(only(limit, word))
}

/// What a process that has ended answers.
fn dead(key: ReplyWord, columns: &[&[u8]]) -> Result<ProcReply, Unread>
    ensures { Gives result (dead_row key (texts columns.now)) }
{
    match key {
        ReplyWord::Dead => plain(columns, ProcReply::Dead),
        _ => Err(Unread::OtherForm),
    }
}

/// What a process that has ended or was killed answers.
fn idle(key: ReplyWord, columns: &[&[u8]]) -> Result<ProcReply, Unread>
    ensures { Gives result (idle_row key (texts columns.now)) }
{
    match key {
        ReplyWord::Dead => plain(columns, ProcReply::Dead),
        ReplyWord::Killed => plain(columns, ProcReply::Killed),
        _ => Err(Unread::OtherForm),
    }
}

/// What a start answers.
fn start(key: ReplyWord, columns: &[&[u8]]) -> Result<ProcReply, Unread>
    ensures { Gives result (start_row key (texts columns.now)) }
{
    match key {
        ReplyWord::Started => {
            let pid = only_process(columns)?;
            Ok(ProcReply::Started { pid })
        }
        ReplyWord::Began => {
            let flags = only_flags(columns)?;
            Ok(ProcReply::Began { flags })
        }
        _ => Err(Unread::OtherForm),
    }
}

/// What a mapping answers.
fn insert(key: ReplyWord, columns: &[&[u8]]) -> Result<ProcReply, Unread>
    ensures { Gives result (insert_row key (texts columns.now)) }
{
    match key {
        ReplyWord::OutOfFile => {
            let pages = only_long(columns)?;
            Ok(ProcReply::OutOfFile { pages })
        }
        ReplyWord::Overlap => {
            let id = only_short(columns)?;
            Ok(ProcReply::Overlap { id })
        }
        ReplyWord::Full => {
            let limit = only_limit(256, columns)?;
            Ok(ProcReply::Full { limit })
        }
        ReplyWord::Inserted => {
            let id = only_short(columns)?;
            Ok(ProcReply::Inserted { id })
        }
        _ => idle(key, columns),
    }
}

/// `region ID fF PAGE FLAGS`
fn region(columns: &[&[u8]]) -> Result<ProcReply, Unread>
    ensures { Gives result (region.says (texts columns.now)) }
{
    let [id, file, page, flags_word] = columns else {
        return Err(Unread::OtherForm);
    };
    let id = said(short_number(id))?;
    let file = said(short_name(b'f', file))?;
    let page = said(number(page))?;
    let flags = said(flags(flags_word))?;
    Ok(ProcReply::Region {
        id,
        file,
        page,
        flags,
    })
}

/// What an access by an address answers.
fn resolve(key: ReplyWord, columns: &[&[u8]]) -> Result<ProcReply, Unread>
    ensures { Gives result (resolve_row key (texts columns.now)) }
{
    match key {
        ReplyWord::NoMap => plain(columns, ProcReply::NoMap),
        ReplyWord::Prot => {
            let id = only_short(columns)?;
            Ok(ProcReply::Prot { id })
        }
        ReplyWord::Region => region(columns),
        _ => idle(key, columns),
    }
}

/// `removed ID fF`
fn removed(columns: &[&[u8]]) -> Result<ProcReply, Unread>
    ensures { Gives result (removed.says (texts columns.now)) }
{
    let [id, file] = columns else {
        return Err(Unread::OtherForm);
    };
    let id = said(short_number(id))?;
    let file = said(short_name(b'f', file))?;
    Ok(ProcReply::Removed { id, file })
}

/// What unmapping answers.
fn remove(key: ReplyWord, columns: &[&[u8]]) -> Result<ProcReply, Unread>
    ensures { Gives result (remove_row key (texts columns.now)) }
{
    match key {
        ReplyWord::NoMap => plain(columns, ProcReply::NoMap),
        ReplyWord::Removed => removed(columns),
        _ => idle(key, columns),
    }
}

/// What attaching a debugger answers.
fn debug(key: ReplyWord, columns: &[&[u8]]) -> Result<ProcReply, Unread>
    ensures { Gives result (debug_row key (texts columns.now)) }
{
    match key {
        ReplyWord::Debugged => {
            let flags = only_flags(columns)?;
            Ok(ProcReply::Debugged { flags })
        }
        _ => idle(key, columns),
    }
}

/// What a denied access answers.
fn punish(key: ReplyWord, columns: &[&[u8]]) -> Result<ProcReply, Unread>
    ensures { Gives result (punish_row key (texts columns.now)) }
{
    match key {
        ReplyWord::Kill => plain(columns, ProcReply::Kill),
        ReplyWord::Spare => plain(columns, ProcReply::Spare),
        _ => idle(key, columns),
    }
}

/// What an access in spite of a broken rule answers.
fn clear(key: ReplyWord, columns: &[&[u8]]) -> Result<ProcReply, Unread>
    ensures { Gives result (clear_row key (texts columns.now)) }
{
    match key {
        ReplyWord::Cleared => {
            let flags = only_flags(columns)?;
            Ok(ProcReply::Cleared { flags })
        }
        _ => idle(key, columns),
    }
}

/// `exited LIST`
fn exited(alloc: Global, columns: &[&[u8]]) -> Result<ProcReply, Unread>
    ensures { Gives result (exited.says (texts columns.now)) }
{
    let [word] = columns else {
        return Err(Unread::OtherForm);
    };
    let files = files(alloc, word)?;
    Ok(ProcReply::Exited { files })
}

/// What an end answers.
fn exit(alloc: Global, key: ReplyWord, columns: &[&[u8]]) -> Result<ProcReply, Unread>
    ensures { Gives result (exit_row key (texts columns.now)) }
{
    match key {
        ReplyWord::Exited => exited(alloc, columns),
        _ => dead(key, columns),
    }
}

/// What a process answers to an event.
pub fn proc_reply(
    alloc: Global,
    event: &ProcEvent,
    key: ReplyWord,
    columns: &[&[u8]],
) -> Result<ProcReply, Unread>
    ensures { Gives result (proc_reply_row event.now key (texts columns.now)) }
{
    match event {
        ProcEvent::Start => start(key, columns),
        ProcEvent::Insert { .. } => insert(key, columns),
        ProcEvent::Resolve { .. } => resolve(key, columns),
        ProcEvent::Remove { .. } => remove(key, columns),
        ProcEvent::Debug => debug(key, columns),
        ProcEvent::Punish => punish(key, columns),
        ProcEvent::ClearValid => clear(key, columns),
        ProcEvent::Exit => exit(alloc, key, columns),
    }
}

/// What loading a trust cache answers.
fn load_module(alloc: Global, key: ReplyWord, columns: &[&[u8]]) -> Result<TrustReply, Unread>
    ensures { Gives result (load_module_row key (texts columns.now)) }
{
    match key {
        ReplyWord::Refused => Ok(TrustReply::Refused(only_refusal(alloc, columns)?)),
        ReplyWord::Full => {
            let limit = only_limit(64, columns)?;
            Ok(TrustReply::Full { limit })
        }
        ReplyWord::Loaded => {
            let module = only_short(columns)?;
            Ok(TrustReply::Loaded { module })
        }
        _ => Err(Unread::OtherForm),
    }
}

/// `listed M PLACE`
fn listed(columns: &[&[u8]]) -> Result<TrustReply, Unread>
    ensures { Gives result (listed.says (texts columns.now)) }
{
    let [module, place] = columns else {
        return Err(Unread::OtherForm);
    };
    let module = said(short_number(module))?;
    let place = said(number(place))?;
    Ok(TrustReply::Listed { module, place })
}

/// What looking a cdhash up answers.
fn lookup(key: ReplyWord, columns: &[&[u8]]) -> Result<TrustReply, Unread>
    ensures { Gives result (lookup_row key (texts columns.now)) }
{
    match key {
        ReplyWord::Listed => listed(columns),
        ReplyWord::Unlisted => plain(columns, TrustReply::Unlisted),
        _ => Err(Unread::OtherForm),
    }
}

/// What the trust list answers to an event.
pub fn trust_reply(
    alloc: Global,
    event: &TrustEvent,
    key: ReplyWord,
    columns: &[&[u8]],
) -> Result<TrustReply, Unread>
    ensures { Gives result (trust_reply_row event.now key (texts columns.now)) }
{
    match event {
        TrustEvent::LoadModule { .. } => load_module(alloc, key, columns),
        TrustEvent::Lookup { .. } => lookup(key, columns),
    }
}
