//! Printing a history.

ghost use Rattle.std.specs.Prelude.{◌≡◌, ◌++◌, ◌∷◌, [], OnOk, IfOk, count_by, decimal, codes};
ghost use Rattle.std.specs.List.{flat_map};
ghost use Rattle.pg_words.specs.Lines.{spaced};
ghost use Rattle.pg_report.specs.Replies.{read_count};
ghost use Rattle.pg_report.specs.Forms.{who_text, place_text};
ghost use Rattle.pg_report.specs.Journal.{entry_text, stamped_text, is_given, is_denied, summary_text};
ghost use Rattle.pg_report.specs.Journal as texts;

use crate::event_words::add_event;
use crate::reply_words::add_reply;
use cs_policy::{Entry, FileReply, Place, Reply, Who};
use pg_book::Stamped;
use pg_words::{add_name, put, put_number};
use std::alloc::{AllocError, Global};

/// The worker and its call.
fn add_who(text: &mut Vec<u8>, who: Who) -> Result<(), AllocError>
    ensures { OnOk result (text.new.items ≡ text.old.items ++ 32 ∷ who_text who) }
{
    put(text, b" ")?;
    put_number(text, u64::from(who.worker))?;
    put(text, b".")?;
    put_number(text, u64::from(who.call))
}

/// The part.
fn add_place(text: &mut Vec<u8>, place: Place) -> Result<(), AllocError>
    ensures { OnOk result (text.new.items ≡ text.old.items ++ 32 ∷ place_text place) }
{
    match place {
        Place::File(file) => add_name(text, b'f', file),
        Place::Process(pid) => add_name(text, b'p', pid),
        Place::Trust => put(text, b" t"),
    }
}

/// What stands before the event.
fn put_seat(text: &mut Vec<u8>, stamp: u64, who: Who, place: Place) -> Result<(), AllocError>
    ensures { OnOk result (text.new.items ≡
        text.old.items ++ (decimal stamp ++ spaced (who_text who ∷ place_text place ∷ []))) }
{
    put_number(text, stamp)?;
    add_who(text, who)?;
    add_place(text, place)
}

/// The line of an event.
#[tactic(auto, using(crate::proofs::EntryFacts::entry_made))]
fn put_entry(alloc: Global, text: &mut Vec<u8>, stamp: u64, entry: &Entry) -> Result<(), AllocError>
    ensures { OnOk result (text.new.items ≡
        text.old.items ++ entry_text stamp (read_count entry.now.reply) entry.now) }
{
    put_seat(text, stamp, entry.who, entry.place)?;
    add_event(alloc, text, &entry.event)?;
    put(text, b" ->")?;
    add_reply(alloc, text, &entry.reply)?;
    put(text, b"\n")
}

/// Whether a reply gives an access.
pub fn is_given(reply: &Reply) -> bool
    ensures { result ≡ is_given reply.now }
{
    matches!(reply, Reply::File(FileReply::Given { .. }))
}

/// Whether a reply denies an access.
pub fn is_denied(reply: &Reply) -> bool
    ensures { result ≡ is_denied reply.now }
{
    matches!(reply, Reply::File(FileReply::Denied(_)))
}

/// How many accesses were given.
fn given(history: &[Stamped<Entry>]) -> usize
    ensures { result ≡ count_by (λ s. is_given s.entry.reply) history.now }
{
    let mut count = 0;
    for stamped in history {
        if is_given(&stamped.entry.reply) {
            count += 1;
        }
    }
    count
}

/// How many accesses were denied.
fn denied(history: &[Stamped<Entry>]) -> usize
    ensures { result ≡ count_by (λ s. is_denied s.entry.reply) history.now }
{
    let mut count = 0;
    for stamped in history {
        if is_denied(&stamped.entry.reply) {
            count += 1;
        }
    }
    count
}

/// A line that counts something.
fn put_counted(text: &mut Vec<u8>, word: &[u8], count: u64) -> Result<(), AllocError>
    ensures { OnOk result (text.new.items ≡ text.old.items ++ (word.now ++ (decimal count ++ codes "\n"))) }
{
    put(text, word)?;
    put_number(text, count)?;
    put(text, b"\n")
}

/// The lines that sum up a history.
#[tactic(auto, unfolding(crate::specs::Journal::summary))]
fn put_summary(text: &mut Vec<u8>, history: &[Stamped<Entry>], calls: u64) -> Result<(), AllocError>
    ensures { OnOk result (text.new.items ≡ text.old.items ++ texts.summary history.now calls) }
{
    put_counted(text, b"events ", history.len() as u64)?;
    put_counted(text, b"calls ", calls)?;
    put_counted(text, b"given ", given(history) as u64)?;
    put_counted(text, b"denied ", denied(history) as u64)
}

/// The lines of the events.
fn put_entries(
    alloc: Global,
    text: &mut Vec<u8>,
    history: &[Stamped<Entry>],
) -> Result<(), AllocError>
    ensures { OnOk result (text.new.items ≡ text.old.items ++ flat_map stamped_text history.now) }
{
    for stamped in history {
        put_entry(alloc, text, stamped.stamp, &stamped.entry)?;
    }
    Ok(())
}

/// The journal of a history of so many calls: one line for each event, in their order, and then the four lines of
/// `summary`. An event's line is `STAMP WORKER.CALL PART EVENT -> REPLY`. It keeps everything but the bytes of a
/// signature that was read, of which it tells the number, and the number of pages of a file that was mapped. Each line
/// ends by LF. The only error is want of memory.
#[tactic(auto, unfolding(crate::specs::Journal::journal))]
pub fn journal(alloc: Global, history: &[Stamped<Entry>], calls: u64) -> Result<Vec<u8>, AllocError>
    ensures { IfOk result (λ text. text.items ≡ texts.journal history.now calls) }
{
    let mut text = Vec::new(alloc);
    put_entries(alloc, &mut text, history)?;
    put_summary(&mut text, history, calls)?;
    Ok(text)
}

/// The four lines `events N`, `calls N`, `given N` and `denied N` that sum up a history of so many calls. The only error
/// is want of memory.
pub fn summary(alloc: Global, history: &[Stamped<Entry>], calls: u64) -> Result<Vec<u8>, AllocError>
    ensures { IfOk result (λ text. text.items ≡ texts.summary history.now calls) }
{
    let mut text = Vec::new(alloc);
    put_summary(&mut text, history, calls)?;
    Ok(text)
}
