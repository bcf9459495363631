//! Reading a journal.

ghost use Rattle.std.specs.Prelude.{◌≡◌, ◌<◌, ◌^◌, [], length, count_by, option_map, Ok};
ghost use Rattle.pg_words.specs.Lines.{texts, lines_of, words_of};
ghost use Rattle.pg_report.specs.Journal.{is_given, is_denied};
ghost use Rattle.pg_report.specs.Reading.{at_arrow, line_said, line_of, counted, is_wanted, sum_line, last_sums, sums_of, sums, said_behind, said};
ghost use Rattle.pg_report.specs.Gives.{Gives};
ghost use Rattle.pg_report.specs.Answers.{Reads};
ghost use Rattle.pg_report.specs.Grammar.{ReadsJournal, ReadsAgain};

use crate::event_lines::event;
use crate::forms::{Unread, place, said, who};
use crate::journal_text::{is_denied, is_given};
use crate::line::{JournalFail, Line};
use crate::replies::reply;
use cs_policy::Entry;
use pg_words::{cut, is_text, number, words_of};
use std::alloc::Global;

/// The words before the first arrow, and those behind it.
fn at_arrow<'a, 'b>(words: &'a [&'b [u8]]) -> Option<(&'a [&'b [u8]], &'a [&'b [u8]])>
    ensures { option_map (λ halves. (texts halves.0.now, texts halves.1.now)) result ≡ at_arrow (texts words.now) }
{
    for (i, word) in words.iter().enumerate() {
        if is_text(word, b"->") {
            return Some((&words[..i], &words[i + 1..]));
        }
    }
    None
}

/// What the words of an event's line say, where its stamp is due.
#[tactic(auto, unfolding(crate::specs::Reading::line_said))]
fn line_of_words(alloc: Global, due: u64, words: &[&[u8]]) -> Result<Line, Unread>
    ensures { Gives result (line_said due (texts words.now)) }
{
    let [stamp, who_word, place_word, words @ ..] = words else {
        return Err(Unread::OtherForm);
    };
    let stamp = said(number(stamp))?;
    let who = who(alloc, who_word)?;
    let place = said(place(place_word))?;
    let (event_words, reply_words) = said(at_arrow(words))?;
    let event = event(alloc, place, event_words)?;
    let (reply, read) = reply(alloc, &event, reply_words)?;
    if stamp != due {
        return Err(Unread::OtherForm);
    }
    Ok(Line {
        stamp,
        entry: Entry {
            who,
            place,
            event,
            reply,
        },
        read,
    })
}

/// What an event's line says, where its stamp is due.
fn line_of(alloc: Global, due: u64, text: &[u8]) -> Result<Line, Unread>
    ensures { Gives result (line_of due text.now) }
{
    let words = words_of(alloc, text)?;
    line_of_words(alloc, due, words.as_slice())
}

/// How many accesses were given.
fn given(lines: &[Line]) -> usize
    ensures { result ≡ count_by (λ l. is_given l.entry.reply) lines.now }
{
    let mut count = 0;
    for line in lines {
        if is_given(&line.entry.reply) {
            count += 1;
        }
    }
    count
}

/// How many accesses were denied.
fn denied(lines: &[Line]) -> usize
    ensures { result ≡ count_by (λ l. is_denied l.entry.reply) lines.now }
{
    let mut count = 0;
    for line in lines {
        if is_denied(&line.entry.reply) {
            count += 1;
        }
    }
    count
}

/// The number behind a word, on a line of these two.
fn counted(alloc: Global, word: &[u8], line: &[u8]) -> Result<Option<u64>, JournalFail>
    ensures { Reads (λ n. n) result (Ok (counted word.now (words_of line.now))) }
{
    let words = words_of(alloc, line)?;
    let [first, digits] = words.as_slice() else {
        return Ok(None);
    };
    if is_text(first, word) {
        Ok(number(digits))
    } else {
        Ok(None)
    }
}

/// Whether a number is the one that is wanted, if one is.
fn is_wanted(wanted: Option<u64>, number: u64) -> bool
    ensures { result ≡ is_wanted wanted number }
{
    match wanted {
        Some(wanted) => number == wanted,
        None => true,
    }
}

/// The number of the first line, which LF ends and which has this word before the number, and the text behind it.
#[tactic(auto, using(crate::proofs::EndFacts::ended_lines), unfolding(crate::specs::Reading::sum_line))]
fn sum_line<'a>(
    alloc: Global,
    at: u64,
    word: &[u8],
    wanted: Option<u64>,
    text: &'a [u8],
) -> Result<(u64, &'a [u8]), JournalFail>
    ensures { Reads (λ sum. (sum.0, lines_of sum.1.now)) result (sum_line at word.now wanted (lines_of text.now)) }
{
    let (line, behind) = cut(text);
    let Some(rest) = behind else {
        return Err(JournalFail::Bad { line: at });
    };
    match counted(alloc, word, line)? {
        Some(number) if is_wanted(wanted, number) => Ok((number, rest)),
        _ => Err(JournalFail::Bad { line: at }),
    }
}

/// The lines that count what was given and denied, and nothing behind them.
#[tactic(auto, using(crate::proofs::EndFacts::is_end_lines), unfolding(crate::specs::Reading::last_sums))]
fn last_sums(
    alloc: Global,
    events: u64,
    given: u64,
    denied: u64,
    text: &[u8],
) -> Result<(), JournalFail>
    requires { events < 2 ^ 63 }
    ensures { Reads (λ x. x) result (last_sums events given denied (lines_of text.now)) }
{
    let (_, behind) = sum_line(alloc, events + 3, b"given", Some(given), text)?;
    let (_, behind) = sum_line(alloc, events + 4, b"denied", Some(denied), behind)?;
    if behind.is_empty() {
        Ok(())
    } else {
        Err(JournalFail::Bad { line: events + 5 })
    }
}

/// The lines that sum up so many events: the number of calls.
#[tactic(auto, unfolding(crate::specs::Reading::sums_of))]
fn sums_of(
    alloc: Global,
    events: u64,
    given: u64,
    denied: u64,
    text: &[u8],
) -> Result<u64, JournalFail>
    requires { events < 2 ^ 63 }
    ensures { Reads (λ calls. calls) result (sums_of events given denied (lines_of text.now)) }
{
    let (_, behind) = sum_line(alloc, events + 1, b"events", Some(events), text)?;
    let (calls, behind) = sum_line(alloc, events + 2, b"calls", None, behind)?;
    last_sums(alloc, events, given, denied, behind)?;
    Ok(calls)
}

/// The lines that sum up what stands above, and nothing behind them: the number of calls.
#[tactic(auto, unfolding(crate::specs::Reading::sums))]
fn sums(alloc: Global, lines: &[Line], text: &[u8]) -> Result<u64, JournalFail>
    requires { length lines.now < 2 ^ 63 }
    ensures { Reads (λ calls. (lines.now, calls)) result (sums lines.now (lines_of text.now)) }
{
    let given = given(lines) as u64;
    let denied = denied(lines) as u64;
    sums_of(alloc, lines.len() as u64, given, denied, text)
}

/// How many lines there are.
fn count(lines: &[Line]) -> u64
    ensures value { result ≡ length lines.now }
    ensures few { result < 2 ^ 63 }
{
    lines.len() as u64
}

/// The lines of a journal, and the number of its `calls` line.
fn read_lines(alloc: Global, text: &[u8]) -> Result<(Vec<Line>, u64), JournalFail>
    ensures { Reads (λ journal. (journal.0.items, journal.1)) result (said_behind [] (lines_of text.now)) }
{
    let mut lines = Vec::new(alloc);
    let mut rest = text;
    'events: loop {
        let (line, behind) = cut(rest);
        let due = count(&lines);
        let Some(more) = behind else {
            return Err(JournalFail::Bad { line: due + 1 });
        };
        match line_of(alloc, due, line) {
            Ok(line) => {
                lines.push(line)?;
                rest = more;
            }
            Err(Unread::NoMemory) => return Err(JournalFail::NoMemory),
            Err(Unread::OtherForm) => {
                let calls = sums(alloc, &lines, rest)?;
                return Ok((lines, calls));
            }
        }
    }
}

/// The lines of a journal by its grammar.
#[tactic(auto, unfolding(crate::specs::Reading::said))]
fn read_text(alloc: Global, text: &[u8]) -> Result<(Vec<Line>, u64), JournalFail>
    ensures said { Reads (λ journal. (journal.0.items, journal.1)) result (said text.now) }
    ensures short { length text.now < 2 ^ 64 }
{
    read_lines(alloc, text)
}

/// The lines of a whole journal and the number of its `calls` line.
///
/// A journal is one line for each event, in the form of its event and of a reply that the event can have, with its
/// place counted from 0 as its stamp; then the four lines `events N`, `calls N`, `given N` and `denied N`, which count
/// them. Each line ends by LF. `Bad` tells the first line that no journal has there: one that is missing, or that LF
/// does not end, is bad at its number.
pub fn read_journal(alloc: Global, text: &[u8]) -> Result<(Vec<Line>, u64), JournalFail>
    ensures exact { ReadsJournal (λ journal. (journal.0.items, journal.1)) result text.now }
    ensures read_again { ReadsAgain (λ journal. (journal.0.items, journal.1)) result text.now }
{
    read_text(alloc, text)
}
