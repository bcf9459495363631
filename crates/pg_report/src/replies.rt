//! What the words of a reply say, behind its event.

ghost use Rattle.pg_words.specs.Lines.{texts};
ghost use Rattle.pg_report.specs.ReplyRows.{reply_row, reply_of};
ghost use Rattle.pg_report.specs.Gives.{Gives};

use crate::file_replies::file_reply;
use crate::forms::{Unread, said};
use crate::process_replies::{proc_reply, trust_reply};
use crate::words::{ReplyWord, reply_word};
use cs_policy::{Event, Reply};
use std::alloc::Global;

/// What the words behind the first one say, and how many bytes of a signature were read.
fn reply_columns(
    alloc: Global,
    event: &Event,
    key: ReplyWord,
    columns: &[&[u8]],
) -> Result<(Reply, u64), Unread>
    ensures { Gives result (reply_row event.now key (texts columns.now)) }
{
    match event {
        Event::File(event) => {
            let (reply, read) = file_reply(alloc, event, key, columns)?;
            Ok((Reply::File(reply), read))
        }
        Event::Proc(event) => Ok((Reply::Proc(proc_reply(alloc, event, key, columns)?), 0)),
        Event::Trust(event) => Ok((Reply::Trust(trust_reply(alloc, event, key, columns)?), 0)),
    }
}

/// What the words of a reply say, and how many bytes of a signature were read.
#[tactic(auto, unfolding(crate::specs::ReplyRows::reply_of))]
pub fn reply(alloc: Global, event: &Event, words: &[&[u8]]) -> Result<(Reply, u64), Unread>
    ensures { Gives result (reply_of event.now (texts words.now)) }
{
    let [word, columns @ ..] = words else {
        return Err(Unread::OtherForm);
    };
    reply_columns(alloc, event, said(reply_word(word))?, columns)
}
