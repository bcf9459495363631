//! What the words of replies of files say, each behind its event.

ghost use Rattle.pg_words.specs.Lines.{texts};
ghost use Rattle.pg_report.specs.ReplyTable.{got};
ghost use Rattle.pg_report.specs.ReplyRows.{signature_row, blob_row, refuse_row, write_row, region_row, drop_row, drop_all_row, store_row, load_row, evict_row, file_reply_row};
ghost use Rattle.pg_report.specs.Gives.{Gives};

use crate::event_lines::{only_long, only_short, plain};
use crate::forms::{Unread, stored};
use crate::reply_lines::{enter, only_refusal};
use crate::words::ReplyWord;
use cs_policy::{FileEvent, FileReply};
use pg_bytes::Octets;
use std::alloc::Global;

/// What reading a signature answers, and how many bytes were read.
fn signature(alloc: Global, key: ReplyWord, columns: &[&[u8]]) -> Result<(FileReply, u64), Unread>
    ensures { Gives result (signature_row key (texts columns.now)) }
{
    match key {
        ReplyWord::NoSlices => Ok((FileReply::NoSlices(only_refusal(alloc, columns)?), 0)),
        ReplyWord::NoSlice => {
            let count = only_short(columns)?;
            Ok((FileReply::NoSlice { count }, 0))
        }
        ReplyWord::NoImage => Ok((FileReply::NoImage(only_refusal(alloc, columns)?), 0)),
        ReplyWord::PagerFault => {
            let page = only_long(columns)?;
            Ok((FileReply::PagerFault { page }, 0))
        }
        ReplyWord::Read => {
            let read = only_long(columns)?;
            let bytes = Octets::new(Vec::new(alloc));
            Ok((FileReply::Read { bytes }, read))
        }
        _ => Err(Unread::OtherForm),
    }
}

/// What attaching a signature answers.
fn blob(key: ReplyWord, columns: &[&[u8]]) -> Result<FileReply, Unread>
    ensures { Gives result (blob_row key (texts columns.now)) }
{
    match key {
        ReplyWord::Already => {
            let blob = only_short(columns)?;
            Ok(FileReply::Already { blob })
        }
        ReplyWord::Overlap => {
            let blob = only_short(columns)?;
            Ok(FileReply::Overlap { blob })
        }
        ReplyWord::Attached => {
            let blob = only_short(columns)?;
            Ok(FileReply::Attached { blob })
        }
        _ => Err(Unread::OtherForm),
    }
}

/// What a refused signature answers.
fn refuse(key: ReplyWord, columns: &[&[u8]]) -> Result<FileReply, Unread>
    ensures { Gives result (refuse_row key (texts columns.now)) }
{
    match key {
        ReplyWord::Noted => plain(columns, FileReply::Noted),
        _ => Err(Unread::OtherForm),
    }
}

/// What a write answers.
fn write(key: ReplyWord, columns: &[&[u8]]) -> Result<FileReply, Unread>
    ensures { Gives result (write_row key (texts columns.now)) }
{
    match key {
        ReplyWord::PastEnd => {
            let length = only_long(columns)?;
            Ok(FileReply::PastEnd { length })
        }
        ReplyWord::Short => {
            let written = only_long(columns)?;
            Ok(FileReply::Short { written })
        }
        ReplyWord::Written => {
            let count = only_long(columns)?;
            Ok(FileReply::Written { count })
        }
        _ => Err(Unread::OtherForm),
    }
}

/// What adding a region answers.
fn add_region(key: ReplyWord, columns: &[&[u8]]) -> Result<FileReply, Unread>
    ensures { Gives result (region_row key (texts columns.now)) }
{
    match key {
        ReplyWord::Added => plain(columns, FileReply::Added),
        _ => Err(Unread::OtherForm),
    }
}

/// What dropping a region answers.
fn drop_region(key: ReplyWord, columns: &[&[u8]]) -> Result<FileReply, Unread>
    ensures { Gives result (drop_row key (texts columns.now)) }
{
    match key {
        ReplyWord::NoRegion => {
            let id = only_short(columns)?;
            Ok(FileReply::NoRegion { id })
        }
        ReplyWord::Dropped => plain(columns, FileReply::Dropped),
        _ => Err(Unread::OtherForm),
    }
}

/// What dropping all regions of a process answers.
fn drop_pid(key: ReplyWord, columns: &[&[u8]]) -> Result<FileReply, Unread>
    ensures { Gives result (drop_all_row key (texts columns.now)) }
{
    match key {
        ReplyWord::Dropped => {
            let count = only_short(columns)?;
            Ok(FileReply::DroppedAll { count })
        }
        _ => Err(Unread::OtherForm),
    }
}

/// What a store answers.
fn store(key: ReplyWord, columns: &[&[u8]]) -> Result<FileReply, Unread>
    ensures { Gives result (store_row key (texts columns.now)) }
{
    match key {
        ReplyWord::NotMapped => plain(columns, FileReply::NotMapped),
        ReplyWord::Stored => plain(columns, FileReply::Stored),
        _ => Err(Unread::OtherForm),
    }
}

/// The bytes of a load or a fetch.
fn bytes(alloc: Global, columns: &[&[u8]]) -> Result<FileReply, Unread>
    ensures { Gives result (got.says (texts columns.now)) }
{
    let [word] = columns else {
        return Err(Unread::OtherForm);
    };
    let bytes = stored(alloc, word)?;
    Ok(FileReply::Got { bytes })
}

/// What a load or a fetch answers.
fn load(alloc: Global, key: ReplyWord, columns: &[&[u8]]) -> Result<FileReply, Unread>
    ensures { Gives result (load_row key (texts columns.now)) }
{
    match key {
        ReplyWord::NotMapped => plain(columns, FileReply::NotMapped),
        ReplyWord::Bytes => bytes(alloc, columns),
        _ => Err(Unread::OtherForm),
    }
}

/// What an eviction answers.
fn evict(key: ReplyWord, columns: &[&[u8]]) -> Result<FileReply, Unread>
    ensures { Gives result (evict_row key (texts columns.now)) }
{
    match key {
        ReplyWord::NotResident => plain(columns, FileReply::NotResident),
        ReplyWord::PagerFault => {
            let page = only_long(columns)?;
            Ok(FileReply::PagerFault { page })
        }
        ReplyWord::Evicted => plain(columns, FileReply::Evicted),
        _ => Err(Unread::OtherForm),
    }
}

/// What a file answers to an event, and how many bytes of a signature were read.
pub fn file_reply(
    alloc: Global,
    event: &FileEvent,
    key: ReplyWord,
    columns: &[&[u8]],
) -> Result<(FileReply, u64), Unread>
    ensures { Gives result (file_reply_row event.now key (texts columns.now)) }
{
    match event {
        FileEvent::ReadSignature { .. } => signature(alloc, key, columns),
        FileEvent::AddBlob { .. } => Ok((blob(key, columns)?, 0)),
        FileEvent::RefuseBlob { .. } => Ok((refuse(key, columns)?, 0)),
        FileEvent::Write { .. } => Ok((write(key, columns)?, 0)),
        FileEvent::AddRegion { .. } => Ok((add_region(key, columns)?, 0)),
        FileEvent::DropRegion { .. } => Ok((drop_region(key, columns)?, 0)),
        FileEvent::DropPid { .. } => Ok((drop_pid(key, columns)?, 0)),
        FileEvent::Enter { .. } => Ok((enter(alloc, key, columns)?, 0)),
        FileEvent::Store { .. } => Ok((store(key, columns)?, 0)),
        FileEvent::Load { .. } => Ok((load(alloc, key, columns)?, 0)),
        FileEvent::Fetch { .. } => Ok((load(alloc, key, columns)?, 0)),
        FileEvent::Evict { .. } => Ok((evict(key, columns)?, 0)),
    }
}
