//! What the words of replies say.

ghost use Rattle.std.specs.Prelude.{None, option_map};
ghost use Rattle.cs_policy.specs.declared.file.FileReply.TheVariants as file;
ghost use Rattle.pg_words.specs.Lines.{texts};
ghost use Rattle.pg_words.specs.Rows.{row0, row1, row2, row4};
ghost use Rattle.pg_report.specs.Forms.{short, long, refusal_form, flags_form, process_form};
ghost use Rattle.pg_report.specs.Denials.{writable_shared, mismatch, denial_row, denial_of, violation_of};
ghost use Rattle.pg_report.specs.ReplyTable.{victim_of, given_of};
ghost use Rattle.pg_report.specs.ReplyRows.{enter_row};
ghost use Rattle.pg_report.specs.Gives.{Gives};

use crate::event_lines::{only_long, only_short};
use crate::forms::{Unread, digest, refusal, said};
use crate::words::{DenialWord, ReplyWord, denial_word};
use cs_policy::{Denial, FileReply, Refusal};
use pg_words::{is_text, number, short_number};
use std::alloc::Global;

/// A refusal as the only column.
pub fn only_refusal(alloc: Global, columns: &[&[u8]]) -> Result<Refusal, Unread>
    ensures { Gives result (row1 refusal_form (λ r. r) (texts columns.now)) }
{
    let [word] = columns else {
        return Err(Unread::OtherForm);
    };
    refusal(alloc, word)
}

/// `writableshared PAGE REGION`
fn writable_shared(columns: &[&[u8]]) -> Result<Denial, Unread>
    ensures { Gives result (writable_shared.says (texts columns.now)) }
{
    let [page, region] = columns else {
        return Err(Unread::OtherForm);
    };
    let page = said(number(page))?;
    let region = said(short_number(region))?;
    Ok(Denial::WritableShared { page, region })
}

/// `mismatch PAGE SLOT FOUND WANTED`
fn mismatch(alloc: Global, columns: &[&[u8]]) -> Result<Denial, Unread>
    ensures { Gives result (mismatch.says (texts columns.now)) }
{
    let [page, slot, found, wanted] = columns else {
        return Err(Unread::OtherForm);
    };
    let page = said(number(page))?;
    let slot = said(number(slot))?;
    let found = digest(alloc, found)?;
    let wanted = digest(alloc, wanted)?;
    Ok(Denial::Mismatch {
        page,
        slot,
        found,
        wanted,
    })
}

/// What the words behind the first one say, of a denial.
fn denial_columns(alloc: Global, key: DenialWord, columns: &[&[u8]]) -> Result<Denial, Unread>
    ensures { Gives result (denial_row key (texts columns.now)) }
{
    match key {
        DenialWord::PrivateCopy => {
            let page = only_long(columns)?;
            Ok(Denial::PrivateCopy { page })
        }
        DenialWord::Unsigned => {
            let page = only_long(columns)?;
            Ok(Denial::Unsigned { page })
        }
        DenialWord::BeyondLimit => {
            let page = only_long(columns)?;
            Ok(Denial::BeyondLimit { page })
        }
        DenialWord::WritableShared => writable_shared(columns),
        DenialWord::Mismatch => mismatch(alloc, columns),
        DenialWord::SealedWrite => {
            let page = only_long(columns)?;
            Ok(Denial::SealedWrite { page })
        }
    }
}

/// What the words of a denial say.
#[tactic(auto, unfolding(crate::specs::Denials::denial_of))]
fn denial(alloc: Global, words: &[&[u8]]) -> Result<Denial, Unread>
    ensures { Gives result (denial_of (texts words.now)) }
{
    let [word, columns @ ..] = words else {
        return Err(Unread::OtherForm);
    };
    denial_columns(alloc, said(denial_word(word))?, columns)
}

/// The rule that is broken, if there is one.
#[tactic(auto, unfolding(crate::specs::Denials::violation_of))]
fn violation(alloc: Global, words: &[&[u8]]) -> Result<Option<Denial>, Unread>
    ensures { Gives result (violation_of (texts words.now)) }
{
    let [word, columns @ ..] = words else {
        return Ok(None);
    };
    if is_text(word, b"violation") {
        Ok(Some(denial(alloc, columns)?))
    } else {
        Err(Unread::OtherForm)
    }
}

/// The page that left memory, and the rule that is broken.
#[tactic(auto, unfolding(crate::specs::ReplyTable::victim_of))]
fn victim(alloc: Global, words: &[&[u8]]) -> Result<FileReply, Unread>
    ensures { Gives result (victim_of (texts words.now)) }
{
    let [page, columns @ ..] = words else {
        return Err(Unread::OtherForm);
    };
    let page = said(number(page))?;
    let violation = violation(alloc, columns)?;
    Ok(FileReply::Given {
        victim: Some(page),
        violation,
    })
}

/// An access that was given without a victim.
fn no_victim(alloc: Global, words: &[&[u8]]) -> Result<FileReply, Unread>
    ensures { Gives result (option_map (λ violation. file.Given None violation)
        (violation_of (texts words.now))) }
{
    let violation = violation(alloc, words)?;
    Ok(FileReply::Given {
        victim: None,
        violation,
    })
}

/// What the words behind `given` say.
#[tactic(auto, unfolding(crate::specs::ReplyTable::given_of, crate::specs::Denials::violation_of))]
fn given(alloc: Global, words: &[&[u8]]) -> Result<FileReply, Unread>
    ensures { Gives result (given_of (texts words.now)) }
{
    match words {
        [word, columns @ ..] if is_text(word, b"victim") => victim(alloc, columns),
        _ => no_victim(alloc, words),
    }
}

/// What a fault answers.
pub fn enter(alloc: Global, key: ReplyWord, columns: &[&[u8]]) -> Result<FileReply, Unread>
    ensures { Gives result (enter_row key (texts columns.now)) }
{
    match key {
        ReplyWord::NoRegion => {
            let id = only_short(columns)?;
            Ok(FileReply::NoRegion { id })
        }
        ReplyWord::Denied => Ok(FileReply::Denied(denial(alloc, columns)?)),
        ReplyWord::PagerFault => {
            let page = only_long(columns)?;
            Ok(FileReply::PagerFault { page })
        }
        ReplyWord::Given => given(alloc, columns),
        _ => Err(Unread::OtherForm),
    }
}
