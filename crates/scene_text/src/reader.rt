//! Reading one line of a scene.

ghost use Rattle.std.specs.Prelude.{◌≡◌, true, false, IfOk};
ghost use Rattle.pg_words.specs.Lines.{texts};
ghost use Rattle.scene_text.specs.Lines.{is_head_misplaced, head_of, call_of, said_of, line_of};
ghost use Rattle.scene_text.specs.Results.{Gives, IsPlaced};

use crate::call_lines::read_call;
use crate::checks::{NOT_TEXT, PLACE, Refused, UNKNOWN_WORD, WORDS};
use crate::head::Head;
use crate::header_lines::read_head;
use crate::keywords::{CallWord, HeadWord, Keyword, first_word};
use crate::line::{Known, Line};
use cs_policy::Call;
use pg_words::{is_plain, words_of};
use std::alloc::Global;

/// Whether a header line may not stand here.
fn is_head_misplaced(known: &Known, key: HeadWord) -> bool
    ensures { result ≡ is_head_misplaced known.now key }
{
    known.script
        || match key {
            HeadWord::PageSize => known.sized,
            HeadWord::Resident => known.limited,
            HeadWord::Policy => known.adhoc,
            _ => false,
        }
}

/// What a header line says.
#[tactic(auto, unfolding(crate::specs::Lines::head_of))]
fn head_line(
    alloc: Global,
    known: &Known,
    key: HeadWord,
    columns: &[&[u8]],
) -> Result<Head, Refused>
    ensures value { Gives result (head_of known.now key (texts columns.now)) }
    ensures placed { IfOk result (λ _. known.now.script ≡ false) }
{
    if is_head_misplaced(known, key) {
        return Err(Refused::Kind(PLACE));
    }
    if columns.len() != key.columns() {
        return Err(Refused::Kind(WORDS));
    }
    read_head(alloc, known, key, columns)
}

/// What a call line says.
#[tactic(auto, unfolding(crate::specs::Lines::call_of))]
fn call_line(
    alloc: Global,
    known: &Known,
    key: CallWord,
    columns: &[&[u8]],
) -> Result<Call, Refused>
    ensures value { Gives result (call_of known.now key (texts columns.now)) }
    ensures placed { IfOk result (λ _. known.now.script ≡ true) }
{
    if !known.script {
        return Err(Refused::Kind(PLACE));
    }
    if columns.len() != key.columns() {
        return Err(Refused::Kind(WORDS));
    }
    read_call(alloc, known, key, columns)
}

/// What the words of a line say.
fn line_of_words(alloc: Global, known: &Known, words: &[&[u8]]) -> Result<Line, Refused>
    ensures value { Gives result (said_of known.now (texts words.now)) }
    ensures placed { IfOk result (IsPlaced known.now) }
{
    let [word, columns @ ..] = words else {
        return Err(Refused::Kind(UNKNOWN_WORD));
    };
    match first_word(word) {
        None => Err(Refused::Kind(UNKNOWN_WORD)),
        Some(Keyword::Head(key)) => Ok(Line::Head(head_line(alloc, known, key, columns)?)),
        Some(Keyword::Script) if columns.is_empty() => Ok(Line::Script),
        Some(Keyword::Script) => Err(Refused::Kind(WORDS)),
        Some(Keyword::Call(key)) => Ok(Line::Call(call_line(alloc, known, key, columns)?)),
    }
}

/// What a line says behind lines that have declared so much.
#[tactic(auto, unfolding(crate::specs::Lines::line_of))]
pub fn line_of(alloc: Global, known: &Known, text: &[u8]) -> Result<Line, Refused>
    ensures value { Gives result (line_of known.now text.now) }
    ensures placed { IfOk result (IsPlaced known.now) }
{
    if !is_plain(text) {
        return Err(Refused::Kind(NOT_TEXT));
    }
    let words = words_of(alloc, text)?;
    line_of_words(alloc, known, words.as_slice())
}
