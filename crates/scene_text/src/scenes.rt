//! Reading a scene, line by line.

ghost use Rattle.std.specs.Prelude.{◌≡◌, ◌+◌, [], OnOk, IfOk};
ghost use Rattle.scene_text.specs.declared.whole.Scene.{Scene};
ghost use Rattle.pg_words.specs.Cut.{lines_behind};
ghost use Rattle.scene_text.specs.Texts.{is_skipped, said_behind, said};
ghost use Rattle.scene_text.specs.Written.{IsWritten, ReadsScene};
ghost use Rattle.scene_text.specs.Drafts.{IsWhole, IsPlacedBy, IsBehind, Takes, IsDrafted};
ghost use Rattle.scene_text.specs.Results.{Reads, IsRead, ReadsPrinted};

use crate::checks::{FIRST_LINE, NOT_TEXT, Refused};
use crate::draft::Draft;
use crate::line::{Known, Line};
use crate::reader::line_of;
use crate::whole::{Scene, SceneFail};
use pg_words::{cut, is_plain, is_text};
use std::alloc::{AllocError, Global};

/// Whether a line is skipped: an empty one, or a comment.
fn is_skipped(line: &[u8]) -> bool
    ensures { result ≡ is_skipped line.now }
{
    match line {
        [] => true,
        [first, ..] => *first == b'#',
    }
}

/// One more line, behind those that were read.
fn add_line(alloc: Global, draft: &mut Draft, line: Line) -> Result<(), AllocError>
    requires placed { IsPlacedBy draft.old.begun line }
    requires whole { IsWhole draft.old }
    ensures { OnOk result (IsBehind draft.old line draft.new) }
{
    match line {
        Line::Head(head) => draft.add_head(head),
        Line::Script => draft.begin(alloc),
        Line::Call(call) => draft.add_call(call),
    }
}

/// The line with this number, which is not skipped.
fn take_line(
    alloc: Global,
    draft: &mut Draft,
    known: &Known,
    number: u64,
    text: &[u8],
) -> Result<Known, SceneFail>
    requires whole { IsWhole draft.old }
    requires begun { draft.old.begun ≡ known.now.script }
    ensures { Takes draft.old known.now text.now number draft.new result }
{
    let line = match line_of(alloc, known, text) {
        Ok(line) => line,
        Err(Refused::NoMemory) => return Err(SceneFail::NoMemory),
        Err(Refused::Kind(kind)) => return Err(SceneFail::Bad { line: number, kind }),
    };
    let after = known.after(&line)?;
    add_line(alloc, draft, line)?;
    Ok(after)
}

/// The number of the next line. So many lines that 64 bits do not count them do not fit into memory.
fn next(number: u64) -> Result<u64, AllocError>
    ensures { IfOk result (λ n. n ≡ number + 1) }
{
    number.checked_add(1).ok_or(AllocError)
}

/// The lines behind the first one.
fn read_lines(alloc: Global, behind: Option<&[u8]>) -> Result<Draft, SceneFail>
    ensures { IsDrafted result (said_behind [] 2 (lines_behind behind.entry)) }
{
    let mut draft = Draft::new(alloc);
    let mut known = Known::nothing();
    let mut number = 1_u64;
    let mut rest = behind;
    'lines: while let Some(text) = rest {
        let (line, more) = cut(text);
        number = next(number)?;
        if !is_skipped(line) {
            known = take_line(alloc, &mut draft, &known, number, line)?;
        }
        rest = more;
    }
    Ok(draft)
}

/// What a text says, or its first bad line.
#[tactic(auto, unfolding(crate::specs::Texts::said))]
fn read_text(alloc: Global, text: &[u8]) -> Result<Scene, SceneFail>
    ensures { Reads result (said text.now) }
{
    let (first, behind) = cut(text);
    if !is_plain(first) {
        return Err(SceneFail::Bad {
            line: 1,
            kind: NOT_TEXT,
        });
    }
    if !is_text(first, b"scene 1") {
        return Err(SceneFail::Bad {
            line: 1,
            kind: FIRST_LINE,
        });
    }
    let draft = read_lines(alloc, behind)?;
    Ok(draft.finish()?)
}

/// The scene that a text says, or the text's first bad line with the first kind of bad line that it is. The scene meets
/// the grammar, and no other scene is said by the text: what `print` makes of a scene whose lines meet the grammar is
/// read as that scene.
pub fn scene(alloc: Global, text: &[u8]) -> Result<Scene, SceneFail>
    ensures said { Reads result (said text.now) }
    ensures exact { ReadsScene result text.now }
    ensures only { (scene : Scene) → IsWritten text.now scene → IsRead result scene }
    ensures print_again { ReadsPrinted result text.now }
{
    read_text(alloc, text)
}
