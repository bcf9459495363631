//! What the words of header lines say.

ghost use Rattle.std.specs.Prelude.{◌≡◌, option_map, true};
ghost use Rattle.pg_words.specs.Lines.{texts};
ghost use Rattle.scene_text.specs.declared.keywords.HeadWord.TheVariants as word;
ghost use Rattle.scene_text.specs.Headers.{path_word};
ghost use Rattle.scene_text.specs.Lines.{checked, head_checked};
ghost use Rattle.pg_words.specs.Rows.{row1};
ghost use Rattle.scene_text.specs.Results.{Gives};

use crate::checks::{FORM, MOST_SHORT, RANGE, Refused, declared, form, in_range};
use crate::declared_flags::flags;
use crate::head::Head;
use crate::keywords::HeadWord;
use crate::line::Known;
use pg_bytes::Octets;
use pg_words::{cdhash, is_graphic, is_text, name, number};
use std::alloc::Global;

/// The most pages of a file in memory.
const MOST_RESIDENT: u64 = 4096;

/// A path: one byte or more, each of which prints as more than a space.
#[tactic(auto, unfolding(crate::specs::Headers::path_word))]
fn path(word: &[u8]) -> Option<&[u8]>
    ensures { option_map (λ path. path.now) result ≡ path_word word.now }
{
    if !word.is_empty() && is_graphic(word) {
        Some(word)
    } else {
        None
    }
}

/// The path that the only column says, in memory of its own.
fn only_path(alloc: Global, columns: &[&[u8]]) -> Result<Octets, Refused>
    ensures { Gives result (checked (λ _. true) (λ _. true) (row1 path_word (λ path. path) (texts columns.now))) }
{
    let [word] = columns else {
        return Err(Refused::Kind(FORM));
    };
    let path = form(path(word))?;
    Ok(Octets::new(path.to_vec(alloc)?))
}

/// `pagesize N`
fn read_page_size(known: &Known, columns: &[&[u8]]) -> Result<Head, Refused>
    ensures { Gives result (head_checked known.now word.PageSize (texts columns.now)) }
{
    let [bytes] = columns else {
        return Err(Refused::Kind(FORM));
    };
    match form(number(bytes))? {
        4096 => Ok(Head::PageSize { bytes: 4096 }),
        16384 => Ok(Head::PageSize { bytes: 16384 }),
        _ => Err(Refused::Kind(RANGE)),
    }
}

/// `policy adhoc`
#[tactic(auto, unfolding(crate::specs::Headers::adhoc_word))]
fn read_policy(known: &Known, columns: &[&[u8]]) -> Result<Head, Refused>
    ensures { Gives result (head_checked known.now word.Policy (texts columns.now)) }
{
    match columns {
        [policy] if is_text(policy, b"adhoc") => Ok(Head::Adhoc),
        _ => Err(Refused::Kind(FORM)),
    }
}

/// `resident N`
fn read_resident(known: &Known, columns: &[&[u8]]) -> Result<Head, Refused>
    ensures { Gives result (head_checked known.now word.Resident (texts columns.now)) }
{
    let [pages] = columns else {
        return Err(Refused::Kind(FORM));
    };
    let pages = form(number(pages))?;
    if 1 <= pages && pages <= MOST_RESIDENT {
        Ok(Head::Resident {
            pages: pages as u32,
        })
    } else {
        Err(Refused::Kind(RANGE))
    }
}

/// `raw PATH OFF LEN`
fn read_raw(alloc: Global, known: &Known, columns: &[&[u8]]) -> Result<Head, Refused>
    ensures { Gives result (head_checked known.now word.Raw (texts columns.now)) }
{
    let [path_word, off, len] = columns else {
        return Err(Refused::Kind(FORM));
    };
    let path = form(path(path_word))?;
    let off = form(number(off))?;
    let len = form(number(len))?;
    in_range(off <= MOST_SHORT && len <= MOST_SHORT)?;
    Ok(Head::Raw {
        path: Octets::new(path.to_vec(alloc)?),
        off,
        len,
    })
}

/// `admit CDHASH`
fn read_admit(known: &Known, columns: &[&[u8]]) -> Result<Head, Refused>
    ensures { Gives result (head_checked known.now word.Admit (texts columns.now)) }
{
    let [word] = columns else {
        return Err(Refused::Kind(FORM));
    };
    let cdhash = form(cdhash(word))?;
    Ok(Head::Admit { cdhash })
}

/// `process FLAGS`
fn read_process(known: &Known, columns: &[&[u8]]) -> Result<Head, Refused>
    ensures { Gives result (head_checked known.now word.Process (texts columns.now)) }
{
    let [word] = columns else {
        return Err(Refused::Kind(FORM));
    };
    let flags = form(flags(word))?;
    Ok(Head::Process { flags })
}

/// `fail fF K`
fn read_fail(known: &Known, columns: &[&[u8]]) -> Result<Head, Refused>
    ensures { Gives result (head_checked known.now word.Fail (texts columns.now)) }
{
    let [file, call] = columns else {
        return Err(Refused::Kind(FORM));
    };
    let file = form(name(b'f', file))?;
    let call = form(number(call))?;
    let file = declared(known.files, file)?;
    in_range(1 <= call && call <= MOST_SHORT)?;
    Ok(Head::Fail { file, call })
}

/// `file PATH`, `static PATH` and `cache PATH`
fn read_file(alloc: Global, known: &Known, columns: &[&[u8]]) -> Result<Head, Refused>
    ensures { Gives result (head_checked known.now word.File (texts columns.now)) }
{
    let path = only_path(alloc, columns)?;
    Ok(Head::File { path })
}

fn read_static(alloc: Global, known: &Known, columns: &[&[u8]]) -> Result<Head, Refused>
    ensures { Gives result (head_checked known.now word.Static (texts columns.now)) }
{
    let path = only_path(alloc, columns)?;
    Ok(Head::Static { path })
}

fn read_cache(alloc: Global, known: &Known, columns: &[&[u8]]) -> Result<Head, Refused>
    ensures { Gives result (head_checked known.now word.Cache (texts columns.now)) }
{
    let path = only_path(alloc, columns)?;
    Ok(Head::Cache { path })
}

/// What the words behind the keyword of a header line say.
pub fn read_head(
    alloc: Global,
    known: &Known,
    key: HeadWord,
    columns: &[&[u8]],
) -> Result<Head, Refused>
    ensures { Gives result (head_checked known.now key (texts columns.now)) }
{
    match key {
        HeadWord::PageSize => read_page_size(known, columns),
        HeadWord::Policy => read_policy(known, columns),
        HeadWord::Resident => read_resident(known, columns),
        HeadWord::File => read_file(alloc, known, columns),
        HeadWord::Raw => read_raw(alloc, known, columns),
        HeadWord::Static => read_static(alloc, known, columns),
        HeadWord::Admit => read_admit(known, columns),
        HeadWord::Cache => read_cache(alloc, known, columns),
        HeadWord::Process => read_process(known, columns),
        HeadWord::Fail => read_fail(known, columns),
    }
}
