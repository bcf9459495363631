//! The words of a line.

ghost use Rattle.std.specs.Prelude.{◌≡◌, ◌==◌, IfOk, bytes_eq};
ghost use Rattle.pg_words.specs.Lines.{texts, words_of, is_word, is_text_byte};
ghost use Rattle.std.specs.List.{list_all, slice_split};

use smallvec::SmallVec;
use std::alloc::{AllocError, Global};

/// The words of a line, of which the first sixteen take no memory of their own.
pub type Words<'a> = SmallVec<&'a [u8], 16>;

/// The parts of a word, of which the first four take no memory of their own.
pub type WordParts<'a> = SmallVec<&'a [u8], 4>;

/// Whether a word is this text.
pub fn is_text(word: &[u8], text: &[u8]) -> bool
    ensures { result ≡ bytes_eq word.now text.now }
{
    word == text
}

/// The words of a line, between any two of which stands one space.
#[tactic(auto, unfolding(crate::specs::Lines::words_of))]
pub fn words_of(alloc: Global, line: &[u8]) -> Result<Words<'_>, AllocError>
    ensures { IfOk result (λ v. texts v.items ≡ words_of line.now) }
{
    line.split(|b| *b == b' ').collect(alloc)
}

/// The parts of a word, between any two of which stands this byte.
pub fn parts_of(alloc: Global, word: &[u8], at: u8) -> Result<WordParts<'_>, AllocError>
    ensures { IfOk result (λ v. texts v.items ≡ slice_split (λ b. b == at) word.now) }
{
    word.split(|b| *b == at).collect(alloc)
}

/// Whether each byte prints as more than a space.
pub fn is_graphic(word: &[u8]) -> bool
    ensures { result ≡ is_word word.now }
{
    word.iter().all(u8::is_ascii_graphic)
}

/// Whether each byte is a space or prints as more.
pub fn is_plain(line: &[u8]) -> bool
    ensures { result ≡ list_all is_text_byte line.now }
{
    line.iter().all(|b| matches!(*b, 0x20..=0x7e))
}
