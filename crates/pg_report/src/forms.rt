//! The forms of words of a journal.

ghost use Rattle.std.specs.Prelude.{◌≡◌, ◌<◌, ◌≤◌, ◌+◌, ◌^◌, ok_or, IfSome};
ghost use Rattle.pg_words.specs.Lines.{texts};
ghost use Rattle.pg_report.specs.declared.forms.Unread.TheVariants.{NoMemory, OtherForm};
ghost use Rattle.pg_report.specs.Forms.{only, flags_form, few_bytes, data_form, family_form, refusal_form, who_form, place_form, stamp_form, bits_form, files_form};
ghost use Rattle.pg_report.specs.Gives.{Gives};

use bitflags::Flags;
use cs_policy::{
    Bytes64, DIRECTORY_FAMILY, Data, FAT_FAMILY, IMAGE_FAMILY, Place, ProcFlags, Refusal,
    SIGNATURE_FAMILY, SUPERBLOB_FAMILY, TRUST_FAMILY, Who,
};
use pg_digest::{Digest, digest_of};
use pg_words::{
    bytes_of, count_of, flags_bits, hex_word, is_text, name, number, parts_of, short_data,
    short_name, short_number, tiny_number,
};
use std::alloc::{AllocError, AllocFailed, Global};

/// The most bytes of one store, load or fetch.
const MOST_STORED: usize = 64;

/// The most bytes of a digest.
const MOST_DIGEST: usize = 48;

/// Why words were not read: they are not of the form, or memory ran out.
#[derive(Clone, Copy, Debug)]
pub enum Unread {
    NoMemory,
    OtherForm,
}

impl From<AllocError> for Unread {
    ghost from_gives = { λ _ e. e ≡ NoMemory };

    fn from(_e: AllocError) -> Unread {
        Unread::NoMemory
    }
}

impl<T: Drop> From<AllocFailed<T>> for Unread {
    ghost from_gives = { λ _ e. e ≡ NoMemory };

    fn from(_e: AllocFailed<T>) -> Unread {
        Unread::NoMemory
    }
}

/// What a word says, which is to be of its form.
pub fn said<T: Drop>(form: Option<T>) -> Result<T, Unread>
    ensures { result ≡ ok_or form OtherForm }
{
    form.ok_or(Unread::OtherForm)
}

/// A number of 32 bits that is this one.
pub fn only(limit: u32, word: &[u8]) -> Option<u32>
    ensures { result ≡ only limit word.now }
{
    let number = short_number(word)?;
    if number == limit { Some(number) } else { None }
}

/// The stamp of an earlier event.
pub fn stamp(word: &[u8]) -> Option<u64>
    ensures { result ≡ stamp_form word.now }
{
    name(b'@', word)
}

/// Flags.
pub fn flags(word: &[u8]) -> Option<ProcFlags>
    ensures { result ≡ flags_form word.now }
{
    Some(ProcFlags::from_bits_retain(flags_bits(word)?))
}

/// The bytes of one store, load or fetch.
#[tactic(auto, unfolding(crate::specs::Forms::few_bytes))]
pub fn stored(alloc: Global, word: &[u8]) -> Result<Bytes64, Unread>
    ensures { Gives result (few_bytes 64 word.now) }
{
    let digits = said(hex_word(word))?;
    if count_of(digits) > MOST_STORED {
        return Err(Unread::OtherForm);
    }
    let bytes = bytes_of(alloc, digits)?;
    let Some(bytes) = Bytes64::new(&bytes) else {
        return Err(Unread::OtherForm);
    };
    Ok(bytes)
}

/// A digest.
#[tactic(auto, unfolding(crate::specs::Forms::few_bytes))]
pub fn digest(alloc: Global, word: &[u8]) -> Result<Digest, Unread>
    ensures { Gives result (few_bytes 48 word.now) }
{
    let digits = said(hex_word(word))?;
    if count_of(digits) > MOST_DIGEST {
        return Err(Unread::OtherForm);
    }
    let bytes = bytes_of(alloc, digits)?;
    said(digest_of(&bytes))
}

/// The data of a write.
pub fn data(alloc: Global, word: &[u8]) -> Result<Data, Unread>
    ensures { Gives result (data_form word.now) }
{
    let piece = said(short_data(word))?;
    Ok(piece.keep(alloc)?)
}

/// A family of refusals.
#[tactic(auto, unfolding(crate::specs::Forms::family_form, cs_policy::specs::Refusal::family_name))]
fn family(word: &[u8]) -> Option<u8>
    ensures { result ≡ family_form word.now }
{
    if is_text(word, b"fat") {
        Some(FAT_FAMILY)
    } else if is_text(word, b"mach") {
        Some(IMAGE_FAMILY)
    } else if is_text(word, b"super") {
        Some(SUPERBLOB_FAMILY)
    } else if is_text(word, b"dir") {
        Some(DIRECTORY_FAMILY)
    } else if is_text(word, b"blob") {
        Some(SIGNATURE_FAMILY)
    } else if is_text(word, b"trust") {
        Some(TRUST_FAMILY)
    } else {
        None
    }
}

/// A refusal.
#[tactic(auto, unfolding(crate::specs::Forms::refusal_form))]
pub fn refusal(alloc: Global, word: &[u8]) -> Result<Refusal, Unread>
    ensures { Gives result (refusal_form word.now) }
{
    let parts = parts_of(alloc, word, b'.')?;
    let [family_word, number_word, a, b] = parts.as_slice() else {
        return Err(Unread::OtherForm);
    };
    let family = said(family(family_word))?;
    let refused = said(tiny_number(number_word))?;
    let a = said(number(a))?;
    let b = said(number(b))?;
    Ok(Refusal {
        family,
        number: refused,
        a,
        b,
    })
}

/// A worker and its call.
#[tactic(auto, unfolding(crate::specs::Forms::who_form))]
pub fn who(alloc: Global, word: &[u8]) -> Result<Who, Unread>
    ensures { Gives result (who_form word.now) }
{
    let parts = parts_of(alloc, word, b'.')?;
    let [worker, call] = parts.as_slice() else {
        return Err(Unread::OtherForm);
    };
    let worker = said(short_number(worker))?;
    let call = said(short_number(call))?;
    Ok(Who { worker, call })
}

/// A part.
#[tactic(auto, unfolding(crate::specs::Forms::place_form))]
pub fn place(word: &[u8]) -> Option<Place>
    ensures { result ≡ place_form word.now }
{
    if let Some(file) = short_name(b'f', word) {
        return Some(Place::File(file));
    }
    if let Some(pid) = short_name(b'p', word) {
        return Some(Place::Process(pid));
    }
    if is_text(word, b"t") {
        return Some(Place::Trust);
    }
    None
}

/// The number whose bits are so many files, from a file on, by their names.
#[tactic(auto, unfolding(crate::specs::Forms::bits_form))]
fn bits(count: u32, file: u32, names: &[&[u8]]) -> Option<u32>
    requires few { count ≤ 16 }
    requires low { file + count ≤ 16 }
    ensures value { result ≡ bits_form count file (texts names.now) }
    ensures fits { IfSome result (λ bits. bits < 2 ^ count) }
{
    let [name, others @ ..] = names else {
        return Some(0);
    };
    if count == 0 {
        return None;
    }
    if short_name(b'f', name)? == file {
        Some(1 + 2 * bits(count - 1, file + 1, others)?)
    } else {
        Some(2 * bits(count - 1, file + 1, names)?)
    }
}

/// The files of a list, as the bits of a number.
#[tactic(auto, unfolding(crate::specs::Forms::files_form))]
pub fn files(alloc: Global, word: &[u8]) -> Result<u16, Unread>
    ensures { Gives result (files_form word.now) }
{
    if is_text(word, b"-") {
        return Ok(0);
    }
    let names = parts_of(alloc, word, b',')?;
    let files = said(bits(16, 0, names.as_slice()))?;
    Ok(files as u16)
}
