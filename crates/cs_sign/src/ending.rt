//! How a run ends: everything that it does before it writes.

ghost use Rattle.std.specs.Prelude.{◌≡◌, ◌≤◌, ℕ, false, length, map, Some, None, IfOk, OnErr, IsErrOf, option_map, string_bytes};
ghost use Rattle.pg_digest.specs.Digests.{sha_hash};
ghost use Rattle.pg_io.specs.Files.{Told, next_read};
ghost use Rattle.cs_sign.specs.Words.{is_form};
ghost use Rattle.cs_sign.specs.WordsView.{words_in};
ghost use Rattle.cs_sign.specs.Early.{is_unread, early_line};
ghost use Rattle.cs_sign.specs.EndingView.{text_in};
ghost use Rattle.cs_sign.specs.Reading.{finds, Answers, GoesAs, ReadsWithin, IsCaused, items_of};
ghost use Rattle.cs_sign.specs.Ending.{signed_with, cache_of, sign_run, given_told, cache_run, run_of, early_end, ending_of, most_reads, SignsSome, CachesSome, RunsSome, IsEndingOfSome, IsMadeCaused, IsEndCaused};

use crate::cacher::cache;
use crate::early::{Early, Line, Stop, item_line, status_of};
use crate::reading::{cached, read_item};
use crate::refusal::{CacheFail, SignFail, SignRefusal};
use crate::signer::sign;
use crate::words::{Signing, cache_paths, sign_words};
use pg_bytes::Status;
use pg_digest::ShaDigester;
use pg_io::Files;
use std::alloc::{AllocError, Global};
use std::marker::Model;

/// A file signed with what the words and the entitlements' file say.
fn signed(
    alloc: Global,
    bytes: &[u8],
    words: &Signing,
    entitlements: Option<&[u8]>,
) -> Result<Vec<u8>, Stop>
    ensures told { Answers items_of (signed_with sha_hash bytes.now (words_in words.now) (option_map (λ e. e.now) entitlements.entry)) result }
    ensures cause { (count : ℕ) → IsCaused result count count }
{
    let mut digester = ShaDigester::new();
    match sign(
        alloc,
        bytes,
        words.ident.as_bytes(),
        entitlements,
        words.page,
        &mut digester,
    ) {
        Ok(made) => Ok(made),
        Err(SignFail::Refused(refusal)) => Err(Stop::Early(Early::Refused(refusal))),
        Err(SignFail::NoMemory) => Err(Stop::NoMemory),
    }
}

/// The run of `sign`.
fn sign_run<F: Files>(alloc: Global, files: &mut F, words: &Signing) -> Result<Vec<u8>, Stop>
    ensures told { (told : Told) → F.tells files.old ≡ Some told →
        Answers items_of (sign_run sha_hash (words_in words.now)
        (next_read told words.now.path.now) (given_told told (words_in words.now))) result }
    ensures some { GoesAs (SignsSome sha_hash (words_in words.now)) items_of result }
    ensures reads { (told : Told) → F.tells files.old ≡ Some told →
        ReadsWithin told 2 (F.tells files.new) }
    ensures cause { IsCaused result (F.faults files.old) (F.faults files.new) }
{
    let bytes = read_item(alloc, files, words.path, 0)?;
    let Some(path) = words.entitlements else {
        return signed(alloc, &bytes, words, None);
    };
    let given = read_item(alloc, files, path, 1)?;
    signed(alloc, &bytes, words, Some(&given))
}

/// A trust cache of these cdhashes, of version 1 and with the number 0.
fn listed(alloc: Global, hashes: &[[u8; 20]]) -> Result<Vec<u8>, Stop>
    requires { length hashes.now ≤ 2048 }
    ensures told { Answers items_of (Ok (cache_of hashes.now)) result }
    ensures cause { (count : ℕ) → IsCaused result count count }
{
    match cache(alloc, hashes, [0; 16], 1) {
        Ok(made) => Ok(made),
        Err(CacheFail::NoMemory) => Err(Stop::NoMemory),
        Err(CacheFail::Version { .. }) => unreachable!(),
        Err(CacheFail::TooMany { .. }) => unreachable!(),
    }
}

/// The run of `cache`.
fn cache_run<F: Files>(alloc: Global, files: &mut F, paths: &[String]) -> Result<Vec<u8>, Stop>
    requires { length paths.now ≤ 64 }
    ensures told { (told : Told) → F.tells files.old ≡ Some told →
        Answers items_of (cache_run sha_hash (finds told (map string_bytes paths.now))) result }
    ensures some { GoesAs (CachesSome sha_hash (length paths.now)) items_of result }
    ensures reads { (told : Told) → F.tells files.old ≡ Some told →
        ReadsWithin told (length paths.now) (F.tells files.new) }
    ensures cause { IsCaused result (F.faults files.old) (F.faults files.new) }
{
    let found = cached(alloc, files, paths)?;
    listed(alloc, &found)
}

/// The file that the run of these words makes.
fn made<F: Files>(alloc: Global, words: &[String], files: &mut F) -> Result<Vec<u8>, Stop>
    ensures told { (told : Told) → F.tells files.old ≡ Some told →
        Answers items_of (run_of sha_hash (map string_bytes words.now) told) result }
    ensures some { GoesAs (RunsSome sha_hash (map string_bytes words.now)) items_of result }
    ensures reads { (told : Told) → F.tells files.old ≡ Some told →
        ReadsWithin told (most_reads (map string_bytes words.now)) (F.tells files.new) }
    ensures cause { IsMadeCaused (is_form (map string_bytes words.now)) result
        (F.faults files.old) (F.faults files.new) }
    ensures quiet { is_form (map string_bytes words.now) ≡ false → files.new ≡ files.old }
{
    if let Some(words) = sign_words(words) {
        return sign_run(alloc, files, &words);
    }
    match cache_paths(words) {
        Some(paths) => cache_run(alloc, files, paths),
        None => Err(Stop::Early(Early::Usage)),
    }
}

/// The text of an ending.
#[derive(Drop)]
enum Text {
    /// A fixed line, which takes no memory.
    Fixed(&'static str),
    /// A line with the number of an item, which takes none either.
    Item(Line),
    /// What was made.
    Made(Vec<u8>),
}

/// A status, and the whole text that goes with it.
#[derive(Drop)]
pub(crate) struct Ending {
    status: Status,
    text: Text,
}

impl Model for Ending {
    ghost use Rattle.cs_sign.specs.Ending.{Ending};
    ghost use Rattle.cs_sign.specs.EndingView.{text_in};

    ghost Value = { Ending };

    ghost view = { λ e. record { status = e.status; text = text_in e.text } };
}

impl Ending {
    /// The status.
    pub(crate) fn status(&self) -> Status
        ensures { result ≡ self.now.status }
    {
        self.status
    }

    /// The bytes of the text.
    pub(crate) fn text(&self) -> &[u8]
        ensures { result.now ≡ self.now.text }
    {
        match &self.text {
            Text::Fixed(line) => line.as_bytes(),
            Text::Item(line) => line.as_str().as_bytes(),
            Text::Made(bytes) => bytes,
        }
    }
}

/// The text of the line that says why a file is not signed.
fn refused_text(alloc: Global, refusal: SignRefusal) -> Result<Text, AllocError>
    ensures { IfOk result (λ text. text_in text ≡ early_line (Early.Refused refusal)) }
{
    Ok(Text::Made(format!(in alloc; "cssign: refused {refusal}\n")?.into_bytes()))
}

/// An early end with its one line. Only that of a refusal takes memory.
fn early_ending(alloc: Global, early: Early) -> Result<Ending, AllocError>
    ensures text { IfOk result (λ e. e ≡ early_end early) }
    ensures short { OnErr result (is_unread early ≡ false) }
{
    let text = match early {
        Early::Usage => Text::Fixed(
            "usage: cssign sign PATH IDENT 4|16 [PATH] | cssign cache PATH..\n",
        ),
        Early::Unread { item } => Text::Item(item_line("cssign: cannot read item ", item, "\n")),
        Early::TooLarge => Text::Fixed("cssign: limit filebytes 67108864\n"),
        Early::Refused(refusal) => refused_text(alloc, refusal)?,
        Early::NotSealed { item } => {
            Text::Item(item_line("cssign: item ", item, " not sealed\n"))
        }
    };
    Ok(Ending {
        status: status_of(early),
        text,
    })
}

/// How the run of these words ends.
pub(crate) fn ended<F: Files>(
    alloc: Global,
    words: &[String],
    files: &mut F,
) -> Result<Ending, AllocError>
    ensures told { (told : Told) → F.tells files.old ≡ Some told → IfOk result (λ e.
        e ≡ ending_of sha_hash (map string_bytes words.now) told) }
    ensures some { IfOk result (IsEndingOfSome sha_hash (map string_bytes words.now)) }
    ensures reads { (told : Told) → F.tells files.old ≡ Some told →
        ReadsWithin told (most_reads (map string_bytes words.now)) (F.tells files.new) }
    ensures cause { IfOk result (λ e. IsEndCaused (is_form (map string_bytes words.now))
        (F.faults files.old) (F.faults files.new) e.status e.text) }
    ensures no_fault { OnErr result (F.faults files.new ≡ F.faults files.old) }
    ensures quiet { is_form (map string_bytes words.now) ≡ false → files.new ≡ files.old }
{
    match made(alloc, words, files) {
        Ok(made) => Ok(Ending {
            status: Status::Done,
            text: Text::Made(made),
        }),
        Err(Stop::Early(early)) => early_ending(alloc, early),
        Err(Stop::NoMemory) => Err(AllocError),
    }
}
