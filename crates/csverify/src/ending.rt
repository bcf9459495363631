//! How a run ends: everything that it does before it writes.

ghost use Rattle.std.specs.Prelude.{◌≡◌, ◌≢◌, ◌≤◌, ◌<◌, ℕ, false, is_err, length, Some, None, IfOk, IfErr, OnOk, OnErr, IsOkAnd, IsErr};
ghost use Rattle.pg_bytes.specs.Counts.{Rose};
ghost use Rattle.pg_digest.specs.Digests.{sha_hash};
ghost use Rattle.pg_io.specs.Files.{Told, next_read, after_read};
ghost use Rattle.csverify.specs.Words.{IsShort};
ghost use Rattle.csverify.specs.Ending as endings;
ghost use Rattle.csverify.specs.Ending.{verified, of_file, of_path, named, reported, told_beside, TellsEither, IsCaused};

use crate::reporter::Reporter;
use clap::Error;
use clap::error::ErrorKind;
use cs_policy::Refusal;
use cs_verify::{SliceReport, VerifyFail, all_match, verify_text};
use pg_bytes::{Status, Which};
use pg_io::{Files, ReadFail};
use std::alloc::{AllocError, Global};
use std::marker::Model;

/// The most bytes that a file may have.
const MOST: u64 = 67_108_864;

/// The text of an ending.
#[derive(Drop)]
enum Text {
    /// A fixed line, which takes no memory.
    Line(&'static str),
    /// What was made for a file.
    Made(Vec<u8>),
}

/// A status, and the whole text that goes with it.
#[derive(Drop)]
pub struct Ending {
    status: Status,
    text: Text,
}

impl Model for Ending {
    ghost use Rattle.csverify.specs.Ending.{Ending};
    ghost use Rattle.csverify.specs.EndingView.{text_in};

    ghost Value = { Ending };

    ghost view = { λ e. record { status = e.status; text = text_in e.text } };
}

impl Ending {
    /// The status.
    pub fn status(&self) -> Status
        ensures { result ≡ self.now.status }
    {
        self.status
    }

    /// The bytes of the text.
    pub fn text(&self) -> &[u8]
        ensures { result.now ≡ self.now.text }
    {
        match &self.text {
            Text::Line(line) => line.as_bytes(),
            Text::Made(bytes) => bytes,
        }
    }
}

/// The command line is not that of this program.
fn usage() -> Ending
    ensures { result ≡ endings.usage }
{
    Ending {
        status: Status::Usage,
        text: Text::Line("usage: csverify PATH\n"),
    }
}

/// The file could not be read.
fn unread() -> Ending
    ensures { result ≡ endings.unread }
{
    Ending {
        status: Status::FileFault { item: 0 },
        text: Text::Line("csverify: cannot read\n"),
    }
}

/// The file has more bytes than it may have.
fn too_large() -> Ending
    ensures { result ≡ endings.too_large }
{
    Ending {
        status: Status::Limit {
            which: Which::FileBytes,
            number: MOST,
        },
        text: Text::Line("csverify: limit filebytes 67108864\n"),
    }
}

/// The file breaks the grammar of fat files.
fn refused(alloc: Global, refusal: Refusal) -> Result<Ending, AllocError>
    ensures { IfOk result (λ e. e ≡ endings.refused refusal) }
{
    Ok(Ending {
        status: Status::NotSealed,
        text: Text::Made(format!(in alloc; "file refused {refusal}\n")?.into_bytes()),
    })
}

/// The file has a report.
fn reported(alloc: Global, reports: &[SliceReport]) -> Result<Ending, AllocError>
    ensures { IfOk result (λ e. e ≡ reported reports.now) }
{
    let status = if all_match(reports) {
        Status::Done
    } else {
        Status::NotSealed
    };
    Ok(Ending {
        status,
        text: Text::Made(verify_text(alloc, reports)?),
    })
}

/// The run over a file's bytes.
fn verified<V: Reporter>(alloc: Global, bytes: &[u8], reporter: &V) -> Result<Ending, AllocError>
    requires ready { V.ready reporter.now }
    ensures { IfOk result (λ e. e ≡ verified sha_hash bytes.now) }
{
    match reporter.report(alloc, bytes) {
        Ok(reports) => reported(alloc, &reports),
        Err(VerifyFail::Refused(refusal)) => refused(alloc, refusal.into()),
        Err(VerifyFail::NoMemory) => Err(AllocError),
    }
}

/// The run over the first bytes of a file, of which there are at most one more than it may have.
fn after_file<V: Reporter>(alloc: Global, bytes: &[u8], reporter: &V) -> Result<Ending, AllocError>
    requires ready { V.ready reporter.now }
    ensures { IfOk result (λ e. e ≡ of_file sha_hash (Some bytes.now)) }
{
    if bytes.len() as u64 > MOST {
        return Ok(too_large());
    }
    verified(alloc, bytes, reporter)
}

/// The run over the file of this path.
fn after_path<F: Files, V: Reporter>(
    alloc: Global,
    files: &mut F,
    path: &str,
    reporter: &V,
) -> Result<Ending, AllocError>
    requires ready { V.ready reporter.now }
    ensures told { (told : Told) → F.tells files.old ≡ Some told →
        IfOk result (λ e. e ≡ of_file sha_hash (next_read told path.now)) }
    ensures read { (told : Told) → F.tells files.old ≡ Some told →
        OnOk result (F.tells files.new ≡ Some (after_read told)) }
    ensures read_short { (told : Told) → F.tells files.old ≡ Some told →
        OnErr result (TellsEither told (after_read told) (F.tells files.new)) }
    ensures cause { IfOk result (λ e.
        IsCaused false (F.faults files.old) (F.faults files.new) e.status e.text) }
    ensures no_fault { OnErr result (F.faults files.new ≡ F.faults files.old) }
{
    match files.read(alloc, path, MOST + 1) {
        Err(ReadFail::NoMemory) => Err(AllocError),
        Err(ReadFail::Failed) => Ok(unread()),
        Ok(bytes) => after_file(alloc, &bytes, reporter),
    }
}

/// The run of words for which the command line gave this error. Want of memory in it is the only reason to give up.
fn after_error(error: &Error) -> Result<Ending, AllocError>
    ensures refused { (IsShort error.now → ⊥) → IsOkAnd result (λ e. e ≡ endings.usage) }
    ensures short { IsShort error.now → IsErr result }
{
    match error.kind() {
        ErrorKind::OutOfMemory => Err(AllocError),
        _ => Ok(usage()),
    }
}

/// How the run ends for which the command line gave this path, or this error.
pub fn ended<F: Files, V: Reporter>(
    alloc: Global,
    path: Result<&str, Error>,
    files: &mut F,
    reporter: &V,
) -> Result<Ending, AllocError>
    requires ready { V.ready reporter.now }
    ensures told { (told : Told) → F.tells files.old ≡ Some told →
        IfOk result (λ e. e ≡ of_path sha_hash told (named path.entry)) }
    ensures read { (told : Told) → F.tells files.old ≡ Some told →
        OnOk result (F.tells files.new ≡ Some (told_beside (named path.entry) told)) }
    ensures read_short { (told : Told) → F.tells files.old ≡ Some told →
        OnErr result (TellsEither told (told_beside (named path.entry) told) (F.tells files.new)) }

    // Words that the command line refuses end by the usage line, unless it is for want of memory.
    ensures refused { IfErr path.entry (λ error. (IsShort error → ⊥) →
        IsOkAnd result (λ e. e ≡ endings.usage)) }
    ensures short { IfErr path.entry (λ error. IsShort error → IsErr result) }
    ensures quiet { OnErr path.entry (files.new ≡ files.old) }

    // Each status has its cause, and a read that failed is told.
    ensures cause { IfOk result (λ e.
        IsCaused (is_err path.entry) (F.faults files.old) (F.faults files.new) e.status e.text) }
    ensures no_fault { OnErr result (F.faults files.new ≡ F.faults files.old) }
{
    match path {
        Ok(path) => after_path(alloc, files, path, reporter),
        Err(error) => after_error(&error),
    }
}
