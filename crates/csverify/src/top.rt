//! The top call: all that the program does.

ghost use Rattle.std.specs.Prelude.{◌≡◌, map, Some, None, IfOk, OnOk, OnErr, string_bytes};
ghost use Rattle.pg_digest.specs.Digests.{sha_hash};
ghost use Rattle.pg_io.specs.Files.{Told};
ghost use Rattle.csverify.specs.Words.{path_of, is_refused};
ghost use Rattle.csverify.specs.Ending.{ending_of, told_after, TellsEither, IsCaused};
ghost use Rattle.csverify.specs.Run.{outside, IsRun};

use crate::ending::{Ending, ended};
use crate::reporter::{InTurn, OnThreads, Reporter};
use crate::words::path_of;
use pg_bytes::Status;
use pg_io::{Files, Sink, write_whole};
use std::alloc::{AllocError, Global};
use std::thread::Threads;

/// How the run of these words ends.
fn after_words<F: Files, V: Reporter>(
    alloc: Global,
    words: &[String],
    files: &mut F,
    reporter: &V,
) -> Result<Ending, AllocError>
    requires ready { V.ready reporter.now }
    ensures told { (told : Told) → F.tells files.old ≡ Some told →
        IfOk result (λ e. e ≡ ending_of sha_hash (map string_bytes words.now) told) }
    ensures read { (told : Told) → F.tells files.old ≡ Some told →
        OnOk result (F.tells files.new ≡ Some (told_after (map string_bytes words.now) told)) }
    ensures read_short { (told : Told) → F.tells files.old ≡ Some told →
        OnErr result
        (TellsEither told (told_after (map string_bytes words.now) told) (F.tells files.new)) }
    ensures quiet { path_of (map string_bytes words.now) ≡ None → files.new ≡ files.old }
    ensures cause { IfOk result (λ e. IsCaused (is_refused (map string_bytes words.now))
        (F.faults files.old) (F.faults files.new) e.status e.text) }
    ensures no_fault { OnErr result (F.faults files.new ≡ F.faults files.old) }
{
    ended(alloc, path_of(alloc, words), files, reporter)
}

/// Runs `csverify` with these words, which do not name the program: one word is the path of a file, and the report on
/// the file is written. The status is Done where the file has a slice, each of its slices is a signed image, and each
/// hash page below the limit matches its slot; it is NotSealed where a file of at most 67,108,864 bytes was read and
/// this does not hold. Of the others Usage is for words in which the command line finds a fault, and no others;
/// FileFault of item 0 for a file that could not be read, and Limit for a longer one, each with its line; SinkFault is
/// for output that could not be written whole, and NoMemory for want of memory, where no read has failed. The
/// whole text is made before the first write. Each hash page that has a slot is hashed once, as `verify` of `cs_verify`
/// bounds it.
pub fn csverify_main<F: Files, K: Sink>(
    alloc: Global,
    words: &[String],
    files: &mut F,
    out: &mut K,
) -> Status
    ensures run { IsRun (map string_bytes words.now) files.old files.new
        (outside (F.tells files.old) (F.faults files.old) (K.written out.old) (K.faults out.old))
        (outside (F.tells files.new) (F.faults files.new) (K.written out.new) (K.faults out.new))
        result }
{
    run(alloc, words, files, out, &InTurn)
}

/// Runs `csverify` as `csverify_main` does, with the same status and output. The hash pages of a large file are looked
/// at by threads of this runtime, as `verify_on` of `cs_verify` shares them out; no text and no status depends on it.
pub fn csverify_on<R: Threads + Sync, F: Files, K: Sink>(
    rt: &R,
    alloc: Global,
    words: &[String],
    files: &mut F,
    out: &mut K,
) -> Status
    ensures run { IsRun (map string_bytes words.now) files.old files.new
        (outside (F.tells files.old) (F.faults files.old) (K.written out.old) (K.faults out.old))
        (outside (F.tells files.new) (F.faults files.new) (K.written out.new) (K.faults out.new))
        result }
{
    run(alloc, words, files, out, &OnThreads::new(rt))
}

/// Runs `csverify` with these words, where `reporter` makes the report of the file.
fn run<F: Files, K: Sink, V: Reporter>(
    alloc: Global,
    words: &[String],
    files: &mut F,
    out: &mut K,
    reporter: &V,
) -> Status
    requires ready { V.ready reporter.now }
    ensures run { IsRun (map string_bytes words.now) files.old files.new
        (outside (F.tells files.old) (F.faults files.old) (K.written out.old) (K.faults out.old))
        (outside (F.tells files.new) (F.faults files.new) (K.written out.new) (K.faults out.new))
        result }
{
    let Ok(ending) = after_words(alloc, words, files, reporter) else {
        return Status::NoMemory;
    };
    match write_whole(out, ending.text()) {
        Ok(()) => ending.status(),
        Err(_) => Status::SinkFault,
    }
}
