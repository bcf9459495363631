//! The top call of `csrun solo SCENE`.

ghost use Rattle.std.specs.Prelude.{◌≡◌, ◌≢◌, map, Some, string_bytes};
ghost use Rattle.pg_bytes.specs.Counts.{Rose};
ghost use Rattle.pg_digest.specs.Digests.{sha_hash};
ghost use Rattle.pg_io.specs.Files.{Told};
ghost use Rattle.scene_open.specs.Items.{ReadsWithin};
ghost use Rattle.scene_run.specs.Ending.{AreSolo, path_of, run_path, run_of, ending_of, most_reads, reads_by, Prints, OverSome, Answers, AnswerIsCaused, Ends, FinishesSolo, CountsFaults, RunsLegal};
ghost use Rattle.scene_run.specs.Runs.{RunsSolo};

use crate::ending::{journal_of, write_end};
use crate::opening::open_path;
use crate::solo::run_solo;
use pg_bytes::Status;
use pg_io::{Files, Sink};
use std::alloc::Global;

// The path behind the word `solo`.
fn path_behind<'a>(words: &'a [String]) -> &'a str
    requires words { AreSolo (map string_bytes words.now) }
    ensures path { path_of (map string_bytes words.now) ≡ Some result.now }
{
    match words {
        [_, path] => path.as_str(),
        _ => unreachable!(),
    }
}

// The journal of the scene in the file of this path, its scripts one after another, or the status of the run's early end.
fn solo_journal<F: Files>(alloc: Global, path: &str, files: &mut F) -> Result<Vec<u8>, Status>
    ensures told { (told : Told) → F.tells files.old ≡ Some told →
        Answers (Prints sha_hash (RunsSolo sha_hash)) (run_path told path.now) result }
    ensures some { OverSome (λ goes. Answers (Prints sha_hash (RunsSolo sha_hash)) goes result) }
    ensures cause { AnswerIsCaused (F.faults files.old) (F.faults files.new) result }
    ensures reads { (told : Told) → F.tells files.old ≡ Some told →
        ReadsWithin told (most_reads told path.now) (F.tells files.new) }
{
    let (scene, opened) = match open_path(alloc, path, files) {
        Ok(both) => both,
        Err(status) => return Err(status),
    };
    let Ok(history) = run_solo(alloc, &scene, opened.files, opened.layouts, opened.trust) else {
        return Err(Status::NoMemory);
    };
    let Ok(text) = journal_of(alloc, &scene, &history) else {
        return Err(Status::NoMemory);
    };
    Ok(text)
}

/// Runs `csrun solo SCENE`: these words, which do not name the program, are `solo` and the path of a scene. The scripts of the
/// scene are run one after another over the files and trust caches that it names, and the journal of their history is
/// written.
///
/// The status is Done where the whole journal went out. Of the others SceneBad is for a scene with a bad line; FileFault for
/// a file that could not be read, with its item's number, 0 for the scene; Limit for the first limit that the scene passes;
/// and TrustBad for a static trust cache that breaks its format. Each of these goes with its one line, which takes no memory.
/// SinkFault is for output that could not be written whole, and NoMemory for want of memory. The whole text is made before
/// the first write.
pub fn csrun_solo<F: Files, K: Sink>(
    alloc: Global,
    words: &[String],
    files: &mut F,
    out: &mut K,
) -> Status
    requires words { AreSolo (map string_bytes words.now) }

    // Status and output are those that the words and the files' bytes fix.
    ensures output { (told : Told) → F.tells files.old ≡ Some told →
        Ends (ending_of sha_hash (map string_bytes words.now) told) result
        (K.written out.old) (K.written out.new) }

    // A run that is done has printed the journal of a legal history of the scene's scripts, throughout which the sealing
    // stands, and whose denials state the first broken rule. No other legal history of them has this journal.
    ensures legal { (told : Told) → F.tells files.old ≡ Some told → result ≡ Status.Done →
        RunsLegal sha_hash (run_of (map string_bytes words.now) told)
        (K.written out.old) (K.written out.new) }

    // Whatever the files tell, status and output are those of a run over some bytes of the scene's file and of the files
    // that it names, each of which could not be read or has these bytes.
    ensures over_some { OverSome (FinishesSolo sha_hash result
        (K.written out.old) (K.written out.new)) }

    // Two statuses never come.
    ensures no_usage { result ≢ Status.Usage }
    ensures no_verdict { result ≢ Status.NotSealed }

    // The count of the files' faults rises with a file that could not be read, and with no other status but that of the
    // sink, which may come in its place.
    ensures faults { CountsFaults result (F.faults files.old) (F.faults files.new) }

    // At most one read is made for the scene's file, and for each file that a header line names up to the first item that ends
    // the run, also where memory runs out.
    ensures reads { (told : Told) → F.tells files.old ≡ Some told →
        ReadsWithin told (reads_by (path_of (map string_bytes words.now)) told)
        (F.tells files.new) }

    // A fault of the sink ends the run with its status and no other.
    ensures sound { result ≢ Status.SinkFault → K.faults out.new ≡ K.faults out.old }
    ensures sink_fault { result ≡ Status.SinkFault →
        Rose (K.faults out.old) (K.faults out.new) }

    // Want of memory writes nothing.
    ensures no_memory { result ≡ Status.NoMemory → K.written out.new ≡ K.written out.old }
{
    let answer = solo_journal(alloc, path_behind(words), files);
    write_end(answer, out)
}
