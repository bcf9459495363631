//! The top call: all that the program does.

ghost use Rattle.std.specs.Prelude.{◌≡◌, ◌≢◌, ℕ, map, Some, None, string_bytes};
ghost use Rattle.pg_bytes.specs.Counts.{Rose};
ghost use Rattle.pg_digest.specs.Digests.{sha_hash};
ghost use Rattle.pg_io.specs.Files.{Told};
ghost use Rattle.scene_open.specs.Items.{ReadsWithin};
ghost use Rattle.scene_run.specs.Ending.{AreSolo, path_of, run_path, run_of, ending_of, most_reads, reads_by, OverSome, Answers, AnswerIsCaused, Ends, EndsTo, RunsTo, RunsLegal, Finishes, FinishesSolo, CountsFaults};
ghost use Rattle.scene_threads.specs.Sound.{PrintsSound};
ghost use Rattle.scene_threads.specs.Words.{ArePath, made_number, EndsByWords};
ghost use Rattle.scene_threads.specs.Made.{OpensMade, EndsMade};

use crate::making::made_summary;
use crate::shared::run_scripts;
use crate::words::{Request, asked};
use pg_bytes::Status;
use pg_io::{Files, Gate, Sink};
use scene_run::{csrun_solo, journal_of, open_path, write_end};
use std::alloc::Global;
use std::sync::Wait;
use std::thread::Threads;

// The journal of the scene in the file of this path, its scripts side by side, or the status of the run's early end.
fn shared_journal<R: Threads + Wait + Sync, F: Files, G: Gate + Sync>(
    rt: &R,
    alloc: Global,
    path: &str,
    files: &mut F,
    gate: &G,
) -> Result<Vec<u8>, Status>
    ensures told { (told : Told) → F.tells files.old ≡ Some told →
        Answers (PrintsSound sha_hash) (run_path told path.now) result }
    ensures some { OverSome (λ goes. Answers (PrintsSound sha_hash) goes result) }
    ensures cause { AnswerIsCaused (F.faults files.old) (F.faults files.new) result }
    ensures reads { (told : Told) → F.tells files.old ≡ Some told →
        ReadsWithin told (most_reads told path.now) (F.tells files.new) }
{
    let (scene, opened) = match open_path(alloc, path, files) {
        Ok(both) => both,
        Err(status) => return Err(status),
    };
    let history = run_scripts(
        rt,
        alloc,
        &scene,
        opened.files,
        opened.layouts,
        opened.trust,
        gate,
    );
    let Ok(history) = history else {
        return Err(Status::NoMemory);
    };
    let Ok(text) = journal_of(alloc, &scene, &history) else {
        return Err(Status::NoMemory);
    };
    Ok(text)
}

/// Runs `csrun` with these words, which do not name the program: one word is the path of a scene, or two are `solo` and the
/// path, or `gen` and a number from 1 to 1,000 without leading zeros. The scripts of the scene are run over the files and
/// trust caches that it names, and the journal of their history is written. Behind `gen` it is the scene that is made of the
/// number, with its own files, and the summary is written. Script i is run by worker i. Behind `solo`, and with one script or
/// one processor, the scripts are run one after another; else each is run on a thread, where one can be had, and its worker
/// passes the gate at the start of each fault's event on a file, under the file's lock, and after each of its calls. No clause
/// speaks of that.
///
/// The status is Done where the whole journal or summary went out. Of the others Usage is for other words; SceneBad for a scene with a
/// bad line; FileFault for a file that could not be read, with its item's number, 0 for the scene; Limit for the first limit
/// that the scene passes; and TrustBad for a static trust cache that breaks its format. Each of these goes with its one line,
/// which takes no memory. SinkFault is for output that could not be written whole, and NoMemory for want of memory. The whole
/// text is made before the first write.
pub fn csrun_main<R: Threads + Wait + Sync, F: Files, K: Sink, G: Gate + Sync>(
    rt: &R,
    alloc: Global,
    words: &[String],
    files: &mut F,
    out: &mut K,
    gate: &G,
) -> Status
    // A path alone and the files' bytes fix how the run ends: early by its line, or with the journal of a legal history of
    // the scene's scripts from its opening, throughout which the sealing stands, and whose denials state the first broken
    // rule. No other legal history of the scripts has this journal.
    ensures output { ArePath (map string_bytes words.now) →
        (told : Told) → F.tells files.old ≡ Some told →
        EndsTo (PrintsSound sha_hash) (run_of (map string_bytes words.now) told) result
        (K.written out.old) (K.written out.new) }

    // Behind `solo` they fix status and output.
    ensures solo { AreSolo (map string_bytes words.now) →
        (told : Told) → F.tells files.old ≡ Some told →
        Ends (ending_of sha_hash (map string_bytes words.now) told) result
        (K.written out.old) (K.written out.new) }

    // Behind `gen` a run that is done has printed the summary of such a history of the scene that is made of the number. No
    // item of that scene ends the run early.
    ensures made { (n : ℕ) → made_number (map string_bytes words.now) ≡ Some n →
        OpensMade sha_hash n
        × EndsMade sha_hash n result (K.written out.old) (K.written out.new) }

    // A run that is done has printed the journal of such a history: over a path, and behind `solo`, where it is the only one
    // in which the scripts stand one after another.
    ensures legal { ArePath (map string_bytes words.now) →
        (told : Told) → F.tells files.old ≡ Some told → result ≡ Status.Done →
        RunsTo (PrintsSound sha_hash) (run_of (map string_bytes words.now) told)
        (K.written out.old) (K.written out.new) }
    ensures solo_legal { AreSolo (map string_bytes words.now) →
        (told : Told) → F.tells files.old ≡ Some told → result ≡ Status.Done →
        RunsLegal sha_hash (run_of (map string_bytes words.now) told)
        (K.written out.old) (K.written out.new) }

    // Whatever the files tell, status and output are those of a run over some bytes of the scene's file and of the files
    // that it names, each of which could not be read or has these bytes.
    ensures over_some { ArePath (map string_bytes words.now) →
        OverSome (Finishes (PrintsSound sha_hash) result
        (K.written out.old) (K.written out.new)) }
    ensures solo_some { AreSolo (map string_bytes words.now) →
        OverSome (FinishesSolo sha_hash result
        (K.written out.old) (K.written out.new)) }

    // Usage comes exactly where the words name neither a path nor a number from 1 to 1,000 behind `gen`. For such words its
    // line goes out whole, or the sink faults.
    ensures usage { EndsByWords (path_of (map string_bytes words.now))
        (made_number (map string_bytes words.now)) result
        (K.written out.old) (K.written out.new) }

    // The count of the files' faults rises with a file that could not be read, and with no other status but that of the
    // sink, which may come in its place. One status never comes.
    ensures faults { CountsFaults result (F.faults files.old) (F.faults files.new) }
    ensures no_verdict { result ≢ Status.NotSealed }

    // At most one read is made for the scene's file, and for each file that a header line names up to the first item that ends
    // the run, also where memory runs out.
    ensures reads { (told : Told) → F.tells files.old ≡ Some told →
        ReadsWithin told (reads_by (path_of (map string_bytes words.now)) told)
        (F.tells files.new) }
    ensures quiet { path_of (map string_bytes words.now) ≡ None → files.new ≡ files.old }

    // A fault of the sink ends the run with its status and no other.
    ensures sound { result ≢ Status.SinkFault → K.faults out.new ≡ K.faults out.old }
    ensures sink_fault { result ≡ Status.SinkFault →
        Rose (K.faults out.old) (K.faults out.new) }

    // Want of memory writes nothing.
    ensures no_memory { result ≡ Status.NoMemory → K.written out.new ≡ K.written out.old }
{
    match asked(words) {
        Request::Scene(path) => {
            let answer = shared_journal(rt, alloc, path, files, gate);
            write_end(answer, out)
        }
        Request::Solo => csrun_solo(alloc, words, files, out),
        Request::Made(n) => write_end(made_summary(rt, alloc, n, gate), out),
        Request::Nothing => write_end(Err(Status::Usage), out),
    }
}
