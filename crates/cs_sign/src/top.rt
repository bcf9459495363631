//! The top call: all that the program does.

ghost use Rattle.std.specs.Prelude.{◌≡◌, ◌≢◌, ℕ, false, map, Some, string_bytes};
ghost use Rattle.pg_bytes.specs.Counts.{Rose};
ghost use Rattle.pg_bytes.specs.declared.Which.TheVariants.{FileBytes};
ghost use Rattle.pg_digest.specs.Digests.{sha_hash};
ghost use Rattle.pg_io.specs.Files.{Told};
ghost use Rattle.cs_sign.specs.Early.{most};
ghost use Rattle.cs_sign.specs.Words.{is_form};
ghost use Rattle.cs_sign.specs.Reading.{ReadsWithin};
ghost use Rattle.cs_sign.specs.Ending.{ending_of, most_reads, Ends, EndsSome, EndsByForm, Says};

use crate::ending::ended;
use pg_bytes::Status;
use pg_io::{Files, Sink, write_whole};
use std::alloc::Global;

/// Runs `cssign` with these words, which do not name the program.
///
/// `sign PATH IDENT 4|16` writes the file of the path signed anew with this identifier and hash pages of 4,096 or 16,384
/// bytes; a further path names the file of its entitlements. `cache PATH..` with 1 to 64 paths writes a trust cache of
/// version 1 that lists the cdhash of each slice of their files. The paths are items counted from 0. Each file is read
/// once, in order, and the first that does not pass ends the run: FileFault with its item where it could not be read,
/// Limit where it has more than 67,108,864 bytes, and for `cache` NotSealed where it has no slice, or a slice is refused,
/// or a hash page below a limit does not match. NotSealed also comes where `sign` refuses the file. Usage is for all other
/// words. Each of these goes with its one line. SinkFault is for output that could not be written whole, and NoMemory for
/// want of memory, where no read has failed. The whole output is made before the first write.
pub fn cssign_main<F: Files, K: Sink>(
    alloc: Global,
    words: &[String],
    files: &mut F,
    out: &mut K,
) -> Status
    // Status and output are those that the words and the files' bytes fix.
    ensures output { (told : Told) → F.tells files.old ≡ Some told →
        Ends (ending_of sha_hash (map string_bytes words.now) told) result
        (K.written out.old) (K.written out.new) }

    // Whatever the files tell, status and output are those of a run over some bytes of the files that the words name. A
    // fault of the sink may cut the output short.
    ensures over_some { result ≢ Status.NoMemory → EndsSome sha_hash (map string_bytes words.now)
        result (K.written out.old) (K.written out.new) }

    // Usage comes exactly where the words have none of the forms, whatever the files are; there a fault of the sink or
    // want of memory may come in its place.
    ensures usage { EndsByForm (is_form (map string_bytes words.now)) result
        (K.written out.old) (K.written out.new) }

    // Each other status has its cause, and two do not come.
    ensures read_fault { (item : ℕ) → result ≡ Status.FileFault item →
        Rose (F.faults files.old) (F.faults files.new) }
    ensures limit { (which : _) (number : ℕ) → result ≡ Status.Limit which number →
        (which ≡ FileBytes) × (number ≡ most) }
    ensures early_text { Says result (K.written out.old) (K.written out.new) }
    ensures no_bad_line { (line kind : ℕ) → result ≢ Status.SceneBad line kind }
    ensures no_cache { (item number arg : ℕ) → result ≢ Status.TrustBad item number arg }

    // At most one read is made for each path, and none for other words, also where memory runs out.
    ensures reads { (told : Told) → F.tells files.old ≡ Some told →
        ReadsWithin told (most_reads (map string_bytes words.now)) (F.tells files.new) }
    ensures quiet { is_form (map string_bytes words.now) ≡ false → files.new ≡ files.old }

    // A fault of the sink ends the run with its status and no other.
    ensures sound { result ≢ Status.SinkFault → K.faults out.new ≡ K.faults out.old }
    ensures sink_fault { result ≡ Status.SinkFault → Rose (K.faults out.old) (K.faults out.new) }

    // Want of memory hides no fault of the files, and writes nothing.
    ensures no_memory { result ≡ Status.NoMemory → (K.written out.new ≡ K.written out.old) ×
        (F.faults files.new ≡ F.faults files.old) }
{
    let Ok(ending) = ended(alloc, words, files) else {
        return Status::NoMemory;
    };
    match write_whole(out, ending.text()) {
        Ok(()) => ending.status(),
        Err(_) => Status::SinkFault,
    }
}
