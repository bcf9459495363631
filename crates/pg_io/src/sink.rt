ghost use Rattle.std.specs.Prelude.{◌≡◌, ◌<◌, ◌≤◌, ℕ, List, Option, length, take, IfOk, OnOk, OnErr};
ghost use Rattle.pg_bytes.specs.Counts.{Rose};
ghost use Rattle.std.specs.Io.KnownBytes.{append_known};
ghost use Rattle.pg_io.specs.Sink.{sent, SentPart};

/// The outside failed: a write, or a read or a write of a page, was not made.
#[derive(Clone, Copy, Debug, PartialEq, Eq)]
pub struct Failed;

/// What takes bytes, in pieces.
pub trait Sink {
    /// The bytes that went out so far, where that is known.
    ghost written: { Self → Option (List ℕ) };

    /// How many writes have failed, or sent nothing of a piece. The count stands still once it is 2^64 - 1.
    ghost faults: { Self → ℕ };

    /// Writes the first bytes of a piece and answers how many they are. After an `Err` none went out.
    fn write(&mut self, bytes: &[u8]) -> Result<usize, Failed>
        ensures count { IfOk result (λ n. n ≤ length bytes.now) }
        ensures written { written self.new ≡
            append_known (written self.old) (take (sent result) bytes.now) }
        ensures later { faults self.old ≤ faults self.new }

        // It does not give up by itself: a failure is the outside's, and so is an answer of nothing.
        ensures failed { OnErr result (Rose (faults self.old) (faults self.new)) }
        ensures nothing { result ≡ Ok 0 → 0 < length bytes.now →
            Rose (faults self.old) (faults self.new) }

        // Nor does it hide a fault behind bytes that it sent.
        ensures sound { IfOk result (λ n. 0 < n → faults self.new ≡ faults self.old) };
}

/// Writes all the bytes, piece after piece.
///
/// It ends with `Failed` at the first write that fails, and at the first that takes no byte. What went
/// out before stays out.
pub fn write_whole<K: Sink>(out: &mut K, bytes: &[u8]) -> Result<(), Failed>
    ensures whole { OnOk result (K.written out.new ≡ append_known (K.written out.old) bytes.now) }
    ensures part { OnErr result (SentPart (K.written out.old) (K.written out.new) bytes.now) }
    ensures later { K.faults out.old ≤ K.faults out.new }
    ensures failed { OnErr result (Rose (K.faults out.old) (K.faults out.new)) }
    ensures sound { OnOk result (K.faults out.new ≡ K.faults out.old) }
{
    let mut at = 0;
    while at < bytes.len() {
        let count = out.write(&bytes[at..])?;
        if count == 0 {
            return Err(Failed);
        }
        at += count;
    }
    Ok(())
}
