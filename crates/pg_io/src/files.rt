ghost use Rattle.std.specs.Prelude.{◌≡◌, ◌≤◌, ℕ, Option, IfOk, OnOk, IsErrOf, vec_len};
ghost use Rattle.pg_bytes.specs.Counts.{Rose};
ghost use Rattle.pg_io.specs.Files.{Told, ReadGives};

use std::alloc::Global;

/// Why a file could not be read.
#[derive(Clone, Copy, Debug, PartialEq, Eq)]
pub enum ReadFail {
    /// The outside failed: there is no such file, or the read of it failed.
    Failed,
    /// There was no memory for the file's bytes.
    NoMemory,
}

/// Files that are read whole, by name.
pub trait Files {
    /// The files with their bytes, and which reads are to fail, where that is known.
    ghost tells: { Self → Option Told };

    /// How many reads have failed. The count stands still once it is 2^64 - 1.
    ghost faults: { Self → ℕ };

    /// Reads the file of that name: all its bytes, or the first `most` of a longer file.
    fn read(&mut self, alloc: Global, name: &str, most: u64) -> Result<Vec<u8>, ReadFail>
        ensures told { (told : Told) → tells self.old ≡ Some told →
            ReadGives told name.now most result (tells self.new) }
        ensures untold { tells self.old ≡ None → tells self.new ≡ None }
        ensures most { IfOk result (λ v. vec_len v ≤ most) }
        ensures later { faults self.old ≤ faults self.new }

        // It does not give up by itself: a failure is the outside's.
        ensures failed { IsErrOf result ReadFail.Failed → Rose (faults self.old) (faults self.new) }
        ensures no_memory { IsErrOf result ReadFail.NoMemory → faults self.new ≡ faults self.old }

        // Nor does it hide a fault behind bytes that it gives.
        ensures sound { OnOk result (faults self.new ≡ faults self.old) };
}
