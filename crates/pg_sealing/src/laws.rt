//! The law of every interleaving.

ghost use Rattle.std.specs.Prelude.{List};
ghost use Rattle.pg_digest.specs.Kinds.{Hash};
ghost use Rattle.pg_history.specs.Machine.{Line};
ghost use Rattle.pg_history.specs.Opening.{Opening, IsOpening};
ghost use Rattle.pg_history.specs.Legal.{Linked};
ghost use Rattle.pg_history.specs.Sealing.{KeptThroughout, SealedThroughout, FewThroughout};

/// Of any entries from an opening, by any workers and calls, that the machine answers and that rest on earlier ones, where
/// no process makes more than 4,096 regions: at the opening and after each entry every file keeps what files keep.
pub fn interleavings_keep()
    ensures { (hash : Hash) (o : Opening) → IsOpening o → (history : List Line) → Linked hash o history
        → FewThroughout hash o history → KeptThroughout hash o history }
{}

/// Of the same: at the opening and after each entry, each page that a process on which code signing is enforced, and which
/// is not debugged, has mapped for execution has present bytes that hash to its slots in an attached and admitted
/// signature, and the mapping is no private copy.
pub fn interleavings_are_sealed()
    ensures { (hash : Hash) (o : Opening) → IsOpening o → (history : List Line) → Linked hash o history
        → FewThroughout hash o history → SealedThroughout hash o history }
{}
