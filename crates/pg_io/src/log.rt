//! The calls of a pager, one after another, which only proofs read.

ghost use Rattle.std.specs.Prelude.{◌≡◌, [], ◌∷◌, ◌++◌};

use crate::pager_call::PagerCall;
use std::marker::Model;
use std::snapshot::Snapshot;

// Calls that were made: none, or those before the last one and that one. It has no more bytes than one call.
#[derive(Drop)]
pub(crate) struct Made {
    last: Option<(Snapshot<Made>, PagerCall)>,
}

impl Model for Made {
    ghost use Rattle.std.specs.Prelude.{List, [], ◌∷◌, ◌++◌, length};
    ghost use Rattle.std.specs.Option.{option_map_or};
    ghost use Rattle.pg_io.specs.declared.pager_call.PagerCall.{PagerCall};

    ghost Value = { List PagerCall };

    ghost size = { λ calls. length calls };

    ghost view = { λ made. option_map_or (λ last. last.0.value ++ last.1 ∷ []) made.last [] };
}

impl Made {
    // No calls.
    pub(crate) fn none() -> Made
        ensures { result ≡ [] }
    {
        Made { last: None }
    }

    // These calls and one more.
    pub(crate) fn and(&self, call: PagerCall) -> Made
        ensures { result ≡ self.now ++ call ∷ [] }
    {
        Made {
            last: Some((Snapshot::of(self), call)),
        }
    }
}
