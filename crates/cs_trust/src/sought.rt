//! A cdhash that is looked for.

ghost use Rattle.std.specs.Prelude.{◌≡◌, ◌+◌, ◌^◌, ◌<◌};
ghost use Rattle.cs_trust.specs.Order as cdhashes;

use crate::entries::Entry;
use pg_bytes::Steps;
use std::cmp::Ordering;
use std::sync::ledger::Ledger;

/// A cdhash that is looked for. It can be compared with an entry only, and each comparison is a step.
#[derive(Clone, Copy)]
pub struct Sought<'a> {
    cdhash: &'a [u8; 20],
}

impl<'a> Sought<'a> {
    /// The cdhash that is to be looked for.
    pub fn new(cdhash: &'a [u8; 20]) -> Sought<'a>
        ensures { result.cdhash.now ≡ cdhash.now }
    {
        Sought { cdhash }
    }

    /// How an entry's cdhash compares to the one that is looked for.
    pub fn compare<L: Ledger>(&self, entry: &Entry, steps: &mut Steps<L>) -> Ordering
        requires { steps.old < 2 ^ 63 }
        ensures order { result ≡ cdhashes.order entry.now.cdhash self.now.cdhash.now }
        ensures step { steps.new ≡ steps.old + 1 }
    {
        steps.tick();
        entry.cdhash.cmp(self.cdhash)
    }
}
