//! One trust cache.

ghost use Rattle.std.specs.Prelude.{◌≡◌, ◌+◌, ◌-◌, ◌*◌, ◌^◌, ◌<◌, ◌≤◌, ◌↔◌, [], ◌∷◌, length, IfOk, IsTrue};
ghost use Rattle.cs_trust.specs.Order.{IsTable};
ghost use Rattle.cs_trust.specs.Listed.{listing, place_of};

use crate::entries::Entry;
use crate::refusal::NoMemory;
use crate::search::halve;
use crate::sought::Sought;
use pg_bytes::Steps;
use std::alloc::Global;
use std::marker::{Brand, Model};
use std::sync::ledger::{Blank, Ledger};

/// The most entries that a trust cache can have.
pub const MAX_ENTRIES: u32 = 65_536;

/// A trust cache, seen as the list of its entries, sorted by the bytes of their cdhashes. What else stands in an entry is
/// kept and has no effect.
#[derive(Debug, Drop)]
pub struct Module {
    entries: Vec<Entry>,
}

impl Model for Module {
    ghost use Rattle.std.specs.Prelude.{List};
    ghost use Rattle.cs_trust.specs.declared.entries.Entry.{Entry};
    ghost use Rattle.cs_trust.specs.Order.{IsTable};

    ghost Value = { List Entry };

    ghost view = { λ m. m.entries.items };

    ghost invariant = { λ m. IsTable m.entries.items };
}

/// The search of `Module::find` with steps of its own.
fn look_over<L: Ledger>(blank: Blank, entries: &Module, cdhash: &[u8; 20]) -> Option<u64>
    requires name { blank.name ≡ L.name }
    requires parts { blank.parts ≡ L.parts }
    requires some { 0 < blank.parts }
    ensures { result ≡ place_of entries.now cdhash.now }
{
    entries.find(cdhash, &mut Steps::<L>::open(blank))
}

impl Module {
    /// A module of these entries.
    pub(crate) fn of(entries: Vec<Entry>) -> Module
        requires { IsTable entries.items }
        ensures { result ≡ entries.items }
    {
        Module { entries }
    }

    /// The module that lists one cdhash, in an entry of version 1 whose hash type and flags are 0. `NoMemory` comes where
    /// there is no memory for it.
    pub fn one(alloc: Global, cdhash: [u8; 20]) -> Result<Module, NoMemory>
        ensures { IfOk result (λ made. made ≡ listing cdhash ∷ []) }
    {
        let entry = Entry {
            cdhash,
            hash_type: 0,
            flags: 0,
            more: None,
        };
        Ok(Module {
            entries: vec![in alloc; entry]?,
        })
    }

    /// The entries, in their order.
    pub fn entries(&self) -> &[Entry]
        ensures { result.now ≡ self.now }
    {
        &self.entries
    }

    /// How many entries there are: at most 65,536. They are in order, and a cdhash may stand several times.
    pub fn len(&self) -> u64
        ensures count { result ≡ length self.now }
        ensures limit { result ≤ MAX_ENTRIES }
        ensures table { IsTable self.now }
    {
        self.entries.len() as u64
    }

    /// Whether there is no entry.
    pub fn is_empty(&self) -> bool
        ensures { IsTrue result ↔ (self.now ≡ []) }
    {
        self.entries.is_empty()
    }

    /// The least place, counted from 0, that has the cdhash, or `None` exactly where no entry has it. A step
    /// is one entry compared: two to the power of the steps is at most 2n + 1 for n entries, and there is one at
    /// least where there is an entry. The steps counted before the call are below 2^62.
    pub fn find<L: Ledger>(&self, cdhash: &[u8; 20], steps: &mut Steps<L>) -> Option<u64>
        requires room { steps.old < 2 ^ 62 }
        ensures place { result ≡ place_of self.now cdhash.now }
        ensures cost { 2 ^ (steps.new - steps.old) ≤ 2 * length self.now + 1 }
        ensures at_most { steps.new ≤ steps.old + 17 }
        ensures later { steps.old ≤ steps.new }
        ensures counted { 0 < length self.now → steps.old < steps.new }
    {
        let place = halve(&self.entries, &Sought::new(cdhash), steps)?;
        Some(place as u64)
    }

    /// The answer of `find`, by the same search, where nobody counts its steps.
    pub fn look(&self, cdhash: &[u8; 20]) -> Option<u64>
        ensures { result ≡ place_of self.now cdhash.now }
    {
        look_over::<Brand>(Blank::new(1), self, cdhash)
    }
}
