//! The modules that are trusted from the start.

ghost use Rattle.std.specs.Prelude.{◌≡◌, ◌+◌, ◌*◌, ◌^◌, ◌<◌, ◌≤◌, length, vec_len};
ghost use Rattle.cs_trust.specs.Listed.{listed, searched, filled};

use crate::trust_module::Module;
use pg_bytes::Steps;
use std::marker::{Brand, Model};
use std::sync::ledger::{Blank, Ledger};

/// Modules that never change, seen as the list of them. Threads can search in it side by side, without a lock.
#[derive(Debug, Drop)]
pub struct StaticTrust {
    modules: Vec<Module>,
}

impl Model for StaticTrust {
    ghost use Rattle.std.specs.Prelude.{List, length, ◌<◌, ◌^◌};
    ghost use Rattle.cs_trust.specs.Listed.{Table};

    ghost Value = { List Table };

    ghost view = { λ s. s.modules.items };

    ghost invariant = { λ s. length s.modules.items < 2 ^ 31 };
}

/// The search of `StaticTrust::find` with steps of its own.
fn look_over<L: Ledger>(blank: Blank, fixed: &StaticTrust, cdhash: &[u8; 20]) -> Option<(u32, u64)>
    requires name { blank.name ≡ L.name }
    requires parts { blank.parts ≡ L.parts }
    requires some { 0 < blank.parts }
    ensures { result ≡ listed fixed.now cdhash.now }
{
    fixed.find(cdhash, &mut Steps::<L>::open(blank))
}

impl StaticTrust {
    /// These modules, fewer than 2^31, of which the first has the number 0; no memory is taken.
    pub fn new(modules: Vec<Module>) -> StaticTrust
        requires few { vec_len modules < 2 ^ 31 }
        ensures { result ≡ modules.items }
    {
        StaticTrust { modules }
    }

    /// How many modules there are.
    pub fn len(&self) -> u32
        ensures count { result ≡ length self.now }
        ensures limit { result < 2 ^ 31 }
    {
        self.modules.len() as u32
    }

    /// The least module that lists the cdhash, and in it the least place, both counted from 0; `None` exactly
    /// where no entry of any module has it. A step is one entry compared: a module takes at most 17, and each that
    /// has an entry and is searched, up to the one of the answer, takes one at least. The steps counted before the call
    /// are below 2^61.
    pub fn find<L: Ledger>(&self, cdhash: &[u8; 20], steps: &mut Steps<L>) -> Option<(u32, u64)>
        requires room { steps.old < 2 ^ 61 }
        ensures place { result ≡ listed self.now cdhash.now }
        ensures cost { steps.new ≤ steps.old + 17 * length self.now }
        ensures later { steps.old ≤ steps.new }
        ensures counted { steps.old + filled (searched self.now result) ≤ steps.new }
    {
        for (number, module) in self.modules.iter().enumerate() {
            if let Some(place) = module.find(cdhash, steps) {
                return Some((number as u32, place));
            }
        }
        None
    }

    /// The answer of `find`, by the same search, where nobody counts its steps.
    pub fn look(&self, cdhash: &[u8; 20]) -> Option<(u32, u64)>
        ensures { result ≡ listed self.now cdhash.now }
    {
        look_over::<Brand>(Blank::new(1), self, cdhash)
    }
}
