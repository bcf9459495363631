//! The search by halves.

ghost use Rattle.std.specs.Prelude.{◌≡◌, ◌+◌, ◌-◌, ◌*◌, ◌^◌, ◌<◌, ◌≤◌, length};
ghost use Rattle.cs_trust.specs.Order.{IsTable};
ghost use Rattle.cs_trust.specs.Listed.{place_of};

use crate::entries::Entry;
use crate::sought::Sought;
use pg_bytes::Steps;
use std::cmp::Ordering;
use std::sync::ledger::Ledger;

/// The least place of the entries that has the cdhash, or `None` where no place has it. A step is one entry
/// compared.
pub fn halve<L: Ledger>(entries: &[Entry], sought: &Sought, steps: &mut Steps<L>) -> Option<usize>
    requires table { IsTable entries.now }
    requires room { steps.old < 2 ^ 62 }
    ensures place { result ≡ place_of entries.now sought.now.cdhash.now }
    ensures cost { 2 ^ (steps.new - steps.old) ≤ 2 * length entries.now + 1 }
    ensures at_most { steps.new ≤ steps.old + 17 }
    ensures later { steps.old ≤ steps.new }
    ensures counted { 0 < length entries.now → steps.old < steps.new }
{
    let mut low = 0;
    let mut high = entries.len();
    let mut found = None;
    while low < high {
        let middle = low + (high - low) / 2;
        match sought.compare(&entries[middle], steps) {
            Ordering::Less => low = middle + 1,
            Ordering::Equal => {
                high = middle;
                found = Some(middle);
            }
            Ordering::Greater => high = middle,
        }
    }
    found
}
