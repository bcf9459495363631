// Events are entered into a history.

ghost use Rattle.std.specs.Prelude.{◌≡◌, ◌<◌, ◌^◌, ◌++◌, ◌∷◌, [], vec_len, vec_capacity};
ghost use Rattle.pg_book.specs.Closing.{stamped};
ghost use Rattle.pg_book.specs.Needs.{rows_of, row_entries, all_entries};

use cs_policy::Entry;
use pg_book::{Needs, Receipt, Stamped};

// Enters an entry that happened on the part of this number, and gives the receipt with an equal entry. The stamp is the
// place of the entry in the history.
pub(crate) fn enter(
    history: &mut Vec<Stamped<Entry>>,
    part: u32,
    entry: Entry,
    twin: Entry,
) -> Receipt<Entry>
    requires room { vec_len history.old < vec_capacity history.old }
    requires twins { twin ≡ entry }
    ensures made { history.new.items ≡ history.old.items ++ stamped result ∷ [] }
    ensures receipt { result ≡ record { part = part; caller = entry.who.worker; stamp = vec_len history.old; entry = entry } }
    ensures room { vec_capacity history.new ≡ vec_capacity history.old }
{
    let stamp = history.len() as u64;
    let caller = entry.who.worker;
    history.push_reserved(Stamped {
        stamp,
        part,
        caller,
        entry,
    });
    Receipt {
        part,
        caller,
        stamp,
        entry: twin,
    }
}

// How many entries all workers may make.
pub(crate) fn entries_of(needs: &[Vec<Needs>]) -> u64
    requires { all_entries (rows_of needs.now) < 2 ^ 63 }
    ensures { result ≡ all_entries (rows_of needs.now) }
{
    let mut entries = 0;
    for row in needs {
        entries += row_entries(row.as_slice());
    }
    entries
}

// How many a worker may make of all parts.
fn row_entries(row: &[Needs]) -> u64
    requires { row_entries row.now < 2 ^ 63 }
    ensures { result ≡ row_entries row.now }
{
    let mut entries = 0;
    for needs in row {
        entries += needs.entries;
    }
    entries
}
