// How a book is closed: all seats are joined into one, and the entries are put in the order of their stamps.
ghost use Rattle.std.specs.Prelude.{◌≡◌, ◌+◌, ◌<◌, ◌≤◌, ◌∷◌, ◌++◌, [], false, length, map, None, vec_len, vec_capacity, IfOk, IfErr, IsPermutation, flat_map};
ghost use Rattle.pg_book.specs.Kinds.{joined};
ghost use Rattle.pg_book.specs.Steps.{IsSeatOf, HasLooked};
ghost use Rattle.pg_book.specs.Models.{IsSpineAt, IsPassAt};
ghost use Rattle.pg_book.specs.Gathering.{TakesSpine, TakesPass, Gathered, spine_views, HasParts, TakesPasses};
ghost use Rattle.std.specs.VecDeque.{deque_items};
ghost use Rattle.pg_book.specs.Closing.{stamped, flat, AreSpinesOf, ArePassesOf, IsHistory};
ghost use Rattle.std.specs.List.Sorted.{IsNonDecreasingBy};
ghost use Rattle.pg_book.specs.Opening.{EachFrom};

use crate::book::Book;
use crate::merge::{Space, merged, space_for};
use crate::pass::Pass;
use crate::receipt::Stamped;
use crate::rule::{BookSeat, BookShared};
use crate::spine::Spine;
use crate::steps::{look, take_in};
use std::collections::VecDeque;

/// There was no memory to close the book. All comes back as it was handed in.
#[derive(Drop)]
pub struct CloseRefused<E> {
    /// The book, which is still open.
    pub book: Book<E>,
    /// Its spines, in the order in which they were handed in.
    pub spines: Vec<Spine<E>>,
    /// Its passes, in the order in which they were handed in.
    pub passes: Vec<Pass<E>>,
}

// The seat takes in another, and looks.
fn absorb<E>(shared: &BookShared<E>, seat: &mut BookSeat<E>, other: BookSeat<E>)
    requires seat { IsSeatOf shared.now.table_id seat.old.table_id }
    requires other { (other.table_id ≡ seat.old.table_id) × (other.me.1 ≡ []) }
    requires live { (seat.old.me.0.spent ≡ false) × (other.me.0.spent ≡ false) }
    requires settled { other.me.0.due ≡ None }
    ensures same { (seat.new.table_id ≡ seat.old.table_id) × (seat.new.me.1 ≡ seat.old.me.1) }
    ensures looked { HasLooked (joined seat.old.me.0 other.me.0) seat.new.me.0 }
{
    take_in(shared, seat, other);
    look(shared, seat);
}

// Takes in the spine's seat, and keeps its entries as one more list. None of them is moved.
fn take_spine<E: Drop>(
    shared: &BookShared<E>,
    seat: &mut BookSeat<E>,
    spine: Spine<E>,
    lists: &mut Vec<VecDeque<Stamped<E>>>,
)
    requires seat { IsSeatOf shared.now.table_id seat.old.table_id × (seat.old.me.1 ≡ []) }
    requires spine { spine.book ≡ seat.old.table_id }
    requires room { vec_len lists.old < vec_capacity lists.old }
    requires live { seat.old.me.0.spent ≡ false }
    ensures same { (seat.new.table_id ≡ seat.old.table_id) × (seat.new.me.1 ≡ []) }
    ensures view { TakesSpine spine seat.old.me.0 seat.new.me.0 }
    ensures items { flat_map deque_items lists.new.items ≡ flat_map deque_items lists.old.items ++ map stamped (flat (spine ∷ [])) }
    ensures count { vec_len lists.new ≡ vec_len lists.old + 1 }
    ensures capacity { vec_capacity lists.new ≡ vec_capacity lists.old }
{
    let Spine {
        table: _,
        seat: other,
        part: _,
        entries,
    } = spine;
    absorb(shared, seat, other);
    lists.push_reserved(VecDeque::from(entries));
}

fn take_pass<E: Drop>(shared: &BookShared<E>, seat: &mut BookSeat<E>, pass: Pass<E>)
    requires seat { IsSeatOf shared.now.table_id seat.old.table_id × (seat.old.me.1 ≡ []) }
    requires pass { pass.book ≡ seat.old.table_id }
    requires live { seat.old.me.0.spent ≡ false }
    ensures same { (seat.new.table_id ≡ seat.old.table_id) × (seat.new.me.1 ≡ []) }
    ensures view { TakesPass pass seat.old.me.0 seat.new.me.0 }
{
    let Pass {
        seat: other,
        number: _,
    } = pass;
    absorb(shared, seat, other);
}

// Takes in all spines, in the order of their parts.
fn take_spines<E: Drop>(
    shared: &BookShared<E>,
    seat: &mut BookSeat<E>,
    spines: Vec<Spine<E>>,
    lists: &mut Vec<VecDeque<Stamped<E>>>,
)
    requires seat { IsSeatOf shared.now.table_id seat.old.table_id × (seat.old.me.1 ≡ []) }
    requires view { Gathered seat.old.me.0.needs [] seat.old.me.0 }
    requires spines { EachFrom (IsSpineAt seat.old.table_id) 0 spines.items }
    requires room { vec_len lists.old + length spines.items ≤ vec_capacity lists.old }
    ensures same { (seat.new.table_id ≡ seat.old.table_id) × (seat.new.me.1 ≡ []) }
    ensures view { Gathered seat.old.me.0.needs (spine_views spines.items) seat.new.me.0 }
    ensures items { flat_map deque_items lists.new.items ≡ flat_map deque_items lists.old.items ++ map stamped (flat spines.items) }
{
    for spine in spines {
        take_spine(shared, seat, spine, lists);
    }
}

// Takes in all passes, in the order of their callers.
fn take_passes<E: Drop>(shared: &BookShared<E>, seat: &mut BookSeat<E>, passes: Vec<Pass<E>>)
    requires seat { IsSeatOf shared.now.table_id seat.old.table_id × (seat.old.me.1 ≡ []) }
    requires view { HasParts seat.old.me.0 }
    requires passes { EachFrom (IsPassAt seat.old.table_id) 0 passes.items }
    ensures same { (seat.new.table_id ≡ seat.old.table_id) × (seat.new.me.1 ≡ []) }
    ensures view { TakesPasses passes.items seat.old.me.0 seat.new.me.0 }
{
    for pass in passes {
        take_pass(shared, seat, pass);
    }
}

// Puts entries in the order of their stamps. Where they stand in it, the sort moves none.
fn sort_by_stamps<E: Drop>(entries: &mut [Stamped<E>])
    ensures same { IsPermutation entries.old entries.new }
    ensures len { length entries.new ≡ length entries.old }
    ensures sorted { IsNonDecreasingBy (λ e. e.stamp) entries.new }
{
    entries.sort_unstable_by_key(|entry| entry.stamp);
}

// The entries in the order of their stamps. It takes no memory.
fn in_order<E: Drop>(mut entries: Vec<Stamped<E>>) -> Vec<Stamped<E>>
    ensures same { IsPermutation entries.items result.items }
    ensures sorted { IsNonDecreasingBy (λ e. e.stamp) result.items }
{
    sort_by_stamps(entries.as_mut_slice());
    entries
}

impl<E: Drop> Book<E> {
    /// Closes the book with all its spines and passes: the k-th spine has part k, and the k-th pass caller number k,
    /// both counted from 0.
    ///
    /// It gives all entries in the order of their stamps, which are 0 to n - 1 for n entries. Each entry's part is
    /// that of a spine, and its caller that of a pass. The entries of a part are its spine's list, and those of a
    /// caller its pass's list in its order. The entry of each receipt that a spine or a pass knows stands at its
    /// stamp.
    ///
    /// It is refused for want of memory, and then the book, the spines and the passes come back as they were handed
    /// in.
    pub fn close(
        self,
        spines: Vec<Spine<E>>,
        passes: Vec<Pass<E>>,
    ) -> Result<Vec<Stamped<E>>, CloseRefused<E>>
        requires spines { AreSpinesOf self spines.items }
        requires passes { ArePassesOf self passes.items }
        ensures closed { IfOk result (λ v. IsHistory spines.items passes.items v.items) }
        ensures refused { IfErr result (λ r. (r.book ≡ self) × (r.spines ≡ spines) × (r.passes ≡ passes)) }
    {
        let Some(space) = space_for(self.alloc, spines.as_slice()) else {
            return Err(CloseRefused {
                book: self,
                spines,
                passes,
            });
        };
        let Space {
            entries,
            order,
            mut lists,
        } = space;
        let Book {
            table,
            mut seat,
            alloc: _,
        } = self;
        take_spines(&table.shared, &mut seat, spines, &mut lists);
        take_passes(&table.shared, &mut seat, passes);
        look(&table.shared, &mut seat);
        Ok(in_order(merged(lists, order, entries)))
    }
}
