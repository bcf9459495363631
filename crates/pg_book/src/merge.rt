// How the entries of all spines are merged: each is moved once, from its spine's list to its place.
ghost use Rattle.std.specs.Prelude.{◌≡◌, ◌+◌, ◌≤◌, ◌∷◌, [], length, vec_len, vec_capacity, IfSome, IsPermutation, flat_map};
ghost use Rattle.std.specs.VecDeque.{deque_items};
ghost use Rattle.pg_book.specs.Closing.{flat};
ghost use Rattle.pg_book.specs.Merging.{Moves, IsSpaceFor};

use crate::receipt::Stamped;
use crate::spine::Spine;
use std::alloc::Global;
use std::collections::VecDeque;

// The memory that a merge takes: room for all entries, the number of a list for each place, and room for the lists.
#[derive(Drop)]
pub(crate) struct Space<E> {
    pub(crate) entries: Vec<Stamped<E>>,
    pub(crate) order: Vec<u32>,
    pub(crate) lists: Vec<VecDeque<Stamped<E>>>,
}

// How many entries the spines have, where the number fits.
fn count_of<E: Drop>(spines: &[Spine<E>]) -> Option<usize>
    ensures { IfSome result (λ n. n ≡ length (flat spines.now)) }
{
    let mut count: usize = 0;
    for spine in spines {
        count = count.checked_add(entries_on(spine))?;
    }
    Some(count)
}

fn entries_on<E: Drop>(spine: &Spine<E>) -> usize
    ensures { result ≡ length (flat (spine.now ∷ [])) }
{
    spine.entries.len()
}

// Writes the part of each entry of the spine at the place that is the entry's stamp.
fn note_parts<E: Drop>(order: &mut [u32], spine: &Spine<E>) {
    for entry in spine.entries.as_slice() {
        if let Some(place) = order.get_mut(entry.stamp as usize) {
            *place = entry.part;
        }
    }
}

// The part of each place of the history, as far as stamps are places.
fn note_all_parts<E: Drop>(order: &mut [u32], spines: &[Spine<E>]) {
    for spine in spines {
        note_parts(order, spine);
    }
}

// Space to merge the entries of these spines, where there is memory.
pub(crate) fn space_for<E: Drop>(alloc: Global, spines: &[Spine<E>]) -> Option<Space<E>>
    ensures { IfSome result (IsSpaceFor (length (flat spines.now)) (length spines.now)) }
{
    let count = count_of(spines)?;
    let entries = Vec::with_capacity(alloc, count).ok()?;
    let mut order = Vec::from_elem(alloc, 0, count).ok()?;
    let lists = Vec::with_capacity(alloc, spines.len()).ok()?;
    note_all_parts(order.as_mut_slice(), spines);
    Some(Space {
        entries,
        order,
        lists,
    })
}

// Moves the first entry of the list, where there is one, behind the others.
fn take_first<E: Drop>(list: &mut VecDeque<Stamped<E>>, entries: &mut Vec<Stamped<E>>)
    requires room { vec_len entries.old + length (deque_items list.old) ≤ vec_capacity entries.old }
    ensures { Moves entries.old (deque_items list.old) entries.new (deque_items list.new) }
{
    if let Some(entry) = list.pop_front() {
        entries.push_reserved(entry);
    }
}

// The same for the list of this part, where there is such a list.
fn take_from<E: Drop>(
    lists: &mut [VecDeque<Stamped<E>>],
    part: usize,
    entries: &mut Vec<Stamped<E>>,
)
    requires room { vec_len entries.old + length (flat_map deque_items lists.old) ≤ vec_capacity entries.old }
    ensures { Moves entries.old (flat_map deque_items lists.old) entries.new (flat_map deque_items lists.new) }
{
    if part < lists.len() {
        take_first(&mut lists[part], entries);
    }
}

// Moves first entries of the lists, in this order of parts.
fn take_in_order<E: Drop>(
    lists: &mut [VecDeque<Stamped<E>>],
    order: &[u32],
    entries: &mut Vec<Stamped<E>>,
)
    requires room { vec_len entries.old + length (flat_map deque_items lists.old) ≤ vec_capacity entries.old }
    ensures { Moves entries.old (flat_map deque_items lists.old) entries.new (flat_map deque_items lists.new) }
{
    for part in order {
        take_from(lists, *part as usize, entries);
    }
}

// Moves all entries that the list still has behind the others.
fn take_rest<E: Drop>(list: VecDeque<Stamped<E>>, entries: &mut Vec<Stamped<E>>)
    requires room { vec_len entries.old + length (deque_items list) ≤ vec_capacity entries.old }
    ensures { Moves entries.old (deque_items list) entries.new [] }
{
    for entry in list {
        entries.push_reserved(entry);
    }
}

// The same for all lists.
fn take_all_rest<E: Drop>(lists: Vec<VecDeque<Stamped<E>>>, entries: &mut Vec<Stamped<E>>)
    requires room { vec_len entries.old + length (flat_map deque_items lists.items) ≤ vec_capacity entries.old }
    ensures { Moves entries.old (flat_map deque_items lists.items) entries.new [] }
{
    for list in lists {
        take_rest(list, entries);
    }
}

// All entries of the lists. Where stamps are places, each stands at its stamp, and nothing is left in the lists once
// the order is gone through. It takes no memory.
pub(crate) fn merged<E: Drop>(
    mut lists: Vec<VecDeque<Stamped<E>>>,
    order: Vec<u32>,
    mut entries: Vec<Stamped<E>>,
) -> Vec<Stamped<E>>
    requires empty { (entries.items ≡ []) × (vec_len entries ≡ 0) }
    requires room { length (flat_map deque_items lists.items) ≤ vec_capacity entries }
    ensures { IsPermutation (flat_map deque_items lists.items) result.items }
{
    take_in_order(lists.as_mut_slice(), order.as_slice(), &mut entries);
    take_all_rest(lists, &mut entries);
    entries
}
