// How a book is opened: all memory first, and then each name in its turn.
ghost use Rattle.std.specs.Prelude.{◌≡◌, ◌≢◌, ◌+◌, ◌<◌, ◌≤◌, ◌^◌, false, [], length, slice_index_or, vec_len, vec_capacity, IfOk, IfErr};
ghost use Rattle.std.specs.Arc.{arc_value};
ghost use Rattle.pg_book.specs.Needs.{rows, rows_of, parts_of, names_of, all_entries, part_entries, nothing_needed};
ghost use Rattle.pg_book.specs.Kinds.{first, note, named};
ghost use Rattle.pg_book.specs.Views.{Sound};
ghost use Rattle.pg_book.specs.Steps.{IsSeatOf};
ghost use Rattle.pg_book.specs.Opening.{EachFrom, IsOpenable, IsOpened, IsNewSpine, IsNewPass};
ghost use Rattle.pg_book.specs.Fails.{IsRefused};
ghost use Rattle.pg_book.specs.Prepared.{IsPartRoom, IsPrepared, IsFirst, IsMissed};

use crate::book::{Book, OpenFail};
use crate::needs::{AllNeeds, Needs};
use crate::pass::Pass;
use crate::receipt::Stamped;
use crate::rule::{BookSeat, BookShared, BookTable};
use crate::spine::Spine;
use crate::steps::{note_of, register};
use std::alloc::{AllocError, Global};
use std::sync::Arc;

// Room for the entries of one part.
#[derive(Drop)]
struct PartRoom<E> {
    table: Arc<BookTable<E>, Global>,
    entries: Vec<Stamped<E>>,
}

// The name that was wanted, and the number that was found.
#[derive(Drop)]
struct Missed {
    wanted: u64,
    found: u64,
}

fn entries_of(row: &[Needs], part: usize) -> u64
    ensures { result ≡ (slice_index_or row.now part nothing_needed).entries }
{
    match row.get(part) {
        Some(needs) => needs.entries,
        None => 0,
    }
}

// How many entries all callers need on the part.
fn room_of(needs: &[Vec<Needs>], part: usize) -> u64
    requires { all_entries (rows_of needs.now) < 2 ^ 63 }
    ensures { result ≡ part_entries (rows_of needs.now) part }
{
    let mut room = 0;
    for row in needs {
        room += entries_of(row.as_slice(), part);
    }
    room
}

// A new seat that holds the name, or what was found.
fn seat_of<E>(
    shared: &BookShared<E>,
    seat: &mut BookSeat<E>,
    wanted: u64,
) -> Result<BookSeat<E>, Missed>
    requires seat { IsSeatOf shared.now.table_id seat.old.table_id }
    requires live { seat.old.me.0.spent ≡ false }
    requires name { wanted < names_of seat.old.me.0.needs }
    requires small { wanted < 2 ^ 63 }
    ensures same { (seat.new.table_id ≡ seat.old.table_id) × (seat.new.me ≡ seat.old.me) }
    ensures ok { IfOk result (λ s. (s.table_id ≡ seat.old.table_id) × (s.me ≡ (named (note seat.old.me.0) wanted, [])) × Sound s.me.0) }
    ensures err { IfErr result (λ m. (m.wanted ≡ wanted) × (m.found ≢ wanted)) }
{
    let mut made = note_of(shared, seat);
    let found = register(shared, &mut made, wanted);
    if found == wanted {
        Ok(made)
    } else {
        Err(Missed { wanted, found })
    }
}

fn part_room<E: Drop>(
    alloc: Global,
    table: &Arc<BookTable<E>, Global>,
    room: u64,
) -> Result<PartRoom<E>, AllocError>
    ensures { IfOk result (λ r. IsPartRoom (arc_value table.now).shared.table_id room r) }
{
    Ok(PartRoom {
        table: Arc::try_clone(table)?,
        entries: Vec::with_capacity(alloc, room as usize)?,
    })
}

// Room for each part.
fn part_rooms<E: Drop>(
    alloc: Global,
    table: &Arc<BookTable<E>, Global>,
    needs: &[Vec<Needs>],
    parts: usize,
) -> Result<Vec<PartRoom<E>>, AllocError>
    requires { all_entries (rows_of needs.now) < 2 ^ 63 }
    ensures count { IfOk result (λ v. length v.items ≡ parts) }
    ensures each { IfOk result (λ v. EachFrom (λ k r. IsPartRoom (arc_value table.now).shared.table_id (part_entries (rows_of needs.now) k) r) 0 v.items) }
{
    let mut all = Vec::new(alloc);
    for part in 0..parts {
        all.push(part_room(alloc, table, room_of(needs, part))?)?;
    }
    Ok(all)
}

// The table of a book and its first seat, with all memory that its spines and passes need.
#[derive(Drop)]
struct Prepared<E> {
    table: Arc<BookTable<E>, Global>,
    seat: BookSeat<E>,
    rooms: Vec<PartRoom<E>>,
    spines: Vec<Spine<E>>,
    passes: Vec<Pass<E>>,
}

fn prepare<E: Drop>(
    alloc: Global,
    needs: &AllNeeds,
    parts: usize,
) -> Result<Prepared<E>, AllocError>
    requires parts { parts ≡ parts_of (rows needs.now) }
    requires small { all_entries (rows needs.now) < 2 ^ 63 }
    ensures { IfOk result (IsPrepared (rows needs.now)) }
{
    let (table, seat) = BookTable::of_words(alloc, &[0, 0], needs)?;
    let table = Arc::new(alloc, table)?;
    let rooms = part_rooms(alloc, &table, needs.as_slice(), parts)?;
    Ok(Prepared {
        table,
        seat,
        rooms,
        spines: Vec::with_capacity(alloc, parts)?,
        passes: Vec::with_capacity(alloc, needs.len())?,
    })
}

fn spine_of<E: Drop>(
    room: PartRoom<E>,
    seat: &mut BookSeat<E>,
    part: u32,
) -> Result<Spine<E>, Missed>
    requires view { IsFirst seat.old.me }
    requires words { seat.old.table_id.words ≡ 2 }
    requires room { IsPartRoom seat.old.table_id (part_entries seat.old.me.0.needs part) room }
    requires part { part < parts_of seat.old.me.0.needs }
    ensures same { (seat.new.table_id ≡ seat.old.table_id) × (seat.new.me ≡ seat.old.me) }
    ensures ok { IfOk result (IsNewSpine seat.old.me.0.needs seat.old.table_id part) }
    ensures err { IfErr result (IsMissed seat.old.me.0.needs) }
{
    let made = seat_of(&room.table.shared, seat, u64::from(part))?;
    let PartRoom { table, entries } = room;
    Ok(Spine {
        table,
        seat: made,
        part,
        entries,
    })
}

fn pass_of<E: Drop>(
    table: &Arc<BookTable<E>, Global>,
    seat: &mut BookSeat<E>,
    parts: u64,
    caller: u32,
) -> Result<Pass<E>, Missed>
    requires view { IsFirst seat.old.me }
    requires table { IsSeatOf (arc_value table.now).shared.table_id seat.old.table_id }
    requires parts { (parts ≡ parts_of seat.old.me.0.needs) × (parts < 2 ^ 32) }
    requires caller { caller < length seat.old.me.0.needs }
    ensures same { (seat.new.table_id ≡ seat.old.table_id) × (seat.new.me ≡ seat.old.me) }
    ensures ok { IfOk result (IsNewPass seat.old.me.0.needs seat.old.table_id caller) }
    ensures err { IfErr result (IsMissed seat.old.me.0.needs) }
{
    let made = seat_of(&table.shared, seat, parts + u64::from(caller))?;
    Ok(Pass {
        seat: made,
        number: caller,
    })
}

// A spine for each part, in the order of the parts.
fn add_spines<E: Drop>(
    seat: &mut BookSeat<E>,
    rooms: Vec<PartRoom<E>>,
    mut spines: Vec<Spine<E>>,
) -> Result<Vec<Spine<E>>, Missed>
    requires view { IsFirst seat.old.me }
    requires words { seat.old.table_id.words ≡ 2 }
    requires rooms { (length rooms.items ≡ parts_of seat.old.me.0.needs) × EachFrom (λ k r. IsPartRoom seat.old.table_id (part_entries seat.old.me.0.needs k) r) 0 rooms.items }
    requires small { parts_of seat.old.me.0.needs < 2 ^ 32 }
    requires empty { (spines.items ≡ []) × (vec_len spines ≡ 0) × (parts_of seat.old.me.0.needs ≤ vec_capacity spines) }
    ensures same { (seat.new.table_id ≡ seat.old.table_id) × (seat.new.me ≡ seat.old.me) }
    ensures ok { IfOk result (λ v. (length v.items ≡ parts_of seat.old.me.0.needs) × EachFrom (IsNewSpine seat.old.me.0.needs seat.old.table_id) 0 v.items) }
    ensures err { IfErr result (IsMissed seat.old.me.0.needs) }
{
    let mut part = 0;
    for room in rooms {
        let Ok(()) = spines.push(spine_of(room, seat, part)?) else {
            unreachable!()
        };
        part += 1;
    }
    Ok(spines)
}

// A pass for each caller, in the order of the callers.
fn add_passes<E: Drop>(
    table: &Arc<BookTable<E>, Global>,
    seat: &mut BookSeat<E>,
    parts: u64,
    callers: u32,
    mut passes: Vec<Pass<E>>,
) -> Result<Vec<Pass<E>>, Missed>
    requires view { IsFirst seat.old.me }
    requires table { IsSeatOf (arc_value table.now).shared.table_id seat.old.table_id }
    requires parts { (parts ≡ parts_of seat.old.me.0.needs) × (parts < 2 ^ 32) }
    requires callers { callers ≡ length seat.old.me.0.needs }
    requires empty { (passes.items ≡ []) × (vec_len passes ≡ 0) × (callers ≤ vec_capacity passes) }
    ensures same { (seat.new.table_id ≡ seat.old.table_id) × (seat.new.me ≡ seat.old.me) }
    ensures ok { IfOk result (λ v. (length v.items ≡ length seat.old.me.0.needs) × EachFrom (IsNewPass seat.old.me.0.needs seat.old.table_id) 0 v.items) }
    ensures err { IfErr result (IsMissed seat.old.me.0.needs) }
{
    for caller in 0..callers {
        let Ok(()) = passes.push(pass_of(table, seat, parts, caller)?) else {
            unreachable!()
        };
    }
    Ok(passes)
}

impl<E: Drop> Book<E> {
    /// Opens a book with one spine for each part and one pass for each caller, on which nothing was drawn: the k-th
    /// spine has part k, and the k-th pass caller number k, both counted from 0.
    ///
    /// `needs` has a list for at least one caller, and an element for each part in each list. There are fewer than
    /// 2^32 callers and fewer than 2^32 parts, and the entries of all elements sum to less than 2^63.
    ///
    /// There are two refusals, and `needs` come back with either. `Found` has besides `wanted`, which is below the
    /// number of parts and callers together, and another number, `found`.
    pub fn open(
        alloc: Global,
        needs: AllNeeds,
    ) -> Result<(Book<E>, Vec<Spine<E>>, Vec<Pass<E>>), OpenFail<AllNeeds>>
        requires openable { IsOpenable (rows needs) }
        ensures opened { IfOk result (λ r. IsOpened (rows needs) r.0 r.1.items r.2.items) }
        ensures refused { IfErr result (IsRefused needs (names_of (rows needs))) }
    {
        let callers = needs.len();
        let parts = parts_in(needs.as_slice());
        let Ok(prepared) = prepare(alloc, &needs, parts) else {
            return Err(OpenFail::NoMemory { back: needs });
        };
        match fill(alloc, prepared, parts as u64, callers as u32) {
            Ok(opened) => Ok(opened),
            Err(Missed { wanted, found }) => Err(OpenFail::Found {
                back: needs,
                wanted,
                found,
            }),
        }
    }
}

fn parts_in(needs: &[Vec<Needs>]) -> usize
    ensures { result ≡ parts_of (rows_of needs.now) }
{
    match needs {
        [] => 0,
        [row, ..] => row.len(),
    }
}

// Registers all names, the parts first.
fn fill<E: Drop>(
    alloc: Global,
    prepared: Prepared<E>,
    parts: u64,
    callers: u32,
) -> Result<(Book<E>, Vec<Spine<E>>, Vec<Pass<E>>), Missed>
    requires prepared { IsPrepared prepared.seat.me.0.needs prepared }
    requires small { all_entries prepared.seat.me.0.needs < 2 ^ 63 }
    requires parts { (parts ≡ parts_of prepared.seat.me.0.needs) × (parts < 2 ^ 32) }
    requires callers { callers ≡ length prepared.seat.me.0.needs }
    ensures ok { IfOk result (λ r. IsOpened prepared.seat.me.0.needs r.0 r.1.items r.2.items) }
    ensures err { IfErr result (IsMissed prepared.seat.me.0.needs) }
{
    let Prepared {
        table,
        mut seat,
        rooms,
        spines,
        passes,
    } = prepared;
    let spines = add_spines(&mut seat, rooms, spines)?;
    let passes = add_passes(&table, &mut seat, parts, callers, passes)?;
    Ok((Book { table, seat, alloc }, spines, passes))
}
