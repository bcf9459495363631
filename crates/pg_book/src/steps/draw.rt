// A seat of a spine draws a stamp.
ghost use Rattle.std.specs.Prelude.{◌≡◌, ◌≤◌, false, Some};
ghost use Rattle.pg_book.specs.Kinds.{drawn};
ghost use Rattle.pg_book.specs.Views.{Sound};
ghost use Rattle.pg_book.specs.Tells.{MayDraw};
ghost use Rattle.pg_book.specs.Steps.{IsSeatOf};

use crate::rule::{BookSeat, BookShared, DrawStep, Entered};
use std::marker::Brand;

fn draw_as<E, N: Entered<E>>(
    shared: &BookShared<E>,
    seat: &mut BookSeat<E>,
    part: u32,
    caller: u32,
    entry: &E,
) -> u64
    requires seat { IsSeatOf shared.now.table_id seat.old.table_id }
    requires live { seat.old.me.0.spent ≡ false }
    requires entered { (N.part ≡ part) × (N.caller ≡ caller) × (N.entry ≡ Some entry.now) }
    requires may { MayDraw seat.old.me.0 part caller }
    ensures same { (seat.new.table_id ≡ seat.old.table_id) × (seat.new.me.1 ≡ seat.old.me.1) }
    ensures drawn { seat.new.me.0 ≡ drawn seat.old.me.0 part caller entry.now result }
    ensures floor { seat.old.me.0.floor ≤ result }
    ensures sound { Sound seat.new.me.0 }
{
    shared.fetch_add::<DrawStep<N>>(seat, 0, 1)
}

// The stamp of the entry, which is not below the floor.
pub fn enter<E>(
    shared: &BookShared<E>,
    seat: &mut BookSeat<E>,
    part: u32,
    caller: u32,
    entry: &E,
) -> u64
    requires seat { IsSeatOf shared.now.table_id seat.old.table_id }
    requires live { seat.old.me.0.spent ≡ false }
    requires may { MayDraw seat.old.me.0 part caller }
    ensures same { (seat.new.table_id ≡ seat.old.table_id) × (seat.new.me.1 ≡ seat.old.me.1) }
    ensures drawn { seat.new.me.0 ≡ drawn seat.old.me.0 part caller entry.now result }
    ensures floor { seat.old.me.0.floor ≤ result }
    ensures sound { Sound seat.new.me.0 }
{
    draw_as::<E, Brand>(shared, seat, part, caller, entry)
}
