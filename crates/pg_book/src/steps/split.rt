// A seat's note: what it knows, for another seat.
ghost use Rattle.std.specs.Prelude.{◌≡◌, false, []};
ghost use Rattle.pg_book.specs.Kinds.{note};
ghost use Rattle.pg_book.specs.Steps.{IsSeatOf};

use crate::rule::{BookSeat, BookShared, SplitStep};

pub fn note_of<E>(shared: &BookShared<E>, seat: &mut BookSeat<E>) -> BookSeat<E>
    requires seat { IsSeatOf shared.now.table_id seat.old.table_id }
    requires live { seat.old.me.0.spent ≡ false }
    ensures same { (seat.new.table_id ≡ seat.old.table_id) × (seat.new.me ≡ seat.old.me) }
    ensures table { result.table_id ≡ seat.old.table_id }
    ensures note { result.me ≡ (note seat.old.me.0, []) }
{
    shared.split_seat::<SplitStep>(seat)
}
