// A seat takes in the view of another.
ghost use Rattle.std.specs.Prelude.{◌≡◌, false, [], None};
ghost use Rattle.pg_book.specs.Kinds.{joined};
ghost use Rattle.pg_book.specs.Steps.{IsSeatOf};

use crate::rule::{BookSeat, BookShared, JoinStep};

pub fn take_in<E>(shared: &BookShared<E>, seat: &mut BookSeat<E>, other: BookSeat<E>)
    requires seat { IsSeatOf shared.now.table_id seat.old.table_id }
    requires other { (other.table_id ≡ seat.old.table_id) × (other.me.1 ≡ []) }
    requires live { (seat.old.me.0.spent ≡ false) × (other.me.0.spent ≡ false) }
    requires settled { other.me.0.due ≡ None }
    ensures same { seat.new.table_id ≡ seat.old.table_id }
    ensures joined { seat.new.me ≡ (joined seat.old.me.0 other.me.0, seat.old.me.1) }
{
    shared.join_seat::<JoinStep>(seat, other);
}
