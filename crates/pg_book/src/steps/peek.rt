// A seat looks at the next stamp, and learns what the rule says of its view.
ghost use Rattle.std.specs.Prelude.{◌≡◌, false};
ghost use Rattle.pg_book.specs.Steps.{IsSeatOf, HasLooked};

use crate::rule::{BookSeat, BookShared, PeekStep};

pub fn look<E>(shared: &BookShared<E>, seat: &mut BookSeat<E>)
    requires seat { IsSeatOf shared.now.table_id seat.old.table_id }
    requires live { seat.old.me.0.spent ≡ false }
    ensures same { (seat.new.table_id ≡ seat.old.table_id) × (seat.new.me.1 ≡ seat.old.me.1) }
    ensures looked { HasLooked seat.old.me.0 seat.new.me.0 }
{
    let _ = shared.load::<PeekStep>(seat, 0);
}
