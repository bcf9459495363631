// A seat registers a name.
ghost use Rattle.std.specs.Prelude.{◌≡◌, ◌<◌, ◌^◌, ◌==◌, false, MatchBool};
ghost use Rattle.pg_book.specs.Needs.{names_of};
ghost use Rattle.pg_book.specs.Kinds.{named};
ghost use Rattle.pg_book.specs.Views.{Sound};
ghost use Rattle.pg_book.specs.Steps.{IsSeatOf};

use crate::rule::{BookSeat, BookShared, NameStep};

// The number that was found. Where it is the one that was wanted, the seat holds the name.
pub fn register<E>(shared: &BookShared<E>, seat: &mut BookSeat<E>, wanted: u64) -> u64
    requires seat { IsSeatOf shared.now.table_id seat.old.table_id }
    requires live { seat.old.me.0.spent ≡ false }
    requires name { wanted < names_of seat.old.me.0.needs }
    requires small { wanted < 2 ^ 63 }
    ensures same { (seat.new.table_id ≡ seat.old.table_id) × (seat.new.me.1 ≡ seat.old.me.1) }
    ensures view { MatchBool (result == wanted) (seat.new.me.0 ≡ named seat.old.me.0 wanted) (seat.new.me.0 ≡ seat.old.me.0) }
    ensures sound { Sound seat.new.me.0 }
{
    shared.compare_exchange::<NameStep>(seat, 1, wanted, wanted + 1)
}
