// Meetings of two seats: a note of one is taken in by the other.
ghost use Rattle.std.specs.Prelude.{◌≡◌, false};
ghost use Rattle.pg_book.specs.Kinds.{note, joined};
ghost use Rattle.pg_book.specs.Steps.{IsSeatOf, HasLooked};
ghost use Rattle.pg_book.specs.Models.{IsSpineView, IsPassView};
ghost use Rattle.pg_book.specs.Knowing.{HasRoom, HasDrawn};

use crate::rule::{BookSeat, BookShared};
use crate::steps::{enter, look, note_of, take_in};

// `to` takes in what `from` knows.
pub fn pass_on<E>(shared: &BookShared<E>, from: &mut BookSeat<E>, to: &mut BookSeat<E>)
    requires seats { IsSeatOf shared.now.table_id from.old.table_id × IsSeatOf shared.now.table_id to.old.table_id }
    requires live { (from.old.me.0.spent ≡ false) × (to.old.me.0.spent ≡ false) }
    ensures tables { (from.new.table_id ≡ from.old.table_id) × (to.new.table_id ≡ to.old.table_id) }
    ensures from { from.new.me ≡ from.old.me }
    ensures to { to.new.me ≡ (joined to.old.me.0 (note from.old.me.0), to.old.me.1) }
{
    let news = note_of(shared, from);
    take_in(shared, to, news);
}

// The same, with a peek behind it.
pub fn tell<E>(shared: &BookShared<E>, from: &mut BookSeat<E>, to: &mut BookSeat<E>)
    requires seats { IsSeatOf shared.now.table_id from.old.table_id × IsSeatOf shared.now.table_id to.old.table_id }
    requires live { (from.old.me.0.spent ≡ false) × (to.old.me.0.spent ≡ false) }
    ensures tables { (from.new.table_id ≡ from.old.table_id) × (to.new.table_id ≡ to.old.table_id) }
    ensures from { from.new.me ≡ from.old.me }
    ensures slots { to.new.me.1 ≡ to.old.me.1 }
    ensures told { HasLooked (joined to.old.me.0 (note from.old.me.0)) to.new.me.0 }
{
    pass_on(shared, from, to);
    look(shared, to);
}

// A draw: each takes in what the other knows, the spine draws the stamp, and each takes in what the other knows again.
pub fn draw_between<E>(
    shared: &BookShared<E>,
    spine: &mut BookSeat<E>,
    pass: &mut BookSeat<E>,
    part: u32,
    caller: u32,
    entry: &E,
) -> u64
    requires seats { IsSeatOf shared.now.table_id spine.old.table_id × IsSeatOf shared.now.table_id pass.old.table_id }
    requires spine { IsSpineView part spine.old.me.0 }
    requires pass { IsPassView caller pass.old.me.0 }
    requires room { HasRoom part caller pass.old.me.0 }
    ensures tables { (spine.new.table_id ≡ spine.old.table_id) × (pass.new.table_id ≡ pass.old.table_id) }
    ensures slots { (spine.new.me.1 ≡ spine.old.me.1) × (pass.new.me.1 ≡ pass.old.me.1) }
    ensures drawn { HasDrawn part caller entry.now result spine.old.me.0 pass.old.me.0 spine.new.me.0 pass.new.me.0 }
{
    tell(shared, spine, pass);
    pass_on(shared, pass, spine);
    let stamp = enter(shared, spine, part, caller, entry);
    tell(shared, spine, pass);
    tell(shared, pass, spine);
    stamp
}
