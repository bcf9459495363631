// A part's spine.
ghost use Rattle.std.specs.Prelude.{◌≡◌};
ghost use Rattle.pg_book.specs.Knowing.{HasRoom};
ghost use Rattle.pg_book.specs.Outcomes.{Meets, Draws};

use crate::meeting::{draw_between, tell};
use crate::pass::Pass;
use crate::receipt::{Receipt, Stamped};
use crate::rule::{BookSeat, BookTable};
use std::alloc::Global;
use std::marker::Model;
use std::sync::Arc;

/// A part of a book, with the entries that were drawn on it. It is kept behind the part's lock.
#[derive(Drop)]
pub struct Spine<E> {
    pub(crate) table: Arc<BookTable<E>, Global>,
    pub(crate) seat: BookSeat<E>,
    pub(crate) part: u32,
    pub(crate) entries: Vec<Stamped<E>>,
}

impl<E> Model for Spine<E> {
    ghost use Rattle.std.specs.Prelude.{◌≡◌, []};
    ghost use Rattle.std.specs.Arc.{arc_value};
    ghost use Rattle.pg_book.specs.Steps.{IsSeatOf};
    ghost use Rattle.pg_book.specs.Models.{SpineOf, IsSpineView, AreEntriesOf};

    ghost Value = { SpineOf E };

    ghost view = { λ s. record { book = s.seat.table_id; part = s.part; view = s.seat.me.0 } };

    ghost invariant = { λ s.
        IsSeatOf (arc_value s.table).shared.table_id s.seat.table_id
        × (s.seat.me.1 ≡ [])
        × IsSpineView s.part s.seat.me.0
        × AreEntriesOf s.part s.seat.me.0 s.entries };
}

impl<E: Drop> Spine<E> {
    /// The part's number, counted from 0.
    pub fn part(&self) -> u32
        ensures number { result ≡ self.now.part }
    {
        self.part
    }

    /// Lets the pass know all that the spine knows. The two are of the same book.
    ///
    /// The spine stays as it was. The pass keeps its book, its caller number and its list of receipts. It then knows
    /// all that it knew and all that the spine knows, and each receipt of its caller in the spine's list stands in
    /// its own list. It takes no memory.
    pub fn meet(&mut self, pass: &mut Pass<E>)
        requires same_book { self.old.book ≡ pass.old.book }
        ensures spine { self.new ≡ self.old }
        ensures pass { Meets self.old pass.old pass.new }
    {
        tell(&self.table.shared, &mut self.seat, &mut pass.seat);
    }

    /// Enters an event of the pass's caller on this part. The spine keeps `entry`, and the receipt has `twin`.
    ///
    /// The spine and the pass are of the same book, `twin` equals `entry`, and the pass has fewer receipts of this
    /// part than its caller needs there (`entries` of `Needs`).
    ///
    /// The receipt's stamp is above all stamps in the spine's list and in the pass's list, and both lists grow by
    /// the receipt. The spine and the pass each know then all that both knew before, and each receipt of this part
    /// that the spine knows stands in its list. It takes no memory.
    pub fn draw(&mut self, pass: &mut Pass<E>, entry: E, twin: E) -> Receipt<E>
        requires same_book { self.old.book ≡ pass.old.book }
        requires twin { twin ≡ entry }
        requires room { HasRoom self.old.part pass.old.caller pass.old.view }
        ensures drawn { Draws self.old pass.old entry result self.new pass.new }
    {
        let part = self.part;
        let caller = pass.number;
        let stamp = draw_between(
            &self.table.shared,
            &mut self.seat,
            &mut pass.seat,
            part,
            caller,
            &entry,
        );
        self.entries.push_reserved(Stamped {
            stamp,
            part,
            caller,
            entry,
        });
        Receipt {
            part,
            caller,
            stamp,
            entry: twin,
        }
    }
}
