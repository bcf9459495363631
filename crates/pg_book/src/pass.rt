// A caller's pass.
ghost use Rattle.std.specs.Prelude.{◌≡◌};

use crate::rule::BookSeat;
use std::marker::Model;

/// A caller of a book: which caller it is, and what it knows. It owns no memory.
#[derive(Drop)]
pub struct Pass<E> {
    pub(crate) seat: BookSeat<E>,
    pub(crate) number: u32,
}

impl<E> Model for Pass<E> {
    ghost use Rattle.std.specs.Prelude.{◌≡◌, []};
    ghost use Rattle.pg_book.specs.Models.{PassOf, IsPassView};

    ghost Value = { PassOf E };

    ghost view = { λ p. record { book = p.seat.table_id; caller = p.number; view = p.seat.me.0 } };

    ghost invariant = { λ p.
        (p.seat.me.1 ≡ [])
        × (p.seat.table_id.words ≡ 2)
        × IsPassView p.number p.seat.me.0 };
}

impl<E: Drop> Pass<E> {
    /// The caller's number, counted from 0.
    pub fn caller(&self) -> u32
        ensures number { result ≡ self.now.caller }
    {
        self.number
    }
}
