// A book, and why it was not opened.
use crate::rule::{BookSeat, BookTable};
use std::alloc::Global;
use std::marker::Model;
use std::sync::Arc;

/// Why a book was not opened.
#[derive(Drop)]
pub enum OpenFail<T> {
    /// There was no memory. `back` is what was handed in.
    NoMemory { back: T },
    /// The number of a name was wanted, and another was found. `wanted` is the number of a part, or the number of
    /// parts plus that of a caller, and `found` differs from it. `back` is what was handed in.
    Found { back: T, wanted: u64, found: u64 },
}

/// An open book. It is closed with all its spines and passes.
#[derive(Drop)]
pub struct Book<E> {
    pub(crate) table: Arc<BookTable<E>, Global>,
    pub(crate) seat: BookSeat<E>,
    pub(crate) alloc: Global,
}

impl<E> Model for Book<E> {
    ghost use Rattle.std.specs.Prelude.{◌≡◌, []};
    ghost use Rattle.std.specs.Arc.{arc_value};
    ghost use Rattle.pg_book.specs.Steps.{IsSeatOf};
    ghost use Rattle.pg_book.specs.Models.{BookOf, IsBookView};

    ghost Value = { BookOf E };

    ghost view = { λ b. record { book = b.seat.table_id; view = b.seat.me.0 } };

    ghost invariant = { λ b.
        IsSeatOf (arc_value b.table).shared.table_id b.seat.table_id
        × (b.seat.me.1 ≡ [])
        × IsBookView b.seat.me.0 };
}
