// The rule of a book's table, and what each step does and tells.
use crate::needs::AllNeeds;
use crate::view::View;
use atomic_table::{Join, Play, Seat, Shared, Split, Table, TableRule};
use std::alloc::Global;
use std::marker::{Brand, PhantomData};

pub struct BookRule;

impl<E> TableRule<(), View<E>, AllNeeds> for BookRule {
    ghost use Rattle.pg_book.specs.Needs.{rows};
    ghost use Rattle.pg_book.specs.Kinds.{first};
    ghost use Rattle.pg_book.specs.Rule.{Kept};

    ghost holds = { λ needs s. Kept (rows needs) s.words s.views };

    ghost first = { λ needs. first (rows needs) };
}

pub struct SplitStep;

impl<E> Split<View<E>> for SplitStep {
    ghost use Rattle.pg_book.specs.Kinds.{note};

    ghost left = { λ v. v };

    ghost right = { note };
}

pub struct JoinStep;

impl<E> Join<View<E>> for JoinStep {
    ghost use Rattle.pg_book.specs.Kinds.{joined, spent_view};

    ghost both = { joined };

    ghost spent = { spent_view };
}

pub struct NameStep;

impl<E> Play<(), View<E>> for NameStep {
    ghost use Rattle.pg_book.specs.Tells.{Registered};

    ghost then = { Registered };
}

pub struct PeekStep;

impl<E> Play<(), View<E>> for PeekStep {
    ghost use Rattle.pg_book.specs.Tells.{Looked};

    ghost then = { Looked };
}

// What is entered: the part, the caller and the entry. A call picks it.
pub trait Entered<E> {
    ghost use Rattle.std.specs.Prelude.{ℕ, Option};

    ghost part: { ℕ };

    ghost caller: { ℕ };

    ghost entry: { Option E };
}

impl<E> Entered<E> for Brand {
    ghost use Rattle.std.specs.Prelude.{None};

    ghost part = { 0 };

    ghost caller = { 0 };

    ghost entry = { None };
}

pub struct DrawStep<N> {
    marker: PhantomData<N>,
}

impl<E, N: Entered<E>> Play<(), View<E>> for DrawStep<N> {
    ghost use Rattle.pg_book.specs.Tells.{DrewFor};

    ghost then = { DrewFor N.part N.caller N.entry };
}

pub type BookTable<E> = Table<(), View<E>, AllNeeds, BookRule, Global>;

pub type BookShared<E> = Shared<(), View<E>, AllNeeds, BookRule>;

pub type BookSeat<E> = Seat<(), View<E>>;
