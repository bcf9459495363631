// What a seat knows of the book. No value of these types is made: they stand in proofs alone.
use crate::needs::Needs;
use crate::receipt::Receipt;
use std::collections::LinkedList;

// What a view knows of one part or caller: whether it holds it, its receipts, and the lists that the two views of
// the last join had of it.
pub struct Name<E> {
    pub held: bool,
    pub list: LinkedList<Receipt<E>>,
    pub former: LinkedList<Receipt<E>>,
    pub former_other: LinkedList<Receipt<E>>,
}

// The names are the parts, and behind them the callers. `other_needs` are the needs that the other view of the last
// join had.
pub struct View<E> {
    pub spent: bool,
    pub floor: u64,
    pub needs: LinkedList<LinkedList<Needs>>,
    pub other_needs: LinkedList<LinkedList<Needs>>,
    pub names: LinkedList<Name<E>>,
    pub due: Option<Receipt<E>>,
    pub sent: Option<Receipt<E>>,
}
