// An entry with its stamp, as a caller has it and as the closed book has it.

/// What a caller has of an event that it entered.
#[derive(Drop)]
pub struct Receipt<E> {
    /// The number of the part on which the event was entered, counted from 0.
    pub part: u32,
    /// The number of the caller, counted from 0.
    pub caller: u32,
    /// The stamp that was drawn for the event. It is the place of the entry in the closed book, counted from 0.
    pub stamp: u64,
    /// What was entered.
    pub entry: E,
}

/// An entry of a closed book.
#[derive(Drop)]
pub struct Stamped<E> {
    /// The place of the entry in the closed book, counted from 0.
    pub stamp: u64,
    /// The number of the part on which the event was entered, counted from 0.
    pub part: u32,
    /// The number of the caller, counted from 0.
    pub caller: u32,
    /// What was entered.
    pub entry: E,
}
