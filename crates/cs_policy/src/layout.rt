//! Where the slices of a file and their signatures lie.

ghost use Rattle.std.specs.Prelude.{◌≡◌};

use crate::refusal::Refusal;
use pg_bytes::Range;
use std::marker::Model;

/// A slice of a file: where it lies and where its signature does, or why it is no signed image.
#[derive(Clone, Copy, Debug)]
pub enum SliceSeat {
    /// Both ranges count from the file's start.
    Signed { slice: Range, sig: Range },
    /// The slice breaks the grammar of images.
    Refused(Refusal),
}

/// The slices of a file, seen as a list in the order of the file.
#[derive(Debug, Drop)]
pub struct Seats {
    items: Vec<SliceSeat>,
}

impl Model for Seats {
    ghost use Rattle.std.specs.Prelude.{List};
    ghost use Rattle.cs_policy.specs.declared.layout.SliceSeat.{SliceSeat};

    ghost Value = { List SliceSeat };

    ghost view = { λ seats. seats.items.items };
}

impl Seats {
    /// The slices of a vector, which it takes over; no memory is taken.
    pub fn new(items: Vec<SliceSeat>) -> Seats
        ensures { result ≡ items.items }
    {
        Seats { items }
    }

    /// The slices.
    pub fn items(&self) -> &[SliceSeat]
        ensures { result.now ≡ self.now }
    {
        &self.items
    }
}

/// The layout of a file: its slices, or why it is no thin or fat file.
#[derive(Debug, Drop)]
pub enum Layout {
    Slices(Seats),
    /// The file breaks the grammar of fat files.
    Refused(Refusal),
}
