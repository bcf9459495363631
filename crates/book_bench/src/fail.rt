//! Why there is no report.

use std::alloc::AllocError;
use thiserror::Error;

/// Why a run was given up.
#[derive(Clone, Copy, Debug, PartialEq, Eq, Error)]
pub enum BenchFail {
    /// Memory ran out.
    #[error("memory ran out")]
    NoMemory,
    /// The clock could not be read.
    #[error("the clock could not be read")]
    NoClock,
    /// The book was not opened: `found` was found where `wanted`, the number of a name, was wanted.
    #[error("the book was not opened: {found} was found for {wanted}")]
    NotOpened { wanted: u64, found: u64 },
}

impl From<AllocError> for BenchFail {
    ghost use Rattle.std.specs.Prelude.{◌≡◌};
    ghost use Rattle.book_bench.specs.declared.fail.BenchFail.TheVariants.{NoMemory};

    ghost from_gives = { λ _ fail. fail ≡ NoMemory };

    fn from(_error: AllocError) -> BenchFail {
        BenchFail::NoMemory
    }
}
