//! Why there is no report.

use std::alloc::AllocError;
use thiserror::Error;

/// Why a run was given up.
#[derive(Clone, Copy, Debug, PartialEq, Eq, Error)]
pub enum BenchFail {
    /// Memory ran out.
    #[error("memory ran out")]
    NoMemory,
    /// The clock could not be read.
    #[error("the clock could not be read")]
    NoClock,
    /// The file has not the pages that its bytes reach.
    #[error("the file has other pages")]
    Pages,
    /// The file's signature is refused.
    #[error("the signature is refused")]
    Signature,
}

impl From<AllocError> for BenchFail {
    fn from(_error: AllocError) -> BenchFail {
        BenchFail::NoMemory
    }
}
