//! Why there is no report.

use pg_cache::PagerFault;
use std::alloc::AllocError;
use thiserror::Error;

/// Why a run was given up.
#[derive(Clone, Copy, Debug, PartialEq, Eq, Error)]
pub enum BenchFail {
    /// Memory ran out.
    #[error("memory ran out")]
    NoMemory,
    /// The clock could not be read.
    #[error("the clock could not be read")]
    NoClock,
    /// The pager failed at this page.
    #[error("page {page} could not be read or written")]
    Pager { page: u64 },
}

impl From<AllocError> for BenchFail {
    fn from(_error: AllocError) -> BenchFail {
        BenchFail::NoMemory
    }
}

impl From<PagerFault> for BenchFail {
    fn from(fault: PagerFault) -> BenchFail {
        BenchFail::Pager { page: fault.page }
    }
}
