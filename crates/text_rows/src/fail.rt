//! Why a table was not tried to its end.

use pg_io::ReadFail;
use std::alloc::AllocError;
use thiserror::Error;

/// Why a run was given up.
#[derive(Clone, Copy, Debug, PartialEq, Eq, Error)]
pub enum RowFail {
    /// There is not one word on the command line.
    #[error("usage: text_rows TABLE")]
    Usage,
    /// Memory ran out.
    #[error("memory ran out")]
    NoMemory,
    /// The table could not be read.
    #[error("the table could not be read")]
    Unread,
    /// The table is no text.
    #[error("the table is no text")]
    NoText,
    /// A line of the table, counted from 0, is no row.
    #[error("line {number}, counted from 0, is no row")]
    NoRow { number: usize },
}

impl From<AllocError> for RowFail {
    fn from(_error: AllocError) -> RowFail {
        RowFail::NoMemory
    }
}

impl From<ReadFail> for RowFail {
    fn from(fail: ReadFail) -> RowFail {
        match fail {
            ReadFail::Failed => RowFail::Unread,
            ReadFail::NoMemory => RowFail::NoMemory,
        }
    }
}
