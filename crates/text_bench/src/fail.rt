//! Why there is no report.

use pg_io::ReadFail;
use pg_report::JournalFail;
use scene_text::SceneFail;
use std::alloc::AllocError;
use thiserror::Error;

/// Why a run was given up.
#[derive(Clone, Copy, Debug, PartialEq, Eq, Error)]
pub enum BenchFail {
    /// There are not two words on the command line.
    #[error("usage: text_bench SCENE JOURNAL")]
    Usage,
    /// Memory ran out.
    #[error("memory ran out")]
    NoMemory,
    /// The clock could not be read.
    #[error("the clock could not be read")]
    NoClock,
    /// A file could not be read.
    #[error("a file could not be read")]
    Unread,
    /// The text is no scene: its first bad line, and the kind.
    #[error("line {line} of the scene is bad, kind {kind}")]
    Scene { line: u64, kind: u8 },
    /// The text is no journal: its first bad line.
    #[error("line {line} of the journal is bad")]
    Journal { line: u64 },
}

impl From<AllocError> for BenchFail {
    fn from(_error: AllocError) -> BenchFail {
        BenchFail::NoMemory
    }
}

impl From<ReadFail> for BenchFail {
    fn from(fail: ReadFail) -> BenchFail {
        match fail {
            ReadFail::Failed => BenchFail::Unread,
            ReadFail::NoMemory => BenchFail::NoMemory,
        }
    }
}

impl From<SceneFail> for BenchFail {
    fn from(fail: SceneFail) -> BenchFail {
        match fail {
            SceneFail::Bad { line, kind } => BenchFail::Scene { line, kind },
            SceneFail::NoMemory => BenchFail::NoMemory,
        }
    }
}

impl From<JournalFail> for BenchFail {
    fn from(fail: JournalFail) -> BenchFail {
        match fail {
            JournalFail::Bad { line } => BenchFail::Journal { line },
            JournalFail::NoMemory => BenchFail::NoMemory,
        }
    }
}
