//! How a program ends.

ghost use Rattle.std.specs.Prelude.{◌≡◌};
ghost use Rattle.pg_bytes.specs.Codes.{code_of};

/// The quantity that a limit bounds, in the order in which limits are tried.
#[derive(Clone, Copy, Debug, PartialEq, Eq)]
pub enum Which {
    /// The bytes of the scene's text.
    Scene,
    /// The call lines of all scripts.
    Calls,
    /// The scripts, of which each runs on a worker of its own.
    Workers,
    /// The declared files.
    Files,
    /// The declared processes.
    Processes,
    /// The static modules of the trust list.
    Statics,
    /// The declared trust caches.
    Caches,
    /// The declared pager calls that fail.
    Fails,
    /// The call lines that attach a signature.
    Attaches,
    /// The bytes of one file.
    FileBytes,
    /// The bytes of one slice's signature.
    SignatureBytes,
}

/// How a program ended. The process's exit code is `code` of it.
#[derive(Clone, Copy, Debug, PartialEq, Eq)]
pub enum Status {
    /// The run is over and its whole text went out.
    Done,
    /// The verified file is no Mach-O or fat file, or has no slice, a refused slice, a page that does not match its
    /// slot, or a page without one.
    NotSealed,
    /// The words of the command line are none of the program's forms.
    Usage,
    /// The scene's line `line`, counted from 1, is the first that is bad; `kind` says how.
    SceneBad { line: u64, kind: u8 },
    /// The file of item `item` could not be read. Item 0 is the file that the command line names, and the items of a
    /// scene are counted from 1.
    FileFault { item: u32 },
    /// The output could not be written.
    SinkFault,
    /// The quantity is above its limit, which is `number`.
    Limit { which: Which, number: u64 },
    /// The static trust cache of item `item` breaks rule `number` of its format, with argument `arg`.
    TrustBad { item: u32, number: u8, arg: u64 },
    /// Memory ran out. Nothing was written.
    NoMemory,
}

/// The exit code of a status, 0 to 8 in the order of the variants.
pub fn code(status: &Status) -> u8
    ensures { result ≡ code_of status.now }
{
    match status {
        Status::Done => 0,
        Status::NotSealed => 1,
        Status::Usage => 2,
        Status::SceneBad { .. } => 3,
        Status::FileFault { .. } => 4,
        Status::SinkFault => 5,
        Status::Limit { .. } => 6,
        Status::TrustBad { .. } => 7,
        Status::NoMemory => 8,
    }
}
