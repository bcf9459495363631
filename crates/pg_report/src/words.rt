//! The words with which events, replies and denials begin.

ghost use Rattle.std.specs.Prelude.{◌≡◌};
ghost use Rattle.pg_report.specs.Words.{file_keyword, file_word, proc_keyword, proc_word, trust_keyword, trust_word, reply_keyword, reply_word, denial_keyword, denial_word};

use pg_words::is_text;

/// The first word of an event of a file.
#[derive(Clone, Copy, Debug)]
pub enum FileWord {
    ReadSignature,
    AddBlob,
    RefuseBlob,
    Write,
    AddRegion,
    DropRegion,
    DropPid,
    Enter,
    Store,
    Load,
    Fetch,
    Evict,
}

impl FileWord {
    const ALL: [FileWord; 12] = [
        FileWord::ReadSignature,
        FileWord::AddBlob,
        FileWord::RefuseBlob,
        FileWord::Write,
        FileWord::AddRegion,
        FileWord::DropRegion,
        FileWord::DropPid,
        FileWord::Enter,
        FileWord::Store,
        FileWord::Load,
        FileWord::Fetch,
        FileWord::Evict,
    ];

    /// How the word is written.
    fn text(self) -> &'static str
        ensures { result.now ≡ file_keyword self }
    {
        match self {
            FileWord::ReadSignature => "readsig",
            FileWord::AddBlob => "addblob",
            FileWord::RefuseBlob => "refuse",
            FileWord::Write => "write",
            FileWord::AddRegion => "addregion",
            FileWord::DropRegion => "dropregion",
            FileWord::DropPid => "droppid",
            FileWord::Enter => "enter",
            FileWord::Store => "store",
            FileWord::Load => "load",
            FileWord::Fetch => "fetch",
            FileWord::Evict => "evict",
        }
    }
}

/// The first word of an event of a file.
#[tactic(auto, unfolding(crate::specs::Words::file_word))]
pub fn file_word(word: &[u8]) -> Option<FileWord>
    ensures { result ≡ file_word word.now }
{
    for key in FileWord::ALL {
        if is_text(word, key.text().as_bytes()) {
            return Some(key);
        }
    }
    None
}

/// The first word of an event of a process.
#[derive(Clone, Copy, Debug)]
pub enum ProcWord {
    Start,
    Insert,
    Resolve,
    Remove,
    Debug,
    Punish,
    ClearValid,
    Exit,
}

impl ProcWord {
    const ALL: [ProcWord; 8] = [
        ProcWord::Start,
        ProcWord::Insert,
        ProcWord::Resolve,
        ProcWord::Remove,
        ProcWord::Debug,
        ProcWord::Punish,
        ProcWord::ClearValid,
        ProcWord::Exit,
    ];

    /// How the word is written.
    fn text(self) -> &'static str
        ensures { result.now ≡ proc_keyword self }
    {
        match self {
            ProcWord::Start => "start",
            ProcWord::Insert => "insert",
            ProcWord::Resolve => "resolve",
            ProcWord::Remove => "remove",
            ProcWord::Debug => "debug",
            ProcWord::Punish => "punish",
            ProcWord::ClearValid => "clearvalid",
            ProcWord::Exit => "exit",
        }
    }
}

/// The first word of an event of a process.
#[tactic(auto, unfolding(crate::specs::Words::proc_word))]
pub fn proc_word(word: &[u8]) -> Option<ProcWord>
    ensures { result ≡ proc_word word.now }
{
    for key in ProcWord::ALL {
        if is_text(word, key.text().as_bytes()) {
            return Some(key);
        }
    }
    None
}

/// The first word of an event of the trust list.
#[derive(Clone, Copy, Debug)]
pub enum TrustWord {
    LoadModule,
    Lookup,
}

impl TrustWord {
    const ALL: [TrustWord; 2] = [TrustWord::LoadModule, TrustWord::Lookup];

    /// How the word is written.
    fn text(self) -> &'static str
        ensures { result.now ≡ trust_keyword self }
    {
        match self {
            TrustWord::LoadModule => "loadmodule",
            TrustWord::Lookup => "lookup",
        }
    }
}

/// The first word of an event of the trust list.
#[tactic(auto, unfolding(crate::specs::Words::trust_word))]
pub fn trust_word(word: &[u8]) -> Option<TrustWord>
    ensures { result ≡ trust_word word.now }
{
    for key in TrustWord::ALL {
        if is_text(word, key.text().as_bytes()) {
            return Some(key);
        }
    }
    None
}

/// The first word of a reply.
#[derive(Clone, Copy, Debug)]
pub enum ReplyWord {
    NoSlices,
    NoSlice,
    NoImage,
    PagerFault,
    Read,
    Already,
    Overlap,
    Attached,
    Noted,
    PastEnd,
    Short,
    Written,
    Added,
    NoRegion,
    Dropped,
    Denied,
    Given,
    NotMapped,
    Stored,
    Bytes,
    NotResident,
    Evicted,
    Dead,
    Killed,
    Started,
    Began,
    OutOfFile,
    Full,
    Inserted,
    NoMap,
    Prot,
    Region,
    Removed,
    Debugged,
    Kill,
    Spare,
    Cleared,
    Exited,
    Refused,
    Loaded,
    Listed,
    Unlisted,
}

impl ReplyWord {
    const ALL: [ReplyWord; 42] = [
        ReplyWord::NoSlices,
        ReplyWord::NoSlice,
        ReplyWord::NoImage,
        ReplyWord::PagerFault,
        ReplyWord::Read,
        ReplyWord::Already,
        ReplyWord::Overlap,
        ReplyWord::Attached,
        ReplyWord::Noted,
        ReplyWord::PastEnd,
        ReplyWord::Short,
        ReplyWord::Written,
        ReplyWord::Added,
        ReplyWord::NoRegion,
        ReplyWord::Dropped,
        ReplyWord::Denied,
        ReplyWord::Given,
        ReplyWord::NotMapped,
        ReplyWord::Stored,
        ReplyWord::Bytes,
        ReplyWord::NotResident,
        ReplyWord::Evicted,
        ReplyWord::Dead,
        ReplyWord::Killed,
        ReplyWord::Started,
        ReplyWord::Began,
        ReplyWord::OutOfFile,
        ReplyWord::Full,
        ReplyWord::Inserted,
        ReplyWord::NoMap,
        ReplyWord::Prot,
        ReplyWord::Region,
        ReplyWord::Removed,
        ReplyWord::Debugged,
        ReplyWord::Kill,
        ReplyWord::Spare,
        ReplyWord::Cleared,
        ReplyWord::Exited,
        ReplyWord::Refused,
        ReplyWord::Loaded,
        ReplyWord::Listed,
        ReplyWord::Unlisted,
    ];

    /// How the word is written.
    fn text(self) -> &'static str
        ensures { result.now ≡ reply_keyword self }
    {
        match self {
            ReplyWord::NoSlices => "noslices",
            ReplyWord::NoSlice => "noslice",
            ReplyWord::NoImage => "noimage",
            ReplyWord::PagerFault => "pagerfault",
            ReplyWord::Read => "read",
            ReplyWord::Already => "already",
            ReplyWord::Overlap => "overlap",
            ReplyWord::Attached => "attached",
            ReplyWord::Noted => "noted",
            ReplyWord::PastEnd => "pastend",
            ReplyWord::Short => "short",
            ReplyWord::Written => "written",
            ReplyWord::Added => "added",
            ReplyWord::NoRegion => "noregion",
            ReplyWord::Dropped => "dropped",
            ReplyWord::Denied => "denied",
            ReplyWord::Given => "given",
            ReplyWord::NotMapped => "notmapped",
            ReplyWord::Stored => "stored",
            ReplyWord::Bytes => "bytes",
            ReplyWord::NotResident => "notresident",
            ReplyWord::Evicted => "evicted",
            ReplyWord::Dead => "dead",
            ReplyWord::Killed => "killed",
            ReplyWord::Started => "started",
            ReplyWord::Began => "began",
            ReplyWord::OutOfFile => "outoffile",
            ReplyWord::Full => "full",
            ReplyWord::Inserted => "inserted",
            ReplyWord::NoMap => "nomap",
            ReplyWord::Prot => "prot",
            ReplyWord::Region => "region",
            ReplyWord::Removed => "removed",
            ReplyWord::Debugged => "debugged",
            ReplyWord::Kill => "kill",
            ReplyWord::Spare => "spare",
            ReplyWord::Cleared => "cleared",
            ReplyWord::Exited => "exited",
            ReplyWord::Refused => "refused",
            ReplyWord::Loaded => "loaded",
            ReplyWord::Listed => "listed",
            ReplyWord::Unlisted => "unlisted",
        }
    }
}

/// The first word of a reply.
#[tactic(auto, unfolding(crate::specs::Words::reply_word))]
pub fn reply_word(word: &[u8]) -> Option<ReplyWord>
    ensures { result ≡ reply_word word.now }
{
    for key in ReplyWord::ALL {
        if is_text(word, key.text().as_bytes()) {
            return Some(key);
        }
    }
    None
}

/// The first word of a denial.
#[derive(Clone, Copy, Debug)]
pub enum DenialWord {
    PrivateCopy,
    Unsigned,
    BeyondLimit,
    WritableShared,
    Mismatch,
    SealedWrite,
}

impl DenialWord {
    const ALL: [DenialWord; 6] = [
        DenialWord::PrivateCopy,
        DenialWord::Unsigned,
        DenialWord::BeyondLimit,
        DenialWord::WritableShared,
        DenialWord::Mismatch,
        DenialWord::SealedWrite,
    ];

    /// How the word is written.
    fn text(self) -> &'static str
        ensures { result.now ≡ denial_keyword self }
    {
        match self {
            DenialWord::PrivateCopy => "privatecopy",
            DenialWord::Unsigned => "unsigned",
            DenialWord::BeyondLimit => "beyondlimit",
            DenialWord::WritableShared => "writableshared",
            DenialWord::Mismatch => "mismatch",
            DenialWord::SealedWrite => "sealedwrite",
        }
    }
}

/// The first word of a denial.
#[tactic(auto, unfolding(crate::specs::Words::denial_word))]
pub fn denial_word(word: &[u8]) -> Option<DenialWord>
    ensures { result ≡ denial_word word.now }
{
    for key in DenialWord::ALL {
        if is_text(word, key.text().as_bytes()) {
            return Some(key);
        }
    }
    None
}
