//! The words with which the lines of a scene begin.

ghost use Rattle.std.specs.Prelude.{◌≡◌, ◌==◌, bytes_eq};
ghost use Rattle.scene_text.specs.Keywords.{head_text, call_text, head_word, call_word, keyword_of, head_columns, call_columns};

use pg_words::is_text;

/// The first word of a header line.
#[derive(Clone, Copy, Debug)]
pub enum HeadWord {
    PageSize,
    Policy,
    Resident,
    File,
    Raw,
    Static,
    Admit,
    Cache,
    Process,
    Fail,
}

/// The first word of a call line.
#[derive(Clone, Copy, Debug)]
pub enum CallWord {
    Spawn,
    Map,
    Unmap,
    Attach,
    LoadTrust,
    Fault,
    Store,
    Load,
    Fetch,
    Write,
    Evict,
    Debug,
    Exit,
}

/// The first word of a line.
#[derive(Clone, Copy, Debug)]
pub enum Keyword {
    Head(HeadWord),
    Script,
    Call(CallWord),
}

impl HeadWord {
    const ALL: [HeadWord; 10] = [
        HeadWord::PageSize,
        HeadWord::Policy,
        HeadWord::Resident,
        HeadWord::File,
        HeadWord::Raw,
        HeadWord::Static,
        HeadWord::Admit,
        HeadWord::Cache,
        HeadWord::Process,
        HeadWord::Fail,
    ];

    /// How the word is written.
    fn text(self) -> &'static str
        ensures { result.now ≡ head_text self }
    {
        match self {
            HeadWord::PageSize => "pagesize",
            HeadWord::Policy => "policy",
            HeadWord::Resident => "resident",
            HeadWord::File => "file",
            HeadWord::Raw => "raw",
            HeadWord::Static => "static",
            HeadWord::Admit => "admit",
            HeadWord::Cache => "cache",
            HeadWord::Process => "process",
            HeadWord::Fail => "fail",
        }
    }

    /// How many words follow it.
    pub fn columns(self) -> usize
        ensures { result ≡ head_columns self }
    {
        match self {
            HeadWord::Raw => 3,
            HeadWord::Fail => 2,
            _ => 1,
        }
    }
}

/// The first word of a header line that a word is.
#[tactic(auto, unfolding(crate::specs::Keywords::head_word))]
fn head_word(word: &[u8]) -> Option<HeadWord>
    ensures { result ≡ head_word word.now }
{
    for key in HeadWord::ALL {
        if is_text(word, key.text().as_bytes()) {
            return Some(key);
        }
    }
    None
}

impl CallWord {
    const ALL: [CallWord; 13] = [
        CallWord::Spawn,
        CallWord::Map,
        CallWord::Unmap,
        CallWord::Attach,
        CallWord::LoadTrust,
        CallWord::Fault,
        CallWord::Store,
        CallWord::Load,
        CallWord::Fetch,
        CallWord::Write,
        CallWord::Evict,
        CallWord::Debug,
        CallWord::Exit,
    ];

    /// How the word is written.
    fn text(self) -> &'static str
        ensures { result.now ≡ call_text self }
    {
        match self {
            CallWord::Spawn => "spawn",
            CallWord::Map => "map",
            CallWord::Unmap => "unmap",
            CallWord::Attach => "attach",
            CallWord::LoadTrust => "loadtrust",
            CallWord::Fault => "fault",
            CallWord::Store => "store",
            CallWord::Load => "load",
            CallWord::Fetch => "fetch",
            CallWord::Write => "write",
            CallWord::Evict => "evict",
            CallWord::Debug => "debug",
            CallWord::Exit => "exit",
        }
    }

    /// How many words follow it.
    pub fn columns(self) -> usize
        ensures { result ≡ call_columns self }
    {
        match self {
            CallWord::Map => 7,
            CallWord::Fault
            | CallWord::Store
            | CallWord::Load
            | CallWord::Fetch
            | CallWord::Write => 3,
            CallWord::Unmap | CallWord::Attach | CallWord::Evict => 2,
            CallWord::Spawn | CallWord::LoadTrust | CallWord::Debug | CallWord::Exit => 1,
        }
    }
}

/// The first word of a call line that a word is.
#[tactic(auto, unfolding(crate::specs::Keywords::call_word))]
fn call_word(word: &[u8]) -> Option<CallWord>
    ensures { result ≡ call_word word.now }
{
    for key in CallWord::ALL {
        if is_text(word, key.text().as_bytes()) {
            return Some(key);
        }
    }
    None
}

/// The keyword that a word is.
#[tactic(auto, unfolding(crate::specs::Keywords::keyword_of))]
pub fn first_word(word: &[u8]) -> Option<Keyword>
    ensures { result ≡ keyword_of word.now }
{
    if is_text(word, b"script") {
        return Some(Keyword::Script);
    }
    if let Some(key) = head_word(word) {
        return Some(Keyword::Head(key));
    }
    call_word(word).map(Keyword::Call)
}
