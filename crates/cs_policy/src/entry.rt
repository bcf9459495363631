//! Events and replies of all parts, and the entries that a history is made of.

ghost use Rattle.std.specs.Prelude.{◌≡◌, IfOk, IsErr};
ghost use Rattle.cs_policy.specs.Entry.{HoldsBytes, HoldsAnyEventBytes, HoldsAnyReplyBytes};

use crate::file::{FileEvent, FileReply};
use crate::process::{ProcEvent, ProcReply};
use crate::trust::{TrustEvent, TrustReply};
use std::alloc::{AllocError, Global};

/// What happens to a part of the machine.
#[derive(Debug, Drop)]
pub enum Event {
    File(FileEvent),
    Proc(ProcEvent),
    Trust(TrustEvent),
}

/// What a part of the machine answers.
#[derive(Debug, Drop)]
pub enum Reply {
    File(FileReply),
    Proc(ProcReply),
    Trust(TrustReply),
}

/// Who makes an event: the worker, which runs the script of its number, and the call line of that script, both
/// counted from 0.
#[derive(Clone, Copy, Debug, PartialEq, Eq)]
pub struct Who {
    pub worker: u32,
    pub call: u32,
}

/// The part to which an event happens: a file or a process by its number, or the trust list.
#[derive(Clone, Copy, Debug, PartialEq, Eq)]
pub enum Place {
    File(u32),
    Process(u32),
    Trust,
}

/// One entry of a history: who made the event, where, the event, and the part's reply.
#[derive(Debug, Drop)]
pub struct Entry {
    pub who: Who,
    pub place: Place,
    pub event: Event,
    pub reply: Reply,
}

impl Event {
    /// An equal value. The error, `AllocError`, comes only where the event holds the bytes of a write and there is no
    /// memory for them.
    pub fn copy(&self) -> Result<Event, AllocError>
        ensures value { IfOk result (λ copy. copy ≡ self.now) }
        ensures owned { IsErr result → HoldsAnyEventBytes self.now }
    {
        match self {
            Event::File(event) => Ok(Event::File(event.copy()?)),
            Event::Proc(event) => Ok(Event::Proc(*event)),
            Event::Trust(event) => Ok(Event::Trust(*event)),
        }
    }
}

impl Reply {
    /// An equal value. The error, `AllocError`, comes only where the reply holds the bytes of a signature and there is
    /// no memory for them.
    pub fn copy(&self) -> Result<Reply, AllocError>
        ensures value { IfOk result (λ copy. copy ≡ self.now) }
        ensures owned { IsErr result → HoldsAnyReplyBytes self.now }
    {
        match self {
            Reply::File(reply) => Ok(Reply::File(reply.copy()?)),
            Reply::Proc(reply) => Ok(Reply::Proc(*reply)),
            Reply::Trust(reply) => Ok(Reply::Trust(*reply)),
        }
    }
}

impl Entry {
    /// An equal value. The error, `AllocError`, comes only where the entry holds the bytes of a write or of a
    /// signature and there is no memory for them.
    pub fn copy(&self) -> Result<Entry, AllocError>
        ensures value { IfOk result (λ copy. copy ≡ self.now) }
        ensures owned { IsErr result → HoldsBytes self.now }
    {
        Ok(Entry {
            who: self.who,
            place: self.place,
            event: self.event.copy()?,
            reply: self.reply.copy()?,
        })
    }
}
