//! Events and replies: what happens to a part of the machine, and what the part answers.
//!
//! A part is changed by one event after another, and answers each with a reply. Here are the events and replies
//! of a file, of a process and of the trust list, and the entries and calls that are made of them; refusals, by which
//! replies tell of bytes that break their format; denials, by which they tell of accesses that break a rule; where the
//! slices of a file lie; and the regions of a file with what each was given. The flags of a process decide how code
//! signing is enforced on it.
#![tactic(auto)]

mod access;
mod call;
mod data;
mod denial;
mod entry;
mod file;
mod flags;
mod laws;
mod layout;
mod process;
mod refusal;
mod region;
mod trust;

pub use access::{Access, Prot};
pub use call::Call;
pub use data::{Bytes64, Data};
pub use denial::Denial;
pub use entry::{Entry, Event, Place, Reply, Who};
pub use file::{FileEvent, FileReply};
pub use flags::{ProcFlags, enforced, guarded};
pub use laws::{any_bits_are_flags, flags_guard};
pub use layout::{Layout, Seats, SliceSeat};
pub use process::{ProcEvent, ProcReply};
pub use refusal::{
    DIRECTORY_FAMILY, FAT_FAMILY, IMAGE_FAMILY, Refusal, SIGNATURE_FAMILY, SUPERBLOB_FAMILY,
    TRUST_FAMILY,
};
pub use region::{Record, Region};
pub use trust::{TrustEvent, TrustReply};

#[cfg(test)]
mod tests;
