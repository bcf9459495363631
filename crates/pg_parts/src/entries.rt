//! The entries of parts.

ghost use Rattle.std.specs.Prelude.{◌≡◌};
ghost use Rattle.cs_policy.specs.declared.entry.Event.TheVariants as event;
ghost use Rattle.cs_policy.specs.declared.entry.Reply.TheVariants as reply;
ghost use Rattle.cs_policy.specs.declared.entry.Place.TheVariants as place;
ghost use Rattle.pg_history.specs.Machine.{signed_range};
ghost use Rattle.pg_history.specs.Opening.{seat_in};

use crate::asking::FileAnswer;
use cs_policy::{
    Entry, Event, Layout, Place, ProcEvent, ProcReply, Reply, SliceSeat, TrustEvent, TrustReply,
    Who,
};
use pg_bytes::Range;

/// The entry of a file: who asked, which file, and its event with the reply.
pub fn file_entry(who: Who, file: u32, answer: FileAnswer) -> Entry
    ensures { result ≡ record {
      who = who;
      place = place.File file;
      event = event.File answer.event;
      reply = reply.File answer.reply;
    } }
{
    Entry {
        who,
        place: Place::File(file),
        event: Event::File(answer.event),
        reply: Reply::File(answer.reply),
    }
}

/// The entry of a process: who asked, which process, and its event with the reply.
pub fn process_entry(who: Who, pid: u32, asked: ProcEvent, answer: ProcReply) -> Entry
    ensures { result ≡ record {
      who = who;
      place = place.Process pid;
      event = event.Proc asked;
      reply = reply.Proc answer;
    } }
{
    Entry {
        who,
        place: Place::Process(pid),
        event: Event::Proc(asked),
        reply: Reply::Proc(answer),
    }
}

/// The entry of the trust list: who asked, and its event with the reply.
pub fn trust_entry(who: Who, asked: TrustEvent, answer: TrustReply) -> Entry
    ensures { result ≡ record {
      who = who;
      place = place.Trust;
      event = event.Trust asked;
      reply = reply.Trust answer;
    } }
{
    Entry {
        who,
        place: Place::Trust,
        event: Event::Trust(asked),
        reply: Reply::Trust(answer),
    }
}

/// Where a slice of this number lies, where it is a signed image.
pub fn signed_range(layout: &Layout, slice: u32) -> Option<Range>
    ensures { result ≡ signed_range (seat_in slice layout.now) }
{
    let Layout::Slices(seats) = layout else {
        return None;
    };
    match seats.items().get(slice as usize)? {
        SliceSeat::Signed { slice, .. } => Some(*slice),
        SliceSeat::Refused(_) => None,
    }
}
