//! The machine.

ghost use Rattle.std.specs.Prelude.{◌≡◌, ◌<◌, [], length, IfOk, IfSome};
ghost use Rattle.pg_history.specs.Legal.{IsStamped, Agrees};
ghost use Rattle.pg_parts.specs.Opened.{numbers_in, opening_in, IsOpenable};
ghost use Rattle.pg_machine.specs.Solo.{shown, WentOn, IsAnswered};

use crate::NoMemory;
use crate::entering::{enter, entries_of};
use cs_policy::{Entry, ProcEvent, TrustEvent, Who};
use pg_book::{AllNeeds, Receipt, Stamped};
use pg_bytes::Range;
use pg_calls::{FileCall, Parts};
use pg_digest::Digester;
use pg_io::Pager;
use pg_object::Object;
use pg_parts::{
    Opened, ask_file, ask_process, ask_trust, file_entry, process_entry, signed_range, trust_entry,
};
use pg_process::Process;
use pg_trusted::Trusted;
use std::alloc::Global;
use std::marker::Model;
use std::snapshot::Snapshot;

/// A machine without locks: its parts, and the history of what was made on it. It is seen as the parts with which it was
/// opened and that history.
#[derive(Drop)]
pub struct Solo<P: Pager, D: Digester> {
    alloc: Global,
    page_size: u32,
    adhoc: bool,
    files: Vec<Object<P, D>>,
    processes: Vec<Process>,
    trusted: Trusted,
    needs: AllNeeds,
    history: Vec<Stamped<Entry>>,
    start: Snapshot<Opened<P, D>>,
}

impl<P: Pager, D: Digester> Model for Solo<P, D> {
    ghost use Rattle.std.specs.Prelude.{◌≤◌, vec_capacity};
    ghost use Rattle.pg_book.specs.Needs.{rows, all_entries};
    ghost use Rattle.pg_machine.specs.Solo.{SoloNow, IsRunning};

    ghost Value = { SoloNow };

    ghost view = { λ solo. record { start = solo.start.value; made = solo.history.items } };

    ghost invariant = { λ solo.
        IsRunning D.hash solo.start.value solo.history.items (record {
          page_size = solo.page_size;
          adhoc = solo.adhoc;
          files = solo.files.items;
          processes = solo.processes.items;
          trust = solo.trusted;
          needs = rows solo.needs;
        })
        × (all_entries solo.start.value.needs ≤ vec_capacity solo.history) };
}

impl<P: Pager, D: Digester + Drop> Solo<P, D> {
    /// A machine of these parts, which were just opened. The memory for all entries that the workers may make is taken here.
    pub fn open(alloc: Global, opened: Opened<P, D>) -> Result<Solo<P, D>, NoMemory>
        requires openable { IsOpenable D.hash opened }
        ensures opened { IfOk result (λ solo. solo ≡ record { start = opened; made = [] }) }
    {
        let start = Snapshot::of(&opened);
        let Opened {
            page_size,
            adhoc,
            files,
            processes,
            trusted,
            needs,
        } = opened;
        let entries = entries_of(needs.as_slice());
        let history = Vec::with_capacity(alloc, entries as usize)?;
        Ok(Solo {
            alloc,
            page_size,
            adhoc,
            files,
            processes,
            trusted,
            needs,
            history,
            start,
        })
    }
}

impl<P: Pager, D: Digester> Solo<P, D> {
    /// Ends the run. It gives the history, each of whose entries has its place as its stamp, and the parts as they are now:
    /// each has gone on by its own entries. Where the pagers of all files told their content at the opening, the plain
    /// machine answers the history part by part.
    pub fn close(self) -> (Vec<Stamped<Entry>>, Opened<P, D>)
        ensures history { result.0.items ≡ self.made }
        ensures stamps { IsStamped self.made }
        ensures agrees { Agrees (numbers_in self.start) self.made }
        ensures parts { WentOn D.hash self.start self.made result.1 }
        ensures answered { IfSome (opening_in self.start)
            (IsAnswered D.hash (numbers_in self.start) self.made) }
    {
        let Solo {
            alloc: _,
            page_size,
            adhoc,
            files,
            processes,
            trusted,
            needs,
            history,
            start: _,
        } = self;
        let parts = Opened {
            page_size,
            adhoc,
            files,
            processes,
            trusted,
            needs,
        };
        (history, parts)
    }
}

impl<P: Pager, D: Digester> Parts for Solo<P, D> {
    ghost hash = { D.hash };

    ghost shows = { shown };

    ghost serves = { λ solo worker. worker < length solo.start.needs };

    fn file(&mut self, who: Who, file: u32, asked: FileCall) -> Result<Receipt<Entry>, NoMemory> {
        let (answer, twin) = ask_file(self.alloc, &mut self.files[file as usize], asked)?;
        let entry = file_entry(who, file, answer);
        let twin = file_entry(who, file, twin);
        Ok(enter(&mut self.history, file, entry, twin))
    }

    fn process(&mut self, who: Who, pid: u32, asked: ProcEvent) -> Receipt<Entry> {
        let reply = ask_process(&mut self.processes[pid as usize], asked);
        let part = self.files.len() as u32 + pid;
        let entry = process_entry(who, pid, asked, reply);
        let twin = process_entry(who, pid, asked, reply);
        enter(&mut self.history, part, entry, twin)
    }

    fn trust(&mut self, who: Who, asked: TrustEvent) -> Receipt<Entry> {
        let reply = ask_trust(&mut self.trusted, asked);
        let part = (self.files.len() + self.processes.len()) as u32;
        let entry = trust_entry(who, asked, reply);
        let twin = trust_entry(who, asked, reply);
        enter(&mut self.history, part, entry, twin)
    }

    fn file_pages(&self, file: u32) -> u64 {
        match self.files.get(file as usize) {
            Some(object) => object.file_pages(),
            None => 0,
        }
    }

    fn slice(&self, file: u32, slice: u32) -> Option<Range> {
        let object = self.files.get(file as usize)?;
        signed_range(object.layout(), slice)
    }

    fn page_size(&self) -> u32 {
        self.page_size
    }

    fn adhoc(&self) -> bool {
        self.adhoc
    }
}
