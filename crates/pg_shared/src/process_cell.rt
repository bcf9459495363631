//! A process behind its lock.

ghost use Rattle.std.specs.Prelude.{◌≡◌, ◌<◌};
ghost use Rattle.cs_policy.specs.declared.entry.Event.TheVariants as event;
ghost use Rattle.cs_policy.specs.declared.entry.Reply.TheVariants as reply;
ghost use Rattle.cs_policy.specs.declared.entry.Place.TheVariants as place;
ghost use Rattle.pg_process.specs.ProcessStep.{process_step};
ghost use Rattle.pg_calls.specs.Parts.{HasRoom, Asks};
ghost use Rattle.pg_calls.specs.Asking.{IsProperOf};
ghost use Rattle.pg_parts.specs.Opened.{numbers_in};
ghost use Rattle.pg_shared.specs.Plan.{number_at};
ghost use Rattle.pg_shared.specs.Passes.{shown, IsPassOf};
ghost use Rattle.pg_shared.specs.Cells.{IsProcessOf};

use crate::naming::Naming;
use cs_policy::{Entry, ProcEvent, Who};
use pg_book::{Pass, Receipt, Spine};
use pg_parts::{ask_process, process_entry};
use pg_process::Process;
use std::marker::{Model, PhantomData};

/// A process of the run and its spine. The entries on the spine lead from the process as it was opened to the process as
/// it is.
#[derive(Drop)]
pub struct ProcessCell<B: Naming> {
    process: Process,
    spine: Spine<Entry>,
    of: PhantomData<B>,
}

impl<B: Naming> Model for ProcessCell<B> {
    ghost use Rattle.pg_shared.specs.Cells.{ProcessCellNow, IsProcessOf};

    ghost Value = { ProcessCellNow };

    ghost view = { λ cell. record { process = cell.process; spine = cell.spine } };

    ghost invariant = { λ cell. IsProcessOf B.plan (record { process = cell.process; spine = cell.spine }) };
}

impl<B: Naming> ProcessCell<B> {
    /// A process of the run with its spine.
    pub fn new(process: Process, spine: Spine<Entry>) -> ProcessCell<B>
        requires kept { IsProcessOf B.plan (record { process = process; spine = spine }) }
        ensures cell { result ≡ record { process = process; spine = spine } }
    {
        ProcessCell {
            process,
            spine,
            of: PhantomData,
        }
    }

    /// The number of the part, counted from 0: that of its spine.
    pub fn part(&self) -> u32
        ensures number { result ≡ self.now.spine.part }
    {
        self.spine.part()
    }

    /// Makes an event of the process with this number, whose cell this is, and gives its receipt. The pass is the worker's,
    /// and has room for the event.
    pub fn enter(
        &mut self,
        pass: &mut Pass<Entry>,
        who: Who,
        pid: u32,
        asked: ProcEvent,
    ) -> Receipt<Entry>
        requires pass { IsPassOf B.plan who.worker pass.old }
        requires part { self.old.spine.part ≡ number_at B.plan (place.Process pid) }
        requires declared { pid < (numbers_in B.plan.start).processes }
        requires proper { IsProperOf (numbers_in B.plan.start) asked }
        requires room { HasRoom (shown B.plan pass.old) who (place.Process pid) (event.Proc asked) }
        ensures asks { Asks (shown B.plan pass.old) who (place.Process pid) (event.Proc asked) result
            (shown B.plan pass.new) }
        ensures reply { result.entry.reply ≡ reply.Proc (process_step self.old.process asked).0 }
        ensures after { self.new.process ≡ (process_step self.old.process asked).1 }
        ensures pass { IsPassOf B.plan who.worker pass.new }
    {
        self.spine.meet(pass);
        let reply = ask_process(&mut self.process, asked);
        let entry = process_entry(who, pid, asked, reply);
        let twin = process_entry(who, pid, asked, reply);
        self.spine.draw(pass, entry, twin)
    }

    /// The process and its spine.
    pub fn into_parts(self) -> (Process, Spine<Entry>)
        ensures parts { record { process = result.0; spine = result.1 } ≡ self }
        ensures kept { IsProcessOf B.plan self }
    {
        let ProcessCell {
            process,
            spine,
            of: _,
        } = self;
        (process, spine)
    }
}
