//! A file behind its lock.

ghost use Rattle.std.specs.Prelude.{◌≡◌, ◌<◌, length, IsSomeAnd, IfOk, IsErr, OnErr};
ghost use Rattle.cs_policy.specs.declared.entry.Event.TheVariants as event;
ghost use Rattle.cs_policy.specs.declared.entry.Place.TheVariants as place;
ghost use Rattle.pg_object.specs.Acts.{Acts};
ghost use Rattle.pg_history.specs.Calls.{of_file};
ghost use Rattle.pg_calls.specs.Parts.{HasRoom, Asks};
ghost use Rattle.pg_calls.specs.Asking.{event_of, TakesMemory, IsProper};
ghost use Rattle.pg_parts.specs.Opened.{numbers_in};
ghost use Rattle.pg_parts.specs.Asking.{signature_in};
ghost use Rattle.pg_shared.specs.Passes.{shown, IsPassOf};
ghost use Rattle.pg_shared.specs.Cells.{IsFileOf};

use crate::NoMemory;
use crate::naming::Naming;
use cs_policy::{Entry, Who};
use pg_book::{Pass, Receipt, Spine};
use pg_calls::FileCall;
use pg_digest::Digester;
use pg_io::Pager;
use pg_object::Object;
use pg_parts::{ask_file, file_entry};
use std::alloc::Global;
use std::marker::{Model, PhantomData};

/// A file of the run and its spine. Where the pager told its content at the opening, the entries on the spine lead from the
/// file as it was opened to the file as it is. The object's type keeps the sealing, and the spine knows of each attached
/// signature the lookup that admitted it.
#[derive(Drop)]
pub struct FileCell<B: Naming, P: Pager, D: Digester> {
    object: Object<P, D>,
    spine: Spine<Entry>,
    of: PhantomData<B>,
}

impl<B: Naming, P: Pager, D: Digester> Model for FileCell<B, P, D> {
    ghost use Rattle.pg_shared.specs.Cells.{FileCellNow, IsFileOf};

    ghost Value = { FileCellNow };

    ghost view = { λ cell. record { object = cell.object; spine = cell.spine } };

    ghost invariant = { λ cell. IsFileOf D.hash B.plan (record { object = cell.object; spine = cell.spine }) };
}

impl<B: Naming, P: Pager, D: Digester> FileCell<B, P, D> {
    /// A file of the run with its spine.
    pub fn new(object: Object<P, D>, spine: Spine<Entry>) -> FileCell<B, P, D>
        requires kept { IsFileOf D.hash B.plan (record { object = object; spine = spine }) }
        ensures cell { result ≡ record { object = object; spine = spine } }
    {
        FileCell {
            object,
            spine,
            of: PhantomData,
        }
    }

    /// The number of the part, counted from 0: that of its spine.
    pub fn part(&self) -> u32
        ensures number { result ≡ self.now.spine.part }
    {
        self.spine.part()
    }

    /// Makes an event of the file with this number, whose cell this is, and gives its receipt. The pass is the worker's, and
    /// has room for the event.
    ///
    /// `NoMemory` comes only of an event that reads a signature or writes, and then the file is as before and nothing was
    /// drawn.
    pub fn enter(
        &mut self,
        alloc: Global,
        pass: &mut Pass<Entry>,
        who: Who,
        file: u32,
        asked: FileCall,
    ) -> Result<Receipt<Entry>, NoMemory>
        requires pass { IsPassOf B.plan who.worker pass.old }
        requires part { self.old.spine.part ≡ file }
        requires declared { file < length (numbers_in B.plan.start).files }
        requires proper { IsProper D.hash (shown B.plan pass.old) who file asked }
        requires room { HasRoom (shown B.plan pass.old) who (place.File file)
            (event.File (event_of asked)) }
        ensures asks { IfOk result (λ receipt. Asks (shown B.plan pass.old) who (place.File file)
            (event.File (event_of asked)) receipt (shown B.plan pass.new)) }
        ensures acts { IfOk result (λ receipt. IsSomeAnd (of_file receipt.entry.reply) (λ answer.
            Acts D.hash self.old.object (event_of asked) (signature_in asked) answer
            self.new.object)) }
        ensures unmade { OnErr result (shown B.plan pass.new ≡ shown B.plan pass.old) }
        ensures unasked { OnErr result (self.new ≡ self.old) }
        ensures memory { IsErr result → TakesMemory (event_of asked) }
        ensures pass { IsPassOf B.plan who.worker pass.new }
    {
        self.spine.meet(pass);
        let (answer, twin) = ask_file(alloc, &mut self.object, asked)?;
        let entry = file_entry(who, file, answer);
        let twin = file_entry(who, file, twin);
        Ok(self.spine.draw(pass, entry, twin))
    }

    /// The file and its spine.
    pub fn into_parts(self) -> (Object<P, D>, Spine<Entry>)
        ensures parts { record { object = result.0; spine = result.1 } ≡ self }
        ensures kept { IsFileOf D.hash B.plan self }
    {
        let FileCell {
            object,
            spine,
            of: _,
        } = self;
        (object, spine)
    }
}
