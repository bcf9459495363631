//! The parts of a run behind locks.

ghost use Rattle.std.specs.Prelude.{◌≡◌, ◌<◌, length, slice_get, IfOk, IsErr, OnErr};
ghost use Rattle.std.specs.Option.{option_map};
ghost use Rattle.core.specs.Sync.Mutex.{mutex_guard_value};
ghost use Rattle.pg_bytes.specs.PageSize.{IsPageSize};
ghost use Rattle.cs_policy.specs.declared.entry.Event.TheVariants as event;
ghost use Rattle.cs_policy.specs.declared.entry.Place.TheVariants as place;
ghost use Rattle.cs_policy.specs.ProcFlags.{with_flag, valid};
ghost use Rattle.pg_history.specs.Opening.{pages_of, range_of};
ghost use Rattle.pg_calls.specs.Parts.{HasRoom, Asks};
ghost use Rattle.pg_calls.specs.Asking.{event_of, TakesMemory, IsProper, IsProperOf, IsProperTrust};
ghost use Rattle.pg_parts.specs.Opened.{numbers_in};
ghost use Rattle.pg_shared.specs.Plan.{number_at};
ghost use Rattle.pg_shared.specs.Passes.{shown, IsPassOf};

use crate::NoMemory;
use crate::file_cell::FileCell;
use crate::known::Known;
use crate::naming::Naming;
use crate::process_cell::ProcessCell;
use crate::trust_cell::TrustCell;
use cs_policy::{Entry, FileEvent, ProcEvent, ProcFlags, TrustEvent, Who};
use cs_trust::StaticTrust;
use pg_book::{Pass, Receipt};
use pg_bytes::Range;
use pg_calls::FileCall;
use pg_digest::Digester;
use pg_io::{Gate, Moment, Pager};
use std::alloc::Global;
use std::marker::Model;
use std::sync::{Mutex, MutexGuard, Wait};
use std::thread;

/// How often a lock is tried before the thread that wants it sleeps.
const TRIES: u32 = 1000;

/// The parts of a run, each behind a lock of its own, for workers who share them. What a worker draws goes into its pass and
/// onto the part's spine.
#[derive(Drop)]
pub struct Shared<B: Naming, P: Pager, D: Digester> {
    pub(crate) alloc: Global,
    pub(crate) page_size: u32,
    pub(crate) adhoc: bool,
    pub(crate) known: Known,
    pub(crate) files: Vec<Mutex<FileCell<B, P, D>>>,
    pub(crate) processes: Vec<Mutex<ProcessCell<B>>>,
    pub(crate) trusted: Mutex<TrustCell<B>>,
}

impl<B: Naming, P: Pager, D: Digester> Model for Shared<B, P, D> {
    ghost use Rattle.std.specs.Prelude.{length};
    ghost use Rattle.pg_shared.specs.Opening.{SharedNow, IsSharedOf};

    ghost Value = { SharedNow };

    ghost view = { λ shared. record {
      page_size = shared.page_size;
      adhoc = shared.adhoc;
      known = shared.known;
      files = length shared.files.items;
      processes = length shared.processes.items;
    } };

    ghost invariant = { λ shared. IsSharedOf D.hash B.plan (record {
      page_size = shared.page_size;
      adhoc = shared.adhoc;
      known = shared.known;
      files = length shared.files.items;
      processes = length shared.processes.items;
    }) };
}

// The guard of a lock. A lock is seldom held for longer than it takes to wake a thread, so other threads are let run between
// some tries before this one sleeps.
fn locked<'a, T, R: Wait>(rt: &R, lock: &'a Mutex<T>) -> MutexGuard<'a, T> {
    for _ in 0..TRIES {
        if let Some(guard) = lock.try_lock() {
            return guard;
        }
        thread::yield_now();
    }
    lock.lock(rt)
}

// The worker is at the start of a fault's event, under the file's lock.
fn pass_inside<G: Gate>(gate: &G, who: Who, asked: &FileCall) {
    if let FileCall::Plain(FileEvent::Enter { .. }) = asked {
        gate.pass(who.worker, who.call, Moment::Inside);
    }
}

impl<B: Naming, P: Pager, D: Digester> Shared<B, P, D> {
    /// How many pages a file has, or 0 where there is no such file. It takes no lock.
    pub fn file_pages(&self, file: u32) -> u64
        ensures pages { result ≡ pages_of (numbers_in B.plan.start) file }
    {
        self.known.file_pages(file)
    }

    /// Where a slice of a file lies, or `None` exactly where the file has no such slice that is a signed image. It takes no
    /// lock.
    pub fn slice(&self, file: u32, slice: u32) -> Option<Range>
        ensures range { result ≡ range_of (numbers_in B.plan.start) file slice }
    {
        self.known.slice(file, slice)
    }

    /// The flags with which a process starts, those that it was declared with and VALID, or `None` exactly where no such
    /// process is declared. It takes no lock.
    pub fn start_flags(&self, pid: u32) -> Option<ProcFlags>
        ensures flags { result ≡ option_map (λ p. with_flag p.declared valid)
            (slice_get B.plan.start.processes pid) }
    {
        self.known.start_flags(pid)
    }

    /// The static modules of the trust list. It takes no lock.
    pub fn static_trust(&self) -> &StaticTrust
        ensures modules { result.now ≡ B.plan.start.trust.fixed }
    {
        self.known.fixed()
    }

    /// The size of a page in bytes. It takes no lock.
    pub fn page_size(&self) -> u32
        ensures size { result ≡ B.plan.start.page_size }
        ensures known { IsPageSize result }
    {
        self.page_size
    }

    /// Whether the policy lets ad hoc signatures be attached that no trust cache lists. It takes no lock.
    pub fn adhoc(&self) -> bool
        ensures policy { result ≡ B.plan.start.adhoc }
    {
        self.adhoc
    }

    // The cell of the file with this number, locked. No type says that the k-th lock is that of the k-th part, so the cell
    // is asked; each lock is that of its part, and the first answer is it.
    fn lock_file<R: Wait>(&self, rt: &R, file: u32) -> MutexGuard<'_, FileCell<B, P, D>>
        requires declared { file < length (numbers_in B.plan.start).files }
        ensures part { (mutex_guard_value result).spine.part ≡ file }
    {
        for _ in rt.forever() {
            let cell = locked(rt, &self.files[file as usize]);
            if cell.part() == file {
                return cell;
            }
        }
        unreachable!()
    }

    // The cell of the process with this number, locked, in the same way.
    fn lock_process<R: Wait>(&self, rt: &R, pid: u32) -> MutexGuard<'_, ProcessCell<B>>
        requires declared { pid < (numbers_in B.plan.start).processes }
        ensures part { (mutex_guard_value result).spine.part ≡ number_at B.plan (place.Process pid) }
    {
        let part = self.files.len() as u32 + pid;
        for _ in rt.forever() {
            let cell = locked(rt, &self.processes[pid as usize]);
            if cell.part() == part {
                return cell;
            }
        }
        unreachable!()
    }

    /// Makes an event of a file under its lock, and gives the receipt. The pass is the worker's, and has room for the event.
    /// At the start of a fault's event the worker passes the gate, under the lock.
    ///
    /// `NoMemory` comes only of an event that reads a signature or writes, and then nothing was made.
    pub fn on_file<R: Wait, G: Gate>(
        &self,
        rt: &R,
        pass: &mut Pass<Entry>,
        gate: &G,
        who: Who,
        file: u32,
        asked: FileCall,
    ) -> Result<Receipt<Entry>, NoMemory>
        requires pass { IsPassOf B.plan who.worker pass.old }
        requires declared { file < length (numbers_in B.plan.start).files }
        requires proper { IsProper D.hash (shown B.plan pass.old) who file asked }
        requires room { HasRoom (shown B.plan pass.old) who (place.File file)
            (event.File (event_of asked)) }
        ensures asks { IfOk result (λ receipt. Asks (shown B.plan pass.old) who (place.File file)
            (event.File (event_of asked)) receipt (shown B.plan pass.new)) }
        ensures unmade { OnErr result (shown B.plan pass.new ≡ shown B.plan pass.old) }
        ensures memory { IsErr result → TakesMemory (event_of asked) }
        ensures pass { IsPassOf B.plan who.worker pass.new }
    {
        let mut cell = self.lock_file(rt, file);
        pass_inside(gate, who, &asked);
        cell.enter(self.alloc, pass, who, file, asked)
    }

    /// Makes an event of a process under its lock, and gives the receipt. The pass is the worker's, and has room for the
    /// event.
    pub fn on_process<R: Wait>(
        &self,
        rt: &R,
        pass: &mut Pass<Entry>,
        who: Who,
        pid: u32,
        asked: ProcEvent,
    ) -> Receipt<Entry>
        requires pass { IsPassOf B.plan who.worker pass.old }
        requires declared { pid < (numbers_in B.plan.start).processes }
        requires proper { IsProperOf (numbers_in B.plan.start) asked }
        requires room { HasRoom (shown B.plan pass.old) who (place.Process pid) (event.Proc asked) }
        ensures asks { Asks (shown B.plan pass.old) who (place.Process pid) (event.Proc asked) result
            (shown B.plan pass.new) }
        ensures pass { IsPassOf B.plan who.worker pass.new }
    {
        self.lock_process(rt, pid).enter(pass, who, pid, asked)
    }

    /// Makes an event of the trust list under its lock, and gives the receipt. The pass is the worker's, and has room for
    /// the event.
    pub fn on_trust<R: Wait>(
        &self,
        rt: &R,
        pass: &mut Pass<Entry>,
        who: Who,
        asked: TrustEvent,
    ) -> Receipt<Entry>
        requires pass { IsPassOf B.plan who.worker pass.old }
        requires proper { IsProperTrust (numbers_in B.plan.start) asked }
        requires room { HasRoom (shown B.plan pass.old) who place.Trust (event.Trust asked) }
        ensures asks { Asks (shown B.plan pass.old) who place.Trust (event.Trust asked) result
            (shown B.plan pass.new) }
        ensures pass { IsPassOf B.plan who.worker pass.new }
    {
        locked(rt, &self.trusted).enter(pass, who, asked)
    }
}
