//! A run is closed.

ghost use Rattle.std.specs.Prelude.{◌≡◌, ◌+◌, ◌≤◌, length, IfOk};
ghost use Rattle.pg_shared.specs.Cells.{IsFileKept, IsProcessKept};
ghost use Rattle.pg_shared.specs.Opening.{IsBookOf};
ghost use Rattle.pg_shared.specs.Closing.{AreKept, ArePassesOfRun, parts_now, IsClosed};

use crate::NoMemory;
use crate::file_cell::FileCell;
use crate::naming::Naming;
use crate::process_cell::ProcessCell;
use crate::shared::Shared;
use cs_policy::Entry;
use pg_book::{Book, Pass, Spine, Stamped};
use pg_digest::Digester;
use pg_io::Pager;
use pg_object::Object;
use pg_process::Process;
use pg_trusted::Trusted;
use std::alloc::Global;
use std::sync::Mutex;

/// What a run leaves: its history, and its parts as they are then.
#[derive(Drop)]
pub struct Closed<P: Pager, D: Digester> {
    pub history: Vec<Stamped<Entry>>,
    pub files: Vec<Object<P, D>>,
    pub processes: Vec<Process>,
    pub trusted: Trusted,
}

// The files and their spines. Each lock is that of its part; where one were not, this would be refused as want of memory is.
fn take_files<B: Naming, P: Pager, D: Digester + Drop>(
    alloc: Global,
    cells: Vec<Mutex<FileCell<B, P, D>>>,
) -> Result<(Vec<Object<P, D>>, Vec<Spine<Entry>>), NoMemory>
    ensures kept { IfOk result (λ r. AreKept (λ number object spine.
        IsFileKept D.hash B.plan number (record { object = object; spine = spine }))
        0 r.0.items r.1.items) }
    ensures count { IfOk result (λ r. length r.0.items ≡ length cells.items) }
{
    let mut files = Vec::with_capacity(alloc, cells.len())?;
    let mut spines = Vec::with_capacity(alloc, cells.len())?;
    for cell in cells {
        let cell = cell.into_inner();
        if cell.part() as usize != files.len() {
            return Err(NoMemory);
        }
        let (object, spine) = cell.into_parts();
        files.push(object)?;
        spines.push(spine)?;
    }
    Ok((files, spines))
}

// The processes and their spines, in the same way, behind so many files.
fn take_processes<B: Naming>(
    alloc: Global,
    files: usize,
    cells: Vec<Mutex<ProcessCell<B>>>,
) -> Result<(Vec<Process>, Vec<Spine<Entry>>), NoMemory>
    requires files { files ≡ length B.plan.start.files }
    requires few { (files ≤ 16) × (length cells.items ≤ 64) }
    ensures kept { IfOk result (λ r. AreKept (λ pid process spine.
        IsProcessKept B.plan pid (record { process = process; spine = spine }))
        0 r.0.items r.1.items) }
    ensures count { IfOk result (λ r. length r.0.items ≡ length cells.items) }
{
    let mut processes = Vec::with_capacity(alloc, cells.len())?;
    let mut spines = Vec::with_capacity(alloc, cells.len())?;
    for cell in cells {
        let cell = cell.into_inner();
        if cell.part() as usize != files + processes.len() {
            return Err(NoMemory);
        }
        let (process, spine) = cell.into_parts();
        processes.push(process)?;
        spines.push(spine)?;
    }
    Ok((processes, spines))
}

impl<B: Naming, P: Pager, D: Digester + Drop> Shared<B, P, D> {
    /// Ends the run with its book and the passes of all workers, in the order of their numbers. It gives the history, each of whose
    /// entries has its place as its stamp, and the parts as they are then: each has gone on by its own entries. Where the
    /// pagers of all files told their content at the opening, the plain machine answers the history part by part. Each
    /// worker's entries are those that its pass drew, in its order.
    pub fn close(
        self,
        book: Book<Entry>,
        passes: Vec<Pass<Entry>>,
    ) -> Result<Closed<P, D>, NoMemory>
        requires book { IsBookOf B.plan book }
        requires passes { ArePassesOfRun B.plan passes.items }
        ensures closed { IfOk result (λ closed. IsClosed D.hash B.plan passes.items closed.history.items
            (parts_now B.plan closed.files.items closed.processes.items closed.trusted)) }
    {
        let Shared {
            alloc,
            files,
            processes,
            trusted,
            page_size: _,
            adhoc: _,
            known: _,
        } = self;
        let (files, mut spines) = take_files(alloc, files)?;
        let (processes, mut others) = take_processes(alloc, files.len(), processes)?;
        let (trusted, spine) = trusted.into_inner().into_parts();
        spines.append(&mut others)?;
        spines.push(spine)?;
        let Ok(history) = book.close(spines, passes) else {
            return Err(NoMemory);
        };
        Ok(Closed {
            history,
            files,
            processes,
            trusted,
        })
    }
}
