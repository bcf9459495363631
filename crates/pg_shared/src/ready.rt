//! A run before its parts lie behind locks.

ghost use Rattle.std.specs.Prelude.{◌≡◌, ◌+◌, ◌≤◌, ℕ, length, IfOk, IfErr};
ghost use Rattle.std.specs.Vec.Iter.{into_iter_items};
ghost use Rattle.pg_book.specs.Fails.{IsRefused};
ghost use Rattle.pg_book.specs.Needs.{names_of};
ghost use Rattle.pg_book.specs.Opening.{EachFrom, IsNewSpine};
ghost use Rattle.pg_parts.specs.Opened.{IsOpenable};
ghost use Rattle.pg_shared.specs.Opening.{IsShared, IsOpenedAs, IsBookOf};

use crate::NoMemory;
use crate::file_cell::FileCell;
use crate::known::Known;
use crate::naming::Naming;
use crate::process_cell::ProcessCell;
use crate::shared::Shared;
use crate::trust_cell::TrustCell;
use cs_policy::Entry;
use pg_book::{Book, OpenFail, Pass, Spine};
use pg_digest::Digester;
use pg_io::Pager;
use pg_object::Object;
use pg_parts::Opened;
use pg_process::Process;
use pg_trusted::Trusted;
use std::alloc::Global;
use std::marker::Model;
use std::snapshot::Snapshot;
use std::sync::Mutex;
use std::vec::IntoIter;

/// The parts of a run with the book that was opened for them. The run has no name yet, by which the types of what lies
/// behind its locks know it. It is seen as the plan of that name.
#[derive(Drop)]
pub struct Ready<P: Pager, D: Digester> {
    alloc: Global,
    page_size: u32,
    adhoc: bool,
    files: Vec<Object<P, D>>,
    processes: Vec<Process>,
    trusted: Trusted,
    known: Known,
    book: Book<Entry>,
    spines: Vec<Spine<Entry>>,
    start: Snapshot<Opened<P, D>>,
}

impl<P: Pager, D: Digester> Model for Ready<P, D> {
    ghost use Rattle.pg_shared.specs.Plan.{Plan};
    ghost use Rattle.pg_shared.specs.Opening.{IsReady};

    ghost Value = { Plan };

    ghost view = { λ ready. record { book = ready.book.book; start = ready.start.value } };

    ghost invariant = { λ ready.
        IsReady D.hash (record { book = ready.book.book; start = ready.start.value }) (record {
          page_size = ready.page_size;
          adhoc = ready.adhoc;
          files = ready.files.items;
          processes = ready.processes.items;
          trust = ready.trusted;
          known = ready.known;
          book = ready.book;
          spines = ready.spines.items;
        }) };
}

impl<P: Pager, D: Digester + Drop> Ready<P, D> {
    /// Opens a run of these parts, which were just opened, with a pass for each worker. The passes stand in the order of the
    /// workers' numbers. There is at least one worker, and room for all that the workers may use.
    ///
    /// There are two refusals, and the parts come back with either: `NoMemory`, and `Found` where a name of the book wanted
    /// another number than was found.
    pub fn open(
        alloc: Global,
        opened: Opened<P, D>,
    ) -> Result<(Ready<P, D>, Vec<Pass<Entry>>), OpenFail<Opened<P, D>>>
        requires openable { IsOpenable D.hash opened }
        requires shared { IsShared opened }
        ensures opened { IfOk result (λ r. IsOpenedAs opened r.0 r.1.items) }
        ensures refused { IfErr result (IsRefused opened (names_of opened.needs)) }
    {
        let start = Snapshot::of(&opened);
        let Opened {
            page_size,
            adhoc,
            files,
            processes,
            trusted,
            needs,
        } = opened;
        let known = match Known::of(alloc, files.as_slice(), processes.as_slice(), &trusted) {
            Ok(known) => known,
            Err(NoMemory) => {
                let back = Opened {
                    page_size,
                    adhoc,
                    files,
                    processes,
                    trusted,
                    needs,
                };
                return Err(OpenFail::NoMemory { back });
            }
        };
        match Book::open(alloc, needs) {
            Ok((book, spines, passes)) => {
                let ready = Ready {
                    alloc,
                    page_size,
                    adhoc,
                    files,
                    processes,
                    trusted,
                    known,
                    book,
                    spines,
                    start,
                };
                Ok((ready, passes))
            }
            Err(OpenFail::NoMemory { back }) => {
                let back = Opened {
                    page_size,
                    adhoc,
                    files,
                    processes,
                    trusted,
                    needs: back,
                };
                Err(OpenFail::NoMemory { back })
            }
            Err(
                OpenFail::Found {
                    back,
                    wanted,
                    found,
                },
            ) => {
                let back = Opened {
                    page_size,
                    adhoc,
                    files,
                    processes,
                    trusted,
                    needs: back,
                };
                Err(OpenFail::Found {
                    back,
                    wanted,
                    found,
                })
            }
        }
    }

    /// Puts the parts behind locks, under this name, and gives them with the run's book, which closes it. `NoMemory` comes
    /// where there is none for the locks.
    pub fn named<B: Naming>(self) -> Result<(Shared<B, P, D>, Book<Entry>), NoMemory>
        requires name { B.plan ≡ self }
        ensures book { IfOk result (λ r. IsBookOf B.plan r.1) }
    {
        let Ready {
            alloc,
            page_size,
            adhoc,
            files,
            processes,
            trusted,
            known,
            book,
            spines,
            start: _,
        } = self;
        let mut spines = spines.into_iter();
        let files = lock_files(alloc, files, &mut spines)?;
        let processes = lock_processes::<B, D>(alloc, processes, &mut spines)?;
        let Some(spine) = spines.next() else {
            unreachable!()
        };
        let trusted = Mutex::new(TrustCell::new(trusted, spine));
        let shared = Shared {
            alloc,
            page_size,
            adhoc,
            known,
            files,
            processes,
            trusted,
        };
        Ok((shared, book))
    }
}

// Puts each file with the next spine behind a lock.
fn lock_files<B: Naming, P: Pager, D: Digester + Drop>(
    alloc: Global,
    files: Vec<Object<P, D>>,
    spines: &mut IntoIter<Spine<Entry>>,
) -> Result<Vec<Mutex<FileCell<B, P, D>>>, NoMemory>
    requires openable { IsOpenable D.hash B.plan.start }
    requires files { files.items ≡ B.plan.start.files }
    requires spines { EachFrom (IsNewSpine B.plan.start.needs B.plan.book) 0
        (into_iter_items spines.old) }
    requires enough { length files.items ≤ length (into_iter_items spines.old) }
    ensures count { IfOk result (λ cells. length cells.items ≡ length files.items) }
    ensures others { IfOk result (λ _. EachFrom (IsNewSpine B.plan.start.needs B.plan.book)
        (length files.items) (into_iter_items spines.new)) }
    ensures left { IfOk result (λ _. length (into_iter_items spines.old)
        ≡ length files.items + length (into_iter_items spines.new)) }
{
    let mut cells = Vec::with_capacity(alloc, files.len())?;
    for object in files {
        let Some(spine) = spines.next() else {
            unreachable!()
        };
        cells.push(Mutex::new(FileCell::new(object, spine)))?;
    }
    Ok(cells)
}

// Puts each process with the next spine behind a lock.
fn lock_processes<B: Naming, D: Digester>(
    alloc: Global,
    processes: Vec<Process>,
    spines: &mut IntoIter<Spine<Entry>>,
) -> Result<Vec<Mutex<ProcessCell<B>>>, NoMemory>
    requires openable { IsOpenable D.hash B.plan.start }
    requires processes { processes.items ≡ B.plan.start.processes }
    requires spines { EachFrom (IsNewSpine B.plan.start.needs B.plan.book)
        (length B.plan.start.files) (into_iter_items spines.old) }
    requires enough { length processes.items ≤ length (into_iter_items spines.old) }
    ensures count { IfOk result (λ cells. length cells.items ≡ length processes.items) }
    ensures others { IfOk result (λ _. EachFrom (IsNewSpine B.plan.start.needs B.plan.book)
        (length B.plan.start.files + length processes.items) (into_iter_items spines.new)) }
    ensures left { IfOk result (λ _. length (into_iter_items spines.old)
        ≡ length processes.items + length (into_iter_items spines.new)) }
{
    let mut cells = Vec::with_capacity(alloc, processes.len())?;
    for process in processes {
        let Some(spine) = spines.next() else {
            unreachable!()
        };
        cells.push(Mutex::new(ProcessCell::new(process, spine)))?;
    }
    Ok(cells)
}
