// What is known of the parts of a run without their locks.

ghost use Rattle.std.specs.Prelude.{◌≡◌, map, slice_get, IfOk};
ghost use Rattle.std.specs.Arc.{arc_value};
ghost use Rattle.std.specs.Option.{option_map};
ghost use Rattle.cs_policy.specs.ProcFlags.{with_flag, valid};
ghost use Rattle.pg_shared.specs.Opening.{known_of, declared_of, pages_known, range_known};

use crate::NoMemory;
use bitflags::Flags;
use cs_policy::{Layout, ProcFlags, Seats, SliceSeat};
use cs_trust::StaticTrust;
use pg_bytes::Range;
use pg_digest::Digester;
use pg_io::Pager;
use pg_object::Object;
use pg_parts::signed_range;
use pg_process::Process;
use pg_trusted::Trusted;
use std::alloc::Global;
use std::marker::Model;
use std::sync::Arc;

// How many pages a file has, and where its slices lie.
#[derive(Drop)]
pub(crate) struct FileNumbers {
    pages: u64,
    layout: Layout,
}

impl Model for FileNumbers {
    ghost use Rattle.pg_history.specs.Opening.{FileNumbers};

    ghost Value = { FileNumbers };

    ghost view = { λ numbers. record { pages = numbers.pages; layout = numbers.layout } };
}

// The numbers of the files, the flags of the processes, and the static modules.
#[derive(Drop)]
pub(crate) struct Known {
    files: Vec<FileNumbers>,
    declared: Vec<ProcFlags>,
    fixed: Arc<StaticTrust>,
}

impl Model for Known {
    ghost use Rattle.std.specs.Arc.{arc_value};
    ghost use Rattle.pg_shared.specs.Opening.{KnownNow};

    ghost Value = { KnownNow };

    ghost view = { λ known. record {
      files = known.files.items;
      declared = known.declared.items;
      fixed = arc_value known.fixed;
    } };
}

fn copy_of(alloc: Global, layout: &Layout) -> Result<Layout, NoMemory>
    ensures { IfOk result (λ copy. copy ≡ layout.now) }
{
    match layout {
        Layout::Slices(seats) => Ok(Layout::Slices(Seats::new(seats_of(alloc, seats.items())?))),
        Layout::Refused(refusal) => Ok(Layout::Refused(*refusal)),
    }
}

fn seats_of(alloc: Global, seats: &[SliceSeat]) -> Result<Vec<SliceSeat>, NoMemory>
    ensures { IfOk result (λ copy. copy.items ≡ seats.now) }
{
    let mut copy = Vec::with_capacity(alloc, seats.len())?;
    copy.extend_from_slice(seats)?;
    Ok(copy)
}

fn numbers_of<P: Pager, D: Digester>(
    alloc: Global,
    object: &Object<P, D>,
) -> Result<FileNumbers, NoMemory>
    ensures { IfOk result (λ numbers. numbers ≡ known_of object.now) }
{
    Ok(FileNumbers {
        pages: object.file_pages(),
        layout: copy_of(alloc, object.layout())?,
    })
}

fn numbers_of_all<P: Pager, D: Digester>(
    alloc: Global,
    files: &[Object<P, D>],
) -> Result<Vec<FileNumbers>, NoMemory>
    ensures { IfOk result (λ numbers. numbers.items ≡ map known_of files.now) }
{
    let mut numbers = Vec::with_capacity(alloc, files.len())?;
    for object in files {
        numbers.push(numbers_of(alloc, object)?)?;
    }
    Ok(numbers)
}

fn flags_of_all(alloc: Global, processes: &[Process]) -> Result<Vec<ProcFlags>, NoMemory>
    ensures { IfOk result (λ flags. flags.items ≡ map declared_of processes.now) }
{
    let mut flags = Vec::with_capacity(alloc, processes.len())?;
    for process in processes {
        flags.push(process.declared())?;
    }
    Ok(flags)
}

impl Known {
    // What is known of these parts.
    pub(crate) fn of<P: Pager, D: Digester>(
        alloc: Global,
        files: &[Object<P, D>],
        processes: &[Process],
        trusted: &Trusted,
    ) -> Result<Known, NoMemory>
        ensures files { IfOk result (λ known. known.files ≡ map known_of files.now) }
        ensures declared { IfOk result (λ known. known.declared ≡ map declared_of processes.now) }
        ensures fixed { IfOk result (λ known. known.fixed ≡ trusted.now.fixed) }
    {
        Ok(Known {
            files: numbers_of_all(alloc, files)?,
            declared: flags_of_all(alloc, processes)?,
            fixed: Arc::try_clone(trusted.fixed())?,
        })
    }

    // How many pages a file has, or 0 where there is no such file.
    pub(crate) fn file_pages(&self, file: u32) -> u64
        ensures pages { result ≡ pages_known self.now.files file }
    {
        match self.files.get(file as usize) {
            Some(numbers) => numbers.pages,
            None => 0,
        }
    }

    // Where a slice of a file lies that is a signed image.
    pub(crate) fn slice(&self, file: u32, slice: u32) -> Option<Range>
        ensures range { result ≡ range_known self.now.files file slice }
    {
        let numbers = self.files.get(file as usize)?;
        signed_range(&numbers.layout, slice)
    }

    // The flags with which a process starts.
    pub(crate) fn start_flags(&self, pid: u32) -> Option<ProcFlags>
        ensures flags { result ≡ option_map (λ declared. with_flag declared valid)
            (slice_get self.now.declared pid) }
    {
        let declared = self.declared.get(pid as usize)?;
        Some(declared.union(ProcFlags::VALID))
    }

    // The static modules.
    pub(crate) fn fixed(&self) -> &StaticTrust
        ensures modules { result.now ≡ self.now.fixed }
    {
        &self.fixed
    }
}
