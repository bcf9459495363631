//! The parts of a scene's machine are opened.

ghost use Rattle.std.specs.Prelude.{◌≡◌, ◌≤◌, ◌<◌, ◌/◌, ◌^◌, ℕ, length, filter_map, slice_index_or, vec_len, IfOk, IsTrue};
ghost use Rattle.pg_bytes.specs.PageSize.{is_page_size};
ghost use Rattle.pg_book.specs.Needs.{nothing_needed, rows_of};
ghost use Rattle.pg_calls.specs.Room.{Within};
ghost use Rattle.pg_parts.specs.Rooms.{part_needs};
ghost use Rattle.scene_open.specs.Opening.{limit_of, flags_of, processes_from};
ghost use Rattle.scene_run.specs.Needs.{most_needed};
ghost use Rattle.scene_run.specs.Parts.{FileFits, AllFit, IsFileOf, AreFiles};

use crate::NoMemory;
use crate::needs::{NOTHING, plus};
use cs_policy::Layout;
use pg_book::Needs;
use pg_cache::Cache;
use pg_digest::ShaDigester;
use pg_io::{MemPager, Pager};
use pg_object::{Object, Room};
use pg_pages::Pages;
use pg_process::Process;
use scene_text::Head;
use std::alloc::Global;

/// The object of a file in memory.
pub(crate) type File = Object<MemPager, ShaDigester>;

// How many pages of a file may be resident: at most its pages, and at least 1.
fn limit_of(resident: u32, pages: u64) -> u32
    ensures { result ≡ limit_of resident pages }
{
    u64::from(resident).min(pages).max(1) as u32
}

// What a caller needs of a part.
fn needs_at(row: &[Needs], part: usize) -> Needs
    ensures { result ≡ slice_index_or row.now part nothing_needed }
{
    match row.get(part) {
        Some(needs) => *needs,
        None => NOTHING,
    }
}

// What all callers need of a part.
fn part_needs(needs: &[Vec<Needs>], part: usize) -> Needs
    requires small { Within (part_needs (rows_of needs.now) part) most_needed }
    ensures { result ≡ part_needs (rows_of needs.now) part }
{
    let mut all = NOTHING;
    for number in 0..needs.len() {
        all = plus(all, needs_at(needs[number].as_slice(), part));
    }
    all
}

// The object of one file, with room for what callers need of it.
fn open_file(
    alloc: Global,
    pager: MemPager,
    layout: Layout,
    resident: u32,
    needs: Needs,
) -> Result<File, NoMemory>
    requires fits { FileFits resident pager layout }
    requires small { Within needs most_needed }
    ensures { IfOk result (IsFileOf resident needs pager layout) }
{
    let limit = limit_of(resident, pager.pages());
    let length = pager.length();
    let cache = Cache::open(alloc, pager, limit)?;
    let pages = Pages::open(alloc, cache, ShaDigester::new())?;
    let room = Room {
        regions: needs.regions as usize,
        records: needs.records as usize,
        copies: needs.copies as usize,
    };
    Object::open(alloc, pages, length, layout, room)
}

/// The objects of files with these pagers and layouts, each with room for what all callers need of it. Of each file at most
/// so many pages are resident.
pub(crate) fn open_files(
    alloc: Global,
    pagers: Vec<MemPager>,
    layouts: Vec<Layout>,
    resident: u32,
    needs: &[Vec<Needs>],
) -> Result<Vec<File>, NoMemory>
    requires paired { vec_len pagers ≡ vec_len layouts }
    requires fits { AllFit resident pagers.items layouts.items }
    requires small { (k : ℕ) → Within (part_needs (rows_of needs.now) k) most_needed }
    ensures { IfOk result (λ files.
        AreFiles resident (rows_of needs.now) pagers.items layouts.items files.items) }
{
    let mut files = Vec::with_capacity(alloc, pagers.len())?;
    let mut layouts = layouts.into_iter();
    for pager in pagers {
        let Some(layout) = layouts.next() else {
            unreachable!()
        };
        let needs = part_needs(needs, files.len());
        files.push(open_file(alloc, pager, layout, resident, needs)?)?;
    }
    Ok(files)
}

/// The processes that header lines declare, each with its place among them as its number.
pub(crate) fn open_processes(
    alloc: Global,
    heads: &[Head],
    page: u32,
) -> Result<Vec<Process>, NoMemory>
    requires few { length (filter_map flags_of heads.now) ≤ 64 }
    requires known { IsTrue (is_page_size page) }
    ensures { IfOk result (λ processes.
        processes.items ≡ processes_from page 0 (filter_map flags_of heads.now)) }
{
    let mut processes = Vec::new(alloc);
    for head in heads {
        if let Head::Process { flags } = head {
            let pid = processes.len() as u32;
            processes.push(Process::open(alloc, pid, *flags, page)?)?;
        }
    }
    Ok(processes)
}
