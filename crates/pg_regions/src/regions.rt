//! The regions of a file, with their records and private copies.

ghost use Rattle.std.specs.Prelude.{◌≡◌, ◌==◌, ◌+◌, ◌<◌, ◌≤◌, ◌^◌, not, IsSome, IsTrue, ◌↔◌, ◌-◌, ◌*◌, IfSome, IfNone, IfOk, Some, None, is_some, option_copied, length, filter, count_by, vec_capacity};
ghost use Rattle.std.specs.Bool.{OnFalse};
ghost use Rattle.pg_bytes.specs.PageSize.{is_page_size};
ghost use Rattle.pg_regions.specs.Lookups.{RegionsDiffer, placed, region_of, record_of, copy_of, bytes_of, HasPage, HasPrivatePage, is_of_pid, writer_of, IsLeastWriter, HasNoWriter};
ghost use Rattle.pg_regions.specs.RegionsNow.{empty, spare, IsSound};
ghost use Rattle.pg_regions.specs.Steps.{ChangesRegion, ChangesRecord, ChangesCopy, one_region_less, one_copy_less, KeepsRoom, with_region, without_region, without_pid, AreGone, IsFresh, IsGranted, granted, spare_granted, stripped, FindsStripped, unmapped, FindsUnmapped, private_copy, with_copy, with_bytes, rewritten};

use crate::copies::Copies;
use crate::{NoMemory, records, standing};
use cs_policy::{Access, Record, Region};
use pg_bytes::Steps;
use std::alloc::Global;
use std::marker::Model;
use std::sync::ledger::Ledger;

/// The regions of one file, what each was given of the file's pages, and its private copies of them.
///
/// Contracts see it as three lists, how many of each there is room for, and the size of a page (`specs/RegionsNow.antt`).
/// Regions stand in the order of their numbers, records and copies in the order of their pages and, of one page, of
/// their regions.
#[derive(Drop)]
pub struct Regions {
    regions: Vec<Region>,
    records: Vec<Record>,
    copies: Copies,
}

impl Model for Regions {
    ghost use Rattle.pg_regions.specs.RegionsNow.{RegionsNow, IsSound};

    ghost Value = { RegionsNow };

    ghost use Rattle.pg_regions.specs.Kept.{regions_of};

    ghost view = { regions_of };

    ghost invariant = { λ regions. IsSound (regions_of regions) };
}

impl Regions {
    /// A file that no process has mapped, with room for so many regions, records and private copies of pages of `page`
    /// bytes, 4,096 or 16,384. The regions are fewer than 2^32. All memory that they ever use is taken here: `NoMemory`
    /// comes where there is none for them.
    pub fn open(
        alloc: Global,
        regions: usize,
        records: usize,
        copies: usize,
        page: u32,
    ) -> Result<Regions, NoMemory>
        requires few { regions < 2 ^ 32 }
        requires size { IsTrue (is_page_size page) }
        ensures opened { IfOk result (λ opened. opened ≡ empty page regions records copies) }
        ensures room { IfOk result (λ opened. spare opened ≡ record { regions = regions; records = records; copies = copies }) }
        ensures sound { IfOk result IsSound }
    {
        Ok(Regions {
            regions: Vec::with_capacity(alloc, regions)?,
            records: Vec::with_capacity(alloc, records)?,
            copies: Copies::open(alloc, copies, page)?,
        })
    }

    /// Adds a region, which has no record and no copy yet. No other region has its number, and room for a region is
    /// left.
    pub fn add(&mut self, region: Region)
        requires room { 0 < (spare self.old).regions }
        requires absent { region_of self.old.regions region.id ≡ None }
        ensures after { self.new ≡ with_region region self.old }
        ensures found { ChangesRegion self.old self.new region.id (Some region) }
        ensures fresh { IsFresh self.new region.id }
        ensures room { spare self.new ≡ one_region_less (spare self.old) }
        ensures sound { IsSound self.new }
    {
        standing::put(&mut self.regions, region);
    }

    /// Drops a region with its records and copies. The answer is false exactly where no region has this number, and
    /// all is then as before.
    pub fn drop_region(&mut self, id: u32) -> bool
        ensures answer { result ≡ is_some (region_of self.old.regions id) }
        ensures after { self.new ≡ without_region id self.old }
        ensures unchanged { OnFalse result (self.new ≡ self.old) }
        ensures found { AreGone (λ i. i == id) self.old self.new }
        ensures room { KeepsRoom self.old self.new }
        ensures sound { IsSound self.new }
    {
        if self.find(id).is_none() {
            return false;
        }
        records::drop_of(&mut self.records, id);
        self.copies.drop_of(id);
        standing::drop_region(&mut self.regions, id);
        true
    }

    /// Drops all regions of a process with their records and copies, and answers how many regions these were.
    pub fn drop_pid(&mut self, pid: u32) -> u32
        ensures count { result ≡ count_by (λ region. region.pid == pid) self.old.regions }
        ensures after { self.new ≡ without_pid pid self.old }
        ensures found { AreGone (is_of_pid self.old.regions pid) self.old self.new }
        ensures room { KeepsRoom self.old self.new }
        ensures sound { IsSound self.new }
    {
        let count = standing::count_of(&self.regions, pid);
        drop_records_and_copies(&self.regions, pid, &mut self.records, &mut self.copies);
        standing::drop_pid(&mut self.regions, pid);
        count
    }

    /// The region of this number, or `None` exactly where there is none.
    pub fn find(&self, id: u32) -> Option<&Region>
        ensures found { option_copied result ≡ region_of self.now.regions id }
        ensures sound { IsSound self.now }
    {
        standing::find_region(&self.regions, id)
    }

    /// What a region was given of a page, or `None` exactly where there is no record of them.
    pub fn record(&self, id: u32, page: u64) -> Option<&Record>
        ensures found { option_copied result ≡ record_of self.now.records id page }
        ensures sound { IsSound self.now }
    {
        records::find_record(&self.records, id, page)
    }

    /// Where the record of a page and region stands, or would stand: the number of records that are of a lesser page, or
    /// of the same page and a lesser region. It is `Ok` exactly where that record stands. A step is one record compared:
    /// two to the power of the steps is at most 2n + 1 for n records, and there is a step where there is a record. The
    /// steps counted before the call are below 2^62.
    pub fn place<L: Ledger>(&self, page: u64, id: u32, steps: &mut Steps<L>) -> Result<usize, usize>
        requires room { steps.old < 2 ^ 62 }
        ensures placed { result ≡ placed page id self.now.records }
        ensures cost { 2 ^ (steps.new - steps.old) ≤ 2 * length self.now.records + 1 }
        ensures some { 0 < length self.now.records → steps.old < steps.new }
        ensures later { steps.old ≤ steps.new }
        ensures sound { IsSound self.now }
    {
        records::halve(&self.records, page, id, steps)
    }

    /// Whether the region stands and has the page.
    pub fn has_page(&self, id: u32, page: u64) -> bool
        ensures value { IsTrue result ↔ HasPage self.now.regions id page }
        ensures sound { IsSound self.now }
    {
        standing::has_page(&self.regions, id, page)
    }

    /// Whether the region stands, is private and has the page.
    pub fn has_private_page(&self, id: u32, page: u64) -> bool
        ensures value { IsTrue result ↔ HasPrivatePage self.now.regions id page }
        ensures sound { IsSound self.now }
    {
        standing::has_private_page(&self.regions, id, page)
    }

    /// Gives a region an access to one of its pages, and reading with it. Write takes from the region the permission
    /// to execute the page, and Execute keeps `guarded` beside it. What else the region had stays. The region stands
    /// and has the page. A record is made where there is none, and room for one is left, also where the record stands
    /// already.
    pub fn grant(&mut self, id: u32, page: u64, access: Access, guarded: bool)
        requires stands { HasPage self.old.regions id page }
        requires room { 0 < (spare self.old).records }
        ensures after { IsGranted id page access guarded self.old.records self.new.records }
        ensures others { self.new ≡ record self.old { records = self.new.records } }
        ensures found { ChangesRecord self.old self.new id page (Some (granted id page access guarded self.old)) }
        ensures room { spare self.new ≡ spare_granted id page self.old }
        ensures sound { IsSound self.new }
    {
        records::grant(&mut self.records, id, page, access, guarded);
    }

    /// Takes the permission to execute from every record of a page. The `guarded` bits stay.
    pub fn strip(&mut self, page: u64)
        ensures after { self.new ≡ stripped page self.old }
        ensures found { FindsStripped self.old self.new page }
        ensures room { spare self.new ≡ spare self.old }
        ensures sound { IsSound self.new }
    {
        records::strip(&mut self.records, page);
    }

    /// Drops every record of a page whose region has no private copy of it.
    pub fn unmap_page(&mut self, page: u64)
        ensures after { self.new ≡ unmapped page self.old }
        ensures found { FindsUnmapped self.old self.new page }
        ensures room { KeepsRoom self.old self.new }
        ensures sound { IsSound self.new }
    {
        records::drop_page(&mut self.records, &self.copies, page);
    }

    /// The least number of a shared region with a record that permits it to write the page, or `None` exactly where
    /// there is none.
    pub fn writer(&self, page: u64) -> Option<u32>
        ensures value { result ≡ writer_of self.now.regions self.now.records page }
        ensures least { IfSome result (IsLeastWriter self.now.regions self.now.records page) }
        ensures none { IfNone result (HasNoWriter self.now.regions self.now.records page) }
        ensures sound { IsSound self.now }
    {
        records::writer(&self.records, &self.regions, page)
    }

    /// The bytes of a region's private copy of a page, as many as a page has, or `None` exactly where it has none.
    pub fn copy(&self, id: u32, page: u64) -> Option<&[u8]>
        ensures found { option_copied result ≡ bytes_of self.now.copies id page }
        ensures none { IfNone result (copy_of self.now.copies id page ≡ None) }
        ensures whole { IfSome result (λ bytes. length bytes.now ≡ self.now.page) }
        ensures sound { IsSound self.now }
    {
        self.copies.find(id, page)
    }

    /// Makes a private copy of a page for a private region that has none of it, with the bytes of a page that it
    /// begins with. Room for a copy is left.
    pub fn make_copy(&mut self, id: u32, page: u64, bytes: &[u8])
        requires stands { HasPrivatePage self.old.regions id page }
        requires room { 0 < (spare self.old).copies }
        requires absent { copy_of self.old.copies id page ≡ None }
        requires whole { length bytes.now ≡ self.old.page }
        ensures after { self.new ≡ with_copy (private_copy id page bytes.now) self.old }
        ensures found { ChangesCopy self.old self.new id page (Some (private_copy id page bytes.now)) }
        ensures room { spare self.new ≡ one_copy_less (spare self.old) }
        ensures sound { IsSound self.new }
    {
        self.copies.make(id, page, bytes);
    }

    /// Writes bytes over a part of a region's private copy of a page, from the byte `at` of the page on. The region
    /// has a copy of the page, and the bytes stay in the page.
    pub fn put_copy(&mut self, id: u32, page: u64, at: u32, bytes: &[u8])
        requires there { IsSome (copy_of self.old.copies id page) }
        requires fits { at + length bytes.now ≤ self.old.page }
        ensures after { self.new ≡ with_bytes id page at bytes.now self.old }
        ensures found { ChangesCopy self.old self.new id page (rewritten id page at bytes.now self.old) }
        ensures room { spare self.new ≡ spare self.old }
        ensures sound { IsSound self.new }
    {
        self.copies.put(id, page, at, bytes);
    }
}

// Drops the records and copies of a process's regions.
fn drop_records_and_copies(
    regions: &[Region],
    pid: u32,
    records: &mut Vec<Record>,
    copies: &mut Copies,
)
    requires { RegionsDiffer regions.now }
    ensures records { records.new.items ≡ filter (λ r. not (is_of_pid regions.now pid r.region)) records.old.items }
    ensures copies { copies.new ≡ record copies.old { list = filter (λ copy. not (is_of_pid regions.now pid copy.region)) copies.old.list } }
    ensures room { vec_capacity records.new ≡ vec_capacity records.old }
{
    for region in regions {
        if region.pid == pid {
            records::drop_of(records, region.id);
            copies.drop_of(region.id);
        }
    }
}
