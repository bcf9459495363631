//! The list of records, in the order of their pages and, of one page, of their regions.

ghost use Rattle.std.specs.Prelude.{◌≡◌, ◌+◌, ◌-◌, ◌*◌, ◌^◌, ◌<◌, ◌≤◌, not, IfOk, IfErr, Some, position, insert, take, map, filter, length, ◌==◌, option_copied, vec_len, vec_capacity};
ghost use Rattle.std.specs.List.{AllWithin};
ghost use Rattle.pg_regions.specs.Lookups.{is_record, comes_before, RecordsDiffer, RecordsRise, RegionsRise, CopiesRise, record_of, placed, writer_of};
ghost use Rattle.pg_regions.specs.Places.{IsGap};
ghost use Rattle.pg_regions.specs.Steps.{blank, given, IsGranted, without_execute, is_without_copy};

use crate::copies::Copies;
use crate::standing::is_shared;
use cs_policy::{Access, Record, Region};
use pg_bytes::Steps;
use std::marker::Brand;
use std::sync::ledger::{Blank, Ledger};

// The record is of a lesser page, or of the same page and a lesser region.
fn comes_before(record: &Record, page: u64, id: u32) -> bool
    ensures { result ≡ comes_before record.now.page record.now.region page id }
{
    record.page < page || record.page == page && record.region < id
}

// The record is of the region and page.
fn is_of(record: &Record, page: u64, id: u32) -> bool
    ensures { result ≡ is_record id page record.now }
{
    record.region == id && record.page == page
}

// How many records come before that of a region and page, and whether it stands. A step is one record compared.
pub(crate) fn halve<L: Ledger>(
    records: &[Record],
    page: u64,
    id: u32,
    steps: &mut Steps<L>,
) -> Result<usize, usize>
    requires rises { RecordsRise records.now }
    requires room { steps.old < 2 ^ 62 }
    ensures placed { result ≡ placed page id records.now }
    ensures found { IfOk result (λ place. position (is_record id page) records.now ≡ Some place) }
    ensures none { IfErr result (IsGap records.now page id) }
    ensures cost { 2 ^ (steps.new - steps.old) ≤ 2 * length records.now + 1 }
    ensures some { 0 < length records.now → steps.old < steps.new }
    ensures later { steps.old ≤ steps.new }
{
    let mut low = 0;
    let mut high = records.len();
    while low < high {
        let middle = low + (high - low) / 2;
        steps.tick();
        if comes_before(&records[middle], page, id) {
            low = middle + 1;
        } else if is_of(&records[middle], page, id) {
            return Ok(middle);
        } else {
            high = middle;
        }
    }
    Err(low)
}

// The same with steps of its own.
fn halve_over<L: Ledger>(
    blank: Blank,
    records: &[Record],
    page: u64,
    id: u32,
) -> Result<usize, usize>
    requires name { blank.name ≡ L.name }
    requires parts { blank.parts ≡ L.parts }
    requires some { 0 < blank.parts }
    requires rises { RecordsRise records.now }
    ensures found { IfOk result (λ place. position (is_record id page) records.now ≡ Some place) }
    ensures none { IfErr result (IsGap records.now page id) }
{
    halve(records, page, id, &mut Steps::<L>::open(blank))
}

// The same, where nobody counts its steps.
fn search(records: &[Record], page: u64, id: u32) -> Result<usize, usize>
    requires { RecordsRise records.now }
    ensures found { IfOk result (λ place. position (is_record id page) records.now ≡ Some place) }
    ensures none { IfErr result (IsGap records.now page id) }
{
    halve_over::<Brand>(Blank::new(1), records, page, id)
}

// The record of a region and page.
pub(crate) fn find_record(records: &[Record], id: u32, page: u64) -> Option<&Record>
    requires { RecordsRise records.now }
    ensures { option_copied result ≡ record_of records.now id page }
{
    match search(records, page, id) {
        Ok(place) => Some(&records[place]),
        Err(_) => None,
    }
}

// A record that nothing was given to yet.
fn blank(id: u32, page: u64) -> Record
    ensures { result ≡ blank id page }
{
    Record {
        region: id,
        page,
        read: false,
        write: false,
        execute: false,
        guarded: false,
    }
}

// Gives the access to a record.
fn give(to: &mut Record, access: Access, guarded: bool)
    ensures { to.new ≡ given access guarded to.old }
{
    to.read = true;
    match access {
        Access::Read => {}
        Access::Write => {
            to.write = true;
            to.execute = false;
        }
        Access::Execute => {
            to.execute = true;
            to.guarded = guarded;
        }
    }
}

// One record more at its place, for which there is room.
fn put(records: &mut Vec<Record>, place: usize, new: Record)
    requires within { place ≤ vec_len records.old }
    requires room { vec_len records.old < vec_capacity records.old }
    ensures records { records.new.items ≡ insert records.old.items place new }
    ensures room { vec_capacity records.new ≡ vec_capacity records.old }
{
    let Ok(()) = records.insert(place, new) else {
        unreachable!()
    };
}

// Gives the access to the record of a region and page, or to a blank one where there is none yet.
pub(crate) fn grant(records: &mut Vec<Record>, id: u32, page: u64, access: Access, guarded: bool)
    requires one { RecordsDiffer records.old.items }
    requires rises { RecordsRise records.old.items }
    requires room { vec_len records.old < vec_capacity records.old }
    ensures records { IsGranted id page access guarded records.old.items records.new.items }
    ensures rises { RecordsRise records.new.items }
    ensures room { vec_capacity records.new ≡ vec_capacity records.old }
{
    match search(records, page, id) {
        Ok(place) => give(&mut records[place], access, guarded),
        Err(place) => {
            let mut first = blank(id, page);
            give(&mut first, access, guarded);
            put(records, place, first);
        }
    }
}

// How many records are of a lesser page: those of the page begin there.
fn before(records: &[Record], page: u64) -> usize
    requires { RecordsRise records.now }
    ensures within { result ≤ length records.now }
    ensures lesser { AllWithin (λ r. r.page < page) records.now 0 result }
    ensures others { AllWithin (λ r. page ≤ r.page) records.now result (length records.now) }
{
    records.partition_point(|record| record.page < page)
}

// How many records are of the page or of a lesser one: those of the page end there.
fn through(records: &[Record], page: u64) -> usize
    requires { RecordsRise records.now }
    ensures within { result ≤ length records.now }
    ensures others { AllWithin (λ r. r.page ≤ page) records.now 0 result }
    ensures greater { AllWithin (λ r. page < r.page) records.now result (length records.now) }
{
    records.partition_point(|record| record.page <= page)
}

// Takes the execute bit from the records of a page.
pub(crate) fn strip(records: &mut [Record], page: u64)
    requires { RecordsRise records.old }
    ensures { records.new ≡ map (without_execute page) records.old }
{
    let end = through(records, page);
    for place in before(records, page)..end {
        records[place].execute = false;
    }
}

// Drops the records of a region.
pub(crate) fn drop_of(records: &mut Vec<Record>, id: u32)
    ensures records { records.new.items ≡ filter (λ r. not (r.region == id)) records.old.items }
    ensures room { vec_capacity records.new ≡ vec_capacity records.old }
{
    records.retain(|record| record.region != id);
}

// Drops the records of a page whose region has no private copy of it.
pub(crate) fn drop_page(records: &mut Vec<Record>, copies: &Copies, page: u64)
    requires rises { RecordsRise records.old.items }
    requires copies { CopiesRise copies.now.list }
    ensures records { records.new.items ≡ filter (λ r. not (is_without_copy copies.now.list page r)) records.old.items }
    ensures room { vec_capacity records.new ≡ vec_capacity records.old }
{
    let kept = copied_first(records, copies, page);
    records.truncate(kept);
}

// The record is of another page, or its region has a private copy of it.
fn stays(record: &Record, copies: &Copies, page: u64) -> bool
    requires { CopiesRise copies.now.list }
    ensures { result ≡ not (is_without_copy copies.now.list page record.now) }
{
    record.page != page || copies.has(record.region, page)
}

// Moves the records that stay to the front, in their order, and answers how many these are.
fn copied_first(records: &mut [Record], copies: &Copies, page: u64) -> usize
    requires rises { RecordsRise records.old }
    requires copies { CopiesRise copies.now.list }
    ensures stay { take result records.new ≡ filter (λ r. not (is_without_copy copies.now.list page r)) records.old }
    ensures within { result ≤ length records.new }
{
    let start = before(records, page);
    if through(records, page) <= start {
        return records.len();
    }
    let mut kept = start;
    for place in start..records.len() {
        if stays(&records[place], copies, page) {
            records.swap(kept, place);
            kept += 1;
        }
    }
    kept
}

// The least number of a shared region among the records of a page that permit writing it.
fn least_writer(records: &[Record], regions: &[Region], page: u64) -> Option<u32>
    requires { RegionsRise regions.now }
    ensures { result ≡ writer_of regions.now records.now page }
{
    records
        .iter()
        .filter(|record| record.page == page && record.write && is_shared(regions, record.region))
        .map(|record| record.region)
        .min()
}

// The least number of a shared region with a record that permits it to write the page.
pub(crate) fn writer(records: &[Record], regions: &[Region], page: u64) -> Option<u32>
    requires records { RecordsRise records.now }
    requires regions { RegionsRise regions.now }
    ensures { result ≡ writer_of regions.now records.now page }
{
    let start = before(records, page);
    let end = through(records, page).max(start);
    least_writer(&records[start..end], regions, page)
}
