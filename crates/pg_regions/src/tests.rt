ghost use Rattle.std.specs.Prelude.{◌≡◌, ◌+◌, ◌<◌, ◌≤◌, IsTrue, None, length};
ghost use Rattle.pg_bytes.specs.PageSize.{is_page_size};
ghost use Rattle.pg_regions.specs.Lookups.{copy_of, HasPrivatePage};
ghost use Rattle.pg_regions.specs.RegionsNow.{spare};

use super::*;
use cs_policy::{Access, Prot, Record, Region};
use pg_bytes::Steps;
use std::alloc::Global;
use std::marker::Brand;
use std::process::Abort;
use std::sync::ledger::{Blank, Ledger};
use std::test::Fail;

#[derive(Clone, Copy, Debug)]
enum Call {
    Add(Region),
    Grant(u32, u64, Access, bool),
    Strip(u64),
    Unmap(u64),
    Writer(u64),
    MakeCopy(u32, u64),
    PutCopy(u32, u64, u32, u8),
    DropRegion(u32),
    DropPid(u32),
}

// Pages 4, 5 and 6.
const PRIVATE: Region = Region {
    id: 1,
    pid: 0,
    first: 4,
    pages: 3,
    prot: Prot::RWX,
    shared: false,
};

// The first eight pages.
const SHARED: Region = Region {
    id: 2,
    pid: 0,
    first: 0,
    pages: 8,
    prot: Prot::RWX,
    shared: true,
};

// Page 5, mapped by another process.
const OTHER: Region = Region {
    id: 3,
    pid: 1,
    first: 5,
    pages: 1,
    prot: Prot::RWX,
    shared: true,
};

// Page 0.
const LATER: Region = Region {
    id: 4,
    pid: 0,
    first: 0,
    pages: 1,
    prot: Prot::RWX,
    shared: true,
};

// Whether a copy of the page can be made for the region.
fn can_copy(regions: &Regions, id: u32, page: u64) -> bool
    ensures stands { IsTrue result → HasPrivatePage regions.now.regions id page }
    ensures absent { IsTrue result → copy_of regions.now.copies id page ≡ None }
{
    if regions.copy(id, page).is_some() {
        return false;
    }
    regions.has_private_page(id, page)
}

// The call with its answer, where its conditions hold.
fn run(regions: &mut Regions, call: Call) -> Result<Option<u32>, &'static str>
    requires regions { 0 < (spare regions.old).regions }
    requires records { 0 < (spare regions.old).records }
    requires copies { 0 < (spare regions.old).copies }
    requires size { regions.old.page ≡ 4096 }
    ensures regions { (spare regions.old).regions ≤ (spare regions.new).regions + 1 }
    ensures records { (spare regions.old).records ≤ (spare regions.new).records + 1 }
    ensures copies { (spare regions.old).copies ≤ (spare regions.new).copies + 1 }
    ensures size { regions.new.page ≡ 4096 }
{
    match call {
        Call::Add(region) if regions.find(region.id).is_none() => regions.add(region),
        Call::Grant(id, page, access, guarded) if regions.has_page(id, page) => {
            regions.grant(id, page, access, guarded);
        }
        Call::Strip(page) => regions.strip(page),
        Call::Unmap(page) => regions.unmap_page(page),
        Call::Writer(page) => return Ok(regions.writer(page)),
        Call::MakeCopy(id, page) if can_copy(regions, id, page) => {
            regions.make_copy(id, page, &[7; 4096]);
        }
        Call::PutCopy(id, page, at, byte) if at < 4096 && regions.copy(id, page).is_some() => {
            regions.put_copy(id, page, at, &[byte]);
        }
        Call::DropRegion(id) => return Ok(Some(u32::from(regions.drop_region(id)))),
        Call::DropPid(pid) => return Ok(Some(regions.drop_pid(pid))),
        _ => return Err("a condition of the call does not hold"),
    }
    Ok(None)
}

// What a record gives, as four letters.
fn letters(record: Option<&Record>) -> [char; 4] {
    match record {
        Some(record) => [
            if record.read { 'r' } else { '-' },
            if record.write { 'w' } else { '-' },
            if record.execute { 'x' } else { '-' },
            if record.guarded { 'g' } else { '-' },
        ],
        None => ['n', 'o', 'n', 'e'],
    }
}

// The regions and pages whose records are shown.
const SHOWN: [(u32, u64); 4] = [(1, 5), (2, 5), (3, 5), (1, 6)];

// What each of the calls answers, and what the records that are shown give then.
const CALLS: [(Call, Option<u32>, [[char; 4]; 4]); 26] = [
    (Call::Add(PRIVATE), None, [NONE, NONE, NONE, NONE]),
    (Call::Add(SHARED), None, [NONE, NONE, NONE, NONE]),
    (Call::Add(OTHER), None, [NONE, NONE, NONE, NONE]),
    (
        Call::Grant(1, 5, Access::Read, true),
        None,
        [R, NONE, NONE, NONE],
    ),
    (
        Call::Grant(1, 5, Access::Execute, true),
        None,
        [RXG, NONE, NONE, NONE],
    ),
    (
        Call::Grant(1, 6, Access::Execute, true),
        None,
        [RXG, NONE, NONE, RXG],
    ),
    (Call::Writer(5), None, [RXG, NONE, NONE, RXG]),
    (
        Call::Grant(3, 5, Access::Write, true),
        None,
        [RXG, NONE, RW, RXG],
    ),
    (
        Call::Grant(2, 5, Access::Read, false),
        None,
        [RXG, R, RW, RXG],
    ),
    (Call::Writer(5), Some(3), [RXG, R, RW, RXG]),
    (
        Call::Grant(2, 5, Access::Write, false),
        None,
        [RXG, RW, RW, RXG],
    ),
    (Call::Writer(5), Some(2), [RXG, RW, RW, RXG]),
    (
        Call::Grant(3, 5, Access::Execute, false),
        None,
        [RXG, RW, RWX, RXG],
    ),
    (Call::Strip(5), None, [RG, RW, RW, RXG]),
    (Call::MakeCopy(1, 5), None, [RG, RW, RW, RXG]),
    (
        Call::Grant(1, 5, Access::Execute, true),
        None,
        [RXG, RW, RW, RXG],
    ),
    (
        Call::Grant(1, 5, Access::Write, false),
        None,
        [RWG, RW, RW, RXG],
    ),
    (Call::PutCopy(1, 5, 4095, 9), None, [RWG, RW, RW, RXG]),
    (Call::Writer(5), Some(2), [RWG, RW, RW, RXG]),
    (Call::Unmap(5), None, [RWG, NONE, NONE, RXG]),
    (Call::Writer(5), None, [RWG, NONE, NONE, RXG]),
    (Call::DropRegion(2), Some(1), [RWG, NONE, NONE, RXG]),
    (Call::DropRegion(2), Some(0), [RWG, NONE, NONE, RXG]),
    (Call::Add(LATER), None, [RWG, NONE, NONE, RXG]),
    (Call::DropPid(0), Some(2), [NONE, NONE, NONE, NONE]),
    (Call::DropPid(0), Some(0), [NONE, NONE, NONE, NONE]),
];

const NONE: [char; 4] = ['n', 'o', 'n', 'e'];

const R: [char; 4] = ['r', '-', '-', '-'];

const RG: [char; 4] = ['r', '-', '-', 'g'];

const RW: [char; 4] = ['r', 'w', '-', '-'];

const RWX: [char; 4] = ['r', 'w', 'x', '-'];

const RWG: [char; 4] = ['r', 'w', '-', 'g'];

const RXG: [char; 4] = ['r', '-', 'x', 'g'];

#[test]
fn two_processes_map_a_file(rt: HostRuntime) -> Result<(), Fail> {
    let mut regions = Regions::open(rt.alloc(), 26, 26, 26, 4096)?;
    for (call, answer, records) in CALLS.iter() {
        assert_eq!(rt; run(&mut regions, *call)?, *answer, "of {call:?}");
        let shown = SHOWN.map(|(id, page)| letters(regions.record(id, page)));
        assert_eq!(rt; shown, *records, "after {call:?}");
    }
    assert_eq!(rt; regions.find(3), Some(&OTHER));
    Ok(())
}

// The first and the last byte of a copy.
fn ends(copy: Option<&[u8]>) -> Option<(u8, u8)> {
    let copy = copy?;
    Some((*copy.first()?, *copy.last()?))
}

#[test]
fn a_copy_is_written_and_goes_with_its_region(rt: HostRuntime) -> Result<(), Fail> {
    let mut regions = Regions::open(rt.alloc(), 5, 5, 5, 4096)?;
    assert_eq!(rt; run(&mut regions, Call::Add(PRIVATE))?, None);
    assert_eq!(rt; run(&mut regions, Call::MakeCopy(1, 6))?, None);
    assert_eq!(rt; run(&mut regions, Call::PutCopy(1, 6, 4095, 9))?, None);
    assert_eq!(rt; regions.find(1), Some(&PRIVATE));
    assert_eq!(rt; ends(regions.copy(1, 6)), Some((7, 9)));
    assert_eq!(rt; ends(regions.copy(1, 5)), None);
    assert_eq!(rt; run(&mut regions, Call::DropPid(0))?, Some(1));
    assert_eq!(rt; regions.find(1), None);
    assert_eq!(rt; ends(regions.copy(1, 6)), None);
    Ok(())
}

// A region is added, given a page and a copy of it, and dropped, three times in the room of one.
fn comes_and_goes(rt: &impl Abort, alloc: Global, page: u32, bytes: &[u8]) -> Result<(), Fail>
    requires size { IsTrue (is_page_size page) }
    requires whole { length bytes.now ≡ page }
{
    let mut regions = Regions::open(alloc, 1, 1, 1, page)?;
    for _ in 0..3 {
        regions.add(PRIVATE);
        regions.grant(1, 4, Access::Write, true);
        regions.make_copy(1, 4, bytes);
        assert_eq!(rt; letters(regions.record(1, 4)), RW);
        assert_eq!(rt;
            regions.copy(1, 4).map(|copy| copy.len()),
            Some(bytes.len())
        );
        assert!(rt; regions.drop_region(1));
        assert_eq!(rt; letters(regions.record(1, 4)), NONE);
    }
    Ok(())
}

#[test]
fn what_goes_gives_its_room_back(rt: HostRuntime) -> Result<(), Fail> {
    comes_and_goes(&rt, rt.alloc(), 4096, &[7; 4096])?;
    comes_and_goes(&rt, rt.alloc(), 16384, &[7; 16384])
}

// Takes steps of which there are at most so many.
fn at_most<L: Ledger>(_steps: &Steps<L>, _limit: u64)
    requires { _steps.now ≤ _limit }
{}

// Where the record of a page and region stands among three, in at most two steps.
fn place_of_three<L: Ledger>(
    blank: Blank,
    among: &Regions,
    page: u64,
    id: u32,
) -> Result<usize, usize>
    requires name { blank.name ≡ L.name }
    requires parts { blank.parts ≡ L.parts }
    requires some { 0 < blank.parts }
    requires three { length among.now.records ≤ 3 }
{
    let mut steps = Steps::<L>::open(blank);
    let place = among.place(page, id, &mut steps);
    at_most(&steps, 2);
    place
}

#[test]
fn records_are_placed_by_page_and_region(rt: HostRuntime) -> Result<(), Fail> {
    let mut regions = Regions::open(rt.alloc(), 3, 3, 0, 4096)?;
    regions.add(Region { id: 7, ..SHARED });
    regions.add(Region { id: 1, ..SHARED });
    regions.add(Region { id: 5, ..SHARED });
    regions.grant(1, 2, Access::Read, false);
    regions.grant(7, 0, Access::Read, false);
    regions.grant(5, 0, Access::Read, false);
    for (page, id, place) in [
        (0, 7, Ok(1)),
        (1, 9, Err(2)),
        (0, 5, Ok(0)),
        (2, 1, Ok(2)),
        (2, 2, Err(3)),
        (0, 6, Err(1)),
    ] {
        let found = place_of_three::<Brand>(Blank::new(1), &regions, page, id);
        assert_eq!(rt; found, place, "of page {page}, region {id}");
    }
    Ok(())
}
