ghost use Rattle.std.specs.Prelude.{◌<◌, ◌≤◌};

use crate::trial::{File, Trial};
use crate::words::small;
use cs_policy::{FAT_FAMILY, Refusal};
use cs_samples::{DIRECTORY, put_be32};
use pg_bytes::Range;
use std::alloc::{AllocGlobal, Global};
use std::process::Abort;
use std::test::Fail;

// SHA-256 digests by Python's hashlib, of 4,096 bytes 0x44 and of 4,096 bytes 0x45.
fn block_44() -> &'static [u8] {
    b"\x26\x7e\x5d\x2b\xb4\x21\x38\xbd\xf2\x3c\xcb\x5f\xbd\xea\x09\x38\
      \x51\x69\xde\x4c\x68\x6f\x7c\x12\x03\x4c\xcd\x7b\xb0\xc6\x89\x9d"
}

fn block_45() -> &'static [u8] {
    b"\xa3\xc2\x55\xca\xf3\x61\x41\x2e\xd2\xcd\x90\xec\xff\x64\x37\xed\
      \x02\x63\x0a\xd5\x49\x40\xe9\x02\x46\x42\xe1\x3c\xfc\x10\x4c\x52"
}

fn directory() -> &'static [u8] {
    &DIRECTORY
}

// What is covered by a signature of a slice that is the whole file.
fn whole(length: u64, signature: u64) -> (Range, Range)
    requires { signature ≤ length }
{
    (
        Range { at: 0, len: length },
        Range {
            at: length - signature,
            len: signature,
        },
    )
}

fn blocks(alloc: Global, values: &[u8]) -> Result<Vec<u8>, Fail> {
    let mut bytes = Vec::new(alloc);
    for value in values {
        for _ in 0..4096 {
            bytes.push(*value)?;
        }
    }
    Ok(bytes)
}

// Three pages of 0x41, 0x42 and 0x43, and behind them the directory that seals them.
fn three_pages(alloc: Global, limit: u32, fails: &[u64]) -> Result<Trial, Fail>
    requires some { 0 < limit }
    requires most { limit ≤ 4096 }
{
    let mut bytes = blocks(alloc, &[0x41, 0x42, 0x43])?;
    bytes.extend_from_slice(directory())?;
    let file = File::new(bytes, 4096, limit, Vec::from_slice(alloc, fails)?);
    Trial::open(alloc, file, Some(whole(12_474, 186)))
}

// The file's first three pages are mapped for execution, and the signature is attached.
const BASE: &str = "map 0 3 rx private = Added
attach 0 = Attached { blob: 0 }";

// Makes the call of a row, and holds its reply against the one that is wanted.
fn reply<R: Abort + AllocGlobal>(
    rt: &R,
    trial: &mut Trial,
    call: &str,
    wanted: &str,
) -> Result<(), Fail> {
    let told = trial.run(rt.alloc(), call)?;
    assert_eq!(rt; told.as_str(), wanted, "{call}");
    Ok(())
}

// The call of a row, and what it replies.
fn halves(row: &str) -> Result<(&str, &str), Fail> {
    match row.split_once(" = ") {
        Some(halves) => Ok(halves),
        None => Err("row".into()),
    }
}

// Makes the calls of a table in turn.
fn play<R: Abort + AllocGlobal>(rt: &R, trial: &mut Trial, rows: &str) -> Result<(), Fail> {
    for row in rows.lines() {
        let (call, wanted) = halves(row)?;
        reply(rt, trial, call, wanted)?;
    }
    Ok(())
}

#[test]
fn a_written_page_is_denied_until_it_is_written_back(rt: HostRuntime) -> Result<(), Fail> {
    let mut trial = three_pages(rt.alloc(), 4, &[])?;
    play(&rt, &mut trial, BASE)?;
    play(
        &rt,
        &mut trial,
        "write 4096 255 1 = Written { count: 1 }
         guarded 0 1 x = mismatch 1 1 changed_42 block_42
         guarded 0 2 x = given
         write 4096 66 1 = Written { count: 1 }
         guarded 0 1 x = given",
    )
}

#[test]
fn a_page_is_hashed_once_while_it_stays(rt: HostRuntime) -> Result<(), Fail> {
    let mut trial = three_pages(rt.alloc(), 4, &[])?;
    play(&rt, &mut trial, BASE)?;
    assert_eq!(rt; trial.hashes(), 0);
    play(
        &rt,
        &mut trial,
        "guarded 0 0 x = given
         guarded 0 0 x = given",
    )?;
    assert_eq!(rt; trial.hashes(), 1);
    // A page that left memory is hashed again, and so is one that was written, also with equal bytes.
    play(
        &rt,
        &mut trial,
        "evict 0 = Evicted
         guarded 0 0 x = given",
    )?;
    assert_eq!(rt; trial.hashes(), 2);
    play(
        &rt,
        &mut trial,
        "write 0 65 1 = Written { count: 1 }
         guarded 0 0 x = given
         guarded 0 0 x = given",
    )?;
    assert_eq!(rt; trial.hashes(), 3);
    Ok(())
}

#[test]
fn no_page_is_executed_beside_a_shared_writer(rt: HostRuntime) -> Result<(), Fail> {
    let mut trial = three_pages(rt.alloc(), 4, &[])?;
    play(&rt, &mut trial, BASE)?;
    play(
        &rt,
        &mut trial,
        "guarded 0 0 x = given
         map 4096 1 rw shared = Added
         free 4096 0 w = Given { victim: None, violation: Some(SealedWrite { page: 0 }) }
         guarded 0 0 x = Denied(WritableShared { page: 0, region: 4096 })",
    )?;
    assert_eq!(rt; trial.hashes(), 1);
    play(
        &rt,
        &mut trial,
        "unmap 4096 = Dropped
         guarded 0 0 x = given
         unmap 4096 = NoRegion { id: 4096 }",
    )?;
    assert_eq!(rt; trial.hashes(), 2);
    Ok(())
}

#[test]
fn a_private_copy_is_executed_by_a_debugged_process_alone(rt: HostRuntime) -> Result<(), Fail> {
    let mut trial = three_pages(rt.alloc(), 4, &[])?;
    play(
        &rt,
        &mut trial,
        "map 0 3 rwx private = Added
         attach 0 = Attached { blob: 0 }
         guarded 0 0 w = given
         guarded 0 0 x = Denied(PrivateCopy { page: 0 })
         debugged 0 0 x = Given { victim: None, violation: Some(PrivateCopy { page: 0 }) }
         store 0 0 4095 7 = Stored
         load 0 0 4095 1 = got 7 1
         exit 0 = DroppedAll { count: 1 }
         load 0 0 4095 1 = NotMapped
         map 1 1 r private = Added
         guarded 1 0 r = given
         load 1 0 4095 1 = got 65 1",
    )
}

#[test]
fn one_resident_page_gives_way_to_another(rt: HostRuntime) -> Result<(), Fail> {
    let mut trial = three_pages(rt.alloc(), 1, &[])?;
    play(&rt, &mut trial, BASE)?;
    play(
        &rt,
        &mut trial,
        "guarded 0 0 x = given
         guarded 0 1 x = Given { victim: Some(0), violation: None }
         guarded 0 0 x = Given { victim: Some(1), violation: None }",
    )
}

#[test]
fn a_victim_that_cannot_be_written_stays(rt: HostRuntime) -> Result<(), Fail> {
    let mut trial = three_pages(rt.alloc(), 1, &[3])?;
    play(
        &rt,
        &mut trial,
        "map 0 2 rw shared = Added
         free 0 0 w = given
         store 0 0 0 1 = Stored
         free 0 1 r = PagerFault { page: 0 }
         load 0 0 0 1 = got 1 1
         load 0 1 0 1 = NotMapped",
    )
}

#[test]
fn a_failed_call_leaves_what_was_written_before_it(rt: HostRuntime) -> Result<(), Fail> {
    let alloc = rt.alloc();
    let file = File::new(vec![in alloc; 0; 81_920]?, 4096, 20, vec![in alloc; 10]?);
    let mut trial = Trial::open(alloc, file, None)?;
    play(
        &rt,
        &mut trial,
        "write 100 255 65536 = Short { written: 32668 }
         map 0 20 r private = Added
         free 0 0 r = given
         load 0 0 99 1 = got 0 1
         load 0 0 100 1 = got 255 1
         free 0 7 r = given
         load 0 7 4095 1 = got 255 1
         free 0 8 r = given
         load 0 8 0 1 = got 0 1
         free 0 16 r = given
         load 0 16 99 1 = got 0 1",
    )
}

// Those of the signature and of the page before.
#[test]
fn the_reads_before_a_write_are_calls_too(rt: HostRuntime) -> Result<(), Fail> {
    let mut trial = three_pages(rt.alloc(), 4, &[4])?;
    play(&rt, &mut trial, BASE)?;
    play(
        &rt,
        &mut trial,
        "write 4000 255 200 = Short { written: 96 }
         guarded 0 1 x = given
         guarded 0 0 x = mismatch 0 0 cut_41 block_41",
    )
}

#[test]
fn a_failed_read_leaves_the_page_out(rt: HostRuntime) -> Result<(), Fail> {
    let mut trial = three_pages(rt.alloc(), 4, &[1, 3])?;
    play(
        &rt,
        &mut trial,
        "map 0 3 rx private = Added
         read 0 = PagerFault { page: 3 }
         guarded 0 0 x = Denied(Unsigned { page: 0 })
         attach 0 = Attached { blob: 0 }
         guarded 0 0 x = PagerFault { page: 0 }
         guarded 0 0 x = given",
    )
}

#[test]
fn writes_end_with_the_file(rt: HostRuntime) -> Result<(), Fail> {
    let mut trial = three_pages(rt.alloc(), 4, &[])?;
    play(
        &rt,
        &mut trial,
        "write 12474 0 1 = PastEnd { length: 12474 }
         write 12473 0 1 = Written { count: 1 }
         write 12474 0 0 = Written { count: 0 }",
    )
}

#[test]
fn an_empty_file_has_no_slices(rt: HostRuntime) -> Result<(), Fail> {
    let alloc = rt.alloc();
    let short = Refusal {
        family: FAT_FAMILY,
        number: 1,
        a: 0,
        b: 0,
    };
    let file = File::new(Vec::new(alloc), 4096, 1, Vec::new(alloc));
    let mut trial = Trial::refused(alloc, file, short)?;
    play(
        &rt,
        &mut trial,
        "read 0 = noslices fat.1.0.0
         evict 0 = NotResident
         guarded 0 0 x = NoRegion { id: 0 }",
    )
}

#[test]
fn an_evicted_page_is_fetched_no_more(rt: HostRuntime) -> Result<(), Fail> {
    let mut trial = three_pages(rt.alloc(), 4, &[])?;
    play(&rt, &mut trial, BASE)?;
    play(
        &rt,
        &mut trial,
        "read 1 = NoSlice { count: 1 }
         guarded 0 3 x = NoRegion { id: 0 }
         guarded 0 0 x = given
         fetch 0 0 0 4 = got 65 4
         evict 0 = Evicted
         evict 0 = NotResident
         fetch 0 0 0 4 = NotMapped",
    )
}

#[test]
fn a_second_signature_of_the_same_pages_is_not_attached(rt: HostRuntime) -> Result<(), Fail> {
    let mut trial = three_pages(rt.alloc(), 4, &[])?;
    play(&rt, &mut trial, BASE)?;
    play(
        &rt,
        &mut trial,
        "attach 0 = Already { blob: 0 }
         write 12303 0 1 = Written { count: 1 }
         attach 0 = Overlap { blob: 0 }",
    )
}

#[test]
fn a_dirty_page_leaves_when_it_is_written(rt: HostRuntime) -> Result<(), Fail> {
    let mut trial = three_pages(rt.alloc(), 4, &[2])?;
    play(
        &rt,
        &mut trial,
        "map 0 1 rw shared = Added
         free 0 0 w = given
         store 0 0 0 1 = Stored
         evict 0 = PagerFault { page: 0 }
         evict 0 = Evicted
         store 0 0 0 2 = NotMapped
         free 0 0 r = given
         load 0 0 0 1 = got 1 1",
    )
}

// Two pages of 16,384 bytes, and behind them a directory with the digests of their eight parts of 4,096 bytes.
fn two_large_pages(alloc: Global) -> Result<Vec<u8>, Fail> {
    let mut bytes = blocks(alloc, &[0x41, 0x42, 0x43, 0x44, 0x45, 0x45, 0x45, 0x45])?;
    bytes.extend_from_slice(&with_eight_slots(alloc, directory())?)?;
    bytes.extend_from_slice(block_44())?;
    for _ in 0..4 {
        bytes.extend_from_slice(block_45())?;
    }
    Ok(bytes)
}

// The head of that directory, with the digests of the first three parts: its length, how many slots it has, and its limit
// in both places.
fn with_eight_slots(alloc: Global, directory: &[u8]) -> Result<Vec<u8>, Fail> {
    let mut head = Vec::from_slice(alloc, directory)?;
    put_be32(&mut head, 4, 346);
    put_be32(&mut head, 28, 8);
    put_be32(&mut head, 32, 32_768);
    put_be32(&mut head, 76, 32_768);
    Ok(head)
}

#[test]
fn a_large_page_has_four_slots(rt: HostRuntime) -> Result<(), Fail> {
    let alloc = rt.alloc();
    let file = File::new(two_large_pages(alloc)?, 16_384, 2, Vec::new(alloc));
    let mut trial = Trial::open(alloc, file, Some(whole(33_114, 346)))?;
    play(
        &rt,
        &mut trial,
        "map 0 2 rx private = Added
         attach 0 = Attached { blob: 0 }
         write 8192 255 1 = Written { count: 1 }
         guarded 0 0 x = mismatch 0 2 changed_43 block_43
         guarded 0 1 x = given
         fetch 0 1 16380 4 = got 69 4",
    )?;
    // Three parts of the first page up to the one that differs, and four of the second.
    assert_eq!(rt; trial.hashes(), 7);
    Ok(())
}

// Such a slice is opened and its bytes are read; they are refused where they are to be attached.
#[test]
fn a_slice_may_begin_within_a_page(rt: HostRuntime) -> Result<(), Fail> {
    let alloc = rt.alloc();
    let file = File::new(two_large_pages(alloc)?, 16_384, 2, Vec::new(alloc));
    let slice = Range {
        at: 4096,
        len: 29_018,
    };
    let sig = Range {
        at: 32_768,
        len: 346,
    };
    let mut trial = Trial::open(alloc, file, Some((slice, sig)))?;
    play(&rt, &mut trial, "read 0 = read 346")
}

// Calls with 21 pager calls, where two pages may be resident. Replies and pager calls are those of a model of the file that
// was written apart, in another language.
const SCRIPT: &str = "map 0 3 rx private = Added
attach 0 = Attached { blob: 0 }
guarded 0 0 x = given
guarded 0 1 x = given
guarded 0 2 x = Given { victim: Some(0), violation: None }
map 4096 3 rw shared = Added
free 4096 0 w = Given { victim: Some(1), violation: Some(SealedWrite { page: 0 }) }
store 4096 0 0 255 = Stored
free 4096 1 r = Given { victim: Some(2), violation: None }
guarded 0 0 x = Denied(WritableShared { page: 0, region: 4096 })
free 4096 2 r = Given { victim: Some(0), violation: None }
load 4096 0 0 1 = NotMapped
write 4096 255 1 = Written { count: 1 }
guarded 0 1 x = mismatch 1 1 changed_42 block_42
write 4096 66 1 = Written { count: 1 }
guarded 0 1 x = given
write 8190 66 4 = Written { count: 4 }
evict 2 = Evicted
evict 1 = Evicted
write 0 65 4096 = Written { count: 4096 }
guarded 0 0 x = given
read 0 = read 186
write 12473 0 1 = Written { count: 1 }
attach 0 = Overlap { blob: 0 }
free 4096 2 w = Given { victim: None, violation: Some(SealedWrite { page: 2 }) }
store 4096 2 5 9 = Stored
evict 2 = Evicted
fetch 0 0 0 4 = got 65 4
free 4096 2 r = given
load 4096 2 5 1 = got 9 1";

// Where the pager's calls from the first to the 21st are failed in turn: the place of the call that meets the failure, and
// what it replies.
const FAILURES: &str = "1 = PagerFault { page: 3 }
2 = PagerFault { page: 0 }
3 = PagerFault { page: 1 }
4 = PagerFault { page: 2 }
6 = PagerFault { page: 0 }
8 = PagerFault { page: 1 }
10 = PagerFault { page: 2 }
10 = PagerFault { page: 0 }
12 = Short { written: 0 }
14 = Short { written: 0 }
16 = Short { written: 0 }
16 = Short { written: 2 }
19 = Short { written: 0 }
20 = PagerFault { page: 0 }
21 = PagerFault { page: 3 }
22 = Short { written: 0 }
22 = Short { written: 0 }
23 = PagerFault { page: 3 }
24 = PagerFault { page: 2 }
26 = PagerFault { page: 2 }
28 = PagerFault { page: 2 }";

// Makes the calls of a table up to this place, where one meets the failure of the pager call of this number.
fn fails_at<R: Abort + AllocGlobal>(
    rt: &R,
    rows: &str,
    number: u64,
    place: usize,
    wanted: &str,
) -> Result<(), Fail> {
    let mut trial = three_pages(rt.alloc(), 2, &[number])?;
    for (at, row) in rows.lines().enumerate() {
        let (call, told) = halves(row)?;
        if at == place {
            return reply(rt, &mut trial, call, wanted);
        }
        reply(rt, &mut trial, call, told)?;
    }
    Err("place".into())
}

#[test]
fn each_pager_call_fails_in_turn(rt: HostRuntime) -> Result<(), Fail> {
    let mut trial = three_pages(rt.alloc(), 2, &[22])?;
    play(&rt, &mut trial, SCRIPT)?;
    for (number, row) in (1..22).zip(FAILURES.lines()) {
        let (place, wanted) = halves(row)?;
        fails_at(&rt, SCRIPT, number, small(place)? as usize, wanted)?;
    }
    Ok(())
}
