//! Reports of files with many hash pages, by one thread and by several. The digests were made with Python's hashlib.

use super::*;
use cs_samples::{COMMANDS, SIGNATURE, put, put_be32};
use pg_digest::ShaDigester;
use std::alloc::Global;
use std::test::Fail;

/// A file of so many hash pages, the digest of its first page, and the pages of which a byte is changed: those at the
/// borders of shares, where there are two or four processors, and the last.
type Row = (u16, [u8; 32], &'static [u64]);

const ROWS: [Row; 4] = [
    (129, FIRST_OF_129, &[0, 127, 128]),
    (512, FIRST_OF_512, &[127, 128, 255, 256, 383, 384, 511]),
    (
        2048,
        FIRST_OF_2048,
        &[511, 512, 1023, 1024, 1535, 1536, 2047],
    ),
    (2048, FIRST_OF_2048, &[2047]),
];

/// The SHA-256 digests of the first pages.
const FIRST_OF_129: [u8; 32] = [
    0x7c, 0x3e, 0xc7, 0xfc, 0x93, 0xf9, 0xb6, 0x84, 0x45, 0x0b, 0x5e, 0x14, 0x7b, 0xa4, 0xb9, 0x49,
    0xdb, 0x5d, 0x67, 0x54, 0x3b, 0x66, 0xb5, 0x52, 0xe6, 0xc7, 0xf6, 0x35, 0x6e, 0x53, 0x5e, 0x66,
];

const FIRST_OF_512: [u8; 32] = [
    0x47, 0xf8, 0xdb, 0xde, 0x07, 0x6a, 0xa5, 0x4e, 0x80, 0xfc, 0xf8, 0xf5, 0x93, 0x3e, 0xf0, 0x9a,
    0x52, 0x03, 0x4c, 0xec, 0x70, 0xbc, 0xcb, 0xc6, 0x68, 0x78, 0x7d, 0xc8, 0x20, 0xa6, 0x6a, 0xa0,
];

const FIRST_OF_2048: [u8; 32] = [
    0x06, 0xcc, 0x52, 0x2c, 0xa6, 0xe2, 0xfd, 0x2b, 0xa2, 0x68, 0xae, 0x98, 0xeb, 0x94, 0xd0, 0x0c,
    0x56, 0x13, 0x8f, 0x38, 0xba, 0x76, 0x71, 0x5c, 0xe9, 0x0a, 0xde, 0x07, 0xcf, 0x75, 0xfe, 0x63,
];

/// The SHA-256 digest of 4,096 zeros.
const ZEROS: [u8; 32] = [
    0xad, 0x7f, 0xac, 0xb2, 0x58, 0x6f, 0xc6, 0xe9, 0x66, 0xc0, 0x04, 0xd7, 0xd1, 0xd1, 0x6b, 0x02,
    0x4f, 0x58, 0x05, 0xff, 0x7c, 0xb4, 0x7c, 0x7a, 0x85, 0xda, 0xbd, 0x8b, 0x48, 0x89, 0x2c, 0xa7,
];

/// A fat header of 32-bit fields: two records for arm64, at 4,096 and 2,121,728, of 2,113,656 bytes each.
const FAT_HEADER: [u8; 48] = [
    0xca, 0xfe, 0xba, 0xbe, 0, 0, 0, 2, // magic, two records
    1, 0, 0, 0x0c, 0, 0, 0, 0, 0, 0, 0x10, 0, 0, 0x20, 0x40, 0x78, 0, 0, 0, 12, //
    1, 0, 0, 0x0c, 0, 0, 0, 0, 0, 0x20, 0x60, 0, 0, 0x20, 0x40, 0x78, 0, 0, 0, 12, //
];

/// A thin file for arm64 of so many hash pages, each with its slot: the first has the load commands, and the others are
/// zeros.
fn signed(alloc: Global, pages: u16, first: &[u8]) -> Result<Vec<u8>, Fail> {
    let limit = u32::from(pages) * 4096;
    let slots = u32::from(pages) * 32;
    let mut bytes = COMMANDS.to_vec(alloc)?;
    put(&mut bytes, 184, &limit.to_le_bytes());
    put(&mut bytes, 188, &(slots + 120).to_le_bytes());
    bytes.resize(limit as usize, 0)?;
    let mut signature = SIGNATURE[..120].to_vec(alloc)?;
    put_be32(&mut signature, 4, slots + 120);
    put_be32(&mut signature, 28, slots + 96);
    put_be32(&mut signature, 52, u32::from(pages));
    put_be32(&mut signature, 56, limit);
    bytes.extend_from_slice(&signature)?;
    bytes.extend_from_slice(first)?;
    for _ in 1..pages {
        bytes.extend_from_slice(&ZEROS)?;
    }
    Ok(bytes)
}

/// Changes the last byte of each of these pages of a slice that begins there.
fn change(bytes: &mut [u8], start: usize, pages: &[u64]) {
    for page in pages {
        let last = (*page as usize).saturating_mul(4096).saturating_add(4095);
        put(bytes, start.saturating_add(last), &[1]);
    }
}

/// The pages of a slice that do not match.
fn bad_numbers(alloc: Global, slice: &SliceReport) -> Result<Vec<u64>, Fail> {
    let mut numbers = Vec::new(alloc);
    if let SliceReport::Accepted { bad, .. } = slice {
        for page in bad.items() {
            numbers.push(page.page)?;
        }
    }
    Ok(numbers)
}

/// Whether both reports have these bad pages in each slice, and the same text.
fn both_say(
    alloc: Global,
    in_turn: &[SliceReport],
    on_threads: &[SliceReport],
    pages: &[u64],
) -> Result<bool, Fail> {
    for slice in on_threads {
        if bad_numbers(alloc, slice)?.as_slice() != pages {
            return Ok(false);
        }
    }
    Ok(verify_text(alloc, in_turn)? == verify_text(alloc, on_threads)?)
}

#[test]
fn bad_pages_at_the_borders_of_shares(rt: HostRuntime) -> Result<(), Fail> {
    let alloc = rt.alloc();
    for (pages, first, bad) in ROWS {
        let mut bytes = signed(alloc, pages, &first)?;
        let sealed = verify_on(&rt, alloc, &bytes)?;
        assert!(rt; all_match(&sealed), "{pages} pages");
        change(&mut bytes, 0, bad);
        let in_turn = verify(alloc, &bytes, &mut ShaDigester::new())?;
        let on_threads = verify_on(&rt, alloc, &bytes)?;
        assert!(rt;
            both_say(alloc, &in_turn, &on_threads, bad)?,
            "{pages} pages"
        );
    }
    Ok(())
}

#[test]
fn two_large_slices(rt: HostRuntime) -> Result<(), Fail> {
    let alloc = rt.alloc();
    let bad = &[0, 255, 256, 511];
    let thin = signed(alloc, 512, &FIRST_OF_512)?;
    let mut fat = FAT_HEADER.to_vec(alloc)?;
    for start in [4096, 2_121_728] {
        fat.resize(start, 0)?;
        fat.extend_from_slice(&thin)?;
        change(&mut fat, start, bad);
    }
    let in_turn = verify(alloc, &fat, &mut ShaDigester::new())?;
    let on_threads = verify_on(&rt, alloc, &fat)?;
    assert_eq!(rt; on_threads.len(), 2);
    assert!(rt; both_say(alloc, &in_turn, &on_threads, bad)?);
    Ok(())
}
