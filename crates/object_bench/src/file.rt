//! The file whose pages are timed: pages of zeros, and behind them a code directory that seals them.

ghost use Rattle.std.specs.Prelude.{◌≡◌, ◌<◌, ◌≤◌, ◌^◌, [], IfOk, Some, length};
ghost use Rattle.pg_digest.specs.Digests.{sha_hash};
ghost use Rattle.pg_regions.specs.RegionsNow.{spare};
ghost use Rattle.pg_object.specs.Kept.{IsLaid, slice_range};

use crate::fail::BenchFail;
use cs_blob::blob;
use cs_policy::{Layout, Prot, Region, Seats, SliceSeat};
use pg_bytes::Range;
use pg_cache::Cache;
use pg_digest::{Digester, HashKind, ShaDigester, digest_bytes};
use pg_io::MemPager;
use pg_object::{NoMemory, Object, Room};
use pg_pages::Pages;
use std::alloc::Global;

/// How many bytes a page has.
pub const PAGE: u32 = 4096;

/// How many pages the file has.
pub const PAGES: u32 = 256;

/// How many of them the code directory seals. It stands behind them.
pub const CODE: u32 = 253;

const SLICE: Range = Range {
    at: 0,
    len: PAGES as u64 * PAGE as u64,
};

const SIGNATURE: Range = Range {
    at: CODE as u64 * PAGE as u64,
    len: (PAGES - CODE) as u64 * PAGE as u64,
};

// A code directory of version 0x20400 with 253 code slots, up to its first slot.
const HEADER: [u8; 90] = [
    0xfa, 0xde, 0x0c, 0x02, 0x00, 0x00, 0x1f, 0xfa, // magic, length
    0x00, 0x02, 0x04, 0x00, 0x00, 0x02, 0x00, 0x02, // version, flags
    0x00, 0x00, 0x00, 0x5a, 0x00, 0x00, 0x00, 0x58, // hash offset, identifier offset
    0x00, 0x00, 0x00, 0x00, 0x00, 0x00, 0x00, 0xfd, // special slots, code slots
    0x00, 0x0f, 0xd0, 0x00, 0x20, 0x02, 0x00, 0x0c, // limit, hash size, hash type, platform, page size
    0x00, 0x00, 0x00, 0x00, 0x00, 0x00, 0x00, 0x00, // spare, scatter offset
    0x00, 0x00, 0x00, 0x00, 0x00, 0x00, 0x00, 0x00, // team offset, spare
    0x00, 0x00, 0x00, 0x00, 0x00, 0x00, 0x00, 0x00, // limit in 64 bits
    0x00, 0x00, 0x00, 0x00, 0x00, 0x00, 0x00, 0x00, // executable segment: base
    0x00, 0x00, 0x00, 0x00, 0x00, 0x0f, 0xd0, 0x00, // its limit
    0x00, 0x00, 0x00, 0x00, 0x00, 0x00, 0x00, 0x01, // its flags
    0x61, 0x00, // identifier
];

// The code directory: the digest of a page of zeros for each page that it seals.
fn directory(alloc: Global) -> Result<Vec<u8>, NoMemory> {
    let page = vec![in alloc; 0u8; PAGE as usize]?;
    let digest = ShaDigester::new().hash(HashKind::Sha256, &page);
    let mut bytes = Vec::from_slice(alloc, &HEADER)?;
    for _ in 0..CODE {
        bytes.extend_from_slice(digest_bytes(&digest))?;
    }
    Ok(bytes)
}

// One slice, the whole file, with its signature.
fn layout(alloc: Global) -> Result<Layout, NoMemory>
    ensures laid { IfOk result (IsLaid 1048576) }
    ensures slice { IfOk result (λ layout. slice_range layout 0 ≡ Some (record { at = 0; len = 1048576 })) }
{
    let seat = SliceSeat::Signed {
        slice: SLICE,
        sig: SIGNATURE,
    };
    Ok(Layout::Slices(Seats::new(vec![in alloc; seat]?)))
}

/// The file as an object whose pages can all be resident, with its signature attached. There is room for so many regions
/// and records.
pub fn opened(
    alloc: Global,
    regions: u32,
    records: u32,
) -> Result<Object<MemPager, ShaDigester>, BenchFail>
    ensures regions { IfOk result (λ object. regions ≤ (spare object.regions).regions) }
    ensures records { IfOk result (λ object. records ≤ (spare object.regions).records) }
    ensures pages { IfOk result (λ object. object.pages.cache.pager.pages ≡ PAGES) }
{
    let mut bytes = vec![in alloc; 0; PAGES as usize * PAGE as usize]?;
    let signature = directory(alloc)?;
    put(&mut bytes, SIGNATURE.at as usize, &signature);
    let pager = MemPager::new(bytes, Vec::new(alloc), PAGE)?;
    let pages = Pages::open(alloc, Cache::open(alloc, pager, PAGES)?, ShaDigester::new())?;
    if pages.pages() != u64::from(PAGES) {
        return Err(BenchFail::Pages);
    }
    let room = Room {
        regions: regions as usize,
        records: records as usize,
        copies: 0,
    };
    let mut object = Object::open(alloc, pages, SLICE.len, layout(alloc)?, room)?;
    let mut digester = ShaDigester::new();
    let Ok(held) = blob(alloc, signature, &SLICE, Some(PAGE), &mut digester) else {
        return Err(BenchFail::Signature);
    };
    object.add_blob(0, held, 0, 0);
    Ok(object)
}

// Puts bytes among others at a place, as far as there is room.
fn put(bytes: &mut [u8], at: usize, field: &[u8]) {
    for (place, byte) in bytes.iter_mut().skip(at).zip(field) {
        *place = *byte;
    }
}

/// Adds so many regions of all pages, with the numbers from 0 on.
pub fn map(object: &mut Object<MemPager, ShaDigester>, regions: u32)
    requires room { regions ≤ (spare object.old.regions).regions }
    requires pages { object.old.pages.cache.pager.pages ≡ PAGES }
    ensures records { (spare object.old.regions).records ≤ (spare object.new.regions).records }
{
    for id in 0..regions {
        let region = Region {
            id,
            pid: 0,
            first: 0,
            pages: u64::from(PAGES),
            prot: Prot::RX,
            shared: false,
        };
        object.add_region(region, 0);
    }
}
