use crate::{Check, NoMemory, PagerFault, Pages};
use pg_cache::Cache;
use pg_digest::{Digester, HashKind, ShaDigester, digest_of, size};
use pg_io::{MemPager, Pager};
use std::alloc::Global;
use std::test::Fail;

// The digests are by Python's hashlib: SHA-1 and SHA-256 of 4,096 zeros; SHA-256 of 0x41 before 4,095 zeros, of 0xff
// before 4,095 bytes 0x43, and of four blocks of 4,096 bytes 0x41, 0x42, 0x43 and 0x44, together and each.
const ZEROS_SHA1: [u8; 20] = *b"\x1c\xea\xf7\x3d\xf4\x0e\x53\x1d\xf3\xbf\xb2\x6b\x4f\xb7\xcd\x95\
      \xfb\x7b\xff\x1d";

const ZEROS: [u8; 32] = *b"\xad\x7f\xac\xb2\x58\x6f\xc6\xe9\x66\xc0\x04\xd7\xd1\xd1\x6b\x02\
      \x4f\x58\x05\xff\x7c\xb4\x7c\x7a\x85\xda\xbd\x8b\x48\x89\x2c\xa7";

const CHANGED: [u8; 32] = *b"\x9a\xab\x2e\xc0\x0d\xa3\x0c\x5d\xa4\xed\xea\x7c\x83\x4d\x83\xc0\
      \xd3\xbd\x09\x4c\xb2\x76\xa6\xb9\x86\x93\xd9\xdf\xc3\xe8\xa5\x24";

const PATCHED: [u8; 32] = *b"\xa2\x78\x3d\xce\x4b\xff\x17\xaf\xbd\xc3\x85\x02\x98\xbf\x05\x13\
      \x7f\xb1\xc7\xfd\x03\x88\x5b\x4f\x2f\xa9\x20\xe3\x03\x00\x40\xe2";

const WHOLE: [u8; 32] = *b"\x48\x5d\xb7\xa9\x26\x94\x3c\xd8\xa7\xbc\xdd\xcf\xa4\x7f\x0d\x6d\
      \xd3\x89\x36\x4b\x0d\xc5\xbb\x59\x6e\x9d\x47\x10\xd9\xa8\x1b\x06";

const FOUR_BLOCKS: [u8; 128] = *b"\x68\x96\xd9\xea\x3f\x73\xa4\x43\x4f\x58\x32\xbc\x65\x71\x4e\x7d\
      \x06\x6f\x17\x73\x73\xf3\x6f\x34\xdc\x8a\x6f\x73\x5d\xaa\x41\xb1\
      \x72\x5b\xcd\x6c\x66\xd0\x2a\xcf\x6e\xbe\xab\x9c\x92\x41\x0e\x01\
      \x0e\xa2\x2e\x33\x68\x76\x25\x6a\xaf\x05\xa2\x11\xf4\xce\x19\x02\
      \xb2\x3f\x99\xe1\xf6\x53\xe6\x2f\xa5\xbc\x14\xcc\x52\x8a\x9e\xc3\
      \xb6\xd1\x1b\xe4\x82\xb2\xee\x51\xb5\x19\xd1\xd6\xad\x8c\x54\x66\
      \x26\x7e\x5d\x2b\xb4\x21\x38\xbd\xf2\x3c\xcb\x5f\xbd\xea\x09\x38\
      \x51\x69\xde\x4c\x68\x6f\x7c\x12\x03\x4c\xcd\x7b\xb0\xc6\x89\x9d";

// Pages over two pages of 4,096 zeros, of which one may be resident. The pager's call of this number fails.
fn small(alloc: Global, fails: u64) -> Result<Pages<MemPager, ShaDigester>, NoMemory> {
    let pager = MemPager::new(vec![in alloc; 0; 8192]?, vec![in alloc; fails]?, 4096)?;
    Pages::open(alloc, Cache::open(alloc, pager, 1)?, ShaDigester::new())
}

// Pages over one page of 16,384 bytes: four blocks of 0x41, 0x42, 0x43 and 0x44.
fn large(alloc: Global) -> Result<Pages<MemPager, ShaDigester>, NoMemory> {
    let mut bytes = Vec::with_capacity(alloc, 16384)?;
    for byte in [0x41, 0x42, 0x43, 0x44] {
        for _ in 0..4096 {
            bytes.push(byte)?;
        }
    }
    let pager = MemPager::new(bytes, Vec::new(alloc), 16384)?;
    Pages::open(alloc, Cache::open(alloc, pager, 2)?, ShaDigester::new())
}

// A check through the bounds, where it may be asked.
fn check<P: Pager, D: Digester>(
    pages: &mut Pages<P, D>,
    page: u64,
    kind: HashKind,
    part: u32,
    wanted: &[u8],
) -> Result<Check, PagerFault> {
    let page_size = pages.page_size();
    if page >= pages.pages() || (part != 4096 && part != 16384) || page_size % part != 0 {
        return Err(PagerFault { page });
    }
    let count = (page_size / part) as usize;
    if wanted.len() != count * usize::from(size(kind)) {
        return Err(PagerFault { page });
    }
    pages.check(page, kind, part, wanted)
}

// Makes a page resident and puts a byte into it.
fn change<P: Pager, D: Digester>(
    pages: &mut Pages<P, D>,
    page: u64,
    at: u32,
    byte: u8,
) -> Result<Option<u64>, PagerFault> {
    if page >= pages.pages() || at >= pages.page_size() {
        return Err(PagerFault { page });
    }
    let victim = pages.bring(page)?;
    if pages.is_resident(page) {
        pages.put(page, at, &[byte]);
    }
    Ok(victim)
}

// The first byte of a page.
fn first<P: Pager, D: Digester>(
    pages: &mut Pages<P, D>,
    page: u64,
) -> Result<Option<u8>, PagerFault> {
    if page >= pages.pages() {
        return Err(PagerFault { page });
    }
    Ok(pages.peek(page)?.first().copied())
}

// A write of one byte at the front of a page.
fn write<P: Pager, D: Digester>(
    pages: &mut Pages<P, D>,
    page: u64,
    byte: u8,
) -> Result<(), PagerFault> {
    if page >= pages.pages() {
        return Err(PagerFault { page });
    }
    pages.write(page, 0, &[byte])
}

#[test]
fn pages_are_checked(rt: HostRuntime) -> Result<(), Fail> {
    let sealed = Ok(Check::Sealed);
    let found = digest_of(&CHANGED).ok_or("digest")?;
    let other = Ok(Check::NotSealed { part: 0, found });
    let sha256 = HashKind::Sha256;
    // The pager reads pages 0 and 1, writes page 0 as it leaves, reads it, and fails to write page 1 once.
    let mut used = small(rt.alloc(), 5)?;
    assert_eq!(rt; check(&mut used, 0, sha256, 4096, &ZEROS), sealed);
    assert_eq!(rt; change(&mut used, 0, 0, 0x41), Ok(None));
    assert_eq!(rt; check(&mut used, 0, sha256, 4096, &ZEROS), other);
    assert_eq!(rt; check(&mut used, 0, sha256, 4096, &CHANGED), sealed);
    assert_eq!(rt; check(&mut used, 0, sha256, 4096, &CHANGED), sealed);
    assert_eq!(rt;
        check(&mut used, 1, HashKind::Sha1, 4096, &ZEROS_SHA1),
        sealed
    );
    assert_eq!(rt; change(&mut used, 1, 0, 0x41), Ok(Some(0)));
    assert_eq!(rt; check(&mut used, 1, sha256, 4096, &ZEROS), other);
    assert_eq!(rt; first(&mut used, 0), Ok(Some(0x41)));
    assert_eq!(rt; used.evict(1), Err(PagerFault { page: 1 }));
    assert_eq!(rt; used.evict(1), Ok(true));
    assert_eq!(rt; used.evict(1), Ok(false));
    assert_eq!(rt; write(&mut used, 1, 0x42), Ok(()));
    assert_eq!(rt; first(&mut used, 1), Ok(Some(0x42)));
    assert_eq!(rt; first(&mut used, 0), Ok(Some(0x41)));
    Ok(())
}

#[test]
fn parts_of_a_page_are_checked(rt: HostRuntime) -> Result<(), Fail> {
    let found = digest_of(&PATCHED).ok_or("digest")?;
    let mut used = large(rt.alloc())?;
    if used.pages() > 0 {
        assert_eq!(rt; used.bring(0), Ok(None));
    }
    let sha256 = HashKind::Sha256;
    assert_eq!(rt;
        check(&mut used, 0, sha256, 4096, &FOUR_BLOCKS),
        Ok(Check::Sealed)
    );
    assert_eq!(rt;
        check(&mut used, 0, sha256, 16384, &WHOLE),
        Ok(Check::Sealed)
    );
    assert_eq!(rt; change(&mut used, 0, 8192, 0xff), Ok(None));
    assert_eq!(rt;
        check(&mut used, 0, sha256, 4096, &FOUR_BLOCKS),
        Ok(Check::NotSealed { part: 2, found })
    );
    Ok(())
}

#[test]
fn a_mapped_page_is_checked_each_time(rt: HostRuntime) -> Result<(), Fail> {
    let sealed = Ok(Check::Sealed);
    let sha256 = HashKind::Sha256;
    let mut used = small(rt.alloc(), 0)?;
    assert_eq!(rt; used.limit(), 1);
    assert_eq!(rt; change(&mut used, 1, 0, 0), Ok(None));
    if used.is_resident(1) {
        used.set_writable(1);
    }
    assert_eq!(rt; check(&mut used, 1, sha256, 4096, &ZEROS), sealed);
    assert_eq!(rt; change(&mut used, 1, 0, 0x41), Ok(None));
    assert_eq!(rt; check(&mut used, 1, sha256, 4096, &CHANGED), sealed);
    used.clear_writable(1);
    used.clear_writable(0);
    assert_eq!(rt; check(&mut used, 1, sha256, 4096, &CHANGED), sealed);
    assert_eq!(rt; check(&mut used, 1, sha256, 4096, &CHANGED), sealed);
    Ok(())
}
