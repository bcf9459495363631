ghost use Rattle.std.specs.Option.{ForSome};
ghost use Rattle.pg_bytes.specs.PageSize.{IsPageSize};

use super::*;
use BlobRefusal::*;
use cs_directory::DirRefusal;
use cs_samples::{DIRECTORY, DIRECTORY_CDHASH, put_be32 as put};
use cs_superblob::SuperRefusal;
use pg_bytes::Range;
use pg_digest::{HashKind, ShaDigester};
use std::alloc::Global;
use std::test::Fail;

/// A directory of SHA-1 as type 0, at 28, and that of SHA-256 as type 0x1000, at 178.
const PAIR: [u8; 364] = [
    0xfa, 0xde, 0x0c, 0xc0, 0x00, 0x00, 0x01, 0x6c, 0x00, 0x00, 0x00, 0x02, 0x00, 0x00, 0x00, 0x00,
    0x00, 0x00, 0x00, 0x1c, 0x00, 0x00, 0x10, 0x00, 0x00, 0x00, 0x00, 0xb2, 0xfa, 0xde, 0x0c, 0x02,
    0x00, 0x00, 0x00, 0x96, 0x00, 0x02, 0x04, 0x00, 0x00, 0x02, 0x00, 0x02, 0x00, 0x00, 0x00, 0x5a,
    0x00, 0x00, 0x00, 0x58, 0x00, 0x00, 0x00, 0x00, 0x00, 0x00, 0x00, 0x03, 0x00, 0x00, 0x30, 0x00,
    0x14, 0x01, 0x00, 0x0c, 0x00, 0x00, 0x00, 0x00, 0x00, 0x00, 0x00, 0x00, 0x00, 0x00, 0x00, 0x00,
    0x00, 0x00, 0x00, 0x00, 0x00, 0x00, 0x00, 0x00, 0x00, 0x00, 0x00, 0x00, 0x00, 0x00, 0x00, 0x00,
    0x00, 0x00, 0x00, 0x00, 0x00, 0x00, 0x00, 0x00, 0x00, 0x00, 0x30, 0x00, 0x00, 0x00, 0x00, 0x00,
    0x00, 0x00, 0x00, 0x01, 0x61, 0x00, 0x60, 0x8c, 0xab, 0xc0, 0xf2, 0xfa, 0x18, 0xc2, 0x60, 0xca,
    0xfd, 0x97, 0x45, 0x16, 0x86, 0x5c, 0x77, 0x23, 0x63, 0xd5, 0x59, 0x68, 0x2b, 0xdd, 0xd4, 0xb2,
    0xa3, 0x1b, 0x08, 0xbc, 0x69, 0x77, 0x16, 0x96, 0x91, 0xc1, 0x0d, 0xb7, 0xa5, 0x01, 0x6e, 0x6e,
    0xa0, 0x82, 0x94, 0xea, 0x26, 0x1b, 0xf0, 0xca, 0x65, 0x98, 0xcd, 0x7b, 0x23, 0xb9, 0x88, 0xa4,
    0x7c, 0xc8, 0xfa, 0xde, 0x0c, 0x02, 0x00, 0x00, 0x00, 0xba, 0x00, 0x02, 0x04, 0x00, 0x00, 0x02,
    0x00, 0x02, 0x00, 0x00, 0x00, 0x5a, 0x00, 0x00, 0x00, 0x58, 0x00, 0x00, 0x00, 0x00, 0x00, 0x00,
    0x00, 0x03, 0x00, 0x00, 0x30, 0x00, 0x20, 0x02, 0x00, 0x0c, 0x00, 0x00, 0x00, 0x00, 0x00, 0x00,
    0x00, 0x00, 0x00, 0x00, 0x00, 0x00, 0x00, 0x00, 0x00, 0x00, 0x00, 0x00, 0x00, 0x00, 0x00, 0x00,
    0x00, 0x00, 0x00, 0x00, 0x00, 0x00, 0x00, 0x00, 0x00, 0x00, 0x00, 0x00, 0x00, 0x00, 0x00, 0x00,
    0x30, 0x00, 0x00, 0x00, 0x00, 0x00, 0x00, 0x00, 0x00, 0x01, 0x61, 0x00, 0x68, 0x96, 0xd9, 0xea,
    0x3f, 0x73, 0xa4, 0x43, 0x4f, 0x58, 0x32, 0xbc, 0x65, 0x71, 0x4e, 0x7d, 0x06, 0x6f, 0x17, 0x73,
    0x73, 0xf3, 0x6f, 0x34, 0xdc, 0x8a, 0x6f, 0x73, 0x5d, 0xaa, 0x41, 0xb1, 0x72, 0x5b, 0xcd, 0x6c,
    0x66, 0xd0, 0x2a, 0xcf, 0x6e, 0xbe, 0xab, 0x9c, 0x92, 0x41, 0x0e, 0x01, 0x0e, 0xa2, 0x2e, 0x33,
    0x68, 0x76, 0x25, 0x6a, 0xaf, 0x05, 0xa2, 0x11, 0xf4, 0xce, 0x19, 0x02, 0xb2, 0x3f, 0x99, 0xe1,
    0xf6, 0x53, 0xe6, 0x2f, 0xa5, 0xbc, 0x14, 0xcc, 0x52, 0x8a, 0x9e, 0xc3, 0xb6, 0xd1, 0x1b, 0xe4,
    0x82, 0xb2, 0xee, 0x51, 0xb5, 0x19, 0xd1, 0xd6, 0xad, 0x8c, 0x54, 0x66,
];

/// The SHA-1 digest of the first of them.
const FIRST_CDHASH: [u8; 20] = [
    0xe8, 0x44, 0x35, 0xdc, 0xf8, 0xa8, 0xd9, 0xd3, 0xba, 0x9a, 0x6a, 0xf4, 0x7b, 0x55, 0x2c, 0xff,
    0x75, 0xe3, 0xff, 0x46,
];

/// A directory with two special slots, at 36, a requirements blob of 12 bytes, at 286, an empty CMS
/// signature, at 298, and one byte behind the SuperBlob. Special slot 1 is zeros.
const SIGNED: [u8; 307] = [
    0xfa, 0xde, 0x0c, 0xc0, 0x00, 0x00, 0x01, 0x32, 0x00, 0x00, 0x00, 0x03, 0x00, 0x00, 0x00, 0x00,
    0x00, 0x00, 0x00, 0x24, 0x00, 0x00, 0x00, 0x02, 0x00, 0x00, 0x01, 0x1e, 0x00, 0x01, 0x00, 0x00,
    0x00, 0x00, 0x01, 0x2a, 0xfa, 0xde, 0x0c, 0x02, 0x00, 0x00, 0x00, 0xfa, 0x00, 0x02, 0x04, 0x00,
    0x00, 0x02, 0x00, 0x02, 0x00, 0x00, 0x00, 0x9a, 0x00, 0x00, 0x00, 0x58, 0x00, 0x00, 0x00, 0x02,
    0x00, 0x00, 0x00, 0x03, 0x00, 0x00, 0x30, 0x00, 0x20, 0x02, 0x00, 0x0c, 0x00, 0x00, 0x00, 0x00,
    0x00, 0x00, 0x00, 0x00, 0x00, 0x00, 0x00, 0x00, 0x00, 0x00, 0x00, 0x00, 0x00, 0x00, 0x00, 0x00,
    0x00, 0x00, 0x00, 0x00, 0x00, 0x00, 0x00, 0x00, 0x00, 0x00, 0x00, 0x00, 0x00, 0x00, 0x00, 0x00,
    0x00, 0x00, 0x30, 0x00, 0x00, 0x00, 0x00, 0x00, 0x00, 0x00, 0x00, 0x01, 0x61, 0x00, 0x98, 0x79,
    0x20, 0x90, 0x4e, 0xab, 0x65, 0x0e, 0x75, 0x78, 0x8c, 0x05, 0x4a, 0xa0, 0xb0, 0x52, 0x4e, 0x6a,
    0x80, 0xbf, 0xc7, 0x1a, 0xa3, 0x2d, 0xf8, 0xd2, 0x37, 0xa6, 0x17, 0x43, 0xf9, 0x86, 0x00, 0x00,
    0x00, 0x00, 0x00, 0x00, 0x00, 0x00, 0x00, 0x00, 0x00, 0x00, 0x00, 0x00, 0x00, 0x00, 0x00, 0x00,
    0x00, 0x00, 0x00, 0x00, 0x00, 0x00, 0x00, 0x00, 0x00, 0x00, 0x00, 0x00, 0x00, 0x00, 0x68, 0x96,
    0xd9, 0xea, 0x3f, 0x73, 0xa4, 0x43, 0x4f, 0x58, 0x32, 0xbc, 0x65, 0x71, 0x4e, 0x7d, 0x06, 0x6f,
    0x17, 0x73, 0x73, 0xf3, 0x6f, 0x34, 0xdc, 0x8a, 0x6f, 0x73, 0x5d, 0xaa, 0x41, 0xb1, 0x72, 0x5b,
    0xcd, 0x6c, 0x66, 0xd0, 0x2a, 0xcf, 0x6e, 0xbe, 0xab, 0x9c, 0x92, 0x41, 0x0e, 0x01, 0x0e, 0xa2,
    0x2e, 0x33, 0x68, 0x76, 0x25, 0x6a, 0xaf, 0x05, 0xa2, 0x11, 0xf4, 0xce, 0x19, 0x02, 0xb2, 0x3f,
    0x99, 0xe1, 0xf6, 0x53, 0xe6, 0x2f, 0xa5, 0xbc, 0x14, 0xcc, 0x52, 0x8a, 0x9e, 0xc3, 0xb6, 0xd1,
    0x1b, 0xe4, 0x82, 0xb2, 0xee, 0x51, 0xb5, 0x19, 0xd1, 0xd6, 0xad, 0x8c, 0x54, 0x66, 0xfa, 0xde,
    0x0c, 0x01, 0x00, 0x00, 0x00, 0x0c, 0x00, 0x00, 0x00, 0x00, 0xfa, 0xde, 0x0b, 0x01, 0x00, 0x00,
    0x00, 0x08, 0x00,
];

/// The first 20 bytes of the SHA-256 digest of the directory.
const SIGNED_CDHASH: [u8; 20] = [
    0x9d, 0x87, 0x6f, 0xd8, 0xd8, 0xdf, 0x00, 0x9e, 0x5b, 0xd3, 0x21, 0x02, 0x0b, 0xaa, 0x21, 0x70,
    0xf1, 0x58, 0x96, 0xcd,
];

/// The cdhash of the signature of a slice that begins at so many bytes and has so many.
fn cdhash(alloc: Global, bytes: &[u8], at: u64, len: u64) -> Result<[u8; 20], BlobFail> {
    let slice = Range { at, len };
    let held = blob(
        alloc,
        bytes.to_vec(alloc)?,
        &slice,
        None,
        &mut ShaDigester::new(),
    )?;
    Ok(*held.cdhash())
}

/// Why the signature of a slice of 12,288 bytes is refused, or none where it is accepted.
fn refusal(alloc: Global, bytes: &[u8]) -> Result<Option<BlobRefusal>, BlobFail> {
    match cdhash(alloc, bytes, 4096, 12288) {
        Ok(_) => Ok(None),
        Err(BlobFail::Refused(refusal)) => Ok(Some(refusal)),
        Err(BlobFail::NoMemory) => Err(BlobFail::NoMemory),
    }
}

#[test]
fn bare(rt: HostRuntime) -> Result<(), Fail> {
    let slice = Range {
        at: 4096,
        len: 12288,
    };
    let bytes = DIRECTORY.to_vec(rt.alloc())?;
    let held = blob(rt.alloc(), bytes, &slice, None, &mut ShaDigester::new())?;
    assert_eq!(rt; held.cdhash(), &DIRECTORY_CDHASH);
    assert_eq!(rt; held.bytes(), DIRECTORY.as_slice());
    assert_eq!(rt; held.best_bytes(), DIRECTORY.as_slice());
    assert_eq!(rt; held.best().limit(), 12288);
    assert_eq!(rt; held.slice(), &slice);
    Ok(())
}

#[test]
fn best_of_two(rt: HostRuntime) -> Result<(), Fail> {
    let slice = Range { at: 0, len: 12288 };
    let bytes = PAIR.to_vec(rt.alloc())?;
    let held = blob(rt.alloc(), bytes, &slice, None, &mut ShaDigester::new())?;
    assert_eq!(rt; held.cdhash(), &DIRECTORY_CDHASH);
    assert_eq!(rt; held.best().kind(), HashKind::Sha256);
    assert_eq!(rt; held.best_bytes(), DIRECTORY.as_slice());
    // The better one first.
    let mut swapped = PAIR;
    put(&mut swapped, 16, 178);
    put(&mut swapped, 24, 28);
    assert_eq!(rt;
        cdhash(rt.alloc(), &swapped, 4096, 12288)?,
        DIRECTORY_CDHASH
    );
    // The better one under a type that is no directory's.
    put(&mut swapped, 12, 0x1005);
    put(&mut swapped, 20, 0);
    assert_eq!(rt; cdhash(rt.alloc(), &swapped, 4096, 12288)?, FIRST_CDHASH);
    // The first of SHA-256 cut, which has the greater number and the lesser rank.
    let mut shorter = PAIR;
    put(&mut shorter, 64, 0x1403_000c);
    assert_eq!(rt;
        cdhash(rt.alloc(), &shorter, 4096, 12288)?,
        DIRECTORY_CDHASH
    );
    put(&mut shorter, 16, 178);
    put(&mut shorter, 24, 28);
    assert_eq!(rt;
        cdhash(rt.alloc(), &shorter, 4096, 12288)?,
        DIRECTORY_CDHASH
    );
    Ok(())
}

#[test]
fn pairs(rt: HostRuntime) -> Result<(), Fail> {
    for (at, number, expected) in [
        // Both types at one directory.
        (16, 178, Some(SameRank { a: 0, b: 0x1000 })),
        (24, 28, Some(SameRank { a: 0, b: 0x1000 })),
        (20, 0, Some(Super(SuperRefusal::Twice { slot: 0 }))),
        (20, 0x1004, None),
        (20, 0x1005, None),
        (20, 0xfff, None),
        (12, 0x1001, Some(NoDirectory)),
        (12, 12, Some(NoDirectory)),
        // The version of the first directory, the magic of the second, and a slot of a blob that is a directory.
        (36, 0, Some(Dir(DirRefusal::Version { v: 0 }))),
        (178, 0, Some(Dir(DirRefusal::BadMagic))),
        (20, 1, Some(SpecialMissing { slot: 1 })),
        (20, 11, Some(SpecialMissing { slot: 11 })),
    ] {
        let mut bytes = PAIR;
        put(&mut bytes, at, number);
        assert_eq!(rt; refusal(rt.alloc(), &bytes)?, expected, "{number} at {at}");
    }
    Ok(())
}

/// Two directories of SHA-256 that differ.
#[test]
fn two_of_one_rank(rt: HostRuntime) -> Result<(), Fail> {
    let mut bytes = PAIR;
    // The first has one code slot of 32 bytes.
    put(&mut bytes, 56, 1);
    put(&mut bytes, 64, 0x2002_000c);
    let same = SameRank { a: 0, b: 0x1000 };
    assert_eq!(rt; refusal(rt.alloc(), &bytes)?, Some(same));
    Ok(())
}

/// A directory of SHA-1 as type 0, and two of SHA-256 that differ in their last bytes, as types 0x1000 and 0x1001.
#[test]
fn last_two_of_one_rank(rt: HostRuntime) -> Result<(), Fail> {
    let index = b"\xfa\xde\x0c\xc0\0\0\x02\x2e\0\0\0\x03\0\0\0\0\0\0\0\x24\
        \0\0\x10\0\0\0\0\xba\0\0\x10\x01\0\0\x01\x74";
    let mut bytes = [0; 558];
    bytes[..36].copy_from_slice(index);
    bytes[36..186].copy_from_slice(&PAIR[28..178]);
    bytes[186..372].copy_from_slice(&DIRECTORY);
    bytes[372..].copy_from_slice(&DIRECTORY);
    put(&mut bytes, 554, 0);
    let same = SameRank {
        a: 0x1000,
        b: 0x1001,
    };
    assert_eq!(rt; refusal(rt.alloc(), &bytes)?, Some(same));
    // The last one under a type that is no directory's.
    put(&mut bytes, 28, 0x1005);
    assert_eq!(rt; cdhash(rt.alloc(), &bytes, 4096, 12288)?, DIRECTORY_CDHASH);
    Ok(())
}

/// Two index entries of type 0 that both place the one valid directory.
#[test]
fn one_directory_twice(rt: HostRuntime) -> Result<(), Fail> {
    let index = b"\xfa\xde\x0c\xc0\0\0\0\xd6\0\0\0\x02\0\0\0\0\0\0\0\x1c\0\0\0\0\0\0\0\x1c";
    let mut bytes = [0; 214];
    bytes[..28].copy_from_slice(index);
    bytes[28..].copy_from_slice(&DIRECTORY);
    let twice = Super(SuperRefusal::Twice { slot: 0 });
    assert_eq!(rt; refusal(rt.alloc(), &bytes)?, Some(twice));
    // The second entry under a type that is no directory's.
    put(&mut bytes, 20, 0x1005);
    assert_eq!(rt; cdhash(rt.alloc(), &bytes, 4096, 12288)?, DIRECTORY_CDHASH);
    Ok(())
}

#[test]
fn signed(rt: HostRuntime) -> Result<(), Fail> {
    assert_eq!(rt; cdhash(rt.alloc(), &SIGNED, 4096, 12288)?, SIGNED_CDHASH);
    // A type that no special slot has: slot 2 is then not looked at.
    let mut other = SIGNED;
    put(&mut other, 20, 12);
    assert_eq!(rt; cdhash(rt.alloc(), &other, 4096, 12288)?, SIGNED_CDHASH);
    Ok(())
}

#[test]
fn numbers(rt: HostRuntime) -> Result<(), Fail> {
    for (at, number, expected) in [
        // The last bytes of special slot 2, which has those of the digest of the requirements.
        (154, 0x1743_f987, Some(SpecialMismatch { slot: 2 })),
        // The requirements under other types.
        (20, 1, Some(SpecialMismatch { slot: 1 })),
        (20, 3, Some(SpecialMissing { slot: 3 })),
        (20, 5, Some(SpecialMissing { slot: 5 })),
        (20, 0x1004, Some(Dir(DirRefusal::Short))),
        (20, 0x1005, None),
        (20, 0, Some(Super(SuperRefusal::Twice { slot: 0 }))),
        (
            24,
            0xffff_fff8,
            Some(Super(SuperRefusal::EntryOut { index: 1 })),
        ),
        // The requirements at the CMS signature.
        (24, 298, Some(SpecialMismatch { slot: 2 })),
        // The CMS signature at the requirements, and under another type.
        (32, 286, Some(CmsPresent { len: 12 })),
        (28, 0x10001, None),
        (12, 4, Some(NoDirectory)),
        // The limit of the directory.
        (68, 0x3001, Some(LimitPastEnd)),
        (68, 0x2fff, None),
        (80, 1, Some(Dir(DirRefusal::Scatter))),
    ] {
        let mut bytes = SIGNED;
        put(&mut bytes, at, number);
        assert_eq!(rt; refusal(rt.alloc(), &bytes)?, expected, "{number} at {at}");
    }
    Ok(())
}

/// Two rules broken at once.
#[test]
fn order_of_the_rules(rt: HostRuntime) -> Result<(), Fail> {
    for (first, second, expected) in [
        // The CMS signature as type 1, behind the requirements in the index, and special slot 2 changed.
        ((28, 1), (154, 0x1743_f987), SpecialMismatch { slot: 1 }),
        // Type 1 does not match its slot, and type 5 has none.
        ((20, 5), (28, 1), SpecialMismatch { slot: 1 }),
        // Type 5 has no slot, and the CMS signature is at the requirements.
        ((20, 5), (32, 286), CmsPresent { len: 12 }),
    ] {
        let mut bytes = SIGNED;
        for (at, number) in [first, second] {
            put(&mut bytes, at, number);
        }
        assert_eq!(rt; refusal(rt.alloc(), &bytes)?, Some(expected));
    }
    Ok(())
}

#[test]
fn longer_cms(rt: HostRuntime) -> Result<(), Fail> {
    let mut bytes = SIGNED;
    put(&mut bytes, 4, 307);
    put(&mut bytes, 302, 9);
    assert_eq!(rt; refusal(rt.alloc(), &bytes)?, Some(CmsPresent { len: 9 }));
    Ok(())
}

#[test]
fn limits(rt: HostRuntime) -> Result<(), Fail> {
    let refused = Some(BlobFail::Refused(LimitPastEnd));
    assert_eq!(rt; cdhash(rt.alloc(), &DIRECTORY, 0, 12287).err(), refused);
    assert_eq!(rt; cdhash(rt.alloc(), &DIRECTORY, 0, 12288)?, DIRECTORY_CDHASH);
    assert_eq!(rt; cdhash(rt.alloc(), &DIRECTORY, 4096, 12287).err(), refused);
    assert_eq!(rt; cdhash(rt.alloc(), &SIGNED, 4096, 12287).err(), refused);
    assert_eq!(rt; cdhash(rt.alloc(), &SIGNED, 4096, u64::MAX).err(), None);
    let mut bytes = DIRECTORY;
    put(&mut bytes, 44, 1);
    assert_eq!(rt;
        refusal(rt.alloc(), &bytes)?,
        Some(Dir(DirRefusal::Scatter))
    );
    Ok(())
}

/// Why a code directory is refused as the signature of a slice of so many bytes, on a machine with pages of this size.
fn misfit(
    alloc: Global,
    bytes: &[u8],
    slice: &Range,
    page: Option<u32>,
) -> Result<Option<BlobRefusal>, BlobFail>
    requires { ForSome page IsPageSize }
{
    match blob(
        alloc,
        bytes.to_vec(alloc)?,
        slice,
        page,
        &mut ShaDigester::new(),
    ) {
        Ok(_) => Ok(None),
        Err(BlobFail::Refused(refusal)) => Ok(Some(refusal)),
        Err(BlobFail::NoMemory) => Err(BlobFail::NoMemory),
    }
}

#[test]
fn pages_of_the_machine(rt: HostRuntime) -> Result<(), Fail> {
    for (bits, at, len, small, large) in [
        (12, 0, 12288, None, None),
        (12, 4096, 12288, None, Some(SliceOffset { at: 4096 })),
        (
            12,
            1,
            12288,
            Some(SliceOffset { at: 1 }),
            Some(SliceOffset { at: 1 }),
        ),
        (12, 1, 12287, Some(LimitPastEnd), Some(LimitPastEnd)),
        (14, 0, 12288, Some(HashPageLarge { n: 14 }), None),
        (
            14,
            4096,
            12288,
            Some(HashPageLarge { n: 14 }),
            Some(SliceOffset { at: 4096 }),
        ),
        (14, 49152, 12288, Some(HashPageLarge { n: 14 }), None),
        (14, 0, 12287, Some(LimitPastEnd), Some(LimitPastEnd)),
    ] {
        let mut bytes = DIRECTORY;
        bytes[39] = bits;
        let slice = Range { at, len };
        assert_eq!(rt; misfit(rt.alloc(), &bytes, &slice, Some(4096))?, small);
        assert_eq!(rt; misfit(rt.alloc(), &bytes, &slice, Some(16_384))?, large);
        let any = (len < 12288).then_some(LimitPastEnd);
        assert_eq!(rt; misfit(rt.alloc(), &bytes, &slice, None)?, any);
    }
    Ok(())
}

#[test]
fn whole_texts(rt: HostRuntime) -> Result<(), Fail> {
    for (bytes, expected) in [
        (
            b"\xfa\xde\x0c\xc0\0\0\0\x0c\0\0\0\0".as_slice(),
            NoDirectory,
        ),
        (
            b"\xfa\xde\x0c\xc0\0\0\0\x0c\xff\xff\xff\xff",
            Super(SuperRefusal::CountBad),
        ),
        (
            b"\xfa\xde\x0c\xc0\0\0\0\x14\0\0\0\x01\0\0\0\0\0\0\0\x14",
            Super(SuperRefusal::EntryOut { index: 0 }),
        ),
        (b"\xfa\xde\x0c", Super(SuperRefusal::Short)),
        (b"\xfa\xde\x0c\x02", Dir(DirRefusal::Short)),
    ] {
        assert_eq!(rt; refusal(rt.alloc(), bytes)?, Some(expected), "{bytes:?}");
    }
    Ok(())
}

#[test]
fn cut(rt: HostRuntime) -> Result<(), Fail> {
    for length in 0..306 {
        let expected = if length < 12 {
            SuperRefusal::Short
        } else {
            SuperRefusal::LengthBad
        };
        assert_eq!(rt;
            refusal(rt.alloc(), &SIGNED[..length])?,
            Some(Super(expected)),
            "{length} bytes"
        );
    }
    for length in 0..186 {
        assert!(rt;
            refusal(rt.alloc(), &DIRECTORY[..length])?.is_some(),
            "{length} bytes"
        );
    }
    Ok(())
}
