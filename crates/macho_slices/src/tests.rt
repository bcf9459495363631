ghost use Rattle.std.specs.Prelude.{◌≡◌};
ghost use Rattle.macho_slices.specs.Refusals.{refusal_of};

use super::*;
use FatRefusal::*;
use cs_policy::Refusal;
use cs_samples::put;
use pg_bytes::Range;
use std::alloc::Global;
use std::test::Fail;

/// Two slices of eight bytes each, right behind a table of narrow records.
const NARROW: [u8; 64] = [
    0xca, 0xfe, 0xba, 0xbe, 0, 0, 0, 2, // magic, count
    0x01, 0, 0, 0x0c, 0, 0, 0, 0, 0, 0, 0, 48, 0, 0, 0, 8, 0, 0, 0, 3, // arm64
    0x01, 0, 0, 0x07, 0, 0, 0, 3, 0, 0, 0, 56, 0, 0, 0, 8, 0, 0, 0, 3, // x86_64
    b'a', b'a', b'a', b'a', b'a', b'a', b'a', b'a', // 48
    b'b', b'b', b'b', b'b', b'b', b'b', b'b', b'b', // 56
];

/// The same behind a table of wide records.
const WIDE: [u8; 88] = [
    0xca, 0xfe, 0xba, 0xbf, 0, 0, 0, 2, // magic, count
    0x01, 0, 0, 0x0c, 0, 0, 0, 0, // arm64
    0, 0, 0, 0, 0, 0, 0, 72, 0, 0, 0, 0, 0, 0, 0, 8, 0, 0, 0, 3, 0, 0, 0, 0, //
    0x01, 0, 0, 0x07, 0, 0, 0, 3, // x86_64
    0, 0, 0, 0, 0, 0, 0, 80, 0, 0, 0, 0, 0, 0, 0, 8, 0, 0, 0, 3, 0, 0, 0, 0, //
    b'a', b'a', b'a', b'a', b'a', b'a', b'a', b'a', // 72
    b'b', b'b', b'b', b'b', b'b', b'b', b'b', b'b', // 80
];

fn range(at: u64, len: u64) -> Range {
    Range { at, len }
}

/// A fat file of so many bytes, with a narrow record for each offset and size.
fn narrow(alloc: Global, records: &[(u32, u32)], length: usize) -> Result<Vec<u8>, Fail> {
    let mut bytes = Vec::new(alloc);
    bytes.extend_from_slice(b"\xca\xfe\xba\xbe")?;
    bytes.extend_from_slice(&u32::try_from(records.len())?.to_be_bytes())?;
    for (offset, size) in records {
        bytes.extend_from_slice(b"\x01\0\0\x0c\0\0\0\0")?;
        bytes.extend_from_slice(&offset.to_be_bytes())?;
        bytes.extend_from_slice(&size.to_be_bytes())?;
        bytes.extend_from_slice(b"\0\0\0\x0c")?;
    }
    bytes.resize(length, 0)?;
    Ok(bytes)
}

/// Why the bytes are refused, or none where they are accepted.
fn refusal(alloc: Global, bytes: &[u8]) -> Result<Option<FatRefusal>, FatFail> {
    match slices(alloc, bytes) {
        Ok(_) => Ok(None),
        Err(FatFail::Refused(refusal)) => Ok(Some(refusal)),
        Err(FatFail::NoMemory) => Err(FatFail::NoMemory),
    }
}

#[test]
fn slices_in_order(rt: HostRuntime) -> Result<(), Fail> {
    let two = narrow(rt.alloc(), &[(4096, 8520), (16384, 8520)], 24904)?;
    let found = slices(rt.alloc(), &two)?;
    assert_eq!(rt;
        found.as_slice(),
        [range(4096, 8520), range(16384, 8520)].as_slice()
    );
    let found = slices(rt.alloc(), &NARROW)?;
    assert_eq!(rt; found.as_slice(), [range(48, 8), range(56, 8)].as_slice());
    let found = slices(rt.alloc(), &WIDE)?;
    assert_eq!(rt; found.as_slice(), [range(72, 8), range(80, 8)].as_slice());
    Ok(())
}

#[test]
fn other_files(rt: HostRuntime) -> Result<(), Fail> {
    let thin = slices(rt.alloc(), b"\xcf\xfa\xed\xfe")?;
    assert_eq!(rt; thin.as_slice(), [range(0, 4)].as_slice());
    for bytes in [
        b"\xca\xfe\xba\xbe\0\0\0\0".as_slice(),
        b"\xca\xfe\xba\xbf\0\0\0\0",
    ] {
        assert_eq!(rt; slices(rt.alloc(), bytes)?.len(), 0, "{bytes:?}");
    }
    for (bytes, expected) in [
        (b"".as_slice(), Short),
        (b"\xcf\xfa\xed", Short),
        (b"\xca\xfe\xba\xbe\0\0\0", Short),
        // The magics in the other byte order, and that of a thin file of 32 bits.
        (b"\xfe\xed\xfa\xcf\0\0\0\0", BadMagic),
        (b"\xbe\xba\xfe\xca\0\0\0\0", BadMagic),
        (b"\xbf\xba\xfe\xca\0\0\0\0", BadMagic),
        (b"\xce\xfa\xed\xfe\0\0\0\0", BadMagic),
        // A Java class file of version 52.
        (b"\xca\xfe\xba\xbe\0\0\0\x34", TooMany { count: 52 }),
        (
            b"\xca\xfe\xba\xbf\xff\xff\xff\xff",
            TooMany { count: 0xffff_ffff },
        ),
    ] {
        assert_eq!(rt; refusal(rt.alloc(), bytes)?, Some(expected), "{bytes:?}");
    }
    Ok(())
}

#[test]
fn cut(rt: HostRuntime) -> Result<(), Fail> {
    for length in 0..64 {
        let expected = match length {
            0..48 => Short,
            48..56 => OutOfFile { arch: 0 },
            _ => OutOfFile { arch: 1 },
        };
        assert_eq!(rt;
            refusal(rt.alloc(), &NARROW[..length])?,
            Some(expected),
            "{length} bytes"
        );
    }
    for length in 0..88 {
        let expected = match length {
            0..72 => Short,
            72..80 => OutOfFile { arch: 0 },
            _ => OutOfFile { arch: 1 },
        };
        assert_eq!(rt;
            refusal(rt.alloc(), &WIDE[..length])?,
            Some(expected),
            "{length} bytes of the wide one"
        );
    }
    Ok(())
}

#[test]
fn narrow_numbers(rt: HostRuntime) -> Result<(), Fail> {
    let most = u32::MAX;
    let first = Some(OutOfFile { arch: 0 });
    let second = Some(OutOfFile { arch: 1 });
    let overlap = Some(Overlap { a: 0, b: 1 });
    for (at, number, expected) in [
        // The magic, and as that of wide records, of which two take 72 bytes.
        (0, 0, Some(BadMagic)),
        (0, most, Some(BadMagic)),
        (0, 0xcafe_babf, Some(Short)),
        // The number of records: the table has room for two.
        (4, 0, None),
        (4, 1, None),
        (4, 3, Some(Short)),
        (4, 32, Some(Short)),
        (4, 33, Some(TooMany { count: 33 })),
        (4, most, Some(TooMany { count: 0xffff_ffff })),
        // CPU type and subtype, and the alignment.
        (8, 0, None),
        (8, most, None),
        (12, most, None),
        (24, 0, None),
        (24, most, None),
        // The first slice's offset: in the table, up to the second slice, over it, up to the file's end.
        (16, 0, None),
        (16, 49, overlap),
        (16, 56, overlap),
        (16, 57, first),
        (16, 64, first),
        (16, most - 7, first),
        (16, most, first),
        // Its size.
        (20, 0, None),
        (20, 9, overlap),
        (20, 16, overlap),
        (20, 17, first),
        (20, most, first),
        // The same of the second slice.
        (36, 0, None),
        (36, 40, None),
        (36, 41, overlap),
        (36, 55, overlap),
        (36, 57, second),
        (36, most, second),
        (40, 0, None),
        (40, 9, second),
        (40, most, second),
    ] {
        let mut bytes = NARROW;
        put(&mut bytes, at, &number.to_be_bytes());
        assert_eq!(rt; refusal(rt.alloc(), &bytes)?, expected, "{number} at {at}");
    }
    Ok(())
}

#[test]
fn wide_numbers(rt: HostRuntime) -> Result<(), Fail> {
    let most = u64::MAX;
    let first = Some(OutOfFile { arch: 0 });
    let second = Some(OutOfFile { arch: 1 });
    let overlap = Some(Overlap { a: 0, b: 1 });
    for (at, number, expected) in [
        // CPU type and subtype together, then the alignment with the reserved number.
        (8, most, None),
        (32, most, None),
        (16, 0, None),
        (16, 73, overlap),
        (16, 80, overlap),
        (16, 81, first),
        (16, 0x1_0000_0000, first),
        // With a size of eight bytes the sum would wrap to 7, and be within the file.
        (16, most, first),
        (24, 0, None),
        (24, 9, overlap),
        (24, 16, overlap),
        (24, 17, first),
        (24, 0x1_0000_0008, first),
        // With an offset of 72 the sum would wrap to 71.
        (24, most, first),
        (48, 79, overlap),
        (48, 81, second),
        (48, most, second),
        (56, 0, None),
        (56, 9, second),
        (56, most, second),
    ] {
        let mut bytes = WIDE;
        put(&mut bytes, at, &number.to_be_bytes());
        assert_eq!(rt; refusal(rt.alloc(), &bytes)?, expected, "{number} at {at}");
    }
    let mut bytes = WIDE;
    put(&mut bytes, 16, &u64::MAX.to_be_bytes());
    put(&mut bytes, 24, &2_u64.to_be_bytes());
    assert_eq!(rt; refusal(rt.alloc(), &bytes)?, first);
    Ok(())
}

#[test]
fn overlaps(rt: HostRuntime) -> Result<(), Fail> {
    for (records, expected) in [
        // The third meets the first, and not its neighbour.
        (
            [(200, 50), (300, 50), (210, 10), (360, 9)].as_slice(),
            Some(Overlap { a: 0, b: 2 }),
        ),
        // The third meets both, and so does the fourth.
        (
            &[(200, 100), (400, 100), (250, 200), (250, 200)],
            Some(Overlap { a: 0, b: 2 }),
        ),
        // The fourth meets the first, the third the second.
        (
            &[(200, 50), (300, 50), (349, 1), (249, 1)],
            Some(Overlap { a: 1, b: 2 }),
        ),
        // One lies within the other.
        (&[(200, 50), (220, 1)], Some(Overlap { a: 0, b: 1 })),
        (&[(220, 1), (200, 50)], Some(Overlap { a: 0, b: 1 })),
        // They touch, or have no bytes.
        (&[(200, 50), (250, 50), (150, 50)], None),
        (&[(200, 50), (220, 0), (220, 0)], None),
        // A slice behind the file is told before an overlap.
        (
            &[(200, 50), (200, 50), (999, 2)],
            Some(OutOfFile { arch: 2 }),
        ),
    ] {
        let bytes = narrow(rt.alloc(), records, 1000)?;
        assert_eq!(rt; refusal(rt.alloc(), &bytes)?, expected, "{records:?}");
    }
    Ok(())
}

#[test]
fn most_records(rt: HostRuntime) -> Result<(), Fail> {
    let mut records = Vec::new(rt.alloc());
    for offset in 668..700 {
        records.push((offset, 1))?;
    }
    let bytes = narrow(rt.alloc(), &records, 701)?;
    let found = slices(rt.alloc(), &bytes)?;
    assert_eq!(rt; found.len(), 32);
    assert_eq!(rt; found.last(), Some(&range(699, 1)));
    records.push((700, 1))?;
    let bytes = narrow(rt.alloc(), &records, 701)?;
    assert_eq!(rt; refusal(rt.alloc(), &bytes)?, Some(TooMany { count: 33 }));
    Ok(())
}

/// The refusal in numbers, by the conversion's contract.
fn told(refusal: FatRefusal) -> Refusal
    ensures { result ≡ refusal_of refusal }
{
    refusal.into()
}

#[test]
fn printed_refusals(rt: HostRuntime) -> Result<(), Fail> {
    for (refusal, text) in [
        (Short, "fat.1.0.0"),
        (BadMagic, "fat.2.0.0"),
        (TooMany { count: 33 }, "fat.3.33.0"),
        (OutOfFile { arch: 1 }, "fat.4.1.0"),
        (Overlap { a: 1, b: 2 }, "fat.5.1.2"),
    ] {
        let printed = told(refusal).to_string(rt.alloc())?;
        assert_eq!(rt; printed.as_str(), text);
    }
    Ok(())
}
