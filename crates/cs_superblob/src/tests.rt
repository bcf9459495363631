ghost use Rattle.std.specs.Prelude.{◌≤◌};

use super::*;
use SuperRefusal::*;
use cs_samples::put_be32 as put;
use pg_bytes::Range;
use std::alloc::Global;
use std::test::Fail;

/// Two blobs behind a gap of four bytes, with bytes of other things between and behind them.
const SAMPLE: [u8; 60] = [
    0xfa, 0xde, 0x0c, 0xc0, 0x00, 0x00, 0x00, 0x38, 0x00, 0x00, 0x00, 0x02, // magic, length, count
    0x00, 0x00, 0x00, 0x00, 0x00, 0x00, 0x00, 0x20, // a code directory at 32
    0x00, 0x01, 0x00, 0x00, 0x00, 0x00, 0x00, 0x30, // a CMS wrapper at 48
    0xff, 0xff, 0xff, 0xff, // a gap
    0xfa, 0xde, 0x0c, 0x02, 0x00, 0x00, 0x00, 0x0c, 0x01, 0x02, 0x03, 0x04, // 12 bytes
    0xff, 0xff, 0xff, 0xff, // a gap
    0xfa, 0xde, 0x0b, 0x01, 0x00, 0x00, 0x00, 0x08, // 8 bytes
    0xff, 0xff, 0xff, 0xff, // behind the SuperBlob
];

fn seat(slot: u32, at: u64, len: u64) -> Seat {
    Seat {
        slot,
        range: Range { at, len },
    }
}

/// Why the bytes are refused, or none where they are accepted.
fn refusal(alloc: Global, bytes: &[u8]) -> Result<Option<SuperRefusal>, SuperFail> {
    match index(alloc, bytes) {
        Ok(_) => Ok(None),
        Err(SuperFail::Refused(refusal)) => Ok(Some(refusal)),
        Err(SuperFail::NoMemory) => Err(SuperFail::NoMemory),
    }
}

#[test]
fn sample(rt: HostRuntime) -> Result<(), Fail> {
    let found = index(rt.alloc(), &SAMPLE)?;
    assert_eq!(rt;
        found.as_slice(),
        [seat(0, 32, 12), seat(0x10000, 48, 8)].as_slice()
    );
    Ok(())
}

#[test]
fn empty(rt: HostRuntime) -> Result<(), Fail> {
    let found = index(rt.alloc(), b"\xfa\xde\x0c\xc0\0\0\0\x0c\0\0\0\0")?;
    assert_eq!(rt; found.len(), 0);
    Ok(())
}

#[test]
fn cut(rt: HostRuntime) -> Result<(), Fail> {
    for length in 0..56 {
        let expected = if length < 12 { Short } else { LengthBad };
        assert_eq!(rt;
            refusal(rt.alloc(), &SAMPLE[..length])?,
            Some(expected),
            "{length} bytes"
        );
    }
    Ok(())
}

#[test]
fn whole_texts(rt: HostRuntime) -> Result<(), Fail> {
    for (bytes, expected) in [
        (
            b"\xfa\xde\x0c\xc0\0\0\0\x0c\xff\xff\xff\xff".as_slice(),
            CountBad,
        ),
        (
            b"\xfa\xde\x0c\xc0\0\0\0\x14\0\0\0\x01\0\0\0\0\0\0\0\x14",
            EntryOut { index: 0 },
        ),
        (
            b"\xfa\xde\x0c\x02\0\0\0\x0c\0\0\0\0",
            BadMagic { magic: 0xfade_0c02 },
        ),
        (b"\xfa\xde\x0c\xc0\0\0\0\x0b\0\0\0\0", LengthBad),
        (b"\xfa\xde\x0c\xc0\0\0\0\x0c\0\0\0\x01", CountBad),
    ] {
        assert_eq!(rt; refusal(rt.alloc(), bytes)?, Some(expected), "{bytes:?}");
    }
    Ok(())
}

#[test]
fn numbers(rt: HostRuntime) -> Result<(), Fail> {
    let most = u32::MAX;
    let first = Some(EntryOut { index: 0 });
    let second = Some(EntryOut { index: 1 });
    for (at, number, expected) in [
        (0, 0, Some(BadMagic { magic: 0 })),
        (0, most, Some(BadMagic { magic: 0xffff_ffff })),
        (4, 0, Some(LengthBad)),
        (4, 11, Some(LengthBad)),
        (4, 12, Some(CountBad)),
        (4, 55, second),
        (4, 60, None),
        (4, 61, Some(LengthBad)),
        (4, most, Some(LengthBad)),
        (8, 0, None),
        (8, 1, None),
        // With five entries the table passes the first blob.
        (8, 5, first),
        (8, 6, Some(CountBad)),
        (8, 0x2000_0000, Some(CountBad)),
        (8, most, Some(CountBad)),
        (12, most, None),
        // The same type twice, with both blobs in place.
        (20, 0, Some(Twice { slot: 0 })),
        (12, 0x10000, Some(Twice { slot: 0x10000 })),
        // A place in the table, right behind it, up to the end, and such that a sum of 32 bits would wrap.
        (16, 0, first),
        (16, 27, first),
        (16, 48, None),
        (16, 49, first),
        (16, 0xffff_fff8, first),
        (24, 0xffff_fff8, second),
        (24, most, second),
        (24, 32, None),
        // A blob's own length.
        (36, 0, first),
        (36, 7, first),
        (36, 8, None),
        (36, 24, None),
        (36, 25, first),
        (36, most, first),
        (52, 0, second),
        (52, 9, second),
        (52, most, second),
    ] {
        let mut bytes = SAMPLE;
        put(&mut bytes, at, number);
        assert_eq!(rt; refusal(rt.alloc(), &bytes)?, expected, "{number} at {at}");
    }
    Ok(())
}

#[test]
fn places_before_types(rt: HostRuntime) -> Result<(), Fail> {
    let mut bytes = SAMPLE;
    put(&mut bytes, 20, 0);
    put(&mut bytes, 24, 56);
    assert_eq!(rt; refusal(rt.alloc(), &bytes)?, Some(EntryOut { index: 1 }));
    Ok(())
}

/// Entries of the types 0, 1, 2 and so on, all at one blob of eight bytes right behind the table.
fn many(alloc: Global, count: u32) -> Result<Vec<u8>, Fail>
    requires { count ≤ 2000 }
{
    let end = 12 + 8 * count;
    let mut bytes = Vec::new(alloc);
    for number in [0xfade_0cc0, end + 8, count] {
        bytes.extend_from_slice(&number.to_be_bytes())?;
    }
    for slot in 0..count {
        bytes.extend_from_slice(&slot.to_be_bytes())?;
        bytes.extend_from_slice(&end.to_be_bytes())?;
    }
    bytes.extend_from_slice(b"\xfa\xde\x0b\x01\0\0\0\x08")?;
    Ok(bytes)
}

#[test]
fn most_entries(rt: HostRuntime) -> Result<(), Fail> {
    let mut bytes = many(rt.alloc(), 1024)?;
    let found = index(rt.alloc(), &bytes)?;
    assert_eq!(rt; found.len(), 1024);
    assert_eq!(rt; found.last(), Some(&seat(1023, 8204, 8)));
    put(&mut bytes, 8196, 1022);
    assert_eq!(rt; refusal(rt.alloc(), &bytes)?, Some(Twice { slot: 1022 }));
    let more = many(rt.alloc(), 1025)?;
    assert_eq!(rt; refusal(rt.alloc(), &more)?, Some(CountBad));
    Ok(())
}
