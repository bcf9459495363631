ghost use Rattle.std.specs.Prelude.{◌≡◌, ◌<◌, ◌≤◌, length};

use super::*;
use TrustRefusal::*;
use cs_samples::{SIGNATURE_CDHASH as C, TRUST_CACHE, put};
use pg_bytes::Steps;
use std::alloc::Global;
use std::marker::Brand;
use std::sync::ledger::{Blank, Ledger};
use std::test::Fail;

/// Its last byte alone differs from that of `C`.
const D: [u8; 20] = [
    0xbb, 0x25, 0x76, 0xd3, 0xb1, 0x41, 0x0f, 0x65, 0x8d, 0x4d, 0x91, 0x74, 0xe4, 0x04, 0x56, 0xb4,
    0x0d, 0x79, 0xc5, 0x97,
];

/// The text of a trust cache with these numbers in its header and these entries.
fn text(
    alloc: Global,
    version: u32,
    count: u32,
    entries: &[[u8; 20]],
) -> Result<Vec<u8>, NoMemory> {
    let mut bytes = Vec::new(alloc);
    bytes.extend_from_slice(&version.to_le_bytes())?;
    bytes.extend_from_slice(&[0; 16])?;
    bytes.extend_from_slice(&count.to_le_bytes())?;
    for entry in entries {
        bytes.extend_from_slice(entry)?;
        // The hash type and the flags.
        bytes.extend_from_slice(&[2, 0])?;
    }
    Ok(bytes)
}

/// A trust cache of these entries.
fn cache(alloc: Global, count: u32, entries: &[[u8; 20]]) -> Result<Module, Fail> {
    Ok(module(alloc, &text(alloc, 1, count, entries)?)?)
}

/// The refusal of bytes, or `None` where they are a trust cache.
fn refusal(alloc: Global, bytes: &[u8]) -> Result<Option<TrustRefusal>, NoMemory> {
    match module(alloc, bytes) {
        Ok(_) => Ok(None),
        Err(TrustFail::Refused(refusal)) => Ok(Some(refusal)),
        Err(TrustFail::NoMemory) => Err(NoMemory),
    }
}

/// The place of `C` in the trust cache that the bytes are, or their refusal.
fn place_in(alloc: Global, bytes: &[u8]) -> Result<Result<Option<u64>, TrustRefusal>, NoMemory> {
    match module(alloc, bytes) {
        Ok(read) => Ok(Ok(read.look(&C))),
        Err(TrustFail::Refused(refusal)) => Ok(Err(refusal)),
        Err(TrustFail::NoMemory) => Err(NoMemory),
    }
}

#[test]
fn no_entries(rt: HostRuntime) -> Result<(), Fail> {
    let empty = cache(rt.alloc(), 0, &[])?;
    assert_eq!(rt; empty.len(), 0);
    assert!(rt; empty.is_empty());
    assert_eq!(rt; empty.look(&C), None);
    Ok(())
}

#[test]
fn one_entry(rt: HostRuntime) -> Result<(), Fail> {
    let read = cache(rt.alloc(), 1, &[C])?;
    let made = Module::one(rt.alloc(), C)?;
    for one in [&read, &made] {
        assert_eq!(rt; one.len(), 1);
        assert!(rt; !one.is_empty());
        assert_eq!(rt; one.look(&C), Some(0));
        assert_eq!(rt; one.look(&D), None);
    }
    Ok(())
}

#[test]
fn cut(rt: HostRuntime) -> Result<(), Fail> {
    let bytes = text(rt.alloc(), 1, 1, &[C])?;
    assert_eq!(rt; bytes.len(), 46);
    for length in 0..46 {
        let expected = if length < 24 { Short } else { LengthBad };
        assert_eq!(rt;
            refusal(rt.alloc(), &bytes[..length])?,
            Some(expected),
            "{length} bytes"
        );
    }
    assert_eq!(rt; refusal(rt.alloc(), &bytes)?, None);
    Ok(())
}

#[test]
fn numbers(rt: HostRuntime) -> Result<(), Fail> {
    for (version, count, expected) in [
        (1, 2, None),
        (0, 2, Some(Version { v: 0 })),
        (2, 2, Some(LengthBad)),
        (3, 2, Some(Version { v: 3 })),
        (0x0100_0000, 2, Some(Version { v: 0x0100_0000 })),
        (u32::MAX, 65_537, Some(Version { v: 0xffff_ffff })),
        (1, 0, Some(LengthBad)),
        (1, 1, Some(LengthBad)),
        (1, 3, Some(LengthBad)),
        (1, 65_536, Some(LengthBad)),
        (1, 65_537, Some(TooMany)),
        (1, u32::MAX, Some(TooMany)),
    ] {
        let bytes = text(rt.alloc(), version, count, &[C, D])?;
        assert_eq!(rt;
            refusal(rt.alloc(), &bytes)?,
            expected,
            "{version}, {count}"
        );
    }
    Ok(())
}

/// The bytes of a file with the one entry `C`, each byte of its UUID being `uuid`.
fn one_entry_text(
    alloc: Global,
    version: u32,
    uuid: u8,
    count: u32,
    hash_type: u8,
    flags: u8,
) -> Result<Vec<u8>, NoMemory> {
    let mut bytes = Vec::new(alloc);
    bytes.extend_from_slice(&version.to_le_bytes())?;
    bytes.extend_from_slice(&[uuid; 16])?;
    bytes.extend_from_slice(&count.to_le_bytes())?;
    bytes.extend_from_slice(&C)?;
    bytes.extend_from_slice(&[hash_type, flags])?;
    Ok(bytes)
}

#[test]
fn fields_at_their_bounds(rt: HostRuntime) -> Result<(), Fail> {
    let sample = one_entry_text(rt.alloc(), 1, 0, 1, 2, 0)?;
    assert_eq!(rt; sample.as_slice(), TRUST_CACHE.as_slice());
    for (version, uuid, count, hash_type, flags, expected) in [
        (1, 0x00, 1, 2, 0, Ok(Some(0))),
        (1, 0xff, 1, 2, 0, Ok(Some(0))),
        (1, 0x00, 1, 0, 0, Ok(Some(0))),
        (1, 0x00, 1, 255, 0, Ok(Some(0))),
        (1, 0x00, 1, 2, 255, Ok(Some(0))),
        (1, 0xff, 1, 255, 255, Ok(Some(0))),
        (0, 0x00, 1, 2, 0, Err(Version { v: 0 })),
        (2, 0x00, 1, 2, 0, Err(LengthBad)),
        (3, 0x00, 1, 2, 0, Err(Version { v: 3 })),
        (u32::MAX, 0x00, 1, 2, 0, Err(Version { v: 0xffff_ffff })),
        (1, 0x00, 0, 2, 0, Err(LengthBad)),
        (1, 0x00, u32::MAX, 2, 0, Err(TooMany)),
    ] {
        let bytes = one_entry_text(rt.alloc(), version, uuid, count, hash_type, flags)?;
        assert_eq!(rt; place_in(rt.alloc(), &bytes)?, expected);
    }
    assert_eq!(rt;
        place_in(rt.alloc(), &text(rt.alloc(), 1, 0, &[])?)?,
        Ok(None)
    );
    Ok(())
}

/// The trust cache of one entry in the layout of version 2.
fn second_version(alloc: Global) -> Result<Vec<u8>, NoMemory> {
    let mut bytes = TRUST_CACHE.to_vec(alloc)?;
    put(&mut bytes, 0, &[2]);
    bytes.extend_from_slice(&[0xa1, 0xb2])?;
    Ok(bytes)
}

#[test]
fn whole_entries(rt: HostRuntime) -> Result<(), Fail> {
    let first = module(rt.alloc(), &TRUST_CACHE)?;
    let entry = Entry {
        cdhash: C,
        hash_type: 2,
        flags: 0,
        more: None,
    };
    assert_eq!(rt; first.entries(), [entry].as_slice());
    let bytes = second_version(rt.alloc())?;
    assert_eq!(rt; bytes.len(), 48);
    let second = module(rt.alloc(), &bytes)?;
    let more = Some(More {
        category: 0xa1,
        reserved: 0xb2,
    });
    assert_eq!(rt; second.entries(), [Entry { more, ..entry }].as_slice());
    assert_eq!(rt; second.look(&C), Some(0));
    assert_eq!(rt; second.look(&D), None);
    Ok(())
}

#[test]
fn second_version_cut(rt: HostRuntime) -> Result<(), Fail> {
    let mut bytes = second_version(rt.alloc())?;
    assert_eq!(rt; bytes.len(), 48);
    for length in 0..48 {
        let expected = if length < 24 { Short } else { LengthBad };
        assert_eq!(rt;
            refusal(rt.alloc(), &bytes[..length])?,
            Some(expected),
            "{length} bytes"
        );
    }
    put(&mut bytes, 0, &[3]);
    for length in 24..48 {
        assert_eq!(rt;
            refusal(rt.alloc(), &bytes[..length])?,
            Some(Version { v: 3 }),
            "{length} bytes"
        );
    }
    Ok(())
}

#[test]
fn order(rt: HostRuntime) -> Result<(), Fail> {
    for (entries, expected) in [
        ([C, C, D], None),
        ([D, D, D], None),
        ([D, C, C], Some(NotSorted { place: 1 })),
        ([C, D, C], Some(NotSorted { place: 2 })),
        ([[0xff; 20], D, C], Some(NotSorted { place: 1 })),
    ] {
        let bytes = text(rt.alloc(), 1, 3, &entries)?;
        assert_eq!(rt; refusal(rt.alloc(), &bytes)?, expected);
    }
    let bytes = text(rt.alloc(), 1, 2, &[D, C])?;
    assert_eq!(rt; refusal(rt.alloc(), &bytes)?, Some(NotSorted { place: 1 }));
    Ok(())
}

/// Takes steps of which there are at most so many.
fn at_most<L: Ledger>(_steps: &Steps<L>, _limit: u64)
    requires { _steps.now ≤ _limit }
{}

/// A search among three entries, which takes at most two steps.
fn find_of_three<L: Ledger>(blank: Blank, among: &Module, cdhash: &[u8; 20]) -> Option<u64>
    requires name { blank.name ≡ L.name }
    requires parts { blank.parts ≡ L.parts }
    requires some { 0 < blank.parts }
    requires three { length among.now ≡ 3 }
{
    let mut steps = Steps::<L>::open(blank);
    let place = among.find(cdhash, &mut steps);
    at_most(&steps, 2);
    place
}

/// A search among any entries, which takes at most 17 steps.
fn find_of_many<L: Ledger>(blank: Blank, among: &Module, cdhash: &[u8; 20]) -> Option<u64>
    requires name { blank.name ≡ L.name }
    requires parts { blank.parts ≡ L.parts }
    requires some { 0 < blank.parts }
{
    let mut steps = Steps::<L>::open(blank);
    let place = among.find(cdhash, &mut steps);
    at_most(&steps, 17);
    place
}

#[test]
fn run_of_equals(rt: HostRuntime) -> Result<(), Fail> {
    let among = cache(rt.alloc(), 3, &[C, C, D])?;
    assert_eq!(rt; among.len(), 3);
    for (cdhash, place) in [
        (C, Some(0)),
        (D, Some(2)),
        ([0; 20], None),
        ([0xff; 20], None),
    ] {
        assert_eq!(rt;
            find_of_three::<Brand>(Blank::new(1), &among, &cdhash),
            place
        );
        assert_eq!(rt; among.look(&cdhash), place);
    }
    assert_eq!(rt; cache(rt.alloc(), 2, &[D, D])?.look(&D), Some(0));
    Ok(())
}

/// A cdhash that begins with this number.
fn numbered(number: u32) -> [u8; 20] {
    let mut cdhash = [0; 20];
    cdhash[..4].copy_from_slice(&number.to_be_bytes());
    cdhash
}

#[test]
fn most_entries(rt: HostRuntime) -> Result<(), Fail> {
    let mut entries = Vec::new(rt.alloc());
    for number in 0..65_536 {
        entries.push(numbered(number))?;
    }
    let among = cache(rt.alloc(), 65_536, &entries)?;
    for place in [0, 1, 32_767, 32_768, 65_534, 65_535] {
        let found = find_of_many::<Brand>(Blank::new(1), &among, &numbered(place));
        assert_eq!(rt; found, Some(u64::from(place)));
    }
    assert_eq!(rt;
        find_of_many::<Brand>(Blank::new(1), &among, &[0xff; 20]),
        None
    );
    entries.push([0xff; 20])?;
    let bytes = text(rt.alloc(), 1, 65_537, &entries)?;
    assert_eq!(rt; refusal(rt.alloc(), &bytes)?, Some(TooMany));
    Ok(())
}

/// A search in modules with steps of its own.
fn find_in<L: Ledger>(blank: Blank, fixed: &StaticTrust, cdhash: &[u8; 20]) -> Option<(u32, u64)>
    requires name { blank.name ≡ L.name }
    requires parts { blank.parts ≡ L.parts }
    requires some { 0 < blank.parts }
{
    fixed.find(cdhash, &mut Steps::<L>::open(blank))
}

#[test]
fn two_modules(rt: HostRuntime) -> Result<(), Fail> {
    let mut modules = Vec::new(rt.alloc());
    modules.push(cache(rt.alloc(), 2, &[C, D])?)?;
    modules.push(cache(rt.alloc(), 3, &[[1; 20], D, D])?)?;
    let fixed = StaticTrust::new(modules);
    assert_eq!(rt; fixed.len(), 2);
    for (cdhash, listed) in [
        (C, Some((0, 0))),
        (D, Some((0, 1))),
        ([1; 20], Some((1, 0))),
        ([0; 20], None),
    ] {
        assert_eq!(rt; find_in::<Brand>(Blank::new(1), &fixed, &cdhash), listed);
        assert_eq!(rt; fixed.look(&cdhash), listed);
    }
    Ok(())
}
