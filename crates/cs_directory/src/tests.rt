use super::*;
use DirRefusal::*;
use cs_samples::{DIRECTORY, DIRECTORY_CDHASH, put_be32 as put};
use pg_digest::{HashKind, ShaDigester};
use std::test::Fail;

/// Writes the same byte so many times.
fn fill(bytes: &mut [u8], at: u32, count: u32, byte: u8) {
    for place in bytes.iter_mut().skip(at as usize).take(count as usize) {
        *place = byte;
    }
}

/// A directory with identifier "a" right behind its header, and three code slots behind that, of bytes 0xc0,
/// 0xc1 and 0xc2. Zero bytes follow it.
fn made(version: u32, header: u8, hash_type: u8, size: u8) -> [u8; 242] {
    let header = u32::from(header);
    let slot = u32::from(size);
    let mut bytes = [0; 242];
    put(&mut bytes, 0, 0xfade_0c02);
    put(&mut bytes, 4, header + 2 + 3 * slot);
    put(&mut bytes, 8, version);
    put(&mut bytes, 16, header + 2);
    put(&mut bytes, 12, 0x20002);
    put(&mut bytes, 20, header);
    put(&mut bytes, 28, 3);
    put(&mut bytes, 32, 0x3000);
    bytes[36] = size;
    bytes[37] = hash_type;
    bytes[39] = 12;
    fill(&mut bytes, header, 1, b'a');
    fill(&mut bytes, header + 2, slot, 0xc0);
    fill(&mut bytes, header + 2 + slot, slot, 0xc1);
    fill(&mut bytes, header + 2 + 2 * slot, slot, 0xc2);
    bytes
}

#[test]
fn sample(rt: HostRuntime) -> Result<(), Fail> {
    let d = directory(&DIRECTORY)?;
    assert_eq!(rt;
        (d.length(), d.version(), d.flags()),
        (186, 0x20400, 0x20002)
    );
    assert_eq!(rt; (d.limit(), d.kind()), (12288, HashKind::Sha256));
    assert_eq!(rt; (d.slots(), d.special_slots()), (3, 0));
    assert_eq!(rt; (d.page_size(), d.page_bits()), (4096, 12));
    assert_eq!(rt; d.ident(&DIRECTORY), b"a".as_slice());
    assert_eq!(rt; d.slot(&DIRECTORY, 1), Some(&DIRECTORY[122..154]));
    assert_eq!(rt; d.slot(&DIRECTORY, 3), None);
    assert_eq!(rt; d.special(&DIRECTORY, 1), None);
    assert_eq!(rt;
        &d.cdhash(&DIRECTORY, &mut ShaDigester::new()),
        &DIRECTORY_CDHASH
    );
    Ok(())
}

#[test]
fn cut(rt: HostRuntime) {
    for length in 0..DIRECTORY.len() {
        let expected = if length < 44 { Short } else { LengthBad };
        assert_eq!(rt;
            directory(&DIRECTORY[..length]).err(),
            Some(expected),
            "{length} bytes"
        );
    }
}

#[test]
fn bytes_behind(rt: HostRuntime) -> Result<(), Fail> {
    let mut bytes = [0; 200];
    bytes[..186].copy_from_slice(&DIRECTORY);
    let d = directory(&bytes)?;
    assert_eq!(rt; d.length(), 186);
    assert_eq!(rt;
        &d.cdhash(&bytes, &mut ShaDigester::new()),
        &DIRECTORY_CDHASH
    );
    // The zero bytes behind the directory end no text of it.
    put(&mut bytes, 20, 185);
    assert_eq!(rt; directory(&bytes).err(), Some(IdentBad));
    Ok(())
}

#[test]
fn numbers(rt: HostRuntime) {
    let most = u32::MAX;
    for (at, number, expected) in [
        (0, 0, Some(BadMagic)),
        (0, 0xfade_0c01, Some(BadMagic)),
        (0, 0xfade_0c03, Some(BadMagic)),
        (0, most, Some(BadMagic)),
        // The length: that of the fixed fields, that of the header, that of the slots, that of the bytes.
        (4, 0, Some(LengthBad)),
        (4, 43, Some(LengthBad)),
        (4, 44, Some(LengthBad)),
        (4, 87, Some(LengthBad)),
        (4, 88, Some(SlotsOut)),
        (4, 185, Some(SlotsOut)),
        (4, 187, Some(LengthBad)),
        (4, most, Some(LengthBad)),
        (8, 0, Some(Version { v: 0 })),
        (8, 0x1ffff, Some(Version { v: 0x1ffff })),
        (8, 0x20000, None),
        (8, 0x20100, None),
        (8, 0x20200, None),
        (8, 0x20300, None),
        (8, 0x20500, None),
        (8, 0x2ffff, None),
        (8, 0x30000, Some(Version { v: 0x30000 })),
        (8, most, Some(Version { v: 0xffff_ffff })),
        (12, 0, None),
        (12, most, None),
        // The slots may lie over the header.
        (16, 0, None),
        (16, 91, Some(SlotsOut)),
        (16, most, Some(SlotsOut)),
        // The identifier may be empty, or lie over the header. The slots have no zero byte.
        (20, 0, None),
        (20, 89, None),
        (20, 90, Some(IdentBad)),
        (20, 185, Some(IdentBad)),
        (20, 186, Some(IdentBad)),
        (20, most, Some(IdentBad)),
        (24, 2, None),
        (24, 3, Some(SlotsOut)),
        (24, most, Some(SlotsOut)),
        (28, 0, None),
        (28, 4, Some(SlotsOut)),
        (28, most, Some(SlotsOut)),
        (32, 0, None),
        (32, most, None),
        (40, most, None),
        (44, 1, Some(Scatter)),
        (44, most, Some(Scatter)),
        (48, 88, None),
        (48, 89, None),
        (48, 90, Some(TeamBad)),
        (48, 186, Some(TeamBad)),
        (48, most, Some(TeamBad)),
        (52, most, None),
        (60, most, None),
    ] {
        let mut bytes = DIRECTORY;
        put(&mut bytes, at, number);
        assert_eq!(rt; directory(&bytes).err(), expected, "{number} at {at}");
    }
}

#[test]
fn small_numbers(rt: HostRuntime) {
    for (at, number, expected) in [
        (36, 0, Some(HashSize { n: 0 })),
        (36, 31, Some(HashSize { n: 31 })),
        (36, 33, Some(HashSize { n: 33 })),
        (36, 255, Some(HashSize { n: 255 })),
        (37, 0, Some(HashType { n: 0 })),
        (37, 1, Some(HashSize { n: 32 })),
        (37, 3, Some(HashSize { n: 32 })),
        (37, 4, Some(HashSize { n: 32 })),
        (37, 5, Some(HashType { n: 5 })),
        (37, 255, Some(HashType { n: 255 })),
        (38, 255, None),
        (39, 0, Some(PageSize { n: 0 })),
        (39, 11, Some(PageSize { n: 11 })),
        (39, 13, Some(PageSize { n: 13 })),
        (39, 14, None),
        (39, 15, Some(PageSize { n: 15 })),
        (39, 255, Some(PageSize { n: 255 })),
    ] {
        let mut bytes = DIRECTORY;
        fill(&mut bytes, at, 1, number);
        assert_eq!(rt; directory(&bytes).err(), expected, "{number} at {at}");
    }
}

#[test]
fn large_hash_pages(rt: HostRuntime) -> Result<(), Fail> {
    let mut bytes = DIRECTORY;
    bytes[39] = 14;
    let d = directory(&bytes)?;
    assert_eq!(rt; (d.page_size(), d.page_bits()), (16_384, 14));
    assert_eq!(rt; (d.slots(), d.limit()), (3, 12288));
    Ok(())
}

#[test]
fn first_broken_rule(rt: HostRuntime) {
    let mut bytes = DIRECTORY;
    // Every rule is broken, and then they are repaired in their order.
    for (at, number) in [
        (0, 0),
        (4, 0),
        (8, 0),
        (24, 3),
        (36, 0),
        (44, 1),
        (20, 186),
        (48, 186),
    ] {
        put(&mut bytes, at, number);
    }
    for (at, number, expected) in [
        (0, 0, BadMagic),
        (0, 0xfade_0c02, LengthBad),
        (4, 87, Version { v: 0 }),
        (8, 0x20400, LengthBad),
        (4, 186, PageSize { n: 0 }),
        (36, 0x0000_000c, HashType { n: 0 }),
        (36, 0x0002_000c, HashSize { n: 0 }),
        (36, 0x2002_000c, SlotsOut),
        (24, 0, Scatter),
        (44, 0, IdentBad),
        (20, 88, TeamBad),
    ] {
        put(&mut bytes, at, number);
        assert_eq!(rt; directory(&bytes).err(), Some(expected), "{number} at {at}");
    }
    put(&mut bytes, 48, 0);
    assert_eq!(rt; directory(&bytes).err(), None);
}

#[test]
fn limit_and_flags(rt: HostRuntime) -> Result<(), Fail> {
    let mut bytes = DIRECTORY;
    put(&mut bytes, 56, 1);
    put(&mut bytes, 12, u32::MAX);
    let d = directory(&bytes)?;
    assert_eq!(rt; (d.limit(), d.flags()), (0x1_0000_0000, 0x0003_3f02));
    // An earlier version has no limit of 64 bits.
    put(&mut bytes, 8, 0x20200);
    assert_eq!(rt; directory(&bytes)?.limit(), 12288);
    Ok(())
}

#[test]
fn versions_and_hash_types(rt: HostRuntime) -> Result<(), Fail> {
    for (version, header, hash_type, size, cdhash) in [
        (
            0x20000,
            44,
            2,
            32,
            b"\x2f\x21\xa5\x08\x0d\x6d\x12\xad\x25\xb7\xa5\xd5\x16\x9a\x17\x9a\x91\x0d\x1c\xa7",
        ),
        (
            0x20100,
            48,
            2,
            32,
            b"\xe4\xe5\xdb\xad\xf3\x71\xff\x82\xaa\x55\x82\x47\xbc\x86\x18\x25\x9e\x4f\xa4\xa8",
        ),
        (
            0x20200,
            52,
            2,
            32,
            b"\xc0\x97\xc9\xd0\xde\x57\xfd\x7f\x1a\x65\x41\xde\xeb\xd2\x71\x1e\x23\x6d\xcb\x20",
        ),
        (
            0x20300,
            64,
            2,
            32,
            b"\xa0\x09\x48\xc6\xa7\x7f\xcf\x64\xed\x25\xcb\x48\x09\xf5\x96\xd9\x5d\xfd\x8f\x80",
        ),
        (
            0x20400,
            88,
            2,
            32,
            b"\x64\x0d\x74\x6d\xaf\x83\xa5\xb6\x2c\x24\x2b\x71\xcc\x03\x27\xe3\xb4\x68\x57\xbd",
        ),
        (
            0x20500,
            96,
            2,
            32,
            b"\x75\x70\x25\x01\x40\xf8\x69\xbc\x87\xb1\xa8\xd9\x9b\xbe\xf8\x52\x1e\xca\x8f\x95",
        ),
        (
            0x20400,
            88,
            1,
            20,
            b"\xf3\x62\x05\xaf\xaa\xba\x71\x79\x03\x92\x39\xa2\x3a\x74\x6c\x6f\x59\x78\x7e\x67",
        ),
        (
            0x20400,
            88,
            3,
            20,
            b"\xb8\x8b\x84\x28\xaa\xf6\x45\x1a\x6d\x5e\x20\xa3\x41\x01\x22\xa7\xd9\x3d\xe7\xce",
        ),
        (
            0x20400,
            88,
            4,
            48,
            b"\xef\xdd\x48\xfe\x9b\x34\x31\xe0\xb6\x0d\xcd\x4f\xcf\x46\x4d\x25\x7b\x51\x35\x86",
        ),
    ] {
        let mut bytes = made(version, header, hash_type, size);
        let d = directory(&bytes)?;
        assert_eq!(rt;
            &d.cdhash(&bytes, &mut ShaDigester::new()),
            cdhash,
            "{version}, {hash_type}"
        );
        assert_eq!(rt;
            d.slot(&bytes, 2).map(|slot| slot.len()),
            Some(usize::from(size))
        );
        // One byte less than the header.
        put(&mut bytes, 4, u32::from(header) - 1);
        assert_eq!(rt; directory(&bytes).err(), Some(LengthBad));
    }
    Ok(())
}

#[test]
fn special_slots(rt: HostRuntime) -> Result<(), Fail> {
    let mut bytes = made(0x20400, 88, 1, 20);
    // The first two slots become special ones.
    put(&mut bytes, 16, 130);
    put(&mut bytes, 24, 2);
    put(&mut bytes, 28, 1);
    let d = directory(&bytes)?;
    assert_eq!(rt; d.special(&bytes, 0), None);
    assert_eq!(rt; d.special(&bytes, 1), Some([0xc1; 20].as_slice()));
    assert_eq!(rt; d.special(&bytes, 2), Some([0xc0; 20].as_slice()));
    assert_eq!(rt; d.special(&bytes, 3), None);
    assert_eq!(rt; d.slot(&bytes, 0), Some([0xc2; 20].as_slice()));
    assert_eq!(rt; d.slot(&bytes, u64::MAX), None);
    Ok(())
}
