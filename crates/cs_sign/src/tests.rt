//! Signed files and trust caches. The expected digests are those of files that a script in Python made by the layout.

use super::*;
use cs_samples::{COMMANDS, TRUST_CACHE, put, thin_arm64};
use cs_trust::module;
use cs_verify::{SliceReport, verify};
use macho_cmds::MachRefusal;
use pg_bytes::be32;
use pg_digest::{Digester, HashKind, ShaDigester, digest_bytes};
use std::alloc::Global;
use std::test::Fail;

/// A file signed with this identifier and these entitlements.
fn signed(
    alloc: Global,
    bytes: &[u8],
    ident: &[u8],
    entitlements: Option<&[u8]>,
    page: HashPage,
) -> Result<Vec<u8>, SignFail> {
    sign(
        alloc,
        bytes,
        ident,
        entitlements,
        page,
        &mut ShaDigester::new(),
    )
}

/// The digest of some bytes in hex.
fn digest(alloc: Global, bytes: &[u8]) -> Result<String, Fail> {
    let mut text = String::new(alloc);
    let digest = ShaDigester::new().hash(HashKind::Sha256, bytes);
    for byte in digest_bytes(&digest) {
        text.push_str(format!(in alloc; "{byte:02x}")?.as_str())?;
    }
    Ok(text)
}

#[test]
fn sample_signed_anew(rt: HostRuntime) -> Result<(), Fail> {
    let alloc = rt.alloc();
    let file = thin_arm64(alloc)?;
    let long = vec![in alloc; b'a'; 255]?;
    let most = vec![in alloc; b'x'; 65_536]?;
    for (ident, entitlements, page, length, slots, expected) in [
        (
            b"b".as_slice(),
            None,
            HashPage::Four,
            8624,
            3,
            "6f06b37af9b4de147b3198ed23efbcdc98ab082e3d09261657bde2f8e14dfef6",
        ),
        (
            b"b".as_slice(),
            None,
            HashPage::Sixteen,
            8560,
            1,
            "70f6c764c5bc03de2bbe0987aa10bef88087101eeb04e6cb75ffcee986f790ca",
        ),
        (
            b"com.example.tool".as_slice(),
            Some(b"<dict/>".as_slice()),
            HashPage::Four,
            8752,
            3,
            "02eb60b43d6e2c05ee4c6b50c792e74eddb351cf2dfe565086af26d9f3558385",
        ),
        (
            long.as_slice(),
            Some(most.as_slice()),
            HashPage::Sixteen,
            74448,
            1,
            "dff53ded8ddb36c58fded065539ada569ac9fe818e579f67496f6f5c2d5cb91e",
        ),
    ] {
        let made = signed(alloc, &file, ident, entitlements, page)?;
        assert_eq!(rt; made.len(), length);
        assert_eq!(rt; digest(alloc, &made)?.as_str(), expected);
        let reports = verify(alloc, &made, &mut ShaDigester::new())?;
        assert_eq!(rt; reports.len(), 1);
        if let SliceReport::Accepted {
            flags,
            limit,
            slots: count,
            ident: name,
            bad,
            pages,
            ..
        } = &reports[0]
        {
            assert_eq!(rt; (*flags, *limit, *count, *pages), (2, 8304, slots, slots));
            assert_eq!(rt; name.bytes(), ident);
            assert_eq!(rt; bad.items().len(), 0);
        } else {
            assert!(rt; false, "refused");
        }
    }
    Ok(())
}

/// The lengths and places in the signature of the sample.
#[test]
fn places_in_the_sample(rt: HostRuntime) -> Result<(), Fail> {
    let alloc = rt.alloc();
    let made = signed(alloc, &thin_arm64(alloc)?, b"b", None, HashPage::Four)?;
    assert_eq!(rt; made.len(), 8624);
    for (at, number) in [
        (8304, 0xfade_0cc0),
        (8308, 306),
        (8312, 3),
        (8316, 0),
        (8320, 36),
        (8324, 2),
        (8328, 286),
        (8332, 0x10000),
        (8336, 298),
        (8340, 0xfade_0c02),
        (8344, 250),
        (8356, 154),
        (8360, 88),
        (8364, 2),
        (8368, 3),
        (8372, 8304),
    ] {
        assert_eq!(rt; be32(&made, at), Some(number), "at {at}");
    }
    Ok(())
}

/// Bytes that are written into a file.
type Changes = &'static [(usize, u64)];

#[test]
fn refused_files(rt: HostRuntime) -> Result<(), Fail> {
    let alloc = rt.alloc();
    let past = |index| Some(SignRefusal::SegmentPast { index });
    // The places are those of the sizes and offsets of the two segments, 72, 80, 144 and 152, and of the signature, 184.
    let changes: [(Changes, Option<SignRefusal>); 14] = [
        (&[], None),
        (&[(0, 0)], Some(SignRefusal::Mach(MachRefusal::BadMagic))),
        (&[(80, 8304)], None),
        (&[(80, 8305)], past(0)),
        (&[(112, 0)], past(1)),
        (&[(112, 0), (152, 112)], Some(SignRefusal::LinkeditBad)),
        (&[(144, 8304), (152, 216)], None),
        (&[(144, 8305), (152, 215)], Some(SignRefusal::LinkeditBad)),
        (&[(152, 327)], Some(SignRefusal::LinkeditBad)),
        (
            &[(184, 0x0000_00d7_0000_2070)],
            Some(SignRefusal::SignatureNotLast),
        ),
        (
            &[(184, 0x0000_00d8_0000_206f)],
            Some(SignRefusal::SignatureNotLast),
        ),
        (&[(184, 0x0000_00d9_0000_206f)], None),
        (
            &[(80, 0), (144, 0), (152, 8520), (184, 0x0000_2088_0000_00c0)],
            None,
        ),
        (
            &[(80, 0), (144, 0), (152, 8520), (184, 0x0000_2089_0000_00bf)],
            Some(SignRefusal::SignatureNotLast),
        ),
    ];
    for (writes, expected) in changes {
        let mut file = thin_arm64(alloc)?;
        for (at, number) in writes {
            put(&mut file, *at, &number.to_le_bytes());
        }
        match signed(alloc, &file, b"b", None, HashPage::Four) {
            Ok(_) => assert_eq!(rt; None, expected, "{writes:?}"),
            Err(SignFail::Refused(refusal)) => {
                assert_eq!(rt; Some(refusal), expected, "{writes:?}");
            }
            Err(SignFail::NoMemory) => assert!(rt; false, "no memory"),
        }
    }
    Ok(())
}

/// The most bytes before a signature with the identifier `b` that a file may have.
const LARGEST: u32 = 66_588_416;

/// A file of so many bytes before its signature of 16.
fn file_of(alloc: Global, limit: u32) -> Result<Vec<u8>, Fail> {
    let mut file = COMMANDS.to_vec(alloc)?;
    file.resize(limit as usize + 16, 0)?;
    put(&mut file, 80, &0_u64.to_le_bytes());
    put(&mut file, 144, &0_u64.to_le_bytes());
    put(&mut file, 152, &(u64::from(limit) + 16).to_le_bytes());
    put(&mut file, 184, &limit.to_le_bytes());
    put(&mut file, 188, &16_u32.to_le_bytes());
    Ok(file)
}

#[test]
fn refused_requests(rt: HostRuntime) -> Result<(), Fail> {
    let alloc = rt.alloc();
    let file = thin_arm64(alloc)?;
    let long = vec![in alloc; b'a'; 256]?;
    let most = vec![in alloc; b'x'; 65_537]?;
    let large = file_of(alloc, LARGEST + 1)?;
    for (bytes, ident, entitlements, expected, text) in [
        (
            &file,
            b"".as_slice(),
            None,
            SignRefusal::IdentBad,
            "sign.4.0.0",
        ),
        (
            &file,
            b"a\0".as_slice(),
            None,
            SignRefusal::IdentBad,
            "sign.4.0.0",
        ),
        (
            &file,
            long.as_slice(),
            None,
            SignRefusal::IdentBad,
            "sign.4.0.0",
        ),
        (
            &file,
            b"a".as_slice(),
            Some(most.as_slice()),
            SignRefusal::EntitlementsLong { len: 65_537 },
            "sign.5.65537.0",
        ),
        (
            &large,
            b"b".as_slice(),
            None,
            SignRefusal::TooLarge,
            "sign.6.0.0",
        ),
    ] {
        match signed(alloc, bytes, ident, entitlements, HashPage::Four) {
            Err(SignFail::Refused(refusal)) => {
                assert_eq!(rt; refusal, expected);
                assert_eq!(rt; format!(in alloc; "{refusal}")?.as_str(), text);
            }
            _ => assert!(rt; false, "not refused"),
        }
    }
    let made = signed(alloc, &file_of(alloc, LARGEST)?, b"b", None, HashPage::Four)?;
    assert_eq!(rt; made.len(), 67_108_864);
    Ok(())
}

#[test]
fn caches(rt: HostRuntime) -> Result<(), Fail> {
    let alloc = rt.alloc();
    let mut sample = [0; 20];
    sample.copy_from_slice(&TRUST_CACHE[24..44]);
    assert_eq!(rt;
        cache(alloc, &[sample], [0; 16], 1)?.as_slice(),
        TRUST_CACHE.as_slice()
    );
    assert_eq!(rt;
        cache(alloc, &[], [0; 16], 1)?.as_slice(),
        [
            1, 0, 0, 0, 0, 0, 0, 0, 0, 0, 0, 0, 0, 0, 0, 0, 0, 0, 0, 0, 0, 0, 0, 0
        ]
        .as_slice()
    );
    let hashes = [[9; 20], [1; 20], [9; 20], [5; 20], [1; 20]];
    for (version, length) in [(1, 90), (2, 96)] {
        let made = cache(alloc, &hashes, [7; 16], version)?;
        assert_eq!(rt; made.len(), length);
        let listed = module(alloc, &made)?;
        for (byte, place) in [
            (0, None),
            (1, Some(0)),
            (5, Some(1)),
            (9, Some(2)),
            (10, None),
        ] {
            assert_eq!(rt; listed.look(&[byte; 20]), place);
        }
    }
    for version in [0, 3, u32::MAX] {
        let v = u64::from(version);
        assert_eq!(rt;
            cache(alloc, &hashes, [0; 16], version).err(),
            Some(CacheFail::Version { v })
        );
    }
    Ok(())
}

#[test]
fn many_hashes(rt: HostRuntime) -> Result<(), Fail> {
    let alloc = rt.alloc();
    let mut hashes = Vec::new(alloc);
    for number in 0..65_537_u32 {
        let mut hash = [0; 20];
        hash[..4].copy_from_slice(&number.to_le_bytes());
        hashes.push(hash)?;
    }
    assert_eq!(rt;
        cache(alloc, &hashes, [0; 16], 1).err(),
        Some(CacheFail::TooMany { count: 65_537 })
    );
    let _ = hashes.pop();
    hashes.push([0; 20])?;
    let made = cache(alloc, &hashes, [0; 16], 1)?;
    assert_eq!(rt; made.len(), 24 + 22 * 65_536);
    Ok(())
}
