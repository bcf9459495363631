//! Reports of a thin file for arm64, of changed copies and of fat files. The digests and cdhashes were made with
//! Python's hashlib.

use super::*;
use cs_policy::Refusal;
use cs_samples::{put, thin_arm64, thin_large_pages};
use macho_slices::FatRefusal;
use pg_bytes::Octets;
use pg_digest::{HashKind, ShaDigester, digest_of};
use std::alloc::Global;
use std::test::Fail;

/// A fat header of 32-bit fields: two records for arm64, at 4,096 and 16,384, of 8,520 bytes each.
const FAT_HEADER: [u8; 48] = [
    0xca, 0xfe, 0xba, 0xbe, 0, 0, 0, 2, // magic, two records
    1, 0, 0, 0x0c, 0, 0, 0, 0, 0, 0, 0x10, 0, 0, 0, 0x21, 0x48, 0, 0, 0, 12, //
    1, 0, 0, 0x0c, 0, 0, 0, 0, 0, 0, 0x40, 0, 0, 0, 0x21, 0x48, 0, 0, 0, 12, //
];

/// Its text where the second slice has another magic.
const FAT_TEXT: &str = "\
slice 0 arch 0100000c 00000000 type 2
slice 0 accepted cdhash bb2576d3b1410f658d4d9174e40456b40d79c596 kind 2 flags 00020002 limit 8304 slots 3 ident 62
slice 0 pages 3 of 3
slice 1 refused mach.2.0.0
";

/// The text of a report that no file gives.
const MADE_TEXT: &str = "\
slice 0 arch 00000000 ffffffff type 0
slice 0 accepted cdhash abababababababababababababababababababab kind 4 flags 0000000a limit 18446744073709551615 slots 1 ident -
slice 0 page 7 mismatch found 01ff wanted 0a
slice 0 page 8 noslot
slice 0 pages 0 of 2
slice 1 refused blob.4.0.4096
";

/// The report of the file with a hash page of 16,384 bytes.
const LARGE_TEXT: &str = "\
slice 0 arch 0100000c 00000000 type 2
slice 0 accepted cdhash 88070eff79fc39bc91139e7c2279dd4af9f7c347 kind 2 flags 00020002 limit 8304 slots 1 ident 62
slice 0 pages 1 of 1
";

/// The same where a byte of that page is changed.
const LARGE_CHANGED_TEXT: &str = "\
slice 0 arch 0100000c 00000000 type 2
slice 0 accepted cdhash 88070eff79fc39bc91139e7c2279dd4af9f7c347 kind 2 flags 00020002 limit 8304 slots 1 ident 62
slice 0 page 0 mismatch found 760841b0aef24c0a19e2d53b22b87a79021c3f2e229c82796ba47df48c62e183 wanted c48ad6b60368b14ccd458c26913ade6d09e4d4af3ac9b53448b779c960c37011
slice 0 pages 0 of 1
";

/// A name, where in the file these bytes are written, the text of its report, and whether all of it matches.
type Row = (&'static str, usize, &'static [u8], &'static str, bool);

/// The file, and copies of it in which some bytes are changed.
const CHANGES: [Row; 16] = [
    (
        "the file as it is",
        0,
        &[],
        "\
slice 0 arch 0100000c 00000000 type 2
slice 0 accepted cdhash bb2576d3b1410f658d4d9174e40456b40d79c596 kind 2 flags 00020002 limit 8304 slots 3 ident 62
slice 0 pages 3 of 3
",
        true,
    ),
    (
        "the first byte of page 1",
        4096,
        &[0x21],
        "\
slice 0 arch 0100000c 00000000 type 2
slice 0 accepted cdhash bb2576d3b1410f658d4d9174e40456b40d79c596 kind 2 flags 00020002 limit 8304 slots 3 ident 62
slice 0 page 1 mismatch found 8f0d4d26ca0b2bb94734355e98048f821767784f280c33e8cd80b0340bd9bab5 wanted 46e4e5b3fe2549da0ecfcf8d067ac060b3b8fd132981043eeb66c7c3be875848
slice 0 pages 2 of 3
",
        false,
    ),
    (
        "the last byte of page 0 and the first of page 1",
        4095,
        &[1, 0x21],
        "\
slice 0 arch 0100000c 00000000 type 2
slice 0 accepted cdhash bb2576d3b1410f658d4d9174e40456b40d79c596 kind 2 flags 00020002 limit 8304 slots 3 ident 62
slice 0 page 0 mismatch found 472fbeeb1b6584dec10e586e2eb9e906117416f4809704fc7b17d4dde1c2a5a0 wanted 43142cf82465c70ab6b535e1dff4842355f63cb19656182c3d6ee60d3f72576c
slice 0 page 1 mismatch found 8f0d4d26ca0b2bb94734355e98048f821767784f280c33e8cd80b0340bd9bab5 wanted 46e4e5b3fe2549da0ecfcf8d067ac060b3b8fd132981043eeb66c7c3be875848
slice 0 pages 1 of 3
",
        false,
    ),
    (
        "the last byte below the limit",
        8303,
        &[0x31],
        "\
slice 0 arch 0100000c 00000000 type 2
slice 0 accepted cdhash bb2576d3b1410f658d4d9174e40456b40d79c596 kind 2 flags 00020002 limit 8304 slots 3 ident 62
slice 0 page 2 mismatch found cf144d64b450c1a2e5fb9fade30ce194a6dc5acb7d58a6946784cd381747ca16 wanted 9b0ec2510d12d2e5eef1d354977cdf8a6a2d91987e2c342c685d4500db19ab06
slice 0 pages 2 of 3
",
        false,
    ),
    (
        "two slots",
        8356,
        &[0, 0, 0, 2],
        "\
slice 0 arch 0100000c 00000000 type 2
slice 0 accepted cdhash 3b9e08fba1a454f8d24f2096de5394a2926bb5e0 kind 2 flags 00020002 limit 8304 slots 2 ident 62
slice 0 page 2 noslot
slice 0 pages 2 of 3
",
        false,
    ),
    (
        "no slots",
        8356,
        &[0, 0, 0, 0],
        "\
slice 0 arch 0100000c 00000000 type 2
slice 0 accepted cdhash 764cd323d4bed570ce742bad36ac7f1861ef1b38 kind 2 flags 00020002 limit 8304 slots 0 ident 62
slice 0 page 0 noslot
slice 0 page 1 noslot
slice 0 page 2 noslot
slice 0 pages 0 of 3
",
        false,
    ),
    (
        "all flags",
        8340,
        &[0xff, 0xff, 0xff, 0xff],
        "\
slice 0 arch 0100000c 00000000 type 2
slice 0 accepted cdhash ca22dbbca869c6f6625b367a75b41b70c468b670 kind 2 flags 00033f02 limit 8304 slots 3 ident 62
slice 0 pages 3 of 3
",
        true,
    ),
    (
        "a last page of one byte",
        8360,
        &[0, 0, 0x20, 1],
        "\
slice 0 arch 0100000c 00000000 type 2
slice 0 accepted cdhash 4887d50212c6cc8c72d8f5284c6bff56c60b47a1 kind 2 flags 00020002 limit 8193 slots 3 ident 62
slice 0 page 2 mismatch found 5feceb66ffc86f38d952786c6d696c79c2dbc239dd4e91b46729d73a27fb57e9 wanted 9b0ec2510d12d2e5eef1d354977cdf8a6a2d91987e2c342c685d4500db19ab06
slice 0 pages 2 of 3
",
        false,
    ),
    (
        "a limit of whole pages",
        8360,
        &[0, 0, 0x20, 0],
        "\
slice 0 arch 0100000c 00000000 type 2
slice 0 accepted cdhash 0d8ade6b92f17ddffa397ae2b5a31f44de3291c3 kind 2 flags 00020002 limit 8192 slots 3 ident 62
slice 0 pages 2 of 2
",
        true,
    ),
    (
        "a limit of no page",
        8360,
        &[0, 0, 0, 0],
        "\
slice 0 arch 0100000c 00000000 type 2
slice 0 accepted cdhash 3ee990f30084eba9ce32ec1f2bfe7bfd4af4ca71 kind 2 flags 00020002 limit 0 slots 3 ident 62
slice 0 pages 0 of 0
",
        true,
    ),
    (
        "an empty identifier",
        8348,
        &[0, 0, 0, 0x59],
        "\
slice 0 arch 0100000c 00000000 type 2
slice 0 accepted cdhash 6144257869ad4d842a1164045a74fee1f8be03a4 kind 2 flags 00020002 limit 8304 slots 3 ident -
slice 0 pages 3 of 3
",
        true,
    ),
    (
        "another machine and file type",
        4,
        &[7, 0, 0, 1, 3, 0, 0, 0x80, 0xff, 0xff, 0xff, 0xff],
        "\
slice 0 arch 01000007 80000003 type 4294967295
slice 0 accepted cdhash bb2576d3b1410f658d4d9174e40456b40d79c596 kind 2 flags 00020002 limit 8304 slots 3 ident 62
slice 0 page 0 mismatch found 6427ecbe28bb828c8394a20e127db2f47f8b3b74fc4fa2650ad8212363ce9515 wanted 43142cf82465c70ab6b535e1dff4842355f63cb19656182c3d6ee60d3f72576c
slice 0 pages 2 of 3
",
        false,
    ),
    (
        "a limit past the end",
        8360,
        &[0, 0, 0x21, 0x49],
        "slice 0 refused blob.8.0.0\n",
        false,
    ),
    (
        "a hash type that is not there",
        8365,
        &[5],
        "slice 0 refused dir.6.5.0\n",
        false,
    ),
    (
        "an entry at the signature's end",
        8320,
        &[0, 0, 0, 0xd8],
        "slice 0 refused super.5.0.0\n",
        false,
    ),
    (
        "all commands but the signature",
        16,
        &[2],
        "slice 0 refused mach.5.0.0\n",
        false,
    ),
];

/// The report of a file.
fn report(alloc: Global, bytes: &[u8]) -> Result<Vec<SliceReport>, VerifyFail> {
    let mut digester = ShaDigester::new();
    verify(alloc, bytes, &mut digester)
}

#[test]
fn thin_files(rt: HostRuntime) -> Result<(), Fail> {
    for (name, at, field, text, sealed) in CHANGES {
        let mut bytes = thin_arm64(rt.alloc())?;
        put(&mut bytes, at, field);
        let found = report(rt.alloc(), &bytes)?;
        let written = verify_text(rt.alloc(), &found)?;
        assert_eq!(rt; written.as_slice(), text.as_bytes(), "{name}");
        assert_eq!(rt; all_match(&found), sealed, "{name}");
    }
    Ok(())
}

/// The file with one hash page of 16,384 bytes, and with its byte at 4,096 changed.
#[test]
fn large_hash_pages(rt: HostRuntime) -> Result<(), Fail> {
    let mut bytes = thin_large_pages(rt.alloc())?;
    assert_eq!(rt; bytes.len(), 8456);
    for (byte, text, sealed) in [(0x20, LARGE_TEXT, true), (0x21, LARGE_CHANGED_TEXT, false)] {
        put(&mut bytes, 4096, &[byte]);
        let found = report(rt.alloc(), &bytes)?;
        let written = verify_text(rt.alloc(), &found)?;
        assert_eq!(rt; written.as_slice(), text.as_bytes());
        assert_eq!(rt; all_match(&found), sealed);
    }
    Ok(())
}

#[test]
fn fat_files(rt: HostRuntime) -> Result<(), Fail> {
    let thin = thin_arm64(rt.alloc())?;
    let mut fat = FAT_HEADER.to_vec(rt.alloc())?;
    fat.resize(4096, 0)?;
    fat.extend_from_slice(&thin)?;
    fat.resize(16_384, 0)?;
    fat.extend_from_slice(&thin)?;
    let both = report(rt.alloc(), &fat)?;
    assert_eq!(rt; both.len(), 2);
    assert!(rt; all_match(&both));
    put(&mut fat, 16_384, &[0xce]);
    let found = report(rt.alloc(), &fat)?;
    let written = verify_text(rt.alloc(), &found)?;
    assert_eq!(rt; written.as_slice(), FAT_TEXT.as_bytes());
    assert!(rt; !all_match(&found), "one slice is refused");
    assert!(rt; found[0].matches());
    assert!(rt; !found[1].matches());
    let none = report(rt.alloc(), &[0xca, 0xfe, 0xba, 0xbe, 0, 0, 0, 0])?;
    assert!(rt; none.is_empty());
    assert!(rt; !all_match(&none), "no slice");
    for (bytes, refusal) in [
        ([].as_slice(), FatRefusal::Short),
        (b"#!/bin/sh\n".as_slice(), FatRefusal::BadMagic),
    ] {
        assert!(rt;
            matches!(&report(rt.alloc(), bytes), Err(fail) if *fail == VerifyFail::Refused(refusal))
        );
    }
    Ok(())
}

#[test]
fn made_report(rt: HostRuntime) -> Result<(), Fail> {
    let bad = vec![in rt.alloc();
        BadPage {
            page: 7,
            found: digest_of(&[1, 0xff]),
            wanted: digest_of(&[10])
        },
        BadPage {
            page: 8,
            found: None,
            wanted: None
        },
    ]?;
    let reports = vec![in rt.alloc();
        SliceReport::Accepted {
            cputype: 0,
            cpusubtype: u32::MAX,
            filetype: 0,
            cdhash: [0xab; 20],
            kind: HashKind::Sha384,
            flags: 10,
            limit: u64::MAX,
            slots: 1,
            ident: Octets::new(Vec::new(rt.alloc())),
            bad: BadPages::new(bad),
            pages: 2,
        },
        SliceReport::Refused(Refusal {
            family: 5,
            number: 4,
            a: 0,
            b: 4096
        }),
    ]?;
    let written = verify_text(rt.alloc(), &reports)?;
    assert_eq!(rt; written.as_slice(), MADE_TEXT.as_bytes());
    Ok(())
}
