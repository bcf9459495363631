//! Whole runs over files in memory. The digests and the cdhash were made with Python's hashlib.

use crate::{csverify_main, csverify_on};
use cs_samples::{put, thin_arm64, thin_large_pages};
use pg_bytes::{Status, Which};
use pg_io::{MemFiles, MemSink};
use std::alloc::Global;
use std::test::Fail;

/// The report on the file.
const SEALED: &str = "\
slice 0 arch 0100000c 00000000 type 2
slice 0 accepted cdhash bb2576d3b1410f658d4d9174e40456b40d79c596 kind 2 flags 00020002 limit 8304 slots 3 ident 62
slice 0 pages 3 of 3
";

/// The report on the file where the first byte of page 1 is 0x21.
const CHANGED: &str = "\
slice 0 arch 0100000c 00000000 type 2
slice 0 accepted cdhash bb2576d3b1410f658d4d9174e40456b40d79c596 kind 2 flags 00020002 limit 8304 slots 3 ident 62
slice 0 page 1 mismatch found 8f0d4d26ca0b2bb94734355e98048f821767784f280c33e8cd80b0340bd9bab5 wanted 46e4e5b3fe2549da0ecfcf8d067ac060b3b8fd132981043eeb66c7c3be875848
slice 0 pages 2 of 3
";

/// The report on the file with one hash page of 16,384 bytes.
const LARGE: &str = "\
slice 0 arch 0100000c 00000000 type 2
slice 0 accepted cdhash 88070eff79fc39bc91139e7c2279dd4af9f7c347 kind 2 flags 00020002 limit 8304 slots 1 ident 62
slice 0 pages 1 of 1
";

/// The line for a command line of another form.
const USAGE: &str = "usage: csverify PATH\n";

/// How a run ended, and what it wrote.
#[derive(Drop)]
struct Ended {
    status: Status,
    text: Vec<u8>,
}

/// The reads that fail, the room of the sink, and its writes that fail.
#[derive(Clone, Copy)]
struct Outside<'a> {
    reads: &'a [u64],
    room: usize,
    writes: &'a [u64],
}

/// An outside without faults.
const SOUND: Outside<'static> = Outside {
    reads: &[],
    room: 4096,
    writes: &[],
};

/// Runs these words over one file in memory.
fn run(
    alloc: Global,
    words: &[&str],
    name: &str,
    bytes: Vec<u8>,
    outside: Outside,
) -> Result<Ended, Fail> {
    let mut given = Vec::new(alloc);
    for word in words {
        given.push(String::from_str(alloc, word)?)?;
    }
    let names = vec![in alloc; String::from_str(alloc, name)?]?;
    let contents = vec![in alloc; bytes]?;
    let reads = Vec::from_slice(alloc, outside.reads)?;
    let writes = Vec::from_slice(alloc, outside.writes)?;
    let mut files = MemFiles::new(names, contents, reads);
    let mut out = MemSink::open(alloc, outside.room, usize::MAX, writes)?;
    let status = csverify_main(alloc, &given, &mut files, &mut out);
    let text = Vec::from_slice(alloc, out.bytes())?;
    Ok(Ended { status, text })
}

/// Runs the path `f` over the file `f`.
fn run_path(alloc: Global, bytes: Vec<u8>, outside: Outside) -> Result<Ended, Fail> {
    run(alloc, &["f"], "f", bytes, outside)
}

/// Words that name a path, and that path.
const TAKEN: [(&'static [&'static str], &'static str); 9] = [
    (&["thin"], "thin"),
    (&["--", "thin"], "thin"),
    (&["thin", "--"], "thin"),
    (&["-"], "-"),
    (&["--", "-"], "-"),
    (&[""], ""),
    (&["--", "-x"], "-x"),
    (&["--", "--help"], "--help"),
    (&["--", "--"], "--"),
];

/// Words that name none.
const REFUSED: [&'static [&'static str]; 13] = [
    &[],
    &["thin", "thin"],
    &["--", "thin", "thin"],
    &["--"],
    &["-x"],
    &["-x", "thin"],
    &["--help"],
    &["-h"],
    &["--version"],
    &["-V"],
    &["help", "thin"],
    &["--PATH", "thin"],
    &["--PATH=thin"],
];

#[test]
fn command_lines(rt: HostRuntime) -> Result<(), Fail> {
    for (words, name) in TAKEN {
        let ended = run(rt.alloc(), words, name, thin_arm64(rt.alloc())?, SOUND)?;
        assert_eq!(rt; ended.status, Status::Done, "{words:?}");
        assert_eq!(rt; ended.text.as_slice(), SEALED.as_bytes(), "{words:?}");
    }
    for words in REFUSED {
        let ended = run(rt.alloc(), words, "thin", thin_arm64(rt.alloc())?, SOUND)?;
        assert_eq!(rt; ended.status, Status::Usage, "{words:?}");
        assert_eq!(rt; ended.text.as_slice(), USAGE.as_bytes(), "{words:?}");
    }
    Ok(())
}

#[test]
fn whole_reports(rt: HostRuntime) -> Result<(), Fail> {
    let alloc = rt.alloc();
    let mut changed = thin_arm64(alloc)?;
    put(&mut changed, 4096, &[0x21]);
    for (bytes, status, text) in [
        (thin_arm64(alloc)?, Status::Done, SEALED),
        (changed, Status::NotSealed, CHANGED),
        (thin_large_pages(alloc)?, Status::Done, LARGE),
        (
            Vec::new(alloc),
            Status::NotSealed,
            "file refused fat.1.0.0\n",
        ),
        (
            Vec::from_slice(alloc, &[0xca, 0xfe, 0xba, 0xbe, 0, 0, 0, 0])?,
            Status::NotSealed,
            "",
        ),
    ] {
        let ended = run_path(alloc, bytes, SOUND)?;
        assert_eq!(rt; ended.status, status);
        assert_eq!(rt; ended.text.as_slice(), text.as_bytes());
    }
    Ok(())
}

#[test]
fn faults_of_files_and_sink(rt: HostRuntime) -> Result<(), Fail> {
    let alloc = rt.alloc();
    for (name, reads) in [("f", [1].as_slice()), ("g", &[])] {
        let ended = run(
            alloc,
            &["f"],
            name,
            thin_arm64(alloc)?,
            Outside { reads, ..SOUND },
        )?;
        assert_eq!(rt; ended.status, Status::FileFault { item: 0 });
        assert_eq!(rt;
            ended.text.as_slice(),
            b"csverify: cannot read\n".as_slice()
        );
    }
    for (room, writes) in [
        (4096, [1].as_slice()),
        (0, &[]),
        (1, &[]),
        (100, &[]),
        (100, &[2]),
    ] {
        let ended = run_path(
            alloc,
            thin_arm64(alloc)?,
            Outside {
                room,
                writes,
                ..SOUND
            },
        )?;
        let sent = if writes == [1].as_slice() { 0 } else { room };
        assert_eq!(rt; ended.status, Status::SinkFault, "room for {room}");
        assert_eq!(rt; ended.text.len(), sent, "room for {room}");
        assert!(rt;
            SEALED.as_bytes().starts_with(ended.text.as_slice()),
            "room for {room}"
        );
    }
    Ok(())
}

/// A file of the most bytes that one may have is judged, and one of a byte more is not.
#[test]
fn largest_file(rt: HostRuntime) -> Result<(), Fail> {
    let alloc = rt.alloc();
    let most = 67_108_864;
    for (length, status, text) in [
        (most, Status::NotSealed, "file refused fat.2.0.0\n"),
        (
            most + 1,
            Status::Limit {
                which: Which::FileBytes,
                number: 67_108_864,
            },
            "csverify: limit filebytes 67108864\n",
        ),
    ] {
        let mut bytes = Vec::new(alloc);
        bytes.resize(length, 0)?;
        let ended = run_path(alloc, bytes, SOUND)?;
        assert_eq!(rt; ended.status, status, "{length} bytes");
        assert_eq!(rt; ended.text.as_slice(), text.as_bytes(), "{length} bytes");
    }
    Ok(())
}

/// The call of `main` on a file that is sealed, one that is not, and one that is not there.
#[test]
fn on_all_processors(rt: HostRuntime) -> Result<(), Fail> {
    let alloc = rt.alloc();
    let mut changed = thin_arm64(alloc)?;
    put(&mut changed, 4096, &[0x21]);
    let names = vec![in alloc;
        String::from_str(alloc, "sealed")?,
        String::from_str(alloc, "changed")?,
    ]?;
    let contents = vec![in alloc; thin_arm64(alloc)?, changed]?;
    let mut files = MemFiles::new(names, contents, Vec::new(alloc));
    for (name, wanted, text) in [
        ("sealed", Status::Done, SEALED),
        ("changed", Status::NotSealed, CHANGED),
        (
            "none",
            Status::FileFault { item: 0 },
            "csverify: cannot read\n",
        ),
    ] {
        let words = vec![in alloc; String::from_str(alloc, name)?]?;
        let mut out = MemSink::open(alloc, 4096, usize::MAX, Vec::new(alloc))?;
        let status = csverify_on(&rt, alloc, &words, &mut files, &mut out);
        assert_eq!(rt; status, wanted, "{name}");
        assert_eq!(rt; out.bytes(), text.as_bytes(), "{name}");
    }
    Ok(())
}
