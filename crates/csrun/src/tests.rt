//! Whole runs over files in memory.

ghost use Rattle.std.specs.Prelude.{Some};

use crate::rows::{CACHES, DIRECTORY, EARLY, LARGE_PAGES, SCENES, SMALL_PAGES};
use cs_samples::{put, put_be32, thin_arm64};
use pg_bytes::{Status, Which};
use pg_io::{Files, MemFiles, MemSink, OpenGate, ReadFail};
use scene_run::csrun_solo;
use scene_threads::csrun_main;
use std::alloc::Global;
use std::sync::Wait;
use std::test::Fail;
use std::thread::Threads;

/// How a run ended, what it wrote, how many files it read, and the most bytes that it asked of one.
#[derive(Drop)]
struct Ended {
    status: Status,
    text: Vec<u8>,
    reads: u32,
    most: u64,
}

/// Files in memory, how many reads of them were made, and the most bytes that one of these asked for.
#[derive(Drop)]
struct Counted {
    files: MemFiles,
    reads: u32,
    most: u64,
}

impl Files for Counted {
    ghost tells = { λ counted. Some counted.files.told };

    ghost faults = { λ counted. counted.files.faults };

    fn read(&mut self, alloc: Global, name: &str, most: u64) -> Result<Vec<u8>, ReadFail> {
        self.reads = self.reads.saturating_add(1);
        self.most = self.most.max(most);
        self.files.read(alloc, name, most)
    }
}

impl Counted {
    /// These files, before the first read.
    fn new(files: MemFiles) -> Counted {
        Counted {
            files,
            reads: 0,
            most: 0,
        }
    }
}

impl Ended {
    /// How a run ended that came to this status over these files.
    fn new(alloc: Global, status: Status, files: &Counted, out: &MemSink) -> Result<Ended, Fail> {
        Ok(Ended {
            status,
            text: Vec::from_slice(alloc, out.bytes())?,
            reads: files.reads,
            most: files.most,
        })
    }
}

/// The reads that fail, how many bytes a write takes at most, and the writes that fail.
#[derive(Clone, Copy)]
struct Outside<'a> {
    reads: &'a [u64],
    most: usize,
    writes: &'a [u64],
}

/// An outside without faults.
const SOUND: Outside<'static> = Outside {
    reads: &[],
    most: usize::MAX,
    writes: &[],
};

/// Pages of 4,096 bytes, each filled with one of these, and what is given in hex behind them.
fn file(alloc: Global, pages: &[u8], directory: &str) -> Result<Vec<u8>, Fail> {
    let mut bytes = Vec::new(alloc);
    for byte in pages {
        let page = vec![in alloc; *byte; 4096]?;
        bytes.extend_from_slice(&page)?;
    }
    let directory = hex::decode(alloc, directory)?;
    bytes.extend_from_slice(&directory)?;
    Ok(bytes)
}

/// A fat file with the thin file at byte 4,096 and at byte 16,384.
fn fat(alloc: Global) -> Result<Vec<u8>, Fail> {
    let thin = thin_arm64(alloc)?;
    let mut bytes = vec![in alloc; 0; 24904]?;
    for (at, number) in [
        (0, 0xcafe_babe),
        (4, 2),
        (8, 0x0100_000c),
        (12, 0),
        (16, 4096),
        (20, 8520),
        (24, 12),
        (28, 0x0100_000c),
        (32, 0),
        (36, 16384),
        (40, 8520),
        (44, 14),
    ] {
        put_be32(&mut bytes, at, number);
    }
    put(&mut bytes, 4096, &thin);
    put(&mut bytes, 16384, &thin);
    Ok(bytes)
}

/// The thin file with the flags 0x20000 in its directory, without ADHOC.
fn without_adhoc(alloc: Global) -> Result<Vec<u8>, Fail> {
    let mut bytes = thin_arm64(alloc)?;
    put_be32(&mut bytes, 8340, 0x0002_0000);
    Ok(bytes)
}

/// The names of the sample files.
fn names(alloc: Global) -> Result<Vec<String>, Fail> {
    let mut names = Vec::new(alloc);
    for name in ["A", "B", "Z", "E", "FAT", "BFLAGS", "C4", "C16"] {
        names.push(String::from_str(alloc, name)?)?;
    }
    for (name, _) in CACHES {
        names.push(String::from_str(alloc, name)?)?;
    }
    Ok(names)
}

/// Their bytes.
fn contents(alloc: Global) -> Result<Vec<Vec<u8>>, Fail> {
    let large = [0x41, 0x42, 0x43, 0x44, 0x45, 0x45, 0x45, 0x45];
    let mut contents = Vec::new(alloc);
    contents.push(file(alloc, &[0x41, 0x42, 0x43], DIRECTORY)?)?;
    contents.push(thin_arm64(alloc)?)?;
    contents.push(vec![in alloc; 0; 81920]?)?;
    contents.push(Vec::new(alloc))?;
    contents.push(fat(alloc)?)?;
    contents.push(without_adhoc(alloc)?)?;
    contents.push(file(alloc, &large, SMALL_PAGES)?)?;
    contents.push(file(alloc, &large, LARGE_PAGES)?)?;
    for (_, bytes) in CACHES {
        contents.push(hex::decode(alloc, bytes)?)?;
    }
    Ok(contents)
}

/// The sample files, with the scene under the name `s`.
fn files(alloc: Global, scene: &str, outside: Outside) -> Result<Counted, Fail> {
    let mut names = names(alloc)?;
    let mut contents = contents(alloc)?;
    names.push(String::from_str(alloc, "s")?)?;
    contents.push(Vec::from_slice(alloc, scene.as_bytes())?)?;
    if names.len() != contents.len() {
        return Err(Fail::new("a sample file has no name, or a name no file"));
    }
    let fails = Vec::from_slice(alloc, outside.reads)?;
    Ok(Counted::new(MemFiles::new(names, contents, fails)))
}

/// Where the output goes.
fn sink(alloc: Global, outside: Outside) -> Result<MemSink, Fail> {
    let writes = Vec::from_slice(alloc, outside.writes)?;
    Ok(MemSink::open(alloc, 1_048_576, outside.most.max(1), writes)?)
}

/// Runs these words over the sample files and the scene.
fn run_words<R: Threads + Wait + Sync + AllocGlobal>(
    rt: &R,
    words: &[&str],
    scene: &str,
    outside: Outside,
) -> Result<Ended, Fail> {
    let alloc = rt.alloc();
    let mut given = Vec::new(alloc);
    for word in words {
        given.push(String::from_str(alloc, word)?)?;
    }
    let mut files = files(alloc, scene, outside)?;
    let mut out = sink(alloc, outside)?;
    let status = csrun_main(rt, alloc, &given, &mut files, &mut out, &OpenGate);
    Ended::new(alloc, status, &files, &out)
}

/// Runs `solo` and the scene.
fn run_solo(alloc: Global, scene: &str, outside: Outside) -> Result<Ended, Fail> {
    let solo = String::from_str(alloc, "solo")?;
    let path = String::from_str(alloc, "s")?;
    let given = vec![in alloc; solo, path]?;
    let mut files = files(alloc, scene, outside)?;
    let mut out = sink(alloc, outside)?;
    let status = csrun_solo(alloc, &given, &mut files, &mut out);
    Ended::new(alloc, status, &files, &out)
}

/// Runs a scene.
fn run<R: Threads + Wait + Sync + AllocGlobal>(rt: &R, scene: &str) -> Result<Ended, Fail> {
    run_words(rt, &["s"], scene, SOUND)
}

#[test]
fn worked_scenes(rt: HostRuntime) -> Result<(), Fail> {
    let alloc = rt.alloc();
    for (what, scene, journal) in SCENES {
        let ended = run(&rt, scene)?;
        assert_eq!(rt; ended.status, Status::Done, "{what}");
        assert_eq!(rt; ended.text.as_slice(), journal.as_bytes(), "{what}");
        let alone = run_solo(alloc, scene, SOUND)?;
        assert_eq!(rt; alone.status, Status::Done, "{what}");
        assert_eq!(rt; alone.text.as_slice(), journal.as_bytes(), "{what}");
    }
    Ok(())
}

#[test]
fn early_ends(rt: HostRuntime) -> Result<(), Fail> {
    for (what, scene, reads, status, line) in EARLY {
        let ended = run(&rt, scene)?;
        assert_eq!(rt; ended.status, status, "{what}");
        assert_eq!(rt; ended.text.as_slice(), line.as_bytes(), "{what}");
        assert_eq!(rt; ended.reads, reads, "{what}");
    }
    Ok(())
}

/// Scenes of one item or none, how many files are read, and the most bytes that one of these reads asks for: one more than
/// such a file may have, so that a longer one is seen.
const ASKED: [(&str, u32, u64); 5] = [
    ("scene 1\n", 1, 1_048_577),
    ("scene 1\nfile B\n", 2, 67_108_865),
    ("scene 1\nraw A 12288 186\n", 2, 67_108_865),
    ("scene 1\nstatic T\n", 2, 1_572_889),
    ("scene 1\ncache T\n", 2, 1_572_889),
];

#[test]
fn reads_ask_for_one_byte_more_than_the_limits(rt: HostRuntime) -> Result<(), Fail> {
    for (scene, reads, most) in ASKED {
        let ended = run(&rt, scene)?;
        assert_eq!(rt; ended.status, Status::Done, "{scene}");
        assert_eq!(rt; ended.reads, reads, "{scene}");
        assert_eq!(rt; ended.most, most, "{scene}");
    }
    Ok(())
}

#[test]
fn words_of_other_forms(rt: HostRuntime) -> Result<(), Fail> {
    let usage = b"usage: csrun SCENE | csrun solo SCENE | csrun gen N\n";
    let forms: [&[&str]; 4] = [&[], &["gen", "0"], &["so", "s"], &["solo", "s", "s"]];
    for words in forms {
        let ended = run_words(&rt, words, "scene 1\n", SOUND)?;
        assert_eq!(rt; ended.status, Status::Usage);
        assert_eq!(rt; ended.text.as_slice(), usage.as_slice());
    }
    Ok(())
}

/// The lines of a scene before a repeated line, the line, how often it stands, and the limit that is passed.
const LIMITS: [(&str, &str, u32, Which, u64, &str); 9] = [
    (
        "process none\nscript\n",
        "spawn p0\n",
        4097,
        Which::Calls,
        4096,
        "calls",
    ),
    ("", "script\n", 9, Which::Workers, 8, "workers"),
    ("", "file B\n", 17, Which::Files, 16, "files"),
    ("", "process none\n", 65, Which::Processes, 64, "processes"),
    ("", "static T\n", 65, Which::Statics, 64, "statics"),
    ("", "cache T\n", 65, Which::Caches, 64, "caches"),
    ("file B\n", "fail f0 1\n", 65, Which::Fails, 64, "fails"),
    (
        "file B\nscript\n",
        "attach f0 0\n",
        65,
        Which::Attaches,
        64,
        "attaches",
    ),
    (
        "",
        "# none of the language's lines\n",
        40_000,
        Which::Scene,
        1_048_576,
        "scene",
    ),
];

#[test]
fn limits(rt: HostRuntime) -> Result<(), Fail> {
    let alloc = rt.alloc();
    for (before, line, count, which, number, word) in LIMITS {
        let mut scene = format!(in alloc; "scene 1\n{before}")?;
        for _ in 0..count {
            scene.push_str(line)?;
        }
        let ended = run(&rt, &scene)?;
        let text = format!(in alloc; "csrun: limit {word} {number}\n")?;
        assert_eq!(rt; ended.status, Status::Limit { which, number }, "{word}");
        assert_eq!(rt; ended.text.as_slice(), text.as_bytes(), "{word}");
    }
    Ok(())
}

#[test]
fn one_less_than_the_limits(rt: HostRuntime) -> Result<(), Fail> {
    let alloc = rt.alloc();
    for (before, line, count) in [
        ("process none\nscript\n", "spawn p0\n", 4096),
        ("", "script\n", 8),
        ("", "file B\n", 16),
        ("", "process none\n", 64),
        ("", "static T\n", 64),
        ("", "cache T\n", 64),
        ("file B\n", "fail f0 1\n", 64),
        ("file B\nscript\n", "attach f0 0\n", 64),
    ] {
        let mut scene = format!(in alloc; "scene 1\n{before}")?;
        for _ in 0..count {
            scene.push_str(line)?;
        }
        assert_eq!(rt; run(&rt, &scene)?.status, Status::Done, "{line}");
    }
    Ok(())
}

#[test]
fn reads_that_fail(rt: HostRuntime) -> Result<(), Fail> {
    let alloc = rt.alloc();
    let (_, scene, _) = SCENES[0];
    for (read, item) in [(1, 0), (2, 1), (3, 2)] {
        let outside = Outside {
            reads: &[read],
            ..SOUND
        };
        let ended = run_words(&rt, &["s"], scene, outside)?;
        let text = format!(in alloc; "csrun: cannot read item {item}\n")?;
        assert_eq!(rt; ended.status, Status::FileFault { item });
        assert_eq!(rt; ended.text.as_slice(), text.as_bytes());
    }
    let gone = run_words(&rt, &["gone"], scene, SOUND)?;
    assert_eq!(rt; gone.status, Status::FileFault { item: 0 });
    Ok(())
}

#[test]
fn sink_of_one_byte_a_write(rt: HostRuntime) -> Result<(), Fail> {
    let alloc = rt.alloc();
    let (_, scene, journal) = SCENES[0];
    let outside = Outside { most: 1, ..SOUND };
    let whole = run_solo(alloc, scene, outside)?;
    assert_eq!(rt; whole.status, Status::Done);
    assert_eq!(rt; whole.text.as_slice(), journal.as_bytes());
    let outside = Outside {
        most: 1,
        writes: &[10],
        ..SOUND
    };
    let part = run_solo(alloc, scene, outside)?;
    assert_eq!(rt; part.status, Status::SinkFault);
    assert_eq!(rt; part.text.as_slice(), b"0 0.0 t l".as_slice());
    Ok(())
}

/// The pager call that fails, and the journal's line of it.
const PAGER_CALLS: [(u32, &str); 4] = [
    (1, "3 0.2 f0 readsig 0 -> pagerfault 3\n"),
    (2, "7 0.3 f0 enter 0 0 x 00001001 @6 -> pagerfault 0\n"),
    (3, "9 0.4 f0 enter 0 1 x 00001001 @8 -> pagerfault 1\n"),
    (4, "11 0.5 f0 enter 0 2 x 00001001 @10 -> pagerfault 2\n"),
];

#[test]
fn pager_calls_that_fail_in_turn(rt: HostRuntime) -> Result<(), Fail> {
    let alloc = rt.alloc();
    for (call, line) in PAGER_CALLS {
        let scene = format!(in alloc;
            "scene 1\nraw A 12288 186\nfail f0 {call}\nprocess enforce\nadmit dd2875b1ed5de5cda3421fc7fe4869ab72113510\nscript\nspawn p0\nmap p0 0x10000 f0 0 3 r-x private\nattach f0 0\nfault p0 0x10000 x\nfault p0 0x11000 x\nfault p0 0x12000 x\n"
        )?;
        let ended = run(&rt, &scene)?;
        let text = str::from_utf8(&ended.text)?;
        assert_eq!(rt; ended.status, Status::Done);
        assert!(rt; text.contains(line), "{call}");
    }
    Ok(())
}

/// Runs a scene over one file of so many bytes, and one behind it.
fn run_large<R: Threads + Wait + Sync + AllocGlobal>(rt: &R, count: usize) -> Result<Ended, Fail> {
    let alloc = rt.alloc();
    let names = vec![in alloc;
        String::from_str(alloc, "large")?,
        String::from_str(alloc, "s")?,
    ]?;
    let scene = Vec::from_slice(alloc, b"scene 1\nraw large 0 0\ncache s\n")?;
    let contents = vec![in alloc; vec![in alloc; 0; count]?, scene]?;
    let given = vec![in alloc; String::from_str(alloc, "s")?]?;
    let mut files = Counted::new(MemFiles::new(names, contents, Vec::new(alloc)));
    let mut out = sink(alloc, SOUND)?;
    let status = csrun_main(rt, alloc, &given, &mut files, &mut out, &OpenGate);
    Ended::new(alloc, status, &files, &out)
}

#[test]
fn files_of_the_most_bytes(rt: HostRuntime) -> Result<(), Fail> {
    let whole = run_large(&rt, 67_108_864)?;
    assert_eq!(rt; whole.status, Status::Done);
    assert_eq!(rt; whole.reads, 3);
    let longer = run_large(&rt, 67_108_865)?;
    let limit = Status::Limit {
        which: Which::FileBytes,
        number: 67_108_864,
    };
    assert_eq!(rt; longer.status, limit);
    assert_eq!(rt; longer.reads, 2);
    assert_eq!(rt;
        longer.text.as_slice(),
        b"csrun: limit filebytes 67108864\n".as_slice()
    );
    Ok(())
}
