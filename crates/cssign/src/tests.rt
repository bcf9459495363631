//! What is signed and built is verified, and goes into a scene. The cdhash is that of a file that a script in Python made
//! by the layout.

use cs_samples::thin_arm64;
use cs_sign::cssign_main;
use cs_verify::{verify, verify_text};
use pg_bytes::Status;
use pg_digest::ShaDigester;
use pg_io::{MemFiles, MemSink, OpenGate};
use scene_threads::csrun_main;
use std::alloc::Global;
use std::test::Fail;

/// What the verifier says of the signed file.
const REPORT: &str = "\
slice 0 arch 0100000c 00000000 type 2
slice 0 accepted cdhash 9172f8c9ca8f6ecc070a004b212c9731943df281 kind 2 flags 00000002 limit 8304 slots 3 ident 62
slice 0 pages 3 of 3
";

/// The trust cache of the signed file.
const TRUST_CACHE: &str = "\
0100000000000000000000000000000000000000010000009172f8c9ca8f6ecc070a004b212c9731943df2810200";

/// A scene over both.
const SCENE: &str = "\
scene 1
file B
cache T
process enforce
script
loadtrust c0
attach f0 0
spawn p0
map p0 0x100000000 f0 0 2 r-x private
fault p0 0x100000000 x
fault p0 0x100001000 x
";

/// Its journal.
const JOURNAL: &str = "\
0 0.0 t loadmodule c0 -> loaded 0
1 0.1 f0 readsig 0 -> read 320
2 0.1 t lookup 9172f8c9ca8f6ecc070a004b212c9731943df281 -> listed 0 0
3 0.1 f0 addblob 0 9172f8c9ca8f6ecc070a004b212c9731943df281 @1 @2 -> attached 0
4 0.2 p0 start -> began 00001001
5 0.3 p0 insert 0x100000000 f0 0 2 r-x private -> inserted 0
6 0.3 f0 addregion 0 p0 0 2 r-x private @5 -> added
7 0.4 p0 resolve 0x100000000 x -> region 0 f0 0 00001001
8 0.4 f0 enter 0 0 x 00001001 @7 -> given
9 0.5 p0 resolve 0x100001000 x -> region 0 f0 1 00001001
10 0.5 f0 enter 0 1 x 00001001 @9 -> given
events 11
calls 6
given 2
denied 0
";

/// Files in memory by their names, none of whose reads fails.
fn files(alloc: Global, given: &[(&str, &[u8])]) -> Result<MemFiles, Fail> {
    let mut names = Vec::new(alloc);
    let mut contents = Vec::new(alloc);
    for (name, bytes) in given {
        names.push(String::from_str(alloc, name)?)?;
        contents.push(Vec::from_slice(alloc, bytes)?)?;
    }
    if names.len() != contents.len() {
        return Err(Fail::new("a file has no name, or a name no file"));
    }
    Ok(MemFiles::new(names, contents, Vec::new(alloc)))
}

/// The words as a command line has them.
fn texts(alloc: Global, words: &[&str]) -> Result<Vec<String>, Fail> {
    let mut texts = Vec::new(alloc);
    for word in words {
        texts.push(String::from_str(alloc, word)?)?;
    }
    Ok(texts)
}

/// How the program ends for these words over one file, and what it writes.
fn ended(
    alloc: Global,
    words: &[&str],
    name: &str,
    bytes: &[u8],
) -> Result<(Status, Vec<u8>), Fail> {
    let words = texts(alloc, words)?;
    let mut files = files(alloc, &[(name, bytes)])?;
    let mut out = MemSink::open(alloc, 16384, usize::MAX, Vec::new(alloc))?;
    let status = cssign_main(alloc, &words, &mut files, &mut out);
    Ok((status, Vec::from_slice(alloc, out.bytes())?))
}

/// What the program writes for these words over one file, where it ends well.
fn written(alloc: Global, words: &[&str], name: &str, bytes: &[u8]) -> Result<Vec<u8>, Fail> {
    match ended(alloc, words, name, bytes)? {
        (Status::Done, written) => Ok(written),
        _ => Err(Fail::new("the run does not end well")),
    }
}

#[test]
fn early_ends(rt: HostRuntime) -> Result<(), Fail> {
    let alloc = rt.alloc();
    let usage = "usage: cssign sign PATH IDENT 4|16 [PATH] | cssign cache PATH..\n";
    let words: [(&[&str], Status, &str); 5] = [
        (
            &["sign", "A", "a", "4"],
            Status::NotSealed,
            "cssign: refused mach.2.0.0\n",
        ),
        (&["sign", "A", "a", "8"], Status::Usage, usage),
        (&["cache"], Status::Usage, usage),
        (
            &["sign", "B", "a", "4"],
            Status::FileFault { item: 0 },
            "cssign: cannot read item 0\n",
        ),
        (
            &["cache", "A"],
            Status::NotSealed,
            "cssign: item 0 not sealed\n",
        ),
    ];
    for (words, status, text) in words {
        let (ended, written) = ended(alloc, words, "A", &[0x41; 4096])?;
        assert_eq!(rt; ended, status, "for {text:?}");
        assert_eq!(rt; written.as_slice(), text.as_bytes());
    }
    Ok(())
}

#[test]
fn signed_verified_listed_and_run(rt: HostRuntime) -> Result<(), Fail> {
    let alloc = rt.alloc();
    let file = thin_arm64(alloc)?;
    let signed = written(alloc, &["sign", "B", "b", "4"], "B", &file)?;
    assert_eq!(rt; signed.len(), 8624);
    let report = verify_text(alloc, &verify(alloc, &signed, &mut ShaDigester::new())?)?;
    assert_eq!(rt; report.as_slice(), REPORT.as_bytes());
    let cache = written(alloc, &["cache", "S"], "S", &signed)?;
    assert_eq!(rt; hex::encode(alloc, &cache)?.as_str(), TRUST_CACHE);
    let mut named = files(
        alloc,
        &[("B", &signed), ("T", &cache), ("s", SCENE.as_bytes())],
    )?;
    let mut out = MemSink::open(alloc, 4096, usize::MAX, Vec::new(alloc))?;
    let words = texts(alloc, &["s"])?;
    let status = csrun_main(&rt, alloc, &words, &mut named, &mut out, &OpenGate);
    assert_eq!(rt; status, Status::Done);
    assert_eq!(rt; out.bytes(), JOURNAL.as_bytes());
    Ok(())
}
