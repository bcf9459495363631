//! Scenes opened over files in memory.

use super::*;
use cs_policy::{Layout, Refusal, SliceSeat};
use cs_samples::{TRUST_CACHE, put, put_be32, thin_arm64};
use pg_bytes::{Range, Status, Which};
use pg_io::{MemFiles, MemPager, Pager};
use std::alloc::Global;
use std::test::Fail;

/// Files of these names.
type Named<'a> = &'a [(&'a str, &'a [u8])];

/// Files in memory, of which the reads of these numbers fail.
fn files_of(alloc: Global, files: Named, fails: &[u64]) -> Result<MemFiles, Fail> {
    let mut names = Vec::new(alloc);
    let mut contents = Vec::new(alloc);
    for (name, bytes) in files {
        names.push(String::from_str(alloc, name)?)?;
        contents.push(bytes.to_vec(alloc)?)?;
    }
    if names.len() != contents.len() {
        return Err("names and contents".into());
    }
    Ok(MemFiles::new(names, contents, fails.to_vec(alloc)?))
}

/// Opens the scene in the file `s`.
fn open(alloc: Global, files: &mut MemFiles) -> Result<OpenScene, Status> {
    let scene = read_scene(alloc, "s", files)?;
    open_items(alloc, &scene, files)
}

/// How the opening of a scene of this text ends.
fn ending(alloc: Global, text: &[u8], files: Named, fails: &[u64]) -> Result<Status, Fail> {
    let mut all = Vec::new(alloc);
    all.push(("s", text))?;
    for file in files {
        all.push(*file)?;
    }
    let mut files = files_of(alloc, &all, fails)?;
    match open(alloc, &mut files) {
        Ok(_) => Ok(Status::Done),
        Err(status) => Ok(status),
    }
}

fn limit(which: Which, number: u64) -> Status {
    Status::Limit { which, number }
}

/// A scene with so many times this line.
fn lines(alloc: Global, before: &str, line: &str, times: usize) -> Result<Vec<u8>, Fail> {
    let mut text = Vec::from_slice(alloc, b"scene 1\n")?;
    text.extend_from_slice(before.as_bytes())?;
    for _ in 0..times {
        text.extend_from_slice(line.as_bytes())?;
    }
    Ok(text)
}

#[test]
fn bad_scenes(rt: HostRuntime) -> Result<(), Fail> {
    let alloc = rt.alloc();
    for (text, line, kind) in [
        ("", 1, 2),
        ("scene 1\npagesize 8192\n", 2, 8),
        (
            "scene 1\nraw A 12288 186\nprocess enforce\nscript\nspawn p0\n\
map p0 0x10000 f0 0 3 r-x private\nfault p0 0x10000\n",
            7,
            5,
        ),
    ] {
        let ended = ending(alloc, text.as_bytes(), &[], &[])?;
        assert_eq!(rt; ended, Status::SceneBad { line, kind }, "{text}");
    }
    Ok(())
}

#[test]
fn counts_of_lines(rt: HostRuntime) -> Result<(), Fail> {
    let alloc = rt.alloc();
    let spawns = "process none\nscript\n";
    let attaches = "file a\nscript\n";
    for (before, line, most, which) in [
        (spawns, "spawn p0\n", 4096, Which::Calls),
        ("", "script\n", 8, Which::Workers),
        ("", "file a\n", 16, Which::Files),
        ("", "raw a 0 0\n", 16, Which::Files),
        ("", "process none\n", 64, Which::Processes),
        ("", "static t\n", 64, Which::Statics),
        (
            "",
            "admit 000102030405060708090a0b0c0d0e0f10111213\n",
            64,
            Which::Statics,
        ),
        ("", "cache t\n", 64, Which::Caches),
        ("file a\n", "fail f0 1\n", 64, Which::Fails),
        (attaches, "attach f0 0\n", 64, Which::Attaches),
    ] {
        let files: Named = &[("a", b"".as_slice()), ("t", &TRUST_CACHE)];
        let at_most = lines(alloc, before, line, most)?;
        assert_eq!(rt;
            ending(alloc, &at_most, files, &[])?,
            Status::Done,
            "{line}"
        );
        let above = lines(alloc, before, line, most.saturating_add(1))?;
        let ended = ending(alloc, &above, files, &[])?;
        assert_eq!(rt; ended, limit(which, most as u64), "{line}");
    }
    Ok(())
}

#[test]
fn the_first_limit(rt: HostRuntime) -> Result<(), Fail> {
    let alloc = rt.alloc();
    let mut text = lines(alloc, "", "file a\n", 17)?;
    for _ in 0..9 {
        text.extend_from_slice(b"script\n")?;
    }
    assert_eq!(rt; ending(alloc, &text, &[], &[])?, limit(Which::Workers, 8));
    Ok(())
}

#[test]
fn long_scenes(rt: HostRuntime) -> Result<(), Fail> {
    let alloc = rt.alloc();
    let mut text = Vec::from_slice(alloc, b"scene 1\n#")?;
    text.resize(1_048_576, b' ')?;
    assert_eq!(rt; ending(alloc, &text, &[], &[])?, Status::Done);
    text.push(b' ')?;
    assert_eq!(rt;
        ending(alloc, &text, &[], &[])?,
        limit(Which::Scene, 1_048_576)
    );
    Ok(())
}

#[test]
fn reads_that_fail(rt: HostRuntime) -> Result<(), Fail> {
    let alloc = rt.alloc();
    let file = thin_arm64(alloc)?;
    let files: Named = &[("B", &file), ("T", &TRUST_CACHE)];
    let text =
        b"scene 1\n# the first item\n\nfile B\ncache T\nprocess enforce\nstatic T\n".as_slice();
    for (fails, status) in [
        ([0].as_slice(), Status::Done),
        (&[1], Status::FileFault { item: 0 }),
        (&[2], Status::FileFault { item: 1 }),
        (&[3], Status::FileFault { item: 2 }),
        (&[4], Status::FileFault { item: 4 }),
        (&[4, 3], Status::FileFault { item: 2 }),
        (&[5], Status::Done),
    ] {
        assert_eq!(rt; ending(alloc, text, files, fails)?, status, "{fails:?}");
    }
    let ended = ending(alloc, b"scene 1\nprocess none\nfile C\n", files, &[])?;
    assert_eq!(rt; ended, Status::FileFault { item: 2 });
    let mut none = files_of(alloc, files, &[])?;
    match read_scene(alloc, "s", &mut none) {
        Ok(_) => return Err("a scene without a file".into()),
        Err(status) => assert_eq!(rt; status, Status::FileFault { item: 0 }),
    }
    Ok(())
}

/// How the opening ends where the static trust cache of this item breaks this rule; there is no rule 0.
fn judged(item: u32, number: u8, arg: u64) -> Status {
    if number == 0 {
        return Status::Done;
    }
    Status::TrustBad { item, number, arg }
}

#[test]
fn trust_caches(rt: HostRuntime) -> Result<(), Fail> {
    let alloc = rt.alloc();
    let mut second = TRUST_CACHE.to_vec(alloc)?;
    put(&mut second, 0, &[2]);
    second.extend_from_slice(&[0, 0])?;
    let mut short = second.clone()?;
    short.truncate(47);
    let mut third = TRUST_CACHE.to_vec(alloc)?;
    put(&mut third, 0, &[3]);
    let mut falling = TRUST_CACHE.to_vec(alloc)?;
    put(&mut falling, 20, &[2]);
    falling.resize(68, 0)?;
    let mut long = TRUST_CACHE.to_vec(alloc)?;
    long.resize(2_000_000, 0)?;
    for (bytes, number, arg) in [
        (TRUST_CACHE.as_slice(), 0, 0),
        (&TRUST_CACHE[..45], 3, 0),
        (&TRUST_CACHE[..23], 1, 0),
        (&second, 0, 0),
        (&short, 3, 0),
        (&third, 2, 3),
        (&falling, 4, 1),
        (&long, 3, 0),
    ] {
        let files: Named = &[("T", &TRUST_CACHE), ("U", bytes)];
        assert_eq!(rt;
            ending(alloc, b"scene 1\nstatic U\n", files, &[])?,
            judged(1, number, arg)
        );
        let later = ending(alloc, b"scene 1\nstatic T\ncache U\nstatic U\n", files, &[])?;
        assert_eq!(rt; later, judged(3, number, arg));
        let loadable = ending(alloc, b"scene 1\ncache U\n", files, &[])?;
        assert_eq!(rt; loadable, Status::Done);
    }
    Ok(())
}

/// What a seat says, as four numbers: where the slice begins and how long it is, and the same of its signature; or the
/// family and the number of its refusal.
fn numbers(seat: &SliceSeat) -> [u64; 4] {
    match seat {
        SliceSeat::Signed { slice, sig } => [slice.at, slice.len, sig.at, sig.len],
        SliceSeat::Refused(refusal) => [
            u64::from(refusal.family),
            u64::from(refusal.number),
            refusal.a,
            refusal.b,
        ],
    }
}

/// The seats of the one file of a scene of this text, or what its refusal says.
fn seats(alloc: Global, text: &[u8], bytes: &[u8]) -> Result<Vec<[u64; 4]>, Fail> {
    let mut files = files_of(alloc, &[("s", text), ("F", bytes)], &[])?;
    let Ok(opened) = open(alloc, &mut files) else {
        return Err("not opened".into());
    };
    let mut found = Vec::new(alloc);
    for layout in &opened.layouts {
        match layout {
            Layout::Slices(seats) => {
                for seat in seats.items() {
                    found.push(numbers(seat))?;
                }
            }
            Layout::Refused(refusal) => found.push(numbers(&SliceSeat::Refused(*refusal)))?,
        }
    }
    Ok(found)
}

/// A fat file of two records: the thin file at 4,096 and at 16,384.
fn fat(alloc: Global) -> Result<Vec<u8>, Fail> {
    let thin = thin_arm64(alloc)?;
    let mut bytes = vec![in alloc; 0_u8; 24_904]?;
    for (at, number) in [
        (0, 0xcafe_babe),
        (4, 2),
        (8, 0x0100_000c),
        (16, 4096),
        (20, 8520),
        (28, 0x0100_000c),
        (36, 16_384),
        (40, 8520),
    ] {
        put_be32(&mut bytes, at, number);
    }
    put(&mut bytes, 4096, &thin);
    put(&mut bytes, 16_384, &thin);
    Ok(bytes)
}

#[test]
fn slices_of_files(rt: HostRuntime) -> Result<(), Fail> {
    let alloc = rt.alloc();
    let thin = thin_arm64(alloc)?;
    let fat = fat(alloc)?;
    let mut askew = fat.clone()?;
    put_be32(&mut askew, 16, 4352);
    put(&mut askew, 4352, &thin);
    let signed = [[4096, 8520, 12_400, 216], [16_384, 8520, 24_688, 216]];
    for (text, bytes, wanted) in [
        (
            "scene 1\nfile F\n",
            thin.as_slice(),
            [[0, 8520, 8304, 216]].as_slice(),
        ),
        ("scene 1\nfile F\n", &fat, &signed),
        ("scene 1\nfile F\n", &askew, &[[2, 8, 0, 0], signed[1]]),
        ("scene 1\nfile F\n", &[], &[[1, 1, 0, 0]]),
        (
            "scene 1\nfile F\n",
            &[0xca, 0xfe, 0xba, 0xbe, 0, 0, 0, 0],
            &[],
        ),
        ("scene 1\nraw F 8304 216\n", &thin, &[[0, 8520, 8304, 216]]),
        ("scene 1\nraw F 8305 216\n", &thin, &[[2, 7, 0, 0]]),
        (
            "scene 1\nraw F 4294967295 4294967295\n",
            &thin,
            &[[2, 7, 0, 0]],
        ),
        ("scene 1\nraw F 0 0\n", &[], &[[0, 0, 0, 0]]),
    ] {
        let found = seats(alloc, text.as_bytes(), bytes)?;
        assert_eq!(rt; found.as_slice(), wanted, "{text}");
    }
    Ok(())
}

#[test]
fn bytes_of_signatures(rt: HostRuntime) -> Result<(), Fail> {
    let alloc = rt.alloc();
    let bytes = vec![in alloc; 0_u8; 1_048_578]?;
    let above = limit(Which::SignatureBytes, 1_048_576);
    for (text, status) in [
        ("scene 1\nraw F 0 1048576\n", Status::Done),
        ("scene 1\nraw F 0 1048577\n", above),
        ("scene 1\nraw F 1 1048577\n", above),
        ("scene 1\nraw F 2 1048577\n", Status::Done),
    ] {
        let ended = ending(alloc, text.as_bytes(), &[("F", &bytes)], &[])?;
        assert_eq!(rt; ended, status, "{text}");
    }
    Ok(())
}

/// How the opening of a file of so many bytes ends.
fn ending_of_size(alloc: Global, text: &[u8], size: usize) -> Result<Status, Fail> {
    let names = vec![in alloc;
        String::from_str(alloc, "s")?,
        String::from_str(alloc, "F")?,
    ]?;
    let contents = vec![in alloc; text.to_vec(alloc)?, vec![in alloc; 0_u8; size]?]?;
    if names.len() != contents.len() {
        return Err("names and contents".into());
    }
    let mut files = MemFiles::new(names, contents, Vec::new(alloc));
    match open(alloc, &mut files) {
        Ok(_) => Ok(Status::Done),
        Err(status) => Ok(status),
    }
}

#[test]
fn bytes_of_files(rt: HostRuntime) -> Result<(), Fail> {
    let alloc = rt.alloc();
    let most = ending_of_size(alloc, b"scene 1\nraw F 0 0\n", 67_108_864)?;
    assert_eq!(rt; most, Status::Done);
    let above = ending_of_size(alloc, b"scene 1\nraw F 0 1048577\n", 67_108_865)?;
    assert_eq!(rt; above, limit(Which::FileBytes, 67_108_864));
    Ok(())
}

/// Whether a read of the first page into this one succeeds.
fn reads_first(pager: &mut MemPager, page: &mut [u8]) -> bool {
    if pager.pages() == 0 || page.len() != pager.page_size() as usize {
        return false;
    }
    pager.read_page(0, page).is_ok()
}

#[test]
fn parts_of_a_scene(rt: HostRuntime) -> Result<(), Fail> {
    let alloc = rt.alloc();
    let text = b"scene 1\npagesize 16384\nresident 7\npolicy adhoc\nfile B\nraw Z 0 0\nstatic T\n\
admit 000102030405060708090a0b0c0d0e0f10111213\ncache T\ncache Z\nfail f1 2\nfail f0 3\nfail f1 1\n"
        .as_slice();
    let thin = thin_arm64(alloc)?;
    let zeros = [0_u8; 16_385];
    let files: Named = &[
        ("s", text),
        ("B", &thin),
        ("Z", &zeros),
        ("T", &TRUST_CACHE),
    ];
    let mut files = files_of(alloc, files, &[])?;
    let Ok(scene) = read_scene(alloc, "s", &mut files) else {
        return Err("not read".into());
    };
    assert_eq!(rt; page_size(&scene), 16_384);
    assert_eq!(rt; resident(&scene), 7);
    assert!(rt; is_adhoc(&scene));
    let Ok(mut opened) = open_items(alloc, &scene, &mut files) else {
        return Err("not opened".into());
    };
    assert_eq!(rt; opened.trust.fixed().len(), 2);
    assert_eq!(rt; opened.layouts.len(), 2);
    let mut page = vec![in alloc; 0_u8; 16_384]?;
    for (pager, (length, pages, first)) in opened
        .files
        .iter_mut()
        .zip([(8520, 1, true), (16_385, 2, false)])
    {
        assert_eq!(rt; pager.length(), length);
        assert_eq!(rt; pager.pages(), pages);
        assert_eq!(rt; reads_first(pager, &mut page), first);
        assert_eq!(rt; reads_first(pager, &mut page), first);
        assert_eq!(rt; reads_first(pager, &mut page), !first);
    }
    Ok(())
}

#[test]
fn the_least_scene(rt: HostRuntime) -> Result<(), Fail> {
    let alloc = rt.alloc();
    let mut files = files_of(alloc, &[("s", b"scene 1")], &[])?;
    let Ok(scene) = read_scene(alloc, "s", &mut files) else {
        return Err("not read".into());
    };
    assert_eq!(rt; page_size(&scene), 4096);
    assert_eq!(rt; resident(&scene), 4096);
    assert!(rt; !is_adhoc(&scene));
    let Ok(opened) = open_items(alloc, &scene, &mut files) else {
        return Err("not opened".into());
    };
    assert_eq!(rt; opened.files.len(), 0);
    assert_eq!(rt; opened.trust.fixed().len(), 0);
    Ok(())
}
