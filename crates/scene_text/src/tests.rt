use super::*;
use std::alloc::Global;
use std::test::Fail;

/// Reads a scene, and prints it in its one form.
fn printed(alloc: Global, text: &str) -> Result<String, Fail> {
    let scene = scene(alloc, text.as_bytes())?;
    let bytes = print(alloc, &scene)?;
    String::from_utf8(bytes).map_err(|_| "no text".into())
}

/// The first bad line of a text and its kind, or two zeros where it is a scene.
fn bad(alloc: Global, text: &[u8]) -> Result<(u64, u8), Fail> {
    match scene(alloc, text) {
        Ok(_) => Ok((0, 0)),
        Err(SceneFail::Bad { line, kind }) => Ok((line, kind)),
        Err(SceneFail::NoMemory) => Err("no memory".into()),
    }
}

#[test]
fn a_scene_is_printed_as_it_was(rt: HostRuntime) -> Result<(), Fail> {
    let text =
        "scene 1\nfile B\ncache T\nprocess enforce\nscript\nloadtrust c0\nattach f0 0\nspawn p0\n\
map p0 0x100000000 f0 0 2 r-x private\nfault p0 0x100000000 x\nfault p0 0x100001000 x\n";
    assert_eq!(rt; printed(rt.alloc(), text)?.as_str(), text);
    assert_eq!(rt; printed(rt.alloc(), "scene 1")?.as_str(), "scene 1\n");
    Ok(())
}

#[test]
fn comments_and_empty_lines_are_skipped(rt: HostRuntime) -> Result<(), Fail> {
    let text = "scene 1\n\n# a comment\n#\nfile B\n\nscript\n# another\nattach f0 1\n\n";
    let wanted = "scene 1\nfile B\nscript\nattach f0 1\n";
    assert_eq!(rt; printed(rt.alloc(), text)?.as_str(), wanted);
    assert_eq!(rt; bad(rt.alloc(), b"scene 1\n#\xff\x00\n")?, (0, 0));
    assert_eq!(rt; bad(rt.alloc(), b"#\xff\nscene 1\n")?, (1, 1));
    assert_eq!(rt; bad(rt.alloc(), b"# scene 1\n")?, (1, 2));
    Ok(())
}

/// A text of so many bytes: what stands before, then one byte again and again, and LF.
fn padded(alloc: Global, before: &[u8], byte: u8, count: usize) -> Result<Vec<u8>, Fail> {
    let mut text = Vec::from_slice(alloc, before)?;
    text.resize(count, byte)?;
    text.push(b'\n')?;
    Ok(text)
}

#[test]
fn data_of_the_most_bytes(rt: HostRuntime) -> Result<(), Fail> {
    let before = b"scene 1\nfile B\nscript\nwrite f0 0 ";
    let most = padded(rt.alloc(), before, b'0', 131_105)?;
    assert!(rt; scene(rt.alloc(), &most).is_ok());
    let more = padded(rt.alloc(), before, b'0', 131_107)?;
    assert_eq!(rt; bad(rt.alloc(), &more)?, (4, 8));
    Ok(())
}

#[test]
fn a_scene_of_a_mebibyte(rt: HostRuntime) -> Result<(), Fail> {
    let text = padded(rt.alloc(), b"scene 1\nscript\n#", b'#', 1_048_575)?;
    let scene = scene(rt.alloc(), &text)?;
    assert_eq!(rt;
        print(rt.alloc(), &scene)?.as_slice(),
        b"scene 1\nscript\n".as_slice()
    );
    Ok(())
}
