ghost use Rattle.std.specs.Prelude.{IsTrue};
ghost use Rattle.pg_io.specs.PageBytes.{is_page_size};

use crate::{
    DiskFiles, Failed, Files, Gate, MemFiles, MemPager, MemSink, Moment, NoMemory, OpenGate,
    PageBuffer, Pager, ReadFail, Sink, StdoutSink, write_whole,
};
use std::alloc::Global;
use std::process::Abort;
use std::test::Fail;
use std::{env, fs, process};

// A read through the bound.
fn read_is<R: Abort + AllocGlobal, F: Files>(
    rt: &R,
    files: &mut F,
    name: &str,
    most: u64,
    want: Result<&[u8], ReadFail>,
) {
    match files.read(rt.alloc(), name, most) {
        Ok(bytes) => assert_eq!(rt; Ok(bytes.as_slice()), want, "{name} to {most}"),
        Err(fail) => assert_eq!(rt; Err(fail), want, "{name} to {most}"),
    }
}

#[test]
fn memory_gives_its_files(rt: HostRuntime) -> Result<(), Fail> {
    let alloc = rt.alloc();
    let names = vec![in alloc;
        String::from_str(rt.alloc(), "a")?,
        String::from_str(rt.alloc(), "b")?,
        String::from_str(rt.alloc(), "a")?,
    ]?;
    let contents = vec![in rt.alloc();
        b"first".to_vec(rt.alloc())?,
        Vec::new(rt.alloc()),
        b"second".to_vec(rt.alloc())?,
    ]?;
    let mut files = MemFiles::new(names, contents, vec![in rt.alloc(); 9, 3]?);
    let reads = [
        ("a", 9, Ok(b"first".as_slice())),
        ("a", 2, Ok(b"fi")),
        ("a", 9, Err(ReadFail::Failed)),
        ("a", 0, Ok(b"")),
        ("b", 1, Ok(b"")),
        ("c", 9, Err(ReadFail::Failed)),
        ("", 9, Err(ReadFail::Failed)),
        ("a", u64::MAX, Ok(b"first")),
        ("b", 9, Err(ReadFail::Failed)),
        ("a", 5, Ok(b"first")),
    ];
    for (name, most, want) in reads {
        read_is(&rt, &mut files, name, most, want);
    }
    Ok(())
}

#[test]
fn memory_takes_what_has_room(rt: HostRuntime) -> Result<(), Fail> {
    let mut sink = MemSink::open(rt.alloc(), 7, 3, vec![in rt.alloc(); 2]?)?;
    let writes = [
        (b"abc".as_slice(), Ok(3), b"abc".as_slice()),
        (b"x", Err(Failed), b"abc"),
        (b"", Ok(0), b"abc"),
        (b"defg", Ok(3), b"abcdef"),
        (b"gh", Ok(1), b"abcdefg"),
        (b"h", Ok(0), b"abcdefg"),
    ];
    for (piece, want, so_far) in writes {
        assert_eq!(rt; sink.write(piece), want);
        assert_eq!(rt; sink.bytes(), so_far);
    }
    Ok(())
}

#[test]
fn the_whole_goes_out_in_pieces(rt: HostRuntime) -> Result<(), Fail> {
    // A sink that takes two bytes of a piece at most.
    let runs = [
        (9, 0, Ok(()), b"hello".as_slice()),
        (5, 0, Ok(()), b"hello"),
        (9, 1, Err(Failed), b""),
        (9, 3, Err(Failed), b"hell"),
        (9, 4, Ok(()), b"hello"),
        (3, 0, Err(Failed), b"hel"),
        (0, 0, Err(Failed), b""),
    ];
    for (room, fails, want, so_far) in runs {
        let mut sink = MemSink::open(rt.alloc(), room, 2, vec![in rt.alloc(); fails]?)?;
        let done = write_whole(&mut sink, b"hello");
        assert_eq!(rt; done, want, "room {room}, {fails} fails");
        assert_eq!(rt; sink.bytes(), so_far, "room {room}, {fails} fails");
    }
    let mut full = MemSink::open(rt.alloc(), 0, 1, vec![in rt.alloc(); 1]?)?;
    assert_eq!(rt; write_whole(&mut full, b""), Ok(()));
    Ok(())
}

// A read of one page through the bound: its first and its last byte.
fn ends_of<P: Pager>(
    alloc: Global,
    pager: &mut P,
    page: u64,
) -> Result<Option<(u8, u8)>, NoMemory> {
    let mut buffer = PageBuffer::zeros(alloc, pager.page_size())?;
    if page >= pager.pages() || buffer.read(pager, page).is_err() {
        return Ok(None);
    }
    match buffer.bytes() {
        [first, .., last] => Ok(Some((*first, *last))),
        _ => Ok(None),
    }
}

// A write of one page, all of whose bytes are 0 but for the last, which is this one; whether it was made.
fn end<P: Pager>(alloc: Global, pager: &mut P, page: u64, byte: u8) -> Result<bool, NoMemory> {
    let size = pager.page_size();
    let mut buffer = PageBuffer::zeros(alloc, size)?;
    if page >= pager.pages() {
        return Ok(false);
    }
    buffer.put(size - 1, &[byte]);
    Ok(pager.write_page(page, buffer.bytes()).is_ok())
}

// A pager of so many bytes 7, whose calls of these numbers fail.
fn sevens(alloc: Global, length: usize, page: u32, fails: [u64; 3]) -> Result<MemPager, NoMemory>
    requires { IsTrue (is_page_size page) }
{
    MemPager::new(
        vec![in alloc; 7; length]?,
        Vec::from_array(alloc, fails)?,
        page,
    )
}

#[test]
fn memory_holds_whole_pages(rt: HostRuntime) -> Result<(), Fail> {
    let small = [(0, 0), (1, 1), (4096, 1), (4097, 2), (16385, 5)];
    for (length, pages) in small {
        let pager = sevens(rt.alloc(), length, 4096, [0; 3])?;
        assert_eq!(rt; pager.pages(), pages, "{length} bytes");
        assert_eq!(rt; pager.length(), length as u64);
    }
    for (length, pages) in [(0, 0), (1, 1), (16384, 1), (16385, 2)] {
        let pager = sevens(rt.alloc(), length, 16384, [0; 3])?;
        assert_eq!(rt; pager.pages(), pages, "{length} bytes");
        assert_eq!(rt; pager.page_size(), 16384);
    }
    Ok(())
}

#[test]
fn reads_and_writes_are_counted_together(rt: HostRuntime) -> Result<(), Fail> {
    let alloc = rt.alloc();
    // Calls 2, 4 and 7 fail.
    let mut pager = sevens(alloc, 16385, 16384, [7, 2, 4])?;
    assert_eq!(rt; ends_of(alloc, &mut pager, 1), Ok(Some((7, 0))));
    assert_eq!(rt; end(alloc, &mut pager, 0, 1), Ok(false));
    assert_eq!(rt; ends_of(alloc, &mut pager, 0), Ok(Some((7, 7))));
    assert_eq!(rt; ends_of(alloc, &mut pager, 0), Ok(None));
    assert_eq!(rt; end(alloc, &mut pager, 1, 5), Ok(true));
    assert_eq!(rt; ends_of(alloc, &mut pager, 1), Ok(Some((0, 5))));
    assert_eq!(rt; ends_of(alloc, &mut pager, 0), Ok(None));
    assert_eq!(rt; ends_of(alloc, &mut pager, 0), Ok(Some((7, 7))));
    Ok(())
}

// A pass through the bound.
fn pass<G: Gate>(gate: &G) {
    gate.pass(0, 1, Moment::Inside);
    gate.pass(0, 1, Moment::Answered);
}

#[test]
fn an_open_gate_is_passed(rt: HostRuntime) {
    pass(&OpenGate);
    assert_ne!(rt; Moment::Inside, Moment::Answered);
}

#[test]
fn a_file_on_disk_is_read(rt: HostRuntime) -> Result<(), Fail> {
    let name = format!(in rt.alloc(); "pg_io-test-{}", process::id(rt.process()))?;
    let path = env::temp_dir(&rt)?.join(rt.alloc(), name.as_str())?;
    let path = path.to_str().ok_or("path")?;
    fs::write(&rt, path, b"on disk".as_slice())?;
    let mut files = DiskFiles::new(&rt);
    read_is(&rt, &mut files, path, 100, Ok(b"on disk"));
    read_is(&rt, &mut files, path, 2, Ok(b"on"));
    fs::remove_file(&rt, path)?;
    read_is(&rt, &mut files, path, 100, Err(ReadFail::Failed));
    Ok(())
}

#[test]
fn standard_output_takes_bytes(rt: HostRuntime) {
    let mut sink = StdoutSink::new(&rt);
    assert_eq!(rt; sink.write(b""), Ok(0));
    assert_eq!(rt; write_whole(&mut sink, b"out\n"), Ok(()));
}
