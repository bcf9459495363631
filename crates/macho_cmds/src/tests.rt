ghost use Rattle.std.specs.Prelude.{◌≡◌};
ghost use Rattle.macho_cmds.specs.Refusals.{refusal_of};

use super::*;
use MachRefusal::*;
use cs_policy::Refusal;
use cs_samples::{COMMANDS, put, thin_arm64};
use pg_bytes::Range;
use std::alloc::Global;
use std::test::Fail;

/// The image in the bytes from a place on.
fn image_at(alloc: Global, bytes: &[u8], at: u64) -> Result<Image, MachFail> {
    let Some(len) = (bytes.len() as u64).checked_sub(at) else {
        return Err(MachFail::Refused(Short));
    };
    image(alloc, bytes, &Range { at, len })
}

/// Why the bytes from a place on are refused, or none where they are accepted.
fn refusal_at(alloc: Global, bytes: &[u8], at: u64) -> Result<Option<MachRefusal>, MachFail> {
    match image_at(alloc, bytes, at) {
        Ok(_) => Ok(None),
        Err(MachFail::Refused(refusal)) => Ok(Some(refusal)),
        Err(MachFail::NoMemory) => Err(MachFail::NoMemory),
    }
}

/// The same of all bytes.
fn refusal(alloc: Global, bytes: &[u8]) -> Result<Option<MachRefusal>, MachFail> {
    refusal_at(alloc, bytes, 0)
}

fn command_bad(index: u64) -> Option<MachRefusal> {
    Some(CommandBad { index })
}

fn segment_bad(index: u64) -> Option<MachRefusal> {
    Some(SegmentBad { index })
}

#[test]
fn fields_of_a_thin_file(rt: HostRuntime) -> Result<(), Fail> {
    let mut bytes = thin_arm64(rt.alloc())?;
    put(&mut bytes, 92, &[5, 0, 0, 0]);
    let found = image_at(rt.alloc(), &bytes, 0)?;
    assert_eq!(rt;
        (found.cputype, found.cpusubtype, found.filetype),
        (0x0100_000c, 0, 2)
    );
    assert_eq!(rt; found.sig, Range { at: 8304, len: 216 });
    assert_eq!(rt; found.sig_at, 176);
    assert_eq!(rt;
        found.segments.items(),
        [
            Segment {
                at: 32,
                name: *b"__TEXT\0\0\0\0\0\0\0\0\0\0",
                fileoff: 0,
                filesize: 8192,
                initprot: 5,
            },
            Segment {
                at: 104,
                name: *b"__LINKEDIT\0\0\0\0\0\0",
                fileoff: 8192,
                filesize: 328,
                initprot: 0,
            },
        ]
        .as_slice()
    );
    Ok(())
}

#[test]
fn cut(rt: HostRuntime) -> Result<(), Fail> {
    let bytes = thin_arm64(rt.alloc())?;
    assert_eq!(rt; bytes.len(), 8520);
    for (length, _) in bytes.iter().enumerate() {
        let expected = match length {
            0..192 => Some(Short),
            192..8192 => segment_bad(0),
            _ => segment_bad(1),
        };
        assert_eq!(rt;
            refusal(rt.alloc(), &bytes[..length])?,
            expected,
            "{length} bytes"
        );
    }
    assert_eq!(rt; refusal(rt.alloc(), &bytes)?, None);
    Ok(())
}

#[test]
fn numbers(rt: HostRuntime) -> Result<(), Fail> {
    let most = u32::MAX;
    let out = Some(SignatureOutOfSlice);
    for (at, number, expected) in [
        // The magic; that of 32 bits, and the other byte order.
        (0, 0, Some(BadMagic)),
        (0, most, Some(BadMagic)),
        (0, 0xfeed_face, Some(BadMagic)),
        (0, 0xcffa_edfe, Some(BadMagic)),
        // CPU type and subtype, file type, flags and the reserved number.
        (4, 0, None),
        (4, most, None),
        (8, most, None),
        (12, 0, None),
        (12, most, None),
        (24, most, None),
        (28, most, None),
        // The number of commands, and their size.
        (16, 0, Some(NoSignature)),
        (16, 2, Some(NoSignature)),
        (16, 4, command_bad(3)),
        (16, most, command_bad(3)),
        (20, 0, command_bad(0)),
        (20, 71, command_bad(0)),
        (20, 72, command_bad(1)),
        (20, 159, command_bad(2)),
        (20, 161, None),
        (20, 8488, None),
        (20, 8489, Some(Short)),
        (20, most, Some(Short)),
        // The first command: its kind, then its size.
        (32, 0, None),
        (32, most, None),
        (32, 0x1d, command_bad(0)),
        (36, 0, command_bad(0)),
        (36, 7, command_bad(0)),
        (36, 8, segment_bad(0)),
        (36, 64, segment_bad(0)),
        (36, 68, command_bad(0)),
        (36, 71, command_bad(0)),
        (36, 160, command_bad(1)),
        (36, 168, command_bad(0)),
        (36, most - 7, command_bad(0)),
        (36, most, command_bad(0)),
        // Its greatest protection and its flags.
        (88, most, None),
        (100, most, None),
        // How many sections the segments have; with 0x10000000 their size would wrap to 0.
        (96, 1, segment_bad(0)),
        (96, most, segment_bad(0)),
        (168, 1, segment_bad(1)),
        (168, 0x1000_0000, segment_bad(1)),
        (168, most, segment_bad(1)),
        // The command of the signature.
        (176, 0, Some(NoSignature)),
        (176, most, Some(NoSignature)),
        (180, 0, command_bad(2)),
        (180, 8, command_bad(2)),
        (180, 17, command_bad(2)),
        (180, 24, command_bad(2)),
        (180, most, command_bad(2)),
        (184, 0, None),
        (184, 8305, out),
        (184, most, out),
        (188, 0, None),
        (188, 217, out),
        (188, most, out),
    ] {
        let mut bytes = thin_arm64(rt.alloc())?;
        put(&mut bytes, at, &number.to_le_bytes());
        assert_eq!(rt; refusal(rt.alloc(), &bytes)?, expected, "{number} at {at}");
    }
    Ok(())
}

#[test]
fn long_numbers(rt: HostRuntime) -> Result<(), Fail> {
    let most = u64::MAX;
    for (at, number, expected) in [
        // Where the first segment is mapped, and over how many bytes.
        (56, most, None),
        (64, most, None),
        // Where its bytes begin in the slice, and how many there are.
        (72, 328, None),
        (72, 329, segment_bad(0)),
        (72, most, segment_bad(0)),
        (80, 0, None),
        (80, 8520, None),
        (80, 8521, segment_bad(0)),
        (80, most, segment_bad(0)),
        // The same of the second: a sum that wraps would be 327.
        (144, 0, None),
        (144, 8193, segment_bad(1)),
        (144, most, segment_bad(1)),
        (152, 0, None),
        (152, 329, segment_bad(1)),
        (152, most, segment_bad(1)),
    ] {
        let mut bytes = thin_arm64(rt.alloc())?;
        put(&mut bytes, at, &number.to_le_bytes());
        assert_eq!(rt; refusal(rt.alloc(), &bytes)?, expected, "{number} at {at}");
    }
    Ok(())
}

#[test]
fn two_signatures(rt: HostRuntime) -> Result<(), Fail> {
    // Six commands: the second and the sixth are of signatures, and three of another kind are between them.
    let mut bytes = thin_arm64(rt.alloc())?;
    put(&mut bytes, 104, b"\x1d\0\0\0\x10\0\0\0\0\0\0\0\0\0\0\0");
    put(&mut bytes, 120, b"\0\0\0\0\x18\0\0\0");
    put(&mut bytes, 144, b"\0\0\0\0\x10\0\0\0");
    put(&mut bytes, 160, b"\0\0\0\0\x10\0\0\0");
    for (count, expected) in [
        (5, None),
        (6, Some(TwoSignatures)),
        (7, Some(TwoSignatures)),
    ] {
        put(&mut bytes, 16, &[count]);
        assert_eq!(rt; refusal(rt.alloc(), &bytes)?, expected, "{count} commands");
    }
    Ok(())
}

#[test]
fn sections(rt: HostRuntime) -> Result<(), Fail> {
    // Two commands in 168 bytes: a segment with room for one section, and the signature.
    let mut bytes = thin_arm64(rt.alloc())?;
    put(&mut bytes, 16, &[2, 0, 0, 0, 168]);
    put(&mut bytes, 36, &[152]);
    put(
        &mut bytes,
        184,
        b"\x1d\0\0\0\x10\0\0\0\x70\x20\0\0\xd8\0\0\0",
    );
    for (count, expected) in [(0, None), (1, None), (2, segment_bad(0))] {
        put(&mut bytes, 96, &[count]);
        assert_eq!(rt; refusal(rt.alloc(), &bytes)?, expected, "{count} sections");
    }
    Ok(())
}

#[test]
fn slices_at_pages(rt: HostRuntime) -> Result<(), Fail> {
    let bytes = thin_arm64(rt.alloc())?;
    for (before, expected) in [
        (0, None),
        (1, Some(SliceMisaligned)),
        (2048, Some(SliceMisaligned)),
        (4095, Some(SliceMisaligned)),
        (4096, None),
        (16384, None),
    ] {
        let mut file = Vec::new(rt.alloc());
        file.resize(before, 0xff)?;
        file.extend_from_slice(&bytes)?;
        assert_eq!(rt;
            refusal_at(rt.alloc(), &file, before as u64)?,
            expected,
            "at {before}"
        );
    }
    // Behind the page the places count from the slice's start, and the magic is tried before the page.
    let mut file = Vec::new(rt.alloc());
    file.resize(4096, 0xff)?;
    file.extend_from_slice(&bytes)?;
    let found = image_at(rt.alloc(), &file, 4096)?;
    assert_eq!(rt; (found.sig.at, found.sig_at), (8304, 176));
    assert_eq!(rt; refusal_at(rt.alloc(), &file, 4095)?, Some(BadMagic));
    Ok(())
}

#[test]
fn more_commands_than_bytes(rt: HostRuntime) -> Result<(), Fail> {
    // Ten thousand commands of eight bytes, and a header that gives the most there could be.
    let mut bytes = COMMANDS[..32].to_vec(rt.alloc())?;
    put(&mut bytes, 16, b"\xff\xff\xff\xff\x80\x38\x01\0");
    for _ in 0..10_000 {
        bytes.extend_from_slice(b"\0\0\0\0\x08\0\0\0")?;
    }
    assert_eq!(rt; refusal(rt.alloc(), &bytes)?, command_bad(10_000));
    Ok(())
}

/// The refusal in numbers, by the conversion's contract.
fn told(refusal: MachRefusal) -> Refusal
    ensures { result ≡ refusal_of refusal }
{
    refusal.into()
}

#[test]
fn printed_refusals(rt: HostRuntime) -> Result<(), Fail> {
    for (refusal, text) in [
        (Short, "mach.1.0.0"),
        (BadMagic, "mach.2.0.0"),
        (CommandBad { index: 3 }, "mach.3.3.0"),
        (SegmentBad { index: 1 }, "mach.4.1.0"),
        (NoSignature, "mach.5.0.0"),
        (TwoSignatures, "mach.6.0.0"),
        (SignatureOutOfSlice, "mach.7.0.0"),
        (SliceMisaligned, "mach.8.0.0"),
    ] {
        let printed = told(refusal).to_string(rt.alloc())?;
        assert_eq!(rt; printed.as_str(), text);
    }
    Ok(())
}
