//! What a file gives to its signature.

ghost use Rattle.std.specs.Prelude.{◌≡◌, ◌<◌, ◌^◌, ◌+◌, ◌==◌, length, nat_lt, position, find};
ghost use Rattle.cs_sign.specs.Plans.{is_named, linkedit_name, text_name, exec_of};

use macho_cmds::Segment;

/// The name of the segment that ends with the signature, with zero bytes behind it.
const LINKEDIT: [u8; 16] = *b"__LINKEDIT\0\0\0\0\0\0";

/// The name of the segment of a program's code.
const TEXT: [u8; 16] = *b"__TEXT\0\0\0\0\0\0\0\0\0\0";

/// The file type of a program.
const PROGRAM: u32 = 2;

/// What a file gives to its signature. Places count from the file's first byte.
#[derive(Clone, Copy)]
pub(crate) struct Plan {
    /// How many bytes are signed: those before the signature.
    pub limit: u64,
    /// Where the load command of the signature begins.
    pub signature: u64,
    /// The first segment named `__LINKEDIT`.
    pub linkedit: Segment,
    /// What the code directory says of the program's code.
    pub exec: Exec,
}

/// What a code directory says of the program's code.
#[derive(Clone, Copy)]
pub(crate) struct Exec {
    /// Where its segment begins in the file.
    pub base: u64,
    /// How many bytes of the file the segment has.
    pub limit: u64,
    /// 1 where the file is a program, and else 0.
    pub flags: u64,
}

/// The place of the first segment named `__LINKEDIT`, counted from 0.
pub(crate) fn linkedit_place(segments: &[Segment]) -> Option<usize>
    ensures { result ≡ position (is_named linkedit_name) segments.now }
{
    segments.iter().position(|segment| segment.name == LINKEDIT)
}

/// The first segment named `__TEXT`.
fn text_segment(segments: &[Segment]) -> Option<Segment>
    ensures { result ≡ find (is_named text_name) segments.now }
{
    segments
        .iter()
        .copied()
        .find(|segment| segment.name == TEXT)
}

/// What the code directory says of the program's code, for a file of this type.
pub(crate) fn exec_of(segments: &[Segment], filetype: u32) -> Exec
    ensures { result ≡ exec_of segments.now filetype }
{
    let flags = u64::from(filetype == PROGRAM);
    match text_segment(segments) {
        Some(text) => Exec {
            base: text.fileoff,
            limit: text.filesize,
            flags,
        },
        None => Exec {
            base: 0,
            limit: 0,
            flags,
        },
    }
}

/// Whether the bytes of a segment end behind a place.
pub(crate) fn ends_behind(segment: &Segment, place: u64) -> bool
    ensures { result ≡ nat_lt place (segment.now.fileoff + segment.now.filesize) }
{
    match segment.fileoff.checked_add(segment.filesize) {
        Some(end) => end > place,
        None => true,
    }
}

/// Whether the bytes of a segment end at a place.
pub(crate) fn ends_at(segment: &Segment, place: u64) -> bool
    ensures { result ≡ (segment.now.fileoff + segment.now.filesize == place) }
{
    match segment.fileoff.checked_add(segment.filesize) {
        Some(end) => end == place,
        None => false,
    }
}
