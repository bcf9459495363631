//! What an image says.

use crate::segment::Segments;
use pg_bytes::Range;

/// What the header and the load commands of an image say. Places count from the slice's first byte.
#[derive(Debug, Drop)]
pub struct Image {
    /// The architecture, `CPU_TYPE_*` of `mach/machine.h`: 0x01000007 is x86_64 and 0x0100000c is arm64.
    pub cputype: u32,
    /// The variant of the architecture, `CPU_SUBTYPE_*`.
    pub cpusubtype: u32,
    /// What the image is for, `MH_*` of `mach-o/loader.h`: 2 is a program, 6 a library, 7 a linker and 8 a bundle.
    pub filetype: u32,
    /// The segments, in the order of their load commands.
    pub segments: Segments,
    /// Where the code signature lies.
    pub sig: Range,
    /// Where the load command begins that says so.
    pub sig_at: u64,
}
