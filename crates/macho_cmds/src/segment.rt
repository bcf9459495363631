//! The segments of an image.

ghost use Rattle.std.specs.Prelude.{◌≡◌};

use std::marker::Model;

/// What a segment command says: a part of the file that is mapped when the image is loaded.
#[derive(Clone, Copy, Debug, PartialEq, Eq)]
pub struct Segment {
    /// Where the load command begins, counted from the slice's first byte.
    pub at: u64,
    /// The name, as `__TEXT`, with zero bytes behind it.
    pub name: [u8; 16],
    /// Where the bytes that are mapped begin, counted from the slice's first byte.
    pub fileoff: u64,
    /// How many bytes are mapped.
    pub filesize: u64,
    /// The protection that the mapping begins with, `VM_PROT_*` of `mach/vm_prot.h`.
    pub initprot: u32,
}

/// The segments of an image, in the order of their load commands.
///
/// Contracts see them as a list.
#[derive(Debug, Drop)]
pub struct Segments {
    list: Vec<Segment>,
}

impl Model for Segments {
    ghost use Rattle.std.specs.Prelude.{List};
    ghost use Rattle.macho_cmds.specs.declared.segment.Segment.{Segment};

    ghost Value = { List Segment };

    ghost view = { λ s. s.list.items };
}

impl Segments {
    /// The segments of a vector, which it takes over; no memory is taken.
    pub fn new(items: Vec<Segment>) -> Segments
        ensures { result ≡ items.items }
    {
        Segments { list: items }
    }

    /// The segments.
    pub fn items(&self) -> &[Segment]
        ensures { result.now ≡ self.now }
    {
        &self.list
    }
}
