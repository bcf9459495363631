//! The header lines of a scene.

ghost use Rattle.std.specs.Prelude.{◌≡◌};

use cs_policy::ProcFlags;
use pg_bytes::Octets;
use std::marker::Model;

/// A header line of a scene. Files, processes and trust caches are numbered from 0 in the order of their lines.
#[derive(Debug, Drop)]
pub enum Head {
    /// A page has `bytes` bytes, 4,096 or 16,384: `pagesize N`.
    PageSize { bytes: u32 },
    /// A blob whose directory says ADHOC may be attached though no trust cache lists it: `policy adhoc`.
    Adhoc,
    /// Of each file at most so many pages are in memory, 1 to 4,096: `resident N`.
    Resident { pages: u32 },
    /// A file that is read as Mach-O: `file PATH`.
    File { path: Octets },
    /// A file that is one slice, with its signature at `off`, `len` bytes long: `raw PATH OFF LEN`.
    Raw { path: Octets, off: u64, len: u64 },
    /// A trust cache that is a static module: `static PATH`.
    Static { path: Octets },
    /// A static module of one entry: `admit CDHASH`.
    Admit { cdhash: [u8; 20] },
    /// A trust cache that a script may load: `cache PATH`.
    Cache { path: Octets },
    /// A process with the flags with which it starts: `process FLAGS`.
    Process { flags: ProcFlags },
    /// The pager call of this number of a file fails, counted from 1: `fail fF K`.
    Fail { file: u32, call: u64 },
}

/// Header lines, seen as a list in the order of the scene.
#[derive(Debug, Drop)]
pub struct Heads {
    items: Vec<Head>,
}

impl Model for Heads {
    ghost use Rattle.std.specs.Prelude.{List};
    ghost use Rattle.scene_text.specs.declared.head.Head.{Head};

    ghost Value = { List Head };

    ghost view = { λ heads. heads.items.items };
}

impl Heads {
    /// The lines of a vector, which it takes over; no memory is taken.
    pub fn new(items: Vec<Head>) -> Heads
        ensures { result ≡ items.items }
    {
        Heads { items }
    }

    /// The lines.
    pub fn items(&self) -> &[Head]
        ensures { result.now ≡ self.now }
    {
        &self.items
    }
}
