//! The marks of one page.

ghost use Rattle.std.specs.Prelude.{◌≡◌, ◌≤◌, ◌↔◌, IsTrue, Some, is_some, length};
ghost use Rattle.pg_pages.specs.Marks.{seal_of, blank, sealed, after};

use crate::row::Row;
use pg_digest::HashKind;
use std::marker::Model;

// Room for four digests of 48 bytes: a page has four parts at most, and no digest is longer.
pub(crate) const ROOM: usize = 192;

// The marks of one page. The digests that it was found sealed by stand in the value itself.
#[derive(Drop)]
pub(crate) struct Marking {
    validated: bool,
    kind: HashKind,
    part: u32,
    digests: [u8; ROOM],
    used: usize,
    tainted: bool,
    writable: bool,
}

impl Model for Marking {
    ghost use Rattle.std.specs.Prelude.{◌≤◌, take, Some, None, if◌then◌else◌};
    ghost use Rattle.pg_pages.specs.Marks.{Marks};

    ghost Value = { Marks };

    ghost view = { λ m. record {
      validated = if m.validated then Some (record { kind = m.kind; part = m.part; digests = take m.used m.digests }) else None;
      tainted = m.tainted;
      writable = m.writable;
    } };

    ghost invariant = { λ m. m.used ≤ 192 };
}

impl Marking {
    pub(crate) fn blank() -> Marking
        ensures { result ≡ blank }
    {
        Marking {
            validated: false,
            kind: HashKind::Sha256,
            part: 0,
            digests: [0; ROOM],
            used: 0,
            tainted: false,
            writable: false,
        }
    }

    // Whether the page was found sealed.
    pub(crate) fn is_sealed(&self) -> bool
        ensures { result ≡ is_some self.now.validated }
    {
        self.validated
    }

    // Whether the page was found sealed by just these digests.
    pub(crate) fn is_validated(&self, kind: HashKind, part: u32, wanted: &[u8]) -> bool
        ensures { IsTrue result ↔ (self.now.validated ≡ Some (seal_of kind part wanted.now)) }
    {
        self.validated
            && self.kind == kind
            && self.part == part
            && &self.digests[..self.used] == wanted
    }

    // The page was found sealed by these digests.
    pub(crate) fn seal(&mut self, kind: HashKind, part: u32, wanted: &[u8])
        requires { length wanted.now ≤ 192 }
        ensures { self.new ≡ sealed (seal_of kind part wanted.now) self.old }
    {
        self.tainted = false;
        self.validated = !self.writable;
        self.kind = kind;
        self.part = part;
        self.used = wanted.len();
        self.digests[..wanted.len()].copy_from_slice(wanted);
    }

    pub(crate) fn apply(&mut self, row: Row)
        ensures { self.new ≡ after row self.old }
    {
        match row {
            Row::FoundOther => {
                self.validated = false;
                self.tainted = true;
            }
            Row::Changed => {
                self.validated = false;
                self.tainted = false;
            }
            Row::MapsWritable => {
                self.validated = false;
                self.writable = true;
            }
            Row::ClearsWritable | Row::Enters => self.writable = false,
            Row::Goes => {
                self.validated = false;
                self.tainted = false;
                self.writable = false;
            }
        }
    }
}
