//! The marks of all pages of a file.

ghost use Rattle.std.specs.Prelude.{◌≡◌, ◌≤◌, ◌↔◌, IsTrue, Some, is_some, IfOk, length, replicate};
ghost use Rattle.pg_pages.specs.Marks.{seal_of, blank, marks_of, marked, marked_if, sealed_at};

use crate::NoMemory;
use crate::marking::Marking;
use crate::row::Row;
use pg_digest::HashKind;
use std::alloc::Global;
use std::marker::Model;

// The marks of each page, by page number.
#[derive(Drop)]
pub(crate) struct MarkTable {
    list: Vec<Marking>,
}

impl Model for MarkTable {
    ghost use Rattle.std.specs.Prelude.{List};
    ghost use Rattle.pg_pages.specs.Marks.{Marks};

    ghost Value = { List Marks };

    ghost view = { λ table. table.list.items };
}

impl MarkTable {
    // Blank marks of so many pages.
    pub(crate) fn open(alloc: Global, pages: u64) -> Result<MarkTable, NoMemory>
        ensures { IfOk result (λ table. table ≡ replicate pages blank) }
    {
        Ok(MarkTable {
            list: blanks(alloc, pages as usize)?,
        })
    }

    // Whether a page was found sealed.
    pub(crate) fn is_sealed(&self, page: u64) -> bool
        ensures { result ≡ is_some (marks_of self.now page).validated }
    {
        let place = page as usize;
        place < self.list.len() && self.list[place].is_sealed()
    }

    // Whether a page was found sealed by just these digests.
    pub(crate) fn is_validated(&self, page: u64, kind: HashKind, part: u32, wanted: &[u8]) -> bool
        ensures { IsTrue result ↔ ((marks_of self.now page).validated ≡ Some (seal_of kind part wanted.now)) }
    {
        let place = page as usize;
        place < self.list.len() && self.list[place].is_validated(kind, part, wanted)
    }

    // A page was found sealed by these digests.
    pub(crate) fn seal(&mut self, page: u64, kind: HashKind, part: u32, wanted: &[u8])
        requires { length wanted.now ≤ 192 }
        ensures { self.new ≡ sealed_at (seal_of kind part wanted.now) page self.old }
    {
        let place = page as usize;
        if place < self.list.len() {
            self.list[place].seal(kind, part, wanted);
        }
    }

    // What a call does to the marks of a page.
    pub(crate) fn apply(&mut self, page: u64, row: Row)
        ensures { self.new ≡ marked row page self.old }
    {
        let place = page as usize;
        if place < self.list.len() {
            self.list[place].apply(row);
        }
    }

    // The same of a page, if there is one.
    pub(crate) fn apply_if(&mut self, page: Option<u64>, row: Row)
        ensures { self.new ≡ marked_if row page self.old }
    {
        if let Some(page) = page {
            self.apply(page, row);
        }
    }
}

fn blanks(alloc: Global, count: usize) -> Result<Vec<Marking>, NoMemory>
    ensures { IfOk result (λ blanks. blanks.items ≡ replicate count blank) }
{
    let mut blanks = Vec::with_capacity(alloc, count)?;
    for _ in 0..count {
        blanks.push(Marking::blank())?;
    }
    Ok(blanks)
}
