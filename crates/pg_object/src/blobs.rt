//! The attached signatures of a file.

ghost use Rattle.std.specs.Prelude.{◌≡◌, ◌+◌, ◌<◌, ◌≤◌, [], ◌∷◌, ◌++◌, IfOk, IsTrue, length, nat_le, position};
ghost use Rattle.pg_bytes.specs.PageSize.{is_page_size};
ghost use Rattle.pg_plain.specs.Covers.{share_a_page};
ghost use Rattle.pg_plain.specs.Steps.{is_same_blob};

use crate::NoMemory;
use crate::kept::{Kept, end_covered, first_covered};
use cs_blob::Blob;
use std::alloc::Global;
use std::marker::Model;

/// How many signatures a file can have.
const MOST: usize = 64;

// The attached signatures, in the order of attaching, with room for `MOST`.
#[derive(Drop)]
pub(crate) struct Blobs {
    list: Vec<Kept>,
}

impl Model for Blobs {
    ghost use Rattle.std.specs.Prelude.{List, ◌≤◌, vec_capacity};
    ghost use Rattle.pg_plain.specs.PlainFile.{Attached};

    ghost Value = { List Attached };

    ghost view = { λ blobs. blobs.list.items };

    ghost invariant = { λ blobs. 64 ≤ vec_capacity blobs.list };
}

// The first page that two signatures cover is below the end of both.
fn share_a_page(one: &Blob, other: &Blob, size: u32) -> bool
    requires { IsTrue (is_page_size size) }
    ensures { result ≡ share_a_page size one.now other.now }
{
    let first = first_covered(one, size).max(first_covered(other, size));
    first < end_covered(one, size).min(end_covered(other, size))
}

impl Blobs {
    // No signatures. The memory for all that can be attached is taken here.
    pub(crate) fn open(alloc: Global) -> Result<Blobs, NoMemory>
        ensures { IfOk result (λ blobs. blobs ≡ []) }
    {
        Ok(Blobs {
            list: Vec::with_capacity(alloc, MOST)?,
        })
    }

    // The number of the attached signature that is of the slice and has the cdhash.
    pub(crate) fn same(&self, slice: u32, cdhash: &[u8; 20]) -> Option<usize>
        ensures { result ≡ position (is_same_blob slice cdhash.now) self.now }
    {
        self.list
            .iter()
            .position(|kept| kept.slice == slice && kept.blob.cdhash() == cdhash)
    }

    // The least number of an attached signature that covers a page that this one covers.
    pub(crate) fn overlapping(&self, blob: &Blob, size: u32) -> Option<usize>
        requires { IsTrue (is_page_size size) }
        ensures { result ≡ position (λ attached. share_a_page size attached.signature blob.now) self.now }
    {
        self.list
            .iter()
            .position(|kept| share_a_page(&kept.blob, blob, size))
    }

    // Whether no other signature can be attached.
    pub(crate) fn is_full(&self) -> bool
        ensures { result ≡ nat_le 64 (length self.now) }
    {
        self.list.len() >= MOST
    }

    // The attached signatures.
    pub(crate) fn list(&self) -> &[Kept]
        ensures value { result.now ≡ self.now }
    {
        &self.list
    }

    // Attaches a signature, for which there is room, and gives its number.
    pub(crate) fn attach(&mut self, slice: u32, blob: Blob) -> usize
        requires { length self.old < 64 }
        ensures after { self.new ≡ self.old ++ record { slice = slice; signature = blob } ∷ [] }
        ensures number { result ≡ length self.old }
    {
        let number = self.list.len();
        let Ok(()) = self.list.push(Kept { slice, blob }) else {
            unreachable!()
        };
        number
    }
}
