//! What finds the hash pages of an image that do not match: one thread in turn, or several.

ghost use Rattle.std.specs.Prelude.{◌≡◌, ◌≤◌, IfOk, OnOk, length};
ghost use Rattle.pg_bytes.specs.Counts.{RoseBy};
ghost use Rattle.cs_directory.specs.Directory.{IsDirectory};
ghost use Rattle.cs_verify.specs.Pages.{slotted_pages, bad_pages};

use crate::report::BadPage;
use crate::{pages, shares};
use cs_directory::Directory;
use pg_digest::{Digest, Digester, HashKind, ShaDigester};
use std::alloc::{AllocError, Global};
use std::thread::Threads;

/// What finds the hash pages of an image that do not match.
pub trait PageCheck<D: Digester> {
    /// What has to be known of it before it is asked.
    ghost ready: { Self → Type 0 };

    /// The hash pages of an image that do not match or have no slot, ascending. Each that has a slot is hashed once.
    fn bad_pages(
        &self,
        alloc: Global,
        directory: &Directory,
        directory_bytes: &[u8],
        image: &[u8],
        d: &mut D,
    ) -> Result<Vec<BadPage>, AllocError>
        requires ready { ready self.now }
        requires directory { IsDirectory directory_bytes.now directory.now }
        requires limited { directory.now.limit ≤ length image.now }
        ensures bad { IfOk result (λ bad.
            bad.items ≡ bad_pages D.hash directory.now directory_bytes.now image.now) }
        ensures digests { OnOk result
            (RoseBy (slotted_pages directory.now) (D.calls d.old) (D.calls d.new)) };
}

/// One page after another, on the thread that asks, by the digester that is passed.
#[derive(Drop)]
pub struct InTurn;

impl<D: Digester> PageCheck<D> for InTurn {
    ghost use Rattle.std.specs.Prelude.{⊤};

    ghost ready = { λ _. ⊤ };

    fn bad_pages(
        &self,
        alloc: Global,
        directory: &Directory,
        directory_bytes: &[u8],
        image: &[u8],
        d: &mut D,
    ) -> Result<Vec<BadPage>, AllocError> {
        pages::bad_pages(alloc, directory, directory_bytes, image, d)
    }
}

/// Shares of the pages at once, on threads of this runtime, each by a digester of its own.
#[derive(Drop)]
pub struct OnThreads<'a, R> {
    rt: &'a R,
}

impl<'a, R> OnThreads<'a, R> {
    /// Threads of this runtime.
    pub fn new(rt: &'a R) -> OnThreads<'a, R> {
        OnThreads { rt }
    }
}

impl<R: Threads + Sync> PageCheck<Uncounted> for OnThreads<'_, R> {
    ghost use denote.Param.Send.{IsSync};

    ghost ready = { λ _. IsSync R.row };

    fn bad_pages(
        &self,
        alloc: Global,
        directory: &Directory,
        directory_bytes: &[u8],
        image: &[u8],
        _d: &mut Uncounted,
    ) -> Result<Vec<BadPage>, AllocError> {
        shares::bad_pages(self.rt, alloc, directory, directory_bytes, image)
    }
}

/// The digester of the functions of FIPS 180-4 where nobody asks how often it is called: its count stands still from the
/// start.
#[derive(Drop)]
pub struct Uncounted;

impl Digester for Uncounted {
    ghost use Rattle.std.specs.Prelude.{◌-◌, ◌^◌};
    ghost use Rattle.pg_digest.specs.Digests.{sha_hash};
    ghost use Rattle.pg_digest.specs.DigestLaws.{length-sha_hash};

    ghost hash = { sha_hash };

    ghost calls = { λ _. 2 ^ 64 - 1 };

    ghost sized = { length-sha_hash };

    fn hash(&mut self, kind: HashKind, bytes: &[u8]) -> Digest {
        ShaDigester::new().hash(kind, bytes)
    }
}
