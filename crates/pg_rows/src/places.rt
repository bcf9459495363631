// A block of places for values of one type, of which the first ones are filled.
ghost use Rattle.std.specs.Prelude.{◌≡◌, ℕ, ◌+◌, ◌≤◌, List, length, take, drop, ⊤};
ghost use Rattle.std.specs.Borrow.{sem};
ghost use base.Fml.{ftrue};
ghost use denote.RawPtr.{Ptr};
ghost use Rattle.pg_rows.specs.Ownership.{places_own, places_lend, release_owns};

use std::alloc::{AllocError, Allocator};
use std::marker::{Model, PhantomData, Send, Sync};
use std::slice;

/// Where a block starts. It owns nothing.
pub struct Start<T> {
    pub(crate) ptr: *mut T,
}

impl<T> Clone for Start<T> {
    ghost is_clone = { λ x y. y ≡ x };

    ghost is_infallible = { λ _. ⊤ };

    fn clone(&self) -> Result<Start<T>, AllocError> {
        Ok(*self)
    }
}

impl<T> Copy for Start<T> {}

unsafe impl<T> Send for Start<T> {}

unsafe impl<T> Sync for Start<T> {}

/// The owner of the places of a block: the first hold `items`, and `empty` more follow. It takes no space.
pub struct Places<T> {
    pub(crate) mark: PhantomData<*const T>,
    ghost at: { Ptr },
    ghost items: { List T },
    ghost empty: { ℕ },
}

impl<T> Model for Places<T> {
    ghost also_owns = { λ p. places_own T.row p.at p.items p.empty };

    ghost also_shares = { λ p _ κ. places_lend T.row p.at p.items p.empty κ };
}

unsafe impl<T: Send> Send for Places<T> {}

unsafe impl<T: Sync> Sync for Places<T> {}

/// The right to hand the block of `len` places at `at` back to `alloc`. It takes no space.
pub struct Release<T, A: Allocator> {
    pub(crate) mark: PhantomData<*const (T, A)>,
    ghost at: { Ptr },
    ghost len: { ℕ },
    ghost alloc: { A },
}

impl<T, A: Allocator> Model for Release<T, A> {
    ghost also_owns = { λ r. release_owns T.row (A.dealloc_token r.alloc) r.at r.len };

    ghost also_shares = { λ _ _ _. ftrue };
}

unsafe impl<T, A: Allocator + Send> Send for Release<T, A> {}

// A `&` to it holds nothing.
unsafe impl<T, A: Allocator> Sync for Release<T, A> {}

impl<T> Places<T> {
    ghost use Rattle.pg_rows.specs.Blocks.{CanPush, IsPushed};
    ghost use Rattle.pg_rows.specs.Lends.{lends_items};

    // Fills the first empty place, the one behind `filled` others.
    pub(crate) fn push(&mut self, start: Start<T>, filled: usize, item: T)
        requires { CanPush start self.old filled }
        ensures { IsPushed self.old item self.new }
    {
        unsafe { start.ptr.add(filled).write(item) }
    }

    // The filled places.
    pub(crate) fn slice(&self, start: Start<T>, filled: usize) -> &[T]
        requires { (start.ptr ≡ self.now.at) × (filled ≡ length self.now.items) }
        ensures { result.now ≡ self.now.items }
    {
        unsafe { slice::from_raw_parts(start.ptr, filled) }
    }

    // The `len` filled places from one on, to be changed.
    pub(crate) fn slice_mut(&mut self, start: Start<T>, from: usize, len: usize) -> &mut [T]
        requires { (start.ptr ≡ self.old.at) × (from + len ≤ length self.old.items) }
        ensures* writes_back { sem 𝓛 (lends_items T.row self.entry from len result) }
        ensures value { result.now ≡ take len (drop from self.old.items) }
    {
        unsafe { slice::from_raw_parts_mut(start.ptr.add(from), len) }
    }
}
