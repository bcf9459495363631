// Blocks of places are taken from an allocator and handed back to it.
ghost use Rattle.std.specs.Prelude.{IfOk};
ghost use Rattle.std.specs.Vec.Ownership.{FitsInBlock};
ghost use Rattle.pg_rows.specs.Blocks.{IsNewBlock, IsBlock};

use crate::places::{Places, Release, Start};
use std::alloc::{AllocError, Allocator};
use std::marker::PhantomData;
use std::mem::{align_of, size_of};

// A block of `len` empty places.
pub(crate) fn allocate<T, A: Allocator>(
    alloc: &A,
    len: usize,
) -> Result<(Start<T>, Places<T>, Release<T, A>), AllocError>
    requires { FitsInBlock T.row len }
    ensures { IfOk result (λ made. IsNewBlock made.0 made.1 made.2 len alloc.now) }
{
    match alloc.allocate(len * size_of::<T>(), align_of::<T>()) {
        Ok(block) => {
            let start = Start {
                ptr: block as *mut T,
            };
            Ok((
                start,
                Places { mark: PhantomData },
                Release { mark: PhantomData },
            ))
        }
        Err(error) => Err(error),
    }
}

// Hands a block back. The values in it are let go as they are.
pub(crate) fn deallocate<T, A: Allocator>(
    alloc: &A,
    start: Start<T>,
    len: usize,
    places: Places<T>,
    release: Release<T, A>,
)
    requires { IsBlock start places release len alloc.now }
{
    let Places { mark: _ } = places;
    let Release { mark: _ } = release;
    unsafe {
        alloc.deallocate(start.ptr as *mut u8, len * size_of::<T>(), align_of::<T>());
    }
}
