ghost use Rattle.std.specs.Prelude.{◌≡◌, ◌+◌, ◌<◌, ◌≤◌, length, take, drop, replicate, IfOk, slice_index_or, slice_set};
ghost use Rattle.std.specs.Borrow.{sem};
ghost use Rattle.std.specs.Vec.Ownership.{FitsInBlock};

use crate::NoMemory;
use crate::blocks::{allocate, deallocate};
use crate::places::{Places, Release, Start};
use std::alloc::Global;
use std::marker::Model;

/// A list of plain values in one block of memory. Its length is fixed when it is made; contracts see the list.
pub struct Row<T> {
    start: Start<T>,
    places: Places<T>,
    release: Release<T, Global>,
    len: usize,
    alloc: Global,
}

impl<T> Model for Row<T> {
    ghost use Rattle.std.specs.Prelude.{List};
    ghost use Rattle.std.specs.Coded.{coded_list};
    ghost use Rattle.pg_rows.specs.Blocks.{IsRow};

    ghost Value = { List T };

    ghost view = { λ row. row.places.items };

    ghost invariant = { λ row. IsRow row.start row.places row.release row.len row.alloc };
}

impl<T> Drop for Row<T> {
    fn drop(self) {
        let Row {
            start,
            places,
            release,
            len,
            alloc,
        } = self;
        deallocate(&alloc, start, len, places, release);
    }
}

impl<T> Row<T> {
    ghost use Rattle.pg_rows.specs.RowLends.{LendsPart};

    /// `len` copies of a value. It fails for want of memory alone.
    pub fn filled(alloc: Global, value: T, len: usize) -> Result<Row<T>, NoMemory>
    where
        T: Copy,
        requires { FitsInBlock T.row len }
        ensures filled { IfOk result (λ row. row ≡ replicate len value) }
        ensures long { IfOk result (λ row. length row ≡ len) }
    {
        let (start, mut places, release) = allocate(&alloc, len)?;
        for filled in 0..len {
            places.push(start, filled, value);
        }
        Ok(Row {
            start,
            places,
            release,
            len,
            alloc,
        })
    }

    /// The values.
    pub fn as_slice(&self) -> &[T]
        ensures { result.now ≡ self.now }
    {
        self.places.slice(self.start, self.len)
    }

    /// The `len` values from one place on, to be changed. The others stay.
    pub fn slice_mut(&mut self, from: usize, len: usize) -> &mut [T]
        requires { from + len ≤ length self.old }
        ensures* writes_back { sem 𝓛 (LendsPart T.row self.entry from len result) }
        ensures value { result.now ≡ take len (drop from self.old) }
        ensures long { length result.now ≡ len }
    {
        let start = self.start;
        self.places.slice_mut(start, from, len)
    }

    /// The value at a place, counted from 0.
    pub fn get(&self, place: usize) -> T
    where
        T: Copy,
        requires { place < length self.now }
        ensures { (other : T) → result ≡ slice_index_or self.now place other }
    {
        self.as_slice()[place]
    }

    /// Writes a value into a place.
    pub fn set(&mut self, place: usize, value: T)
    where
        T: Copy,
        requires { place < length self.old }
        ensures set { self.new ≡ slice_set self.old place value }
        ensures long { length self.new ≡ length self.old }
    {
        self.slice_mut(place, 1)[0] = value;
    }
}
