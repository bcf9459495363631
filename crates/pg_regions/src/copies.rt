//! The private copies of pages, in buffers that are all taken when the list is opened.

ghost use Rattle.std.specs.Prelude.{◌≡◌, ◌==◌, ◌+◌, ◌<◌, ◌≤◌, [], not, IfOk, All, IsTrue, is_some, true, false, option_copied, length, map, filter, insert, take, position, ℕ, vec_len, vec_capacity};
ghost use Rattle.std.specs.List.{AllWithin};
ghost use Rattle.std.specs.List.Sorted.{IsPermutation};
ghost use Rattle.pg_bytes.specs.Order.{in_order};
ghost use Rattle.pg_regions.specs.Lookups.{Copy, is_copy, comes_before, copy_before, CopiesDiffer, CopiesRise, copy_of, bytes_of};
ghost use Rattle.pg_regions.specs.Copies.{IsWhole};
ghost use Rattle.pg_regions.specs.Steps.{private_copy, copy_with_piece, put_at};

use crate::NoMemory;
use pg_io::PageBuffer;
use std::alloc::Global;
use std::marker::Model;

// A buffer of one page, with the region and page of the copy that stands in it.
#[derive(Drop)]
struct Buffer {
    region: u32,
    page: u64,
    bytes: PageBuffer,
}

impl Model for Buffer {
    ghost use Rattle.pg_regions.specs.Lookups.{Copy};

    ghost Value = { Copy };

    ghost view = { λ buffer. record { region = buffer.region; page = buffer.page; bytes = buffer.bytes } };
}

impl Buffer {
    // A buffer of so many zeros.
    fn new(alloc: Global, page_size: u32) -> Result<Buffer, NoMemory>
        ensures { IfOk result (λ buffer. length buffer.bytes ≡ page_size) }
    {
        Ok(Buffer {
            region: 0,
            page: 0,
            bytes: PageBuffer::zeros(alloc, page_size)?,
        })
    }

    fn region(&self) -> u32
        ensures { result ≡ self.now.region }
    {
        self.region
    }

    fn is_of(&self, id: u32, page: u64) -> bool
        ensures { result ≡ is_copy id page self.now }
    {
        self.region == id && self.page == page
    }

    fn comes_before(&self, id: u32, page: u64) -> bool
        ensures { result ≡ comes_before self.now.page self.now.region page id }
    {
        self.page < page || self.page == page && self.region < id
    }

    fn bytes(&self) -> &[u8]
        ensures { result.now ≡ self.now.bytes }
    {
        self.bytes.bytes()
    }

    // Makes this the copy of that region and page with these bytes.
    fn fill(&mut self, id: u32, page: u64, bytes: &[u8])
        requires { length bytes.now ≡ length self.old.bytes }
        ensures { self.new ≡ private_copy id page bytes.now }
    {
        self.region = id;
        self.page = page;
        self.bytes.fill(bytes);
    }

    // Writes bytes over a part of the page.
    fn put(&mut self, at: u32, bytes: &[u8])
        requires { at + length bytes.now ≤ length self.old.bytes }
        ensures { self.new ≡ copy_with_piece at bytes.now self.old }
    {
        self.bytes.put(at, bytes);
    }
}

// The private copies, in the order of their pages and, of one page, of their regions.
#[derive(Drop)]
pub(crate) struct Copies {
    // How many bytes a page has.
    page: u32,
    held: Vec<Buffer>,
    // The buffers that no copy stands in.
    free: Vec<Buffer>,
}

impl Model for Copies {
    ghost use Rattle.std.specs.Prelude.{vec_capacity};
    ghost use Rattle.pg_regions.specs.Copies.{CopiesNow, HasBuffers};

    ghost Value = { CopiesNow };

    ghost view = { λ copies. record {
      page = copies.page;
      list = copies.held.items;
      room = vec_capacity copies.held;
    } };

    ghost invariant = { λ copies. HasBuffers copies.page copies.held copies.free };
}

impl Copies {
    // Takes the memory for so many copies of pages of this size.
    pub(crate) fn open(alloc: Global, count: usize, page: u32) -> Result<Copies, NoMemory>
        ensures { IfOk result (λ copies. copies ≡ record { page = page; list = []; room = count }) }
    {
        Ok(Copies {
            page,
            held: Vec::with_capacity(alloc, count)?,
            free: buffers(alloc, count, page)?,
        })
    }

    // The bytes of the region's copy of the page.
    pub(crate) fn find(&self, id: u32, page: u64) -> Option<&[u8]>
        requires { CopiesRise self.now.list }
        ensures { option_copied result ≡ bytes_of self.now.list id page }
    {
        let found = find_copy(&self.held, id, page)?;
        Some(found.bytes())
    }

    // Whether the region has a copy of the page.
    pub(crate) fn has(&self, id: u32, page: u64) -> bool
        requires { CopiesRise self.now.list }
        ensures { result ≡ is_some (copy_of self.now.list id page) }
    {
        find_copy(&self.held, id, page).is_some()
    }

    // Makes a copy with these bytes.
    pub(crate) fn make(&mut self, id: u32, page: u64, bytes: &[u8])
        requires rises { CopiesRise self.old.list }
        requires room { length self.old.list < self.old.room }
        requires whole { length bytes.now ≡ self.old.page }
        ensures { self.new ≡ record self.old { list = in_order copy_before (private_copy id page bytes.now) self.old.list } }
    {
        let Some(mut buffer) = self.free.pop() else {
            unreachable!();
        };
        buffer.fill(id, page, bytes);
        let place = before(&self.held, id, page);
        put_held(&mut self.held, place, buffer);
    }

    // Writes bytes over a part of the region's copy of the page.
    pub(crate) fn put(&mut self, id: u32, page: u64, at: u32, bytes: &[u8])
        requires one { CopiesDiffer self.old.list }
        requires rises { CopiesRise self.old.list }
        requires fits { at + length bytes.now ≤ self.old.page }
        ensures { self.new ≡ record self.old { list = map (put_at id page at bytes.now) self.old.list } }
    {
        if let Some(place) = place_of(&self.held, id, page) {
            self.held[place].put(at, bytes);
        }
    }

    // Drops the copies of a region.
    pub(crate) fn drop_of(&mut self, id: u32)
        ensures { self.new ≡ record self.old { list = filter (λ copy. not (copy.region == id)) self.old.list } }
    {
        let kept = others_first(&mut self.held, id);
        free_behind(&mut self.held, &mut self.free, kept);
    }
}

// How many copies come before that of a region and page.
fn before(copies: &[Buffer], id: u32, page: u64) -> usize
    requires { CopiesRise copies.now }
    ensures within { result ≤ length copies.now }
    ensures lesser { AllWithin (λ copy. comes_before copy.page copy.region page id ≡ true) copies.now 0 result }
    ensures others { AllWithin (λ copy. comes_before copy.page copy.region page id ≡ false) copies.now result (length copies.now) }
{
    copies.partition_point(|copy| copy.comes_before(id, page))
}

// Where the copy of a region and page stands.
fn place_of(copies: &[Buffer], id: u32, page: u64) -> Option<usize>
    requires { CopiesRise copies.now }
    ensures { result ≡ position (is_copy id page) copies.now }
{
    let place = before(copies, id, page);
    if place < copies.len() && copies[place].is_of(id, page) {
        return Some(place);
    }
    None
}

// The copy of a region and page.
fn find_copy(copies: &[Buffer], id: u32, page: u64) -> Option<&Buffer>
    requires { CopiesRise copies.now }
    ensures { option_copied result ≡ copy_of copies.now id page }
{
    let place = place_of(copies, id, page)?;
    Some(&copies[place])
}

// One copy more at its place, for which there is room.
fn put_held(held: &mut Vec<Buffer>, place: usize, buffer: Buffer)
    requires within { place ≤ vec_len held.old }
    requires room { vec_len held.old < vec_capacity held.old }
    ensures held { held.new.items ≡ insert held.old.items place buffer }
    ensures count { vec_len held.new ≡ vec_len held.old + 1 }
    ensures capacity { vec_capacity held.new ≡ vec_capacity held.old }
{
    let Ok(()) = held.insert(place, buffer) else {
        unreachable!()
    };
}

// Moves the copies of other regions to the front, in their order, and answers how many these are.
fn others_first(held: &mut [Buffer], id: u32) -> usize
    ensures others { take result held.new ≡ filter (λ copy. not (copy.region == id)) held.old }
    ensures within { result ≤ length held.new }
    ensures same { IsPermutation held.old held.new }
{
    let mut kept = 0;
    for i in 0..held.len() {
        if held[i].region() != id {
            held.swap(kept, i);
            kept += 1;
        }
    }
    kept
}

// Moves the buffers behind the first `kept` ones to the free ones.
fn free_behind(held: &mut Vec<Buffer>, free: &mut Vec<Buffer>, kept: usize)
    requires { vec_len held.old + vec_len free.old ≤ vec_capacity free.old }
    ensures held { held.new.items ≡ take kept held.old.items }
    ensures whole { (page : ℕ) → All (IsWhole page) held.old.items → All (IsWhole page) free.old.items
        → All (IsWhole page) free.new.items }
    ensures count { vec_len held.new + vec_len free.new ≡ vec_len held.old + vec_len free.old }
    ensures held_capacity { vec_capacity held.new ≡ vec_capacity held.old }
    ensures free_capacity { vec_capacity free.new ≡ vec_capacity free.old }
{
    while held.len() > kept {
        if let Some(buffer) = held.pop() {
            free.push_reserved(buffer);
        }
    }
}

// So many buffers of zeros.
fn buffers(alloc: Global, count: usize, page: u32) -> Result<Vec<Buffer>, NoMemory>
    ensures count { IfOk result (λ buffers. vec_len buffers ≡ count) }
    ensures capacity { IfOk result (λ buffers. vec_capacity buffers ≡ count) }
    ensures whole { IfOk result (λ buffers. All (IsWhole page) buffers.items) }
{
    let mut buffers = Vec::with_capacity(alloc, count)?;
    for _ in 0..count {
        buffers.push_reserved(Buffer::new(alloc, page)?);
    }
    Ok(buffers)
}
