//! Writes to a file.

ghost use Rattle.std.specs.Prelude.{◌≡◌, ◌+◌, ◌-◌, ◌*◌, ◌/◌, ◌<◌, ◌≤◌, ◌^◌, length, IsTrue, IfErr, OnOk, min, nat_lt, replicate, take};
ghost use Rattle.std.specs.Bool.{OnFalse};
ghost use Rattle.pg_bytes.specs.PageSize.{is_page_size};
ghost use Rattle.cs_policy.specs.Data.{data_bytes};
ghost use Rattle.cs_policy.specs.declared.file.FileEvent.TheVariants as event;
ghost use Rattle.cs_policy.specs.declared.file.FileReply.TheVariants as reply;
ghost use Rattle.pg_cache.specs.Gives.{WriteGives};
ghost use Rattle.pg_pages.specs.MarkSteps.{written};
ghost use Rattle.pg_pages.specs.Pages.{IsMarked};
ghost use Rattle.pg_regions.specs.RegionsNow.{IsSound};
ghost use Rattle.pg_object.specs.Acts.{Acts};
ghost use Rattle.pg_object.specs.Checked.{KeepsChecked};
ghost use Rattle.pg_object.specs.Kept.{IsKept};
ghost use Rattle.pg_object.specs.Strips.{Strips};
ghost use Rattle.pg_object.specs.Writes.{offset_on, part_on, end_reached, WroteAll, WroteBefore};

use crate::object::Object;
use cs_policy::{Data, FileReply};
use pg_digest::Digester;
use pg_io::Pager;
use pg_pages::{PagerFault, Pages};
use pg_regions::Regions;

// The greatest size of a page.
const MOST: usize = 16_384;

impl<P: Pager, D: Digester> Object<P, D> {
    /// Writes data from the byte `at` of the file on, through to the pager. Each page that
    /// was written is executed by nobody afterwards: its records lose that permission, and it is no longer checked.
    ///
    /// The answer is `PastEnd` exactly where the data pass the end of the file, and nothing changes then. `Short` comes
    /// only where a pager call failed, with the number of bytes that stand: those before the page of that call. No page
    /// is hashed.
    pub fn write(&mut self, at: u64, piece: &Data) -> FileReply
        ensures acts { Acts D.hash self.old (event.Write at piece.now) None result self.new }
        ensures checked { KeepsChecked self.old (event.Write at piece.now) result self.new }
        ensures unhashed { self.new.pages.calls ≡ self.old.pages.calls }
        ensures kept { IsKept D.hash self.new }
    {
        let count = count_of(piece);
        if passes(self.length, at, count) {
            return FileReply::PastEnd {
                length: self.length,
            };
        }
        let size = self.pages.page_size();
        let (end, reply) = match write_pages(&mut self.pages, at, piece, count) {
            Ok(()) => (end_reached(size, at, count), FileReply::Written { count }),
            Err(page) => (page, short(size, at, page)),
        };
        strip_pages(&mut self.regions, at / u64::from(size), end);
        reply
    }
}

// Whether so many bytes from the byte `at` on pass the end of a file of `length` bytes.
fn passes(length: u64, at: u64, count: u64) -> bool
    ensures value { result ≡ nat_lt length (at + count) }
    ensures below { OnFalse result (at + count < 2 ^ 64) }
{
    at > length || count > length - at
}

// The reply where the data before a page stand.
fn short(size: u32, at: u64, page: u64) -> FileReply
    requires fits { page * size < 2 ^ 64 }
    ensures { result ≡ reply.Short (page * size - at) }
{
    FileReply::Short {
        written: (page * u64::from(size)).saturating_sub(at),
    }
}

// How many bytes the data have.
fn count_of(piece: &Data) -> u64
    ensures { result ≡ length (data_bytes piece.now) }
{
    match piece {
        Data::Hex(bytes) => bytes.bytes().len() as u64,
        Data::Fill { count, .. } => u64::from(*count),
    }
}

// The first page behind those that so many bytes reach, from the byte `at` on.
pub(crate) fn end_reached(size: u32, at: u64, count: u64) -> u64
    requires size { IsTrue (is_page_size size) }
    requires below { at + count < 2 ^ 64 }
    ensures { result ≡ end_reached size at count }
{
    let size = u64::from(size);
    if count == 0 {
        return at / size;
    }
    (at + (count - 1)) / size + 1
}

// Writes the data to the pages that they reach, in their order, up to the first that fails, which is answered.
fn write_pages<P: Pager, D: Digester>(
    pages: &mut Pages<P, D>,
    at: u64,
    piece: &Data,
    count: u64,
) -> Result<(), u64>
    requires count { count ≡ length (data_bytes piece.now) }
    requires below { at + count < 2 ^ 64 }
    requires inside { at + count ≤ pages.old.cache.pager.pages * pages.old.cache.pager.page_size }
    requires marked { IsMarked D.hash pages.old.cache pages.old.marks }
    ensures all { OnOk result (WroteAll D.hash pages.old at (data_bytes piece.now) pages.new) }
    ensures before { IfErr result (λ page. WroteBefore D.hash pages.old at (data_bytes piece.now) page pages.new) }
{
    let size = pages.page_size();
    for page in at / u64::from(size)..end_reached(size, at, count) {
        if write_page(pages, page, at, piece, count).is_err() {
            return Err(page);
        }
    }
    Ok(())
}

// Writes the part of the data that lies on a page.
fn write_page<P: Pager, D: Digester>(
    pages: &mut Pages<P, D>,
    page: u64,
    at: u64,
    piece: &Data,
    count: u64,
) -> Result<(), PagerFault>
    requires count { count ≡ length (data_bytes piece.now) }
    requires below { at + count < 2 ^ 64 }
    requires inside { page < pages.old.cache.pager.pages }
    requires begins { page * pages.old.cache.pager.page_size < at + count }
    requires ends { at < page * pages.old.cache.pager.page_size + pages.old.cache.pager.page_size }
    ensures gives { WriteGives pages.old.cache page (offset_on pages.old.cache.pager.page_size at page) (part_on pages.old.cache.pager.page_size at (data_bytes piece.now) page) result pages.new.cache }
    ensures marks { pages.new.marks ≡ written pages.old.cache page result pages.old.marks }
    ensures marked { IsMarked D.hash pages.new.cache pages.new.marks }
    ensures calls { pages.new.calls ≡ pages.old.calls }
{
    let part = part_of(pages.page_size(), at, count, page);
    match piece {
        Data::Hex(bytes) => pages.write(page, part.offset, &bytes.bytes()[part.start..part.stop]),
        Data::Fill { byte, .. } => fill_page(
            pages,
            page,
            part.offset,
            *byte,
            part.stop - part.start,
        ),
    }
}

// The part of a write's data that lies on a page: from the byte `start` of the data to `stop`, at a place on the page.
#[derive(Clone, Copy)]
struct Part {
    offset: u32,
    start: usize,
    stop: usize,
}

// The part of so many bytes, from the byte `at` of the file on, that lies on a page which they reach.
fn part_of(size: u32, at: u64, count: u64, page: u64) -> Part
    requires size { IsTrue (is_page_size size) }
    requires below { at + count < 2 ^ 64 }
    requires begins { page * size < at + count }
    requires ends { at < page * size + size }
    ensures offset { result.offset ≡ offset_on size at page }
    ensures start { result.start ≡ page * size - at }
    ensures stop { result.stop ≡ result.start + min (count - result.start) (size - result.offset) }
    ensures order { result.start ≤ result.stop }
    ensures inside { result.stop ≤ count }
    ensures fits { result.offset + (result.stop - result.start) ≤ size }
{
    let first = page * u64::from(size);
    let offset = at.saturating_sub(first);
    let start = first.saturating_sub(at);
    let length = (count - start).min(u64::from(size) - offset);
    Part {
        offset: offset as u32,
        start: start as usize,
        stop: (start + length) as usize,
    }
}

// Writes so many times a byte to a page.
fn fill_page<P: Pager, D: Digester>(
    pages: &mut Pages<P, D>,
    page: u64,
    offset: u32,
    byte: u8,
    count: usize,
) -> Result<(), PagerFault>
    requires inside { page < pages.old.cache.pager.pages }
    requires fits { offset + count ≤ pages.old.cache.pager.page_size }
    ensures gives { WriteGives pages.old.cache page offset (replicate count byte) result pages.new.cache }
    ensures marks { pages.new.marks ≡ written pages.old.cache page result pages.old.marks }
    ensures marked { IsMarked D.hash pages.new.cache pages.new.marks }
    ensures calls { pages.new.calls ≡ pages.old.calls }
{
    let _size = pages.page_size();
    let filled = [byte; MOST];
    pages.write(page, offset, front(&filled, count))
}

// The first bytes, so many.
fn front(bytes: &[u8], count: usize) -> &[u8]
    requires { count ≤ length bytes.now }
    ensures bytes { result.now ≡ take count bytes.now }
    ensures length { length result.now ≡ count }
{
    &bytes[..count]
}

// Takes the permission to execute from the records of some pages.
fn strip_pages(regions: &mut Regions, first: u64, end: u64)
    requires sound { IsSound regions.old }
    requires order { first ≤ end }
    ensures { Strips regions.old first end regions.new }
{
    for page in first..end {
        regions.strip(page);
    }
}
