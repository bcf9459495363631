//! Objects that are tried: calls on them as a table names them, and what they reply.
//!
//! A row of a table is a line, as `fetch 0 1 16380 4 = got 69 4`: a call, and behind ` = ` what it replies. The calls:
//!
//!     read SLICE               reads the signature of a slice
//!     attach SLICE             reads it and attaches it
//!     write AT BYTE COUNT      writes so many times the byte from a place of the file on
//!     map ID PAGES PROT SHARE  adds a region of the first pages: `r`, `rw`, `rx` or `rwx`, `shared` or `private`
//!     unmap ID                 drops a region
//!     exit PID                 drops those of a process
//!     guarded ID PAGE ACCESS   faults for `r`, `w` or `x`, for a process on which code signing is enforced
//!     free ID PAGE ACCESS      the same for one on which it is not
//!     debugged ID PAGE ACCESS  the same for one that is debugged
//!     store ID PAGE AT BYTE    stores a byte
//!     load ID PAGE AT COUNT    loads bytes
//!     fetch ID PAGE AT COUNT   fetches bytes
//!     evict PAGE               evicts a page

ghost use Rattle.std.specs.Prelude.{◌≡◌, ◌+◌, ◌<◌, ◌≤◌, IfOk, IsTrue, Some, vec_len};
ghost use Rattle.pg_bytes.specs.PageSize.{is_page_size};
ghost use Rattle.pg_digest.specs.Digests.{sha_hash};
ghost use Rattle.pg_digest.specs.DigestLaws.{length-sha_hash};
ghost use Rattle.pg_regions.specs.RegionsNow.{spare};
ghost use Rattle.pg_object.specs.Kept.{IsLaid, slice_range};

use crate::words::{access, byte, flags, is_shared, number, prot, small, told_by};
use crate::{Object, Room};
use cs_blob::blob;
use cs_policy::{Bytes64, Data, FileReply, Layout, Refusal, Region, Seats, SliceSeat};
use pg_bytes::Range;
use pg_cache::Cache;
use pg_digest::{Digest, Digester, HashKind, ShaDigester};
use pg_io::MemPager;
use pg_pages::Pages;
use std::alloc::Global;
use std::cell::Cell;
use std::rc::Rc;
use std::test::Fail;

// Room for more than any table uses.
const ROOM: usize = 64;

// The digester of the SHA functions, with a count of its calls that a test can see.
#[derive(Drop)]
pub(crate) struct Counting {
    sha: ShaDigester,
    seen: Rc<Cell<u64>>,
}

impl Digester for Counting {
    ghost hash = { sha_hash };

    ghost calls = { λ counting. counting.sha };

    ghost sized = { length-sha_hash };

    fn hash(&mut self, kind: HashKind, bytes: &[u8]) -> Digest {
        self.seen.set(self.seen.get().wrapping_add(1));
        self.sha.hash(kind, bytes)
    }
}

// A file that is opened: its bytes, the size of its pages, how many of them may be resident, and the numbers of the pager
// calls that are to fail.
#[derive(Drop)]
pub(crate) struct File {
    bytes: Vec<u8>,
    page_size: u32,
    limit: u32,
    fails: Vec<u64>,
    ghost size: { IsTrue (is_page_size page_size) },
    ghost some: { 0 < limit },
    ghost most: { limit ≤ 4096 },
}

impl File {
    pub(crate) fn new(bytes: Vec<u8>, page_size: u32, limit: u32, fails: Vec<u64>) -> File
        requires size { IsTrue (is_page_size page_size) }
        requires some { 0 < limit }
        requires most { limit ≤ 4096 }
    {
        File {
            bytes,
            page_size,
            limit,
            fails,
        }
    }
}

// An object with room for at least `left` more of each kind.
#[derive(Drop)]
pub(crate) struct Trial {
    object: Object<MemPager, Counting>,
    seen: Rc<Cell<u64>>,
    left: usize,
    ghost regions_left: { left ≤ (spare object.regions).regions },
    ghost records_left: { left ≤ (spare object.regions).records },
    ghost copies_left: { left ≤ (spare object.regions).copies },
}

// Whether a range ends within so many bytes.
fn is_within(range: &Range, length: u64) -> bool
    ensures { IsTrue result → range.now.at + range.now.len ≤ length }
{
    range.at <= length && range.len <= length - range.at
}

// A layout with one signed slice, or with none.
fn layout_of(alloc: Global, seat: Option<(Range, Range)>, length: u64) -> Result<Layout, Fail>
    ensures { IfOk result (IsLaid length) }
{
    let Some((slice, sig)) = seat else {
        return Ok(Layout::Slices(Seats::new(Vec::new(alloc))));
    };
    if !is_within(&slice, length) || !is_within(&sig, length) {
        return Err("range".into());
    }
    let seat = SliceSeat::Signed { slice, sig };
    Ok(Layout::Slices(Seats::new(vec![in alloc; seat]?)))
}

impl Trial {
    // An object of a file with this slice and its signature, or with none.
    pub(crate) fn open(
        alloc: Global,
        file: File,
        seat: Option<(Range, Range)>,
    ) -> Result<Trial, Fail> {
        let layout = layout_of(alloc, seat, file.bytes.len() as u64)?;
        Trial::with_layout(alloc, file, layout)
    }

    // An object of a file whose slices are refused.
    pub(crate) fn refused(alloc: Global, file: File, refusal: Refusal) -> Result<Trial, Fail> {
        Trial::with_layout(alloc, file, Layout::Refused(refusal))
    }

    fn with_layout(alloc: Global, file: File, layout: Layout) -> Result<Trial, Fail>
        requires { IsLaid (vec_len file.bytes) layout }
    {
        let length = file.bytes.len() as u64;
        let reached = length.div_ceil(u64::from(file.page_size));
        let seen = Rc::new(alloc, Cell::new(0))?;
        let digester = Counting {
            sha: ShaDigester::new(),
            seen: seen.clone()?,
        };
        let pager = MemPager::new(file.bytes, file.fails, file.page_size)?;
        let pages = Pages::open(alloc, Cache::open(alloc, pager, file.limit)?, digester)?;
        if pages.pages() != reached {
            return Err("pages".into());
        }
        let room = Room {
            regions: ROOM,
            records: ROOM,
            copies: ROOM,
        };
        Ok(Trial {
            object: Object::open(alloc, pages, length, layout, room)?,
            seen,
            left: ROOM,
        })
    }

    // How often the object's digester was called.
    pub(crate) fn hashes(&self) -> u64 {
        self.seen.get()
    }

    // Makes the call that a line names, and says what it replied.
    pub(crate) fn run(&mut self, alloc: Global, line: &str) -> Result<String, Fail> {
        let words: Vec<&str> = line.split_whitespace().collect(alloc)?;
        let reply = match words.as_slice() {
            [name, which] => self.call_on(alloc, name, which)?,
            [name, one, two, three] => self.call_with(name, one, two, three)?,
            [name, id, page, third, last] => self.call_through(name, id, page, third, last)?,
            _ => return Err("line".into()),
        };
        told_by(alloc, &reply)
    }

    fn call_on(&mut self, alloc: Global, name: &str, which: &str) -> Result<FileReply, Fail> {
        match name {
            "read" => Ok(self.object.read_signature(alloc, small(which)?)?.0),
            "attach" => attach(&mut self.object, alloc, small(which)?),
            "unmap" => Ok(self.object.drop_region(small(which)?)),
            "exit" => Ok(self.object.drop_pid(small(which)?)),
            "evict" => Ok(self.object.evict(number(which)?)),
            _ => Err("call".into()),
        }
    }

    fn call_with(
        &mut self,
        name: &str,
        one: &str,
        two: &str,
        three: &str,
    ) -> Result<FileReply, Fail> {
        if name == "write" {
            let piece = Data::Fill {
                byte: byte(two)?,
                count: small(three)?,
            };
            return Ok(self.object.write(number(one)?, &piece));
        }
        let flags = flags(name)?;
        if self.left == 0 {
            return Err("room".into());
        }
        self.left -= 1;
        Ok(
            self.object
                .enter(small(one)?, number(two)?, access(three)?, flags, 0),
        )
    }

    fn call_through(
        &mut self,
        name: &str,
        id: &str,
        page: &str,
        third: &str,
        last: &str,
    ) -> Result<FileReply, Fail> {
        let id = small(id)?;
        let page = number(page)?;
        match name {
            "map" => self.map(id, page, third, last),
            "store" => self.store(id, page, small(third)?, byte(last)?),
            "load" => self.load(id, page, small(third)?, small(last)?),
            "fetch" => self.fetch(id, page, small(third)?, small(last)?),
            _ => Err("call".into()),
        }
    }

    fn map(&mut self, id: u32, pages: u64, way: &str, share: &str) -> Result<FileReply, Fail> {
        let region = Region {
            id,
            pid: id / 4096,
            first: 0,
            pages,
            prot: prot(way)?,
            shared: is_shared(share)?,
        };
        if self.left == 0 || pages > self.object.file_pages() {
            return Err("region".into());
        }
        self.left -= 1;
        Ok(self.object.add_region(region, 0))
    }

    fn store(&mut self, id: u32, page: u64, at: u32, byte: u8) -> Result<FileReply, Fail> {
        let Some(bytes) = Bytes64::new(&[byte]) else {
            return Err("bytes".into());
        };
        if at >= self.object.pages.page_size() {
            return Err("place".into());
        }
        Ok(self.object.store(id, page, at, &bytes, 0))
    }

    // Whether so many bytes, from a place of a page on, can be looked at.
    fn fits(&self, at: u32, count: u32) -> bool
        ensures some { IsTrue result → 0 < count }
        ensures most { IsTrue result → count ≤ 64 }
        ensures fits { IsTrue result → at + count ≤ self.now.object.pages.cache.pager.page_size }
    {
        let size = self.object.pages.page_size();
        0 < count && count <= 64 && at < size && count <= size - at
    }

    fn load(&mut self, id: u32, page: u64, at: u32, count: u32) -> Result<FileReply, Fail> {
        if !self.fits(at, count) {
            return Err("place".into());
        }
        Ok(self.object.load(id, page, at, count, 0))
    }

    fn fetch(&mut self, id: u32, page: u64, at: u32, count: u32) -> Result<FileReply, Fail> {
        if !self.fits(at, count) {
            return Err("place".into());
        }
        Ok(self.object.fetch(id, page, at, count, 0))
    }
}

// Reads the signature of a slice, and attaches it.
fn attach(
    object: &mut Object<MemPager, Counting>,
    alloc: Global,
    slice: u32,
) -> Result<FileReply, Fail>
    ensures regions { (spare object.old.regions).regions ≤ (spare object.new.regions).regions }
    ensures records { (spare object.old.regions).records ≤ (spare object.new.regions).records }
    ensures copies { (spare object.old.regions).copies ≤ (spare object.new.regions).copies }
{
    let (reply, twin) = object.read_signature(alloc, slice)?;
    let (FileReply::Read { bytes }, FileReply::Read { bytes: other }) = (&reply, &twin) else {
        return Ok(reply);
    };
    if bytes.bytes() != other.bytes() || object.is_full() {
        return Err("attach".into());
    }
    let range = slice_of(object, slice)?;
    let copy = Vec::from_slice(alloc, bytes.bytes())?;
    let mut digester = Counting {
        sha: ShaDigester::new(),
        seen: Rc::new(alloc, Cell::new(0))?,
    };
    let size = object.pages.page_size();
    let Ok(held) = blob(alloc, copy, &range, Some(size), &mut digester) else {
        return Err("signature".into());
    };
    Ok(object.add_blob(slice, held, 0, 0))
}

// The range of a slice.
fn slice_of(object: &Object<MemPager, Counting>, slice: u32) -> Result<Range, Fail>
    ensures { IfOk result (λ range. slice_range object.now.layout slice ≡ Some range) }
{
    let Layout::Slices(seats) = object.layout() else {
        return Err("layout".into());
    };
    match seats.items().get(slice as usize) {
        Some(SliceSeat::Signed { slice, .. }) => Ok(*slice),
        _ => Err("slice".into()),
    }
}
