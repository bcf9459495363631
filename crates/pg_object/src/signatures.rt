//! The signatures of a file's slices.

ghost use Rattle.std.specs.Prelude.{◌≡◌, ◌+◌, ◌-◌, ◌*◌, ◌/◌, ◌<◌, ◌≤◌, ◌^◌, ◌++◌, [], Some, length, IfOk, IfErr, OnOk, OnErr, IsTrue, is_err, min, nat_le, vec_len, vec_capacity};
ghost use Rattle.cs_blob.specs.Signed.{IsSignature};
ghost use Rattle.cs_policy.specs.declared.file.FileEvent.TheVariants as event;
ghost use Rattle.pg_cache.specs.Gives.{PeekLeaves};
ghost use Rattle.pg_pages.specs.Pages.{IsMarked};
ghost use Rattle.pg_object.specs.Kept.{slice_range, IsKept};
ghost use Rattle.pg_object.specs.Acts.{Acts};
ghost use Rattle.pg_object.specs.Checked.{KeepsChecked};
ghost use Rattle.pg_object.specs.Writes.{end_reached};
ghost use Rattle.pg_object.specs.Reads.{HasSignature, HasNoSignature, unsigned_reply, hand_bytes, range_on, OnlyLooks, FindsPage, ReadBefore, ReadFailed};

use crate::NoMemory;
use crate::object::Object;
use crate::write::end_reached;
use cs_blob::Blob;
use cs_policy::{FileReply, Layout, Refusal, SliceSeat};
use pg_bytes::{Octets, Range};
use pg_digest::Digester;
use pg_io::Pager;
use pg_pages::{PagerFault, Pages};
use std::alloc::Global;

impl<P: Pager, D: Digester> Object<P, D> {
    /// Whether as many signatures are attached as can be: 64.
    pub fn is_full(&self) -> bool
        ensures full { result ≡ nat_le 64 (length self.now.blobs) }
        ensures kept { IsKept D.hash self.now }
    {
        self.blobs.is_full()
    }

    /// Attaches a signature as that of the slice with this number. The stamps `read` and `lookup` are those at which its
    /// bytes were read and its cdhash was looked up: they change nothing. There are fewer than 64 attached signatures, the slice
    /// is signed, and this signature is one of the slice's range and accepted for pages as large as the file's.
    ///
    /// The answer is `Already` exactly where an attached signature is of the slice and has its cdhash, and else
    /// `Overlap` exactly where an attached one covers a page that it covers, with the least number; nothing changes then.
    /// No page is hashed.
    pub fn add_blob(&mut self, slice: u32, blob: Blob, read: u64, lookup: u64) -> FileReply
        requires room { length self.old.blobs < 64 }
        requires slice { slice_range self.old.layout slice ≡ Some blob.slice }
        requires signed { IsSignature D.hash blob.bytes blob.slice (Some self.old.pages.cache.pager.page_size) blob }
        ensures acts { Acts D.hash self.old (event.AddBlob slice blob.cdhash read lookup) (Some blob) result self.new }
        ensures checked { KeepsChecked self.old (event.AddBlob slice blob.cdhash read lookup) result self.new }
        ensures unhashed { self.new.pages.calls ≡ self.old.pages.calls }
        ensures kept { IsKept D.hash self.new }
    {
        if let Some(same) = self.blobs.same(slice, blob.cdhash()) {
            return FileReply::Already { blob: same as u32 };
        }
        if let Some(other) = self.blobs.overlapping(&blob, self.pages.page_size()) {
            return FileReply::Overlap { blob: other as u32 };
        }
        FileReply::Attached {
            blob: self.blobs.attach(slice, blob) as u32,
        }
    }
}

// Why there is no signature of a slice to be read.
#[derive(Clone, Copy)]
enum Unsigned {
    NoSlices(Refusal),
    NoSlice { count: u32 },
    NoImage(Refusal),
}

impl Unsigned {
    fn reply(&self) -> FileReply
        ensures { result ≡ unsigned_reply self.now }
    {
        match *self {
            Unsigned::NoSlices(refusal) => FileReply::NoSlices(refusal),
            Unsigned::NoSlice { count } => FileReply::NoSlice { count },
            Unsigned::NoImage(refusal) => FileReply::NoImage(refusal),
        }
    }
}

impl<P: Pager, D: Digester> Object<P, D> {
    // The range of the file that is the signature of a slice.
    fn signature_of(&self, slice: u32) -> Result<Range, Unsigned>
        ensures signed { IfOk result (HasSignature self.now slice) }
        ensures unsigned { IfErr result (λ why. HasNoSignature self.now slice (unsigned_reply why)) }
        ensures kept { IsKept D.hash self.now }
    {
        match &self.layout {
            Layout::Refused(refusal) => Err(Unsigned::NoSlices(*refusal)),
            Layout::Slices(seats) => match seats.items().get(slice as usize) {
                Some(SliceSeat::Signed { sig, .. }) => Ok(*sig),
                Some(SliceSeat::Refused(refusal)) => Err(Unsigned::NoImage(*refusal)),
                None => Err(Unsigned::NoSlice {
                    count: seats.items().len() as u32,
                }),
            },
        }
    }

    /// Reads the present bytes of the signature of a slice, and answers twice in two equal values.
    ///
    /// The answer is `NoSlices` exactly where the layout is refused, `NoSlice` exactly where there is no such slice, and
    /// `NoImage` exactly where the slice is refused. There are as many pager calls as pages of the signature that are not
    /// resident, up to one that fails, and `PagerFault` comes only where one failed, at its page. The plain file stays as
    /// it was, and no page is hashed.
    ///
    /// After `NoMemory` no pager call was made, and all is as before.
    pub fn read_signature(
        &mut self,
        alloc: Global,
        slice: u32,
    ) -> Result<(FileReply, FileReply), NoMemory>
        ensures acts { IfOk result (λ replies. Acts D.hash self.old (event.ReadSignature slice) None replies.0 self.new) }
        ensures checked { IfOk result (λ replies. KeepsChecked self.old (event.ReadSignature slice) replies.0 self.new) }
        ensures twins { IfOk result (λ replies. replies.1 ≡ replies.0) }
        ensures unhashed { self.new.pages.calls ≡ self.old.pages.calls }
        ensures kept { IsKept D.hash self.new }
        ensures unchanged { OnErr result (self.new ≡ self.old) }
    {
        let range = match self.signature_of(slice) {
            Ok(range) => range,
            Err(why) => return Ok((why.reply(), why.reply())),
        };
        let mut bytes = Vec::with_capacity(alloc, range.len as usize)?;
        let mut twin = Vec::with_capacity(alloc, range.len as usize)?;
        if let Err(page) = read_range(&mut self.pages, range.at, range.len, &mut bytes) {
            return Ok((
                FileReply::PagerFault { page },
                FileReply::PagerFault { page },
            ));
        }
        let Ok(()) = twin.extend_from_slice(&bytes) else {
            unreachable!()
        };
        let (bytes, twin) = (Octets::new(bytes), Octets::new(twin));
        Ok((FileReply::Read { bytes }, FileReply::Read { bytes: twin }))
    }
}

// Reads so many bytes of the file, from the byte `at` on, page by page, up to the first page whose read fails, which is
// answered.
fn read_range<P: Pager, D: Digester>(
    pages: &mut Pages<P, D>,
    at: u64,
    count: u64,
    bytes: &mut Vec<u8>,
) -> Result<(), u64>
    requires empty { bytes.old.items ≡ [] }
    requires room { count ≤ vec_capacity bytes.old }
    requires below { at + count < 2 ^ 64 }
    requires inside { at + count ≤ pages.old.cache.pager.pages * pages.old.cache.pager.page_size }
    requires marked { IsMarked D.hash pages.old.cache pages.old.marks }
    ensures all { OnOk result (ReadBefore D.hash pages.old at count (end_reached pages.old.cache.pager.page_size at count) bytes.new.items pages.new) }
    ensures failed { IfErr result (λ page. ReadFailed D.hash pages.old at count page pages.new) }
{
    let size = pages.page_size();
    for page in at / u64::from(size)..end_reached(size, at, count) {
        if read_page(pages, page, at, count, bytes).is_err() {
            return Err(page);
        }
    }
    Ok(())
}

// Reads those bytes of the range that lie on a page.
fn read_page<P: Pager, D: Digester>(
    pages: &mut Pages<P, D>,
    page: u64,
    at: u64,
    count: u64,
    bytes: &mut Vec<u8>,
) -> Result<(), PagerFault>
    requires room { count ≤ vec_capacity bytes.old }
    requires read { vec_len bytes.old ≡ page * pages.old.cache.pager.page_size - at }
    requires below { at + count < 2 ^ 64 }
    requires inside { page < pages.old.cache.pager.pages }
    requires begins { page * pages.old.cache.pager.page_size < at + count }
    requires ends { at < page * pages.old.cache.pager.page_size + pages.old.cache.pager.page_size }
    ensures leaves { PeekLeaves pages.old.cache page (is_err result) pages.new.cache }
    ensures looks { OnlyLooks D.hash pages.old pages.new }
    ensures found { OnOk result (FindsPage pages.old.cache page (hand_bytes pages.new.cache page) pages.new.cache) }
    ensures bytes { OnOk result (bytes.new.items ≡ bytes.old.items ++ range_on pages.old.cache.pager.page_size at count page (hand_bytes pages.new.cache page)) }
    ensures long { OnOk result (vec_len bytes.new ≡ vec_len bytes.old + min (count - (page * pages.old.cache.pager.page_size - at)) (pages.old.cache.pager.page_size - (at - page * pages.old.cache.pager.page_size))) }
    ensures room { vec_capacity bytes.old ≤ vec_capacity bytes.new }
{
    let size = u64::from(pages.page_size());
    let first = page * size;
    pages.peek(page)?;
    let from = at.saturating_sub(first);
    let length = (count - first.saturating_sub(at)).min(size - from);
    let seen = pages.bytes(page);
    let Ok(()) = bytes.extend_from_slice(&seen[from as usize..(from + length) as usize]) else {
        unreachable!()
    };
    Ok(())
}
