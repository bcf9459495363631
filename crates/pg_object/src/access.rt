//! Bytes that are stored, loaded and fetched through a mapping.

ghost use Rattle.std.specs.Prelude.{◌≡◌, ◌+◌, ◌<◌, ◌≤◌, [], List, ℕ, true, None, length, take, drop};
ghost use Rattle.cs_policy.specs.declared.file.FileEvent.TheVariants as event;
ghost use Rattle.cs_policy.specs.declared.file.FileReply.TheVariants as reply;
ghost use Rattle.pg_cache.specs.Finds.{Finds};
ghost use Rattle.pg_plain.specs.PlainFile.{has_record, may_read, may_write, may_execute};
ghost use Rattle.pg_plain.specs.Steps.{seen_by};
ghost use Rattle.pg_object.specs.Object.{seen};
ghost use Rattle.pg_object.specs.Kept.{IsKept};
ghost use Rattle.pg_object.specs.Acts.{Acts};
ghost use Rattle.pg_object.specs.Checked.{KeepsChecked, LeavesChecked};

use crate::object::Object;
use cs_policy::{Bytes64, FileReply};
use pg_digest::Digester;
use pg_io::Pager;

// Bytes of a page, 1 to 64 that stay in it, from the byte `at` of the page on.
fn got(bytes: &[u8], at: u32, count: u32) -> FileReply
    requires some { 0 < count }
    requires most { count ≤ 64 }
    requires fits { at + count ≤ length bytes.now }
    ensures { result ≡ reply.Got (take count (drop at bytes.now)) }
{
    let from = at as usize;
    let Some(bytes) = Bytes64::new(&bytes[from..from + count as usize]) else {
        unreachable!()
    };
    FileReply::Got { bytes }
}

impl<P: Pager, D: Digester> Object<P, D> {
    // Whether the record of a region and page permits reading.
    fn may_read(&self, id: u32, page: u64) -> bool
        ensures answer { result ≡ may_read (seen self.now []) id page }
        ensures kept { IsKept D.hash self.now }
    {
        match self.regions.record(id, page) {
            Some(record) => record.read,
            None => false,
        }
    }

    // The same of writing.
    fn may_write(&self, id: u32, page: u64) -> bool
        ensures answer { result ≡ may_write (seen self.now []) id page }
        ensures kept { IsKept D.hash self.now }
    {
        match self.regions.record(id, page) {
            Some(record) => record.write,
            None => false,
        }
    }

    // The same of execution.
    fn may_execute(&self, id: u32, page: u64) -> bool
        ensures answer { result ≡ may_execute (seen self.now []) id page }
        ensures kept { IsKept D.hash self.now }
    {
        match self.regions.record(id, page) {
            Some(record) => record.execute,
            None => false,
        }
    }

    // Bytes of a page as a region sees it that has a record of it: its private copy, or else the page.
    fn look(&self, id: u32, page: u64, at: u32, count: u32) -> FileReply
        requires mapped { has_record (seen self.now []) id page ≡ true }
        requires some { 0 < count }
        requires most { count ≤ 64 }
        requires fits { at + count ≤ self.now.pages.cache.pager.page_size }
        ensures { (pages : List (List ℕ)) → Finds self.now.pages.cache pages
            → result ≡ reply.Got (take count (drop at (seen_by (seen self.now pages) id page))) }
    {
        match self.regions.copy(id, page) {
            Some(copy) => got(copy, at, count),
            None => got(self.pages.bytes(page), at, count),
        }
    }

    /// Stores 1 to 64 bytes that stay in a page, from the byte `at` of the page on: into the region's private copy of
    /// the page where it has one, else into the page, which is dirty then. `resolve` is the stamp at which the region
    /// and the page were found.
    ///
    /// The answer is `NotMapped` exactly where no record of the region and page permits writing, and all is then as
    /// before. No page that is checked changes.
    pub fn store(&mut self, id: u32, page: u64, at: u32, bytes: &Bytes64, resolve: u64) -> FileReply
        requires fits { at + length bytes.now ≤ self.old.pages.cache.pager.page_size }
        ensures acts { Acts D.hash self.old (event.Store id page at bytes.now resolve) None result self.new }
        ensures checked { KeepsChecked self.old (event.Store id page at bytes.now resolve) result self.new }
        ensures elsewhere { LeavesChecked self.old self.new }
        ensures unhashed { self.new.pages.calls ≡ self.old.pages.calls }
        ensures kept { IsKept D.hash self.new }
    {
        if !self.may_write(id, page) {
            return FileReply::NotMapped;
        }
        if self.regions.copy(id, page).is_some() {
            self.regions.put_copy(id, page, at, bytes.bytes());
        } else {
            self.pages.put(page, at, bytes.bytes());
        }
        FileReply::Stored
    }

    /// Loads `count` bytes, 1 to 64 that stay in a page, from the byte `at` of the page on: of the region's private
    /// copy of the page where it has one, else of the page. `resolve` is as for `store`. Nothing changes.
    ///
    /// The answer is `NotMapped` exactly where no record of the region and page permits reading.
    pub fn load(&mut self, id: u32, page: u64, at: u32, count: u32, resolve: u64) -> FileReply
        requires some { 0 < count }
        requires most { count ≤ 64 }
        requires fits { at + count ≤ self.old.pages.cache.pager.page_size }
        ensures acts { Acts D.hash self.old (event.Load id page at count resolve) None result self.new }
        ensures checked { KeepsChecked self.old (event.Load id page at count resolve) result self.new }
        ensures unhashed { self.new.pages.calls ≡ self.old.pages.calls }
        ensures kept { IsKept D.hash self.new }
        ensures unchanged { self.new ≡ self.old }
    {
        if !self.may_read(id, page) {
            return FileReply::NotMapped;
        }
        self.look(id, page, at, count)
    }

    /// Fetches bytes in the same way for execution: the answer is `NotMapped` exactly where no record of the region and
    /// page permits that.
    pub fn fetch(&mut self, id: u32, page: u64, at: u32, count: u32, resolve: u64) -> FileReply
        requires some { 0 < count }
        requires most { count ≤ 64 }
        requires fits { at + count ≤ self.old.pages.cache.pager.page_size }
        ensures acts { Acts D.hash self.old (event.Fetch id page at count resolve) None result self.new }
        ensures checked { KeepsChecked self.old (event.Fetch id page at count resolve) result self.new }
        ensures unhashed { self.new.pages.calls ≡ self.old.pages.calls }
        ensures kept { IsKept D.hash self.new }
        ensures unchanged { self.new ≡ self.old }
    {
        if !self.may_execute(id, page) {
            return FileReply::NotMapped;
        }
        self.look(id, page, at, count)
    }
}
