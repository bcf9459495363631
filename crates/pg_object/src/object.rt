//! The object of one file.

ghost use Rattle.std.specs.Prelude.{◌≡◌, ◌<◌, ◌≤◌, None, Some, IsSome, IsTrue};
ghost use Rattle.cs_policy.specs.declared.file.FileEvent.TheVariants as event;
ghost use Rattle.cs_policy.specs.declared.file.FileReply.TheVariants as reply;
ghost use Rattle.pg_regions.specs.RegionsNow.{spare};
ghost use Rattle.pg_object.specs.Acts.{Acts};
ghost use Rattle.pg_object.specs.Checked.{KeepsChecked};
ghost use Rattle.pg_object.specs.Kept.{IsInside, IsKept};

use crate::blobs::Blobs;
use cs_policy::{FileReply, Layout, Refusal, Region};
use pg_digest::Digester;
use pg_io::Pager;
use pg_pages::Pages;
use pg_regions::Regions;
use std::marker::Model;

/// A file: its pages, the regions that map it, its attached signatures and its layout.
#[derive(Drop)]
pub struct Object<P: Pager, D: Digester> {
    pub(crate) pages: Pages<P, D>,
    pub(crate) regions: Regions,
    pub(crate) blobs: Blobs,
    pub(crate) length: u64,
    pub(crate) layout: Layout,
}

impl<P: Pager, D: Digester> Model for Object<P, D> {
    ghost use Rattle.pg_object.specs.Object.{ObjectNow};
    ghost use Rattle.pg_object.specs.Kept.{IsKept};

    ghost Value = { ObjectNow };

    ghost view = { λ object. record {
      pages = object.pages;
      regions = object.regions;
      blobs = object.blobs;
      length = object.length;
      layout = object.layout;
    } };

    ghost invariant = { λ object. IsKept D.hash (record {
      pages = object.pages;
      regions = object.regions;
      blobs = object.blobs;
      length = object.length;
      layout = object.layout;
    }) };
}

impl<P: Pager, D: Digester> Object<P, D> {
    /// How many pages the file has.
    pub fn file_pages(&self) -> u64
        ensures pages { result ≡ self.now.pages.cache.pager.pages }
    {
        self.pages.pages()
    }

    /// The layout of the file.
    pub fn layout(&self) -> &Layout
        ensures layout { result.now ≡ self.now.layout }
    {
        &self.layout
    }

    /// Notes that the bytes that were read at the stamp `read` are no signature.
    pub fn refuse_blob(&mut self, read: u64, refusal: Refusal) -> FileReply
        ensures acts { Acts D.hash self.old (event.RefuseBlob read refusal) None result self.new }
        ensures checked { KeepsChecked self.old (event.RefuseBlob read refusal) result self.new }
        ensures unhashed { self.new.pages.calls ≡ self.old.pages.calls }
        ensures kept { IsKept D.hash self.new }
    {
        let _ = &self.pages;
        FileReply::Noted
    }

    /// Adds a region, which the event with the stamp `insert` mapped. Its pages are pages of the file, and there is room
    /// for one more. Where a region has its number, nothing changes. The answer is `Added`.
    pub fn add_region(&mut self, region: Region, insert: u64) -> FileReply
        requires inside { IsInside self.old.pages.cache.pager.pages region }
        requires room { 0 < (spare self.old.regions).regions }
        ensures acts { Acts D.hash self.old (event.AddRegion region insert) None result self.new }
        ensures checked { KeepsChecked self.old (event.AddRegion region insert) result self.new }
        ensures unhashed { self.new.pages.calls ≡ self.old.pages.calls }
        ensures kept { IsKept D.hash self.new }
    {
        if self.regions.find(region.id).is_none() {
            self.regions.add(region);
        }
        FileReply::Added
    }

    /// Drops a region with its records and private copies. The answer is `Dropped`, or `NoRegion` exactly where there is no
    /// such region.
    pub fn drop_region(&mut self, id: u32) -> FileReply
        ensures acts { Acts D.hash self.old (event.DropRegion id) None result self.new }
        ensures checked { KeepsChecked self.old (event.DropRegion id) result self.new }
        ensures unhashed { self.new.pages.calls ≡ self.old.pages.calls }
        ensures kept { IsKept D.hash self.new }
    {
        if self.regions.drop_region(id) {
            FileReply::Dropped
        } else {
            FileReply::NoRegion { id }
        }
    }

    /// Drops all regions of a process in the same way. The answer is how many there were.
    pub fn drop_pid(&mut self, pid: u32) -> FileReply
        ensures acts { Acts D.hash self.old (event.DropPid pid) None result self.new }
        ensures checked { KeepsChecked self.old (event.DropPid pid) result self.new }
        ensures unhashed { self.new.pages.calls ≡ self.old.pages.calls }
        ensures kept { IsKept D.hash self.new }
    {
        let count = self.regions.drop_pid(pid);
        FileReply::DroppedAll { count }
    }
}
