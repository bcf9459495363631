//! How the object of a file is opened.

ghost use Rattle.std.specs.Prelude.{◌≡◌, ◌<◌, ◌^◌, [], IfOk};
ghost use Rattle.pg_io.specs.MemPages.{pages_reached};
ghost use Rattle.pg_object.specs.Kept.{IsLaid, IsKept};
ghost use Rattle.pg_object.specs.Opened.{IsOpened};

use crate::NoMemory;
use crate::blobs::Blobs;
use crate::object::Object;
use cs_policy::Layout;
use pg_digest::Digester;
use pg_io::Pager;
use pg_pages::Pages;
use pg_plain::opening_keeps;
use pg_regions::Regions;
use std::alloc::Global;

/// How many regions, records and private copies there is room for.
#[derive(Clone, Copy, Debug, PartialEq, Eq)]
pub struct Room {
    pub regions: usize,
    pub records: usize,
    pub copies: usize,
}

impl<P: Pager, D: Digester + Drop> Object<P, D> {
    /// The object of a file of `length` bytes with these pages, which nobody has mapped yet. No page is resident, and
    /// there are just the pages that the bytes reach. Each signed slice of the layout lies with its signature within the
    /// bytes. Slices and regions are fewer than 2^32.
    ///
    /// The memory for as many regions, records, private copies and attached signatures as there is room for is taken here.
    /// There is room for 64 signatures.
    pub fn open(
        alloc: Global,
        pages: Pages<P, D>,
        length: u64,
        layout: Layout,
        room: Room,
    ) -> Result<Object<P, D>, NoMemory>
        requires empty { pages.cache.held ≡ [] }
        requires reached { pages.cache.pager.pages ≡ pages_reached pages.cache.pager.page_size length }
        requires laid { IsLaid length layout }
        requires few { room.regions < 2 ^ 32 }
        ensures opened { IfOk result (IsOpened pages length layout room) }
        ensures kept { IfOk result (IsKept D.hash) }
    {
        let page_size = pages.page_size();
        let regions = Regions::open(alloc, room.regions, room.records, room.copies, page_size)?;
        let blobs = Blobs::open(alloc)?;
        let mut pages = pages;
        pages.forget_spare();
        opening_keeps();
        Ok(Object {
            pages,
            regions,
            blobs,
            length,
            layout,
        })
    }
}
