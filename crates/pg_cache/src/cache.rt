//! The calls of a cache.

ghost use Rattle.std.specs.Prelude.{◌≡◌, ◌+◌, ◌<◌, ◌≤◌, [], Some, None, IsTrue, IsSome, IfSome, IfOk, IfErr, IsOk, is_some, option_map, length, slice_get};
ghost use Rattle.pg_io.specs.PageBytes.{is_page_size};
ghost use Rattle.pg_cache.specs.Cache.{resident_page, at_hand, contents, IsSound};
ghost use Rattle.pg_cache.specs.Gives.{PeekGives, BringGives, PutGives, WriteGives, EvictGives};
ghost use Rattle.std.specs.Borrow.{sem};
ghost use Rattle.std.specs.Io.BufRead.{Rests};
ghost use Rattle.pg_cache.specs.contracts.cache.Cache.{the_row};

use crate::NoMemory;
use crate::fault::PagerFault;
use crate::store::Store;
use pg_io::{PageBuffer, Pager};
use std::alloc::Global;
use std::marker::Model;

mod steps;

/// A cache of the pages of one file.
///
/// Contracts see it as the list of its resident pages with their bytes, most recent first, the limit on
/// their number, the page in the spare buffer, and what is known of the pager. What every page holds now,
/// where the pager tells, is a definition over these (`contents` in `specs/Cache.antt`).
#[derive(Drop)]
pub struct Cache<P: Pager> {
    pager: P,
    // The resident pages, and the spare frame.
    store: Store,
    has_spare: bool,
    // A page that is to be written is made here.
    buffer: PageBuffer,
}

impl<P: Pager> Model for Cache<P> {
    ghost use Rattle.pg_cache.specs.Cache.{CacheNow};
    ghost use Rattle.pg_cache.specs.Buffers.{cache_of, HasBuffers};

    ghost Value = { CacheNow };

    ghost view = { λ cache. cache_of cache.store cache.has_spare (P.shows cache.pager) };

    ghost invariant = { λ cache. HasBuffers cache.store cache.buffer cache.has_spare (P.shows cache.pager) };
}

impl<P: Pager> Cache<P> {
    /// A cache over this pager in which no page is resident, and at most `limit` pages will be. All memory
    /// that it ever uses is taken here: a buffer for each of these pages and two more, and a table of all pages
    /// of the pager.
    pub fn open(alloc: Global, pager: P, limit: u32) -> Result<Cache<P>, NoMemory>
        requires some { 0 < limit }
        requires most { limit ≤ 4096 }
        ensures opened { IfOk result (λ cache. cache ≡ record { held = []; limit = limit; spare = None; pager = P.shows pager }) }
        ensures contents { IfOk result (λ cache. contents cache ≡ option_map (λ told. told.holds) (P.shows pager).told) }
        ensures sound { IfOk result IsSound }
    {
        let page_size = pager.page_size();
        let store = Store::open(alloc, limit, page_size, pager.pages())?;
        let buffer = PageBuffer::zeros(alloc, page_size)?;
        Ok(Cache {
            pager,
            store,
            has_spare: false,
            buffer,
        })
    }

    /// How many pages may be resident.
    pub fn limit(&self) -> u32
        ensures limit { result ≡ self.now.limit }
        ensures sound { IsSound self.now }
    {
        self.store.limit()
    }

    /// How many pages the file has.
    pub fn pages(&self) -> u64
        ensures pages { result ≡ self.now.pager.pages }
        ensures whole { IfSome (contents self.now) (λ pages. length pages ≡ result) }
        ensures sound { IsSound self.now }
    {
        self.pager.pages()
    }

    /// How many bytes a page has: 4,096 or 16,384.
    pub fn page_size(&self) -> u32
        ensures size { result ≡ self.now.pager.page_size }
        ensures known { IsTrue (is_page_size result) }
        ensures sound { IsSound self.now }
    {
        self.pager.page_size()
    }

    /// Whether a page is resident.
    pub fn is_resident(&self, page: u64) -> bool
        ensures resident { result ≡ is_some (resident_page self.now page) }
        ensures sound { IsSound self.now }
    {
        self.store.has(page)
    }

    /// The page that stands in the spare buffer, if one does: it was read and is not resident.
    pub fn spare(&self) -> Option<u64>
        ensures spare { result ≡ option_map (λ held. held.page) self.now.spare }
        ensures sound { IsSound self.now }
    {
        if self.has_spare {
            Some(self.store.spare_page())
        } else {
            None
        }
    }

    /// The present bytes of a page. The list of resident pages stays.
    ///
    /// No pager call is made for a resident page. Another is read once, into the spare buffer, also where
    /// it stands there already; a `bring` of the same page that follows makes no second read.
    ///
    /// `PagerFault` at this page comes only where that read failed, so never for a resident page. The contents
    /// and the list are then as they were, and nothing stands in the spare buffer.
    pub fn peek(&mut self, page: u64) -> Result<&[u8], PagerFault>
        requires { page < self.old.pager.pages }
        ensures* after_borrow { sem 𝓛 (Rests (the_row P.row P.Pager) self.entry (λ new. PeekGives self.old page result new)) }
        ensures bytes { IfOk result (λ bytes. IfSome (resident_page self.old page) (λ held. bytes.now ≡ held.bytes)) }
        ensures known { IfOk result (λ bytes. IfSome (contents self.old) (λ pages. slice_get pages page ≡ Some bytes.now)) }
        ensures whole { IfOk result (λ bytes. length bytes.now ≡ self.old.pager.page_size) }
        ensures resident { IsSome (resident_page self.old page) → IsOk result }
        ensures fault { IfErr result (λ fault. fault.page ≡ page) }
    {
        self.ready(page)?;
        Ok(self.bytes(page))
    }

    /// The present bytes of a page that is resident or stands in the spare buffer. No pager call is made.
    pub fn bytes(&self, page: u64) -> &[u8]
        requires inside { page < self.now.pager.pages }
        requires at_hand { IsSome (at_hand self.now page) }
        ensures bytes { option_map (λ held. held.bytes) (at_hand self.now page) ≡ Some result.now }
        ensures known { IfSome (contents self.now) (λ pages. slice_get pages page ≡ Some result.now) }
        ensures whole { length result.now ≡ self.now.pager.page_size }
    {
        self.seat(page)
    }

    /// Makes a page resident and the most recent, and answers the page that left the list for it.
    ///
    /// A resident page goes to the front of the list, with no pager call and no victim. Another is read
    /// once into the spare buffer, but only where that does not hold it: who wants a read for each call
    /// calls `peek` first. Then, where the list is full, its last page is the victim: it is written once if
    /// it is dirty, and leaves.
    ///
    /// `PagerFault` comes only where the read failed, at this page, or the write, at the victim. The
    /// contents, the list and the dirty pages are then as they were.
    pub fn bring(&mut self, page: u64) -> Result<Option<u64>, PagerFault>
        requires { page < self.old.pager.pages }
        ensures gives { BringGives self.old page result self.new }
    {
        self.bring_in(page)
    }

    /// Writes bytes over a part of a resident page, from the byte `at` on. The page is dirty then, and keeps
    /// its place in the list. No pager call is made.
    pub fn put(&mut self, page: u64, at: u32, bytes: &[u8])
        requires resident { IsSome (resident_page self.old page) }
        requires fits { at + length bytes.now ≤ self.old.pager.page_size }
        ensures gives { PutGives self.old page at bytes.now self.new }
    {
        self.put_in(page, at, bytes);
    }

    /// Writes bytes over a part of a page, from the byte `at` on, through to the pager. The list stays.
    ///
    /// There is one write of the whole new page. Before it a page that is not resident is read once, unless
    /// the bytes are a whole page. A resident page is clean afterwards. Nothing stands in the spare buffer.
    ///
    /// `PagerFault` at this page comes only where the read or the write failed. The contents, the list and
    /// the dirty pages are then as they were.
    pub fn write(&mut self, page: u64, at: u32, bytes: &[u8]) -> Result<(), PagerFault>
        requires inside { page < self.old.pager.pages }
        requires fits { at + length bytes.now ≤ self.old.pager.page_size }
        ensures gives { WriteGives self.old page at bytes.now result self.new }
    {
        self.write_through(page, at, bytes)
    }

    /// Takes a page out of the list, and answers false exactly where it is not resident.
    ///
    /// A dirty page is written once before; for another there is no pager call. The contents stay.
    ///
    /// `PagerFault` at this page comes only where that write failed. The list and the dirty pages are then
    /// as they were.
    pub fn evict(&mut self, page: u64) -> Result<bool, PagerFault>
        ensures gives { EvictGives self.old page result self.new }
    {
        self.put_out(page)
    }
}

#[cfg(test)]
mod tests;
