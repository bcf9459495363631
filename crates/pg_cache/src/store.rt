// Pages in the frames of an arena. A page is found by a table that is indexed by its number.
ghost use Rattle.std.specs.Prelude.{◌≡◌, ◌+◌, ◌-◌, ◌<◌, ◌≤◌, false, None, Some, IsTrue, IfSome, IfOk, is_some, is_err, option_map, length, take, slice_get, if◌then◌else◌};
ghost use Rattle.pg_io.specs.PageBytes.{is_page_size, written_over};
ghost use Rattle.pg_io.specs.Pager.{IsRead};
ghost use Rattle.pg_frames.specs.Arena.{stands, frame_bytes, with_bytes};
ghost use Rattle.pg_cache.specs.Held.{find_held, without, changed, fronted, clean};
ghost use Rattle.pg_cache.specs.Contents.{bytes_or};
ghost use Rattle.pg_cache.specs.Store.{IsOpened, HasWholeSpare, Fronts, overwritten, frame_of};

use crate::NoMemory;
use crate::card::Card;
use pg_frames::FrameArena;
use pg_io::{Failed, Pager, put_bytes};
use std::alloc::Global;
use std::marker::Model;

// A list of pages in frames, the most recent first, and one page beside it in the spare frame.
#[derive(Drop)]
pub(crate) struct Store {
    arena: FrameArena,
    // By frame.
    cards: Vec<Card>,
    // By page, the frame that it stands in where it is in the list.
    table: Vec<Option<u32>>,
    spare: u32,
    // How many pages are in the list.
    used: u32,
    limit: u32,
}

impl Model for Store {
    ghost use Rattle.pg_cache.specs.Store.{Stored, stored_of, IsStored};

    ghost Value = { Stored };

    ghost view = { λ store. stored_of (record {
      arena = store.arena;
      cards = store.cards.items;
      table = store.table.items;
      spare = store.spare;
      used = store.used;
      limit = store.limit;
    }) };

    ghost invariant = { λ store. IsStored (record {
      arena = store.arena;
      cards = store.cards.items;
      table = store.table.items;
      spare = store.spare;
      used = store.used;
      limit = store.limit;
    }) };
}

impl Store {
    // An empty list of at most `limit` of so many pages. All memory is taken here.
    pub(crate) fn open(
        alloc: Global,
        limit: u32,
        page_size: u32,
        pages: u64,
    ) -> Result<Store, NoMemory>
        requires some { 0 < limit }
        requires most { limit ≤ 4096 }
        requires size { IsTrue (is_page_size page_size) }
        ensures { IfOk result (IsOpened limit page_size pages) }
    {
        let mut arena = FrameArena::open(alloc, limit, page_size)?;
        let card = Card {
            page: 0,
            dirty: false,
        };
        let cards = vec![in alloc; card; limit as usize + 1]?;
        let table = vec![in alloc; None; pages as usize]?;
        let spare = arena.take_spare().unwrap();
        Ok(Store {
            arena,
            cards,
            table,
            spare,
            used: 0,
            limit,
        })
    }

    // How many pages the list may have.
    pub(crate) fn limit(&self) -> u32
        ensures { result ≡ self.now.limit }
    {
        self.limit
    }

    // Whether a page is in the list.
    pub(crate) fn has(&self, page: u64) -> bool
        ensures { result ≡ is_some (find_held self.now.held page) }
    {
        frame_at(&self.table, page).is_some()
    }

    // The bytes of a page of the list.
    fn bytes(&self, page: u64) -> Option<&[u8]>
        ensures { option_map (λ bytes. bytes.now) result ≡ option_map (λ held. held.bytes) (find_held self.now.held page) }
    {
        let frame = frame_at(&self.table, page)?;
        Some(self.arena.bytes(frame))
    }

    // The bytes of a page of the list, or else those of the page in the spare frame.
    pub(crate) fn seat(&self, page: u64) -> &[u8]
        ensures { result.now ≡ bytes_or (find_held self.now.held page) self.now.spare.bytes }
    {
        match self.bytes(page) {
            Some(bytes) => bytes,
            None => self.spare_bytes(),
        }
    }

    // The bytes of a page of the list, if it is dirty.
    pub(crate) fn dirty_bytes(&self, page: u64) -> Option<&[u8]>
        ensures { IfSome (find_held self.now.held page) (λ held. option_map (λ bytes. bytes.now) result ≡ (if held.dirty then Some held.bytes else None)) }
    {
        if self.is_dirty(page) {
            self.bytes(page)
        } else {
            None
        }
    }

    // Whether a page of the list is dirty.
    pub(crate) fn is_dirty(&self, page: u64) -> bool
        ensures { IfSome (find_held self.now.held page) (λ held. result ≡ held.dirty) }
    {
        match frame_at(&self.table, page) {
            Some(frame) => self.cards[frame as usize].dirty,
            None => false,
        }
    }

    // The number of the page in the spare frame.
    pub(crate) fn spare_page(&self) -> u64
        ensures { result ≡ self.now.spare.page }
    {
        self.cards[self.spare as usize].page
    }

    // Its bytes.
    pub(crate) fn spare_bytes(&self) -> &[u8]
        ensures { result.now ≡ self.now.spare.bytes }
    {
        self.arena.bytes(self.spare)
    }

    // Reads a page into the spare frame. After an `Err` any bytes may stand there.
    pub(crate) fn read_spare<P: Pager>(&mut self, pager: &mut P, page: u64) -> Result<(), Failed>
        requires inside { page < (P.shows pager.old).pages }
        requires whole { self.old.page_size ≡ (P.shows pager.old).page_size }
        ensures read { IsRead (P.shows pager.old) page (is_err result) self.new.spare.bytes (P.shows pager.new) }
        ensures spare { self.new ≡ record self.old { spare = clean page self.new.spare.bytes } }
        ensures whole { HasWholeSpare self.new }
    {
        self.cards[self.spare as usize] = Card { page, dirty: false };
        read_in(&mut self.arena, self.spare, pager, page)
    }

    // Moves a page of the list to its front, and says whether it is there.
    pub(crate) fn to_front(&mut self, page: u64) -> bool
        ensures there { result ≡ is_some (find_held self.old.held page) }
        ensures fronts { self.new ≡ record self.old { held = fronted self.old.held page } }
    {
        let Some(frame) = frame_at(&self.table, page) else {
            return false;
        };
        self.arena.touch(frame);
        true
    }

    // Writes bytes over a part of a page of the list, and marks it as dirty or clean.
    pub(crate) fn put(&mut self, page: u64, at: u32, bytes: &[u8], dirty: bool)
        requires { at + length bytes.now ≤ self.old.page_size }
        ensures { self.new ≡ record self.old { held = changed (overwritten at bytes.now dirty) self.old.held page } }
    {
        if let Some(frame) = frame_at(&self.table, page) {
            put_in(&mut self.arena, frame, at, bytes);
            self.cards[frame as usize] = Card { page, dirty };
        }
    }

    // The number of the page that has to leave for another: the last of the list, where it is full.
    pub(crate) fn victim(&self) -> Option<u64>
        ensures victim { result ≡ option_map (λ held. held.page) (slice_get self.now.held (self.now.limit - 1)) }
        ensures others { IfSome result (λ page. without self.now.held page ≡ take (self.now.limit - 1) self.now.held) }
    {
        if self.used < self.limit {
            return None;
        }
        let last = self.arena.last()?;
        Some(self.cards[last as usize].page)
    }

    // Takes a page out of the list.
    pub(crate) fn remove(&mut self, page: u64)
        ensures { self.new ≡ record self.old { held = without self.old.held page } }
    {
        if let Some(frame) = frame_at(&self.table, page) {
            self.arena.give_back(frame);
            self.table[page as usize] = None;
            self.used -= 1;
        }
    }

    // Puts the page in the spare frame at the front of the list, which is not full.
    fn push_spare(&mut self)
        requires inside { self.old.spare.page < self.old.pages }
        requires absent { find_held self.old.held self.old.spare.page ≡ None }
        requires room { length self.old.held < self.old.limit }
        ensures { Fronts self.old self.old.held self.new }
    {
        let page = self.spare_page();
        self.arena.touch(self.spare);
        self.table[page as usize] = Some(self.spare);
        self.used += 1;
        self.spare = self.arena.take_spare().unwrap();
    }

    // Puts the page in the spare frame at the front of the list, in the victim's place.
    pub(crate) fn enter(&mut self) -> Option<u64>
        requires inside { self.old.spare.page < self.old.pages }
        requires absent { find_held self.old.held self.old.spare.page ≡ None }
        requires limited { length self.old.held ≤ self.old.limit }
        requires some { 0 < self.old.limit }
        ensures enters { Fronts self.old (take (self.old.limit - 1) self.old.held) self.new }
        ensures leaver { result ≡ option_map (λ held. held.page) (slice_get self.old.held (self.old.limit - 1)) }
    {
        let leaver = self.victim();
        if let Some(page) = leaver {
            self.remove(page);
        }
        self.push_spare();
        leaver
    }
}

// The frame of a page.
fn frame_at(table: &[Option<u32>], page: u64) -> Option<u32>
    ensures { result ≡ frame_of table.now page }
{
    if page < table.len() as u64 {
        table[page as usize]
    } else {
        None
    }
}

// Writes bytes over a part of a frame.
fn put_in(arena: &mut FrameArena, frame: u32, at: u32, bytes: &[u8])
    requires in_range { frame < length arena.old.frames }
    requires not_free { stands frame arena.old.free ≡ false }
    requires fits { at + length bytes.now ≤ arena.old.page }
    ensures { arena.new ≡ with_bytes arena.old frame (written_over (frame_bytes arena.old frame) at bytes.now) }
{
    put_bytes(arena.bytes_mut(frame), at as usize, bytes);
}

// Reads a page into a frame. After an `Err` any bytes may stand there.
fn read_in<P: Pager>(
    arena: &mut FrameArena,
    frame: u32,
    pager: &mut P,
    page: u64,
) -> Result<(), Failed>
    requires in_range { frame < length arena.old.frames }
    requires not_free { stands frame arena.old.free ≡ false }
    requires inside { page < (P.shows pager.old).pages }
    requires whole { arena.old.page ≡ (P.shows pager.old).page_size }
    ensures read { IsRead (P.shows pager.old) page (is_err result) (frame_bytes arena.new frame) (P.shows pager.new) }
    ensures frame { arena.new ≡ with_bytes arena.old frame (frame_bytes arena.new frame) }
    ensures whole { length (frame_bytes arena.new frame) ≡ arena.old.page }
{
    pager.read_page(page, arena.bytes_mut(frame))
}
