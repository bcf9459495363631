ghost use Rattle.std.specs.Prelude.{◌≡◌, ◌+◌, ◌≤◌, ◌<◌, true, false, [], ◌∷◌, IsTrue, IfOk, IfSome, IfNone, length, slice_get};
ghost use Rattle.std.specs.Borrow.{sem};
ghost use Rattle.pg_frames.specs.Arena.{is_page_size, stands, without, length_without, last_of, EndsBy, opened, after_take, after_give, after_touch, frame_bytes, IsHeld, IsQueued, IsSound};
ghost use Rattle.pg_frames.specs.Lends.{LendsFrame};

use crate::NoMemory;
use crate::links::Links;
use pg_rows::Row;
use std::alloc::Global;
use std::marker::Model;

/// Page frames in one block of memory, with a queue of those in use.
///
/// A frame is named by its number, from 0 to the limit. It is free, or in the queue of use, or held by who
/// took it. All memory is taken by `open`. Contracts see the page size, the frames' bytes, the queue (the frame
/// touched last first) and the free frames, as `specs/Arena.antt` has them.
#[derive(Drop)]
pub struct FrameArena {
    // The frames, side by side.
    bytes: Row<u8>,
    page: usize,
    links: Links,
}

impl Model for FrameArena {
    ghost use Rattle.pg_frames.specs.Arena.{Arena};
    ghost use Rattle.pg_frames.specs.Blocks.{arena_of, IsArena};

    ghost Value = { Arena };

    ghost view = { λ arena. arena_of arena.bytes arena.page arena.links };

    ghost invariant = { λ arena. IsArena arena.bytes arena.page arena.links };
}

impl FrameArena {
    /// An arena of `limit + 1` frames of `page` bytes each, all free and zero. It fails for want of memory alone.
    pub fn open(alloc: Global, limit: u32, page: u32) -> Result<FrameArena, NoMemory>
        requires some { 1 ≤ limit }
        requires most { limit ≤ 65536 }
        requires page { IsTrue (is_page_size page) }
        ensures opened { IfOk result (λ arena. arena ≡ opened limit page) }
        ensures count { IfOk result (λ arena. length arena.frames ≡ limit + 1) }
        ensures sound { IfOk result (λ arena. IsSound arena) }
    {
        let count = limit + 1;
        let page = page as usize;
        let bytes = Row::filled(alloc, 0, count as usize * page)?;
        let links = Links::open(alloc, count)?;
        Ok(FrameArena { bytes, page, links })
    }

    /// A free frame, which is then held; None exactly where no frame is free. Its bytes are as they were left.
    pub fn take_spare(&mut self) -> Option<u32>
        ensures spare { result ≡ slice_get self.old.free 0 }
        ensures takes { self.new ≡ after_take self.old }
        ensures none { IfNone result (self.old.free ≡ []) }
        ensures was_free { IfSome result (λ frame. stands frame self.old.free ≡ true) }
        ensures held { IfSome result (λ frame. IsHeld self.new frame) }
        ensures fewer { IfSome result (λ _. length self.new.free + 1 ≡ length self.old.free) }
        ensures frames { self.new.frames ≡ self.old.frames }
        ensures queue { self.new.queue ≡ self.old.queue }
        ensures sound { IsSound self.new }
    {
        let frame = self.links.first_free()?;
        self.links.detach(frame);
        Some(frame)
    }

    /// Frees a held or queued frame. It is the next that `take_spare` gives.
    pub fn give_back(&mut self, frame: u32)
        requires in_range { frame < length self.old.frames }
        requires not_free { stands frame self.old.free ≡ false }
        ensures gives { self.new ≡ after_give self.old frame }
        ensures frames { self.new.frames ≡ self.old.frames }
        ensures free { self.new.free ≡ frame ∷ self.old.free }
        ensures queue { self.new.queue ≡ without frame self.old.queue }
        ensures left { stands frame self.new.queue ≡ false }
        ensures length { length self.new.queue ≡ length_without frame self.old.queue }
        ensures sound { IsSound self.new }
    {
        self.links.detach(frame);
        self.links.put_free(frame);
    }

    /// Puts a held or queued frame at the queue's front.
    pub fn touch(&mut self, frame: u32)
        requires in_range { frame < length self.old.frames }
        requires not_free { stands frame self.old.free ≡ false }
        ensures touches { self.new ≡ after_touch self.old frame }
        ensures frames { self.new.frames ≡ self.old.frames }
        ensures free { self.new.free ≡ self.old.free }
        ensures length { length self.new.queue ≡ length_without frame self.old.queue + 1 }
        ensures queued { IsQueued self.new frame }
        ensures sound { IsSound self.new }
    {
        self.links.detach(frame);
        self.links.put_queued(frame);
    }

    /// The frame that was touched longest ago, the queue's last; None exactly where the queue is empty.
    pub fn last(&self) -> Option<u32>
        ensures last { result ≡ last_of self.now.queue }
        ensures none { IfNone result (self.now.queue ≡ []) }
        ensures queued { IfSome result (λ frame. IsQueued self.now frame) }
        ensures ends { IfSome result (λ frame. EndsBy frame self.now.queue) }
        ensures sound { IsSound self.now }
    {
        self.links.last_queued()
    }

    /// The bytes of a frame, whether or not it is free.
    pub fn bytes(&self, frame: u32) -> &[u8]
        requires in_range { frame < length self.now.frames }
        ensures bytes { result.now ≡ frame_bytes self.now frame }
        ensures whole { length result.now ≡ self.now.page }
        ensures sound { IsSound self.now }
    {
        let from = frame as usize * self.page;
        &self.bytes.as_slice()[from..from + self.page]
    }

    /// The bytes of a held or queued frame, to be changed. All else stays.
    pub fn bytes_mut(&mut self, frame: u32) -> &mut [u8]
        requires in_range { frame < length self.old.frames }
        requires not_free { stands frame self.old.free ≡ false }
        ensures* after_borrow { sem 𝓛 (LendsFrame self.entry frame result) }
        ensures bytes { result.now ≡ frame_bytes self.old frame }
        ensures whole { length result.now ≡ self.old.page }
        ensures sound { IsSound self.old }
    {
        let (page, from) = (self.page, frame as usize * self.page);
        self.bytes.slice_mut(from, page)
    }
}
