ghost use Rattle.std.specs.Prelude.{◌≡◌, ℕ, ◌+◌, ◌<◌, ◌≤◌, true, false, [], ◌∷◌, IfOk, IfSome, IfNone, slice_get};
ghost use Rattle.pg_frames.specs.Queues.{stands, last_of, from_on, HasOrder, only_free, after_detach};

use crate::NoMemory;
use crate::rings::{put, skip, to_themselves};
use pg_rows::Row;
use std::alloc::Global;
use std::marker::Model;

/// A queue of numbers below a count, and the free ones, as links in two rows.
///
/// Each is a ring with a root; the two roots are the nodes behind the numbers. A number in neither links to
/// itself. Contracts see the two lists.
#[derive(Drop)]
pub struct Links {
    count: u32,
    next: Row<u32>,
    prev: Row<u32>,
}

impl Model for Links {
    ghost use Rattle.pg_frames.specs.Queues.{Queues};
    ghost use Rattle.pg_frames.specs.Links.{queues_of, AreLinked};

    ghost Value = { Queues };

    ghost view = { λ links. queues_of links.count links.next };

    ghost invariant = { λ links. AreLinked links.count links.next links.prev };
}

impl Links {
    // So many numbers, all of them free, the least first.
    pub(crate) fn open(alloc: Global, count: u32) -> Result<Links, NoMemory>
        requires { count ≤ 65537 }
        ensures opened { IfOk result (λ links. links ≡ only_free count (from_on 0 count)) }
        ensures order { IfOk result (λ links. HasOrder links) }
    {
        let mut links = Links::held(alloc, count)?;
        let mut number = count;
        while number > 0 {
            number -= 1;
            links.put_free(number);
        }
        Ok(links)
    }

    // So many numbers, none of them queued or free.
    fn held(alloc: Global, count: u32) -> Result<Links, NoMemory>
        requires { count ≤ 65537 }
        ensures held { IfOk result (λ links. links ≡ only_free count []) }
        ensures order { IfOk result (λ links. HasOrder links) }
    {
        let next = to_themselves(alloc, count + 2)?;
        let prev = to_themselves(alloc, count + 2)?;
        Ok(Links { count, next, prev })
    }

    pub(crate) fn count(&self) -> u32
        ensures count { result ≡ self.now.count }
        ensures order { HasOrder self.now }
    {
        self.count
    }

    // Takes a number out of the list that it stands in, if there is one.
    pub(crate) fn detach(&mut self, number: u32)
        requires { number < self.old.count }
        ensures detaches { self.new ≡ after_detach self.old number }
        ensures order { HasOrder self.new }
    {
        skip(&mut self.next, &mut self.prev, number);
    }

    // Puts a number that stands in neither list at the queue's front.
    pub(crate) fn put_queued(&mut self, number: u32)
        requires inside { number < self.old.count }
        requires not_queued { stands number self.old.queue ≡ false }
        requires not_free { stands number self.old.free ≡ false }
        ensures puts { self.new ≡ record self.old { queue = number ∷ self.old.queue } }
        ensures order { HasOrder self.new }
    {
        put(&mut self.next, &mut self.prev, self.count + 1, number);
    }

    // The same of the free ones.
    pub(crate) fn put_free(&mut self, number: u32)
        requires inside { number < self.old.count }
        requires not_queued { stands number self.old.queue ≡ false }
        requires not_free { stands number self.old.free ≡ false }
        ensures puts { self.new ≡ record self.old { free = number ∷ self.old.free } }
        ensures order { HasOrder self.new }
    {
        put(&mut self.next, &mut self.prev, self.count, number);
    }

    // The first of the free ones.
    pub(crate) fn first_free(&self) -> Option<u32>
        ensures { result ≡ slice_get self.now.free 0 }
    {
        let root = self.count;
        let number = self.next.get(root as usize);
        if number == root { None } else { Some(number) }
    }

    // The last of the queue.
    pub(crate) fn last_queued(&self) -> Option<u32>
        ensures last { result ≡ last_of self.now.queue }
        ensures queued { IfSome result (λ number. stands number self.now.queue ≡ true) }
    {
        let root = self.count + 1;
        let number = self.prev.get(root as usize);
        if number == root { None } else { Some(number) }
    }
}
