ghost use Rattle.std.specs.Prelude.{◌<◌, ◌≤◌, IsTrue, IfSome, vec_len};
ghost use Rattle.pg_io.specs.PageBytes.{is_page_size};

use super::Cache;
use crate::PagerFault;
use pg_io::{MemPager, Pager};
use std::alloc::{AllocError, Global};
use std::process::Abort;
use std::test::Fail;

// A cache over three pages in memory of this size that begin with the bytes 10, 11 and 12.
fn cache(
    alloc: Global,
    page_size: u32,
    limit: u32,
    fails: u64,
) -> Result<Cache<MemPager>, AllocError>
    requires size { IsTrue (is_page_size page_size) }
    requires some { 0 < limit }
    requires most { limit ≤ 4096 }
{
    let size = page_size as usize;
    let mut bytes = vec![in alloc; 0; 2 * size + 1]?;
    for (page, byte) in [(0, 10), (size, 11), (2 * size, 12)] {
        if let Some(first) = bytes.get_mut(page) {
            *first = byte;
        }
    }
    let pager = MemPager::new(bytes, vec![in alloc; fails]?, page_size)?;
    Cache::open(alloc, pager, limit)
}

#[derive(Clone, Copy, Debug)]
enum Call {
    Peek(u64),
    Bring(u64),
    Put(u64, u8),
    Write(u64, u8),
    Evict(u64),
}

// A call on a cache: the first byte that is shown, the victim's number, or whether a page was evicted.
fn run<P: Pager>(cache: &mut Cache<P>, call: Call) -> Result<Option<u64>, PagerFault> {
    let pages = cache.pages();
    match call {
        Call::Peek(page) if page < pages => {
            let bytes = cache.peek(page)?;
            Ok(bytes.first().map(|byte| u64::from(*byte)))
        }
        Call::Bring(page) if page < pages => cache.bring(page),
        Call::Put(page, byte) if cache.is_resident(page) => {
            cache.put(page, 0, &[byte]);
            Ok(None)
        }
        Call::Write(page, byte) if page < pages => {
            cache.write(page, 0, &[byte])?;
            Ok(None)
        }
        Call::Evict(page) => Ok(Some(u64::from(cache.evict(page)?))),
        _ => Ok(None),
    }
}

// The plain list model: a page is known by its first byte.
#[derive(Drop)]
struct Plain {
    disk: Vec<u64>,
    // Page, first byte, and whether it is dirty.
    held: Vec<(u64, u64, bool)>,
    limit: usize,
    spare: Option<u64>,
    made: u64,
    fails: u64,
}

impl Plain {
    fn call(&mut self, page: u64) -> Result<(), PagerFault> {
        self.made = self.made.wrapping_add(1);
        if self.made == self.fails {
            return Err(PagerFault { page });
        }
        Ok(())
    }

    fn disk(&self, page: u64) -> u64 {
        self.disk.get(page as usize).copied().unwrap_or(0)
    }

    fn set_disk(&mut self, page: u64, byte: u64) {
        if let Some(first) = self.disk.get_mut(page as usize) {
            *first = byte;
        }
    }

    fn place(&self, page: u64) -> Option<usize>
        ensures { IfSome result (λ place. place < vec_len self.now.held) }
    {
        self.held.iter().position(|held| held.0 == page)
    }

    fn read(&mut self, page: u64) -> Result<(), PagerFault> {
        self.spare = None;
        self.call(page)?;
        self.spare = Some(page);
        Ok(())
    }

    fn run(&mut self, call: Call) -> Result<Option<u64>, PagerFault> {
        match call {
            Call::Peek(page) => self.peek(page),
            Call::Bring(page) => self.bring(page),
            Call::Put(page, byte) => {
                if let Some(place) = self.place(page) {
                    self.held[place] = (page, u64::from(byte), true);
                }
                Ok(None)
            }
            Call::Write(page, byte) => self.write(page, u64::from(byte)),
            Call::Evict(page) => self.evict(page),
        }
    }

    fn peek(&mut self, page: u64) -> Result<Option<u64>, PagerFault> {
        if let Some(place) = self.place(page) {
            return Ok(Some(self.held[place].1));
        }
        self.read(page)?;
        Ok(Some(self.disk(page)))
    }

    fn bring(&mut self, page: u64) -> Result<Option<u64>, PagerFault> {
        if let Some(place) = self.place(page) {
            let first = self.held.remove(place);
            let _ = self.held.insert(0, first);
            return Ok(None);
        }
        if self.spare != Some(page) {
            self.read(page)?;
        }
        let mut victim = None;
        if self.held.len() == self.limit
            && let Some((last, byte, dirty)) = self.held.last().copied()
        {
            if dirty {
                self.call(last)?;
                self.set_disk(last, byte);
            }
            let _ = self.held.pop();
            victim = Some(last);
        }
        self.spare = None;
        let first = (page, self.disk(page), false);
        let _ = self.held.insert(0, first);
        Ok(victim)
    }

    fn write(&mut self, page: u64, byte: u64) -> Result<Option<u64>, PagerFault> {
        let place = self.place(page);
        if place.is_none() {
            self.read(page)?;
        }
        self.spare = None;
        self.call(page)?;
        self.set_disk(page, byte);
        if let Some(place) = self.place(page) {
            self.held[place] = (page, byte, false);
        }
        Ok(None)
    }

    fn evict(&mut self, page: u64) -> Result<Option<u64>, PagerFault> {
        let Some(place) = self.place(page) else {
            return Ok(Some(0));
        };
        let (_, byte, dirty) = self.held[place];
        if dirty {
            self.call(page)?;
            self.set_disk(page, byte);
        }
        if let Some(place) = self.place(page) {
            self.held.remove(place);
        }
        Ok(Some(1))
    }
}

// The resident pages of a cache are those of the model.
fn same_list<R: Abort, P: Pager>(rt: &R, cache: &Cache<P>, plain: &Plain, after: Call, fails: u64) {
    for page in 0..3 {
        let place = plain.place(page);
        assert_eq!(rt;
            cache.is_resident(page),
            place.is_some(),
            "after {after:?}, {fails} fails"
        );
        if let Some(place) = place {
            let (_, byte, dirty) = plain.held[place];
            let first = cache.store.seat(page).first().map(|byte| u64::from(*byte));
            assert_eq!(rt; first, Some(byte), "after {after:?}, {fails} fails");
            assert_eq!(rt;
                cache.store.is_dirty(page),
                dirty,
                "after {after:?}, {fails} fails"
            );
        }
    }
    let last = if plain.held.len() == plain.limit {
        plain.held.last().map(|held| held.0)
    } else {
        None
    };
    assert_eq!(rt;
        cache.store.victim(),
        last,
        "after {after:?}, {fails} fails"
    );
}

const SCRIPT: [Call; 18] = [
    Call::Peek(0),
    Call::Bring(0),
    Call::Put(0, 20),
    Call::Bring(1),
    Call::Bring(0),
    Call::Peek(2),
    Call::Write(2, 30),
    Call::Bring(2),
    Call::Put(2, 31),
    Call::Bring(1),
    Call::Write(2, 32),
    Call::Put(1, 40),
    Call::Peek(0),
    Call::Bring(0),
    Call::Evict(1),
    Call::Evict(0),
    Call::Evict(0),
    Call::Peek(1),
];

#[test]
fn each_call_fails_in_turn(rt: HostRuntime) -> Result<(), Fail> {
    for fails in 0..16 {
        let mut cache = cache(rt.alloc(), 4096, 2, fails)?;
        let mut plain = Plain {
            disk: vec![in rt.alloc(); 10, 11, 12]?,
            held: Vec::new(rt.alloc()),
            limit: 2,
            spare: None,
            made: 0,
            fails,
        };
        for call in SCRIPT {
            let want = plain.run(call);
            assert_eq!(rt; run(&mut cache, call), want, "{call:?}, {fails} fails");
            same_list(&rt, &cache, &plain, call, fails);
        }
        for page in 0..3 {
            let want = plain.run(Call::Peek(page));
            assert_eq!(rt;
                run(&mut cache, Call::Peek(page)),
                want,
                "{page}, {fails} fails"
            );
        }
    }
    Ok(())
}

#[test]
fn rows_of_calls(rt: HostRuntime) -> Result<(), Fail> {
    let fault = |page| Err(PagerFault { page });
    let rows = [
        // One page may be resident: each page that is brought puts the last one out.
        (0, Call::Bring(0), Ok(None)),
        (0, Call::Bring(1), Ok(Some(0))),
        (0, Call::Bring(0), Ok(Some(1))),
        // The dirty victim cannot be written by the third call: it stays, with what was put.
        (3, Call::Bring(0), Ok(None)),
        (3, Call::Put(0, 1), Ok(None)),
        (3, Call::Bring(1), fault(0)),
        (3, Call::Peek(0), Ok(Some(1))),
        (3, Call::Evict(1), Ok(Some(0))),
        (3, Call::Evict(0), Ok(Some(1))),
        (3, Call::Peek(0), Ok(Some(1))),
        // A second read would fail: a peek and the bring that follows read once.
        (2, Call::Peek(0), Ok(Some(10))),
        (2, Call::Bring(0), Ok(None)),
        (2, Call::Peek(0), Ok(Some(10))),
        (2, Call::Bring(1), fault(1)),
        (2, Call::Peek(0), Ok(Some(10))),
    ];
    let mut now = 0;
    let mut used = cache(rt.alloc(), 16384, 1, now)?;
    for (fails, call, want) in rows {
        if fails != now {
            used = cache(rt.alloc(), 16384, 1, fails)?;
            now = fails;
        }
        assert_eq!(rt; run(&mut used, call), want, "{call:?}, {fails} fails");
    }
    Ok(())
}

#[test]
fn a_cache_tells_its_sizes(rt: HostRuntime) -> Result<(), Fail> {
    for page_size in [4096, 16384] {
        let mut used = cache(rt.alloc(), page_size, 2, 0)?;
        assert_eq!(rt; used.limit(), 2);
        assert_eq!(rt; used.pages(), 3);
        assert_eq!(rt; used.page_size(), page_size);
        assert_eq!(rt; used.spare(), None);
        assert_eq!(rt; run(&mut used, Call::Peek(1)), Ok(Some(11)));
        assert_eq!(rt; used.spare(), Some(1));
        assert_eq!(rt; run(&mut used, Call::Bring(1)), Ok(None));
        assert_eq!(rt; used.spare(), None);
    }
    Ok(())
}
