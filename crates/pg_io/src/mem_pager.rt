ghost use Rattle.std.specs.Prelude.{◌≡◌, ◌+◌, ◌-◌, ◌<◌, ◌≤◌, ◌++◌, [], ◌∷◌, IfOk, IsTrue, is_err, if◌then◌else◌, vec_len, length, take, drop, replicate};
ghost use Rattle.pg_io.specs.Calls.{next_count, is_to_fail};
ghost use Rattle.pg_io.specs.PageBytes.{is_page_size};
ghost use Rattle.pg_io.specs.Pager.{FaultsAfter, IsRead, IsWrite};
ghost use Rattle.pg_io.specs.MemPages.{MemPagerNow, shown, whole_pages, after_page_read, after_page_write};
ghost use Rattle.pg_io.specs.MemPagesLaws.{shown-TellsWhole};

use crate::NoMemory;
use crate::calls::Calls;
use crate::log::Made;
use crate::page_buffer::put_bytes;
use crate::pager::Pager;
use crate::pager_call::PagerCall;
use crate::sink::Failed;
use std::marker::Model;

/// A file's pages in memory, and the numbers of the calls that are to fail.
#[derive(Drop)]
pub struct MemPager {
    bytes: Vec<u8>,
    page_size: u32,
    length: u64,
    calls: Calls,
    faults: u64,
    reads: u64,
    log: Made,
}

impl Model for MemPager {
    ghost use Rattle.std.specs.Prelude.{IsTrue};
    ghost use Rattle.pg_io.specs.PageBytes.{is_page_size};
    ghost use Rattle.pg_io.specs.MemPages.{MemPagerNow};

    ghost Value = { MemPagerNow };

    ghost view = { λ pager. record {
      bytes = pager.bytes.items;
      page_size = pager.page_size;
      length = pager.length;
      made = pager.calls.made;
      fails = pager.calls.fails.items;
      faults = pager.faults;
      reads = pager.reads;
      calls = pager.log;
    } };

    ghost invariant = { λ pager. IsTrue (is_page_size pager.page_size) };
}

impl MemPager {
    /// A pager of these bytes in pages of `page` bytes, 4,096 or 16,384, with zeros up to a whole page. The calls
    /// whose numbers stand in `fails` are to fail: the first call, of reads and writes together, is number 1.
    pub fn new(bytes: Vec<u8>, fails: Vec<u64>, page: u32) -> Result<MemPager, NoMemory>
        requires { IsTrue (is_page_size page) }
        ensures { IfOk result (λ pager. pager ≡ record {
          bytes = whole_pages page bytes.items;
          page_size = page;
          length = vec_len bytes;
          made = 0;
          fails = fails.items;
          faults = 0;
          reads = 0;
          calls = [];
        }) }
    {
        let length = bytes.len();
        Ok(MemPager {
            bytes: padded(bytes, page as usize)?,
            page_size: page,
            length: length as u64,
            calls: Calls::new(fails),
            faults: 0,
            reads: 0,
            log: Made::none(),
        })
    }

    /// How many bytes the file had, before zeros filled its last page.
    pub fn length(&self) -> u64
        ensures { result ≡ self.now.length }
    {
        self.length
    }

    // Counts this call, and says whether it is to fail.
    fn call_fails(&mut self, call: PagerCall) -> bool
        ensures fails { result ≡ is_to_fail self.old.made self.old.fails }
        ensures faults { FaultsAfter result self.old.faults self.new.faults }
        ensures counts { self.new ≡ record self.old {
          made = next_count self.old.made;
          faults = if result then next_count self.old.faults else self.old.faults;
          calls = self.old.calls ++ call ∷ [];
        } }
    {
        let fails = self.calls.next_fails();
        self.calls.count();
        self.log = self.log.and(call);
        if fails {
            self.faults = self.faults.saturating_add(1);
        }
        fails
    }
}

// The bytes, with zeros up to a whole page of this size.
fn padded(mut bytes: Vec<u8>, page_size: usize) -> Result<Vec<u8>, NoMemory>
    requires { IsTrue (is_page_size page_size) }
    ensures { IfOk result (λ whole. whole.items ≡ whole_pages page_size bytes.items) }
{
    let pages = bytes.len().div_ceil(page_size);
    bytes.resize(pages * page_size, 0)?;
    Ok(bytes)
}

impl Pager for MemPager {
    ghost shows = { shown };

    ghost whole = { shown-TellsWhole };

    fn pages(&self) -> u64 {
        (self.bytes.len() / self.page_size as usize) as u64
    }

    fn page_size(&self) -> u32 {
        self.page_size
    }

    fn read_page(&mut self, page: u64, into: &mut [u8]) -> Result<(), Failed>
        requires inside { page < (shown self.old).pages }
        requires whole { length into.old ≡ self.old.page_size }
        ensures read { IsRead (shown self.old) page (is_err result) into.new (shown self.new) }
        ensures after { self.new ≡ after_page_read page self.old }
    {
        self.reads = self.reads.saturating_add(1);
        if self.call_fails(PagerCall::Reads { page }) {
            return Err(Failed);
        }
        let page_size = self.page_size as usize;
        let at = page as usize * page_size;
        into.copy_from_slice(&self.bytes[at..at + page_size]);
        Ok(())
    }

    fn write_page(&mut self, page: u64, from: &[u8]) -> Result<(), Failed>
        requires inside { page < (shown self.old).pages }
        requires whole { length from.now ≡ self.old.page_size }
        ensures wrote { IsWrite (shown self.old) page (is_err result) from.now (shown self.new) }
        ensures after { self.new ≡ after_page_write page from.now self.old }
    {
        if self.call_fails(PagerCall::Writes { page }) {
            return Err(Failed);
        }
        let at = page as usize * self.page_size as usize;
        put_bytes(&mut self.bytes, at, from);
        Ok(())
    }
}
