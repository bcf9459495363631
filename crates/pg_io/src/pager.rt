ghost use Rattle.std.specs.Prelude.{◌≡◌, ◌<◌, IsTrue, length, is_err};
ghost use Rattle.pg_io.specs.PageBytes.{is_page_size};
ghost use Rattle.pg_io.specs.Pager.{PagerNow, TellsWhole, IsRead, IsWrite};

use crate::sink::Failed;

/// The pages of one file, which are read and written whole. They have one size, and page 0 is the first.
pub trait Pager: Drop {
    /// What is known of the pager: how many pages it has and of what size, what they hold and which calls are to
    /// fail where that is told, the counts of failed calls and of reads, and the calls that were made, one after
    /// another. A count stands still once it is 2^64 - 1.
    ghost shows: { Self → PagerNow };

    /// How many pages there are. No call changes it.
    fn pages(&self) -> u64
        ensures { result ≡ (shows self.now).pages };

    /// How many bytes a page has: 4,096 or 16,384. No call changes it.
    fn page_size(&self) -> u32
        ensures size { result ≡ (shows self.now).page_size }
        ensures known { IsTrue (is_page_size result) };

    /// Reads a page into a buffer of one page. After an `Err` anything may stand in the buffer.
    fn read_page(&mut self, page: u64, into: &mut [u8]) -> Result<(), Failed>
        requires inside { page < (shows self.old).pages }
        requires whole { length into.old ≡ (shows self.old).page_size }
        ensures { IsRead (shows self.old) page (is_err result) into.new (shows self.new) };

    /// Writes the bytes of one page. After an `Err` the page is as it was.
    fn write_page(&mut self, page: u64, from: &[u8]) -> Result<(), Failed>
        requires inside { page < (shows self.old).pages }
        requires whole { length from.now ≡ (shows self.old).page_size }
        ensures { IsWrite (shows self.old) page (is_err result) from.now (shows self.new) };

    ghost whole: { (pager : Self) → TellsWhole (shows pager) };
}
