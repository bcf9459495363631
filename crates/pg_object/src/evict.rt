//! Pages that leave memory.

ghost use Rattle.std.specs.Prelude.{◌≡◌, None};
ghost use Rattle.cs_policy.specs.declared.file.FileEvent.TheVariants as event;
ghost use Rattle.pg_object.specs.Acts.{Acts};
ghost use Rattle.pg_object.specs.Checked.{KeepsChecked};
ghost use Rattle.pg_object.specs.Kept.{IsKept};

use crate::object::Object;
use cs_policy::FileReply;
use pg_digest::Digester;
use pg_io::Pager;

impl<P: Pager, D: Digester> Object<P, D> {
    /// A page leaves memory, with each record of it whose region has no private copy of it. A dirty page is written.
    ///
    /// The answer is `NotResident` exactly where the page is not resident. `PagerFault` at this page comes only where
    /// that write failed, and all is then as before.
    pub fn evict(&mut self, page: u64) -> FileReply
        ensures acts { Acts D.hash self.old (event.Evict page) None result self.new }
        ensures checked { KeepsChecked self.old (event.Evict page) result self.new }
        ensures unhashed { self.new.pages.calls ≡ self.old.pages.calls }
        ensures kept { IsKept D.hash self.new }
    {
        match self.pages.evict(page) {
            Ok(true) => {
                self.regions.unmap_page(page);
                FileReply::Evicted
            }
            Ok(false) => FileReply::NotResident,
            Err(_) => FileReply::PagerFault { page },
        }
    }
}
