//! Faults: what a region is given of a page.

ghost use Rattle.std.specs.Prelude.{◌≡◌, ◌<◌, IsTrue, option_copied};
ghost use Rattle.pg_bytes.specs.PageSize.{is_page_size};
ghost use Rattle.cs_policy.specs.declared.access.Access.TheVariants.{Write};
ghost use Rattle.cs_policy.specs.declared.file.FileEvent.TheVariants as event;
ghost use Rattle.pg_regions.specs.RegionsNow.{spare, IsSound};
ghost use Rattle.pg_object.specs.Acts.{Acts};
ghost use Rattle.pg_object.specs.Checked.{KeepsChecked, IsLazy};
ghost use Rattle.pg_object.specs.Enters.{against, Unmaps};
ghost use Rattle.pg_object.specs.Kept.{IsKept};

use crate::give::give;
use crate::kept::{Kept, covering};
use crate::object::Object;
use crate::rules::region_with;
use crate::take::{Taken, take_page};
use cs_blob::Blob;
use cs_policy::{Access, Denial, FileReply, ProcFlags, guarded};
use pg_digest::Digester;
use pg_io::Pager;
use pg_regions::Regions;

impl<P: Pager, D: Digester> Object<P, D> {
    /// A fault: a process with these flags asks through a region for an access to a page. `resolve` is the stamp at
    /// which the region and the page were found. There is room for a record and, for a write, for a private copy.
    ///
    /// The region's record of the page is given the access. Where the region has no private copy of the page, the page
    /// is made resident, as the most recent; another may leave for it, with each record of it whose region has no
    /// private copy of it, and is written where it is dirty. A write to a private region makes a private copy,
    /// and one to a shared region takes the permission to execute from every record of the page.
    ///
    /// The answer is `NoRegion` exactly where no such region has the page. A guarded process is `Denied` an access that
    /// breaks a rule, with the first rule that it breaks; another is `Given` it, with that rule. `PagerFault` comes only
    /// where a pager call failed, at its page. The regions, their records and copies and the list of resident pages stay
    /// as they were unless the answer is `Given`. A page is hashed only for an execution that breaks no rule which can be
    /// told without its bytes, each of its hash pages once at most, and a checked page never.
    pub fn enter(
        &mut self,
        id: u32,
        page: u64,
        access: Access,
        flags: ProcFlags,
        resolve: u64,
    ) -> FileReply
        requires records { 0 < (spare self.old.regions).records }
        requires copies { access ≡ Write → 0 < (spare self.old.regions).copies }
        ensures acts { Acts D.hash self.old (event.Enter id page access flags resolve) None result self.new }
        ensures checked { KeepsChecked self.old (event.Enter id page access flags resolve) result self.new }
        ensures lazy { IsLazy self.old id page access result self.new }
        ensures kept { IsKept D.hash self.new }
    {
        let Some(region) = region_with(&self.regions, id, page) else {
            return FileReply::NoRegion { id };
        };
        let guarded = guarded(flags);
        let broken = self.broken_unread(&region, page, access);
        if guarded {
            if let Some(denial) = broken {
                return FileReply::Denied(denial);
            }
        }
        if self.regions.copy(id, page).is_some() {
            give(
                &mut self.pages,
                &mut self.regions,
                &region,
                page,
                access,
                guarded,
            );
            return FileReply::Given {
                victim: None,
                violation: broken,
            };
        }
        let size = self.pages.page_size();
        let blob = blob_for(self.blobs.list(), size, page, access, &broken);
        match take_page(&mut self.pages, blob, page, guarded) {
            Taken::Failed(page) => FileReply::PagerFault { page },
            Taken::Denied(denial) => FileReply::Denied(denial),
            Taken::Ready(left, noted) => {
                unmap(&mut self.regions, left);
                give(
                    &mut self.pages,
                    &mut self.regions,
                    &region,
                    page,
                    access,
                    guarded,
                );
                FileReply::Given {
                    victim: left,
                    violation: broken.or(noted),
                }
            }
        }
    }
}

// The signature against which a page is held: the one that covers it, for an execution that breaks no other rule.
fn blob_for<'a>(
    kept: &'a [Kept],
    size: u32,
    page: u64,
    access: Access,
    broken: &Option<Denial>,
) -> Option<&'a Blob>
    requires { IsTrue (is_page_size size) }
    ensures { option_copied result ≡ against size kept.now page access broken.now }
{
    match access {
        Access::Execute if broken.is_none() => covering(kept, size, page),
        _ => None,
    }
}

// Drops the records of the page that left, if one did, where their regions have no private copy of it.
fn unmap(regions: &mut Regions, left: Option<u64>)
    requires { IsSound regions.old }
    ensures { Unmaps regions.old left regions.new }
{
    if let Some(left) = left {
        regions.unmap_page(left);
    }
}
