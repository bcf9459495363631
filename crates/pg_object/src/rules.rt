//! The rules of an access that can be told without the bytes of the page.

ghost use Rattle.std.specs.Prelude.{◌≡◌, [], ◌∷◌};
ghost use Rattle.cs_policy.specs.declared.access.Access.TheVariants.{Write, Execute};
ghost use Rattle.pg_regions.specs.Lookups.{region_of};
ghost use Rattle.pg_plain.specs.PlainFile.{having, writer};
ghost use Rattle.pg_plain.specs.Verdict.{first_denial, unsigned, beyond_limit, writable_shared, verdict_without_bytes};
ghost use Rattle.pg_object.specs.Object.{seen};

use crate::kept::{covering, is_below_limit};
use crate::object::Object;
use cs_policy::{Access, Denial, Region};
use pg_digest::Digester;
use pg_io::Pager;
use pg_regions::Regions;

// The region of this number, where it stands and has the page.
pub(crate) fn region_with(regions: &Regions, id: u32, page: u64) -> Option<Region>
    ensures { result ≡ having page (region_of regions.now.regions id) }
{
    let region = regions.find(id)?;
    if region.first > page || page - region.first >= region.pages {
        return None;
    }
    Some(*region)
}

impl<P: Pager, D: Digester> Object<P, D> {
    // The first rule that an access to a page of this region breaks, of those that can be told without its bytes.
    pub(crate) fn broken_unread(&self, region: &Region, page: u64, access: Access) -> Option<Denial>
        ensures { result ≡ verdict_without_bytes (seen self.now []) region.now page access }
    {
        match access {
            Access::Read => None,
            Access::Write => self.sealed_write(region, page),
            Access::Execute => self.broken_execution(region, page),
        }
    }

    // No shared region writes a page that a signature covers.
    fn sealed_write(&self, region: &Region, page: u64) -> Option<Denial>
        ensures { result ≡ verdict_without_bytes (seen self.now []) region.now page Write }
    {
        if region.shared && covering(self.blobs.list(), self.pages.page_size(), page).is_some() {
            return Some(Denial::SealedWrite { page });
        }
        None
    }

    // What is executed is no private copy, a signature covers it below its limit, and no shared region may write it.
    fn broken_execution(&self, region: &Region, page: u64) -> Option<Denial>
        ensures { result ≡ verdict_without_bytes (seen self.now []) region.now page Execute }
    {
        if !region.shared && self.regions.copy(region.id, page).is_some() {
            return Some(Denial::PrivateCopy { page });
        }
        self.unsealed(page)
    }

    // The shared region of least number that may write a page. Of a page that is kept as checked none may, which its mark
    // tells without a look at the records.
    fn writer(&self, page: u64) -> Option<u32>
        ensures { result ≡ writer (seen self.now []) page }
    {
        if self.pages.is_validated(page) {
            return None;
        }
        self.regions.writer(page)
    }

    // A signature covers the page below its limit, and no shared region may write it.
    fn unsealed(&self, page: u64) -> Option<Denial>
        ensures { result ≡ first_denial (unsigned (seen self.now []) page ∷ beyond_limit (seen self.now []) page ∷ writable_shared (seen self.now []) page ∷ []) }
    {
        let size = self.pages.page_size();
        let Some(blob) = covering(self.blobs.list(), size, page) else {
            return Some(Denial::Unsigned { page });
        };
        if !is_below_limit(blob, size, page) {
            return Some(Denial::BeyondLimit { page });
        }
        match self.writer(page) {
            Some(region) => Some(Denial::WritableShared { page, region }),
            None => None,
        }
    }
}
