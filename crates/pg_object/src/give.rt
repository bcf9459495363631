//! What a region is given of a page.

ghost use Rattle.std.specs.Prelude.{◌≡◌, ◌<◌, List, ℕ, Some, None, IfSome, IsSome, IsTrue, ◌↔◌, is_some};
ghost use Rattle.cs_policy.specs.declared.access.Access.TheVariants.{Write};
ghost use Rattle.pg_cache.specs.Cache.{resident_page, IsSound};
ghost use Rattle.pg_pages.specs.Pages.{IsMarked};
ghost use Rattle.pg_regions.specs.Lookups.{HasPage, HasPrivatePage, copy_of, region_of};
ghost use Rattle.pg_regions.specs.RegionsNow.{spare};
ghost use Rattle.pg_regions.specs.RegionsNow as regions_now;
ghost use Rattle.pg_plain.specs.PlainFile.{having};
ghost use Rattle.pg_object.specs.Enters.{IsAtHand, GivesTo, WritesTo, marks_given, marks_written};

use cs_policy::{Access, Region};
use pg_digest::Digester;
use pg_io::Pager;
use pg_pages::Pages;
use pg_regions::Regions;

// Gives a region an access to a page that is at hand for it: to its private copy, or else to the resident page.
pub(crate) fn give<P: Pager, D: Digester>(
    pages: &mut Pages<P, D>,
    regions: &mut Regions,
    region: &Region,
    page: u64,
    access: Access,
    guarded: bool,
)
    requires stands { having page (region_of regions.old.regions region.now.id) ≡ Some region.now }
    requires inside { page < pages.old.cache.pager.pages }
    requires at_hand { IsAtHand pages.old.cache regions.old region.now page }
    requires size { regions.old.page ≡ pages.old.cache.pager.page_size }
    requires records { 0 < (spare regions.old).records }
    requires copies { access ≡ Write → 0 < (spare regions.old).copies }
    requires marked { IsMarked D.hash pages.old.cache pages.old.marks }
    ensures regions { (bytes : List ℕ) → IfSome (resident_page pages.old.cache page) (λ held. bytes ≡ held.bytes) → GivesTo regions.old region.now page access guarded bytes regions.new }
    ensures marks { pages.new ≡ record pages.old { marks = marks_given region.now page access pages.old.marks } }
    ensures marked { IsMarked D.hash pages.new.cache pages.new.marks }
{
    regions.grant(region.id, page, access, guarded);
    match access {
        Access::Read | Access::Execute => {}
        Access::Write => write_to(pages, regions, region, page),
    }
}

// What a write to a region does besides: a shared region maps the page, which nobody executes then, and a private one
// gets a copy of it.
fn write_to<P: Pager, D: Digester>(
    pages: &mut Pages<P, D>,
    regions: &mut Regions,
    region: &Region,
    page: u64,
)
    requires stands { having page (region_of regions.old.regions region.now.id) ≡ Some region.now }
    requires inside { page < pages.old.cache.pager.pages }
    requires at_hand { IsAtHand pages.old.cache regions.old region.now page }
    requires size { regions.old.page ≡ pages.old.cache.pager.page_size }
    requires copies { 0 < (spare regions.old).copies }
    requires marked { IsMarked D.hash pages.old.cache pages.old.marks }
    ensures regions { (bytes : List ℕ) → IfSome (resident_page pages.old.cache page) (λ held. bytes ≡ held.bytes) → WritesTo regions.old region.now page bytes regions.new }
    ensures marks { pages.new ≡ record pages.old { marks = marks_written region.now page pages.old.marks } }
    ensures marked { IsMarked D.hash pages.new.cache pages.new.marks }
{
    if region.shared {
        regions.strip(page);
        pages.set_writable(page);
    } else if regions.copy(region.id, page).is_none() {
        regions.make_copy(region.id, page, pages.bytes(page));
    }
}
