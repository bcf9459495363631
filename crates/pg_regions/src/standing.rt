//! The list of the regions that stand, in the order of their numbers.

ghost use Rattle.std.specs.Prelude.{◌≡◌, ◌==◌, ◌<◌, ◌≤◌, ◌^◌, not, IsTrue, ◌↔◌, length, filter, count_by, option_copied, vec_len, vec_capacity};
ghost use Rattle.std.specs.List.{AllWithin};
ghost use Rattle.pg_bytes.specs.Order.{in_order};
ghost use Rattle.pg_regions.specs.Lookups.{region_of, is_shared, region_before, HasPage, HasPrivatePage, RegionsRise};

use cs_policy::Region;

// How many regions have a lesser number.
fn lesser(regions: &[Region], id: u32) -> usize
    requires { RegionsRise regions.now }
    ensures within { result ≤ length regions.now }
    ensures lesser { AllWithin (λ region. region.id < id) regions.now 0 result }
    ensures others { AllWithin (λ region. id ≤ region.id) regions.now result (length regions.now) }
{
    regions.partition_point(|region| region.id < id)
}

// The region of this number.
pub(crate) fn find_region(regions: &[Region], id: u32) -> Option<&Region>
    requires { RegionsRise regions.now }
    ensures { option_copied result ≡ region_of regions.now id }
{
    let place = lesser(regions, id);
    if place < regions.len() && regions[place].id == id {
        return Some(&regions[place]);
    }
    None
}

// Whether the region of this number stands and is shared.
pub(crate) fn is_shared(regions: &[Region], id: u32) -> bool
    requires { RegionsRise regions.now }
    ensures { result ≡ is_shared regions.now id }
{
    match find_region(regions, id) {
        Some(region) => region.shared,
        None => false,
    }
}

// Whether the region stands and has the page.
pub(crate) fn has_page(regions: &[Region], id: u32, page: u64) -> bool
    requires { RegionsRise regions.now }
    ensures { IsTrue result ↔ HasPage regions.now id page }
{
    match find_region(regions, id) {
        Some(region) => region.first <= page && page - region.first < region.pages,
        None => false,
    }
}

// Whether the region stands, is private and has the page.
pub(crate) fn has_private_page(regions: &[Region], id: u32, page: u64) -> bool
    requires { RegionsRise regions.now }
    ensures { IsTrue result ↔ HasPrivatePage regions.now id page }
{
    has_page(regions, id, page) && !is_shared(regions, id)
}

// How many regions of the process stand.
pub(crate) fn count_of(regions: &[Region], pid: u32) -> u32
    requires { length regions.now < 2 ^ 32 }
    ensures { result ≡ count_by (λ region. region.pid == pid) regions.now }
{
    regions.iter().filter(|region| region.pid == pid).count() as u32
}

// One region more, for which there is room.
pub(crate) fn put(regions: &mut Vec<Region>, region: Region)
    requires rises { RegionsRise regions.old.items }
    requires room { vec_len regions.old < vec_capacity regions.old }
    ensures regions { regions.new.items ≡ in_order region_before region regions.old.items }
    ensures room { vec_capacity regions.new ≡ vec_capacity regions.old }
{
    let place = lesser(regions, region.id);
    let Ok(()) = regions.insert(place, region) else {
        unreachable!()
    };
}

// Drops the region of this number.
pub(crate) fn drop_region(regions: &mut Vec<Region>, id: u32)
    ensures regions { regions.new.items ≡ filter (λ region. not (region.id == id)) regions.old.items }
    ensures room { vec_capacity regions.new ≡ vec_capacity regions.old }
{
    regions.retain(|region| region.id != id);
}

// Drops the regions of a process.
pub(crate) fn drop_pid(regions: &mut Vec<Region>, pid: u32)
    ensures regions { regions.new.items ≡ filter (λ region. not (region.pid == pid)) regions.old.items }
    ensures room { vec_capacity regions.new ≡ vec_capacity regions.old }
{
    regions.retain(|region| region.pid != pid);
}
