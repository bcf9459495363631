//! The regions of a process: which pages of which file lie at which addresses.

ghost use Rattle.std.specs.Prelude.{◌≡◌, ◌≢◌, ◌+◌, ◌<◌, ◌≤◌, ◌^◌, None, not, length, All, IfSome, IfNone, find, filter, map, bit_or, vec_len, vec_capacity, IsTrue};
ghost use Rattle.std.specs.List.{AllWithin};
ghost use Rattle.std.specs.List.Sorted.{IsNonDecreasingBy};
ghost use Rattle.pg_bytes.specs.PageSize.{is_page_size};
ghost use Rattle.pg_process.specs.Regions.{end_of, has_address, begins_at, met, least, with_mapping, AreInOrder, IsInFile, IsPlaceOf, file_page, files_of};

use cs_policy::Prot;

/// A region of a process: pages of a file, mapped at an address.
#[derive(Clone, Copy, Debug, PartialEq, Eq)]
pub struct Mapping {
    /// The address of its first byte. It has as many addresses a page as a page has bytes.
    pub at: u64,
    /// Its number, which no other region has.
    pub id: u32,
    /// The number of the file, below 16.
    pub file: u32,
    /// The first page of the file that is mapped.
    pub first: u64,
    /// How many pages are mapped.
    pub pages: u64,
    /// What the process may do with the pages.
    pub prot: Prot,
    /// Writes change the file, and not a private copy.
    pub shared: bool,
}

/// The first address behind the region.
fn end_of(mapping: &Mapping, page: u32) -> u128
    ensures { result ≡ end_of page mapping.now }
{
    u128::from(mapping.at) + u128::from(page) * u128::from(mapping.pages)
}

/// How many regions begin before the address: those before this place.
fn begun(mappings: &[Mapping], address: u128) -> usize
    requires { IsNonDecreasingBy (λ (m : Mapping). m.at) mappings.now }
    ensures within { result ≤ length mappings.now }
    ensures before { AllWithin (λ m. m.at < address) mappings.now 0 result }
    ensures behind { AllWithin (λ m. address ≤ m.at) mappings.now result (length mappings.now) }
{
    mappings.partition_point(|m| u128::from(m.at) < address)
}

/// How many regions end at the address or before: those before this place.
fn ended(mappings: &[Mapping], page: u32, address: u64) -> usize
    requires { IsNonDecreasingBy (end_of page) mappings.now }
    ensures within { result ≤ length mappings.now }
    ensures before { AllWithin (λ m. end_of page m ≤ address) mappings.now 0 result }
    ensures behind { AllWithin (λ m. address < end_of page m) mappings.now result (length mappings.now) }
{
    mappings.partition_point(|m| end_of(m, page) <= u128::from(address))
}

/// The least number of some regions.
fn least_id(mappings: &[Mapping]) -> Option<u32>
    ensures { result ≡ least (map (λ m. m.id) mappings.now) }
{
    mappings.iter().map(|m| m.id).min()
}

/// The least number of the regions whose addresses meet those of `pages` pages at `at`.
pub(crate) fn least_met(mappings: &[Mapping], page: u32, at: u64, pages: u64) -> Option<u32>
    requires { AreInOrder page mappings.now }
    ensures { result ≡ least (map (λ m. m.id) (met page at pages mappings.now)) }
{
    let end = u128::from(at) + u128::from(page) * u128::from(pages);
    let first = ended(mappings, page, at);
    let last = begun(mappings, end).max(first);
    least_id(&mappings[first..last])
}

/// The region that has the address.
pub(crate) fn region_with(mappings: &[Mapping], page: u32, addr: u64) -> Option<Mapping>
    requires in_order { AreInOrder page mappings.now }
    requires in_file { All IsInFile mappings.now }
    ensures first { result ≡ find (λ m. has_address page addr m) mappings.now }
    ensures inside { IfSome result (λ m. (m.at ≤ addr) × (addr < end_of page m)) }
    ensures in_file { IfSome result IsInFile }
{
    let index = ended(mappings, page, addr);
    if index < mappings.len() && mappings[index].at <= addr {
        return Some(mappings[index]);
    }
    None
}

/// The place of the region that begins at the address.
fn place_at(mappings: &[Mapping], at: u64) -> Option<usize>
    requires { IsNonDecreasingBy (λ (m : Mapping). m.at) mappings.now }
    ensures found { IfSome result (IsPlaceOf mappings.now at) }
    ensures none { IfNone result (AllWithin (λ m. m.at ≢ at) mappings.now 0 (length mappings.now)) }
{
    let index = begun(mappings, u128::from(at));
    if index < mappings.len() && mappings[index].at == at {
        return Some(index);
    }
    None
}

/// The region that begins at the address.
pub(crate) fn region_at(mappings: &[Mapping], page: u32, at: u64) -> Option<Mapping>
    requires { AreInOrder page mappings.now }
    ensures { result ≡ find (λ m. begins_at at m) mappings.now }
{
    Some(mappings[place_at(mappings, at)?])
}

/// The page of the file that an address of the region means.
pub(crate) fn file_page(mapping: &Mapping, page: u32, addr: u64) -> u64
    requires size { IsTrue (is_page_size page) }
    requires begins { mapping.now.at ≤ addr }
    requires ends { addr < end_of page mapping.now }
    requires in_file { IsInFile mapping.now }
    ensures { result ≡ file_page page mapping.now addr }
{
    mapping.first + (addr - mapping.at) / u64::from(page)
}

/// The set of files with one more.
fn with_file(files: u16, file: u32) -> u16
    requires { file < 16 }
    ensures { result ≡ bit_or files (2 ^ file) }
{
    files | (1 << file)
}

/// The files of the regions, as bits.
pub(crate) fn files_of(mappings: &[Mapping]) -> u16
    requires { All IsInFile mappings.now }
    ensures { result ≡ files_of mappings.now }
{
    let mut files = 0;
    for mapping in mappings {
        files = with_file(files, mapping.file);
    }
    files
}

/// One region more, which meets none of the others. There is room for it.
pub(crate) fn put(mappings: &mut Vec<Mapping>, page: u32, mapping: Mapping)
    requires size { IsTrue (is_page_size page) }
    requires in_order { AreInOrder page mappings.old.items }
    requires in_files { All IsInFile mappings.old.items }
    requires in_file { IsInFile mapping }
    requires apart { least (map (λ m. m.id) (met page mapping.at mapping.pages mappings.old.items)) ≡ None }
    requires room { vec_len mappings.old < vec_capacity mappings.old }
    ensures regions { mappings.new.items ≡ with_mapping mapping mappings.old.items }
    ensures in_order { AreInOrder page mappings.new.items }
    ensures in_files { All IsInFile mappings.new.items }
    ensures more { vec_len mappings.new ≡ vec_len mappings.old + 1 }
    ensures room { vec_capacity mappings.new ≡ vec_capacity mappings.old }
{
    let index = begun(mappings, u128::from(mapping.at));
    let Ok(()) = mappings.insert(index, mapping) else {
        unreachable!()
    };
}

/// Drops the region that begins at the address.
pub(crate) fn drop_at(mappings: &mut Vec<Mapping>, page: u32, at: u64)
    requires size { IsTrue (is_page_size page) }
    requires in_order { AreInOrder page mappings.old.items }
    requires some { All IsInFile mappings.old.items }
    ensures regions { mappings.new.items ≡ filter (λ m. not (begins_at at m)) mappings.old.items }
    ensures fewer { vec_len mappings.new ≤ vec_len mappings.old }
    ensures room { vec_capacity mappings.new ≡ vec_capacity mappings.old }
{
    if let Some(index) = place_at(mappings, at) {
        mappings.remove(index);
    }
}
