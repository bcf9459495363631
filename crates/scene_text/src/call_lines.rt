//! What the words of call lines say.

ghost use Rattle.std.specs.Prelude.{◌≡◌, ◌<◌, ◌^◌, option_map, IfSome};
ghost use Rattle.pg_words.specs.Lines.{texts};
ghost use Rattle.scene_text.specs.declared.keywords.CallWord.TheVariants as word;
ghost use Rattle.scene_text.specs.Known.{page_bytes};
ghost use Rattle.scene_text.specs.Calls.{is_page_start, stays, can_map, map_row};
ghost use Rattle.scene_text.specs.Mapped.{map_of};
ghost use Rattle.scene_text.specs.Lines.{call_checked};
ghost use Rattle.scene_text.specs.Results.{Gives};

use crate::checks::{FORM, MOST_SHORT, RANGE, Refused, declared, form, in_range, narrow};
use crate::keywords::CallWord;
use crate::line::Known;
use cs_policy::{Bytes64, Call, Prot};
use pg_words::{
    access, bytes_of, count_of, data, hex_word, low_address, name, number, prot, share,
};
use std::alloc::Global;

/// The most pages of a file, and the most that one call maps.
const MOST_PAGES: u64 = 16384;

/// Where the addresses of a process end.
const ADDRESSES: u64 = 1 << 47;

/// The most bytes of one store, load or fetch.
const MOST_STORED: u64 = 64;

/// The most bytes of one write.
const MOST_WRITTEN: u64 = 65536;

/// How many bytes a page has.
fn page_bytes(known: &Known) -> u64
    ensures { result ≡ page_bytes known.now.large }
{
    if known.large { 16384 } else { 4096 }
}

/// Whether an address is the first of a page.
fn is_page_start(known: &Known, addr: u64) -> bool
    ensures { result ≡ is_page_start (page_bytes known.now.large) addr }
{
    addr % page_bytes(known) == 0
}

/// Whether 1 to 64 bytes from an address on stay in the page.
fn stays(known: &Known, addr: u64, count: u64) -> bool
    ensures { result ≡ stays (page_bytes known.now.large) addr count }
{
    let page = page_bytes(known);
    1 <= count && count <= MOST_STORED && addr % page + count <= page
}

/// `spawn pP`
fn read_spawn(known: &Known, columns: &[&[u8]]) -> Result<Call, Refused>
    ensures { Gives result (call_checked known.now word.Spawn (texts columns.now)) }
{
    let [pid] = columns else {
        return Err(Refused::Kind(FORM));
    };
    let pid = form(name(b'p', pid))?;
    let pid = declared(known.processes, pid)?;
    Ok(Call::Spawn { pid })
}

/// `unmap pP ADDR`
fn read_unmap(known: &Known, columns: &[&[u8]]) -> Result<Call, Refused>
    ensures { Gives result (call_checked known.now word.Unmap (texts columns.now)) }
{
    let [pid, addr] = columns else {
        return Err(Refused::Kind(FORM));
    };
    let pid = form(name(b'p', pid))?;
    let addr = form(low_address(addr))?;
    let pid = declared(known.processes, pid)?;
    in_range(is_page_start(known, addr))?;
    Ok(Call::Unmap { pid, addr })
}

/// `attach fF SLICE`
fn read_attach(known: &Known, columns: &[&[u8]]) -> Result<Call, Refused>
    ensures { Gives result (call_checked known.now word.Attach (texts columns.now)) }
{
    let [file, slice] = columns else {
        return Err(Refused::Kind(FORM));
    };
    let file = form(name(b'f', file))?;
    let slice = form(number(slice))?;
    let file = declared(known.files, file)?;
    let slice = narrow(slice)?;
    Ok(Call::Attach { file, slice })
}

/// `loadtrust cC`
fn read_load_trust(known: &Known, columns: &[&[u8]]) -> Result<Call, Refused>
    ensures { Gives result (call_checked known.now word.LoadTrust (texts columns.now)) }
{
    let [cache] = columns else {
        return Err(Refused::Kind(FORM));
    };
    let cache = form(name(b'c', cache))?;
    let cache = declared(known.caches, cache)?;
    Ok(Call::LoadTrust { cache })
}

/// `fault pP ADDR A`
fn read_fault(known: &Known, columns: &[&[u8]]) -> Result<Call, Refused>
    ensures { Gives result (call_checked known.now word.Fault (texts columns.now)) }
{
    let [pid, addr, access_word] = columns else {
        return Err(Refused::Kind(FORM));
    };
    let pid = form(name(b'p', pid))?;
    let addr = form(low_address(addr))?;
    let access = form(access(access_word))?;
    let pid = declared(known.processes, pid)?;
    Ok(Call::Fault { pid, addr, access })
}

/// `load pP ADDR COUNT`
fn read_load(known: &Known, columns: &[&[u8]]) -> Result<Call, Refused>
    ensures { Gives result (call_checked known.now word.Load (texts columns.now)) }
{
    let [pid, addr, count] = columns else {
        return Err(Refused::Kind(FORM));
    };
    let pid = form(name(b'p', pid))?;
    let addr = form(low_address(addr))?;
    let count = form(number(count))?;
    let pid = declared(known.processes, pid)?;
    in_range(stays(known, addr, count))?;
    let count = count as u32;
    Ok(Call::Load { pid, addr, count })
}

/// `fetch pP ADDR COUNT`
fn read_fetch(known: &Known, columns: &[&[u8]]) -> Result<Call, Refused>
    ensures { Gives result (call_checked known.now word.Fetch (texts columns.now)) }
{
    let [pid, addr, count] = columns else {
        return Err(Refused::Kind(FORM));
    };
    let pid = form(name(b'p', pid))?;
    let addr = form(low_address(addr))?;
    let count = form(number(count))?;
    let pid = declared(known.processes, pid)?;
    in_range(stays(known, addr, count))?;
    let count = count as u32;
    Ok(Call::Fetch { pid, addr, count })
}

/// `evict fF PAGE`
fn read_evict(known: &Known, columns: &[&[u8]]) -> Result<Call, Refused>
    ensures { Gives result (call_checked known.now word.Evict (texts columns.now)) }
{
    let [file, page] = columns else {
        return Err(Refused::Kind(FORM));
    };
    let file = form(name(b'f', file))?;
    let page = form(number(page))?;
    let file = declared(known.files, file)?;
    let page = u64::from(narrow(page)?);
    Ok(Call::Evict { file, page })
}

/// `debug pP`
fn read_debug(known: &Known, columns: &[&[u8]]) -> Result<Call, Refused>
    ensures { Gives result (call_checked known.now word.Debug (texts columns.now)) }
{
    let [pid] = columns else {
        return Err(Refused::Kind(FORM));
    };
    let pid = form(name(b'p', pid))?;
    let pid = declared(known.processes, pid)?;
    Ok(Call::Debug { pid })
}

/// `exit pP`
fn read_exit(known: &Known, columns: &[&[u8]]) -> Result<Call, Refused>
    ensures { Gives result (call_checked known.now word.Exit (texts columns.now)) }
{
    let [pid] = columns else {
        return Err(Refused::Kind(FORM));
    };
    let pid = form(name(b'p', pid))?;
    let pid = declared(known.processes, pid)?;
    Ok(Call::Exit { pid })
}

/// `store pP ADDR HEX`
fn read_store(alloc: Global, known: &Known, columns: &[&[u8]]) -> Result<Call, Refused>
    ensures { Gives result (call_checked known.now word.Store (texts columns.now)) }
{
    let [pid, addr, digits] = columns else {
        return Err(Refused::Kind(FORM));
    };
    let pid = form(name(b'p', pid))?;
    let addr = form(low_address(addr))?;
    let digits = form(hex_word(digits))?;
    let pid = declared(known.processes, pid)?;
    in_range(stays(known, addr, count_of(digits) as u64))?;
    let bytes = bytes_of(alloc, digits)?;
    let Some(bytes) = Bytes64::new(&bytes) else {
        return Err(Refused::Kind(RANGE));
    };
    Ok(Call::Store { pid, addr, bytes })
}

/// `write fF OFF DATA`
fn read_write(alloc: Global, known: &Known, columns: &[&[u8]]) -> Result<Call, Refused>
    ensures { Gives result (call_checked known.now word.Write (texts columns.now)) }
{
    let [file, at, piece] = columns else {
        return Err(Refused::Kind(FORM));
    };
    let file = form(name(b'f', file))?;
    let at = form(number(at))?;
    let piece = form(data(piece))?;
    let file = declared(known.files, file)?;
    let count = piece.count();
    in_range(at <= MOST_SHORT && 1 <= count && count <= MOST_WRITTEN)?;
    let piece = piece.keep(alloc)?;
    Ok(Call::Write { file, at, piece })
}

/// Whether so many pages can be mapped at an address, from a page of the file on.
fn can_map(known: &Known, addr: u64, first: u64, pages: u64) -> bool
    requires { addr < 2 ^ 47 }
    ensures { result ≡ can_map (page_bytes known.now.large) addr first pages }
{
    is_page_start(known, addr)
        && first < MOST_PAGES
        && 1 <= pages
        && pages <= MOST_PAGES
        && addr + page_bytes(known) * pages <= ADDRESSES
}

/// What the columns of a mapping say, before names are looked up.
#[derive(Clone, Copy)]
struct Mapping {
    pid: u64,
    addr: u64,
    file: u64,
    first: u64,
    pages: u64,
    prot: Prot,
    shared: bool,
}

/// What the words `pP ADDR fF FIRST PAGES PROT SHARE` say.
#[tactic(auto, unfolding(crate::specs::Calls::map_row))]
fn mapping_of(columns: &[&[u8]]) -> Option<Mapping>
    ensures value { option_map map_of result ≡ map_row (texts columns.now) }
    ensures low { IfSome result (λ m. m.addr < 2 ^ 47) }
{
    let [pid, addr, file, first, pages, prot_word, share_word] = columns else {
        return None;
    };
    let pid = name(b'p', pid)?;
    let addr = low_address(addr)?;
    let file = name(b'f', file)?;
    let first = number(first)?;
    let pages = number(pages)?;
    let prot = prot(prot_word)?;
    let shared = share(share_word)?;
    Some(Mapping {
        pid,
        addr,
        file,
        first,
        pages,
        prot,
        shared,
    })
}

/// `map pP ADDR fF FIRST PAGES PROT SHARE`
fn read_map(known: &Known, columns: &[&[u8]]) -> Result<Call, Refused>
    ensures { Gives result (call_checked known.now word.Map (texts columns.now)) }
{
    let m = form(mapping_of(columns))?;
    let pid = declared(known.processes, m.pid)?;
    let file = declared(known.files, m.file)?;
    in_range(can_map(known, m.addr, m.first, m.pages))?;
    Ok(Call::Map {
        pid,
        addr: m.addr,
        file,
        first: m.first,
        pages: m.pages,
        prot: m.prot,
        shared: m.shared,
    })
}

/// What the words behind the keyword of a call line say.
pub fn read_call(
    alloc: Global,
    known: &Known,
    key: CallWord,
    columns: &[&[u8]],
) -> Result<Call, Refused>
    ensures { Gives result (call_checked known.now key (texts columns.now)) }
{
    match key {
        CallWord::Spawn => read_spawn(known, columns),
        CallWord::Map => read_map(known, columns),
        CallWord::Unmap => read_unmap(known, columns),
        CallWord::Attach => read_attach(known, columns),
        CallWord::LoadTrust => read_load_trust(known, columns),
        CallWord::Fault => read_fault(known, columns),
        CallWord::Store => read_store(alloc, known, columns),
        CallWord::Load => read_load(known, columns),
        CallWord::Fetch => read_fetch(known, columns),
        CallWord::Write => read_write(alloc, known, columns),
        CallWord::Evict => read_evict(known, columns),
        CallWord::Debug => read_debug(known, columns),
        CallWord::Exit => read_exit(known, columns),
    }
}
