ghost use Rattle.std.specs.Prelude.{◌≡◌, ◌+◌, ◌<◌, ◌≤◌, IfOk, IsTrue};
ghost use Rattle.pg_digest.specs.Digests.{sha_hash};
ghost use Rattle.pg_object.specs.Kept.{IsLaid, IsKept};
ghost use Rattle.pg_regions.specs.RegionsNow.{spare};

use crate::{ask_file, ask_process, ask_trust};
use bitflags::Flags;
use cs_policy::{
    Access, FileEvent, FileReply, Layout, ProcEvent, ProcFlags, ProcReply, Prot, Region, Seats,
    SliceSeat, TrustEvent, TrustReply,
};
use cs_samples::{DIRECTORY, DIRECTORY_CDHASH};
use cs_trust::StaticTrust;
use pg_bytes::Range;
use pg_cache::Cache;
use pg_calls::FileCall;
use pg_digest::ShaDigester;
use pg_io::MemPager;
use pg_object::{Object, Room};
use pg_pages::Pages;
use pg_process::Process;
use pg_trusted::Trusted;
use std::alloc::Global;
use std::sync::Arc;
use std::test::Fail;

const ROOM: Room = Room {
    regions: 4,
    records: 4,
    copies: 4,
};

// Whether a range ends within so many bytes.
fn is_within(range: &Range, length: u64) -> bool
    ensures { IsTrue result → range.now.at + range.now.len ≤ length }
{
    range.at <= length && range.len <= length - range.at
}

// A layout with one signed slice.
fn layout_of(alloc: Global, slice: Range, sig: Range, length: u64) -> Result<Layout, Fail>
    ensures { IfOk result (IsLaid length) }
{
    if !is_within(&slice, length) || !is_within(&sig, length) {
        return Err("range".into());
    }
    let seat = SliceSeat::Signed { slice, sig };
    Ok(Layout::Slices(Seats::new(vec![in alloc; seat]?)))
}

// Three pages of 0x41, 0x42 and 0x43, and behind them the directory that seals them.
fn file(alloc: Global) -> Result<Object<MemPager, ShaDigester>, Fail>
    ensures kept { IfOk result (IsKept sha_hash) }
    ensures room { IfOk result (λ object. 0 < (spare object.regions).regions) }
    ensures size { IfOk result (λ object. object.pages.cache.pager.page_size ≡ 4096) }
{
    let mut bytes = Vec::new(alloc);
    for value in [0x41, 0x42, 0x43] {
        for _ in 0..4096 {
            bytes.push(value)?;
        }
    }
    bytes.extend_from_slice(&DIRECTORY)?;
    let length = bytes.len() as u64;
    let layout = layout_of(alloc, SLICE, SIGNATURE, length)?;
    let pager = MemPager::new(bytes, Vec::new(alloc), 4096)?;
    let cache = Cache::open(alloc, pager, 4)?;
    let pages = Pages::open(alloc, cache, ShaDigester::new())?;
    if pages.pages() != length.div_ceil(4096) {
        return Err("pages".into());
    }
    Ok(Object::open(alloc, pages, length, layout, ROOM)?)
}

const SLICE: Range = Range { at: 0, len: 12_474 };

const SIGNATURE: Range = Range {
    at: 12_288,
    len: 186,
};

#[test]
fn a_signature_is_read(rt: HostRuntime) -> Result<(), Fail> {
    let mut object = file(rt.alloc())?;
    let read = FileEvent::ReadSignature { slice: 0 };
    let (answer, twin) = ask_file(rt.alloc(), &mut object, FileCall::Plain(read))?;
    for reply in [&answer.reply, &twin.reply] {
        let FileReply::Read { bytes } = reply else {
            return Err("read".into());
        };
        assert_eq!(rt; bytes.bytes(), DIRECTORY.as_slice());
    }
    Ok(())
}

#[test]
fn a_region_is_added(rt: HostRuntime) -> Result<(), Fail> {
    let mut object = file(rt.alloc())?;
    if object.file_pages() < 3 {
        return Err("pages".into());
    }
    let region = Region {
        id: 0,
        pid: 0,
        first: 0,
        pages: 3,
        prot: Prot::RX,
        shared: false,
    };
    let add = FileEvent::AddRegion { region, insert: 1 };
    let (answer, twin) = ask_file(rt.alloc(), &mut object, FileCall::Plain(add))?;
    assert!(rt; matches!(answer.reply, FileReply::Added));
    assert!(rt; matches!(twin.reply, FileReply::Added));
    Ok(())
}

#[test]
fn a_process_answers(rt: HostRuntime) -> Result<(), Fail> {
    let mut process = Process::open(rt.alloc(), 0, ProcFlags::empty(), 4096)?;
    let resolve = ProcEvent::Resolve {
        addr: 0x1000,
        access: Access::Read,
    };
    assert_eq!(rt; ask_process(&mut process, resolve), ProcReply::Dead);
    let flags = ProcFlags::VALID;
    assert_eq!(rt;
        ask_process(&mut process, ProcEvent::Start),
        ProcReply::Began { flags }
    );
    assert_eq!(rt; ask_process(&mut process, resolve), ProcReply::NoMap);
    assert_eq!(rt;
        ask_process(&mut process, ProcEvent::Exit),
        ProcReply::Exited { files: 0 }
    );
    Ok(())
}

#[test]
fn the_trust_list_answers(rt: HostRuntime) -> Result<(), Fail> {
    let fixed = Arc::new(rt.alloc(), StaticTrust::new(Vec::new(rt.alloc())))?;
    let mut list = Trusted::open(rt.alloc(), fixed, Vec::new(rt.alloc()))?;
    let lookup = TrustEvent::Lookup {
        cdhash: DIRECTORY_CDHASH,
    };
    assert_eq!(rt; ask_trust(&mut list, lookup), TrustReply::Unlisted);
    Ok(())
}
