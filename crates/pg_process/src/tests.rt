ghost use Rattle.std.specs.Prelude.{◌+◌, ◌<◌, ◌≤◌, IsTrue};
ghost use Rattle.pg_bytes.specs.PageSize.{is_page_size};

use super::*;
use ProcReply::*;
use bitflags::Flags;
use cs_policy::{Access, ProcFlags, ProcReply, Prot};
use std::alloc::Global;
use std::process::Abort;
use std::test::Fail;

/// The flags of this number.
fn flags(number: u32) -> ProcFlags {
    ProcFlags::from_bits_retain(number)
}

/// Maps `pages` pages of the file 0, which has four, from its page `first` on, as private.
fn map(process: &mut Process, at: u64, first: u64, pages: u64, prot: Prot) -> ProcReply
    requires pages { 0 < pages }
    requires numbers { process.old.made < 4096 }
    ensures { process.new.made ≤ process.old.made + 1 }
{
    process.insert(at, 0, 4, first, pages, prot, false)
}

#[test]
fn what_a_violation_costs(rt: HostRuntime) -> Result<(), Fail> {
    for (declared, began, reply, then) in [
        (0x200, 0x201, Kill, Killed),
        (0x100, 0x101, Spare, NoMap),
        (0x1000, 0x1001, Spare, NoMap),
        (0, 1, Spare, NoMap),
    ] {
        let mut process = Process::open(rt.alloc(), 0, flags(declared), 4096)?;
        assert_eq!(rt; process.declared().bits(), declared);
        assert_eq!(rt;
            process.start(),
            Began {
                flags: flags(began)
            }
        );
        assert_eq!(rt; process.punish(), reply, "of {declared}");
        assert_eq!(rt;
            process.resolve(0x12000, Access::Execute),
            then,
            "of {declared}"
        );
    }
    Ok(())
}

/// A process that is debugged is not killed, whatever the size of its pages.
fn spares(rt: &impl Abort, alloc: Global, page: u32) -> Result<(), Fail>
    requires { IsTrue (is_page_size page) }
{
    let kill = ProcFlags::from_bits(0x200).ok_or("flags")?;
    let mut process = Process::open(alloc, 7, kill, page)?;
    assert_eq!(rt;
        process.start(),
        Began {
            flags: flags(0x201)
        }
    );
    assert_eq!(rt;
        process.debug(),
        Debugged {
            flags: flags(0x1000_0201)
        }
    );
    assert_eq!(rt; process.punish(), Spare);
    assert_eq!(rt;
        process.clear_valid(),
        Cleared {
            flags: flags(0x1000_0200)
        }
    );
    assert_eq!(rt; process.start(), Started { pid: 7 });
    Ok(())
}

#[test]
fn debugged_process_is_spared(rt: HostRuntime) -> Result<(), Fail> {
    spares(&rt, rt.alloc(), 4096)?;
    spares(&rt, rt.alloc(), 16384)
}

/// 256 regions of one page each, with a page between them, stand, and no more.
fn fills_up(rt: &impl Abort, alloc: Global, page: u32) -> Result<(), Fail>
    requires { IsTrue (is_page_size page) }
{
    let size = u64::from(page);
    let mut process = Process::open(alloc, 0, flags(0), page)?;
    assert_eq!(rt; process.start(), Began { flags: flags(1) });
    for id in 0..256 {
        let reply = map(&mut process, 2 * size * u64::from(id), 0, 1, Prot::R);
        assert_eq!(rt; reply, Inserted { id });
    }
    assert_eq!(rt;
        map(&mut process, 512 * size, 0, 1, Prot::R),
        Full { limit: 256 }
    );
    assert_eq!(rt;
        map(&mut process, 509 * size - 1, 0, 2, Prot::R),
        Overlap { id: 254 }
    );
    Ok(())
}

#[test]
fn most_regions(rt: HostRuntime) -> Result<(), Fail> {
    fills_up(&rt, rt.alloc(), 4096)?;
    fills_up(&rt, rt.alloc(), 16384)
}

/// A region that is mapped where one was unmapped has a number of its own.
fn maps_again(rt: &impl Abort, alloc: Global, page: u32) -> Result<(), Fail>
    requires { IsTrue (is_page_size page) }
{
    let mut process = Process::open(alloc, 1, flags(0x1000), page)?;
    assert_eq!(rt;
        process.start(),
        Began {
            flags: flags(0x1001)
        }
    );
    assert_eq!(rt;
        map(&mut process, 0x10000, 0, 3, Prot::RX),
        Inserted { id: 4096 }
    );
    assert_eq!(rt; process.remove(0x11000), NoMap);
    assert_eq!(rt; process.remove(0x10000), Removed { id: 4096, file: 0 });
    assert_eq!(rt;
        map(&mut process, 0x10000, 0, 3, Prot::RX),
        Inserted { id: 4097 }
    );
    Ok(())
}

#[test]
fn region_numbers_are_not_used_again(rt: HostRuntime) -> Result<(), Fail> {
    maps_again(&rt, rt.alloc(), 4096)?;
    maps_again(&rt, rt.alloc(), 16384)
}

/// Only Start is answered before it.
fn is_dead(rt: &impl Abort, alloc: Global, page: u32) -> Result<(), Fail>
    requires { IsTrue (is_page_size page) }
{
    let mut process = Process::open(alloc, 0, flags(0x1000), page)?;
    assert_eq!(rt; process.resolve(0x10000, Access::Execute), Dead);
    assert_eq!(rt; map(&mut process, 0x10000, 0, 1, Prot::R), Dead);
    assert_eq!(rt; process.remove(0x10000), Dead);
    assert_eq!(rt; process.debug(), Dead);
    assert_eq!(rt; process.punish(), Dead);
    assert_eq!(rt; process.clear_valid(), Dead);
    assert_eq!(rt; process.exit(), Dead);
    assert_eq!(rt;
        process.start(),
        Began {
            flags: flags(0x1001)
        }
    );
    Ok(())
}

#[test]
fn not_started(rt: HostRuntime) -> Result<(), Fail> {
    is_dead(&rt, rt.alloc(), 4096)?;
    is_dead(&rt, rt.alloc(), 16384)
}

#[test]
fn three_pages(rt: HostRuntime) -> Result<(), Fail> {
    let mut process = Process::open(rt.alloc(), 0, flags(0x1000), 4096)?;
    assert_eq!(rt;
        process.start(),
        Began {
            flags: flags(0x1001)
        }
    );
    assert_eq!(rt;
        map(&mut process, 0x10000, 0, 3, Prot::RX),
        Inserted { id: 0 }
    );
    assert_eq!(rt;
        map(&mut process, 0x11000, 0, 1, Prot::R),
        Overlap { id: 0 }
    );
    assert_eq!(rt;
        process.resolve(0x10000, Access::Write),
        ProcReply::Prot { id: 0 }
    );
    assert_eq!(rt; process.resolve(0x90000, Access::Read), NoMap);
    assert_eq!(rt; process.start(), Started { pid: 0 });
    for (addr, page) in [(0x10000, 0), (0x11000, 1), (0x12fff, 2)] {
        assert_eq!(rt;
            process.resolve(addr, Access::Execute),
            Region {
                id: 0,
                file: 0,
                page,
                flags: flags(0x1001),
            }
        );
    }
    assert_eq!(rt; process.resolve(0xffff, Access::Execute), NoMap);
    assert_eq!(rt; process.resolve(0x13000, Access::Execute), NoMap);
    assert_eq!(rt; process.exit(), Exited { files: 1 });
    assert_eq!(rt; process.resolve(0x10000, Access::Execute), Dead);
    Ok(())
}

#[test]
fn pages_of_16_kib(rt: HostRuntime) -> Result<(), Fail> {
    let mut process = Process::open(rt.alloc(), 0, flags(0x1000), 16384)?;
    assert_eq!(rt;
        process.start(),
        Began {
            flags: flags(0x1001)
        }
    );
    assert_eq!(rt;
        map(&mut process, 0x1_0000, 1, 2, Prot::RX),
        Inserted { id: 0 }
    );
    assert_eq!(rt;
        map(&mut process, 0xc000, 0, 1, Prot::R),
        Inserted { id: 1 }
    );
    assert_eq!(rt;
        map(&mut process, 0x1_4000, 0, 1, Prot::R),
        Overlap { id: 0 }
    );
    for (addr, page) in [(0x1_0000, 1), (0x1_3fff, 1), (0x1_4000, 2), (0x1_7fff, 2)] {
        assert_eq!(rt;
            process.resolve(addr, Access::Execute),
            Region {
                id: 0,
                file: 0,
                page,
                flags: flags(0x1001),
            }
        );
    }
    assert_eq!(rt; process.resolve(0x1_8000, Access::Execute), NoMap);
    assert_eq!(rt;
        process.resolve(0xffff, Access::Execute),
        ProcReply::Prot { id: 1 }
    );
    Ok(())
}

#[test]
fn last_addresses(rt: HostRuntime) -> Result<(), Fail> {
    let mut process = Process::open(rt.alloc(), 0, flags(0x200), 4096)?;
    assert_eq!(rt;
        process.start(),
        Began {
            flags: flags(0x201)
        }
    );
    assert_eq!(rt;
        process.insert(0x7fff_ffff_f000, 3, 4, 3, 1, Prot::RW, true),
        Inserted { id: 0 }
    );
    assert_eq!(rt;
        process.insert(0x7fff_0000_0000, 15, 16384, 0, 16384, Prot::RWX, false),
        Inserted { id: 1 }
    );
    assert_eq!(rt;
        process.resolve(0x7fff_ffff_ffff, Access::Write),
        Region {
            id: 0,
            file: 3,
            page: 3,
            flags: flags(0x201),
        }
    );
    assert_eq!(rt; process.resolve(0x8000_0000_0000, Access::Read), NoMap);
    assert_eq!(rt;
        process.insert(0x7ffe_0000_0000, 0, u64::MAX, 0, 1 << 52, Prot::R, false),
        Overlap { id: 0 }
    );
    assert_eq!(rt;
        process.insert(0x8000_0000_0000, 0, 4, u64::MAX, u64::MAX, Prot::R, false),
        OutOfFile { pages: 4 }
    );
    assert_eq!(rt; process.punish(), Kill);
    assert_eq!(rt; process.insert(0, 0, 4, 0, 1, Prot::R, false), Killed);
    assert_eq!(rt; process.exit(), Exited { files: 0x8008 });
    assert_eq!(rt; process.exit(), Dead);
    Ok(())
}
