//! The scripts of a made scene.

ghost use Rattle.std.specs.Prelude.{◌≡◌, ◌≤◌, ◌<◌, ◌++◌, map, IfOk, OnOk};
ghost use Rattle.scene_made.specs.Made.{next, draws, call_of, script, four};

use crate::NoMemory;
use cs_policy::{Access, Call, Data, Prot};
use pg_bytes::Octets;
use scene_text::{Calls, Scripts};
use std::alloc::Global;

/// The address at which each process maps its file.
const START: u64 = 0x10000;

/// How many calls are drawn for a script.
const DRAWN: u64 = 1000;

/// The number that is drawn behind another.
#[tactic(auto, unfolding(crate::specs::Made::next))]
fn next(x: u64) -> u64
    ensures { result ≡ next x }
{
    x.wrapping_mul(6_364_136_223_846_793_005)
        .wrapping_add(1_442_695_040_888_963_407)
}

/// The call for a draw.
#[tactic(auto, unfolding(crate::specs::Made::call_of))]
fn call(alloc: Global, file: u32, x: u64) -> Result<Call, NoMemory>
    ensures { IfOk result (λ call. call ≡ call_of file x) }
{
    let y = x / (1 << 33);
    let page = y % 64;
    match y / 64 % 8 {
        0 => Ok(Call::Write {
            file,
            at: 4096 * page + y / 512 % 4096,
            piece: Data::Hex(Octets::new(vec![in alloc; (y % 256) as u8]?)),
        }),
        1 => Ok(Call::Evict { file, page }),
        _ => Ok(Call::Fault {
            pid: file,
            addr: START + 4096 * page,
            access: Access::Execute,
        }),
    }
}

/// Puts the calls for 1,000 draws behind others. They are drawn behind `x`.
fn put_drawn(alloc: Global, calls: &mut Vec<Call>, file: u32, x: u64) -> Result<(), NoMemory>
    ensures { OnOk result (calls.new.items ≡
        calls.old.items ++ map (call_of file) (draws 1000 x)) }
{
    let mut x = x;
    for _ in 0..DRAWN {
        x = next(x);
        calls.push(call(alloc, file, x)?)?;
    }
    Ok(())
}

/// The script of this number.
#[tactic(auto, unfolding(crate::specs::Made::script))]
fn script(alloc: Global, n: u64, file: u32) -> Result<Calls, NoMemory>
    requires n { n ≤ 1000 }
    requires file { file < 4 }
    ensures { IfOk result (λ calls. calls ≡ script n file) }
{
    let mut calls = vec![in alloc;
        Call::Spawn { pid: file },
        Call::Map {
            pid: file,
            addr: START,
            file,
            first: 0,
            pages: 64,
            prot: Prot::RX,
            shared: false,
        },
        Call::Attach { file, slice: 0 },
    ]?;
    put_drawn(alloc, &mut calls, file, 8 * n + u64::from(file))?;
    Ok(Calls::new(calls))
}

/// The four scripts.
pub fn scripts(alloc: Global, n: u64) -> Result<Scripts, NoMemory>
    requires { n ≤ 1000 }
    ensures { IfOk result (λ scripts. scripts ≡ map (script n) four) }
{
    let scripts = vec![in alloc;
        script(alloc, n, 0)?,
        script(alloc, n, 1)?,
        script(alloc, n, 2)?,
        script(alloc, n, 3)?,
    ]?;
    Ok(Scripts::new(scripts))
}
