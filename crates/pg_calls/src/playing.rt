//! A script is played, call by call.

ghost use Rattle.std.specs.Prelude.{◌≡◌, ◌<◌, ◌^◌, All, length, OnOk};
ghost use Rattle.pg_calls.specs.Calls.{IsDeclared, HasRoomFor};
ghost use Rattle.pg_calls.specs.Scripts.{IsMade, HasRoomForAll, Plays};

use crate::NoMemory;
use crate::attaching::attach;
use crate::ending::exit;
use crate::faulting::fault;
use crate::files::{evict, load_trust, write};
use crate::memory::{fetch, load, store};
use crate::parts::Parts;
use crate::processes::{debug, map, spawn, unmap};
use cs_policy::{Call, Reply, Who};
use pg_digest::Digester;
use pg_io::{Gate, Moment};
use std::alloc::Global;

// Makes one call of a script, and gives what it answers.
fn make<T: Parts, D: Digester>(
    alloc: Global,
    parts: &mut T,
    who: Who,
    call: &Call,
    digester: &mut D,
) -> Result<Reply, NoMemory>
    requires serves { T.serves parts.old who.worker }
    requires same_hash { D.hash ≡ T.hash }
    requires declared { IsDeclared (T.shows parts.old).numbers call.now }
    requires room { HasRoomFor (T.shows parts.old) who call.now }
    ensures made { OnOk result (IsMade T.hash call.now who
        (T.shows parts.old) (T.shows parts.new)) }
    ensures serves { T.serves parts.new who.worker }
{
    match call {
        Call::Spawn { pid } => Ok(spawn(parts, who, *pid)),
        Call::Map {
            pid,
            addr,
            file,
            first,
            pages,
            prot,
            shared,
        } => Ok(map(
            parts, who, *pid, *addr, *file, *first, *pages, *prot, *shared,
        )),
        Call::Unmap { pid, addr } => Ok(unmap(parts, who, *pid, *addr)),
        Call::Attach { file, slice } => attach(alloc, parts, who, *file, *slice, digester),
        Call::LoadTrust { cache } => Ok(load_trust(parts, who, *cache)),
        Call::Fault { pid, addr, access } => Ok(fault(parts, who, *pid, *addr, *access)),
        Call::Store { pid, addr, bytes } => Ok(store(parts, who, *pid, *addr, bytes.copy())),
        Call::Load { pid, addr, count } => Ok(load(parts, who, *pid, *addr, *count)),
        Call::Fetch { pid, addr, count } => Ok(fetch(parts, who, *pid, *addr, *count)),
        Call::Write { file, at, piece } => write(parts, who, *file, *at, piece.copy()?),
        Call::Evict { file, page } => Ok(evict(parts, who, *file, *page)),
        Call::Debug { pid } => Ok(debug(parts, who, *pid)),
        Call::Exit { pid } => Ok(exit(parts, who, *pid)),
    }
}

/// Plays the script of a worker: its calls one after another, in their order, each whole before the next. After each call
/// the worker passes the gate. The digester has the function of the files' digesters.
///
/// Want of memory breaks the script off.
pub fn play<T: Parts, D: Digester, G: Gate>(
    alloc: Global,
    parts: &mut T,
    gate: &G,
    worker: u32,
    script: &[Call],
    digester: &mut D,
) -> Result<(), NoMemory>
    requires serves { T.serves parts.old worker }
    requires same_hash { D.hash ≡ T.hash }
    requires few { length script.now < 2 ^ 32 }
    requires declared { All (IsDeclared (T.shows parts.old).numbers) script.now }
    requires room { HasRoomForAll (T.shows parts.old) worker script.now }
    ensures plays { OnOk result (Plays T.hash worker script.now (T.shows parts.old)
        (T.shows parts.new)) }
    ensures serves { T.serves parts.new worker }
{
    for number in 0..script.len() {
        let call = number as u32;
        let who = Who { worker, call };
        make(alloc, parts, who, &script[number], digester)?;
        gate.pass(worker, call, Moment::Answered);
    }
    Ok(())
}
