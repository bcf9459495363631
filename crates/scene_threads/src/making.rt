//! The scene that is made of a number is run.

ghost use Rattle.std.specs.Prelude.{◌≡◌, ◌≤◌, IfOk, IfErr};
ghost use Rattle.pg_digest.specs.Digests.{sha_hash};
ghost use Rattle.scene_threads.specs.Made.{PrintsMade};

use crate::NoMemory;
use crate::shared::run_scripts;
use pg_bytes::Status;
use pg_io::Gate;
use scene_made::made;
use scene_open::open_items;
use scene_run::summary_of;
use std::alloc::Global;
use std::sync::Wait;
use std::thread::Threads;

// Want of memory, the one status with which the items of a made scene are not opened.
fn memory(status: Status) -> NoMemory
    requires { status ≡ Status.NoMemory }
{
    let _ = status;
    NoMemory
}

// The summary of a run of the scene that is made of this number, its scripts side by side.
fn summed<R: Threads + Wait + Sync, G: Gate + Sync>(
    rt: &R,
    alloc: Global,
    n: u64,
    gate: &G,
) -> Result<Vec<u8>, NoMemory>
    requires least { 1 ≤ n }
    requires most { n ≤ 1000 }
    ensures { IfOk result (λ text. PrintsMade sha_hash n text.items) }
{
    let (scene, mut files) = made(alloc, n)?;
    let opened = match open_items(alloc, &scene, &mut files) {
        Ok(opened) => opened,
        Err(status) => return Err(memory(status)),
    };
    let history = run_scripts(
        rt,
        alloc,
        &scene,
        opened.files,
        opened.layouts,
        opened.trust,
        gate,
    )?;
    let text = summary_of(alloc, &scene, &history)?;
    Ok(text)
}

/// The summary of a run of the scene that is made of a number, as the answer of a run. The only error is NoMemory.
pub(crate) fn made_summary<R: Threads + Wait + Sync, G: Gate + Sync>(
    rt: &R,
    alloc: Global,
    n: u64,
    gate: &G,
) -> Result<Vec<u8>, Status>
    requires least { 1 ≤ n }
    requires most { n ≤ 1000 }
    ensures text { IfOk result (λ text. PrintsMade sha_hash n text.items) }
    ensures memory { IfErr result (λ status. status ≡ Status.NoMemory) }
{
    match summed(rt, alloc, n, gate) {
        Ok(text) => Ok(text),
        Err(_) => Err(Status::NoMemory),
    }
}
