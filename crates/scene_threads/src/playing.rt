// All scripts of a run are played, each by a worker of its own.

ghost use Rattle.std.specs.Prelude.{◌≡◌, ◌<◌, length, IfOk, vec_len};
ghost use Rattle.pg_digest.specs.Digests.{sha_hash};
ghost use Rattle.pg_book.specs.Opening.{EachFrom};
ghost use Rattle.pg_shared.specs.Opening.{IsNewPassOf};
ghost use Rattle.scene_threads.specs.Workers.{MayPlay, HasPlayedAt, IsIdle, IsDone};

use crate::NoMemory;
use crate::worker::{Worker, work};
use cs_policy::Entry;
use pg_book::Pass;
use pg_digest::ShaDigester;
use pg_io::{Gate, MemPager};
use pg_shared::{Naming, Shared};
use scene_text::Calls;
use std::alloc::Global;
use std::sync::Wait;
use std::thread;
use std::thread::Threads;

// A worker for each pass.
fn workers_of<B: Naming>(alloc: Global, passes: Vec<Pass<Entry>>) -> Result<Vec<Worker>, NoMemory>
    requires new { EachFrom (IsNewPassOf B.plan) 0 passes.items }
    ensures idle { IfOk result (λ workers. EachFrom (IsIdle B.plan) 0 workers.items) }
    ensures count { IfOk result (λ workers. length workers.items ≡ length passes.items) }
{
    let mut workers = Vec::with_capacity(alloc, passes.len())?;
    for pass in passes {
        workers.push(Worker {
            pass: Some(pass),
            played: false,
        })?;
    }
    Ok(workers)
}

// The passes of workers who all played their scripts.
fn passes_of<B: Naming>(
    alloc: Global,
    scripts: &[Calls],
    workers: Vec<Worker>,
) -> Result<Vec<Pass<Entry>>, NoMemory>
    requires done { EachFrom (IsDone sha_hash B.plan scripts.now) 0 workers.items }
    ensures played { IfOk result (λ passes. EachFrom (HasPlayedAt sha_hash B.plan scripts.now) 0
        passes.items) }
    ensures count { IfOk result (λ passes. length passes.items ≡ length workers.items) }
{
    let _ = scripts;
    let mut passes = Vec::with_capacity(alloc, workers.len())?;
    for worker in workers {
        let Worker { pass, played } = worker;
        if !played {
            return Err(NoMemory);
        }
        let Some(pass) = pass else { unreachable!() };
        passes.push(pass)?;
    }
    Ok(passes)
}

// The workers play their scripts side by side. All have ended when it returns.
fn work_all<B: Naming + Send + Sync, R: Threads + Wait + Sync, G: Gate + Sync>(
    rt: &R,
    alloc: Global,
    shared: &Shared<B, MemPager, ShaDigester>,
    gate: &G,
    scripts: &[Calls],
    mut workers: Vec<Worker>,
) -> Vec<Worker>
    requires may { MayPlay B.plan scripts.now }
    requires some { 0 < vec_len workers }
    requires idle { EachFrom (IsIdle B.plan) 0 workers.items }
    ensures done { EachFrom (IsDone sha_hash B.plan scripts.now) 0 result.items }
    ensures count { length result.items ≡ length workers.items }
{
    let threads = workers.len();
    thread::for_each_mut(
        rt,
        workers.as_mut_slice(),
        threads,
        &|number: usize, worker: &mut Worker|
            requires { MayPlay B.plan scripts.now × IsIdle B.plan number worker.now }
            ensures { IsDone sha_hash B.plan scripts.entry.now number worker.exit.now }
        { work(rt, alloc, shared, gate, scripts, number, worker) },
    );
    workers
}

// Plays each script by the worker of its number, who has the pass of that number, and gives the passes. Want of memory of
// one worker breaks its script off, and the run with it when all have ended.
pub(crate) fn play_all<B: Naming + Send + Sync, R: Threads + Wait + Sync, G: Gate + Sync>(
    rt: &R,
    alloc: Global,
    shared: &Shared<B, MemPager, ShaDigester>,
    gate: &G,
    scripts: &[Calls],
    passes: Vec<Pass<Entry>>,
) -> Result<Vec<Pass<Entry>>, NoMemory>
    requires may { MayPlay B.plan scripts.now }
    requires some { 0 < vec_len passes }
    requires new { EachFrom (IsNewPassOf B.plan) 0 passes.items }
    ensures played { IfOk result (λ passes. EachFrom (HasPlayedAt sha_hash B.plan scripts.now) 0
        passes.items) }
    ensures count { IfOk result (λ r. length r.items ≡ length passes.items) }
{
    let workers = workers_of::<B>(alloc, passes)?;
    let workers = work_all(rt, alloc, shared, gate, scripts, workers);
    passes_of::<B>(alloc, scripts, workers)
}
