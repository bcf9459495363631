//! The scripts of a run are run on threads.

ghost use Rattle.std.specs.Prelude.{◌≡◌, ◌≤◌, ◌<◌, length, vec_len, IfOk, IfSome};
ghost use Rattle.pg_digest.specs.Digests.{sha_hash};
ghost use Rattle.pg_history.specs.Legal.{calls_in};
ghost use Rattle.pg_parts.specs.Opened.{opening_in};
ghost use Rattle.pg_shared.specs.Opening.{IsOpenedAs};
ghost use Rattle.scene_run.specs.Runs.{IsSound};
ghost use Rattle.scene_threads.specs.Workers.{MayPlay};

use crate::NoMemory;
use crate::playing::play_all;
use cs_policy::Entry;
use pg_book::{Pass, Stamped};
use pg_digest::ShaDigester;
use pg_io::{Gate, MemPager};
use pg_shared::{Naming, Ready};
use scene_text::Calls;
use std::alloc::Global;
use std::marker::Brand;
use std::sync::Wait;
use std::thread::Threads;

// Runs the scripts by a run of this name.
fn run_named<B: Naming + Send + Sync, R: Threads + Wait + Sync, G: Gate + Sync>(
    rt: &R,
    alloc: Global,
    scripts: &[Calls],
    ready: Ready<MemPager, ShaDigester>,
    passes: Vec<Pass<Entry>>,
    gate: &G,
) -> Result<Vec<Stamped<Entry>>, NoMemory>
    requires name { B.plan ≡ ready }
    requires may { MayPlay ready scripts.now }
    requires opened { IsOpenedAs ready.start ready passes.items }
    requires some { 0 < vec_len passes }
    requires behind { length scripts.now ≤ vec_len passes }
    requires few { calls_in scripts.now ≤ 4096 }
    ensures { IfOk result (λ history. IfSome (opening_in ready.start) (λ o.
        IsSound sha_hash o scripts.now history.items)) }
{
    let (shared, book) = ready.named::<B>()?;
    let passes = play_all(rt, alloc, &shared, gate, scripts, passes)?;
    let closed = shared.close(book, passes)?;
    Ok(closed.history)
}

/// Runs each script on a worker of its own, with the passes of the run, and gives the history. Where the pagers of all files
/// told their content at the opening, it is a legal history of the scripts, at the opening and after each entry the sealing
/// stands, and each denial states the first rule that was broken. The only error is want of memory; each worker has ended
/// then.
pub fn run_opened<R: Threads + Wait + Sync, G: Gate + Sync>(
    rt: &R,
    alloc: Global,
    scripts: &[Calls],
    ready: Ready<MemPager, ShaDigester>,
    passes: Vec<Pass<Entry>>,
    gate: &G,
) -> Result<Vec<Stamped<Entry>>, NoMemory>
    requires may { MayPlay ready scripts.now }
    requires opened { IsOpenedAs ready.start ready passes.items }
    requires some { 0 < vec_len passes }
    requires behind { length scripts.now ≤ vec_len passes }
    requires few { calls_in scripts.now ≤ 4096 }
    ensures { IfOk result (λ history. IfSome (opening_in ready.start) (λ o.
        IsSound sha_hash o scripts.now history.items)) }
{
    run_named::<Brand, R, G>(rt, alloc, scripts, ready, passes, gate)
}
