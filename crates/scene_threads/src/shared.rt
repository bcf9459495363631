//! The scripts of a scene are run, each by a worker of its own.

ghost use Rattle.std.specs.Prelude.{◌≡◌, vec_len, IfOk, IfSome};
ghost use Rattle.pg_digest.specs.Digests.{sha_hash};
ghost use Rattle.pg_parts.specs.Opened.{opening_in};
ghost use Rattle.scene_text.specs.Scenes.{scene_lines};
ghost use Rattle.scene_open.specs.Limits.{IsWithin};
ghost use Rattle.scene_open.specs.Opening.{opening_with};
ghost use Rattle.scene_open.specs.Fits.{IsOpeningFor};
ghost use Rattle.scene_run.specs.Runs.{IsSound};
ghost use Rattle.scene_run.specs.Starts.{IsStartOf};

use crate::NoMemory;
use crate::running::run_opened;
use cs_policy::{Entry, Layout};
use pg_book::{OpenFail, Stamped};
use pg_digest::ShaDigester;
use pg_io::{Gate, MemPager};
use pg_parts::Opened;
use pg_shared::Ready;
use pg_trusted::Trusted;
use scene_run::{open_parts, run_alone, run_solo};
use scene_text::{Calls, Scene};
use std::alloc::Global;
use std::sync::Wait;
use std::thread;
use std::thread::Threads;

// Runs the scripts over the parts of the scene's machine.
fn run_parts<R: Threads + Wait + Sync, G: Gate + Sync>(
    rt: &R,
    alloc: Global,
    scene: &Scene,
    opened: Opened<MemPager, ShaDigester>,
    gate: &G,
) -> Result<Vec<Stamped<Entry>>, NoMemory>
    requires within { IsWithin (scene_lines scene.now) }
    requires start { IsStartOf scene.now opened }
    ensures { IfOk result (λ history. IfSome (opening_in opened) (λ o. IsSound sha_hash o
        scene.now.scripts history.items)) }
{
    match Ready::open(alloc, opened) {
        Ok((ready, passes)) => run_opened(rt, alloc, scene.scripts.items(), ready, passes, gate),
        Err(OpenFail::Found { back, .. }) => run_alone(alloc, scene, back),
        Err(OpenFail::NoMemory { .. }) => Err(NoMemory),
    }
}

/// Runs the scripts of a scene, the i-th by worker i, over the files, layouts and trust list that its items open to, and
/// gives the history. It is a legal history of the scripts, at the opening and after each entry the sealing stands, and each
/// denial states the first rule that was broken. A worker passes the gate at the start of each fault's event on a file, under
/// the file's lock, and after each of its calls; no clause speaks of that.
///
/// Where the book of the run finds a number under its names that it did not write, the scripts are run one after another, on
/// the thread that asks. The only error is want of memory.
pub fn run_shared<R: Threads + Wait + Sync, G: Gate + Sync>(
    rt: &R,
    alloc: Global,
    scene: &Scene,
    files: Vec<MemPager>,
    layouts: Vec<Layout>,
    trust: Trusted,
    gate: &G,
) -> Result<Vec<Stamped<Entry>>, NoMemory>
    requires within { IsWithin (scene_lines scene.now) }
    requires opening { IsOpeningFor scene.now
        (opening_with scene.now.head files.items layouts.items trust) }
    requires paired { vec_len files ≡ vec_len layouts }
    ensures { IfOk result (λ history. IsSound sha_hash
        (opening_with scene.now.head files.items layouts.items trust)
        scene.now.scripts history.items) }
{
    let opened = open_parts(alloc, scene, files, layouts, trust)?;
    run_parts(rt, alloc, scene, opened, gate)
}

// How many processors this thread may run on, or one where that is not known.
fn processors<R: Threads>(rt: &R) -> usize {
    thread::available_parallelism(rt).map_or(1, |count| count.get())
}

// Whether scripts can run at once: there are two or more, and as many processors.
fn can_run_at_once<R: Threads>(rt: &R, scripts: &[Calls]) -> bool {
    scripts.len() > 1 && processors(rt) > 1
}

/// Runs the scripts of a scene by `run_shared` where two can run at once, and else by `run_solo`: with one script or one
/// processor, locks and threads would take time and gain none. The history is legal and sound either way, and the only error
/// is want of memory. On one thread no worker passes the gate.
pub fn run_scripts<R: Threads + Wait + Sync, G: Gate + Sync>(
    rt: &R,
    alloc: Global,
    scene: &Scene,
    files: Vec<MemPager>,
    layouts: Vec<Layout>,
    trust: Trusted,
    gate: &G,
) -> Result<Vec<Stamped<Entry>>, NoMemory>
    requires within { IsWithin (scene_lines scene.now) }
    requires opening { IsOpeningFor scene.now
        (opening_with scene.now.head files.items layouts.items trust) }
    requires paired { vec_len files ≡ vec_len layouts }
    ensures { IfOk result (λ history. IsSound sha_hash
        (opening_with scene.now.head files.items layouts.items trust)
        scene.now.scripts history.items) }
{
    if can_run_at_once(rt, scene.scripts.items()) {
        run_shared(rt, alloc, scene, files, layouts, trust, gate)
    } else {
        run_solo(alloc, scene, files, layouts, trust)
    }
}
