//! Scripts one after another, on one thread.

ghost use Rattle.std.specs.Prelude.{◌≡◌, ◌≤◌, [], length, vec_len, All, IfOk, IfSome, OnOk, Some};
ghost use Rattle.pg_digest.specs.Digests.{sha_hash};
ghost use Rattle.pg_history.specs.Opening.{numbers_of};
ghost use Rattle.pg_calls.specs.Calls.{IsDeclared};
ghost use Rattle.pg_parts.specs.Opened.{numbers_in, opening_in, IsOpenable};
ghost use Rattle.pg_machine.specs.Solo.{shown};
ghost use Rattle.scene_text.specs.Scenes.{scene_lines};
ghost use Rattle.scene_text.specs.Texts.{MeetsGrammar};
ghost use Rattle.scene_open.specs.Limits.{IsWithin};
ghost use Rattle.scene_open.specs.Opening.{opening_with};
ghost use Rattle.scene_open.specs.Fits.{IsOpeningFor};
ghost use Rattle.scene_run.specs.Needs.{needs_of};
ghost use Rattle.scene_run.specs.Starts.{IsStartOf};
ghost use Rattle.scene_run.specs.Turns.{PlaysAll};
ghost use Rattle.scene_run.specs.Runs.{RunsSolo};

use crate::NoMemory;
use crate::needs::needs_of;
use crate::parts::{open_files, open_processes};
use cs_policy::{Entry, Layout};
use pg_book::Stamped;
use pg_calls::play;
use pg_digest::ShaDigester;
use pg_io::{MemPager, OpenGate};
use pg_machine::Solo;
use pg_parts::Opened;
use pg_trusted::Trusted;
use scene_open::{is_adhoc, page_size, resident};
use scene_text::{Calls, Scene};
use std::alloc::Global;

/// The parts of a scene's machine, which its items open to, with room for all that its scripts need. The only error is want
/// of memory.
pub fn open_parts(
    alloc: Global,
    scene: &Scene,
    files: Vec<MemPager>,
    layouts: Vec<Layout>,
    trust: Trusted,
) -> Result<Opened<MemPager, ShaDigester>, NoMemory>
    requires within { IsWithin (scene_lines scene.now) }
    requires opening { IsOpeningFor scene.now
        (opening_with scene.now.head files.items layouts.items trust) }
    requires paired { vec_len files ≡ vec_len layouts }
    ensures openable { IfOk result (IsOpenable sha_hash) }
    ensures opening { IfOk result (λ opened. opening_in opened ≡
        Some (opening_with scene.now.head files.items layouts.items trust)) }
    ensures numbers { IfOk result (λ opened. numbers_in opened ≡
        numbers_of (opening_with scene.now.head files.items layouts.items trust)) }
    ensures needs { IfOk result (λ opened. opened.needs ≡
        needs_of (length opened.files) (length opened.processes) scene.now.scripts) }
{
    let page_size = page_size(scene);
    let processes = open_processes(alloc, scene.head.items(), page_size)?;
    let needs = needs_of(
        alloc,
        &scene.scripts,
        files.len() as u32,
        processes.len() as u32,
    )?;
    let files = open_files(alloc, files, layouts, resident(scene), needs.as_slice())?;
    Ok(Opened {
        page_size,
        adhoc: is_adhoc(scene),
        files,
        processes,
        trusted: trust,
        needs,
    })
}

// Plays scripts one after another, each by the worker of its number.
fn play_all(
    alloc: Global,
    parts: &mut Solo<MemPager, ShaDigester>,
    scripts: &[Calls],
) -> Result<(), NoMemory>
    requires needs { parts.old.start.needs ≡
        needs_of (length parts.old.start.files) (length parts.old.start.processes) scripts.now }
    requires unmade { parts.old.made ≡ [] }
    requires workers { length scripts.now ≤ 8 }
    requires few { All (λ script. length script ≤ 4096) scripts.now }
    requires declared { All (All (IsDeclared (numbers_in parts.old.start))) scripts.now }
    ensures { OnOk result (PlaysAll sha_hash scripts.now (shown parts.old) (shown parts.new)) }
{
    let mut digester = ShaDigester::new();
    for number in 0..scripts.len() {
        let script = scripts[number].items();
        play(
            alloc,
            parts,
            &OpenGate,
            number as u32,
            script,
            &mut digester,
        )?;
    }
    Ok(())
}

/// Runs the scripts of a scene one after another, in their order, over the parts of its machine, and gives the history. It is
/// the one legal history of the scripts in which the entries of each script stand before those of the next. At the opening
/// and after each entry the sealing stands, and each denial states the first rule that was broken. The only error is want of
/// memory.
pub fn run_alone(
    alloc: Global,
    scene: &Scene,
    opened: Opened<MemPager, ShaDigester>,
) -> Result<Vec<Stamped<Entry>>, NoMemory>
    requires within { IsWithin (scene_lines scene.now) }
    requires start { IsStartOf scene.now opened }
    ensures { IfOk result (λ history. IfSome (opening_in opened) (λ o. RunsSolo sha_hash o
        scene.now.scripts history.items)) }
{
    let mut solo = Solo::open(alloc, opened)?;
    play_all(alloc, &mut solo, scene.scripts.items())?;
    let (history, _) = solo.close();
    Ok(history)
}

/// Runs the scripts of a scene one after another, in their order, over the files, layouts and trust list that its items
/// open to, and gives the history. It is the one legal history of the scripts in which the entries of each script stand
/// before those of the next. At the opening and after each entry the sealing stands, and each denial states the first rule
/// that was broken. The only error is want of memory.
pub fn run_solo(
    alloc: Global,
    scene: &Scene,
    files: Vec<MemPager>,
    layouts: Vec<Layout>,
    trust: Trusted,
) -> Result<Vec<Stamped<Entry>>, NoMemory>
    requires within { IsWithin (scene_lines scene.now) }
    requires opening { IsOpeningFor scene.now
        (opening_with scene.now.head files.items layouts.items trust) }
    requires paired { vec_len files ≡ vec_len layouts }
    ensures { IfOk result (λ history. RunsSolo sha_hash
        (opening_with scene.now.head files.items layouts.items trust)
        scene.now.scripts history.items) }
{
    run_alone(
        alloc,
        scene,
        open_parts(alloc, scene, files, layouts, trust)?,
    )
}
