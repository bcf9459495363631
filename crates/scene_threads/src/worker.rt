// A worker of a run, which plays one script.

ghost use Rattle.std.specs.Prelude.{◌≡◌, ◌<◌, ◌^◌, true, All, length};
ghost use Rattle.pg_digest.specs.Digests.{sha_hash};
ghost use Rattle.pg_history.specs.Legal.{script_at};
ghost use Rattle.pg_calls.specs.Calls.{IsDeclared};
ghost use Rattle.pg_calls.specs.Scripts.{HasRoomForAll};
ghost use Rattle.pg_parts.specs.Opened.{numbers_in};
ghost use Rattle.pg_shared.specs.Passes.{shown, IsPassOf};
ghost use Rattle.pg_shared.specs.Opening.{IsNewPassOf};
ghost use Rattle.scene_threads.specs.Workers.{HasPlayed, IsIdle, IsDone, MayPlay};

use cs_policy::{Call, Entry};
use pg_book::Pass;
use pg_calls::play;
use pg_digest::ShaDigester;
use pg_io::{Gate, MemPager};
use pg_shared::{Hand, Naming, Shared};
use scene_text::Calls;
use std::alloc::Global;
use std::sync::Wait;

// A worker with its pass, and whether its script was played whole.
#[derive(Drop)]
pub(crate) struct Worker {
    pub(crate) pass: Option<Pass<Entry>>,
    pub(crate) played: bool,
}

// The script of a number; behind the last one they are empty.
fn script_at(scripts: &[Calls], number: usize) -> &[Call]
    ensures { result.now ≡ script_at scripts.now number }
{
    match scripts.get(number) {
        Some(script) => script.items(),
        None => &[],
    }
}

// Plays a script by a pass that drew nothing, and gives the pass. Want of memory breaks it off.
fn play_script<B: Naming, R: Wait, G: Gate>(
    rt: &R,
    alloc: Global,
    shared: &Shared<B, MemPager, ShaDigester>,
    gate: &G,
    number: u32,
    script: &[Call],
    pass: Pass<Entry>,
) -> (Pass<Entry>, bool)
    requires new { IsNewPassOf B.plan number pass }
    requires few { length script.now < 2 ^ 32 }
    requires declared { All (IsDeclared (numbers_in B.plan.start)) script.now }
    requires room { HasRoomForAll (shown B.plan pass) number script.now }
    ensures pass { IsPassOf B.plan number result.0 }
    ensures played { result.1 ≡ true → HasPlayed sha_hash B.plan number script.now result.0 }
{
    let mut hand = Hand {
        rt,
        shared,
        gate,
        pass,
    };
    let mut digester = ShaDigester::new();
    let played = play(alloc, &mut hand, gate, number, script, &mut digester);
    let Hand {
        rt: _,
        shared: _,
        gate: _,
        pass,
    } = hand;
    (pass, played.is_ok())
}

// The worker of this number plays its script.
pub(crate) fn work<B: Naming, R: Wait, G: Gate>(
    rt: &R,
    alloc: Global,
    shared: &Shared<B, MemPager, ShaDigester>,
    gate: &G,
    scripts: &[Calls],
    number: usize,
    worker: &mut Worker,
)
    requires may { MayPlay B.plan scripts.now }
    requires idle { IsIdle B.plan number worker.old }
    ensures done { IsDone sha_hash B.plan scripts.now number worker.new }
{
    let Some(pass) = worker.pass.take() else {
        unreachable!()
    };
    let script = script_at(scripts, number);
    let (pass, played) = play_script(rt, alloc, shared, gate, number as u32, script, pass);
    worker.pass = Some(pass);
    worker.played = played;
}
