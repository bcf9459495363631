//! How a run ends: its text, and the one write of it.

ghost use Rattle.std.specs.Prelude.{◌≡◌, ◌≢◌, ◌<◌, ◌^◌, IfOk, IfErr};
ghost use Rattle.pg_bytes.specs.Counts.{Rose};
ghost use Rattle.pg_history.specs.Legal.{calls_in};
ghost use Rattle.pg_report.specs.Journal.{journal, summary};
ghost use Rattle.scene_text.specs.Scenes.{scene_lines};
ghost use Rattle.scene_open.specs.Limits.{IsWithin};
ghost use Rattle.scene_run.specs.Ending.{IsEarlyEnd, GoesOut, EndsBy};

use crate::NoMemory;
use crate::early::early_line;
use cs_policy::Entry;
use pg_book::Stamped;
use pg_bytes::Status;
use pg_io::{Sink, write_whole};
use scene_text::{Calls, Scene};
use std::alloc::Global;

// How many calls scripts have.
fn calls_in(scripts: &[Calls]) -> u64
    requires few { calls_in scripts.now < 2 ^ 32 }
    ensures { result ≡ calls_in scripts.now }
{
    let mut calls = 0;
    for number in 0..scripts.len() {
        calls += scripts[number].items().len() as u64;
    }
    calls
}

/// The journal of a history of the scene's scripts. The only error is want of memory.
pub fn journal_of(
    alloc: Global,
    scene: &Scene,
    history: &[Stamped<Entry>],
) -> Result<Vec<u8>, NoMemory>
    requires within { IsWithin (scene_lines scene.now) }
    ensures { IfOk result (λ text. text.items ≡ journal history.now (calls_in scene.now.scripts)) }
{
    pg_report::journal(alloc, history, calls_in(scene.scripts.items()))
}

/// The summary lines of a history of the scene's scripts. The only error is want of memory.
pub fn summary_of(
    alloc: Global,
    scene: &Scene,
    history: &[Stamped<Entry>],
) -> Result<Vec<u8>, NoMemory>
    requires within { IsWithin (scene_lines scene.now) }
    ensures { IfOk result (λ text. text.items ≡ summary history.now (calls_in scene.now.scripts)) }
{
    pg_report::summary(alloc, history, calls_in(scene.scripts.items()))
}

// Writes a text, with whose end the run has this status.
fn write_text<K: Sink>(text: &[u8], status: Status, out: &mut K) -> Status
    requires known { status ≢ Status.SinkFault }
    ensures ends { GoesOut (record { status = status; text = text.now }) result
        (K.written out.old) (K.written out.new) }
    ensures sound { result ≢ Status.SinkFault → K.faults out.new ≡ K.faults out.old }
    ensures sink_fault { result ≡ Status.SinkFault →
        Rose (K.faults out.old) (K.faults out.new) }
{
    match write_whole(out, text) {
        Ok(()) => status,
        Err(_) => Status::SinkFault,
    }
}

/// Ends a run by one write of its whole text: of a journal, with which the status is Done, or of the one line of an early end,
/// which takes no memory. The status is SinkFault where the sink fails. For want of memory nothing is written.
pub fn write_end<K: Sink>(answer: Result<Vec<u8>, Status>, out: &mut K) -> Status
    requires early { IfErr answer IsEarlyEnd }
    ensures ends { EndsBy answer result (K.written out.old) (K.written out.new) }
    ensures sound { result ≢ Status.SinkFault → K.faults out.new ≡ K.faults out.old }
    ensures sink_fault { result ≡ Status.SinkFault →
        Rose (K.faults out.old) (K.faults out.new) }
{
    match answer {
        Ok(text) => write_text(&text, Status::Done, out),
        Err(Status::NoMemory) => Status::NoMemory,
        Err(status) => write_text(early_line(&status).as_str().as_bytes(), status, out),
    }
}
