//! What scripts need of each part.

ghost use Rattle.std.specs.Prelude.{◌≡◌, ◌+◌, ◌*◌, ◌<◌, ◌≤◌, ◌^◌, ℕ, length, map, All, IfOk};
ghost use Rattle.pg_book.specs.Needs.{nothing_needed, rows};
ghost use Rattle.pg_calls.specs.Room.{plus, Within, use_at, at_process, at_file, at_some_file, at_trust, fault_uses, call_uses, one_entry};
ghost use Rattle.pg_calls.specs.Scripts.{calls_use};
ghost use Rattle.scene_run.specs.Needs.{of_each, place_of, row_of, needs_of};

use crate::NoMemory;
use cs_policy::{Access, Call, Place};
use pg_book::{AllNeeds, Needs};
use scene_text::{Calls, Scripts};
use std::alloc::Global;

/// No room.
pub(crate) const NOTHING: Needs = Needs {
    entries: 0,
    regions: 0,
    records: 0,
    copies: 0,
    blobs: 0,
    numbers: 0,
};

const ENTRY: Needs = Needs {
    entries: 1,
    regions: 0,
    records: 0,
    copies: 0,
    blobs: 0,
    numbers: 0,
};

const NUMBER: Needs = Needs {
    entries: 1,
    regions: 0,
    records: 0,
    copies: 0,
    blobs: 0,
    numbers: 1,
};

const REGION: Needs = Needs {
    entries: 1,
    regions: 1,
    records: 0,
    copies: 0,
    blobs: 0,
    numbers: 0,
};

const BLOB: Needs = Needs {
    entries: 1,
    regions: 0,
    records: 0,
    copies: 0,
    blobs: 1,
    numbers: 0,
};

/// Room of both.
pub(crate) fn plus(one: Needs, other: Needs) -> Needs
    requires one { Within one (of_each (2 ^ 62)) }
    requires other { Within other (of_each (2 ^ 62)) }
    ensures { result ≡ plus one other }
{
    Needs {
        entries: one.entries + other.entries,
        regions: one.regions + other.regions,
        records: one.records + other.records,
        copies: one.copies + other.copies,
        blobs: one.blobs + other.blobs,
        numbers: one.numbers + other.numbers,
    }
}

// What an event of a process uses at a part.
fn at_process(at: Place, pid: u32, uses: Needs) -> Needs
    requires small { Within uses (of_each 1) }
    ensures uses { result ≡ use_at at (at_process pid uses) }
    ensures small { Within result (of_each 1) }
{
    match at {
        Place::Process(number) if number == pid => uses,
        _ => NOTHING,
    }
}

// What an event of a file uses at a part.
fn at_file(at: Place, file: u32, uses: Needs) -> Needs
    requires small { Within uses (of_each 1) }
    ensures uses { result ≡ use_at at (at_file file uses) }
    ensures small { Within result (of_each 1) }
{
    match at {
        Place::File(number) if number == file => uses,
        _ => NOTHING,
    }
}

// What an event of some file uses at a part.
fn at_some_file(at: Place, uses: Needs) -> Needs
    requires small { Within uses (of_each 1) }
    ensures uses { result ≡ use_at at (at_some_file uses) }
    ensures small { Within result (of_each 1) }
{
    match at {
        Place::File(_) => uses,
        _ => NOTHING,
    }
}

// What an event of the trust list uses at a part.
fn at_trust(at: Place) -> Needs
    ensures uses { result ≡ use_at at at_trust }
    ensures small { Within result (of_each 1) }
{
    match at {
        Place::Trust => ENTRY,
        _ => NOTHING,
    }
}

// What the request for a page uses.
fn fault_uses(access: Access) -> Needs
    ensures uses { result ≡ fault_uses access }
    ensures small { Within result (of_each 1) }
{
    let copies = if access == Access::Write { 1 } else { 0 };
    Needs {
        entries: 1,
        regions: 0,
        records: 1,
        copies,
        blobs: 0,
        numbers: 0,
    }
}

// What three events use.
fn sum(first: Needs, second: Needs, third: Needs) -> Needs
    requires first { Within first (of_each 1) }
    requires second { Within second (of_each 1) }
    requires third { Within third (of_each 1) }
    ensures sum { result ≡ plus first (plus second (plus third nothing_needed)) }
    ensures small { Within result (of_each 3) }
{
    plus(first, plus(second, third))
}

// What a call may use of a part.
fn call_uses(call: &Call, at: Place) -> Needs
    ensures uses { result ≡ call_uses call.now at }
    ensures small { Within result (of_each 3) }
{
    match call {
        Call::Spawn { pid } => sum(at_process(at, *pid, ENTRY), NOTHING, NOTHING),
        Call::Map { pid, file, .. } => sum(
            at_process(at, *pid, NUMBER),
            at_file(at, *file, REGION),
            NOTHING,
        ),
        Call::Unmap { pid, .. } => sum(
            at_process(at, *pid, ENTRY),
            at_some_file(at, ENTRY),
            NOTHING,
        ),
        Call::Attach { file, .. } => sum(
            at_file(at, *file, ENTRY),
            at_trust(at),
            at_file(at, *file, BLOB),
        ),
        Call::LoadTrust { .. } => sum(at_trust(at), NOTHING, NOTHING),
        Call::Fault { pid, access, .. } => sum(
            at_process(at, *pid, ENTRY),
            at_some_file(at, fault_uses(*access)),
            at_process(at, *pid, ENTRY),
        ),
        Call::Store { pid, .. } => sum(
            at_process(at, *pid, ENTRY),
            at_some_file(at, ENTRY),
            NOTHING,
        ),
        Call::Load { pid, .. } => sum(
            at_process(at, *pid, ENTRY),
            at_some_file(at, ENTRY),
            NOTHING,
        ),
        Call::Fetch { pid, .. } => sum(
            at_process(at, *pid, ENTRY),
            at_some_file(at, ENTRY),
            NOTHING,
        ),
        Call::Write { file, .. } => sum(at_file(at, *file, ENTRY), NOTHING, NOTHING),
        Call::Evict { file, .. } => sum(at_file(at, *file, ENTRY), NOTHING, NOTHING),
        Call::Debug { pid } => sum(at_process(at, *pid, ENTRY), NOTHING, NOTHING),
        Call::Exit { pid } => sum(
            at_process(at, *pid, ENTRY),
            at_some_file(at, ENTRY),
            NOTHING,
        ),
    }
}

// What the calls of a script may use of a part.
fn script_uses(script: &[Call], at: Place) -> Needs
    requires few { length script.now ≤ 4096 }
    ensures uses { result ≡ calls_use script.now at }
{
    let mut uses = NOTHING;
    for number in 0..script.len() {
        uses = plus(uses, call_uses(&script[number], at));
    }
    uses
}

// The place of a part.
fn place_of(part: u32, files: u32, processes: u32) -> Place
    requires few { files + processes < 2 ^ 32 }
    ensures { result ≡ place_of files processes part }
{
    if part < files {
        Place::File(part)
    } else if part < files + processes {
        Place::Process(part - files)
    } else {
        Place::Trust
    }
}

// What a script needs of each part.
fn row(alloc: Global, script: &[Call], files: u32, processes: u32) -> Result<Vec<Needs>, NoMemory>
    requires few { length script.now ≤ 4096 }
    requires parts { files + processes + 1 < 2 ^ 32 }
    ensures { IfOk result (λ row. row.items ≡ row_of files processes script.now) }
{
    let parts = files + processes + 1;
    let mut row = Vec::with_capacity(alloc, parts as usize)?;
    for part in 0..parts {
        row.push(script_uses(script, place_of(part, files, processes)))?;
    }
    Ok(row)
}

/// What each caller needs of each part, where there are so many files and processes: what the calls of its script may use
/// of it. Where there is no script, there is one caller, who needs nothing.
pub fn needs_of(
    alloc: Global,
    scripts: &Scripts,
    files: u32,
    processes: u32,
) -> Result<AllNeeds, NoMemory>
    requires few { All (λ script. length script ≤ 4096) scripts.now }
    requires parts { files + processes + 1 < 2 ^ 32 }
    ensures { IfOk result (λ needs. rows needs ≡ needs_of files processes scripts.now) }
{
    let scripts = scripts.items();
    let mut needs = Vec::new(alloc);
    for number in 0..scripts.len() {
        needs.push(row(alloc, scripts[number].items(), files, processes)?)?;
    }
    if scripts.is_empty() {
        needs.push(row(alloc, &[], files, processes)?)?;
    }
    Ok(needs)
}
