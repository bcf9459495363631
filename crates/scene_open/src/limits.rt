//! The limits on what a scene says.

ghost use Rattle.std.specs.Prelude.{◌≡◌, ℕ, ◌∷◌, [], ◌^◌, ◌-◌, min, length, count_by, sum_by, Some, None, OnOk, IfErr};
ghost use Rattle.pg_bytes.specs.Rules.{first};
ghost use Rattle.scene_text.specs.declared.line.Line.TheVariants as line;
ghost use Rattle.scene_text.specs.Known as known;
ghost use Rattle.scene_text.specs.Scenes.{scene_lines};
ghost use Rattle.scene_open.specs.Limits as limits;
ghost use Rattle.scene_open.specs.Limits.{above, over_limit, IsWithin};
ghost use Rattle.scene_open.specs.Ends.{IsCaused};

use cs_policy::Call;
use pg_bytes::{Status, Which};
use scene_text::{Calls, Head, Scene};

/// The most call lines.
const CALLS: u64 = 4096;

/// The most scripts.
const WORKERS: u64 = 8;

/// The most files.
const FILES: u64 = 16;

/// The most processes.
const PROCESSES: u64 = 64;

/// The most static modules.
const STATICS: u64 = 64;

/// The most trust caches that can be loaded.
const CACHES: u64 = 64;

/// The most pager calls that fail.
const FAILS: u64 = 64;

/// The most call lines that attach a signature.
const ATTACHES: u64 = 64;

/// The limit that a count passes.
fn over(count: usize, number: u64, which: Which) -> Option<Status>
    ensures { result ≡ first (above which number count ∷ []) }
{
    if count as u64 > number {
        return Some(Status::Limit { which, number });
    }
    None
}

/// How many calls there are, or the greatest number where they are more.
fn calls(scripts: &[Calls]) -> usize
    ensures { result ≡ min (sum_by length scripts.now) (2 ^ 64 - 1) }
{
    let mut count = 0_usize;
    for script in scripts {
        count = count.saturating_add(script.items().len());
    }
    count
}

/// How many of these calls attach a signature.
fn attaches_of(calls: &[Call]) -> usize
    ensures { result ≡ count_by (λ call. limits.is_attach (line.Call call)) calls.now }
{
    calls
        .iter()
        .filter(|call| matches!(call, Call::Attach { .. }))
        .count()
}

/// How many calls attach a signature, or the greatest number where they are more.
fn attaches(scripts: &[Calls]) -> usize
    ensures { result ≡ min
        (sum_by (λ calls. count_by (λ call. limits.is_attach (line.Call call)) calls) scripts.now)
        (2 ^ 64 - 1) }
{
    let mut count = 0_usize;
    for script in scripts {
        count = count.saturating_add(attaches_of(script.items()));
    }
    count
}

/// How many of the lines declare a file.
fn files(heads: &[Head]) -> usize
    ensures { result ≡ count_by (λ head. known.is_file (line.Head head)) heads.now }
{
    heads
        .iter()
        .filter(|head| matches!(head, Head::File { .. } | Head::Raw { .. }))
        .count()
}

/// How many of the lines declare a process.
fn processes(heads: &[Head]) -> usize
    ensures { result ≡ count_by (λ head. known.is_process (line.Head head)) heads.now }
{
    heads
        .iter()
        .filter(|head| matches!(head, Head::Process { .. }))
        .count()
}

/// How many of the lines are static modules.
fn statics(heads: &[Head]) -> usize
    ensures { result ≡ count_by (λ head. limits.is_static (line.Head head)) heads.now }
{
    heads
        .iter()
        .filter(|head| matches!(head, Head::Static { .. } | Head::Admit { .. }))
        .count()
}

/// How many of the lines are trust caches that can be loaded.
fn caches(heads: &[Head]) -> usize
    ensures { result ≡ count_by (λ head. known.is_cache (line.Head head)) heads.now }
{
    heads
        .iter()
        .filter(|head| matches!(head, Head::Cache { .. }))
        .count()
}

/// How many of the lines let a pager call fail.
fn fails(heads: &[Head]) -> usize
    ensures { result ≡ count_by (λ head. limits.is_fail (line.Head head)) heads.now }
{
    heads
        .iter()
        .filter(|head| matches!(head, Head::Fail { .. }))
        .count()
}

/// The first limit that the lines of a scene pass.
fn first_over(scene: &Scene) -> Option<Status>
    ensures { result ≡ over_limit (scene_lines scene.now) }
{
    let heads = scene.head.items();
    let scripts = scene.scripts.items();
    over(calls(scripts), CALLS, Which::Calls)
        .or(over(scripts.len(), WORKERS, Which::Workers))
        .or(over(files(heads), FILES, Which::Files))
        .or(over(processes(heads), PROCESSES, Which::Processes))
        .or(over(statics(heads), STATICS, Which::Statics))
        .or(over(caches(heads), CACHES, Which::Caches))
        .or(over(fails(heads), FAILS, Which::Fails))
        .or(over(attaches(scripts), ATTACHES, Which::Attaches))
}

/// Holds a scene to the limits on its lines, in their order.
pub fn hold_counts(scene: &Scene) -> Result<(), Status>
    ensures kept { OnOk result (over_limit (scene_lines scene.now) ≡ None) }
    ensures within { OnOk result (IsWithin (scene_lines scene.now)) }
    ensures over { IfErr result (λ s. over_limit (scene_lines scene.now) ≡ Some s) }
    ensures cause { (faults : ℕ) → IsCaused result faults faults }
{
    match first_over(scene) {
        Some(status) => Err(status),
        None => Ok(()),
    }
}
