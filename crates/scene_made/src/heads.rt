//! The header lines of a made scene.

ghost use Rattle.std.specs.Prelude.{◌≡◌, map, All, IfOk, OnOk, string_bytes};
ghost use Rattle.scene_made.specs.Made.{names, raw, process, admit, heads_of};
ghost use Rattle.scene_made.specs.Listed.{IsListed};

use crate::NoMemory;
use cs_policy::ProcFlags;
use pg_bytes::Octets;
use scene_text::{Head, Heads};
use std::alloc::Global;

/// The names of the four files.
const NAMES: [&str; 4] = ["gen0", "gen1", "gen2", "gen3"];

/// The names of the four files.
pub fn names(alloc: Global) -> Result<Vec<String>, NoMemory>
    ensures { IfOk result (λ all. map string_bytes all.items ≡ names) }
{
    let [first, second, third, fourth] = NAMES;
    let all = vec![in alloc;
        String::from_str(alloc, first)?,
        String::from_str(alloc, second)?,
        String::from_str(alloc, third)?,
        String::from_str(alloc, fourth)?,
    ]?;
    Ok(all)
}

/// The line of the file of this name.
fn raw(alloc: Global, name: &str) -> Result<Head, NoMemory>
    ensures { IfOk result (λ head. head ≡ raw name.now) }
{
    let path = Octets::new(name.as_bytes().to_vec(alloc)?);
    Ok(Head::Raw {
        path,
        off: 262_144,
        len: 2138,
    })
}

/// The line of a process.
fn process() -> Head
    ensures { result ≡ process }
{
    Head::Process {
        flags: ProcFlags::ENFORCEMENT,
    }
}

/// The line that admits a cdhash.
fn admit(cdhash: [u8; 20]) -> Head
    ensures line { result ≡ admit cdhash }
    ensures listed { IsListed cdhash }
{
    Head::Admit { cdhash }
}

/// The header lines, where the files have these cdhashes.
pub fn heads(alloc: Global, cdhashes: [[u8; 20]; 4]) -> Result<Heads, NoMemory>
    ensures lines { IfOk result (λ heads. heads ≡ heads_of cdhashes) }
    ensures listed { OnOk result (All IsListed cdhashes) }
{
    let [first, second, third, fourth] = cdhashes;
    let heads = vec![in alloc;
        Head::Resident { pages: 16 },
        raw(alloc, NAMES[0])?,
        raw(alloc, NAMES[1])?,
        raw(alloc, NAMES[2])?,
        raw(alloc, NAMES[3])?,
        process(),
        process(),
        process(),
        process(),
        admit(first),
        admit(second),
        admit(third),
        admit(fourth),
    ]?;
    Ok(Heads::new(heads))
}
