//! A scene with its files, made of a number.

ghost use Rattle.std.specs.Prelude.{◌≡◌, ◌≤◌, map, None, IfOk, string_bytes};
ghost use Rattle.pg_digest.specs.Digests.{sha_hash};
ghost use Rattle.scene_text.specs.Texts.{MeetsGrammar};
ghost use Rattle.scene_text.specs.Scenes.{scene_lines};
ghost use Rattle.scene_open.specs.Limits.{IsWithin};
ghost use Rattle.scene_open.specs.Items.{items_told, items_end};
ghost use Rattle.scene_made.specs.Made.{told, cdhash_of, names, file_bytes, four};
ghost use Rattle.scene_made.specs.Made as specs;

use crate::NoMemory;
use crate::calls::scripts;
use crate::files::file;
use crate::heads::{heads, names};
use pg_digest::ShaDigester;
use pg_io::MemFiles;
use scene_text::Scene;
use std::alloc::Global;

/// The files of a scene: their names, their bytes, and the cdhashes of their code directories.
#[derive(Drop)]
struct Named {
    names: Vec<String>,
    contents: Vec<Vec<u8>>,
    cdhashes: [[u8; 20]; 4],
}

/// The four files.
fn files(alloc: Global, n: u64) -> Result<Named, NoMemory>
    requires { n ≤ 1000 }
    ensures names { IfOk result (λ files. map string_bytes files.names.items ≡ names) }
    ensures contents { IfOk result (λ files.
        map (λ v. v.items) files.contents.items ≡ map (file_bytes sha_hash n) four) }
    ensures cdhashes { IfOk result (λ files. files.cdhashes ≡ map (cdhash_of sha_hash n) four) }
{
    let mut digester = ShaDigester::new();
    let first = file(alloc, n, 0, &mut digester)?;
    let second = file(alloc, n, 1, &mut digester)?;
    let third = file(alloc, n, 2, &mut digester)?;
    let fourth = file(alloc, n, 3, &mut digester)?;
    let names = names(alloc)?;
    Ok(Named {
        names,
        cdhashes: [first.cdhash, second.cdhash, third.cdhash, fourth.cdhash],
        contents: vec![in alloc; first.bytes, second.bytes, third.bytes, fourth.bytes]?,
    })
}

/// The scene of a number from 1 to 1,000, and its files, none of which was read yet and no read of which fails: four
/// files of 64 pages with bare code directories, four enforced processes, and four scripts of 1,003 calls, each on a file
/// and a process of its own. No item of it ends its run early. The only error is want of memory.
pub fn made(alloc: Global, n: u64) -> Result<(Scene, MemFiles), NoMemory>
    requires least { 1 ≤ n }
    requires most { n ≤ 1000 }
    ensures scene { IfOk result (λ made. made.0 ≡ specs.scene sha_hash n) }
    ensures files { IfOk result (λ made. made.1.told ≡ told sha_hash n) }
    ensures faultless { IfOk result (λ made. made.1.faults ≡ 0) }
    ensures grammar { IfOk result (λ made. MeetsGrammar made.0) }
    ensures within { IfOk result (λ made. IsWithin (scene_lines made.0)) }
    ensures opens { IfOk result (λ made. items_end 1 (items_told made.1.told made.0.head) ≡ None) }
{
    let files = files(alloc, n)?;
    let head = heads(alloc, files.cdhashes)?;
    let scripts = scripts(alloc, n)?;
    let fails = Vec::new(alloc);
    let scene = Scene { head, scripts };
    Ok((scene, MemFiles::new(files.names, files.contents, fails)))
}
