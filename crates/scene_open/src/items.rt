//! Reading the files of a scene's items.

ghost use Rattle.std.specs.Prelude.{◌≡◌, ◌+◌, ◌^◌, ◌<◌, All, length, vec_len, Some, IfOk, OnOk};
ghost use Rattle.pg_io.specs.Files.{Told};
ghost use Rattle.scene_text.specs.Scenes.{scene_lines};
ghost use Rattle.scene_text.specs.Texts.{MeetsGrammar};
ghost use Rattle.scene_open.specs.Limits.{IsWithin};
ghost use Rattle.scene_open.specs.Items.{items_told, told_after, files_named};
ghost use Rattle.scene_open.specs.Opening.{opening_with};
ghost use Rattle.scene_open.specs.Ends.{Opens, OpensSome, ReadsUpToEnd, IsCaused};
ghost use Rattle.scene_open.specs.Fits.{IsOpeningFor};
ghost use Rattle.scene_open.specs.Drafts.{IsReadable, TakesAll};

use crate::draft::Draft;
use crate::header::page_size_in;
use crate::open_scene::OpenScene;
use pg_bytes::Status;
use pg_io::Files;
use scene_text::{Head, Scene};
use std::alloc::Global;

/// The parts of the items of these header lines.
fn take_all<F: Files>(alloc: Global, files: &mut F, heads: &[Head]) -> Result<Draft, Status>
    requires readable { All IsReadable heads.now }
    requires few { length heads.now < 2 ^ 32 }
    ensures takes { TakesAll heads.now (F.tells files.old) (F.tells files.new) result }
    ensures cause { IsCaused result (F.faults files.old) (F.faults files.new) }
{
    let size = page_size_in(heads);
    let mut draft = Draft::new(alloc);
    let mut number = 0_u32;
    for head in heads {
        number += 1;
        match draft.take(alloc, files, heads, size, number, head) {
            Ok(()) => {}
            Err(status) => return Err(status),
        }
    }
    Ok(draft)
}

/// Reads the files of the scene's items in their order and makes the parts of its machine of them. One read is made for each
/// header line that names a file, up to the first item that does not pass. Where memory ran out, at most so many are made.
///
/// The error is the status of the first item that does not pass: `FileFault` where its file cannot be read, `Limit` of
/// `FileBytes` where a file has more than 67,108,864 bytes, and then of `SignatureBytes` where the signature of one of
/// its slices has more than 1,048,576, and `TrustBad` where a static trust cache breaks its format. A bad trust cache
/// that a script may load is no error. `NoMemory` comes where memory ran out.
///
/// Whether or not the files tell their content, the parts are those of an opening of the scene, in which each item has
/// the bytes that were read of it.
pub fn open_items<F: Files>(
    alloc: Global,
    scene: &Scene,
    files: &mut F,
) -> Result<OpenScene, Status>
    requires grammar { MeetsGrammar scene.now }
    requires within { IsWithin (scene_lines scene.now) }
    ensures told { (told : Told) → F.tells files.old ≡ Some told →
        Opens (items_told told scene.now.head) result }
    ensures some { OpensSome scene.now.head result }
    ensures opening { IfOk result (λ o. IsOpeningFor scene.now
        (opening_with scene.now.head o.files.items o.layouts.items o.trust)) }
    ensures paired { IfOk result (λ o. vec_len o.files ≡ vec_len o.layouts) }
    ensures read { (told : Told) → F.tells files.old ≡ Some told →
        OnOk result (F.tells files.new ≡ Some (told_after told (files_named scene.now.head))) }
    ensures reads { (told : Told) → F.tells files.old ≡ Some told →
        ReadsUpToEnd told (items_told told scene.now.head) result (F.tells files.new) }
    ensures cause { IsCaused result (F.faults files.old) (F.faults files.new) }
{
    let draft = match take_all(alloc, files, scene.head.items()) {
        Ok(draft) => draft,
        Err(status) => return Err(status),
    };
    match draft.finish(alloc) {
        Ok(opened) => Ok(opened),
        Err(_) => Err(Status::NoMemory),
    }
}
