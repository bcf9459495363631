//! Reading a scene's file.

ghost use Rattle.std.specs.Prelude.{◌≡◌, ℕ, Some, IfOk, OnOk};
ghost use Rattle.pg_io.specs.Files.{Told, next_read, after_read};
ghost use Rattle.scene_text.specs.Scenes.{scene_lines};
ghost use Rattle.scene_text.specs.Texts.{MeetsGrammar};
ghost use Rattle.scene_open.specs.Limits.{IsWithin};
ghost use Rattle.scene_open.specs.Items.{ReadsWithin};
ghost use Rattle.scene_open.specs.Ends.{ReadsScene, ReadsSome, ReadsText, IsCaused};

use crate::limits::hold_counts;
use pg_bytes::{Status, Which};
use pg_io::{Files, ReadFail};
use scene_text::{Scene, SceneFail, scene};
use std::alloc::Global;

/// The most bytes that a scene may have.
const MOST: u64 = 1_048_576;

/// The scene of a text that was read, of which there is at most one byte more than a scene may have.
fn scene_of(alloc: Global, text: &[u8]) -> Result<Scene, Status>
    ensures reads { ReadsText text.now result }
    ensures cause { (faults : ℕ) → IsCaused result faults faults }
    ensures grammar { IfOk result MeetsGrammar }
    ensures within { IfOk result (λ scene. IsWithin (scene_lines scene)) }
{
    if text.len() as u64 > MOST {
        return Err(Status::Limit {
            which: Which::Scene,
            number: MOST,
        });
    }
    let scene = match scene(alloc, text) {
        Ok(scene) => scene,
        Err(SceneFail::NoMemory) => return Err(Status::NoMemory),
        Err(SceneFail::Bad { line, kind }) => return Err(Status::SceneBad { line, kind }),
    };
    match hold_counts(&scene) {
        Ok(()) => Ok(scene),
        Err(status) => Err(status),
    }
}

/// Reads the scene in the file of this path, by one read. The error is the status of the first step that does not pass:
/// `FileFault` with item 0 where the file cannot be read, `Limit` of `Scene` where it has more than 1,048,576 bytes,
/// `SceneBad` with its first bad line, `Limit` of the first of its counts that is above one, from `Calls` to `Attaches`,
/// and `NoMemory` where memory ran out. The scene meets its grammar and is within the limits, whether or not the files
/// tell their content.
pub fn read_scene<F: Files>(alloc: Global, path: &str, files: &mut F) -> Result<Scene, Status>
    ensures told { (told : Told) → F.tells files.old ≡ Some told →
        ReadsScene (next_read told path.now) result }
    ensures some { ReadsSome result }
    ensures read { (told : Told) → F.tells files.old ≡ Some told →
        OnOk result (F.tells files.new ≡ Some (after_read told)) }
    ensures reads { (told : Told) → F.tells files.old ≡ Some told →
        ReadsWithin told 1 (F.tells files.new) }
    ensures cause { IsCaused result (F.faults files.old) (F.faults files.new) }
    ensures grammar { IfOk result MeetsGrammar }
    ensures within { IfOk result (λ scene. IsWithin (scene_lines scene)) }
{
    match files.read(alloc, path, MOST + 1) {
        Ok(text) => scene_of(alloc, &text),
        Err(ReadFail::Failed) => Err(Status::FileFault { item: 0 }),
        Err(ReadFail::NoMemory) => Err(Status::NoMemory),
    }
}
