//! A scene is read, and its items are opened.

ghost use Rattle.std.specs.Prelude.{◌≡◌, vec_len, IfOk};
ghost use Rattle.pg_io.specs.Files.{Told};
ghost use Rattle.scene_text.specs.Scenes.{scene_lines};
ghost use Rattle.scene_open.specs.Fits.{IsOpeningFor};
ghost use Rattle.scene_open.specs.Items.{ReadsWithin};
ghost use Rattle.scene_open.specs.Limits.{IsWithin};
ghost use Rattle.scene_open.specs.Opening.{opening_with};
ghost use Rattle.scene_run.specs.Ending.{run_path, most_reads, OverSome, GoesOn, StartIsCaused};

use pg_bytes::Status;
use pg_io::Files;
use scene_open::{OpenScene, open_items, read_scene};
use scene_text::Scene;
use std::alloc::Global;

/// Reads the scene in the file of this path, opens its items, and gives both. The error is the status of the first step that
/// ends the run: FileFault with the item's number for a file that cannot be read, 0 for the scene; SceneBad for a bad line;
/// Limit for the first limit that is passed; TrustBad for a static trust cache that breaks its format; and NoMemory for want
/// of memory. At most one read is made for the scene's file, and for each file that a header line names up to the first item that
/// ends the run. Where the files do not tell, the answer is that over some bytes of these files.
pub fn open_path<F: Files>(
    alloc: Global,
    path: &str,
    files: &mut F,
) -> Result<(Scene, OpenScene), Status>
    ensures told { (told : Told) → F.tells files.old ≡ Some told →
        GoesOn (run_path told path.now) result }
    ensures some { OverSome (λ goes. GoesOn goes result) }
    ensures cause { StartIsCaused (F.faults files.old) (F.faults files.new) result }
    ensures reads { (told : Told) → F.tells files.old ≡ Some told →
        ReadsWithin told (most_reads told path.now) (F.tells files.new) }
    ensures within { IfOk result (λ r. IsWithin (scene_lines r.0)) }
    ensures opening { IfOk result (λ r. IsOpeningFor r.0
        (opening_with r.0.head r.1.files.items r.1.layouts.items r.1.trust)) }
    ensures paired { IfOk result (λ r. vec_len r.1.files ≡ vec_len r.1.layouts) }
{
    let scene = match read_scene(alloc, path, files) {
        Ok(scene) => scene,
        Err(status) => return Err(status),
    };
    let opened = match open_items(alloc, &scene, files) {
        Ok(opened) => opened,
        Err(status) => return Err(status),
    };
    Ok((scene, opened))
}
