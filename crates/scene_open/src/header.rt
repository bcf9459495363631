//! What header lines say of the whole machine.

ghost use Rattle.std.specs.Prelude.{◌≡◌, IsTrue};
ghost use Rattle.std.specs.List.{list_any};
ghost use Rattle.pg_bytes.specs.PageSize.{is_page_size};
ghost use Rattle.scene_text.specs.declared.line.Line.TheVariants as line;
ghost use Rattle.scene_text.specs.Known as known;
ghost use Rattle.scene_open.specs.Opening.{page_size_of, resident_of, declared};

use scene_text::{Head, Scene};

/// How many bytes a page has, by the last of these lines that says so.
pub fn page_size_in(heads: &[Head]) -> u32
    ensures size { result ≡ page_size_of heads.now }
    ensures known { IsTrue (is_page_size result) }
{
    let mut large = false;
    for head in heads {
        if let Head::PageSize { bytes } = head {
            large = *bytes == 16384;
        }
    }
    if large { 16384 } else { 4096 }
}

/// How many bytes a page of the scene has: 4,096 where no line says so, or 16,384.
pub fn page_size(scene: &Scene) -> u32
    ensures size { result ≡ page_size_of scene.now.head }
    ensures known { IsTrue (is_page_size result) }
{
    page_size_in(scene.head.items())
}

/// How many pages of a file are resident at most: 4,096 where no line says so.
pub fn resident(scene: &Scene) -> u32
    ensures { result ≡ resident_of scene.now.head }
{
    let mut pages = 4096;
    for head in scene.head.items() {
        if let Head::Resident { pages: said } = head {
            pages = *said;
        }
    }
    pages
}

/// Whether the line lets blobs go unlisted.
fn lets_unlisted(head: &Head) -> bool
    ensures { result ≡ known.is_adhoc (line.Head head.now) }
{
    matches!(head, Head::Adhoc)
}

/// Whether one of the lines does.
fn any_lets(heads: &[Head]) -> bool
    ensures { result ≡ list_any (λ head. known.is_adhoc (line.Head head)) heads.now }
{
    heads.iter().any(lets_unlisted)
}

/// Whether a line lets ad hoc signatures be attached that no trust cache lists.
#[tactic(auto, using(crate::proofs::FitFacts::any_map))]
pub fn is_adhoc(scene: &Scene) -> bool
    ensures { result ≡ (declared scene.now.head).adhoc }
{
    any_lets(scene.head.items())
}
