//! What is true of every object.

ghost use Rattle.std.specs.Prelude.{◌≡◌, map};
ghost use Rattle.pg_digest.specs.Kinds.{Hash};
ghost use Rattle.cs_policy.specs.declared.file.FileEvent.{FileEvent};
ghost use Rattle.pg_plain.specs.PlainFile.{PlainFile};
ghost use Rattle.pg_plain.specs.Calls.{page_calls};
ghost use Rattle.pg_object.specs.Object.{ObjectNow};
ghost use Rattle.pg_object.specs.Kept.{IsKept};
ghost use Rattle.pg_object.specs.Checked.{AreSealedNow};
ghost use Rattle.pg_object.specs.PagerCalls.{called_page, pager_calls};

/// A page that an object holds as checked is resident, each of its hash pages hashes to its slot of the signature that
/// covers it, and no shared region may write it.
pub fn checked_are_sealed()
    ensures { (hash : Hash) (now : ObjectNow) → IsKept hash now → AreSealedNow hash now }
{}

/// The reads and writes that an event makes of its pager are of the pages that it calls, one after another.
pub fn calls_have_pages()
    ensures { (hash : Hash) (file : PlainFile) (e : FileEvent) → map called_page (pager_calls hash file e) ≡ page_calls hash file e }
{}
