//! Laws of plain files.

ghost use Rattle.std.specs.Prelude.{ℕ, ◌<◌, List, Option, Some, IfSome, IsTrue};
ghost use Rattle.pg_digest.specs.Kinds.{Hash};
ghost use Rattle.cs_policy.specs.declared.layout.Layout.{Layout};
ghost use Rattle.cs_policy.specs.declared.file.FileEvent.{FileEvent};
ghost use Rattle.cs_blob.specs.Signature.{Signature};
ghost use Rattle.pg_plain.specs.PlainFile.{PlainFile, opened};
ghost use Rattle.pg_plain.specs.Covers.{Fits};
ghost use Rattle.pg_plain.specs.Steps.{file_step};
ghost use Rattle.pg_plain.specs.Keep.{Keep};
ghost use Rattle.pg_plain.specs.Content.{HasContent};
ghost use Rattle.pg_plain.specs.Replies.{is_reply_to};

/// Of a file that nobody has mapped yet, with room for a resident page, `Keep` is true.
pub fn opening_keeps()
    ensures { (hash : Hash) (size bytes limit : ℕ) (pages : List (List ℕ)) (layout : Layout) → 0 < limit → Keep hash (opened size bytes limit pages layout) }
{}

/// Whatever happens to a file, `Keep` stays true of it: for each event, each outcome of its pager calls and each
/// signature that it attaches and that fits the file's pages.
pub fn steps_keep()
    ensures { (hash : Hash) (file : PlainFile) (event : FileEvent) (blob : Option Signature) (outcome : ℕ)
        → Keep hash file → IfSome blob (Fits file.page_size) → Keep hash (file_step hash file event blob outcome).1 }
{}

/// The pages of a file are its content: after any event they are what the event and its reply make of those before.
pub fn pages_are_content()
    ensures { (hash : Hash) (file : PlainFile) (event : FileEvent) (blob : Option Signature) (outcome : ℕ)
        → Keep hash file → HasContent hash file event blob outcome }
{}

/// A file answers each event by one of the replies of that event, where one that attaches has a signature to attach.
pub fn replies_fit()
    ensures { (hash : Hash) (file : PlainFile) (event : FileEvent) (blob : Signature) (outcome : ℕ)
        → IsTrue (is_reply_to event (file_step hash file event (Some blob) outcome).0) }
{}
