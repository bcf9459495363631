//! The blobs of a signature.

ghost use Rattle.std.specs.Prelude.{◌≡◌, ◌==◌, IfOk, IfErr, OnOk, None, filter};
ghost use Rattle.cs_blob.specs.Parts.{is_directory_type, directories_among, entry_of};
ghost use Rattle.cs_blob.specs.Parts as parts;
ghost use Rattle.cs_blob.specs.Rules.{parts_rule, Refuses};
ghost use Rattle.cs_blob.specs.Digests.{IsEarlyFail};
ghost use Rattle.cs_blob.specs.Signed.{HasParts};

use crate::refusal::{BlobFail, BlobRefusal};
use cs_superblob::{Seat, index};
use pg_bytes::{Range, be32_at};
use std::alloc::{AllocError, Global};

/// The magic by which a code directory is told from other blobs.
const DIRECTORY_MAGIC: u32 = 0xfade_0c02;

/// The type of the code directory that each signature has.
const DIRECTORY: u32 = 0;

/// Where the blobs of a signature lie.
#[derive(Drop)]
pub struct Parts {
    /// The entries of the SuperBlob. A code directory alone has none.
    pub entries: Vec<Seat>,
    /// Those of code directories, or the only one.
    pub directories: Vec<Seat>,
}

/// The entry of a type.
pub fn entry(entries: &[Seat], slot: u32) -> Option<Seat>
    ensures { result ≡ entry_of entries.now slot }
{
    entries.iter().copied().find(|seat| seat.slot == slot)
}

/// The blobs of a signature. The rules are those on the SuperBlob and on the type of the directory.
pub fn parts_of(alloc: Global, bytes: &[u8]) -> Result<Parts, BlobFail>
    ensures placed { IfOk result (λ found.
        HasParts bytes.now found.entries.items found.directories.items) }
    ensures kept { OnOk result (parts_rule bytes.now ≡ None) }
    ensures refused { IfErr result (Refuses (parts_rule bytes.now)) }
    ensures early { IfErr result IsEarlyFail }
{
    if is_bare(bytes) {
        let mut directories = Vec::new(alloc);
        directories.push(whole(bytes))?;
        return Ok(Parts {
            entries: Vec::new(alloc),
            directories,
        });
    }
    let entries = index(alloc, bytes)?;
    if entry(&entries, DIRECTORY).is_none() {
        return Err(BlobRefusal::NoDirectory.into());
    }
    let directories = directories_of(alloc, &entries)?;
    Ok(Parts {
        entries,
        directories,
    })
}

/// Whether the bytes begin with a code directory, and so are no SuperBlob.
#[tactic(auto, unfolding(crate::specs::Parts::is_bare))]
fn is_bare(bytes: &[u8]) -> bool
    ensures { result ≡ parts.is_bare bytes.now }
{
    bytes.len() >= 4 && be32_at(bytes, 0) == DIRECTORY_MAGIC
}

/// A code directory alone, as an entry that places it.
fn whole(bytes: &[u8]) -> Seat
    ensures { result ≡ parts.whole bytes.now }
{
    Seat {
        slot: DIRECTORY,
        range: Range {
            at: 0,
            len: bytes.len() as u64,
        },
    }
}

/// The entries of code directories, in the order of the index.
fn directories_of(alloc: Global, entries: &[Seat]) -> Result<Vec<Seat>, AllocError>
    ensures { IfOk result (λ found. found.items ≡ directories_among entries.now) }
{
    entries
        .iter()
        .filter(|seat| is_directory_type(seat.slot))
        .copied()
        .collect(alloc)
}

/// Whether a type is that of a code directory, the first or an alternate one.
fn is_directory_type(slot: u32) -> bool
    ensures { result ≡ is_directory_type slot }
{
    slot == DIRECTORY || (0x1000..=0x1004).contains(&slot)
}
