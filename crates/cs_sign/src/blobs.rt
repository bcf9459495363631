//! Blobs, and a SuperBlob of several.

ghost use Rattle.std.specs.Prelude.{◌≡◌, ◌+◌, ◌*◌, ◌++◌, ◌<◌, ◌≤◌, ◌^◌, length, IfOk, OnOk};
ghost use Rattle.std.specs.List.{flat_map};
ghost use Rattle.cs_sign.specs.Blobs.{index, part_bytes, parts_length};
ghost use Rattle.cs_sign.specs.Blobs as blobs;

use crate::fields::{Field, put_fields};
use std::alloc::{AllocError, Global};
use std::marker::Model;

/// A blob of a SuperBlob: its type, and its bytes with its own magic and length.
///
/// Contracts see it as those two.
#[derive(Drop)]
pub(crate) struct Part {
    slot: u32,
    bytes: Vec<u8>,
}

impl Model for Part {
    ghost use Rattle.cs_sign.specs.Blobs.{Part};

    ghost Value = { Part };

    ghost view = { λ p. record { slot = p.slot; bytes = p.bytes.items } };
}

impl Part {
    /// A blob of a type, made of its bytes.
    pub(crate) fn new(slot: u32, bytes: Vec<u8>) -> Part
        ensures { result ≡ record { slot = slot; bytes = bytes.items } }
    {
        Part { slot, bytes }
    }

    /// A blob of a type, with this magic and what it holds.
    pub(crate) fn of(alloc: Global, slot: u32, magic: u32, held: &[u8]) -> Result<Part, AllocError>
        requires { 8 + length held.now < 2 ^ 32 }
        ensures { IfOk result (λ part.
            part ≡ record { slot = slot; bytes = blobs.blob magic held.now }) }
    {
        Ok(Part {
            slot,
            bytes: blob(alloc, magic, held)?,
        })
    }

    /// Its type.
    pub(crate) fn slot(&self) -> u32
        ensures { result ≡ self.now.slot }
    {
        self.slot
    }

    /// Its bytes.
    pub(crate) fn bytes(&self) -> &[u8]
        ensures { result.now ≡ self.now.bytes }
    {
        &self.bytes
    }
}

/// The magic of a SuperBlob, by which an embedded signature is told.
const SUPERBLOB: u32 = 0xfade_0cc0;

/// A blob: its magic, its length, and what it holds.
pub(crate) fn blob(alloc: Global, magic: u32, held: &[u8]) -> Result<Vec<u8>, AllocError>
    requires { 8 + length held.now < 2 ^ 32 }
    ensures { IfOk result (λ made. made.items ≡ blobs.blob magic held.now) }
{
    let size = 8 + held.len();
    let mut made = Vec::with_capacity(alloc, size)?;
    put_fields(&mut made, &[Field::Word(magic), Field::Word(size as u32)])?;
    made.extend_from_slice(held)?;
    Ok(made)
}

/// Puts the table of a SuperBlob behind the bytes: the type and the place of each blob, of which the first begins at `at`.
fn put_index(out: &mut Vec<u8>, parts: &[Part], at: u32) -> Result<(), AllocError>
    requires { at + parts_length parts.now < 2 ^ 32 }
    ensures { OnOk result (out.new.items ≡ out.old.items ++ index at parts.now) }
{
    let mut at = at;
    for part in parts {
        put_fields(out, &[Field::Word(part.slot()), Field::Word(at)])?;
        at += part.bytes().len() as u32;
    }
    Ok(())
}

/// Puts blobs behind the bytes, without gaps.
fn put_parts(out: &mut Vec<u8>, parts: &[Part]) -> Result<(), AllocError>
    ensures { OnOk result (out.new.items ≡ out.old.items ++ flat_map part_bytes parts.now) }
{
    for part in parts {
        out.extend_from_slice(part.bytes())?;
    }
    Ok(())
}

/// A SuperBlob of these blobs, which stand behind its table in their order and without gaps.
pub(crate) fn superblob(alloc: Global, parts: &[Part]) -> Result<Vec<u8>, AllocError>
    requires { 12 + 8 * length parts.now + parts_length parts.now < 2 ^ 32 }
    ensures { IfOk result (λ made. made.items ≡ blobs.superblob parts.now) }
{
    let mut held = Vec::new(alloc);
    put_fields(&mut held, &[Field::Word(parts.len() as u32)])?;
    put_index(&mut held, parts, 12 + 8 * parts.len() as u32)?;
    put_parts(&mut held, parts)?;
    blob(alloc, SUPERBLOB, &held)
}
