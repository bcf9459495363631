//! The code directory of a signature.

ghost use Rattle.std.specs.Prelude.{◌≡◌, ◌==◌, ◌+◌, ◌*◌, ◌-◌, ◌++◌, ◌≤◌, ◌<◌, ◌^◌, length, IfOk, OnOk, option_copied};
ghost use Rattle.pg_bytes.specs.Counts.{RoseBy};
ghost use Rattle.cs_directory.specs.HashPages.{bytes_of};
ghost use Rattle.cs_verify.specs.Pages.{hash_page};
ghost use Rattle.cs_sign.specs.Requests.{special_slots};
ghost use Rattle.cs_sign.specs.Rules.{IsSized};
ghost use Rattle.cs_sign.specs.Directory.{header, part_of, special_hash, special_hashes, code_hashes};
ghost use Rattle.cs_sign.specs.Directory as directories;

use crate::blobs::Part;
use crate::fields::{Field, put_fields};
use crate::plan::Plan;
use crate::request::Request;
use cs_directory::HashPage;
use pg_digest::{Digester, HashKind, digest_bytes};
use std::alloc::{AllocError, Global};

/// The fields of the header: 88 bytes, in the order of the layout.
fn header(request: &Request, plan: &Plan) -> [Field; 21]
    requires { IsSized request.now plan.now.limit }
    ensures { result ≡ header request.now plan.now }
{
    [
        Field::Word(0xfade_0c02),
        Field::Word(request.directory_len(plan.limit) as u32),
        Field::Word(0x20400),
        Field::Word(2),
        Field::Word(request.hash_offset() as u32),
        Field::Word(88),
        Field::Word(request.special_slots()),
        Field::Word(request.code_slots(plan.limit) as u32),
        Field::Word(plan.limit as u32),
        Field::Byte(32),
        Field::Byte(2),
        Field::Byte(0),
        Field::Byte(request.page().bits()),
        Field::Word(0),
        Field::Word(0),
        Field::Word(0),
        Field::Word(0),
        Field::Long(0),
        Field::Long(plan.exec.base),
        Field::Long(plan.exec.limit),
        Field::Long(plan.exec.flags),
    ]
}

/// Puts the SHA-256 digest of some bytes behind others.
fn put_digest<D: Digester>(out: &mut Vec<u8>, bytes: &[u8], d: &mut D) -> Result<(), AllocError>
    ensures put { OnOk result (out.new.items ≡ out.old.items ++ D.hash HashKind.Sha256 bytes.now) }
    ensures once { RoseBy 1 (D.calls d.old) (D.calls d.new) }
{
    out.extend_from_slice(digest_bytes(&d.hash(HashKind::Sha256, bytes)))
}

/// The blob of a type, if there is one.
fn part_of(parts: &[Part], slot: u32) -> Option<&Part>
    ensures { option_copied result ≡ part_of parts.now slot }
{
    parts.iter().find(|part| part.slot() == slot)
}

/// Puts a special slot behind the bytes: the digest of the blob of that type, or zeros where there is none.
fn put_special<D: Digester>(
    out: &mut Vec<u8>,
    parts: &[Part],
    slot: u32,
    d: &mut D,
) -> Result<(), AllocError>
    ensures { OnOk result (out.new.items ≡ out.old.items ++ special_hash D.hash parts.now slot) }
{
    match part_of(parts, slot) {
        Some(part) => put_digest(out, part.bytes(), d),
        None => out.extend_from_slice(&[0; 32]),
    }
}

/// Puts the special slots behind the bytes, of which there are `slots`: the last one comes first.
fn put_specials<D: Digester>(
    out: &mut Vec<u8>,
    parts: &[Part],
    slots: u32,
    d: &mut D,
) -> Result<(), AllocError>
    ensures { OnOk result (out.new.items ≡ out.old.items ++ special_hashes D.hash parts.now slots) }
{
    for later in 0..slots {
        put_special(out, parts, slots - later, d)?;
    }
    Ok(())
}

/// The bytes of one hash page of a size: the last may be short.
#[tactic(auto, unfolding(cs_verify::specs::Pages::hash_page))]
fn hash_page(size: u64, body: &[u8], page: u64) -> &[u8]
    requires { page * size < length body.now }
    ensures { result.now ≡ hash_page size body.now page }
{
    let (_, rest) = body.split_at((page * size) as usize);
    &rest[..(size as usize).min(rest.len())]
}

/// Puts the code slots behind the bytes: the digest of each hash page of the body.
fn put_codes<D: Digester>(
    out: &mut Vec<u8>,
    page: HashPage,
    body: &[u8],
    d: &mut D,
) -> Result<(), AllocError>
    requires { length body.now < 2 ^ 63 }
    ensures { OnOk result (out.new.items ≡ out.old.items ++ code_hashes D.hash page body.now) }
{
    let size = page.bytes();
    for number in 0..(body.len() as u64).div_ceil(size) {
        put_digest(out, hash_page(size, body, number), d)?;
    }
    Ok(())
}

/// The code directory of a body with these blobs beside it.
pub(crate) fn directory<D: Digester>(
    alloc: Global,
    request: &Request,
    plan: &Plan,
    parts: &[Part],
    body: &[u8],
    d: &mut D,
) -> Result<Vec<u8>, AllocError>
    requires sized { IsSized request.now plan.now.limit }
    requires limit { length body.now ≡ plan.now.limit }
    ensures { IfOk result (λ made.
        made.items ≡ directories.directory D.hash request.now plan.now parts.now body.now) }
{
    let mut made = Vec::with_capacity(alloc, request.directory_len(plan.limit) as usize)?;
    put_fields(&mut made, &header(request, plan))?;
    made.extend_from_slice(request.ident())?;
    made.extend_from_slice(&[0])?;
    put_specials(&mut made, parts, request.special_slots(), d)?;
    put_codes(&mut made, request.page(), body, d)?;
    Ok(made)
}
