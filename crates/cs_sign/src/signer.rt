//! Signing a file.

ghost use Rattle.std.specs.Prelude.{◌≡◌, ◌≤◌, length, IfOk, IfErr};
ghost use Rattle.cs_sign.specs.Early.{most};
ghost use Rattle.cs_sign.specs.Fails.{Refuses};
ghost use Rattle.cs_sign.specs.Rules.{IsSized, broken};
ghost use Rattle.cs_sign.specs.Requests.{asked, IsModest};
ghost use Rattle.cs_sign.specs.Signed.{beside, signature, IsSigned};
ghost use Rattle.cs_sign.specs.Verified.{IsVerified};

use crate::blobs::{Part, superblob};
use crate::body::body;
use crate::code_directory::directory;
use crate::plan::Plan;
use crate::refusal::SignFail;
use crate::request::{HashPage, Request};
use crate::rules::planned;
use macho_cmds::image;
use pg_bytes::{Range, le32_at};
use pg_digest::Digester;
use std::alloc::{AllocError, Global};

/// The blobs beside the code directory: requirements, of which there are none, the entitlements, and an empty CMS
/// signature.
fn beside(alloc: Global, request: &Request) -> Result<Vec<Part>, AllocError>
    requires { IsModest request.now }
    ensures { IfOk result (λ parts. parts.items ≡ beside request.now.entitlements) }
{
    let mut parts = Vec::with_capacity(alloc, 4)?;
    parts.push(Part::of(alloc, 2, 0xfade_0c01, &[0; 4])?)?;
    if let Some(entitlements) = request.entitlements() {
        parts.push(Part::of(alloc, 5, 0xfade_7171, entitlements)?)?;
    }
    parts.push(Part::of(alloc, 0x10000, 0xfade_0b01, &[])?)?;
    Ok(parts)
}

/// The signature of a body, without the zeros behind it.
fn signature<D: Digester>(
    alloc: Global,
    request: &Request,
    plan: &Plan,
    body: &[u8],
    d: &mut D,
) -> Result<Vec<u8>, AllocError>
    requires sized { IsSized request.now plan.now.limit }
    requires limit { length body.now ≡ plan.now.limit }
    ensures { IfOk result (λ made.
        made.items ≡ signature D.hash request.now plan.now body.now) }
{
    let mut parts = beside(alloc, request)?;
    let directory = directory(alloc, request, plan, &parts, body, d)?;
    parts.insert(0, Part::new(0, directory))?;
    superblob(alloc, &parts)
}

/// A file signed anew, ad hoc, in the place of its signature: the file is a thin Mach-O image that has one, and nothing
/// lies behind it. The new signature has a code directory of SHA-256 digests with this identifier and hash pages of this
/// size, empty requirements, the entitlements where some are given, and an empty CMS signature. The refusal is that of
/// the first rule that is broken; `SignRefusal` has them in their order. The other error is want of memory.
pub fn sign<D: Digester>(
    alloc: Global,
    bytes: &[u8],
    ident: &[u8],
    entitlements: Option<&[u8]>,
    page: HashPage,
    d: &mut D,
) -> Result<Vec<u8>, SignFail>
    ensures signed { IfOk result (λ made. IsSigned D.hash bytes.now
        (asked ident.now entitlements.entry page) made.items) }
    ensures refused { IfErr result (Refuses
        (broken bytes.now (asked ident.now entitlements.entry page))) }
    ensures verified { IfOk result (λ made. IsVerified D.hash bytes.now
        (asked ident.now entitlements.entry page) made.items) }
    ensures within { IfOk result (λ made. length made.items ≤ most) }
{
    let request = Request::new(ident, entitlements, page);
    let length = bytes.len() as u64;
    let whole = Range { at: 0, len: length };
    let image = image(alloc, bytes, &whole)?;
    let commands_end = 32 + u64::from(le32_at(bytes, 20));
    let plan = planned(&image, length, commands_end, &request)?;
    let size = request.data_size(plan.limit);
    let mut made = body(alloc, bytes, &plan, size)?;
    let signature = signature(alloc, &request, &plan, &made, d)?;
    made.extend_from_slice(&signature)?;
    made.resize((plan.limit + size) as usize, 0)?;
    Ok(made)
}
