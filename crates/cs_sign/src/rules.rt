//! The rules on a file that is to be signed and on what it is to be signed with, tried in their order.

ghost use Rattle.std.specs.Prelude.{◌≡◌, ◌+◌, ◌==◌, ◌<◌, ◌^◌, IfOk, OnOk, length};
ghost use Rattle.std.specs.List.{list_any};
ghost use Rattle.pg_bytes.specs.Rules.{Tries};
ghost use Rattle.cs_sign.specs.Plans.{linkedit_place, linkedit_of, plan_of};
ghost use Rattle.cs_sign.specs.Rules.{is_first, is_bad_ident, past_rule, past_rules, place_rules, request_rules, own_rules, IsSized};

use crate::plan::{Plan, ends_at, ends_behind, exec_of, linkedit_place};
use crate::refusal::SignRefusal;
use crate::request::Request;
use macho_cmds::{Image, Segment};

/// The most bytes that a signed file may have.
const MOST: u64 = 67_108_864;

/// The most bytes that entitlements may have.
const MOST_ENTITLEMENTS: u64 = 65_536;

/// The most bytes that an identifier may have.
const MOST_IDENT: usize = 255;

/// What an image gives to its signature, where the rules are kept: `length` is that of the file, and the load commands
/// end at `commands_end`.
pub(crate) fn planned(
    image: &Image,
    length: u64,
    commands_end: u64,
    request: &Request,
) -> Result<Plan, SignRefusal>
    requires { image.now.sig.at + image.now.sig.len < 2 ^ 63 }
    ensures tries { Tries (own_rules image.now length commands_end request.now) result }
    ensures plan { IfOk result (λ plan. plan ≡ plan_of image.now) }
    ensures sized { IfOk result (λ plan. IsSized request.now plan.limit) }
{
    let segments = image.segments.items();
    let place = linkedit_place(segments);
    none_past(segments, place, image.sig.at)?;
    let linkedit = placed(image, place, length, commands_end)?;
    asked(request, image.sig.at)?;
    Ok(Plan {
        limit: image.sig.at,
        signature: image.sig_at,
        linkedit,
        exec: exec_of(segments, image.filetype),
    })
}

/// Whether the segment `index` is the first one named `__LINKEDIT`, which stands at `place`.
fn is_first(place: Option<usize>, index: usize) -> bool
    ensures { result ≡ is_first place index }
{
    match place {
        Some(place) => place == index,
        None => false,
    }
}

/// Whether the segment `index` ends behind the bytes that are signed, and is not the first one named `__LINKEDIT`.
fn is_past(segments: &[Segment], place: Option<usize>, limit: u64, index: usize) -> bool
    requires { index < length segments.now }
    ensures { result ≡ (past_rule segments.now place limit index).0 }
{
    !is_first(place, index) && ends_behind(&segments[index], limit)
}

/// The rules on where the segments end, beside the one at `place`: none behind the bytes that are signed.
fn none_past(segments: &[Segment], place: Option<usize>, limit: u64) -> Result<(), SignRefusal>
    ensures { Tries (past_rules segments.now place limit) result }
{
    for index in 0..segments.len() {
        if is_past(segments, place, limit, index) {
            return Err(SignRefusal::SegmentPast {
                index: index as u64,
            });
        }
    }
    Ok(())
}

/// The rules on where `__LINKEDIT` and the signature lie. The first segment of this name stands at `place`, if there is
/// one.
fn placed(
    image: &Image,
    place: Option<usize>,
    length: u64,
    commands_end: u64,
) -> Result<Segment, SignRefusal>
    requires place { place ≡ linkedit_place image.now.segments }
    requires limit { image.now.sig.at + image.now.sig.len < 2 ^ 63 }
    ensures tries { Tries (place_rules image.now length commands_end) result }
    ensures linkedit { IfOk result (λ linkedit. linkedit ≡ linkedit_of image.now.segments) }
{
    let Some(place) = place else {
        return Err(SignRefusal::LinkeditBad);
    };
    let linkedit = image.segments.items()[place];
    if linkedit.fileoff > image.sig.at || !ends_at(&linkedit, length) {
        return Err(SignRefusal::LinkeditBad);
    }
    if image.sig.at + image.sig.len != length || image.sig.at < commands_end {
        return Err(SignRefusal::SignatureNotLast);
    }
    Ok(linkedit)
}

/// Whether an identifier is empty, too long, or has a zero byte.
fn is_bad_ident(ident: &[u8]) -> bool
    ensures { result ≡ is_bad_ident ident.now }
{
    ident.is_empty() || ident.len() > MOST_IDENT || has_zero(ident)
}

/// Whether a byte is zero.
fn has_zero(bytes: &[u8]) -> bool
    ensures { result ≡ list_any (λ b. b == 0) bytes.now }
{
    bytes.iter().any(|byte| *byte == 0)
}

/// The rules on what is asked, and on how large the signed file would be, where so many bytes are signed.
fn asked(request: &Request, limit: u64) -> Result<(), SignRefusal>
    requires { limit < 2 ^ 63 }
    ensures tries { Tries (request_rules request.now limit) result }
    ensures sized { OnOk result (IsSized request.now limit) }
{
    if is_bad_ident(request.ident()) {
        return Err(SignRefusal::IdentBad);
    }
    let len = request.entitlements_len();
    if len > MOST_ENTITLEMENTS {
        return Err(SignRefusal::EntitlementsLong { len });
    }
    if request.data_size(limit) > MOST - limit.min(MOST) {
        return Err(SignRefusal::TooLarge);
    }
    Ok(())
}
