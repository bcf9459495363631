//! The layout of a file.

ghost use Rattle.std.specs.Prelude.{◌≡◌, ◌+◌, ◌≤◌, ◌<◌, ◌^◌, ◌∷◌, [], All, IfOk, length, map, None};
ghost use Rattle.std.specs.List.{list_any};
ghost use Rattle.pg_bytes.specs.Rules.{Tries};
ghost use Rattle.pg_bytes.specs.declared.status.Status.TheVariants.{Limit};
ghost use Rattle.pg_bytes.specs.declared.status.Which.TheVariants as which;
ghost use Rattle.macho_slices.specs.Slices.{IsWithin};
ghost use Rattle.scene_open.specs.Layouts as layouts;
ghost use Rattle.scene_open.specs.Layouts.{seat_in, has_long};

use cs_policy::{Layout, Refusal, Seats, SliceSeat};
use macho_cmds::{MachFail, MachRefusal, image};
use macho_slices::{FatFail, slices};
use pg_bytes::{Range, Status, Which};
use std::alloc::{AllocError, Global};

/// The most bytes that the signature of a slice may have.
const SIGNATURE_BYTES: u64 = 1_048_576;

/// A slice of a file of Mach-O images.
#[tactic(auto, unfolding(crate::specs::Layouts::seat_in))]
fn seat(alloc: Global, bytes: &[u8], slice: &Range) -> Result<SliceSeat, AllocError>
    requires { slice.now.at + slice.now.len ≤ length bytes.now }
    ensures { IfOk result (λ seat. seat ≡ seat_in bytes.now slice.now) }
{
    match image(alloc, bytes, slice) {
        Ok(image) => Ok(SliceSeat::Signed {
            slice: *slice,
            sig: Range {
                at: slice.at + image.sig.at,
                len: image.sig.len,
            },
        }),
        Err(MachFail::Refused(refusal)) => Ok(SliceSeat::Refused(refusal.into())),
        Err(MachFail::NoMemory) => Err(AllocError),
    }
}

/// Slices of a file of Mach-O images, in their order.
fn seats(alloc: Global, bytes: &[u8], slices: &[Range]) -> Result<Seats, AllocError>
    requires { All (IsWithin bytes.now) slices.now }
    ensures { IfOk result (λ seats. seats ≡ map (seat_in bytes.now) slices.now) }
{
    let mut seats = Vec::with_capacity(alloc, slices.len())?;
    for slice in slices {
        seats.push(seat(alloc, bytes, slice)?)?;
    }
    Ok(Seats::new(seats))
}

/// The layout of a file that is read as Mach-O: thin, or fat with its slices.
#[tactic(auto, unfolding(crate::specs::Layouts::macho_layout))]
pub fn macho_layout(alloc: Global, bytes: &[u8]) -> Result<Layout, AllocError>
    ensures { IfOk result (λ layout. layout ≡ layouts.macho_layout bytes.now) }
{
    match slices(alloc, bytes) {
        Ok(found) => Ok(Layout::Slices(seats(alloc, bytes, &found)?)),
        Err(FatFail::Refused(refusal)) => Ok(Layout::Refused(refusal.into())),
        Err(FatFail::NoMemory) => Err(AllocError),
    }
}

/// The one slice of a file of so many bytes, with its signature at this range.
fn raw_seat(size: u64, sig: Range) -> SliceSeat
    requires at { sig.at < 2 ^ 32 }
    requires len { sig.len < 2 ^ 32 }
    ensures { result ≡ layouts.raw_seat size sig }
{
    if sig.at + sig.len > size {
        return SliceSeat::Refused(Refusal::from(MachRefusal::SignatureOutOfSlice));
    }
    SliceSeat::Signed {
        slice: Range { at: 0, len: size },
        sig,
    }
}

/// The layout of a file that is taken as one slice, with its signature at this range.
pub fn raw_layout(alloc: Global, bytes: &[u8], sig: Range) -> Result<Layout, AllocError>
    requires at { sig.at < 2 ^ 32 }
    requires len { sig.len < 2 ^ 32 }
    ensures { IfOk result (λ layout. layout ≡ layouts.raw_layout bytes.now sig) }
{
    let seats = vec![in alloc; raw_seat(bytes.len() as u64, sig)]?;
    Ok(Layout::Slices(Seats::new(seats)))
}

/// Whether the slice has a signature that is longer than it may be.
fn is_long(seat: &SliceSeat) -> bool
    ensures { result ≡ layouts.is_long seat.now }
{
    match seat {
        SliceSeat::Signed { sig, .. } => sig.len > SIGNATURE_BYTES,
        SliceSeat::Refused(_) => false,
    }
}

/// Whether one of the slices has.
fn any_long(seats: &[SliceSeat]) -> bool
    ensures { result ≡ list_any layouts.is_long seats.now }
{
    seats.iter().any(is_long)
}

/// Holds the signatures of a file's slices to their limit.
pub fn hold_signatures(layout: &Layout) -> Result<(), Status>
    ensures { Tries ((has_long layout.now, Limit which.SignatureBytes 1048576) ∷ []) result }
{
    match layout {
        Layout::Slices(seats) if any_long(seats.items()) => Err(Status::Limit {
            which: Which::SignatureBytes,
            number: SIGNATURE_BYTES,
        }),
        _ => Ok(()),
    }
}
