//! The rules of an image, tried in their order.

ghost use Rattle.std.specs.Prelude.{◌≡◌, ◌+◌, ◌≤◌, ◌++◌, ◌∷◌, [], All, IfOk, IfErr, IfSome, OnOk, None, Some, length, true, if◌then◌else◌};
ghost use Rattle.std.specs.Option.{ForSome};
ghost use Rattle.macho_cmds.specs.Layout.{command_count, is_segment, is_signature};
ghost use Rattle.macho_cmds.specs.Layout as layout;
ghost use Rattle.pg_bytes.specs.Rules.{Tries, first};
ghost use Rattle.macho_cmds.specs.Rules.{Refuses, HasCommands, header_rules, command_rules, signature_rules, signature_place, broken};
ghost use Rattle.macho_cmds.specs.Commands.{IsSegmentWithin, segments_among};
ghost use Rattle.macho_cmds.specs.Images.{IsImage, IsInside};

use crate::commands::{SEGMENT, SIGNATURE, checked, commands_end, segment_at, signature_range};
use crate::mach_image::Image;
use crate::refusal::{MachFail, MachRefusal};
use crate::segment::{Segment, Segments};
use pg_bytes::{Range, bytes_in, le32_at};
use std::alloc::Global;

/// The magic of an image of 64 bits.
const MAGIC: u32 = 0xfeed_facf;

/// The image in a slice of a file. The refusal is that of the first rule that is broken; `MachRefusal` has them in
/// their order. The condition is that the slice lies within the bytes. The other error is want of memory.
pub fn image(alloc: Global, bytes: &[u8], slice: &Range) -> Result<Image, MachFail>
    requires { slice.now.at + slice.now.len ≤ length bytes.now }
    ensures accepted { IfOk result (IsImage bytes.now slice.now) }
    ensures inside { IfOk result (IsInside slice.now) }
    ensures refused { IfErr result (Refuses (broken bytes.now slice.now)) }
{
    let bytes = bytes_in(bytes, slice);
    headed(bytes, slice.at)?;
    let commands = walked(alloc, bytes)?;
    let (sig_at, sig) = signed(bytes, commands.signature)?;
    Ok(Image {
        cputype: le32_at(bytes, 4),
        cpusubtype: le32_at(bytes, 8),
        filetype: le32_at(bytes, 12),
        segments: Segments::new(commands.segments),
        sig,
        sig_at,
    })
}

/// What the load commands say.
#[derive(Drop)]
struct Commands {
    /// The segments of those read so far.
    segments: Vec<Segment>,
    /// Where the one of a signature begins, if it was read.
    signature: Option<u64>,
}

impl Commands {
    /// Takes note of the load command at `at`.
    fn add(&mut self, bytes: &[u8], at: u64, kind: u32) -> Result<(), MachFail>
        requires kind { kind ≡ layout.kind bytes.now at }
        requires segment { is_segment bytes.now at ≡ true → at + 72 ≤ length bytes.now }
        ensures segments { OnOk result (self.new.segments.items ≡
            self.old.segments.items ++
            (if is_segment bytes.now at then layout.segment_at bytes.now at ∷ [] else [])) }
        ensures signature { OnOk result (self.new.signature ≡
            (if is_signature bytes.now at then Some at else self.old.signature)) }
        ensures refused { IfErr result (Refuses None) }
    {
        match kind {
            SEGMENT => self.segments.push(segment_at(bytes, at))?,
            SIGNATURE => self.signature = Some(at),
            _ => {}
        }
        Ok(())
    }
}

/// The rules on the header of a slice that begins at `start` in its file.
fn headed(bytes: &[u8], start: u64) -> Result<(), MachRefusal>
    ensures tries { Tries (header_rules start bytes.now) result }
    ensures commands { OnOk result (HasCommands bytes.now) }
{
    if bytes.len() < 32 {
        return Err(MachRefusal::Short);
    }
    if le32_at(bytes, 0) != MAGIC {
        return Err(MachRefusal::BadMagic);
    }
    if start % 4096 != 0 {
        return Err(MachRefusal::SliceMisaligned);
    }
    if commands_end(bytes) > bytes.len() as u64 {
        return Err(MachRefusal::Short);
    }
    Ok(())
}

/// What all load commands say, where the rules on them are kept.
fn walked(alloc: Global, bytes: &[u8]) -> Result<Commands, MachFail>
    requires { HasCommands bytes.now }
    ensures segments { IfOk result (λ found.
        found.segments.items ≡ segments_among bytes.now (command_count bytes.now)) }
    ensures signature { IfOk result (λ found. found.signature ≡ signature_place bytes.now) }
    ensures inside { IfOk result (λ found.
        All (IsSegmentWithin (length bytes.now)) found.segments.items) }
    ensures command { IfOk result (λ found.
        IfSome found.signature (λ at. at + 16 ≤ length bytes.now)) }
    ensures kept { OnOk result (first (command_rules bytes.now) ≡ None) }
    ensures refused { IfErr result (Refuses (first (command_rules bytes.now))) }
{
    let mut found = Commands {
        segments: Vec::new(alloc),
        signature: None,
    };
    let mut at = 32;
    for index in 0..u64::from(le32_at(bytes, 16)) {
        let command = checked(bytes, at, index, found.signature.is_some())?;
        found.add(bytes, at, command.kind)?;
        at += command.size;
    }
    Ok(found)
}

/// Where the load command of the signature begins, and where the signature lies, where the rules on it are kept.
fn signed(bytes: &[u8], signature: Option<u64>) -> Result<(u64, Range), MachRefusal>
    requires place { signature ≡ signature_place bytes.now }
    requires within { ForSome signature (λ at. at + 16 ≤ length bytes.now) }
    ensures tries { Tries (signature_rules bytes.now) result }
    ensures place { IfOk result (λ found. signature_place bytes.now ≡ Some found.0) }
    ensures range { IfOk result (λ found. found.1 ≡ layout.signature_range bytes.now found.0) }
{
    let Some(at) = signature else {
        return Err(MachRefusal::NoSignature);
    };
    let range = signature_range(bytes, at);
    if range.at + range.len > bytes.len() as u64 {
        return Err(MachRefusal::SignatureOutOfSlice);
    }
    Ok((at, range))
}
