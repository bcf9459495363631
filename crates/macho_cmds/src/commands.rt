//! The rules on one load command, tried in their order.

ghost use Rattle.std.specs.Prelude.{◌≡◌, ◌+◌, ◌^◌, ◌<◌, ◌≤◌, IfOk, MatchOption, IsTrue, IsFalse, length, is_some, nat_lt};
ghost use Rattle.macho_cmds.specs.Layout.{kind, size, place_of, fileoff, filesize};
ghost use Rattle.macho_cmds.specs.Layout as layout;
ghost use Rattle.pg_bytes.specs.Rules.{Tries};
ghost use Rattle.macho_cmds.specs.Rules.{HasCommands, rules_of, is_bad, maps_wrongly, signature_among};
ghost use Rattle.macho_cmds.specs.Commands.{IsCommand};

use crate::names::name;
use crate::refusal::MachRefusal;
use crate::segment::Segment;
use pg_bytes::{Range, le32_at, le64_at};

/// The kind of a load command that maps a segment, LC_SEGMENT_64.
pub const SEGMENT: u32 = 0x19;

/// The kind of the load command of a code signature, LC_CODE_SIGNATURE.
pub const SIGNATURE: u32 = 0x1d;

/// The head of a load command.
#[derive(Clone, Copy)]
pub struct Command {
    /// What the command is.
    pub kind: u32,
    /// How many bytes it has, with its head.
    pub size: u64,
}

/// Where the load commands end.
pub fn commands_end(bytes: &[u8]) -> u64
    requires { 32 ≤ length bytes.now }
    ensures { result ≡ layout.commands_end bytes.now }
{
    32 + u64::from(le32_at(bytes, 20))
}

/// Load command `index`, which begins at `at`, or the refusal where it breaks a rule. `signed` says whether one before
/// it is that of a signature.
pub fn checked(bytes: &[u8], at: u64, index: u64, signed: bool) -> Result<Command, MachRefusal>
    requires commands { HasCommands bytes.now }
    requires place { at ≡ place_of bytes.now index }
    requires within { at ≤ layout.commands_end bytes.now }
    requires signed { signed ≡ is_some (signature_among bytes.now index) }
    ensures tries { Tries (rules_of bytes.now index) result }
    ensures command { IfOk result (IsCommand bytes.now at) }
{
    let Some(command) = whole_command(bytes, at) else {
        return Err(MachRefusal::CommandBad { index });
    };
    if command.kind == SEGMENT && bad_segment(bytes, at, command.size) {
        return Err(MachRefusal::SegmentBad { index });
    }
    if command.kind == SIGNATURE && signed {
        return Err(MachRefusal::TwoSignatures);
    }
    Ok(command)
}

/// The head of the load command at `at`, if it is whole and its size is right.
fn whole_command(bytes: &[u8], at: u64) -> Option<Command>
    requires commands { HasCommands bytes.now }
    requires within { at ≤ layout.commands_end bytes.now }
    ensures { MatchOption result
        (IsTrue (is_bad bytes.now at))
        (λ command. IsFalse (is_bad bytes.now at)
        × (command.kind ≡ kind bytes.now at) × (command.size ≡ size bytes.now at)) }
{
    let end = commands_end(bytes);
    if at + 8 > end {
        return None;
    }
    let kind = le32_at(bytes, at);
    let size = u64::from(le32_at(bytes, at + 4));
    if size < 8 || size % 8 != 0 || at + size > end {
        return None;
    }
    if kind == SIGNATURE && size != 16 {
        return None;
    }
    Some(Command { kind, size })
}

/// Whether the sections of the segment command at `at` pass its end, or its bytes pass the slice's end.
fn bad_segment(bytes: &[u8], at: u64, size: u64) -> bool
    requires within { at + size ≤ length bytes.now }
    requires size { size ≡ layout.size bytes.now at }
    ensures { result ≡ maps_wrongly bytes.now at }
{
    size < 72 || size < 72 + 80 * u64::from(le32_at(bytes, at + 64)) || passes_end(bytes, at)
}

/// Whether the bytes of the segment command at `at` pass the slice's end.
fn passes_end(bytes: &[u8], at: u64) -> bool
    requires { at + 72 ≤ length bytes.now }
    ensures { result ≡ nat_lt (length bytes.now) (fileoff bytes.now at + filesize bytes.now at) }
{
    match le64_at(bytes, at + 40).checked_add(le64_at(bytes, at + 48)) {
        Some(end) => end > bytes.len() as u64,
        None => true,
    }
}

/// The segment of the command at `at`.
pub fn segment_at(bytes: &[u8], at: u64) -> Segment
    requires { at + 72 ≤ length bytes.now }
    ensures { result ≡ layout.segment_at bytes.now at }
{
    Segment {
        at,
        name: name(bytes, at + 8),
        fileoff: le64_at(bytes, at + 40),
        filesize: le64_at(bytes, at + 48),
        initprot: le32_at(bytes, at + 60),
    }
}

/// Where the signature lies, by its command at `at`.
pub fn signature_range(bytes: &[u8], at: u64) -> Range
    requires { at + 16 ≤ length bytes.now }
    ensures range { result ≡ layout.signature_range bytes.now at }
    ensures fits { result.at + result.len < 2 ^ 33 }
{
    Range {
        at: u64::from(le32_at(bytes, at + 8)),
        len: u64::from(le32_at(bytes, at + 12)),
    }
}
