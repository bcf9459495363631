//! The flags with which a process starts, as a word.

ghost use Rattle.std.specs.Prelude.{◌≡◌, option_map};
ghost use Rattle.cs_policy.specs.ProcFlags.{flags_of};
ghost use Rattle.scene_text.specs.Headers.{flags_word};

use bitflags::Flags;
use cs_policy::ProcFlags;
use pg_words::is_text;

/// The bits of HARD, KILL and ENFORCEMENT that a word says.
#[tactic(auto, unfolding(crate::specs::Headers::flags_word))]
fn bits(word: &[u8]) -> Option<u32>
    ensures { option_map flags_of result ≡ flags_word word.now }
{
    if is_text(word, b"none") {
        Some(0x0000)
    } else if is_text(word, b"hard") {
        Some(0x0100)
    } else if is_text(word, b"kill") {
        Some(0x0200)
    } else if is_text(word, b"hard+kill") {
        Some(0x0300)
    } else if is_text(word, b"enforce") {
        Some(0x1000)
    } else if is_text(word, b"hard+enforce") {
        Some(0x1100)
    } else if is_text(word, b"kill+enforce") {
        Some(0x1200)
    } else if is_text(word, b"hard+kill+enforce") {
        Some(0x1300)
    } else {
        None
    }
}

/// The flags that a word says: `none`, or of `hard`, `kill` and `enforce` each at most once, in this order and with `+`
/// between them.
pub fn flags(word: &[u8]) -> Option<ProcFlags>
    ensures { result ≡ flags_word word.now }
{
    Some(ProcFlags::from_bits_retain(bits(word)?))
}
