//! Bytes as hex digits, two digits a byte.

ghost use Rattle.std.specs.Prelude.{◌≡◌, ◌<◌, IsTrue, IfOk, IfSome, length, option_map};
ghost use Rattle.std.specs.String.{string_bytes};
ghost use Rattle.hex.specs.Hex.{encode_lower};
ghost use Rattle.pg_words.specs.Words.{digits_bytes};
ghost use Rattle.pg_words.specs.Digits.{is_hex, hex_word, bytes_word, byte_word, flags_word};

use crate::numbers::all_lower_hex;
use hex::FromHex;
use std::alloc::{AllocError, Global};

/// Whether a word is one byte or more, two lower-case hex digits each.
pub fn is_hex(word: &[u8]) -> bool
    ensures { result ≡ is_hex word.now }
{
    !word.is_empty() && word.len() % 2 == 0 && all_lower_hex(word)
}

/// The hex digits of a word of one byte or more.
#[tactic(auto, using(crate::proofs::PieceFacts::digits_some, crate::proofs::PieceFacts::hex_none))]
pub fn hex_word(word: &[u8]) -> Option<&[u8]>
    ensures value { option_map (λ digits. digits_bytes digits.now) result ≡ hex_word word.now }
    ensures form { IfSome result (λ digits. IsTrue (is_hex digits.now)) }
{
    if is_hex(word) { Some(word) } else { None }
}

/// How many bytes hex digits say.
#[tactic(auto, using(crate::proofs::PieceFacts::digits_count, crate::proofs::PieceFacts::digits_more))]
pub fn count_of(digits: &[u8]) -> usize
    requires { IsTrue (is_hex digits.now) }
    ensures value { result ≡ length (digits_bytes digits.now) }
    ensures some { 0 < result }
{
    digits.len() / 2
}

/// The bytes that hex digits say. The error comes where there is no memory for them.
#[tactic(auto, using(crate::proofs::PieceFacts::digits_are))]
pub fn bytes_of(alloc: Global, digits: &[u8]) -> Result<Vec<u8>, AllocError>
    requires { IsTrue (is_hex digits.now) }
    ensures { IfOk result (λ bytes. bytes.items ≡ digits_bytes digits.now) }
{
    hex::decode(alloc, digits).map_err(|_| AllocError)
}

/// The cdhash that a word of 40 lower-case hex digits says.
#[tactic(auto, unfolding(crate::specs::Digits::bytes_word))]
pub fn cdhash(word: &[u8]) -> Option<[u8; 20]>
    ensures { result ≡ bytes_word 20 word.now }
{
    if all_lower_hex(word) {
        <[u8; 20] as FromHex>::from_hex(word).ok()
    } else {
        None
    }
}

/// The byte that a word of two lower-case hex digits says.
#[tactic(auto, unfolding(crate::specs::Digits::byte_word, crate::specs::Digits::bytes_word))]
pub fn byte(word: &[u8]) -> Option<u8>
    ensures { result ≡ byte_word word.now }
{
    if all_lower_hex(word) {
        let bytes = <[u8; 1] as FromHex>::from_hex(word).ok()?;
        Some(bytes[0])
    } else {
        None
    }
}

/// The 32 bits that a word of eight lower-case hex digits says.
#[tactic(auto, unfolding(crate::specs::Digits::flags_word, crate::specs::Digits::bytes_word))]
pub fn flags_bits(word: &[u8]) -> Option<u32>
    ensures { result ≡ flags_word word.now }
{
    if all_lower_hex(word) {
        let bytes = <[u8; 4] as FromHex>::from_hex(word).ok()?;
        Some(u32::from_be_bytes(bytes))
    } else {
        None
    }
}

/// The bytes in hex, two digits a byte. The error comes where there is no memory for them.
pub fn hex_digits(alloc: Global, bytes: &[u8]) -> Result<String, AllocError>
    ensures { IfOk result (λ digits. string_bytes digits ≡ encode_lower bytes.now) }
{
    hex::encode(alloc, bytes)
}
