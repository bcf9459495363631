//! Numbers and addresses.

ghost use Rattle.std.specs.Prelude.{◌≡◌, ◌<◌, ◌≤◌, ◌^◌, IsAscii, IfSome};
ghost use Rattle.std.specs.List.{list_all};
ghost use Rattle.std.specs.Char.{is_ascii_digit};
ghost use Rattle.std.specs.Str.Parse.{IsNumeral, digits_value};
ghost use Rattle.pg_words.specs.Numbers.{is_lower_hex, has_lead, below, number_word, hex_number, address_word};

use std::str;

/// Whether each byte is a decimal digit.
fn all_digits(word: &[u8]) -> bool
    ensures { result ≡ list_all is_ascii_digit word.now }
{
    word.iter().all(u8::is_ascii_digit)
}

/// Whether each byte is a hex digit, whose letters are lower case.
pub fn all_lower_hex(word: &[u8]) -> bool
    ensures { result ≡ list_all is_lower_hex word.now }
{
    word.iter().all(|b| matches!(*b, b'0'..=b'9' | b'a'..=b'f'))
}

/// Whether a first digit stands, which is a zero only where it stands alone.
fn has_lead(word: &[u8]) -> bool
    ensures { result ≡ has_lead word.now }
{
    match word {
        [] => false,
        [_] => true,
        [first, ..] => *first != b'0',
    }
}

/// A word as text.
fn text_of(word: &[u8]) -> &str
    requires { IsAscii word.now }
    ensures { result.now ≡ word.now }
{
    str::from_utf8(word).unwrap()
}

/// The number that a numeral in a base says; `None` where it is not below 2^64.
fn value(numeral: &[u8], radix: u32) -> Option<u64>
    requires low { 2 ≤ radix }
    requires high { radix ≤ 16 }
    requires digits { IsNumeral radix numeral.now }
    ensures { result ≡ below (2 ^ 64) (digits_value radix numeral.now) }
{
    u64::from_str_radix(text_of(numeral), radix).ok()
}

/// The number below 2^64 that a decimal word without leading zeros says.
#[tactic(auto, using(crate::proofs::WordFacts::numeral_from_decimal), unfolding(crate::specs::Numbers::number_word))]
pub fn number(word: &[u8]) -> Option<u64>
    ensures { result ≡ number_word (2 ^ 64) word.now }
{
    if has_lead(word) && all_digits(word) {
        value(word, 10)
    } else {
        None
    }
}

/// The number that lower-case hex digits without leading zeros say, below 2^64.
#[tactic(auto, using(crate::proofs::WordFacts::numeral_from_hex), unfolding(crate::specs::Numbers::hex_number))]
fn hex_number(digits: &[u8]) -> Option<u64>
    ensures { result ≡ hex_number (2 ^ 64) digits.now }
{
    if has_lead(digits) && all_lower_hex(digits) {
        value(digits, 16)
    } else {
        None
    }
}

/// The address below 2^64 that a word says: `0x` and lower-case hex digits without leading zeros.
#[tactic(auto, unfolding(crate::specs::Numbers::address_word))]
pub fn address(word: &[u8]) -> Option<u64>
    ensures { result ≡ address_word (2 ^ 64) word.now }
{
    match word {
        [b'0', b'x', digits @ ..] => hex_number(digits),
        _ => None,
    }
}

/// The least number that is no address of a process.
const ADDRESSES: u64 = 1 << 47;

/// The number below 2^32 that a decimal word without leading zeros says.
#[tactic(auto, using(crate::proofs::LimitFacts::number32_some, crate::proofs::LimitFacts::number32_none))]
pub fn short_number(word: &[u8]) -> Option<u32>
    ensures { result ≡ number_word (2 ^ 32) word.now }
{
    narrow(number(word)?)
}

/// A number of 32 bits.
pub fn narrow(number: u64) -> Option<u32>
    ensures { result ≡ below (2 ^ 32) number }
{
    if number <= u64::from(u32::MAX) {
        Some(number as u32)
    } else {
        None
    }
}

/// The number below 2^8 that a decimal word without leading zeros says.
#[tactic(auto, using(crate::proofs::LimitFacts::number8_some, crate::proofs::LimitFacts::number8_none))]
pub fn tiny_number(word: &[u8]) -> Option<u8>
    ensures { result ≡ number_word (2 ^ 8) word.now }
{
    tiny(number(word)?)
}

/// A number of 8 bits.
fn tiny(number: u64) -> Option<u8>
    ensures { result ≡ below (2 ^ 8) number }
{
    if number <= u64::from(u8::MAX) {
        Some(number as u8)
    } else {
        None
    }
}

/// The address below 2^47 that a word says.
#[tactic(auto, using(crate::proofs::LimitFacts::address47_some, crate::proofs::LimitFacts::address47_none))]
pub fn low_address(word: &[u8]) -> Option<u64>
    ensures value { result ≡ address_word (2 ^ 47) word.now }
    ensures low { IfSome result (λ addr. addr < 2 ^ 47) }
{
    low(address(word)?)
}

/// An address of a process.
fn low(addr: u64) -> Option<u64>
    ensures value { result ≡ below (2 ^ 47) addr }
    ensures low { IfSome result (λ low. low < 2 ^ 47) }
{
    if addr < ADDRESSES { Some(addr) } else { None }
}
