//! The data of a write.

ghost use Rattle.std.specs.Prelude.{◌≡◌, ◌^◌, option_map, IfSome, IfOk};
ghost use Rattle.cs_policy.specs.declared.data.Data.TheVariants.{Hex};
ghost use Rattle.pg_words.specs.Digits.{hex_word};
ghost use Rattle.pg_words.specs.Data.{fill_word, data_word, data_count};
ghost use Rattle.pg_words.specs.Parts.{data_of, IsOfForm, IsShort};

use crate::digits::{byte, bytes_of, count_of, is_hex};
use crate::numbers::number;
use cs_policy::Data;
use pg_bytes::Octets;
use std::alloc::{AllocError, Global};

/// The most that a count of 32 bits is.
const MOST_SHORT: u64 = 0xffff_ffff;

/// What a word for the data of a write says, before the bytes are kept.
#[derive(Clone, Copy)]
pub enum DataWord<'a> {
    /// These hex digits, two for a byte.
    Digits(&'a [u8]),
    /// So many times this byte.
    Fill { byte: u8, count: u64 },
}

/// What `BB:COUNT` says.
#[tactic(auto, unfolding(crate::specs::Data::fill_word))]
fn fill(word: &[u8]) -> Option<DataWord<'_>>
    ensures value { option_map data_of result ≡ fill_word (2 ^ 64) word.now }
    ensures form { IfSome result IsOfForm }
{
    match word {
        [high, low, b':', count @ ..] => {
            let byte = byte(&[*high, *low])?;
            let count = number(count)?;
            Some(DataWord::Fill { byte, count })
        }
        _ => None,
    }
}

/// What a word of hex digits says.
#[tactic(auto, using(crate::proofs::PieceFacts::hex_some, crate::proofs::PieceFacts::hex_none))]
fn digits(word: &[u8]) -> Option<DataWord<'_>>
    ensures value { option_map data_of result ≡ option_map (λ bytes. Hex bytes) (hex_word word.now) }
    ensures form { IfSome result IsOfForm }
{
    if is_hex(word) {
        Some(DataWord::Digits(word))
    } else {
        None
    }
}

/// What a word for the data of a write says: one byte or more in lower-case hex digits, or `fill:BB:COUNT` with a
/// count below 2^64.
#[tactic(auto, unfolding(crate::specs::Data::data_word))]
pub fn data(word: &[u8]) -> Option<DataWord<'_>>
    ensures value { option_map data_of result ≡ data_word (2 ^ 64) word.now }
    ensures form { IfSome result IsOfForm }
{
    match word {
        [b'f', b'i', b'l', b'l', b':', rest @ ..] => fill(rest),
        _ => digits(word),
    }
}

/// The same with a count below 2^32.
#[tactic(auto, using(crate::proofs::ShortFacts::short_some, crate::proofs::ShortFacts::short_fill, crate::proofs::ShortFacts::short_none, crate::proofs::ShortFacts::short_out))]
pub fn short_data(word: &[u8]) -> Option<DataWord<'_>>
    ensures value { option_map data_of result ≡ data_word (2 ^ 32) word.now }
    ensures form { IfSome result IsOfForm }
    ensures short { IfSome result IsShort }
{
    match data(word)? {
        DataWord::Digits(digits) => Some(DataWord::Digits(digits)),
        DataWord::Fill { byte, count } if count <= MOST_SHORT => Some(DataWord::Fill {
            byte,
            count,
        }),
        DataWord::Fill { .. } => None,
    }
}

impl DataWord<'_> {
    /// How many bytes are written.
    pub fn count(&self) -> u64
        requires { IsOfForm self.now }
        ensures { result ≡ data_count (data_of self.now) }
    {
        match self {
            DataWord::Digits(digits) => count_of(digits) as u64,
            DataWord::Fill { count, .. } => *count,
        }
    }

    /// The data in memory of their own. The error comes where there is no memory for them.
    pub fn keep(&self, alloc: Global) -> Result<Data, AllocError>
        requires form { IsOfForm self.now }
        requires short { IsShort self.now }
        ensures { IfOk result (λ piece. piece ≡ data_of self.now) }
    {
        match self {
            DataWord::Digits(digits) => Ok(Data::Hex(Octets::new(bytes_of(alloc, digits)?))),
            DataWord::Fill { byte, count } => Ok(Data::Fill {
                byte: *byte,
                count: *count as u32,
            }),
        }
    }
}
