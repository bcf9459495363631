//! Words of scenes and journals: numbers, addresses, hex digits and names, as they are printed and read.
//!
//! A text is lines, and a line is words with one space between two of them. Each kind of word has one form, and each
//! function here tells what a word says, or `None` where it is not of the form.
#![tactic(auto)]

mod breaks;
mod columns;
mod digits;
mod lines;
mod names;
mod numbers;
mod piece;

pub use breaks::cut;
pub use columns::{
    add_access, add_address, add_data, add_flags, add_hex, add_name, add_number, add_prot,
    add_share, add_word, put, put_hex, put_number,
};
pub use digits::{byte, bytes_of, cdhash, count_of, flags_bits, hex_digits, hex_word};
pub use lines::{WordParts, Words, is_graphic, is_plain, is_text, parts_of, words_of};
pub use names::{access, name, prot, share, short_name};
pub use numbers::{address, low_address, number, short_number, tiny_number};
pub use piece::{DataWord, data, short_data};
