//! Names of files, processes and trust caches, of protections and of accesses.

ghost use Rattle.std.specs.Prelude.{◌≡◌, ◌^◌, Bool, Some, None};
ghost use Rattle.pg_words.specs.Names.{name_word, prot_word, share_word, access_word};

use crate::lines::is_text;
use crate::numbers::{narrow, number};
use cs_policy::{Access, Prot};

/// The number below 2^64 in a name: the letter `f`, `p` or `c` that is asked for, and a decimal number without
/// leading zeros.
#[tactic(auto, unfolding(crate::specs::Names::name_word))]
pub fn name(letter: u8, word: &[u8]) -> Option<u64>
    ensures { result ≡ name_word (2 ^ 64) letter word.now }
{
    match word {
        [first, digits @ ..] if *first == letter => number(digits),
        _ => None,
    }
}

/// What a region permits: `r--`, `rw-`, `r-x` or `rwx`.
#[tactic(auto, unfolding(crate::specs::Names::prot_word))]
pub fn prot(word: &[u8]) -> Option<Prot>
    ensures { result ≡ prot_word word.now }
{
    if is_text(word, b"r--") {
        Some(Prot::R)
    } else if is_text(word, b"rw-") {
        Some(Prot::RW)
    } else if is_text(word, b"r-x") {
        Some(Prot::RX)
    } else if is_text(word, b"rwx") {
        Some(Prot::RWX)
    } else {
        None
    }
}

/// Whether writes change the file, `shared`, or a private copy, `private`.
#[tactic(auto, unfolding(crate::specs::Names::share_word))]
pub fn share(word: &[u8]) -> Option<bool>
    ensures { result ≡ share_word word.now }
{
    if is_text(word, b"shared") {
        Some(true)
    } else if is_text(word, b"private") {
        Some(false)
    } else {
        None
    }
}

/// What is asked of a page: `r`, `w` or `x`.
#[tactic(auto, unfolding(crate::specs::Names::access_word))]
pub fn access(word: &[u8]) -> Option<Access>
    ensures { result ≡ access_word word.now }
{
    if is_text(word, b"r") {
        Some(Access::Read)
    } else if is_text(word, b"w") {
        Some(Access::Write)
    } else if is_text(word, b"x") {
        Some(Access::Execute)
    } else {
        None
    }
}

/// The number below 2^32 in a name.
#[tactic(auto, using(crate::proofs::LimitFacts::name32_some, crate::proofs::LimitFacts::name32_none))]
pub fn short_name(letter: u8, word: &[u8]) -> Option<u32>
    ensures { result ≡ name_word (2 ^ 32) letter word.now }
{
    narrow(name(letter, word)?)
}
