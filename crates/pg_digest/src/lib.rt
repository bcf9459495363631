//! Digests by the hash types of code signing.
//!
//! A code directory names its hash type by a number, and its slots hold digests of that type. This
//! crate has the four types with their sizes and ranks, a `Digest` of at most 48 bytes that needs
//! no allocation, the trait of what computes digests, and the digester of the SHA functions of
//! FIPS 180-4. Code that is generic over a `Digester` can learn a digest only by calling it.
#![tactic(auto)]

mod digesters;
mod digests;
mod kinds;
mod sha;
#[cfg(test)]
mod tests;

pub use digesters::Digester;
pub use digests::{Digest, digest_bytes, digest_of};
pub use kinds::{HashKind, kind_of, number, rank, size};
pub use sha::ShaDigester;
