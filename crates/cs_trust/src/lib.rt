//! Trust caches: lists of cdhashes that are trusted without a certificate.
//!
//! `module` reads a trust cache of version 1 or 2 and refuses it with the first rule that the bytes break. A
//! `Module` is the list of its entries, sorted by their cdhashes, in which it searches by halves; `StaticTrust` is a
//! row of modules that never changes. Version 1 is that of the trust caches that XNU loads (`trustcache.h`); the
//! layout of version 2 is this repository's own.
#![tactic(auto)]

mod entries;
mod grammar;
mod refusal;
mod search;
mod sought;
mod static_trust;
mod trust_module;

pub use entries::{Entry, More};
pub use grammar::module;
pub use refusal::{NoMemory, TrustFail, TrustRefusal};
pub use static_trust::StaticTrust;
pub use trust_module::{MAX_ENTRIES, Module};

#[cfg(test)]
mod tests;
