//! Whatever workers do, and in whatever order, the sealing stands.
//!
//! The law of every interleaving: a history of any workers and calls, whose replies are the machine's and whose entries
//! rest on earlier ones, keeps the sealing after each of its entries. The definitions stand in `pg_history`.
#![tactic(auto)]

mod laws;

pub use laws::{interleavings_are_sealed, interleavings_keep};
