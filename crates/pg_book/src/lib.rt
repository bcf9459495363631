//! The call book: one order of all events of a run.
//!
//! A book has a spine for each part and a pass for each caller. `Spine::draw` enters an event with a stamp above all
//! that its part and its caller have, and `Book::close` gives all entries in the order of their stamps.
#![tactic(auto)]

mod book;
mod close;
mod meeting;
mod merge;
mod needs;
mod open;
mod pass;
mod receipt;
mod rule;
mod spine;
mod steps;
mod view;

pub use book::{Book, OpenFail};
pub use close::CloseRefused;
pub use needs::{AllNeeds, Needs};
pub use pass::Pass;
pub use receipt::{Receipt, Stamped};
pub use spine::Spine;

#[cfg(test)]
mod tests;
