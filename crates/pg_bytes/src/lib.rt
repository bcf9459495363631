//! Numbers in bytes, ranges, and the words that the programs end with.
//!
//! The readers give a number that stands at a place of a text, in either byte order: `be32` and its like `None`
//! where it passes the end, `be32_at` and its like where it is known not to. `Status` is how a program ends, `Which`
//! the quantity that a limit bounds, and `arguments` the words that a program was given. The crate also has the
//! definition of a count that rises (`specs/Counts.antt`), which every crate above shares.
#![tactic(auto)]

mod command_line;
mod fields;
mod octets;
mod status;
mod steps;

pub use command_line::arguments;
pub use fields::{Range, be32, be32_at, be64, be64_at, bytes_in, le32, le32_at, le64, le64_at};
pub use octets::Octets;
pub use status::{Status, Which, code};
pub use steps::Steps;

#[cfg(test)]
mod tests;
