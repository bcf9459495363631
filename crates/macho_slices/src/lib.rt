//! The slices of a file of Mach-O images: where each image lies in the file.
//!
//! A fat file holds one image for each architecture, and begins with a table that places them; a thin file is one
//! image. `slices` reads the table and refuses the text with the first rule that it breaks. The images themselves are
//! not looked into. The formats are those of Apple's `mach-o/fat.h` and `mach-o/loader.h`.
#![tactic(auto)]

mod form;
mod grammar;
mod refusal;

pub use grammar::slices;
pub use refusal::{FatFail, FatRefusal};

#[cfg(test)]
mod tests;
