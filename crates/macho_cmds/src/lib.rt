//! The load commands of a Mach-O image of 64 bits: its segments, and where its code signature lies.
//!
//! `image` reads the header and the load commands of one slice of a file, and refuses the slice with the first rule
//! that it breaks. The signature itself is not looked into. The format is that of Apple's `mach-o/loader.h`.
#![tactic(auto)]

mod commands;
mod grammar;
mod mach_image;
mod names;
mod refusal;
mod segment;

pub use grammar::image;
pub use mach_image::Image;
pub use refusal::{MachFail, MachRefusal};
pub use segment::{Segment, Segments};

#[cfg(test)]
mod tests;
