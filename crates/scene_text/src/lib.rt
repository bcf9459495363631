//! The scene language: what a scene's text says, and how a scene is printed.
//!
//! A scene is lines, and a line is words with one space between two of them. `scene` reads a text, or tells of its
//! first bad line; `print` writes a scene in the one form that each of its lines has.
#![tactic(auto)]

mod call_lines;
mod checks;
mod declared_flags;
mod draft;
mod head;
mod header_lines;
mod keywords;
mod known;
mod line;
mod printer;
mod reader;
mod scenes;
mod scripts;
mod whole;

pub use head::{Head, Heads};
pub use line::{Known, Line};
pub use printer::print;
pub use scenes::scene;
pub use scripts::{Calls, Scripts};
pub use whole::{Scene, SceneFail};

#[cfg(test)]
mod tests;
