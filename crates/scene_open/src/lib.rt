//! Opening a scene: its text and the files that it names are read, and the parts of its machine are made of them.
//!
//! `read_scene` reads the scene's file, and `open_items` the files of its header lines in their order. Each gives what
//! it read, or the status of the first step that ends the run. What the machine is then, for any bytes of the files, is
//! defined in `specs/Opening.antt`.
#![tactic(auto)]

mod draft;
mod header;
mod items;
mod layouts;
mod limits;
mod open_scene;
mod reading;
mod scene_file;

pub use header::{is_adhoc, page_size, resident};
pub use items::open_items;
pub use open_scene::OpenScene;
pub use scene_file::read_scene;

#[cfg(test)]
mod tests;
