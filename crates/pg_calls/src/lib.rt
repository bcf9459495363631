//! The calls of scripts, over any parts.
//!
//! A call asks the parts of a machine for one event after another, each of which goes by the replies before it. `Parts` is
//! what a call needs of files, processes and the trust list, whether they stand behind locks or not.
#![tactic(auto)]

mod ask;
mod attaching;
mod ending;
mod faulting;
mod file_call;
mod files;
mod memory;
mod parts;
mod playing;
mod processes;
mod replies;

pub use attaching::attach;
pub use ending::exit;
pub use faulting::fault;
pub use file_call::FileCall;
pub use files::{evict, load_trust, write};
pub use memory::{fetch, load, store};
pub use parts::Parts;
pub use playing::play;
pub use processes::{debug, map, spawn, unmap};
pub use std::alloc::AllocError as NoMemory;
