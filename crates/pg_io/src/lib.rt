//! The outside as traits: files that are read whole, a sink that takes bytes, a file's pages, and gates.
//!
//! What a program reads and writes goes through `Files`, `Sink` and `Pager`. Their contracts say what is
//! read and written where that is known, and that each failure has a cause outside. `MemFiles`, `MemSink`
//! and `MemPager` stand in memory and tell all, with a list of the calls that are to fail. `DiskFiles` and
//! `StdoutSink` are the system's files and standard output, which tell nothing. A worker passes a `Gate`.
#![tactic(auto)]

mod calls;
mod disk_files;
mod files;
mod gate;
mod log;
mod mem_files;
mod mem_pager;
mod mem_sink;
mod page_buffer;
mod pager;
mod pager_call;
mod sink;
mod stdout_sink;

pub use disk_files::DiskFiles;
pub use files::{Files, ReadFail};
pub use gate::{Gate, Moment, OpenGate};
pub use mem_files::MemFiles;
pub use mem_pager::MemPager;
pub use mem_sink::MemSink;
pub use page_buffer::{PageBuffer, put_bytes};
pub use pager::Pager;
pub use pager_call::PagerCall;
pub use sink::{Failed, Sink, write_whole};
pub use std::alloc::AllocError as NoMemory;
pub use stdout_sink::StdoutSink;

#[cfg(test)]
mod tests;
