//! The parts of a machine before a run.

use pg_book::AllNeeds;
use pg_digest::Digester;
use pg_io::Pager;
use pg_object::Object;
use pg_process::Process;
use pg_trusted::Trusted;
use std::marker::Model;

/// The parts of a machine: its files and its processes by their numbers, and its trust list.
#[derive(Drop)]
pub struct Opened<P: Pager, D: Digester> {
    /// The size of a page in bytes, which is that of all files and processes.
    pub page_size: u32,
    /// Whether ad hoc signatures may be attached that no trust cache lists.
    pub adhoc: bool,
    pub files: Vec<Object<P, D>>,
    pub processes: Vec<Process>,
    pub trusted: Trusted,
    /// What each worker may use of each part: a list for each worker, with an element for each file, then for each process,
    /// then for the trust list.
    pub needs: AllNeeds,
}

impl<P: Pager, D: Digester> Model for Opened<P, D> {
    ghost use Rattle.pg_book.specs.Needs.{rows};
    ghost use Rattle.pg_parts.specs.Opened.{OpenedNow};

    ghost Value = { OpenedNow };

    ghost view = { λ opened. record {
      page_size = opened.page_size;
      adhoc = opened.adhoc;
      files = opened.files.items;
      processes = opened.processes.items;
      trust = opened.trusted;
      needs = rows opened.needs;
    } };
}
