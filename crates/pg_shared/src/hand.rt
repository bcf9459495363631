//! A worker's hand on the parts of a run.

ghost use Rattle.std.specs.Prelude.{◌≡◌, ◌<◌, length};
ghost use Rattle.pg_shared.specs.Passes.{shown, IsPassOf};

use crate::NoMemory;
use crate::naming::Naming;
use crate::shared::Shared;
use cs_policy::{Entry, ProcEvent, TrustEvent, Who};
use pg_book::{Pass, Receipt};
use pg_bytes::Range;
use pg_calls::{FileCall, Parts};
use pg_digest::Digester;
use pg_io::{Gate, Pager};
use std::sync::Wait;

/// The parts of a run as one worker has them: it asks each under its lock, and keeps what it drew in its pass.
pub struct Hand<'a, B: Naming, R: Wait, P: Pager, D: Digester, G: Gate> {
    pub rt: &'a R,
    pub shared: &'a Shared<B, P, D>,
    pub gate: &'a G,
    pub pass: Pass<Entry>,
}

impl<'a, B: Naming, R: Wait, P: Pager, D: Digester, G: Gate> Parts for Hand<'a, B, R, P, D, G> {
    ghost hash = { D.hash };

    ghost shows = { λ hand. shown B.plan hand.pass };

    ghost serves = { λ hand worker. IsPassOf B.plan worker hand.pass };

    fn file(&mut self, who: Who, file: u32, asked: FileCall) -> Result<Receipt<Entry>, NoMemory> {
        self.shared
            .on_file(self.rt, &mut self.pass, self.gate, who, file, asked)
    }

    fn process(&mut self, who: Who, pid: u32, asked: ProcEvent) -> Receipt<Entry> {
        self.shared
            .on_process(self.rt, &mut self.pass, who, pid, asked)
    }

    fn trust(&mut self, who: Who, asked: TrustEvent) -> Receipt<Entry> {
        self.shared.on_trust(self.rt, &mut self.pass, who, asked)
    }

    fn file_pages(&self, file: u32) -> u64 {
        self.shared.file_pages(file)
    }

    fn slice(&self, file: u32, slice: u32) -> Option<Range> {
        self.shared.slice(file, slice)
    }

    fn page_size(&self) -> u32 {
        self.shared.page_size()
    }

    fn adhoc(&self) -> bool {
        self.shared.adhoc()
    }
}
