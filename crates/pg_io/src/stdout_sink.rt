ghost use Rattle.std.specs.Prelude.{◌≡◌, None};

use crate::sink::{Failed, Sink};
use std::io::Print;
use std::marker::Model;

/// The system's standard output, which tells nothing of what went out.
#[derive(Drop)]
pub struct StdoutSink<R> {
    rt: R,
    faults: u64,
}

impl<R> Model for StdoutSink<R> {
    ghost use Rattle.std.specs.Prelude.{ℕ};

    ghost Value = { ℕ };

    ghost view = { λ sink. sink.faults };
}

impl<R> StdoutSink<R> {
    /// The standard output of this runtime. No write has failed yet.
    pub fn new(rt: R) -> StdoutSink<R>
        ensures { result ≡ 0 }
    {
        StdoutSink { rt, faults: 0 }
    }
}

impl<R: Print> Sink for StdoutSink<R> {
    ghost written = { λ _. None };

    ghost faults = { λ faults. faults };

    fn write(&mut self, bytes: &[u8]) -> Result<usize, Failed> {
        match self.rt.write_some(bytes) {
            Ok(count) if count > 0 || bytes.is_empty() => Ok(count),
            sent => {
                self.faults = self.faults.saturating_add(1);
                sent.map_err(|_| Failed)
            }
        }
    }
}
