//! What makes the report of a file: one thread, or as many as there are processors.

ghost use Rattle.pg_digest.specs.Digests.{sha_hash};
ghost use Rattle.cs_verify.specs.Verified.{Verifies};

use cs_verify::{SliceReport, VerifyFail, verify, verify_on};
use pg_digest::ShaDigester;
use std::alloc::Global;
use std::thread::Threads;

/// What makes the report of a file's bytes, by the standard digests.
pub trait Reporter {
    /// What has to be known of it before it is asked.
    ghost ready: { Self → Type 0 };

    /// The report of these bytes, as `verify` of `cs_verify` makes it.
    fn report(&self, alloc: Global, bytes: &[u8]) -> Result<Vec<SliceReport>, VerifyFail>
        requires ready { ready self.now }
        ensures { Verifies sha_hash bytes.now result };
}

/// The thread that asks.
#[derive(Drop)]
pub struct InTurn;

impl Reporter for InTurn {
    ghost use Rattle.std.specs.Prelude.{⊤};

    ghost ready = { λ _. ⊤ };

    fn report(&self, alloc: Global, bytes: &[u8]) -> Result<Vec<SliceReport>, VerifyFail> {
        verify(alloc, bytes, &mut ShaDigester::new())
    }
}

/// Threads of this runtime.
#[derive(Drop)]
pub struct OnThreads<'a, R> {
    rt: &'a R,
}

impl<'a, R> OnThreads<'a, R> {
    /// Threads of this runtime.
    pub fn new(rt: &'a R) -> OnThreads<'a, R> {
        OnThreads { rt }
    }
}

impl<R: Threads + Sync> Reporter for OnThreads<'_, R> {
    ghost use denote.Param.Send.{IsSync};

    ghost ready = { λ _. IsSync R.row };

    fn report(&self, alloc: Global, bytes: &[u8]) -> Result<Vec<SliceReport>, VerifyFail> {
        verify_on(self.rt, alloc, bytes)
    }
}
