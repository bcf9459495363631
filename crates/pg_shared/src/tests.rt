ghost use Rattle.std.specs.Prelude.{◌≡◌, IfOk};
ghost use Rattle.pg_digest.specs.Digests.{sha_hash};
ghost use Rattle.pg_parts.specs.Opened.{IsOpenable};
ghost use Rattle.pg_shared.specs.Opening.{IsShared, IsOpenedAs};

use crate::{Naming, Ready};
use bitflags::Flags;
use cs_policy::{Entry, ProcFlags};
use cs_trust::StaticTrust;
use pg_book::{Needs, OpenFail, Pass};
use pg_digest::ShaDigester;
use pg_io::MemPager;
use pg_parts::Opened;
use pg_process::Process;
use pg_trusted::Trusted;
use std::alloc::Global;
use std::marker::Brand;
use std::sync::Arc;
use std::test::Fail;

const NEEDS: Needs = Needs {
    entries: 1,
    regions: 0,
    records: 0,
    copies: 0,
    blobs: 0,
    numbers: 0,
};

// One process and no file, for two workers who may each make an entry on each part.
fn parts(alloc: Global) -> Result<Opened<MemPager, ShaDigester>, Fail>
    ensures openable { IfOk result (IsOpenable sha_hash) }
    ensures shared { IfOk result IsShared }
{
    let process = Process::open(alloc, 0, ProcFlags::HARD, 4096)?;
    let fixed = Arc::new(alloc, StaticTrust::new(Vec::new(alloc)))?;
    let trusted = Trusted::open(alloc, fixed, Vec::new(alloc))?;
    let first = vec![in alloc; NEEDS, NEEDS]?;
    let second = vec![in alloc; NEEDS, NEEDS]?;
    Ok(Opened {
        page_size: 4096,
        adhoc: false,
        files: Vec::new(alloc),
        processes: vec![in alloc; process]?,
        trusted,
        needs: vec![in alloc; first, second]?,
    })
}

fn is_shared_by_threads<T: Send + Sync>(_parts: &T) {}

// What is told of a run without its locks, and how many entries its history has when it is closed at once.
fn told<B: Naming + Send + Sync>(
    ready: Ready<MemPager, ShaDigester>,
    passes: Vec<Pass<Entry>>,
) -> Option<(Option<ProcFlags>, u64, u32, usize)>
    requires name { B.plan ≡ ready }
    requires opened { IsOpenedAs ready.start ready passes.items }
{
    let (shared, book) = ready.named::<B>().ok()?;
    is_shared_by_threads(&shared);
    let flags = shared.start_flags(0);
    let pages = shared.file_pages(0);
    let size = shared.page_size();
    let closed = shared.close(book, passes).ok()?;
    Some((flags, pages, size, closed.history.len()))
}

#[test]
fn a_run_without_events(rt: HostRuntime) -> Result<(), Fail> {
    let parts = parts(rt.alloc())?;
    let (ready, passes) = match Ready::open(rt.alloc(), parts) {
        Ok(opened) => opened,
        Err(OpenFail::NoMemory { .. }) => return Err("no memory".into()),
        Err(OpenFail::Found { .. }) => return Err("another number was found".into()),
    };
    assert_eq!(rt; passes.len(), 2);
    let Some((flags, pages, size, entries)) = told::<Brand>(ready, passes) else {
        return Err("the run was not closed".into());
    };
    let Some(flags) = flags else {
        return Err("flags".into());
    };
    assert!(rt; flags.contains(ProcFlags::HARD) && flags.contains(ProcFlags::VALID));
    assert_eq!(rt; (pages, size, entries), (0, 4096, 0));
    Ok(())
}
