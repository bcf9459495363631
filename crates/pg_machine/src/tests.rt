ghost use Rattle.std.specs.Prelude.{IfOk};
ghost use Rattle.pg_digest.specs.Digests.{sha_hash};
ghost use Rattle.pg_parts.specs.Opened.{IsOpenable};
ghost use Rattle.pg_machine.specs.Small.{IsSmall};

use crate::Solo;
use bitflags::Flags;
use cs_policy::{
    Event, Place, ProcEvent, ProcFlags, ProcReply, Reply, TrustEvent, TrustReply, Who,
};
use cs_samples::DIRECTORY_CDHASH;
use cs_trust::StaticTrust;
use pg_book::Needs;
use pg_calls::Parts;
use pg_digest::ShaDigester;
use pg_io::MemPager;
use pg_parts::Opened;
use pg_process::Process;
use pg_trusted::Trusted;
use std::alloc::Global;
use std::sync::Arc;
use std::test::Fail;

const NEEDS: Needs = Needs {
    entries: 4,
    regions: 0,
    records: 0,
    copies: 0,
    blobs: 0,
    numbers: 4,
};

// A process and an empty trust list, for one worker.
fn opened(alloc: Global) -> Result<Opened<MemPager, ShaDigester>, Fail>
    ensures openable { IfOk result (IsOpenable sha_hash) }
    ensures small { IfOk result IsSmall }
{
    let process = Process::open(alloc, 0, ProcFlags::empty(), 4096)?;
    let fixed = Arc::new(alloc, StaticTrust::new(Vec::new(alloc)))?;
    let row = vec![in alloc; NEEDS, NEEDS]?;
    Ok(Opened {
        page_size: 4096,
        adhoc: false,
        files: Vec::new(alloc),
        processes: vec![in alloc; process]?,
        trusted: Trusted::open(alloc, fixed, Vec::new(alloc))?,
        needs: vec![in alloc; row]?,
    })
}

const WHO: Who = Who { worker: 0, call: 0 };

#[test]
fn a_process_starts(rt: HostRuntime) -> Result<(), Fail> {
    let mut solo = Solo::open(rt.alloc(), opened(rt.alloc())?)?;
    assert_eq!(rt; solo.page_size(), 4096);
    assert!(rt; !solo.adhoc());
    assert_eq!(rt; solo.file_pages(0), 0);
    assert!(rt; solo.slice(0, 0).is_none());
    let receipt = solo.process(WHO, 0, ProcEvent::Start);
    assert_eq!(rt; (receipt.part, receipt.caller, receipt.stamp), (0, 0, 0));
    let (history, parts) = solo.close();
    assert_eq!(rt; (history.len(), parts.processes.len()), (1, 1));
    let began = ProcReply::Began {
        flags: ProcFlags::VALID,
    };
    assert!(rt; matches!(&history[0].entry.reply, Reply::Proc(reply) if *reply == began));
    Ok(())
}

#[test]
fn a_cdhash_is_looked_up(rt: HostRuntime) -> Result<(), Fail> {
    let mut solo = Solo::open(rt.alloc(), opened(rt.alloc())?)?;
    let lookup = TrustEvent::Lookup {
        cdhash: DIRECTORY_CDHASH,
    };
    let receipt = solo.trust(WHO, lookup);
    assert_eq!(rt; receipt.part, 1);
    assert_eq!(rt; receipt.entry.place, Place::Trust);
    let (history, _) = solo.close();
    for entry in &history {
        assert_eq!(rt; entry.stamp, 0);
        assert!(rt; matches!(&entry.entry.event, Event::Trust(asked) if *asked == lookup));
        assert!(rt; matches!(&entry.entry.reply, Reply::Trust(TrustReply::Unlisted)));
    }
    assert_eq!(rt; history.len(), 1);
    Ok(())
}
