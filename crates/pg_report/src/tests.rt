use super::*;
use cs_policy::{
    Entry, Event, FileEvent, FileReply, Place, ProcEvent, ProcReply, Prot, Reply, Who,
};
use pg_bytes::Octets;
use std::alloc::Global;
use std::test::Fail;

/// The ordinary run of a signed file that is mapped and executed.
const ORDINARY: &str = "0 0.0 t loadmodule c0 -> loaded 0\n\
1 0.1 f0 readsig 0 -> read 216\n\
2 0.1 t lookup 000102030405060708090a0b0c0d0e0f10111213 -> listed 0 0\n\
3 0.1 f0 addblob 0 000102030405060708090a0b0c0d0e0f10111213 @1 @2 -> attached 0\n\
4 0.2 p0 start -> began 00001001\n\
5 0.3 p0 insert 0x100000000 f0 0 2 r-x private -> inserted 0\n\
6 0.3 f0 addregion 0 p0 0 2 r-x private @5 -> added\n\
7 0.4 p0 resolve 0x100000000 x -> region 0 f0 0 00001001\n\
8 0.4 f0 enter 0 0 x 00001001 @7 -> given\n\
9 0.5 p0 resolve 0x100001000 x -> region 0 f0 1 00001001\n\
10 0.5 f0 enter 0 1 x 00001001 @9 -> given\n\
events 11\n\
calls 6\n\
given 2\n\
denied 0\n\
";

/// An entry with its stamp.
fn stamped(stamp: u64, entry: Entry) -> Stamped<Entry> {
    Stamped {
        stamp,
        part: 0,
        caller: 0,
        entry,
    }
}

/// An entry of the first call of the first script.
fn first_call(place: Place, event: Event, reply: Reply) -> Entry {
    let who = Who { worker: 0, call: 0 };
    Entry {
        who,
        place,
        event,
        reply,
    }
}

#[test]
fn the_ordinary_journal_is_read(rt: HostRuntime) -> Result<(), Fail> {
    let (lines, calls) = read_journal(rt.alloc(), ORDINARY.as_bytes())?;
    assert_eq!(rt; (lines.len(), calls), (11, 6));
    let reads: Vec<u64> = lines.iter().map(|line| line.read).collect(rt.alloc())?;
    assert_eq!(rt;
        reads.as_slice(),
        [0, 216, 0, 0, 0, 0, 0, 0, 0, 0, 0].as_slice()
    );
    Ok(())
}

#[test]
fn what_the_text_does_not_keep(rt: HostRuntime) -> Result<(), Fail> {
    let bytes = Octets::new(vec![in rt.alloc(); 0xfa, 0xde, 0x0c]?);
    let read = first_call(
        Place::File(0),
        Event::File(FileEvent::ReadSignature { slice: 2 }),
        Reply::File(FileReply::Read { bytes }),
    );
    let insert = ProcEvent::Insert {
        at: 0x1000,
        file: 0,
        file_pages: 9,
        first: 1,
        pages: 2,
        prot: Prot::R,
        shared: true,
    };
    let inserted = first_call(
        Place::Process(0),
        Event::Proc(insert),
        Reply::Proc(ProcReply::Inserted { id: 3 }),
    );
    let history = vec![in rt.alloc(); stamped(0, read), stamped(1, inserted)]?;
    let wanted = b"0 0.0 f0 readsig 2 -> read 3\n\
1 0.0 p0 insert 0x1000 f0 1 2 r-- shared -> inserted 3\n\
events 2\ncalls 1\ngiven 0\ndenied 0\n";
    let text = journal(rt.alloc(), &history, 1)?;
    assert_eq!(rt; text.as_slice(), wanted.as_slice());
    let (lines, _) = read_journal(rt.alloc(), &text)?;
    let reads: Vec<u64> = lines.iter().map(|line| line.read).collect(rt.alloc())?;
    assert_eq!(rt; reads.as_slice(), [3, 0].as_slice());
    Ok(())
}

#[test]
fn a_history_without_events(rt: HostRuntime) -> Result<(), Fail> {
    let nothing: &[Stamped<Entry>] = &[];
    let wanted = b"events 0\ncalls 0\ngiven 0\ndenied 0\n".as_slice();
    assert_eq!(rt; journal(rt.alloc(), nothing, 0)?.as_slice(), wanted);
    assert_eq!(rt; summary(rt.alloc(), nothing, 0)?.as_slice(), wanted);
    Ok(())
}
