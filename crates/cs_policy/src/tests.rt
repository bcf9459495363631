use super::*;
use bitflags::Flags;
use pg_bytes::{Octets, Range};
use pg_digest::digest_of;
use std::test::Fail;

#[test]
fn flags_that_guard(rt: HostRuntime) -> Result<(), Fail> {
    for (bits, is_enforced, is_guarded) in [
        (0, false, false),
        (0x0000_0001, false, false),
        (0x0000_0101, true, true),
        (0x0000_0201, true, true),
        (0x0000_1001, true, true),
        (0x0000_1301, true, true),
        (0x1000_0000, false, false),
        (0x1000_0201, true, false),
        (0x1000_1001, true, false),
        (0x0100_0201, true, true),
        (0x2003_2c02, false, false),
        (0xffff_ffff, true, false),
    ] {
        let flags = ProcFlags::from_bits(bits).ok_or("flags")?;
        assert_eq!(rt; flags.bits(), bits);
        assert_eq!(rt; enforced(flags), is_enforced, "of {bits:08x}");
        assert_eq!(rt; guarded(flags), is_guarded, "of {bits:08x}");
    }
    assert_eq!(rt; ProcFlags::from_name("KILL"), Some(ProcFlags::KILL));
    Ok(())
}

#[test]
fn what_a_protection_permits(rt: HostRuntime) {
    for (prot, reads, writes, executes) in [
        (Prot::R, true, false, false),
        (Prot::RW, true, true, false),
        (Prot::RX, true, false, true),
        (Prot::RWX, true, true, true),
    ] {
        assert_eq!(rt; prot.permits(Access::Read), reads);
        assert_eq!(rt; prot.permits(Access::Write), writes);
        assert_eq!(rt; prot.permits(Access::Execute), executes);
    }
}

#[test]
fn bytes_of_one_access(rt: HostRuntime) -> Result<(), Fail> {
    assert!(rt; Bytes64::new(&[]).is_none());
    assert!(rt; Bytes64::new(&[7; 65]).is_none());
    for count in [1, 2, 63, 64] {
        let held = Bytes64::new(&[7; 64][..count]).ok_or("these bytes fit")?;
        assert_eq!(rt; held.bytes(), &[7; 64][..count]);
        assert!(rt; held.copy() == held);
    }
    assert!(rt; Bytes64::new(&[1, 2]) != Bytes64::new(&[1, 3]));
    Ok(())
}

#[test]
fn an_entry_is_copied(rt: HostRuntime) -> Result<(), Fail> {
    let read = [1, 2, 3].to_vec(rt.alloc())?;
    let entry = Entry {
        who: Who { worker: 1, call: 2 },
        place: Place::File(3),
        event: Event::File(FileEvent::Write {
            at: 4,
            piece: Data::Fill { byte: 5, count: 6 },
        }),
        reply: Reply::File(FileReply::Read {
            bytes: Octets::new(read),
        }),
    };
    let copy = entry.copy()?;
    assert_eq!(rt; (copy.who, copy.place), (entry.who, entry.place));
    let Event::File(FileEvent::Write { at, piece }) = &copy.event else {
        return Err("another event".into());
    };
    assert_eq!(rt; *at, 4);
    assert!(rt; matches!(piece, Data::Fill { byte: 5, count: 6 }));
    let Reply::File(FileReply::Read { bytes }) = &copy.reply else {
        return Err("another reply".into());
    };
    assert_eq!(rt; bytes.bytes(), [1, 2, 3].as_slice());
    let data = Data::Hex(bytes.copy()?);
    let Data::Hex(bytes) = data.copy()? else {
        return Err("other data".into());
    };
    assert_eq!(rt; bytes.bytes(), [1, 2, 3].as_slice());
    Ok(())
}

#[test]
fn denials_are_numbered(rt: HostRuntime) -> Result<(), Fail> {
    let found = digest_of(&[1; 20]).ok_or("a digest")?;
    let wanted = digest_of(&[2; 20]).ok_or("a digest")?;
    for (denial, number) in [
        (Denial::PrivateCopy { page: 1 }, 1),
        (Denial::Unsigned { page: 1 }, 2),
        (Denial::BeyondLimit { page: 1 }, 3),
        (Denial::WritableShared { page: 1, region: 2 }, 4),
        (
            Denial::Mismatch {
                page: 1,
                slot: 1,
                found,
                wanted,
            },
            5,
        ),
        (Denial::SealedWrite { page: 1 }, 6),
    ] {
        assert_eq!(rt; denial.number(), number);
    }
    let seats = Seats::new(vec![in rt.alloc();
        SliceSeat::Signed {
            slice: Range { at: 0, len: 2 },
            sig: Range { at: 1, len: 1 }
        },
    ]?);
    assert_eq!(rt; seats.items().len(), 1);
    Ok(())
}
