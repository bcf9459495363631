// What replies tell a call of the event that it makes next.

ghost use Rattle.std.specs.Prelude.{◌≡◌};
ghost use Rattle.std.specs.Option.{option_map, option_and_then};
ghost use Rattle.pg_history.specs.Calls.{of_file, of_process, found, inserted, removed, exited, judged};
ghost use Rattle.pg_calls.specs.Found.{as_found};

use cs_policy::{FileReply, ProcEvent, ProcFlags, ProcReply, Reply};

// What an address was found to mean: a page of a file, by a region, and the flags of the process then.
#[derive(Clone, Copy)]
pub(crate) struct Mapped {
    pub(crate) id: u32,
    pub(crate) file: u32,
    pub(crate) page: u64,
    pub(crate) flags: ProcFlags,
}

// What an address was found to mean, where it is mapped and the access is permitted.
pub(crate) fn found(reply: &Reply) -> Option<Mapped>
    ensures { option_map as_found result ≡ option_and_then found (of_process reply.now) }
{
    match reply {
        Reply::Proc(
            ProcReply::Region {
                id,
                file,
                page,
                flags,
            },
        ) => Some(Mapped {
            id: *id,
            file: *file,
            page: *page,
            flags: *flags,
        }),
        _ => None,
    }
}

// The number of the region that was inserted.
pub(crate) fn inserted(reply: &Reply) -> Option<u32>
    ensures { result ≡ option_and_then inserted (of_process reply.now) }
{
    match reply {
        Reply::Proc(ProcReply::Inserted { id }) => Some(*id),
        _ => None,
    }
}

// The number of the region that was removed, and that of its file.
pub(crate) fn removed(reply: &Reply) -> Option<(u32, u32)>
    ensures { result ≡ option_and_then removed (of_process reply.now) }
{
    match reply {
        Reply::Proc(ProcReply::Removed { id, file }) => Some((*id, *file)),
        _ => None,
    }
}

// The files of the regions of a process that ended, one bit a file.
pub(crate) fn exited(reply: &Reply) -> Option<u16>
    ensures { result ≡ option_and_then exited (of_process reply.now) }
{
    match reply {
        Reply::Proc(ProcReply::Exited { files }) => Some(*files),
        _ => None,
    }
}

// What the process of a fault meets: a denial has it punished, and a violation clears VALID.
pub(crate) fn judged(reply: &Reply) -> Option<ProcEvent>
    ensures { result ≡ option_and_then judged (of_file reply.now) }
{
    match reply {
        Reply::File(FileReply::Denied(_)) => Some(ProcEvent::Punish),
        Reply::File(
            FileReply::Given {
                violation: Some(_),
                ..
            },
        ) => Some(ProcEvent::ClearValid),
        _ => None,
    }
}
