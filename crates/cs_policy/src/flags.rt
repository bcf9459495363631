//! The flags of a process that decide how code signing is enforced on it.

ghost use Rattle.std.specs.Prelude.{⊤, ◌≡◌};
ghost use Rattle.cs_policy.specs.ProcFlags.{number_of, flag_table, enforced, guarded};

use bitflags::{Flag, Flags};

/// The flags of a process, as 32 bits that are numbered as in `cs_blobs.h` of XNU. Contracts see their number as
/// `number_of`; `bits` gives it, and `from_bits` makes flags of any number.
#[derive(Clone, Copy, Debug, PartialEq, Eq)]
pub struct ProcFlags(u32);

impl ProcFlags {
    /// The pages that the process got are those that were signed (`CS_VALID`).
    pub const VALID: ProcFlags = ProcFlags(0x0000_0001);

    /// The process gets no page that breaks a rule (`CS_HARD`).
    pub const HARD: ProcFlags = ProcFlags(0x0000_0100);

    /// The process is killed where it asks for a page that breaks a rule (`CS_KILL`).
    pub const KILL: ProcFlags = ProcFlags(0x0000_0200);

    /// Code signing is enforced on the process (`CS_ENFORCEMENT`).
    pub const ENFORCEMENT: ProcFlags = ProcFlags(0x0000_1000);

    /// The process was killed (`CS_KILLED`).
    pub const KILLED: ProcFlags = ProcFlags(0x0100_0000);

    /// The process is or was debugged (`CS_DEBUGGED`).
    pub const DEBUGGED: ProcFlags = ProcFlags(0x1000_0000);

    /// The flags by their names. The last one has no name and every bit: any 32 bits are flags of a process.
    pub const FLAGS: &'static [Flag<ProcFlags>] = &[
        Flag {
            name: "VALID",
            value: ProcFlags::VALID,
        },
        Flag {
            name: "HARD",
            value: ProcFlags::HARD,
        },
        Flag {
            name: "KILL",
            value: ProcFlags::KILL,
        },
        Flag {
            name: "ENFORCEMENT",
            value: ProcFlags::ENFORCEMENT,
        },
        Flag {
            name: "KILLED",
            value: ProcFlags::KILLED,
        },
        Flag {
            name: "DEBUGGED",
            value: ProcFlags::DEBUGGED,
        },
        Flag {
            name: "",
            value: ProcFlags(0xffff_ffff),
        },
    ];
}

impl Flags for ProcFlags {
    type Bits = u32;

    ghost exact = { ⊤ };

    ghost table = { flag_table };

    ghost set_of = { number_of };

    fn flags<'a>() -> &'a [Flag<ProcFlags>] {
        ProcFlags::FLAGS
    }

    fn bits(&self) -> u32 {
        self.0
    }

    fn from_bits_retain(bits: u32) -> ProcFlags {
        ProcFlags(bits)
    }
}

/// Whether code signing is enforced on a process with these flags: HARD, KILL or ENFORCEMENT is set.
pub fn enforced(f: ProcFlags) -> bool
    ensures { result ≡ enforced f }
{
    f.contains(ProcFlags::HARD) || f.contains(ProcFlags::KILL) || f.contains(ProcFlags::ENFORCEMENT)
}

/// Whether a process with these flags is guarded: code signing is enforced on it, and DEBUGGED is not set.
pub fn guarded(f: ProcFlags) -> bool
    ensures { result ≡ guarded f }
{
    enforced(f) && !f.contains(ProcFlags::DEBUGGED)
}
