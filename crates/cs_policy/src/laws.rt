//! Laws of flags.

ghost use Rattle.cs_policy.specs.declared.flags.ProcFlags.{ProcFlags};
ghost use Rattle.cs_policy.specs.FlagLaws.{AnyBitsAreFlags, FlagsGuard};

/// Any 32 bits are flags of a process, so `ProcFlags::from_bits` answers `Some` for each number.
pub fn any_bits_are_flags()
    ensures { AnyBitsAreFlags }
{}

/// A process whose DEBUGGED is set is not guarded. Setting or clearing VALID, and setting KILLED, changes nothing
/// about whether it is.
pub fn flags_guard()
    ensures { (f : ProcFlags) → FlagsGuard f }
{}
