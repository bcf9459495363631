//! The law of equal journals.

ghost use Rattle.pg_printed.specs.Printed.{JournalsTellHistories, ScriptsTellHistories};

/// Two legal histories of one opening, by any workers and of any scripts, are equal where their journals are equal, and so
/// are the numbers of calls that the journals tell. Of each history it asks that its numbers are of their types and that
/// each reply is of a kind that its event can have (`IsHeld`).
///
/// A journal prints neither the bytes of a signature that was read nor the number of pages of a file that is mapped: these
/// are what the opening has.
pub fn equal_journals_are_of_one_history()
    ensures { JournalsTellHistories }
{}

/// Two legal histories of the same scripts from one opening are equal where their journals are equal. It asks nothing of
/// their numbers, but that there are fewer than 2^64 scripts: each line of a journal tells its worker, and the worker's script
/// and the entries before it fix the rest of the entry.
pub fn equal_journals_of_scripts_are_of_one_history()
    ensures { ScriptsTellHistories }
{}
