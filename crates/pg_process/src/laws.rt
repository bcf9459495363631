//! Laws of processes: what no list of events can do.

ghost use Rattle.pg_process.specs.Laws.{FlagsChangeAtFourEvents, UnguardedStaysUnguarded, OverlapNamesTheLeast, ExitNamesEachFile, RegionsStayApart};

/// The flags of a process change only by Start, Debug, Punish and ClearValid.
pub fn flags_change_at_four_events()
    ensures { FlagsChangeAtFourEvents }
{}

/// Once it was started, a process that is not guarded never becomes guarded, whatever happens to it.
pub fn unguarded_stays_unguarded()
    ensures { UnguardedStaysUnguarded }
{}

/// The region that Overlap names is the one with the least number of those that the addresses meet.
pub fn overlap_names_the_least()
    ensures { OverlapNamesTheLeast }
{}

/// Exited names the files of the regions that stood, and no other.
pub fn exit_names_each_file()
    ensures { ExitNamesEachFile }
{}

/// No two regions of a process share an address, whatever happened to it.
pub fn regions_stay_apart()
    ensures { RegionsStayApart }
{}
