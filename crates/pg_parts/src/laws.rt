//! Laws of parts.

ghost use Rattle.pg_parts.specs.Laws.{ToldCallsAreSteps, SharesAreEnough};

/// Where the pager of a file tells its content, each call of its object is the step of the plain part that is told of it,
/// and that part is told after the call, with one reading more where a signature was read.
pub fn told_calls_are_steps()
    ensures { ToldCallsAreSteps }
{}

/// Where no worker has used more of a part than it may, the entries of the part use no more than all workers may.
pub fn shares_are_enough()
    ensures { SharesAreEnough }
{}
