//! Laws of histories.

ghost use Rattle.std.specs.Prelude.{◌≡◌, ◌≤◌, List};
ghost use Rattle.pg_digest.specs.Kinds.{Hash};
ghost use Rattle.pg_history.specs.ByParts.{AnsweredByParts};
ghost use Rattle.pg_history.specs.Machine.{Line, Machine, Answered};
ghost use Rattle.cs_policy.specs.declared.call.Call.{Call};
ghost use Rattle.pg_history.specs.Opening.{Opening, IsOpening, numbers_of};
ghost use Rattle.pg_history.specs.Legal.{IsStamped, Agrees, AreScripted, Legal, calls_in};
ghost use Rattle.pg_history.specs.Solo.{InOrder, solo};
ghost use Rattle.pg_history.specs.Sealing.{FewThroughout};
ghost use Rattle.pg_history.specs.Denials.{DenialsAreVerdicts};

/// Every denial of a history that the machine answers is of a guarded process, and it states the first rule that the access
/// breaks in the file as it was then.
pub fn denials_are_verdicts()
    ensures { (hash : Hash) (o : Opening) (history : List Line) → Answered hash o.machine history
        → DenialsAreVerdicts hash o history }
{}

/// Where scripts have 4,096 calls in all at most, no process makes more regions in a legal history of them than it has
/// numbers for regions.
pub fn scripts_make_few_regions()
    ensures { (hash : Hash) (o : Opening) (scripts : List (List Call)) (history : List Line) → IsOpening o
        → Legal hash o scripts history → calls_in scripts ≤ 4096 → FewThroughout hash o history }
{}

/// A history is legal where its stamps count up from 0, its parts and callers are those of its entries, each reply is what
/// the machine replies then, and each script's calls are there once, complete and in order, with nothing else: that each
/// entry rests on earlier ones of its call follows.
pub fn scripts_link()
    ensures { (hash : Hash) (o : Opening) (scripts : List (List Call)) (history : List Line)
        → IsStamped history → Agrees (numbers_of o) history → Answered hash o.machine history
        → AreScripted hash (numbers_of o) scripts history → Legal hash o scripts history }
{}

/// A legal history in which the entries of each script stand before those of the next is the one that the machine gives
/// where the scripts run one after another.
pub fn ordered_is_solo()
    ensures { (hash : Hash) (o : Opening) (scripts : List (List Call)) (history : List Line)
        → Legal hash o scripts history → InOrder history → history ≡ solo hash o scripts }
{}

/// Where each part of a machine answers its own entries, whatever the other parts do, and there are no entries of other
/// parts, the machine answers the history.
pub fn parts_answer()
    ensures { (hash : Hash) (m : Machine) (history : List Line) → AnsweredByParts hash m history
        → Answered hash m history }
{}
