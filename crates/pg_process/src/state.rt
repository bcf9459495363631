//! The states of a process.

ghost use Rattle.std.specs.Prelude.{◌≡◌};
ghost use Rattle.pg_process.specs.ProcessStep.{unless_alive, unless_standing};

use cs_policy::ProcReply;

/// Where a process is in its life.
#[derive(Clone, Copy, Debug, PartialEq, Eq)]
pub enum State {
    /// It was not started.
    Fresh,
    /// It runs.
    Alive,
    /// It was killed. Its regions stand until it exits.
    Killed,
    /// It has exited.
    Gone,
}

/// The reply to an event other than Start and Exit, where the process is not alive.
pub(crate) fn unless_alive(state: State) -> Option<ProcReply>
    ensures { result ≡ unless_alive state }
{
    match state {
        State::Alive => None,
        State::Killed => Some(ProcReply::Killed),
        State::Fresh | State::Gone => Some(ProcReply::Dead),
    }
}

/// The reply to Exit, where the process is neither alive nor killed.
pub(crate) fn unless_standing(state: State) -> Option<ProcReply>
    ensures { result ≡ unless_standing state }
{
    match state {
        State::Alive | State::Killed => None,
        State::Fresh | State::Gone => Some(ProcReply::Dead),
    }
}
