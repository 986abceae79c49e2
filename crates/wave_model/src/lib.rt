//! How the banks of a wave take turns, and that each does its own commands in order.
#![tactic(auto)]

ghost use Rattle.wave_model.specs.Laws.{PicksAreWhole, FollowsQueue, StopsInItsQueue};
ghost use Rattle.wave_model.specs.Laws.{CountsAreSums};

/// In whatever order the banks of a wave take turns, each does its own commands in order; the picks
/// of every order in force are a whole list. On the way a bank stands where the first commands of
/// its queue leave it, and at the end the counters have risen by the sums of the jobs' commands.
pub fn every_bank_follows_its_queue()
    ensures whole { PicksAreWhole }
    ensures follows { FollowsQueue }
    ensures stops { StopsInItsQueue }
    ensures counts { CountsAreSums }
{}
