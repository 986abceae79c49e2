//! A script over a recorder of a chip's events: what of it holds of the chip, and the trace file of
//! what was recorded.
#![tactic(auto)]

ghost use Rattle.trace_job.specs.Below.{StepsAreBelow};
ghost use Rattle.trace_job.specs.Telling.{TellsWhatFits};

mod spelling;

pub use spelling::spell_trace;

/// Shows that the steps of a command over a recorder are the same steps over its chip.
pub fn steps_are_below()
    ensures { StepsAreBelow }
{}

/// Shows that a recorder tells the events that it saw exactly where they fit in its room.
pub fn recorders_tell_what_fits()
    ensures { TellsWhatFits }
{}
