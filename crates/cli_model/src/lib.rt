//! How a command of the command line goes: step by step, until all are done or one fails.
#![tactic(auto)]

ghost use Rattle.cli_model.specs.Laws.{FirstDecides, OneBankIsLost};

/// The first event in a command's order decides how it ends: its status and why, what was sent, and
/// which files stand.
pub fn first_decides()
    ensures { FirstDecides }
{}

/// A fault of the chip at an opening or at another known use loses one bank at most: of two banks
/// one stands where a first part of the step's events leaves it.
pub fn one_bank_is_lost()
    ensures { OneBankIsLost }
{}
