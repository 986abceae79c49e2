//! Which rows a chip fault spares, whatever an accepted program does.
#![tactic(auto)]

ghost use Rattle.safety_laws.specs.Stopped.{FirstPartsKeep, StoppedUsesAreSafe};
ghost use Rattle.safety_laws.specs.Stopped.{StoppedWavesAreSafe};

/// The first commands of a legal code's trace, however many, change no data row outside results,
/// scratch and spill group.
pub fn first_parts_keep()
    ensures { FirstPartsKeep }
{}

/// Where the chip fails in a wave after a script, a data row that no done instruction of the script
/// and no bbop of the wave may touch is as it was before the script, in every bank but the failed
/// command's.
pub fn stopped_waves_are_safe()
    ensures { StoppedWavesAreSafe }
{}

/// The same where it fails in an instruction by itself.
pub fn stopped_uses_are_safe()
    ensures { StoppedUsesAreSafe }
{}
