//! What two commands of the program promise together, and what the files at entry decide.
#![tactic(auto)]

ghost use Rattle.cli_laws.specs.Costs.{CostsOfCompiled};
ghost use Rattle.cli_laws.specs.Faults.{FaultsSpareRows};
ghost use Rattle.cli_laws.specs.Replays.{TracesAreAccepted, TracesReplay};
ghost use Rattle.cli_laws.specs.Unique.{OneExecuted, OneGuardedJob, OneRecorded, OneReplayed};
ghost use Rattle.cli_laws.specs.Unique.{OneAnswered, OneScanned, OneSoaked};
ghost use Rattle.cli_laws.specs.Verified.{OneVerified, RightIsExecuted};

/// What `cost` sends of the file that `compile` stored are the exact commands of the ops of OPS.
pub fn costs_of_compiled()
    ensures { CostsOfCompiled }
{}

/// A replay of what an execution recorded, on the image that it read, writes the same image.
pub fn traces_replay()
    ensures { TracesReplay }
{}

/// A replay never ends because of what an execution recorded, or of the image that it read.
pub fn traces_are_accepted()
    ensures { TracesAreAccepted }
{}

/// Two executions of the same files do one script on one image with one program, leave the same
/// files, and end with the same status.
pub fn one_executed()
    ensures { OneExecuted }
{}

/// Two recorded executions of the same files record one trace, and leave the same files.
pub fn one_recorded()
    ensures { OneRecorded }
{}

/// Two replays of the same files do one trace on one image, and leave the same files.
pub fn one_replayed()
    ensures { OneReplayed }
{}

/// Two scans of the same files ask one query of one image, and tell one line: the same counts, or
/// that the query is refused, why and where.
pub fn one_scanned()
    ensures counted { OneScanned }
    ensures told { OneAnswered }
{}

/// Two soaks of one seed tell the same lines, and leave the same counters.
pub fn one_soaked()
    ensures { OneSoaked }
{}

/// Two guarded runs of the same files have the ops of one text, one script, one image and one list
/// of flips; and if they leave the same program, they leave the same files and end alike.
pub fn one_guarded_job()
    ensures { OneGuardedJob }
{}

/// Two verifications of the same files look at the same ops and the same program. What they find is
/// alike: the same counts, the same stuck walks, the same entries that are missing or of other
/// kinds; they may tell other cases of an entry that is wrong, and unknown for right or wrong.
pub fn one_verified()
    ensures { OneVerified }
{}

/// Entries that a `verify` found right at its widths give, in an execution of the same bytes of
/// PROG, the numbers of the ops, where each bbop has one of these widths and names one of the ops.
pub fn right_is_executed()
    ensures { RightIsExecuted }
{}

/// Where an execution ends with 9 past the opening of the chip, one bank is lost, and of the other
/// rows only those change that the instructions it had begun may change: no row of a source or of
/// another object than their targets.
pub fn faults_spare_rows()
    ensures { FaultsSpareRows }
{}
