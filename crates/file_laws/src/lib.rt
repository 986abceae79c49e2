//! Where a refused file is at fault, said by which files are accepted.
#![tactic(auto)]

ghost use Rattle.file_laws.specs.Images.{ImageFaultsStand};
ghost use Rattle.file_laws.specs.Programs.{ProgramFaultsStand, ShortIsNotEnough};
ghost use Rattle.file_laws.specs.Traces.{TraceFaultsStand};

/// Shows where a refused image file is at fault: the field there is whole, its bytes let no file be
/// accepted, and cut before it the file is short; or the file ends too early, or goes on after an
/// image.
pub fn image_faults_stand()
    ensures { ImageFaultsStand }
{}

/// Shows the same of a refused program file.
pub fn program_faults_stand()
    ensures { ProgramFaultsStand }
{}

/// Shows the same of a refused trace file: of its head, whose geometry and table stand as in an
/// image file, and of each event.
pub fn trace_faults_stand()
    ensures { TraceFaultsStand }
{}

/// Shows that the law of program files tells faults apart: it does not hold of a reader that tells
/// Short of every file that it refuses.
pub fn short_is_not_enough()
    ensures { ShortIsNotEnough }
{}
