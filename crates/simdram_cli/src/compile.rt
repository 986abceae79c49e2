//! The command `compile`.

ghost use Rattle.dram_model.specs.View.{ChipView};
ghost use Rattle.cli_model.specs.World.{world};
ghost use Rattle.cli_model.specs.Runs.{Runs};
ghost use Rattle.simdram_cli.specs.Compile.{compile_plan};
ghost use Rattle.simdram_cli.specs.Plans.{said_of};

use crate::completion::Completion;
use crate::counted::put_counted;
use crate::run::take_program;
use crate::stop::Stop;
use crate::words::CompileNames;
use host_edge::{Folder, Sink};
use std::alloc::Global;

/// Compiles OPS, stores PROG, and puts how many entries it has. Nothing is refused.
pub(crate) fn compile<'a, F: Folder, S: Sink>(
    names: &CompileNames<'a>,
    files: &mut F,
    out: &mut S,
    alloc: Global,
) -> Result<Completion, Stop<'a>>
    ensures { (chip : ChipView) → Runs (compile_plan names.now)
        (world (F.view files.old) (S.view out.old) chip)
        (world (F.view files.new) (S.view out.new) chip) (said_of result) }
{
    let (program, _) = take_program(names.ops, names.prog, files, alloc)?;
    if put_counted(b"compiled ", program.entries.len(), out).is_err() {
        return Err(Stop::PutFailed);
    }
    Ok(Completion::AllDone)
}
