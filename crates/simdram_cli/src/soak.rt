//! The command `soak`.

ghost use Rattle.std.specs.Prelude.{◌≡◌};
ghost use Rattle.cli_model.specs.World.{world};
ghost use Rattle.host_edge.specs.Views.{FolderView};
ghost use Rattle.cli_model.specs.Runs.{Runs};
ghost use Rattle.simdram_cli.specs.Plans.{said_of};
ghost use Rattle.simdram_cli.specs.Soak.{soak_plan};

use crate::completion::Completion;
use crate::stop::Stop;
use dram_model::Dram;
use host_edge::Sink;
use soak_job::SoakError;
use std::alloc::Global;

/// Does the large job of a seed. Nothing is refused.
pub(crate) fn soak<'a, S: Sink, D: Dram>(
    seed: u64,
    out: &mut S,
    chip: &mut D,
    alloc: Global,
) -> Result<Completion, Stop<'a>>
    ensures borrow { D.borrow chip.new ≡ D.borrow chip.old }
    ensures went { (files : FolderView) → Runs (soak_plan seed)
        (world files (S.view out.old) (D.view chip.old))
        (world files (S.view out.new) (D.view chip.new)) (said_of result) }
{
    match soak_job::soak(seed, out, chip, alloc) {
        Ok(()) => Ok(Completion::AllDone),
        Err(SoakError::NoMemory) => Err(Stop::NoMemory),
        Err(SoakError::ChipFailed) => Err(Stop::ChipFailed),
        Err(SoakError::PutFailed) => Err(Stop::PutFailed),
    }
}
