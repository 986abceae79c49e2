//! The command `init`.

ghost use Rattle.std.specs.Prelude.{◌≡◌, true};
ghost use Rattle.dram_model.specs.Geometry.{is_geometry};
ghost use Rattle.dram_model.specs.View.{ChipView};
ghost use Rattle.cli_model.specs.World.{world};
ghost use Rattle.host_edge.specs.Views.{SinkView};
ghost use Rattle.cli_model.specs.Runs.{Runs};
ghost use Rattle.simdram_cli.specs.Init.{init_plan};
ghost use Rattle.simdram_cli.specs.Plans.{said_of};

use crate::completion::Completion;
use crate::stop::Stop;
use crate::words::InitNames;
use host_edge::Folder;
use object_alloc::empty_image;
use std::alloc::Global;

/// Stores the empty image of a shape as OUT. Nothing is refused, and nothing is put.
pub(crate) fn init<'a, F: Folder>(
    names: &InitNames<'a>,
    files: &mut F,
    alloc: Global,
) -> Result<Completion, Stop<'a>>
    requires { is_geometry names.now.geometry ≡ true }
    ensures { (sink : SinkView) (chip : ChipView) → Runs (init_plan names.now)
        (world (F.view files.old) sink chip) (world (F.view files.new) sink chip)
        (said_of result) }
{
    let Ok(file) = empty_image(names.geometry, alloc) else {
        return Err(Stop::NoMemory);
    };
    if files.store(names.out, &file).is_err() {
        return Err(Stop::CannotWrite(names.out));
    }
    Ok(Completion::AllDone)
}
