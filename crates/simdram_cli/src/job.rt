//! A job: a script is done on an image with a program.

ghost use Rattle.std.specs.Prelude.{◌≡◌, ◌+◌, ◌≤◌, length, map};
ghost use Rattle.std.specs.List.{AllByRecursion};
ghost use Rattle.bbop_isa.specs.Forms.{view_of};
ghost use Rattle.machine_model.specs.Agrees.{IsPlain};
ghost use Rattle.cli_model.specs.World.{world};
ghost use Rattle.cli_model.specs.Runs.{Runs};
ghost use Rattle.simdram_cli.specs.Plans.{image_plan, job_plan, said_of};
ghost use Rattle.simdram_cli.specs.Stops.{image_reason, reason_of};

use crate::completion::{Completion, completed};
use crate::load::{load, load_script};
use crate::perform::perform;
use crate::stop::Stop;
use crate::words::{IMAGE_MAX, SCRIPT_MAX};
use bbop_isa::Instr;
use dram_model::Dram;
use host_edge::{Folder, Sink};
use object_alloc::{ImageNo, read_image};
use std::alloc::Global;
use uprog_bin::ProgView;

/// The files of a job.
#[derive(Clone, Copy)]
pub(crate) struct JobNames<'a> {
    pub script: &'a str,
    pub image: &'a str,
    pub out: &'a str,
}

/// Why a command stops at an image that is not read.
pub(crate) fn image_stop<'a>(no: ImageNo) -> Stop<'a>
    ensures { reason_of result ≡ image_reason no }
{
    match no {
        ImageNo::Fault(fault) => Stop::BadImage(fault),
        ImageNo::NoMemory => Stop::NoMemory,
    }
}

/// Loads IMAGE, and does the script on it.
fn work_on_image<'a, F: Folder, S: Sink, D: Dram>(
    prog: ProgView<'_>,
    script: &[Instr],
    names: &JobNames<'a>,
    files: &mut F,
    out: &mut S,
    chip: &mut D,
    alloc: Global,
) -> Result<Completion, Stop<'a>>
    requires plain { AllByRecursion IsPlain (map view_of script.now) }
    requires few { length script.now ≤ SCRIPT_MAX + 1 }
    ensures borrow { D.borrow chip.new ≡ D.borrow chip.old }
    ensures runs { Runs (image_plan names.now prog.entry.programs (map view_of script.now))
        (world (F.view files.old) (S.view out.old) (D.view chip.old))
        (world (F.view files.new) (S.view out.new) (D.view chip.new)) (said_of result) }
{
    let bytes = load(names.image, IMAGE_MAX, files, alloc)?;
    let image = match read_image(&bytes, alloc) {
        Ok(image) => image,
        Err(no) => return Err(image_stop(no)),
    };
    completed(perform(prog, script, image, names.out, files, out, chip, alloc))
}

/// Does SCRIPT on IMAGE with a program.
pub(crate) fn do_job<'a, F: Folder, S: Sink, D: Dram>(
    prog: ProgView<'_>,
    names: &JobNames<'a>,
    files: &mut F,
    out: &mut S,
    chip: &mut D,
    alloc: Global,
) -> Result<Completion, Stop<'a>>
    ensures borrow { D.borrow chip.new ≡ D.borrow chip.old }
    ensures runs { Runs (job_plan names.now prog.entry.programs)
        (world (F.view files.old) (S.view out.old) (D.view chip.old))
        (world (F.view files.new) (S.view out.new) (D.view chip.new)) (said_of result) }
{
    let script = load_script(names.script, files, alloc)?;
    work_on_image(prog, &script, names, files, out, chip, alloc)
}
