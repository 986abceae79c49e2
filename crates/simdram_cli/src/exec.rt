//! The command `exec`.

ghost use Rattle.std.specs.Prelude.{◌≡◌};
ghost use Rattle.cli_model.specs.World.{world};
ghost use Rattle.cli_model.specs.Runs.{Runs};
ghost use Rattle.simdram_cli.specs.Exec.{exec_plan};
ghost use Rattle.simdram_cli.specs.Plans.{said_of};

use crate::completion::Completion;
use crate::job::{JobNames, do_job};
use crate::load::load;
use crate::stop::Stop;
use crate::words::{ExecNames, PROG_MAX};
use dram_model::Dram;
use host_edge::{Folder, Sink};
use std::alloc::Global;
use uprog_bin::ProgView;

/// Does SCRIPT on IMAGE with the program of PROG.
pub(crate) fn exec<'a, F: Folder, S: Sink, D: Dram>(
    names: &ExecNames<'a>,
    files: &mut F,
    out: &mut S,
    chip: &mut D,
    alloc: Global,
) -> Result<Completion, Stop<'a>>
    ensures borrow { D.borrow chip.new ≡ D.borrow chip.old }
    ensures runs { Runs (exec_plan names.now)
        (world (F.view files.old) (S.view out.old) (D.view chip.old))
        (world (F.view files.new) (S.view out.new) (D.view chip.new)) (said_of result) }
{
    let bytes = load(names.prog, PROG_MAX, files, alloc)?;
    let prog = match ProgView::open(&bytes) {
        Ok(prog) => prog,
        Err(fault) => return Err(Stop::BadProg(fault)),
    };
    let job = JobNames {
        script: names.script,
        image: names.image,
        out: names.out,
    };
    do_job(prog, &job, files, out, chip, alloc)
}
