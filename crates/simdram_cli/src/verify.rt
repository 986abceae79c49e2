//! The command `verify`.

ghost use Rattle.std.specs.Prelude.{IfOk};
ghost use Rattle.op_text.specs.Language.{operations};
ghost use Rattle.op_text.specs.Spelling.{MeetRules};
ghost use Rattle.prog_text.specs.Widths.{AreWidths};
ghost use Rattle.dram_model.specs.View.{ChipView};
ghost use Rattle.cli_model.specs.World.{world};
ghost use Rattle.cli_model.specs.Runs.{Runs};
ghost use Rattle.simdram_cli.specs.Plans.{said_of};
ghost use Rattle.simdram_cli.specs.Verify.{IsReport, verify_plan};

use crate::completion::Completion;
use crate::load::{load, load_ops};
use crate::stop::Stop;
use crate::words::{PROG_MAX, VerifyNames};
use faults::NoMemory;
use host_edge::{Folder, Sink};
use op_text::Ops;
use std::alloc::Global;
use uprog_bin::ProgView;
use uprog_gen::compile_ops;
use verify_job::{report, status, verify_all};

/// The report of what is found of the entries of ops, and the status.
fn verified(
    ops: &Ops,
    prog: &ProgView<'_>,
    widths: &[u8],
    alloc: Global,
) -> Result<(Vec<u8>, u8), NoMemory>
    requires meets { MeetRules (operations ops.now) }
    requires widths { AreWidths widths.now }
    ensures { IfOk result (λ made. IsReport widths.now prog.now.programs (operations ops.now)
        made.0.items made.1) }
{
    let Ok(compiled) = compile_ops(ops, alloc) else {
        return Err(NoMemory);
    };
    let found = verify_all(&compiled.program, prog, widths, alloc)?;
    let text = report(ops, widths, found.as_slice(), alloc)?;
    Ok((text, status(found.as_slice())))
}

/// Loads OPS and PROG, and puts what is found of PROG's entries.
pub(crate) fn verify<'a, F: Folder, S: Sink>(
    names: &VerifyNames<'a>,
    files: &mut F,
    out: &mut S,
    alloc: Global,
) -> Result<Completion, Stop<'a>>
    requires { AreWidths names.now.widths.items }
    ensures { (chip : ChipView) → Runs (verify_plan names.now)
        (world (F.view files.old) (S.view out.old) chip)
        (world (F.view files.new) (S.view out.new) chip) (said_of result) }
{
    let ops = load_ops(names.ops, files, alloc)?;
    let bytes = load(names.prog, PROG_MAX, files, alloc)?;
    let prog = match ProgView::open(&bytes) {
        Ok(prog) => prog,
        Err(fault) => return Err(Stop::BadProg(fault)),
    };
    let Ok((text, status)) = verified(&ops, &prog, names.widths.as_slice(), alloc) else {
        return Err(Stop::NoMemory);
    };
    if out.put(&text).is_err() {
        return Err(Stop::PutFailed);
    }
    Ok(Completion::Found(status))
}
