//! The command `optimise`.

ghost use Rattle.std.specs.Prelude.{◌≡◌, ◌-◌, ◌/◌, ◌<◌, ◌≤◌, IfOk};
ghost use Rattle.bit_rows.specs.declared.TheConstants.{WIDTH_MAX};
ghost use Rattle.op_text.specs.Language.{operations};
ghost use Rattle.op_text.specs.Spelling.{MeetRules};
ghost use Rattle.uprog_code.specs.Programs.{IsProgram};
ghost use Rattle.dram_model.specs.View.{ChipView};
ghost use Rattle.cli_model.specs.World.{world};
ghost use Rattle.cli_model.specs.Runs.{Runs};
ghost use Rattle.simdram_cli.specs.Optimise.{IsOptimised, optimise_plan};
ghost use Rattle.simdram_cli.specs.Plans.{said_of};

use crate::completion::Completion;
use crate::load::{load, load_ops};
use crate::stop::Stop;
use crate::words::{OptimiseNames, PROG_MAX};
use faults::NoMemory;
use host_edge::{Folder, Sink};
use op_text::Ops;
use optimise_job::{Effort, report, searched_lines, with_lines};
use std::alloc::Global;
use uprog_bin::{ProgView, encode};
use uprog_gen::compile_ops;

/// How many instructions a program may have more whose file is so long: no command loads a longer
/// file than `PROG_MAX`, and an instruction takes eight bytes.
fn room_for(bytes: usize) -> usize
    ensures { result ≡ (PROG_MAX - bytes) / 8 }
{
    (PROG_MAX as usize).saturating_sub(bytes) / 8
}

/// The file of the program with what was found for its entries, and the report of it.
fn optimised(
    ops: &Ops,
    prog: &ProgView<'_>,
    n: u8,
    effort: Effort,
    room: usize,
    alloc: Global,
) -> Result<(Vec<u8>, Vec<u8>), NoMemory>
    requires meets { MeetRules (operations ops.now) }
    requires program { IsProgram prog.now.programs }
    requires some { 0 < n }
    requires narrow { n ≤ WIDTH_MAX }
    ensures { IfOk result (λ made. IsOptimised n room prog.now.programs
        (operations ops.now) made.0.items made.1.items) }
{
    let Ok(compiled) = compile_ops(ops, alloc) else {
        return Err(NoMemory);
    };
    let made = &compiled.program;
    let lines = searched_lines(prog, made, n, effort, alloc)?;
    let new = with_lines(prog, made, n, lines.as_slice(), room, alloc)?;
    let text = report(&new.program, new.outcomes.as_slice(), n, alloc)?;
    let file = encode(&new.program, alloc)?;
    Ok((file, text))
}

/// Loads OPS and PROG, stores as NEW PROG's program with what was found for its entries, and puts
/// what became of each. Nothing is refused.
pub(crate) fn optimise<'a, F: Folder, S: Sink>(
    names: &OptimiseNames<'a>,
    files: &mut F,
    out: &mut S,
    alloc: Global,
) -> Result<Completion, Stop<'a>>
    requires some { 0 < names.now.width }
    requires narrow { names.now.width ≤ WIDTH_MAX }
    ensures { (chip : ChipView) → Runs (optimise_plan names.now)
        (world (F.view files.old) (S.view out.old) chip)
        (world (F.view files.new) (S.view out.new) chip) (said_of result) }
{
    let ops = load_ops(names.ops, files, alloc)?;
    let bytes = load(names.prog, PROG_MAX, files, alloc)?;
    let prog = match ProgView::open(&bytes) {
        Ok(prog) => prog,
        Err(fault) => return Err(Stop::BadProg(fault)),
    };
    let effort = Effort {
        seed: names.seed,
        work: names.work,
    };
    let room = room_for(bytes.len());
    let Ok((file, text)) = optimised(&ops, &prog, names.width, effort, room, alloc) else {
        return Err(Stop::NoMemory);
    };
    if files.store(names.new, &file).is_err() {
        return Err(Stop::CannotWrite(names.new));
    }
    if out.put(&text).is_err() {
        return Err(Stop::PutFailed);
    }
    Ok(Completion::AllDone)
}
