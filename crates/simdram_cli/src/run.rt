//! The command `run`.

ghost use Rattle.std.specs.Prelude.{◌≡◌, List, map, IfOk, IfErr};
ghost use Rattle.uprog_code.specs.Shape.{Microprogram, microprograms_of};
ghost use Rattle.uprog_code.specs.Programs.{IsProgram};
ghost use Rattle.uprog_code.specs.Texts.{ImplementsAll, text_op};
ghost use Rattle.uprog_gen.specs.Totals.{AreExact};
ghost use Rattle.uprog_bin.specs.Opened.{IsProgramFile};
ghost use Rattle.uprog_bin.specs.Spelling.{program_bytes};
ghost use Rattle.op_text.specs.Language.{operations};
ghost use Rattle.op_text.specs.Spelling.{MeetRules};
ghost use Rattle.cli_model.specs.World.{world};
ghost use Rattle.cli_model.specs.Steps.{Done};
ghost use Rattle.simdram_cli.specs.Accepted.{IsTaken};
ghost use Rattle.simdram_cli.specs.Ends.{GoesToStore, ProgramStopped, ProgramTaken};
ghost use Rattle.simdram_cli.specs.Ends.{StopsAtStore};
ghost use Rattle.cli_model.specs.Runs.{Runs};
ghost use Rattle.simdram_cli.specs.Plans.{said_of};
ghost use Rattle.simdram_cli.specs.Run.{run_plan};
ghost use Rattle.simdram_cli.specs.Stops.{reason_of};

use crate::completion::Completion;
use crate::job::{JobNames, do_job};
use crate::load::load_ops;
use crate::stop::Stop;
use crate::words::RunNames;
use bit_rows::NoMemory;
use dram_model::Dram;
use host_edge::{Folder, Sink};
use op_text::Ops;
use std::alloc::Global;
use uprog_bin::{ProgView, encode};
use uprog_code::Program;
use uprog_gen::compile_ops;

/// The program of ops and its file, where there is memory.
pub(crate) fn compile(ops: &Ops, alloc: Global) -> Result<(Program, Vec<u8>), NoMemory>
    requires meets { MeetRules (operations ops.now) }
    ensures implements { IfOk result (λ made. ImplementsAll (microprograms_of made.0)
        (map text_op (operations ops.now))) }
    ensures program { IfOk result (λ made. IsProgram (microprograms_of made.0)) }
    ensures exact { IfOk result (λ made. AreExact (microprograms_of made.0)
        (operations ops.now)) }
    ensures taken { IfOk result (λ made. IsTaken (program_bytes 2 (microprograms_of made.0))
        (microprograms_of made.0)) }
    ensures file { IfOk result (λ made. made.1.items ≡ program_bytes 2 (microprograms_of made.0)) }
{
    let Ok(compiled) = compile_ops(ops, alloc) else {
        return Err(NoMemory);
    };
    let program = compiled.program;
    let file = encode(&program, alloc)?;
    Ok((program, file))
}

/// Compiles ops, and stores PROG; answers the program, and the bytes that were stored.
fn write_program<'a, F: Folder>(
    ops: &Ops,
    name: &'a str,
    files: &mut F,
    alloc: Global,
) -> Result<(Program, Vec<u8>), Stop<'a>>
    requires meets { MeetRules (operations ops.now) }
    ensures implements { IfOk result (λ made. ImplementsAll (microprograms_of made.0)
        (map text_op (operations ops.now))) }
    ensures program { IfOk result (λ made. IsProgram (microprograms_of made.0)) }
    ensures exact { IfOk result (λ made. AreExact (microprograms_of made.0)
        (operations ops.now)) }
    ensures taken { IfOk result (λ made. IsTaken (program_bytes 2 (microprograms_of made.0))
        (microprograms_of made.0)) }
    ensures file { IfOk result (λ made. made.1.items ≡ program_bytes 2 (microprograms_of made.0)) }
    ensures goes { IfOk result (λ made. GoesToStore name.now (microprograms_of made.0) Done
        (F.view files.old) (F.view files.new)) }
    ensures stops { IfErr result (λ stop. StopsAtStore name.now (reason_of stop) (F.view files.old)
        (F.view files.new)) }
{
    let Ok((program, file)) = compile(ops, alloc) else {
        return Err(Stop::NoMemory);
    };
    if files.store(name, &file).is_err() {
        return Err(Stop::CannotWrite(name));
    }
    Ok((program, file))
}

/// Loads OPS, and stores PROG; answers the program, and the bytes that were stored.
pub(crate) fn take_program<'a, F: Folder>(
    ops: &'a str,
    prog: &'a str,
    files: &mut F,
    alloc: Global,
) -> Result<(Program, Vec<u8>), Stop<'a>>
    ensures program { IfOk result (λ made. IsProgram (microprograms_of made.0)) }
    ensures file { IfOk result (λ made. made.1.items ≡ program_bytes 2 (microprograms_of made.0)) }
    ensures taken { IfOk result (λ made. ProgramTaken ops.now prog.now (microprograms_of made.0)
        (F.view files.old) (F.view files.new)) }
    ensures stopped { IfErr result (λ stop. ProgramStopped ops.now prog.now (reason_of stop)
        (F.view files.old) (F.view files.new)) }
{
    let ops = load_ops(ops, files, alloc)?;
    write_program(&ops, prog, files, alloc)
}

/// The program that a file holds, which was spelled from it.
pub(crate) fn open_own(file: &[u8]) -> ProgView<'_>
    requires { IsProgramFile file.now }
    ensures program { IsProgram result.programs }
    ensures spelled { (programs : List Microprogram) → IsProgram programs
        → file.now ≡ program_bytes 2 programs → result.programs ≡ programs }
{
    match ProgView::open(file) {
        Ok(prog) => prog,
        Err(_) => unreachable!(),
    }
}

/// Compiles OPS, stores PROG, and does SCRIPT on IMAGE with the program that those bytes hold.
pub(crate) fn run<'a, F: Folder, S: Sink, D: Dram>(
    names: &RunNames<'a>,
    files: &mut F,
    out: &mut S,
    chip: &mut D,
    alloc: Global,
) -> Result<Completion, Stop<'a>>
    ensures borrow { D.borrow chip.new ≡ D.borrow chip.old }
    ensures runs { Runs (run_plan names.now)
        (world (F.view files.old) (S.view out.old) (D.view chip.old))
        (world (F.view files.new) (S.view out.new) (D.view chip.new)) (said_of result) }
{
    let (_, file) = take_program(names.ops, names.prog, files, alloc)?;
    let job = JobNames {
        script: names.script,
        image: names.image,
        out: names.out,
    };
    do_job(open_own(&file), &job, files, out, chip, alloc)
}
