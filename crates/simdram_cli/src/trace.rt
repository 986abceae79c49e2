//! The command `trace`.

ghost use Rattle.std.specs.Prelude.{◌≡◌, ◌+◌, ◌<◌, ◌≤◌, ◌^◌, length, map, OnOk};
ghost use Rattle.std.specs.List.{AllByRecursion};
ghost use Rattle.dram_model.specs.View.{HasBegun};
ghost use Rattle.object_alloc.specs.Exact.{found_in};
ghost use Rattle.object_alloc.specs.Reading.{rows_size};
ghost use Rattle.object_steps.specs.Objects.{LiesOn};
ghost use Rattle.uprog_code.specs.Programs.{IsProgram};
ghost use Rattle.bbop_isa.specs.Forms.{view_of};
ghost use Rattle.machine_model.specs.Agrees.{IsPlain};
ghost use Rattle.machine_model.specs.Opened.{Image as ImageOf};
ghost use Rattle.machine_model.specs.Routines.{Program};
ghost use Rattle.cli_model.specs.World.{world};
ghost use Rattle.sim_machine.specs.Machine.{geometry_of};
ghost use Rattle.simdram_cli.specs.Inputs.{image_found};
ghost use Rattle.cli_model.specs.Runs.{Runs};
ghost use Rattle.simdram_cli.specs.Plans.{said_of};
ghost use Rattle.simdram_cli.specs.Tracing.{OpensOn, ScriptRecorded, ScriptTraced};
ghost use Rattle.simdram_cli.specs.Tracing.{trace_image_plan, trace_job_plan, trace_plan};

use crate::completion::{Completion, completed};
use crate::job::image_stop;
use crate::load::{load, load_script};
use crate::perform::{open, work_to_image};
use crate::stop::Stop;
use crate::words::{IMAGE_MAX, PROG_MAX, SCRIPT_MAX, TraceNames};
use bbop_isa::Instr;
use cmd_trace::{Recorder, Room};
use dram_model::Dram;
use host_edge::{Folder, Sink};
use object_alloc::{Image, read_image};
use sim_machine::Machine;
use std::alloc::Global;
use trace_job::spell_trace;
use uprog_bin::ProgView;

/// Does a script over a recorder on the chip, stores the image after it, and then the trace of what
/// the recorder saw, where it kept all; answers how many instructions were refused.
fn record_script<'a, F: Folder, S: Sink, D: Dram>(
    machine: &mut Machine<'_>,
    script: &[Instr],
    names: &TraceNames<'a>,
    files: &mut F,
    out: &mut S,
    chip: &mut D,
    room: &mut Room,
) -> Result<u64, Stop<'a>>
    requires begun { HasBegun (D.view chip.old) }
    requires geometry { (D.view chip.old).geometry ≡ geometry_of machine.old }
    requires plain { AllByRecursion IsPlain (map view_of script.now) }
    requires few { length script.now ≤ 2 ^ 25 }
    requires aap_none { (D.view chip.old).counters.aap ≡ 0 }
    requires ap_none { (D.view chip.old).counters.ap ≡ 0 }
    requires few_writes { (D.view chip.old).counters.writes ≤ 2 ^ 60 }
    requires reads_none { (D.view chip.old).counters.reads ≡ 0 }
    ensures borrow { D.borrow chip.new ≡ D.borrow chip.old }
    ensures begun { OnOk result (HasBegun (D.view chip.new)) }
    ensures recorded { (program : Program) (i : ImageOf)
        → OpensOn program i machine.old (D.view chip.old)
        → ScriptRecorded names.now program (map view_of script.now) i
        (world (F.view files.old) (S.view out.old) (D.view chip.old))
        (world (F.view files.new) (S.view out.new) (D.view chip.new)) result }
{
    let mut recorder = Recorder::new(chip, room);
    recorder.mark();
    let refused = work_to_image(machine, script, names.out, files, out, &mut recorder)?;
    if !spell_trace(&mut recorder, machine.table()) {
        return Err(Stop::TraceFull);
    }
    if files.store(names.trace, recorder.trace_file()).is_err() {
        return Err(Stop::CannotWrite(names.trace));
    }
    Ok(refused)
}

/// Does a script on an image over a recorder, stores the trace of what it saw, and puts the line of
/// the totals.
fn trace_script<'a, F: Folder, S: Sink, D: Dram>(
    prog: ProgView<'_>,
    script: &[Instr],
    image: Image<'_>,
    names: &TraceNames<'a>,
    files: &mut F,
    out: &mut S,
    chip: &mut D,
    alloc: Global,
) -> Result<u64, Stop<'a>>
    requires legal { IsProgram prog.programs }
    requires lies { LiesOn image.geometry image.table }
    requires rows { length image.rows.now ≡ rows_size image.geometry }
    requires plain { AllByRecursion IsPlain (map view_of script.now) }
    requires few { length script.now ≤ 2 ^ 25 }
    ensures borrow { D.borrow chip.new ≡ D.borrow chip.old }
    ensures traced { ScriptTraced names.now prog.entry.programs (map view_of script.now)
        (image_found (found_in image.entry))
        (world (F.view files.old) (S.view out.old) (D.view chip.old))
        (world (F.view files.new) (S.view out.new) (D.view chip.new)) result }
{
    let Ok(mut room) = Room::new(alloc) else {
        return Err(Stop::NoMemory);
    };
    let mut machine = open(prog, image, chip, alloc)?;
    let refused = record_script(&mut machine, script, names, files, out, chip, &mut room)?;
    if machine.put_total(refused, chip, out).is_err() {
        return Err(Stop::PutFailed);
    }
    Ok(refused)
}

/// Loads IMAGE, and does the script on it over a recorder.
fn trace_image<'a, F: Folder, S: Sink, D: Dram>(
    prog: ProgView<'_>,
    script: &[Instr],
    names: &TraceNames<'a>,
    files: &mut F,
    out: &mut S,
    chip: &mut D,
    alloc: Global,
) -> Result<Completion, Stop<'a>>
    requires legal { IsProgram prog.programs }
    requires plain { AllByRecursion IsPlain (map view_of script.now) }
    requires few { length script.now ≤ SCRIPT_MAX + 1 }
    ensures borrow { D.borrow chip.new ≡ D.borrow chip.old }
    ensures runs { Runs (trace_image_plan names.now prog.entry.programs (map view_of script.now))
        (world (F.view files.old) (S.view out.old) (D.view chip.old))
        (world (F.view files.new) (S.view out.new) (D.view chip.new)) (said_of result) }
{
    let bytes = load(names.image, IMAGE_MAX, files, alloc)?;
    let image = match read_image(&bytes, alloc) {
        Ok(image) => image,
        Err(no) => return Err(image_stop(no)),
    };
    completed(trace_script(prog, script, image, names, files, out, chip, alloc))
}

/// Loads SCRIPT, and does it on IMAGE over a recorder.
fn trace_with<'a, F: Folder, S: Sink, D: Dram>(
    prog: ProgView<'_>,
    names: &TraceNames<'a>,
    files: &mut F,
    out: &mut S,
    chip: &mut D,
    alloc: Global,
) -> Result<Completion, Stop<'a>>
    requires legal { IsProgram prog.programs }
    ensures borrow { D.borrow chip.new ≡ D.borrow chip.old }
    ensures runs { Runs (trace_job_plan names.now prog.entry.programs)
        (world (F.view files.old) (S.view out.old) (D.view chip.old))
        (world (F.view files.new) (S.view out.new) (D.view chip.new)) (said_of result) }
{
    let script = load_script(names.script, files, alloc)?;
    trace_image(prog, &script, names, files, out, chip, alloc)
}

/// Does SCRIPT on IMAGE with the program of PROG, and stores the trace of its events.
pub(crate) fn trace<'a, F: Folder, S: Sink, D: Dram>(
    names: &TraceNames<'a>,
    files: &mut F,
    out: &mut S,
    chip: &mut D,
    alloc: Global,
) -> Result<Completion, Stop<'a>>
    ensures borrow { D.borrow chip.new ≡ D.borrow chip.old }
    ensures runs { Runs (trace_plan names.now)
        (world (F.view files.old) (S.view out.old) (D.view chip.old))
        (world (F.view files.new) (S.view out.new) (D.view chip.new)) (said_of result) }
{
    let bytes = load(names.prog, PROG_MAX, files, alloc)?;
    let prog = match ProgView::open(&bytes) {
        Ok(prog) => prog,
        Err(fault) => return Err(Stop::BadProg(fault)),
    };
    trace_with(prog, names, files, out, chip, alloc)
}
