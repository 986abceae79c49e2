//! The command `guard`.

ghost use Rattle.std.specs.Prelude.{◌≡◌, ◌+◌, ◌*◌, ◌-◌, ◌<◌, ◌≤◌, ◌^◌, ◌∷◌, [], length, map};
ghost use Rattle.std.specs.Prelude.{None, IfOk, IfErr, OnOk, false, true};
ghost use Rattle.std.specs.List.{AllByRecursion};
ghost use Rattle.host_edge.specs.Views.{FolderView};
ghost use Rattle.dram_model.specs.Geometry.{is_geometry};
ghost use Rattle.dram_model.specs.View.{DidRead, HasBegun, Kept, with_reads};
ghost use Rattle.object_alloc.specs.Exact.{found_in};
ghost use Rattle.object_alloc.specs.Reading.{rows_size};
ghost use Rattle.object_alloc.specs.Spelling.{IsImage, image_bytes, rows_in};
ghost use Rattle.object_steps.specs.Objects.{LiesOn};
ghost use Rattle.bbop_isa.specs.Forms.{view_of};
ghost use Rattle.machine_model.specs.Agrees.{IsPlain};
ghost use Rattle.machine_model.specs.Opened.{rows_in_banks};
ghost use Rattle.machine_model.specs.Report.{total_line};
ghost use Rattle.cli_model.specs.World.{world};
ghost use Rattle.cli_model.specs.Steps.{Goes, Put, Store};
ghost use Rattle.sim_machine.specs.Machine.{geometry_of, table_in};
ghost use Rattle.guard_model.specs.FlipText.{AreSorted, IsFlip};
ghost use Rattle.guard_model.specs.Named.{has_long_name};
ghost use Rattle.guard_model.specs.Report.{vote_line};
ghost use Rattle.guard_model.specs.Triples.{first_stranger as stranger};
ghost use Rattle.tmr_guard.specs.Steps.{machine_in};
ghost use Rattle.simdram_cli.specs.Flips.{flips_in, guarded_script_in};
ghost use Rattle.cli_model.specs.Runs.{Runs};
ghost use Rattle.simdram_cli.specs.Guard.{GuardDone, flips_plan, guard_image_plan};
ghost use Rattle.simdram_cli.specs.Guard.{guard_job as job_on, guard_job_plan, guard_plan};
ghost use Rattle.simdram_cli.specs.Guard.{work_steps};
ghost use Rattle.simdram_cli.specs.Plans.{said_of};
ghost use Rattle.simdram_cli.specs.Inputs.{image_found};
ghost use Rattle.simdram_cli.specs.Job.{reading};
ghost use Rattle.cli_model.specs.Reads.{NotRead, ReadAs};
ghost use Rattle.simdram_cli.specs.Stops.{end_of, reason_of};

use crate::completion::{Completion, completed};
use crate::job::image_stop;
use crate::lines::{Line, add, add_number};
use crate::load::{load, load_script};
use crate::perform::open;
use crate::run::{open_own, take_program};
use crate::stop::Stop;
use crate::words::{FLIPS_MAX, GuardNames, IMAGE_MAX, SCRIPT_MAX};
use crate::work::fault_stop;
use arrayvec::ArrayVec;
use bbop_isa::Instr;
use bit_rows::NoMemory;
use dram_model::{Dram, Geometry};
use guard_job::{Outcome, guard_script};
use host_edge::{Folder, Sink};
use object_alloc::{Image, read_image};
use std::alloc::Global;
use tmr_guard::{Flip, FlipsNo, Guard, first_long, first_stranger, parse_flips};
use uprog_bin::ProgView;

/// Loads SCRIPT, none of whose objects has a name of more than 15 bytes.
fn load_guarded<'a, F: Folder>(
    name: &'a str,
    files: &mut F,
    alloc: Global,
) -> Result<Vec<Instr>, Stop<'a>>
    ensures read { IfOk result (λ script. ReadAs guarded_script_in name.now SCRIPT_MAX
        (map view_of script.items) (F.view files.old) (F.view files.new)) }
    ensures plain { IfOk result (λ script. AllByRecursion IsPlain (map view_of script.items)) }
    ensures short { IfOk result (λ script. AllByRecursion (λ instr. has_long_name instr ≡ false)
        (map view_of script.items)) }
    ensures few { IfOk result (λ script. length script.items ≤ SCRIPT_MAX + 1) }
    ensures not_read { IfErr result (λ stop. NotRead guarded_script_in name.now SCRIPT_MAX
        (reason_of stop) (F.view files.old) (F.view files.new)) }
{
    let script = load_script(name, files, alloc)?;
    match first_long(&script) {
        Some(k) => Err(Stop::GuardName(k as u32)),
        None => Ok(script),
    }
}

/// Loads FLIPS, with its flips.
fn load_flips<'a, F: Folder>(
    name: &'a str,
    g: Geometry,
    instrs: u32,
    files: &mut F,
    alloc: Global,
) -> Result<Vec<Flip>, Stop<'a>>
    requires geometry { is_geometry g ≡ true }
    requires instrs { instrs < 2 ^ 32 - 1 }
    ensures read { IfOk result (λ flips. ReadAs (flips_in g instrs) name.now FLIPS_MAX flips.items
        (F.view files.old) (F.view files.new)) }
    ensures cells { IfOk result (λ flips. AllByRecursion (IsFlip g instrs) flips.items) }
    ensures sorted { IfOk result (λ flips. AreSorted 1 flips.items) }
    ensures few { IfOk result (λ flips. length flips.items ≤ FLIPS_MAX + 1) }
    ensures not_read { IfErr result (λ stop. NotRead (flips_in g instrs) name.now FLIPS_MAX
        (reason_of stop) (F.view files.old) (F.view files.new)) }
{
    let text = load(name, FLIPS_MAX, files, alloc)?;
    match parse_flips(&text, g, instrs, alloc) {
        Ok(flips) => Ok(flips),
        Err(FlipsNo::Fault(fault)) => Err(Stop::BadFlips(fault)),
        Err(FlipsNo::NoMemory) => Err(Stop::NoMemory),
    }
}

/// The words of a row.
fn row_stage(words: u16, alloc: Global) -> Result<Vec<u64>, NoMemory>
    ensures { IfOk result (λ stage. length stage.items ≡ words) }
{
    let stage = vec![in alloc; 0u64; usize::from(words)]?;
    Ok(stage)
}

/// The line of the votes' commands and of the flips.
fn vote_line(aap: u64, flips: u64) -> Line
    ensures { result.items ≡ vote_line aap flips }
{
    let mut text = ArrayVec::new();
    add(&mut text, b"vote");
    add_number(&mut text, b" aap=", aap);
    add_number(&mut text, b" flips=", flips);
    add(&mut text, b"\n");
    text
}

/// Puts the lines of the votes and of the totals.
fn put_totals<'a, S: Sink, D: Dram>(
    guard: &Guard<'_>,
    outcome: Outcome,
    flips: usize,
    out: &mut S,
    chip: &D,
) -> Result<(), Stop<'a>>
    requires begun { HasBegun (D.view chip.now) }
    ensures faults { (S.view out.old).faults ≤ (S.view out.new).faults }
    ensures goes { (files : FolderView) → Goes (Put (vote_line outcome.votes flips)
        ∷ Put (total_line (D.view chip.now).counters outcome.refused) ∷ []) (end_of result)
        (world files (S.view out.old) (D.view chip.now))
        (world files (S.view out.new) (D.view chip.now)) }
{
    let votes = vote_line(outcome.votes, flips as u64);
    if out.put(votes.as_slice()).is_err() {
        return Err(Stop::PutFailed);
    }
    if guard
        .machine()
        .put_total(outcome.refused, chip, out)
        .is_err()
    {
        return Err(Stop::PutFailed);
    }
    Ok(())
}

/// Stores the image of the chip, and puts the lines of the votes and of the totals.
fn finish_guarded<'a, F: Folder, S: Sink, D: Dram>(
    guard: &mut Guard<'_>,
    outcome: Outcome,
    flips: usize,
    name: &'a str,
    files: &mut F,
    out: &mut S,
    chip: &mut D,
) -> Result<(), Stop<'a>>
    requires begun { HasBegun (D.view chip.old) }
    requires geometry { (D.view chip.old).geometry ≡ geometry_of (machine_in guard.old) }
    requires reads { (D.view chip.old).counters.reads < 2 ^ 62 }
    ensures borrow { D.borrow chip.new ≡ D.borrow chip.old }
    ensures kept { Kept (D.view chip.old) (D.view chip.new) }
    ensures did { OnOk result (DidRead ((geometry_of (machine_in guard.old)).banks
        * (geometry_of (machine_in guard.old)).rows) (D.view chip.old) (D.view chip.new)) }
    ensures goes { Goes (reading (geometry_of (machine_in guard.old)) (D.view chip.old).banks
        ∷ Store name.now (image_bytes (geometry_of (machine_in guard.old))
        (table_in (machine_in guard.old)) (rows_in_banks (D.view chip.old).banks))
        ∷ Put (vote_line outcome.votes flips)
        ∷ Put (total_line (with_reads ((geometry_of (machine_in guard.old)).banks
        * (geometry_of (machine_in guard.old)).rows) (D.view chip.old).counters) outcome.refused)
        ∷ []) (end_of result)
        (world (F.view files.old) (S.view out.old) (D.view chip.old))
        (world (F.view files.new) (S.view out.new) (D.view chip.new)) }
{
    if guard.image(chip).is_err() {
        return Err(Stop::ChipFailed);
    }
    if files.store(name, guard.machine().file()).is_err() {
        return Err(Stop::CannotWrite(name));
    }
    put_totals(guard, outcome, flips, out, chip)
}

/// A script, and the flips among its instructions.
#[derive(Clone, Copy)]
struct Plan<'b> {
    script: &'b [Instr],
    flips: &'b [Flip],
}

/// Does a script with its flips on an image, with the operations of a program; answers how many
/// instructions were refused.
fn work_guarded<'a, F: Folder, S: Sink, D: Dram>(
    prog: ProgView<'_>,
    plan: Plan<'_>,
    image: Image<'_>,
    stage: &mut [u64],
    name: &'a str,
    files: &mut F,
    out: &mut S,
    chip: &mut D,
    alloc: Global,
) -> Result<u64, Stop<'a>>
    requires lies { LiesOn image.geometry image.table }
    requires rows { length image.rows.now ≡ rows_size image.geometry }
    requires triples { stranger image.table.pairs ≡ None }
    requires plain { AllByRecursion IsPlain (map view_of plan.script.now) }
    requires short { AllByRecursion (λ instr. has_long_name instr ≡ false)
        (map view_of plan.script.now) }
    requires few { length plan.script.now ≤ 2 ^ 25 }
    requires cells { AllByRecursion (IsFlip image.geometry (length plan.script.now))
        plan.flips.now }
    requires sorted { AreSorted 1 plan.flips.now }
    requires few_flips { length plan.flips.now ≤ 2 ^ 32 }
    requires stage { image.geometry.words ≤ length stage.old }
    ensures borrow { D.borrow chip.new ≡ D.borrow chip.old }
    ensures goes { Goes (work_steps name.now (job_on prog.entry.programs
        (map view_of plan.entry.script.now) (image_found (found_in image.entry))
        plan.entry.flips.now)) (end_of result)
        (world (F.view files.old) (S.view out.old) (D.view chip.old))
        (world (F.view files.new) (S.view out.new) (D.view chip.new)) }
    ensures done { IfOk result (GuardDone (job_on prog.entry.programs
        (map view_of plan.entry.script.now) (image_found (found_in image.entry))
        plan.entry.flips.now) (D.view chip.new)) }
{
    let machine = open(prog, image, chip, alloc)?;
    let mut guard = Guard::new(machine);
    let outcome = match guard_script(&mut guard, plan.flips, plan.script, stage, chip, out) {
        Ok(outcome) => outcome,
        Err(fault) => return Err(fault_stop(fault)),
    };
    finish_guarded(
        &mut guard,
        outcome,
        plan.flips.len(),
        name,
        files,
        out,
        chip,
    )?;
    Ok(outcome.refused)
}

/// Loads FLIPS, and does the script with them on an image.
fn work_on_flips<'a, F: Folder, S: Sink, D: Dram>(
    prog: ProgView<'_>,
    script: &[Instr],
    image: Image<'_>,
    names: &GuardNames<'a>,
    files: &mut F,
    out: &mut S,
    chip: &mut D,
    alloc: Global,
) -> Result<Completion, Stop<'a>>
    requires lies { LiesOn image.geometry image.table }
    requires rows { length image.rows.now ≡ rows_size image.geometry }
    requires is { IsImage image.geometry image.table.pairs
        (rows_in image.geometry image.rows.now) }
    requires triples { stranger image.table.pairs ≡ None }
    requires plain { AllByRecursion IsPlain (map view_of script.now) }
    requires short { AllByRecursion (λ instr. has_long_name instr ≡ false)
        (map view_of script.now) }
    requires few { length script.now ≤ SCRIPT_MAX + 1 }
    ensures borrow { D.borrow chip.new ≡ D.borrow chip.old }
    ensures runs { Runs (flips_plan names.now prog.entry.programs (map view_of script.now)
        (image_found (found_in image.entry)))
        (world (F.view files.old) (S.view out.old) (D.view chip.old))
        (world (F.view files.new) (S.view out.new) (D.view chip.new)) (said_of result) }
{
    let instrs = script.len() as u32;
    let flips = load_flips(names.flips, image.geometry, instrs, files, alloc)?;
    let Ok(mut stage) = row_stage(image.geometry.words, alloc) else {
        return Err(Stop::NoMemory);
    };
    let plan = Plan {
        script,
        flips: &flips,
    };
    completed(work_guarded(
        prog, plan, image, &mut stage, names.out, files, out, chip, alloc,
    ))
}

/// Loads IMAGE, whose objects stand in three copies, and FLIPS, and does the script on it.
fn guard_image<'a, F: Folder, S: Sink, D: Dram>(
    prog: ProgView<'_>,
    script: &[Instr],
    names: &GuardNames<'a>,
    files: &mut F,
    out: &mut S,
    chip: &mut D,
    alloc: Global,
) -> Result<Completion, Stop<'a>>
    requires plain { AllByRecursion IsPlain (map view_of script.now) }
    requires short { AllByRecursion (λ instr. has_long_name instr ≡ false)
        (map view_of script.now) }
    requires few { length script.now ≤ SCRIPT_MAX + 1 }
    ensures borrow { D.borrow chip.new ≡ D.borrow chip.old }
    ensures runs { Runs (guard_image_plan names.now prog.entry.programs (map view_of script.now))
        (world (F.view files.old) (S.view out.old) (D.view chip.old))
        (world (F.view files.new) (S.view out.new) (D.view chip.new)) (said_of result) }
{
    let bytes = load(names.image, IMAGE_MAX, files, alloc)?;
    let image = match read_image(&bytes, alloc) {
        Ok(image) => image,
        Err(no) => return Err(image_stop(no)),
    };
    match first_stranger(&image.table) {
        Some(k) => Err(Stop::GuardTable(k)),
        None => work_on_flips(prog, script, image, names, files, out, chip, alloc),
    }
}

/// Does SCRIPT on IMAGE with FLIPS and a program.
fn guard_job<'a, F: Folder, S: Sink, D: Dram>(
    prog: ProgView<'_>,
    names: &GuardNames<'a>,
    files: &mut F,
    out: &mut S,
    chip: &mut D,
    alloc: Global,
) -> Result<Completion, Stop<'a>>
    ensures borrow { D.borrow chip.new ≡ D.borrow chip.old }
    ensures runs { Runs (guard_job_plan names.now prog.entry.programs)
        (world (F.view files.old) (S.view out.old) (D.view chip.old))
        (world (F.view files.new) (S.view out.new) (D.view chip.new)) (said_of result) }
{
    let script = load_guarded(names.script, files, alloc)?;
    guard_image(prog, &script, names, files, out, chip, alloc)
}

/// Compiles OPS, stores PROG, and does SCRIPT with FLIPS on IMAGE, whose objects stand in three
/// copies, with the program that those bytes hold.
pub(crate) fn guard<'a, F: Folder, S: Sink, D: Dram>(
    names: &GuardNames<'a>,
    files: &mut F,
    out: &mut S,
    chip: &mut D,
    alloc: Global,
) -> Result<Completion, Stop<'a>>
    ensures borrow { D.borrow chip.new ≡ D.borrow chip.old }
    ensures runs { Runs (guard_plan names.now)
        (world (F.view files.old) (S.view out.old) (D.view chip.old))
        (world (F.view files.new) (S.view out.new) (D.view chip.new)) (said_of result) }
{
    let (_, file) = take_program(names.ops, names.prog, files, alloc)?;
    guard_job(open_own(&file), names, files, out, chip, alloc)
}
