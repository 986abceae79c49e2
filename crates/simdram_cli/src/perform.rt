//! A script is done on an image, on a chip.

ghost use Rattle.std.specs.Prelude.{◌≡◌, ◌+◌, ◌<◌, ◌≤◌, ◌^◌, ◌++◌, ◌∷◌, [], length, map, IfOk};
ghost use Rattle.std.specs.Prelude.{OnOk, count_by};
ghost use Rattle.std.specs.List.{AllByRecursion};
ghost use Rattle.host_edge.specs.Views.{FolderView, SinkView};
ghost use Rattle.dram_model.specs.View.{HasBegun, Kept};
ghost use Rattle.object_alloc.specs.Exact.{found_in};
ghost use Rattle.object_alloc.specs.Reading.{rows_size};
ghost use Rattle.bbop_isa.specs.Forms.{view_of};
ghost use Rattle.machine_model.specs.Agrees.{IsPlain};
ghost use Rattle.machine_model.specs.Script.{is_refused, replies, table_at_end};
ghost use Rattle.cli_model.specs.World.{world};
ghost use Rattle.cli_model.specs.Steps.{Goes, Store};
ghost use Rattle.object_steps.specs.Objects.{LiesOn};
ghost use Rattle.sim_machine.specs.Machine.{geometry_of, operations_by, table_in};
ghost use Rattle.sim_machine.specs.Steps.{DidAndRead};
ghost use Rattle.sim_machine.specs.Opening.{machine_on};
ghost use Rattle.simdram_cli.specs.Inputs.{image_found};
ghost use Rattle.simdram_cli.specs.Job.{opening, work_steps};
ghost use Rattle.simdram_cli.specs.Stops.{end_of};
ghost use Rattle.simdram_cli.specs.Tracing.{events_on, image_on, reading_on, reads_on, steps_on};
ghost use Rattle.simdram_cli.specs.Works.{OpenedOn, WorkDone};

use crate::stop::Stop;
use crate::work::work;
use bbop_isa::Instr;
use dram_model::Dram;
use host_edge::{Folder, Sink};
use object_alloc::Image;
use sim_machine::{Machine, StartNo};
use std::alloc::Global;
use uprog_bin::ProgView;

/// Opens the machine on an image.
pub(crate) fn open<'a, 'p, D: Dram>(
    prog: ProgView<'p>,
    image: Image<'_>,
    chip: &mut D,
    alloc: Global,
) -> Result<Machine<'p>, Stop<'a>>
    requires lies { LiesOn image.geometry image.table }
    requires rows { length image.rows.now ≡ rows_size image.geometry }
    ensures borrow { D.borrow chip.new ≡ D.borrow chip.old }
    ensures opened { OnOk result (OpenedOn (image_found (found_in image.entry)) (D.view chip.new)) }
    ensures machine { IfOk result (λ machine. machine ≡ machine_on image.entry.geometry
        prog.entry.programs image.entry.table.pairs) }
    ensures goes { (files : FolderView) (sink : SinkView) → Goes (opening
        (image_found (found_in image.entry)) ∷ []) (end_of result)
        (world files sink (D.view chip.old)) (world files sink (D.view chip.new)) }
{
    match Machine::open(prog, image, chip, alloc) {
        Ok(machine) => Ok(machine),
        Err(StartNo::ChipFault) => Err(Stop::ChipFailed),
        Err(StartNo::NoMemory) => Err(Stop::NoMemory),
    }
}

/// Does a script, and stores the image after it; answers how many instructions were refused.
pub(crate) fn work_to_image<'a, F: Folder, S: Sink, D: Dram>(
    machine: &mut Machine<'_>,
    script: &[Instr],
    name: &'a str,
    files: &mut F,
    out: &mut S,
    chip: &mut D,
) -> Result<u64, Stop<'a>>
    requires begun { HasBegun (D.view chip.old) }
    requires geometry { (D.view chip.old).geometry ≡ geometry_of machine.old }
    requires plain { AllByRecursion IsPlain (map view_of script.now) }
    requires few { length script.now ≤ 2 ^ 25 }
    requires aap_none { (D.view chip.old).counters.aap ≡ 0 }
    requires ap_none { (D.view chip.old).counters.ap ≡ 0 }
    requires few_writes { (D.view chip.old).counters.writes ≤ 2 ^ 60 }
    requires reads_none { (D.view chip.old).counters.reads ≡ 0 }
    ensures borrow { D.borrow chip.new ≡ D.borrow chip.old }
    ensures kept { Kept (D.view chip.old) (D.view chip.new) }
    ensures table { IfOk result (λ refused. table_in machine.new ≡ table_at_end
        (geometry_of machine.old) (operations_by machine.old) (table_in machine.old)
        (map view_of script.now)) }
    ensures did { IfOk result (λ refused. DidAndRead
        (events_on machine.old (map view_of script.now))
        (reads_on machine.old (map view_of script.now)) (D.view chip.old) (D.view chip.new)) }
    ensures refused { IfOk result (λ refused. refused
        ≡ count_by is_refused (replies (geometry_of machine.old) (operations_by machine.old)
        (table_in machine.old) (map view_of script.now))) }
    ensures goes { Goes (steps_on machine.old (D.view chip.old).banks (map view_of script.now)
        ++ (reading_on machine.old (D.view chip.old).banks (map view_of script.now)
        ∷ Store name.now (image_on machine.old (D.view chip.old).banks
        (map view_of script.now)) ∷ [])) (end_of result)
        (world (F.view files.old) (S.view out.old) (D.view chip.old))
        (world (F.view files.new) (S.view out.new) (D.view chip.new)) }
{
    let refused = work(machine, script, chip, out)?;
    if machine.image(chip).is_err() {
        return Err(Stop::ChipFailed);
    }
    if files.store(name, machine.file()).is_err() {
        return Err(Stop::CannotWrite(name));
    }
    Ok(refused)
}

/// Does a script on an image with the operations of a program; answers how many instructions were
/// refused.
pub(crate) fn perform<'a, F: Folder, S: Sink, D: Dram>(
    prog: ProgView<'_>,
    script: &[Instr],
    image: Image<'_>,
    name: &'a str,
    files: &mut F,
    out: &mut S,
    chip: &mut D,
    alloc: Global,
) -> Result<u64, Stop<'a>>
    requires lies { LiesOn image.geometry image.table }
    requires rows { length image.rows.now ≡ rows_size image.geometry }
    requires plain { AllByRecursion IsPlain (map view_of script.now) }
    requires few { length script.now ≤ 2 ^ 25 }
    ensures borrow { D.borrow chip.new ≡ D.borrow chip.old }
    ensures goes { Goes (work_steps name.now prog.entry.programs (map view_of script.now)
        (image_found (found_in image.entry))) (end_of result)
        (world (F.view files.old) (S.view out.old) (D.view chip.old))
        (world (F.view files.new) (S.view out.new) (D.view chip.new)) }
    ensures done { IfOk result (WorkDone prog.entry.programs (map view_of script.now)
        (image_found (found_in image.entry)) (D.view chip.new)) }
{
    let mut machine = open(prog, image, chip, alloc)?;
    let refused = work_to_image(&mut machine, script, name, files, out, chip)?;
    if machine.put_total(refused, chip, out).is_err() {
        return Err(Stop::PutFailed);
    }
    Ok(refused)
}
