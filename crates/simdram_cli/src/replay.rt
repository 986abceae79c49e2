//! The command `replay`.

ghost use Rattle.std.specs.Prelude.{◌≡◌, ◌∷◌, [], IfOk, OnOk, length};
ghost use Rattle.dram_model.specs.View.{ChipView, HasBegun};
ghost use Rattle.host_edge.specs.Views.{FolderView, SinkView};
ghost use Rattle.object_alloc.specs.Exact.{found_in};
ghost use Rattle.object_alloc.specs.Reading.{rows_size};
ghost use Rattle.object_steps.specs.Objects.{LiesOn};
ghost use Rattle.sim_machine.specs.Machine.{file_of};
ghost use Rattle.cli_model.specs.World.{world};
ghost use Rattle.cli_model.specs.Steps.{Goes, Store, Put};
ghost use Rattle.simdram_cli.specs.Inputs.{image_found};
ghost use Rattle.cli_model.specs.Runs.{Runs};
ghost use Rattle.simdram_cli.specs.Plans.{said_of};
ghost use Rattle.simdram_cli.specs.Replay.{EventsDone, events_plan, image_replayed};
ghost use Rattle.simdram_cli.specs.Replay.{replay_image_plan, replay_line, replay_plan};
ghost use Rattle.simdram_cli.specs.Replay.{replay_steps};
ghost use Rattle.simdram_cli.specs.Stops.{end_of, reason_of, trace_reason};

use crate::completion::Completion;
use crate::job::image_stop;
use crate::lines::{Line, add, add_number};
use crate::load::load;
use crate::perform::open;
use crate::run::open_own;
use crate::stop::Stop;
use crate::words::{IMAGE_MAX, ReplayNames, TRACE_MAX};
use arrayvec::ArrayVec;
use cmd_trace::{TraceNo, TraceView, replay_events};
use dram_model::{Counters, Dram};
use host_edge::{Folder, Sink};
use object_alloc::{Image, read_image};
use sim_machine::Machine;
use std::alloc::Global;
use uprog_bin::ProgView;

/// The file of a program without entries, since a replay runs none.
const NO_PROGRAM: &[u8] = b"SDMP\x02\x00\x00\x00";

/// Why a command stops at a trace that is not read.
fn trace_stop<'a>(no: TraceNo) -> Stop<'a>
    ensures { reason_of result ≡ trace_reason no }
{
    match no {
        TraceNo::Fault(fault) => Stop::BadTrace(fault),
        TraceNo::NoMemory => Stop::NoMemory,
    }
}

/// The line of a chip's counters.
fn replay_line(counters: Counters) -> Line
    ensures { result.items ≡ replay_line counters }
{
    let mut text = ArrayVec::new();
    add(&mut text, b"replay");
    add_number(&mut text, b" aap=", counters.aap);
    add_number(&mut text, b" ap=", counters.ap);
    add_number(&mut text, b" writes=", counters.writes);
    add_number(&mut text, b" reads=", counters.reads);
    add(&mut text, b"\n");
    text
}

/// Opens a machine on an image, does a trace's events on its chip, and reads all rows into the file
/// of the trace's objects.
fn replay_rows<'a, 'p, D: Dram>(
    prog: ProgView<'p>,
    trace: &TraceView<'_>,
    image: Image<'_>,
    chip: &mut D,
    alloc: Global,
) -> Result<Machine<'p>, Stop<'a>>
    requires lies { LiesOn image.geometry image.table }
    requires rows { length image.rows.now ≡ rows_size image.geometry }
    requires same { image.geometry ≡ trace.now.geometry }
    ensures borrow { D.borrow chip.new ≡ D.borrow chip.old }
    ensures begun { OnOk result (HasBegun (D.view chip.new)) }
    ensures done { OnOk result (EventsDone trace.now (image_found (found_in image.entry))
        (D.view chip.new)) }
    ensures file { IfOk result (λ machine. file_of machine
        ≡ image_replayed trace.now (image_found (found_in image.entry))) }
    ensures goes { (files : FolderView) (sink : SinkView) → Goes (replay_steps
        trace.now (image_found (found_in image.entry)))
        (end_of result) (world files sink (D.view chip.old)) (world files sink (D.view chip.new)) }
{
    let mut machine = open(prog, image, chip, alloc)?;
    if replay_events(trace, chip).is_err() {
        return Err(Stop::ChipFailed);
    }
    if machine.image_with(trace.table(), chip).is_err() {
        return Err(Stop::ChipFailed);
    }
    Ok(machine)
}

/// Stores the file, and puts the line of the counters.
fn finish<'a, F: Folder, S: Sink>(
    file: &[u8],
    counters: Counters,
    name: &'a str,
    files: &mut F,
    out: &mut S,
) -> Result<(), Stop<'a>>
    ensures { (chip : ChipView) → Goes (Store name.now file.now ∷ Put (replay_line counters) ∷ [])
        (end_of result) (world (F.view files.old) (S.view out.old) chip)
        (world (F.view files.new) (S.view out.new) chip) }
{
    if files.store(name, file).is_err() {
        return Err(Stop::CannotWrite(name));
    }
    let line = replay_line(counters);
    if out.put(line.as_slice()).is_err() {
        return Err(Stop::PutFailed);
    }
    Ok(())
}

/// Does a trace's events on an image of its geometry, stores the image after them, and puts how
/// many commands the chip did. Nothing is refused.
fn replay_on<'a, F: Folder, S: Sink, D: Dram>(
    trace: &TraceView<'_>,
    image: Image<'_>,
    name: &'a str,
    files: &mut F,
    out: &mut S,
    chip: &mut D,
    alloc: Global,
) -> Result<Completion, Stop<'a>>
    requires lies { LiesOn image.geometry image.table }
    requires rows { length image.rows.now ≡ rows_size image.geometry }
    requires same { image.geometry ≡ trace.now.geometry }
    ensures borrow { D.borrow chip.new ≡ D.borrow chip.old }
    ensures runs { Runs (events_plan name.now trace.now (image_found (found_in image.entry)))
        (world (F.view files.old) (S.view out.old) (D.view chip.old))
        (world (F.view files.new) (S.view out.new) (D.view chip.new)) (said_of result) }
{
    let prog = open_own(NO_PROGRAM);
    let machine = replay_rows(prog, trace, image, chip, alloc)?;
    finish(machine.file(), chip.tally(), name, files, out)?;
    Ok(Completion::AllDone)
}

/// Loads IMAGE, and does a trace's events on it where it has the trace's geometry.
fn replay_on_image<'a, F: Folder, S: Sink, D: Dram>(
    trace: &TraceView<'_>,
    names: &ReplayNames<'a>,
    files: &mut F,
    out: &mut S,
    chip: &mut D,
    alloc: Global,
) -> Result<Completion, Stop<'a>>
    ensures borrow { D.borrow chip.new ≡ D.borrow chip.old }
    ensures runs { Runs (replay_image_plan names.now trace.now)
        (world (F.view files.old) (S.view out.old) (D.view chip.old))
        (world (F.view files.new) (S.view out.new) (D.view chip.new)) (said_of result) }
{
    let bytes = load(names.image, IMAGE_MAX, files, alloc)?;
    let image = match read_image(&bytes, alloc) {
        Ok(image) => image,
        Err(no) => return Err(image_stop(no)),
    };
    if image.geometry != trace.geometry() {
        return Err(Stop::GeometryDiffers);
    }
    replay_on(trace, image, names.out, files, out, chip, alloc)
}

/// Does the events of TRACE on IMAGE, stores the image after them as OUT, and puts how many
/// commands the chip did. Nothing is refused.
pub(crate) fn replay<'a, F: Folder, S: Sink, D: Dram>(
    names: &ReplayNames<'a>,
    files: &mut F,
    out: &mut S,
    chip: &mut D,
    alloc: Global,
) -> Result<Completion, Stop<'a>>
    ensures borrow { D.borrow chip.new ≡ D.borrow chip.old }
    ensures runs { Runs (replay_plan names.now)
        (world (F.view files.old) (S.view out.old) (D.view chip.old))
        (world (F.view files.new) (S.view out.new) (D.view chip.new)) (said_of result) }
{
    let bytes = load(names.trace, TRACE_MAX, files, alloc)?;
    let trace = match TraceView::open(&bytes, alloc) {
        Ok(trace) => trace,
        Err(no) => return Err(trace_stop(no)),
    };
    replay_on_image(&trace, names, files, out, chip, alloc)
}
