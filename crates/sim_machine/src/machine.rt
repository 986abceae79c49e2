//! The machine.

ghost use Rattle.std.specs.Prelude.{◌≡◌, ℕ, ◌*◌, ◌<◌, ◌≤◌, ◌^◌, ◌∷◌, ◌++◌, [], length, map};
ghost use Rattle.std.specs.Prelude.{◌+◌, true, false, None, Ok, OnOk, OnErr, ◌⊎◌, IfOk, IsErrOf};
ghost use Rattle.std.specs.List.{AllByRecursion};
ghost use Rattle.host_edge.specs.Views.{Known, AppendsPart};
ghost use Rattle.faults.specs.Counts.{Rose};
ghost use Rattle.dram_model.specs.Chip.{Grew};
ghost use Rattle.transpose_unit.specs.Stopped.{StoppedWithin};
ghost use Rattle.dram_model.specs.View.{HasBegun, Kept, Did, DidRead, NotBegun};
ghost use Rattle.dram_model.specs.Elements.{FailedBelow};
ghost use Rattle.object_alloc.specs.Listed.{limit_of};
ghost use Rattle.object_alloc.specs.Reading.{rows_size, table_at};
ghost use Rattle.object_alloc.specs.Spelling.{image_bytes, table_bytes};
ghost use Rattle.bbop_isa.specs.Forms.{view_of, Load, Print};
ghost use Rattle.machine_model.specs.Agrees.{IsPlain};
ghost use Rattle.machine_model.specs.Opened.{rows_in_banks};
ghost use Rattle.machine_model.specs.Pieces.{Alone, AreBbops, Wave, piece_of};
ghost use Rattle.machine_model.specs.Refusals.{refusal};
ghost use Rattle.machine_model.specs.Report.{total_line};
ghost use Rattle.machine_model.specs.Script.{is_bbop};
ghost use Rattle.uprog_ctl.specs.Waves.{StoppedAmong};
ghost use Rattle.object_steps.specs.Lines.{DidReadAtMost};
ghost use Rattle.object_steps.specs.Objects.{LiesOn, RisesAtMost};
ghost use Rattle.sim_machine.specs.Machine.{GoesOn, IsLaidOut, banks_by, banks_read, events_by};
ghost use Rattle.sim_machine.specs.Machine.{file_of, is_print, reply_line, line_shown, lines_of};
ghost use Rattle.sim_machine.specs.Machine.{geometry_of, operations_by, queues_by};
ghost use Rattle.sim_machine.specs.Machine.{reads_by, reply_of, stepped, table_in};
ghost use Rattle.sim_machine.specs.Machine.{turn_by_piece, turn_in};
ghost use Rattle.sim_machine.specs.Opening.{IsLeftUnopened, Opened, machine_on};
ghost use Rattle.sim_machine.specs.Steps.{DidAndRead, HasRoom};

use crate::bbop::Setting;
use crate::image::read_image;
use crate::opening::{begin, make_file, make_stage};
use crate::report::{put_lines, total};
use crate::walks::WalkedProgram;
use crate::waves::do_wave;
use arrayvec::ArrayVec;
use bbop_isa::{Instr, Place};
use bit_rows::{Value, WIDTH_MAX};
use dram_model::{ChipFault, Dram, Geometry};
use host_edge::{Failed, Sink};
use machine_model::Reply;
use object_alloc::{Image, OBJECTS_MAX, Table, put_head};
use object_steps::{StepFault, load, print};
use std::alloc::Global;
use std::marker::Model;
use uprog_bin::ProgView;
use uprog_code::WALK_MAX;
use uprog_ctl::{Forward, Order};

/// A table of objects over a chip, the program that bbops run, the order in which banks take turns,
/// and all memory that a script takes.
pub struct Machine<'a> {
    pub(crate) prog: WalkedProgram<'a>,
    pub(crate) geometry: Geometry,
    pub(crate) table: Table,
    pub(crate) order: Order,
    pub(crate) stage: Vec<u64>,
    pub(crate) file: Vec<u8>,
}

impl Drop for Machine<'_> {
    fn drop(self) {
        let Machine {
            prog: _,
            geometry: _,
            table: _,
            order: _,
            stage: _,
            file: _,
        } = self;
    }
}

impl<'a> Model for Machine<'a> {
    ghost use Rattle.std.specs.Prelude.{vec_capacity};
    ghost use Rattle.sim_machine.specs.State.{State, IsReady};

    ghost Value = { State };

    ghost use Rattle.sim_machine.specs.Shown.{state_of};

    ghost view = { state_of };

    ghost invariant = { λ m. IsReady m.geometry m.table m.stage.items (vec_capacity m.file) };
}

/// Why a machine was not opened.
#[derive(Clone, Copy, PartialEq, Eq)]
pub enum StartNo {
    ChipFault,
    NoMemory,
}

impl<'a> Machine<'a> {
    /// Takes all memory that a script needs, begins the chip and gives it the image's rows, bank by
    /// bank and rows upwards. At first each pick of a wave is the first live bank.
    pub fn open<D: Dram>(
        prog: ProgView<'a>,
        image: Image<'_>,
        dram: &mut D,
        alloc: Global,
    ) -> Result<Machine<'a>, StartNo>
        requires set { LiesOn image.geometry image.table }
        requires rows { length image.rows.now ≡ rows_size image.geometry }
        ensures borrow { D.borrow dram.new ≡ D.borrow dram.old }
        ensures faults { (D.view dram.old).faults ≤ (D.view dram.new).faults }
        ensures opened { OnOk result (Opened image.entry.geometry image.entry.rows.now
            (D.view dram.new)) }
        ensures unfailed { OnOk result ((D.view dram.new).faults ≡ (D.view dram.old).faults) }
        ensures machine { IfOk result (λ machine. machine ≡ machine_on image.entry.geometry
            prog.entry.programs image.entry.table.pairs) }
        ensures failed { IsErrOf result StartNo.ChipFault
            → Rose (D.view dram.old).faults (D.view dram.new).faults }
        ensures left { IsErrOf result StartNo.ChipFault
            → IsLeftUnopened image.entry.geometry image.entry.rows.now (D.view dram.new) }
        ensures unopened { IsErrOf result StartNo.NoMemory
            → (D.view dram.new ≡ D.view dram.old) ⊎ NotBegun (D.view dram.new) }
    {
        let mut stage = make_stage(image.geometry.words, alloc)?;
        let file = make_file(image.geometry, alloc)?;
        let prog = WalkedProgram::new(prog, alloc)?;
        let row = &mut stage[..usize::from(image.geometry.words)];
        begin(image.geometry, image.rows, row, dram)?;
        Ok(Machine {
            prog,
            geometry: image.geometry,
            table: image.table,
            order: Order::First(Forward::new()),
            stage,
            file,
        })
    }

    /// Does one to sixteen bbops as one wave under the order in force, and puts their lines, of
    /// which the first has this number. It takes no memory.
    pub fn wave<D: Dram, S: Sink>(
        &mut self,
        number: u32,
        instrs: &[Instr],
        dram: &mut D,
        out: &mut S,
    ) -> Result<ArrayVec<Reply, 16>, StepFault>
        requires begun { HasBegun (D.view dram.old) }
        requires geometry { (D.view dram.old).geometry ≡ geometry_of self.old }
        requires some { 0 < length instrs.now }
        requires few { length instrs.now ≤ 16 }
        requires bbops { AreBbops (map view_of instrs.now) }
        requires plain { AllByRecursion IsPlain (map view_of instrs.now) }
        requires room { HasRoom (D.view dram.old).counters }
        ensures borrow { D.borrow dram.new ≡ D.borrow dram.old }
        ensures kept { Kept (D.view dram.old) (D.view dram.new) }
        ensures sink_faults { (S.view out.old).faults ≤ (S.view out.new).faults }
        ensures unfailed { OnOk result ((S.view out.new).faults ≡ (S.view out.old).faults) }
        ensures same { self.new ≡ record self.old { turn = turn_in self.new } }
        ensures laid { IsLaidOut self.old }
        ensures replies { IfOk result (λ replies. replies.items
            ≡ map (reply_of self.old) (map view_of instrs.now)) }
        ensures turn { OnOk result (turn_in self.new
            ≡ turn_by_piece self.old (Wave (map view_of instrs.now))) }
        ensures did { OnOk result (Did (events_by self.old (Wave (map view_of instrs.now)))
            (D.view dram.old) (D.view dram.new)) }
        ensures rises { OnOk result (RisesAtMost (256 * WALK_MAX) (D.view dram.old).counters
            (D.view dram.new).counters) }
        ensures sent { OnOk result (Known (λ before after. after
            ≡ before ++ lines_of self.old number (map view_of instrs.now))
            (S.view out.old).sent (S.view out.new).sent) }

        // Where the chip fails, the commands before that one are done, each bank but that command's
        // stands where a prefix of its queue leaves it, and nothing is put. Where the sink fails,
        // the wave was done.
        ensures chip_fault { IsErrOf result StepFault.ChipFault
            → Rose (D.view dram.old).faults (D.view dram.new).faults }
        ensures stopped { IsErrOf result StepFault.ChipFault
            → StoppedAmong (events_by self.old (Wave (map view_of instrs.now)))
            (queues_by self.old (map view_of instrs.now)) (D.view dram.old) (D.view dram.new) }
        ensures unsent { IsErrOf result StepFault.ChipFault → S.view out.new ≡ S.view out.old }
        ensures turn_unsent { IsErrOf result StepFault.WriteFault
            → turn_in self.new ≡ turn_by_piece self.old (Wave (map view_of instrs.now)) }
        ensures done { IsErrOf result StepFault.WriteFault
            → Did (events_by self.old (Wave (map view_of instrs.now))) (D.view dram.old)
            (D.view dram.new) }
        ensures write_fault { IsErrOf result StepFault.WriteFault
            → Rose (S.view out.old).faults (S.view out.new).faults }
        ensures part { IsErrOf result StepFault.WriteFault
            → Known (AppendsPart (lines_of self.old number (map view_of instrs.now)))
            (S.view out.old).sent (S.view out.new).sent }
    {
        self.prog.learn_all(instrs);
        let setting = Setting {
            geometry: self.geometry,
            table: &self.table,
            prog: &self.prog,
        };
        let replies = match do_wave(&setting, &mut self.order, instrs, dram) {
            Ok(replies) => replies,
            Err(_) => return Err(StepFault::ChipFault),
        };
        match put_lines(number, replies.as_slice(), out) {
            Ok(()) => {}
            Err(_) => return Err(StepFault::WriteFault),
        }
        Ok(replies)
    }

    /// Does one instruction, and puts its line. A bbop is a wave of one. It takes no memory.
    pub fn step<D: Dram, S: Sink>(
        &mut self,
        number: u32,
        instr: &Instr,
        dram: &mut D,
        out: &mut S,
    ) -> Result<Reply, StepFault>
        requires begun { HasBegun (D.view dram.old) }
        requires geometry { (D.view dram.old).geometry ≡ geometry_of self.old }
        requires plain { IsPlain (view_of instr.now) }
        requires room { HasRoom (D.view dram.old).counters }
        ensures borrow { D.borrow dram.new ≡ D.borrow dram.old }
        ensures kept { Kept (D.view dram.old) (D.view dram.new) }
        ensures sink_faults { (S.view out.old).faults ≤ (S.view out.new).faults }
        ensures unfailed { OnOk result ((S.view out.new).faults ≡ (S.view out.old).faults) }
        ensures goes_on { GoesOn self.old self.new }
        ensures laid { IsLaidOut self.old }
        ensures reply { IfOk result (λ reply. reply ≡ reply_of self.old (view_of instr.now)) }
        ensures machine { OnOk result (self.new ≡ stepped self.old (view_of instr.now)) }
        ensures did { OnOk result (DidAndRead (events_by self.old (piece_of (view_of instr.now)))
            (reads_by self.old (view_of instr.now)) (D.view dram.old) (D.view dram.new)) }
        ensures rises { OnOk result (RisesAtMost (16 * WALK_MAX) (D.view dram.old).counters
            (D.view dram.new).counters) }
        ensures sent { OnOk result (Known (λ before after. after
            ≡ before ++ reply_line self.old number (D.view dram.old).banks (view_of instr.now))
            (S.view out.old).sent (S.view out.new).sent) }

        // After a fault the table is as before. Where the chip fails, the banks past those of the
        // destination are as before, each bank but the failed call's stands where the events before
        // it leave it, each other bank of a bbop where a prefix of its queue does, and nothing is
        // put but of a print, whose line goes out while its rows are read.
        ensures same_table { OnErr result (self.new ≡ record self.old { turn = turn_in self.new }) }
        ensures chip_fault { IsErrOf result StepFault.ChipFault
            → FailedBelow (banks_by self.old (view_of instr.now)) (D.view dram.old)
            (D.view dram.new) }
        ensures stopped { IsErrOf result StepFault.ChipFault
            → is_bbop (view_of instr.now) ≡ true
            → StoppedAmong (events_by self.old (piece_of (view_of instr.now)))
            (queues_by self.old (view_of instr.now ∷ [])) (D.view dram.old) (D.view dram.new) }
        ensures left { IsErrOf result StepFault.ChipFault
            → StoppedWithin (banks_read self.old (view_of instr.now))
            (events_by self.old (piece_of (view_of instr.now))) (D.view dram.old).banks
            (D.view dram.new).banks }
        ensures unsent { IsErrOf result StepFault.ChipFault
            → is_print (view_of instr.now) ≡ false → S.view out.new ≡ S.view out.old }
        ensures same_turn { IsErrOf result StepFault.ChipFault
            → is_bbop (view_of instr.now) ≡ false → turn_in self.new ≡ turn_in self.old }
        // Where the sink fails, all was done, but of a print perhaps not each row was read.
        ensures turn_unsent { IsErrOf result StepFault.WriteFault
            → turn_in self.new ≡ turn_by_piece self.old (piece_of (view_of instr.now)) }
        ensures done { IsErrOf result StepFault.WriteFault
            → is_print (view_of instr.now) ≡ false
            → DidAndRead (events_by self.old (piece_of (view_of instr.now)))
            (reads_by self.old (view_of instr.now)) (D.view dram.old) (D.view dram.new) }
        ensures read { IsErrOf result StepFault.WriteFault
            → is_print (view_of instr.now) ≡ true
            → DidReadAtMost (reads_by self.old (view_of instr.now)) (D.view dram.old)
            (D.view dram.new) }
        ensures write_fault { IsErrOf result StepFault.WriteFault
            → Rose (S.view out.old).faults (S.view out.new).faults }
        ensures part { OnErr result (Known (AppendsPart
            (reply_line self.old number (D.view dram.old).banks (view_of instr.now)))
            (S.view out.old).sent (S.view out.new).sent) }
    {
        let _ = &self.geometry;
        self.step_of(number, instr, dram, out)
    }

    /// The objects. An image of this shape may have them: the bytes that spell the table are read
    /// as it.
    pub fn table(&self) -> &Table
        ensures objects { result.now.pairs ≡ table_in self.now }
        ensures limit { result.now.limit ≡ limit_of (geometry_of self.now) }
        ensures laid { IsLaidOut self.now }
        ensures read { table_at (geometry_of self.now) 0 (table_bytes (table_in self.now))
            ≡ Ok (table_in self.now) }
    {
        prove!(usize::from(self.table.len()) <= OBJECTS_MAX);
        &self.table
    }

    /// A `print` whose values are shown as another operand's. Where it is refused, the line is put
    /// by the caller. It takes no memory.
    pub fn print_as<D: Dram, S: Sink>(
        &mut self,
        number: u32,
        place: &Place,
        shown: &Place,
        dram: &mut D,
        out: &mut S,
    ) -> Result<Reply, StepFault>
        requires begun { HasBegun (D.view dram.old) }
        requires geometry { (D.view dram.old).geometry ≡ geometry_of self.old }
        requires room { (D.view dram.old).counters.reads < 2 ^ 62 + 2 ^ 60 }
        ensures borrow { D.borrow dram.new ≡ D.borrow dram.old }
        ensures kept { Kept (D.view dram.old) (D.view dram.new) }
        ensures sink_faults { (S.view out.old).faults ≤ (S.view out.new).faults }
        ensures unfailed { OnOk result ((S.view out.new).faults ≡ (S.view out.old).faults) }
        ensures same { self.new ≡ self.old }
        ensures reply { IfOk result (λ reply. reply ≡ reply_of self.old (Print place.now)) }
        ensures did { OnOk result (DidRead (reads_by self.old (Print place.now))
            (D.view dram.old) (D.view dram.new)) }
        ensures rises { OnOk result (RisesAtMost (16 * WIDTH_MAX) (D.view dram.old).counters
            (D.view dram.new).counters) }
        ensures sent { OnOk result (Known (λ before after. after ≡ before
            ++ line_shown self.old number (D.view dram.old).banks place.now shown.now)
            (S.view out.old).sent (S.view out.new).sent) }

        // After a fault the print is not refused, a prefix of the line was put, and nothing but
        // reads happened on the chip, or a read failed.
        ensures allowed { OnErr result (refusal (geometry_of self.old) (operations_by self.old)
            (table_in self.old) (Print place.now) ≡ None) }
        ensures chip_fault { IsErrOf result StepFault.ChipFault
            → FailedBelow (banks_by self.old (Print place.now)) (D.view dram.old)
            (D.view dram.new) }
        ensures left { IsErrOf result StepFault.ChipFault
            → StoppedWithin (banks_read self.old (Print place.now)) [] (D.view dram.old).banks
            (D.view dram.new).banks }
        ensures no_event { Grew (D.view dram.old).log (D.view dram.new).log [] }
        ensures read { IsErrOf result StepFault.WriteFault
            → DidReadAtMost (reads_by self.old (Print place.now)) (D.view dram.old)
            (D.view dram.new) }
        ensures write_fault { IsErrOf result StepFault.WriteFault
            → Rose (S.view out.old).faults (S.view out.new).faults }
        ensures part { OnErr result (Known (AppendsPart
            (line_shown self.old number (D.view dram.old).banks place.now shown.now))
            (S.view out.old).sent (S.view out.new).sent) }
    {
        let g = self.geometry;
        let stage = &mut self.stage;
        print(g, &self.table, number, place, shown, stage, dram, out)
    }

    /// Does a `load` of these values, and puts no line. It takes no memory.
    pub fn load_into<D: Dram>(
        &mut self,
        place: &Place,
        values: &[Value],
        dram: &mut D,
    ) -> Result<Reply, ChipFault>
        requires begun { HasBegun (D.view dram.old) }
        requires geometry { (D.view dram.old).geometry ≡ geometry_of self.old }
        requires room { (D.view dram.old).counters.writes < 2 ^ 62 + 2 ^ 60 }
        ensures borrow { D.borrow dram.new ≡ D.borrow dram.old }
        ensures kept { Kept (D.view dram.old) (D.view dram.new) }
        ensures same { self.new ≡ self.old }
        ensures reply { IfOk result (λ reply. reply
            ≡ reply_of self.old (Load place.now values.now)) }
        ensures did { OnOk result (Did (events_by self.old (Alone (Load place.now values.now)))
            (D.view dram.old) (D.view dram.new)) }
        ensures rises { OnOk result (RisesAtMost (16 * WIDTH_MAX) (D.view dram.old).counters
            (D.view dram.new).counters) }

        // Where the chip fails, the banks past those of the operand are as before, and each bank
        // but the failed write's stands where the writes before it leave it.
        ensures failed { OnErr result (FailedBelow (banks_by self.old (Load place.now values.now))
            (D.view dram.old) (D.view dram.new)) }
        ensures left { OnErr result (StoppedWithin 0
            (events_by self.old (Alone (Load place.now values.now))) (D.view dram.old).banks
            (D.view dram.new).banks) }
    {
        load(
            self.geometry,
            &self.table,
            place,
            values,
            &mut self.stage,
            dram,
        )
    }

    /// Reads every row of the chip, and spells the image file: the shape, the table and the rows.
    /// It takes no memory.
    pub fn image<D: Dram>(&mut self, dram: &mut D) -> Result<(), ChipFault>
        requires begun { HasBegun (D.view dram.old) }
        requires geometry { (D.view dram.old).geometry ≡ geometry_of self.old }
        requires room { (D.view dram.old).counters.reads < 2 ^ 62 }
        ensures borrow { D.borrow dram.new ≡ D.borrow dram.old }
        ensures kept { Kept (D.view dram.old) (D.view dram.new) }
        ensures did { OnOk result (DidRead ((geometry_of self.old).banks
            * (geometry_of self.old).rows) (D.view dram.old) (D.view dram.new)) }
        ensures file { OnOk result (file_of self.new ≡ image_bytes (geometry_of self.old)
            (table_in self.old) (rows_in_banks (D.view dram.old).banks)) }
        ensures same { self.new ≡ record self.old { file = file_of self.new } }
        ensures failed { OnErr result (Rose (D.view dram.old).faults (D.view dram.new).faults) }
        ensures left { OnErr result (StoppedWithin (geometry_of self.old).banks []
            (D.view dram.old).banks (D.view dram.new).banks) }
        ensures no_event { Grew (D.view dram.old).log (D.view dram.new).log [] }
    {
        self.file.clear();
        put_head(&mut self.file, self.geometry, &self.table);
        read_image(dram, self.geometry, &mut self.stage, &mut self.file)
    }

    /// Reads every row of the chip, and spells the image file with these objects in place of the
    /// machine's own. It takes no memory.
    pub fn image_with<D: Dram>(&mut self, table: &Table, dram: &mut D) -> Result<(), ChipFault>
        requires begun { HasBegun (D.view dram.old) }
        requires geometry { (D.view dram.old).geometry ≡ geometry_of self.old }
        requires room { (D.view dram.old).counters.reads < 2 ^ 62 }
        ensures borrow { D.borrow dram.new ≡ D.borrow dram.old }
        ensures kept { Kept (D.view dram.old) (D.view dram.new) }
        ensures did { OnOk result (DidRead ((geometry_of self.old).banks
            * (geometry_of self.old).rows) (D.view dram.old) (D.view dram.new)) }
        ensures file { OnOk result (file_of self.new ≡ image_bytes (geometry_of self.old)
            table.now.pairs (rows_in_banks (D.view dram.old).banks)) }
        ensures same { self.new ≡ record self.old { file = file_of self.new } }
        ensures failed { OnErr result (Rose (D.view dram.old).faults (D.view dram.new).faults) }
        ensures left { OnErr result (StoppedWithin (geometry_of self.old).banks []
            (D.view dram.old).banks (D.view dram.new).banks) }
        ensures no_event { Grew (D.view dram.old).log (D.view dram.new).log [] }
    {
        prove!(usize::from(table.len()) <= OBJECTS_MAX);
        self.file.clear();
        put_head(&mut self.file, self.geometry, table);
        read_image(dram, self.geometry, &mut self.stage, &mut self.file)
    }

    /// The image file that was spelled last.
    pub fn file(&self) -> &[u8]
        ensures { result.now ≡ file_of self.now }
    {
        self.file.as_slice()
    }

    /// Puts the line of the totals: the chip's counters, and how many instructions were refused.
    pub fn put_total<D: Dram, S: Sink>(
        &self,
        refused: u64,
        dram: &D,
        out: &mut S,
    ) -> Result<(), Failed>
        requires begun { HasBegun (D.view dram.now) }
        ensures faults { (S.view out.old).faults ≤ (S.view out.new).faults }
        ensures unfailed { OnOk result ((S.view out.new).faults ≡ (S.view out.old).faults) }
        ensures sent { OnOk result (Known (λ before after. after
            ≡ before ++ total_line (D.view dram.now).counters refused)
            (S.view out.old).sent (S.view out.new).sent) }
        ensures part { OnErr result (Known (AppendsPart (total_line (D.view dram.now).counters
            refused)) (S.view out.old).sent (S.view out.new).sent) }
        ensures rose { OnErr result (Rose (S.view out.old).faults (S.view out.new).faults) }
    {
        let text = total(dram.tally(), refused);
        out.put(text.as_slice())
    }
}
