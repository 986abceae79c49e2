//! An object's values, as text.

ghost use Rattle.std.specs.Prelude.{◌≡◌, ℕ, ◌+◌, ◌-◌, ◌*◌, ◌/◌, ◌<◌, ◌≤◌, ◌^◌, ◌++◌, [], min, map};
ghost use Rattle.std.specs.Prelude.{take, length, codes, decimal, None, IfOk, OnOk, OnErr, IsErrOf};
ghost use Rattle.std.specs.Prelude.{true};
ghost use Rattle.std.specs.Int.{div_ceil};
ghost use Rattle.std.specs.List.{range_with_len};
ghost use Rattle.host_edge.specs.Views.{Known, AppendsPart};
ghost use Rattle.faults.specs.Counts.{Rose};
ghost use Rattle.host_edge.specs.Sends.{AppendsUpTo};
ghost use Rattle.dram_model.specs.Geometry.{is_geometry};
ghost use Rattle.dram_model.specs.Chip.{Grew};
ghost use Rattle.dram_model.specs.View.{HasBegun, Kept, DidRead};
ghost use Rattle.transpose_unit.specs.Stopped.{StoppedWithin};
ghost use Rattle.dram_model.specs.Elements.{FailedBelow, column_count};
ghost use Rattle.object_alloc.specs.Free.{end_of};
ghost use Rattle.object_alloc.specs.Listed.{limit_of};
ghost use Rattle.transpose_unit.specs.Stage.{stage_rows, stage_number};
ghost use Rattle.bbop_isa.specs.Forms.{Print};
ghost use Rattle.machine_model.specs.Columns.{columns, segments};
ghost use Rattle.machine_model.specs.Routines.{Routines};
ghost use Rattle.machine_model.specs.Refusals.{refusal, rows_of};
ghost use Rattle.machine_model.specs.Report.{part_text, place_text};
ghost use Rattle.machine_model.specs.Script.{rows_if_done, rows_printed};
ghost use Rattle.machine_model.specs.Steps.{reply_to};
ghost use Rattle.object_steps.specs.Lines.{DidReadAtMost, printed_line, values_text};
ghost use Rattle.object_steps.specs.Objects.{FitsOn, LiesOn, RisesAtMost};
ghost use Rattle.object_steps.specs.declared.fault.StepFault.{StepFault};

use crate::fault::StepFault;
use crate::filling::segments;
use crate::finding::found;
use crate::text::{add, add_number};
use arrayvec::ArrayVec;
use bbop_isa::{Part, Place};
use bit_rows::{Value, WIDTH_MAX};
use dram_model::{Dram, Geometry};
use host_edge::{Failed, Sink};
use machine_model::Reply;
use object_alloc::{Object, Table};
use transpose_unit::{read_block, read_segment, stage_rows};
use uprog_code::Counts;

/// The most bytes of a piece.
const PIECE_BYTES: usize = 4096;

/// The most bytes of a value and the blank before it.
const VALUE_BYTES: usize = 41;

/// A piece of a line. It is put before it is full, so that there is always room for the line's end.
type Piece = ArrayVec<u8, PIECE_BYTES>;

/// Puts what is held back, where there is no room for one more value.
fn make_room<S: Sink>(text: &mut Piece, out: &mut S) -> Result<(), Failed>
    ensures counts { (S.view out.old).faults ≤ (S.view out.new).faults }
    ensures unfailed { OnOk result ((S.view out.new).faults ≡ (S.view out.old).faults) }
    ensures held { OnOk result (Known (AppendsUpTo text.new.items text.old.items)
        (S.view out.old).sent (S.view out.new).sent) }
    ensures room { OnOk result (length text.new.items + VALUE_BYTES < PIECE_BYTES) }
    ensures part { OnErr result (Known (AppendsPart text.old.items) (S.view out.old).sent
        (S.view out.new).sent) }
    ensures failed { OnErr result (Rose (S.view out.old).faults (S.view out.new).faults) }
{
    if text.len() + VALUE_BYTES >= PIECE_BYTES {
        out.put(text.as_slice())?;
        text.clear();
    }
    Ok(())
}

/// Appends a value after a blank, and puts what was held back where there is no room for it.
fn add_value<S: Sink>(text: &mut Piece, value: Value, out: &mut S) -> Result<(), Failed>
    ensures counts { (S.view out.old).faults ≤ (S.view out.new).faults }
    ensures unfailed { OnOk result ((S.view out.new).faults ≡ (S.view out.old).faults) }
    ensures held { OnOk result (Known (AppendsUpTo text.new.items
        (text.old.items ++ (codes " " ++ decimal value))) (S.view out.old).sent
        (S.view out.new).sent) }
    ensures room { OnOk result (length text.new.items < PIECE_BYTES) }
    ensures part { OnErr result (Known (AppendsPart text.old.items) (S.view out.old).sent
        (S.view out.new).sent) }
    ensures failed { OnErr result (Rose (S.view out.old).faults (S.view out.new).faults) }
{
    make_room(text, out)?;
    add(text, b" ");
    add_number(text, value);
    Ok(())
}

/// Appends values.
fn add_all<S: Sink>(values: &[Value], text: &mut Piece, out: &mut S) -> Result<(), Failed>
    requires room { length text.old.items < PIECE_BYTES }
    ensures counts { (S.view out.old).faults ≤ (S.view out.new).faults }
    ensures unfailed { OnOk result ((S.view out.new).faults ≡ (S.view out.old).faults) }
    ensures held { OnOk result (Known (AppendsUpTo text.new.items
        (text.old.items ++ values_text values.now)) (S.view out.old).sent (S.view out.new).sent) }
    ensures room { OnOk result (length text.new.items < PIECE_BYTES) }
    ensures part { OnErr result (Known (AppendsPart (text.old.items ++ values_text values.now))
        (S.view out.old).sent (S.view out.new).sent) }
    ensures failed { OnErr result (Rose (S.view out.old).faults (S.view out.new).faults) }
{
    for value in values {
        add_value(text, *value, out)?;
    }
    Ok(())
}

/// How many of so many columns are in the block of this number.
fn columns_in(count: u32, block: u32) -> usize
    requires { block < div_ceil count 64 }
    ensures { result ≡ min 64 (count - 64 * block) }
{
    (count - 64 * block).min(64) as usize
}

/// Appends the values of a stage's first columns, in blocks of 64.
fn add_columns<S: Sink>(
    stage: &[u64],
    n: u8,
    count: u32,
    text: &mut Piece,
    out: &mut S,
) -> Result<(), Failed>
    requires narrow { n ≤ WIDTH_MAX }
    requires stage { stage_rows n * (length stage.now / stage_rows n) ≡ length stage.now }
    requires columns { count ≤ 64 * (length stage.now / stage_rows n) }
    requires room { length text.old.items < PIECE_BYTES }
    ensures counts { (S.view out.old).faults ≤ (S.view out.new).faults }
    ensures unfailed { OnOk result ((S.view out.new).faults ≡ (S.view out.old).faults) }
    ensures held { OnOk result (Known (AppendsUpTo text.new.items (text.old.items ++ values_text
        (map (stage_number (length stage.now / stage_rows n) n stage.now)
        (range_with_len 0 count)))) (S.view out.old).sent (S.view out.new).sent) }
    ensures room { OnOk result (length text.new.items < PIECE_BYTES) }
    ensures part { OnErr result (Known (AppendsPart (text.old.items ++ values_text
        (map (stage_number (length stage.now / stage_rows n) n stage.now)
        (range_with_len 0 count)))) (S.view out.old).sent (S.view out.new).sent) }
    ensures failed { OnErr result (Rose (S.view out.old).faults (S.view out.new).faults) }
{
    for block in 0..count.div_ceil(64) {
        let numbers = read_block(stage, n, block);
        add_all(&numbers[..columns_in(count, block)], text, out)?;
    }
    Ok(())
}

/// How many elements a bank of the object has.
fn elements_in(g: Geometry, o: Object, bank: u16) -> u32
    requires words { 0 < g.words }
    requires bank { bank < segments g o }
    ensures { result ≡ min (column_count g) (o.count - bank * column_count g) }
{
    let columns = 64 * u32::from(g.words);
    columns.min(o.count - u32::from(bank) * columns)
}

/// Appends the values of an object, which it reads bank by bank.
fn add_values<D: Dram, S: Sink>(
    g: Geometry,
    o: Object,
    stage: &mut [u64],
    text: &mut Piece,
    dram: &mut D,
    out: &mut S,
) -> Result<(), StepFault>
    requires begun { HasBegun (D.view dram.old) }
    requires geometry { (D.view dram.old).geometry ≡ g }
    requires passes { is_geometry g ≡ true }
    requires object { FitsOn g o }
    requires rows { end_of o ≤ limit_of g }
    requires stage { length stage.old ≡ stage_rows o.width * g.words }
    requires room { length text.old.items < PIECE_BYTES }
    requires reads { (D.view dram.old).counters.reads < 2 ^ 62 + 2 ^ 60 }
    ensures borrow { D.borrow dram.new ≡ D.borrow dram.old }
    ensures kept { Kept (D.view dram.old) (D.view dram.new) }
    ensures sink_faults { (S.view out.old).faults ≤ (S.view out.new).faults }
    ensures unfailed { OnOk result ((S.view out.new).faults ≡ (S.view out.old).faults) }
    ensures did { OnOk result (DidRead (o.width * segments g o) (D.view dram.old)
        (D.view dram.new)) }
    ensures held { OnOk result (Known (AppendsUpTo text.new.items (text.old.items ++ values_text
        (take o.count (columns g (D.view dram.old).banks o)))) (S.view out.old).sent
        (S.view out.new).sent) }
    ensures room { OnOk result (length text.new.items < PIECE_BYTES) }
    ensures part { OnErr result (Known (AppendsPart (text.old.items ++ values_text
        (take o.count (columns g (D.view dram.old).banks o)))) (S.view out.old).sent
        (S.view out.new).sent) }
    ensures chip_fault { IsErrOf result StepFault.ChipFault
        → FailedBelow (segments g o) (D.view dram.old) (D.view dram.new) }
    ensures stopped { IsErrOf result StepFault.ChipFault
        → StoppedWithin (segments g o) [] (D.view dram.old).banks (D.view dram.new).banks }
    ensures no_event { Grew (D.view dram.old).log (D.view dram.new).log [] }
    ensures write_fault { IsErrOf result StepFault.WriteFault
        → Rose (S.view out.old).faults (S.view out.new).faults }
    ensures read { IsErrOf result StepFault.WriteFault
        → DidReadAtMost (o.width * segments g o) (D.view dram.old) (D.view dram.new) }
{
    for bank in 0..segments(g, o) {
        match read_segment(dram, g, bank, o.base, o.width, stage) {
            Ok(()) => {}
            Err(_) => return Err(StepFault::ChipFault),
        }
        match add_columns(stage, o.width, elements_in(g, o, bank), text, out) {
            Ok(()) => {}
            Err(_) => return Err(StepFault::WriteFault),
        }
    }
    Ok(())
}

/// Appends the part of an operand, as a script has it: `[K]` or `[LO:HI]`.
fn add_part(text: &mut Piece, part: Option<Part>)
    requires room { length text.old.items < 64 }
    ensures text { text.new.items ≡ text.old.items ++ part_text part }
    ensures room { length text.new.items < PIECE_BYTES - 1 }
{
    if let Some(Part { low, size }) = part {
        add(text, b"[");
        add_number(text, Value::from(low));
        if size != 1 {
            add(text, b":");
            add_number(text, Value::from(low) + Value::from(size));
        }
        add(text, b"]");
    }
}

/// The head of an operand's line: the number, and the operand that is shown.
fn line_head(number: u32, shown: &Place) -> Piece
    ensures text { result.items
        ≡ decimal number ++ codes " " ++ place_text shown.now ++ codes ":" }
    ensures room { length result.items < PIECE_BYTES }
{
    let mut text = ArrayVec::new();
    add_number(&mut text, Value::from(number));
    add(&mut text, b" ");
    add(&mut text, shown.name.bytes());
    add_part(&mut text, shown.part);
    add(&mut text, b":");
    text
}

/// `print PLACE`: puts one line with this number, the operand that is shown, and the values of the
/// elements of `place`, in pieces. Nothing is put where it is refused. The stage has room for the
/// rows of one bank of the widest object.
pub fn print<D: Dram, S: Sink>(
    g: Geometry,
    table: &Table,
    number: u32,
    place: &Place,
    shown: &Place,
    stage: &mut [u64],
    dram: &mut D,
    out: &mut S,
) -> Result<Reply, StepFault>
    requires begun { HasBegun (D.view dram.old) }
    requires geometry { (D.view dram.old).geometry ≡ g }
    requires lies { LiesOn g table.now }
    requires stage { length stage.old ≡ 128 * g.words }
    requires room { (D.view dram.old).counters.reads < 2 ^ 62 + 2 ^ 60 }
    ensures borrow { D.borrow dram.new ≡ D.borrow dram.old }
    ensures kept { Kept (D.view dram.old) (D.view dram.new) }
    ensures stage { length stage.new ≡ length stage.old }
    ensures sink_faults { (S.view out.old).faults ≤ (S.view out.new).faults }
    ensures unfailed { OnOk result ((S.view out.new).faults ≡ (S.view out.old).faults) }
    ensures reply { (operations : Routines) → IfOk result (λ reply. reply
        ≡ reply_to g operations table.now.pairs (Print place.now)) }
    ensures did { (operations : Routines) → OnOk result
        (DidRead (rows_if_done rows_printed g operations table.now.pairs (Print place.now))
        (D.view dram.old) (D.view dram.new)) }
    ensures rises { OnOk result (RisesAtMost (16 * WIDTH_MAX) (D.view dram.old).counters
        (D.view dram.new).counters) }
    ensures sent { (operations : Routines) → OnOk result (Known (λ before after. after
        ≡ before ++ printed_line g operations table.now.pairs (D.view dram.old).banks number
        place.now shown.now) (S.view out.old).sent (S.view out.new).sent) }

    // Where a call fails, the instruction is not refused, a prefix of its line was put, and nothing
    // but reads happened on the chip, or a read failed.
    ensures allowed { (operations : Routines) → OnErr result
        (refusal g operations table.now.pairs (Print place.now) ≡ None) }
    ensures part { (operations : Routines) → OnErr result (Known (AppendsPart
        (printed_line g operations table.now.pairs (D.view dram.old).banks number place.now
        shown.now)) (S.view out.old).sent (S.view out.new).sent) }
    ensures chip_fault { IsErrOf result StepFault.ChipFault → FailedBelow
        (segments g (rows_of table.now.pairs place.now)) (D.view dram.old) (D.view dram.new) }
    ensures stopped { IsErrOf result StepFault.ChipFault
        → StoppedWithin (segments g (rows_of table.now.pairs place.now)) [] (D.view dram.old).banks
        (D.view dram.new).banks }
    ensures no_event { Grew (D.view dram.old).log (D.view dram.new).log [] }
    ensures write_fault { IsErrOf result StepFault.WriteFault
        → Rose (S.view out.old).faults (S.view out.new).faults }
    ensures read { IsErrOf result StepFault.WriteFault
        → DidReadAtMost (rows_printed g table.now.pairs (Print place.now)) (D.view dram.old)
        (D.view dram.new) }
{
    let o = match found(g, table, place) {
        Err(why) => return Ok(Reply::Refused(why)),
        Ok(o) => o,
    };
    let mut text = line_head(number, shown);
    let rows = &mut stage[..stage_rows(o.width) * usize::from(g.words)];
    add_values(g, o, rows, &mut text, dram, out)?;
    add(&mut text, b"\n");
    match out.put(text.as_slice()) {
        Ok(()) => Ok(Reply::Done(Counts { aap: 0, ap: 0 })),
        Err(_) => Err(StepFault::WriteFault),
    }
}
