//! Rows of zeros and ones.

ghost use Rattle.std.specs.Prelude.{◌≡◌, ℕ, ◌+◌, ◌*◌, ◌<◌, ◌≤◌, ◌^◌, true, Some, None};
ghost use Rattle.std.specs.Prelude.{IfOk, IfErr, OnOk, OnErr};
ghost use Rattle.bit_rows.specs.Bits.{bit_at, bit_number};
ghost use Rattle.dram_model.specs.declared.address.Addr.{Addr};
ghost use Rattle.dram_model.specs.Geometry.{is_geometry};
ghost use Rattle.dram_model.specs.View.{HasBegun, Kept, Did, FailedIn};
ghost use Rattle.transpose_unit.specs.Stopped.{StoppedWithin};
ghost use Rattle.dram_model.specs.Elements.{FailedBelow};
ghost use Rattle.object_alloc.specs.Free.{end_of};
ghost use Rattle.object_alloc.specs.Listed.{limit_of};
ghost use Rattle.bbop_isa.specs.Forms.{Fill};
ghost use Rattle.machine_model.specs.Columns.{segments};
ghost use Rattle.machine_model.specs.Routines.{Routines};
ghost use Rattle.machine_model.specs.Refusals.{refusal, rows_of};
ghost use Rattle.machine_model.specs.Steps.{fill_events, reply_to};
ghost use Rattle.object_steps.specs.Objects.{FitsOn, LiesOn, RisesAtMost, events_alone, filled_in};

use crate::finding::found;
use crate::loading::has_more_bits;
use bbop_isa::Place;
use bit_rows::{Value, WIDTH_MAX};
use dram_model::{Addr, ChipFault, Dram, Geometry};
use machine_model::{Reply, Why};
use object_alloc::{Object, Table};
use uprog_code::Counts;

/// How many banks an object's elements take.
pub fn segments(g: Geometry, o: Object) -> u16
    requires words { 0 < g.words }
    requires object { FitsOn g o }
    ensures value { result ≡ segments g o }
    ensures fits { result ≤ g.banks }
{
    o.count.div_ceil(64 * u32::from(g.words)) as u16
}

/// C0 or C1: the row whose bits are bit k of the value.
fn constant_row(value: Value, k: u8) -> Addr
    requires { k < WIDTH_MAX }
    ensures { result ≡ Addr.C (bit_number (bit_at value k)) }
{
    if (value >> k) % 2 == 1 {
        Addr::C(1)
    } else {
        Addr::C(0)
    }
}

/// Gives the object's rows in one bank the bits of the value.
fn fill_bank<D: Dram>(dram: &mut D, bank: u16, o: Object, value: Value) -> Result<(), ChipFault>
    requires begun { HasBegun (D.view dram.old) }
    requires bank { bank < (D.view dram.old).geometry.banks }
    requires narrow { o.width ≤ WIDTH_MAX }
    requires rows { end_of o ≤ (D.view dram.old).geometry.rows }
    requires few_rows { end_of o < 2 ^ 16 }
    requires room { (D.view dram.old).counters.aap < 2 ^ 62 + 2 ^ 61 }
    ensures borrow { D.borrow dram.new ≡ D.borrow dram.old }
    ensures kept { Kept (D.view dram.old) (D.view dram.new) }
    ensures did { OnOk result (Did (filled_in o value bank) (D.view dram.old) (D.view dram.new)) }
    ensures aap { OnOk result ((D.view dram.new).counters.aap
        ≡ (D.view dram.old).counters.aap + o.width) }
    ensures failed { OnErr result (FailedIn bank (D.view dram.old) (D.view dram.new)) }
    ensures some { OnErr result (0 < o.width) }
{
    for k in 0..o.width {
        dram.aap(bank, constant_row(value, k), Addr::D(o.base + u16::from(k)))?;
    }
    Ok(())
}

/// Gives the object's rows the bits of the value: in every column of its banks, those past its
/// elements too.
pub(crate) fn fill_object<D: Dram>(
    dram: &mut D,
    g: Geometry,
    o: Object,
    value: Value,
) -> Result<(), ChipFault>
    requires begun { HasBegun (D.view dram.old) }
    requires geometry { (D.view dram.old).geometry ≡ g }
    requires passes { is_geometry g ≡ true }
    requires object { FitsOn g o }
    requires rows { end_of o ≤ limit_of g }
    requires room { (D.view dram.old).counters.aap < 2 ^ 62 + 2 ^ 60 }
    ensures borrow { D.borrow dram.new ≡ D.borrow dram.old }
    ensures kept { Kept (D.view dram.old) (D.view dram.new) }
    ensures did { OnOk result (Did (fill_events g o value) (D.view dram.old) (D.view dram.new)) }
    ensures rises { OnOk result (RisesAtMost (16 * WIDTH_MAX) (D.view dram.old).counters
        (D.view dram.new).counters) }
    ensures failed { OnErr result (FailedBelow (segments g o) (D.view dram.old)
        (D.view dram.new)) }
    ensures stopped { OnErr result (StoppedWithin 0 (fill_events g o value) (D.view dram.old).banks
        (D.view dram.new).banks) }
{
    for bank in 0..segments(g, o) {
        fill_bank(dram, bank, o, value)?;
    }
    Ok(())
}

/// The row commands that fill an object.
pub(crate) fn filling_counts(g: Geometry, o: Object) -> Counts
    requires words { 0 < g.words }
    requires object { FitsOn g o }
    ensures { result ≡ record { aap = o.width * segments g o; ap = 0 } }
{
    Counts {
        aap: u64::from(o.width) * u64::from(segments(g, o)),
        ap: 0,
    }
}

/// The rows that a value fills, or why it does not.
fn fillable(g: Geometry, table: &Table, place: &Place, value: Value) -> Result<Object, Why>
    requires lies { LiesOn g table.now }
    ensures object { IfOk result (λ o. o ≡ rows_of table.now.pairs place.now) }
    ensures fits { IfOk result (FitsOn g) }
    ensures rows { IfOk result (λ o. end_of o ≤ limit_of g) }
    ensures allowed { (operations : Routines) → OnOk result
        (refusal g operations table.now.pairs (Fill place.now value) ≡ None) }
    ensures refused { (operations : Routines) → IfErr result (λ why.
        refusal g operations table.now.pairs (Fill place.now value) ≡ Some why) }
{
    match found(g, table, place) {
        Err(why) => Err(why),
        Ok(o) => {
            if has_more_bits(value, o.width) {
                Err(Why::Range(1))
            } else {
                Ok(o)
            }
        }
    }
}

/// `fill PLACE, V`: each element of the operand becomes the value, and so do the columns past its
/// last element.
pub fn fill<D: Dram>(
    g: Geometry,
    table: &Table,
    place: &Place,
    value: Value,
    dram: &mut D,
) -> Result<Reply, ChipFault>
    requires begun { HasBegun (D.view dram.old) }
    requires geometry { (D.view dram.old).geometry ≡ g }
    requires lies { LiesOn g table.now }
    requires room { (D.view dram.old).counters.aap < 2 ^ 62 + 2 ^ 60 }
    ensures borrow { D.borrow dram.new ≡ D.borrow dram.old }
    ensures kept { Kept (D.view dram.old) (D.view dram.new) }
    ensures reply { (operations : Routines) → IfOk result (λ reply. reply
        ≡ reply_to g operations table.now.pairs (Fill place.now value)) }
    ensures did { (operations : Routines) → OnOk result
        (Did (events_alone g operations table.now.pairs (Fill place.now value)) (D.view dram.old)
        (D.view dram.new)) }
    ensures rises { OnOk result (RisesAtMost (16 * WIDTH_MAX) (D.view dram.old).counters
        (D.view dram.new).counters) }

    // Where a call fails, the instruction is not refused, no bank past the operand's is changed,
    // and every bank but its own stands where the events before leave it.
    ensures allowed { (operations : Routines) → OnErr result
        (refusal g operations table.now.pairs (Fill place.now value) ≡ None) }
    ensures failed { OnErr result (FailedBelow (segments g (rows_of table.now.pairs place.now))
        (D.view dram.old) (D.view dram.new)) }
    ensures stopped { (operations : Routines) → OnErr result
        (StoppedWithin 0 (events_alone g operations table.now.pairs (Fill place.now value))
        (D.view dram.old).banks (D.view dram.new).banks) }
{
    match fillable(g, table, place, value) {
        Err(why) => Ok(Reply::Refused(why)),
        Ok(o) => {
            fill_object(dram, g, o, value)?;
            Ok(Reply::Done(filling_counts(g, o)))
        }
    }
}
