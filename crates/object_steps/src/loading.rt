//! Values that become an object's elements.

ghost use Rattle.std.specs.Prelude.{◌≡◌, ◌+◌, ◌*◌, ◌<◌, ◌≤◌, ◌^◌, nat_le, length, All};
ghost use Rattle.std.specs.Prelude.{position, Some, None, IfSome, IfOk, IfErr, OnOk, OnErr};
ghost use Rattle.dram_model.specs.View.{HasBegun, Kept, Did};
ghost use Rattle.transpose_unit.specs.Stopped.{StoppedWithin};
ghost use Rattle.dram_model.specs.Elements.{FailedBelow};
ghost use Rattle.object_alloc.specs.Free.{end_of};
ghost use Rattle.object_alloc.specs.Listed.{limit_of};
ghost use Rattle.bbop_isa.specs.Forms.{Load};
ghost use Rattle.machine_model.specs.Columns.{segments};
ghost use Rattle.machine_model.specs.Routines.{Routines};
ghost use Rattle.machine_model.specs.Refusals.{refusal, rows_of};
ghost use Rattle.machine_model.specs.Steps.{reply_to};
ghost use Rattle.object_steps.specs.Objects.{FitsOn, LiesOn, RisesAtMost, events_alone};

use crate::finding::found;
use bbop_isa::Place;
use bit_rows::{Value, WIDTH_MAX};
use dram_model::{ChipFault, Dram, Geometry};
use machine_model::{Reply, Why};
use object_alloc::{Object, Table};
use transpose_unit::{stage_rows, write_object};
use uprog_code::Counts;

/// Whether the value has a bit at or above bit n.
pub(crate) fn has_more_bits(value: Value, n: u8) -> bool
    ensures { result ≡ nat_le (2 ^ n) value }
{
    n < WIDTH_MAX && value >> n != 0
}

/// Where the first value is that has more than n bits.
fn wide_value(values: &[Value], n: u8) -> Option<usize>
    ensures value { result ≡ position (λ v. nat_le (2 ^ n) v) values.now }
    ensures bound { IfSome result (λ at. at < length values.now) }
{
    values.iter().position(|value| has_more_bits(*value, n))
}

/// The rows that take the values, or the first condition that refuses them.
fn loadable(g: Geometry, table: &Table, place: &Place, values: &[Value]) -> Result<Object, Why>
    requires lies { LiesOn g table.now }
    ensures object { IfOk result (λ o. o ≡ rows_of table.now.pairs place.now) }
    ensures fits { IfOk result (FitsOn g) }
    ensures rows { IfOk result (λ o. end_of o ≤ limit_of g) }
    ensures count { IfOk result (λ o. length values.now ≡ o.count) }
    ensures small { IfOk result (λ o. All (λ v. v < 2 ^ o.width) values.now) }
    ensures allowed { (operations : Routines) → OnOk result
        (refusal g operations table.now.pairs (Load place.now values.now) ≡ None) }
    ensures refused { (operations : Routines) → IfErr result (λ why.
        refusal g operations table.now.pairs (Load place.now values.now) ≡ Some why) }
{
    let o = match found(g, table, place) {
        Err(why) => return Err(why),
        Ok(o) => o,
    };
    if values.len() as u64 != u64::from(o.count) {
        return Err(Why::Count);
    }
    match wide_value(values, o.width) {
        Some(at) => Err(Why::Range(at as u32 + 1)),
        None => Ok(o),
    }
}

/// `load PLACE, V, ..`: the values become the operand's elements, and the columns past the last
/// take 0. The stage has room for the rows of one bank of the widest object.
pub fn load<D: Dram>(
    g: Geometry,
    table: &Table,
    place: &Place,
    values: &[Value],
    stage: &mut [u64],
    dram: &mut D,
) -> Result<Reply, ChipFault>
    requires begun { HasBegun (D.view dram.old) }
    requires geometry { (D.view dram.old).geometry ≡ g }
    requires lies { LiesOn g table.now }
    requires stage { length stage.old ≡ 128 * g.words }
    requires room { (D.view dram.old).counters.writes < 2 ^ 62 + 2 ^ 60 }
    ensures borrow { D.borrow dram.new ≡ D.borrow dram.old }
    ensures kept { Kept (D.view dram.old) (D.view dram.new) }
    ensures stage { length stage.new ≡ length stage.old }
    ensures reply { (operations : Routines) → IfOk result (λ reply. reply
        ≡ reply_to g operations table.now.pairs (Load place.now values.now)) }
    ensures did { (operations : Routines) → OnOk result
        (Did (events_alone g operations table.now.pairs (Load place.now values.now))
        (D.view dram.old) (D.view dram.new)) }
    ensures rises { OnOk result (RisesAtMost (16 * WIDTH_MAX) (D.view dram.old).counters
        (D.view dram.new).counters) }

    // Where a call fails, the instruction is not refused, no bank past the operand's is changed,
    // and every bank but its own stands where the events before leave it.
    ensures allowed { (operations : Routines) → OnErr result
        (refusal g operations table.now.pairs (Load place.now values.now) ≡ None) }
    ensures failed { OnErr result (FailedBelow (segments g (rows_of table.now.pairs place.now))
        (D.view dram.old) (D.view dram.new)) }
    ensures stopped { (operations : Routines) → OnErr result
        (StoppedWithin 0 (events_alone g operations table.now.pairs (Load place.now values.now))
        (D.view dram.old).banks (D.view dram.new).banks) }
{
    match loadable(g, table, place, values) {
        Err(why) => Ok(Reply::Refused(why)),
        Ok(o) => {
            let rows = &mut stage[..stage_rows(o.width) * usize::from(g.words)];
            write_object(dram, g, o.base, o.width, values, rows)?;
            Ok(Reply::Done(Counts { aap: 0, ap: 0 }))
        }
    }
}
