//! Objects that are made and given back.

ghost use Rattle.std.specs.Prelude.{◌≡◌, ◌+◌, ◌*◌, ◌<◌, ◌≤◌, ◌^◌, false, length, Some};
ghost use Rattle.std.specs.Prelude.{None, IfOk, IfErr, OnOk, OnErr};
ghost use Rattle.dram_model.specs.declared.geometry.Geometry.{Geometry};
ghost use Rattle.dram_model.specs.View.{HasBegun, Kept, Did};
ghost use Rattle.transpose_unit.specs.Stopped.{StoppedWithin};
ghost use Rattle.dram_model.specs.Elements.{FailedBelow, column_count};
ghost use Rattle.object_alloc.specs.Free.{free as free_base};
ghost use Rattle.object_alloc.specs.Listed.{has_name, limit_of, objects_of};
ghost use Rattle.bbop_isa.specs.Forms.{Init, Free};
ghost use Rattle.machine_model.specs.Agrees.{IsPlain};
ghost use Rattle.machine_model.specs.Columns.{segments};
ghost use Rattle.machine_model.specs.Routines.{Routines};
ghost use Rattle.machine_model.specs.Refusals.{refusal};
ghost use Rattle.machine_model.specs.Steps.{new_object, reply_to, table_after};
ghost use Rattle.object_steps.specs.Objects.{LiesOn, RisesAtMost, events_alone};

use crate::filling::{fill_object, filling_counts};
use bit_rows::WIDTH_MAX;
use dram_model::{ChipFault, Dram, Geometry};
use machine_model::{Reply, Why};
use object_alloc::{OBJECTS_MAX, Object, Table};
use text_lex::Name;
use uprog_code::Counts;

/// How many elements all banks have room for.
fn elements_max(g: Geometry) -> u64
    ensures { result ≡ column_count g * g.banks }
{
    64 * u64::from(g.words) * u64::from(g.banks)
}

/// The least base of a new object's rows, or the first condition that refuses it.
fn place(g: Geometry, table: &Table, name: &Name, count: u32, n: u8) -> Result<u16, Why>
    requires lies { LiesOn g table.now }
    ensures base { IfOk result (λ base.
        free_base (limit_of g) (objects_of table.now.pairs) n ≡ Some base) }
    ensures new { OnOk result (has_name table.now.pairs name.now ≡ false) }
    ensures few { OnOk result (length table.now.pairs < 256) }
    ensures fits { OnOk result (count ≤ column_count g * g.banks) }
    ensures allowed { (operations : Routines) → OnOk result
        (refusal g operations table.now.pairs (Init name.now count n) ≡ None) }
    ensures refused { (operations : Routines) → IfErr result (λ why.
        refusal g operations table.now.pairs (Init name.now count n) ≡ Some why) }
{
    if table.look_up(name).is_some() {
        return Err(Why::Exists);
    }
    if usize::from(table.len()) >= OBJECTS_MAX {
        return Err(Why::TableFull);
    }
    if u64::from(count) > elements_max(g) {
        return Err(Why::TooLarge);
    }
    match table.find_rows(u16::from(n)) {
        Some(base) => Ok(base),
        None => Err(Why::NoRows),
    }
}

/// `bbop_trsp_init NAME, COUNT, N`: a new object of so many elements of n bits, at the least base
/// where its rows are free, with zeros in every column of its banks. It is the last of the table.
pub fn trsp_init<D: Dram>(
    g: Geometry,
    table: &mut Table,
    name: &Name,
    count: u32,
    n: u8,
    dram: &mut D,
) -> Result<Reply, ChipFault>
    requires begun { HasBegun (D.view dram.old) }
    requires geometry { (D.view dram.old).geometry ≡ g }
    requires lies { LiesOn g table.old }
    requires plain { IsPlain (Init name.now count n) }
    requires room { (D.view dram.old).counters.aap < 2 ^ 62 + 2 ^ 60 }
    ensures borrow { D.borrow dram.new ≡ D.borrow dram.old }
    ensures kept { Kept (D.view dram.old) (D.view dram.new) }
    ensures reply { (operations : Routines) → IfOk result (λ reply. reply
        ≡ reply_to g operations table.old.pairs (Init name.now count n)) }
    ensures table { (operations : Routines) → OnOk result (table.new.pairs
        ≡ table_after g operations table.old.pairs (Init name.now count n)) }
    ensures lies { LiesOn g table.new }
    ensures did { (operations : Routines) → OnOk result
        (Did (events_alone g operations table.old.pairs (Init name.now count n)) (D.view dram.old)
        (D.view dram.new)) }
    ensures rises { OnOk result (RisesAtMost (16 * WIDTH_MAX) (D.view dram.old).counters
        (D.view dram.new).counters) }

    // Where a call fails, the instruction is not refused, no bank past the new object's is changed,
    // every bank but its own stands where the events before leave it, and the table is as
    // before.
    ensures allowed { (operations : Routines) → OnErr result
        (refusal g operations table.old.pairs (Init name.now count n) ≡ None) }
    ensures failed { OnErr result (FailedBelow (segments g (new_object g table.old.pairs count n))
        (D.view dram.old) (D.view dram.new)) }
    ensures stopped { (operations : Routines) → OnErr result
        (StoppedWithin 0 (events_alone g operations table.old.pairs (Init name.now count n))
        (D.view dram.old).banks (D.view dram.new).banks) }
    ensures unlisted { OnErr result (table.new ≡ table.old) }
{
    match place(g, table, name, count, n) {
        Err(why) => Ok(Reply::Refused(why)),
        Ok(base) => {
            let object = Object {
                base,
                width: n,
                count,
            };
            fill_object(dram, g, object, 0)?;
            table.add(name.copied(), object);
            Ok(Reply::Done(filling_counts(g, object)))
        }
    }
}

/// `free NAME`: the object is no longer in the table. Its rows keep what they hold.
pub fn free(table: &mut Table, name: &Name) -> Reply
    ensures reply { (g : Geometry) (operations : Routines) → result
        ≡ reply_to g operations table.old.pairs (Free name.now) }
    ensures table { (g : Geometry) (operations : Routines) → table.new.pairs
        ≡ table_after g operations table.old.pairs (Free name.now) }
    ensures lies { (g : Geometry) → LiesOn g table.old → LiesOn g table.new }
{
    match table.remove(name) {
        Some(_) => Reply::Done(Counts { aap: 0, ap: 0 }),
        None => Reply::Refused(Why::NoObject(0)),
    }
}
