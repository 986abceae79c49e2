//! Instructions on a machine, whose report nobody reads.

ghost use Rattle.std.specs.Prelude.{◌≡◌, ◌<◌, ◌+◌, ◌^◌, [], ◌∷◌, false, length, take, drop};
ghost use Rattle.std.specs.List.{AllByRecursion};
ghost use Rattle.dram_model.specs.View.{HasBegun, Kept};
ghost use Rattle.bbop_isa.specs.Forms.{view_of};
ghost use Rattle.machine_model.specs.Agrees.{IsPlain};
ghost use Rattle.sim_machine.specs.Machine.{geometry_of, is_print};
ghost use Rattle.sim_machine.specs.Steps.{HasRoom};
ghost use Rattle.scan_query.specs.Queries.{instructions_for, names_in, node_of, sources_fit};
ghost use Rattle.scan_query.specs.Running.{Runs, AreBelow};

use crate::nodes::{Size, instruction};
use crate::query::Node;
use crate::sink::Dropped;
use bbop_isa::Instr;
use dram_model::{ChipFault, Dram};
use sim_machine::{Machine, Reply, StepFault, Why};
use text_lex::Name;

/// Does one instruction; answers why it was refused, if it was.
fn do_one<D: Dram>(
    machine: &mut Machine<'_>,
    instr: &Instr,
    dram: &mut D,
) -> Result<Option<Why>, ChipFault>
    requires begun { HasBegun (D.view dram.old) }
    requires geometry { (D.view dram.old).geometry ≡ geometry_of machine.old }
    requires plain { IsPlain (view_of instr.now) }
    requires silent { is_print (view_of instr.now) ≡ false }
    requires room { HasRoom (D.view dram.old).counters }
    ensures borrow { D.borrow dram.new ≡ D.borrow dram.old }
    ensures kept { Kept (D.view dram.old) (D.view dram.new) }
    ensures runs { Runs (view_of instr.now ∷ []) machine.old machine.new (D.view dram.old)
        (D.view dram.new) result }
{
    match machine.step(1, instr, dram, &mut Dropped) {
        Ok(Reply::Done(_)) => Ok(None),
        Ok(Reply::Refused(why)) => Ok(Some(why)),
        Err(StepFault::ChipFault) => Err(ChipFault),
        Err(StepFault::WriteFault) => unreachable!(),
    }
}

/// Does instruction i of node k, where it has so many.
fn do_at<D: Dram>(
    machine: &mut Machine<'_>,
    node: &Node,
    names: &[Name],
    size: Size,
    k: u8,
    i: u8,
    dram: &mut D,
) -> Result<Option<Why>, ChipFault>
    requires begun { HasBegun (D.view dram.old) }
    requires geometry { (D.view dram.old).geometry ≡ geometry_of machine.old }
    requires names { length names.now ≡ 65 }
    requires few { k < 64 }
    requires sources { sources_fit 64 (node_of node.now) }
    requires plain { AllByRecursion IsPlain (instructions_for (names_in names.now) size.count
        size.width k (node_of node.now)) }
    requires room { HasRoom (D.view dram.old).counters }
    ensures borrow { D.borrow dram.new ≡ D.borrow dram.old }
    ensures kept { Kept (D.view dram.old) (D.view dram.new) }
    ensures runs { Runs (take 1 (drop i (instructions_for (names_in names.now) size.count
        size.width k (node_of node.now)))) machine.old machine.new (D.view dram.old)
        (D.view dram.new) result }
{
    match instruction(node, names, size, k, i) {
        Some(instr) => do_one(machine, &instr, dram),
        None => Ok(None),
    }
}

/// Does the instructions of node k.
pub(crate) fn do_node<D: Dram>(
    machine: &mut Machine<'_>,
    node: &Node,
    names: &[Name],
    size: Size,
    k: u8,
    dram: &mut D,
) -> Result<Option<Why>, ChipFault>
    requires begun { HasBegun (D.view dram.old) }
    requires geometry { (D.view dram.old).geometry ≡ geometry_of machine.old }
    requires names { length names.now ≡ 65 }
    requires few { k < 64 }
    requires sources { sources_fit 64 (node_of node.now) }
    requires plain { AllByRecursion IsPlain (instructions_for (names_in names.now) size.count
        size.width k (node_of node.now)) }
    requires room { AreBelow (2 ^ 62 + 2 ^ 59) (D.view dram.old).counters }
    ensures borrow { D.borrow dram.new ≡ D.borrow dram.old }
    ensures kept { Kept (D.view dram.old) (D.view dram.new) }
    ensures runs { Runs (instructions_for (names_in names.now) size.count size.width k
        (node_of node.now)) machine.old machine.new (D.view dram.old) (D.view dram.new) result }
{
    'instrs: for i in 0..5 {
        match do_at(machine, node, names, size, k, i, dram)? {
            Some(why) => return Ok(Some(why)),
            None => {}
        }
    }
    Ok(None)
}
