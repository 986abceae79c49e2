//! A query on a machine.

ghost use Rattle.std.specs.Prelude.{◌≡◌, ◌<◌, ◌≤◌, ◌*◌, ◌++◌, ◌^◌, ◌∷◌, [], List, length, map};
ghost use Rattle.std.specs.Prelude.{true, Some, None, IfOk, OnErr, OnOk};
ghost use Rattle.std.specs.List.{AllByRecursion};
ghost use Rattle.std.specs.Result.{IsOkAnd};
ghost use Rattle.faults.specs.Counts.{Rose};
ghost use Rattle.transpose_unit.specs.Stopped.{StoppedWithin};
ghost use Rattle.dram_model.specs.Chip.{after};
ghost use Rattle.dram_model.specs.View.{HasBegun, Kept};
ghost use Rattle.dram_model.specs.Elements.{segments_of};
ghost use Rattle.object_alloc.specs.Listed.{Named};
ghost use Rattle.machine_model.specs.Agrees.{IsPlain};
ghost use Rattle.machine_model.specs.Pieces.{events_of_pieces, pieces};
ghost use Rattle.uprog_code.specs.Texts.{ImplementsAll};
ghost use Rattle.sim_machine.specs.Machine.{at_end, geometry_of, operations_by, program_of};
ghost use Rattle.sim_machine.specs.Machine.{table_in, turn_in};
ghost use Rattle.sim_machine.specs.Steps.{DidAndRead};
ghost use Rattle.scan_model.specs.Queries as model;
ghost use Rattle.scan_model.specs.Answers.{answer, room_word};
ghost use Rattle.scan_model.specs.Checks.{checked};
ghost use Rattle.scan_model.specs.Instructions.{count_of, scan_script};
ghost use Rattle.scan_model.specs.Operations.{scan_text};
ghost use Rattle.scan_query.specs.Answers.{CountersRose, IsScan, answer_of, is_done};
ghost use Rattle.scan_query.specs.Queries.{IsNodesOf, node_of, nodes_in, sources_fit};
ghost use Rattle.scan_query.specs.Running.{AreBelow, NodesRun, StoppedAt, events_until};
ghost use Rattle.scan_query.specs.Running.{refused_node};

use crate::checks::{check, count_of};
use crate::names::free_names;
use crate::nodes::{Size, widths_of};
use crate::ones::ones_of;
use crate::query::{Node, Query, ScanReply};
use crate::steps::do_node;
use dram_model::{ChipFault, Dram};
use object_alloc::{Object, Table};
use scan_model::ScanWhy;
use sim_machine::{Machine, Why};
use uprog_code::Counts;

/// Does the instructions of a query's nodes; answers which was refused, and why, if one was.
pub(crate) fn run_nodes<D: Dram>(
    machine: &mut Machine<'_>,
    nodes: &[Node],
    dram: &mut D,
) -> Result<Option<(Why, u8)>, ChipFault>
    requires begun { HasBegun (D.view dram.old) }
    requires geometry { (D.view dram.old).geometry ≡ geometry_of machine.old }
    requires few { length nodes.now ≤ 64 }
    requires sources { AllByRecursion (sources_fit 64) (map node_of nodes.now) }
    requires plain { AllByRecursion IsPlain (scan_script (table_in machine.old)
        (map node_of nodes.now)) }
    requires room { AreBelow (2 ^ 62) (D.view dram.old).counters }
    ensures borrow { D.borrow dram.new ≡ D.borrow dram.old }
    ensures kept { Kept (D.view dram.old) (D.view dram.new) }
    ensures runs { NodesRun (map node_of nodes.now) machine.old machine.new (D.view dram.old)
        (D.view dram.new) result }
{
    let count = count_of(machine.table(), nodes);
    let names = free_names(machine.table());
    let widths = widths_of(machine.table(), nodes);
    let mut k = 0u8;
    'nodes: for node in nodes {
        let width = widths[usize::from(k)];
        let size = Size { count, width };
        match do_node(machine, node, names.as_slice(), size, k, dram)? {
            Some(why) => return Ok(Some((why, k))),
            None => {}
        }
        k += 1;
    }
    Ok(None)
}

/// The last object of a table.
fn last_object(table: &Table) -> Object
    requires { 0 < length table.now.pairs }
    ensures { (front : List Named) (last : Named) → table.now.pairs ≡ front ++ last ∷ []
        → result ≡ last.1 }
{
    let (_, object) = table.at(table.len() - 1);
    object
}

/// Why there was no room for an object of a node.
fn room_word(why: Why) -> ScanWhy
    ensures { result ≡ room_word why }
{
    match why {
        Why::TableFull => ScanWhy::TableFull,
        _ => ScanWhy::NoRows,
    }
}

/// Counts the elements that meet a query: its instructions are done on the machine, and the host
/// reads the last bit object alone. Their report lines are dropped. It takes no memory. After a
/// refusal or a fault the machine is not used again.
pub fn run_query<D: Dram>(
    machine: &mut Machine<'_>,
    query: &Query,
    dram: &mut D,
    stage: &mut [u64],
) -> Result<ScanReply, ChipFault>
    requires begun { HasBegun (D.view dram.old) }
    requires geometry { (D.view dram.old).geometry ≡ geometry_of machine.old }
    requires program { ImplementsAll (program_of machine.old) scan_text }
    requires query { IsScan (nodes_in query.now) }
    requires stage { length stage.old ≡ 64 * (geometry_of machine.old).words }
    requires room { AreBelow (2 ^ 62) (D.view dram.old).counters }
    ensures borrow { D.borrow dram.new ≡ D.borrow dram.old }
    ensures kept { Kept (D.view dram.old) (D.view dram.new) }
    ensures stage { length stage.new ≡ length stage.old }
    ensures answer { IfOk result (λ reply. (t : model.Query) → IsNodesOf t (nodes_in query.now)
        → answer_of reply ≡ answer (geometry_of machine.old) (operations_by machine.old)
        (D.view dram.old).banks (table_in machine.old) t) }
    ensures faults { OnOk result ((D.view dram.new).faults ≡ (D.view dram.old).faults) }
    // Where a check fails, it is refused, and the chip is as it was.
    ensures unused { (found : _) → checked (table_in machine.old) (nodes_in query.now) ≡ Some found
        → IsOkAnd result (λ reply. D.view dram.new ≡ D.view dram.old) }
    ensures did { IfOk result (λ reply. is_done reply ≡ true
        → DidAndRead (events_of_pieces (geometry_of machine.old) (operations_by machine.old)
        (turn_in machine.old) (table_in machine.old)
        (pieces (scan_script (table_in machine.old) (nodes_in query.now))))
        (segments_of (geometry_of machine.old) (count_of (table_in machine.old)
        (nodes_in query.now))) (D.view dram.old) (D.view dram.new)) }
    ensures counted { IfOk result (λ reply. CountersRose reply
        (segments_of (geometry_of machine.old) (count_of (table_in machine.old)
        (nodes_in query.now))) (D.view dram.old).counters (D.view dram.new).counters) }
    ensures goes { IfOk result (λ reply. is_done reply ≡ true
        → machine.new ≡ at_end machine.old (scan_script (table_in machine.old)
        (nodes_in query.now))) }
    // Where an instruction is refused, those before it were done, and nothing else.
    ensures stopped { IfOk result (λ reply. (why : _) (k : _)
        → checked (table_in machine.old) (nodes_in query.now) ≡ None
        → refused_node machine.old (nodes_in query.now) ≡ Some (why, k)
        → StoppedAt why (scan_script (table_in machine.old) (nodes_in query.now)) machine.old
        (D.view dram.old) (D.view dram.new)) }
    ensures failed { OnErr result (Rose (D.view dram.old).faults (D.view dram.new).faults) }
    // The banks are what the instructions before the first that is refused leave.
    ensures used { IfOk result (λ reply. checked (table_in machine.old) (nodes_in query.now) ≡ None
        → (D.view dram.new).banks ≡ after (events_until machine.old
        (scan_script (table_in machine.old) (nodes_in query.now))) (D.view dram.old).banks) }
    // Where the chip fails, every bank but the failed call's is as the events before leave it.
    ensures left { OnErr result (StoppedWithin (segments_of (geometry_of machine.old)
        (count_of (table_in machine.old) (nodes_in query.now))) (events_until machine.old
        (scan_script (table_in machine.old) (nodes_in query.now))) (D.view dram.old).banks
        (D.view dram.new).banks) }
{
    let nodes = query.nodes.as_slice();
    let count = count_of(machine.table(), nodes);
    if let Some((why, k)) = check(machine.table(), count, nodes) {
        return Ok(ScanReply::Refused(why, k));
    }
    let before = dram.tally();
    if let Some((why, k)) = run_nodes(machine, nodes, dram)? {
        return Ok(ScanReply::Refused(room_word(why), k));
    }
    let after = dram.tally();
    let object = last_object(machine.table());
    let found = ones_of(dram, dram.geometry(), object, stage)?;
    Ok(ScanReply::Done {
        found,
        of: count,
        counts: Counts {
            aap: after.aap - before.aap,
            ap: after.ap - before.ap,
        },
    })
}
