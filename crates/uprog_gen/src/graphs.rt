//! The graphs of serial blocks.

ghost use Rattle.std.specs.Prelude.{◌≡◌, ◌++◌, ◌∷◌, [], map, option_to_list, OnOk};
ghost use Rattle.op_text.specs.Language.{statement, operation};
ghost use Rattle.loop_ir.specs.Plain.{flow_of, acts_of};
ghost use Rattle.uprog_gen.specs.Graphs.{graphed_of, later, flow_graph, acts_graph};
ghost use Rattle.uprog_gen.specs.Graphs.{statement_graph, graphs_in};

use crate::ops::Lowered;
use faults::keep;
use loop_ir::{Flow, Turns};
use mig_graph::{MigOuts, NoMemory};
use op_text::{Op, Stmt};

/// The second, if there is one, or else the first.
fn later(own: Option<MigOuts>, more: Option<MigOuts>) -> Option<MigOuts>
    ensures { map graphed_of (option_to_list result)
        ≡ later (map graphed_of (option_to_list own)) (map graphed_of (option_to_list more)) }
{
    match more {
        None => own,
        Some(graph) => Some(graph),
    }
}

/// The graph of the body of a flow that comes last in the text.
#[cycle(graphs)]
fn flow_graph(flow: Flow) -> Option<MigOuts>
    ensures { map graphed_of (option_to_list result) ≡ flow_graph (flow_of flow) }
{
    match flow {
        Flow::End => None,
        Flow::Do(body, next) => later(Some(body.into_graph()), flow_graph(Box::into_inner(next))),
        Flow::Put(_, next) => flow_graph(Box::into_inner(next)),
        Flow::If(_, some, none, next) => {
            let some = flow_graph(Box::into_inner(some));
            let none = flow_graph(Box::into_inner(none));
            later(later(some, none), flow_graph(Box::into_inner(next)))
        }
        Flow::Loop(_, turns, next) => {
            let turns = acts_graph(Box::into_inner(turns));
            later(turns, flow_graph(Box::into_inner(next)))
        }
    }
}

/// So it is of what a loop does.
#[cycle(graphs)]
fn acts_graph(turns: Turns) -> Option<MigOuts>
    ensures { map graphed_of (option_to_list result) ≡ acts_graph (acts_of turns) }
{
    match turns {
        Turns::Last(flow) => flow_graph(Box::into_inner(flow)),
        Turns::Turn(flow, more) => {
            let flow = flow_graph(Box::into_inner(flow));
            later(flow, acts_graph(Box::into_inner(more)))
        }
    }
}

/// The graph of a statement that is a serial block.
fn take_statement(s: &Stmt, flow: Flow, graphs: &mut Vec<MigOuts>) -> Result<(), NoMemory>
    ensures { OnOk result (map graphed_of graphs.new.items ≡ map graphed_of graphs.old.items
        ++ statement_graph (statement s.now) (flow_of flow)) }
{
    match s {
        Stmt::Word { .. } => Ok(()),
        Stmt::Serial { .. } => match flow_graph(flow) {
            None => Ok(()),
            Some(graph) => keep(graphs, graph),
        },
    }
}

/// The graphs of an operation's serial blocks, in the order of the text, out of the flows of its
/// statements.
pub fn take_graphs(op: &Op, lowered: Lowered, graphs: &mut Vec<MigOuts>) -> Result<(), NoMemory>
    ensures { OnOk result (map graphed_of graphs.new.items ≡ map graphed_of graphs.old.items
        ++ graphs_in (operation op.now).body (map flow_of lowered.flows.items)) }
{
    for (s, flow) in op.body.iter().zip(lowered.flows) {
        take_statement(s, flow, graphs)?;
    }
    Ok(())
}
