//! The flow of a loop whose last body is another.

ghost use Rattle.std.specs.Prelude.{◌≡◌, IfOk};
ghost use Rattle.loop_ir.specs.Plain.{block_of, flow_of};
ghost use Rattle.loop_ir.specs.Flows.FlowOf.{Do, End};
ghost use Rattle.block_lower.specs.Held.{each_last};

use loop_ir::{Body, Flow, Move, Turns};
use mig_graph::NoMemory;
use std::alloc::Global;

/// The body alone.
fn alone(body: Body, alloc: Global) -> Result<Box<Flow>, NoMemory>
    ensures { IfOk result (λ r. flow_of r.value ≡ Do (block_of body) End) }
{
    let end = Box::new(alloc, Flow::End)?;
    let flow = Box::new(alloc, Flow::Do(body, end))?;
    Ok(flow)
}

/// First a start; then one body at each position but the top one, and another one there. Register 0
/// is the position, and register 1 counts those that come after it.
pub(crate) fn each_last(
    start: Body,
    each: Body,
    last: Body,
    alloc: Global,
) -> Result<Flow, NoMemory>
    ensures { IfOk result (λ r. flow_of r ≡ each_last (block_of start) (block_of each)
        (block_of last)) }
{
    let each = alone(each, alloc)?;
    let last = alone(last, alloc)?;
    let end = Box::new(alloc, Flow::End)?;
    let up = Box::new(alloc, Flow::Put(Move::AddI(0, 1), end))?;
    let position = Box::new(alloc, Flow::If(1, each, last, up))?;
    let turns = Box::new(alloc, Turns::Last(position))?;
    let end = Box::new(alloc, Flow::End)?;
    let positions = Box::new(alloc, Flow::Loop(1, turns, end))?;
    let count = Box::new(alloc, Flow::Put(Move::SetN(1), positions))?;
    Ok(Flow::Do(start, count))
}
