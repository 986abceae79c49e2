//! The code of an operation.

ghost use Rattle.std.specs.Prelude.{◌≡◌, ℕ, ◌<◌, ◌≤◌, List, length, map, IfOk};
ghost use Rattle.std.specs.List.{AllByRecursion};
ghost use Rattle.uprog_code.specs.Shape.{shape_of};
ghost use Rattle.loop_ir.specs.Plain.{flow_of, StepOf, Block};
ghost use Rattle.loop_ir.specs.Flows.{AllFlow, flow_size};
ghost use Rattle.loop_ir.specs.Costs.{body_cost};
ghost use Rattle.loop_ir.specs.Limits.{IsSmall};
ghost use Rattle.uprog_gen.specs.Where.{IsSpot};
ghost use Rattle.uprog_gen.specs.Entries.{AreFlowsOf, IsCodeOf};

use crate::flow::emit_flow;
use faults::keep;
use loop_ir::Flow;
use mig_graph::NoMemory;
use std::alloc::Global;
use uprog_code::{EntryCode, Head, Uop};

/// The code of an operation whose statements have these flows.
///
/// It is an `Err` only where it runs out of memory.
pub fn compile_entry(head: Head, flows: &[Flow], alloc: Global) -> Result<EntryCode, NoMemory>
    requires small { AllByRecursion (AllFlow IsSmall) (map flow_of flows.now) }
    requires short { AllByRecursion (λ f. flow_size body_cost f ≤ 256) (map flow_of flows.now) }
    requires few { length flows.now ≤ 16 }

    ensures head { IfOk result (λ entry. entry.head ≡ head) }
    // It is the code of whichever loop programs these are the flows of.
    ensures code { IfOk result (λ entry. (statements : List (List (StepOf Block)))
        → AreFlowsOf (IsSpot (shape_of head)) statements (map flow_of flows.now)
        → IsCodeOf (shape_of head) statements entry.code.items) }
{
    let mut code = Vec::new(alloc);
    for flow in flows {
        emit_flow(flow, &mut code)?;
    }
    keep(&mut code, Uop::Done)?;
    Ok(EntryCode { head, code })
}
