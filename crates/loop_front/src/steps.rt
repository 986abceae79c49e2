//! The flow of each step.

ghost use Rattle.std.specs.Prelude.{◌≡◌, ℕ, Bool, true, ◌≤◌, length, IfOk};
ghost use Rattle.loop_ir.specs.Plain.{block_of, step_of, steps_of, flow_of};
ghost use Rattle.loop_ir.specs.Flows.FlowOf.{Do, Loop};
ghost use Rattle.loop_ir.specs.Flows.TurnsOf.{Last};
ghost use Rattle.loop_ir.specs.Limits.{CanCompile};
ghost use Rattle.loop_ir.specs.Spots.{Spot};
ghost use Rattle.loop_front.specs.Front.{used_subs, round_flow, each_flow, followed, step_flow};
ghost use Rattle.loop_front.specs.Front.{steps_flow, front};
ghost use Rattle.loop_front.specs.FlowOfSteps.{IsFlowOf};

use crate::moves::{Moment, put, put_subs, put_zeros};
use crate::names::cleared;
use crate::places::{in_registers, used_subs};
use loop_ir::{Body, Flow, LoopProgram, Move, Step, Sub, Turns};
use mig_graph::NoMemory;
use std::alloc::Global;

/// A loop of one turn, and then this flow.
fn looped(register: u8, turn: Flow, next: Flow, alloc: Global) -> Result<Flow, NoMemory>
    ensures { IfOk result (λ f. flow_of f ≡ Loop register (Last (flow_of turn)) (flow_of next)) }
{
    let turn = Box::new(alloc, turn)?;
    let turns = Box::new(alloc, Turns::Last(turn))?;
    let next = Box::new(alloc, next)?;
    Ok(Flow::Loop(register, turns, next))
}

/// A body, and then this flow.
fn done(body: Body, next: Flow, alloc: Global) -> Result<Flow, NoMemory>
    ensures { IfOk result (λ f. flow_of f ≡ Do (block_of body) (flow_of next)) }
{
    let next = Box::new(alloc, next)?;
    Ok(Flow::Do(body, next))
}

/// One round of a body, and then this flow.
fn round_flow(body: Body, subs: &[Sub], next: Flow, alloc: Global) -> Result<Flow, NoMemory>
    requires are { subs.now ≡ used_subs (block_of body) }
    requires few { length subs.now ≤ 2 }
    ensures { IfOk result (λ f. flow_of f ≡ round_flow (block_of body) (flow_of next)) }
{
    let round = done(in_registers(body, subs), next, alloc)?;
    put_subs(Moment::Before, subs, 3, round, alloc)
}

/// A body at each index.
fn each_flow(body: Body, next: Flow, alloc: Global) -> Result<Flow, NoMemory>
    ensures { IfOk result (λ f. flow_of f ≡ each_flow (block_of body) (flow_of next)) }
{
    let subs = used_subs(&body, alloc)?;
    let after = put_subs(Moment::After, &subs, 3, Flow::End, alloc)?;
    let round = round_flow(body, &subs, after, alloc)?;
    let rounds = looped(2, round, next, alloc)?;
    let started = put_subs(Moment::Start, &subs, 3, rounds, alloc)?;
    put(Move::SetN(2), started, alloc)
}

/// The second flow after the first.
fn followed(first: Flow, second: Flow, alloc: Global) -> Result<Flow, NoMemory>
    ensures { IfOk result (λ f. flow_of f ≡ followed (flow_of first) (flow_of second)) }
{
    match first {
        Flow::End => Ok(second),
        Flow::Do(body, next) => {
            let next = followed(Box::into_inner(next), second, alloc)?;
            done(body, next, alloc)
        }
        Flow::Put(m, next) => {
            let next = followed(Box::into_inner(next), second, alloc)?;
            put(m, next, alloc)
        }
        Flow::If(r, some, none, next) => {
            let next = followed(Box::into_inner(next), second, alloc)?;
            let next = Box::new(alloc, next)?;
            Ok(Flow::If(r, some, none, next))
        }
        Flow::Loop(r, turns, next) => {
            let next = followed(Box::into_inner(next), second, alloc)?;
            let next = Box::new(alloc, next)?;
            Ok(Flow::Loop(r, turns, next))
        }
    }
}

/// The flow of a step, and then this one.
fn step_flow(step: Step, next: Flow, alloc: Global) -> Result<Flow, NoMemory>
    ensures { IfOk result (λ f. flow_of f ≡ step_flow (step_of step) (flow_of next)) }
{
    match step {
        Step::Once(body) => done(body, next, alloc),
        Step::Each(body) => each_flow(body, next, alloc),
        Step::Flow(flow) => {
            let registers = cleared(&flow, alloc)?;
            let flow = followed(flow, next, alloc)?;
            put_zeros(&registers, flow, alloc)
        }
    }
}

/// The flow of a loop program, which runs right whatever its registers hold as it begins.
///
/// It is an `Err` only where it runs out of memory.
pub fn front(program: LoopProgram, alloc: Global) -> Result<Flow, NoMemory>
    ensures flow { IfOk result (λ f. flow_of f ≡ front (steps_of program)) }
    ensures does { IfOk result (λ f. (rows : ℕ → Spot → Bool)
        → CanCompile (λ n q. rows n q ≡ true) (steps_of program)
        → IsFlowOf (λ n q. rows n q ≡ true) (steps_of program) (flow_of f)) }
{
    let mut steps = program.steps;
    let mut flow = Flow::End;
    while let Some(step) = steps.pop() {
        flow = step_flow(step, flow, alloc)?;
    }
    Ok(flow)
}
