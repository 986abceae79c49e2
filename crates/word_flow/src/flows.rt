//! Flows by their lines, from the last line to the first.

ghost use Rattle.std.specs.Prelude.{◌≡◌, List, map, reverse, IfOk, OnOk, true};
ghost use Rattle.loop_ir.specs.Plain.{flow_of, acts_of, Block};
ghost use Rattle.loop_ir.specs.Flows.{FlowOf};
ghost use Rattle.loop_ir.specs.Flows.FlowOf.{If, Loop};
ghost use Rattle.loop_ir.specs.Flows.TurnsOf.{Last, Turn};
ghost use Rattle.word_flow.specs.Plans.{first_of, others_of, line_on, flows_on};
ghost use Rattle.word_flow.specs.Bodies.{coded_on, line_holds, lines_hold};

use crate::bodies::body;
use crate::shapes::Line;
use faults::keep;
use loop_ir::{Flow, Slot, Turns};
use mig_graph::NoMemory;
use std::alloc::Global;

/// The flow that was begun last, which is taken away; none is an empty one.
fn take(flows: &mut Vec<Flow>) -> Flow
    ensures first { (fs : List (FlowOf Block)) → map flow_of flows.old.items ≡ reverse fs
        → flow_of result ≡ first_of fs }
    ensures others { (fs : List (FlowOf Block)) → map flow_of flows.old.items ≡ reverse fs
        → map flow_of flows.new.items ≡ reverse (others_of fs) }
{
    match flows.pop() {
        Some(f) => f,
        None => Flow::End,
    }
}

/// The same in a box.
fn boxed(flows: &mut Vec<Flow>, alloc: Global) -> Result<Box<Flow>, NoMemory>
    ensures first { IfOk result (λ b. (fs : List (FlowOf Block))
        → map flow_of flows.old.items ≡ reverse fs → flow_of b.value ≡ first_of fs) }
    ensures others { OnOk result ((fs : List (FlowOf Block))
        → map flow_of flows.old.items ≡ reverse fs
        → map flow_of flows.new.items ≡ reverse (others_of fs)) }
{
    let f = Box::new(alloc, take(flows))?;
    Ok(f)
}

/// A choice between the two that were begun last, before the next one.
fn choice(flows: &mut Vec<Flow>, register: u8, alloc: Global) -> Result<Flow, NoMemory>
    ensures first { IfOk result (λ f. (fs : List (FlowOf Block))
        → map flow_of flows.old.items ≡ reverse fs
        → flow_of f ≡ If register (first_of fs) (first_of (others_of fs))
        (first_of (others_of (others_of fs)))) }
    ensures others { OnOk result ((fs : List (FlowOf Block))
        → map flow_of flows.old.items ≡ reverse fs
        → map flow_of flows.new.items ≡ reverse (others_of (others_of (others_of fs)))) }
{
    let some = boxed(flows, alloc)?;
    let none = boxed(flows, alloc)?;
    let next = boxed(flows, alloc)?;
    Ok(Flow::If(register, some, none, next))
}

/// The last turn of a loop.
fn last(flows: &mut Vec<Flow>, alloc: Global) -> Result<Turns, NoMemory>
    ensures first { IfOk result (λ t. (fs : List (FlowOf Block))
        → map flow_of flows.old.items ≡ reverse fs → acts_of t ≡ Last (first_of fs)) }
    ensures others { OnOk result ((fs : List (FlowOf Block))
        → map flow_of flows.old.items ≡ reverse fs
        → map flow_of flows.new.items ≡ reverse (others_of fs)) }
{
    let f = boxed(flows, alloc)?;
    Ok(Turns::Last(f))
}

/// Two turns of a loop.
fn two(flows: &mut Vec<Flow>, alloc: Global) -> Result<Turns, NoMemory>
    ensures first { IfOk result (λ t. (fs : List (FlowOf Block))
        → map flow_of flows.old.items ≡ reverse fs
        → acts_of t ≡ Turn (first_of fs) (Last (first_of (others_of fs)))) }
    ensures others { OnOk result ((fs : List (FlowOf Block))
        → map flow_of flows.old.items ≡ reverse fs
        → map flow_of flows.new.items ≡ reverse (others_of (others_of fs))) }
{
    let f = boxed(flows, alloc)?;
    let turns = last(flows, alloc)?;
    let more = Box::new(alloc, turns)?;
    Ok(Turns::Turn(f, more))
}

/// A loop of such turns, before the next flow.
fn looped(
    flows: &mut Vec<Flow>,
    register: u8,
    turns: Turns,
    alloc: Global,
) -> Result<Flow, NoMemory>
    ensures first { IfOk result (λ f. (fs : List (FlowOf Block))
        → map flow_of flows.old.items ≡ reverse fs
        → flow_of f ≡ Loop register (acts_of turns) (first_of fs)) }
    ensures others { OnOk result ((fs : List (FlowOf Block))
        → map flow_of flows.old.items ≡ reverse fs
        → map flow_of flows.new.items ≡ reverse (others_of fs)) }
{
    let turns = Box::new(alloc, turns)?;
    let next = boxed(flows, alloc)?;
    Ok(Flow::Loop(register, turns, next))
}

/// What a line makes of the flows that were begun.
fn begun(
    flows: &mut Vec<Flow>,
    line: &Line,
    owners: &[Slot],
    alloc: Global,
) -> Result<Flow, NoMemory>
    requires { line_holds line.now ≡ true }
    ensures first { IfOk result (λ f. (fs : List (FlowOf Block))
        → map flow_of flows.old.items ≡ reverse fs
        → flow_of f ≡ first_of (line_on (coded_on owners.now) line.now fs)) }
    ensures others { OnOk result ((fs : List (FlowOf Block))
        → map flow_of flows.old.items ≡ reverse fs
        → map flow_of flows.new.items ≡ reverse (others_of (line_on (coded_on owners.now) line.now
        fs))) }
{
    match line {
        Line::Do(c) => {
            let made = body(c, owners, alloc)?;
            let next = boxed(flows, alloc)?;
            Ok(Flow::Do(made, next))
        }
        Line::Put(m) => {
            let next = boxed(flows, alloc)?;
            Ok(Flow::Put(*m, next))
        }
        Line::If(register) => choice(flows, *register, alloc),
        Line::Loop(register) => {
            let turns = last(flows, alloc)?;
            looped(flows, *register, turns, alloc)
        }
        Line::LoopTwo(register) => {
            let turns = two(flows, alloc)?;
            looped(flows, *register, turns, alloc)
        }
        Line::Done => Ok(Flow::End),
    }
}

/// The flow of a table's lines.
pub fn flow(lines: &[Line], owners: &[Slot], alloc: Global) -> Result<Flow, NoMemory>
    requires { lines_hold lines.now ≡ true }
    ensures { IfOk result (λ f. flow_of f ≡ first_of (flows_on (coded_on owners.now) lines.now)) }
{
    let mut flows = Vec::new(alloc);
    for k in (0..lines.len()).rev() {
        let f = begun(&mut flows, &lines[k], owners, alloc)?;
        keep(&mut flows, f)?;
    }
    Ok(take(&mut flows))
}
