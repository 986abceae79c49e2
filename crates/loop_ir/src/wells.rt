//! When a loop program is well formed.

ghost use Rattle.std.specs.Prelude.{◌≡◌, ◌↔◌, ◌<◌, ℕ, true, length, map};
ghost use Rattle.mig_graph.specs.Outputs.{AreNamed};
ghost use Rattle.loop_ir.specs.Plain.{block_of, step_of, steps_of, flow_of, acts_of, AllStep};
ghost use Rattle.loop_ir.specs.Flows.{AllFlow, AllActs};
ghost use Rattle.loop_ir.specs.Spots.{nth_place};
ghost use Rattle.loop_ir.specs.WellFormed.{IsOneValue, IsWellFormed, AreWellFormed};

use crate::ir::{Body, Flow, LoopProgram, Place, Step, Turns};
use mig_graph::MigOuts;

/// Whether the two places are rows of one value.
fn is_one_value(p: Place, q: Place) -> bool
    ensures { (result ≡ true) ↔ IsOneValue p q }
{
    p.space == q.space && p.which == q.which
}

/// Whether they are rows of two values.
fn are_two_values(p: Place, q: Place) -> bool
    ensures { (result ≡ true) ↔ (IsOneValue p q → ⊥) }
{
    !is_one_value(p, q)
}

/// Whether they have one subscript, if they are rows of one value.
fn agree(p: Place, q: Place) -> bool
    ensures { (result ≡ true) ↔ (IsOneValue p q → p.sub ≡ q.sub) }
{
    p.sub == q.sub || !is_one_value(p, q)
}

/// Whether each output names a node.
fn are_named(g: &MigOuts) -> bool
    ensures { (result ≡ true) ↔ AreNamed g.now.mig g.now.outs.items }
{
    for out in &g.outs {
        if out.node >= g.mig.size() {
            return false;
        }
    }
    true
}

/// Whether the place is a row of none of these values.
fn is_apart(p: Place, others: &[Place]) -> bool
    ensures { (result ≡ true) ↔ ((k : ℕ) → k < length others.now
        → IsOneValue p (nth_place others.now k) → ⊥) }
{
    for other in others {
        if !are_two_values(p, *other) {
            return false;
        }
    }
    true
}

/// Whether no two of the places are rows of one value.
fn are_apart(places: &[Place]) -> bool
    ensures { (result ≡ true) ↔ ((i j : ℕ) → i < length places.now → j < length places.now
        → IsOneValue (nth_place places.now i) (nth_place places.now j) → i ≡ j) }
{
    match places {
        [] => true,
        [first, rest @ ..] => is_apart(*first, rest) && are_apart(rest),
    }
}

/// Whether the reads of the written value have the write's subscript.
fn agrees(write: Place, reads: &[Place]) -> bool
    ensures { (result ≡ true) ↔ ((k : ℕ) → k < length reads.now
        → IsOneValue write (nth_place reads.now k) → write.sub ≡ (nth_place reads.now k).sub) }
{
    for read in reads {
        if !agree(write, *read) {
            return false;
        }
    }
    true
}

/// Whether this is so for each write.
fn all_agree(writes: &[Place], reads: &[Place]) -> bool
    ensures { (result ≡ true) ↔ ((j k : ℕ) → j < length writes.now → k < length reads.now
        → IsOneValue (nth_place writes.now j) (nth_place reads.now k)
        → (nth_place writes.now j).sub ≡ (nth_place reads.now k).sub) }
{
    for write in writes {
        if !agrees(*write, reads) {
            return false;
        }
    }
    true
}

/// Whether a body is well formed.
fn is_well_formed(b: &Body) -> bool
    ensures { (result ≡ true) ↔ IsWellFormed (block_of b.now) }
{
    are_named(&b.graph)
        && b.graph.mig.inputs() as usize <= b.reads.len()
        && b.graph.outs.len() <= b.writes.len()
        && are_apart(&b.writes)
        && all_agree(&b.writes, &b.reads)
}

/// Whether the bodies of a flow are well formed.
#[cycle(flows)]
fn flow_is_well_formed(flow: &Flow) -> bool
    ensures { (result ≡ true) ↔ AllFlow IsWellFormed (flow_of flow.now) }
{
    match flow {
        Flow::End => true,
        Flow::Do(body, next) => is_well_formed(body) && flow_is_well_formed(next),
        Flow::Put(_, next) => flow_is_well_formed(next),
        Flow::If(_, some, none, next) => {
            flow_is_well_formed(some) && flow_is_well_formed(none) && flow_is_well_formed(next)
        }
        Flow::Loop(_, turns, next) => acts_are_well_formed(turns) && flow_is_well_formed(next),
    }
}

/// Whether the bodies of a loop's turns are well formed.
#[cycle(flows)]
fn acts_are_well_formed(turns: &Turns) -> bool
    ensures { (result ≡ true) ↔ AllActs IsWellFormed (acts_of turns.now) }
{
    match turns {
        Turns::Last(flow) => flow_is_well_formed(flow),
        Turns::Turn(flow, more) => flow_is_well_formed(flow) && acts_are_well_formed(more),
    }
}

/// Whether the bodies of a step are well formed.
fn step_is_well_formed(step: &Step) -> bool
    ensures { (result ≡ true) ↔ AllStep IsWellFormed (step_of step.now) }
{
    match step {
        Step::Once(body) => is_well_formed(body),
        Step::Each(body) => is_well_formed(body),
        Step::Flow(flow) => flow_is_well_formed(flow),
    }
}

/// Whether the bodies of these steps are well formed.
fn steps_are_well_formed(steps: &[Step]) -> bool
    ensures { (result ≡ true) ↔ AreWellFormed (map step_of steps.now) }
{
    match steps {
        [] => true,
        [first, rest @ ..] => step_is_well_formed(first) && steps_are_well_formed(rest),
    }
}

/// Whether a loop program is well formed.
pub fn well_formed(p: &LoopProgram) -> bool
    ensures { (result ≡ true) ↔ AreWellFormed (steps_of p.now) }
{
    steps_are_well_formed(&p.steps)
}
