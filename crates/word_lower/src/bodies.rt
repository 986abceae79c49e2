//! Bodies and steps of loop programs.

ghost use Rattle.std.specs.Prelude.{◌≡◌, ◌<◌, ◌≤◌, ◌+◌, ◌++◌, ◌∷◌, [], ℕ, List, length, map, IfOk};
ghost use Rattle.std.specs.Prelude.{OnOk, Some, None, true};
ghost use Rattle.loop_ir.specs.Plain.{block_of, step_of, steps_of, step_map};
ghost use Rattle.loop_ir.specs.Plain.{Block, StepOf, AllParts, AllStep};
ghost use Rattle.loop_laws.specs.Forms.{IsMade};
ghost use Rattle.word_lower.specs.Places.{slot_at, place_on, body_on, program_on};
ghost use Rattle.word_lower.specs.Programs.{mark_of, form_body, line_step};
ghost use Rattle.word_lower.specs.Lines.{lines_steps};

use crate::graphs::templated;
use crate::literals::{N1, OFF, ON, P1, P3, P4, P5, P6};
use crate::shapes::BodyForm::{
    Added, Agreed, Both, Chosen, Compared, Either, Inverted, Lessened, Moved, Off, On, Ordered,
    Reset, Set, SetBoth, Unlike,
};
use crate::shapes::{BodyForm, Mark, Owner, ProgramLine};
use crate::slots::{cells, place_in, slot_at};
use crate::templates::{
    ADDED, BOTH, CHOSEN, COMPARED, COPY, EITHER, LESSENED, ONE, ORDERED, UNLIKE, ZERO,
};
use faults::keep;
use loop_ir::{Body, LoopProgram, Place, Slot, Step};
use mig_graph::NoMemory;
use row_alloc::known::{ADD, AND, CHOICE, NOT, OR, XOR};
use row_alloc::known_held::{AGREE, COMPARE, LESSEN, ORDER, RESET, SET, SET_BOTH};
use std::alloc::Global;

impl Mark {
    /// The place that it is, where the owners have these rows.
    pub fn at(self, owners: &[Slot]) -> Place
        ensures { result ≡ place_on (slot_at owners.now) (mark_of self) }
    {
        let slot = match self.owner {
            Owner::Row(k) => slot_at(owners, k),
            Owner::Cells(layout) => cells(layout),
        };
        place_in(slot, self.sub)
    }
}

/// The body of a shape, with its commands.
fn body(shape: BodyForm, owners: &[Slot], alloc: Global) -> Result<Body, NoMemory>
    ensures same { IfOk result (λ b. block_of b ≡ body_on (slot_at owners.now) (form_body shape)) }
    ensures made { IfOk result (λ b. IsMade (block_of b)) }
{
    let (o, a) = (owners, alloc);
    match shape {
        Off(z) => templated(&[], &[], &[OFF], &[z.at(o)], &ZERO, a),
        On(z) => templated(&[], &[], &[ON], &[z.at(o)], &ONE, a),
        Moved(x, z) => templated(&[x.at(o)], &[], &[P1], &[z.at(o)], &COPY, a),
        Inverted(x, z) => templated(&[x.at(o)], &[], &[N1], &[z.at(o)], &NOT, a),
        Both(x, y, z) => templated(&[x.at(o), y.at(o)], &BOTH, &[P3], &[z.at(o)], &AND, a),
        Either(x, y, z) => templated(&[x.at(o), y.at(o)], &EITHER, &[P3], &[z.at(o)], &OR, a),
        Unlike(x, y, z) => templated(&[x.at(o), y.at(o)], &UNLIKE, &[P5], &[z.at(o)], &XOR, a),
        Chosen(x, y, s, z) => {
            let reads = [x.at(o), y.at(o), s.at(o)];
            templated(&reads, &CHOSEN, &[P6], &[z.at(o)], &CHOICE, a)
        }
        Added(x, y, c, z) => {
            let reads = [x.at(o), y.at(o), c.at(o)];
            templated(&reads, &ADDED, &[P6, P4], &[z.at(o), c.at(o)], &ADD, a)
        }
        Reset(g) => templated(&[], &[], &[OFF], &[g.at(o)], &RESET, a),
        Set(g) => templated(&[], &[], &[ON], &[g.at(o)], &SET, a),
        SetBoth(g, h) => templated(&[], &[], &[ON, ON], &[g.at(o), h.at(o)], &SET_BOTH, a),
        Lessened(x, y, c, z) => {
            let reads = [x.at(o), y.at(o), c.at(o)];
            let writes = [z.at(o), c.at(o)];
            templated(&reads, &LESSENED, &[P6, P5], &writes, &LESSEN, a)
        }
        Compared(x, y, g, z) => {
            let reads = [x.at(o), y.at(o), g.at(o)];
            let writes = [z.at(o), g.at(o)];
            templated(&reads, &COMPARED, &[P4, P4], &writes, &COMPARE, a)
        }
        Ordered(x, y, g, h) => {
            let reads = [x.at(o), y.at(o), g.at(o), h.at(o)];
            templated(&reads, &ORDERED, &[P5, P6], &[g.at(o), h.at(o)], &ORDER, a)
        }
        Agreed(g, h, z) => templated(&[g.at(o), h.at(o)], &BOTH, &[P3], &[z.at(o)], &AGREE, a),
    }
}

/// The step of a line.
fn step(line: ProgramLine, owners: &[Slot], alloc: Global) -> Result<Step, NoMemory>
    ensures same { IfOk result (λ s. step_of s ∷ []
        ≡ program_on (slot_at owners.now) (line_step line ∷ [])) }
    ensures made { IfOk result (λ s. AllStep IsMade (step_of s)) }
{
    match line {
        ProgramLine::Once(shape) => Ok(Step::Once(body(shape, owners, alloc)?)),
        ProgramLine::Each(shape) => Ok(Step::Each(body(shape, owners, alloc)?)),
    }
}

/// One more step, where there is a line.
fn add_step(
    steps: &mut Vec<Step>,
    line: Option<ProgramLine>,
    owners: &[Slot],
    alloc: Global,
) -> Result<(), NoMemory>
    ensures same { OnOk result (map step_of steps.new.items ≡ map step_of steps.old.items
        ++ program_on (slot_at owners.now) (lines_steps (line ∷ []))) }
    ensures made { OnOk result (AllParts IsMade (map step_of steps.old.items)
        → AllParts IsMade (map step_of steps.new.items)) }
{
    match line {
        None => Ok(()),
        Some(l) => {
            let s = step(l, owners, alloc)?;
            keep(steps, s)?;
            Ok(())
        }
    }
}

/// The program of lines.
pub fn program(
    lines: &[Option<ProgramLine>],
    owners: &[Slot],
    alloc: Global,
) -> Result<LoopProgram, NoMemory>
    ensures same { IfOk result (λ p. steps_of p
        ≡ program_on (slot_at owners.now) (lines_steps lines.now)) }
    ensures made { IfOk result (λ p. AllParts IsMade (steps_of p)) }
{
    let mut steps = Vec::new(alloc);
    for line in lines {
        add_step(&mut steps, *line, owners, alloc)?;
    }
    Ok(LoopProgram { steps })
}
