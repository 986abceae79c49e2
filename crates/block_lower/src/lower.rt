//! The loop program of a serial block.

ghost use Rattle.std.specs.Prelude.{◌≡◌, map, IfOk, IfSome};
ghost use Rattle.mig_graph.specs.Outputs.{AreNamed};
ghost use Rattle.op_text.specs.Language.{Visit};
ghost use Rattle.loop_ir.specs.Plain.{block_of, step_of, steps_of};
ghost use Rattle.loop_ir.specs.Statements.{slots_of, BlockMeets, IsPlaced};
ghost use Rattle.loop_ir.specs.Lowered.{IsLowered};
ghost use Rattle.block_lower.specs.Inputs.{block_from};
ghost use Rattle.block_lower.specs.Form.{start, row_steps, IsChosen, IsBlockProgram};

use crate::body::{BlockBody, block_body, constant};
use crate::held::{commands_of, fewer_loop, own_loop};
use crate::places::place_of;
use crate::searched::Searched;
use faults::keep;
use loop_ir::{Body, LoopProgram, NameMap, Step};
use mig_graph::NoMemory;
use mig_rewrite::Sketch;
use op_text::{Assign, State};
use std::alloc::Global;

/// The steps that give the states their starts.
fn starts(
    down: bool,
    states: &[State],
    names: &NameMap,
    alloc: Global,
) -> Result<Vec<Step>, NoMemory>
    ensures { IfOk result (λ r. map step_of r.items
        ≡ map (start (slots_of names.now) down) states.now) }
{
    let mut steps = Vec::new(alloc);
    for state in states {
        let place = place_of(names, down, &state.name);
        keep(&mut steps, Step::Once(constant(state.start, place, alloc)?))?;
    }
    Ok(steps)
}

/// The steps with the states in rows.
fn row_loop(
    down: bool,
    states: &[State],
    body: Body,
    names: &NameMap,
    alloc: Global,
) -> Result<LoopProgram, NoMemory>
    ensures { IfOk result (λ p. steps_of p
        ≡ row_steps (slots_of names.now) down states.now (block_of body)) }
{
    let mut steps = starts(down, states, names, alloc)?;
    keep(&mut steps, Step::Each(body))?;
    Ok(LoopProgram { steps })
}

/// The loop of a block of one state with the state in cells, where its body, or else another, takes
/// fewer commands so.
fn in_cells(
    down: bool,
    states: &[State],
    body: &Body,
    offers: &[Sketch],
    names: &NameMap,
    searched: &mut Searched,
    number: usize,
    alloc: Global,
) -> Result<Option<LoopProgram>, NoMemory>
    requires { AreNamed body.now.graph.mig body.now.graph.outs.items }
    ensures { IfOk result (λ o. IfSome o (λ p. IsChosen (slots_of names.now) down states.now
        (block_of body.now) (steps_of p))) }
{
    match states {
        [state] => {
            let place = place_of(names, down, &state.name);
            let most = body.found.len();
            let own = own_loop(place, state.start, body, offers.is_empty(), most, alloc)?;
            let few = commands_of(&own, most);
            if let Some(other) = fewer_loop(
                place,
                state.start,
                body,
                offers,
                few,
                most,
                searched,
                number,
                alloc,
            )? {
                return other.into_program(alloc);
            }
            match own {
                Some(own) => own.into_program(body, alloc),
                None => Ok(None),
            }
        }
        _ => Ok(None),
    }
}

/// The loop program that does a block's body at each position: with its states in rows, or its one
/// state in cells, where that was found to take fewer commands than the body carries.
pub fn block_loop(
    down: bool,
    states: &[State],
    block: BlockBody,
    names: &NameMap,
    searched: &mut Searched,
    alloc: Global,
) -> Result<LoopProgram, NoMemory>
    requires { AreNamed block.body.graph.mig block.body.graph.outs.items }
    ensures { IfOk result (λ p. IsChosen (slots_of names.now) down states.now
        (block_of block.body) (steps_of p)) }
{
    let BlockBody {
        body,
        offers,
        number,
    } = block;
    match in_cells(down, states, &body, &offers, names, searched, number, alloc)? {
        Some(program) => Ok(program),
        None => row_loop(down, states, body, names, alloc),
    }
}

/// The loop program of a serial block, whose names lie where the map says. What is searched for it
/// is put into the record, and a block that stands there is not searched again.
pub fn lower_block(
    down: bool,
    states: &[State],
    lets: &[Assign],
    assigns: &[Assign],
    names: &NameMap,
    searched: &mut Searched,
    alloc: Global,
) -> Result<LoopProgram, NoMemory>
    requires meets { BlockMeets (slots_of names.now)
        (block_from down states.now lets.now assigns.now) }
    requires placed { IsPlaced (slots_of names.now) names.now.free_bit names.now.free_word
        (Visit (block_from down states.now lets.now assigns.now)) }
    ensures form { IfOk result (λ p. IsBlockProgram (slots_of names.now)
        (block_from down states.now lets.now assigns.now) (steps_of p)) }
    ensures lowered { IfOk result (λ p. IsLowered (slots_of names.now) names.now.free_bit
        names.now.free_word (Visit (block_from down states.now lets.now assigns.now))
        (steps_of p)) }
{
    let block = block_body(down, lets, assigns, names, searched, alloc)?;
    block_loop(down, states, block, names, searched, alloc)
}
