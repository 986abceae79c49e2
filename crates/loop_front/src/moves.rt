//! Moves before a flow.

ghost use Rattle.std.specs.Prelude.{◌≡◌, ◌+◌, ◌≤◌, length, map, IfOk};
ghost use Rattle.loop_ir.specs.Plain.{flow_of};
ghost use Rattle.loop_ir.specs.Flows.FlowOf.{Put};
ghost use Rattle.loop_ir.specs.declared.ir.Move.TheVariants.{SetI};
ghost use Rattle.loop_front.specs.Front.{put_all, start, before, after, each_sub};
ghost use Rattle.loop_front.specs.Moments.{moves_at};

use loop_ir::{Flow, Move, Sub};
use mig_graph::NoMemory;
use std::alloc::Global;

/// When a subscript's register is moved: at index 0, before each round, or after it.
#[derive(Clone, Copy, PartialEq, Eq)]
pub enum Moment {
    Start,
    Before,
    After,
}

/// A move, and then this flow.
pub fn put(m: Move, next: Flow, alloc: Global) -> Result<Flow, NoMemory>
    ensures { IfOk result (λ f. flow_of f ≡ Put m (flow_of next)) }
{
    let next = Box::new(alloc, next)?;
    Ok(Flow::Put(m, next))
}

/// The register gets the subscript's value at index 0.
fn put_start(s: Sub, r: u8, next: Flow, alloc: Global) -> Result<Flow, NoMemory>
    ensures { IfOk result (λ f. flow_of f ≡ put_all (start s r) (flow_of next)) }
{
    match s {
        Sub::Zero | Sub::Register(_) => Ok(next),
        Sub::Inner => put(Move::SetI(r, 0), next, alloc),
        Sub::InnerDown => put(Move::SetN(r), next, alloc),
    }
}

/// What is done to the register of a subscript before each round.
fn put_before(s: Sub, r: u8, next: Flow, alloc: Global) -> Result<Flow, NoMemory>
    ensures { IfOk result (λ f. flow_of f ≡ put_all (before s r) (flow_of next)) }
{
    match s {
        Sub::InnerDown => put(Move::SubI(r, 1), next, alloc),
        Sub::Zero | Sub::Inner | Sub::Register(_) => Ok(next),
    }
}

/// What is done to the register of a subscript after each round.
fn put_after(s: Sub, r: u8, next: Flow, alloc: Global) -> Result<Flow, NoMemory>
    ensures { IfOk result (λ f. flow_of f ≡ put_all (after s r) (flow_of next)) }
{
    match s {
        Sub::Inner => put(Move::AddI(r, 1), next, alloc),
        Sub::Zero | Sub::InnerDown | Sub::Register(_) => Ok(next),
    }
}

/// What is done to the register of a subscript at this moment.
fn put_sub(moment: Moment, s: Sub, r: u8, next: Flow, alloc: Global) -> Result<Flow, NoMemory>
    ensures { IfOk result (λ f. flow_of f ≡ put_all (moves_at moment s r) (flow_of next)) }
{
    match moment {
        Moment::Start => put_start(s, r, next, alloc),
        Moment::Before => put_before(s, r, next, alloc),
        Moment::After => put_after(s, r, next, alloc),
    }
}

/// What is done to the registers of these subscripts, of which the first has register r.
pub fn put_subs(
    moment: Moment,
    subs: &[Sub],
    r: u8,
    next: Flow,
    alloc: Global,
) -> Result<Flow, NoMemory>
    requires { r + length subs.now ≤ 255 }
    ensures { IfOk result (λ f. flow_of f
        ≡ put_all (each_sub (moves_at moment) subs.now r) (flow_of next)) }
{
    match subs {
        [] => Ok(next),
        [first, rest @ ..] => {
            let next = put_subs(moment, rest, r + 1, next, alloc)?;
            put_sub(moment, *first, r, next, alloc)
        }
    }
}

/// These registers get 0.
pub fn put_zeros(registers: &[u8], next: Flow, alloc: Global) -> Result<Flow, NoMemory>
    ensures { IfOk result (λ f. flow_of f
        ≡ put_all (map (λ r. SetI r 0) registers.now) (flow_of next)) }
{
    match registers {
        [] => Ok(next),
        [first, rest @ ..] => {
            let next = put_zeros(rest, next, alloc)?;
            put(Move::SetI(*first, 0), next, alloc)
        }
    }
}
