//! The registers that a flow's forms name.

ghost use Rattle.std.specs.Prelude.{◌≡◌, IfOk};
ghost use Rattle.loop_ir.specs.Plain.{flow_of, acts_of};
ghost use Rattle.loop_ir.specs.FlowTests.{is_moved, names, any_names, cleared};

use faults::keep;
use loop_ir::{Flow, Move, Turns};
use mig_graph::NoMemory;
use std::alloc::Global;

/// Whether the move sets or reads the register.
fn is_moved(r: u8, m: Move) -> bool
    ensures { result ≡ is_moved r m }
{
    match m {
        Move::SetI(s, _) | Move::AddI(s, _) | Move::SubI(s, _) => s == r,
        Move::SetN(s) | Move::SetT(s) => s == r,
        Move::Mov(s, t) | Move::Add(s, t) => s == r || t == r,
    }
}

/// Whether the register stands in some form of the flow.
#[cycle(names)]
fn names(r: u8, flow: &Flow) -> bool
    ensures { result ≡ names r (flow_of flow.now) }
{
    match flow {
        Flow::End => false,
        Flow::Do(_, next) => names(r, next),
        Flow::Put(m, next) => is_moved(r, *m) || names(r, next),
        Flow::If(s, some, none, next) => {
            *s == r || (names(r, some) || (names(r, none) || names(r, next)))
        }
        Flow::Loop(s, turns, next) => *s == r || (any_names(r, turns) || names(r, next)),
    }
}

/// Whether it stands in some form of what a loop does.
#[cycle(names)]
fn any_names(r: u8, turns: &Turns) -> bool
    ensures { result ≡ any_names r (acts_of turns.now) }
{
    match turns {
        Turns::Last(flow) => names(r, flow),
        Turns::Turn(flow, more) => names(r, flow) || any_names(r, more),
    }
}

/// The registers that stand in its forms.
pub fn cleared(flow: &Flow, alloc: Global) -> Result<Vec<u8>, NoMemory>
    ensures { IfOk result (λ rs. rs.items ≡ cleared (flow_of flow.now)) }
{
    let mut registers = Vec::new(alloc);
    for r in 0..7 {
        if names(r, flow) {
            keep(&mut registers, r)?;
        }
    }
    Ok(registers)
}
