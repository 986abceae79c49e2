//! The code of flows.

ghost use Rattle.std.specs.Prelude.{◌≡◌, ◌<◌, ◌≤◌, ◌+◌, ◌^◌, ◌++◌, ◌∷◌, [], length, OnOk};
ghost use Rattle.loop_ir.specs.Plain.{flow_of, acts_of};
ghost use Rattle.loop_ir.specs.Flows.{flow_size, acts_size, AllFlow, AllActs};
ghost use Rattle.loop_ir.specs.Costs.{body_cost};
ghost use Rattle.loop_ir.specs.Limits.{IsSmall};
ghost use Rattle.uprog_gen.specs.FlowCode.{uop_of, leave};
ghost use Rattle.uprog_gen.specs.Emits.{EmitsFlow, EmitsActs};

use crate::emit::push_commands;
use faults::keep;
use loop_ir::{Flow, Move, Turns};
use mig_graph::NoMemory;
use uprog_code::Uop;

/// The instruction of a move.
fn uop_of(m: Move) -> Uop
    ensures { result ≡ uop_of m }
{
    match m {
        Move::SetI(r, k) => Uop::SetI(r, k),
        Move::SetN(r) => Uop::SetN(r),
        Move::SetT(r) => Uop::SetT(r),
        Move::Mov(r, s) => Uop::Mov(r, s),
        Move::AddI(r, k) => Uop::AddI(r, k),
        Move::SubI(r, k) => Uop::SubI(r, k),
        Move::Add(r, s) => Uop::Add(r, s),
    }
}

/// A jump, by register 7.
fn push_leave(code: &mut Vec<Uop>, to: u16) -> Result<(), NoMemory>
    ensures { OnOk result (code.new.items ≡ code.old.items ++ leave to) }
{
    keep(code, Uop::SetI(7, 1))?;
    keep(code, Uop::Bnez(7, to))
}

/// The code of a flow. The jumps past a branch or a loop get their targets when it stands.
#[cycle(flows)]
pub fn emit_flow(flow: &Flow, code: &mut Vec<Uop>) -> Result<(), NoMemory>
    requires small { AllFlow IsSmall (flow_of flow.now) }
    requires room { length code.old.items + flow_size body_cost (flow_of flow.now) + 8 < 2 ^ 16 }
    ensures emits { OnOk result (EmitsFlow (flow_of flow.now) code.old.items code.new.items) }
    ensures short { OnOk result (length code.new.items
        ≤ length code.old.items + flow_size body_cost (flow_of flow.now)) }
{
    match flow {
        Flow::End => Ok(()),
        Flow::Do(body, next) => {
            push_commands(code, body)?;
            emit_flow(next, code)
        }
        Flow::Put(m, next) => {
            keep(code, uop_of(*m))?;
            emit_flow(next, code)
        }
        Flow::If(r, some, none, next) => {
            let test = code.len();
            keep(code, Uop::Bnez(*r, 0))?;
            emit_flow(none, code)?;
            let jump = code.len() + 1;
            push_leave(code, 0)?;
            let there = code.len() as u16;
            code[test] = Uop::Bnez(*r, there);
            emit_flow(some, code)?;
            let past = code.len() as u16;
            code[jump] = Uop::Bnez(7, past);
            emit_flow(next, code)
        }
        Flow::Loop(r, turns, next) => {
            let out = code.len() + 1;
            let top = out + 2;
            keep(code, Uop::Bnez(*r, top as u16))?;
            push_leave(code, 0)?;
            emit_acts(turns, *r, top as u16, out as u16, code)?;
            let past = code.len() as u16;
            code[out + 1] = Uop::Bnez(7, past);
            emit_flow(next, code)
        }
    }
}

/// The code of a loop's turns, which come back to these two places.
#[cycle(flows)]
fn emit_acts(turns: &Turns, r: u8, top: u16, out: u16, code: &mut Vec<Uop>) -> Result<(), NoMemory>
    requires small { AllActs IsSmall (acts_of turns.now) }
    requires room { length code.old.items + acts_size body_cost (acts_of turns.now) + 8 < 2 ^ 16 }
    ensures emits { OnOk result (EmitsActs r top out (acts_of turns.now) code.old.items
        code.new.items) }
    ensures short { OnOk result (length code.new.items
        ≤ length code.old.items + acts_size body_cost (acts_of turns.now)) }
{
    keep(code, Uop::SubI(r, 1))?;
    match turns {
        Turns::Last(flow) => {
            emit_flow(flow, code)?;
            keep(code, Uop::Bnez(r, top))
        }
        Turns::Turn(flow, more) => {
            emit_flow(flow, code)?;
            let next = code.len() as u16 + 3;
            keep(code, Uop::Bnez(r, next))?;
            push_leave(code, out)?;
            emit_acts(more, r, top, out, code)
        }
    }
}
