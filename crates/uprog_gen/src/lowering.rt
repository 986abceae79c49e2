//! The flows of operations.

ghost use Rattle.std.specs.Prelude.{◌≡◌, ◌++◌, ◌∷◌, [], map, OnOk, IfOk};
ghost use Rattle.op_text.specs.Language.{statement, operation};
ghost use Rattle.op_rules.specs.Meets.{OperationMeets};
ghost use Rattle.loop_ir.specs.Plain.{steps_of, flow_of};
ghost use Rattle.loop_ir.specs.Statements.{slots_of, StatementMeets, IsPlaced};
ghost use Rattle.loop_ir.specs.Lowered.{IsLowered};
ghost use Rattle.uprog_gen.specs.Layout.{IsLayoutMap};
ghost use Rattle.word_lower.specs.Forms.{HasForm};
ghost use Rattle.word_flow.specs.Programs.{is_flow_statement};
ghost use Rattle.uprog_gen.specs.Programs.{IsAsWritten};
ghost use Rattle.uprog_gen.specs.Entries.{AreFronts};

use crate::layout::lay_out;
use crate::ops::Lowered;
use block_lower::Searched;
use faults::keep;
use loop_front::front;
use loop_ir::{LoopProgram, NameMap};
use mig_graph::NoMemory;
use op_text::{Op, Stmt};
use std::alloc::Global;
use word_flow::lower_flow;
use word_lower::{is_linear, lower_linear};

/// Whether it is a word operation that is a flow.
fn is_flow(s: &Stmt) -> bool
    ensures { result ≡ is_flow_statement (statement s.now) }
{
    match s {
        Stmt::Word { op, .. } => !is_linear(*op),
        Stmt::Serial { .. } => false,
    }
}

/// The loop program of a statement.
fn lower_statement(
    s: &Stmt,
    names: &NameMap,
    searched: &mut Searched,
    alloc: Global,
) -> Result<LoopProgram, NoMemory>
    requires meets { StatementMeets (slots_of names.now) (statement s.now) }
    requires placed { IsPlaced (slots_of names.now) names.now.free_bit names.now.free_word
        (statement s.now) }
    ensures lowered { IfOk result (λ p. IsLowered (slots_of names.now) names.now.free_bit
        names.now.free_word (statement s.now) (steps_of p)) }
    ensures form { IfOk result (λ p. HasForm (slots_of names.now) (statement s.now) (steps_of p)) }
    ensures written { IfOk result (λ p. IsAsWritten (slots_of names.now) names.now.free_bit
        names.now.free_word (statement s.now) (steps_of p)) }
{
    if is_flow(s) {
        lower_flow(s, names, alloc)
    } else {
        lower_linear(s, names, searched, alloc)
    }
}

/// The places of an operation's names, and the flows of its statements.
///
/// It is an `Err` only where it runs out of memory.
pub fn lower(op: &Op, searched: &mut Searched, alloc: Global) -> Result<Lowered, NoMemory>
    requires meets { OperationMeets (operation op.now) }
    ensures names { IfOk result (λ l. IsLayoutMap (operation op.now) l.names) }
    ensures fronts { IfOk result (λ l. AreFronts (slots_of l.names) l.names.free_bit
        l.names.free_word (operation op.now).body (map flow_of l.flows.items)) }
{
    let names = lay_out(op, alloc)?;
    let mut flows = Vec::new(alloc);
    for s in &op.body {
        let program = lower_statement(s, &names, searched, alloc)?;
        let flow = front(program, alloc)?;
        keep(&mut flows, flow)?;
    }
    Ok(Lowered { names, flows })
}
