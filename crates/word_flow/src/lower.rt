//! The lowering of statements whose loop programs are flows.

ghost use Rattle.std.specs.Prelude.{◌≡◌, ◌≤◌, ◌<◌, ◌+◌, [], ◌∷◌, ℕ, List, length, IfOk, Option};
ghost use Rattle.std.specs.Prelude.{Some, true, unwrap_or};
ghost use Rattle.std.specs.Option.{option_to_list};
ghost use Rattle.bit_rows.specs.declared.TheConstants.{WIDTH_MAX};
ghost use Rattle.op_text.specs.Language.{statement};
ghost use Rattle.op_text.specs.Scratch.{words_inside};
ghost use Rattle.loop_ir.specs.declared.names.Slot.{Slot};
ghost use Rattle.loop_ir.specs.Plain.{flow_of, steps_of};
ghost use Rattle.loop_ir.specs.Plain.StepOf.{Flowed};
ghost use Rattle.loop_ir.specs.Loops.{all_rounds};
ghost use Rattle.loop_ir.specs.Costs.{rounds_cost};
ghost use Rattle.loop_ir.specs.Statements.{slots_of, StatementMeets, IsPlaced};
ghost use Rattle.loop_ir.specs.Lowered.{IsLowered};
ghost use Rattle.word_lower.specs.Places.{AreAt};
ghost use Rattle.word_lower.specs.Shapes.{following};
ghost use Rattle.word_flow.specs.Plans.{first_of, flows_on};
ghost use Rattle.word_flow.specs.Programs.{is_flow, is_flow_statement, lines_for, rounds_aps};
ghost use Rattle.word_flow.specs.Programs.{statement_aps, statement_total};
ghost use Rattle.word_flow.specs.Places.{rows_on, steps_for, IsFlowWritten};
ghost use Rattle.word_flow.specs.Bodies.{slots_for, coded_on};

use crate::abs::ABS;
use crate::bitcount::BITCOUNT;
use crate::division::{DIV, DIVMOD, REM};
use crate::flows::flow;
use crate::mul::MUL;
use crate::parity::XOR_RED;
use crate::reduction::{AND_RED, OR_RED};
use crate::relu::RELU;
use crate::rows::{Rows, word};
use crate::shift::{SHL1, SHR1};
use faults::keep;
use loop_ir::{Flow, LoopProgram, NameMap, Slot, Step};
use mig_graph::NoMemory;
use op_text::{Stmt, WordOp};
use std::alloc::Global;
use text_lex::Name;
use word_lower::{scratch_bit, slot_of};

/// The place of an argument.
fn argument(names: &NameMap, args: &[Name], k: usize) -> Slot
    requires { k < length args.now }
    ensures { (ss : List Slot) → AreAt (slots_of names.now) args.now ss
        → result ≡ following ss names.now.free_bit k }
{
    slot_of(names, &args[k])
}

/// The place of a second target, or else of the target.
fn second_slot(names: &NameMap, target: &Name, second: &Option<Name>) -> Slot
    ensures { (t : Slot) (u : Option Slot) → slots_of names.now target.now ≡ Some t
        → AreAt (slots_of names.now) (option_to_list second.now) (option_to_list u)
        → result ≡ unwrap_or u t }
{
    match second {
        Some(name) => slot_of(names, name),
        None => slot_of(names, target),
    }
}

/// The places of a statement's names.
fn rows(names: &NameMap, target: &Name, second: &Option<Name>, args: &[Name]) -> Rows
    requires { 0 < length args.now }
    ensures { (t : Slot) (u : Option Slot) (ss : List Slot)
        → slots_of names.now target.now ≡ Some t
        → AreAt (slots_of names.now) (option_to_list second.now) (option_to_list u)
        → AreAt (slots_of names.now) args.now ss
        → result ≡ rows_on t u ss names.now.free_bit names.now.free_word }
{
    let last = if args.len() > 1 { 1 } else { 0 };
    Rows {
        target: slot_of(names, target),
        second: second_slot(names, target, second),
        a: argument(names, args, 0),
        b: argument(names, args, last),
        free_bit: names.free_bit,
        free_word: names.free_word,
    }
}

/// The slots of an operation's owners, and after those the target's.
fn owners(op: WordOp, m: Rows) -> [Slot; 5]
    requires { m.free_word + words_inside op ≤ 256 }
    ensures { result ≡ slots_for op m }
{
    match op {
        WordOp::Mul => [m.target, m.a, m.b, scratch_bit(m.free_bit), m.target],
        WordOp::Div => [m.target, m.a, m.b, word(m.free_word), word(m.free_word + 1)],
        WordOp::Rem => [
            scratch_bit(m.free_bit),
            m.a,
            m.b,
            word(m.free_word),
            m.target,
        ],
        WordOp::Divmod => [m.target, m.a, m.b, word(m.free_word), m.second],
        _ => [m.target, m.a, m.target, m.target, m.target],
    }
}

/// The flow of an operation.
fn flow_for(op: WordOp, owners: &[Slot], alloc: Global) -> Result<Flow, NoMemory>
    requires { is_flow op ≡ true }
    ensures { IfOk result (λ f. flow_of f ≡ first_of (flows_on (coded_on owners.now)
        (lines_for op))) }
{
    match op {
        WordOp::Shl1 => flow(&SHL1, owners, alloc),
        WordOp::Shr1 => flow(&SHR1, owners, alloc),
        WordOp::Mul => flow(&MUL, owners, alloc),
        WordOp::Div => flow(&DIV, owners, alloc),
        WordOp::Rem => flow(&REM, owners, alloc),
        WordOp::Abs => flow(&ABS, owners, alloc),
        WordOp::Relu => flow(&RELU, owners, alloc),
        WordOp::Bitcount => flow(&BITCOUNT, owners, alloc),
        WordOp::AndRed => flow(&AND_RED, owners, alloc),
        WordOp::OrRed => flow(&OR_RED, owners, alloc),
        WordOp::XorRed => flow(&XOR_RED, owners, alloc),
        WordOp::Divmod => flow(&DIVMOD, owners, alloc),
        _ => unreachable!(),
    }
}

/// The loop program of a flow alone.
fn alone(f: Flow, alloc: Global) -> Result<LoopProgram, NoMemory>
    ensures { IfOk result (λ p. steps_of p ≡ Flowed (flow_of f) ∷ []) }
{
    let mut steps = Vec::new(alloc);
    keep(&mut steps, Step::Flow(f))?;
    Ok(LoopProgram { steps })
}

/// The loop program of an operation.
fn program(op: WordOp, m: Rows, alloc: Global) -> Result<LoopProgram, NoMemory>
    requires flow { is_flow op ≡ true }
    requires words { m.free_word + words_inside op ≤ 256 }
    ensures { IfOk result (λ p. steps_of p ≡ steps_for op m) }
{
    let f = flow_for(op, &owners(op, m), alloc)?;
    alone(f, alloc)
}

/// The loop program of an operation that is a flow.
///
/// It is an `Err` only where it runs out of memory.
pub fn lower_flow(s: &Stmt, names: &NameMap, alloc: Global) -> Result<LoopProgram, NoMemory>
    requires meets { StatementMeets (slots_of names.now) (statement s.now) }
    requires placed { IsPlaced (slots_of names.now) names.now.free_bit names.now.free_word
        (statement s.now) }
    requires flow { is_flow_statement (statement s.now) ≡ true }
    ensures lowered { IfOk result (λ p. IsLowered (slots_of names.now) names.now.free_bit
        names.now.free_word (statement s.now) (steps_of p)) }
    ensures exact { IfOk result (λ p. (n : ℕ) → 0 < n → n ≤ WIDTH_MAX
        → rounds_cost (all_rounds n (steps_of p)) ≡ statement_total (statement s.now) n) }
    ensures aps { IfOk result (λ p. (n : ℕ) → 0 < n → n ≤ WIDTH_MAX
        → rounds_aps (all_rounds n (steps_of p)) ≡ statement_aps (statement s.now) n) }
    // The steps are the flow that is written for it.
    ensures written { IfOk result (λ p. IsFlowWritten (slots_of names.now) names.now.free_bit
        names.now.free_word (statement s.now) (steps_of p)) }
{
    match s {
        Stmt::Word {
            dst,
            second,
            op,
            args,
        } => program(*op, rows(names, dst, second, args), alloc),
        Stmt::Serial { .. } => unreachable!(),
    }
}
