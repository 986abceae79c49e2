//! The lowering of serial blocks and of the operations of the table.

ghost use Rattle.std.specs.Prelude.{◌≡◌, ℕ, List, map, IfOk, Some, None, true};
ghost use Rattle.op_text.specs.Language.{statement, Compute};
ghost use Rattle.loop_ir.specs.declared.names.Slot.{Slot};
ghost use Rattle.loop_ir.specs.Plain.{steps_of};
ghost use Rattle.loop_ir.specs.Statements.{slots_of, ComputeMeets, StatementMeets, IsPlaced};
ghost use Rattle.loop_ir.specs.Lowered.{IsLowered};
ghost use Rattle.word_lower.specs.Places.{AreAt, scratch_bit};
ghost use Rattle.word_lower.specs.Programs.{is_linear, is_linear_statement};
ghost use Rattle.word_lower.specs.Forms.{HasForm, IsWritten};
ghost use Rattle.word_lower.specs.Shapes.{following, owners_of};

use crate::bodies::program;
use crate::slots::scratch_bit;
use crate::table::lines;
use block_lower::{Searched, lower_block};
use loop_ir::{LoopProgram, NameMap, Slot};
use mig_graph::NoMemory;
use op_text::{Stmt, WordOp};
use std::alloc::Global;
use text_lex::Name;

/// The place of a name, or the first free bit of scratch.
pub fn slot_of(names: &NameMap, name: &Name) -> Slot
    ensures place { (s : Slot) → slots_of names.now name.now ≡ Some s → result ≡ s }
    ensures none { slots_of names.now name.now ≡ None → result ≡ scratch_bit names.now.free_bit }
{
    match names.slots.get(name).copied() {
        Some(slot) => slot,
        None => scratch_bit(names.free_bit),
    }
}

/// The place of an argument, or after the arguments that of the first free bit of scratch.
fn owner(names: &NameMap, args: &[Name], k: usize) -> Slot
    ensures { (ss : List Slot) → AreAt (slots_of names.now) args.now ss
        → result ≡ following ss names.now.free_bit k }
{
    if k < args.len() {
        slot_of(names, &args[k])
    } else {
        scratch_bit(names.free_bit)
    }
}

/// The places of a statement's names.
fn owners(names: &NameMap, target: &Name, args: &[Name]) -> [Slot; 4]
    ensures { (t : Slot) (ss : List Slot) → slots_of names.now target.now ≡ Some t
        → AreAt (slots_of names.now) args.now ss → result ≡ owners_of t ss names.now.free_bit }
{
    [
        slot_of(names, target),
        owner(names, args, 0),
        owner(names, args, 1),
        owner(names, args, 2),
    ]
}

/// The loop program of a word operation of the table. It has no second target.
fn lower_word(
    target: &Name,
    _second: &Option<Name>,
    op: WordOp,
    args: &[Name],
    names: &NameMap,
    alloc: Global,
) -> Result<LoopProgram, NoMemory>
    requires meets { ComputeMeets (slots_of names.now) target.now _second.now op args.now }
    requires placed { IsPlaced (slots_of names.now) names.now.free_bit names.now.free_word
        (Compute target.now _second.now op args.now) }
    requires linear { is_linear op ≡ true }
    ensures lowered { IfOk result (λ p. IsLowered (slots_of names.now) names.now.free_bit
        names.now.free_word (Compute target.now _second.now op args.now) (steps_of p)) }
    ensures written { IfOk result (λ p. IsWritten (slots_of names.now) names.now.free_bit
        (Compute target.now _second.now op args.now) (steps_of p)) }
{
    let kind = slot_of(names, target).kind;
    let p = program(&lines(op, kind), &owners(names, target, args), alloc)?;
    Ok(p)
}

/// The loop program of a serial block, or of a word operation of the table.
///
/// It is an `Err` only where it runs out of memory.
pub fn lower_linear(
    s: &Stmt,
    names: &NameMap,
    searched: &mut Searched,
    alloc: Global,
) -> Result<LoopProgram, NoMemory>
    requires meets { StatementMeets (slots_of names.now) (statement s.now) }
    requires placed { IsPlaced (slots_of names.now) names.now.free_bit names.now.free_word
        (statement s.now) }
    requires linear { is_linear_statement (statement s.now) ≡ true }
    ensures lowered { IfOk result (λ p. IsLowered (slots_of names.now) names.now.free_bit
        names.now.free_word (statement s.now) (steps_of p)) }
    // A block's steps are its states' starts and then its graph at each position.
    ensures form { IfOk result (λ p. HasForm (slots_of names.now) (statement s.now) (steps_of p)) }
    // A word operation's are those of its written program.
    ensures written { IfOk result (λ p. IsWritten (slots_of names.now) names.now.free_bit
        (statement s.now) (steps_of p)) }
{
    match s {
        Stmt::Word {
            dst,
            second,
            op,
            args,
        } => lower_word(dst, second, *op, args, names, alloc),
        Stmt::Serial {
            down,
            states,
            lets,
            assigns,
        } => lower_block(*down, states, lets, assigns, names, searched, alloc),
    }
}
