//! Expressions.

ghost use Rattle.std.specs.Prelude.{◌≡◌, ◌<◌, ◌-◌, ℕ, suc, zero, length, List, [], ◌∷◌, OnOk, IfOk};
ghost use Rattle.std.specs.Prelude.{IfErr, codes};
ghost use Rattle.op_lang.specs.declared.fault.ReadError.TheVariants.{Memory};
ghost use Rattle.op_text.specs.declared.wanted.Wanted.TheVariants as w;
ghost use Rattle.op_text.specs.Rules.{gate_arguments};
ghost use Rattle.op_text.specs.Language.{term, Negation, Majority};
ghost use Rattle.op_text.specs.Spelling.{term_text};
ghost use Rattle.op_lang.specs.Reading.{Moves, MovesTo, left};
ghost use Rattle.op_lang.specs.Pieces.{after_leaf, leaf_spelled, lacking, bit_leaf, gate_text};
ghost use Rattle.op_lang.specs.Pieces.{with_two};

use crate::fault::ReadError;
use crate::parser::Parser;
use crate::pieces::{Leaf, is_named, is_one};
use op_text::{Expr, Gate, Terminal, Wanted, gate_of};
use std::alloc::Global;
use text_lex::Name;

fn bit_leaf(terminal: Terminal) -> Leaf
    ensures { result ≡ bit_leaf terminal }
{
    if is_one(terminal) {
        Leaf::One
    } else {
        Leaf::Zero
    }
}

/// The first token of a value.
fn leaf(parser: &mut Parser<'_>) -> Result<Leaf, ReadError>
    ensures moves { MovesTo (w.Value ∷ []) parser.old result after_leaf parser.new }
    ensures spells { IfOk result (λ l. left parser.old ≡ leaf_spelled l ∷ left parser.new) }
    ensures missing { IfOk result (λ l. parser.new.scope.block.missing
        ≡ lacking l parser.old.scope.block.missing) }
{
    let token = parser.take(Wanted::Value)?;
    if !is_named(token.terminal) {
        return Ok(bit_leaf(token.terminal));
    }
    if parser.opens() {
        match gate_of(token.text) {
            Some(gate) => Ok(Leaf::Gate(gate)),
            None => unreachable!(),
        }
    } else {
        match Name::new(token.text) {
            Some(name) => Ok(Leaf::Read(name)),
            None => unreachable!(),
        }
    }
}

/// The parenthesis after a gate's name.
fn gate_open(parser: &mut Parser<'_>) -> Result<(), ReadError>
    ensures moves { Moves (w.GateOpen ∷ []) parser.old result parser.new }
    ensures spells { OnOk result (left parser.old ≡ codes "(" ∷ left parser.new) }
    ensures missing { OnOk result (parser.new.scope.block.missing
        ≡ parser.old.scope.block.missing) }
{
    parser.take(Wanted::GateOpen)?;
    Ok(())
}

/// The comma after an argument, where another is lacking.
fn comma(parser: &mut Parser<'_>) -> Result<(), ReadError>
    ensures moves { (n : ℕ) (outer : List ℕ) → parser.old.scope.block.missing ≡ suc n ∷ outer
        → MovesTo (w.More ∷ []) parser.old result (λ x. w.Value ∷ w.More ∷ []) parser.new }
    ensures spells { (n : ℕ) (outer : List ℕ) → parser.old.scope.block.missing ≡ suc n ∷ outer
        → OnOk result (left parser.old ≡ codes "," ∷ left parser.new) }
    ensures missing { (n : ℕ) (outer : List ℕ) → parser.old.scope.block.missing ≡ suc n ∷ outer
        → OnOk result (parser.new.scope.block.missing ≡ n ∷ outer) }
    ensures shorter { OnOk result (length (left parser.new) < length (left parser.old)) }
{
    parser.take(Wanted::More)?;
    Ok(())
}

/// The parenthesis after the last argument.
fn close(parser: &mut Parser<'_>) -> Result<(), ReadError>
    ensures moves { (outer : List ℕ) → parser.old.scope.block.missing ≡ zero ∷ outer
        → Moves (w.More ∷ []) parser.old result parser.new }
    ensures spells { (outer : List ℕ) → parser.old.scope.block.missing ≡ zero ∷ outer
        → OnOk result (left parser.old ≡ codes ")" ∷ left parser.new) }
    ensures missing { (outer : List ℕ) → parser.old.scope.block.missing ≡ zero ∷ outer
        → OnOk result (parser.new.scope.block.missing ≡ outer) }
    ensures shorter { OnOk result (length (left parser.new) < length (left parser.old)) }
{
    parser.take(Wanted::More)?;
    Ok(())
}

fn not_of(a: Expr, alloc: Global) -> Result<Expr, ReadError>
    ensures value { IfOk result (λ e. term e ≡ Negation (term a)) }
    ensures memory { IfErr result (λ e. e ≡ Memory) }
{
    Ok(Expr::Not(Box::new(alloc, a)?))
}

fn two_of(gate: Gate, a: Expr, b: Expr, alloc: Global) -> Result<Expr, ReadError>
    ensures value { IfOk result (λ e. term e ≡ with_two gate (term a) (term b)) }
    ensures memory { IfErr result (λ e. e ≡ Memory) }
{
    let a = Box::new(alloc, a)?;
    let b = Box::new(alloc, b)?;
    match gate {
        Gate::And => Ok(Expr::And(a, b)),
        Gate::Or => Ok(Expr::Or(a, b)),
        _ => Ok(Expr::Xor(a, b)),
    }
}

fn maj_of(a: Expr, b: Expr, c: Expr, alloc: Global) -> Result<Expr, ReadError>
    ensures value { IfOk result (λ e. term e ≡ Majority (term a) (term b) (term c)) }
    ensures memory { IfErr result (λ e. e ≡ Memory) }
{
    let a = Box::new(alloc, a)?;
    let b = Box::new(alloc, b)?;
    let c = Box::new(alloc, c)?;
    Ok(Expr::Maj(a, b, c))
}

/// A value.
#[cycle(values)]
pub(crate) fn value(parser: &mut Parser<'_>, alloc: Global) -> Result<Expr, ReadError>
    ensures moves { Moves (w.Value ∷ []) parser.old result parser.new }
    ensures spells { IfOk result (λ e. left parser.old ≡ term_text (term e) (left parser.new)) }
    ensures missing { OnOk result (parser.new.scope.block.missing
        ≡ parser.old.scope.block.missing) }
    ensures shorter { OnOk result (length (left parser.new) < length (left parser.old)) }
{
    match leaf(parser)? {
        Leaf::Zero => Ok(Expr::Zero),
        Leaf::One => Ok(Expr::One),
        Leaf::Read(name) => Ok(Expr::Read(name)),
        Leaf::Gate(gate) => arguments(parser, gate, alloc),
    }
}

/// A gate's arguments, with their parentheses.
#[cycle(values)]
fn arguments(parser: &mut Parser<'_>, gate: Gate, alloc: Global) -> Result<Expr, ReadError>
    ensures moves { (outer : List ℕ) → parser.old.scope.block.missing ≡ (gate_arguments gate - 1)
        ∷ outer → Moves (w.GateOpen ∷ w.Value ∷ w.More ∷ []) parser.old result parser.new }
    ensures spells { (outer : List ℕ) → parser.old.scope.block.missing ≡ (gate_arguments gate - 1)
        ∷ outer → IfOk result (λ e. gate_text gate ∷ left parser.old
        ≡ term_text (term e) (left parser.new)) }
    ensures missing { (outer : List ℕ) → parser.old.scope.block.missing ≡ (gate_arguments gate - 1)
        ∷ outer → OnOk result (parser.new.scope.block.missing ≡ outer) }
    ensures shorter { OnOk result (length (left parser.new) < length (left parser.old)) }
{
    gate_open(parser)?;
    match gate {
        Gate::Not => one_argument(parser, alloc),
        Gate::And => two_arguments(parser, gate, alloc),
        Gate::Or => two_arguments(parser, gate, alloc),
        Gate::Xor => two_arguments(parser, gate, alloc),
        Gate::Maj => three_arguments(parser, alloc),
    }
}

#[cycle(values)]
fn one_argument(parser: &mut Parser<'_>, alloc: Global) -> Result<Expr, ReadError>
    ensures moves { (outer : List ℕ) → parser.old.scope.block.missing ≡ 0 ∷ outer
        → Moves (w.Value ∷ w.More ∷ []) parser.old result parser.new }
    ensures spells { (outer : List ℕ) → parser.old.scope.block.missing ≡ 0 ∷ outer
        → IfOk result (λ e. codes "not" ∷ codes "(" ∷ left parser.old
        ≡ term_text (term e) (left parser.new)) }
    ensures missing { (outer : List ℕ) → parser.old.scope.block.missing ≡ 0 ∷ outer
        → OnOk result (parser.new.scope.block.missing ≡ outer) }
    ensures shorter { OnOk result (length (left parser.new) < length (left parser.old)) }
{
    let a = value(parser, alloc)?;
    close(parser)?;
    not_of(a, alloc)
}

/// The last two arguments of a gate.
#[cycle(values)]
fn pair(parser: &mut Parser<'_>, alloc: Global) -> Result<(Expr, Expr), ReadError>
    ensures moves { (outer : List ℕ) → parser.old.scope.block.missing ≡ 1 ∷ outer
        → Moves (w.Value ∷ w.More ∷ []) parser.old result parser.new }
    ensures spells { (outer : List ℕ) → parser.old.scope.block.missing ≡ 1 ∷ outer
        → IfOk result (λ p. left parser.old ≡ term_text (term p.0) (codes ","
        ∷ term_text (term p.1) (codes ")" ∷ left parser.new))) }
    ensures missing { (outer : List ℕ) → parser.old.scope.block.missing ≡ 1 ∷ outer
        → OnOk result (parser.new.scope.block.missing ≡ outer) }
    ensures shorter { OnOk result (length (left parser.new) < length (left parser.old)) }
{
    let a = value(parser, alloc)?;
    comma(parser)?;
    let b = value(parser, alloc)?;
    close(parser)?;
    Ok((a, b))
}

#[cycle(values)]
fn two_arguments(parser: &mut Parser<'_>, gate: Gate, alloc: Global) -> Result<Expr, ReadError>
    requires { gate_arguments gate ≡ 2 }
    ensures moves { (outer : List ℕ) → parser.old.scope.block.missing ≡ 1 ∷ outer
        → Moves (w.Value ∷ w.More ∷ []) parser.old result parser.new }
    ensures spells { (outer : List ℕ) → parser.old.scope.block.missing ≡ 1 ∷ outer
        → IfOk result (λ e. gate_text gate ∷ codes "(" ∷ left parser.old
        ≡ term_text (term e) (left parser.new)) }
    ensures missing { (outer : List ℕ) → parser.old.scope.block.missing ≡ 1 ∷ outer
        → OnOk result (parser.new.scope.block.missing ≡ outer) }
    ensures shorter { OnOk result (length (left parser.new) < length (left parser.old)) }
{
    let (a, b) = pair(parser, alloc)?;
    two_of(gate, a, b, alloc)
}

#[cycle(values)]
fn three_arguments(parser: &mut Parser<'_>, alloc: Global) -> Result<Expr, ReadError>
    ensures moves { (outer : List ℕ) → parser.old.scope.block.missing ≡ 2 ∷ outer
        → Moves (w.Value ∷ w.More ∷ []) parser.old result parser.new }
    ensures spells { (outer : List ℕ) → parser.old.scope.block.missing ≡ 2 ∷ outer
        → IfOk result (λ e. codes "maj" ∷ codes "(" ∷ left parser.old
        ≡ term_text (term e) (left parser.new)) }
    ensures missing { (outer : List ℕ) → parser.old.scope.block.missing ≡ 2 ∷ outer
        → OnOk result (parser.new.scope.block.missing ≡ outer) }
    ensures shorter { OnOk result (length (left parser.new) < length (left parser.old)) }
{
    let a = value(parser, alloc)?;
    comma(parser)?;
    let (b, c) = pair(parser, alloc)?;
    maj_of(a, b, c, alloc)
}
