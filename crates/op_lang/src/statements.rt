//! Statements.

ghost use Rattle.std.specs.Prelude.{◌≡◌, List, [], ◌∷◌, ◌++◌, IfOk, codes, true, map, Option, Some};
ghost use Rattle.std.specs.Prelude.{None};
ghost use Rattle.op_text.specs.declared.wanted.Wanted.TheVariants as w;
ghost use Rattle.op_text.specs.WordOps.{op_text};
ghost use Rattle.op_text.specs.Language.{equation, statement};
ghost use Rattle.op_text.specs.Spelling.{in_turn, between_commas, equation_text, let_text};
ghost use Rattle.op_text.specs.Spelling.{state_text, direction_text, statement_text, name_text};
ghost use Rattle.op_text.specs.Spelling.{after_comma};
ghost use Rattle.op_lang.specs.Reading.{Moves, MovesTo, left};
ghost use Rattle.op_lang.specs.Pieces.{is_statement, is_mark, mark_text};
ghost use Rattle.op_lang.specs.Parts.{after_statement, statement_or_end};

use crate::fault::ReadError;
use crate::lists::{arguments, states};
use crate::parser::Parser;
use crate::pieces::{
    Start, direction, line_start, mark, name, name_or_end, second, statement_start, word_op,
};
use crate::values::value;
use op_text::{Assign, State, Stmt, Wanted, WordOp};
use std::alloc::Global;
use text_lex::Name;

/// An assignment after its target, up to the sign after its value.
fn assignment(
    parser: &mut Parser<'_>,
    name: Name,
    end: Wanted,
    alloc: Global,
) -> Result<Assign, ReadError>
    requires marked { is_mark end ≡ true }
    requires semi { mark_text end ≡ codes ";" }
    ensures moves { Moves (w.Equals ∷ w.Value ∷ end ∷ []) parser.old result parser.new }
    ensures spells { IfOk result (λ a. name ∷ left parser.old
        ≡ equation_text (equation a) (left parser.new)) }
{
    mark(parser, Wanted::Equals)?;
    let value = value(parser, alloc)?;
    mark(parser, end)?;
    Ok(Assign { name, value })
}

/// A let after its word.
fn let_line(parser: &mut Parser<'_>, alloc: Global) -> Result<Assign, ReadError>
    ensures moves { Moves (w.LetName ∷ w.Equals ∷ w.Value ∷ w.LetEnd ∷ []) parser.old result
        parser.new }
    ensures spells { IfOk result (λ a. left parser.old
        ≡ equation_text (equation a) (left parser.new)) }
{
    let name = name(parser, Wanted::LetName)?;
    assignment(parser, name, Wanted::LetEnd, alloc)
}

/// The lets of a block, with the target after them.
fn lets(parser: &mut Parser<'_>, all: &mut Vec<Assign>, alloc: Global) -> Result<Name, ReadError>
    requires { all.old.items ≡ [] }
    ensures moves { MovesTo (w.Lets ∷ []) parser.old result (λ n. w.Equals ∷ w.Value ∷ w.AssignEnd
        ∷ w.Assigns ∷ []) parser.new }
    ensures spells { IfOk result (λ n. left parser.old
        ≡ in_turn let_text (map equation all.new.items) (n ∷ left parser.new)) }
{
    loop {
        match line_start(parser)? {
            Some(target) => return Ok(target),
            None => {
                let next = let_line(parser, alloc)?;
                all.push(next)?;
            }
        }
    }
}

/// The assignments of a block after the first target, with the brace after them.
fn assignments(
    parser: &mut Parser<'_>,
    target: Name,
    alloc: Global,
) -> Result<Vec<Assign>, ReadError>
    ensures moves { Moves (w.Equals ∷ w.Value ∷ w.AssignEnd ∷ w.Assigns ∷ []) parser.old result
        parser.new }
    ensures spells { IfOk result (λ v. target ∷ left parser.old
        ≡ in_turn equation_text (map equation v.items) (codes "}" ∷ left parser.new)) }
{
    let mut all = Vec::new(alloc);
    let first = assignment(parser, target, Wanted::AssignEnd, alloc)?;
    all.push(first)?;
    while let Some(target) = name_or_end(parser, Wanted::Assigns)? {
        let next = assignment(parser, target, Wanted::AssignEnd, alloc)?;
        all.push(next)?;
    }
    Ok(all)
}

/// The head of a block after its word: whether it goes down, and its states.
fn block_head(parser: &mut Parser<'_>, alloc: Global) -> Result<(bool, Vec<State>), ReadError>
    ensures moves { Moves (w.Direction ∷ w.Open ∷ w.States ∷ w.Begin ∷ []) parser.old result
        parser.new }
    ensures spells { IfOk result (λ h. left parser.old ≡ direction_text h.0 ∷ codes "("
        ∷ between_commas state_text h.1.items (codes ")" ∷ codes "{" ∷ left parser.new)) }
{
    let down = direction(parser)?;
    mark(parser, Wanted::Open)?;
    let states = states(parser, alloc)?;
    mark(parser, Wanted::Begin)?;
    Ok((down, states))
}

/// A serial block after its word.
fn serial_block(parser: &mut Parser<'_>, alloc: Global) -> Result<Stmt, ReadError>
    ensures moves { Moves (w.Direction ∷ w.Open ∷ w.States ∷ w.Begin ∷ w.Lets
        ∷ []) parser.old result parser.new }
    ensures spells { IfOk result (λ s. codes "serial" ∷ left parser.old
        ≡ statement_text (statement s) (left parser.new)) }
{
    let (down, states) = block_head(parser, alloc)?;
    let mut all = Vec::new(alloc);
    let target = lets(parser, &mut all, alloc)?;
    let assigns = assignments(parser, target, alloc)?;
    Ok(Stmt::Serial {
        down,
        states,
        lets: all,
        assigns,
    })
}

/// The second target of a word statement, if there is one, with the sign after the targets.
fn second_target(parser: &mut Parser<'_>) -> Result<Option<Name>, ReadError>
    ensures moves { Moves (w.SecondTarget ∷ []) parser.old result parser.new }
    ensures spells { IfOk result (λ n. left parser.old
        ≡ after_comma name_text n (codes "=" ∷ left parser.new)) }
{
    if second(parser, Wanted::SecondTarget)? {
        let target = name(parser, Wanted::NewTarget)?;
        mark(parser, Wanted::Equals)?;
        Ok(Some(target))
    } else {
        Ok(None)
    }
}

/// The operation of a word statement, with the parenthesis after it.
fn operation(parser: &mut Parser<'_>) -> Result<WordOp, ReadError>
    ensures moves { Moves (w.WordOpName ∷ w.Open ∷ []) parser.old result parser.new }
    ensures spells { IfOk result (λ op. left parser.old ≡ op_text op ∷ codes "("
        ∷ left parser.new) }
{
    let op = word_op(parser)?;
    mark(parser, Wanted::Open)?;
    Ok(op)
}

/// A word statement after its first target.
fn word_statement(parser: &mut Parser<'_>, dst: Name, alloc: Global) -> Result<Stmt, ReadError>
    ensures moves { Moves (w.SecondTarget ∷ w.WordOpName ∷ w.Open ∷ w.Args ∷ w.WordEnd
        ∷ []) parser.old result parser.new }
    ensures spells { IfOk result (λ s. dst ∷ left parser.old
        ≡ statement_text (statement s) (left parser.new)) }
{
    let second = second_target(parser)?;
    let op = operation(parser)?;
    let args = arguments(parser, alloc)?;
    mark(parser, Wanted::WordEnd)?;
    Ok(Stmt::Word {
        dst,
        second,
        op,
        args,
    })
}

/// A statement, or none at the brace after the last.
fn one_statement(
    parser: &mut Parser<'_>,
    wanted: Wanted,
    alloc: Global,
) -> Result<Option<Stmt>, ReadError>
    requires { is_statement wanted ≡ true }
    ensures moves { MovesTo (wanted ∷ []) parser.old result after_statement parser.new }
    ensures spells { IfOk result (λ s. left parser.old ≡ statement_or_end s (left parser.new)) }
{
    match statement_start(parser, wanted)? {
        Start::End => Ok(None),
        Start::Serial => {
            let block = serial_block(parser, alloc)?;
            Ok(Some(block))
        }
        Start::Word(dst) => {
            let word = word_statement(parser, dst, alloc)?;
            Ok(Some(word))
        }
    }
}

/// The statements of an op, with the brace after them.
pub(crate) fn body(parser: &mut Parser<'_>, alloc: Global) -> Result<Vec<Stmt>, ReadError>
    ensures moves { Moves (w.FirstStmt ∷ []) parser.old result parser.new }
    ensures spells { IfOk result (λ v. left parser.old
        ≡ in_turn statement_text (map statement v.items) (codes "}" ∷ left parser.new)) }
{
    let mut all = Vec::new(alloc);
    let mut wanted = Wanted::FirstStmt;
    while let Some(next) = one_statement(parser, wanted, alloc)? {
        all.push(next)?;
        wanted = Wanted::Stmts;
    }
    Ok(all)
}
