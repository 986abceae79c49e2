//! Texts of ops.

ghost use Rattle.std.specs.Prelude.{◌≡◌, ◌<◌, ◌≤◌, ◌^◌, ◌==◌, List, [], ◌∷◌, IfOk, codes, true};
ghost use Rattle.std.specs.Prelude.{false, map, length, count_by};
ghost use Rattle.op_text.specs.declared.wanted.Wanted.TheVariants as w;
ghost use Rattle.op_text.specs.Language.{operation, operations};
ghost use Rattle.op_text.specs.Spelling.{operation_text, between_commas, after_comma, param_text};
ghost use Rattle.op_text.specs.Spelling.{MeetRules};
ghost use Rattle.op_text.specs.Lines.{line_at, line_of};
ghost use Rattle.op_lang.specs.Tokens.{is_nil};
ghost use Rattle.op_lang.specs.Reading.{Moves, MovesTo, left};
ghost use Rattle.op_lang.specs.Parsing.{ReadsOps, Parses};

use crate::fault::ReadError;
use crate::lists::{param, sources};
use crate::parser::Parser;
use crate::pieces::{mark, name, op_word, second};
use crate::statements::body;
use op_text::{Op, Ops, OpsFault, OpsNo, Param, Wanted, names_are_names};
use std::alloc::Global;

/// The sources of an op, with their parentheses.
fn inputs(parser: &mut Parser<'_>, alloc: Global) -> Result<Vec<Param>, ReadError>
    ensures moves { Moves (w.Open ∷ w.NewParam ∷ w.Colon ∷ w.ParamKind ∷ w.Params
        ∷ []) parser.old result parser.new }
    ensures spells { IfOk result (λ v. left parser.old
        ≡ codes "(" ∷ between_commas param_text v.items (codes ")" ∷ left parser.new)) }
{
    mark(parser, Wanted::Open)?;
    sources(parser, alloc)
}

/// The second result of an op, if there is one, with the brace after it.
fn second_outcome(parser: &mut Parser<'_>) -> Result<Option<Param>, ReadError>
    ensures moves { Moves (w.SecondResult ∷ []) parser.old result parser.new }
    ensures spells { IfOk result (λ p. left parser.old
        ≡ after_comma param_text p (codes "{" ∷ left parser.new)) }
{
    if second(parser, Wanted::SecondResult)? {
        let result = param(parser, Wanted::NewResult, Wanted::ResultKind)?;
        mark(parser, Wanted::Begin)?;
        Ok(Some(result))
    } else {
        Ok(None)
    }
}

/// The first result of an op, after its mark.
fn outcome(parser: &mut Parser<'_>) -> Result<Param, ReadError>
    ensures moves { Moves (w.Arrow ∷ w.NewResult ∷ w.Colon ∷ w.ResultKind ∷ []) parser.old result
        parser.new }
    ensures spells { IfOk result (λ p. left parser.old
        ≡ codes "->" ∷ param_text p (left parser.new)) }
{
    mark(parser, Wanted::Arrow)?;
    param(parser, Wanted::NewResult, Wanted::ResultKind)
}

/// An op after its word.
fn op_after(parser: &mut Parser<'_>, alloc: Global) -> Result<Op, ReadError>
    ensures moves { Moves (w.NewOp ∷ w.Open ∷ w.NewParam ∷ w.Colon ∷ w.ParamKind ∷ w.Params
        ∷ w.Arrow ∷ w.NewResult ∷ w.Colon ∷ w.ResultKind ∷ w.SecondResult ∷ w.FirstStmt
        ∷ []) parser.old result parser.new }
    ensures spells { IfOk result (λ o. codes "op" ∷ left parser.old
        ≡ operation_text (operation o) (left parser.new)) }
{
    let name = name(parser, Wanted::NewOp)?;
    let params = inputs(parser, alloc)?;
    let result = outcome(parser)?;
    let second = second_outcome(parser)?;
    let body = body(parser, alloc)?;
    Ok(Op {
        name,
        params,
        result,
        second,
        body,
    })
}

fn one_op(parser: &mut Parser<'_>, alloc: Global) -> Result<Op, ReadError>
    requires { is_nil parser.old.items ≡ false }
    ensures moves { MovesTo (w.Ops ∷ []) parser.old result (λ o. w.Ops ∷ []) parser.new }
    ensures spells { IfOk result (λ o. left parser.old
        ≡ operation_text (operation o) (left parser.new)) }
{
    op_word(parser)?;
    op_after(parser, alloc)
}

fn all_ops(parser: &mut Parser<'_>, alloc: Global) -> Result<Vec<Op>, ReadError>
    ensures { ReadsOps (λ v. v.items) parser.old result }
{
    let mut all = Vec::new(alloc);
    while !parser.is_at_end() {
        let next = one_op(parser, alloc)?;
        all.push(next)?;
    }
    Ok(all)
}

fn newlines(bytes: &[u8]) -> usize
    ensures value { result ≡ count_by (λ b. b == 10) bytes.now }
    ensures within { result ≤ length bytes.now }
{
    bytes.iter().filter(|b| **b == b'\n').count()
}

fn line_at(text: &[u8], place: usize) -> u32
    requires { length text.now < 2 ^ 32 }
    ensures { result ≡ line_at text.now place }
{
    if text.is_empty() {
        return 1;
    }
    let last = text.len() - 1;
    let end = if place < last { place } else { last };
    let (before, _) = text.split_at(end);
    1 + newlines(before) as u32
}

fn line_of(text: &[u8], place: Option<usize>) -> u32
    requires { length text.now < 2 ^ 32 }
    ensures { result ≡ line_of text.now place }
{
    match place {
        Some(place) => line_at(text, place),
        None => line_at(text, text.len()),
    }
}

/// The ops of a text, or the line and the kind of the first token that breaks a rule.
pub fn parse_ops(text: &[u8], alloc: Global) -> Result<Ops, OpsNo>
    requires { length text.now < 2 ^ 32 }
    ensures parses { Parses text.now result }
    ensures meets { IfOk result (λ all. MeetRules (operations all)) }
{
    let mut parser = Parser::new(text, alloc);
    match all_ops(&mut parser, alloc) {
        Ok(ops) => {
            let ops = Ops { ops };
            names_are_names(&ops);
            Ok(ops)
        }
        Err(ReadError::Memory) => Err(OpsNo::NoMemory),
        Err(ReadError::Breach(breach)) => Err(OpsNo::Fault(OpsFault {
            line: line_of(text, breach.at),
            kind: breach.kind,
        })),
    }
}
