//! Single tokens of a text.

ghost use Rattle.std.specs.Prelude.{◌≡◌, true, false, List, [], ◌∷◌, OnOk, IfOk, codes};
ghost use Rattle.op_text.specs.declared.wanted.Wanted.TheVariants as w;
ghost use Rattle.op_text.specs.WordOps.{op_text};
ghost use Rattle.op_text.specs.Spelling.{kind_text, direction_text, start_text};
ghost use Rattle.op_lang.specs.Tokens.{is_nil};
ghost use Rattle.op_lang.specs.Reading.{Moves, MovesTo, left};
ghost use Rattle.op_lang.specs.Pieces.{is_mark, mark_text, is_name, is_name_or_end};
ghost use Rattle.op_lang.specs.Pieces.{after_name_or_end, name_or_end, is_more};
ghost use Rattle.op_lang.specs.Pieces.{after_comma_or_close, comma_or_close, is_kind, kind_at};
ghost use Rattle.op_lang.specs.Pieces.{is_statement, is_named, is_finish, is_serial_word};
ghost use Rattle.op_lang.specs.Pieces.{is_let_word, is_down, is_one, is_comma, after_start};
ghost use Rattle.op_lang.specs.Pieces.{start_spelled, after_line, line_spelled, is_second};
ghost use Rattle.op_lang.specs.Pieces.{after_second, comma_or_end};

use crate::fault::ReadError;
use crate::parser::Parser;
use op_text::{Gate, Kind, Spelling, Terminal, Wanted, WordOp, op_of};
use text_lex::Name;

/// The first token of a statement, or the `}` after the last.
#[derive(Drop)]
pub(crate) enum Start {
    Word(Name),
    Serial,
    End,
}

/// The first token of a value.
#[derive(Drop)]
pub(crate) enum Leaf {
    Zero,
    One,
    Read(Name),
    Gate(Gate),
}

/// The word `op`.
pub(crate) fn op_word(parser: &mut Parser<'_>) -> Result<(), ReadError>
    requires { is_nil parser.old.items ≡ false }
    ensures moves { MovesTo (w.Ops ∷ []) parser.old result (λ x. w.NewOp ∷ w.Open ∷ w.NewParam
        ∷ w.Colon ∷ w.ParamKind ∷ w.Params ∷ w.Arrow ∷ w.NewResult ∷ w.Colon ∷ w.ResultKind
        ∷ w.SecondResult ∷ w.FirstStmt ∷ w.Ops ∷ []) parser.new }
    ensures spells { OnOk result (left parser.old ≡ codes "op" ∷ left parser.new) }
{
    parser.take(Wanted::Ops)?;
    Ok(())
}

/// A symbol that one spelling fits.
pub(crate) fn mark(parser: &mut Parser<'_>, wanted: Wanted) -> Result<(), ReadError>
    requires { is_mark wanted ≡ true }
    ensures moves { Moves (wanted ∷ []) parser.old result parser.new }
    ensures spells { OnOk result (left parser.old ≡ mark_text wanted ∷ left parser.new) }
{
    parser.take(wanted)?;
    Ok(())
}

/// A name, where nothing else fits.
pub(crate) fn name(parser: &mut Parser<'_>, wanted: Wanted) -> Result<Name, ReadError>
    requires { is_name wanted ≡ true }
    ensures moves { Moves (wanted ∷ []) parser.old result parser.new }
    ensures spells { IfOk result (λ n. left parser.old ≡ n ∷ left parser.new) }
{
    let token = parser.take(wanted)?;
    match Name::new(token.text) {
        Some(name) => Ok(name),
        None => unreachable!(),
    }
}

/// A name, or none at the end of a list.
pub(crate) fn name_or_end(
    parser: &mut Parser<'_>,
    wanted: Wanted,
) -> Result<Option<Name>, ReadError>
    requires { is_name_or_end wanted ≡ true }
    ensures moves { MovesTo (wanted ∷ []) parser.old result (after_name_or_end wanted) parser.new }
    ensures spells { IfOk result (λ n. left parser.old ≡ name_or_end wanted n ∷ left parser.new) }
{
    let token = parser.take(wanted)?;
    if !is_named(token.terminal) {
        return Ok(None);
    }
    match Name::new(token.text) {
        Some(name) => Ok(Some(name)),
        None => unreachable!(),
    }
}

/// Whether a list goes on.
pub(crate) fn more(parser: &mut Parser<'_>, wanted: Wanted) -> Result<bool, ReadError>
    requires { is_more wanted ≡ true }
    ensures moves { MovesTo (wanted ∷ []) parser.old result (after_comma_or_close wanted)
        parser.new }
    ensures spells { IfOk result (λ b. left parser.old ≡ comma_or_close b ∷ left parser.new) }
{
    let token = parser.take(wanted)?;
    Ok(is_comma(token.terminal))
}

/// Whether a second result or a second target stands there.
pub(crate) fn second(parser: &mut Parser<'_>, wanted: Wanted) -> Result<bool, ReadError>
    requires { is_second wanted ≡ true }
    ensures moves { MovesTo (wanted ∷ []) parser.old result (after_second wanted) parser.new }
    ensures spells { IfOk result (λ b. left parser.old ≡ comma_or_end wanted b ∷ left parser.new) }
{
    let token = parser.take(wanted)?;
    Ok(is_comma(token.terminal))
}

fn is_comma(terminal: Terminal) -> bool
    ensures { result ≡ is_comma terminal }
{
    matches!(terminal, Terminal::Comma)
}

fn kind_at(terminal: Terminal) -> Kind
    ensures { result ≡ kind_at terminal }
{
    match terminal {
        Terminal::Name(Spelling::Word) => Kind::Word,
        _ => Kind::Bit,
    }
}

pub(crate) fn is_named(terminal: Terminal) -> bool
    ensures { result ≡ is_named terminal }
{
    matches!(terminal, Terminal::Name(_))
}

fn is_finish(terminal: Terminal) -> bool
    ensures { result ≡ is_finish terminal }
{
    matches!(terminal, Terminal::Finishes)
}

fn is_serial_word(terminal: Terminal) -> bool
    ensures { result ≡ is_serial_word terminal }
{
    matches!(terminal, Terminal::Name(Spelling::Serial))
}

fn is_let_word(terminal: Terminal) -> bool
    ensures { result ≡ is_let_word terminal }
{
    matches!(terminal, Terminal::Name(Spelling::Let))
}

fn is_down(terminal: Terminal) -> bool
    ensures { result ≡ is_down terminal }
{
    matches!(terminal, Terminal::Name(Spelling::Down))
}

pub(crate) fn is_one(terminal: Terminal) -> bool
    ensures { result ≡ is_one terminal }
{
    matches!(terminal, Terminal::One)
}

pub(crate) fn kind(parser: &mut Parser<'_>, wanted: Wanted) -> Result<Kind, ReadError>
    requires { is_kind wanted ≡ true }
    ensures moves { Moves (wanted ∷ []) parser.old result parser.new }
    ensures spells { IfOk result (λ k. left parser.old ≡ kind_text k ∷ left parser.new) }
{
    let token = parser.take(wanted)?;
    Ok(kind_at(token.terminal))
}

/// Whether a block goes down.
pub(crate) fn direction(parser: &mut Parser<'_>) -> Result<bool, ReadError>
    ensures moves { Moves (w.Direction ∷ []) parser.old result parser.new }
    ensures spells { IfOk result (λ down. left parser.old ≡ direction_text down ∷ left parser.new) }
{
    let token = parser.take(Wanted::Direction)?;
    Ok(is_down(token.terminal))
}

/// A state's start.
pub(crate) fn state_start(parser: &mut Parser<'_>) -> Result<bool, ReadError>
    ensures moves { Moves (w.Start ∷ []) parser.old result parser.new }
    ensures spells { IfOk result (λ one. left parser.old ≡ start_text one ∷ left parser.new) }
{
    let token = parser.take(Wanted::Start)?;
    Ok(is_one(token.terminal))
}

pub(crate) fn word_op(parser: &mut Parser<'_>) -> Result<WordOp, ReadError>
    ensures moves { Moves (w.WordOpName ∷ []) parser.old result parser.new }
    ensures spells { IfOk result (λ op. left parser.old ≡ op_text op ∷ left parser.new) }
{
    let token = parser.take(Wanted::WordOpName)?;
    match op_of(token.text) {
        Some(op) => Ok(op),
        None => unreachable!(),
    }
}

/// The first token of a statement, or the `}` after the last.
pub(crate) fn statement_start(parser: &mut Parser<'_>, wanted: Wanted) -> Result<Start, ReadError>
    requires { is_statement wanted ≡ true }
    ensures moves { MovesTo (wanted ∷ []) parser.old result after_start parser.new }
    ensures spells { IfOk result (λ s. left parser.old ≡ start_spelled s ∷ left parser.new) }
{
    let token = parser.take(wanted)?;
    if is_finish(token.terminal) {
        return Ok(Start::End);
    }
    if is_serial_word(token.terminal) {
        return Ok(Start::Serial);
    }
    match Name::new(token.text) {
        Some(name) => Ok(Start::Word(name)),
        None => unreachable!(),
    }
}

/// The target of a block's first assignment, or none at the word `let`.
pub(crate) fn line_start(parser: &mut Parser<'_>) -> Result<Option<Name>, ReadError>
    ensures moves { MovesTo (w.Lets ∷ []) parser.old result after_line parser.new }
    ensures spells { IfOk result (λ n. left parser.old ≡ line_spelled n ∷ left parser.new) }
{
    let token = parser.take(Wanted::Lets)?;
    if is_let_word(token.terminal) {
        return Ok(None);
    }
    match Name::new(token.text) {
        Some(name) => Ok(Some(name)),
        None => unreachable!(),
    }
}
