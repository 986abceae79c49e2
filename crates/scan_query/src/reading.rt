//! The tokens of a query's text, one after another.

ghost use Rattle.std.specs.Prelude.{◌≡◌, ◌+◌, ◌≤◌, [], ◌∷◌};
ghost use Rattle.std.specs.Prelude.{map, length, OnOk, IfOk, option_map, true};
ghost use Rattle.std.specs.Prelude.{IfErr, Ok, Err};
ghost use Rattle.std.specs.Char.{is_ascii_digit};
ghost use Rattle.std.specs.List.{AllPass};
ghost use Rattle.text_lex.specs.declared.token.TokenKind.TheVariants as kinds;
ghost use Rattle.scan_model.specs.Texts as model;
ghost use Rattle.scan_query.specs.declared.reading.ReadError.TheVariants as stop;
ghost use Rattle.scan_query.specs.Reading.{Finds, IsNumber, Moves};
ghost use Rattle.scan_query.specs.Reading.{MovesTo, Takes, breach, start_of};
ghost use Rattle.scan_query.specs.Reading.{after_lead, after_mark, begun_by, is_it};
ghost use Rattle.scan_query.specs.Reading.{lead_at, lead_of, left, seen};
ghost use Rattle.scan_query.specs.Reading.{wanted_by, word_by, word_view};

use crate::parser::Parser;
use scan_model::{CmpOp, QueryKind};
use std::alloc::AllocFailed;
use text_lex::{Lexer, Token, TokenKind, items_are_right, number};

/// Why reading ends early.
#[derive(Drop)]
pub(crate) enum ReadError {
    Memory,
    /// The token at this place breaks a rule, or the end of the text does.
    Breach(Option<usize>, QueryKind),
}

impl<T: Drop> From<AllocFailed<T>> for ReadError {
    ghost from_gives = { λ _ e. e ≡ stop.Memory };

    fn from(_e: AllocFailed<T>) -> ReadError {
        ReadError::Memory
    }
}

/// A token, as a query sees it.
#[derive(Clone, Copy)]
pub(crate) enum Word<'a> {
    Name(&'a [u8]),
    Number(&'a [u8]),
    Opens,
    Closes,
    Comma,
    /// `[`
    OpensBits,
    Colon,
    /// `]`
    ClosesBits,
    Other,
}

/// A token that is a symbol, by what it stands behind.
#[derive(Clone, Copy)]
pub(crate) enum Mark {
    Opens,
    Closes,
    Comma,
    /// `]` after two numbers.
    ClosesBits,
    /// The comma after `]`.
    EndsBits,
}

/// What a query begins with.
#[derive(Clone, Copy)]
pub(crate) enum Lead {
    Compares(CmpOp),
    Negates,
    Ands,
    Ors,
}

/// A token and its place.
#[derive(Clone, Copy)]
pub(crate) struct Taken<'a> {
    pub word: Word<'a>,
    pub at: usize,
}

/// A parser at the start of a text.
pub(crate) fn start(text: &[u8]) -> Parser<'_>
    ensures { seen result ≡ start_of text.now }
{
    items_are_right();
    Parser {
        lexer: Lexer::new(text),
        nodes: 0,
        tests: 0,
    }
}

fn symbol_of<'a>(text: &'a [u8]) -> Word<'a>
    ensures { word_view result ≡ model.symbol_of text.now }
{
    if text == b"(".as_slice() {
        Word::Opens
    } else if text == b")".as_slice() {
        Word::Closes
    } else if text == b",".as_slice() {
        Word::Comma
    } else if text == b"[".as_slice() {
        Word::OpensBits
    } else if text == b":".as_slice() {
        Word::Colon
    } else if text == b"]".as_slice() {
        Word::ClosesBits
    } else {
        Word::Other
    }
}

fn word_of(token: Token<'_>) -> Word<'_>
    requires { token.kind ≡ kinds.Number → AllPass is_ascii_digit token.text.now }
    ensures view { word_view result ≡ model.word_at token.entry.kind token.entry.text.now }
    ensures number { IsNumber result }
{
    match token.kind {
        TokenKind::Name => Word::Name(token.text),
        TokenKind::Number => Word::Number(token.text),
        TokenKind::Symbol => symbol_of(token.text),
    }
}

/// The next token.
pub(crate) fn next<'a>(parser: &mut Parser<'a>) -> Result<Taken<'a>, ReadError>
    ensures takes { Takes (seen parser.old) result (seen parser.new) }
    ensures number { IfOk result (λ t. IsNumber t.word) }
{
    match parser.lexer.next() {
        Ok(found) => match found {
            Some(token) => Ok(Taken {
                word: word_of(token),
                at: token.start,
            }),
            None => Err(ReadError::Breach(None, QueryKind::Syntax)),
        },
        Err(fault) => Err(ReadError::Breach(Some(fault.at), QueryKind::Lex)),
    }
}

fn is_it(mark: Mark, word: Word<'_>) -> bool
    ensures { result ≡ is_it mark word.entry }
{
    match mark {
        Mark::Opens => matches!(word, Word::Opens),
        Mark::Closes => matches!(word, Word::Closes),
        Mark::Comma | Mark::EndsBits => matches!(word, Word::Comma),
        Mark::ClosesBits => matches!(word, Word::ClosesBits),
    }
}

/// This symbol.
pub(crate) fn symbol(parser: &mut Parser<'_>, mark: Mark) -> Result<(), ReadError>
    ensures moves { MovesTo (wanted_by mark ∷ []) (seen parser.old) result (λ _. after_mark mark)
        (seen parser.new) }
    ensures spells { OnOk result (left (seen parser.old) ≡ word_by mark ∷ left (seen parser.new)) }
    ensures nodes { OnOk result (parser.new.nodes ≡ parser.old.nodes) }
{
    let token = next(parser)?;
    if is_it(mark, token.word) {
        Ok(())
    } else {
        Err(ReadError::Breach(Some(token.at), QueryKind::Syntax))
    }
}

fn lead_named(text: &[u8]) -> Option<Lead>
    ensures { option_map lead_of result ≡ model.lead_among model.all_leads text.now }
{
    if text == b"eq".as_slice() {
        Some(Lead::Compares(CmpOp::Eq))
    } else if text == b"gt".as_slice() {
        Some(Lead::Compares(CmpOp::Gt))
    } else if text == b"ge".as_slice() {
        Some(Lead::Compares(CmpOp::Ge))
    } else if text == b"lt".as_slice() {
        Some(Lead::Compares(CmpOp::Lt))
    } else if text == b"le".as_slice() {
        Some(Lead::Compares(CmpOp::Le))
    } else if text == b"not".as_slice() {
        Some(Lead::Negates)
    } else if text == b"and".as_slice() {
        Some(Lead::Ands)
    } else if text == b"or".as_slice() {
        Some(Lead::Ors)
    } else {
        None
    }
}

fn lead_at(word: Word<'_>) -> Option<Lead>
    ensures { option_map lead_of result ≡ lead_at word.entry }
{
    match word {
        Word::Name(text) => lead_named(text),
        Word::Number(_) => None,
        Word::Opens => None,
        Word::Closes => None,
        Word::Comma => None,
        Word::OpensBits => None,
        Word::Colon => None,
        Word::ClosesBits => None,
        Word::Other => None,
    }
}

fn tests_in(lead: Lead) -> u8
    ensures value { result ≡ model.tests_in (lead_of lead) }
    ensures few { result ≤ 1 }
{
    match lead {
        Lead::Compares(_) => 1,
        Lead::Negates => 0,
        Lead::Ands => 0,
        Lead::Ors => 0,
    }
}

/// Counts a node that begins, where there is room for it.
fn begin(parser: &mut Parser<'_>, lead: Lead) -> bool
    ensures fits { result ≡ model.fits (model.with_lead (begun_by parser.old) (lead_of lead)) }
    ensures begun { result ≡ true
        → begun_by parser.new ≡ model.with_lead (begun_by parser.old) (lead_of lead) }
    ensures items { (seen parser.new).items ≡ (seen parser.old).items }
    ensures limit { result ≡ true → parser.new.nodes ≤ 64 }
{
    let tests = tests_in(lead);
    if parser.nodes >= 64 || parser.tests > 32 - tests {
        return false;
    }
    parser.nodes += 1;
    parser.tests += tests;
    true
}

/// What a query begins with.
pub(crate) fn begins(parser: &mut Parser<'_>) -> Result<Lead, ReadError>
    ensures moves { MovesTo (model.Start ∷ []) (seen parser.old) result after_lead
        (seen parser.new) }
    ensures spells { IfOk result (λ l. left (seen parser.old)
        ≡ model.Name (model.lead_text (lead_of l)) ∷ left (seen parser.new)) }
    ensures nodes { OnOk result (parser.new.nodes ≡ parser.old.nodes + 1) }
    ensures limit { OnOk result (parser.new.nodes ≤ 64) }
{
    let token = next(parser)?;
    let Some(lead) = lead_at(token.word) else {
        return Err(ReadError::Breach(Some(token.at), QueryKind::Syntax));
    };
    if begin(parser, lead) {
        Ok(lead)
    } else {
        Err(ReadError::Breach(Some(token.at), QueryKind::TooMany))
    }
}

fn value_at(word: Word<'_>) -> Result<u128, QueryKind>
    requires { IsNumber word }
    ensures word { IfOk result (λ v. word_view word.entry ≡ model.Number v) }
    ensures step { IfOk result (λ v. (s : model.Begun)
        → model.step model.Bound s (word_view word.entry) ≡ Ok ([], s)) }
    ensures breaks { IfErr result (λ kind. (s : model.Begun)
        → model.step model.Bound s (word_view word.entry) ≡ Err kind) }
{
    match word {
        Word::Number(digits) => match number(digits) {
            Some(value) => Ok(value),
            None => Err(QueryKind::BadNumber),
        },
        Word::Name(_) => Err(QueryKind::Syntax),
        Word::Opens => Err(QueryKind::Syntax),
        Word::Closes => Err(QueryKind::Syntax),
        Word::Comma => Err(QueryKind::Syntax),
        Word::OpensBits => Err(QueryKind::Syntax),
        Word::Colon => Err(QueryKind::Syntax),
        Word::ClosesBits => Err(QueryKind::Syntax),
        Word::Other => Err(QueryKind::Syntax),
    }
}

/// A number.
pub(crate) fn bound(parser: &mut Parser<'_>) -> Result<u128, ReadError>
    ensures moves { Moves (model.Bound ∷ []) (seen parser.old) result (seen parser.new) }
    ensures spells { IfOk result (λ v. left (seen parser.old)
        ≡ model.Number v ∷ left (seen parser.new)) }
    ensures nodes { OnOk result (parser.new.nodes ≡ parser.old.nodes) }
{
    let token = next(parser)?;
    match value_at(token.word) {
        Ok(value) => Ok(value),
        Err(kind) => Err(ReadError::Breach(Some(token.at), kind)),
    }
}

/// The end of the text.
pub(crate) fn ends(parser: &mut Parser<'_>) -> Result<(), ReadError>
    ensures finds { Finds (breach [] (seen parser.old)) result }
    ensures nothing { OnOk result (left (seen parser.old) ≡ []) }
{
    match parser.lexer.next() {
        Ok(found) => match found {
            Some(token) => Err(ReadError::Breach(Some(token.start), QueryKind::Syntax)),
            None => Ok(()),
        },
        Err(fault) => Err(ReadError::Breach(Some(fault.at), QueryKind::Lex)),
    }
}
