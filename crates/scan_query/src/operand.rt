//! What a comparison looks at: an object, or bits of it.

ghost use Rattle.std.specs.Prelude.{◌≡◌, ◌<◌, ◌≤◌, [], ◌∷◌, cond, length, OnOk, IfOk, IfErr, Ok};
ghost use Rattle.std.specs.Prelude.{Err, Some, IfSome, IfNone, ℕ};
ghost use Rattle.std.specs.Char.{is_ascii_digit};
ghost use Rattle.std.specs.List.{AllPass};
ghost use Rattle.std.specs.Str.Parse.{digits_value};
ghost use Rattle.bit_rows.specs.declared.TheConstants.{WIDTH_MAX};
ghost use Rattle.bbop_isa.specs.declared.instr.Part.{Part as PartView};
ghost use Rattle.scan_model.specs.Texts as model;
ghost use Rattle.scan_query.specs.Reading.{IsNumber, MovesTo, SpellsPart, SpellsPlace, left, seen};
ghost use Rattle.scan_query.specs.Reading.{word_view};

use crate::parser::Parser;
use crate::reading::{Mark, ReadError, Word, next, symbol};
use bbop_isa::{Part, Place};
use bit_rows::WIDTH_MAX;
use scan_model::QueryKind;
use text_lex::{Name, number};

fn name_at(word: Word<'_>) -> Result<Name, QueryKind>
    ensures word { IfOk result (λ name. word_view word.entry ≡ model.Name name) }
    ensures step { IfOk result (λ name. (s : model.Begun)
        → model.step model.Object s (word_view word.entry) ≡ Ok (model.AtName ∷ [], s)) }
    ensures breaks { IfErr result (λ kind. (s : model.Begun)
        → model.step model.Object s (word_view word.entry) ≡ Err kind) }
{
    match word {
        Word::Name(text) => match Name::new(text) {
            Some(name) => Ok(name),
            None => Err(QueryKind::BadName),
        },
        Word::Number(_) => Err(QueryKind::Syntax),
        Word::Opens => Err(QueryKind::Syntax),
        Word::Closes => Err(QueryKind::Syntax),
        Word::Comma => Err(QueryKind::Syntax),
        Word::OpensBits => Err(QueryKind::Syntax),
        Word::Colon => Err(QueryKind::Syntax),
        Word::ClosesBits => Err(QueryKind::Syntax),
        Word::Other => Err(QueryKind::Syntax),
    }
}

/// A name.
fn object(parser: &mut Parser<'_>) -> Result<Name, ReadError>
    ensures moves { MovesTo (model.Object ∷ []) (seen parser.old) result (λ _. model.AtName ∷ [])
        (seen parser.new) }
    ensures spells { IfOk result (λ name. left (seen parser.old)
        ≡ model.Name name ∷ left (seen parser.new)) }
    ensures nodes { OnOk result (parser.new.nodes ≡ parser.old.nodes) }
{
    let token = next(parser)?;
    match name_at(token.word) {
        Ok(name) => Ok(name),
        Err(kind) => Err(ReadError::Breach(Some(token.at), kind)),
    }
}

fn opens_at(word: Word<'_>) -> Result<bool, QueryKind>
    ensures word { IfOk result (λ b. word_view word.entry ≡ cond b model.OpensBits model.Comma) }
    ensures step { IfOk result (λ b. (s : model.Begun)
        → model.step model.AtName s (word_view word.entry)
        ≡ Ok (cond b model.Low model.Bound ∷ [], s)) }
    ensures breaks { IfErr result (λ kind. (s : model.Begun)
        → model.step model.AtName s (word_view word.entry) ≡ Err kind) }
{
    match word {
        Word::OpensBits => Ok(true),
        Word::Comma => Ok(false),
        Word::Name(_) => Err(QueryKind::Syntax),
        Word::Number(_) => Err(QueryKind::Syntax),
        Word::Opens => Err(QueryKind::Syntax),
        Word::Closes => Err(QueryKind::Syntax),
        Word::Colon => Err(QueryKind::Syntax),
        Word::ClosesBits => Err(QueryKind::Syntax),
        Word::Other => Err(QueryKind::Syntax),
    }
}

/// Whether a name has bits after it: `[`, or else the comma.
fn opens_bits(parser: &mut Parser<'_>) -> Result<bool, ReadError>
    ensures moves { MovesTo (model.AtName ∷ []) (seen parser.old) result
        (λ b. cond b model.Low model.Bound ∷ []) (seen parser.new) }
    ensures spells { IfOk result (λ b. left (seen parser.old)
        ≡ cond b model.OpensBits model.Comma ∷ left (seen parser.new)) }
    ensures nodes { OnOk result (parser.new.nodes ≡ parser.old.nodes) }
{
    let token = next(parser)?;
    match opens_at(token.word) {
        Ok(opens) => Ok(opens),
        Err(kind) => Err(ReadError::Breach(Some(token.at), kind)),
    }
}

/// A number, if it is no more than the greatest width.
fn at_most_width(digits: &[u8]) -> Option<u8>
    requires { AllPass is_ascii_digit digits.now }
    ensures value { IfSome result (λ k. digits_value 10 digits.now ≡ k) }
    ensures small { IfSome result (λ k. k ≤ WIDTH_MAX) }
    ensures large { IfNone result (WIDTH_MAX < digits_value 10 digits.now) }
{
    match number(digits) {
        Some(value) => {
            if value <= u128::from(WIDTH_MAX) {
                Some(value as u8)
            } else {
                None
            }
        }
        None => None,
    }
}

fn low_at(word: Word<'_>) -> Result<u8, QueryKind>
    requires { IsNumber word }
    ensures word { IfOk result (λ k. word_view word.entry ≡ model.Number k) }
    ensures step { IfOk result (λ k. (s : model.Begun)
        → model.step model.Low s (word_view word.entry) ≡ Ok (model.AtLow k ∷ [], s)) }
    ensures small { IfOk result (λ k. k < WIDTH_MAX) }
    ensures breaks { IfErr result (λ kind. (s : model.Begun)
        → model.step model.Low s (word_view word.entry) ≡ Err kind) }
{
    match word {
        Word::Number(digits) => match at_most_width(digits) {
            Some(k) => {
                if k < WIDTH_MAX {
                    Ok(k)
                } else {
                    Err(QueryKind::BadNumber)
                }
            }
            None => Err(QueryKind::BadNumber),
        },
        Word::Name(_) => Err(QueryKind::Syntax),
        Word::Opens => Err(QueryKind::Syntax),
        Word::Closes => Err(QueryKind::Syntax),
        Word::Comma => Err(QueryKind::Syntax),
        Word::OpensBits => Err(QueryKind::Syntax),
        Word::Colon => Err(QueryKind::Syntax),
        Word::ClosesBits => Err(QueryKind::Syntax),
        Word::Other => Err(QueryKind::Syntax),
    }
}

/// The number of a bit.
fn low(parser: &mut Parser<'_>) -> Result<u8, ReadError>
    ensures moves { MovesTo (model.Low ∷ []) (seen parser.old) result (λ k. model.AtLow k ∷ [])
        (seen parser.new) }
    ensures spells { IfOk result (λ k. left (seen parser.old)
        ≡ model.Number k ∷ left (seen parser.new)) }
    ensures small { IfOk result (λ k. k < WIDTH_MAX) }
    ensures nodes { OnOk result (parser.new.nodes ≡ parser.old.nodes) }
{
    let token = next(parser)?;
    match low_at(token.word) {
        Ok(k) => Ok(k),
        Err(kind) => Err(ReadError::Breach(Some(token.at), kind)),
    }
}

fn closes_at(word: Word<'_>) -> Result<bool, QueryKind>
    ensures word { IfOk result (λ b. word_view word.entry ≡ cond b model.ClosesBits model.Colon) }
    ensures step { (low : ℕ) → IfOk result (λ b. (s : model.Begun)
        → model.step (model.AtLow low) s (word_view word.entry)
        ≡ Ok (cond b model.AtBits (model.High low) ∷ [], s)) }
    ensures breaks { (low : ℕ) → IfErr result (λ kind. (s : model.Begun)
        → model.step (model.AtLow low) s (word_view word.entry) ≡ Err kind) }
{
    match word {
        Word::ClosesBits => Ok(true),
        Word::Colon => Ok(false),
        Word::Name(_) => Err(QueryKind::Syntax),
        Word::Number(_) => Err(QueryKind::Syntax),
        Word::Opens => Err(QueryKind::Syntax),
        Word::Closes => Err(QueryKind::Syntax),
        Word::Comma => Err(QueryKind::Syntax),
        Word::OpensBits => Err(QueryKind::Syntax),
        Word::Other => Err(QueryKind::Syntax),
    }
}

/// Whether a number in brackets is the only one: `]`, or else a colon.
fn closes_bits(parser: &mut Parser<'_>) -> Result<bool, ReadError>
    ensures moves { (low : ℕ) → MovesTo (model.AtLow low ∷ []) (seen parser.old) result
        (λ b. cond b model.AtBits (model.High low) ∷ []) (seen parser.new) }
    ensures spells { IfOk result (λ b. left (seen parser.old)
        ≡ cond b model.ClosesBits model.Colon ∷ left (seen parser.new)) }
    ensures nodes { OnOk result (parser.new.nodes ≡ parser.old.nodes) }
{
    let token = next(parser)?;
    match closes_at(token.word) {
        Ok(closes) => Ok(closes),
        Err(kind) => Err(ReadError::Breach(Some(token.at), kind)),
    }
}

fn high_at(word: Word<'_>, low: u8) -> Result<u8, QueryKind>
    requires { IsNumber word }
    ensures word { IfOk result (λ k. word_view word.entry ≡ model.Number k) }
    ensures step { IfOk result (λ k. (s : model.Begun)
        → model.step (model.High low) s (word_view word.entry) ≡ Ok (model.AtHigh ∷ [], s)) }
    ensures above { IfOk result (λ k. low < k) }
    ensures breaks { IfErr result (λ kind. (s : model.Begun)
        → model.step (model.High low) s (word_view word.entry) ≡ Err kind) }
{
    match word {
        Word::Number(digits) => match at_most_width(digits) {
            Some(k) => {
                if low < k {
                    Ok(k)
                } else {
                    Err(QueryKind::BadNumber)
                }
            }
            None => Err(QueryKind::BadNumber),
        },
        Word::Name(_) => Err(QueryKind::Syntax),
        Word::Opens => Err(QueryKind::Syntax),
        Word::Closes => Err(QueryKind::Syntax),
        Word::Comma => Err(QueryKind::Syntax),
        Word::OpensBits => Err(QueryKind::Syntax),
        Word::Colon => Err(QueryKind::Syntax),
        Word::ClosesBits => Err(QueryKind::Syntax),
        Word::Other => Err(QueryKind::Syntax),
    }
}

/// The end of bits that begin at bit `low`.
fn high(parser: &mut Parser<'_>, low: u8) -> Result<u8, ReadError>
    ensures moves { MovesTo (model.High low ∷ []) (seen parser.old) result
        (λ _. model.AtHigh ∷ []) (seen parser.new) }
    ensures spells { IfOk result (λ k. left (seen parser.old)
        ≡ model.Number k ∷ left (seen parser.new)) }
    ensures above { IfOk result (λ k. low < k) }
    ensures nodes { OnOk result (parser.new.nodes ≡ parser.old.nodes) }
{
    let token = next(parser)?;
    match high_at(token.word, low) {
        Ok(k) => Ok(k),
        Err(kind) => Err(ReadError::Breach(Some(token.at), kind)),
    }
}

/// How many bits there are from bit `low` on, with `]`.
fn size_of_bits(parser: &mut Parser<'_>, low: u8) -> Result<u8, ReadError>
    ensures moves { MovesTo (model.AtLow low ∷ []) (seen parser.old) result
        (λ _. model.AtBits ∷ []) (seen parser.new) }
    ensures spells { IfOk result (λ size. SpellsPart (model.OpensBits ∷ model.Number low
        ∷ left (seen parser.old)) (Some (record { low = low; size = size }))
        (left (seen parser.new))) }
    ensures nodes { OnOk result (parser.new.nodes ≡ parser.old.nodes) }
    ensures shorter { OnOk result (length (left (seen parser.new))
        ≤ length (left (seen parser.old))) }
{
    let is_one = closes_bits(parser)?;
    if is_one {
        return Ok(1);
    }
    let high = high(parser, low)?;
    symbol(parser, Mark::ClosesBits)?;
    Ok(high - low)
}

/// The bits of an object, after `[`, with the comma after them.
fn bits(parser: &mut Parser<'_>) -> Result<Part, ReadError>
    ensures moves { MovesTo (model.Low ∷ []) (seen parser.old) result (λ _. model.Bound ∷ [])
        (seen parser.new) }
    ensures spells { IfOk result (λ part. SpellsPart (model.OpensBits ∷ left (seen parser.old))
        (Some part) (model.Comma ∷ left (seen parser.new))) }
    ensures nodes { OnOk result (parser.new.nodes ≡ parser.old.nodes) }
    ensures shorter { OnOk result (length (left (seen parser.new))
        ≤ length (left (seen parser.old))) }
{
    let low = low(parser)?;
    let size = size_of_bits(parser, low)?;
    symbol(parser, Mark::EndsBits)?;
    Ok(Part { low, size })
}

/// The bits of an object whose name was read, if it has some after it, with the comma.
fn part(parser: &mut Parser<'_>) -> Result<Option<Part>, ReadError>
    ensures moves { MovesTo (model.AtName ∷ []) (seen parser.old) result (λ _. model.Bound ∷ [])
        (seen parser.new) }
    ensures spells { IfOk result (λ part. SpellsPart (left (seen parser.old)) part
        (model.Comma ∷ left (seen parser.new))) }
    ensures nodes { OnOk result (parser.new.nodes ≡ parser.old.nodes) }
    ensures shorter { OnOk result (length (left (seen parser.new))
        ≤ length (left (seen parser.old))) }
{
    let opens = opens_bits(parser)?;
    if opens {
        let part = bits(parser)?;
        Ok(Some(part))
    } else {
        Ok(None)
    }
}

/// What a comparison looks at, with the comma after it.
pub(crate) fn operand(parser: &mut Parser<'_>) -> Result<Place, ReadError>
    ensures moves { MovesTo (model.Object ∷ []) (seen parser.old) result (λ _. model.Bound ∷ [])
        (seen parser.new) }
    ensures spells { IfOk result (λ place. SpellsPlace (left (seen parser.old)) place
        (left (seen parser.new))) }
    ensures nodes { OnOk result (parser.new.nodes ≡ parser.old.nodes) }
    ensures shorter { OnOk result (length (left (seen parser.new))
        ≤ length (left (seen parser.old))) }
{
    let name = object(parser)?;
    let part = part(parser)?;
    Ok(Place { name, part })
}
