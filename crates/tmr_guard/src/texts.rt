//! The text of the flips.

ghost use Rattle.std.specs.Prelude.{◌≡◌, ◌≤◌, ◌<◌, ◌^◌, ◌-◌, length, true, Ok, IfOk, IfErr};
ghost use Rattle.std.specs.Char.{is_ascii_digit};
ghost use Rattle.std.specs.List.{AllPass};
ghost use Rattle.bbop_isa.specs.Numbers.{number_of};
ghost use Rattle.dram_model.specs.Geometry.{is_geometry};
ghost use Rattle.guard_model.specs.FlipText.{flip_of, flips_of};
ghost use Rattle.tmr_guard.specs.Reading.{FlipIn, NumbersOf, Refused};
ghost use Rattle.tmr_guard.specs.declared.texts.FlipLineError.TheVariants as line_no;

use bbop_isa::split_line;
use bit_rows::Value;
use dram_model::Geometry;
use faults::{NoMemory, keep};
use guard_model::{Flip, FlipsFault, FlipsKind};
use std::alloc::Global;
use text_lex::{Lexer, TokenKind, items_are_right, number};

/// Why a line was not read.
#[derive(Clone, Copy, PartialEq, Eq)]
pub(crate) enum FlipLineError {
    Bad(FlipsKind),
    NoMemory,
}

impl From<NoMemory> for FlipLineError {
    ghost from_gives = { λ _ e. e ≡ line_no.NoMemory };

    fn from(_no: NoMemory) -> FlipLineError {
        FlipLineError::NoMemory
    }
}

/// Why there are no flips.
#[derive(Clone, Copy, PartialEq, Eq)]
pub enum FlipsNo {
    Fault(FlipsFault),
    NoMemory,
}

fn value_of(digits: &[u8]) -> Option<Value>
    requires { AllPass is_ascii_digit digits.now }
    ensures { result ≡ number_of digits.now }
{
    number(digits)
}

/// The numbers of a line, where all its words are numbers.
fn numbers_in(line: &[u8], alloc: Global) -> Result<Option<Vec<Option<Value>>>, FlipLineError>
    ensures { NumbersOf line.now result }
{
    items_are_right();
    let mut numbers = Vec::new(alloc);
    let mut plain = true;
    let mut lexer = Lexer::new(line);
    loop {
        match lexer.next() {
            Ok(Some(token)) => match token.kind {
                TokenKind::Number => keep(&mut numbers, value_of(token.text))?,
                _ => plain = false,
            },
            Ok(None) => return Ok(if plain { Some(numbers) } else { None }),
            Err(_) => return Err(FlipLineError::Bad(FlipsKind::Lex)),
        }
    }
}

/// The flip of four numbers, where each is in its range.
fn checked(
    g: Geometry,
    instrs: u32,
    before: u32,
    k: Option<Value>,
    bank: Option<Value>,
    row: Option<Value>,
    column: Option<Value>,
) -> Result<Option<Flip>, FlipsKind>
    requires { instrs < 2 ^ 32 - 1 }
    ensures { result ≡ flip_of g instrs before k bank row column }
{
    let (Some(k), Some(bank), Some(row), Some(column)) = (k, bank, row, column) else {
        return Err(FlipsKind::Number);
    };
    if 1 <= k && (Value::from(before) <= k && k <= Value::from(instrs) + 1) {
        if bank < Value::from(g.banks)
            && (row < Value::from(g.rows) && column < 64 * Value::from(g.words))
        {
            return Ok(Some(Flip {
                before: k as u32,
                bank: bank as u16,
                row: row as u16,
                column: column as u32,
            }));
        }
    }
    Err(FlipsKind::Number)
}

/// What a line says, after a line with this K.
fn flip_in(
    line: &[u8],
    g: Geometry,
    instrs: u32,
    before: u32,
    alloc: Global,
) -> Result<Option<Flip>, FlipLineError>
    requires { instrs < 2 ^ 32 - 1 }
    ensures { FlipIn g instrs before line.now result }
{
    let Some(numbers) = numbers_in(line, alloc)? else {
        return Err(FlipLineError::Bad(FlipsKind::Syntax));
    };
    match numbers.as_slice() {
        [] => Ok(None),
        [k, bank, row, column] => {
            match checked(g, instrs, before, *k, *bank, *row, *column) {
                Ok(flip) => Ok(flip),
                Err(kind) => Err(FlipLineError::Bad(kind)),
            }
        }
        _ => Err(FlipLineError::Bad(FlipsKind::Syntax)),
    }
}

/// The flips of a text's lines, or the first line that breaks a rule. `instrs` is the number of the
/// script's instructions. Time and memory are in proportion to the text.
pub fn parse_flips(
    text: &[u8],
    g: Geometry,
    instrs: u32,
    alloc: Global,
) -> Result<Vec<Flip>, FlipsNo>
    requires geometry { is_geometry g ≡ true }
    requires instrs { instrs < 2 ^ 32 - 1 }
    requires text { length text.now < 2 ^ 32 }
    ensures accepted { IfOk result (λ flips. flips_of g instrs text.now ≡ Ok flips.items) }
    ensures refused { IfErr result (Refused g instrs text.now) }
{
    let mut flips = Vec::new(alloc);
    let mut rest = text;
    let mut number: u64 = 1;
    let mut before = 0;
    'lines: loop {
        let (line, others) = split_line(rest);
        match flip_in(line, g, instrs, before, alloc) {
            Ok(None) => {}
            Ok(Some(flip)) => {
                before = flip.before;
                if flips.push(flip).is_err() {
                    return Err(FlipsNo::NoMemory);
                }
            }
            Err(FlipLineError::Bad(kind)) => {
                let line = number as u32;
                return Err(FlipsNo::Fault(FlipsFault { line, kind }));
            }
            Err(FlipLineError::NoMemory) => return Err(FlipsNo::NoMemory),
        }
        let Some(more) = others else {
            return Ok(flips);
        };
        rest = more;
        number += 1;
    }
}
