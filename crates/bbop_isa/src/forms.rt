//! The forms of a line.

ghost use Rattle.std.specs.Prelude.{◌≡◌, ◌≢◌, ◌&&◌, ◌-◌, ◌≤◌, ◌<◌, List, [], ◌∷◌, length, map};
ghost use Rattle.std.specs.Prelude.{drop, Some, None, Ok, Err, true, false, nat_lt, IfSome};
ghost use Rattle.std.specs.Prelude.{MatchOption};
ghost use Rattle.std.specs.List.{list_all};
ghost use Rattle.std.specs.Option.{option_map};
ghost use Rattle.text_lex.specs.Spelled.{fits_name};
ghost use Rattle.bbop_isa.specs.Words.{word_view};
ghost use Rattle.bbop_isa.specs.Forms.{view_of, is_bit, is_count, is_width, is_seed};
ghost use Rattle.bbop_isa.specs.Forms.{number_or_zero, name_of, has_name, has_bits, place_of};
ghost use Rattle.bbop_isa.specs.Forms.{init_of, bbop_of, load_of, fill_of, print_of, free_of};
ghost use Rattle.bbop_isa.specs.Forms.{order_of, verb_of, of_operands, instruction_of, line_of};
ghost use Rattle.bbop_isa.specs.Reading.{Gives, ValuesOf, IsNoTarget, operands_view};
ghost use Rattle.bbop_isa.specs.Reading.{written_view};

use crate::digits::Digits;
use crate::instr::LineError::{self, Bad};
use crate::instr::ScriptKind::{BadName, BadNumber, Syntax};
use crate::instr::{Instr, Order, Part, Place};
use crate::operands::{Operands, operands_of};
use crate::terms::Written;
use crate::words::{Word, words_of};
use arrayvec::ArrayVec;
use bit_rows::{Value, WIDTH_MAX};
use faults::keep;
use std::alloc::Global;
use text_lex::Name;

/// What the first name of a line says that it is.
#[derive(Clone, Copy)]
enum Verb {
    Init,
    Bbop,
    Load,
    Fill,
    Print,
    Free,
}

fn verb_of(head: &[u8]) -> Option<Verb>
    ensures verb { result ≡ verb_of head.now }
    ensures prefix { IfSome result (λ v. v ≡ Verb.Bbop → 5 ≤ length head.now) }
{
    if head == b"bbop_trsp_init".as_slice() {
        Some(Verb::Init)
    } else if head.starts_with(b"bbop_") {
        Some(Verb::Bbop)
    } else if head == b"load".as_slice() {
        Some(Verb::Load)
    } else if head == b"fill".as_slice() {
        Some(Verb::Fill)
    } else if head == b"print".as_slice() {
        Some(Verb::Print)
    } else if head == b"free".as_slice() {
        Some(Verb::Free)
    } else {
        None
    }
}

/// The one item.
fn only<T>(items: &[T]) -> Option<&T>
    ensures { MatchOption result (length items.now ≢ 1) (λ x. items.now ≡ x.now ∷ []) }
{
    match items {
        [item] => Some(item),
        _ => None,
    }
}

/// The two items.
fn pair<T>(items: &[T]) -> Option<(&T, &T)>
    ensures { MatchOption result (length items.now ≢ 2) (λ p. items.now ≡ p.0.now ∷ p.1.now ∷ []) }
{
    match items {
        [first, second] => Some((first, second)),
        _ => None,
    }
}

/// A number of elements.
fn count_of(number: Option<Value>) -> Option<u32>
    ensures { MatchOption result (is_count number ≡ false) (λ count. (is_count number ≡ true)
        × (count ≡ number_or_zero number)) }
{
    match number {
        Some(count) if 1 <= count && count <= Value::from(u32::MAX) => Some(count as u32),
        _ => None,
    }
}

/// A width in bits.
fn width_of(number: Option<Value>) -> Option<u8>
    ensures { MatchOption result (is_width number ≡ false) (λ n. (is_width number ≡ true)
        × (n ≡ number_or_zero number)) }
{
    match number {
        Some(n) if 1 <= n && n <= Value::from(WIDTH_MAX) => Some(n as u8),
        _ => None,
    }
}

/// A number of elements, and a width in bits.
fn sizes_of(count: &Digits<'_>, n: &Digits<'_>) -> Option<(u32, u8)>
    ensures { MatchOption result ((is_count count.now && is_width n.now)
        ≡ false) (λ p. ((is_count count.now && is_width n.now) ≡ true)
        × (p.0 ≡ number_or_zero count.now) × (p.1 ≡ number_or_zero n.now)) }
{
    Some((count_of(count.value())?, width_of(n.value())?))
}

/// The part of one bit.
fn bit_of(number: Option<Value>) -> Option<Part>
    ensures { MatchOption result (is_bit number ≡ false) (λ part. (is_bit number ≡ true)
        × (part.low ≡ number_or_zero number) × (part.size ≡ 1)) }
{
    match number {
        Some(low) if low < Value::from(WIDTH_MAX) => Some(Part {
            low: low as u8,
            size: 1,
        }),
        _ => None,
    }
}

/// The part of the bits from one up to, not with, another.
fn bits_of(low: Option<Value>, high: Option<Value>) -> Option<Part>
    ensures { MatchOption result
        ((is_bit low && (is_width high && nat_lt (number_or_zero low) (number_or_zero high)))
        ≡ false) (λ part. ((is_bit low && (is_width high
        && nat_lt (number_or_zero low) (number_or_zero high))) ≡ true)
        × (part.low ≡ number_or_zero low)
        × (part.size ≡ number_or_zero high - number_or_zero low)) }
{
    let low = bit_of(low)?.low;
    let high = width_of(high)?;
    if low < high {
        Some(Part {
            low,
            size: high - low,
        })
    } else {
        None
    }
}

/// The place of an operand with this name, where its bits are right.
fn placed(name: Name, written: &Written<'_>) -> Option<Place>
    requires { name ≡ name_of (written_view written.now) }
    ensures { MatchOption result (has_bits (written_view written.now)
        ≡ false) (λ place. (has_bits (written_view written.now) ≡ true)
        × (place ≡ place_of (written_view written.now))) }
{
    let part = match written {
        Written::Whole(_) => None,
        Written::Bit(_, k) => Some(bit_of(k.value())?),
        Written::Bits(_, low, high) => Some(bits_of(low.value(), high.value())?),
    };
    Some(Place { name, part })
}

/// The place of an operand, where its name and its bits are right.
fn place_of(written: &Written<'_>) -> Option<Place>
    ensures { MatchOption result ((has_name (written_view written.now)
        && has_bits (written_view written.now)) ≡ false) (λ place.
        ((has_name (written_view written.now) && has_bits (written_view written.now)) ≡ true)
        × (place ≡ place_of (written_view written.now))) }
{
    placed(Name::new(written.name())?, written)
}

/// Whether the operand's name is right.
fn has_name(written: &Written<'_>) -> bool
    ensures { result ≡ has_name (written_view written.now) }
{
    Name::new(written.name()).is_some()
}

fn all_have_names(places: &[Written<'_>]) -> bool
    ensures { result ≡ list_all (λ place. has_name (written_view place)) places.now }
{
    places.iter().all(|place| has_name(place))
}

/// Whether each operand's name is right.
fn are_named(places: &[Written<'_>]) -> bool
    ensures { result ≡ list_all has_name (map written_view places.now) }
{
    all_have_names(places)
}

/// The name of an operation, where it and those of its operands are right.
fn op_of(op: &[u8], dst: &Written<'_>, srcs: &[Written<'_>]) -> Option<Name>
    ensures { MatchOption result ((fits_name op.now && list_all has_name (written_view dst.now
        ∷ map written_view srcs.now)) ≡ false) (λ name. ((fits_name op.now
        && list_all has_name (written_view dst.now ∷ map written_view srcs.now)) ≡ true)
        × (name ≡ op.now)) }
{
    let name = Name::new(op)?;
    if !has_name(dst) {
        return None;
    }
    if !are_named(srcs) {
        return None;
    }
    Some(name)
}

/// The places of named operands, where the bits of all are right.
fn places_of(places: &[Written<'_>]) -> Option<ArrayVec<Place, 5>>
    requires few { length places.now ≤ 5 }
    requires named { list_all has_name (map written_view places.now) ≡ true }
    ensures { MatchOption result (list_all has_bits (map written_view places.now)
        ≡ false) (λ meant. (list_all has_bits (map written_view places.now) ≡ true)
        × (meant.items ≡ map place_of (map written_view places.now))) }
{
    let mut meant = ArrayVec::new();
    for written in places {
        meant.push(place_of(written)?);
    }
    Some(meant)
}

/// The places of named operands, a destination and sources, where the bits of all are right.
fn targets_of(dst: &Written<'_>, srcs: &[Written<'_>]) -> Option<(Place, ArrayVec<Place, 5>)>
    requires few { length srcs.now ≤ 5 }
    requires named { list_all has_name (written_view dst.now ∷ map written_view srcs.now) ≡ true }
    ensures { MatchOption result (list_all has_bits (written_view dst.now
        ∷ map written_view srcs.now) ≡ false) (λ p. (list_all has_bits (written_view dst.now
        ∷ map written_view srcs.now) ≡ true) × (p.0 ≡ place_of (written_view dst.now))
        × (p.1.items ≡ map place_of (map written_view srcs.now))) }
{
    let dst = place_of(dst)?;
    Some((dst, places_of(srcs)?))
}

fn init_of(places: &[Written<'_>], numbers: &[Digits<'_>]) -> Result<Instr, LineError>
    ensures { Gives view_of (init_of (map written_view places.now) numbers.now) result }
{
    let Some(Written::Whole(name)) = only(places) else {
        return Err(Bad(Syntax));
    };
    let Some((count, n)) = pair(numbers) else {
        return Err(Bad(Syntax));
    };
    let Some(name) = Name::new(name) else {
        return Err(Bad(BadName));
    };
    match sizes_of(count, n) {
        Some((count, n)) => Ok(Instr::Init { name, count, n }),
        None => Err(Bad(BadNumber)),
    }
}

/// The first of two or more operands, and one to five others.
fn targets<'a, 'b>(places: &'b [Written<'a>]) -> Option<(&'b Written<'a>, &'b [Written<'a>])>
    ensures { MatchOption result (IsNoTarget places.now) (λ p. (places.now ≡ p.0.now ∷ p.1.now)
        × (1 ≤ length p.1.now) × (length p.1.now ≤ 5)) }
{
    match places.split_first() {
        Some((dst, srcs)) if 1 <= srcs.len() && srcs.len() <= 5 => Some((dst, srcs)),
        _ => None,
    }
}

fn bbop_of(op: &[u8], places: &[Written<'_>], numbers: &[Digits<'_>]) -> Result<Instr, LineError>
    ensures { Gives view_of (bbop_of op.now (map written_view places.now) numbers.now) result }
{
    let Some((dst, srcs)) = targets(places) else {
        return Err(Bad(Syntax));
    };
    let Some((count, n)) = pair(numbers) else {
        return Err(Bad(Syntax));
    };
    let Some(op) = op_of(op, dst, srcs) else {
        return Err(Bad(BadName));
    };
    let Some((dst, srcs)) = targets_of(dst, srcs) else {
        return Err(Bad(BadNumber));
    };
    match sizes_of(count, n) {
        Some((count, n)) => Ok(Instr::Bbop {
            op,
            dst,
            srcs,
            count,
            n,
        }),
        None => Err(Bad(BadNumber)),
    }
}

/// The values, where all are right.
fn values_of(numbers: &[Digits<'_>], alloc: Global) -> Result<Vec<Value>, LineError>
    ensures { ValuesOf numbers.now result }
{
    let Ok(mut values) = Vec::with_capacity(alloc, numbers.len()) else {
        return Err(LineError::NoMemory);
    };
    for number in numbers {
        let Some(value) = number.value() else {
            return Err(Bad(BadNumber));
        };
        keep(&mut values, value)?;
    }
    Ok(values)
}

fn load_of(
    places: &[Written<'_>],
    numbers: &[Digits<'_>],
    alloc: Global,
) -> Result<Instr, LineError>
    ensures { Gives view_of (load_of (map written_view places.now) numbers.now) result }
{
    let Some(place) = only(places) else {
        return Err(Bad(Syntax));
    };
    if numbers.is_empty() {
        return Err(Bad(Syntax));
    }
    let Some(name) = Name::new(place.name()) else {
        return Err(Bad(BadName));
    };
    let Some(place) = placed(name, place) else {
        return Err(Bad(BadNumber));
    };
    let values = values_of(numbers, alloc)?;
    Ok(Instr::Load { place, values })
}

fn fill_of(places: &[Written<'_>], numbers: &[Digits<'_>]) -> Result<Instr, LineError>
    ensures { Gives view_of (fill_of (map written_view places.now) numbers.now) result }
{
    let Some(place) = only(places) else {
        return Err(Bad(Syntax));
    };
    let Some(number) = only(numbers) else {
        return Err(Bad(Syntax));
    };
    let Some(name) = Name::new(place.name()) else {
        return Err(Bad(BadName));
    };
    let Some(place) = placed(name, place) else {
        return Err(Bad(BadNumber));
    };
    match number.value() {
        Some(value) => Ok(Instr::Fill { place, value }),
        None => Err(Bad(BadNumber)),
    }
}

fn print_of(places: &[Written<'_>], numbers: &[Digits<'_>]) -> Result<Instr, LineError>
    ensures { Gives view_of (print_of (map written_view places.now) numbers.now) result }
{
    let Some(place) = only(places) else {
        return Err(Bad(Syntax));
    };
    if !numbers.is_empty() {
        return Err(Bad(Syntax));
    }
    let Some(name) = Name::new(place.name()) else {
        return Err(Bad(BadName));
    };
    let Some(place) = placed(name, place) else {
        return Err(Bad(BadNumber));
    };
    Ok(Instr::Print { place })
}

fn free_of(places: &[Written<'_>], numbers: &[Digits<'_>]) -> Result<Instr, LineError>
    ensures { Gives view_of (free_of (map written_view places.now) numbers.now) result }
{
    let Some(Written::Whole(name)) = only(places) else {
        return Err(Bad(Syntax));
    };
    if !numbers.is_empty() {
        return Err(Bad(Syntax));
    }
    match Name::new(name) {
        Some(name) => Ok(Instr::Free { name }),
        None => Err(Bad(BadName)),
    }
}

/// A seed.
fn seed_of(number: Option<Value>) -> Option<u64>
    ensures { MatchOption result (is_seed number ≡ false) (λ seed. (is_seed number ≡ true)
        × (seed ≡ number_or_zero number)) }
{
    match number {
        Some(seed) if seed <= Value::from(u64::MAX) => Some(seed as u64),
        _ => None,
    }
}

fn order_of(words: &[Word<'_>]) -> Result<Instr, LineError>
    ensures { Gives view_of (order_of (map word_view words.now)) result }
{
    match words {
        [word] => match word {
            Word::Name(word) if *word == b"in".as_slice() => Ok(Instr::Order(Order::Forward)),
            Word::Name(word) if *word == b"turns".as_slice() => Ok(Instr::Order(Order::Turns)),
            _ => Err(Bad(Syntax)),
        },
        [word, seed] => match (word, seed) {
            (Word::Name(word), Word::Number(seed)) if *word == b"seed".as_slice() => {
                match seed_of(seed.value()) {
                    Some(seed) => Ok(Instr::Order(Order::Seed(seed))),
                    None => Err(Bad(BadNumber)),
                }
            }
            _ => Err(Bad(Syntax)),
        },
        _ => Err(Bad(Syntax)),
    }
}

/// What a line of this verb says, with these operands.
fn of_operands(
    head: &[u8],
    verb: Verb,
    operands: &Operands<'_>,
    alloc: Global,
) -> Result<Instr, LineError>
    requires { verb ≡ Verb.Bbop → 5 ≤ length head.now }
    ensures { Gives view_of (of_operands head.now verb (operands_view operands.now)) result }
{
    let places = operands.places.as_slice();
    let numbers = operands.numbers.as_slice();
    match verb {
        Verb::Init => init_of(places, numbers),
        Verb::Bbop => bbop_of(&head[5..], places, numbers),
        Verb::Load => load_of(places, numbers, alloc),
        Verb::Fill => fill_of(places, numbers),
        Verb::Print => print_of(places, numbers),
        Verb::Free => free_of(places, numbers),
    }
}

/// What a line says whose first token is this name.
fn instruction_of(head: &[u8], words: &[Word<'_>], alloc: Global) -> Result<Instr, LineError>
    ensures { Gives view_of (instruction_of head.now (map word_view words.now)) result }
{
    if head == b"order".as_slice() {
        return order_of(words);
    }
    let Some(verb) = verb_of(head) else {
        return Err(Bad(Syntax));
    };
    match operands_of(words, alloc)? {
        Some(operands) => of_operands(head, verb, &operands, alloc),
        None => Err(Bad(Syntax)),
    }
}

/// What a line says: an instruction, or nothing where it has no token.
pub fn line_of(line: &[u8], alloc: Global) -> Result<Option<Instr>, LineError>
    ensures { Gives (option_map view_of) (line_of line.now) result }
{
    let words = words_of(line, alloc)?;
    match words.split_first() {
        None => Ok(None),
        Some((Word::Name(head), others)) => Ok(Some(instruction_of(head, others, alloc)?)),
        Some(_) => Err(Bad(Syntax)),
    }
}
