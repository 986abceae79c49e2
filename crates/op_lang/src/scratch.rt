//! The scratch rows that an op needs.

ghost use Rattle.std.specs.Prelude.{◌≡◌, ℕ, ◌+◌, ◌*◌, ◌≤◌, ◌&&◌, [], ◌∷◌, min, map, not, count_by};
ghost use Rattle.std.specs.Prelude.{bytes_eq, Option, Some, None, length};
ghost use Rattle.op_text.specs.Language.{statement, operation, result_names};
ghost use Rattle.std.specs.List.{list_any};
ghost use Rattle.std.specs.Option.{option_to_list};
ghost use Rattle.op_text.specs.Rules.{is_among, kind_among, second_of};
ghost use Rattle.op_text.specs.WordOps.{second_gives};
ghost use Rattle.op_text.specs.Scratch as scratch;
ghost use Rattle.op_lang.specs.Counting.{known_after, is_counted, need_of, rows_needed, MOST};

use crate::names::{is_same_kind, kind_of};
use op_text::{
    Assign, Kind, Op, Param, State, Stmt, WordOp, bits_inside, given_first, second_kind,
    words_inside,
};
use text_lex::Name;

/// The scratch rows that one statement or a whole op needs beside its words' rows: `bits` single
/// rows, and
/// `words` groups of as many rows as a word has bits. Numbers past 65,535 stay there.
#[derive(Clone, Copy, PartialEq, Eq)]
pub struct Scratch {
    pub bits: u16,
    pub words: u16,
}

fn is_state(states: &[State], name: &[u8]) -> bool
    ensures { result ≡ list_any (λ s. bytes_eq s.name name.now) states.now }
{
    states.iter().any(|s| s.name.bytes() == name)
}

fn is_target(assigns: &[Assign], name: &[u8]) -> bool
    ensures { result ≡ list_any (λ a. bytes_eq a.name name.now) assigns.now }
{
    assigns.iter().any(|a| a.name.bytes() == name)
}

/// The kind of a name that is a second target.
fn kind_second(second: &Option<Name>, op: WordOp, name: &[u8]) -> Option<Kind>
    ensures { result ≡ kind_among (second_of second.now op) name.now }
{
    match second {
        Some(target) => {
            if target.bytes() == name {
                Some(second_gives(op))
            } else {
                None
            }
        }
        None => None,
    }
}

fn second_gives(op: WordOp) -> Kind
    ensures { result ≡ second_gives op }
{
    second_kind(op).unwrap_or(Kind::Word)
}

/// The kind of a name that stands after some statements.
#[cycle(kinds)]
fn kind_after(params: &[Param], before: &[Stmt], name: &[u8]) -> Option<Kind>
    ensures { result ≡ kind_among (known_after params.now (map statement before.now)) name.now }
{
    match before {
        [] => kind_of(params, name),
        [front @ .., last] => match kind_after(params, front, name) {
            Some(kind) => Some(kind),
            None => kind_in(params, front, last, name),
        },
    }
}

/// The kind of a name that a statement defines.
#[cycle(kinds)]
fn kind_in(params: &[Param], before: &[Stmt], defining: &Stmt, name: &[u8]) -> Option<Kind>
    ensures { result
        ≡ kind_among (scratch.defines (known_after params.now (map statement before.now))
        (statement defining.now)) name.now }
{
    match defining {
        Stmt::Word {
            dst,
            second,
            op,
            args,
        } => {
            if dst.bytes() == name {
                Some(kind_given(params, before, *op, args))
            } else {
                kind_second(second, *op, name)
            }
        }
        Stmt::Serial {
            states,
            assigns,
            ..
        } => {
            if is_state(states, name) {
                Some(Kind::Bit)
            } else if is_target(assigns, name) {
                Some(Kind::Word)
            } else {
                None
            }
        }
    }
}

/// The kind of a word statement's first result.
#[cycle(kinds)]
fn kind_given(params: &[Param], before: &[Stmt], op: WordOp, args: &[Name]) -> Kind
    ensures { result ≡ scratch.result_kind (known_after params.now (map statement before.now)) op
        args.now }
{
    match args {
        [] => given_first(op, None),
        [first, ..] => match kind_after(params, before, first.bytes()) {
            Some(kind) => given_first(op, Some(kind)),
            None => given_first(op, Some(Kind::Word)),
        },
    }
}

fn is_result(op: &Op, name: &[u8]) -> bool
    ensures { result ≡ is_among (result_names (operation op.now)) name.now }
{
    op.result.name.bytes() == name || is_second(&op.second, name)
}

fn is_second(second: &Option<Param>, name: &[u8]) -> bool
    ensures { result ≡ is_among (map (λ (p : Param). p.name) (option_to_list second.now)) name.now }
{
    match second {
        Some(param) => param.name.bytes() == name,
        None => false,
    }
}

fn count_states(states: &[State], op: &Op) -> usize
    ensures { result
        ≡ count_by (λ s. not (is_among (result_names (operation op.now)) s.name)) states.now }
{
    states
        .iter()
        .filter(|s| !is_result(op, s.name.bytes()))
        .count()
}

fn count_words(states: &[State], assigns: &[Assign], op: &Op) -> usize
    ensures { result ≡ count_by (λ a. not (list_any (λ s. bytes_eq s.name a.name) states.now)
        && not (is_among (result_names (operation op.now)) a.name)) assigns.now }
{
    assigns
        .iter()
        .filter(|a| !is_state(states, a.name.bytes()) && !is_result(op, a.name.bytes()))
        .count()
}

/// 1 for a name of this kind that is no result, and else 0.
fn count_name(of: &Op, kind: Kind, name: &Name, given: Kind) -> usize
    ensures value { result ≡ count_by (is_counted kind (result_names (operation of.now)))
        (scratch.param name.now given ∷ []) }
    ensures small { result ≤ 1 }
{
    if is_same_kind(given, kind) && !is_result(of, name.bytes()) {
        1
    } else {
        0
    }
}

fn count_second(of: &Op, kind: Kind, second: &Option<Name>, op: WordOp) -> usize
    ensures value { result ≡ count_by (is_counted kind (result_names (operation of.now)))
        (second_of second.now op) }
    ensures small { result ≤ 1 }
{
    match second {
        Some(name) => count_name(of, kind, name, second_gives(op)),
        None => 0,
    }
}

/// How many names of a kind a statement defines, other than the results.
fn count_in(params: &[Param], before: &[Stmt], defining: &Stmt, kind: Kind, of: &Op) -> usize
    ensures { result ≡ count_by (is_counted kind (result_names (operation of.now)))
        (scratch.defines (known_after params.now (map statement before.now))
        (statement defining.now)) }
{
    match defining {
        Stmt::Word {
            dst,
            second,
            op,
            args,
        } => {
            let given = kind_given(params, before, *op, args);
            let first = count_name(of, kind, dst, given);
            first + count_second(of, kind, second, *op)
        }
        Stmt::Serial {
            states,
            assigns,
            ..
        } => match kind {
            Kind::Bit => count_states(states, of),
            Kind::Word => count_words(states, assigns, of),
        },
    }
}

fn capped(n: usize) -> u16
    ensures { result ≡ min n MOST }
{
    if n > 65535 { 65535 } else { n as u16 }
}

fn capped_sum(a: u16, b: u16) -> u16
    ensures { result ≡ min (a + b) MOST }
{
    if a > 65535 - b { 65535 } else { a + b }
}

fn capped_product(n: u8, a: u16) -> u16
    ensures { result ≡ min (n * a) MOST }
{
    let product = u32::from(n) * u32::from(a);
    if product > 65535 {
        65535
    } else {
        product as u16
    }
}

/// How many names of a kind the statements define, other than the results.
fn count_names(params: &[Param], body: &[Stmt], kind: Kind, of: &Op) -> u16
    ensures { result ≡ min (count_by (is_counted kind (result_names (operation of.now)))
        (scratch.body_defines params.now (map statement body.now))) MOST }
{
    match body {
        [] => 0,
        [front @ .., last] => capped_sum(
            count_names(params, front, kind, of),
            capped(count_in(params, front, last, kind, of)),
        ),
    }
}

fn inside(kind: Kind, defining: &Stmt) -> u16
    ensures value { result ≡ need_of kind (statement defining.now) }
{
    match defining {
        Stmt::Word { op, .. } => match kind {
            Kind::Bit => bits_inside(*op),
            Kind::Word => words_inside(*op),
        },
        Stmt::Serial { .. } => 0,
    }
}

/// The greatest need of a statement beside the names.
fn greatest_inside(kind: Kind, body: &[Stmt]) -> u16
    ensures { result ≡ scratch.greatest (map (need_of kind) (map statement body.now)) }
{
    match body {
        [] => 0,
        [first, rest @ ..] => inside(kind, first).max(greatest_inside(kind, rest)),
    }
}

fn rows_of(op: &Op, kind: Kind) -> u16
    ensures { result ≡ min (rows_needed kind (operation op.now)) MOST }
{
    capped_sum(
        count_names(&op.params, &op.body, kind, op),
        greatest_inside(kind, &op.body),
    )
}

/// The scratch rows of an op.
pub fn scratch_of(op: &Op) -> Scratch
    ensures bits { result.bits ≡ min (scratch.scratch_bits (operation op.now)) MOST }
    ensures words { result.words ≡ min (scratch.scratch_words (operation op.now)) MOST }
{
    Scratch {
        bits: rows_of(op, Kind::Bit),
        words: rows_of(op, Kind::Word),
    }
}

/// The number of scratch rows of an op on words of `n` bits.
pub fn need(op: &Op, n: u8) -> u16
    ensures { result ≡ min (scratch.need (operation op.now) n) MOST }
{
    let scratch = scratch_of(op);
    capped_sum(scratch.bits, capped_product(n, scratch.words))
}
