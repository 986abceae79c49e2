//! Operands with commas between them.

ghost use Rattle.std.specs.Prelude.{◌≡◌, length};
ghost use Rattle.bbop_isa.specs.Reading.{OperandsOf, Pushes, Takes, term_view};

use crate::digits::Digits;
use crate::instr::LineError;
use crate::terms::{Term, Written, first_term};
use crate::words::Word;
use faults::keep;
use std::alloc::Global;

/// Operands of objects, and then numbers.
#[derive(Drop)]
pub(crate) struct Operands<'a> {
    pub places: Vec<Written<'a>>,
    pub numbers: Vec<Digits<'a>>,
    /// Whether the next term is to be a comma.
    at_comma: bool,
}

impl<'a> Operands<'a> {
    /// Whether the term is an operand of an object, or a number; with no object after a number.
    fn push(&mut self, term: Term<'a>) -> Result<bool, LineError>
        ensures pushed { Pushes self.old (term_view term.entry) result self.new }
        ensures comma { self.new.at_comma ≡ self.old.at_comma }
    {
        match term {
            Term::Named(place) => {
                if !self.numbers.is_empty() {
                    return Ok(false);
                }
                keep(&mut self.places, place)?;
            }
            Term::Value(number) => keep(&mut self.numbers, number)?,
            Term::Break | Term::Stray => return Ok(false),
        }
        Ok(true)
    }

    /// Whether the term may come next.
    fn take(&mut self, term: Term<'a>) -> Result<bool, LineError>
        ensures { Takes self.old (term_view term.entry) result self.new }
    {
        if self.at_comma {
            self.at_comma = false;
            Ok(matches!(term, Term::Break))
        } else {
            self.at_comma = true;
            self.push(term)
        }
    }
}

/// The operands that the words are, if they are some.
pub(crate) fn operands_of<'a>(
    words: &[Word<'a>],
    alloc: Global,
) -> Result<Option<Operands<'a>>, LineError>
    ensures { OperandsOf words.now result }
{
    let mut operands = Operands {
        places: Vec::new(alloc),
        numbers: Vec::new(alloc),
        at_comma: false,
    };
    let mut at = 0;
    while at < words.len() {
        let (term, len) = first_term(&words[at..]);
        if !operands.take(term)? {
            return Ok(None);
        }
        at += len;
    }
    Ok(if operands.at_comma {
        Some(operands)
    } else {
        None
    })
}
