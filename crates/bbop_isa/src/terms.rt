//! The terms of a line: operands of objects, numbers, and the commas between them.

ghost use Rattle.std.specs.Prelude.{◌≡◌, ◌≤◌, ◌<◌, ◌∷◌, drop, length, map};
ghost use Rattle.bbop_isa.specs.Words.{Name, word_view};
ghost use Rattle.bbop_isa.specs.Operands.{Named, terms_of};
ghost use Rattle.bbop_isa.specs.Forms.{name_of};
ghost use Rattle.bbop_isa.specs.Reading.{bit_in, bits_in, term_view, written_view};

use crate::digits::Digits;
use crate::words::Word;

/// An operand of an object.
#[derive(Drop)]
pub(crate) enum Written<'a> {
    /// `NAME`
    Whole(&'a [u8]),
    /// `NAME[K]`
    Bit(&'a [u8], Digits<'a>),
    /// `NAME[LO:HI]`
    Bits(&'a [u8], Digits<'a>, Digits<'a>),
}

impl<'a> Written<'a> {
    /// The name of the object.
    pub fn name(&self) -> &'a [u8]
        ensures { result.now ≡ name_of (written_view self.now) }
    {
        match self {
            Written::Whole(name) => *name,
            Written::Bit(name, _) => *name,
            Written::Bits(name, _, _) => *name,
        }
    }
}

/// A term.
#[derive(Drop)]
pub(crate) enum Term<'a> {
    Named(Written<'a>),
    Value(Digits<'a>),
    /// A comma.
    Break,
    /// A word that belongs to no operand.
    Stray,
}

/// The number of a bit in brackets, where that is what words begin with.
fn bit_in<'a>(words: &[Word<'a>]) -> Option<Digits<'a>>
    ensures { result ≡ bit_in (map word_view words.now) }
{
    match words {
        [open, number, close, ..] => match (open, number, close) {
            (Word::Open, Word::Number(k), Word::Close) => Some(k.copied()),
            _ => None,
        },
        _ => None,
    }
}

/// The ends of bits in brackets, where that is what words begin with.
fn bits_in<'a>(words: &[Word<'a>]) -> Option<(Digits<'a>, Digits<'a>)>
    ensures { result ≡ bits_in (map word_view words.now) }
{
    match words {
        [open, low, colon, high, close, ..] => match (open, low, colon, high, close) {
            (Word::Open, Word::Number(low), Word::Colon, Word::Number(high), Word::Close) => Some((
                low.copied(),
                high.copied(),
            )),
            _ => None,
        },
        _ => None,
    }
}

/// The operand of a name, with the bits after it if there are some, and how many words these are.
fn operand_of<'a>(name: &'a [u8], words: &[Word<'a>]) -> (Written<'a>, usize)
    ensures read { terms_of (Name name.now ∷ map word_view words.now)
        ≡ Named (written_view result.0) ∷ terms_of (map word_view (drop result.1 words.now)) }
    ensures within { result.1 ≤ length words.now }
{
    if let Some(k) = bit_in(words) {
        return (Written::Bit(name, k), 3);
    }
    match bits_in(words) {
        Some((low, high)) => (Written::Bits(name, low, high), 5),
        None => (Written::Whole(name), 0),
    }
}

/// The first term of words, and how many of them it is.
pub(crate) fn first_term<'a>(words: &[Word<'a>]) -> (Term<'a>, usize)
    requires { 0 < length words.now }
    ensures read { terms_of (map word_view words.now)
        ≡ term_view result.0 ∷ terms_of (map word_view (drop result.1 words.now)) }
    ensures some { 0 < result.1 }
    ensures within { result.1 ≤ length words.now }
{
    match &words[0] {
        Word::Name(name) => {
            let (place, others) = operand_of(name, &words[1..]);
            (Term::Named(place), 1 + others)
        }
        Word::Number(number) => (Term::Value(number.copied()), 1),
        Word::Comma => (Term::Break, 1),
        Word::Open | Word::Colon | Word::Close | Word::Other => (Term::Stray, 1),
    }
}
