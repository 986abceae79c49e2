//! The table of word operations: names, what they take and give, and the scratch that they need.

ghost use Rattle.std.specs.Prelude.{◌≡◌, [], ◌∷◌, Some, None, map};
ghost use Rattle.op_text.specs.WordOps.{op_named, op_text, row_of, first_named, forms};
ghost use Rattle.op_text.specs.WordOps.{signature_forms, may_take, wants_more, filled};
ghost use Rattle.op_text.specs.WordOps.{given_first, same_kind, second_kind};
ghost use Rattle.op_text.specs.Scratch.{bits_inside, words_inside};
ghost use Rattle.op_text.specs.declared.tree.Kind.TheVariants.{Word};

use crate::tree::Kind;
use crate::tree::Kind::{Bit, Word};
use Signature::{Choice, Nothing, OneOf, OneWord, TwoOf, TwoWords};

/// The word operations. Each has a row in [`WORD_OPS`].
#[derive(Clone, Copy, PartialEq, Eq)]
pub enum WordOp {
    Not,
    And,
    Or,
    Xor,
    Copy,
    Zero,
    Ones,
    Shl1,
    Shr1,
    Add,
    Sub,
    Mul,
    Div,
    Rem,
    Abs,
    Relu,
    Min,
    Max,
    Eq,
    Gt,
    Ge,
    IfElse,
    Bitcount,
    AndRed,
    OrRed,
    XorRed,
    /// Quotient and remainder, to two targets.
    Divmod,
}

/// What an operation takes and gives.
#[derive(Clone, Copy)]
pub enum Signature {
    /// No argument; it gives a word.
    Nothing,
    /// A word, and it gives a word; or a bit, and it gives a bit.
    OneOf,
    /// Two words, and it gives a word; or two bits, and it gives a bit.
    TwoOf,
    /// A word; it gives this kind.
    OneWord(Kind),
    /// Two words; the first result is of this kind.
    TwoWords(Kind),
    /// Two words or two bits, and a bit that chooses between them.
    Choice,
}

/// What the table has of an operation.
#[derive(Clone, Copy)]
pub struct WordRow {
    pub op: WordOp,
    pub signature: Signature,
    /// The kind of a second result.
    pub second: Option<Kind>,
    /// Internal scratch, in single rows.
    pub bits: u16,
    /// Internal scratch, in groups of as many rows as a word has bits.
    pub words: u16,
}

// the fields of a row on one line
macro_rules! row {
    ($op:ident, $signature:expr, $second:expr, $bits:literal, $words:literal) => {
        WordRow {
            op: WordOp::$op,
            signature: $signature,
            second: $second,
            bits: $bits,
            words: $words,
        }
    };
}

/// The table of word operations: the name of each, and its row, in the order of the variants.
pub const WORD_OPS: [(&[u8], WordRow); 27] = [
    (b"not", row!(Not, OneOf, None, 0, 0)),
    (b"and", row!(And, TwoOf, None, 0, 0)),
    (b"or", row!(Or, TwoOf, None, 0, 0)),
    (b"xor", row!(Xor, TwoOf, None, 0, 0)),
    (b"copy", row!(Copy, OneOf, None, 0, 0)),
    (b"zero", row!(Zero, Nothing, None, 0, 0)),
    (b"ones", row!(Ones, Nothing, None, 0, 0)),
    (b"shl1", row!(Shl1, OneWord(Word), None, 1, 0)),
    (b"shr1", row!(Shr1, OneWord(Word), None, 1, 0)),
    (b"add", row!(Add, TwoWords(Word), None, 1, 0)),
    (b"sub", row!(Sub, TwoWords(Word), None, 1, 0)),
    (b"mul", row!(Mul, TwoWords(Word), None, 1, 0)),
    (b"div", row!(Div, TwoWords(Word), None, 2, 2)),
    (b"rem", row!(Rem, TwoWords(Word), None, 2, 2)),
    (b"abs", row!(Abs, OneWord(Word), None, 1, 0)),
    (b"relu", row!(Relu, OneWord(Word), None, 0, 0)),
    (b"min", row!(Min, TwoWords(Word), None, 1, 0)),
    (b"max", row!(Max, TwoWords(Word), None, 1, 0)),
    (b"eq", row!(Eq, TwoWords(Bit), None, 0, 0)),
    (b"gt", row!(Gt, TwoWords(Bit), None, 0, 0)),
    (b"ge", row!(Ge, TwoWords(Bit), None, 0, 0)),
    (b"if_else", row!(IfElse, Choice, None, 0, 0)),
    (b"bitcount", row!(Bitcount, OneWord(Word), None, 1, 0)),
    (b"and_red", row!(AndRed, OneWord(Bit), None, 0, 0)),
    (b"or_red", row!(OrRed, OneWord(Bit), None, 0, 0)),
    (b"xor_red", row!(XorRed, OneWord(Bit), None, 0, 0)),
    (b"divmod", row!(Divmod, TwoWords(Word), Some(Word), 2, 2)),
];

fn row_of(op: WordOp) -> WordRow
    ensures { result ≡ row_of op }
{
    WORD_OPS[op as usize].1
}

/// A word operation's name.
pub fn op_name(op: WordOp) -> &'static [u8]
    ensures { result.now ≡ op_text op }
{
    WORD_OPS[op as usize].0
}

/// The operation of the first row that has this name.
fn op_in(rows: &[(&[u8], WordRow)], name: &[u8]) -> Option<WordOp>
    ensures { result ≡ first_named (map (λ r. (r.0.now, r.1)) rows.now) name.now }
{
    match rows {
        [] => None,
        [(text, row), rest @ ..] => {
            if *text == name {
                Some(row.op)
            } else {
                op_in(rest, name)
            }
        }
    }
}

/// The word operation that a name names.
pub fn op_of(name: &[u8]) -> Option<WordOp>
    ensures { result ≡ op_named name.now }
{
    op_in(&WORD_OPS, name)
}

fn signature_of(op: WordOp) -> Signature
    ensures { signature_forms result ≡ forms op }
{
    row_of(op).signature
}

fn is_word(kind: Kind) -> bool
    ensures { result ≡ same_kind Word kind }
{
    match kind {
        Kind::Word => true,
        Kind::Bit => false,
    }
}

fn is_same(a: Kind, b: Kind) -> bool
    ensures { result ≡ same_kind a b }
{
    match a {
        Kind::Word => is_word(b),
        Kind::Bit => !is_word(b),
    }
}

fn may_begin(signature: Signature, kind: Kind) -> bool
    ensures { result ≡ may_take (signature_forms signature) [] kind }
{
    match signature {
        Signature::Nothing => false,
        Signature::OneWord(_) => is_word(kind),
        Signature::TwoWords(_) => is_word(kind),
        _ => true,
    }
}

fn may_be_second(signature: Signature, first: Kind, kind: Kind) -> bool
    ensures { result ≡ may_take (signature_forms signature) (first ∷ []) kind }
{
    match signature {
        Signature::TwoOf => is_same(first, kind),
        Signature::TwoWords(_) => is_word(first) && is_word(kind),
        Signature::Choice => is_same(first, kind),
        _ => false,
    }
}

fn may_be_third(signature: Signature, first: Kind, second: Kind, kind: Kind) -> bool
    ensures { result ≡ may_take (signature_forms signature) (first ∷ second ∷ []) kind }
{
    match signature {
        Signature::Choice => is_same(first, second) && !is_word(kind),
        _ => false,
    }
}

/// Whether one more argument of a kind may stand.
pub fn may_take(op: WordOp, given: &[Kind], kind: Kind) -> bool
    ensures { result ≡ may_take (forms op) given.now kind }
{
    let signature = signature_of(op);
    match given {
        [] => may_begin(signature, kind),
        [first] => may_be_second(signature, *first, kind),
        [first, second] => may_be_third(signature, *first, *second, kind),
        _ => false,
    }
}

fn goes_on_one(signature: Signature, first: Kind) -> bool
    ensures { result ≡ wants_more (signature_forms signature) (first ∷ []) }
{
    match signature {
        Signature::TwoOf => true,
        Signature::TwoWords(_) => is_word(first),
        Signature::Choice => true,
        _ => false,
    }
}

fn goes_on_two(signature: Signature, first: Kind, second: Kind) -> bool
    ensures { result ≡ wants_more (signature_forms signature) (first ∷ second ∷ []) }
{
    match signature {
        Signature::Choice => is_same(first, second),
        _ => false,
    }
}

fn takes_some(signature: Signature) -> bool
    ensures { result ≡ wants_more (signature_forms signature) [] }
{
    match signature {
        Signature::Nothing => false,
        _ => true,
    }
}

/// Whether another argument is wanted.
pub fn wants_more(op: WordOp, given: &[Kind]) -> bool
    ensures { result ≡ wants_more (forms op) given.now }
{
    let signature = signature_of(op);
    match given {
        [] => takes_some(signature),
        [first] => goes_on_one(signature, *first),
        [first, second] => goes_on_two(signature, *first, *second),
        _ => false,
    }
}

fn given_one(signature: Signature, first: Kind) -> Option<Kind>
    ensures { result ≡ filled (signature_forms signature) (first ∷ []) }
{
    match signature {
        Signature::OneOf => Some(first),
        Signature::OneWord(kind) => if is_word(first) { Some(kind) } else { None },
        _ => None,
    }
}

fn given_two(signature: Signature, first: Kind, second: Kind) -> Option<Kind>
    ensures { result ≡ filled (signature_forms signature) (first ∷ second ∷ []) }
{
    match signature {
        Signature::TwoOf => if is_same(first, second) {
            Some(first)
        } else {
            None
        },
        Signature::TwoWords(kind) => if is_word(first) && is_word(second) {
            Some(kind)
        } else {
            None
        },
        _ => None,
    }
}

fn given_three(signature: Signature, first: Kind, second: Kind, third: Kind) -> Option<Kind>
    ensures { result ≡ filled (signature_forms signature) (first ∷ second ∷ third ∷ []) }
{
    match signature {
        Signature::Choice => if is_same(first, second) && !is_word(third) {
            Some(first)
        } else {
            None
        },
        _ => None,
    }
}

fn given_none(signature: Signature) -> Option<Kind>
    ensures { result ≡ filled (signature_forms signature) [] }
{
    match signature {
        Signature::Nothing => Some(Kind::Word),
        _ => None,
    }
}

/// The kind of the result, where all arguments are there.
pub fn filled(op: WordOp, given: &[Kind]) -> Option<Kind>
    ensures { result ≡ filled (forms op) given.now }
{
    let signature = signature_of(op);
    match given {
        [] => given_none(signature),
        [first] => given_one(signature, *first),
        [first, second] => given_two(signature, *first, *second),
        [first, second, third] => given_three(signature, *first, *second, *third),
        _ => None,
    }
}

/// The kind of a result by the first argument's, if there is one.
pub fn given_first(op: WordOp, first: Option<Kind>) -> Kind
    ensures { result ≡ given_first (forms op) first }
{
    let signature = signature_of(op);
    match first {
        None => given_alone(signature),
        Some(first) => given_after(signature, first),
    }
}

fn given_after(signature: Signature, first: Kind) -> Kind
    ensures { result ≡ given_first (signature_forms signature) (Some first) }
{
    match signature {
        Signature::Nothing => Kind::Word,
        Signature::OneOf => first,
        Signature::TwoOf => first,
        Signature::Choice => first,
        Signature::OneWord(kind) => if is_word(first) { kind } else { Kind::Word },
        Signature::TwoWords(kind) => if is_word(first) { kind } else { Kind::Word },
    }
}

fn given_alone(signature: Signature) -> Kind
    ensures { result ≡ given_first (signature_forms signature) None }
{
    match signature {
        Signature::Nothing | Signature::OneOf | Signature::TwoOf | Signature::Choice => Kind::Word,
        Signature::OneWord(_) | Signature::TwoWords(_) => Kind::Word,
    }
}

/// The kind of an operation's second result, if it has one.
pub fn second_kind(op: WordOp) -> Option<Kind>
    ensures { result ≡ second_kind op }
{
    row_of(op).second
}

/// The single rows of scratch that an operation needs inside.
pub fn bits_inside(op: WordOp) -> u16
    ensures { result ≡ bits_inside op }
{
    row_of(op).bits
}

/// The words of scratch that an operation needs inside.
pub fn words_inside(op: WordOp) -> u16
    ensures { result ≡ words_inside op }
{
    row_of(op).words
}
