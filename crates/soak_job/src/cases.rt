//! The cases, and what each takes and gives.

ghost use Rattle.std.specs.Prelude.{◌≡◌, ◌+◌, ◌*◌, ◌≤◌, ◌++◌, flat_map, length, map};
ghost use Rattle.op_text.specs.WordOps.{row_of};
ghost use Rattle.uprog_code.specs.Shape.{width};
ghost use Rattle.soak_job.specs.Cases.{at_widths, form_of, result_kind, singles, soak_cases};
ghost use Rattle.soak_job.specs.Cases.{source_kinds};

use arrayvec::ArrayVec;
use op_text::{Kind, Signature, WORD_OPS, WordOp, WordRow, second_kind};

/// A word operation at a width.
#[derive(Clone, Copy, PartialEq, Eq)]
pub struct Case {
    pub op: WordOp,
    pub n: u8,
}

/// The first of the cases.
impl Default for Case {
    fn default() -> Self {
        Case {
            op: WordOp::Not,
            n: 1,
        }
    }
}

/// As many as there would be if each word operation had one result.
pub const MAX_CASES: usize = 3 * WORD_OPS.len();

/// One operation at each width.
fn add_widths(op: WordOp, cases: &mut ArrayVec<Case, MAX_CASES>)
    requires { length cases.old.items + 3 ≤ MAX_CASES }
    ensures cases { cases.new.items ≡ cases.old.items ++ at_widths op }
    ensures len { length cases.new.items ≡ length cases.old.items + 3 }
{
    cases.push(Case { op, n: 1 });
    cases.push(Case { op, n: 8 });
    cases.push(Case { op, n: 64 });
}

/// The cases of the operations of these rows that have one result.
fn add_rows(rows: &[(&[u8], WordRow)], cases: &mut ArrayVec<Case, MAX_CASES>)
    requires { length cases.old.items + 3 * length rows.now ≤ MAX_CASES }
    ensures { cases.new.items ≡ cases.old.items
        ++ flat_map at_widths (singles (map (λ r. r.1.op) rows.now)) }
{
    for (_, row) in rows {
        if second_kind(row.op).is_none() {
            add_widths(row.op, cases);
        }
    }
}

/// All cases, in order.
pub fn all_cases() -> ArrayVec<Case, MAX_CASES>
    ensures { result.items ≡ soak_cases }
{
    let mut cases = ArrayVec::new();
    add_rows(&WORD_OPS, &mut cases);
    cases
}

/// How many rows a value of a kind takes at width n.
pub(crate) fn rows_of(kind: Kind, n: u8) -> u8
    ensures { result ≡ width kind n }
{
    match kind {
        Kind::Word => n,
        Kind::Bit => 1,
    }
}

/// What an operation takes and gives.
fn signature_of(op: WordOp) -> Signature
    ensures { result ≡ (row_of op).signature }
{
    WORD_OPS[op as usize].1.signature
}

/// The kinds of an operation's arguments.
fn taken_by(op: WordOp) -> &'static [Kind]
    ensures kinds { result.now ≡ (form_of op).takes }
    ensures few { length result.now ≤ 3 }
{
    match signature_of(op) {
        Signature::Nothing => &[],
        Signature::OneOf | Signature::OneWord(_) => &[Kind::Word],
        Signature::TwoOf | Signature::TwoWords(_) => &[Kind::Word, Kind::Word],
        Signature::Choice => &[Kind::Word, Kind::Word, Kind::Bit],
    }
}

/// The kinds of an operation's sources.
pub(crate) fn sources_of(op: WordOp) -> &'static [Kind]
    ensures kinds { result.now ≡ source_kinds op }
    ensures few { length result.now ≤ 3 }
{
    match taken_by(op) {
        [] => &[Kind::Word],
        kinds => kinds,
    }
}

/// The kind of an operation's first result.
pub(crate) fn result_of(op: WordOp) -> Kind
    ensures { result ≡ result_kind op }
{
    match signature_of(op) {
        Signature::OneWord(kind) | Signature::TwoWords(kind) => kind,
        _ => Kind::Word,
    }
}

/// How many of its sources an operation reads.
pub(crate) fn arguments_of(op: WordOp) -> usize
    ensures count { result ≡ length (form_of op).takes }
    ensures few { result ≤ 3 }
{
    taken_by(op).len()
}
