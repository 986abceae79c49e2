//! The one binding under which both run: results, sources, scratch and spill group, one behind the
//! other.

ghost use Rattle.std.specs.Prelude.{◌≡◌, ◌+◌, ◌*◌, ◌<◌, ◌≤◌, length};
ghost use Rattle.uprog_code.specs.Shape.{results, shape_of, width};
ghost use Rattle.uprog_code.specs.Bound.{bound_of};
ghost use Rattle.binding_laws.specs.Canonical.{bases, canonical, canonical_rows, result_rows};
ghost use Rattle.binding_laws.specs.Canonical.{value_rows};

use arrayvec::ArrayVec;
use uprog_code::{Binding, Head, Kind};

/// How many rows the results take.
pub fn rows_of_results(head: &Head, n: u8) -> u16
    ensures value { result ≡ result_rows (shape_of head.now) n }
    ensures small { result ≤ 2 * n }
{
    if head.second.is_some() {
        2 * u16::from(n)
    } else {
        u16::from(n)
    }
}

/// The first rows of values that begin at a row, n rows each.
fn first_rows(kinds: &[Kind], n: u8, start: u16) -> ArrayVec<u16, 4>
    requires few { length kinds.now ≤ 4 }
    requires n { n ≤ 128 }
    requires start { start ≤ 256 }
    ensures { result.items ≡ bases n start kinds.now }
{
    let mut rows = ArrayVec::new();
    let mut next = start;
    for _kind in kinds {
        rows.push(next);
        next += u16::from(n);
    }
    rows
}

/// The binding.
pub(crate) fn canonical_binding(head: &Head, n: u8) -> Binding
    requires { n ≤ 128 }
    ensures n { result.n ≡ n }
    ensures bound { bound_of result ≡ canonical (shape_of head.now) n }
{
    let results = rows_of_results(head, n);
    let kinds = head.sources.as_slice();
    let sources = first_rows(kinds, n, results);
    let scratch = results + u16::from(n) * kinds.len() as u16;
    Binding {
        n,
        result: 0,
        second: if head.second.is_some() {
            Some(u16::from(n))
        } else {
            None
        },
        sources,
        scratch,
    }
}

/// The rows of values, then the scratch and the spill group.
fn bank_rows(values: u16, n: u8, bits: u8, words: u8) -> u16
    requires values { values ≤ 768 }
    requires n { n ≤ 128 }
    ensures { result ≡ values + (bits + n * words) + 32 }
{
    values + (u16::from(bits) + u16::from(n) * u16::from(words)) + 32
}

/// How many data rows the bank has.
pub(crate) fn canonical_bank(head: &Head, n: u8) -> u16
    requires { n ≤ 128 }
    ensures { result ≡ canonical_rows (shape_of head.now) n }
{
    let values = rows_of_results(head, n) + u16::from(n) * head.sources.as_slice().len() as u16;
    bank_rows(values, n, head.bits, head.words)
}

/// How many rows a value of the kind takes.
pub(crate) fn rows_of_kind(kind: Kind, n: u8) -> u8
    ensures { result ≡ width kind n }
{
    match kind {
        Kind::Word => n,
        Kind::Bit => 1,
    }
}

/// The kinds of its results.
pub(crate) fn kinds_of_results(head: &Head) -> ArrayVec<Kind, 4>
    ensures kinds { result.items ≡ results (shape_of head.now) }
    ensures few { length result.items ≤ 2 }
{
    let mut kinds = ArrayVec::new();
    kinds.push(head.result);
    if let Some(kind) = head.second {
        kinds.push(kind);
    }
    kinds
}
