//! Which commands code can issue at a width, and the first of a line that it cannot.

ghost use Rattle.std.specs.Prelude.{◌≡◌, ◌+◌, ◌*◌, nat_lt, slice_get, Some};
ghost use Rattle.uprog_code.specs.Shape.{results, shape_of};
ghost use Rattle.uprog_code.specs.Machine.{in_kind};
ghost use Rattle.uprog_code.specs.OneStep.{issue_of, row_of};
ghost use Rattle.uprog_code.specs.Legal.{may_be_first, may_be_second};
ghost use Rattle.width_entry.specs.Lines.{first_unnamed, is_named, is_nameable};

use uprog_code::{Head, Issued, Kind, RowPosition, RowSpace};

/// The greatest number that a register holds.
const REGISTER_MAX: u16 = 1023;

/// Whether a value of this kind has the position at width n.
fn is_in_kind(kind: Kind, n: u8, i: u16) -> bool
    ensures { result ≡ in_kind (Some kind) n i }
{
    match kind {
        Kind::Word => i < u16::from(n),
        Kind::Bit => i == 0,
    }
}

/// Whether a result has the position.
fn is_in_result(head: &Head, which: u8, n: u8, i: u16) -> bool
    ensures { result ≡ in_kind (slice_get (results (shape_of head.now)) which) n i }
{
    match (which, head.second) {
        (0, _) => is_in_kind(head.result, n, i),
        (1, Some(kind)) => is_in_kind(kind, n, i),
        _ => false,
    }
}

/// Whether a source has the position.
fn is_in_source(sources: &[Kind], which: u8, n: u8, i: u16) -> bool
    ensures { result ≡ in_kind (slice_get sources.now which) n i }
{
    match sources.get(which as usize) {
        Some(kind) => is_in_kind(*kind, n, i),
        None => false,
    }
}

/// Whether a word of scratch has the position.
fn is_in_word(head: &Head, n: u8, which: u8, i: u16) -> bool
    ensures { result ≡ nat_lt (which * n + i) (n * (shape_of head.now).words) }
{
    u32::from(which) * u32::from(n) + u32::from(i) < u32::from(n) * u32::from(head.words)
}

/// Whether code can activate a row at its position.
fn is_named(row: &RowPosition, head: &Head, n: u8) -> bool
    ensures { result ≡ is_named (shape_of head.now) n (row_of row.now) }
{
    let (which, i) = (row.which, row.index);
    match row.space {
        RowSpace::B => which < 16 && i == 0,
        RowSpace::C => which < 2 && i == 0,
        RowSpace::Result => is_in_result(head, which, n, i) && i <= REGISTER_MAX,
        RowSpace::Source => is_in_source(head.sources.as_slice(), which, n, i) && i <= REGISTER_MAX,
        RowSpace::ScratchBit => which < head.bits && i == 0,
        RowSpace::ScratchWord => is_in_word(head, n, which, i) && i <= REGISTER_MAX,
        RowSpace::Spill => which < 32 && i == 0,
    }
}

/// Whether a row of this space may be activated first.
fn may_be_first(space: RowSpace, which: u8) -> bool
    ensures { result ≡ may_be_first space which }
{
    match space {
        RowSpace::B => which < 8 || 12 <= which,
        _ => true,
    }
}

/// Whether a row of this space may be activated second.
fn may_be_second(space: RowSpace) -> bool
    ensures { result ≡ may_be_second space }
{
    match space {
        RowSpace::C | RowSpace::Source => false,
        _ => true,
    }
}

/// Whether code can issue a command.
fn is_nameable(issued: &Issued, head: &Head, n: u8) -> bool
    ensures { result ≡ is_nameable (shape_of head.now) n (issue_of issued.now) }
{
    match issued {
        Issued::Aap(x, y) => {
            is_named(x, head, n)
                && may_be_first(x.space, x.which)
                && is_named(y, head, n)
                && may_be_second(y.space)
        }
        Issued::Ap(x) => is_named(x, head, n) && may_be_first(x.space, x.which),
    }
}

/// The place of the first command that code cannot issue.
pub(crate) fn unnamed(line: &[Issued], head: &Head, n: u8) -> Option<usize>
    ensures { result ≡ first_unnamed (shape_of head.now) n line.now }
{
    line.iter().position(|issued| !is_nameable(issued, head, n))
}
