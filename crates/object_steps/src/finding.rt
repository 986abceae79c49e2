//! The rows that an instruction's operand names.

ghost use Rattle.std.specs.Prelude.{◌≡◌, ◌<◌, ◌≤◌, ◌^◌, ◌∷◌, List, Option, Some, true, false};
ghost use Rattle.std.specs.Prelude.{IfOk, IfErr, OnOk};
ghost use Rattle.object_alloc.specs.Free.{end_of};
ghost use Rattle.object_alloc.specs.Listed.{limit_of};
ghost use Rattle.machine_model.specs.Places.{cut, is_past};
ghost use Rattle.machine_model.specs.Refusals.{first, goes_past, is_absent, object_named, rows_of};
ghost use Rattle.machine_model.specs.Refusals.{when};
ghost use Rattle.object_steps.specs.Objects.{FitsOn, LiesOn};
ghost use Rattle.machine_model.specs.declared.Why.{Why};

use bbop_isa::{Part, Place};
use dram_model::Geometry;
use machine_model::Why;
use object_alloc::{OBJECTS_MAX, Object, Table};
use text_lex::Name;

/// What is read of a name that no object has.
const NOTHING: Object = Object {
    base: 0,
    width: 0,
    count: 0,
};

/// The object of this name.
fn object_named(table: &Table, name: &Name) -> Object
    ensures { result ≡ object_named table.now.pairs name.now }
{
    table.look_up(name).unwrap_or(NOTHING)
}

/// Whether the part ends past an object of this width.
fn is_past(part: Option<Part>, o: Object) -> bool
    ensures { result ≡ is_past part o }
{
    match part {
        None => false,
        Some(Part { low, size }) => u16::from(o.width) < u16::from(low) + u16::from(size),
    }
}

/// The rows of a part of an object.
fn cut(part: Option<Part>, o: Object) -> Object
    requires { o.base < 2 ^ 15 }
    ensures { result ≡ cut part o }
{
    match part {
        None => o,
        Some(Part { low, size }) => Object {
            base: o.base + u16::from(low),
            width: size,
            count: o.count,
        },
    }
}

/// The rows of the operand.
pub fn rows_of(table: &Table, place: &Place) -> Object
    ensures { result ≡ rows_of table.now.pairs place.now }
{
    prove!(usize::from(table.len()) <= OBJECTS_MAX);
    cut(place.part, object_named(table, &place.name))
}

/// Whether the operand ends past its object.
pub fn goes_past(table: &Table, place: &Place) -> bool
    ensures { result ≡ goes_past table.now.pairs place.now }
{
    is_past(place.part, object_named(table, &place.name))
}

/// The rows of the operand, which lie on the chip.
pub(crate) fn found(g: Geometry, table: &Table, place: &Place) -> Result<Object, Why>
    requires lies { LiesOn g table.now }
    ensures there { OnOk result (is_absent table.now.pairs place.now.name ≡ false) }
    ensures inside { OnOk result (goes_past table.now.pairs place.now ≡ false) }
    ensures object { IfOk result (λ o. o ≡ rows_of table.now.pairs place.now) }
    ensures fits { IfOk result (FitsOn g) }
    ensures rows { IfOk result (λ o. end_of o ≤ limit_of g) }
    ensures refused { (rest : List (Option Why)) → IfErr result (λ why.
        first (when (is_absent table.now.pairs place.now.name) (Why.NoObject 0)
        ∷ when (goes_past table.now.pairs place.now) (Why.Slice 0) ∷ rest) ≡ Some why) }
{
    match table.look_up(&place.name) {
        None => Err(Why::NoObject(0)),
        Some(_) => {
            if goes_past(table, place) {
                Err(Why::Slice(0))
            } else {
                Ok(rows_of(table, place))
            }
        }
    }
}
