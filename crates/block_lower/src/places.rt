//! The places of a block's names.

ghost use Rattle.std.specs.Prelude.{◌≡◌, IfOk, map};
ghost use Rattle.op_text.specs.Language.{equation};
ghost use Rattle.loop_ir.specs.Statements.{slots_of, targets_of};
ghost use Rattle.block_lower.specs.Form.{kind_sub, place_of, places_of};

use faults::keep;
use loop_ir::{NameMap, Place, Space, Sub};
use mig_graph::NoMemory;
use op_text::{Assign, Kind};
use std::alloc::Global;
use text_lex::Name;

/// The position in a value that a block visits.
fn kind_sub(down: bool, kind: Kind) -> Sub
    ensures { result ≡ kind_sub down kind }
{
    match kind {
        Kind::Word => { if down { Sub::InnerDown } else { Sub::Inner } }
        Kind::Bit => Sub::Zero,
    }
}

/// Where a name is read or written at a position.
pub(crate) fn place_of(names: &NameMap, down: bool, name: &Name) -> Place
    ensures { result ≡ place_of down (slots_of names.now name.now) }
{
    match names.slots.get(name).copied() {
        Some(slot) => Place {
            space: slot.space,
            which: slot.which,
            sub: kind_sub(down, slot.kind),
        },
        None => Place {
            space: Space::Source,
            which: 0,
            sub: Sub::Zero,
        },
    }
}

/// The places of names.
pub(crate) fn places_of(
    names: &NameMap,
    down: bool,
    listed: &[Name],
    alloc: Global,
) -> Result<Vec<Place>, NoMemory>
    ensures { IfOk result (λ r. r.items ≡ places_of (slots_of names.now) down listed.now) }
{
    let mut places = Vec::new(alloc);
    for name in listed {
        keep(&mut places, place_of(names, down, name))?;
    }
    Ok(places)
}

/// The places of the assigned names.
pub(crate) fn target_places(
    names: &NameMap,
    down: bool,
    assigns: &[Assign],
    alloc: Global,
) -> Result<Vec<Place>, NoMemory>
    ensures { IfOk result (λ r. r.items ≡ places_of (slots_of names.now) down
        (targets_of (map equation assigns.now))) }
{
    let mut places = Vec::new(alloc);
    for a in assigns {
        keep(&mut places, place_of(names, down, &a.name))?;
    }
    Ok(places)
}
