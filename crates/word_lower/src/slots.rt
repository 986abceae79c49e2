//! Rows outside the arguments, and places among rows.

ghost use Rattle.std.specs.Prelude.{◌≡◌};
ghost use Rattle.word_lower.specs.Places.{cells, scratch_bit, slot_at, place_in};

use loop_ir::{Place, Slot, Space, Sub};
use op_text::Kind;

/// The cells of a layout, in which a state stands.
pub fn cells(layout: u8) -> Slot
    ensures { result ≡ cells layout }
{
    Slot {
        space: Space::Cells,
        which: layout,
        kind: Kind::Bit,
    }
}

/// A bit of internal scratch.
pub fn scratch_bit(which: u8) -> Slot
    ensures { result ≡ scratch_bit which }
{
    Slot {
        space: Space::ScratchBit,
        which,
        kind: Kind::Bit,
    }
}

/// The slot of this number; where there is none, that of no name.
pub(crate) fn slot_at(owners: &[Slot], k: u8) -> Slot
    ensures { result ≡ slot_at owners.now k }
{
    let k = usize::from(k);
    if k < owners.len() {
        owners[k]
    } else {
        Slot {
            space: Space::Source,
            which: 0,
            kind: Kind::Word,
        }
    }
}

/// The place with this subscript among such rows.
pub fn place_in(slot: Slot, sub: Sub) -> Place
    ensures { result ≡ place_in slot sub }
{
    Place {
        space: slot.space,
        which: slot.which,
        sub,
    }
}
