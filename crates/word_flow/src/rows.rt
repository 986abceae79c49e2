//! Where a statement's rows lie.

ghost use Rattle.std.specs.Prelude.{◌≡◌};
ghost use Rattle.word_flow.specs.Places.{scratch_word};

use loop_ir::{Slot, Space};
use op_text::Kind;

/// The places of a statement's names, and its first internal scratch. Where there is one argument,
/// it stands for both, and so does a lone target.
#[derive(Clone, Copy, PartialEq, Eq)]
pub struct Rows {
    pub target: Slot,
    pub second: Slot,
    pub a: Slot,
    pub b: Slot,
    pub free_bit: u8,
    pub free_word: u8,
}

/// A word of scratch.
pub fn word(which: u8) -> Slot
    ensures { result ≡ scratch_word which }
{
    Slot {
        space: Space::ScratchWord,
        which,
        kind: Kind::Word,
    }
}
