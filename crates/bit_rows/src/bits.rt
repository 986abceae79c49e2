//! Bits, and the words that hold 64 of them.

ghost use Rattle.std.specs.Prelude.{◌≡◌, ℕ, ◌<◌, ◌≤◌, ◌+◌, ◌↔◌, ◌≢◌, IsTrue};
ghost use Rattle.bit_rows.specs.Bits.{bit_number, majority as majority_of, bit_at};

use crate::{Value, WIDTH_MAX};

/// Whether at least two of the three are true.
#[tactic(auto, unfolding(crate::specs::Bits::majority))]
pub fn majority(a: bool, b: bool, c: bool) -> bool
    ensures value { result ≡ majority_of a b c }
    ensures two { IsTrue result ↔ (2 ≤ bit_number a + bit_number b + bit_number c) }
{
    if a { b || c } else { b && c }
}

/// Bit k of v; bit 0 is the lowest.
pub fn bit_of(v: Value, k: u8) -> bool
    requires { k < WIDTH_MAX }
    ensures { result ≡ bit_at v k }
{
    (v >> k) % 2 == 1
}

/// Bit k of a word; bit 0 is the lowest.
pub fn bit_of_word(word: u64, k: u8) -> bool
    requires { k < 64 }
    ensures { result ≡ bit_at word k }
{
    (word >> k) % 2 == 1
}

/// The word with bit k set to b.
pub(crate) fn with_bit(word: u64, k: u8, b: bool) -> u64
    requires { k < 64 }
    ensures bit { bit_at result k ≡ b }
    ensures others { (r : ℕ) → r < 64 → r ≢ k → bit_at result r ≡ bit_at word r }
{
    if b { word | (1 << k) } else { word & !(1 << k) }
}
