//! What is known of a cell.

/// A cell's bit under 64 assignments of the sources: under which it is known to be 1, and under
/// which to be 0. What a cell holds at the start is not known.
#[derive(Clone, Copy, PartialEq, Eq)]
pub struct Value {
    pub ones: u64,
    pub zeros: u64,
}

/// Nothing is known.
pub const UNKNOWN: Value = Value { ones: 0, zeros: 0 };

/// 0 under each assignment.
pub const ZERO: Value = Value {
    ones: 0,
    zeros: u64::MAX,
};

impl Value {
    /// The value of a source's bit, which is always known.
    pub fn of_bits(ones: u64) -> Value {
        Value { ones, zeros: !ones }
    }

    /// The value, complemented where it flips.
    #[inline(always)]
    pub fn flipped(self, flips: bool) -> Value {
        let change = (self.ones ^ self.zeros) & u64::from(flips).wrapping_neg();
        Value {
            ones: self.ones ^ change,
            zeros: self.zeros ^ change,
        }
    }

    /// What three cells that are activated together sense.
    #[inline(always)]
    pub fn majority(a: Value, b: Value, c: Value) -> Value {
        Value {
            ones: a.ones & b.ones | c.ones & (a.ones | b.ones),
            zeros: a.zeros & b.zeros | c.zeros & (a.zeros | b.zeros),
        }
    }

    /// The assignments under which both are not the same.
    #[inline(always)]
    pub fn difference(self, other: Value) -> u64 {
        self.ones ^ other.ones | self.zeros ^ other.zeros
    }

    /// Whether the bit is known under each assignment.
    pub fn is_known(self) -> bool {
        self.ones | self.zeros == u64::MAX
    }
}
