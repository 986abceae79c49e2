//! A few commands of a body in few bytes, as a search copies them often.

use crate::body::BodyCmd::{self, Aap, Ap};
use crate::body::BodyRef::{self, B, C, In, Out, Spill};

/// The byte of the second row of a command that has none.
const ALONE: u8 = 255;

/// A row by one byte.
#[inline(always)]
fn byte_of(row: BodyRef) -> u8 {
    match row {
        B(y) => y & 15,
        C(value) => 16 | value & 1,
        Out(j) => 24 | j & 7,
        Spill(k) => 32 | k & 31,
        In(k) => 64 | k & 63,
    }
}

/// The row of a byte.
fn row_at(byte: u8) -> BodyRef {
    match byte {
        0..=15 => B(byte),
        16..=23 => C(byte & 7),
        24..=31 => Out(byte & 7),
        32..=63 => Spill(byte & 31),
        _ => In(byte & 63),
    }
}

/// At most six commands, each by its two rows.
#[derive(Clone, Copy)]
pub struct Commands {
    rows: [[u8; 2]; 6],
    count: u8,
}

impl Commands {
    #[inline(always)]
    pub fn new() -> Commands {
        Commands {
            rows: [[0; 2]; 6],
            count: 0,
        }
    }

    #[inline(always)]
    pub fn len(&self) -> u32 {
        u32::from(self.count)
    }

    /// The command of this number.
    pub fn get(&self, k: u8) -> Option<BodyCmd> {
        if k >= self.count || k >= 6 {
            return None;
        }
        let [from, to] = self.rows[k as usize];
        Some(if to == ALONE {
            Ap(row_at(from))
        } else {
            Aap(row_at(from), row_at(to))
        })
    }

    /// These commands and one more, where there is room.
    #[inline(always)]
    pub fn then(&self, cmd: BodyCmd) -> Commands {
        let mut all = *self;
        if all.count < 6 {
            all.rows[all.count as usize] = match cmd {
                Aap(from, to) => [byte_of(from), byte_of(to)],
                Ap(row) => [byte_of(row), ALONE],
            };
            all.count += 1;
        }
        all
    }
}
