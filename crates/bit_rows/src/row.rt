//! A row of a bank: 64 columns in each word.

ghost use Rattle.std.specs.Prelude.{◌≡◌, ◌<◌, length, replicate, slice_set, IfOk, List};
ghost use Rattle.std.specs.Prelude.{Bool, false};
ghost use Rattle.bit_rows.specs.Bits.{bit_in};

use crate::NoMemory;
use crate::bits::{bit_of_word, with_bit};
use std::alloc::Global;
use std::marker::Model;

/// One bit for each column. Contracts see the list of the bits, that of column 0 first.
#[derive(Drop)]
pub struct Row {
    columns: u32,
    words: Vec<u64>,
}

// The last word may have bits past the last column, which are not seen.
impl Model for Row {
    ghost use Rattle.std.specs.Prelude.{◌≡◌, ◌/◌, ◌+◌, length, List, Bool};
    ghost use Rattle.bit_rows.specs.Bits.{row_of_words};

    ghost Value = { List Bool };

    ghost view = { λ r. row_of_words r.columns r.words.items };

    ghost invariant = { λ r. length r.words.items ≡ (r.columns + 63) / 64 };
}

impl Row {
    /// A row of zeros.
    pub fn zeros(columns: u32, alloc: Global) -> Result<Row, NoMemory>
        ensures { IfOk result (λ row. row ≡ replicate columns false) }
    {
        let words = vec![in alloc; 0u64; (columns as usize + 63) / 64]?;
        Ok(Row { columns, words })
    }

    /// The bit of a column.
    pub fn get(&self, c: u32) -> bool
        requires { c < length self.now }
        ensures { result ≡ bit_in self.now c }
    {
        bit_of_word(self.words[c as usize / 64], (c % 64) as u8)
    }

    /// Sets the bit of a column, and no other.
    pub fn set(&mut self, c: u32, b: bool)
        requires { c < length self.old }
        ensures { self.new ≡ slice_set self.old c b }
    {
        let i = c as usize / 64;
        self.words[i] = with_bit(self.words[i], (c % 64) as u8, b);
    }
}
