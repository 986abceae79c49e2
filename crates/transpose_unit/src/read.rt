//! Reading an object.

ghost use Rattle.std.specs.Prelude.{◌≡◌, ℕ, ◌+◌, ◌*◌, ◌/◌, ◌<◌, ◌≤◌, ◌^◌, [], length, map, OnOk};
ghost use Rattle.std.specs.Prelude.{OnErr, ◌%◌, slice_index_or};
ghost use Rattle.std.specs.List.{range_with_len};
ghost use Rattle.bit_rows.specs.Bits.{bit_at, bits_of_words};
ghost use Rattle.dram_model.specs.Chip.{Grew, row_in};
ghost use Rattle.dram_model.specs.View.{HasBegun, Kept, DidRead, FailedIn};
ghost use Rattle.dram_model.specs.Elements.{number, column_count};
ghost use Rattle.transpose_unit.specs.Stage.{stage_rows, stage_row, stage_number};

use crate::stage::stage_rows;
use crate::transpose::transpose64;
use bit_rows::{Value, WIDTH_MAX, bit_of_word};
use dram_model::{ChipFault, Dram, Geometry};

/// That column's number, from a stage that `read_segment` filled with n rows.
pub fn read_column(stage: &[u64], n: u8, column: u32) -> Value
    requires narrow { n ≤ WIDTH_MAX }
    requires stage { stage_rows n * (length stage.now / stage_rows n) ≡ length stage.now }
    requires column { column < 64 * (length stage.now / stage_rows n) }
    ensures { result ≡ stage_number (length stage.now / stage_rows n) n stage.now column }
{
    let words = stage.len() / stage_rows(n);
    let word = column as usize / 64;
    let mut v: Value = 0;
    for k in (0..n).rev() {
        let at = usize::from(k) * words + word;
        v = 2 * v + bit_of_word(stage[at], (column % 64) as u8) as Value;
    }
    v
}

/// Word w of each of 64 rows of the stage, from row `first` on.
fn rows_at(stage: &[u64], words: usize, w: usize, first: usize) -> [u64; 64]
    requires word { w < words }
    requires inside { first * words + 64 * words ≤ length stage.now }
    requires small { first ≤ 64 }
    ensures { (k : ℕ) → k < 64 → slice_index_or result k 0
        ≡ slice_index_or stage.now ((first + k) * words + w) 0 }
{
    let mut block = [0; 64];
    for k in 0..64 {
        block[k] = stage[(first + k) * words + w];
    }
    block
}

/// The columns of word w: bit k of word c is what stands in row first + k.
fn columns_at(stage: &[u64], words: usize, w: usize, first: usize) -> [u64; 64]
    requires word { w < words }
    requires inside { first * words + 64 * words ≤ length stage.now }
    requires small { first ≤ 64 }
    ensures { (k c : ℕ) → k < 64 → c < 64 → bit_at (slice_index_or result c 0) k
        ≡ bit_at (slice_index_or stage.now ((first + k) * words + w) 0) c }
{
    let mut block = rows_at(stage, words, w, first);
    transpose64(&mut block);
    block
}

/// The columns of word w in the rows past 64, where the numbers have such bits.
fn upper_columns(stage: &[u64], words: usize, w: usize, n: u8) -> [u64; 64]
    requires word { w < words }
    requires inside { length stage.now ≡ stage_rows n * words }
    ensures { (k c : ℕ) → 64 + k < n → k < 64 → c < 64 → bit_at (slice_index_or result c 0) k
        ≡ bit_at (slice_index_or stage.now ((64 + k) * words + w) 0) c }
{
    if n <= 64 {
        [0; 64]
    } else {
        columns_at(stage, words, w, 64)
    }
}

/// The number of n bits whose bits from 64 on are in the upper word.
fn joined(lower: u64, upper: u64, n: u8) -> Value
    requires { n ≤ WIDTH_MAX }
    ensures { result ≡ (lower + 2 ^ 64 * upper) % 2 ^ n }
{
    let whole = Value::from(lower) + (Value::from(upper) << 64);
    if n < WIDTH_MAX {
        whole % (1 << n)
    } else {
        whole
    }
}

/// The numbers of the 64 columns of word w, from a stage that `read_segment` filled with n rows.
pub fn read_block(stage: &[u64], n: u8, w: u32) -> [Value; 64]
    requires narrow { n ≤ WIDTH_MAX }
    requires stage { stage_rows n * (length stage.now / stage_rows n) ≡ length stage.now }
    requires word { w < length stage.now / stage_rows n }
    ensures { (c : ℕ) → c < 64 → slice_index_or result c 0
        ≡ stage_number (length stage.now / stage_rows n) n stage.now (64 * w + c) }
{
    let words = stage.len() / stage_rows(n);
    let lower = columns_at(stage, words, w as usize, 0);
    let upper = upper_columns(stage, words, w as usize, n);
    let mut numbers = [0; 64];
    for c in 0..64 {
        numbers[c] = joined(lower[c], upper[c], n);
    }
    numbers
}

/// Reads n rows of a bank, from row `base` on, into the stage.
pub fn read_segment<D: Dram>(
    dram: &mut D,
    g: Geometry,
    bank: u16,
    base: u16,
    n: u8,
    stage: &mut [u64],
) -> Result<(), ChipFault>
    requires begun { HasBegun (D.view dram.old) }
    requires geometry { (D.view dram.old).geometry ≡ g }
    requires bank { bank < g.banks }
    requires narrow { n ≤ WIDTH_MAX }
    requires rows { base + n ≤ g.rows }
    requires stage { length stage.old ≡ stage_rows n * g.words }
    requires room { (D.view dram.old).counters.reads < 2 ^ 62 + 2 ^ 61 }
    ensures borrow { D.borrow dram.new ≡ D.borrow dram.old }
    ensures kept { Kept (D.view dram.old) (D.view dram.new) }

    // Each column of the stage spells the number that stands in the chip's column.
    ensures rows { OnOk result ((k : ℕ) → k < n
        → bits_of_words (stage_row g.words stage.new k)
        ≡ row_in (base + k) ((D.view dram.old).banks bank)) }
    ensures numbers { OnOk result (map (stage_number g.words n stage.new)
        (range_with_len 0 (column_count g)) ≡ map (number base n) ((D.view dram.old).banks bank)) }
    ensures did { OnOk result (DidRead n (D.view dram.old) (D.view dram.new)) }
    ensures failed { OnErr result (FailedIn bank (D.view dram.old) (D.view dram.new)) }
    ensures no_event { OnErr result (Grew (D.view dram.old).log (D.view dram.new).log []) }
{
    let words = usize::from(g.words);
    for k in 0..n {
        let start = usize::from(k) * words;
        dram.read_row(bank, base + u16::from(k), &mut stage[start..start + words])?;
    }
    Ok(())
}
