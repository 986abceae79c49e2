//! The stage: the rows of one bank's part of an object.

ghost use Rattle.std.specs.Prelude.{◌≡◌, ◌≢◌, ℕ, ◌+◌, ◌*◌, ◌/◌, ◌%◌, ◌<◌, ◌≤◌, ◌^◌, length};
ghost use Rattle.std.specs.Prelude.{slice_index_or};
ghost use Rattle.bit_rows.specs.Bits.{bit_at};
ghost use Rattle.transpose_unit.specs.Stage.{stage_rows};

use crate::transpose::transpose64;
use bit_rows::Value;

/// How many rows the stage of an object of n bits has.
pub fn stage_rows(n: u8) -> usize
    ensures { result ≡ stage_rows n }
{
    if n <= 64 { 64 } else { 128 }
}

/// The value at a place, and 0 past the last.
fn value_at(values: &[Value], i: usize) -> Value
    ensures { result ≡ slice_index_or values.now i 0 }
{
    match values.get(i) {
        Some(value) => *value,
        None => 0,
    }
}

/// 64 bits, from bit `first` on, of the value at a place.
fn part_at(values: &[Value], i: usize, first: u8) -> u64
    requires { first ≤ 64 }
    ensures { result ≡ slice_index_or values.now i 0 / 2 ^ first % 2 ^ 64 }
{
    ((value_at(values, i) >> first) % (1 << 64)) as u64
}

/// 64 bits, from bit `first` on, of 64 values from a place on, and 0 past the last.
fn block_at(values: &[Value], start: usize, first: u8) -> [u64; 64]
    requires first { first ≤ 64 }
    requires start { start + 64 < 2 ^ 64 }
    ensures { (i : ℕ) → i < 64 → slice_index_or result i 0
        ≡ slice_index_or values.now (start + i) 0 / 2 ^ first % 2 ^ 64 }
{
    let mut block = [0; 64];
    for i in 0..64 {
        block[i] = part_at(values, start + i, first);
    }
    block
}

/// Puts word k of the block into row k of the stage, at word w.
fn put_block(block: &[u64; 64], words: usize, w: usize, stage: &mut [u64])
    requires words { w < words }
    requires stage { length stage.old ≡ 64 * words }
    ensures len { length stage.new ≡ length stage.old }
    ensures own { (k : ℕ) → k < 64 → slice_index_or stage.new (k * words + w) 0
        ≡ slice_index_or block.now k 0 }
    ensures others { (k v : ℕ) → v < words → v ≢ w
        → slice_index_or stage.new (k * words + v) 0 ≡ slice_index_or stage.old (k * words + v) 0 }
{
    for k in 0..64 {
        stage[k * words + w] = block[k];
    }
}

/// Puts 64 rows of the values from a place on into the stage, those of the bits from `first` on,
/// and 0 past the last value.
fn fill_rows(values: &[Value], start: usize, words: usize, first: u8, stage: &mut [u64])
    requires first { first ≤ 64 }
    requires start { start + 64 * words < 2 ^ 63 }
    requires stage { length stage.old ≡ 64 * words }
    ensures len { length stage.new ≡ length stage.old }
    ensures bits { (k w c : ℕ) → k < 64 → w < words → c < 64
        → bit_at (slice_index_or stage.new (k * words + w) 0) c
        ≡ bit_at (slice_index_or values.now (start + 64 * w + c) 0) (first + k) }
{
    for w in 0..words {
        let mut block = block_at(values, start + 64 * w, first);
        transpose64(&mut block);
        put_block(&block, words, w, stage);
    }
}

/// Puts the rows of the values from a place on into the stage of n bits, and 0 past the last value.
pub(crate) fn fill_stage(values: &[Value], start: usize, words: usize, n: u8, stage: &mut [u64])
    requires start { start + 64 * words < 2 ^ 63 }
    requires stage { length stage.old ≡ stage_rows n * words }
    ensures len { length stage.new ≡ length stage.old }
    ensures bits { (k w c : ℕ) → k < stage_rows n → w < words → c < 64
        → bit_at (slice_index_or stage.new (k * words + w) 0) c
        ≡ bit_at (slice_index_or values.now (start + 64 * w + c) 0) k }
{
    if n <= 64 {
        fill_rows(values, start, words, 0, stage);
    } else {
        let (low, high) = stage.split_at_mut(64 * words);
        fill_rows(values, start, words, 0, low);
        fill_rows(values, start, words, 64, high);
    }
}
