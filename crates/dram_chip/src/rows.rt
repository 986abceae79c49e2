//! Rows of equal length that stand one after another in a slice of words.

ghost use Rattle.std.specs.Prelude.{◌≡◌, ◌≢◌, ℕ, ◌<◌, ◌+◌, ◌≤◌, ◌⊎◌, length, slice_index, true};
ghost use Rattle.bit_rows.specs.Bits.{bit_at, word_bit, flip_if, majority_word};
ghost use Rattle.dram_chip.specs.Rows.{Settled};

use bit_rows::{settle3, store, store_not, turn};

/// Copies each bit, or its complement.
#[inline(always)]
fn put(src: &[u64], dst: &mut [u64], inverted: bool)
    requires { length src.now ≡ length dst.old }
    ensures length { length dst.new ≡ length dst.old }
    ensures bits { (q r : ℕ) → q < length dst.old → r < 64
        → word_bit dst.new q r ≡ flip_if inverted (word_bit src.now q r) }
{
    if inverted {
        store_not(src, dst);
    } else {
        store(src, dst);
    }
}

/// A word, or its complement.
#[inline(always)]
fn flipped(word: u64, inverted: bool) -> u64
    ensures { (r : ℕ) → r < 64 → bit_at result r ≡ flip_if inverted (bit_at word r) }
{
    if inverted { !word } else { word }
}

/// The row of one word at `to` takes the row at `from`, or its complement.
#[inline(always)]
fn move_word(all: &mut [u64], from: usize, to: usize, inverted: bool)
    requires from { from < length all.old }
    requires to { to < length all.old }
    ensures length { length all.new ≡ length all.old }
    ensures moved { (r : ℕ) → r < 64 → word_bit all.new to r
        ≡ flip_if inverted (word_bit all.old from r) }
    ensures others { (k : ℕ) → k ≢ to → slice_index all.new k ≡ slice_index all.old k }
{
    all[to] = flipped(all[from], inverted);
}

/// The row of `n` words at `to` takes the row at `from`, or its complement. The two are one row, or
/// apart.
#[inline(always)]
fn move_words(all: &mut [u64], n: usize, from: usize, to: usize, inverted: bool)
    requires from { from + n ≤ length all.old }
    requires to { to + n ≤ length all.old }
    requires apart { (from ≡ to) ⊎ (from + n ≤ to) ⊎ (to + n ≤ from) }
    ensures length { length all.new ≡ length all.old }
    ensures moved { (q r : ℕ) → q < n → r < 64 → word_bit all.new (to + q) r
        ≡ flip_if inverted (word_bit all.old (from + q) r) }
    ensures below { (k : ℕ) → k < to → slice_index all.new k ≡ slice_index all.old k }
    ensures above { (k : ℕ) → to + n ≤ k → slice_index all.new k ≡ slice_index all.old k }
{
    if from < to {
        let (low, high) = all.split_at_mut(to);
        put(&low[from..from + n], &mut high[..n], inverted);
    } else if to < from {
        let (low, high) = all.split_at_mut(from);
        put(&high[..n], &mut low[to..to + n], inverted);
    } else if inverted {
        turn(&mut all[to..to + n]);
    }
}

/// The row of `n` words at `to` takes the row at `from`, or its complement. The two are one row, or
/// apart. A row of one word is moved as a word, which no kernel is set up for.
#[inline(always)]
pub fn move_row(all: &mut [u64], n: usize, from: usize, to: usize, inverted: bool)
    requires from { from + n ≤ length all.old }
    requires to { to + n ≤ length all.old }
    requires apart { (from ≡ to) ⊎ (from + n ≤ to) ⊎ (to + n ≤ from) }
    ensures length { length all.new ≡ length all.old }
    ensures moved { (q r : ℕ) → q < n → r < 64 → word_bit all.new (to + q) r
        ≡ flip_if inverted (word_bit all.old (from + q) r) }
    ensures below { (k : ℕ) → k < to → slice_index all.new k ≡ slice_index all.old k }
    ensures above { (k : ℕ) → to + n ≤ k → slice_index all.new k ≡ slice_index all.old k }
{
    if n == 1 {
        move_word(all, from, to, inverted);
    } else {
        move_words(all, n, from, to, inverted);
    }
}

/// The majority of three words, bit by bit.
#[inline(always)]
fn majority_of(a: u64, b: u64, c: u64) -> u64
    ensures { result ≡ majority_word a b c }
{
    (a & b) | (c & (a | b))
}

/// Each of the rows of one word at `a`, `b` and `c` takes their majority.
#[inline(always)]
fn settle_word(all: &mut [u64], a: usize, b: usize, c: usize)
    requires a { a < b }
    requires b { b < c }
    requires c { c < length all.old }
    ensures length { length all.new ≡ length all.old }
    ensures a { slice_index all.new a ≡ majority_word (slice_index all.old a)
        (slice_index all.old b) (slice_index all.old c) }
    ensures b { slice_index all.new b ≡ majority_word (slice_index all.old a)
        (slice_index all.old b) (slice_index all.old c) }
    ensures c { slice_index all.new c ≡ majority_word (slice_index all.old a)
        (slice_index all.old b) (slice_index all.old c) }
    ensures others { (k : ℕ) → k ≢ a → k ≢ b → k ≢ c
        → slice_index all.new k ≡ slice_index all.old k }
{
    let word = majority_of(all[a], all[b], all[c]);
    all[a] = word;
    all[b] = word;
    all[c] = word;
}

/// Each of the rows of `n` words at `a`, `b` and `c` takes their majority.
#[inline(always)]
pub fn settle_rows(all: &mut [u64], n: usize, a: usize, b: usize, c: usize)
    requires a { a + n ≤ b }
    requires b { b + n ≤ c }
    requires c { c + n ≤ length all.old }
    ensures length { length all.new ≡ length all.old }
    ensures settled { Settled n a b c all.old all.new }
{
    if n == 1 {
        settle_word(all, a, b, c);
    } else {
        let (low, rest) = all.split_at_mut(b);
        let (mid, high) = rest.split_at_mut(c - b);
        settle3(&mut low[a..a + n], &mut mid[..n], &mut high[..n]);
    }
}

/// The row of words at `to` takes these words.
pub fn set_row(all: &mut [u64], to: usize, src: &[u64])
    requires { to + length src.now ≤ length all.old }
    ensures length { length all.new ≡ length all.old }
    ensures set { (q r : ℕ) → q < length src.now → word_bit all.new (to + q) r
        ≡ word_bit src.now q r }
    ensures below { (k : ℕ) → k < to → slice_index all.new k ≡ slice_index all.old k }
    ensures above { (k : ℕ) → to + length src.now ≤ k
        → slice_index all.new k ≡ slice_index all.old k }
{
    store(src, &mut all[to..to + src.len()]);
}

/// Gives the words of the row at `from`.
pub fn get_row(all: &[u64], from: usize, out: &mut [u64])
    requires { from + length out.old ≤ length all.now }
    ensures length { length out.new ≡ length out.old }
    ensures got { (q r : ℕ) → q < length out.old → word_bit out.new q r
        ≡ word_bit all.now (from + q) r }
{
    store(&all[from..from + out.len()], out);
}

/// Makes each bit of the row of `n` words at `to` a one.
pub fn set_ones(all: &mut [u64], to: usize, n: usize)
    requires { to + n ≤ length all.old }
    ensures length { length all.new ≡ length all.old }
    ensures ones { (q r : ℕ) → q < n → r < 64 → word_bit all.new (to + q) r ≡ true }
    ensures below { (k : ℕ) → k < to → slice_index all.new k ≡ slice_index all.old k }
    ensures above { (k : ℕ) → to + n ≤ k → slice_index all.new k ≡ slice_index all.old k }
{
    for i in to..to + n {
        all[i] = u64::MAX;
    }
}
