//! Kernels over rows of words of 64 columns, eight words at a time.

ghost use Rattle.std.specs.Prelude.{◌≡◌, ℕ, ◌<◌, ◌+◌, ◌≤◌, length, not, slice_index};
ghost use Rattle.bit_rows.specs.Bits.{majority as majority_of, bit_at, word_bit, majority_word};

use std::simd::prelude::*;

fn majority_of_words(a: u64, b: u64, c: u64) -> u64
    ensures { result ≡ majority_word a b c }
{
    (a & b) | (c & (a | b))
}

/// The majorities of the eight words from `at` on.
fn majority_of_eight(a: &[u64], b: &[u64], c: &[u64], at: usize) -> u64x8
    requires a_room { at + 8 ≤ length a.now }
    requires b_room { at + 8 ≤ length b.now }
    requires c_room { at + 8 ≤ length c.now }
    ensures lanes { length result ≡ 8 }
    ensures words { (k : ℕ) → k < 8 → slice_index result k
        ≡ majority_word (slice_index a.now (at + k)) (slice_index b.now (at + k))
        (slice_index c.now (at + k)) }
{
    let x = u64x8::from_slice(&a[at..]);
    let y = u64x8::from_slice(&b[at..]);
    let z = u64x8::from_slice(&c[at..]);
    (x & y) | (z & (x | y))
}

fn not_of_word(a: u64) -> u64
    ensures { (r : ℕ) → r < 64 → bit_at result r ≡ not (bit_at a r) }
{
    !a
}

/// The complements of the eight words from `at` on.
fn not_of_eight(src: &[u64], at: usize) -> u64x8
    requires { at + 8 ≤ length src.now }
    ensures lanes { length result ≡ 8 }
    ensures bits { (k r : ℕ) → k < 8 → r < 64 → word_bit result k r
        ≡ not (word_bit src.now (at + k) r) }
{
    !u64x8::from_slice(&src[at..])
}

/// Sets each bit of `out` to the majority of the three at its place.
pub fn sense3(a: &[u64], b: &[u64], c: &[u64], out: &mut [u64])
    requires a_fits { length a.now ≡ length out.old }
    requires b_fits { length b.now ≡ length out.old }
    requires c_fits { length c.now ≡ length out.old }
    ensures length { length out.new ≡ length out.old }
    ensures bits { (q r : ℕ) → q < length out.old → word_bit out.new q r
        ≡ majority_of (word_bit a.now q r) (word_bit b.now q r) (word_bit c.now q r) }
{
    let mut at = 0;
    while out.len() - at >= 8 {
        majority_of_eight(a, b, c, at).copy_to_slice(&mut out[at..]);
        at += 8;
    }
    for i in at..out.len() {
        out[i] = majority_of_words(a[i], b[i], c[i]);
    }
}

/// Sets each bit of all three to their majority.
pub fn settle3(a: &mut [u64], b: &mut [u64], c: &mut [u64])
    requires b_fits { length b.old ≡ length a.old }
    requires c_fits { length c.old ≡ length a.old }
    ensures length { length a.new ≡ length a.old }
    ensures bits { (q r : ℕ) → q < length a.old → word_bit a.new q r
        ≡ majority_of (word_bit a.old q r) (word_bit b.old q r) (word_bit c.old q r) }
    ensures b_same { b.new ≡ a.new }
    ensures c_same { c.new ≡ a.new }
{
    let mut at = 0;
    while a.len() - at >= 8 {
        let m = majority_of_eight(a, b, c, at);
        m.copy_to_slice(&mut a[at..]);
        m.copy_to_slice(&mut b[at..]);
        m.copy_to_slice(&mut c[at..]);
        at += 8;
    }
    for i in at..a.len() {
        let m = majority_of_words(a[i], b[i], c[i]);
        a[i] = m;
        b[i] = m;
        c[i] = m;
    }
}

/// Copies each bit.
pub fn store(src: &[u64], dst: &mut [u64])
    requires { length src.now ≡ length dst.old }
    ensures { dst.new ≡ src.now }
{
    dst.copy_from_slice(src);
}

/// Copies the complement of each bit.
pub fn store_not(src: &[u64], dst: &mut [u64])
    requires { length src.now ≡ length dst.old }
    ensures length { length dst.new ≡ length dst.old }
    ensures bits { (q r : ℕ) → q < length dst.old → r < 64
        → word_bit dst.new q r ≡ not (word_bit src.now q r) }
{
    let mut at = 0;
    while dst.len() - at >= 8 {
        not_of_eight(src, at).copy_to_slice(&mut dst[at..]);
        at += 8;
    }
    for i in at..dst.len() {
        dst[i] = not_of_word(src[i]);
    }
}

/// Turns each bit.
pub fn turn(row: &mut [u64])
    ensures length { length row.new ≡ length row.old }
    ensures bits { (q r : ℕ) → q < length row.old → r < 64
        → word_bit row.new q r ≡ not (word_bit row.old q r) }
{
    for i in 0..row.len() {
        row[i] = not_of_word(row[i]);
    }
}
