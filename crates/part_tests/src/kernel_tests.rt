//! Kernels over rows of words, at each length, against single bits.

use bit_rows::{bit_of_word, majority, sense3, settle3, store, store_not, turn};
use std::test::*;

/// Word n of the SplitMix64 generator with the seed 1.
pub(crate) fn word(n: u64) -> u64 {
    let x = n
        .wrapping_add(1)
        .wrapping_mul(0x9e37_79b9_7f4a_7c15)
        .wrapping_add(1);
    let y = (x ^ (x >> 30)).wrapping_mul(0xbf58_476d_1ce4_e5b9);
    let z = (y ^ (y >> 27)).wrapping_mul(0x94d0_49bb_1331_11eb);
    z ^ (z >> 31)
}

/// Words from number n on.
fn words(n: u64) -> [u64; 17] {
    let mut row = [0; 17];
    for i in 0..17 {
        row[i] = word(n.wrapping_add(i as u64));
    }
    row
}

/// The majority of each bit, one after the other.
fn majority_by_bits(a: u64, b: u64, c: u64) -> u64 {
    let mut word = 0;
    for k in 0..64u8 {
        if majority(bit_of_word(a, k), bit_of_word(b, k), bit_of_word(c, k)) {
            word |= 1u64 << k;
        }
    }
    word
}

/// The complement of each bit, one after the other.
fn complement_by_bits(a: u64) -> u64 {
    let mut word = 0;
    for k in 0..64u8 {
        if !bit_of_word(a, k) {
            word |= 1u64 << k;
        }
    }
    word
}

#[test]
fn words_are_those_of_the_generator(rt: HostRuntime) {
    assert!(rt; word(0) == 0x910a_2dec_8902_5cc1);
    assert!(rt; word(1) == 0xbeeb_8da1_658e_ec67);
    assert!(rt; word(2) == 0xf893_a2ee_fb32_555e);
}

#[test]
fn majorities_at_each_length(rt: HostRuntime) {
    let (a, b, c, before) = (words(0), words(17), words(34), words(51));
    for n in 0..18usize {
        let mut out = before;
        sense3(&a[..n], &b[..n], &c[..n], &mut out[..n]);
        let (mut x, mut y, mut z) = (a, b, c);
        settle3(&mut x[..n], &mut y[..n], &mut z[..n]);
        for i in 0..17usize {
            let want = majority_by_bits(a[i], b[i], c[i]);
            let sensed = if i < n { want } else { before[i] };
            assert!(rt; out[i] == sensed);
            let three = if i < n { [want; 3] } else { [a[i], b[i], c[i]] };
            assert!(rt; [x[i], y[i], z[i]] == three);
        }
    }
}

#[test]
fn copies_at_each_length(rt: HostRuntime) {
    let (a, before) = (words(0), words(51));
    for n in 0..18usize {
        let (mut copy, mut not, mut complemented) = (before, before, a);
        store(&a[..n], &mut copy[..n]);
        store_not(&a[..n], &mut not[..n]);
        turn(&mut complemented[..n]);
        for i in 0..17usize {
            let complement = complement_by_bits(a[i]);
            let (same, other) = if i < n {
                (a[i], complement)
            } else {
                (before[i], before[i])
            };
            assert!(rt; copy[i] == same);
            assert!(rt; not[i] == other);
            let want = if i < n { complement } else { a[i] };
            assert!(rt; complemented[i] == want);
        }
    }
}
