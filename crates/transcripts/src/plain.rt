//! Plain arithmetic: numbers that are drawn, and what the word operations give of them.

use crate::stop::LineError;

/// All ones at width n, from 1 to 128.
pub fn ones(n: u8) -> u128 {
    u128::MAX
        .checked_shr(128u32.saturating_sub(u32::from(n)))
        .unwrap_or(0)
}

/// The lowest number with its top bit set.
fn half(n: u8) -> u128 {
    let one: u128 = 1;
    one.checked_shl(u32::from(n).saturating_sub(1)).unwrap_or(0)
}

/// A word of a generator, twice as long.
fn long(word: u64) -> u128 {
    let high = u128::from(word).wrapping_mul(18_446_744_073_709_551_616);
    high.wrapping_add(u128::from(word ^ (word >> 29)))
}

/// The next word of the generator.
pub fn next_word(word: u64) -> u64 {
    word.wrapping_mul(6_364_136_223_846_793_005)
        .wrapping_add(1_442_695_040_888_963_407)
}

/// Drawn number k below 2^n, where the generator with this seed has given the word: corners first,
/// then words. The corners of two seeds meet in several pairs, a number over 0 and 0 by the seeds 3
/// and 5 among them.
pub fn drawn(n: u8, seed: u64, k: u64, word: u64) -> u128 {
    let all = ones(n);
    let corners = [0, 1, all, half(n), all / 2, all ^ 1, 7, 200];
    let place = k.wrapping_mul(seed).wrapping_add(k / 8) % 8;
    let corner = match corners.get(place as usize) {
        Some(corner) => *corner,
        None => 0,
    };
    let number = if k < 24 { corner } else { long(word) };
    number & all
}

/// The value of an operation of one or two words of n bits.
fn of_words(name: &str, n: u8, a: u128, b: u128) -> Option<u128> {
    let all = ones(n);
    Some(match name {
        "not" => !a & all,
        "and" => a & b,
        "or" => a | b,
        "xor" => a ^ b,
        "copy" => a,
        "zero" => 0,
        "ones" => all,
        "shl1" => a.wrapping_add(a) & all,
        "shr1" => a / 2,
        "add" => a.wrapping_add(b) & all,
        "sub" => a.wrapping_sub(b) & all,
        "mul" => a.wrapping_mul(b) & all,
        "div" => a.checked_div(b).unwrap_or(all),
        "rem" => a.checked_rem(b).unwrap_or(a),
        "abs" => {
            if a < half(n) {
                a
            } else {
                a.wrapping_neg() & all
            }
        }
        "relu" => { if a < half(n) { a } else { 0 } }
        "min" => a.min(b),
        "max" => a.max(b),
        "bitcount" => u128::from(a.count_ones()),
        _ => return None,
    })
}

/// The value of an operation that gives a bit of words of n bits.
fn bit_of_words(name: &str, n: u8, a: u128, b: u128) -> Option<bool> {
    Some(match name {
        "eq" => a == b,
        "gt" => a > b,
        "ge" => a >= b,
        "and_red" => a == ones(n),
        "or_red" => a > 0,
        "xor_red" => a.count_ones() % 2 == 1,
        _ => return None,
    })
}

/// The value of a word operation on a and b of n bits, and for `if_else` the bit s.
pub fn value(name: &str, n: u8, a: u128, b: u128, s: u128) -> Result<u128, LineError> {
    if name == "if_else" {
        return Ok(if s == 1 { a } else { b });
    }
    match (of_words(name, n, a, b), bit_of_words(name, n, a, b)) {
        (Some(number), _) => Ok(number),
        (None, Some(bit)) => Ok(u128::from(bit)),
        (None, None) => Err(LineError::Unread),
    }
}
