//! Numbers as words.

ghost use Rattle.std.specs.Prelude.{◌≡◌, ◌<◌, ◌^◌, true};
ghost use Rattle.std.specs.Char.{is_ascii_digit};
ghost use Rattle.std.specs.List.{list_all};
ghost use Rattle.std.specs.Option.{SomeIff};
ghost use Rattle.simdram_cli.specs.Numbers.{is_number, value_of};

use text_lex::number;

fn are_digits(bytes: &[u8]) -> bool
    ensures { result ≡ list_all is_ascii_digit bytes.now }
{
    bytes.iter().all(|byte| byte.is_ascii_digit())
}

/// Whether the word is decimal digits, at least one.
fn is_number(word: &[u8]) -> bool
    ensures { result ≡ is_number word.now }
{
    match word {
        [] => false,
        [_, ..] => are_digits(word),
    }
}

/// The number that a word's digits write, however many they are, if it is below 2^16.
pub(crate) fn number_of(word: &str) -> Option<u16>
    ensures { SomeIff result ((is_number word.now ≡ true) × (value_of word.now < 2 ^ 16))
        (value_of word.now) }
{
    let digits = word.as_bytes();
    if !is_number(digits) {
        return None;
    }
    match number(digits) {
        Some(value) if value < 65_536 => Some(value as u16),
        _ => None,
    }
}

/// The number that a word's digits write, however many they are, if it is below 2^64.
pub(crate) fn seed_of(word: &str) -> Option<u64>
    ensures { SomeIff result ((is_number word.now ≡ true) × (value_of word.now < 2 ^ 64))
        (value_of word.now) }
{
    let digits = word.as_bytes();
    if !is_number(digits) {
        return None;
    }
    match number(digits) {
        Some(value) if value <= u128::from(u64::MAX) => Some(value as u64),
        _ => None,
    }
}
