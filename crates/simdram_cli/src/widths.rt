//! A list of widths as a word.

ghost use Rattle.std.specs.Prelude.{◌≡◌, ◌<◌, ◌≤◌, ◌^◌, ◌&&◌, ◌++◌, true, false, length, IfNone};
ghost use Rattle.std.specs.Prelude.{IfSome};
ghost use Rattle.std.specs.Option.{option_map};
ghost use Rattle.simdram_cli.specs.Numbers.{value_of};
ghost use Rattle.simdram_cli.specs.Widths.{first_of, is_span, last_of, rise_from, span_numbers};
ghost use Rattle.simdram_cli.specs.Widths.{widths_in};

use crate::numbers::number_of;
use arrayvec::ArrayVec;
use bit_rows::WIDTH_MAX;

/// Widths in rising order.
pub type Widths = ArrayVec<u8, 128>;

/// What stands before the dash of a span and behind it, or all of it twice.
fn ends_of<'a>(part: &'a str) -> (&'a str, &'a str)
    ensures first { result.0.now ≡ first_of part.now }
    ensures last { result.1.now ≡ last_of part.now }
{
    match part.split_once('-') {
        Some(ends) => ends,
        None => (part, part),
    }
}

/// The first and the last number of a span, if they are below 2^16.
fn span_of(part: &str) -> Option<(u16, u16)>
    ensures some { IfSome result (λ ends. (is_span part.now ≡ true)
        × (ends.0 ≡ value_of (first_of part.now)) × (ends.1 ≡ value_of (last_of part.now))) }
    ensures none { IfNone result (is_span part.now ≡ true → 2 ^ 16 ≤ value_of (last_of part.now)) }
{
    let (first, last) = ends_of(part);
    let Some(first) = number_of(first) else {
        return None;
    };
    let Some(last) = number_of(last) else {
        return None;
    };
    if first <= last {
        Some((first, last))
    } else {
        None
    }
}

/// Appends the numbers of a span, and returns the last, if they are widths above this number.
fn push_span(widths: &mut Widths, low: u8, part: &str) -> Option<u8>
    requires few { length widths.old.items ≤ low }
    ensures some { IfSome result (λ last. (last ≡ value_of (last_of part.now))
        × (is_span part.now ≡ true) × (rise_from low (span_numbers part.now) ≡ true)
        × (widths.new.items ≡ widths.old.items ++ span_numbers part.now)
        × (length widths.new.items ≤ last)) }
    ensures none { IfNone result
        ((is_span part.now && rise_from low (span_numbers part.now)) ≡ false) }
{
    let Some((first, last)) = span_of(part) else {
        return None;
    };
    if first <= u16::from(low) || last > u16::from(WIDTH_MAX) {
        return None;
    }
    for n in first..last + 1 {
        widths.push(n as u8);
    }
    Some(last as u8)
}

/// The widths that a word lists.
pub(crate) fn widths_of(word: &str) -> Option<Widths>
    ensures { result ≡ option_map (λ items. record { items = items }) (widths_in word.now) }
{
    let mut widths = Widths::new();
    let mut low = 0;
    let mut rest = word;
    while let Some((part, more)) = rest.split_once(',') {
        let Some(last) = push_span(&mut widths, low, part) else {
            return None;
        };
        low = last;
        rest = more;
    }
    match push_span(&mut widths, low, rest) {
        Some(_) => Some(widths),
        None => None,
    }
}
