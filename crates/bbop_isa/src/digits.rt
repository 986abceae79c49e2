//! Numbers, as a script writes them.

ghost use Rattle.std.specs.Prelude.{◌≡◌, ◌≤◌, length};
ghost use Rattle.std.specs.Char.{is_ascii_digit};
ghost use Rattle.std.specs.List.{AllPass};
ghost use Rattle.std.specs.Str.Parse.{digits_value};
ghost use Rattle.bbop_isa.specs.Numbers.{number_of};

use bit_rows::Value;
use std::marker::Model;
use text_lex::number;

/// So many digits write a number below 2^64.
const FEW: usize = 19;

/// The number that a few digits write. No sum of it is tested.
fn few_digits(text: &[u8]) -> u64
    requires digits { AllPass is_ascii_digit text.now }
    requires few { length text.now ≤ FEW }
    ensures { result ≡ digits_value 10 text.now }
{
    let mut value: u64 = 0;
    for byte in text {
        value = 10 * value + u64::from(*byte - b'0');
    }
    value
}

/// The digits of a number, seen as its value, or `None` where that is 2^128 or more.
///
/// A line keeps its numbers so, since a value takes more bytes.
#[derive(Drop)]
pub(crate) struct Digits<'a> {
    text: &'a [u8],
}

impl<'a> Model for Digits<'a> {
    ghost use Rattle.std.specs.Prelude.{ℕ, Option};
    ghost use Rattle.std.specs.Char.{is_ascii_digit};
    ghost use Rattle.std.specs.List.{AllPass};
    ghost use Rattle.bbop_isa.specs.Numbers.{number_of};

    ghost Value = { Option ℕ };

    ghost view = { λ d. number_of d.text.now };

    ghost invariant = { λ d. AllPass is_ascii_digit d.text.now };
}

impl<'a> Digits<'a> {
    pub fn new(text: &'a [u8]) -> Digits<'a>
        requires { AllPass is_ascii_digit text.now }
        ensures { result ≡ number_of text.now }
    {
        Digits { text }
    }

    /// The value.
    pub fn value(&self) -> Option<Value>
        ensures { result ≡ self.now }
    {
        if self.text.len() <= FEW {
            Some(Value::from(few_digits(self.text)))
        } else {
            number(self.text)
        }
    }

    /// The same digits again.
    pub fn copied(&self) -> Digits<'a>
        ensures { result ≡ self.now }
    {
        Digits { text: self.text }
    }
}
