//! A query's text, as it is read.

ghost use Rattle.std.specs.Prelude.{◌≡◌, true};
ghost use Rattle.scan_query.specs.Digits.{are_digits};

use text_lex::Lexer;

/// A text that is read, with the numbers of nodes and comparisons that have begun.
#[derive(Drop)]
pub(crate) struct Parser<'a> {
    pub lexer: Lexer<'a>,
    pub nodes: u8,
    pub tests: u8,
    ghost digits: { are_digits lexer ≡ true },
}
