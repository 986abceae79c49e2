//! The tokens of a line, as a script sees them.

ghost use Rattle.std.specs.Prelude.{◌≡◌};
ghost use Rattle.std.specs.Char.{is_ascii_digit};
ghost use Rattle.std.specs.List.{AllPass};
ghost use Rattle.text_lex.specs.declared.token.TokenKind.TheVariants as kind;
ghost use Rattle.bbop_isa.specs.Words.{symbol_at, word_at, word_view};
ghost use Rattle.bbop_isa.specs.Reading.{WordsOf};

use crate::digits::Digits;
use crate::instr::{LineError, ScriptKind};
use faults::keep;
use std::alloc::Global;
use text_lex::{Lexer, Token, TokenKind, items_are_right};

/// A token.
#[derive(Drop)]
pub(crate) enum Word<'a> {
    Name(&'a [u8]),
    Number(Digits<'a>),
    Comma,
    /// `[`
    Open,
    Colon,
    /// `]`
    Close,
    Other,
}

fn symbol_of(text: &[u8]) -> Word<'_>
    ensures { word_view result ≡ symbol_at text.now }
{
    if text == b",".as_slice() {
        Word::Comma
    } else if text == b"[".as_slice() {
        Word::Open
    } else if text == b":".as_slice() {
        Word::Colon
    } else if text == b"]".as_slice() {
        Word::Close
    } else {
        Word::Other
    }
}

fn word_of(token: Token<'_>) -> Word<'_>
    requires { token.kind ≡ kind.Number → AllPass is_ascii_digit token.text.now }
    ensures { word_view result ≡ word_at token.entry.kind token.entry.text.now }
{
    match token.kind {
        TokenKind::Name => Word::Name(token.text),
        TokenKind::Number => Word::Number(Digits::new(token.text)),
        TokenKind::Symbol => symbol_of(token.text),
    }
}

/// The words of a line, unless one of its bytes starts none.
pub(crate) fn words_of<'a>(line: &'a [u8], alloc: Global) -> Result<Vec<Word<'a>>, LineError>
    ensures { WordsOf line.now result }
{
    items_are_right();
    let mut words = Vec::new(alloc);
    let mut lexer = Lexer::new(line);
    loop {
        match lexer.next() {
            Ok(Some(token)) => keep(&mut words, word_of(token))?,
            Ok(None) => return Ok(words),
            Err(_) => return Err(LineError::Bad(ScriptKind::Lex)),
        }
    }
}
