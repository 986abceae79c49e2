//! The tokens of a text, one after the other.

ghost use Rattle.std.specs.Prelude.{◌≡◌, ℕ, ◌≤◌, List, length, drop};
ghost use Rattle.std.specs.List.{prefix_len, AllByRecursion};
ghost use Rattle.std.specs.Char.{is_ascii_digit};
ghost use Rattle.text_lex.specs.Bytes.{is_name_start, is_name_byte, is_blank, is_mark};
ghost use Rattle.text_lex.specs.Bytes.{is_no_newline};
ghost use Rattle.text_lex.specs.Lexical.{Item, items_of, items_from, Takes, Stands, IsWithin};
ghost use Rattle.text_lex.specs.Lexical.{front_of, begins_with, IsRight, AreApart, ReadsBack};

use crate::token::{Front, LexFault, Token, TokenKind};
use std::marker::Model;

pub(crate) fn is_name_start(b: u8) -> bool
    ensures { result ≡ is_name_start b }
{
    b.is_ascii_alphabetic() || b == b'_'
}

pub(crate) fn is_name_byte(b: u8) -> bool
    ensures { result ≡ is_name_byte b }
{
    is_name_start(b) || b.is_ascii_digit()
}

fn is_blank(b: u8) -> bool
    ensures { result ≡ is_blank b }
{
    b == b' ' || b == b'\t' || b == b'\r' || b == b'\n'
}

fn is_mark(b: u8) -> bool
    ensures { result ≡ is_mark b }
{
    matches!(
        b,
        b'(' | b')' | b'{' | b'}' | b'[' | b']' | b',' | b';' | b':' | b'='
    )
}

fn name_len(bytes: &[u8]) -> usize
    ensures value { result ≡ prefix_len is_name_byte bytes.now }
    ensures within { result ≤ length bytes.now }
{
    bytes.iter().take_while(|b| is_name_byte(**b)).count()
}

fn digits_len(bytes: &[u8]) -> usize
    ensures value { result ≡ prefix_len is_ascii_digit bytes.now }
    ensures within { result ≤ length bytes.now }
{
    bytes.iter().take_while(|b| b.is_ascii_digit()).count()
}

fn line_len(bytes: &[u8]) -> usize
    ensures value { result ≡ prefix_len is_no_newline bytes.now }
    ensures within { result ≤ length bytes.now }
{
    bytes.iter().take_while(|b| **b != b'\n').count()
}

fn begins_with_greater(bytes: &[u8]) -> bool
    ensures { result ≡ begins_with 62 bytes.now }
{
    match bytes {
        [] => false,
        [first, ..] => *first == b'>',
    }
}

/// What stands at the front of a byte and those after it.
#[tactic(auto, unfolding(crate::specs::Lexical::front_of))]
fn front_of(first: u8, rest: &[u8]) -> Front
    ensures value { result ≡ front_of first rest.now }
    ensures within { IsWithin (length rest.now) result }
{
    if is_blank(first) {
        Front::Gap(1)
    } else if first == b'#' {
        Front::Gap(1 + line_len(rest))
    } else if is_name_start(first) {
        Front::Piece(TokenKind::Name, 1 + name_len(rest))
    } else if first.is_ascii_digit() {
        Front::Piece(TokenKind::Number, 1 + digits_len(rest))
    } else if is_mark(first) {
        Front::Piece(TokenKind::Symbol, 1)
    } else if first == b'-' && begins_with_greater(rest) {
        Front::Piece(TokenKind::Symbol, 2)
    } else {
        Front::Stranger
    }
}

/// The first token from the place `at` on.
fn token_from<'a>(text: &'a [u8], at: usize) -> Result<Option<Token<'a>>, LexFault>
    requires { at ≤ length text.now }
    ensures { Stands text.now (items_from at 0 (drop at text.now)) result }
{
    let mut at = at;
    let (_, mut rest) = text.split_at(at);
    while let Some((first, others)) = rest.split_first() {
        match front_of(*first, others) {
            Front::Gap(len) => {
                let (_, after) = rest.split_at(len);
                rest = after;
                at += len;
            }
            Front::Piece(kind, len) => {
                let (text, _) = rest.split_at(len);
                return Ok(Some(Token {
                    text,
                    start: at,
                    kind,
                }));
            }
            Front::Stranger => return Err(LexFault { at, byte: *first }),
        }
    }
    Ok(None)
}

/// Reads a text from left to right. It is seen as what is left of the text's items.
#[derive(Drop)]
pub struct Lexer<'a> {
    text: &'a [u8],
    at: usize,
}

impl<'a> Model for Lexer<'a> {
    ghost use Rattle.std.specs.Prelude.{◌≤◌, List, length, drop};
    ghost use Rattle.text_lex.specs.Lexical.{Item, items_from};

    ghost Value = { List Item };

    ghost view = { λ l. items_from l.at 0 (drop l.at l.text.now) };

    ghost invariant = { λ l. l.at ≤ length l.text.now };
}

impl<'a> Lexer<'a> {
    /// A lexer at the start of a text.
    pub fn new(text: &'a [u8]) -> Lexer<'a>
        ensures { result ≡ items_of text.now }
    {
        Lexer { text, at: 0 }
    }

    /// The next token, which is a slice of the text, or the byte that starts none.
    pub fn next(&mut self) -> Result<Option<Token<'a>>, LexFault>
        ensures { Takes self.old result self.new }
    {
        let found = token_from(self.text, self.at)?;
        if let Some(token) = &found {
            self.at = token.start + token.text.len();
        }
        Ok(found)
    }
}

/// The items of a text are right in it: each token is the slice at its start and the longest there,
/// and a byte that is a fault starts none.
pub fn items_are_right()
    ensures { (text : List ℕ) → AllByRecursion (IsRight text) (items_of text) }
{}

/// Between the items of a text stand only blanks and comments.
pub fn items_are_apart()
    ensures { (text : List ℕ) → AreApart text 0 (items_of text) }
{}

/// What is written is read again, token by token.
pub fn written_is_read()
    ensures { ReadsBack }
{}
