//! The tokens of a text with one looked ahead.

ghost use Rattle.std.specs.Prelude.{◌≡◌};
ghost use Rattle.text_lex.specs.Lexical.{items_of};
ghost use Rattle.op_text.specs.Items.{opens};
ghost use Rattle.op_lang.specs.Tokens.{shown, is_nil, TakesToken};

use grammar::Breach;
use op_text::{OpsKind, Terminal, terminal_of};
use std::marker::Model;
use text_lex::{LexFault, Lexer, Token};

#[derive(Clone, Copy)]
pub(crate) enum Ahead<'a> {
    Token(Token<'a>),
    Stranger(LexFault),
    End,
}

/// A text, seen as the items that are left.
#[derive(Drop)]
pub(crate) struct Tokens<'a> {
    lexer: Lexer<'a>,
    ahead: Ahead<'a>,
}

impl<'a> Model for Tokens<'a> {
    ghost use Rattle.std.specs.Prelude.{List};
    ghost use Rattle.text_lex.specs.Lexical.{Item};
    ghost use Rattle.op_lang.specs.Tokens.{shown};

    ghost Value = { List Item };

    ghost view = { λ r. shown r.ahead r.lexer };
}

fn ahead_of<'a>(lexer: &mut Lexer<'a>) -> Ahead<'a>
    ensures { lexer.old ≡ shown result lexer.new }
{
    match lexer.next() {
        Ok(Some(token)) => Ahead::Token(token),
        Ok(None) => Ahead::End,
        Err(fault) => Ahead::Stranger(fault),
    }
}

impl<'a> Tokens<'a> {
    pub fn new(text: &'a [u8]) -> Tokens<'a>
        ensures { result ≡ items_of text.now }
    {
        let mut lexer = Lexer::new(text);
        let ahead = ahead_of(&mut lexer);
        Tokens { lexer, ahead }
    }

    /// The next token.
    pub fn take(&mut self) -> Result<Token<'a>, Breach<OpsKind>>
        ensures { TakesToken self.old result self.new }
    {
        match self.ahead {
            Ahead::Token(token) => {
                self.ahead = ahead_of(&mut self.lexer);
                Ok(token)
            }
            Ahead::Stranger(fault) => Err(Breach {
                at: Some(fault.at),
                kind: OpsKind::Lex,
            }),
            Ahead::End => Err(Breach {
                at: None,
                kind: OpsKind::Syntax,
            }),
        }
    }

    /// Whether the next token is an opening parenthesis.
    pub fn opens(&self) -> bool
        ensures { result ≡ opens self.now }
    {
        match &self.ahead {
            Ahead::Token(token) => match terminal_of(token.kind, token.text) {
                Terminal::Opens => true,
                _ => false,
            },
            Ahead::Stranger(_) => false,
            Ahead::End => false,
        }
    }

    pub fn is_at_end(&self) -> bool
        ensures { result ≡ is_nil self.now }
    {
        match &self.ahead {
            Ahead::End => true,
            _ => false,
        }
    }
}
