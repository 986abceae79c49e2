//! A text, read token by token.

ghost use Rattle.std.specs.Prelude.{◌≡◌, true, not, Some};
ghost use Rattle.op_lang.specs.declared.fault.ReadError.TheVariants as no;
ghost use Rattle.text_lex.specs.Lexical.{items_of};
ghost use Rattle.op_text.specs.Items.{opens};
ghost use Rattle.op_text.specs.Rules.{nothing_yet};
ghost use Rattle.op_lang.specs.Tokens.{is_nil};
ghost use Rattle.op_lang.specs.Seen.{seen};
ghost use Rattle.op_lang.specs.Reading.{ParserView, Takes, is_due};
ghost use Rattle.op_lang.specs.Judging.{JudgesToken};

use crate::fault::{ReadError, RuleError};
use crate::judge::{allows, judge};
use crate::scope::Scope;
use crate::tokens::Tokens;
use grammar::Breach;
use op_text::{OpsKind, Terminal, Wanted, terminal_of};
use std::alloc::Global;
use std::marker::Model;
use text_lex::Token;

/// A token that breaks no rule.
#[derive(Clone, Copy)]
pub(crate) struct Taken<'a> {
    pub text: &'a [u8],
    pub terminal: Terminal,
}

/// A text, seen as what stands before its next token and the items that are left.
pub(crate) struct Parser<'a> {
    tokens: Tokens<'a>,
    scope: Scope,
}

impl Drop for Parser<'_> {
    fn drop(self) {
        let Parser {
            tokens: _,
            scope: _,
        } = self;
    }
}

impl<'a> Model for Parser<'a> {
    ghost use Rattle.op_lang.specs.Reading.{ParserView};
    ghost use Rattle.op_lang.specs.Seen.{seen};

    ghost Value = { ParserView };

    ghost view = { λ p. record { scope = seen p.scope; items = p.tokens } };
}

fn breaks(token: &Token<'_>, kind: OpsKind) -> ReadError
    ensures { result ≡ no.Breach (record { at = Some token.now.start; kind = kind }) }
{
    ReadError::Breach(Breach {
        at: Some(token.start),
        kind,
    })
}

/// Judges a token by the grammar and the rules.
fn judge_token(
    scope: &mut Scope,
    wanted: Wanted,
    token: &Token<'_>,
    opened: bool,
) -> Result<Terminal, ReadError>
    ensures { JudgesToken wanted (seen scope.old) token.now opened result (seen scope.new) }
{
    let terminal = terminal_of(token.kind, token.text);
    if !allows(wanted, terminal) {
        return Err(breaks(token, OpsKind::Syntax));
    }
    match judge(scope, wanted, terminal, token.text, opened) {
        Ok(()) => Ok(terminal),
        Err(RuleError::Memory) => Err(ReadError::Memory),
        Err(RuleError::Rule(kind)) => Err(breaks(token, kind)),
    }
}

/// The next token, where this is wanted.
fn take_from<'a>(
    tokens: &mut Tokens<'a>,
    scope: &mut Scope,
    wanted: Wanted,
) -> Result<Taken<'a>, ReadError>
    requires { is_due wanted (record { scope = seen scope.old; items = tokens.old }) ≡ true }
    ensures { Takes wanted (record { scope = seen scope.old; items = tokens.old }) result
        (record { scope = seen scope.new; items = tokens.new }) }
{
    let token = match tokens.take() {
        Ok(token) => token,
        Err(breach) => return Err(ReadError::Breach(breach)),
    };
    let opened = tokens.opens();
    let terminal = judge_token(scope, wanted, &token, opened)?;
    Ok(Taken {
        text: token.text,
        terminal,
    })
}

impl<'a> Parser<'a> {
    pub fn new(text: &'a [u8], alloc: Global) -> Parser<'a>
        ensures { result ≡ record { scope = nothing_yet; items = items_of text.now } }
    {
        Parser {
            tokens: Tokens::new(text),
            scope: Scope::new(alloc),
        }
    }

    pub fn is_at_end(&self) -> bool
        ensures { result ≡ is_nil self.now.items }
    {
        self.tokens.is_at_end()
    }

    /// Whether an opening parenthesis follows.
    pub fn opens(&self) -> bool
        ensures { result ≡ opens self.now.items }
    {
        self.tokens.opens()
    }

    /// The next token, where this is wanted.
    pub fn take(&mut self, wanted: Wanted) -> Result<Taken<'a>, ReadError>
        requires { is_due wanted self.old ≡ true }
        ensures { Takes wanted self.old result self.new }
    {
        take_from(&mut self.tokens, &mut self.scope, wanted)
    }
}
