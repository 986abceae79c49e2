//! The terminals of the grammar.

ghost use Rattle.std.specs.Prelude.{◌≡◌};
ghost use Rattle.text_lex.specs.declared.token.TokenKind.TheVariants as kinds;
ghost use Rattle.op_text.specs.Items.{terminal_of, spelling_of};

use text_lex::TokenKind;

/// A name token: a reserved word, or any other name.
#[derive(Clone, Copy)]
pub enum Spelling {
    Plain,
    Op,
    Word,
    Bit,
    Serial,
    Up,
    Down,
    Let,
}

/// A token as the grammar sees it.
#[derive(Clone, Copy)]
pub enum Terminal {
    Name(Spelling),
    Zero,
    One,
    Equals,
    Opens,
    Closes,
    Begins,
    Finishes,
    Comma,
    Semi,
    Colon,
    Arrow,
    /// A number that is no bit.
    Other,
}

/// Which terminal of the grammar a token is.
pub fn terminal_of(kind: TokenKind, text: &[u8]) -> Terminal
    ensures { result ≡ terminal_of kind text.now }
{
    match kind {
        TokenKind::Name => Terminal::Name(spelling_of(text)),
        TokenKind::Number => number_terminal(text),
        TokenKind::Symbol => symbol_terminal(text),
    }
}

/// Which reserved word a name is.
pub fn spelling_of(text: &[u8]) -> Spelling
    ensures { result ≡ spelling_of text.now }
{
    if text == b"op".as_slice() {
        Spelling::Op
    } else if text == b"word".as_slice() {
        Spelling::Word
    } else if text == b"bit".as_slice() {
        Spelling::Bit
    } else if text == b"serial".as_slice() {
        Spelling::Serial
    } else if text == b"up".as_slice() {
        Spelling::Up
    } else if text == b"down".as_slice() {
        Spelling::Down
    } else if text == b"let".as_slice() {
        Spelling::Let
    } else {
        Spelling::Plain
    }
}

fn number_terminal(text: &[u8]) -> Terminal
    ensures { result ≡ terminal_of kinds.Number text.now }
{
    if text == b"0".as_slice() {
        Terminal::Zero
    } else if text == b"1".as_slice() {
        Terminal::One
    } else {
        Terminal::Other
    }
}

fn symbol_terminal(text: &[u8]) -> Terminal
    ensures { result ≡ terminal_of kinds.Symbol text.now }
{
    if text == b"=".as_slice() {
        Terminal::Equals
    } else if text == b"(".as_slice() {
        Terminal::Opens
    } else if text == b")".as_slice() {
        Terminal::Closes
    } else if text == b"{".as_slice() {
        Terminal::Begins
    } else if text == b"}".as_slice() {
        Terminal::Finishes
    } else if text == b",".as_slice() {
        Terminal::Comma
    } else if text == b";".as_slice() {
        Terminal::Semi
    } else if text == b":".as_slice() {
        Terminal::Colon
    } else if text == b"->".as_slice() {
        Terminal::Arrow
    } else {
        Terminal::Other
    }
}
