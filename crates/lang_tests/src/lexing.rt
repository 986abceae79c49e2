//! What texts, names and numbers are read as.

use std::process::Abort;
use text_lex::{LexFault, Lexer, Name, TokenKind, number};

/// A token: its kind, its place and its bytes.
type Want = (TokenKind, usize, &'static [u8]);

const N: TokenKind = TokenKind::Name;

const D: TokenKind = TokenKind::Number;

const S: TokenKind = TokenKind::Symbol;

/// The tokens of the text, and then its end, or the fault, which stays.
fn check(rt: &impl Abort, text: &[u8], tokens: &[Want], fault: Option<LexFault>) {
    let mut lexer = Lexer::new(text);
    for (kind, start, bytes) in tokens {
        match lexer.next() {
            Ok(Some(token)) => {
                assert!(rt; token.kind == *kind && token.start == *start);
                assert!(rt; token.text == *bytes);
            }
            _ => assert!(rt; false, "no token at {start}"),
        }
    }
    for _ in 0..2 {
        match lexer.next() {
            Ok(Some(token)) => assert!(rt; false, "a token at {}", token.start),
            Ok(None) => assert!(rt; fault.is_none()),
            Err(found) => assert!(rt; fault == Some(found)),
        }
    }
}

#[test]
fn texts_are_read(rt: HostRuntime) {
    check(&rt, b"", &[], None);
    check(&rt, b" \t\r\n# all ; of it", &[], None);
    check(
        &rt,
        b"y=and(a,_b2);",
        &[
            (N, 0, b"y"),
            (S, 1, b"="),
            (N, 2, b"and"),
            (S, 5, b"("),
            (N, 6, b"a"),
            (S, 7, b","),
            (N, 8, b"_b2"),
            (S, 11, b")"),
            (S, 12, b";"),
        ],
        None,
    );
    check(
        &rt,
        b"->{}: 007x",
        &[
            (S, 0, b"->"),
            (S, 2, b"{"),
            (S, 3, b"}"),
            (S, 4, b":"),
            (D, 6, b"007"),
            (N, 9, b"x"),
        ],
        None,
    );
    // A comment holds any byte but a newline, a carriage return too.
    check(&rt, b"a#\xff->\rb\nc", &[(N, 0, b"a"), (N, 8, b"c")], None);
    // A minus alone starts no token, nor does a byte outside ASCII.
    for (text, byte) in [(b"a -b", b'-'), (b"a \xc3b", 0xc3), (b"a \x0bb", 0x0b)] {
        check(&rt, text, &[(N, 0, b"a")], Some(LexFault { at: 2, byte }));
    }
    check(&rt, b"-", &[], Some(LexFault { at: 0, byte: b'-' }));
}

#[test]
fn names_are_reported(rt: HostRuntime) {
    let words: [(&[u8], bool); 9] = [
        (b"a", true),
        (b"_", true),
        (b"Z9_z", true),
        (b"abcdefghijklmnop", true),
        (b"abcdefghijklmnopq", false),
        (b"", false),
        (b"9a", false),
        (b"a-b", false),
        (b"a b", false),
    ];
    for (word, is_name) in words {
        match Name::new(word) {
            Some(name) => assert!(rt; is_name && name.bytes() == word && name.copied() == name),
            None => assert!(rt; !is_name),
        }
    }
    assert!(rt; Name::default().bytes() == b"_".as_slice());
    assert!(rt; Name::new(b"a") != Name::new(b"A"));
}

#[test]
fn numbers_are_read(rt: HostRuntime) {
    for (word, value) in [
        (b"0".as_slice(), Some(0)),
        (b"007".as_slice(), Some(7)),
        (b"18446744073709551616".as_slice(), Some(1 << 64)),
        (
            b"340282366920938463463374607431768211455".as_slice(),
            Some(u128::MAX),
        ),
        (
            b"0340282366920938463463374607431768211455".as_slice(),
            Some(u128::MAX),
        ),
        (b"340282366920938463463374607431768211456".as_slice(), None),
        (b"999999999999999999999999999999999999999".as_slice(), None),
    ] {
        if word.iter().all(|b| b.is_ascii_digit()) {
            assert!(rt; number(word) == value);
        }
    }
}
