//! Numbers and words as cases write them.

use crate::said::Said;
use crate::stop::LineError;
use std::fmt::Display;
use std::str::FromStr;

/// A number in decimal digits.
pub fn decimal<T: FromStr>(text: &str) -> Result<T, LineError>
where
    T::Err: Drop,
{
    match text.parse() {
        Ok(number) => Ok(number),
        Err(_) => Err(LineError::Unread),
    }
}

/// The byte of a pair of hexadecimal digits.
pub fn hex_byte(pair: &str) -> Result<u8, LineError> {
    if pair.len() != 2 || pair.starts_with('+') {
        return Err(LineError::Unread);
    }
    match u8::from_str_radix(pair, 16) {
        Ok(byte) => Ok(byte),
        Err(_) => Err(LineError::Unread),
    }
}

/// Appends the bytes of pairs of hexadecimal digits; what follows `#` is for the reader.
pub fn put_hex_bytes(bytes: &mut Vec<u8>, text: &str) -> Result<(), LineError> {
    let written = match text.split_once('#') {
        Some((front, _)) => front,
        None => text,
    };
    for pair in written.split_whitespace() {
        bytes.push(hex_byte(pair)?)?;
    }
    Ok(())
}

/// Appends the words at the blanks.
fn push_words<'a>(text: &'a str, words: &mut Vec<&'a str>) -> Result<(), LineError> {
    for word in text.split_whitespace() {
        words.push(word)?;
    }
    Ok(())
}

/// Appends the words at the blanks, where a word in single quotes may be empty or have blanks.
pub fn split_words<'a>(text: &'a str, words: &mut Vec<&'a str>) -> Result<(), LineError> {
    let mut is_quoted = false;
    for piece in text.split('\'') {
        if is_quoted {
            words.push(piece)?;
        } else {
            push_words(piece, words)?;
        }
        is_quoted = !is_quoted;
    }
    if is_quoted {
        Ok(())
    } else {
        Err(LineError::Unread)
    }
}

/// What a backslash and this character stand for.
fn escaped(c: char) -> Option<char> {
    match c {
        'n' => Some('\n'),
        't' => Some('\t'),
        'r' => Some('\r'),
        's' => Some(' '),
        '0' => Some('\0'),
        '\\' => Some('\\'),
        _ => None,
    }
}

/// Puts the text in which `\n` stands for a line's end, `\t` for a tab, `\r` for a carriage return,
/// `\s` for a blank, `\0` for a zero byte and `\\` for a backslash.
pub fn put_unescaped(out: &mut Said, text: &str) -> Result<(), LineError> {
    let mut is_escaped = false;
    for c in text.chars() {
        if is_escaped {
            out.put_char(escaped(c).ok_or(LineError::Unread)?);
            is_escaped = false;
        } else if c == '\\' {
            is_escaped = true;
        } else {
            out.put_char(c);
        }
    }
    if is_escaped {
        Err(LineError::Unread)
    } else {
        Ok(())
    }
}

/// How many of the first items are alike.
fn alike<T: PartialEq>(items: &[T]) -> usize {
    let mut count: usize = 0;
    for item in items {
        if items.first() != Some(item) {
            break;
        }
        count = count.saturating_add(1);
    }
    count
}

/// Says the items after one another, eight and more that are alike as `22*500`.
pub fn put_items<T: PartialEq + Display>(said: &mut Said, items: &[T]) {
    let mut rest = items;
    let mut blank = "";
    for _item in 0..items.len() {
        let Some(first) = rest.first() else { break };
        let same = alike(rest);
        let count = if same < 8 { 1 } else { same };
        said.put(blank);
        said.put_item(first);
        if count > 1 {
            said.put("*");
            said.put_item(count);
        }
        rest = rest.get(count..).unwrap_or(&[]);
        blank = " ";
    }
}
