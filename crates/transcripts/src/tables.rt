//! Rows of a table: the values that stand for `{}` in its lines.

use crate::said::Said;
use std::alloc::Global;

/// What a piece of a line that follows `{` begins with, where that is a hole, and the rest.
fn filled<'a>(piece: &'a str, value: &'a str) -> (&'a str, &'a str) {
    if let Some(rest) = piece.strip_prefix('}') {
        return (value, rest);
    }
    if let Some((digits, rest)) = piece.split_once('}')
        && let Ok(number) = digits.parse::<usize>()
    {
        let word = value.split(' ').nth(number.saturating_sub(1));
        return (word.unwrap_or(""), rest);
    }
    ("{", piece)
}

/// Puts the line with the value for `{}`, and its words for `{1}`, `{2}` and so on.
pub fn fill(out: &mut Said, line: &str, value: &str) {
    for (k, piece) in line.split('{').enumerate() {
        let (word, rest) = if k == 0 {
            ("", piece)
        } else {
            filled(piece, value)
        };
        out.put(word);
        out.put(rest);
    }
}

/// The ends of `A..B`.
pub fn range_of(text: &str) -> Option<(u64, u64)> {
    let (first, last) = text.split_once("..")?;
    match (first.parse(), last.parse()) {
        (Ok(first), Ok(last)) => Some((first, last)),
        _ => None,
    }
}

/// How many values a word gives.
fn size_of(word: &str) -> u64 {
    match range_of(word) {
        Some((first, last)) if last < first => 0,
        Some((first, last)) => last.saturating_sub(first).saturating_add(1),
        None => 1,
    }
}

/// How many values a row gives.
pub fn count_of(row: &str) -> u64 {
    let mut count: u64 = 1;
    for word in row.split(' ') {
        count = count.saturating_mul(size_of(word));
    }
    count
}

/// Puts a word, or the number of its range that stands so many places after the first.
fn put_word(out: &mut Said, word: &str, place: u64) {
    match range_of(word) {
        Some((first, _)) => out.put_item(first.saturating_add(place)),
        None => out.put(word),
    }
}

/// Puts the value of a row at a place of all that its ranges give, the last the fastest.
pub fn put_value(out: &mut Said, row: &str, place: u64) {
    let mut rest = count_of(row);
    for (k, word) in row.split(' ').enumerate() {
        if k > 0 {
            out.put(" ");
        }
        let size = size_of(word);
        rest = rest.checked_div(size).unwrap_or(0);
        let own = place.checked_div(rest).unwrap_or(0);
        put_word(out, word, own.checked_rem(size).unwrap_or(0));
    }
}

/// Puts the digits, or `{}` where they are the value, and leaves none.
fn put_digits(out: &mut Said, digits: &mut Said, value: &str) {
    let own = digits.as_str();
    if own == value && !value.is_empty() {
        out.put("{}");
    } else {
        out.put(own);
    }
    digits.clear();
}

/// Puts a line that was sent, with `{}` in the place of the value.
fn put_emptied_line(out: &mut Said, digits: &mut Said, line: &str, value: &str) {
    for c in line.chars() {
        if c.is_ascii_digit() {
            digits.put_char(c);
        } else {
            put_digits(out, digits, value);
            out.put_char(c);
        }
    }
    put_digits(out, digits, value);
}

/// Puts what came, with `{}` in the place of the value where it was sent.
pub fn put_emptied(out: &mut Said, came: &str, value: &str, alloc: Global) {
    let mut digits = Said::new(alloc);
    for line in came.lines() {
        if line.starts_with('>') {
            put_emptied_line(out, &mut digits, line, value);
        } else {
            out.put(line);
        }
        out.put("\n");
    }
}

/// Neighbours of a range for which the same came, or the same but for the number itself.
pub struct Group {
    first: u64,
    last: u64,
    plain: Said,
    emptied: Said,
    is_plain: bool,
    is_emptied: bool,
}

impl Drop for Group {
    fn drop(self) {
        let Group {
            first: _,
            last: _,
            plain: _,
            emptied: _,
            is_plain: _,
            is_emptied: _,
        } = self;
    }
}

impl Group {
    /// A group of no numbers.
    pub fn new(alloc: Global) -> Group {
        Group {
            first: 0,
            last: 0,
            plain: Said::new(alloc),
            emptied: Said::new(alloc),
            is_plain: false,
            is_emptied: false,
        }
    }

    /// Begins a group with a number and what came of it.
    pub fn begin(&mut self, number: u64, plain: &str, emptied: &str) {
        self.first = number;
        self.last = number;
        self.plain.clear();
        self.plain.put(plain);
        self.emptied.clear();
        self.emptied.put(emptied);
        self.is_plain = true;
        self.is_emptied = true;
    }

    /// Whether it has a number.
    pub fn is_begun(&self) -> bool {
        self.is_plain || self.is_emptied
    }

    /// Takes the next number in, where the same came of it.
    pub fn takes(&mut self, number: u64, plain: &str, emptied: &str) -> bool {
        let is_plain = self.is_plain && self.plain.as_str() == plain;
        let is_emptied = self.is_emptied && self.emptied.as_str() == emptied;
        if is_plain || is_emptied {
            self.last = number;
            self.is_plain = is_plain;
            self.is_emptied = is_emptied;
        }
        is_plain || is_emptied
    }

    /// Says the row of the group, and what came; nothing of a group of no numbers.
    pub fn put(&self, said: &mut Said) {
        if !self.is_begun() {
            return;
        }
        said.put("| ");
        said.put_item(self.first);
        if self.first != self.last {
            said.put("..");
            said.put_item(self.last);
        }
        said.put("\n");
        said.put(if self.is_plain {
            self.plain.as_str()
        } else {
            self.emptied.as_str()
        });
    }
}
