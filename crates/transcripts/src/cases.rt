//! The lines of a case file, and the cases that they make.

use std::alloc::{AllocError, Global};

/// A case: its name, and its lines from the one that names it to the next case.
#[derive(Clone, Copy)]
pub struct Case<'a> {
    pub name: &'a str,
    /// The number of its first line, from 1.
    pub first: usize,
    pub lines: &'a [&'a str],
}

/// The name of the case that begins with a line.
pub fn named(line: &str) -> Option<&str> {
    line.strip_prefix("== ")
}

/// Whether a line says what came: an answer, a line that was sent, or a file that was stored. One
/// that begins with `==` names a case, or is not read.
pub fn is_came(line: &str) -> bool {
    line.starts_with('=') && !line.starts_with("==")
        || line.starts_with('>')
        || line.starts_with('+')
}

/// Whether a line is for the reader alone.
pub fn is_comment(line: &str) -> bool {
    line.is_empty() || line.starts_with('#')
}

/// The lines of a text. A carriage return is a character of its line.
pub fn lines_of(text: &str, alloc: Global) -> Result<Vec<&str>, AllocError> {
    let mut lines = Vec::new(alloc);
    if !text.is_empty() {
        for line in text.strip_suffix('\n').unwrap_or(text).split('\n') {
            lines.push(line)?;
        }
    }
    Ok(lines)
}

/// The lines from a place up to the next case.
fn own_lines<'a>(lines: &'a [&'a str], start: usize) -> &'a [&'a str] {
    let mut end = start.saturating_add(1);
    for line in lines.get(end..).unwrap_or(&[]) {
        if named(line).is_some() {
            break;
        }
        end = end.saturating_add(1);
    }
    lines.get(start..end).unwrap_or(&[])
}

/// The cases, in order. Lines before the first belong to none.
pub fn cases_of<'a>(lines: &'a [&'a str], alloc: Global) -> Result<Vec<Case<'a>>, AllocError> {
    let mut cases = Vec::new(alloc);
    for (place, line) in lines.iter().enumerate() {
        if let Some(name) = named(line) {
            cases.push(Case {
                name,
                first: place.saturating_add(1),
                lines: own_lines(lines, place),
            })?;
        }
    }
    Ok(cases)
}

/// How many of the cases have a name.
pub fn with_name(cases: &[Case<'_>], name: &str) -> usize {
    let mut count: usize = 0;
    for case in cases {
        if case.name == name {
            count = count.saturating_add(1);
        }
    }
    count
}

/// How many lines there are before the first case that are not for the reader alone.
pub fn strays(lines: &[&str]) -> usize {
    let mut count: usize = 0;
    for line in lines {
        if named(line).is_some() {
            break;
        }
        if !is_comment(line) {
            count = count.saturating_add(1);
        }
    }
    count
}
