//! Text that is put together.

use std::alloc::{AllocError, Global};
use std::fmt::{Display, Write};

/// A text that is put together. Where there was no memory for a piece it is short, which is asked
/// once, at its end.
pub struct Said {
    text: String,
    is_short: bool,
}

impl Drop for Said {
    fn drop(self) {
        let Said {
            text: _,
            is_short: _,
        } = self;
    }
}

impl Said {
    pub fn new(alloc: Global) -> Said {
        Said {
            text: String::new(alloc),
            is_short: false,
        }
    }

    pub fn put(&mut self, piece: &str) {
        if self.text.push_str(piece).is_err() {
            self.is_short = true;
        }
    }

    pub fn put_char(&mut self, piece: char) {
        if self.text.push(piece).is_err() {
            self.is_short = true;
        }
    }

    pub fn put_item<T: Display + Drop>(&mut self, item: T) {
        if write!(self.text, "{item}").is_err() {
            self.is_short = true;
        }
    }

    /// A byte, as two hexadecimal digits.
    pub fn put_hex(&mut self, byte: u8) {
        if write!(self.text, "{byte:02x}").is_err() {
            self.is_short = true;
        }
    }

    /// A line, with its end.
    pub fn put_line(&mut self, line: &str) {
        self.put(line);
        self.put("\n");
    }

    /// Notes that memory was wanting.
    pub fn lack(&mut self) {
        self.is_short = true;
    }

    /// Leaves no text.
    pub fn clear(&mut self) {
        self.text.clear();
    }

    pub fn as_str(&self) -> &str {
        self.text.as_str()
    }

    /// The text, where none of it is missing.
    pub fn whole(&self) -> Result<&str, AllocError> {
        if self.is_short {
            return Err(AllocError);
        }
        Ok(self.text.as_str())
    }
}
