//! A case, done line by line: its text as it would have to be written.

use crate::cases::{Case, is_came, is_comment, named};
use crate::directives::{Rows, do_line, do_row, rows_after};
use crate::said::Said;
use crate::stop::LineError;
use crate::tables::{Group, count_of, fill, put_emptied, put_value, range_of};
use crate::world::World;
use std::alloc::{AllocError, Global};

/// A case that is being done: what stands, its lines with what came in the place of what is
/// written, whether each line was read, and whether it has a command.
pub struct Play<'a> {
    world: World,
    said: Said,
    pub is_read: bool,
    pub has_command: bool,
    /// What rows are, and the file that they belong to.
    rows: Rows,
    file: &'a str,
    /// Whether the lines are those of a table, then these, and whether it has rows yet.
    in_table: bool,
    table: Vec<&'a str>,
    has_rows: bool,
    alloc: Global,
}

impl Drop for Play<'_> {
    fn drop(self) {
        let Play {
            world: _,
            said: _,
            is_read: _,
            has_command: _,
            rows: _,
            file: _,
            in_table: _,
            table: _,
            has_rows: _,
            alloc: _,
        } = self;
    }
}

/// Says of a line that could not be done that it is not read; whether it was done.
fn note(said: &mut Said, done: Result<(), LineError>) -> bool {
    match done {
        Ok(()) => true,
        Err(LineError::Unread) => {
            said.put("= not read\n");
            false
        }
        Err(LineError::Memory) => {
            said.lack();
            false
        }
    }
}

/// Does the lines of a table for a value, after which no call is left to fail; whether each was
/// read.
fn do_lines(world: &mut World, table: &[&str], value: &str, said: &mut Said) -> bool {
    let mut filled = Said::new(world.alloc);
    let mut is_read = true;
    for line in table {
        filled.clear();
        fill(&mut filled, line, value);
        let done = do_line(world, filled.as_str(), said);
        is_read &= note(said, done);
    }
    is_read && !(world.is_failing() && !note(said, Err(LineError::Unread)))
}

impl<'a> Play<'a> {
    pub fn new(alloc: Global) -> Play<'a> {
        Play {
            world: World::new(alloc),
            said: Said::new(alloc),
            is_read: true,
            has_command: false,
            rows: Rows::No,
            file: "",
            in_table: false,
            table: Vec::new(alloc),
            has_rows: false,
            alloc,
        }
    }

    /// Does a case.
    pub fn play(&mut self, case: &Case<'a>) {
        for line in case.lines {
            self.line(line);
        }
        self.end_table();
        if self.world.is_failing() {
            self.note(Err(LineError::Unread));
        }
    }

    /// Its text.
    pub fn text(&self) -> Result<&str, AllocError> {
        self.said.whole()
    }

    /// Notes whether a line was done.
    fn note(&mut self, done: Result<(), LineError>) {
        self.is_read &= note(&mut self.said, done);
    }

    /// Does the next line. One with a carriage return is not read.
    fn line(&mut self, line: &'a str) {
        if is_came(line) {
            return;
        }
        if line.contains('\r') {
            self.said.put_line(line);
            self.note(Err(LineError::Unread));
            return;
        }
        match line.strip_prefix('|') {
            Some(row) => self.row(line, row.strip_prefix(' ').unwrap_or(row)),
            None => self.other(line),
        }
    }

    /// A row: of a table, or of the line before.
    fn row(&mut self, line: &str, row: &str) {
        if self.in_table {
            self.table_row(row);
        } else {
            self.said.put_line(line);
            let done = do_row(&mut self.world, self.rows, self.file, row);
            self.note(done);
        }
    }

    /// A line that is no row.
    fn other(&mut self, line: &'a str) {
        if is_comment(line) || named(line).is_some() {
            self.said.put_line(line);
            return;
        }
        if line.starts_with('$') || line.starts_with("  $") {
            self.has_command = true;
        }
        match line.strip_prefix("  ") {
            Some(own) if self.in_table => self.table_line(line, own),
            _ => self.at_once(line),
        }
    }

    /// A line of a table.
    fn table_line(&mut self, line: &str, own: &'a str) {
        self.said.put_line(line);
        if self.has_rows {
            self.note(Err(LineError::Unread));
        }
        if self.table.push(own).is_err() {
            self.said.lack();
        }
    }

    /// Begins a table, or does a line; both end a table before it.
    fn at_once(&mut self, line: &'a str) {
        self.end_table();
        self.said.put_line(line);
        if line == "table" {
            self.in_table = true;
            self.has_rows = false;
            self.table.clear();
            return;
        }
        let done = do_line(&mut self.world, line, &mut self.said);
        self.note(done);
        let (rows, file) = rows_after(line);
        self.rows = rows;
        self.file = file;
    }

    /// Ends a table, which has to have rows.
    fn end_table(&mut self) {
        if self.in_table && !self.has_rows {
            self.note(Err(LineError::Unread));
        }
        self.in_table = false;
        self.rows = Rows::No;
    }

    /// What comes of the table's lines for a value. The world is as before after it.
    fn answer(&mut self, value: &str, said: &mut Said) {
        let mut world = World::new(self.alloc);
        if self.world.copy_files(&mut world).is_err() {
            said.lack();
        }
        self.is_read &= do_lines(&mut world, &self.table, value, said);
    }

    /// A row of a table, which has to have lines and to give values.
    fn table_row(&mut self, row: &str) {
        self.has_rows = true;
        if self.table.is_empty() || count_of(row) == 0 {
            self.put_row(row);
            self.note(Err(LineError::Unread));
        } else if let Some((first, last)) = range_of(row) {
            self.range_row(first, last);
        } else {
            self.value_row(row);
        }
    }

    /// A row for numbers: one for each group of neighbours for which the same came.
    fn range_row(&mut self, first: u64, last: u64) {
        let mut group = Group::new(self.alloc);
        let mut value = Said::new(self.alloc);
        let mut plain = Said::new(self.alloc);
        let mut empty = Said::new(self.alloc);
        for number in first..=last {
            value.clear();
            value.put_item(number);
            plain.clear();
            self.answer(value.as_str(), &mut plain);
            empty.clear();
            put_emptied(&mut empty, plain.as_str(), value.as_str(), self.alloc);
            if !group.takes(number, plain.as_str(), empty.as_str()) {
                group.put(&mut self.said);
                group.begin(number, plain.as_str(), empty.as_str());
            }
        }
        group.put(&mut self.said);
    }

    /// A row for a value, or for all that its ranges give: one where the same came of all.
    fn value_row(&mut self, row: &str) {
        let mut value = Said::new(self.alloc);
        let mut answer = Said::new(self.alloc);
        let mut common = Said::new(self.alloc);
        let mut rows = Said::new(self.alloc);
        let mut is_common = true;
        for place in 0..count_of(row) {
            value.clear();
            put_value(&mut value, row, place);
            answer.clear();
            self.answer(value.as_str(), &mut answer);
            rows.put("| ");
            rows.put_line(value.as_str());
            rows.put(answer.as_str());
            if place == 0 {
                common.put(answer.as_str());
            }
            is_common &= common.as_str() == answer.as_str();
        }
        if is_common {
            self.put_row(row);
            self.said.put(common.as_str());
        } else {
            self.said.put(rows.as_str());
        }
    }

    fn put_row(&mut self, row: &str) {
        self.said.put("| ");
        self.said.put_line(row);
    }
}
