//! What a recorder keeps.

ghost use Rattle.std.specs.Prelude.{◌≡◌, ◌+◌, ◌*◌, ◌<◌, ◌≤◌, ◌^◌, ◌++◌, length, true, false, take};
ghost use Rattle.std.specs.Prelude.{drop, IfOk, vec_len, vec_capacity};
ghost use Rattle.std.specs.Int.{to_le_bytes, w32};
ghost use Rattle.bit_rows.specs.Bits.{bits_of_words};
ghost use Rattle.object_alloc.specs.Bytes.{bytes_of_bits};
ghost use Rattle.trace_model.specs.Spelling.{Commands, Writes, event_head_bytes, trace_head};
ghost use Rattle.cmd_trace.specs.Tape.{NotesView, file_on, kept_in, kept_on, marked};
ghost use Rattle.cmd_trace.specs.declared.sizes.TheConstants.{HEAD_BYTES_MAX, TRACE_BYTES_MAX};

use crate::events::{command_bytes, write_bytes};
use crate::head::put_head;
use crate::sizes::{EVENT_BYTES, HEAD_BYTES_MAX, TRACE_BYTES_MAX};
use dram_model::{Command, Counters, Geometry};
use faults::NoMemory;
use object_alloc::{HEAD_BYTES, RECORD_BYTES, Table, bytes_of_words};
use std::alloc::Global;
use std::marker::Model;

/// Appends bytes for which there is room.
fn append(out: &mut Vec<u8>, bytes: &[u8])
    requires { vec_len out.old + length bytes.now ≤ vec_capacity out.old }
    ensures items { out.new.items ≡ out.old.items ++ bytes.now }
    ensures room { vec_capacity out.old ≤ vec_capacity out.new }
{
    match out.extend_from_slice(bytes) {
        Ok(()) => {}
        Err(_) => unreachable!(),
    }
}

/// The events since the mark, after the room for the head of a file.
#[derive(Drop)]
pub(crate) struct Notes {
    known: bool,
    count: u32,
    since: Counters,
    start: usize,
    bytes: Vec<u8>,
}

impl Model for Notes {
    ghost use Rattle.std.specs.Prelude.{◌≤◌, length, vec_capacity};
    ghost use Rattle.cmd_trace.specs.Tape.{NotesView};
    ghost use Rattle.cmd_trace.specs.declared.sizes.TheConstants.{HEAD_BYTES_MAX, TRACE_BYTES_MAX};

    ghost Value = { NotesView };

    ghost view = { λ n. record {
      known = n.known;
      count = n.count;
      since = n.since;
      start = n.start;
      bytes = n.bytes.items;
    } };

    ghost invariant = { λ n. (n.start ≤ HEAD_BYTES_MAX)
        × (HEAD_BYTES_MAX ≤ length n.bytes.items)
        × (TRACE_BYTES_MAX ≤ vec_capacity n.bytes) };
}

impl Notes {
    /// No log is known yet. It takes all the memory that a recorder ever needs.
    pub(crate) fn new(alloc: Global) -> Result<Notes, NoMemory>
        ensures { IfOk result (λ tape. tape.known ≡ false) }
    {
        let mut bytes = Vec::with_capacity(alloc, TRACE_BYTES_MAX)?;
        bytes.resize(HEAD_BYTES_MAX, 0)?;
        Ok(Notes {
            known: false,
            count: 0,
            since: Counters {
                aap: 0,
                ap: 0,
                writes: 0,
                reads: 0,
            },
            start: HEAD_BYTES_MAX,
            bytes,
        })
    }

    /// The log is not known from here on.
    pub(crate) fn untell(&mut self)
        ensures { self.new ≡ record self.old { known = false } }
    {
        self.known = false;
    }

    /// The log is known from here on, where the counters stand at these.
    pub(crate) fn mark(&mut self, since: Counters)
        ensures tape { self.new ≡ marked since self.old }
        ensures cut { length self.new.bytes ≡ HEAD_BYTES_MAX }
    {
        self.bytes.truncate(HEAD_BYTES_MAX);
        self.known = true;
        self.count = 0;
        self.since = since;
    }

    /// Keeps a row command, where it and all before it fit.
    pub(crate) fn keep_command(&mut self, bank: u16, command: Command)
        requires { self.old.known ≡ true → (bank < 256) × (self.old.count < 2 ^ 31) }
        ensures { self.new ≡ kept_on self.old (event_head_bytes (Commands bank command)) }
    {
        if !self.known {
            return;
        }
        if self.bytes.len() + EVENT_BYTES > TRACE_BYTES_MAX {
            self.known = false;
            return;
        }
        append(&mut self.bytes, &command_bytes(bank as u8, command));
        self.count += 1;
    }

    /// Keeps a row that the host wrote, where it and all before it fit.
    pub(crate) fn keep_write(&mut self, bank: u16, row: u16, words: &[u64])
        requires { self.old.known ≡ true → (bank < 256) × (self.old.count < 2 ^ 31) }
        ensures { self.new ≡ kept_on self.old (event_head_bytes (Writes bank row)
            ++ bytes_of_bits (8 * length words.now) (bits_of_words words.now)) }
    {
        if !self.known {
            return;
        }
        if self.bytes.len() + (EVENT_BYTES + 8 * words.len()) > TRACE_BYTES_MAX {
            self.known = false;
            return;
        }
        append(&mut self.bytes, &write_bytes(bank as u8, row));
        bytes_of_words(words, &mut self.bytes);
        self.count += 1;
    }

    /// Whether all events since the mark were kept.
    pub(crate) fn is_known(&self) -> bool
        ensures { result ≡ self.now.known }
    {
        self.known
    }

    /// The counters at the mark.
    pub(crate) fn since(&self) -> Counters
        ensures { result ≡ self.now.since }
    {
        self.since
    }

    /// The events that were kept.
    pub(crate) fn kept(&self) -> &[u8]
        ensures { result.now ≡ kept_in self.now }
    {
        &self.bytes[HEAD_BYTES_MAX..]
    }
    /// Spells the file of what was kept: the head in front of the events.
    pub(crate) fn spell(&mut self, g: Geometry, table: &Table)
        ensures file { file_on self.new ≡ (trace_head g table.now.pairs
            ++ to_le_bytes w32 self.old.count) ++ kept_in self.old }
        ensures kept { kept_in self.new ≡ kept_in self.old }
        ensures known { self.new.known ≡ self.old.known }
        ensures count { self.new.count ≡ self.old.count }
        ensures len { length self.new.bytes ≡ length self.old.bytes }
        ensures since { self.new.since ≡ self.old.since }
    {
        let size = HEAD_BYTES + RECORD_BYTES * usize::from(table.len()) + 4;
        self.start = HEAD_BYTES_MAX - size;
        put_head(self.bytes.as_mut_slice(), self.start, g, table, self.count);
    }

    /// The file that was spelled last.
    pub(crate) fn file(&self) -> &[u8]
        ensures { result.now ≡ file_on self.now }
    {
        &self.bytes[self.start..]
    }
}
