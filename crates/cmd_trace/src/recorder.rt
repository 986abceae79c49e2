//! A chip whose row commands and writes are recorded.

ghost use Rattle.std.specs.Prelude.{◌≡◌, ◌+◌, ◌*◌, ◌<◌, ◌≤◌, ◌^◌, [], length, true, false, Some};
ghost use Rattle.std.specs.Prelude.{◌∷◌, None, IfOk, IfErr, IfSome, OnOk, OnErr, is_some};
ghost use Rattle.bit_rows.specs.Bits.{bits_of_words};
ghost use Rattle.faults.specs.Counts.{Rose};
ghost use Rattle.dram_model.specs.declared.address.Command.{Command};
ghost use Rattle.dram_model.specs.Chip.{Event, Grew, row_in};
ghost use Rattle.dram_model.specs.Column.{is_legal};
ghost use Rattle.dram_model.specs.Geometry.{is_geometry};
ghost use Rattle.dram_model.specs.View.{HasBegun, Kept, Did, DidRead, FailedIn, Began, NotBegun};
ghost use Rattle.trace_model.specs.Spelling.{events_bytes, trace_bytes};
ghost use Rattle.cmd_trace.specs.Tape.{empty_log, file_on, log_on, recorded, size_since};

use crate::notes::Notes;
use dram_model::{Addr, BeginNo, ChipFault, Command, Counters, Dram, Geometry};
use faults::NoMemory;
use object_alloc::Table;
use std::alloc::Global;

/// The memory of a recorder: room for all events and for the head of a file.
#[derive(Drop)]
pub struct Room {
    notes: Notes,
}

impl Room {
    /// Takes all the memory that a recorder ever needs.
    pub fn new(alloc: Global) -> Result<Room, NoMemory>
        ensures no_event { IfOk result (λ room. room.notes.known ≡ false) }
    {
        let notes = Notes::new(alloc)?;
        Ok(Room { notes })
    }
}

/// A chip over another, which keeps what happens on it: from the mark on each row command and each
/// row that the host wrote, in order, while all fit in 67,108,864 bytes. It tells them as its log.
/// Its memory is lent to it, so that what it did to the chip is known when it is let go.
#[derive(Drop)]
pub struct Recorder<'a, D: Dram> {
    dram: &'a mut D,
    notes: &'a mut Notes,
}

impl<'a, D: Dram> Recorder<'a, D> {
    /// A recorder that tells nothing yet.
    pub fn new(dram: &'a mut D, room: &'a mut Room) -> Recorder<'a, D>
        ensures chip { result.dram.now ≡ dram.entry.now }
        ensures same_reference { result.dram.ghost_name ≡ dram.entry.ghost_name }
        ensures no_event { result.notes.now.known ≡ false }
    {
        let notes = &mut room.notes;
        notes.untell();
        Recorder { dram, notes }
    }

    /// Tells an empty log from here on. The chip has begun.
    pub fn mark(&mut self)
        requires { HasBegun (recorded (D.view self.old.dram.now) self.old.notes.now) }
        ensures same_reference { self.new.dram.ghost_name ≡ self.old.dram.ghost_name }
        ensures chip { self.new.dram.now ≡ self.old.dram.now }
        ensures shown { recorded (D.view self.new.dram.now) self.new.notes.now
            ≡ record (D.view self.old.dram.now) { log = Some empty_log } }
        ensures since { self.new.notes.now.since ≡ (D.view self.old.dram.now).counters }
    {
        let since = self.dram.tally();
        self.notes.mark(since);
    }

    /// Whether the log is known: whether each event since the mark was kept.
    pub fn is_known(&self) -> bool
        ensures { result ≡ is_some (log_on (D.view self.now.dram.now).geometry self.now.notes.now) }
    {
        self.notes.is_known()
    }

    /// The events since the mark, as they are spelled in a trace file, where the log is known.
    pub fn events(&self) -> &[u8]
        requires { HasBegun (recorded (D.view self.now.dram.now) self.now.notes.now) }
        ensures { IfSome (log_on (D.view self.now.dram.now).geometry self.now.notes.now) (λ events.
            result.now ≡ events_bytes (D.view self.now.dram.now).geometry events) }
    {
        self.notes.kept()
    }

    /// Spells the trace file of the log so far, with these objects. The log goes on. It takes no
    /// memory.
    pub fn spell_file(&mut self, table: &Table)
        requires begun { HasBegun (recorded (D.view self.old.dram.now) self.old.notes.now) }
        requires known { is_some (log_on (D.view self.old.dram.now).geometry self.old.notes.now)
            ≡ true }
        ensures same_reference { self.new.dram.ghost_name ≡ self.old.dram.ghost_name }
        ensures chip { self.new.dram.now ≡ self.old.dram.now }
        ensures shown { recorded (D.view self.new.dram.now) self.new.notes.now
            ≡ recorded (D.view self.old.dram.now) self.old.notes.now }
        ensures file { IfSome (log_on (D.view self.old.dram.now).geometry self.old.notes.now)
            (λ events. file_on self.new.notes.now
            ≡ trace_bytes (D.view self.old.dram.now).geometry table.now.pairs events) }
        ensures since { self.new.notes.now.since ≡ self.old.notes.now.since }
    {
        let g = self.dram.geometry();
        self.notes.spell(g, table);
    }

    /// The trace file that was spelled last.
    pub fn trace_file(&self) -> &[u8]
        ensures { result.now ≡ file_on self.now.notes.now }
    {
        self.notes.file()
    }

    /// How many bytes all events since the mark take, by what the counters rose.
    pub fn size(&self) -> u64
        requires { HasBegun (recorded (D.view self.now.dram.now) self.now.notes.now) }
        ensures { result ≡ size_since (D.view self.now.dram.now).geometry.words
            self.now.notes.now.since (D.view self.now.dram.now).counters }
    {
        let words = self.dram.geometry().words;
        size_of(words, self.notes.since(), self.dram.tally())
    }
}

/// How many bytes events take by which the counters rose.
fn size_of(words: u16, since: Counters, now: Counters) -> u64
    ensures { result ≡ size_since words since now }
{
    let writes = now.writes.saturating_sub(since.writes);
    let aap = now.aap.saturating_sub(since.aap);
    let ap = now.ap.saturating_sub(since.ap);
    let heads = u128::from(aap) + u128::from(ap) + u128::from(writes);
    let rows = u128::from(words) * u128::from(writes);
    let size = 8 * heads + 8 * rows;
    if size > u128::from(u64::MAX) {
        u64::MAX
    } else {
        size as u64
    }
}

// Each call keeps the clauses of `Dram`, and says besides where the mark is: a `begin` that is Ok
// does what `mark` does, and the row calls leave the counters of the mark as they were.
impl<'a, D: Dram> Dram for Recorder<'a, D> {
    ghost use Rattle.std.specs.Prelude.{◌∷◌};
    ghost use Rattle.cmd_trace.specs.Tape.{recorded};
    ghost use Rattle.cmd_trace.specs.Widths.{has_begun_below};

    ghost view = { λ s. recorded (D.view s.dram.now) s.notes.now };

    ghost borrow = { λ s. s.dram.ghost_name ∷ D.borrow s.dram.now };

    ghost width = { λ s h. D.width s.dram.now (has_begun_below (D.view s.dram.now) s.notes.now h) };

    ghost shape = { λ s h. D.shape s.dram.now (has_begun_below (D.view s.dram.now) s.notes.now h) };

    fn begin(&mut self, g: Geometry) -> Result<(), BeginNo>
        requires { is_geometry g ≡ true }
        ensures shown { OnOk result ((⟦<Self as Dram>⟧.view self.new).log ≡ Some empty_log) }
        ensures since { OnOk result (self.new.notes.now.since
            ≡ (D.view self.new.dram.now).counters) }
        ensures borrow { ⟦<Self as Dram>⟧.borrow self.new ≡ ⟦<Self as Dram>⟧.borrow self.old }
        ensures faults { (⟦<Self as Dram>⟧.view self.old).faults
            ≤ (⟦<Self as Dram>⟧.view self.new).faults }
        ensures began { OnOk result (Began g (⟦<Self as Dram>⟧.view self.new)) }
        ensures unfailed { OnOk result ((⟦<Self as Dram>⟧.view self.new).faults
            ≡ (⟦<Self as Dram>⟧.view self.old).faults) }
        ensures failed { IfErr result (λ e. e ≡ BeginNo.Failed
            → Rose (⟦<Self as Dram>⟧.view self.old).faults
            (⟦<Self as Dram>⟧.view self.new).faults) }
        ensures err { OnErr result (NotBegun (⟦<Self as Dram>⟧.view self.new)) }
    {
        self.notes.untell();
        self.dram.begin(g)?;
        self.mark();
        Ok(())
    }

    fn aap(&mut self, bank: u16, x: Addr, y: Addr) -> Result<(), ChipFault>
        requires begun { HasBegun (⟦<Self as Dram>⟧.view self.old) }
        requires bank { bank < (⟦<Self as Dram>⟧.view self.old).geometry.banks }
        requires legal { is_legal (⟦<Self as Dram>⟧.view self.old).geometry.rows
            (Command.Aap x y) ≡ true }
        requires room { (⟦<Self as Dram>⟧.view self.old).counters.aap < 2 ^ 63 }
        ensures since { self.new.notes.now.since ≡ self.old.notes.now.since }
        ensures borrow { ⟦<Self as Dram>⟧.borrow self.new ≡ ⟦<Self as Dram>⟧.borrow self.old }
        ensures kept { Kept (⟦<Self as Dram>⟧.view self.old) (⟦<Self as Dram>⟧.view self.new) }
        ensures did { OnOk result (Did (Event.Row bank (Command.Aap x y) ∷ [])
            (⟦<Self as Dram>⟧.view self.old) (⟦<Self as Dram>⟧.view self.new)) }
        ensures failed { OnErr result (FailedIn bank (⟦<Self as Dram>⟧.view self.old)
            (⟦<Self as Dram>⟧.view self.new)) }
        ensures no_event { OnErr result (Grew (⟦<Self as Dram>⟧.view self.old).log
            (⟦<Self as Dram>⟧.view self.new).log []) }
    {
        self.dram.aap(bank, x, y)?;
        self.notes.keep_command(bank, Command::Aap(x, y));
        Ok(())
    }

    fn ap(&mut self, bank: u16, x: Addr) -> Result<(), ChipFault>
        requires begun { HasBegun (⟦<Self as Dram>⟧.view self.old) }
        requires bank { bank < (⟦<Self as Dram>⟧.view self.old).geometry.banks }
        requires legal { is_legal (⟦<Self as Dram>⟧.view self.old).geometry.rows
            (Command.Ap x) ≡ true }
        requires room { (⟦<Self as Dram>⟧.view self.old).counters.ap < 2 ^ 63 }
        ensures since { self.new.notes.now.since ≡ self.old.notes.now.since }
        ensures borrow { ⟦<Self as Dram>⟧.borrow self.new ≡ ⟦<Self as Dram>⟧.borrow self.old }
        ensures kept { Kept (⟦<Self as Dram>⟧.view self.old) (⟦<Self as Dram>⟧.view self.new) }
        ensures did { OnOk result (Did (Event.Row bank (Command.Ap x) ∷ [])
            (⟦<Self as Dram>⟧.view self.old) (⟦<Self as Dram>⟧.view self.new)) }
        ensures failed { OnErr result (FailedIn bank (⟦<Self as Dram>⟧.view self.old)
            (⟦<Self as Dram>⟧.view self.new)) }
        ensures no_event { OnErr result (Grew (⟦<Self as Dram>⟧.view self.old).log
            (⟦<Self as Dram>⟧.view self.new).log []) }
    {
        self.dram.ap(bank, x)?;
        self.notes.keep_command(bank, Command::Ap(x));
        Ok(())
    }

    fn write_row(&mut self, bank: u16, row: u16, words: &[u64]) -> Result<(), ChipFault>
        requires begun { HasBegun (⟦<Self as Dram>⟧.view self.old) }
        requires bank { bank < (⟦<Self as Dram>⟧.view self.old).geometry.banks }
        requires row { row < (⟦<Self as Dram>⟧.view self.old).geometry.rows }
        requires words { length words.now ≡ (⟦<Self as Dram>⟧.view self.old).geometry.words }
        requires room { (⟦<Self as Dram>⟧.view self.old).counters.writes < 2 ^ 63 }
        ensures since { self.new.notes.now.since ≡ self.old.notes.now.since }
        ensures borrow { ⟦<Self as Dram>⟧.borrow self.new ≡ ⟦<Self as Dram>⟧.borrow self.old }
        ensures kept { Kept (⟦<Self as Dram>⟧.view self.old) (⟦<Self as Dram>⟧.view self.new) }
        ensures did { OnOk result (Did (Event.Write bank row (bits_of_words words.now) ∷ [])
            (⟦<Self as Dram>⟧.view self.old) (⟦<Self as Dram>⟧.view self.new)) }
        ensures failed { OnErr result (FailedIn bank (⟦<Self as Dram>⟧.view self.old)
            (⟦<Self as Dram>⟧.view self.new)) }
        ensures no_event { OnErr result (Grew (⟦<Self as Dram>⟧.view self.old).log
            (⟦<Self as Dram>⟧.view self.new).log []) }
    {
        self.dram.write_row(bank, row, words)?;
        self.notes.keep_write(bank, row, words);
        Ok(())
    }

    fn read_row(&mut self, bank: u16, row: u16, out: &mut [u64]) -> Result<(), ChipFault>
        requires begun { HasBegun (⟦<Self as Dram>⟧.view self.old) }
        requires bank { bank < (⟦<Self as Dram>⟧.view self.old).geometry.banks }
        requires row { row < (⟦<Self as Dram>⟧.view self.old).geometry.rows }
        requires words { length out.old ≡ (⟦<Self as Dram>⟧.view self.old).geometry.words }
        requires room { (⟦<Self as Dram>⟧.view self.old).counters.reads < 2 ^ 63 }
        ensures since { self.new.notes.now.since ≡ self.old.notes.now.since }
        ensures borrow { ⟦<Self as Dram>⟧.borrow self.new ≡ ⟦<Self as Dram>⟧.borrow self.old }
        ensures kept { Kept (⟦<Self as Dram>⟧.view self.old) (⟦<Self as Dram>⟧.view self.new) }
        ensures read { OnOk result (bits_of_words out.new
            ≡ row_in row ((⟦<Self as Dram>⟧.view self.old).banks bank)) }
        ensures did { OnOk result (DidRead 1
            (⟦<Self as Dram>⟧.view self.old) (⟦<Self as Dram>⟧.view self.new)) }
        ensures failed { OnErr result (FailedIn bank (⟦<Self as Dram>⟧.view self.old)
            (⟦<Self as Dram>⟧.view self.new)) }
        ensures no_event { OnErr result (Grew (⟦<Self as Dram>⟧.view self.old).log
            (⟦<Self as Dram>⟧.view self.new).log []) }
    {
        self.dram.read_row(bank, row, out)
    }

    fn geometry(&self) -> Geometry {
        self.dram.geometry()
    }

    fn tally(&self) -> Counters {
        self.dram.tally()
    }
}
