//! The commands that a walk stands at, and for each which command wrote what it may read.
//!
//! Each command has a slot, which stays while others are put in or left out. The first slots stand
//! for no command: what is not known, C0 and the sources. One more is the end's.

use crate::change::{Change, Cmd, NONE};
use crate::names::{Names, SOURCE_SLOT, UNKNOWN_SLOT};
use faults::{NoMemory, keep};
use std::alloc::Global;

/// How many commands more than at first there is room for.
const ROOM: usize = 40;

/// The most commands.
pub const MOST_COMMANDS: usize = 16_000;

/// For each cell what wrote it last: twice the slot, and one more where the cell has the
/// complement.
pub type Writers = [u16; 128];

/// A command, and what follows from those after it.
#[derive(Clone, Copy)]
pub struct Step {
    pub cmd: Cmd,
    /// The cells that it reads, and those that it writes.
    pub reads: u128,
    pub writes: u128,
    /// Before it: the cells that are still read, and the results that are not written any more.
    pub live: u128,
    pub last: u128,
}

pub struct Body {
    /// The slots in order, that of the end last.
    order: Vec<u16>,
    steps: Vec<Step>,
    /// Before each slot's command, for each cell.
    writers: Vec<u16>,
    cells: usize,
    free: Vec<u16>,
    results: u128,
    end: u16,
}

impl Drop for Body {
    fn drop(self) {
        let Body {
            order: _,
            steps: _,
            writers: _,
            cells: _,
            free: _,
            results: _,
            end: _,
        } = self;
    }
}

/// Takes what a command writes into the writers.
fn write(writers: &mut Writers, names: &Names, name: u8, slot: u16) {
    let raised = names.raised(name);
    if raised.count != 0 {
        for wire in raised.wires {
            let cell = usize::from(wire / 2);
            writers[cell] = slot.wrapping_mul(2) | u16::from(wire % 2);
        }
    }
}

impl Body {
    /// No commands, with room for so many.
    fn with_room(names: &Names, commands: usize, alloc: Global) -> Result<Body, NoMemory> {
        let results = names.result_cells();
        let blank = Step {
            cmd: Cmd { x: 0, y: NONE },
            reads: 0,
            writes: 0,
            live: results,
            last: results,
        };
        let end = SOURCE_SLOT + u16::from(names.sources());
        let slots = usize::from(end) + 1 + usize::min(commands, MOST_COMMANDS) + ROOM;
        let cells = usize::from(names.cell_count());
        let mut body = Body {
            order: Vec::new(alloc),
            steps: vec![in alloc; blank; slots]?,
            writers: vec![in alloc; UNKNOWN_SLOT; slots * cells]?,
            cells,
            free: Vec::new(alloc),
            results,
            end,
        };
        for back in 0..slots {
            let slot = slots - 1 - back;
            if slot > usize::from(end) {
                keep(&mut body.free, slot as u16)?;
            }
        }
        keep(&mut body.order, end)?;
        Ok(body)
    }

    /// These commands.
    pub fn new(names: &Names, cmds: &[Cmd], alloc: Global) -> Result<Body, NoMemory> {
        let mut body = Body::with_room(names, cmds.len(), alloc)?;
        for (k, cmd) in cmds.iter().enumerate() {
            let slot = body.take_slot(names, *cmd);
            body.put_at(k, slot)?;
        }
        let mut writers = [UNKNOWN_SLOT * 2; 128];
        body.enter(names, 0, cmds.len(), &mut writers);
        body.carry(cmds.len(), &writers, u128::MAX);
        body.look_back(cmds.len(), cmds.len());
        Ok(body)
    }

    /// How many slots there are.
    pub fn slots(&self) -> usize {
        self.steps.len()
    }

    /// How many commands there are.
    #[inline(always)]
    pub fn len(&self) -> usize {
        self.order.len().saturating_sub(1)
    }

    /// Whether there is room for one more command.
    pub fn has_room(&self) -> bool {
        !self.free.is_empty()
    }

    /// The slot at a place.
    #[inline(always)]
    pub fn slot(&self, at: usize) -> u16 {
        match self.order.get(at) {
            Some(slot) => *slot,
            None => self.end,
        }
    }

    #[inline(always)]
    pub fn step(&self, slot: u16) -> Option<&Step> {
        self.steps.get(usize::from(slot))
    }

    /// The command at a place.
    #[inline(always)]
    pub fn cmd(&self, at: usize) -> Cmd {
        match self.step(self.slot(at)) {
            Some(step) => step.cmd,
            None => Cmd { x: 0, y: NONE },
        }
    }

    /// Where the writers before a slot's command begin.
    #[inline(always)]
    pub fn base(&self, slot: u16) -> usize {
        usize::from(slot).wrapping_mul(self.cells)
    }

    /// What wrote a cell last.
    #[inline(always)]
    pub fn writer(&self, base: usize, cell: u8) -> u16 {
        match self.writers.get(base.wrapping_add(usize::from(cell))) {
            Some(entry) => *entry,
            None => UNKNOWN_SLOT * 2,
        }
    }

    /// The slots in order, from a place on.
    #[inline(always)]
    pub fn from(&self, at: usize) -> &[u16] {
        if at <= self.order.len() {
            &self.order[at..]
        } else {
            &[]
        }
    }

    /// The cells that so many commands from a place on write.
    pub fn written(&self, at: usize, count: usize) -> u128 {
        let mut cells = 0;
        for slot in self.from(at).iter().take(count) {
            if let Some(step) = self.step(*slot) {
                cells |= step.writes;
            }
        }
        cells
    }

    /// A slot for a command, or the end's where none is free.
    fn take_slot(&mut self, names: &Names, cmd: Cmd) -> u16 {
        let slot = self.free.pop().unwrap_or(self.end);
        if slot != self.end
            && let Some(step) = self.steps.get_mut(usize::from(slot))
        {
            step.cmd = cmd;
            step.reads = names.reads(cmd);
            step.writes = names.writes(cmd);
        }
        slot
    }

    /// Puts a slot in at a place.
    fn put_at(&mut self, at: usize, slot: u16) -> Result<(), NoMemory> {
        if at <= self.order.len() {
            self.order.insert(at, slot)?;
        }
        Ok(())
    }

    /// Leaves out the slot at a place.
    fn leave_out(&mut self, at: usize) {
        if at < self.order.len() {
            let _slot = self.order.remove(at);
        }
    }

    /// Gives back the slots of so many commands from a place on.
    fn give_back(&mut self, at: usize, count: usize) -> Result<(), NoMemory> {
        for k in 0..count {
            let slot = self.slot(at.wrapping_add(k));
            if slot != self.end {
                keep(&mut self.free, slot)?;
            }
        }
        Ok(())
    }

    /// Puts the slots of the new commands in the place of the old ones.
    fn exchange(&mut self, names: &Names, change: &Change) -> Result<(), NoMemory> {
        for k in 0..change.len() {
            if let Some(cmd) = change.get(k) {
                let slot = self.take_slot(names, cmd);
                let at = change.at.wrapping_add(k);
                if k >= change.old {
                    self.put_at(at, slot)?;
                } else if let Some(place) = self.order.get_mut(at) {
                    *place = slot;
                }
            }
        }
        for _ in change.len()..change.old {
            self.leave_out(change.at.wrapping_add(change.len()));
        }
        Ok(())
    }

    /// Does the change.
    pub fn replace(&mut self, names: &Names, change: &Change) -> Result<(), NoMemory> {
        let mut writers = self.writers_at(change.at);
        let old = self.written(change.at, change.old);
        self.give_back(change.at, change.old)?;
        self.exchange(names, change)?;
        let new = self.enter(names, change.at, change.len(), &mut writers);
        let after = change.at.wrapping_add(change.len());
        self.carry(after, &writers, old | new);
        self.look_back(after, change.len());
        Ok(())
    }

    /// The writers before the command at a place.
    fn writers_at(&self, at: usize) -> Writers {
        let base = self.base(self.slot(at));
        let mut writers = [UNKNOWN_SLOT * 2; 128];
        for cell in 0..128u8 {
            if usize::from(cell) < self.cells {
                writers[usize::from(cell)] = self.writer(base, cell);
            }
        }
        writers
    }

    /// Writes the writers of a cell before a slot's command.
    #[inline(always)]
    fn set_writer(&mut self, base: usize, cell: usize, entry: u16) {
        if let Some(place) = self.writers.get_mut(base.wrapping_add(cell)) {
            *place = entry;
        }
    }

    /// Writes all writers before a slot's command.
    fn set_writers(&mut self, slot: u16, writers: &Writers) {
        let base = self.base(slot);
        for cell in 0..self.cells {
            if cell < 128 {
                self.set_writer(base, cell, writers[cell]);
            }
        }
    }

    /// Goes over so many commands from a place on, from the writers before them to those after.
    /// Returns the cells that they write.
    fn enter(&mut self, names: &Names, at: usize, count: usize, writers: &mut Writers) -> u128 {
        let mut cells = 0;
        for k in 0..count {
            let slot = self.slot(at.wrapping_add(k));
            self.set_writers(slot, writers);
            if let Some(step) = self.step(slot) {
                let cmd = step.cmd;
                cells |= step.writes;
                if names.raised(cmd.x).count == 3 {
                    write(writers, names, cmd.x, slot);
                }
                write(writers, names, cmd.y, slot);
            }
        }
        cells
    }

    /// Writes the writers of these cells before one slot's command.
    fn set_some(&mut self, slot: u16, writers: &Writers, cells: u128) {
        let base = self.base(slot);
        let mut left = cells;
        for _ in 0..128 {
            if left == 0 {
                break;
            }
            let cell = left.trailing_zeros() as usize % 128;
            left &= left.wrapping_sub(1);
            if cell < self.cells {
                self.set_writer(base, cell, writers[cell]);
            }
        }
    }

    /// Carries the writers of these cells on from a place, each until it is written.
    fn carry(&mut self, at: usize, writers: &Writers, cells: u128) {
        let mut left = cells;
        for place in at..self.order.len() {
            if left == 0 {
                break;
            }
            let slot = self.slot(place);
            self.set_some(slot, writers, left);
            if let Some(step) = self.step(slot) {
                left &= !step.writes;
            }
        }
    }

    /// Finds anew what is live before the commands that stand before a place: before so many of
    /// them in any case, and before the others until nothing changes.
    fn look_back(&mut self, after: usize, count: usize) {
        let mut live = self.results;
        let mut last = self.results;
        if let Some(step) = self.step(self.slot(after)) {
            live = step.live;
            last = step.last;
        }
        for back in 0..after {
            let slot = self.slot(after - 1 - back);
            let Some(step) = self.steps.get_mut(usize::from(slot)) else {
                break;
            };
            live = live & !step.writes | step.reads;
            last &= !step.writes;
            if back >= count && step.live == live && step.last == last {
                break;
            }
            step.live = live;
            step.last = last;
        }
    }

    /// The commands in order.
    pub fn cmds(&self, alloc: Global) -> Result<Vec<Cmd>, NoMemory> {
        let mut cmds = Vec::new(alloc);
        for at in 0..self.len() {
            keep(&mut cmds, self.cmd(at))?;
        }
        Ok(cmds)
    }
}
