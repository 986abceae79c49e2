//! What the commands sense under 64 assignments, and whether a change leaves the results.

use crate::body::Body;
use crate::change::{Change, Cmd, MOST_NEW};
use crate::names::{Names, Raised};
use crate::value::{UNKNOWN, Value};
use faults::NoMemory;
use std::alloc::Global;

/// How many commands after a change are followed. A right change is rarely felt further.
const MOST_FOLLOWED: usize = 200;

/// What a command senses after a change.
#[derive(Clone, Copy)]
struct Sensed {
    slot: u16,
    value: Value,
}

/// The values of 64 assignments.
pub struct Block {
    /// What each slot's command senses.
    values: Vec<Value>,
    /// What the cells hold in which a change differs.
    cells: [Value; 128],
    /// What the new commands of a change sense, and the later ones that sense something else.
    new: [Value; MOST_NEW],
    later: Vec<Sensed>,
    count: usize,
}

impl Drop for Block {
    fn drop(self) {
        let Block {
            values: _,
            cells: _,
            new: _,
            later: _,
            count: _,
        } = self;
    }
}

/// Where a change takes place, for all blocks.
#[derive(Clone, Copy)]
pub struct Window {
    /// Where the writers before its commands begin, and those after.
    before: usize,
    after: usize,
    /// The cells that the old or the new commands write, and that are read later.
    touched: u128,
    /// The place after the old commands.
    next: usize,
}

impl Window {
    pub fn of(body: &Body, names: &Names, change: &Change) -> Window {
        let next = change.at.wrapping_add(change.old);
        let mut written = body.written(change.at, change.old);
        for k in 0..change.len() {
            if let Some(cmd) = change.get(k) {
                written |= names.writes(cmd);
            }
        }
        let slot = body.slot(next);
        let live = match body.step(slot) {
            Some(step) => step.live,
            None => 0,
        };
        Window {
            before: body.base(body.slot(change.at)),
            after: body.base(slot),
            touched: written & live,
            next,
        }
    }
}

/// Whether a cell is in the set.
#[inline(always)]
fn has(cells: u128, cell: u8) -> bool {
    cells >> (cell % 128) & 1 == 1
}

impl Block {
    /// The values of these commands, from those that stand for no command.
    pub fn new(
        body: &Body,
        names: &Names,
        fixed: &[Value],
        alloc: Global,
    ) -> Result<Block, NoMemory> {
        let slots = body.slots();
        let none = Sensed {
            slot: 0,
            value: UNKNOWN,
        };
        let mut block = Block {
            values: vec![in alloc; UNKNOWN; slots]?,
            cells: [UNKNOWN; 128],
            new: [UNKNOWN; MOST_NEW],
            later: vec![in alloc; none; slots]?,
            count: 0,
        };
        block.fill(body, names, fixed);
        Ok(block)
    }

    /// Finds all values anew.
    pub fn fill(&mut self, body: &Body, names: &Names, fixed: &[Value]) {
        for (slot, value) in fixed.iter().enumerate() {
            self.set(slot, *value);
        }
        for slot in body.from(0) {
            if let Some(step) = body.step(*slot) {
                let raised = names.raised(step.cmd.x);
                let value = self.sense(body, body.base(*slot), 0, raised);
                self.set(usize::from(*slot), value);
            }
        }
    }

    #[inline(always)]
    fn set(&mut self, slot: usize, value: Value) {
        if let Some(place) = self.values.get_mut(slot) {
            *place = value;
        }
    }

    /// What an entry of the writers stands for.
    #[inline(always)]
    fn value(&self, entry: u16) -> Value {
        match self.values.get(usize::from(entry / 2)) {
            Some(value) => value.flipped(entry % 2 == 1),
            None => UNKNOWN,
        }
    }

    /// What a cell gives through its wire, where these cells differ.
    #[inline(always)]
    fn read(&self, body: &Body, base: usize, differ: u128, wire: u8) -> Value {
        let cell = wire / 2;
        if has(differ, cell) {
            self.cells[usize::from(cell)].flipped(wire % 2 == 1)
        } else {
            self.value(body.writer(base, cell) ^ u16::from(wire % 2))
        }
    }

    /// What an address senses, where these cells differ.
    #[inline(always)]
    fn sense(&self, body: &Body, base: usize, differ: u128, raised: &Raised) -> Value {
        let [a, b, c] = raised.wires;
        match raised.count {
            0 => self.value(raised.fixed),
            1 => self.read(body, base, differ, a),
            _ => Value::majority(
                self.read(body, base, differ, a),
                self.read(body, base, differ, b),
                self.read(body, base, differ, c),
            ),
        }
    }

    /// The cells that an address raises take a value.
    #[inline(always)]
    fn put(&mut self, raised: &Raised, value: Value) {
        let [a, b, c] = raised.wires;
        if raised.count != 0 {
            self.cells[usize::from(a / 2)] = value.flipped(a % 2 == 1);
            self.cells[usize::from(b / 2)] = value.flipped(b % 2 == 1);
            self.cells[usize::from(c / 2)] = value.flipped(c % 2 == 1);
        }
    }

    /// The cells that a command writes take a value.
    #[inline(always)]
    fn settle(&mut self, names: &Names, cmd: Cmd, value: Value) {
        let first = names.raised(cmd.x);
        if first.count == 3 {
            self.put(first, value);
        }
        self.put(names.raised(cmd.y), value);
    }

    /// Does the new commands. Returns the cells that they write.
    #[inline(always)]
    fn make(&mut self, body: &Body, names: &Names, change: &Change, window: &Window) -> u128 {
        let mut written = 0u128;
        for k in 0..MOST_NEW {
            let Some(cmd) = change.get(k) else {
                break;
            };
            let value = self.sense(body, window.before, written, names.raised(cmd.x));
            self.new[k] = value;
            self.settle(names, cmd, value);
            written |= names.writes(cmd);
        }
        written
    }

    /// The cells that differ after the new commands, of those that are read later.
    #[inline(always)]
    fn compare(&mut self, body: &Body, window: &Window, written: u128) -> u128 {
        let mut differ = 0u128;
        let mut left = window.touched;
        for _ in 0..128 {
            if left == 0 {
                break;
            }
            let cell = (left.trailing_zeros() % 128) as u8;
            left &= left.wrapping_sub(1);
            let old = self.value(body.writer(window.after, cell));
            let new = if has(written, cell) {
                self.cells[usize::from(cell % 128)]
            } else {
                self.value(body.writer(window.before, cell))
            };
            self.cells[usize::from(cell % 128)] = new;
            if new != old {
                differ |= 1 << (cell % 128);
            }
        }
        differ
    }

    /// Goes on after the new commands until nothing differs that is read later, or a result does
    /// that is not written any more. Returns whether the results are as they were, if that is
    /// found soon enough.
    #[inline(always)]
    fn follow(&mut self, body: &Body, names: &Names, next: usize, differ: u128) -> bool {
        let mut differ = differ;
        self.count = 0;
        for slot in body.from(next).iter().take(MOST_FOLLOWED) {
            let Some(step) = body.step(*slot) else {
                return false;
            };
            differ &= step.live;
            if differ == 0 {
                return true;
            }
            if differ & step.last != 0 {
                return false;
            }
            differ = if differ & step.reads == 0 {
                differ & !step.writes
            } else {
                let value = self.sense(body, body.base(*slot), differ, names.raised(step.cmd.x));
                self.differ_after(names, *slot, step.cmd, value, (differ, step.writes))
            };
        }
        false
    }

    /// The cells that differ after a command that senses this value, from those that differ before
    /// and those that it writes.
    #[inline(always)]
    fn differ_after(
        &mut self,
        names: &Names,
        slot: u16,
        cmd: Cmd,
        value: Value,
        (before, writes): (u128, u128),
    ) -> u128 {
        if self.value(slot.wrapping_mul(2)) == value {
            return before & !writes;
        }
        if let Some(place) = self.later.get_mut(self.count) {
            *place = Sensed { slot, value };
            self.count = self.count.wrapping_add(1);
        }
        self.settle(names, cmd, value);
        before | writes
    }

    /// Whether the results are as they were after a change.
    #[inline(always)]
    pub fn stays(&mut self, body: &Body, names: &Names, change: &Change, window: &Window) -> bool {
        let written = self.make(body, names, change, window);
        let differ = self.compare(body, window, written);
        self.follow(body, names, window.next, differ)
    }

    /// Takes over what was found of a change that is done: the commands have their new slots.
    pub fn take(&mut self, body: &Body, change: &Change) {
        for k in 0..MOST_NEW {
            if k < change.len() {
                let slot = body.slot(change.at.wrapping_add(k));
                self.set(usize::from(slot), self.new[k]);
            }
        }
        for k in 0..self.count {
            if let Some(sensed) = self.later.get(k).copied() {
                self.set(usize::from(sensed.slot), sensed.value);
            }
        }
    }

    /// Whether each of these cells is known at the end.
    pub fn is_known(&self, body: &Body, cells: u128) -> bool {
        let base = body.base(body.slot(body.len()));
        for cell in 0..128u8 {
            if has(cells, cell) && !self.value(body.writer(base, cell)).is_known() {
                return false;
            }
        }
        true
    }
}
