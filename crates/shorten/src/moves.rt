//! The changes that a walk tries.

use crate::body::Body;
use crate::change::{Change, Cmd, MOST_NEW, NONE};
use crate::draws::Draws;
use crate::names::{C0, Names};

/// The bitwise addresses that may stand first: single cells and triples.
const FIRST: [u8; 12] = [0, 1, 2, 3, 4, 5, 6, 7, 12, 13, 14, 15];

/// Draws changes of the commands that a walk stands at.
#[derive(Drop)]
pub struct Mover<'a> {
    pub names: &'a Names,
    pub body: &'a Body,
    pub draws: &'a mut Draws,
    pub change: &'a mut Change,
    /// Whether there may be one command more.
    pub may_grow: bool,
}

/// How often a command more is tried where there may be one: one time in so many.
const SELDOM: usize = 8;

impl Mover<'_> {
    /// A row that a command near this place names, or a constant, or any row.
    fn row_near(&mut self, at: usize) -> u8 {
        match self.draws.below(8) {
            0 => self.constant(),
            1 => C0.saturating_add(self.draws.byte(self.names.rows())),
            _ => self.named_near(at),
        }
    }

    /// C0 or C1.
    fn constant(&mut self) -> u8 {
        C0 + u8::from(self.draws.coin())
    }

    /// A row that a command at most 12 places away names, or a constant.
    fn named_near(&mut self, at: usize) -> u8 {
        let far = self.draws.below(12).wrapping_add(1);
        let place = at.wrapping_add(self.draws.below(far.wrapping_mul(2).wrapping_add(1)));
        let last = self.body.len().saturating_sub(1);
        let cmd = self.body.cmd(usize::min(place.saturating_sub(far), last));
        if self.draws.coin() && cmd.y != NONE && cmd.y >= C0 {
            cmd.y
        } else if cmd.x >= C0 {
            cmd.x
        } else {
            self.constant()
        }
    }

    /// A first address for a command near this place.
    fn first(&mut self, at: usize) -> u8 {
        if self.draws.below(10) < 7 {
            self.draws.one_of(&FIRST, 0)
        } else {
            self.row_near(at)
        }
    }

    /// A second address for a command near this place, or none.
    fn second(&mut self, at: usize) -> u8 {
        match self.draws.below(12) {
            0 => NONE,
            1 | 2 => {
                let row = self.row_near(at);
                if self.names.is_own(row) {
                    row
                } else {
                    self.draws.byte(16)
                }
            }
            _ => self.draws.byte(16),
        }
    }

    /// A command near this place.
    fn any(&mut self, at: usize) -> Cmd {
        Cmd {
            x: self.first(at),
            y: self.second(at),
        }
    }

    /// A place of a command.
    fn place(&mut self) -> usize {
        self.draws.below(self.body.len())
    }

    /// A place that is so far away, if there is one.
    fn place_at(&mut self, from: usize, far: usize) -> Option<usize> {
        if self.draws.coin() {
            let to = from.wrapping_add(far);
            if to < self.body.len() { Some(to) } else { None }
        } else if far <= from {
            Some(from - far)
        } else {
            None
        }
    }

    /// Puts so many commands from a place on after the new ones, as they are.
    fn copy(&mut self, at: usize, count: usize) {
        for k in 0..count {
            self.change.put(self.body.cmd(at.wrapping_add(k)));
        }
    }

    /// Another first address, and now and then another second.
    fn other_first(&mut self) -> bool {
        let at = self.place();
        let mut cmd = self.body.cmd(at);
        cmd.x = self.first(at);
        if self.draws.below(8) == 0 {
            cmd.y = self.second(at);
        }
        self.change.start(at, 1);
        self.change.put(cmd);
        true
    }

    /// Another second address.
    fn other_second(&mut self) -> bool {
        let at = self.place();
        let mut cmd = self.body.cmd(at);
        cmd.y = self.second(at);
        self.change.start(at, 1);
        self.change.put(cmd);
        true
    }

    /// A command leaves its place, and this one stands at another.
    fn shift(&mut self, from: usize, to: usize, cmd: Cmd) -> bool {
        let (low, high) = (usize::min(from, to), usize::max(from, to));
        let far = high.saturating_sub(low);
        if far >= MOST_NEW {
            return false;
        }
        self.change.start(low, far.wrapping_add(1));
        if from <= to {
            self.copy(low.wrapping_add(1), far);
            self.change.put(cmd);
        } else {
            self.change.put(cmd);
            self.copy(low, far);
        }
        true
    }

    /// A command stands elsewhere.
    fn reorder(&mut self) -> bool {
        let from = self.place();
        let most = if self.draws.below(3) == 0 { 14 } else { 3 };
        let far = self.draws.below(most).wrapping_add(1);
        match self.place_at(from, far) {
            Some(to) => self.shift(from, to, self.body.cmd(from)),
            None => false,
        }
    }

    /// One command goes.
    fn leave_out(&mut self) -> bool {
        let at = self.place();
        self.change.start(at, 1);
        true
    }

    /// A command goes, and another one comes near to it.
    fn put_elsewhere(&mut self) -> bool {
        let from = self.place();
        let far = self.draws.below(8);
        match self.place_at(from, far) {
            Some(to) => {
                let cmd = self.any(to);
                self.shift(from, to, cmd)
            }
            None => false,
        }
    }

    /// Another first or second address of the new command of this number, or both.
    fn turn(&mut self, k: usize, at: usize) {
        let Some(old) = self.change.get(k) else {
            return;
        };
        let mut cmd = old;
        if self.draws.coin() {
            cmd.x = self.first(at);
        } else {
            cmd.y = self.second(at);
        }
        if self.draws.below(6) == 0 {
            cmd = self.any(at);
        }
        self.change.set(k, cmd);
    }

    /// Two changes near to each other.
    fn two_changes(&mut self) -> bool {
        let far = self.draws.below(5).wrapping_add(1);
        let at = self.place();
        let last = at.wrapping_add(far);
        if last >= self.body.len() {
            return false;
        }
        self.change.start(at, far.wrapping_add(1));
        self.copy(at, far.wrapping_add(1));
        self.turn(0, at);
        self.turn(far, last);
        true
    }

    /// Which bitwise addresses are exchanged.
    fn exchange(&mut self) -> [u8; 16] {
        let mut map = [0, 1, 2, 3, 4, 5, 6, 7, 8, 9, 10, 11, 12, 13, 14, 15];
        match self.draws.below(8) {
            0 => swap(&mut map, 1, 2),
            1 => {
                swap(&mut map, 0, 3);
                swap(&mut map, 12, 13);
            }
            2 => swap(&mut map, 4, 5),
            3 => swap(&mut map, 6, 7),
            4 => swap(&mut map, 0, 1),
            5 => {
                swap(&mut map, self.draws.below(4), self.draws.below(4));
                self.swap_triples(&mut map);
            }
            6 => swap(&mut map, self.draws.below(16), self.draws.below(16)),
            _ => {
                self.swap_triples(&mut map);
                swap(&mut map, self.draws.below(8), self.draws.below(8));
            }
        }
        map
    }

    /// Exchanges two triples.
    fn swap_triples(&mut self, map: &mut [u8; 16]) {
        let first = self.draws.below(4).wrapping_add(12);
        swap(map, first, self.draws.below(4).wrapping_add(12));
    }

    /// Names of cells are exchanged in a window.
    fn exchange_names(&mut self) -> bool {
        let most = if self.draws.coin() { 8 } else { 28 };
        let count = usize::min(self.draws.below(most).wrapping_add(2), self.body.len());
        let at = self
            .draws
            .below(self.body.len().saturating_sub(count).wrapping_add(1));
        let map = self.exchange();
        self.change.start(at, count);
        let mut is_other = false;
        for k in 0..count {
            let old = self.body.cmd(at.wrapping_add(k));
            let new = Cmd {
                x: mapped(&map, old.x),
                y: mapped(&map, old.y),
            };
            is_other = is_other || new != old;
            self.change.put(new);
        }
        is_other
    }

    /// One command more.
    fn one_more(&mut self) -> bool {
        if !self.may_grow || self.draws.below(SELDOM) != 0 {
            return false;
        }
        let at = self.place();
        self.change.start(at, 1);
        let cmd = self.any(at);
        self.change.put(cmd);
        self.copy(at, 1);
        true
    }

    /// One command for two, or two for three.
    fn one_for_two(&mut self) -> bool {
        let old = if self.draws.coin() { 2 } else { 3usize };
        let at = self.place();
        if at.wrapping_add(old) > self.body.len() {
            return false;
        }
        let gone = self.draws.below(old);
        self.change.start(at, old);
        self.copy(at, gone);
        let rest = at.wrapping_add(gone).wrapping_add(1);
        self.copy(rest, old.saturating_sub(gone).saturating_sub(1));
        let k = self.draws.below(old - 1);
        self.merge(k, at, self.body.cmd(at.wrapping_add(gone)));
        true
    }

    /// The new command of this number takes over from one that is gone, or another address.
    fn merge(&mut self, k: usize, at: usize, gone: Cmd) {
        let Some(old) = self.change.get(k) else {
            return;
        };
        let mut cmd = old;
        match self.draws.below(4) {
            0 => cmd.x = self.first(at),
            1 => cmd.y = self.second(at),
            2 => cmd = self.any(at),
            _ => {
                cmd.y = gone.y;
                if self.draws.coin() {
                    cmd.x = gone.x;
                }
            }
        }
        self.change.set(k, cmd);
    }

    /// Whether each new command is legal, and some of them is another than before.
    fn is_change(&self) -> bool {
        let mut is_other = self.change.old != self.change.len();
        for k in 0..MOST_NEW {
            let Some(cmd) = self.change.get(k) else {
                break;
            };
            if !self.names.is_legal(cmd) {
                return false;
            }
            is_other = is_other || cmd != self.body.cmd(self.change.at.wrapping_add(k));
        }
        is_other
    }

    /// Draws a change. Returns whether there is one.
    pub fn draw(&mut self) -> bool {
        let is_drawn = match self.draws.below(14) {
            0..=3 => self.other_first(),
            4 | 5 => self.other_second(),
            6 | 7 => self.reorder(),
            8 => self.leave_out(),
            9 => self.put_elsewhere(),
            10 => self.two_changes(),
            11 => self.exchange_names(),
            12 => self.one_more(),
            _ => self.one_for_two(),
        };
        is_drawn && self.is_change()
    }
}

/// Exchanges two numbers of a map.
fn swap(map: &mut [u8; 16], a: usize, b: usize) {
    let (first, second) = (map[a % 16], map[b % 16]);
    map[a % 16] = second;
    map[b % 16] = first;
}

/// The number that the map gives for an address.
fn mapped(map: &[u8; 16], name: u8) -> u8 {
    match map.get(usize::from(name)) {
        Some(other) => *other,
        None => name,
    }
}
