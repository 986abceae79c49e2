//! Commands by numbers of their addresses, and changes of a list of them.

/// A command: the number of its first address, and that of its second, or `NONE` of an AP.
#[derive(Clone, Copy, PartialEq, Eq)]
pub struct Cmd {
    pub x: u8,
    pub y: u8,
}

/// The second address of an AP.
pub const NONE: u8 = 255;

/// The most commands that a change puts in.
pub const MOST_NEW: usize = 32;

/// So many commands from a place on are replaced by others.
#[derive(Clone, Copy)]
pub struct Change {
    pub at: usize,
    pub old: usize,
    new: [Cmd; MOST_NEW],
    count: usize,
}

impl Change {
    /// Nothing is replaced.
    pub fn new() -> Change {
        Change {
            at: 0,
            old: 0,
            new: [Cmd { x: 0, y: NONE }; MOST_NEW],
            count: 0,
        }
    }

    /// Begins another change: so many commands from a place on go.
    #[inline(always)]
    pub fn start(&mut self, at: usize, old: usize) {
        self.at = at;
        self.old = old;
        self.count = 0;
    }

    /// Puts a command after the new ones, where there is room.
    #[inline(always)]
    pub fn put(&mut self, cmd: Cmd) {
        if self.count < MOST_NEW {
            self.new[self.count] = cmd;
            self.count += 1;
        }
    }

    /// How many commands are put in.
    #[inline(always)]
    pub fn len(&self) -> usize {
        self.count
    }

    /// The new command of this number.
    #[inline(always)]
    pub fn get(&self, k: usize) -> Option<Cmd> {
        if k < self.count && k < MOST_NEW {
            Some(self.new[k])
        } else {
            None
        }
    }

    /// Changes the new command of this number.
    #[inline(always)]
    pub fn set(&mut self, k: usize, cmd: Cmd) {
        if k < MOST_NEW {
            self.new[k] = cmd;
        }
    }
}
