//! What the beams of one search share: what they remember, and how many states they have tried.

use crate::ahead::Ahead;
use crate::cells::{Cells, Fills};
use crate::moves::{Lines, Ways};
use crate::outlook::{State, Task};
use crate::set::Set;
use mig_graph::NoMemory;
use std::alloc::Global;

/// How many states are remembered.
const MOST_SEEN: usize = 1_024;

/// Of how many sets of nodes that must still be made is remembered what is ahead.
const MOST_AHEAD: usize = 256;

/// How many ends of a node's line-ups are remembered.
const MOST_MET: usize = 64;

/// A state that a step has led to, and after how many commands.
#[derive(Clone, Copy)]
struct Seen {
    state: State,
    spent: u32,
    step: u32,
}

/// What the cells and rows held after a node was made, and after how many commands.
#[derive(Clone, Copy)]
struct Met {
    cells: Cells,
    spilled: Set,
    spent: u32,
    job: u32,
}

/// The memories, each entry at the place that its hash gives.
pub struct Memory {
    pub lines: Lines,
    seen: Vec<Seen>,
    aheads: Vec<Ahead>,
    met: Vec<Met>,
    /// The number of the step, and of the node that is being made.
    step: u32,
    job: u32,
    /// How many bodies there were so far.
    bodies: u32,
    /// How many states were tried.
    pub tried: usize,
}

impl Drop for Memory {
    fn drop(self) {
        let Memory {
            lines: _,
            seen: _,
            aheads: _,
            met: _,
            step: _,
            job: _,
            bodies: _,
            tried: _,
        } = self;
    }
}

/// A state of nothing.
fn blank() -> State {
    State {
        cells: Cells::unknown(),
        spilled: Set(0),
        unmade: Set(0),
        unwritten: Set(0),
    }
}

impl Memory {
    /// Nothing is remembered.
    pub fn new(alloc: Global) -> Result<Memory, NoMemory> {
        let seen = Seen {
            state: blank(),
            spent: 0,
            step: 0,
        };
        let met = Met {
            cells: Cells::unknown(),
            spilled: Set(0),
            spent: 0,
            job: 0,
        };
        Ok(Memory {
            lines: Lines {
                ways: Ways::from(&blank()),
                fills: Fills::new(alloc)?,
            },
            seen: vec![in alloc; seen; MOST_SEEN]?,
            aheads: vec![in alloc; Ahead::none(); MOST_AHEAD]?,
            met: vec![in alloc; met; MOST_MET]?,
            step: 0,
            job: 0,
            bodies: 0,
            tried: 0,
        })
    }

    /// A number for a body more.
    pub fn next_body(&mut self) -> u32 {
        self.bodies = self.bodies.wrapping_add(1);
        self.bodies
    }

    /// Another step begins.
    pub fn start_step(&mut self) {
        self.step = self.step.wrapping_add(1);
    }

    /// Another node is to be made.
    #[inline(always)]
    pub fn start_job(&mut self) {
        self.job = self.job.wrapping_add(1);
    }

    /// So many states more were tried.
    #[inline(always)]
    pub fn count(&mut self, states: u32) {
        self.tried = self.tried.saturating_add(states as usize);
    }

    /// Whether the state was met in this step after as many commands or fewer. It is remembered.
    #[inline(always)]
    pub fn was_seen(&mut self, state: &State, spent: u32) -> bool {
        let step = self.step;
        let Some(seen) = self.seen.get_mut(state.hash() as usize % MOST_SEEN) else {
            return false;
        };
        if seen.step == step && seen.spent <= spent && seen.state == *state {
            return true;
        }
        *seen = Seen {
            state: *state,
            spent,
            step,
        };
        false
    }

    /// Whether the node was made with the same cells and spill rows after as many commands or
    /// fewer. It is remembered.
    #[inline(always)]
    pub fn was_met(&mut self, cells: &Cells, spilled: Set, spent: u32) -> bool {
        let place = (cells.mixed(u64::from(spilled.0) << 7) >> 58) as usize % MOST_MET;
        let job = self.job;
        let Some(met) = self.met.get_mut(place) else {
            return false;
        };
        if met.job == job && met.cells == *cells && met.spilled == spilled && met.spent <= spent {
            return true;
        }
        *met = Met {
            cells: *cells,
            spilled,
            spent,
            job,
        };
        false
    }

    /// What is ahead of a body where these nodes must still be made.
    #[inline(always)]
    pub fn ahead_of(&mut self, task: &Task, body: u32, unmade: Set) -> Ahead {
        let mixed = unmade.0.wrapping_mul(0x9E3779B1) ^ body.wrapping_mul(0x85EBCA77);
        let Some(known) = self.aheads.get_mut((mixed >> 7) as usize % MOST_AHEAD) else {
            return Ahead::from(task, body, unmade);
        };
        if known.body != body || known.unmade != unmade {
            *known = Ahead::from(task, body, unmade);
        }
        *known
    }
}
