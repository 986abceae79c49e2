//! The search for other graphs of the same outputs.
//!
//! Walks go from graph to graph by replacements that are drawn, always the same ones, and the best
//! graphs that they meet are kept: long walks from the block's own graph or the best so far,
//! then short ones from drawn graphs of those that are kept, while they meet new ones to keep.

use crate::pool::Pool;
use crate::replacements::Replacer;
use crate::sketch::Sketch;
use crate::tables::{self, Tables, agree, complete, tables_of};
use mig_graph::{Lit, MigOuts, NoMemory};
use std::alloc::Global;

/// How many walks there are, and how many steps each has.
#[derive(Clone, Copy)]
pub struct Walks {
    pub long: u8,
    pub long_steps: u16,
    pub short: u8,
    pub short_steps: u16,
}

/// After how many steps in a row that have met no graph to keep a walk ends.
const IDLE_STEPS: u16 = 1_200;

/// After how many short walks in a row that have met no graph to keep there are no more.
const IDLE_WALKS: u8 = 7;

/// What a walk's seed is more than that of the last one.
const SEED_STEP: u64 = 0x9E3779B97F4A7C15;

/// How many nodes more than its least graph a walk's graph may have.
const SLACK: u8 = 1;

/// The most inputs, nodes and outputs of a graph that is searched for.
const MOST_INPUTS: u8 = 12;

const MOST_NODES: u8 = 28;

const MOST_OUTPUTS: usize = 8;

/// The graphs that were met, what replacements are drawn of, and how many steps there were so far.
struct Search {
    pool: Pool,
    replacer: Replacer,
    seed: u64,
    steps: usize,
}

impl Drop for Search {
    fn drop(self) {
        let Search {
            pool: _,
            replacer: _,
            seed: _,
            steps: _,
        } = self;
    }
}

impl Search {
    fn new(alloc: Global) -> Result<Search, NoMemory> {
        Ok(Search {
            pool: Pool::new(alloc)?,
            replacer: Replacer::new(),
            seed: 0,
            steps: 0,
        })
    }

    /// The graph with a drawn node replaced, if it has at most so many nodes and the same outputs.
    fn step(&mut self, at: &Sketch, tables: &Tables, most: u8) -> Option<Sketch> {
        let drawn = self.replacer.drawn(at, tables)?;
        if drawn.form.stands_at(at, drawn.node) {
            return None;
        }
        let other = at.replaced(&at.base(drawn.node, drawn.above), &drawn.form);
        let is_right = other.count <= most
            && (at.inputs <= tables::MOST_INPUTS || agree(at, &other));
        if is_right { Some(other) } else { None }
    }

    /// Goes from a graph by drawn replacements, and offers each graph on the way.
    fn walk(&mut self, first: &Sketch, steps: u16) -> Result<(), NoMemory> {
        self.seed = self.seed.wrapping_add(SEED_STEP);
        self.replacer.start(self.seed);
        let mut at = *first;
        let mut tables = tables_of(&at);
        let mut least = at.count;
        self.pool.offer(&at)?;
        let mut idle = 0u16;
        for _ in 0..steps {
            // One node is the only one of its function.
            if at.count < 2 || idle > IDLE_STEPS {
                break;
            }
            let taken = self.pool.taken();
            self.steps = self.steps.saturating_add(1);
            idle = idle.saturating_add(1);
            let most = u8::max(at.count, least.saturating_add(SLACK));
            if let Some(other) = self.step(&at, &tables, u8::min(most, MOST_NODES - 1)) {
                at = other;
                complete(&mut tables, &at);
                least = u8::min(least, at.count);
                self.pool.offer(&at)?;
                if self.pool.taken() != taken {
                    idle = 0;
                }
            }
        }
        Ok(())
    }

    /// Goes the long walks, from the first graph and from the best one in turn.
    fn walk_far(&mut self, first: &Sketch, walks: &Walks) -> Result<(), NoMemory> {
        for walk in 0..walks.long {
            let from = match self.pool.best() {
                Some(best) if walk % 2 == 1 => best,
                _ => *first,
            };
            self.walk(&from, walks.long_steps)?;
        }
        Ok(())
    }

    /// Goes a short walk from a drawn graph. Returns whether it has met one to keep.
    fn walk_once(&mut self, steps: u16) -> Result<bool, NoMemory> {
        let drawn = self.seed.wrapping_add(SEED_STEP) >> 33;
        let count = usize::max(self.pool.len(), 1);
        let taken = self.pool.taken();
        if let Some(from) = self.pool.get(drawn as usize % count) {
            self.walk(&from, steps)?;
        }
        Ok(self.pool.taken() != taken)
    }

    /// Goes the short walks, from drawn graphs, while they bring something.
    fn walk_near(&mut self, walks: &Walks) -> Result<(), NoMemory> {
        let mut idle = 0u8;
        for _ in 0..walks.short {
            if idle < IDLE_WALKS {
                idle = if self.walk_once(walks.short_steps)? {
                    0
                } else {
                    idle.saturating_add(1)
                };
            }
        }
        Ok(())
    }
}

/// The literal as a number.
fn short(l: Lit) -> u8 {
    if l.node < 64 {
        l.node as u8 * 2 + l.inverted as u8
    } else {
        0
    }
}

/// The graph as a sketch, where it is small enough.
fn sketch_of(m: &MigOuts) -> Option<Sketch> {
    let inputs = m.mig.inputs();
    let first = inputs as u32 + 1;
    if inputs > MOST_INPUTS
        || m.mig.size() > first + MOST_NODES as u32
        || m.outs.len() > MOST_OUTPUTS
    {
        return None;
    }
    let mut sketch = Sketch::new(inputs, m.outs.len() as u8);
    for k in first..m.mig.size() {
        let [a, b, c] = m.mig.node(k);
        sketch.add([short(a), short(b), short(c)]);
    }
    for (k, l) in m.outs.iter().enumerate() {
        if k < MOST_OUTPUTS {
            sketch.outs[k] = short(*l);
        }
    }
    Some(sketch.swept())
}

/// Graphs, the best by an estimate first, and how many steps the search for them took.
#[derive(Drop)]
pub struct Walked {
    pub sketches: Vec<Sketch>,
    pub steps: usize,
}

/// Graphs that may have the same outputs and no more nodes, the best by an estimate first: at most
/// so many. Nothing is promised of them; `kept` tells which are right.
pub fn offers(m: &MigOuts, most: u8, walks: &Walks, alloc: Global) -> Result<Walked, NoMemory> {
    match sketch_of(m) {
        Some(first) if most > 0 => {
            let mut search = Search::new(alloc)?;
            search.walk_far(&first, walks)?;
            search.walk_near(walks)?;
            let sketches = search.pool.ordered(most, alloc)?;
            let steps = search.steps;
            Ok(Walked { sketches, steps })
        }
        _ => Ok(Walked {
            sketches: Vec::new(alloc),
            steps: 0,
        }),
    }
}
