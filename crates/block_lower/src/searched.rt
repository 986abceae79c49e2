//! What one call of the compiler has searched, and what effort is left to it.
//!
//! Nothing is promised of it: commands are checked again wherever they are taken. The effort is
//! counted in steps of the searches, never in time, so that the same text gives the same bytes.

use crate::held_rounds::{HeldTries, HeldTry, held_tries};
use crate::rounds::{GRAPHS, Ranked, Tried, best_first};
use faults::keep;
use loop_ir::{Body, Place, out_rows};
use mig_graph::{Lit, Mig, MigOuts, NoMemory};
use mig_rewrite::{Sketch, Walks, offers};
use row_alloc::{BROAD, Course, LAST, OutRow};
use std::alloc::Global;

/// How many other graphs are counted.
const MOST_OFFERS: u8 = 96;

/// How many steps the searches of one call take, about, before the blocks that follow are searched
/// briefly: states that are tried, and twice the steps of walks over graphs.
const MOST_STEPS: usize = 32_000_000;

/// How far the search for a block goes: the walks over graphs, and the races of graphs with all
/// values in rows and with the state in cells.
#[derive(Clone, Copy)]
struct Reach {
    walks: Walks,
    in_rows: Course,
    in_cells: Course,
}

/// The search while there is effort left.
const WHOLE: Reach = Reach {
    walks: Walks {
        long: 8,
        long_steps: 2_000,
        short: 64,
        short_steps: 200,
    },
    in_rows: Course {
        pilots: 4,
        margin: 1,
        first: 96,
        last: 8,
        states: 320,
        least_width: 4,
        most_width: 40,
        share: 40,
        finals: 12,
        idle: 8,
        breadth: LAST,
    },
    in_cells: Course {
        pilots: 60,
        margin: 0,
        first: 80,
        last: 4,
        states: 160,
        least_width: 2,
        most_width: 40,
        share: 80,
        finals: 12,
        idle: 12,
        breadth: BROAD,
    },
};

/// The search where none is left.
const BRIEF: Reach = Reach {
    walks: Walks {
        long: 2,
        long_steps: 500,
        short: 8,
        short_steps: 100,
    },
    in_rows: Course {
        pilots: 2,
        margin: 0,
        first: 24,
        last: 2,
        states: 48,
        least_width: 2,
        most_width: 16,
        share: 15,
        finals: 0,
        idle: 0,
        breadth: LAST,
    },
    in_cells: Course {
        pilots: 4,
        margin: 0,
        first: 16,
        last: 1,
        states: 16,
        least_width: 1,
        most_width: 12,
        share: 40,
        finals: 0,
        idle: 0,
        breadth: LAST,
    },
};

/// The place of a state among those that a block reads and those that it writes, and its start:
/// with it the loops in cells that were to be tried.
struct HeldBlock {
    read: Option<usize>,
    written: Option<usize>,
    start: bool,
    tries: Vec<HeldTry>,
}

impl Drop for HeldBlock {
    fn drop(self) {
        let HeldBlock {
            read: _,
            written: _,
            start: _,
            tries: _,
        } = self;
    }
}

/// A block as the search sees it, by its nodes and the rows of its outputs, without names, and what
/// was found for it.
struct Block {
    inputs: u8,
    nodes: Vec<[Lit; 3]>,
    rows: Vec<OutRow>,
    ranked: Ranked,
    held: Vec<HeldBlock>,
}

impl Drop for Block {
    fn drop(self) {
        let Block {
            inputs: _,
            nodes: _,
            rows: _,
            ranked: _,
            held: _,
        } = self;
    }
}

/// The blocks that one call of the compiler has searched, and how many steps are left to it.
pub struct Searched {
    blocks: Vec<Block>,
    left: usize,
}

impl Drop for Searched {
    fn drop(self) {
        let Searched { blocks: _, left: _ } = self;
    }
}

/// What was found for a block, and its number in the record.
#[derive(Drop)]
pub(crate) struct Known {
    pub number: usize,
    pub ranked: Ranked,
}

/// The literals of a graph's nodes.
fn nodes_of(m: &Mig, alloc: Global) -> Result<Vec<[Lit; 3]>, NoMemory> {
    let mut nodes = Vec::new(alloc);
    for k in u32::from(m.inputs()) + 1..m.size() {
        keep(&mut nodes, m.node(k))?;
    }
    Ok(nodes)
}

/// Whether a graph has these nodes.
fn has_nodes(m: &Mig, nodes: &[[Lit; 3]]) -> bool {
    let mut place = 0usize;
    for k in u32::from(m.inputs()) + 1..m.size() {
        let [a, b, c] = m.node(k);
        let Some(other) = nodes.get(place).copied() else {
            return false;
        };
        let [x, y, z] = other;
        if a != x || b != y || c != z {
            return false;
        }
        place = place.saturating_add(1);
    }
    place == nodes.len()
}

/// Whether these are the same rows.
fn are_same(rows: &[OutRow], others: &[OutRow]) -> bool {
    for (k, row) in rows.iter().enumerate() {
        match others.get(k).copied() {
            Some(other) if *row == other => {}
            _ => return false,
        }
    }
    rows.len() == others.len()
}

/// How many other graphs are counted. A graph of one node has none that is better.
fn most_offers(m: &MigOuts) -> u8 {
    let nodes = m.mig.size().saturating_sub(m.mig.inputs() as u32 + 1);
    if nodes < 2 { 0 } else { MOST_OFFERS }
}

/// The number of a place among others.
fn number_of(places: &[Place], place: Place) -> Option<usize> {
    for (k, other) in places.iter().enumerate() {
        if *other == place {
            return Some(k);
        }
    }
    None
}

/// The offers and commands once more.
fn ranked_again(ranked: &Ranked, alloc: Global) -> Result<Ranked, NoMemory> {
    let mut tries = Vec::new(alloc);
    for tried in &ranked.tries {
        let sketch = tried.sketch;
        let cmds = tried.cmds.to_vec(alloc)?;
        keep(&mut tries, Tried { sketch, cmds })?;
    }
    Ok(Ranked {
        tries,
        offers: ranked.offers.to_vec(alloc)?,
        tried: 0,
    })
}

/// The loops once more.
fn tries_again(tries: &[HeldTry], alloc: Global) -> Result<HeldTries, NoMemory> {
    let mut again = Vec::new(alloc);
    for held in tries {
        let sketch = held.sketch;
        let cells = held.cells;
        let cmds = held.cmds.to_vec(alloc)?;
        keep(
            &mut again,
            HeldTry {
                sketch,
                cells,
                cmds,
            },
        )?;
    }
    Ok(HeldTries {
        tries: again,
        tried: 0,
    })
}

impl Block {
    /// Whether it is the block of this graph and these rows.
    fn is_of(&self, m: &MigOuts, rows: &[OutRow]) -> bool {
        self.inputs == m.mig.inputs()
            && has_nodes(&m.mig, &self.nodes)
            && are_same(&self.rows, rows)
    }

    /// The number of the loops in cells that were to be tried with the state at these places.
    fn held_at(&self, read: Option<usize>, written: Option<usize>, start: bool) -> Option<usize> {
        for (k, held) in self.held.iter().enumerate() {
            if held.read == read && held.written == written && held.start == start {
                return Some(k);
            }
        }
        None
    }
}

impl Searched {
    /// Nothing yet.
    pub fn new(alloc: Global) -> Searched {
        Searched {
            blocks: Vec::new(alloc),
            left: MOST_STEPS,
        }
    }

    /// How far the next search goes.
    fn reach(&self) -> Reach {
        if self.left > 0 { WHOLE } else { BRIEF }
    }

    /// So many steps were taken.
    fn spend(&mut self, steps: usize) {
        self.left = self.left.saturating_sub(steps);
    }

    /// The number of a block that was searched.
    fn number_of(&self, m: &MigOuts, rows: &[OutRow]) -> Option<usize> {
        for (k, block) in self.blocks.iter().enumerate() {
            if block.is_of(m, rows) {
                return Some(k);
            }
        }
        None
    }

    /// Searches for the graphs and bodies of a block.
    fn search(
        &mut self,
        m: &MigOuts,
        reads: &[Place],
        writes: &[Place],
        alloc: Global,
    ) -> Result<Ranked, NoMemory> {
        let reach = self.reach();
        let walked = offers(m, most_offers(m), &reach.walks, alloc)?;
        self.spend(walked.steps.saturating_mul(2));
        let ranked = best_first(m, &walked.sketches, reads, writes, &reach.in_rows, alloc)?;
        self.spend(ranked.tried);
        Ok(ranked)
    }

    /// What is found for a block of this graph at these places.
    pub(crate) fn ranked(
        &mut self,
        m: &MigOuts,
        reads: &[Place],
        writes: &[Place],
        alloc: Global,
    ) -> Result<Known, NoMemory> {
        let rows = out_rows(m, reads, writes, m.outs.len(), alloc)?;
        if let Some(number) = self.number_of(m, &rows)
            && let Some(block) = self.blocks.get(number)
        {
            let ranked = ranked_again(&block.ranked, alloc)?;
            return Ok(Known { number, ranked });
        }
        let ranked = self.search(m, reads, writes, alloc)?;
        let number = self.blocks.len();
        let block = Block {
            inputs: m.mig.inputs(),
            nodes: nodes_of(&m.mig, alloc)?,
            rows,
            ranked: ranked_again(&ranked, alloc)?,
            held: Vec::new(alloc),
        };
        keep(&mut self.blocks, block)?;
        Ok(Known { number, ranked })
    }

    /// The loops in cells that are to be tried for the block of this number with its state at this
    /// place, where they take fewer commands than `few`; its body takes `most`.
    pub(crate) fn held(
        &mut self,
        number: usize,
        (place, start): (Place, bool),
        body: &Body,
        offers: &[Sketch],
        (few, most): (usize, usize),
        alloc: Global,
    ) -> Result<HeldTries, NoMemory> {
        let (read, written) = (
            number_of(&body.reads, place),
            number_of(&body.writes, place),
        );
        if let Some(block) = self.blocks.get(number)
            && let Some(k) = block.held_at(read, written, start)
            && let Some(held) = block.held.get(k)
        {
            return tries_again(&held.tries, alloc);
        }
        let course = self.reach().in_cells;
        let found = held_tries(place, start, body, offers, &course, few, most, alloc)?;
        self.spend(found.tried);
        let HeldTries { tries, tried: _ } = tries_again(&found.tries, alloc)?;
        if let Some(block) = self.blocks.get_mut(number) {
            keep(
                &mut block.held,
                HeldBlock {
                    read,
                    written,
                    start,
                    tries,
                },
            )?;
        }
        Ok(found)
    }
}
