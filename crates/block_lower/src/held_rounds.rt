//! In which cells, and with which graph, a block's state lets the body take the fewest commands.
//!
//! A race counts pairs of a graph and a layout of cells. Nothing is promised of the counts: what
//! stands is checked again.

use crate::held::{LAYOUTS, add_held};
use crate::home::Home;
use faults::keep;
use loop_ir::{Body, Place};
use mig_graph::NoMemory;
use mig_rewrite::{Sketch, graph_of};
use row_alloc::{BodyCmd, Course, Race, Ranking};
use std::alloc::Global;

/// How many loops are tried.
const TRIES: usize = 6;

/// An offer with its state in these cells, and the commands that a race has found for its body.
pub(crate) struct HeldTry {
    pub sketch: Sketch,
    pub cells: u8,
    pub cmds: Vec<BodyCmd>,
}

impl Drop for HeldTry {
    fn drop(self) {
        let HeldTry {
            sketch: _,
            cells: _,
            cmds: _,
        } = self;
    }
}

/// A graph with its state in these cells.
#[derive(Clone, Copy)]
struct Pair {
    sketch: Sketch,
    cells: u8,
}

/// The loops that are to be tried, and how many states were tried.
#[derive(Drop)]
pub(crate) struct HeldTries {
    pub tries: Vec<HeldTry>,
    pub tried: usize,
}

/// The body with another graph, without commands.
fn other_body(body: &Body, offer: &Sketch, alloc: Global) -> Result<Body, NoMemory> {
    Ok(Body {
        reads: body.reads.to_vec(alloc)?,
        graph: graph_of(offer, alloc)?,
        writes: body.writes.to_vec(alloc)?,
        found: Vec::new(alloc),
    })
}

/// The pairs of the graphs and the layouts, and the race of their bodies.
struct Pairs {
    place: Place,
    start: bool,
    pairs: Vec<Pair>,
    race: Race,
}

impl Drop for Pairs {
    fn drop(self) {
        let Pairs {
            place: _,
            start: _,
            pairs: _,
            race: _,
        } = self;
    }
}

impl Pairs {
    fn new(place: Place, start: bool, alloc: Global) -> Result<Pairs, NoMemory> {
        Ok(Pairs {
            place,
            start,
            pairs: Vec::new(alloc),
            race: Race::new(alloc)?,
        })
    }

    /// A graph more, with each layout.
    fn add(&mut self, sketch: Sketch, body: &Body, alloc: Global) -> Result<(), NoMemory> {
        for cells in LAYOUTS {
            let home = Home {
                place: self.place,
                cells,
                start: self.start,
            };
            keep(&mut self.pairs, Pair { sketch, cells })?;
            add_held(&mut self.race, home, body, alloc)?;
        }
        Ok(())
    }

    /// The loops that are to be tried: those that take fewer commands than `few`.
    fn tries(
        &self,
        ranking: &Ranking,
        few: usize,
        alloc: Global,
    ) -> Result<Vec<HeldTry>, NoMemory> {
        let mut tries = Vec::new(alloc);
        for counted in ranking.found.iter().take(TRIES) {
            if counted.cmds.len() < few
                && let Some(pair) = self.pairs.get(counted.number).copied()
            {
                let Pair { sketch, cells } = pair;
                let cmds = counted.cmds.to_vec(alloc)?;
                keep(
                    &mut tries,
                    HeldTry {
                        sketch,
                        cells,
                        cmds,
                    },
                )?;
            }
        }
        Ok(tries)
    }
}

/// The graphs and cells with which the body takes fewer commands than `few`, the fewest first. The
/// race looks for as many too, where these are below `most`: its last beams begin with what it has
/// found.
pub(crate) fn held_tries(
    place: Place,
    start: bool,
    body: &Body,
    offers: &[Sketch],
    course: &Course,
    few: usize,
    most: usize,
    alloc: Global,
) -> Result<HeldTries, NoMemory> {
    if few < 2 || most == 0 || offers.is_empty() {
        return Ok(HeldTries {
            tries: Vec::new(alloc),
            tried: 0,
        });
    }
    let mut pairs = Pairs::new(place, start, alloc)?;
    for sketch in offers {
        let other = other_body(body, sketch, alloc)?;
        pairs.add(*sketch, &other, alloc)?;
    }
    let most = usize::min(few, most - 1);
    let ranking = pairs.race.ranked(course, most, alloc)?;
    let tries = pairs.tries(&ranking, few, alloc)?;
    let tried = ranking.tried;
    Ok(HeldTries { tries, tried })
}
