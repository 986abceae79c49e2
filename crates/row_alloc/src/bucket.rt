//! The best states of a beam after as many steps.

use crate::commands::Commands;
use crate::outlook::State;
use faults::keep;
use mig_graph::NoMemory;
use std::alloc::Global;

/// Each step takes two commands or more, but for a few of the last ones.
const LAST_STEPS: u32 = 3;

/// A state of the beam, with its commands so far, its estimate and the step that led to it.
#[derive(Clone, Copy)]
pub struct Entry {
    pub state: State,
    pub spent: u32,
    pub rank: u32,
    /// Whether each wanted value that is made stands in a row.
    pub is_safe: bool,
    pub from: Option<usize>,
    pub cmds: Commands,
}

impl Entry {
    /// Whether both have the same nodes to make and the same outputs to write.
    #[inline(always)]
    fn is_akin(&self, other: &Entry) -> bool {
        self.state.unmade == other.state.unmade && self.state.unwritten == other.state.unwritten
    }

    /// Whether it can go on as the other can, after no more commands.
    #[inline(always)]
    fn covers(&self, other: &Entry) -> bool {
        self.is_akin(other) && self.spent <= other.spent && self.state.covers(&other.state)
    }

    /// Whether it may not come to so many commands or fewer. A guess: it stands on what bodies
    /// took.
    pub fn is_over(&self, most: usize) -> bool {
        let steps = self.state.left().saturating_sub(LAST_STEPS);
        let least = self.spent.saturating_add(steps.saturating_mul(2));
        least as usize > most
    }
}

/// The place of the entry with the greatest estimate, and the estimate.
#[derive(Clone, Copy)]
struct Worst {
    place: usize,
    rank: u32,
}

impl Worst {
    /// None so far.
    fn new() -> Worst {
        Worst { place: 0, rank: 0 }
    }
}

/// What stands beside a new entry: whether one covers it, and whether it covers one; how many have
/// the same nodes to make and the same outputs to write, and the worst of these.
#[derive(Clone, Copy)]
struct View {
    is_covered: bool,
    covers: bool,
    akin: usize,
    worst_akin: Worst,
}

/// The best states after as many steps, and the best of those whose values all stand in rows, from
/// which every node can be made.
pub struct Bucket {
    pub kept: Vec<Entry>,
    pub safe: Option<Entry>,
    /// The first of the greatest estimate.
    worst: Worst,
    /// That estimate where there are enough, and else no limit.
    limit: u32,
}

impl Drop for Bucket {
    fn drop(self) {
        let Bucket {
            kept: _,
            safe: _,
            worst: _,
            limit: _,
        } = self;
    }
}

impl Bucket {
    pub fn new(alloc: Global) -> Bucket {
        Bucket {
            kept: Vec::new(alloc),
            safe: None,
            worst: Worst::new(),
            limit: u32::MAX,
        }
    }

    /// Nothing is kept any more.
    pub fn clear(&mut self) {
        self.kept.clear();
        self.safe = None;
        self.worst = Worst::new();
        self.limit = u32::MAX;
    }

    pub fn is_empty(&self) -> bool {
        self.kept.is_empty() && self.safe.is_none()
    }

    /// Keeps an entry beside the best ones, where every node can be made from it.
    fn offer_safe(&mut self, new: &Entry) {
        let is_better = match &self.safe {
            Some(old) => new.rank < old.rank,
            None => true,
        };
        if new.is_safe && is_better {
            self.safe = Some(*new);
        }
    }

    /// The entry of the fewest commands.
    pub fn best(&self) -> Option<Entry> {
        let mut best = None;
        for entry in &self.kept {
            best = Some(sooner(best, *entry));
        }
        match self.safe {
            Some(entry) => Some(sooner(best, entry)),
            None => best,
        }
    }

    /// The least estimate.
    pub fn least_rank(&self) -> u32 {
        let mut least = match &self.safe {
            Some(entry) => entry.rank,
            None => u32::MAX,
        };
        for entry in &self.kept {
            least = u32::min(least, entry.rank);
        }
        least
    }

    /// Finds the first of the greatest estimate, where so many go on.
    fn find_worst(&mut self, width: usize) {
        let mut worst = Worst::new();
        for (place, entry) in self.kept.iter().enumerate() {
            let rank = entry.rank;
            if rank > worst.rank {
                worst = Worst { place, rank };
            }
        }
        self.worst = worst;
        self.limit = if self.kept.len() >= width {
            worst.rank
        } else {
            u32::MAX
        };
    }

    /// The safe entry, where no other is safe.
    pub fn only_safe(&self) -> Option<Entry> {
        for entry in &self.kept {
            if entry.is_safe {
                return None;
            }
        }
        self.safe
    }

    /// Drops the entries that the new one covers.
    fn drop_covered(&mut self, new: &Entry) {
        let mut place = self.kept.len();
        for _ in 0..self.kept.len() {
            place = place.saturating_sub(1);
            if place < self.kept.len() && new.covers(&self.kept[place]) {
                self.kept.swap_remove(place);
            }
        }
    }

    /// What there is beside a new entry.
    fn view(&self, new: &Entry) -> View {
        let mut view = View {
            is_covered: false,
            covers: false,
            akin: 0,
            worst_akin: Worst::new(),
        };
        for (k, entry) in self.kept.iter().enumerate() {
            if entry.is_akin(new) {
                if entry.spent <= new.spent && entry.state.covers(&new.state) {
                    view.is_covered = true;
                    return view;
                }
                view.covers |= new.spent <= entry.spent && new.state.covers(&entry.state);
                view.akin = view.akin.saturating_add(1);
                if entry.rank >= view.worst_akin.rank {
                    view.worst_akin = Worst {
                        place: k,
                        rank: entry.rank,
                    };
                }
            }
        }
        view
    }

    /// Where the new entry is to stand: after all others, where there is room, or in the place of
    /// the worst. Of those with the same nodes to make and the same outputs to write at most half
    /// the width stay.
    fn place_of(&self, view: &View, width: usize) -> usize {
        if view.akin >= usize::max(width / 2, 1) {
            view.worst_akin.place
        } else if self.kept.len() < usize::max(width, 1) {
            self.kept.len()
        } else {
            self.worst.place
        }
    }

    /// Puts the entry among the best ones, of which so many go on, unless it is worse than the one
    /// in its place. The one of both that is left over is offered as a safe one.
    fn put(&mut self, new: &Entry, place: usize, width: usize) -> Result<(), NoMemory> {
        if place >= self.kept.len() {
            keep(&mut self.kept, *new)?;
        } else if new.rank < self.kept[place].rank {
            let old = self.kept[place];
            self.kept[place] = *new;
            self.offer_safe(&old);
        } else {
            self.offer_safe(new);
            return Ok(());
        }
        self.find_worst(width);
        Ok(())
    }

    /// Keeps the entry, where it is among the best.
    fn offer_best(&mut self, new: &Entry, width: usize) -> Result<(), NoMemory> {
        let mut view = self.view(new);
        if view.is_covered {
            return Ok(());
        }
        if view.covers {
            self.drop_covered(new);
            self.find_worst(width);
            view = self.view(new);
        }
        self.put(new, self.place_of(&view, width), width)
    }

    /// Whether an entry of this estimate can be kept.
    #[inline(always)]
    pub fn takes(&self, rank: u32, is_safe: bool) -> bool {
        rank <= self.limit || is_safe
    }

    /// Keeps the entry, where it is among the best or a safe one.
    pub fn offer(&mut self, new: &Entry, width: usize) -> Result<(), NoMemory> {
        if new.rank <= self.limit {
            return self.offer_best(new, width);
        }
        self.offer_safe(new);
        Ok(())
    }
}

/// The first, if there is one and it took no more commands, or else the second.
fn sooner(first: Option<Entry>, second: Entry) -> Entry {
    match first {
        Some(first) if first.spent <= second.spent => first,
        _ => second,
    }
}
