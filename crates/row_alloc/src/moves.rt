//! The ways to make one node, and to fill the cells at exit.

use crate::body::BodyCmd::{self, Aap};
use crate::body::BodyRef::{B, Spill};
use crate::cells::{Cells, Fills, NONE, Short, address_of, driven, lack_none, lacking, raising};
use crate::commands::Commands;
use crate::outlook::{Rows, State, Task};
use crate::set::{Nodes, Set};

/// The most ways that are tried to bring the operands of a node in line.
const MOST_WAYS: usize = 20;

/// Some commands by which the operands of a node are brought in line, or on the way to it: what the
/// cells hold after them, and the nodes in spill rows.
#[derive(Clone, Copy)]
pub struct Way {
    pub cells: Cells,
    pub spilled: Set,
    pub cmds: Commands,
    /// A value of the triple has been saved.
    saved: bool,
}

impl Way {
    /// No command yet.
    pub fn from(s: &State) -> Way {
        Way {
            cells: s.cells,
            spilled: s.spilled,
            cmds: Commands::new(),
            saved: false,
        }
    }

    /// The way that goes on by a command, and the cells after it.
    #[inline(always)]
    fn then(&self, cells: Cells, cmd: BodyCmd) -> Way {
        Way {
            cells,
            spilled: self.spilled,
            cmds: self.cmds.then(cmd),
            saved: self.saved,
        }
    }

    #[inline(always)]
    fn leads_to(&self, other: &Way) -> bool {
        self.cells == other.cells && self.spilled == other.spilled && self.saved == other.saved
    }
}

/// Ways that were found.
#[derive(Clone, Copy)]
pub struct Ways {
    list: [Way; MOST_WAYS],
    count: usize,
}

impl Ways {
    /// None from a state so far, but that without a command.
    pub fn from(s: &State) -> Ways {
        Ways {
            list: [Way::from(s); MOST_WAYS],
            count: 1,
        }
    }

    pub fn count(&self) -> usize {
        self.count
    }

    /// The way of this number.
    #[inline(always)]
    pub fn get(&self, k: usize) -> Option<Way> {
        if k < self.count && k < MOST_WAYS {
            Some(self.list[k])
        } else {
            None
        }
    }

    /// Starts again from a state.
    pub fn start(&mut self, s: &State) {
        self.list[0] = Way::from(s);
        self.count = 1;
    }

    /// Whether a way has led to the same cells and rows.
    #[inline(always)]
    fn has(&self, way: &Way) -> bool {
        for (k, other) in self.list.iter().enumerate() {
            if k >= self.count {
                return false;
            }
            if other.leads_to(way) {
                return true;
            }
        }
        false
    }

    /// Puts a way after the others, where there is room and none has led to the same.
    #[inline(always)]
    fn add(&mut self, way: Way) {
        if self.count < MOST_WAYS && !self.has(&way) {
            self.list[self.count] = way;
            self.count += 1;
        }
    }
}

/// A node to be made from a state: itself or its complement.
#[derive(Clone, Copy)]
pub struct Job {
    /// What the triple senses.
    pub sensed: Short,
    /// The outputs that are this and must still be written.
    pub outs: Set,
    /// What rows hold before.
    pub rows: Rows,
    /// How many commands the steps after it take at least, apart from loads.
    pub least: u32,
    /// The nodes that are wanted until it is made, and from then on.
    pub wanted: Nodes,
    pub wanted_after: Nodes,
    /// Those of the latter that stand in no row and are made.
    pub endangered: Nodes,
}

/// One way to line up a node: what the cells of a triple should hold.
#[derive(Clone, Copy)]
pub struct LineUp {
    pub triple: u8,
    pub want: Cells,
}

/// The six arrangements of three literals in the cells of B12, then those of B13, B14 and B15: for
/// each literal the set of its cell.
pub static ARRANGEMENTS: [[u32; 3]; 24] = [
    [1, 2, 4],
    [1, 4, 2],
    [2, 1, 4],
    [4, 1, 2],
    [2, 4, 1],
    [4, 2, 1],
    [2, 4, 8],
    [2, 8, 4],
    [4, 2, 8],
    [8, 2, 4],
    [4, 8, 2],
    [8, 4, 2],
    [2, 4, 16],
    [2, 16, 4],
    [4, 2, 16],
    [16, 2, 4],
    [4, 16, 2],
    [16, 4, 2],
    [1, 8, 32],
    [1, 32, 8],
    [8, 1, 32],
    [32, 1, 8],
    [8, 32, 1],
    [32, 8, 1],
];

/// How many of three literals are not in place in an arrangement, where these cells hold each.
#[inline(always)]
pub fn missing_in([p, q, r]: [u32; 3], [a, b, c]: [Set; 3]) -> u32 {
    !a.meets(Set(p)) as u32 + !b.meets(Set(q)) as u32 + !c.meets(Set(r)) as u32
}

/// The complements of three literals.
pub fn complemented([a, b, c]: [Short; 3]) -> [Short; 3] {
    [a.complement(), b.complement(), c.complement()]
}

impl Job {
    /// How many states a way that has brought the operands in line leads to, with so many addresses
    /// that are worth a fill.
    pub fn end_count(&self, task: &Task, fills: Set) -> u32 {
        let spills = task.spill_of(self.sensed).is_some() as u32;
        let rows = self.outs.len().saturating_add(spills);
        fills.len().saturating_add(rows).saturating_add(1)
    }
}

impl LineUp {
    /// The node's literals or their complements in the arrangement of this number.
    #[inline(always)]
    pub fn new(number: usize, [p, q, r]: [u32; 3], [a, b, c]: [Short; 3]) -> LineUp {
        let want = Cells::unknown().with(Set(p), a).with(Set(q), b);
        LineUp {
            triple: 12 + (number / 6 % 4) as u8,
            want: want.with(Set(r), c),
        }
    }

    /// Whether the operands are in line.
    #[inline(always)]
    pub fn is_ready(&self, cells: &Cells) -> bool {
        lack_none(&self.want, cells)
    }

    /// The cells after the triple is activated.
    #[inline(always)]
    pub fn activated(&self, cells: &Cells, job: &Job) -> Cells {
        cells.over(&self.want, job.sensed)
    }

    /// Whether each of the cells that lack their literals can be loaded.
    #[inline(always)]
    fn can_load(&self, task: &Task, job: &Job, cells: &Cells, lacks: Set) -> bool {
        let mut left = lacks;
        for _ in 0..32u8 {
            let Some(k) = left.first() else {
                break;
            };
            left = left.rest();
            let l = self.want.get(k);
            if task.source(&job.rows, cells, l).is_none()
                && (k < 4 || task.source(&job.rows, cells, l.complement()).is_none())
            {
                return false;
            }
        }
        true
    }

    /// The ways that go on by a load of one cell, straight or complemented.
    #[inline(always)]
    fn load(
        &self,
        task: &Task,
        job: &Job,
        way: &Way,
        (k, turned): (u8, bool),
        lacked: Set,
        search: &mut Lines,
    ) {
        let wanted = self.want.get(k);
        let l = if turned { wanted.complement() } else { wanted };
        let Some(from) = task.source(&job.rows, &way.cells, l) else {
            return;
        };
        let free = way.cells.free(job.wanted).or(lacked);
        let worth = search.fills.worth(&way.cells, l, free);
        let mut left = worth.and(raising(k, turned));
        for _ in 0..32u8 {
            let Some(y) = left.first() else {
                break;
            };
            left = left.rest();
            let cells = driven(&way.cells, y, l);
            let lacks = lacking(&self.want, &cells);
            if lacks.minus(lacked).is_empty() && self.can_load(task, job, &cells, lacks) {
                search.ways.add(way.then(cells, Aap(from, B(y))));
            }
        }
    }

    /// The cell that is loaded next: the first that lacks its literal. Where states stand in cells,
    /// a literal that no row has comes before the others, since their loads may take its cells.
    #[inline(always)]
    fn next_to_load(&self, task: &Task, job: &Job, lacks: Set) -> Option<u8> {
        if task.holds_states() {
            for k in 0..6u8 {
                if lacks.has(k) && !job.rows.any.has(self.want.get(k).node()) {
                    return Some(k);
                }
            }
        }
        lacks.first()
    }

    /// The ways that go on by a copy of a value of the triple to cells outside of it.
    fn save_in_cells(&self, job: &Job, way: &Way, from: u8, l: Short, search: &mut Lines) {
        let free = way.cells.free(job.wanted);
        let mut left = search.fills.worth(&way.cells, l, free);
        for _ in 0..32u8 {
            let Some(y) = left.first() else {
                break;
            };
            left = left.rest();
            let cells = driven(&way.cells, y, l);
            if self.is_ready(&cells) {
                let mut next = way.then(cells, Aap(B(from), B(y)));
                next.saved = true;
                search.ways.add(next);
            }
        }
    }

    /// The same, and the way that spills the value.
    fn save(&self, task: &Task, job: &Job, way: &Way, k: u8, turned: bool, search: &mut Lines) {
        let wanted = self.want.get(k);
        let l = if turned { wanted.complement() } else { wanted };
        let Some(from) = address_of(k, turned) else {
            return;
        };
        self.save_in_cells(job, way, from, l, search);
        if let Some(spill) = task.spill_of(l) {
            let mut next = way.then(way.cells, Aap(B(from), Spill(spill)));
            next.spilled = next.spilled.with(spill);
            next.saved = true;
            search.ways.add(next);
        }
    }

    /// The ways that go on by saving a value of the triple that its activation would lose.
    #[inline(always)]
    fn saves(&self, task: &Task, job: &Job, way: &Way, search: &mut Lines) {
        let after = self.activated(&way.cells, job);
        let lost = job.endangered.minus(after.nodes());
        if lost.is_empty() {
            return;
        }
        for k in 0..6u8 {
            let l = self.want.get(k);
            if l.is_some() && lost.has(l.node()) {
                self.save(task, job, way, k, false, search);
                self.save(task, job, way, k, true, search);
            }
        }
    }

    /// The ways that go on by one command, where the triple is not yet ready.
    #[inline(always)]
    fn go_on(&self, task: &Task, job: &Job, way: &Way, search: &mut Lines) {
        let lacks = lacking(&self.want, &way.cells);
        match self.next_to_load(task, job, lacks) {
            Some(k) => {
                self.load(task, job, way, (k, false), lacks, search);
                if k > 3 {
                    self.load(task, job, way, (k, true), lacks, search);
                }
            }
            None if !way.saved => self.saves(task, job, way, search),
            None => {}
        }
    }

    /// Finds the ways by which the operands are brought in line, and what leads to them.
    pub fn find_ways(&self, task: &Task, job: &Job, s: &State, search: &mut Lines) {
        search.ways.start(s);
        for k in 0..MOST_WAYS {
            if let Some(way) = search.ways.get(k) {
                self.go_on(task, job, &way, search);
            }
        }
    }
}

/// The ways of one line-up, and which addresses were worth a fill.
pub struct Lines {
    pub ways: Ways,
    pub fills: Fills,
}

impl Drop for Lines {
    fn drop(self) {
        let Lines { ways: _, fills: _ } = self;
    }
}

/// What the cells hold at exit, and the commands that fill them.
#[derive(Clone, Copy)]
struct Filling {
    cells: Cells,
    cmds: Commands,
}

/// What goes on by a load of one cell, straight or complemented, and leaves the fewest of the cells
/// at exit lacking. It loses none of the nodes that are wanted and stand in no row.
fn fill_by(task: &Task, s: &State, now: &Filling, (k, turned): (u8, bool)) -> Option<Filling> {
    let rows = task.rows(s.spilled, s.unwritten);
    let endangered = task.wanted(s).minus(rows.any);
    let wanted = task.leave.get(k);
    let l = if turned { wanted.complement() } else { wanted };
    let from = task.source(&rows, &now.cells, l)?;
    let mut best = None;
    let mut least = lacking(&task.leave, &now.cells).len();
    let addresses = raising(k, turned);
    for y in 0..16u8 {
        if addresses.has(y) {
            let cells = driven(&now.cells, y, l);
            let lacks = lacking(&task.leave, &cells).len();
            if lacks < least && endangered.minus(cells.nodes()).is_empty() {
                least = lacks;
                best = Some(Filling {
                    cells,
                    cmds: now.cmds.then(Aap(from, B(y))),
                });
            }
        }
    }
    best
}

/// The same, of a cell straight or else complemented.
fn fill_cell(task: &Task, s: &State, now: &Filling, k: u8) -> Option<Filling> {
    match fill_by(task, s, now, (k, false)) {
        Some(filling) => Some(filling),
        None if k > 3 => fill_by(task, s, now, (k, true)),
        None => None,
    }
}

/// The commands that fill the cells at exit.
pub fn fill_left(task: &Task, s: &State) -> Option<Commands> {
    let mut now = Filling {
        cells: s.cells,
        cmds: Commands::new(),
    };
    for _cell in 0..6u8 {
        match lacking(&task.leave, &now.cells).first() {
            Some(k) => now = fill_cell(task, s, &now, k)?,
            None => return Some(now.cmds),
        }
    }
    if lack_none(&task.leave, &now.cells) {
        Some(now.cmds)
    } else {
        None
    }
}
