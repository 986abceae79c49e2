//! A beam over the nodes of a body: a search for few commands in which values stay in the bitwise
//! cells.
//!
//! A step makes one node or writes one output, and after each step the few states of the least
//! estimate go on. Nothing is promised of the commands. They are taken where they are found right.

use crate::ahead::Ahead;
use crate::body::BodyCmd::{self, Aap, Ap};
use crate::body::BodyRef::{B, Out, Spill};
use crate::body::{Held, OutRow};
use crate::bucket::{Bucket, Entry};
use crate::cells::{Cells, Short, driven, holders};
use crate::commands::Commands;
use crate::estimate::{estimate, rank_of};
use crate::idle::without_copies;
use crate::memory::Memory;
use crate::moves::{ARRANGEMENTS, Job, LineUp, Way, complemented, fill_left, missing_in};
use crate::outlook::{Rows, State, Task, in_place};
use crate::set::{Nodes, Set};
use faults::keep;
use mig_graph::{Mig, NoMemory};
use std::alloc::Global;
use std::mem;

/// How far a beam looks.
#[derive(Clone, Copy)]
pub struct Breadth {
    /// How many states go on from a step at most, beside one that needs no cell.
    width: usize,
    /// How many states are tried for a body, about.
    most_states: usize,
}

/// Counts many bodies in little time.
pub const NARROW: Breadth = Breadth {
    width: 4,
    most_states: 2_000,
};

/// Serves most bodies well.
pub const WIDE: Breadth = Breadth {
    width: 12,
    most_states: 8_000,
};

/// Counts the last few bodies of a race.
pub const LAST: Breadth = Breadth {
    width: 40,
    most_states: 15_000,
};

/// Finds the fewest commands for most bodies.
pub const BROAD: Breadth = Breadth {
    width: 40,
    most_states: 30_000,
};

/// Comes to the end of some bodies of the most nodes and outputs, for which the others have too few
/// states.
pub const DEEP: Breadth = Breadth {
    width: 4,
    most_states: 30_000,
};

/// A step of fewer states than this for each that goes on lets fewer go on.
const FEW_STATES: usize = 5;

/// How many states a step keeps, and how many of those to which one of them leads it tries.
#[derive(Clone, Copy)]
pub struct Scope {
    pub width: usize,
    pub share: usize,
}

/// A state from which a step goes on.
#[derive(Clone, Copy)]
struct Origin {
    state: State,
    spent: u32,
    /// Its place among the entries that have gone on.
    at: usize,
    rows: Rows,
    /// How many outputs must still be written, and how many steps are left.
    unwritten: u32,
    left: u32,
    width: usize,
}

/// A state that a step leads to, but for its cells: the nodes in spill rows, the outputs that must
/// still be written, what rows hold then, which nodes are wanted and which of these must stand in
/// cells, and how many commands were taken.
#[derive(Clone, Copy)]
struct Trial {
    spilled: Set,
    unwritten: Set,
    rows: Rows,
    wanted: Nodes,
    endangered: Nodes,
    spent: u32,
    /// How many steps are left, and how many commands these take at least.
    left: u32,
    least: u32,
}

impl Trial {
    #[inline(always)]
    fn new(task: &Task, ahead: &Ahead, spilled: Set, unwritten: Set, spent: u32) -> Trial {
        let wanted = ahead.read.or(task.named_by(unwritten));
        let rows = task.rows(spilled, unwritten);
        let unmade = task.nodes_of(ahead.unmade);
        Trial {
            spilled,
            unwritten,
            rows,
            wanted,
            endangered: wanted.minus(rows.any).minus(unmade),
            spent,
            left: ahead.steps.saturating_add(unwritten.len()),
            least: ahead.least(unwritten),
        }
    }

    /// After a node is made, where these are spilled then and no output more is written.
    #[inline(always)]
    fn made(
        task: &Task,
        from: &Origin,
        ahead: &Ahead,
        job: &Job,
        spilled: Set,
        spent: u32,
    ) -> Trial {
        if spilled != from.state.spilled {
            return Trial::new(task, ahead, spilled, from.state.unwritten, spent);
        }
        Trial {
            spilled,
            unwritten: from.state.unwritten,
            rows: from.rows,
            wanted: job.wanted_after,
            endangered: job.endangered,
            spent,
            left: ahead.steps.saturating_add(from.unwritten),
            least: job.least,
        }
    }

    /// The same, where the node goes to its spill row.
    #[inline(always)]
    fn with_spilled(&self, task: &Task, spill: u8) -> Trial {
        let node = task.nodes_of(Set(0).with(spill));
        let mut trial = *self;
        trial.spilled = self.spilled.with(spill);
        trial.rows = self.rows.with_own(node);
        trial.endangered = self.endangered.minus(node);
        trial
    }
}

/// The operands of a node are in line in a triple: the state after its activation alone, the cells
/// then, and the commands before.
#[derive(Clone, Copy)]
struct End {
    triple: u8,
    trial: Trial,
    cells: Cells,
    cmds: Commands,
}

/// A node that can be made, or its complement, and how many of its operands are not in place.
#[derive(Clone, Copy)]
struct Candidate {
    node: u8,
    operands: [Short; 3],
    sensed: Short,
    missing: u32,
}

/// The most candidates: each node and its complement.
const MOST_CANDIDATES: usize = 64;

/// The nodes that can be made from a state.
#[derive(Clone, Copy)]
struct Candidates {
    list: [Candidate; MOST_CANDIDATES],
    count: usize,
}

impl Candidates {
    fn add(&mut self, candidate: Candidate) {
        if self.count < MOST_CANDIDATES {
            self.list[self.count] = candidate;
            self.count += 1;
        }
    }

    /// With a node that can be made, and its complement.
    fn add_both(&mut self, task: &Task, s: &State, node: u8) {
        let operands = task.operands(node);
        let [straight, complements] = in_place(&s.cells, operands);
        self.add(Candidate {
            node,
            operands,
            sensed: task.lit_of(node, false),
            missing: 3u32.saturating_sub(straight),
        });
        self.add(Candidate {
            node,
            operands: complemented(operands),
            sensed: task.lit_of(node, true),
            missing: 3u32.saturating_sub(complements),
        });
    }

    /// Of a state.
    fn of(task: &Task, s: &State) -> Candidates {
        let none = Candidate {
            node: 0,
            operands: task.operands(0),
            sensed: task.lit_of(0, false),
            missing: 4,
        };
        let mut all = Candidates {
            list: [none; MOST_CANDIDATES],
            count: 0,
        };
        let unmade = task.nodes_of(s.unmade);
        let mut left = s.unmade;
        for _ in 0..32u8 {
            let Some(node) = left.first() else {
                break;
            };
            left = left.rest();
            if !task.reads(node).meets(unmade) {
                all.add_both(task, s, node);
            }
        }
        all
    }
}

/// The search for one body: the entries that have gone on, the states after this step and the two
/// next ones.
pub struct Beam {
    /// The number of the body.
    body: u32,
    done: Vec<Entry>,
    now: Bucket,
    next: Bucket,
    after: Bucket,
    /// More commands are not looked for.
    most: u32,
    /// How many steps are left.
    pub steps: u32,
}

impl Drop for Beam {
    fn drop(self) {
        let Beam {
            body: _,
            done: _,
            now: _,
            next: _,
            after: _,
            most: _,
            steps: _,
        } = self;
    }
}

impl Beam {
    /// The state before any step.
    pub fn new(
        task: &Task,
        memory: &mut Memory,
        most: usize,
        alloc: Global,
    ) -> Result<Beam, NoMemory> {
        let state = task.start();
        let mut beam = Beam {
            body: memory.next_body(),
            done: Vec::new(alloc),
            now: Bucket::new(alloc),
            next: Bucket::new(alloc),
            after: Bucket::new(alloc),
            most: if most < 0xFFFF { most as u32 } else { 0xFFFF },
            steps: state.left(),
        };
        let start = Entry {
            state,
            spent: 0,
            rank: 0,
            is_safe: task.is_safe(&state),
            from: None,
            cmds: Commands::new(),
        };
        keep(&mut beam.now.kept, start)?;
        Ok(beam)
    }

    /// The least estimate of the states that go on.
    pub fn least_rank(&self) -> u32 {
        u32::min(self.now.least_rank(), self.next.least_rank())
    }

    /// Whether no state may come to so few commands as are looked for.
    pub fn is_over(&self) -> bool {
        match self.now.best() {
            Some(best) => best.is_over(self.most as usize),
            None => self.next.is_empty(),
        }
    }

    /// Whether more commands than are looked for come to the end from a state with these cells,
    /// where its steps take at least so many apart from loads.
    #[inline(always)]
    fn is_too_far(&self, ahead: &Ahead, least: u32, held: Nodes, spent: u32) -> bool {
        let sure = spent.saturating_add(least);
        let most = self.most.saturating_sub(sure);
        sure > self.most || ahead.load_count > most && ahead.loads_left(held) > most
    }

    /// Keeps a state that a step has led to, where it is among the best and loses no value.
    #[inline(never)]
    fn consider(
        &mut self,
        task: &Task,
        memory: &mut Memory,
        from: &Origin,
        ahead: &Ahead,
        trial: &Trial,
        cells: Cells,
        (cmds, last): (&Commands, BodyCmd),
    ) -> Result<(), NoMemory> {
        memory.count(1);
        let (cells, held) = cells.cleared(trial.wanted);
        if !trial.endangered.minus(held).is_empty()
            || self.is_too_far(ahead, trial.least, held, trial.spent)
        {
            return Ok(());
        }
        let state = State {
            cells,
            spilled: trial.spilled.and(trial.wanted.from(task.first)),
            unmade: ahead.unmade,
            unwritten: trial.unwritten,
        };
        if memory.was_seen(&state, trial.spent) {
            return Ok(());
        }
        let rank = rank_of(
            trial.spent,
            estimate(task, ahead, &state, &trial.rows, held),
        );
        let is_safe = trial.endangered.is_empty();
        let is_next = trial.left.saturating_add(1) == from.left;
        let bucket = if is_next {
            &mut self.next
        } else {
            &mut self.after
        };
        if !bucket.takes(rank, is_safe) {
            return Ok(());
        }
        let entry = Entry {
            state,
            spent: trial.spent,
            rank,
            is_safe,
            from: Some(from.at),
            cmds: cmds.then(last),
        };
        bucket.offer(&entry, from.width)
    }

    /// Considers the states after a node is made, where the activation goes to cells alone.
    #[inline(always)]
    fn end_in_cells(
        &mut self,
        task: &Task,
        memory: &mut Memory,
        from: &Origin,
        ahead: &Ahead,
        job: &Job,
        end: &End,
    ) -> Result<(), NoMemory> {
        let (trial, cmds, cells) = (&end.trial, &end.cmds, end.cells);
        let cmd = Ap(B(end.triple));
        self.consider(task, memory, from, ahead, trial, cells, (cmds, cmd))?;
        let free = cells.free(job.wanted_after);
        let mut left = memory.lines.fills.worth(&cells, job.sensed, free);
        for _ in 0..32u8 {
            let Some(y) = left.first() else {
                break;
            };
            left = left.rest();
            let cells = driven(&cells, y, job.sensed);
            let cmd = Aap(B(end.triple), B(y));
            self.consider(task, memory, from, ahead, trial, cells, (cmds, cmd))?;
        }
        Ok(())
    }

    /// The same, where the node's spill row or an output takes it.
    #[inline(always)]
    fn end_in_rows(
        &mut self,
        task: &Task,
        memory: &mut Memory,
        from: &Origin,
        ahead: &Ahead,
        job: &Job,
        end: &End,
    ) -> Result<(), NoMemory> {
        let (cmds, cells, spent) = (&end.cmds, end.cells, end.trial.spent);
        let (spilled, unwritten) = (end.trial.spilled, end.trial.unwritten);
        if let Some(spill) = task.spill_of(job.sensed) {
            let trial = end.trial.with_spilled(task, spill);
            let cmd = Aap(B(end.triple), Spill(spill));
            self.consider(task, memory, from, ahead, &trial, cells, (cmds, cmd))?;
        }
        let mut left = job.outs;
        for _ in 0..32u8 {
            let Some(j) = left.first() else {
                break;
            };
            left = left.rest();
            let trial = Trial::new(task, ahead, spilled, unwritten.without(j), spent);
            let cmd = Aap(B(end.triple), Out(j));
            self.consider(task, memory, from, ahead, &trial, cells, (cmds, cmd))?;
        }
        Ok(())
    }

    /// Tries the states after a node is made by a way that has brought its operands in line. One
    /// that loses a value, or comes to what another way came to, or is too far, only counts.
    #[inline(always)]
    fn try_end(
        &mut self,
        task: &Task,
        memory: &mut Memory,
        from: &Origin,
        ahead: &Ahead,
        job: &Job,
        (line_up, way): (&LineUp, &Way),
    ) -> Result<(), NoMemory> {
        let activated = line_up.activated(&way.cells, job);
        let (cells, held) = activated.cleared(job.wanted_after);
        let spilled = task.nodes_of(way.spilled.minus(from.state.spilled));
        let lost = job.endangered.minus(spilled).minus(held);
        let loaded = from.spent.saturating_add(way.cmds.len());
        if !lost.without(job.sensed.node()).is_empty()
            || memory.was_met(&cells, way.spilled, loaded)
        {
            memory.count(1);
            return Ok(());
        }
        // The activation is a command more, and may write an output.
        let spent = loaded.saturating_add(job.outs.is_empty() as u32);
        if self.is_too_far(ahead, job.least, held, spent) {
            let free = cells.free(job.wanted_after);
            let fills = memory.lines.fills.worth(&cells, job.sensed, free);
            memory.count(job.end_count(task, fills));
            return Ok(());
        }
        let made = loaded.saturating_add(1);
        let end = End {
            triple: line_up.triple,
            trial: Trial::made(task, from, ahead, job, way.spilled, made),
            cells,
            cmds: way.cmds,
        };
        self.end_in_cells(task, memory, from, ahead, job, &end)?;
        self.end_in_rows(task, memory, from, ahead, job, &end)
    }

    /// Tries one line-up of a node.
    fn try_line_up(
        &mut self,
        task: &Task,
        memory: &mut Memory,
        from: &Origin,
        ahead: &Ahead,
        job: &Job,
        line_up: &LineUp,
    ) -> Result<(), NoMemory> {
        line_up.find_ways(task, job, &from.state, &mut memory.lines);
        for number in 0..memory.lines.ways.count() {
            if let Some(way) = memory.lines.ways.get(number)
                && line_up.is_ready(&way.cells)
            {
                self.try_end(task, memory, from, ahead, job, (line_up, &way))?;
            }
        }
        Ok(())
    }

    /// Whether the node is made by more commands than are looked for, or the end is too far then:
    /// each operand that is not in place takes a command, and so does the activation, which may
    /// write an output.
    fn is_far_off(
        &self,
        from: &Origin,
        ahead: &Ahead,
        candidate: &Candidate,
        (outs, least): (Set, u32),
    ) -> bool {
        let loaded = from.spent.saturating_add(candidate.missing);
        let spent = loaded.saturating_add(outs.is_empty() as u32);
        let [a, b, c] = candidate.operands;
        let operands = a.nodes().or(b.nodes()).or(c.nodes());
        let held = from.state.cells.nodes().or(operands);
        self.is_too_far(ahead, least, held, spent)
    }

    /// Tries the line-ups of a node that lack least, until so many states have been tried.
    fn try_job(
        &mut self,
        task: &Task,
        memory: &mut Memory,
        from: &Origin,
        candidate: &Candidate,
        most: usize,
    ) -> Result<(), NoMemory> {
        let s = &from.state;
        let unmade = s.unmade.without(candidate.node);
        let ahead = memory.ahead_of(task, self.body, unmade);
        let outs = task.outs_of(candidate.sensed).and(s.unwritten);
        let least = ahead.least(s.unwritten);
        if self.is_far_off(from, &ahead, candidate, (outs, least)) {
            return Ok(());
        }
        let named = task.named_by(s.unwritten);
        let wanted_after = ahead.read.or(named);
        let job = Job {
            sensed: candidate.sensed,
            outs,
            rows: from.rows,
            least,
            wanted: task.read_by(s.unmade).or(named),
            wanted_after,
            endangered: wanted_after
                .minus(from.rows.any)
                .minus(task.nodes_of(unmade)),
        };
        memory.start_job();
        let [a, b, c] = candidate.operands;
        let cells = [
            holders(&s.cells, a).straight(),
            holders(&s.cells, b).straight(),
            holders(&s.cells, c).straight(),
        ];
        for (number, places) in ARRANGEMENTS.iter().enumerate() {
            if missing_in(*places, cells) == candidate.missing && memory.tried < most {
                let line_up = LineUp::new(number, *places, candidate.operands);
                self.try_line_up(task, memory, from, &ahead, &job, &line_up)?;
            }
        }
        Ok(())
    }

    /// Tries the nodes of which so many operands are not in place.
    fn try_jobs(
        &mut self,
        task: &Task,
        memory: &mut Memory,
        from: &Origin,
        candidates: &Candidates,
        missing: u32,
        most: usize,
    ) -> Result<(), NoMemory> {
        for (k, candidate) in candidates.list.iter().enumerate() {
            if k >= candidates.count {
                break;
            }
            if candidate.missing == missing && memory.tried < most {
                self.try_job(task, memory, from, candidate, most)?;
            }
        }
        Ok(())
    }

    /// Tries to write an output whose complement stands somewhere, through a dual-contact cell.
    fn try_complemented(
        &mut self,
        task: &Task,
        memory: &mut Memory,
        from: &Origin,
        ahead: &Ahead,
        j: u8,
    ) -> Result<(), NoMemory> {
        let s = &from.state;
        let l = task.output(j).complement();
        let Some(row) = task.source(&from.rows, &s.cells, l) else {
            return Ok(());
        };
        let spent = from.spent.saturating_add(2);
        let trial = Trial::new(task, ahead, s.spilled, s.unwritten.without(j), spent);
        for (y, cell) in [(5, 4), (7, 6), (8, 4), (9, 6)] {
            let cells = driven(&s.cells, y, l);
            let cmds = Commands::new().then(Aap(row, B(y)));
            let cmd = Aap(B(cell), Out(j));
            self.consider(task, memory, from, ahead, &trial, cells, (&cmds, cmd))?;
        }
        Ok(())
    }

    /// Tries to write one output.
    fn try_write(
        &mut self,
        task: &Task,
        memory: &mut Memory,
        from: &Origin,
        ahead: &Ahead,
        j: u8,
    ) -> Result<(), NoMemory> {
        let s = &from.state;
        let l = task.output(j);
        if task.nodes_of(s.unmade).has(l.node()) {
            return Ok(());
        }
        let Some(row) = task.source(&from.rows, &s.cells, l) else {
            return self.try_complemented(task, memory, from, ahead, j);
        };
        let spent = from.spent.saturating_add(1);
        let trial = Trial::new(task, ahead, s.spilled, s.unwritten.without(j), spent);
        let cmds = Commands::new();
        let cmd = Aap(row, Out(j));
        self.consider(task, memory, from, ahead, &trial, s.cells, (&cmds, cmd))
    }

    /// Tries to write each output.
    fn try_writes(
        &mut self,
        task: &Task,
        memory: &mut Memory,
        from: &Origin,
    ) -> Result<(), NoMemory> {
        let ahead = memory.ahead_of(task, self.body, from.state.unmade);
        for j in 0..8u8 {
            if from.state.unwritten.has(j) {
                self.try_write(task, memory, from, &ahead, j)?;
            }
        }
        Ok(())
    }

    /// Tries the steps from one state, of the nodes with the most operands in place first.
    fn go_on(
        &mut self,
        task: &Task,
        memory: &mut Memory,
        entry: &Entry,
        scope: Scope,
    ) -> Result<(), NoMemory> {
        let s = entry.state;
        let from = Origin {
            state: s,
            spent: entry.spent,
            at: self.done.len(),
            rows: task.rows(s.spilled, s.unwritten),
            unwritten: s.unwritten.len(),
            left: s.left(),
            width: scope.width,
        };
        keep(&mut self.done, *entry)?;
        self.try_writes(task, memory, &from)?;
        let candidates = Candidates::of(task, &s);
        let most = memory.tried.saturating_add(scope.share);
        for missing in 0..4u32 {
            self.try_jobs(task, memory, &from, &candidates, missing, most)?;
        }
        Ok(())
    }

    /// One step from each state that stands.
    pub fn step(
        &mut self,
        task: &Task,
        memory: &mut Memory,
        scope: Scope,
        alloc: Global,
    ) -> Result<(), NoMemory> {
        let mut now = mem::replace(&mut self.now, Bucket::new(alloc));
        memory.start_step();
        for entry in &now.kept {
            self.go_on(task, memory, entry, scope)?;
        }
        if let Some(entry) = now.only_safe() {
            self.go_on(task, memory, &entry, scope)?;
        }
        // Its memory serves again.
        now.clear();
        let after = mem::replace(&mut self.after, now);
        self.now = mem::replace(&mut self.next, after);
        self.steps = self.steps.saturating_sub(1);
        Ok(())
    }

    /// A step of a beam of this breadth, which had tried so many states at its start.
    fn step_within(
        &mut self,
        task: &Task,
        memory: &mut Memory,
        (breadth, start): (Breadth, usize),
        alloc: Global,
    ) -> Result<(), NoMemory> {
        let tried = memory.tried.saturating_sub(start);
        let left = breadth.most_states.saturating_sub(tried);
        let states = left / usize::max(self.steps as usize, 1);
        let scope = Scope {
            width: usize::min(states / FEW_STATES, breadth.width),
            share: usize::max(states / usize::max(self.now.kept.len(), 1), 1),
        };
        self.step(task, memory, scope, alloc)
    }

    /// The commands that fill the cells at exit of an entry, if they are fewer in all than `few`.
    fn last_of(&mut self, task: &Task, entry: &Entry, few: usize) -> Option<Last> {
        let cmds = fill_left(task, &entry.state)?;
        let spent = entry.spent.saturating_add(cmds.len()) as usize;
        if spent < few {
            Some(Last {
                entry: *entry,
                cmds,
                spent,
            })
        } else {
            None
        }
    }

    /// The fewest commands that a beam has come to the end with.
    fn last(&mut self, task: &Task, alloc: Global) -> Option<Last> {
        let now = mem::replace(&mut self.now, Bucket::new(alloc));
        let mut best = match now.safe {
            Some(entry) => self.last_of(task, &entry, usize::MAX),
            None => None,
        };
        for entry in &now.kept {
            let few = match best {
                Some(last) => last.spent,
                None => usize::MAX,
            };
            if let Some(last) = self.last_of(task, entry, few) {
                best = Some(last);
            }
        }
        best
    }

    /// The commands that led to the end, the last one first.
    fn commands_back(&self, last: &Last, alloc: Global) -> Result<Vec<BodyCmd>, NoMemory> {
        let mut cmds = Vec::new(alloc);
        push_back(&mut cmds, &last.cmds)?;
        let mut entry = last.entry;
        for _step in 0..64u8 {
            push_back(&mut cmds, &entry.cmds)?;
            match entry.from {
                Some(k) if k < self.done.len() => entry = self.done[k],
                _ => break,
            }
        }
        Ok(cmds)
    }

    /// The fewest commands, with the cells at exit filled.
    pub fn commands(
        &mut self,
        task: &Task,
        alloc: Global,
    ) -> Result<Option<Vec<BodyCmd>>, NoMemory> {
        let Some(last) = self.last(task, alloc) else {
            return Ok(None);
        };
        let back = self.commands_back(&last, alloc)?;
        let mut cmds = without_copies(&back, task.leave.known(), alloc)?;
        cmds.reverse();
        Ok(Some(cmds))
    }
}

/// An entry that has come to the end, the commands that fill its cells at exit, and how many
/// commands that takes in all.
#[derive(Clone, Copy)]
struct Last {
    entry: Entry,
    cmds: Commands,
    spent: usize,
}

/// The commands, the last one first.
fn push_back(cmds: &mut Vec<BodyCmd>, step: &Commands) -> Result<(), NoMemory> {
    for back in 0..6u8 {
        if let Some(cmd) = step.get(5 - back) {
            keep(cmds, cmd)?;
        }
    }
    Ok(())
}

/// Commands for a task, or none where the search finds none. It ends early where so many commands
/// or fewer are not to be hoped for.
pub fn commands_of(
    task: &Task,
    memory: &mut Memory,
    breadth: Breadth,
    most: usize,
    alloc: Global,
) -> Result<Option<Vec<BodyCmd>>, NoMemory> {
    let mut beam = Beam::new(task, memory, most, alloc)?;
    let start = memory.tried;
    for _ in 0..beam.steps {
        if beam.is_over() {
            return Ok(None);
        }
        beam.step_within(task, memory, (breadth, start), alloc)?;
    }
    beam.commands(task, alloc)
}

/// Commands for the body that finds and leaves these values in cells, or none where the search
/// finds none.
pub fn beam_body(
    m: &Mig,
    outs: &[OutRow],
    enter: &[Held],
    leave: &[Held],
    breadth: Breadth,
    most: usize,
    alloc: Global,
) -> Result<Vec<BodyCmd>, NoMemory> {
    let Some(task) = Task::new(m, outs, enter, leave) else {
        return Ok(Vec::new(alloc));
    };
    let mut memory = Memory::new(alloc)?;
    match commands_of(&task, &mut memory, breadth, most, alloc)? {
        Some(cmds) => Ok(cmds),
        None => Ok(Vec::new(alloc)),
    }
}
