//! The walk over right programs.

use crate::block::{Block, Window};
use crate::body::{Body, MOST_COMMANDS};
use crate::change::{Change, Cmd, NONE};
use crate::compare::agree;
use crate::draws::Draws;
use crate::moves::Mover;
use crate::names::Names;
use crate::roles::Roles;
use crate::samples::{Samples, fixed_of};
use dram_model::Command;
use faults::{NoMemory, keep};
use std::alloc::Global;

/// How many commands more than the fewest so far a walk may stand at.
const SLACK: usize = 2;

/// After how many changes the program is compared at least, and after how many where it is
/// shorter than the shortest so far.
const COMPARED_AFTER: u32 = 500_000;

const SHORTER_AFTER: u32 = 50_000;

/// Where a walk stands.
pub struct Walk {
    names: Names,
    body: Body,
    blocks: Vec<Block>,
    samples: Samples,
    draws: Draws,
    change: Change,
    /// What was given, the last program that was compared, and the shortest of these.
    given: Vec<Cmd>,
    good: Vec<Cmd>,
    best: Vec<Cmd>,
    /// How many changes were tried since the last comparison.
    tried: u32,
}

impl Drop for Walk {
    fn drop(self) {
        let Walk {
            names: _,
            body: _,
            blocks: _,
            samples: _,
            draws: _,
            change: _,
            given: _,
            good: _,
            best: _,
            tried: _,
        } = self;
    }
}

/// The same commands again.
fn copied(cmds: &[Cmd], alloc: Global) -> Result<Vec<Cmd>, NoMemory> {
    let copy = cmds.iter().copied().collect(alloc)?;
    Ok(copy)
}

/// The values of all samples.
fn blocks_of(
    body: &Body,
    names: &Names,
    samples: &Samples,
    draws: &mut Draws,
    alloc: Global,
) -> Result<Vec<Block>, NoMemory> {
    let mut blocks = Vec::new(alloc);
    for page in &samples.sampled(draws, alloc)? {
        let fixed = fixed_of(page, names.sources(), alloc)?;
        keep(&mut blocks, Block::new(body, names, &fixed, alloc)?)?;
    }
    Ok(blocks)
}

/// How many of the commands are AAPs.
fn aaps(cmds: &[Cmd]) -> usize {
    cmds.iter().filter(|cmd| cmd.y != NONE).count()
}

/// The commands by numbers.
fn cmds_of(names: &Names, commands: &[Command], alloc: Global) -> Result<Vec<Cmd>, NoMemory> {
    let mut cmds = Vec::new(alloc);
    for command in commands {
        keep(&mut cmds, names.cmd_of(*command))?;
    }
    Ok(cmds)
}

impl Walk {
    /// A walk from these commands, if they are few enough, and name few enough rows.
    pub fn new(
        commands: &[Command],
        roles: &Roles,
        seed: u64,
        alloc: Global,
    ) -> Result<Option<Walk>, NoMemory> {
        if commands.len() > MOST_COMMANDS {
            return Ok(None);
        }
        let Some(names) = Names::of(commands, roles) else {
            return Ok(None);
        };
        let given = cmds_of(&names, commands, alloc)?;
        let samples = Samples::new(roles.sources.as_slice(), &names, alloc)?;
        let walk = Walk::begin(names, given, samples, Draws::new(seed), alloc)?;
        Ok(Some(walk))
    }

    /// A walk that stands at what is given.
    fn begin(
        names: Names,
        given: Vec<Cmd>,
        samples: Samples,
        mut draws: Draws,
        alloc: Global,
    ) -> Result<Walk, NoMemory> {
        let body = Body::new(&names, &given, alloc)?;
        let blocks = blocks_of(&body, &names, &samples, &mut draws, alloc)?;
        let good = copied(&given, alloc)?;
        let best = copied(&given, alloc)?;
        Ok(Walk {
            names,
            body,
            blocks,
            samples,
            draws,
            change: Change::new(),
            given,
            good,
            best,
            tried: 0,
        })
    }

    /// Whether each result is known at the end, whatever the cells hold at the start.
    pub fn is_known(&self) -> bool {
        let results = self.names.result_cells();
        self.blocks
            .iter()
            .all(|block| block.is_known(&self.body, results))
    }

    /// Whether the change leaves the results under all samples.
    fn stays(&mut self) -> bool {
        let window = Window::of(&self.body, &self.names, &self.change);
        for block in self.blocks.iter_mut() {
            if !block.stays(&self.body, &self.names, &self.change, &window) {
                return false;
            }
        }
        true
    }

    /// Does the change.
    fn take(&mut self) -> Result<(), NoMemory> {
        self.body.replace(&self.names, &self.change)?;
        for block in self.blocks.iter_mut() {
            block.take(&self.body, &self.change);
        }
        Ok(())
    }

    /// Tries one change. Returns whether it was taken.
    fn step(&mut self) -> Result<bool, NoMemory> {
        let may_grow = self.body.has_room() && self.body.len() < self.best.len() + SLACK;
        let mut mover = Mover {
            names: &self.names,
            body: &self.body,
            draws: &mut self.draws,
            change: &mut self.change,
            may_grow,
        };
        if !mover.draw() || !self.stays() {
            return Ok(false);
        }
        self.take()?;
        Ok(true)
    }

    /// Goes back to the last program that was compared, with new samples.
    fn go_back(&mut self, alloc: Global) -> Result<(), NoMemory> {
        self.body = Body::new(&self.names, &self.good, alloc)?;
        self.blocks = blocks_of(
            &self.body,
            &self.names,
            &self.samples,
            &mut self.draws,
            alloc,
        )?;
        Ok(())
    }

    /// Whether the program that the walk stands at is right under many assignments.
    fn is_right(&mut self, cmds: &[Cmd], alloc: Global) -> Result<bool, NoMemory> {
        if self.samples.are_all() {
            return Ok(true);
        }
        let both = (self.given.as_slice(), cmds);
        agree(&self.names, both, &mut self.samples, &mut self.draws, alloc)
    }

    /// Whether these are fewer than the fewest so far, or as many with fewer AAPs.
    fn is_better(&self, cmds: &[Cmd]) -> bool {
        cmds.len() < self.best.len()
            || cmds.len() == self.best.len() && aaps(cmds) < aaps(&self.best)
    }

    /// Compares the program that the walk stands at with what was given: goes on from it where both
    /// agree, and back where not.
    fn compare(&mut self, alloc: Global) -> Result<(), NoMemory> {
        self.tried = 0;
        let cmds = self.body.cmds(alloc)?;
        if !self.is_right(&cmds, alloc)? {
            return self.go_back(alloc);
        }
        if self.is_better(&cmds) {
            self.best = copied(&cmds, alloc)?;
        }
        self.good = cmds;
        Ok(())
    }

    /// Whether the program is to be compared now.
    fn is_due(&self) -> bool {
        let is_shorter = self.body.len() < self.best.len();
        self.tried >= COMPARED_AFTER
            || is_shorter && (self.tried >= SHORTER_AFTER || self.samples.are_all())
    }

    /// Tries so many changes.
    pub fn go(&mut self, work: u64, alloc: Global) -> Result<(), NoMemory> {
        for _ in 0..work {
            let is_taken = self.step()?;
            self.tried = self.tried.saturating_add(1);
            if (is_taken || self.tried >= COMPARED_AFTER) && self.is_due() {
                self.compare(alloc)?;
            }
        }
        self.compare(alloc)
    }

    /// The shortest program that was compared.
    pub fn shortest(&self, alloc: Global) -> Result<Vec<Command>, NoMemory> {
        let mut commands = Vec::new(alloc);
        for cmd in &self.best {
            keep(&mut commands, self.names.command_of(*cmd))?;
        }
        Ok(commands)
    }

    /// An AP in the place of an AAP, where its second address changes nothing.
    fn tidy_at(&mut self, at: usize) -> Result<(), NoMemory> {
        let cmd = self.body.cmd(at);
        if cmd.y == NONE || self.names.raised(cmd.x).count != 3 {
            return Ok(());
        }
        self.change.start(at, 1);
        self.change.put(Cmd { x: cmd.x, y: NONE });
        if self.stays() {
            self.take()?;
        }
        Ok(())
    }

    /// Makes APs of AAPs in the shortest program.
    pub fn tidy(&mut self, alloc: Global) -> Result<(), NoMemory> {
        self.good = copied(&self.best, alloc)?;
        self.go_back(alloc)?;
        for at in 0..self.body.len() {
            self.tidy_at(at)?;
        }
        let cmds = self.body.cmds(alloc)?;
        if self.is_right(&cmds, alloc)? {
            self.best = cmds;
        }
        Ok(())
    }
}
