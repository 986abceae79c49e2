//! Copies to cells that nothing reads.
//!
//! A beam lets an activation fill free cells, since that may be of use later. Where it was of none,
//! the activation alone does the same by an AP in place of an AAP.

use crate::body::BodyCmd::{self, Aap, Ap};
use crate::body::BodyRef::{self, B};
use crate::cells::raised;
use crate::set::Set;
use faults::keep;
use mig_graph::NoMemory;
use std::alloc::Global;

/// The cells that a row's address raises.
fn cells_at(row: BodyRef) -> Set {
    match row {
        B(y) => raised(y),
        _ => Set(0),
    }
}

/// The cells that are read before they are written from a command on, where it is these after it.
fn read_from(cmd: BodyCmd, after: Set) -> Set {
    match cmd {
        Aap(from, to) => after.minus(cells_at(to)).or(cells_at(from)),
        Ap(row) => after.or(cells_at(row)),
    }
}

/// The command, or the activation of a triple alone where nothing reads the cells that take a copy.
fn without_copy(cmd: BodyCmd, after: Set) -> BodyCmd {
    if let Aap(B(y), B(z)) = cmd
        && y > 11
        && !raised(z).meets(after)
    {
        return Ap(B(y));
    }
    cmd
}

/// The commands without such copies, where these cells are read after them. Both lists have the
/// last command first.
pub fn without_copies(
    back: &[BodyCmd],
    left: Set,
    alloc: Global,
) -> Result<Vec<BodyCmd>, NoMemory> {
    let mut after = left;
    let mut cmds = Vec::new(alloc);
    for cmd in back {
        let cmd = without_copy(*cmd, after);
        after = read_from(cmd, after);
        keep(&mut cmds, cmd)?;
    }
    Ok(cmds)
}
