//! Fewer row commands for the same results, looked for by a walk over right programs.
#![tactic(auto)]

ghost use Rattle.std.specs.Prelude.{◌≡◌, ◌≤◌, IfOk, IfSome, length, true, false};
ghost use Rattle.shorten.specs.Allowed.{are_allowed as are_good};

mod block;
mod body;
mod change;
mod compare;
mod draws;
mod moves;
mod names;
mod roles;
mod samples;
mod value;
mod walk;

use dram_model::Command;
pub use faults::NoMemory;
use roles::are_allowed;
pub use roles::{Roles, Span};
use std::alloc::Global;
use walk::Walk;

/// The same commands again.
fn copied(commands: &[Command], alloc: Global) -> Result<Vec<Command>, NoMemory>
    ensures { IfOk result (λ copy. copy.items ≡ commands.now) }
{
    let copy = commands.iter().copied().collect(alloc)?;
    Ok(copy)
}

/// The commands that a walk finds.
fn found(
    commands: &[Command],
    roles: &Roles,
    seed: u64,
    work: u64,
    alloc: Global,
) -> Result<Option<Vec<Command>>, NoMemory> {
    let Some(mut walk) = Walk::new(commands, roles, seed, alloc)? else {
        return Ok(None);
    };
    if !walk.is_known() {
        return Ok(None);
    }
    walk.go(work, alloc)?;
    walk.tidy(alloc)?;
    Ok(Some(walk.shortest(alloc)?))
}

/// The walk's commands, where they are no more than so many and each is allowed.
fn offered(fewer: Option<Vec<Command>>, roles: &Roles, most: usize) -> Option<Vec<Command>>
    ensures count { IfSome result (λ fewer. length fewer.items ≤ most) }
    ensures allowed { IfSome result (λ fewer. are_good roles.now fewer.items ≡ true) }
{
    match fewer {
        Some(fewer) if fewer.len() <= most && are_allowed(roles, &fewer) => Some(fewer),
        _ => None,
    }
}

/// Commands that may leave the same results, no more of them, by so many changes that are tried.
/// Nothing is promised of what they do: the caller checks that.
///
/// Where a command that is given is not allowed, these are the commands that are given.
pub fn shorten(
    commands: &[Command],
    roles: &Roles,
    seed: u64,
    work: u64,
    alloc: Global,
) -> Result<Vec<Command>, NoMemory>
    ensures count { IfOk result (λ fewer. length fewer.items ≤ length commands.now) }
    ensures allowed { IfOk result (λ fewer. are_good roles.now commands.now ≡ true
        → are_good roles.now fewer.items ≡ true) }
    ensures kept { IfOk result (λ fewer. are_good roles.now commands.now ≡ false
        → fewer.items ≡ commands.now) }
{
    if are_allowed(roles, commands) {
        let fewer = found(commands, roles, seed, work, alloc)?;
        if let Some(fewer) = offered(fewer, roles, commands.len()) {
            return Ok(fewer);
        }
    }
    copied(commands, alloc)
}
