//! Reduction of majority graphs, and a search for smaller ones of the same outputs.
#![tactic(auto)]

ghost use Rattle.std.specs.Prelude.{◌≡◌, ◌<◌, ◌≤◌, IfOk, length};
ghost use Rattle.mig_graph.specs.Outputs.{AreNamed, KeepsOutputs};
ghost use Rattle.mig_graph.specs.Reduced.{IsReduced};
ghost use Rattle.mig_rewrite.specs.Merge.{IsMerge};
ghost use Rattle.mig_rewrite.specs.Reach.{AreReached};

mod agree;
mod draws;
mod forms;
mod merges;
mod plan;
mod points;
mod pool;
mod rebuild;
mod replacements;
mod search;
mod sketch;
mod standing;
mod tables;
mod tally;

use merges::{Merge, any_merge};
use mig_graph::MigOuts;
pub use mig_graph::NoMemory;
use rebuild::remade;
pub use search::{Walked, Walks, offers};
pub use sketch::Sketch;
pub use standing::{graph_of, kept};
use std::alloc::Global;

/// The graph made again until no node more is saved: then an output reaches each node.
fn swept(m: &MigOuts, alloc: Global) -> Result<MigOuts, NoMemory>
    requires { AreNamed m.now.mig m.now.outs.items }
    ensures keeps { IfOk result (λ r. KeepsOutputs m.now.mig m.now.outs.items r.mig r.outs.items) }
    ensures named { IfOk result (λ r. AreNamed r.mig r.outs.items) }
    ensures count { IfOk result (λ r. length r.mig.nodes ≤ length m.now.mig.nodes) }
    ensures reached { IfOk result (λ r. AreReached r.mig r.outs.items) }
{
    let mut now = remade(m, None, alloc)?;
    loop {
        let next = remade(&now, None, alloc)?;
        if next.mig.size() == now.mig.size() {
            return Ok(now);
        }
        now = next;
    }
}

/// The graph with one merge made.
fn merged(m: &MigOuts, found: Merge, alloc: Global) -> Result<MigOuts, NoMemory>
    requires named { AreNamed m.now.mig m.now.outs.items }
    requires merge { IsMerge m.now.mig m.now.outs.items found }
    ensures keeps { IfOk result (λ r. KeepsOutputs m.now.mig m.now.outs.items r.mig r.outs.items) }
    ensures named { IfOk result (λ r. AreNamed r.mig r.outs.items) }
    ensures count { IfOk result (λ r. length r.mig.nodes < length m.now.mig.nodes) }
    ensures reached { IfOk result (λ r. AreReached r.mig r.outs.items) }
{
    let made = remade(m, Some(found), alloc)?;
    let new = swept(&made, alloc)?;
    Ok(new)
}

/// The graph swept, and with every merge made.
fn reduced(m: &MigOuts, alloc: Global) -> Result<MigOuts, NoMemory>
    requires { AreNamed m.now.mig m.now.outs.items }
    ensures keeps { IfOk result (λ r. KeepsOutputs m.now.mig m.now.outs.items r.mig r.outs.items) }
    ensures named { IfOk result (λ r. AreNamed r.mig r.outs.items) }
    ensures count { IfOk result (λ r. length r.mig.nodes ≤ length m.now.mig.nodes) }
    ensures reduced { IfOk result (λ r. IsReduced r.mig r.outs.items) }
    ensures reached { IfOk result (λ r. AreReached r.mig r.outs.items) }
{
    let mut now = swept(m, alloc)?;
    loop {
        match any_merge(&now, alloc)? {
            None => return Ok(now),
            Some(found) => now = merged(&now, found, alloc)?,
        }
    }
}

/// The graph without the nodes that no output reaches, and with every merge made.
pub fn reduce(m: MigOuts, alloc: Global) -> Result<MigOuts, NoMemory>
    requires { AreNamed m.mig m.outs.items }
    ensures keeps { IfOk result (λ r. KeepsOutputs m.mig m.outs.items r.mig r.outs.items) }
    ensures named { IfOk result (λ r. AreNamed r.mig r.outs.items) }
    ensures count { IfOk result (λ r. length r.mig.nodes ≤ length m.mig.nodes) }
    ensures reduced { IfOk result (λ r. IsReduced r.mig r.outs.items) }
    ensures reached { IfOk result (λ r. AreReached r.mig r.outs.items) }
{
    reduced(&m, alloc)
}
