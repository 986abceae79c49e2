//! Majority graphs and bodies by templates, node by node.

ghost use Rattle.std.specs.Prelude.{◌≡◌, ◌<◌, ◌≤◌, ◌+◌, length, IfOk, true};
ghost use Rattle.mig_graph.specs.Graph.{IsGraph, AreSorted};
ghost use Rattle.loop_ir.specs.Plain.{block_of};
ghost use Rattle.loop_laws.specs.Forms.{IsMade};
ghost use Rattle.word_lower.specs.Places.{template_at};
ghost use Rattle.word_lower.specs.Shapes.{are_own, are_below};

use loop_ir::{Body, Place};
use mig_graph::{Lit, Mig, MigOuts, NoMemory, Node};
use row_alloc::BodyCmd;
use std::alloc::Global;

/// The graph with these nodes, and these outputs.
fn made(inputs: u8, nodes: &[Node], outs: &[Lit], alloc: Global) -> Result<MigOuts, NoMemory>
    requires graph { IsGraph inputs nodes.now }
    requires sorted { AreSorted nodes.now }
    ensures graph { IfOk result (λ r. r.mig ≡ record { inputs = inputs; nodes = nodes.now }) }
    ensures outs { IfOk result (λ r. r.outs.items ≡ outs.now) }
{
    let mut mig = Mig::new(inputs, alloc)?;
    for node in nodes {
        mig.maj(node.a, node.b, node.c)?;
    }
    let outs = outs.to_vec(alloc)?;
    Ok(MigOuts { mig, outs })
}

/// The body of a template: its nodes over what is read, its outputs into what is written, and the
/// commands that do it.
///
/// It is an `Err` only where it runs out of memory.
pub fn templated(
    reads: &[Place],
    nodes: &[Node],
    outs: &[Lit],
    writes: &[Place],
    cmds: &[BodyCmd],
    alloc: Global,
) -> Result<Body, NoMemory>
    requires reads { length reads.now ≤ 4 }
    requires nodes { length nodes.now ≤ 6 }
    requires outs { 0 < length outs.now }
    requires own { are_own (length reads.now + 1) nodes.now ≡ true }
    requires named { are_below (length reads.now + 1 + length nodes.now) outs.now ≡ true }
    ensures same { IfOk result (λ b. block_of b
        ≡ template_at reads.now nodes.now outs.now writes.now cmds.now) }
    // Its graph is as `Mig` keeps graphs, and its outputs name nodes of it.
    ensures made { IfOk result (λ b. IsMade (block_of b)) }
{
    Ok(Body {
        reads: reads.to_vec(alloc)?,
        graph: made(reads.len() as u8, nodes, outs, alloc)?,
        writes: writes.to_vec(alloc)?,
        found: cmds.to_vec(alloc)?,
    })
}
