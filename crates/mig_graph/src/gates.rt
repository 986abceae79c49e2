//! Majority graphs of graphs of gates.

ghost use Rattle.std.specs.Prelude.{◌≡◌, ◌<◌, ◌≤◌, ◌+◌, ◌-◌, ◌^◌, ◌⊎◌, ◌++◌, ◌∷◌, [], ℕ, Bool};
ghost use Rattle.std.specs.Prelude.{length, IfOk, OnOk, if◌then◌else◌, count_by, slice_index};
ghost use Rattle.aoi_graph.specs.Gates.{gate_value, ReadsBelow, is_gate, aoi_at, aoi_values};
ghost use Rattle.aoi_graph.specs.Gates.{AreLower};
ghost use Rattle.aoi_graph.specs.declared.AoiNode.TheVariants.{Input as InputNode};
ghost use Rattle.mig_graph.specs.declared.Lit.{Lit};
ghost use Rattle.mig_graph.specs.Graph.{size_of, value};
ghost use Rattle.mig_graph.specs.Outputs.{lit_at, AreNamed};
ghost use Rattle.mig_graph.specs.Inputs.{HasInput, IsInputCount};

use crate::{Lit, Mig, MigOuts, NoMemory, complement};
use aoi_graph::{AoiGraph, AoiNode};
use faults::keep;
use std::alloc::Global;

const ZERO: Lit = Lit {
    node: 0,
    inverted: false,
};

const ONE: Lit = Lit {
    node: 0,
    inverted: true,
};

/// The literal of one gate.
fn gate(mig: &mut Mig, lits: &[Lit], node: AoiNode) -> Result<Lit, NoMemory>
    requires named { (n : ℕ) → n < length lits.now → (lit_at lits.now n).node < size_of mig.old }
    requires below { ReadsBelow (length lits.now) node }
    requires input { HasInput mig.old.inputs node }
    requires room { size_of mig.old < 2 ^ 32 - 1 }
    ensures value { IfOk result (λ l. (bits : ℕ → Bool)
        → value mig.new bits l
        ≡ gate_value bits (λ n. value mig.old bits (lit_at lits.now n)) node) }
    ensures kept { IfOk result (λ _. (bits : ℕ → Bool) (l : Lit) → l.node < size_of mig.old
        → value mig.new bits l ≡ value mig.old bits l) }
    ensures named { IfOk result (λ l. l.node < size_of mig.new) }
    ensures inputs { mig.new.inputs ≡ mig.old.inputs }
    ensures least { length mig.old.nodes ≤ length mig.new.nodes }
    ensures count { OnOk result (length mig.new.nodes
        ≤ length mig.old.nodes + (if is_gate node then 1 else 0)) }
{
    match node {
        AoiNode::Zero => Ok(ZERO),
        AoiNode::Input(k) => Ok(Lit {
            node: k as u32 + 1,
            inverted: false,
        }),
        AoiNode::Not(a) => Ok(complement(lits[a as usize])),
        AoiNode::And(a, b) => mig.maj(lits[a as usize], lits[b as usize], ZERO),
        AoiNode::Or(a, b) => mig.maj(lits[a as usize], lits[b as usize], ONE),
        AoiNode::Maj(a, b, c) => mig.maj(lits[a as usize], lits[b as usize], lits[c as usize]),
    }
}

/// The literals of all nodes, in a graph with this many inputs.
fn translate(nodes: &[AoiNode], inputs: u8, alloc: Global) -> Result<MigOuts, NoMemory>
    requires lower { AreLower nodes.now }
    requires input { (k : ℕ) → k < length nodes.now → HasInput inputs (aoi_at nodes.now k) }
    requires room { length nodes.now < 2 ^ 31 }
    ensures inputs { IfOk result (λ r. r.mig.inputs ≡ inputs) }
    ensures long { IfOk result (λ r. length r.outs.items ≡ length nodes.now) }
    ensures named { IfOk result (λ r. (k : ℕ) → k < length nodes.now
        → (lit_at r.outs.items k).node < size_of r.mig) }
    ensures value { IfOk result (λ r. (bits : ℕ → Bool) (k : ℕ) → k < length nodes.now
        → value r.mig bits (lit_at r.outs.items k) ≡ aoi_values nodes.now bits k) }
    ensures count { IfOk result (λ r. length r.mig.nodes ≤ count_by is_gate nodes.now) }
{
    let mut mig = Mig::new(inputs, alloc)?;
    let mut lits = Vec::new(alloc);
    for node in nodes {
        let l = gate(&mut mig, &lits, *node)?;
        keep(&mut lits, l)?;
    }
    Ok(MigOuts { mig, outs: lits })
}

/// The number of inputs that this many and one more node name.
fn with_input(count: u8, node: AoiNode) -> u8
    requires { HasInput 255 node }
    ensures least { count ≤ result }
    ensures has { HasInput result node }
    ensures exact { (result ≡ count) ⊎ ((0 < result) × (node ≡ InputNode (result - 1))) }
{
    match node {
        AoiNode::Input(k) => { if k < count { count } else { k + 1 } }
        _ => count,
    }
}

/// One more than the greatest input, or 0 where there is none.
fn input_count(nodes: &[AoiNode]) -> u8
    requires { (k : ℕ) → k < length nodes.now → HasInput 255 (aoi_at nodes.now k) }
    ensures { IsInputCount nodes.now result }
{
    let mut count = 0;
    for node in nodes {
        count = with_input(count, *node);
    }
    count
}

/// The majority graph of a graph of gates.
pub fn from_aoi(g: &AoiGraph, alloc: Global) -> Result<MigOuts, NoMemory>
    requires lower { AreLower g.now.nodes.items }
    requires outs { (j : ℕ) → j < length g.now.outs.items
        → slice_index g.now.outs.items j < length g.now.nodes.items }
    requires input { (k : ℕ) → k < length g.now.nodes.items
        → HasInput 255 (aoi_at g.now.nodes.items k) }
    requires room { length g.now.nodes.items < 2 ^ 31 }
    ensures inputs { IfOk result (λ r. IsInputCount g.now.nodes.items r.mig.inputs) }
    ensures long { IfOk result (λ r. length r.outs.items ≡ length g.now.outs.items) }
    ensures named { IfOk result (λ r. AreNamed r.mig r.outs.items) }
    ensures value { IfOk result (λ r. (bits : ℕ → Bool) (j : ℕ) → j < length g.now.outs.items
        → value r.mig bits (lit_at r.outs.items j)
        ≡ aoi_values g.now.nodes.items bits (slice_index g.now.outs.items j)) }
    ensures count { IfOk result (λ r. length r.mig.nodes ≤ count_by is_gate g.now.nodes.items) }
{
    let mut whole = translate(&g.nodes, input_count(&g.nodes), alloc)?;
    let mut outs = Vec::new(alloc);
    for o in &g.outs {
        let l = whole.outs[*o as usize];
        keep(&mut outs, l)?;
    }
    whole.outs = outs;
    Ok(whole)
}
