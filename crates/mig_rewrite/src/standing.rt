//! Other graphs in the place of a graph: what the search offers is taken where it is right.

ghost use Rattle.std.specs.Prelude.{◌≡◌, ◌<◌, ◌≤◌, ◌+◌, ◌/◌, ◌%◌, ◌==◌, ◌↔◌, ℕ, Bool, IsTrue};
ghost use Rattle.std.specs.Prelude.{IfOk, IfSome, IfNone, length, slice_index_or, nat_lt};
ghost use Rattle.std.specs.Prelude.{if◌then◌else◌};
ghost use Rattle.mig_graph.specs.Graph.{Graph, size_of, value};
ghost use Rattle.mig_graph.specs.Outputs.{lit_at, AreNamed, KeepsOutputs};
ghost use Rattle.mig_graph.specs.Reduced.{IsReduced};
ghost use Rattle.mig_rewrite.specs.Offers.{operand, output_value, Stands, IsRight, IsOffered};
ghost use Rattle.mig_rewrite.specs.Offers.{IsLarger};
ghost use Rattle.mig_rewrite.specs.Reach.{AreReached};

use crate::agree::keeps_outputs;
use crate::rebuild::{Part, first_literals, make, translated};
use crate::reduced;
use crate::sketch::Sketch;
use faults::keep;
use mig_graph::{Lit, Mig, MigOuts, NoMemory};
use std::alloc::Global;

/// The literal of a sketch, or the constant where its node is not made yet.
fn literal(short: u8, count: usize) -> Lit
    requires { 0 < count }
    ensures named { result.node < count }
    ensures node { result.node ≡ (if nat_lt (short / 2) count then short / 2 else 0) }
    ensures inverted { result.inverted ≡ (short % 2 == 1) }
{
    let node = short / 2;
    Lit {
        node: if (node as usize) < count {
            node as u32
        } else {
            0
        },
        inverted: short % 2 == 1,
    }
}

/// The literals of a node by its place among the nodes.
fn operands(offer: &Sketch, k: u8) -> [u8; 3]
    ensures { (i : ℕ) → slice_index_or result i 0 ≡ operand offer.now k i }
{
    match offer.nodes.get(k as usize) {
        Some(operands) => *operands,
        None => [0; 3],
    }
}

/// The literal of an output.
fn output(offer: &Sketch, j: u8) -> u8
    ensures { result ≡ slice_index_or offer.now.outs j 0 }
{
    match offer.outs.get(j as usize) {
        Some(literal) => *literal,
        None => 0,
    }
}

/// The outputs of a sketch, in a graph that has these literals for its nodes.
fn outputs(offer: &Sketch, lits: &[Lit], alloc: Global) -> Result<Vec<Lit>, NoMemory>
    requires { 0 < length lits.now }
    ensures named { IfOk result (λ v. (g : Graph) → AreNamed g lits.now → AreNamed g v.items) }
    ensures long { IfOk result (λ v. length v.items ≡ offer.now.outputs) }
    ensures values { IfOk result (λ v. (g : Graph) (bits : ℕ → Bool)
        → Stands g bits lits.now offer.now offer.now.count → (j : ℕ) → j < offer.now.outputs
        → value g bits (lit_at v.items j) ≡ output_value offer.now bits j) }
{
    let mut outs = Vec::new(alloc);
    for j in 0..offer.outputs {
        let l = translated(lits, literal(output(offer, j), lits.len()));
        keep(&mut outs, l)?;
    }
    Ok(outs)
}

/// The graph of a sketch.
fn built(offer: &Sketch, alloc: Global) -> Result<MigOuts, NoMemory>
    ensures named { IfOk result (λ r. AreNamed r.mig r.outs.items) }
    ensures inputs { IfOk result (λ r. r.mig.inputs ≡ offer.now.inputs) }
    ensures long { IfOk result (λ r. length r.outs.items ≡ offer.now.outputs) }
    ensures count { IfOk result (λ r. length r.mig.nodes ≤ offer.now.count) }
    ensures values { IfOk result (λ r. (bits : ℕ → Bool) (j : ℕ) → j < offer.now.outputs
        → value r.mig bits (lit_at r.outs.items j) ≡ output_value offer.now bits j) }
{
    let inputs = offer.inputs;
    let mut mig = Mig::new(inputs, alloc)?;
    let mut lits = first_literals(inputs, alloc)?;
    for k in 0..offer.count {
        let [a, b, c] = operands(offer, k);
        let count = lits.len();
        let part = Part::One(literal(a, count), literal(b, count), literal(c, count));
        let l = make(&mut mig, &lits, part)?;
        keep(&mut lits, l)?;
    }
    let outs = outputs(offer, &lits, alloc)?;
    Ok(MigOuts { mig, outs })
}

/// The graph that a sketch stands for, reduced, whether or not it is right.
pub fn graph_of(offer: &Sketch, alloc: Global) -> Result<MigOuts, NoMemory>
    ensures named { IfOk result (λ r. AreNamed r.mig r.outs.items) }
    ensures reduced { IfOk result (λ r. IsReduced r.mig r.outs.items) }
    ensures long { IfOk result (λ r. length r.outs.items ≡ offer.now.outputs) }
{
    let made = built(offer, alloc)?;
    reduced(&made, alloc)
}

/// The graph that a sketch stands for, reduced, where each output keeps its value on every input
/// and it has no more nodes than the graph. Graphs of more than 12 inputs are not compared, and
/// none is taken.
pub fn kept(m: &MigOuts, offer: &Sketch, alloc: Global) -> Result<Option<MigOuts>, NoMemory>
    requires { AreNamed m.now.mig m.now.outs.items }
    ensures keeps { IfOk result (λ o. IfSome o (λ r. KeepsOutputs m.now.mig m.now.outs.items r.mig
        r.outs.items)) }
    ensures named { IfOk result (λ o. IfSome o (λ r. AreNamed r.mig r.outs.items)) }
    ensures count { IfOk result (λ o. IfSome o (λ r. length r.mig.nodes ≤ length m.now.mig.nodes)) }
    ensures reduced { IfOk result (λ o. IfSome o (λ r. IsReduced r.mig r.outs.items)) }
    ensures reached { IfOk result (λ o. IfSome o (λ r. AreReached r.mig r.outs.items)) }
    ensures offered { IfOk result (λ o. IfSome o (λ r. IsOffered offer.now r.mig r.outs.items)) }
    // None of a sketch that keeps the outputs only where what it is reduced to has more nodes.
    ensures dropped { IfOk result (λ o. IfNone o (IsRight m.now.mig m.now.outs.items offer.now
        → IsLarger m.now.mig offer.now)) }
{
    let made = built(offer, alloc)?;
    let new = reduced(&made, alloc)?;
    if new.mig.size() > m.mig.size() {
        return Ok(None);
    }
    if keeps_outputs(m, &new, alloc)? {
        Ok(Some(new))
    } else {
        Ok(None)
    }
}
