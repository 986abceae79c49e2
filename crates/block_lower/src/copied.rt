//! Whether graphs are the same, and a graph once more, for a second body.

ghost use Rattle.std.specs.Prelude.{◌≡◌, IsTrue, IfOk, IfSome};
ghost use Rattle.mig_graph.specs.Graph.{IsGraph};

use mig_graph::{Lit, Mig, MigOuts, NoMemory};
use std::alloc::Global;

/// Whether both graphs have the same nodes.
fn are_same(m: &Mig, r: &Mig) -> bool
    ensures same { IsTrue result → r.now ≡ m.now }
    // What is known of every graph.
    ensures graph { IsGraph r.now.inputs r.now.nodes }
{
    if m.inputs() != r.inputs() || m.size() != r.size() {
        return false;
    }
    for k in u32::from(m.inputs()) + 1..m.size() {
        let [a, b, c] = m.node(k);
        let [x, y, z] = r.node(k);
        if a != x || b != y || c != z {
            return false;
        }
    }
    true
}

/// Adds a node, where the graph has those that it names.
fn add(mig: &mut Mig, [a, b, c]: [Lit; 3]) -> Result<(), NoMemory> {
    let size = mig.size();
    if a.node < size && b.node < size && c.node < size && size < u32::MAX {
        mig.maj(a, b, c)?;
    }
    Ok(())
}

/// The same nodes, made again in their order. That they are the same is looked at in the end.
fn again(m: &Mig, alloc: Global) -> Result<Option<Mig>, NoMemory>
    ensures { IfOk result (λ o. IfSome o (λ r. r ≡ m.now)) }
{
    let mut copy = Mig::new(m.inputs(), alloc)?;
    for k in u32::from(m.inputs()) + 1..m.size() {
        add(&mut copy, m.node(k))?;
    }
    if are_same(m, &copy) {
        Ok(Some(copy))
    } else {
        Ok(None)
    }
}

/// The graph with its outputs once more.
pub(crate) fn copied(graph: &MigOuts, alloc: Global) -> Result<Option<MigOuts>, NoMemory>
    ensures graph { IfOk result (λ o. IfSome o (λ r. r.mig ≡ graph.now.mig)) }
    ensures outs { IfOk result (λ o. IfSome o (λ r. r.outs.items ≡ graph.now.outs.items)) }
{
    let outs = graph.outs.to_vec(alloc)?;
    match again(&graph.mig, alloc)? {
        Some(mig) => Ok(Some(MigOuts { mig, outs })),
        None => Ok(None),
    }
}
