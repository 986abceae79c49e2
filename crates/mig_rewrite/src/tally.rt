//! How often nodes are read.

ghost use Rattle.std.specs.Prelude.{◌≡◌, ◌<◌, ◌≤◌, ◌+◌, ◌++◌, ◌∷◌, [], List, IfOk, length, min};
ghost use Rattle.std.specs.Prelude.{flat_map};
ghost use Rattle.mig_graph.specs.declared.Lit.{Lit};
ghost use Rattle.mig_graph.specs.Graph.{size_of};
ghost use Rattle.mig_graph.specs.Outputs.{AreNamed};
ghost use Rattle.mig_graph.specs.Reduced.{node_numbered, literals};
ghost use Rattle.mig_rewrite.specs.Counts.{AreCounts, AreReads};

use mig_graph::{Lit, Mig, MigOuts, NoMemory, Node};
use std::alloc::Global;

/// One more, where 2 stands for every greater number.
fn one_more(count: u8) -> u8
    ensures { count ≤ 2 → result ≡ min 2 (count + 1) }
{
    if count < 2 { count + 1 } else { count }
}

/// Counts one literal.
fn count(counts: &mut [u8], l: Lit)
    requires { l.node < length counts.old }
    ensures { (lits : List Lit) → AreCounts counts.old lits
        → AreCounts counts.new (lits ++ l ∷ []) }
{
    counts[l.node as usize] = one_more(counts[l.node as usize]);
}

/// Counts a node's literals.
fn count_three(counts: &mut [u8], n: Node)
    requires a { n.a.node < length counts.old }
    requires b { n.b.node < length counts.old }
    requires c { n.c.node < length counts.old }
    ensures { (lits : List Lit) → AreCounts counts.old lits
        → AreCounts counts.new (lits ++ literals n) }
{
    count(counts, n.a);
    count(counts, n.b);
    count(counts, n.c);
}

/// Counts all reads, into counts that are 0.
fn count_all(counts: &mut [u8], m: &MigOuts)
    requires named { AreNamed m.now.mig m.now.outs.items }
    requires long { length counts.old ≡ size_of m.now.mig }
    requires none { AreCounts counts.old [] }
    ensures { AreCounts counts.new (flat_map literals m.now.mig.nodes ++ m.now.outs.items) }
{
    for k in m.mig.inputs() as u32 + 1..m.mig.size() {
        count_three(counts, node_of(&m.mig, k));
    }
    for l in &m.outs {
        count(counts, *l);
    }
}

/// How often each node is read.
pub(crate) fn counted(m: &MigOuts, alloc: Global) -> Result<Vec<u8>, NoMemory>
    requires { AreNamed m.now.mig m.now.outs.items }
    ensures { IfOk result (λ v. AreReads m.now.mig m.now.outs.items v.items) }
{
    let mut counts = vec![in alloc; 0u8; m.mig.size() as usize]?;
    count_all(&mut counts, m);
    Ok(counts)
}

/// The literals of a node, as a node.
pub(crate) fn node_of(mig: &Mig, k: u32) -> Node
    requires above { mig.now.inputs < k }
    requires below { k < size_of mig.now }
    ensures { result ≡ node_numbered mig.now k }
{
    let [a, b, c] = mig.node(k);
    Node { a, b, c }
}
