//! The search for two nodes that one can take the place of.

ghost use Rattle.std.specs.Prelude.{◌≡◌, ◌<◌, ◌≤◌, ◌↔◌, IsTrue, IfSome, IfNone, IfOk, Ok, None};
ghost use Rattle.std.specs.Prelude.{false};
ghost use Rattle.mig_graph.specs.declared.Lit.{Lit};
ghost use Rattle.mig_graph.specs.Literals.{IsAnyOrder, NamesThree};
ghost use Rattle.mig_graph.specs.Graph.{size_of};
ghost use Rattle.mig_graph.specs.Outputs.{AreNamed};
ghost use Rattle.mig_graph.specs.Reduced.{reads, node_numbered, in_common, CanMerge, IsReduced};
ghost use Rattle.mig_rewrite.specs.Merge.{IsMerge, NoMerge};
ghost use Rattle.mig_rewrite.specs.Plan.{MayMerge};
ghost use Rattle.mig_rewrite.specs.Counts.{AreReads};

use crate::tally::{counted, node_of};
use mig_graph::{Lit, MigOuts, NoMemory, Node};
use std::alloc::Global;

/// The node is `M(first, second, z)`, the first `M(x, y, u)` and the second `M(x, y, v)`.
#[derive(Clone, Copy, PartialEq, Eq)]
pub(crate) struct Merge {
    pub node: u32,
    pub first: u32,
    pub second: u32,
    pub x: Lit,
    pub y: Lit,
    pub u: Lit,
    pub v: Lit,
    pub z: Lit,
}

/// Whether both are as asked.
fn is_pair(a: Lit, b: Lit, x: Lit, y: Lit) -> bool
    ensures { IsTrue result ↔ ((a ≡ x) × (b ≡ y)) }
{
    a == x && b == y
}

/// The third literal of a node that has these two.
fn third(n: Node, x: Lit, y: Lit) -> Option<Lit>
    ensures some { IfSome result (IsAnyOrder n x y) }
    ensures none { IfNone result ((l : Lit) → IsAnyOrder n x y l → ⊥) }
{
    if is_pair(n.a, n.b, x, y) {
        Some(n.c)
    } else if is_pair(n.a, n.c, x, y) {
        Some(n.b)
    } else if is_pair(n.b, n.a, x, y) {
        Some(n.c)
    } else if is_pair(n.b, n.c, x, y) {
        Some(n.a)
    } else if is_pair(n.c, n.a, x, y) {
        Some(n.b)
    } else if is_pair(n.c, n.b, x, y) {
        Some(n.a)
    } else {
        None
    }
}

/// Two literals of two nodes, and the third of each.
#[derive(Clone, Copy)]
struct Shared {
    x: Lit,
    y: Lit,
    u: Lit,
    v: Lit,
}

/// Two literals that both nodes have.
fn common(p: Node, q: Node) -> Option<Shared>
    requires { NamesThree p }
    ensures first { IfSome result (λ s. IsAnyOrder p s.x s.y s.u) }
    ensures second { IfSome result (λ s. IsAnyOrder q s.x s.y s.v) }
    ensures none { IfNone result (2 ≤ in_common p q → ⊥) }
{
    if let Some(v) = third(q, p.a, p.b) {
        return Some(Shared {
            x: p.a,
            y: p.b,
            u: p.c,
            v,
        });
    }
    if let Some(v) = third(q, p.a, p.c) {
        return Some(Shared {
            x: p.a,
            y: p.c,
            u: p.b,
            v,
        });
    }
    if let Some(v) = third(q, p.b, p.c) {
        return Some(Shared {
            x: p.b,
            y: p.c,
            u: p.a,
            v,
        });
    }
    None
}

/// Whether the literal is a node that is read once and not inverted.
fn is_inner(m: &MigOuts, counts: &[u8], l: Lit) -> bool
    requires named { l.node < size_of m.now.mig }
    requires counts { AreReads m.now.mig m.now.outs.items counts.now }
    ensures { IsTrue result ↔ ((l.inverted ≡ false) × (m.now.mig.inputs < l.node)
        × (reads m.now.mig m.now.outs.items l.node ≡ 1)) }
{
    !l.inverted && l.node > m.mig.inputs() as u32 && counts[l.node as usize] == 1
}

/// The merge of two literals of a node, where z is the third.
fn pair_merge(m: &MigOuts, counts: &[u8], k: u32, p: Lit, q: Lit, z: Lit) -> Option<Merge>
    requires above { m.now.mig.inputs < k }
    requires below { k < size_of m.now.mig }
    requires of_node { IsAnyOrder (node_numbered m.now.mig k) p q z }
    requires counts { AreReads m.now.mig m.now.outs.items counts.now }
    ensures some { IfSome result (IsMerge m.now.mig m.now.outs.items) }
    ensures none { IfNone result (CanMerge m.now.mig m.now.outs.items p q → ⊥) }
{
    let _ = m.mig.inputs();
    if !is_inner(m, counts, p) {
        return None;
    }
    if !is_inner(m, counts, q) {
        return None;
    }
    let found = common(node_of(&m.mig, p.node), node_of(&m.mig, q.node))?;
    Some(Merge {
        node: k,
        first: p.node,
        second: q.node,
        x: found.x,
        y: found.y,
        u: found.u,
        v: found.v,
        z,
    })
}

/// A merge at a node.
fn node_merge(m: &MigOuts, counts: &[u8], k: u32) -> Option<Merge>
    requires above { m.now.mig.inputs < k }
    requires below { k < size_of m.now.mig }
    requires counts { AreReads m.now.mig m.now.outs.items counts.now }
    ensures some { IfSome result (IsMerge m.now.mig m.now.outs.items) }
    ensures none { IfNone result (NoMerge m.now.mig m.now.outs.items (node_numbered m.now.mig k)) }
{
    let n = node_of(&m.mig, k);
    if let Some(found) = pair_merge(m, counts, k, n.a, n.b, n.c) {
        return Some(found);
    }
    if let Some(found) = pair_merge(m, counts, k, n.a, n.c, n.b) {
        return Some(found);
    }
    pair_merge(m, counts, k, n.b, n.c, n.a)
}

/// A merge in the graph, or none where it is reduced.
pub(crate) fn any_merge(m: &MigOuts, alloc: Global) -> Result<Option<Merge>, NoMemory>
    requires { AreNamed m.now.mig m.now.outs.items }
    ensures some { IfOk result (MayMerge m.now.mig m.now.outs.items) }
    ensures none { result ≡ Ok None → IsReduced m.now.mig m.now.outs.items }
{
    let counts = counted(m, alloc)?;
    for k in m.mig.inputs() as u32 + 1..m.mig.size() {
        if let Some(found) = node_merge(m, &counts, k) {
            return Ok(Some(found));
        }
    }
    Ok(None)
}
