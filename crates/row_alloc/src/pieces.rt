//! The commands of one node and of one output.

ghost use Rattle.std.specs.Prelude.{◌≡◌, ◌<◌, ◌≤◌, ◌+◌, ℕ, length, false, ◌++◌, OnOk};
ghost use Rattle.mig_graph.specs.Literals.{IsAnyOrder, IsLower, inversions, node_of};
ghost use Rattle.mig_graph.specs.Literals.{is_complemented as turns};
ghost use Rattle.mig_graph.specs.Graph.{node_at};
ghost use Rattle.row_alloc.specs.Phases.{source_of, node_commands, stash_commands};

use crate::body::{BodyCmd, BodyRef};
use faults::keep;
use mig_graph::{Lit, Mig, NoMemory, Node, is_complemented};

/// The row that holds the literal's node, or the constant.
pub fn source(l: Lit, inputs: u8) -> BodyRef
    requires inputs { inputs ≤ 80 }
    requires node { l.node < inputs + 33 }
    ensures { result ≡ source_of inputs l }
{
    if l.node == 0 {
        BodyRef::C(u8::from(l.inverted))
    } else if l.node <= u32::from(inputs) {
        BodyRef::In((l.node - 1) as u8)
    } else {
        BodyRef::Spill((l.node - u32::from(inputs) - 1) as u8)
    }
}

/// The three literals in an order in which only the first may be inverted.
fn arrange(a: Lit, b: Lit, c: Lit) -> Node
    requires { inversions (node_of a b c) ≤ 1 }
    ensures order { IsAnyOrder result a b c }
    ensures lower { (k : ℕ) → IsLower k (node_of a b c) → IsLower k result }
    ensures b { turns result.b ≡ false }
    ensures c { turns result.c ≡ false }
{
    if is_complemented(b) {
        Node { a: b, b: a, c }
    } else if is_complemented(c) {
        Node { a: c, b: a, c: b }
    } else {
        Node { a, b, c }
    }
}

/// The literals of the graph's k-th majority node, in an order in which only the first may be
/// inverted.
pub fn arranged(m: &Mig, k: u32) -> Node
    requires { k < length m.now.nodes }
    ensures order { let n = node_at m.now.nodes k in IsAnyOrder result n.a n.b n.c }
    ensures lower { IsLower (m.now.inputs + 1 + k) result }
    ensures b { turns result.b ≡ false }
    ensures c { turns result.c ≡ false }
{
    let [a, b, c] = m.node(u32::from(m.inputs()) + 1 + k);
    arrange(a, b, c)
}

/// Four commands that leave a node's value in a spill row.
pub fn push_node(cmds: &mut Vec<BodyCmd>, n: Node, inputs: u8, spill: u8) -> Result<(), NoMemory>
    requires inputs { inputs ≤ 80 }
    requires lower { IsLower (inputs + 33) n }
    ensures { OnOk result (cmds.new.items ≡ cmds.old.items ++ node_commands inputs n spill) }
{
    let into = if is_complemented(n.a) {
        BodyRef::B(5)
    } else {
        BodyRef::B(4)
    };
    keep(cmds, BodyCmd::Aap(source(n.a, inputs), into))?;
    keep(cmds, BodyCmd::Aap(source(n.b, inputs), BodyRef::B(1)))?;
    keep(cmds, BodyCmd::Aap(source(n.c, inputs), BodyRef::B(2)))?;
    keep(cmds, BodyCmd::Aap(BodyRef::B(14), BodyRef::Spill(spill)))
}

/// One or two commands that leave a literal's value in a spill row.
pub fn push_stash(cmds: &mut Vec<BodyCmd>, l: Lit, inputs: u8, spill: u8) -> Result<(), NoMemory>
    requires inputs { inputs ≤ 80 }
    requires lower { l.node < inputs + 33 }
    ensures { OnOk result (cmds.new.items ≡ cmds.old.items ++ stash_commands inputs l spill) }
{
    if is_complemented(l) {
        keep(cmds, BodyCmd::Aap(source(l, inputs), BodyRef::B(5)))?;
        keep(cmds, BodyCmd::Aap(BodyRef::B(4), BodyRef::Spill(spill)))
    } else {
        keep(cmds, BodyCmd::Aap(source(l, inputs), BodyRef::Spill(spill)))
    }
}
