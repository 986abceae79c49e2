//! Gates, as nodes of a list that grows.

ghost use Rattle.std.specs.Prelude.{◌≡◌, ◌<◌, ◌+◌, ◌^◌, ℕ, Bool, length, IfOk, OnOk, ◌++◌, ◌∷◌, []};
ghost use Rattle.std.specs.Prelude.{not, ◌&&◌, if◌then◌else◌, true};
ghost use Rattle.op_text.specs.Values.{differ};
ghost use Rattle.aoi_graph.specs.Gates.{AreLower, ReadsBelow, is_gate, gate_value, aoi_values};
ghost use Rattle.aoi_graph.specs.Blocks.{Numbers, IsHeld, AreHeld};
ghost use Rattle.aoi_graph.specs.Making.{Grows};

use crate::{AoiNode, NoMemory};
use faults::keep;

/// One node more.
fn push(nodes: &mut Vec<AoiNode>, node: AoiNode) -> Result<u32, NoMemory>
    requires room { length nodes.old.items < 2 ^ 31 }
    ensures { IfOk result (λ r. (nodes.new.items ≡ nodes.old.items ++ node ∷ [])
        × (r ≡ length nodes.old.items)) }
{
    let k = nodes.len() as u32;
    keep(nodes, node)?;
    Ok(k)
}

/// The node of a gate over nodes that stand.
pub(crate) fn gate(nodes: &mut Vec<AoiNode>, node: AoiNode) -> Result<u32, NoMemory>
    requires lower { AreLower nodes.old.items }
    requires below { ReadsBelow (length nodes.old.items) node }
    requires room { length nodes.old.items < 2 ^ 31 }
    ensures grows { OnOk result (Grows nodes.old.items nodes.new.items (if is_gate node then 1
        else 0) 1) }
    ensures named { IfOk result (λ r. r < length nodes.new.items) }
    ensures value { IfOk result (λ r. (bits : ℕ → Bool)
        → aoi_values nodes.new.items bits r ≡ gate_value bits (aoi_values nodes.old.items bits)
        node) }
    ensures held { IfOk result (λ _. (inputs : Numbers) → IsHeld inputs node
        → AreHeld inputs nodes.old.items → AreHeld inputs nodes.new.items) }
{
    push(nodes, node)
}

/// The constant 1.
pub(crate) fn one(nodes: &mut Vec<AoiNode>) -> Result<u32, NoMemory>
    requires lower { AreLower nodes.old.items }
    requires room { length nodes.old.items + 2 < 2 ^ 31 }
    ensures grows { OnOk result (Grows nodes.old.items nodes.new.items 0 2) }
    ensures named { IfOk result (λ r. r < length nodes.new.items) }
    ensures value { IfOk result (λ r. (bits : ℕ → Bool)
        → aoi_values nodes.new.items bits r ≡ true) }
    ensures held { IfOk result (λ _. (inputs : Numbers) → AreHeld inputs nodes.old.items
        → AreHeld inputs nodes.new.items) }
{
    let zero = gate(nodes, AoiNode::Zero)?;
    gate(nodes, AoiNode::Not(zero))
}

/// One half of an exclusive or: a and not b.
fn and_not(nodes: &mut Vec<AoiNode>, a: u32, b: u32) -> Result<u32, NoMemory>
    requires lower { AreLower nodes.old.items }
    requires a { a < length nodes.old.items }
    requires b { b < length nodes.old.items }
    requires room { length nodes.old.items + 2 < 2 ^ 31 }
    ensures grows { OnOk result (Grows nodes.old.items nodes.new.items 1 2) }
    ensures named { IfOk result (λ r. r < length nodes.new.items) }
    ensures value { IfOk result (λ r. (bits : ℕ → Bool)
        → aoi_values nodes.new.items bits r ≡ (aoi_values nodes.old.items bits a
        && not (aoi_values nodes.old.items bits b))) }
    ensures held { IfOk result (λ _. (inputs : Numbers) → AreHeld inputs nodes.old.items
        → AreHeld inputs nodes.new.items) }
{
    let other = gate(nodes, AoiNode::Not(b))?;
    gate(nodes, AoiNode::And(a, other))
}

/// The exclusive or of two nodes.
pub(crate) fn xor(nodes: &mut Vec<AoiNode>, a: u32, b: u32) -> Result<u32, NoMemory>
    requires lower { AreLower nodes.old.items }
    requires a { a < length nodes.old.items }
    requires b { b < length nodes.old.items }
    requires room { length nodes.old.items + 5 < 2 ^ 31 }
    ensures grows { OnOk result (Grows nodes.old.items nodes.new.items 3 5) }
    ensures named { IfOk result (λ r. r < length nodes.new.items) }
    ensures value { IfOk result (λ r. (bits : ℕ → Bool)
        → aoi_values nodes.new.items bits r ≡ differ (aoi_values nodes.old.items bits a)
        (aoi_values nodes.old.items bits b)) }
    ensures held { IfOk result (λ _. (inputs : Numbers) → AreHeld inputs nodes.old.items
        → AreHeld inputs nodes.new.items) }
{
    let left = and_not(nodes, a, b)?;
    let right = and_not(nodes, b, a)?;
    gate(nodes, AoiNode::Or(left, right))
}
