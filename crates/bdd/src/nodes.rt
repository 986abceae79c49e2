//! Nodes in a list: which variable each asks for, what is left of one where a variable is known,
//! and one more.

ghost use Rattle.std.specs.Prelude.{◌≡◌, ◌⊎◌, ◌≢◌, ◌<◌, ◌≤◌, ◌++◌, ◌∷◌, [], ℕ, Bool};
ghost use Rattle.std.specs.Prelude.{IfOk, Err, length};
ghost use Rattle.bdd.specs.declared.Edge.{Edge};
ghost use Rattle.bdd.specs.declared.Limits.{Limits};
ghost use Rattle.bdd.specs.declared.Shortage.{Shortage};
ghost use Rattle.bdd.specs.Edges.{plain, behind};
ghost use Rattle.bdd.specs.Graphs.{AreNodes, AreNamed, IsNamed, IsProper, IsCofactor, node_at, top};
ghost use Rattle.bdd.specs.Graphs.{value, HasReached};

use crate::table::{Place, find, widen};
use crate::{Choice, Edge, Node, Shortage, complement_if, plain};

/// The first variable that any of the choice's edges asks for.
pub(crate) fn first_variable(nodes: &[Node], c: Choice) -> u32
    requires nodes { AreNodes nodes.now }
    requires named { AreNamed nodes.now (plain c.test) c.high (plain c.low) }
    requires test { c.test ≢ 0 }
    ensures least { (w : ℕ) → w ≤ top nodes.now c.test → w ≤ top nodes.now c.high.node
        → w ≤ top nodes.now c.low → w ≤ result }
    ensures test { result ≤ top nodes.now c.test }
    ensures high { result ≤ top nodes.now c.high.node }
    ensures low { result ≤ top nodes.now c.low }
    ensures variable { result < behind }
{
    let test = nodes[c.test as usize].variable;
    let high = nodes[c.high.node as usize].variable;
    let low = nodes[c.low as usize].variable;
    test.min(high).min(low)
}

/// What is left of an edge where the variable has this value.
pub(crate) fn cofactor(nodes: &[Node], e: Edge, variable: u32, value: bool) -> Edge
    requires nodes { AreNodes nodes.now }
    requires named { IsNamed nodes.now e }
    requires early { variable ≤ top nodes.now e.node }
    requires variable { variable < behind }
    ensures { IsCofactor nodes.now variable value e result }
{
    let n = nodes[e.node as usize];
    if n.variable == variable {
        complement_if(e.inverted, if value { n.high } else { plain(n.low) })
    } else {
        e
    }
}

/// The number of the node, which is a new one where it does not stand.
pub(crate) fn store(
    nodes: &mut Vec<Node>,
    slots: &mut Vec<u32>,
    bound: u32,
    n: Node,
) -> Result<u32, Shortage>
    requires nodes { 0 < length nodes.old.items }
    requires small { length nodes.old.items ≤ bound }
    ensures small { length nodes.new.items ≤ bound }
    ensures stands { IfOk result (λ k. (0 < k) × (k < length nodes.new.items)
        × (node_at nodes.new.items k ≡ n)) }
    ensures kept { (nodes.new.items ≡ nodes.old.items)
        ⊎ (nodes.new.items ≡ nodes.old.items ++ n ∷ []) }
    ensures reached { (limits : Limits) (questions : ℕ) → limits.nodes ≡ bound → (s : Shortage)
        → result ≡ Err s → HasReached s (record {
          limits = limits;
          questions = questions;
          nodes = nodes.new.items;
        }) }
{
    if nodes.len() > slots.len() / 2 && widen(nodes, slots).is_err() {
        return Err(Shortage::NoMemory);
    }
    let place = find(nodes, slots, n);
    if let Place::Standing(k) = place {
        return Ok(k);
    }
    let count = nodes.len();
    if count >= bound as usize {
        return Err(Shortage::Full);
    }
    let k = count as u32;
    match nodes.push(n) {
        Ok(()) => {}
        Err(_) => return Err(Shortage::NoMemory),
    }
    if let Place::Free(slot) = place {
        if slot < slots.len() {
            slots[slot] = k;
        }
    }
    Ok(k)
}
