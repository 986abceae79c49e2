//! An assignment under which a function is true, with few variables that are.

ghost use Rattle.std.specs.Prelude.{◌≡◌, ◌≢◌, ◌<◌, ◌≤◌, ◌+◌, ℕ, Bool, true, false, IfOk, OnOk};
ghost use Rattle.std.specs.Prelude.{length};
ghost use Rattle.bdd.specs.Edges.{constant};
ghost use Rattle.bdd.specs.Graphs.{AreNodes, IsNamed, IsCofactor, top, value};
ghost use Rattle.bdd.specs.Paths.{assigned};

use crate::{Edge, NoMemory, Node, complement_if, plain};
use faults::keep;
use std::alloc::Global;

/// No assignment.
const NEVER: u32 = u32::MAX;

/// The fewest variables that are true where an edge is, and where it is not. Nothing rests on it.
#[derive(Clone, Copy)]
pub(crate) struct Fewest {
    when_true: u32,
    when_false: u32,
}

/// Variables that are not counted: from the first one on, before the end.
#[derive(Clone, Copy)]
pub struct Uncounted {
    pub first: u32,
    pub end: u32,
}

/// What a variable counts.
fn weight(uncounted: Uncounted, variable: u32) -> u32 {
    if variable >= uncounted.first && variable < uncounted.end {
        0
    } else {
        1
    }
}

/// The numbers of an edge, by those of the nodes.
fn fewest_of(all: &[Fewest], e: Edge) -> Fewest {
    if e.node as usize >= all.len() {
        return Fewest {
            when_true: NEVER,
            when_false: NEVER,
        };
    }
    let node = all[e.node as usize];
    if e.inverted {
        Fewest {
            when_true: node.when_false,
            when_false: node.when_true,
        }
    } else {
        node
    }
}

/// The numbers of a node, by those of the nodes below it.
fn fewest_at(all: &[Fewest], n: Node, uncounted: Uncounted) -> Fewest {
    let low = fewest_of(all, plain(n.low));
    let high = fewest_of(all, n.high);
    let one = weight(uncounted, n.variable);
    Fewest {
        when_true: low.when_true.min(high.when_true.saturating_add(one)),
        when_false: low.when_false.min(high.when_false.saturating_add(one)),
    }
}

/// The numbers of the nodes up to this one.
fn count_all(
    nodes: &[Node],
    last: u32,
    uncounted: Uncounted,
    alloc: Global,
) -> Result<Vec<Fewest>, NoMemory> {
    let mut all = Vec::new(alloc);
    let constant = Fewest {
        when_true: NEVER,
        when_false: 0,
    };
    keep(&mut all, constant)?;
    for n in nodes.iter().take(last as usize + 1).skip(1) {
        let next = fewest_at(&all, *n, uncounted);
        keep(&mut all, next)?;
    }
    Ok(all)
}

/// Whether an edge is true with fewer variables where its own is.
fn is_high_cheaper(nodes: &[Node], e: Edge, all: &[Fewest], uncounted: Uncounted) -> bool
    requires { e.node < length nodes.now }
{
    let n = nodes[e.node as usize];
    let high = fewest_of(all, complement_if(e.inverted, n.high)).when_true;
    let low = fewest_of(all, complement_if(e.inverted, plain(n.low))).when_true;
    high.saturating_add(weight(uncounted, n.variable)) < low
}

/// A value of the edge's variable under which it is not constantly false, and what is left of it
/// there: this value, where the edge may be true under both.
fn step(nodes: &[Node], e: Edge, wanted: bool) -> (bool, Edge)
    requires nodes { AreNodes nodes.now }
    requires named { IsNamed nodes.now e }
    requires some { e.node ≢ 0 }
    ensures left { IsCofactor nodes.now (top nodes.now e.node) result.0 e result.1 }
    ensures different { result.1 ≢ constant false }
    ensures lower { result.1.node < e.node }
{
    let n = nodes[e.node as usize];
    let high = complement_if(e.inverted, n.high);
    let low = complement_if(e.inverted, plain(n.low));
    if high.node == 0 && !high.inverted {
        return (false, low);
    }
    if wanted {
        return (true, high);
    }
    if low.node == 0 && !low.inverted {
        return (true, high);
    }
    (false, low)
}

/// Gives the next variables false, and this one the value.
fn put(path: &mut Vec<bool>, variable: u32, value: bool) -> Result<(), NoMemory>
    requires { length path.old.items ≤ variable }
    ensures long { OnOk result (length path.new.items ≡ variable + 1) }
    ensures before { OnOk result ((k : ℕ) → k < length path.old.items
        → assigned path.new.items k ≡ assigned path.old.items k) }
    ensures here { OnOk result (assigned path.new.items variable ≡ value) }
{
    for k in path.len()..variable as usize {
        let _ = k;
        keep(path, false)?;
    }
    keep(path, value)?;
    Ok(())
}

/// An assignment under which the edge is true, with the fewest variables that are and count.
pub(crate) fn walk(
    nodes: &[Node],
    e: Edge,
    uncounted: Uncounted,
    alloc: Global,
) -> Result<Vec<bool>, NoMemory>
    requires nodes { AreNodes nodes.now }
    requires named { IsNamed nodes.now e }
    requires different { e ≢ constant false }
    ensures { IfOk result (λ v. value nodes.now (assigned v.items) e ≡ true) }
{
    let all = count_all(nodes, e.node, uncounted, alloc)?;
    let mut path = Vec::new(alloc);
    let mut at = e;
    while at.node != 0 {
        let variable = nodes[at.node as usize].variable;
        let wanted = is_high_cheaper(nodes, at, &all, uncounted);
        let (value, next) = step(nodes, at, wanted);
        put(&mut path, variable, value)?;
        at = next;
    }
    Ok(path)
}

/// The value of a variable.
fn value_at(path: &[bool], variable: usize) -> bool
    ensures { result ≡ assigned path.now variable }
{
    if variable < path.len() {
        path[variable]
    } else {
        false
    }
}

/// What is left of an edge where its variable has this value.
fn taken(nodes: &[Node], e: Edge, value: bool) -> Edge
    requires nodes { AreNodes nodes.now }
    requires named { IsNamed nodes.now e }
    requires some { e.node ≢ 0 }
    ensures left { IsCofactor nodes.now (top nodes.now e.node) value e result }
    ensures lower { result.node < e.node }
{
    let n = nodes[e.node as usize];
    if value {
        complement_if(e.inverted, n.high)
    } else {
        complement_if(e.inverted, plain(n.low))
    }
}

/// The value of an edge under an assignment.
pub(crate) fn evaluate(nodes: &[Node], e: Edge, path: &[bool]) -> bool
    requires nodes { AreNodes nodes.now }
    requires named { IsNamed nodes.now e }
    ensures { result ≡ value nodes.now (assigned path.now) e }
{
    let mut at = e;
    while at.node != 0 {
        let variable = nodes[at.node as usize].variable;
        at = taken(nodes, at, value_at(path, variable as usize));
    }
    at.inverted
}
