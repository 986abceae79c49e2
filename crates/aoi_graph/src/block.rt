//! The graph of a block.

ghost use Rattle.std.specs.Prelude.{◌≡◌, ◌≢◌, ◌<◌, ◌≤◌, ◌+◌, ◌*◌, ◌^◌, ℕ, Bool, List, [], ◌∷◌};
ghost use Rattle.std.specs.Prelude.{◌++◌, length, count_by, slice_index, Some, IfOk, OnOk};
ghost use Rattle.std.specs.Prelude.{bytes_eq};
ghost use Rattle.indexmap.specs.IndexMap.{get};
ghost use Rattle.op_text.specs.Language.{term};
ghost use Rattle.op_text.specs.Meaning.{term_bit};
ghost use Rattle.op_text.specs.Scratch.{term_weight};
ghost use Rattle.aoi_graph.specs.Gates.{AreLower, is_gate, aoi_values};
ghost use Rattle.aoi_graph.specs.Blocks.{AreHeld, NamesInputs, IsStart, BlockReads, is_input};
ghost use Rattle.aoi_graph.specs.Blocks.{HaveValues, after_lets, parts, all_parts, all_weights};
ghost use Rattle.aoi_graph.specs.Making.{Grows, AreBelow, IsEnv, name_value};

use crate::gates::{gate, one, xor};
use crate::{AoiGraph, AoiNode, NoMemory};
use faults::keep;
use indexmap::IndexMap;
use op_text::{Assign, Expr};
use std::alloc::Global;
use text_lex::Name;

/// The node of a name: its own, or the input of its number.
fn read(
    nodes: &mut Vec<AoiNode>,
    known: &IndexMap<Name, u32>,
    inputs: &IndexMap<Name, u8>,
    name: &Name,
) -> Result<u32, NoMemory>
    requires lower { AreLower nodes.old.items }
    requires known { AreBelow known.now (length nodes.old.items) }
    requires room { length nodes.old.items + 1 < 2 ^ 31 }
    ensures grows { OnOk result (Grows nodes.old.items nodes.new.items 0 1) }
    ensures named { IfOk result (λ r. r < length nodes.new.items) }
    ensures value { IfOk result (λ r. (bits : ℕ → Bool)
        → aoi_values nodes.new.items bits r ≡ name_value nodes.old.items known.now inputs.now bits
        name.now) }
    ensures held { IfOk result (λ _. AreHeld inputs.now nodes.old.items
        → AreHeld inputs.now nodes.new.items) }
{
    match known.get(name).copied() {
        Some(k) => Ok(k),
        None => match inputs.get(name).copied() {
            Some(i) => gate(nodes, AoiNode::Input(i)),
            None => gate(nodes, AoiNode::Zero),
        },
    }
}

/// The nodes of two expressions, one after the other.
#[cycle(expressions)]
fn pair(
    nodes: &mut Vec<AoiNode>,
    known: &IndexMap<Name, u32>,
    inputs: &IndexMap<Name, u8>,
    a: &Expr,
    b: &Expr,
) -> Result<(u32, u32), NoMemory>
    requires lower { AreLower nodes.old.items }
    requires known { AreBelow known.now (length nodes.old.items) }
    requires room { length nodes.old.items + 5 * (parts (term a.now) + parts (term b.now))
        < 2 ^ 31 }
    ensures grows { OnOk result (Grows nodes.old.items nodes.new.items (term_weight (term a.now)
        + term_weight (term b.now)) (5 * (parts (term a.now) + parts (term b.now)))) }
    ensures named { IfOk result (λ r. (r.0 < length nodes.new.items)
        × (r.1 < length nodes.new.items)) }
    ensures value { IfOk result (λ r. (bits : ℕ → Bool) (env : List ℕ → Bool)
        → IsEnv nodes.old.items known.now inputs.now bits env
        → (aoi_values nodes.new.items bits r.0 ≡ term_bit env (term a.now))
        × (aoi_values nodes.new.items bits r.1 ≡ term_bit env (term b.now))) }
    ensures held { IfOk result (λ _. AreHeld inputs.now nodes.old.items
        → AreHeld inputs.now nodes.new.items) }
{
    let a = expression(nodes, known, inputs, a)?;
    let b = expression(nodes, known, inputs, b)?;
    Ok((a, b))
}

/// The node of an expression.
#[cycle(expressions)]
fn expression(
    nodes: &mut Vec<AoiNode>,
    known: &IndexMap<Name, u32>,
    inputs: &IndexMap<Name, u8>,
    e: &Expr,
) -> Result<u32, NoMemory>
    requires lower { AreLower nodes.old.items }
    requires known { AreBelow known.now (length nodes.old.items) }
    requires room { length nodes.old.items + 5 * parts (term e.now) < 2 ^ 31 }
    ensures grows { OnOk result (Grows nodes.old.items nodes.new.items (term_weight (term e.now)) (5
        * parts (term e.now))) }
    ensures named { IfOk result (λ r. r < length nodes.new.items) }
    ensures value { IfOk result (λ r. (bits : ℕ → Bool) (env : List ℕ → Bool)
        → IsEnv nodes.old.items known.now inputs.now bits env
        → aoi_values nodes.new.items bits r ≡ term_bit env (term e.now)) }
    ensures held { IfOk result (λ _. AreHeld inputs.now nodes.old.items
        → AreHeld inputs.now nodes.new.items) }
{
    match e {
        Expr::Zero => gate(nodes, AoiNode::Zero),
        Expr::One => one(nodes),
        Expr::Read(name) => read(nodes, known, inputs, name),
        Expr::Not(a) => {
            let a = expression(nodes, known, inputs, a)?;
            gate(nodes, AoiNode::Not(a))
        }
        Expr::And(a, b) => {
            let (a, b) = pair(nodes, known, inputs, a, b)?;
            gate(nodes, AoiNode::And(a, b))
        }
        Expr::Or(a, b) => {
            let (a, b) = pair(nodes, known, inputs, a, b)?;
            gate(nodes, AoiNode::Or(a, b))
        }
        Expr::Xor(a, b) => {
            let (a, b) = pair(nodes, known, inputs, a, b)?;
            xor(nodes, a, b)
        }
        Expr::Maj(a, b, c) => {
            let (a, b) = pair(nodes, known, inputs, a, b)?;
            let c = expression(nodes, known, inputs, c)?;
            gate(nodes, AoiNode::Maj(a, b, c))
        }
    }
}

/// Notes the node of a name.
fn note(known: &mut IndexMap<Name, u32>, name: Name, k: u32) -> Result<(), NoMemory>
    ensures same { OnOk result (get bytes_eq known.new name ≡ Some k) }
    ensures others { OnOk result ((other : List ℕ) → other ≢ name
        → get bytes_eq known.new other ≡ get bytes_eq known.old other) }
{
    known.insert(name, k)?;
    Ok(())
}

/// The nodes of the lets.
fn let_nodes(
    nodes: &mut Vec<AoiNode>,
    known: &mut IndexMap<Name, u32>,
    inputs: &IndexMap<Name, u8>,
    lets: &[Assign],
) -> Result<(), NoMemory>
    requires lower { AreLower nodes.old.items }
    requires known { AreBelow known.old (length nodes.old.items) }
    requires room { length nodes.old.items + 5 * all_parts lets.now < 2 ^ 31 }
    ensures grows { OnOk result (Grows nodes.old.items nodes.new.items (all_weights lets.now) (5
        * all_parts lets.now)) }
    ensures known { OnOk result (AreBelow known.new (length nodes.new.items)) }
    ensures value { OnOk result ((bits : ℕ → Bool) (env : List ℕ → Bool)
        → IsEnv nodes.old.items known.old inputs.now bits env
        → IsEnv nodes.new.items known.new inputs.now bits (after_lets env lets.now)) }
    ensures held { IfOk result (λ _. AreHeld inputs.now nodes.old.items
        → AreHeld inputs.now nodes.new.items) }
{
    for a in lets {
        let k = expression(nodes, known, inputs, &a.value)?;
        note(known, a.name.copied(), k)?;
    }
    Ok(())
}

/// The nodes of the assignments, as outputs.
fn out_nodes(
    nodes: &mut Vec<AoiNode>,
    known: &IndexMap<Name, u32>,
    inputs: &IndexMap<Name, u8>,
    assigns: &[Assign],
    outs: &mut Vec<u32>,
) -> Result<(), NoMemory>
    requires lower { AreLower nodes.old.items }
    requires known { AreBelow known.now (length nodes.old.items) }
    requires room { length nodes.old.items + 5 * all_parts assigns.now < 2 ^ 31 }
    requires none { outs.old.items ≡ [] }
    ensures grows { OnOk result (Grows nodes.old.items nodes.new.items (all_weights assigns.now) (5
        * all_parts assigns.now)) }
    ensures long { OnOk result (length outs.new.items ≡ length assigns.now) }
    ensures named { OnOk result ((j : ℕ) → j < length assigns.now
        → slice_index outs.new.items j < length nodes.new.items) }
    ensures value { OnOk result ((bits : ℕ → Bool) (env : List ℕ → Bool)
        → IsEnv nodes.old.items known.now inputs.now bits env
        → HaveValues nodes.new.items outs.new.items bits env assigns.now) }
    ensures held { IfOk result (λ _. AreHeld inputs.now nodes.old.items
        → AreHeld inputs.now nodes.new.items) }
{
    for a in assigns {
        let k = expression(nodes, known, inputs, &a.value)?;
        keep(outs, k)?;
    }
    Ok(())
}

/// The graph of a block: an output for each assignment, where the lets name values.
///
/// A name that is neither an input nor an earlier let reads as 0.
pub fn build(
    lets: &[Assign],
    assigns: &[Assign],
    inputs: &IndexMap<Name, u8>,
    alloc: Global,
) -> Result<AoiGraph, NoMemory>
    requires room { all_parts lets.now + all_parts assigns.now < 2 ^ 28 }
    ensures lower { IfOk result (λ g. AreLower g.nodes.items) }
    ensures long { IfOk result (λ g. length g.outs.items ≡ length assigns.now) }
    ensures named { IfOk result (λ g. (j : ℕ) → j < length g.outs.items
        → slice_index g.outs.items j < length g.nodes.items) }
    ensures value { IfOk result (λ g. (bits : ℕ → Bool) (env : List ℕ → Bool)
        → BlockReads (is_input inputs.now) lets.now assigns.now → NamesInputs inputs.now bits env
        → HaveValues g.nodes.items g.outs.items bits (after_lets env lets.now) assigns.now) }
    ensures unknown { IfOk result (λ g. (bits : ℕ → Bool) (env : List ℕ → Bool)
        → IsStart inputs.now bits env → HaveValues g.nodes.items g.outs.items bits
        (after_lets env lets.now) assigns.now) }
    ensures gates { IfOk result (λ g. count_by is_gate g.nodes.items
        ≤ all_weights lets.now + all_weights assigns.now) }
    ensures most { IfOk result (λ g. length g.nodes.items < 2 ^ 31) }
    ensures held { IfOk result (λ g. AreHeld inputs.now g.nodes.items) }
{
    let mut nodes = Vec::new(alloc);
    let mut known = IndexMap::new(alloc);
    let_nodes(&mut nodes, &mut known, inputs, lets)?;
    let mut outs = Vec::new(alloc);
    out_nodes(&mut nodes, &known, inputs, assigns, &mut outs)?;
    Ok(AoiGraph { nodes, outs })
}
