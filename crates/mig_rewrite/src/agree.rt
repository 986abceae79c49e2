//! Whether two graphs' outputs are equal on every assignment of the inputs.

ghost use Rattle.std.specs.Prelude.{◌≡◌, ◌≢◌, ◌<◌, ◌≤◌, ◌-◌, ◌+◌, ◌↔◌, ℕ, Bool, IsTrue, IfOk};
ghost use Rattle.std.specs.Prelude.{length};
ghost use Rattle.bit_rows.specs.Bits.{majority};
ghost use Rattle.mig_graph.specs.Literals.{lit_value, node_value};
ghost use Rattle.mig_graph.specs.Graph.{size_of, values};
ghost use Rattle.mig_graph.specs.Outputs.{lit_at, AreNamed, KeepsOutputs};
ghost use Rattle.mig_graph.specs.Reduced.{node_numbered};
ghost use Rattle.mig_rewrite.specs.Plan.{is_marked};
ghost use Rattle.mig_rewrite.specs.Values.{FitsFrom, HasValues, Agree};

use crate::plan::unmarked;
use crate::tally::node_of;
use mig_graph::{Lit, Mig, MigOuts, NoMemory, Node};
use std::alloc::Global;

/// The most inputs of graphs that are compared: 4,096 assignments.
const MOST_INPUTS: u8 = 12;

/// A literal's value.
fn value_of(values: &[bool], l: Lit) -> bool
    requires { l.node < length values.now }
    ensures { result ≡ lit_value (is_marked values.now) l }
{
    let value = values[l.node as usize];
    if l.inverted { !value } else { value }
}

/// The majority of three.
#[tactic(auto, unfolding(bit_rows::specs::Bits::majority))]
fn majority_of(a: bool, b: bool, c: bool) -> bool
    ensures { result ≡ majority a b c }
{
    if a { b || c } else { b && c }
}

/// A node's value.
fn node_value_of(values: &[bool], n: Node) -> bool
    requires a { n.a.node < length values.now }
    requires b { n.b.node < length values.now }
    requires c { n.c.node < length values.now }
    ensures { result ≡ node_value (is_marked values.now) n }
{
    majority_of(
        value_of(values, n.a),
        value_of(values, n.b),
        value_of(values, n.c),
    )
}

/// Puts a value into the list.
fn put(values: &mut [bool], k: u32, value: bool)
    requires { k < length values.old }
    ensures long { length values.new ≡ length values.old }
    ensures here { is_marked values.new k ≡ value }
    ensures others { (j : ℕ) → j ≢ k → is_marked values.new j ≡ is_marked values.old j }
{
    values[k as usize] = value;
}

/// Puts the values of the constant and the inputs.
fn put_inputs(m: &Mig, bits: &[bool], values: &mut [bool])
    requires long { length values.old ≡ size_of m.now }
    requires bits { length bits.now ≡ m.now.inputs }
    ensures long { length values.new ≡ length values.old }
    ensures values { HasValues m.now bits.now values.new (m.now.inputs + 1) }
{
    let inputs = m.inputs();
    put(values, 0, false);
    for k in 0..inputs {
        put(values, k as u32 + 1, bits[k as usize]);
    }
}

/// Puts the values of all nodes, where the inputs have these.
fn evaluate(m: &Mig, bits: &[bool], values: &mut [bool])
    requires long { length values.old ≡ size_of m.now }
    requires bits { length bits.now ≡ m.now.inputs }
    ensures long { length values.new ≡ length values.old }
    ensures values { HasValues m.now bits.now values.new (size_of m.now) }
{
    let first = m.inputs() as u32 + 1;
    put_inputs(m, bits, values);
    for k in first..m.size() {
        let value = node_value_of(values, node_of(m, k));
        put(values, k, value);
    }
}

/// Whether the literals have the same values by two lists.
fn same_outputs(outs: &[Lit], values: &[bool], made: &[Lit], others: &[bool]) -> bool
    requires long { length made.now ≡ length outs.now }
    requires named { (k : ℕ) → k < length outs.now
        → (lit_at outs.now k).node < length values.now }
    requires named_others { (k : ℕ) → k < length made.now
        → (lit_at made.now k).node < length others.now }
    ensures { IsTrue result ↔ ((k : ℕ) → k < length outs.now
        → lit_value (is_marked others.now) (lit_at made.now k)
        ≡ lit_value (is_marked values.now) (lit_at outs.now k)) }
{
    for k in 0..outs.len() {
        if value_of(others, made[k]) != value_of(values, outs[k]) {
            return false;
        }
    }
    true
}

/// Whether the outputs agree where the inputs have these values.
fn agree_at(
    m: &MigOuts,
    r: &MigOuts,
    bits: &[bool],
    values: &mut [bool],
    others: &mut [bool],
) -> bool
    requires named { AreNamed m.now.mig m.now.outs.items }
    requires named_others { AreNamed r.now.mig r.now.outs.items }
    requires inputs { r.now.mig.inputs ≡ m.now.mig.inputs }
    requires outputs { length r.now.outs.items ≡ length m.now.outs.items }
    requires bits { length bits.now ≡ m.now.mig.inputs }
    requires long { length values.old ≡ size_of m.now.mig }
    requires long_others { length others.old ≡ size_of r.now.mig }
    ensures long { length values.new ≡ length values.old }
    ensures long_others { length others.new ≡ length others.old }
    ensures agree { IsTrue result ↔ ((v : ℕ → Bool) → FitsFrom 0 bits.now v
        → Agree m.now.mig m.now.outs.items r.now.mig r.now.outs.items v) }
{
    evaluate(&m.mig, bits, values);
    evaluate(&r.mig, bits, others);
    same_outputs(&m.outs, values, &r.outs, others)
}

/// Whether the outputs agree on every assignment of the first inputs, so many, where the others
/// have these values.
fn agree(
    m: &MigOuts,
    r: &MigOuts,
    bits: &mut [bool],
    values: &mut [bool],
    others: &mut [bool],
    free: u8,
) -> bool
    requires named { AreNamed m.now.mig m.now.outs.items }
    requires named_others { AreNamed r.now.mig r.now.outs.items }
    requires inputs { r.now.mig.inputs ≡ m.now.mig.inputs }
    requires outputs { length r.now.outs.items ≡ length m.now.outs.items }
    requires bits { length bits.old ≡ m.now.mig.inputs }
    requires long { length values.old ≡ size_of m.now.mig }
    requires long_others { length others.old ≡ size_of r.now.mig }
    requires free { free ≤ length bits.old }
    ensures bits { length bits.new ≡ length bits.old }
    ensures long { length values.new ≡ length values.old }
    ensures long_others { length others.new ≡ length others.old }
    ensures kept { (j : ℕ) → free ≤ j → is_marked bits.new j ≡ is_marked bits.old j }
    ensures agree { IsTrue result ↔ ((v : ℕ → Bool) → FitsFrom free bits.old v
        → Agree m.now.mig m.now.outs.items r.now.mig r.now.outs.items v) }
{
    if free == 0 {
        return agree_at(m, r, bits, values, others);
    }
    let last = free - 1;
    put(bits, last as u32, false);
    if !agree(m, r, bits, values, others, last) {
        return false;
    }
    put(bits, last as u32, true);
    agree(m, r, bits, values, others, last)
}

/// Whether the second graph keeps the outputs of the first, which has at most 12 inputs: graphs of
/// more are not compared.
pub(crate) fn keeps_outputs(m: &MigOuts, r: &MigOuts, alloc: Global) -> Result<bool, NoMemory>
    requires named { AreNamed m.now.mig m.now.outs.items }
    requires named_others { AreNamed r.now.mig r.now.outs.items }
    ensures { IfOk result (λ yes. IsTrue yes ↔ ((m.now.mig.inputs ≤ 12)
        × KeepsOutputs m.now.mig m.now.outs.items r.now.mig r.now.outs.items)) }
{
    let inputs = m.mig.inputs();
    if inputs > MOST_INPUTS || r.mig.inputs() != inputs || r.outs.len() != m.outs.len() {
        return Ok(false);
    }
    let mut bits = unmarked(inputs as u32, alloc)?;
    let mut values = unmarked(m.mig.size(), alloc)?;
    let mut others = unmarked(r.mig.size(), alloc)?;
    Ok(agree(m, r, &mut bits, &mut values, &mut others, inputs))
}
