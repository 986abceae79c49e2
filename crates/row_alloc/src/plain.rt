//! The plain body: each node into a spill row, then each output into a spill row, then the outputs
//! into their own rows.
//!
//! So every input is read before any output is written, and an output may stand in an input's row.

ghost use Rattle.std.specs.Prelude.{◌≡◌, ◌<◌, ◌≤◌, ◌+◌, ◌*◌, List, [], ◌∷◌, length, false};
ghost use Rattle.std.specs.Prelude.{IfOk, sum_by};
ghost use Rattle.mig_graph.specs.Literals.{is_complemented as turns};
ghost use Rattle.row_alloc.specs.Rows.{out_at};
ghost use Rattle.row_alloc.specs.Body.{FitBody, DoesBody, WritesLate};
ghost use Rattle.row_alloc.specs.Length.{output_length, plain_length};
ghost use Rattle.row_alloc.specs.Phases.{Prepares, source_of};
ghost use Rattle.row_alloc.specs.declared.body.BodyRef.TheVariants.{Out};
ghost use Rattle.row_alloc.specs.declared.body.BodyCmd.TheVariants.{Aap};
ghost use Rattle.row_alloc.specs.declared.body.OutRow.{OutRow};

use crate::body::{BodyCmd, BodyRef, OutRow};
use crate::pieces::{arranged, push_node, push_stash, source};
use faults::keep;
use mig_graph::{Mig, NoMemory, is_complemented};
use std::alloc::Global;

/// The number of majority nodes.
fn node_count(m: &Mig) -> u32
    ensures { result ≡ length m.now.nodes }
{
    m.size() - u32::from(m.inputs()) - 1
}

/// The commands that leave each node's value in a spill row.
fn node_part(m: &Mig, alloc: Global) -> Result<Vec<BodyCmd>, NoMemory>
    requires inputs { m.now.inputs ≤ 80 }
    requires nodes { length m.now.nodes ≤ 32 }
    ensures prepares { IfOk result (λ cmds. (outs : List OutRow)
        → Prepares m.now outs (length m.now.nodes) 0 cmds.items) }
    ensures count { IfOk result (λ cmds. length cmds.items ≡ 4 * length m.now.nodes) }
{
    let mut cmds = Vec::new(alloc);
    for k in 0..node_count(m) as u8 {
        let n = arranged(m, u32::from(k));
        push_node(&mut cmds, n, m.inputs(), k)?;
    }
    Ok(cmds)
}

/// The commands that put each output's value into a spill row.
fn stash_part(m: &Mig, outs: &[OutRow], mut cmds: Vec<BodyCmd>) -> Result<Vec<BodyCmd>, NoMemory>
    requires fit { FitBody m.now outs.now }
    requires nodes { Prepares m.now outs.now (length m.now.nodes) 0 cmds.items }
    ensures prepares { IfOk result (λ more. Prepares m.now outs.now (length m.now.nodes)
        (length outs.now) more.items) }
    ensures count { IfOk result (λ more. length more.items + length outs.now
        ≡ length cmds.items + sum_by output_length outs.now) }
{
    let nodes = node_count(m) as u8;
    for (j, out) in outs.iter().enumerate() {
        push_stash(&mut cmds, out.lit, m.inputs(), nodes + j as u8)?;
    }
    Ok(cmds)
}

/// The commands that copy each output from its spill row.
fn write_part(m: &Mig, outs: &[OutRow], mut cmds: Vec<BodyCmd>) -> Result<Vec<BodyCmd>, NoMemory>
    requires fit { FitBody m.now outs.now }
    requires stashed { Prepares m.now outs.now (length m.now.nodes) (length outs.now) cmds.items }
    ensures does { IfOk result (λ more. DoesBody m.now outs.now more.items) }
    ensures late { IfOk result (λ more. WritesLate outs.now more.items) }
    ensures count { IfOk result (λ more. length more.items ≡ length cmds.items + length outs.now) }
{
    let nodes = node_count(m) as u8;
    for j in 0..outs.len() as u8 {
        let write = BodyCmd::Aap(BodyRef::Spill(nodes + j), BodyRef::Out(j));
        keep(&mut cmds, write)?;
    }
    Ok(cmds)
}

/// One command for an only output that is a constant or an input that is not inverted.
fn direct(m: &Mig, outs: &[OutRow], alloc: Global) -> Result<Vec<BodyCmd>, NoMemory>
    requires fit { FitBody m.now outs.now }
    requires nodes { length m.now.nodes ≡ 0 }
    requires one { length outs.now ≡ 1 }
    requires lit { turns (out_at outs.now 0).lit ≡ false }
    ensures does { IfOk result (λ cmds. DoesBody m.now outs.now cmds.items) }
    ensures count { IfOk result (λ cmds. length cmds.items ≡ 1) }
    ensures only { IfOk result (λ cmds. cmds.items
        ≡ Aap (source_of m.now.inputs (out_at outs.now 0).lit) (Out 0) ∷ []) }
{
    let mut cmds = Vec::new(alloc);
    let from = source(outs[0].lit, m.inputs());
    keep(&mut cmds, BodyCmd::Aap(from, BodyRef::Out(0)))?;
    Ok(cmds)
}

/// The commands that leave each output's value in its row.
///
/// The B cells and the spill rows may hold anything at entry, and are left with anything. Only want
/// of memory is an `Err`.
pub fn plain_body(m: &Mig, outs: &[OutRow], alloc: Global) -> Result<Vec<BodyCmd>, NoMemory>
    requires fit { FitBody m.now outs.now }
    ensures does { IfOk result (λ cmds. DoesBody m.now outs.now cmds.items) }
    ensures late { IfOk result (λ cmds. WritesLate outs.now cmds.items) }
    ensures exact { IfOk result (λ cmds. length cmds.items ≡ plain_length m.now outs.now) }
    ensures count { IfOk result (λ cmds. length cmds.items
        ≤ 4 * length m.now.nodes + 3 * length outs.now) }
    ensures one { IfOk result (λ cmds. length m.now.nodes ≡ 0 → length outs.now ≡ 1
        → turns (out_at outs.now 0).lit ≡ false → length cmds.items ≤ 1) }
    ensures copy { IfOk result (λ cmds. length m.now.nodes ≡ 0 → length outs.now ≡ 1
        → turns (out_at outs.now 0).lit ≡ false → cmds.items
        ≡ Aap (source_of m.now.inputs (out_at outs.now 0).lit) (Out 0) ∷ []) }
{
    if node_count(m) == 0 && outs.len() == 1 && !is_complemented(outs[0].lit) {
        return direct(m, outs, alloc);
    }
    let cmds = node_part(m, alloc)?;
    let cmds = stash_part(m, outs, cmds)?;
    write_part(m, outs, cmds)
}
