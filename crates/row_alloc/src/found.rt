//! The commands that are found for a body.

ghost use Rattle.std.specs.Prelude.{◌≡◌, ◌≢◌, ◌<◌, ◌≤◌, ◌+◌, ◌↔◌, ℕ, IsTrue, IfOk};
ghost use Rattle.std.specs.Prelude.{IfSome, IfNone, Some, length};
ghost use Rattle.row_alloc.specs.Rows.{out_at};
ghost use Rattle.row_alloc.specs.Body.{FitBody};
ghost use Rattle.row_alloc.specs.Found.{IsFound};

use crate::beam::{BROAD, DEEP, NARROW, WIDE};
use crate::body::{BodyCmd, OutRow};
use crate::greedy::{given_body, greedy_body, quick_body};
use mig_graph::{Mig, NoMemory};
use std::alloc::Global;

/// How far the search for a body's commands goes.
#[derive(Clone, Copy)]
pub enum Search<'a> {
    /// Not at all: these commands were found before.
    Given(&'a [BodyCmd]),
    /// By the narrow beam alone, in little time.
    Narrow,
    /// By the wide beam alone.
    Wide,
    /// By the deep beam alone.
    Deep,
    /// By the broad beam alone.
    Broad,
    /// By more than one beam, one after another: of a body in rows the greedy body, of one in cells
    /// the better of the narrow and the broad one.
    Whole,
}

/// Whether each literal names one of so many nodes.
fn are_named(outs: &[OutRow], nodes: u32) -> bool
    ensures { IsTrue result ↔ ((j : ℕ) → j < length outs.now
        → (out_at outs.now j).lit.node < nodes) }
{
    for j in 0..outs.len() {
        if outs[j].lit.node >= nodes {
            return false;
        }
    }
    true
}

/// Whether each row is one of so many inputs'.
fn are_inputs(outs: &[OutRow], inputs: u8) -> bool
    ensures { IsTrue result ↔ ((j k : ℕ) → j < length outs.now
        → (out_at outs.now j).same ≡ Some k → k < inputs) }
{
    for j in 0..outs.len() {
        if let Some(k) = outs[j].same
            && k >= inputs
        {
            return false;
        }
    }
    true
}

/// Whether no output before this one stands in its row.
fn is_alone(outs: &[OutRow], j: usize) -> bool
    requires { j < length outs.now }
    ensures { IsTrue result ↔ ((i k : ℕ) → i < j → (out_at outs.now i).same ≡ Some k
        → (out_at outs.now j).same ≢ Some k) }
{
    for i in 0..j {
        if let Some(k) = outs[i].same
            && outs[j].same == Some(k)
        {
            return false;
        }
    }
    true
}

/// Whether no two outputs stand in one row.
fn are_alone(outs: &[OutRow]) -> bool
    ensures { IsTrue result ↔ ((i j k : ℕ) → i < j → j < length outs.now
        → (out_at outs.now i).same ≡ Some k → (out_at outs.now j).same ≢ Some k) }
{
    for j in 0..outs.len() {
        if !is_alone(outs, j) {
            return false;
        }
    }
    true
}

/// Whether there are few enough inputs, outputs and nodes.
fn has_room(m: &Mig, outs: &[OutRow]) -> bool
    ensures { IsTrue result ↔ ((m.now.inputs ≤ 80) × (length outs.now ≤ 8)
        × (length m.now.nodes + length outs.now ≤ 32)) }
{
    let inputs = m.inputs();
    inputs <= 80 && outs.len() <= 8 && m.size() <= inputs as u32 + 33 - outs.len() as u32
}

/// Whether commands can be made of the body.
pub(crate) fn fits(m: &Mig, outs: &[OutRow]) -> bool
    ensures { IsTrue result ↔ FitBody m.now outs.now }
{
    has_room(m, outs)
        && are_named(outs, m.size())
        && are_inputs(outs, m.inputs())
        && are_alone(outs)
}

/// The commands of the body that such a search finds.
fn search_body(
    m: &Mig,
    outs: &[OutRow],
    search: Search,
    most: usize,
    alloc: Global,
) -> Result<Vec<BodyCmd>, NoMemory>
    requires { FitBody m.now outs.now }
    ensures { IfOk result (λ cmds. IsFound m.now outs.now cmds.items) }
{
    match search {
        Search::Given(cmds) => given_body(m, outs, cmds, alloc),
        Search::Narrow => quick_body(m, outs, NARROW, most, alloc),
        Search::Wide => quick_body(m, outs, WIDE, most, alloc),
        Search::Deep => quick_body(m, outs, DEEP, most, alloc),
        Search::Broad => quick_body(m, outs, BROAD, most, alloc),
        Search::Whole => greedy_body(m, outs, alloc),
    }
}

/// The commands of a body, if any can be made of it.
///
/// A search by one beam looks for no more than `most`: where the body takes more, it gives a body
/// of more commands, in less time.
pub fn find_body(
    m: &Mig,
    outs: &[OutRow],
    search: Search,
    most: usize,
    alloc: Global,
) -> Result<Option<Vec<BodyCmd>>, NoMemory>
    ensures some { IfOk result (λ o. IfSome o (λ cmds. IsFound m.now outs.now cmds.items)) }
    ensures none { IfOk result (λ o. IfNone o (FitBody m.now outs.now → ⊥)) }
{
    if !fits(m, outs) {
        return Ok(None);
    }
    let cmds = search_body(m, outs, search, most, alloc)?;
    Ok(Some(cmds))
}
