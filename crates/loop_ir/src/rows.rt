//! The rows of a body's outputs.

ghost use Rattle.std.specs.Prelude.{◌≡◌, ◌≢◌, ◌<◌, ◌≤◌, ℕ, IfOk, IfSome, IfNone, length};
ghost use Rattle.loop_ir.specs.Outputs.{AreRows};
ghost use Rattle.loop_ir.specs.Spots.{nth_place};

use crate::ir::{Place, Space, Sub};
use faults::keep;
use mig_graph::{MigOuts, NoMemory};
use row_alloc::OutRow;
use std::alloc::Global;

/// A place of the list, or that of the first source's lowest position.
pub fn place_at(places: &[Place], k: usize) -> Place
    ensures { result ≡ nth_place places.now k }
{
    if k < places.len() {
        places[k]
    } else {
        Place {
            space: Space::Source,
            which: 0,
            sub: Sub::Zero,
        }
    }
}

/// The first input that is read at a place.
fn input_at(reads: &[Place], inputs: u8, place: Place) -> Option<u8>
    ensures found { IfSome result (λ k. (k < inputs) × (nth_place reads.now k ≡ place)) }
    ensures first { IfSome result (λ k. (i : ℕ) → i < k → nth_place reads.now i ≢ place) }
    ensures none { IfNone result ((k : ℕ) → k < inputs → nth_place reads.now k ≢ place) }
{
    for k in 0..inputs {
        if place_at(reads, k as usize) == place {
            return Some(k);
        }
    }
    None
}

/// The rows of the first outputs, so many, of a graph that reads and writes these places.
pub fn out_rows(
    graph: &MigOuts,
    reads: &[Place],
    writes: &[Place],
    count: usize,
    alloc: Global,
) -> Result<Vec<OutRow>, NoMemory>
    requires { count ≤ length graph.now.outs.items }
    ensures { IfOk result (λ rows. AreRows reads.now writes.now graph.now.mig.inputs
        graph.now.outs.items count rows.items) }
{
    let mut rows = Vec::new(alloc);
    let inputs = graph.mig.inputs();
    for j in 0..count {
        let same = input_at(reads, inputs, place_at(writes, j));
        let lit = graph.outs[j];
        keep(&mut rows, OutRow { lit, same })?;
    }
    Ok(rows)
}
