//! The graph of a block whose body takes the fewest commands.

ghost use Rattle.std.specs.Prelude.{◌≡◌, ◌⊎◌, ◌<◌, ◌≤◌, IsTrue, IfOk, IfSome, IfNone, Some};
ghost use Rattle.std.specs.Prelude.{length, map, slice_get};
ghost use Rattle.std.specs.List.{AllByRecursion};
ghost use Rattle.mig_graph.specs.Outputs.{AreNamed};
ghost use Rattle.mig_graph.specs.Reduced.{IsReduced};
ghost use Rattle.loop_ir.specs.Plain.{block_of};
ghost use Rattle.block_lower.specs.Choice.{AreCounted, AreFor, AreNoFewer, HasFound, HasNoMore};
ghost use Rattle.block_lower.specs.Choice.{IsCounted, IsDropped, IsFewest, IsNoDearer};
ghost use Rattle.block_lower.specs.Choice.{IsRightChoice, IsUnfit, MayStand, sketch_of};

use crate::rounds::{Ranked, Tried};
use crate::searched::{Known, Searched};
use faults::keep;
use loop_ir::{Body, Place, out_rows};
use mig_graph::{MigOuts, NoMemory};
use mig_rewrite::{Sketch, kept};
use row_alloc::{BodyCmd, Search, find_body};
use std::alloc::Global;

/// A graph, and the commands that were found for its body.
pub(crate) struct Choice {
    pub graph: MigOuts,
    pub found: Vec<BodyCmd>,
}

impl Drop for Choice {
    fn drop(self) {
        let Choice { graph: _, found: _ } = self;
    }
}

impl Choice {
    /// The same graph with other commands.
    fn with(self, found: Vec<BodyCmd>) -> Choice
        ensures graph { result.graph ≡ self.graph }
        ensures found { result.found ≡ found }
    {
        let Choice { graph, found: _ } = self;
        Choice { graph, found }
    }

    /// The body that does the graph at these places.
    pub(crate) fn into_body(self, reads: Vec<Place>, writes: Vec<Place>) -> Body
        ensures { block_of result ≡ record {
          reads = reads.items;
          graph = self.graph.mig;
          outs = self.graph.outs.items;
          writes = writes.items;
          found = self.found.items;
        } }
    {
        let Choice { graph, found } = self;
        Body {
            reads,
            graph,
            writes,
            found,
        }
    }
}

/// The commands that a search finds for the graph's body, if one can be made of it. Where they are
/// more than `most`, they are found in less time, and may be more than need be.
fn found_for(
    graph: &MigOuts,
    reads: &[Place],
    writes: &[Place],
    search: Search,
    most: usize,
    alloc: Global,
) -> Result<Option<Vec<BodyCmd>>, NoMemory>
    ensures some { IfOk result (λ o. IfSome o (λ cmds. HasFound reads.now writes.now graph.now.mig
        graph.now.outs.items cmds.items)) }
    ensures none { IfOk result (λ o. IfNone o (IsUnfit reads.now writes.now graph.now.mig
        graph.now.outs.items)) }
{
    let rows = out_rows(graph, reads, writes, graph.outs.len(), alloc)?;
    find_body(&graph.mig, &rows, search, most, alloc)
}

/// The offer, if it is right and a body can be made of it, with the commands found for it.
fn counted(
    first: &MigOuts,
    offer: &Tried,
    reads: &[Place],
    writes: &[Place],
    alloc: Global,
) -> Result<Option<Choice>, NoMemory>
    requires { AreNamed first.now.mig first.now.outs.items }
    ensures some { IfOk result (λ o. IfSome o (IsCounted reads.now writes.now first.now.mig
        first.now.outs.items offer.now.sketch)) }
    ensures none { IfOk result (λ o. IfNone o (IsDropped reads.now writes.now first.now.mig
        first.now.outs.items offer.now.sketch)) }
{
    let Some(graph) = kept(first, &offer.sketch, alloc)? else {
        return Ok(None);
    };
    let search = Search::Given(&offer.cmds);
    let Some(found) = found_for(&graph, reads, writes, search, 0, alloc)? else {
        return Ok(None);
    };
    Ok(Some(Choice { graph, found }))
}

/// The offers that are right, in order, each with the commands that were found for its body.
fn all_counted(
    first: &MigOuts,
    offers: &[Tried],
    reads: &[Place],
    writes: &[Place],
    alloc: Global,
) -> Result<Vec<Choice>, NoMemory>
    requires { AreNamed first.now.mig first.now.outs.items }
    ensures { IfOk result (λ r. AreCounted reads.now writes.now first.now.mig first.now.outs.items
        (map sketch_of offers.now) r.items) }
{
    let mut others = Vec::new(alloc);
    for offer in offers {
        if let Some(choice) = counted(first, offer, reads, writes, alloc)? {
            keep(&mut others, choice)?;
        }
    }
    Ok(others)
}

/// Whether the choice takes fewer commands than `least`, or as many for fewer nodes than `size`.
fn is_better(choice: &Choice, least: usize, size: u32) -> bool
    ensures few { IsTrue result → length choice.now.found.items ≤ least }
    ensures least { IsTrue result ⊎ (least ≤ length choice.now.found.items) }
{
    let commands = choice.found.len();
    commands < least || commands == least && choice.graph.mig.size() < size
}

/// The place of the first of the others with the fewest commands, where these are fewer than the
/// first's, or as many for fewer nodes.
fn fewest(first: &Choice, others: &[Choice]) -> Option<usize>
    ensures within { IfSome result (λ k. k < length others.now) }
    ensures fewest { IfSome result (λ k. (choice : Choice) → slice_get others.now k ≡ Some choice
        → IsFewest (length choice.found.items) first.now others.now) }
    ensures none { IfNone result (IsFewest (length first.now.found.items) first.now others.now) }
{
    let mut best = None;
    let mut least = first.found.len();
    let mut size = first.graph.mig.size();
    for k in 0..others.len() {
        let choice = &others[k];
        if is_better(choice, least, size) {
            least = choice.found.len();
            size = choice.graph.mig.size();
            best = Some(k);
        }
    }
    best
}

/// The choice with the commands of a search that looks for fewer, where these are no more.
fn with_fewer(
    choice: Choice,
    reads: &[Place],
    writes: &[Place],
    search: Search,
    alloc: Global,
) -> Result<Choice, NoMemory>
    requires { HasFound reads.now writes.now choice.graph.mig choice.graph.outs.items
        choice.found.items }
    ensures { IfOk result (HasNoMore reads.now writes.now choice) }
{
    let fewer = choice.found.len().saturating_sub(1);
    let found = found_for(&choice.graph, reads, writes, search, fewer, alloc)?;
    if let Some(found) = found {
        if found.len() <= choice.found.len() {
            return Ok(choice.with(found));
        }
    }
    Ok(choice)
}

/// The choice of the fewest commands.
///
/// Where the first has them, a search that looks for fewer is asked once more.
fn least_of(
    first: Choice,
    others: Vec<Choice>,
    reads: &[Place],
    writes: &[Place],
    alloc: Global,
) -> Result<Choice, NoMemory>
    requires named { AreNamed first.graph.mig first.graph.outs.items }
    requires reduced { IsReduced first.graph.mig first.graph.outs.items }
    requires found { HasFound reads.now writes.now first.graph.mig first.graph.outs.items
        first.found.items }
    requires others { AllByRecursion (IsRightChoice reads.now writes.now first.graph.mig
        first.graph.outs.items) others.items }
    ensures right { IfOk result (IsRightChoice reads.now writes.now first.graph.mig
        first.graph.outs.items) }
    ensures fewest { IfOk result (λ r. IsFewest (length r.found.items) first others.items) }
{
    let mut others = others;
    match fewest(&first, &others) {
        Some(k) => Ok(others.remove(k)),
        None => with_fewer(first, reads, writes, Search::Whole, alloc),
    }
}

/// The reduced graph or one of the others in its place, with the commands that were found for it.
///
/// Where no body is made of the reduced graph, it stands as it is and has none.
fn chosen(
    graph: MigOuts,
    others: Vec<Choice>,
    reads: &[Place],
    writes: &[Place],
    alloc: Global,
) -> Result<Choice, NoMemory>
    requires named { AreNamed graph.mig graph.outs.items }
    requires reduced { IsReduced graph.mig graph.outs.items }
    requires others { AllByRecursion (IsRightChoice reads.now writes.now graph.mig
        graph.outs.items) others.items }
    ensures stands { IfOk result (λ r. MayStand graph.mig graph.outs.items r.graph.mig
        r.graph.outs.items) }
    ensures found { IfOk result (λ r. AreFor reads.now writes.now graph.mig graph.outs.items
        r.graph.mig r.graph.outs.items r.found.items) }
    ensures own { IfOk result (λ r. IsNoDearer reads.now writes.now graph.mig graph.outs.items
        (length r.found.items)) }
    ensures others { IfOk result (λ r. AreNoFewer (length r.found.items) others.items) }
{
    let found = found_for(&graph, reads, writes, Search::Narrow, 0, alloc)?;
    match found {
        Some(found) => least_of(Choice { graph, found }, others, reads, writes, alloc),
        None => Ok(Choice {
            graph,
            found: Vec::new(alloc),
        }),
    }
}

/// The choice, other graphs that may stand for it, the best by their bodies first, and the number
/// of the block in the record.
#[derive(Drop)]
pub(crate) struct Least {
    pub choice: Choice,
    pub offers: Vec<Sketch>,
    pub number: usize,
}

/// The reduced graph, or one of the same outputs and no more nodes whose body takes fewer commands,
/// with the commands that were found for it.
pub(crate) fn least_graph(
    graph: MigOuts,
    reads: &[Place],
    writes: &[Place],
    searched: &mut Searched,
    alloc: Global,
) -> Result<Least, NoMemory>
    requires named { AreNamed graph.mig graph.outs.items }
    requires reduced { IsReduced graph.mig graph.outs.items }
    ensures stands { IfOk result (λ r. MayStand graph.mig graph.outs.items r.choice.graph.mig
        r.choice.graph.outs.items) }
    ensures found { IfOk result (λ r. AreFor reads.now writes.now graph.mig graph.outs.items
        r.choice.graph.mig r.choice.graph.outs.items r.choice.found.items) }
    ensures own { IfOk result (λ r. IsNoDearer reads.now writes.now graph.mig graph.outs.items
        (length r.choice.found.items)) }
{
    let Known { number, ranked } = searched.ranked(&graph, reads, writes, alloc)?;
    let Ranked {
        tries,
        offers,
        tried: _,
    } = ranked;
    let others = all_counted(&graph, &tries, reads, writes, alloc)?;
    let choice = chosen(graph, others, reads, writes, alloc)?;
    Ok(Least {
        choice,
        offers,
        number,
    })
}
