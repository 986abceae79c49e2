//! The bodies of a block's loop program.

ghost use Rattle.std.specs.Prelude.{◌≡◌, List, IfOk};
ghost use Rattle.op_text.specs.declared.tree.State.{State};
ghost use Rattle.loop_ir.specs.Plain.{block_of};
ghost use Rattle.loop_ir.specs.Statements.{slots_of, BlockMeets};
ghost use Rattle.block_lower.specs.Inputs.{block_from};
ghost use Rattle.block_lower.specs.Choice.{AreFor};
ghost use Rattle.block_lower.specs.Form.{constant, IsBlockBody};

use crate::choice::{Least, least_graph};
use crate::inputs::inputs_of;
use crate::places::{places_of, target_places};
use crate::searched::Searched;
use aoi_graph::build;
use faults::keep;
use loop_ir::{Body, NameMap, Place};
use mig_graph::{Lit, Mig, MigOuts, NoMemory, from_aoi};
use mig_rewrite::{Sketch, reduce};
use op_text::Assign;
use row_alloc::{BodyCmd, BodyRef};
use std::alloc::Global;

/// The body that writes a constant, by the one command that copies it.
pub(crate) fn constant(value: bool, place: Place, alloc: Global) -> Result<Body, NoMemory>
    ensures { IfOk result (λ r. block_of r ≡ constant value place) }
{
    let mut outs = Vec::new(alloc);
    let mut writes = Vec::new(alloc);
    let mut found = Vec::new(alloc);
    let lit = Lit {
        node: 0,
        inverted: value,
    };
    let copy = BodyCmd::Aap(BodyRef::C(u8::from(value)), BodyRef::Out(0));
    keep(&mut outs, lit)?;
    keep(&mut writes, place)?;
    keep(&mut found, copy)?;
    let mig = Mig::new(0, alloc)?;
    Ok(Body {
        reads: Vec::new(alloc),
        graph: MigOuts { mig, outs },
        writes,
        found,
    })
}

/// The body of a block at a position, with its states in rows, other graphs that may be right for
/// it, and its number in the record of what was searched.
#[derive(Drop)]
pub struct BlockBody {
    pub body: Body,
    pub(crate) offers: Vec<Sketch>,
    pub(crate) number: usize,
}

/// The body that does the chosen graph at these places.
fn body_at(least: Least, reads: Vec<Place>, writes: Vec<Place>) -> BlockBody
    ensures { block_of result.body ≡ record {
      reads = reads.items;
      graph = least.choice.graph.mig;
      outs = least.choice.graph.outs.items;
      writes = writes.items;
      found = least.choice.found.items;
    } }
{
    let Least {
        choice,
        offers,
        number,
    } = least;
    let body = choice.into_body(reads, writes);
    BlockBody {
        body,
        offers,
        number,
    }
}

/// The body of a block at a position, whatever its states are, with the commands found for it.
pub fn block_body(
    down: bool,
    lets: &[Assign],
    assigns: &[Assign],
    names: &NameMap,
    searched: &mut Searched,
    alloc: Global,
) -> Result<BlockBody, NoMemory>
    requires meets { (states : List State) × BlockMeets (slots_of names.now)
        (block_from down states lets.now assigns.now) }
    ensures is { IfOk result (λ r. (states : List State)
        → IsBlockBody (slots_of names.now) (block_from down states lets.now assigns.now)
        (block_of r.body)) }
    ensures found { IfOk result (λ r. AreFor r.body.reads.items r.body.writes.items
        r.body.graph.mig r.body.graph.outs.items r.body.graph.mig r.body.graph.outs.items
        r.body.found.items) }
{
    let inputs = inputs_of(lets, assigns, alloc)?;
    let gates = build(lets, assigns, &inputs.numbers, alloc)?;
    let reads = places_of(names, down, &inputs.order, alloc)?;
    let writes = target_places(names, down, assigns, alloc)?;
    let graph = reduce(from_aoi(&gates, alloc)?, alloc)?;
    let least = least_graph(graph, &reads, &writes, searched, alloc)?;
    // This call's clause says that the graph keeps the rules of graphs.
    let _ = least.choice.graph.mig.inputs();
    Ok(body_at(least, reads, writes))
}
