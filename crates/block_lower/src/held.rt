//! The loop of a block whose state stands in cells from one position to the next.

ghost use Rattle.std.specs.Prelude.{◌≡◌, ◌+◌, ◌*◌, ◌<◌, ◌≤◌, ◌^◌, [], ◌∷◌, map, length, IfOk};
ghost use Rattle.std.specs.Prelude.{IfSome, IsTrue};
ghost use Rattle.mig_graph.specs.Outputs.{AreNamed};
ghost use Rattle.loop_ir.specs.Plain.{block_of, steps_of};
ghost use Rattle.loop_ir.specs.States.{row_count};
ghost use Rattle.block_lower.specs.Choice.{IsOther};
ghost use Rattle.block_lower.specs.Held.{held_place, held_start, held_body, held_last, held_steps};
ghost use Rattle.block_lower.specs.Held.{CarriesRight, HoldsOne, IsHeldOne, commands_in};
ghost use Rattle.block_lower.specs.Held.{IsLoopFor};

use crate::copied::copied;
use crate::flow::each_last;
use crate::held_rounds::{HeldTries, HeldTry};
use crate::home::{
    Home, cell_place, enters, flow_places, held_places, leaves, row_count, stand_in,
};
use crate::searched::Searched;
use faults::keep;
use loop_ir::{Body, LoopProgram, Place, Step, out_rows};
use mig_graph::{Lit, Mig, MigOuts, NoMemory};
use mig_rewrite::{Sketch, kept};
use row_alloc::{BodyCmd, Race, Search, held_commands_of};
use std::alloc::Global;

/// The layouts of cells in which a state is tried: T0; T3 and DCC1, straight and turned; T0 and T1;
/// T0 and the complement in DCC0; and DCC0. One command puts a constant into each. The others
/// shorten few bodies more.
pub(crate) const LAYOUTS: [u8; 6] = [0, 4, 5, 8, 9, 11];

/// The commands of the three bodies.
pub(crate) struct HeldLoop {
    pub home: Home,
    pub start: Vec<BodyCmd>,
    pub each: Vec<BodyCmd>,
    pub last: Vec<BodyCmd>,
}

impl Drop for HeldLoop {
    fn drop(self) {
        let HeldLoop {
            home: _,
            start: _,
            each: _,
            last: _,
        } = self;
    }
}

/// Commands for the body that does the graph at these places, at most so many.
fn commands_for(
    graph: &MigOuts,
    reads: &[Place],
    writes: &[Place],
    search: Search,
    most: usize,
    alloc: Global,
) -> Result<Option<Vec<BodyCmd>>, NoMemory>
    requires reads { length reads.now < 2 ^ 16 }
    requires long { length graph.now.outs.items ≡ length writes.now }
    ensures { IfOk result (λ o. IfSome o (λ cmds. CarriesRight (record {
      reads = reads.now;
      graph = graph.now.mig;
      outs = graph.now.outs.items;
      writes = writes.now;
      found = cmds.items;
    }) most)) }
{
    let rows = out_rows(graph, reads, writes, row_count(writes), alloc)?;
    let enter = enters(reads, alloc)?;
    let leave = leaves(writes, &graph.outs, alloc)?;
    held_commands_of(&graph.mig, &rows, &enter, &leave, search, most, alloc)
}

/// The body that gives the state its start in cells.
fn start_body(home: Home, found: Vec<BodyCmd>, alloc: Global) -> Result<Body, NoMemory>
    ensures { IfOk result (λ r. block_of r ≡ held_start home found.items) }
{
    let mut outs = Vec::new(alloc);
    let mut writes = Vec::new(alloc);
    let lit = Lit {
        node: 0,
        inverted: home.start,
    };
    keep(&mut outs, lit)?;
    keep(&mut writes, cell_place(home.cells))?;
    let mig = Mig::new(0, alloc)?;
    Ok(Body {
        reads: Vec::new(alloc),
        graph: MigOuts { mig, outs },
        writes,
        found,
    })
}

/// Whether the graph at these places has nodes, reads each input at a place, and writes the state
/// in these cells last.
fn holds_one(cells: u8, graph: &MigOuts, reads: &[Place], writes: &[Place]) -> bool
    ensures { IsTrue result → HoldsOne cells (record {
      reads = reads.now;
      graph = graph.now.mig;
      outs = graph.now.outs.items;
      writes = writes.now;
      found = [];
    }) }
{
    let inputs = graph.mig.inputs();
    graph.mig.size() > u32::from(inputs) + 1
        && inputs as usize == reads.len()
        && graph.outs.len() == writes.len()
        && writes.len() > row_count(writes)
        && writes.len() - row_count(writes) == 1
        && stand_in(cells, reads)
        && stand_in(cells, writes)
}

/// How many commands a body of the graph may take: four for a node, and three for a row.
fn plain_most(graph: &MigOuts, writes: &[Place]) -> usize
    ensures { result ≡ 4 * length graph.now.mig.nodes + 3 * row_count writes.now }
{
    let nodes = graph.mig.size() - u32::from(graph.mig.inputs()) - 1;
    4 * nodes as usize + 3 * row_count(writes)
}

/// The commands of the body with its state in cells, at most so many.
fn each_commands(
    home: Home,
    body: &Body,
    search: Search,
    most: usize,
    alloc: Global,
) -> Result<Option<Vec<BodyCmd>>, NoMemory>
    ensures holds { IfOk result (λ o. IfSome o (λ cmds. HoldsOne home.cells (held_body home
        (block_of body.now) cmds.items))) }
    ensures right { IfOk result (λ o. IfSome o (λ cmds. CarriesRight (held_body home
        (block_of body.now) cmds.items) (4 * length body.now.graph.mig.nodes
        + 3 * row_count (map (held_place home) body.now.writes.items)))) }
    ensures few { IfOk result (λ o. IfSome o (λ cmds. length cmds.items ≤ most)) }
{
    let reads = held_places(home, &body.reads, alloc)?;
    let writes = held_places(home, &body.writes, alloc)?;
    if reads.len() > 255 || !holds_one(home.cells, &body.graph, &reads, &writes) {
        return Ok(None);
    }
    let few = most.min(plain_most(&body.graph, &writes));
    commands_for(&body.graph, &reads, &writes, search, few, alloc)
}

/// Puts the body with its state in cells to a race, where it has its state so.
pub(crate) fn add_held(
    race: &mut Race,
    home: Home,
    body: &Body,
    alloc: Global,
) -> Result<(), NoMemory> {
    let reads = held_places(home, &body.reads, alloc)?;
    let writes = held_places(home, &body.writes, alloc)?;
    if reads.len() > 255 || !holds_one(home.cells, &body.graph, &reads, &writes) {
        return race.add_none();
    }
    let rows = out_rows(&body.graph, &reads, &writes, row_count(&writes), alloc)?;
    let enter = enters(&reads, alloc)?;
    let leave = leaves(&writes, &body.graph.outs, alloc)?;
    race.add(&body.graph.mig, &rows, &enter, &leave)
}

/// The commands of the body that finds its state in cells and leaves it in its row, at most so
/// many, by the first of two beams that finds them.
fn last_commands(
    home: Home,
    body: &Body,
    most: usize,
    alloc: Global,
) -> Result<Option<Vec<BodyCmd>>, NoMemory>
    ensures right { IfOk result (λ o. IfSome o (λ cmds. CarriesRight (held_last home
        (block_of body.now) cmds.items) (4 * length body.now.graph.mig.nodes
        + 3 * row_count body.now.writes.items))) }
    ensures few { IfOk result (λ o. IfSome o (λ cmds. length cmds.items ≤ most)) }
{
    let reads = held_places(home, &body.reads, alloc)?;
    if reads.len() > 255 || body.graph.outs.len() != body.writes.len() {
        return Ok(None);
    }
    let writes = flow_places(&body.writes, alloc)?;
    let few = most.min(plain_most(&body.graph, &body.writes));
    let graph = &body.graph;
    match commands_for(graph, &reads, &writes, Search::Narrow, few, alloc)? {
        Some(cmds) => Ok(Some(cmds)),
        None => commands_for(graph, &reads, &writes, Search::Broad, few, alloc),
    }
}

/// The loop with the state in these cells, if its body takes at most `few` commands, and in its
/// place at the top position at most `most`.
fn held_in(
    home: Home,
    body: &Body,
    search: Search,
    few: usize,
    most: usize,
    alloc: Global,
) -> Result<Option<HeldLoop>, NoMemory>
    ensures held { IfOk result (λ o. IfSome o (λ r. IsHeldOne home (block_of body.now)
        (commands_in r))) }
    ensures home { IfOk result (λ o. IfSome o (λ r. r.home ≡ home)) }
    ensures few { IfOk result (λ o. IfSome o (λ r. length r.each.items ≤ few)) }
    ensures last { IfOk result (λ o. IfSome o (λ r. length r.last.items ≤ most)) }
{
    let Some(each) = each_commands(home, body, search, few, alloc)? else {
        return Ok(None);
    };
    let first = start_body(home, Vec::new(alloc), alloc)?;
    let (graph, reads, writes) = (&first.graph, &first.reads, &first.writes);
    let Some(start) = commands_for(graph, reads, writes, Search::Narrow, 1, alloc)? else {
        return Ok(None);
    };
    let Some(last) = last_commands(home, body, most, alloc)? else {
        return Ok(None);
    };
    Ok(Some(HeldLoop {
        home,
        start,
        each,
        last,
    }))
}

/// A loop with the state in the cells of one of the layouts, where its body takes fewer commands
/// than `most` so. It is the first of those with the fewest that are found, which no clause says.
fn held_loop(
    place: Place,
    start: bool,
    body: &Body,
    search: Search,
    most: usize,
    alloc: Global,
) -> Result<Option<HeldLoop>, NoMemory>
    ensures { IfOk result (λ o. IfSome o (λ r. IsLoopFor place start (block_of body.now) most r)) }
{
    let mut best = None;
    let mut least = most;
    for k in 0..LAYOUTS.len() {
        let cells = LAYOUTS[k];
        let home = Home {
            place,
            cells,
            start,
        };
        if least > 0 {
            if let Some(held) = held_in(home, body, search, least - 1, most, alloc)? {
                least = held.each.len();
                best = Some(held);
            }
        }
    }
    Ok(best)
}

/// The loop of the block's own body with the state in cells, by a beam that finds fewer commands
/// than `most`, or by a wider one where no other loops are tried.
pub(crate) fn own_loop(
    place: Place,
    start: bool,
    body: &Body,
    is_alone: bool,
    most: usize,
    alloc: Global,
) -> Result<Option<HeldLoop>, NoMemory>
    ensures { IfOk result (λ o. IfSome o (λ r. IsLoopFor place start (block_of body.now) most r)) }
{
    match held_loop(place, start, body, Search::Narrow, most, alloc)? {
        Some(held) => Ok(Some(held)),
        None if is_alone => held_loop(place, start, body, Search::Wide, most, alloc),
        None => Ok(None),
    }
}

/// Another body of a block, and its loop with the state in cells.
pub(crate) struct OtherLoop {
    pub body: Body,
    pub held: HeldLoop,
}

impl Drop for OtherLoop {
    fn drop(self) {
        let OtherLoop { body: _, held: _ } = self;
    }
}

/// The loop that does the offer in the place of the body's graph with the state in the cells that
/// are to be tried, if the offer is right and takes fewer commands than `most` so.
fn offered_loop(
    place: Place,
    start: bool,
    body: &Body,
    offer: &HeldTry,
    most: usize,
    alloc: Global,
) -> Result<Option<OtherLoop>, NoMemory>
    requires { AreNamed body.now.graph.mig body.now.graph.outs.items }
    ensures other { IfOk result (λ o. IfSome o (λ r. IsOther (block_of body.now)
        (block_of r.body))) }
    ensures held { IfOk result (λ o. IfSome o (λ r. IsLoopFor place start (block_of r.body) most
        r.held)) }
{
    let Some(graph) = kept(&body.graph, &offer.sketch, alloc)? else {
        return Ok(None);
    };
    // This call's clause says that the graph keeps the rules of graphs.
    let _ = graph.mig.inputs();
    let other = Body {
        reads: body.reads.to_vec(alloc)?,
        graph,
        writes: body.writes.to_vec(alloc)?,
        found: Vec::new(alloc),
    };
    let home = Home {
        place,
        cells: offer.cells,
        start,
    };
    if most == 0 {
        return Ok(None);
    }
    let few = usize::min(offer.cmds.len(), most - 1);
    let search = Search::Given(&offer.cmds);
    let Some(held) = held_in(home, &other, search, few, most, alloc)? else {
        return Ok(None);
    };
    Ok(Some(OtherLoop { body: other, held }))
}

/// The first loop of those to be tried that takes fewer commands than `most` with the state in
/// cells.
fn other_loop(
    place: Place,
    start: bool,
    body: &Body,
    offers: &[HeldTry],
    most: usize,
    alloc: Global,
) -> Result<Option<OtherLoop>, NoMemory>
    requires { AreNamed body.now.graph.mig body.now.graph.outs.items }
    ensures other { IfOk result (λ o. IfSome o (λ r. IsOther (block_of body.now)
        (block_of r.body))) }
    ensures held { IfOk result (λ o. IfSome o (λ r. IsLoopFor place start (block_of r.body) most
        r.held)) }
{
    for offer in offers {
        if let Some(other) = offered_loop(place, start, body, offer, most, alloc)? {
            return Ok(Some(other));
        }
    }
    Ok(None)
}

/// How many commands the loop's body takes, or so many where there is no loop.
pub(crate) fn commands_of(held: &Option<HeldLoop>, most: usize) -> usize {
    match held {
        Some(held) => held.each.len(),
        None => most,
    }
}

/// The loop with one of the offers in the place of the body's graph, where it takes fewer commands
/// than `few` with the state in cells.
pub(crate) fn fewer_loop(
    place: Place,
    start: bool,
    body: &Body,
    offers: &[Sketch],
    few: usize,
    most: usize,
    searched: &mut Searched,
    number: usize,
    alloc: Global,
) -> Result<Option<OtherLoop>, NoMemory>
    requires { AreNamed body.now.graph.mig body.now.graph.outs.items }
    ensures other { IfOk result (λ o. IfSome o (λ r. IsOther (block_of body.now)
        (block_of r.body))) }
    ensures held { IfOk result (λ o. IfSome o (λ r. IsLoopFor place start (block_of r.body) most
        r.held)) }
{
    let HeldTries { tries, tried: _ } = searched.held(
        number,
        (place, start),
        body,
        offers,
        (few, most),
        alloc,
    )?;
    other_loop(place, start, body, &tries, most, alloc)
}

/// The body that finds its state in cells and writes these places, with these commands, if its
/// graph is copied.
fn held_body(
    home: Home,
    body: &Body,
    writes: Vec<Place>,
    found: Vec<BodyCmd>,
    alloc: Global,
) -> Result<Option<Body>, NoMemory>
    ensures { IfOk result (λ o. IfSome o (λ r. block_of r ≡ record {
      reads = map (held_place home) body.now.reads.items;
      graph = body.now.graph.mig;
      outs = body.now.graph.outs.items;
      writes = writes.items;
      found = found.items;
    })) }
{
    let Some(graph) = copied(&body.graph, alloc)? else {
        return Ok(None);
    };
    Ok(Some(Body {
        reads: held_places(home, &body.reads, alloc)?,
        graph,
        writes,
        found,
    }))
}

impl HeldLoop {
    /// The loop's one step: the start, and the body at each position. There is none where the
    /// body's graph isn't copied.
    pub(crate) fn into_program(
        self,
        body: &Body,
        alloc: Global,
    ) -> Result<Option<LoopProgram>, NoMemory>
        ensures { IfOk result (λ o. IfSome o (λ p. steps_of p ≡ held_steps self.home
            (block_of body.now) (commands_in self))) }
    {
        let HeldLoop {
            home,
            start,
            each,
            last,
        } = self;
        let cells = held_places(home, &body.writes, alloc)?;
        let rows = flow_places(&body.writes, alloc)?;
        let Some(each) = held_body(home, body, cells, each, alloc)? else {
            return Ok(None);
        };
        let Some(last) = held_body(home, body, rows, last, alloc)? else {
            return Ok(None);
        };
        let first = start_body(home, start, alloc)?;
        let flow = each_last(first, each, last, alloc)?;
        let mut steps = Vec::new(alloc);
        keep(&mut steps, Step::Flow(flow))?;
        Ok(Some(LoopProgram { steps }))
    }
}

impl OtherLoop {
    /// The steps of the loop that does the other body, so too.
    pub(crate) fn into_program(self, alloc: Global) -> Result<Option<LoopProgram>, NoMemory>
        ensures { IfOk result (λ o. IfSome o (λ p. steps_of p ≡ held_steps self.held.home
            (block_of self.body) (commands_in self.held))) }
    {
        let OtherLoop { body, held } = self;
        held.into_program(&body, alloc)
    }
}
