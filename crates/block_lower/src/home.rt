//! The places of a body whose state stands in cells.

ghost use Rattle.std.specs.Prelude.{◌≡◌, ◌<◌, ◌≤◌, ◌^◌, ◌++◌, length, map, IfOk, OnOk};
ghost use Rattle.loop_ir.specs.Spots.{is_state};
ghost use Rattle.loop_ir.specs.States.{row_count, enters, leaves};
ghost use Rattle.block_lower.specs.Held.{cell_place, flow_place, held_place, stand_in};

use faults::keep;
use loop_ir::{Place, Space, Sub};
use mig_graph::{Lit, NoMemory};
use row_alloc::Held;
use std::alloc::Global;

/// A state: the place of its row, the number of its cells, and its start.
#[derive(Clone, Copy)]
pub(crate) struct Home {
    pub place: Place,
    pub cells: u8,
    pub start: bool,
}

/// The place of cells.
pub(crate) fn cell_place(cells: u8) -> Place
    ensures { result ≡ cell_place cells }
{
    Place {
        space: Space::Cells,
        which: cells,
        sub: Sub::Zero,
    }
}

/// The place in a flow: register 0 holds the position, and register 1 how many come after it.
fn flow_place(place: Place) -> Place
    ensures { result ≡ flow_place place }
{
    let sub = match place.sub {
        Sub::Inner => Sub::Register(0),
        Sub::InnerDown => Sub::Register(1),
        Sub::Zero | Sub::Register(_) => place.sub,
    };
    Place {
        space: place.space,
        which: place.which,
        sub,
    }
}

/// So for each place.
pub(crate) fn flow_places(places: &[Place], alloc: Global) -> Result<Vec<Place>, NoMemory>
    ensures { IfOk result (λ r. r.items ≡ map flow_place places.now) }
{
    let mut flow = Vec::new(alloc);
    for place in places {
        keep(&mut flow, flow_place(*place))?;
    }
    Ok(flow)
}

/// The place in a flow, or in place of the state's row its cells.
fn held_place(home: Home, place: Place) -> Place
    ensures { result ≡ held_place home place }
{
    if place == home.place {
        cell_place(home.cells)
    } else {
        flow_place(place)
    }
}

/// So for each place.
pub(crate) fn held_places(
    home: Home,
    places: &[Place],
    alloc: Global,
) -> Result<Vec<Place>, NoMemory>
    ensures { IfOk result (λ r. r.items ≡ map (held_place home) places.now) }
{
    let mut held = Vec::new(alloc);
    for place in places {
        keep(&mut held, held_place(home, *place))?;
    }
    Ok(held)
}

/// Whether the place stands in cells.
fn is_cells(place: Place) -> bool
    ensures { result ≡ is_state place.space }
{
    match place.space {
        Space::Cells => true,
        Space::Result | Space::Source | Space::ScratchBit | Space::ScratchWord => false,
    }
}

/// How many places come before the first that stands in cells.
pub(crate) fn row_count(places: &[Place]) -> usize
    ensures count { result ≡ row_count places.now }
    ensures few { result ≤ length places.now }
{
    match places {
        [] => 0,
        [place, rest @ ..] => {
            if is_cells(*place) {
                0
            } else {
                row_count(rest) + 1
            }
        }
    }
}

/// Whether no place stands in other cells than these.
pub(crate) fn stand_in(cells: u8, places: &[Place]) -> bool
    ensures { result ≡ stand_in cells places.now }
{
    match places {
        [] => true,
        [place, rest @ ..] => {
            if is_cells(*place) {
                place.which == cells && stand_in(cells, rest)
            } else {
                stand_in(cells, rest)
            }
        }
    }
}

/// The inputs that are found in cells.
pub(crate) fn enters(reads: &[Place], alloc: Global) -> Result<Vec<Held>, NoMemory>
    requires { length reads.now < 2 ^ 16 }
    ensures { IfOk result (λ enter. enter.items ≡ enters 0 reads.now) }
{
    let mut enter = Vec::new(alloc);
    for k in 0..reads.len() {
        let place = reads[k];
        if is_cells(place) {
            let lit = Lit {
                node: k as u32 + 1,
                inverted: false,
            };
            let layout = place.which;
            keep(&mut enter, Held { lit, layout })?;
        }
    }
    Ok(enter)
}

/// The outputs that are left in cells, after those that were found.
fn leave(left: &mut Vec<Held>, writes: &[Place], outs: &[Lit]) -> Result<(), NoMemory>
    ensures { OnOk result (left.new.items ≡ left.old.items ++ leaves writes.now outs.now) }
{
    match writes {
        [] => Ok(()),
        [place, places @ ..] => match outs {
            [] => Ok(()),
            [lit, lits @ ..] => {
                if is_cells(*place) {
                    let lit = *lit;
                    let layout = place.which;
                    keep(left, Held { lit, layout })?;
                    leave(left, places, lits)
                } else {
                    leave(left, places, lits)
                }
            }
        },
    }
}

/// The outputs that are left in cells.
pub(crate) fn leaves(writes: &[Place], outs: &[Lit], alloc: Global) -> Result<Vec<Held>, NoMemory>
    ensures { IfOk result (λ left. left.items ≡ leaves writes.now outs.now) }
{
    let mut left = Vec::new(alloc);
    leave(&mut left, writes, outs)?;
    Ok(left)
}
