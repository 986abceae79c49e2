//! Bodies with their commands.

ghost use Rattle.std.specs.Prelude.{◌≡◌, ◌++◌, map, IfOk, OnOk, true};
ghost use Rattle.std.specs.Option.{option_to_list};
ghost use Rattle.loop_ir.specs.Plain.{block_of};
ghost use Rattle.word_lower.specs.Places.{slot_at, place_on};
ghost use Rattle.word_lower.specs.Programs.{mark_of};
ghost use Rattle.word_flow.specs.Plans.{four_of, nine_of};
ghost use Rattle.word_flow.specs.Bodies.{coded_on, is_coded};

use crate::shapes::{CodedBody, Four, Nine};
use faults::keep;
use loop_ir::{Body, Place, Slot};
use mig_graph::NoMemory;
use std::alloc::Global;
use word_lower::{Mark, templated};

/// One more, where there is one.
fn add<T: Copy>(all: &mut Vec<T>, item: Option<T>) -> Result<(), NoMemory>
    ensures { OnOk result (all.new.items ≡ all.old.items ++ option_to_list item) }
{
    match item {
        Some(item) => keep(all, item),
        None => Ok(()),
    }
}

/// Those that there are.
fn four<T: Copy>(x: &Four<T>, alloc: Global) -> Result<Vec<T>, NoMemory>
    ensures { IfOk result (λ v. v.items ≡ four_of x.now) }
{
    let mut all = Vec::new(alloc);
    add(&mut all, x.a)?;
    add(&mut all, x.b)?;
    add(&mut all, x.c)?;
    add(&mut all, x.d)?;
    Ok(all)
}

/// The same of nine.
fn nine<T: Copy>(x: &Nine<T>, alloc: Global) -> Result<Vec<T>, NoMemory>
    ensures { IfOk result (λ v. v.items ≡ nine_of x.now) }
{
    let mut all = Vec::new(alloc);
    add(&mut all, x.a)?;
    add(&mut all, x.b)?;
    add(&mut all, x.c)?;
    add(&mut all, x.d)?;
    add(&mut all, x.e)?;
    add(&mut all, x.f)?;
    add(&mut all, x.g)?;
    add(&mut all, x.h)?;
    add(&mut all, x.i)?;
    Ok(all)
}

/// The places of marks.
fn places(marks: &[Mark], owners: &[Slot], alloc: Global) -> Result<Vec<Place>, NoMemory>
    ensures { IfOk result (λ v. v.items
        ≡ map (place_on (slot_at owners.now)) (map mark_of marks.now)) }
{
    let mut all = Vec::new(alloc);
    for mark in marks {
        keep(&mut all, mark.at(owners))?;
    }
    Ok(all)
}

/// The body of a table's entry.
pub fn body(c: &CodedBody, owners: &[Slot], alloc: Global) -> Result<Body, NoMemory>
    requires { is_coded c.now ≡ true }
    ensures { IfOk result (λ b. block_of b ≡ coded_on owners.now c.now) }
{
    let reads = places(&four(&c.reads, alloc)?, owners, alloc)?;
    let nodes = four(&c.nodes, alloc)?;
    let outs = four(&c.outs, alloc)?;
    let writes = places(&four(&c.writes, alloc)?, owners, alloc)?;
    let cmds = nine(&c.cmds, alloc)?;
    templated(&reads, &nodes, &outs, &writes, &cmds, alloc)
}
