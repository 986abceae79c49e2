//! The instructions of a body's commands.

ghost use Rattle.std.specs.Prelude.{◌≡◌, ◌+◌, ◌≤◌, ◌++◌, length, OnOk};
ghost use Rattle.loop_ir.specs.Plain.{block_of};
ghost use Rattle.loop_ir.specs.Costs.{body_cost};
ghost use Rattle.loop_ir.specs.Limits.{IsSmall};
ghost use Rattle.uprog_gen.specs.Code.{row_space, register, index_in, place_ref, code_ref};
ghost use Rattle.uprog_gen.specs.Code.{code_uop, body_uops};

use faults::keep;
use loop_ir::{Body, Place, Space, Sub, place_at};
use mig_graph::NoMemory;
use row_alloc::{BodyCmd, BodyRef};
use uprog_code::{RowRef, RowSpace, Uop};

/// The space of a row. What stands in cells has none, and is given a bit's.
fn row_space(space: Space) -> RowSpace
    ensures { result ≡ row_space space }
{
    match space {
        Space::Result => RowSpace::Result,
        Space::Source => RowSpace::Source,
        Space::ScratchBit => RowSpace::ScratchBit,
        Space::ScratchWord => RowSpace::ScratchWord,
        Space::Cells => RowSpace::ScratchBit,
    }
}

/// The register that the subscript names; 8 stands for the number 0.
fn register(s: Sub) -> u8
    ensures { result ≡ register s }
{
    match s {
        Sub::Register(r) => if r < 8 { r } else { 8 },
        Sub::Zero | Sub::Inner | Sub::InnerDown => 8,
    }
}

fn index_in(space: Space, index: u8) -> u8
    ensures { result ≡ index_in space index }
{
    match space {
        Space::Result => index,
        Space::Source => index,
        Space::ScratchBit => 0,
        Space::ScratchWord => index,
        Space::Cells => 0,
    }
}

fn place_ref(place: Place) -> RowRef
    ensures { result ≡ place_ref place }
{
    RowRef {
        space: row_space(place.space),
        which: place.which,
        index: index_in(place.space, register(place.sub)),
    }
}

fn fixed_row(space: RowSpace, which: u8) -> RowRef
    ensures { result ≡ record { space = space; which = which; index = 0 } }
{
    RowRef {
        space,
        which,
        index: 0,
    }
}

/// A body's row in the code.
fn row_ref(body: &Body, row: BodyRef) -> RowRef
    ensures { result ≡ code_ref (block_of body.now) row }
{
    match row {
        BodyRef::B(k) => fixed_row(RowSpace::B, k),
        BodyRef::C(k) => fixed_row(RowSpace::C, k),
        BodyRef::In(k) => place_ref(place_at(&body.reads, k as usize)),
        BodyRef::Out(k) => place_ref(place_at(&body.writes, k as usize)),
        BodyRef::Spill(k) => fixed_row(RowSpace::Spill, k),
    }
}

/// A body's command in the code.
fn uop_of(body: &Body, cmd: BodyCmd) -> Uop
    ensures { result ≡ code_uop (block_of body.now) cmd }
{
    match cmd {
        BodyCmd::Aap(x, y) => Uop::Aap(row_ref(body, x), row_ref(body, y)),
        BodyCmd::Ap(x) => Uop::Ap(row_ref(body, x)),
    }
}

/// The commands that the body carries.
pub fn push_commands(code: &mut Vec<Uop>, body: &Body) -> Result<(), NoMemory>
    requires { IsSmall (block_of body.now) }
    ensures emits { OnOk result (code.new.items ≡ code.old.items
        ++ body_uops (block_of body.now)) }
    ensures short { OnOk result (length code.new.items
        ≤ length code.old.items + body_cost (block_of body.now)) }
{
    for cmd in &body.found {
        keep(code, uop_of(body, *cmd))?;
    }
    Ok(())
}
