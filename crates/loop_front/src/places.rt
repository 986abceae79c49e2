//! The subscripts of a body, and the registers that they get.

ghost use Rattle.std.specs.Prelude.{◌≡◌, ◌+◌, ◌≤◌, ◌++◌, [], ◌∷◌, length, map, OnOk, IfOk};
ghost use Rattle.std.specs.Prelude.{if◌then◌else◌};
ghost use Rattle.std.specs.List.{list_any};
ghost use Rattle.loop_ir.specs.Plain.{block_of};
ghost use Rattle.loop_ir.specs.Costs.{sub_code, same_sub};
ghost use Rattle.loop_front.specs.Front.{is_used, used_subs, in_register, placed, in_registers};

use faults::keep;
use loop_ir::{Body, Place, Sub};
use mig_graph::NoMemory;
use std::alloc::Global;

fn sub_code(s: Sub) -> u16
    ensures { result ≡ sub_code s }
{
    match s {
        Sub::Zero => 0,
        Sub::Inner => 1,
        Sub::InnerDown => 2,
        Sub::Register(r) => 3 + r as u16,
    }
}

fn same_sub(s: Sub, t: Sub) -> bool
    ensures { result ≡ same_sub s t }
{
    sub_code(s) == sub_code(t)
}

/// Whether one of the places has the subscript.
fn has_sub(places: &[Place], s: Sub) -> bool
    ensures { result ≡ list_any (λ p. same_sub p.sub s) places.now }
{
    places.iter().any(|p| same_sub(p.sub, s))
}

/// Whether some place of the body has it.
fn is_used(body: &Body, s: Sub) -> bool
    ensures { result ≡ is_used (block_of body.now) s }
{
    has_sub(&body.reads, s) || has_sub(&body.writes, s)
}

/// The subscript more, if the body uses it.
fn push_used(subs: &mut Vec<Sub>, body: &Body, s: Sub) -> Result<(), NoMemory>
    ensures more { OnOk result (subs.new.items ≡ subs.old.items ++ (if is_used (block_of body.now)
        s then s ∷ [] else [])) }
    ensures few { OnOk result (length subs.new.items ≤ length subs.old.items + 1) }
{
    if is_used(body, s) {
        keep(subs, s)
    } else {
        Ok(())
    }
}

/// The subscripts by the index that the body's places have.
pub fn used_subs(body: &Body, alloc: Global) -> Result<Vec<Sub>, NoMemory>
    ensures are { IfOk result (λ subs. subs.items ≡ used_subs (block_of body.now)) }
    ensures few { IfOk result (λ subs. length subs.items ≤ 2) }
{
    let mut subs = Vec::new(alloc);
    push_used(&mut subs, body, Sub::Inner)?;
    push_used(&mut subs, body, Sub::InnerDown)?;
    Ok(subs)
}

/// The register of a subscript among these, of which the first has register r.
fn in_register(subs: &[Sub], r: u8, s: Sub) -> Sub
    requires { r + length subs.now ≤ 255 }
    ensures { result ≡ in_register subs.now r s }
{
    match subs {
        [] => Sub::Zero,
        [first, rest @ ..] => {
            if same_sub(s, *first) {
                Sub::Register(r)
            } else {
                in_register(rest, r + 1, s)
            }
        }
    }
}

/// A place whose index is in a register.
fn placed(subs: &[Sub], place: Place) -> Place
    requires { length subs.now ≤ 2 }
    ensures { result ≡ placed subs.now place }
{
    Place {
        space: place.space,
        which: place.which,
        sub: in_register(subs, 3, place.sub),
    }
}

/// The places get their indices in registers.
fn place_all(subs: &[Sub], places: &mut Vec<Place>)
    requires { length subs.now ≤ 2 }
    ensures { places.new.items ≡ map (placed subs.now) places.old.items }
{
    for k in 0..places.len() {
        places[k] = placed(subs, places[k]);
    }
}

/// The body with its indices in registers.
pub fn in_registers(mut body: Body, subs: &[Sub]) -> Body
    requires are { subs.now ≡ used_subs (block_of body) }
    requires few { length subs.now ≤ 2 }
    ensures { block_of result ≡ in_registers (block_of body) }
{
    place_all(subs, &mut body.reads);
    place_all(subs, &mut body.writes);
    body
}
