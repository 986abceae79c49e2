//! The plain instructions on the copies of a guarded object.

ghost use Rattle.std.specs.Prelude.{◌≡◌, ◌≤◌, ◌∷◌, [], true, false, All, length, map, IfSome};
ghost use Rattle.std.specs.Prelude.{◌<◌, ◌||◌, position};
ghost use Rattle.std.specs.List.{list_any};
ghost use Rattle.bbop_isa.specs.Forms.{view_of};
ghost use Rattle.text_lex.specs.Spelled.{fits_name};
ghost use Rattle.guard_model.specs.Guarded.{on_copy, place_on};
ghost use Rattle.guard_model.specs.Laws.{HasName};
ghost use Rattle.guard_model.specs.Named.{has_long_name, is_long, first_long_name};
ghost use Rattle.tmr_guard.specs.Steps.{is_load};

use arrayvec::ArrayVec;
use bbop_isa::{Instr, Place};
use text_lex::Name;

/// The name of a copy: a letter before the guarded name.
pub(crate) fn copy_name(letter: u8, name: &Name) -> Name
    requires letter { fits_name (letter ∷ []) ≡ true }
    requires short { is_long name.now ≡ false }
    ensures { result ≡ letter ∷ name.now }
{
    let mut kept: ArrayVec<u8, 16> = ArrayVec::new();
    kept.push(letter);
    match kept.try_extend_from_slice(name.bytes()) {
        Ok(()) => {}
        Err(_) => unreachable!(),
    }
    match Name::new(kept.as_slice()) {
        Some(copy) => copy,
        None => unreachable!(),
    }
}

/// The operand's copy under a letter: the same part of the copy of its object.
pub(crate) fn copy_place(letter: u8, place: &Place) -> Place
    requires letter { fits_name (letter ∷ []) ≡ true }
    requires short { is_long place.now.name ≡ false }
    ensures { result ≡ place_on letter place.now }
{
    Place {
        name: copy_name(letter, &place.name),
        part: place.part,
    }
}

/// The copies of operands.
fn copy_places(letter: u8, places: &[Place]) -> ArrayVec<Place, 5>
    requires letter { fits_name (letter ∷ []) ≡ true }
    requires short { All (λ place. is_long place.name ≡ false) places.now }
    requires few { length places.now ≤ 5 }
    ensures { result.items ≡ map (place_on letter) places.now }
{
    let mut copies = ArrayVec::new();
    for place in places {
        copies.push(copy_place(letter, place));
    }
    copies
}

/// The instruction on the copies under a letter.
pub(crate) fn copied(letter: u8, instr: &Instr) -> Instr
    requires letter { fits_name (letter ∷ []) ≡ true }
    requires short { has_long_name (view_of instr.now) ≡ false }
    requires plain { is_load (view_of instr.now) ≡ false }
    ensures { view_of result ≡ on_copy letter (view_of instr.now) }
{
    match instr {
        Instr::Init { name, count, n } => Instr::Init {
            name: copy_name(letter, name),
            count: *count,
            n: *n,
        },
        Instr::Bbop {
            op,
            dst,
            srcs,
            count,
            n,
        } => Instr::Bbop {
            op: op.copied(),
            dst: copy_place(letter, dst),
            srcs: copy_places(letter, srcs.as_slice()),
            count: *count,
            n: *n,
        },
        Instr::Fill { place, value } => Instr::Fill {
            place: copy_place(letter, place),
            value: *value,
        },
        Instr::Print { place } => Instr::Print {
            place: copy_place(letter, place),
        },
        Instr::Free { name } => Instr::Free {
            name: copy_name(letter, name),
        },
        Instr::Order(order) => Instr::Order(*order),
        Instr::Load { .. } => unreachable!(),
    }
}

/// Whether the name leaves no room for a letter before it.
fn is_long_name(name: &Name) -> bool
    ensures { result ≡ is_long name.now }
{
    name.bytes().len() > 15
}

/// Whether one of the operands' names is.
fn any_is_long(places: &[Place]) -> bool
    ensures { result ≡ list_any (λ place. is_long place.name) places.now }
{
    places.iter().any(|place| is_long_name(&place.name))
}

/// Whether one of a bbop's objects has such a name.
fn bbop_is_long(dst: &Place, srcs: &[Place]) -> bool
    ensures { result ≡ list_any is_long (map (λ place. place.name) (dst.now ∷ srcs.now)) }
{
    is_long_name(&dst.name) || any_is_long(srcs)
}

/// Whether the instruction names an object of more than 15 bytes.
fn names_long(instr: &Instr) -> bool
    ensures { result ≡ has_long_name (view_of instr.now) }
{
    match instr {
        Instr::Bbop { dst, srcs, .. } => bbop_is_long(dst, srcs.as_slice()),
        Instr::Init { name, .. } => is_long_name(name),
        Instr::Load { place, .. } => is_long_name(&place.name),
        Instr::Fill { place, .. } => is_long_name(&place.name),
        Instr::Print { place } => is_long_name(&place.name),
        Instr::Free { name } => is_long_name(name),
        Instr::Order(_) => false,
    }
}

fn place_of_long(script: &[Instr]) -> Option<usize>
    ensures value { result ≡ position (λ instr. has_long_name (view_of instr)) script.now }
    ensures within { IfSome result (λ at. at < length script.now) }
{
    script.iter().position(|instr| names_long(instr))
}

/// The number, from 1, of the first instruction that names an object of more than 15 bytes.
pub fn first_long(script: &[Instr]) -> Option<usize>
    ensures value { result ≡ first_long_name (map view_of script.now) }
    ensures within { IfSome result (λ k. k ≤ length script.now) }
{
    match place_of_long(script) {
        Some(place) => Some(place + 1),
        None => None,
    }
}

/// What is added has a name, as every instruction's names have.
pub(crate) fn adds_name(instr: &Instr)
    ensures { HasName (view_of instr.now) }
{
    if let Instr::Init { name, .. } = instr {
        name.bytes();
    }
}
