//! The instructions of one node.

ghost use Rattle.std.specs.Prelude.{◌≡◌, ◌<◌, ◌≤◌, ◌∷◌, [], length, map, slice_get, option_map};
ghost use Rattle.std.specs.Prelude.{codes, true, false, IfSome};
ghost use Rattle.bbop_isa.specs.Forms.{view_of, whole};
ghost use Rattle.text_lex.specs.Spelled.{fits_name};
ghost use Rattle.sim_machine.specs.Machine.{is_print};
ghost use Rattle.scan_model.specs.Instructions.{compare_with, join_one, join_two};
ghost use Rattle.scan_model.specs.Instructions.{op_for, sources_for};
ghost use Rattle.scan_query.specs.Queries.{instructions_for, node_of, names_in, sources_fit};
ghost use Rattle.scan_query.specs.Queries.{width_in};

use crate::ops::named;
use crate::query::Node;
use arrayvec::ArrayVec;
use bbop_isa::{Instr, Place};
use object_alloc::Table;
use object_steps::rows_of;
use scan_model::CmpOp;
use text_lex::Name;

/// How many bits a comparison looks at, and how wide a join's bits are.
fn width_of(table: &Table, node: &Node) -> u8
    ensures { result ≡ width_in table.now.pairs (node_of node.now) }
{
    match node {
        Node::Cmp { place, .. } => rows_of(table, place).width,
        _ => 1,
    }
}

/// The width of each node.
pub(crate) fn widths_of(table: &Table, nodes: &[Node]) -> ArrayVec<u8, 64>
    requires { length nodes.now ≤ 64 }
    ensures widths { result.items ≡ map (width_in table.now.pairs) (map node_of nodes.now) }
    ensures length { length result.items ≡ length nodes.now }
{
    let mut widths = ArrayVec::new();
    for node in nodes {
        widths.push(width_of(table, node));
    }
    widths
}

/// Less is greater with the sources turned.
fn op_for(op: CmpOp) -> Name
    ensures { result ≡ op_for op }
{
    match op {
        CmpOp::Eq => named(b"s_eq"),
        CmpOp::Gt | CmpOp::Lt => named(b"s_gt"),
        CmpOp::Ge | CmpOp::Le => named(b"s_ge"),
    }
}

/// An object as a whole.
fn whole(name: &Name) -> Place
    ensures { result ≡ whole name.now }
{
    Place {
        name: name.copied(),
        part: None,
    }
}

/// The same operand again.
fn copied(place: &Place) -> Place
    ensures { result ≡ place.now }
{
    Place {
        name: place.name.copied(),
        part: place.part,
    }
}

/// Two operands, in this order.
fn two(a: Place, b: Place) -> ArrayVec<Place, 5>
    ensures { result.items ≡ a ∷ b ∷ [] }
{
    let mut places = ArrayVec::new();
    places.push(a);
    places.push(b);
    places
}

/// One operand.
fn one(a: &Name) -> ArrayVec<Place, 5>
    ensures { result.items ≡ whole a.now ∷ [] }
{
    let mut places = ArrayVec::new();
    places.push(whole(a));
    places
}

/// What is compared and the object with the number, in the order of the comparison.
fn sources_for(op: CmpOp, place: &Place, bound: &Name) -> ArrayVec<Place, 5>
    ensures { result.items ≡ sources_for op place.now (whole bound.now) }
{
    match op {
        CmpOp::Eq | CmpOp::Gt | CmpOp::Ge => two(copied(place), whole(bound)),
        CmpOp::Lt | CmpOp::Le => two(whole(bound), copied(place)),
    }
}

/// How many elements each object of a scan has, and how many bits a comparison looks at.
#[derive(Clone, Copy)]
pub(crate) struct Size {
    pub count: u32,
    pub width: u8,
}

/// An instruction of a comparison, into the result of this name.
fn compare(
    op: CmpOp,
    place: &Place,
    value: u128,
    bound: &Name,
    outcome: &Name,
    size: Size,
    i: u8,
) -> Option<Instr>
    ensures value { option_map view_of result
        ≡ slice_get (compare_with bound.now outcome.now place.now op value size.count
        size.width) i }
    ensures silent { IfSome result (λ instr. is_print (view_of instr) ≡ false) }
{
    let Size { count, width } = size;
    match i {
        0 => Some(Instr::Init {
            name: bound.copied(),
            count,
            n: width,
        }),
        1 => Some(Instr::Fill {
            place: whole(bound),
            value,
        }),
        2 => Some(Instr::Init {
            name: outcome.copied(),
            count,
            n: 1,
        }),
        3 => Some(Instr::Bbop {
            op: op_for(op),
            dst: whole(outcome),
            srcs: sources_for(op, place, bound),
            count,
            n: width,
        }),
        4 => Some(Instr::Free {
            name: bound.copied(),
        }),
        _ => None,
    }
}

/// An instruction of a negation.
fn negate(a: &Name, outcome: &Name, count: u32, i: u8) -> Option<Instr>
    ensures value { option_map view_of result
        ≡ slice_get (join_one (codes "s_not") outcome.now a.now
        count) i }
    ensures silent { IfSome result (λ instr. is_print (view_of instr) ≡ false) }
{
    match i {
        0 => Some(Instr::Init {
            name: outcome.copied(),
            count,
            n: 1,
        }),
        1 => Some(Instr::Bbop {
            op: named(b"s_not"),
            dst: whole(outcome),
            srcs: one(a),
            count,
            n: 1,
        }),
        2 => Some(Instr::Free { name: a.copied() }),
        _ => None,
    }
}

/// An instruction of a join of two.
fn join(op: &[u8], a: &Name, b: &Name, outcome: &Name, count: u32, i: u8) -> Option<Instr>
    requires { fits_name op.now ≡ true }
    ensures value { option_map view_of result
        ≡ slice_get (join_two op.now outcome.now a.now b.now count)
        i }
    ensures silent { IfSome result (λ instr. is_print (view_of instr) ≡ false) }
{
    match i {
        0 => Some(Instr::Init {
            name: outcome.copied(),
            count,
            n: 1,
        }),
        1 => Some(Instr::Bbop {
            op: named(op),
            dst: whole(outcome),
            srcs: two(whole(a), whole(b)),
            count,
            n: 1,
        }),
        2 => Some(Instr::Free { name: a.copied() }),
        3 => Some(Instr::Free { name: b.copied() }),
        _ => None,
    }
}

/// Instruction i of node k.
pub(crate) fn instruction(node: &Node, names: &[Name], size: Size, k: u8, i: u8) -> Option<Instr>
    requires names { length names.now ≡ 65 }
    requires few { k < 64 }
    requires sources { sources_fit 64 (node_of node.now) }
    ensures value { option_map view_of result ≡ slice_get (instructions_for (names_in names.now)
        size.count size.width k (node_of node.now)) i }
    ensures silent { IfSome result (λ instr. is_print (view_of instr) ≡ false) }
{
    let outcome = &names[usize::from(k) + 1];
    match node {
        Node::Cmp { op, place, value } => compare(*op, place, *value, &names[0], outcome, size, i),
        Node::Not(a) => negate(&names[usize::from(*a) + 1], outcome, size.count, i),
        Node::And(a, b) => {
            let (a, b) = (&names[usize::from(*a) + 1], &names[usize::from(*b) + 1]);
            join(b"s_and", a, b, outcome, size.count, i)
        }
        Node::Or(a, b) => {
            let (a, b) = (&names[usize::from(*a) + 1], &names[usize::from(*b) + 1]);
            join(b"s_or", a, b, outcome, size.count, i)
        }
    }
}
