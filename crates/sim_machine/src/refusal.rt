//! Why a bbop is refused.

ghost use Rattle.std.specs.Prelude.{◌≡◌, ℕ, ◌+◌, ◌<◌, ◌≤◌, ◌==◌, not, is_none, map, zip, ◌∷◌, ◌++◌};
ghost use Rattle.std.specs.Prelude.{◌||◌, ◌&&◌, [], List, Bool, Option, Some, None, length};
ghost use Rattle.std.specs.Prelude.{position, IfSome, IfOk, IfErr, OnOk};
ghost use Rattle.std.specs.Option.{option_map, option_to_list};
ghost use Rattle.std.specs.Str.{bytes_eq};
ghost use Rattle.uprog_code.specs.Shape.{need, shape_of, width, results};
ghost use Rattle.uprog_bin.specs.Opened.{code_of, program_of};
ghost use Rattle.uprog_code.specs.Count.{walked};
ghost use Rattle.uprog_code.specs.Machine.{trace};
ghost use Rattle.machine_model.specs.declared.Why.{Why};
ghost use Rattle.sim_machine.specs.Granted.{IsGranted};
ghost use Rattle.machine_model.specs.Routines.{routine_of};
ghost use Rattle.machine_model.specs.Places.{share};
ghost use Rattle.machine_model.specs.Refusals.{rows_of, goes_past, is_absent, is_misfit, at_place};
ghost use Rattle.machine_model.specs.Refusals.{first, operand_conditions, grant_conditions};
ghost use Rattle.machine_model.specs.Refusals.{bbop_conditions, dsts_in, srcs_in, meets_one};
ghost use Rattle.machine_model.specs.Refusals.{meet_before};

use arrayvec::ArrayVec;
use bbop_isa::{Part, Place};
use machine_model::Why;
use object_alloc::{Object, Table};
use object_steps::{goes_past, rows_of};
use uprog_bin::Entry;
use uprog_code::{BadWalk, Counts, Fetch, Head, Kind, WALK_MAX};

/// Whether no object has the operand's name.
#[tactic(auto, using(crate::proofs::Found::places))]
fn is_absent(table: &Table, place: &Place) -> bool
    ensures { result ≡ is_absent table.now.pairs place.now.name }
{
    table.look_up(&place.name).is_none()
}

/// Whether the object is not as wide as an operand of this kind at width n.
fn is_misfit(kind: Kind, object: Object, n: u8) -> bool
    ensures { result ≡ not (object.width == width kind n) }
{
    match kind {
        Kind::Word => object.width != n,
        Kind::Bit => object.width != 1,
    }
}

/// Where the first source is that no object has.
fn absent_source(table: &Table, srcs: &[Place]) -> Option<usize>
    ensures value { result ≡ position (λ p. is_absent table.now.pairs p.name) srcs.now }
    ensures bound { IfSome result (λ at. at < length srcs.now) }
{
    srcs.iter().position(|src| is_absent(table, src))
}

/// Where the first source is that ends past its object.
fn past_source(table: &Table, srcs: &[Place]) -> Option<usize>
    ensures value { result ≡ position (goes_past table.now.pairs) srcs.now }
    ensures bound { IfSome result (λ at. at < length srcs.now) }
{
    srcs.iter().position(|src| goes_past(table, src))
}

/// Where the first source is that has another number of elements.
fn unlike_source(table: &Table, srcs: &[Place], count: u32) -> Option<usize>
    ensures value { result ≡ position (λ src. not ((rows_of table.now.pairs src).count
        == count)) srcs.now }
    ensures bound { IfSome result (λ at. at < length srcs.now) }
{
    srcs.iter()
        .position(|src| rows_of(table, src).count != count)
}

/// The kinds of the operands after the first destination.
pub(crate) fn other_kinds(head: &Head) -> ArrayVec<Kind, 5>
    ensures { result.items ≡ option_to_list head.now.second ++ head.now.sources.items }
{
    let mut kinds = ArrayVec::new();
    if let Some(kind) = head.second {
        kinds.push(kind);
    }
    for kind in head.sources.as_slice() {
        kinds.push(*kind);
    }
    kinds
}

/// The sources, after one or two destinations.
pub(crate) fn sources_of<'a>(dst: &Place, head: &Head, srcs: &'a [Place]) -> &'a [Place]
    ensures { result.now ≡ srcs_in (shape_of head.now) (dst.now ∷ srcs.now) }
{
    match (head.second, srcs) {
        (Some(_), [_, rest @ ..]) => rest,
        _ => srcs,
    }
}

/// Whether two parts of one object have a bit in common.
fn share(a: Option<Part>, b: Option<Part>) -> bool
    ensures { result ≡ share a b }
{
    match (a, b) {
        (Some(a), Some(b)) => {
            u16::from(a.low) < u16::from(b.low) + u16::from(b.size)
                && u16::from(b.low) < u16::from(a.low) + u16::from(a.size)
        }
        _ => true,
    }
}

/// Whether two operands have a bit in common.
fn meets(a: &Place, b: &Place) -> bool
    ensures { result ≡ (bytes_eq a.now.name b.now.name && share a.now.part b.now.part) }
{
    a.name == b.name && share(a.part, b.part)
}

/// Where the first source is that has a bit of a destination.
fn same_source(dst: &Place, srcs: &[Place]) -> Option<usize>
    ensures value { result ≡ position (meets_one (dst.now ∷ [])) srcs.now }
    ensures bound { IfSome result (λ at. at < length srcs.now) }
{
    srcs.iter().position(|src| meets(src, dst))
}

/// Where the first source is that has a bit of one of two destinations.
fn same_of_two(dst: &Place, second: &Place, srcs: &[Place]) -> Option<usize>
    ensures value { result ≡ position (meets_one (dst.now ∷ second.now ∷ [])) srcs.now }
    ensures bound { IfSome result (λ at. at < length srcs.now) }
{
    srcs.iter()
        .position(|src| meets(src, dst) || meets(src, second))
}

/// The first operand that no object has.
#[tactic(auto, using(crate::proofs::Found::places))]
fn no_object(table: &Table, dst: &Place, srcs: &[Place]) -> Option<Why>
    requires { length srcs.now ≤ 5 }
    ensures { result ≡ at_place Why.NoObject 0
        (map (λ p. is_absent table.now.pairs p.name) (dst.now ∷ srcs.now)) }
{
    if is_absent(table, dst) {
        return Some(Why::NoObject(0));
    }
    match absent_source(table, srcs) {
        Some(at) => Some(Why::NoObject(at as u32 + 1)),
        None => None,
    }
}

/// The first operand that ends past its object.
#[tactic(auto, using(crate::proofs::Found::places))]
fn bad_slice(table: &Table, dst: &Place, srcs: &[Place]) -> Option<Why>
    requires { length srcs.now ≤ 5 }
    ensures { result ≡ at_place Why.Slice 0
        (map (goes_past table.now.pairs) (dst.now ∷ srcs.now)) }
{
    if goes_past(table, dst) {
        return Some(Why::Slice(0));
    }
    match past_source(table, srcs) {
        Some(at) => Some(Why::Slice(at as u32 + 1)),
        None => None,
    }
}

/// The first operand that has another number of elements.
#[tactic(auto, using(crate::proofs::Found::places))]
fn bad_size(table: &Table, dst: &Place, srcs: &[Place], count: u32) -> Option<Why>
    requires { length srcs.now ≤ 5 }
    ensures { result ≡ at_place Why.Size 0 (map (λ o. not (o.count == count))
        (map (rows_of table.now.pairs) (dst.now ∷ srcs.now))) }
{
    if rows_of(table, dst).count != count {
        return Some(Why::Size(0));
    }
    match unlike_source(table, srcs, count) {
        Some(at) => Some(Why::Size(at as u32 + 1)),
        None => None,
    }
}

/// The first source that has a bit of the one destination.
#[tactic(auto, using(crate::proofs::Found::places))]
fn overlap_of_one(dst: &Place, srcs: &[Place]) -> Option<Why>
    requires { length srcs.now ≤ 5 }
    ensures { result ≡ at_place Why.Overlap 1 (map (meets_one (dst.now ∷ [])) srcs.now) }
{
    match same_source(dst, srcs) {
        Some(at) => Some(Why::Overlap(at as u32 + 1)),
        None => None,
    }
}

/// The first source that has a bit of one of two destinations.
#[tactic(auto, using(crate::proofs::Found::places))]
fn overlap_of_two(dst: &Place, second: &Place, srcs: &[Place]) -> Option<Why>
    requires { length srcs.now ≤ 5 }
    ensures { result ≡ at_place Why.Overlap 2
        (map (meets_one (dst.now ∷ second.now ∷ [])) srcs.now) }
{
    match same_of_two(dst, second, srcs) {
        Some(at) => Some(Why::Overlap(at as u32 + 2)),
        None => None,
    }
}

/// The second destination that has a bit of the first, or the first source that has a bit of a
/// destination.
fn overlap(head: &Head, dst: &Place, srcs: &[Place]) -> Option<Why>
    requires { length srcs.now ≤ 5 }
    ensures { result ≡ at_place Why.Overlap 0
        (meet_before [] (dsts_in (shape_of head.now) (dst.now ∷ srcs.now))
        ++ map (meets_one (dsts_in (shape_of head.now) (dst.now ∷ srcs.now)))
        (srcs_in (shape_of head.now) (dst.now ∷ srcs.now))) }
{
    match (head.second, srcs) {
        (Some(_), [second, rest @ ..]) => {
            if meets(second, dst) {
                return Some(Why::Overlap(1));
            }
            overlap_of_two(dst, second, rest)
        }
        _ => overlap_of_one(dst, srcs),
    }
}

/// Where the first source is that is not as wide as its kind asks.
fn misfit_source(table: &Table, kinds: &[Kind], srcs: &[Place], n: u8) -> Option<usize>
    ensures value { result ≡ position (λ pair. is_misfit n (
      pair.0,
      rows_of table.now.pairs pair.1,
    )) (zip kinds.now srcs.now) }
    ensures bound { IfSome result (λ at. at < length srcs.now) }
{
    kinds
        .iter()
        .zip(srcs)
        .position(|(kind, src)| is_misfit(*kind, rows_of(table, src), n))
}

/// The first operand that is not as wide as its kind asks.
#[tactic(auto, using(crate::proofs::Found::places))]
fn bad_width(table: &Table, head: &Head, dst: &Place, srcs: &[Place], n: u8) -> Option<Why>
    requires { length srcs.now ≤ 5 }
    ensures { result ≡ at_place Why.Width 0 (map (is_misfit n)
        (zip (results (shape_of head.now) ++ head.now.sources.items)
        (map (rows_of table.now.pairs) (dst.now ∷ srcs.now)))) }
{
    if is_misfit(head.result, rows_of(table, dst), n) {
        return Some(Why::Width(0));
    }
    let kinds = other_kinds(head);
    match misfit_source(table, kinds.as_slice(), srcs, n) {
        Some(at) => Some(Why::Width(at as u32 + 1)),
        None => None,
    }
}

/// The rows that an operation's scratch takes at width n.
pub(crate) fn scratch_rows(head: &Head, n: u8) -> u16
    ensures { result ≡ need (shape_of head.now) n }
{
    u16::from(head.bits) + u16::from(n) * u16::from(head.words)
}

/// An operation's operands, the number of their elements and the width.
#[derive(Clone, Copy)]
pub(crate) struct Bbop<'a> {
    pub dst: &'a Place,
    pub srcs: &'a [Place],
    pub count: u32,
    pub n: u8,
}

/// Why the operands do not fit the operation.
fn operands_refusal(table: &Table, head: &Head, bbop: &Bbop<'_>) -> Option<Why>
    requires { length bbop.now.srcs.now ≤ 5 }
    ensures { result ≡ first (operand_conditions table.now.pairs (shape_of head.now)
        (bbop.now.dst.now ∷ bbop.now.srcs.now) bbop.now.count bbop.now.n) }
{
    if let Some(why) = no_object(table, bbop.dst, bbop.srcs) {
        return Some(why);
    }
    if let Some(why) = bad_slice(table, bbop.dst, bbop.srcs) {
        return Some(why);
    }
    if let Some(why) = bad_width(table, head, bbop.dst, bbop.srcs, bbop.n) {
        return Some(why);
    }
    if let Some(why) = bad_size(table, bbop.dst, bbop.srcs, bbop.count) {
        return Some(why);
    }
    overlap(head, bbop.dst, bbop.srcs)
}

/// What a bbop that is not refused takes: its row commands in one bank, and the first row of its
/// scratch.
#[derive(Clone, Copy)]
pub(crate) struct Grant {
    pub counts: Counts,
    pub scratch: u16,
}

/// The row commands and the scratch of an operation at width n, given what comes of its walk.
fn granted(
    table: &Table,
    entry: &Entry<'_>,
    walk: Result<Counts, BadWalk>,
    n: u8,
) -> Result<Grant, Why>
    requires walk { walk ≡ walked (trace entry.now.shape (code_of entry.now) n) }
    requires few { IfOk walk (λ counts. counts.aap + counts.ap ≤ WALK_MAX) }
    ensures refused { IfErr result (λ why. first
        (grant_conditions table.now.limit table.now.pairs (routine_of (program_of entry.now))
        n) ≡ Some why) }
    ensures granted { IfOk result (IsGranted table.now.limit table.now.pairs
        (program_of entry.now) n) }
{
    let counts = match walk {
        Ok(counts) => counts,
        Err(walk) => return Err(Why::BadWalk(walk)),
    };
    match table.find_rows(scratch_rows(&entry.head(), n)) {
        Some(scratch) => Ok(Grant { counts, scratch }),
        None => Err(Why::NoRows),
    }
}

/// What a bbop of this entry is granted, or the first condition that refuses it, in the order of
/// the table.
pub(crate) fn allow(
    table: &Table,
    entry: &Entry<'_>,
    walk: Result<Counts, BadWalk>,
    bbop: &Bbop<'_>,
) -> Result<Grant, Why>
    requires few { length bbop.now.srcs.now ≤ 5 }
    requires walk { walk ≡ walked (trace entry.now.shape (code_of entry.now) bbop.now.n) }
    requires few_commands { IfOk walk (λ counts. counts.aap + counts.ap ≤ WALK_MAX) }
    ensures refused { IfErr result (λ why. first
        (bbop_conditions table.now.limit table.now.pairs (routine_of (program_of entry.now))
        (bbop.now.dst.now ∷ bbop.now.srcs.now) bbop.now.count bbop.now.n) ≡ Some why) }
    ensures allowed { OnOk result (first (bbop_conditions table.now.limit table.now.pairs
        (routine_of (program_of entry.now)) (bbop.now.dst.now ∷ bbop.now.srcs.now)
        bbop.now.count bbop.now.n) ≡ None) }
    ensures granted { IfOk result (IsGranted table.now.limit table.now.pairs
        (program_of entry.now) bbop.now.n) }
{
    let head = entry.head();
    if bbop.srcs.len() != other_kinds(&head).len() {
        return Err(Why::Arity);
    }
    if let Some(why) = operands_refusal(table, &head, bbop) {
        return Err(why);
    }
    granted(table, entry, walk, bbop.n)
}
