//! What is tried last, where a diagram gave no answer: starts with 1 in the other cells.

ghost use Rattle.std.specs.Prelude.{◌≡◌, ◌+◌, ◌<◌, ◌≤◌, ℕ, List, Err, IfOk};
ghost use Rattle.uprog_code.specs.Machine.{HasEnded, trace, issues_of};
ghost use Rattle.uprog_code.specs.Legal.{IsLegalCode};
ghost use Rattle.uprog_code.specs.Implements.{Gives};
ghost use Rattle.bdd.specs.Graphs.{AreNodes};
ghost use Rattle.bdd.specs.declared.Shortage.{Shortage};
ghost use Rattle.binding_laws.specs.Canonical.{canonical_rows};
ghost use Rattle.verify_core.specs.Verdicts.{Fails, SameKinds};

use crate::case::Case;
use crate::fresh::fresh_diagram;
use crate::tries::{Tried, case_under, tried_case};
use bdd::{Diagram, Shortage};
use bit_rows::WIDTH_MAX;
use faults::keep;
use std::alloc::Global;
use uprog_code::Fetch;

/// How many parts of an assignment are tried with 0 in place of 1.
const PARTS_MAX: u32 = 256;

/// An assignment with 0 in so many places from one on, or none where they are 0.
fn without(path: &[bool], first: usize, count: usize, alloc: Global) -> Option<Vec<bool>> {
    let mut values = Vec::new(alloc);
    let mut some = false;
    for k in 0..path.len() {
        let inside = first <= k && k - first < count;
        some = some || (inside && path[k]);
        if keep(&mut values, path[k] && !inside).is_err() {
            return None;
        }
    }
    if some { Some(values) } else { None }
}

/// A part of an assignment: so many places from one on.
#[derive(Clone, Copy)]
struct Part {
    first: usize,
    count: usize,
}

/// The part after one, or the first one of half as many places.
fn next_part(part: Part, len: usize) -> Part {
    let first = part.first.saturating_add(part.count);
    if first < len {
        Part {
            first,
            count: part.count,
        }
    } else {
        Part {
            first: 0,
            count: part.count / 2,
        }
    }
}

/// The case, or one with 0 in place of 1 in a part of the assignment, if the two give different
/// numbers under that as well.
fn case_without<F: Fetch, G: Fetch>(
    tried: Tried,
    part: Part,
    own: &F,
    made: &G,
    n: u8,
    diagram: &mut Diagram,
    alloc: Global,
) -> Tried
    requires nodes { AreNodes diagram.old.nodes }
    requires own_legal { IsLegalCode (F.shape own.now) (F.code own.now) }
    requires made_legal { IsLegalCode (G.shape made.now) (G.code made.now) }
    requires some { 0 < n }
    requires narrow { n ≤ WIDTH_MAX }
    requires own_ends { HasEnded (trace (F.shape own.now) (F.code own.now) n) }
    requires made_ends { HasEnded (trace (G.shape made.now) (G.code made.now) n) }
    requires kinds { SameKinds (F.shape own.now) (G.shape made.now) }
    requires own_variables { 6 + canonical_rows (F.shape own.now) n
        ≤ diagram.old.limits.variables }
    requires made_variables { 6 + canonical_rows (G.shape made.now) n
        ≤ diagram.old.limits.variables }
    requires fails { (meaning : List ℕ → List ℕ)
        → Gives (G.shape made.now) n (issues_of (trace (G.shape made.now) (G.code made.now) n))
        meaning → Fails (F.shape own.now) n
        (issues_of (trace (F.shape own.now) (F.code own.now) n)) meaning tried.case }
    ensures fails { (meaning : List ℕ → List ℕ)
        → Gives (G.shape made.now) n (issues_of (trace (G.shape made.now) (G.code made.now) n))
        meaning → Fails (F.shape own.now) n
        (issues_of (trace (F.shape own.now) (F.code own.now) n)) meaning result.case }
    ensures nodes { AreNodes diagram.new.nodes }
    ensures limits { diagram.new.limits ≡ diagram.old.limits }
{
    let Some(path) = without(&tried.path, part.first, part.count, alloc) else {
        return tried;
    };
    match case_under(&path, own, made, n, diagram, alloc) {
        Ok(Some(case)) => Tried { path, case },
        _ => tried,
    }
}

/// A case with 0 in place of 1 where that is found by halves: few cells are 1.
fn fewer_ones<F: Fetch, G: Fetch>(
    tried: Tried,
    own: &F,
    made: &G,
    n: u8,
    diagram: &mut Diagram,
    alloc: Global,
) -> Case
    requires nodes { AreNodes diagram.old.nodes }
    requires own_legal { IsLegalCode (F.shape own.now) (F.code own.now) }
    requires made_legal { IsLegalCode (G.shape made.now) (G.code made.now) }
    requires some { 0 < n }
    requires narrow { n ≤ WIDTH_MAX }
    requires own_ends { HasEnded (trace (F.shape own.now) (F.code own.now) n) }
    requires made_ends { HasEnded (trace (G.shape made.now) (G.code made.now) n) }
    requires kinds { SameKinds (F.shape own.now) (G.shape made.now) }
    requires own_variables { 6 + canonical_rows (F.shape own.now) n
        ≤ diagram.old.limits.variables }
    requires made_variables { 6 + canonical_rows (G.shape made.now) n
        ≤ diagram.old.limits.variables }
    requires fails { (meaning : List ℕ → List ℕ)
        → Gives (G.shape made.now) n (issues_of (trace (G.shape made.now) (G.code made.now) n))
        meaning → Fails (F.shape own.now) n
        (issues_of (trace (F.shape own.now) (F.code own.now) n)) meaning tried.case }
    ensures fails { (meaning : List ℕ → List ℕ)
        → Gives (G.shape made.now) n (issues_of (trace (G.shape made.now) (G.code made.now) n))
        meaning → Fails (F.shape own.now) n
        (issues_of (trace (F.shape own.now) (F.code own.now) n)) meaning result }
{
    let len = tried.path.len();
    let mut few = tried;
    let mut part = Part {
        first: 0,
        count: len,
    };
    for k in 0..PARTS_MAX {
        if part.count == 0 {
            return few.case;
        }
        few = case_without(few, part, own, made, n, diagram, alloc);
        part = next_part(part, len);
    }
    few.case
}

/// A case among the attempts that have 1 in the other cells; none is the shortage of before.
pub(crate) fn last_case<F: Fetch, G: Fetch>(
    shortage: Shortage,
    own: &F,
    made: &G,
    n: u8,
    alloc: Global,
) -> Result<Case, Shortage>
    requires own_legal { IsLegalCode (F.shape own.now) (F.code own.now) }
    requires made_legal { IsLegalCode (G.shape made.now) (G.code made.now) }
    requires some { 0 < n }
    requires narrow { n ≤ WIDTH_MAX }
    requires own_ends { HasEnded (trace (F.shape own.now) (F.code own.now) n) }
    requires made_ends { HasEnded (trace (G.shape made.now) (G.code made.now) n) }
    requires kinds { SameKinds (F.shape own.now) (G.shape made.now) }
    ensures fails { IfOk result (λ case. (meaning : List ℕ → List ℕ)
        → Gives (G.shape made.now) n (issues_of (trace (G.shape made.now) (G.code made.now) n))
        meaning → Fails (F.shape own.now) n
        (issues_of (trace (F.shape own.now) (F.code own.now) n)) meaning case) }
    ensures before { (s : Shortage) → result ≡ Err s → s ≡ shortage }
{
    let Ok(mut diagram) = fresh_diagram(own, made, n, alloc) else {
        return Err(shortage);
    };
    match tried_case(true, own, made, n, &mut diagram, alloc) {
        Ok(Some(tried)) => Ok(fewer_ones(tried, own, made, n, &mut diagram, alloc)),
        _ => Err(shortage),
    }
}
