//! Numbers that are tried: a plain failure shows at once.

ghost use Rattle.std.specs.Prelude.{◌≡◌, ◌≢◌, ◌+◌, ◌<◌, ◌≤◌, ℕ, List, IfOk, IfSome, Err, false};
ghost use Rattle.uprog_code.specs.Machine.{HasEnded, trace, issues_of};
ghost use Rattle.uprog_code.specs.Legal.{IsLegalCode};
ghost use Rattle.uprog_code.specs.Implements.{Gives};
ghost use Rattle.bdd.specs.Graphs.{AreNodes, HasReached};
ghost use Rattle.bdd.specs.declared.Shortage.{Shortage};
ghost use Rattle.binding_laws.specs.Canonical.{canonical_rows};
ghost use Rattle.verify_core.specs.Verdicts.{Fails, SameKinds};

use crate::canonical::{canonical_bank, rows_of_results};
use crate::case::Case;
use crate::check::case_at;
use crate::run::run_from;
use crate::start::Begin;
use bdd::{Diagram, NoMemory, Shortage};
use bit_rows::{Value, WIDTH_MAX};
use faults::keep;
use std::alloc::Global;
use uprog_code::{Fetch, Head};

/// How many numbers are corners: 0, 1, all ones, the top bit and every other bit.
const CORNERS: u32 = 5;

/// How many draws follow the corners.
const DRAWS: u32 = 8;

/// How many attempts there are: the corners of one source, or the pairs of those of two, and the
/// draws.
fn attempts(sources: u32) -> u32
    ensures few { result ≤ 33 }
    ensures some { 8 ≤ result }
{
    if sources < 2 {
        CORNERS + DRAWS
    } else {
        CORNERS * CORNERS + DRAWS
    }
}

/// A number that looks random, from another.
fn mixed(seed: u32) -> u64 {
    let sum = u64::from(seed)
        .wrapping_add(1)
        .wrapping_mul(0x9E37_79B9_7F4A_7C15);
    let next = (sum ^ (sum >> 30)).wrapping_mul(0xBF58_476D_1CE4_E5B9);
    let last = (next ^ (next >> 27)).wrapping_mul(0x94D0_49BB_1331_11EB);
    last ^ (last >> 31)
}

/// The bit at a position of a corner.
fn corner_bit(corner: u32, bit: u32, n: u32) -> bool {
    match corner {
        0 => false,
        1 => bit == 0,
        2 => true,
        3 => bit == n.wrapping_sub(1),
        _ => bit % 2 == 0,
    }
}

/// The bit at a position of a source in an attempt.
fn tried_bit(attempt: u32, sources: u32, source: u32, bit: u32, n: u32) -> bool {
    let corners = attempts(sources) - DRAWS;
    if attempt >= corners {
        let seed = attempt
            .wrapping_mul(65_536)
            .wrapping_add(source.wrapping_mul(256));
        return mixed(seed.wrapping_add(bit)) % 2 == 1;
    }
    let corner = match source {
        0 => attempt % CORNERS,
        1 => attempt / CORNERS,
        _ => attempt.wrapping_add(source) % CORNERS,
    };
    corner_bit(corner, bit, n)
}

/// The bit at a place of a bank with so many rows of results, in an attempt, where it is one of a
/// source.
fn source_bit(attempt: u32, n: u32, sources: u32, results: u32, row: u32) -> Option<bool> {
    if row < results {
        return None;
    }
    let k = row - results;
    if sources == 0 || k / sources >= n {
        return None;
    }
    Some(tried_bit(attempt, sources, k % sources, k / sources, n))
}

/// The values of so many variables in an attempt: the bits of the sources, and `others` for the
/// others.
fn assignment(
    attempt: u32,
    others: bool,
    head: &Head,
    n: u8,
    alloc: Global,
) -> Result<Vec<bool>, NoMemory>
    requires { n ≤ WIDTH_MAX }
{
    let sources = head.sources.as_slice().len() as u32;
    let results = u32::from(rows_of_results(head, n));
    let mut values = vec![in alloc; others; 6]?;
    for row in 0..u32::from(canonical_bank(head, n)) {
        let bit = source_bit(attempt, u32::from(n), sources, results, row);
        keep(&mut values, bit.unwrap_or(others))?;
    }
    Ok(values)
}

/// Whether the numbers are the same.
fn are_equal(a: &[Value], b: &[Value]) -> bool
    ensures { result ≡ false → a.now ≢ b.now }
{
    a == b
}

/// A case, and the assignment under which it is one.
#[derive(Drop)]
pub(crate) struct Tried {
    pub path: Vec<bool>,
    pub case: Case,
}

/// The case of an assignment, if the two give different numbers under it.
pub(crate) fn case_under<F: Fetch, G: Fetch>(
    path: &[bool],
    own: &F,
    made: &G,
    n: u8,
    diagram: &mut Diagram,
    alloc: Global,
) -> Result<Option<Case>, Shortage>
    requires nodes { AreNodes diagram.old.nodes }
    requires own_legal { IsLegalCode (F.shape own.now) (F.code own.now) }
    requires made_legal { IsLegalCode (G.shape made.now) (G.code made.now) }
    requires some { 0 < n }
    requires narrow { n ≤ WIDTH_MAX }
    requires own_ends { HasEnded (trace (F.shape own.now) (F.code own.now) n) }
    requires made_ends { HasEnded (trace (G.shape made.now) (G.code made.now) n) }
    requires kinds { SameKinds (F.shape own.now) (G.shape made.now) }
    requires own_variables { 6 + canonical_rows (F.shape own.now) n
        ≤ diagram.old.limits.variables }
    requires made_variables { 6 + canonical_rows (G.shape made.now) n
        ≤ diagram.old.limits.variables }
    ensures fails { IfOk result (λ o. IfSome o (λ case. (meaning : List ℕ → List ℕ)
        → Gives (G.shape made.now) n (issues_of (trace (G.shape made.now) (G.code made.now) n))
        meaning → Fails (F.shape own.now) n
        (issues_of (trace (F.shape own.now) (F.code own.now) n)) meaning case)) }
    ensures nodes { AreNodes diagram.new.nodes }
    ensures limits { diagram.new.limits ≡ diagram.old.limits }
    ensures reached { (s : Shortage) → result ≡ Err s → HasReached s diagram.new }
{
    let begin = Begin::Values(path);
    let own_end = run_from(begin, own, n, diagram, alloc)?;
    let made_end = run_from(begin, made, n, diagram, alloc)?;
    let head = own.head();
    let case = case_at(&own_end, &made_end, &head, n, path, diagram, alloc)?;
    if are_equal(case.got.as_slice(), case.wanted.as_slice()) {
        Ok(None)
    } else {
        Ok(Some(case))
    }
}

/// A case among the attempts, which all have this value in the other cells.
pub(crate) fn tried_case<F: Fetch, G: Fetch>(
    others: bool,
    own: &F,
    made: &G,
    n: u8,
    diagram: &mut Diagram,
    alloc: Global,
) -> Result<Option<Tried>, Shortage>
    requires nodes { AreNodes diagram.old.nodes }
    requires own_legal { IsLegalCode (F.shape own.now) (F.code own.now) }
    requires made_legal { IsLegalCode (G.shape made.now) (G.code made.now) }
    requires some { 0 < n }
    requires narrow { n ≤ WIDTH_MAX }
    requires own_ends { HasEnded (trace (F.shape own.now) (F.code own.now) n) }
    requires made_ends { HasEnded (trace (G.shape made.now) (G.code made.now) n) }
    requires kinds { SameKinds (F.shape own.now) (G.shape made.now) }
    requires own_variables { 6 + canonical_rows (F.shape own.now) n
        ≤ diagram.old.limits.variables }
    requires made_variables { 6 + canonical_rows (G.shape made.now) n
        ≤ diagram.old.limits.variables }
    ensures fails { IfOk result (λ o. IfSome o (λ t. (meaning : List ℕ → List ℕ)
        → Gives (G.shape made.now) n (issues_of (trace (G.shape made.now) (G.code made.now) n))
        meaning → Fails (F.shape own.now) n
        (issues_of (trace (F.shape own.now) (F.code own.now) n)) meaning t.case)) }
    ensures nodes { AreNodes diagram.new.nodes }
    ensures limits { diagram.new.limits ≡ diagram.old.limits }
    ensures reached { (s : Shortage) → result ≡ Err s → HasReached s diagram.new }
{
    let head = own.head();
    let sources = head.sources.as_slice().len() as u32;
    for k in 0..attempts(sources) {
        let Ok(path) = assignment(k, others, &head, n, alloc) else {
            return Err(Shortage::NoMemory);
        };
        if let Some(case) = case_under(&path, own, made, n, diagram, alloc)? {
            return Ok(Some(Tried { path, case }));
        }
    }
    Ok(None)
}
