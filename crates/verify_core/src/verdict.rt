//! What is said of an entry.

ghost use Rattle.std.specs.Prelude.{◌≡◌, ◌+◌, ◌<◌, ◌≤◌, ◌↔◌, ℕ, List, IfOk, IfNone, IfSome};
ghost use Rattle.std.specs.Prelude.{IsTrue, Err};
ghost use Rattle.uprog_code.specs.Shape.{shape_of};
ghost use Rattle.uprog_code.specs.Machine.{HasEnded, trace, issues_of};
ghost use Rattle.uprog_code.specs.Legal.{IsLegalCode};
ghost use Rattle.uprog_code.specs.Implements.{Gives, Implements};
ghost use Rattle.uprog_code.specs.Texts.{TextOp};
ghost use Rattle.bdd.specs.Graphs.{AreNodes, HasReached};
ghost use Rattle.bdd.specs.declared.Shortage.{Shortage};
ghost use Rattle.binding_laws.specs.Canonical.{canonical_rows};
ghost use Rattle.verify_core.specs.Verdicts.{Fails, IsMeasured, IsUnknown, IsVerdict, SameKinds};
ghost use Rattle.verify_core.specs.Verdicts.{fresh};

use crate::canonical::kinds_of_results;
use crate::case::Case;
use crate::check::failing_case;
use crate::last::last_case;
use crate::tries::tried_case;
use bdd::{Diagram, NoMemory, Shortage};
use bit_rows::WIDTH_MAX;
use std::alloc::Global;
use uprog_code::{BadWalk, Counts, Fetch, Head, Kind, legal_code_is_safe, walk};

/// The greatest number of row commands of an entry with which numbers are tried.
const TRIED_MAX: u64 = 1 << 18;

/// Which limit a comparison reached.
#[derive(Clone, Copy, Debug, PartialEq, Eq)]
pub enum Limit {
    /// The diagram has so many nodes, its greatest number.
    Nodes(u32),
    /// A function asks for too many variables in turn.
    Depth,
    /// So many questions were asked that no kept answer settled, the greatest number.
    Steps(u64),
}

/// What is said of an entry at one width.
#[derive(Drop)]
pub enum Verdict {
    /// It does the op, with so many row commands.
    Right(Counts),
    /// It fails in this case.
    Wrong(Case),
    /// Its walk is stuck.
    Stuck(BadWalk),
    /// It has other kinds of sources or results than the op.
    OtherKinds,
    /// A diagram reached a limit before it was known.
    Unknown(Limit),
}

/// Whether the kinds are the same, one by one.
fn are_same(a: &[Kind], b: &[Kind]) -> bool
    ensures { IsTrue result ↔ a.now ≡ b.now }
{
    a == b
}

/// Whether both take and give the same kinds.
fn has_same_kinds(a: &Head, b: &Head) -> bool
    ensures { IsTrue result ↔ SameKinds (shape_of a.now) (shape_of b.now) }
{
    let results = kinds_of_results(a);
    let others = kinds_of_results(b);
    if are_same(a.sources.as_slice(), b.sources.as_slice()) {
        are_same(results.as_slice(), others.as_slice())
    } else {
        false
    }
}

/// What is said where a diagram gave no answer.
fn unknown(shortage: Shortage, diagram: &Diagram) -> Result<Verdict, NoMemory>
    requires { HasReached shortage diagram.now }
    ensures { IfOk result (λ v. IsUnknown diagram.now v) }
{
    match shortage {
        Shortage::NoMemory => Err(NoMemory),
        Shortage::Full => Ok(Verdict::Unknown(Limit::Nodes(diagram.size()))),
        Shortage::Deep => Ok(Verdict::Unknown(Limit::Depth)),
        Shortage::Spent => Ok(Verdict::Unknown(Limit::Steps(diagram.questions()))),
    }
}

/// A case in which the two give different numbers, or none where they never do. Where the entry has
/// few commands, numbers are tried: from zeros in the other cells before the diagrams, and from
/// ones where these gave no answer.
fn found_case<F: Fetch, G: Fetch>(
    own: &F,
    made: &G,
    n: u8,
    counts: Counts,
    diagram: &mut Diagram,
    alloc: Global,
) -> Result<Option<Case>, Shortage>
    requires nodes { AreNodes diagram.old.nodes }
    requires own_legal { IsLegalCode (F.shape own.now) (F.code own.now) }
    requires made_legal { IsLegalCode (G.shape made.now) (G.code made.now) }
    requires some { 0 < n }
    requires narrow { n ≤ WIDTH_MAX }
    requires own_ends { HasEnded (trace (F.shape own.now) (F.code own.now) n) }
    requires made_ends { HasEnded (trace (G.shape made.now) (G.code made.now) n) }
    requires kinds { SameKinds (F.shape own.now) (G.shape made.now) }
    requires own_variables { 6 + canonical_rows (F.shape own.now) n
        ≤ diagram.old.limits.variables }
    requires made_variables { 6 + canonical_rows (G.shape made.now) n
        ≤ diagram.old.limits.variables }
    ensures same { IfOk result (λ o. IfNone o ((meaning : List ℕ → List ℕ)
        → Gives (G.shape made.now) n (issues_of (trace (G.shape made.now) (G.code made.now) n))
        meaning → Gives (F.shape own.now) n
        (issues_of (trace (F.shape own.now) (F.code own.now) n)) meaning)) }
    ensures fails { IfOk result (λ o. IfSome o (λ case. (meaning : List ℕ → List ℕ)
        → Gives (G.shape made.now) n (issues_of (trace (G.shape made.now) (G.code made.now) n))
        meaning → Fails (F.shape own.now) n
        (issues_of (trace (F.shape own.now) (F.code own.now) n)) meaning case)) }
    ensures limits { diagram.new.limits ≡ diagram.old.limits }
    ensures reached { (s : Shortage) → result ≡ Err s → HasReached s diagram.new }
{
    let is_short = counts.aap <= TRIED_MAX && counts.ap <= TRIED_MAX;
    if is_short {
        if let Some(tried) = tried_case(false, own, made, n, diagram, alloc)? {
            return Ok(Some(tried.case));
        }
    }
    match failing_case(own, made, n, diagram, alloc) {
        Ok(found) => Ok(found),
        Err(shortage) => {
            if !is_short {
                return Err(shortage);
            }
            let case = last_case(shortage, own, made, n, alloc)?;
            Ok(Some(case))
        }
    }
}

/// The verdict on an entry at a width, by one that does the op, with a fresh diagram.
pub fn verify_entry<F: Fetch, G: Fetch>(
    own: &F,
    made: &G,
    n: u8,
    diagram: &mut Diagram,
    alloc: Global,
) -> Result<Verdict, NoMemory>
    requires fresh { diagram.old ≡ fresh (F.shape own.now) (G.shape made.now) n }
    requires own_legal { IsLegalCode (F.shape own.now) (F.code own.now) }
    requires made_legal { IsLegalCode (G.shape made.now) (G.code made.now) }
    requires some { 0 < n }
    requires narrow { n ≤ WIDTH_MAX }
    requires made_ends { HasEnded (trace (G.shape made.now) (G.code made.now) n) }
    ensures verdict { IfOk result (λ v. (o : TextOp) → G.shape made.now ≡ o.shape
        → Implements o.shape (G.code made.now) o.ceiling o.meaning
        → IsVerdict n (record {
          name = F.name own.now;
          shape = F.shape own.now;
          code = F.code own.now;
        }) o v) }
    ensures measured { IfOk result (λ v. IsMeasured diagram.new v) }
{
    legal_code_is_safe();
    if !has_same_kinds(&own.head(), &made.head()) {
        return Ok(Verdict::OtherKinds);
    }
    let counts = match walk(own, n) {
        Ok(counts) => counts,
        Err(stuck) => return Ok(Verdict::Stuck(stuck)),
    };
    match found_case(own, made, n, counts, diagram, alloc) {
        Ok(None) => Ok(Verdict::Right(counts)),
        Ok(Some(case)) => Ok(Verdict::Wrong(case)),
        Err(shortage) => unknown(shortage, diagram),
    }
}
