//! The diagram of a comparison, before it begins.

ghost use Rattle.std.specs.Prelude.{◌≡◌, ◌≤◌, IfOk};
ghost use Rattle.verify_core.specs.Verdicts.{fresh};

use crate::canonical::canonical_bank;
use bdd::{Diagram, Limits, NoMemory};
use bit_rows::WIDTH_MAX;
use std::alloc::Global;
use uprog_code::Fetch;

/// The greatest number of nodes.
const NODES_MAX: u32 = 4_000_000;

/// The greatest number of questions that no kept answer settles.
const QUESTIONS_MAX: u64 = 1 << 25;

/// How many slots the table of its nodes begins with.
const SLOTS: usize = 4096;

/// How many answers it has room for at first.
const ANSWERS: usize = 1 << 14;

/// An empty diagram, with the limits of a comparison of the two at a width.
pub fn fresh_diagram<F: Fetch, G: Fetch>(
    own: &F,
    made: &G,
    n: u8,
    alloc: Global,
) -> Result<Diagram, NoMemory>
    requires { n ≤ WIDTH_MAX }
    ensures { IfOk result (λ d. d ≡ fresh (F.shape own.now) (G.shape made.now) n) }
{
    let own_rows = canonical_bank(&own.head(), n);
    let made_rows = canonical_bank(&made.head(), n);
    let rows = if own_rows < made_rows {
        made_rows
    } else {
        own_rows
    };
    let limits = Limits {
        nodes: NODES_MAX,
        questions: QUESTIONS_MAX,
        variables: 6 + u32::from(rows),
    };
    Diagram::new(limits, SLOTS, ANSWERS, alloc)
}
