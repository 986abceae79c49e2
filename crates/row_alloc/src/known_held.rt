//! Sequences for bodies whose states stand in cells, each with as few commands as are known.
//!
//! As those of `known`, a sequence serves each body of which the symbolic run says so.

ghost use Rattle.std.specs.Prelude.{◌≡◌, ◌<◌, ◌≤◌, ◌↔◌, ℕ, length, true};
ghost use Rattle.std.specs.Prelude.{IfNone, IfSome, IsTrue};
ghost use Rattle.row_alloc.specs.Body.{FitBody, WritesLate};
ghost use Rattle.row_alloc.specs.Held.{have_layouts, DoesHeld};
ghost use Rattle.row_alloc.specs.Known.{ServesHeld, known_held, held_at};

use crate::body::BodyCmd::{self, Aap, Ap};
use crate::body::BodyRef::{B, C, In, Out};
use crate::body::{Held, OutRow};
use crate::greedy::nth;
use crate::held::check_held;
use crate::order::writes_late;
use mig_graph::Mig;

/// 0 into T0, T3 and DCC1.
pub const RESET: [BodyCmd; 1] = [Aap(C(0), B(15))];

/// 1 into T0, T3 and DCC1.
pub const SET: [BodyCmd; 1] = [Aap(C(1), B(15))];

/// 1 into T1, T2 and T3.
pub const SET_BOTH: [BodyCmd; 1] = [Aap(C(1), B(13))];

/// T2 and T3.
pub const AGREE: [BodyCmd; 2] = [Aap(C(0), B(1)), Aap(B(13), Out(0))];

/// The majority of a, not b and T0.
pub const COMPARE: [BodyCmd; 3] = [Aap(In(0), B(3)), Aap(In(1), B(7)), Aap(B(15), Out(0))];

/// The majority of a, not b and T2, and that of not a, b and T3.
pub const ORDER: [BodyCmd; 4] = [Aap(In(1), B(8)), Aap(In(0), B(9)), Ap(B(14)), Ap(B(15))];

/// a less b, with a borrow in T3 and DCC1.
pub const LESSEN: [BodyCmd; 6] = [
    Aap(In(1), B(8)),
    Aap(B(7), B(2)),
    Aap(In(0), B(9)),
    Ap(B(12)),
    Aap(B(15), B(1)),
    Aap(B(14), Out(0)),
];

/// All of them, the shorter ones first.
pub const KNOWN_HELD: [&[BodyCmd]; 7] = [
    &RESET, &SET, &SET_BOTH, &AGREE, &COMPARE, &ORDER, &LESSEN,
];

/// Whether the commands may stand for the body with its states in these cells.
pub(crate) fn serves(
    m: &Mig,
    outs: &[OutRow],
    enter: &[Held],
    leave: &[Held],
    cmds: &[BodyCmd],
) -> bool
    requires fit { FitBody m.now outs.now }
    requires enter { have_layouts enter.now ≡ true }
    requires leave { have_layouts leave.now ≡ true }
    ensures exact { IsTrue result ↔ ServesHeld m.now outs.now enter.now leave.now cmds.now }
    ensures does { IsTrue result → DoesHeld m.now outs.now enter.now leave.now cmds.now }
{
    check_held(m, outs, enter, leave, cmds) && writes_late(outs, cmds)
}

/// The known sequence of this number.
fn sequence(k: usize) -> &'static [BodyCmd]
    requires { k < length known_held }
    ensures { result.now ≡ held_at k }
{
    nth(&KNOWN_HELD, k)
}

/// The first known sequence that may stand for the body.
pub(crate) fn first_held(
    m: &Mig,
    outs: &[OutRow],
    enter: &[Held],
    leave: &[Held],
) -> Option<&'static [BodyCmd]>
    requires fit { FitBody m.now outs.now }
    requires enter { have_layouts enter.now ≡ true }
    requires leave { have_layouts leave.now ≡ true }
    ensures does { IfSome result (λ cmds. DoesHeld m.now outs.now enter.now leave.now cmds.now) }
    ensures late { IfSome result (λ cmds. WritesLate outs.now cmds.now) }
    ensures least { IfSome result (λ cmds. (k : ℕ) → k < length known_held
        → ServesHeld m.now outs.now enter.now leave.now (held_at k)
        → length cmds.now ≤ length (held_at k)) }
    ensures none { IfNone result ((k : ℕ) → k < length known_held
        → ServesHeld m.now outs.now enter.now leave.now (held_at k) → ⊥) }
{
    for k in 0..KNOWN_HELD.len() {
        let cmds = sequence(k);
        if serves(m, outs, enter, leave, cmds) {
            return Some(cmds);
        }
    }
    None
}
