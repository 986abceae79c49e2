//! The body that keeps values in the designated rows.

ghost use Rattle.std.specs.Prelude.{◌≡◌, ◌<◌, ◌≤◌, ◌+◌, ◌*◌, ◌↔◌, ℕ, length, false, IsTrue};
ghost use Rattle.std.specs.Prelude.{IfOk, IfSome, IfNone, slice_index_or, map, [], ◌∷◌};
ghost use Rattle.mig_graph.specs.Literals.{is_complemented as turns};
ghost use Rattle.row_alloc.specs.Rows.{out_at};
ghost use Rattle.row_alloc.specs.Body.{FitBody, DoesBody, WritesLate};
ghost use Rattle.row_alloc.specs.Length.{plain_length};
ghost use Rattle.row_alloc.specs.Phases.{source_of};
ghost use Rattle.row_alloc.specs.declared.body.BodyRef.TheVariants.{Out};
ghost use Rattle.row_alloc.specs.declared.body.BodyCmd.TheVariants.{Aap};
ghost use Rattle.row_alloc.specs.Known.{Serves, IsFirst, known, known_at};

use crate::beam::{Breadth, DEEP, NARROW, WIDE, beam_body};
use crate::body::{BodyCmd, OutRow};
use crate::held::check_body;
use crate::known::KNOWN;
use crate::order::writes_late;
use crate::plain::plain_body;
use mig_graph::{Mig, NoMemory};
use std::alloc::Global;

/// Whether the commands may stand for the body.
fn serves(m: &Mig, outs: &[OutRow], cmds: &[BodyCmd]) -> bool
    requires fit { FitBody m.now outs.now }
    ensures exact { IsTrue result ↔ Serves m.now outs.now cmds.now }
    ensures does { IsTrue result → DoesBody m.now outs.now cmds.now }
{
    check_body(m, outs, cmds) && writes_late(outs, cmds)
}

/// The sequence of this number.
pub(crate) fn nth(sequences: &[&'static [BodyCmd]], k: usize) -> &'static [BodyCmd]
    requires { k < length sequences.now }
    ensures { result.now ≡ slice_index_or (map (λ s. s.now) sequences.now) k [] }
{
    sequences[k]
}

/// The known sequence of this number.
fn sequence(k: usize) -> &'static [BodyCmd]
    requires { k < length known }
    ensures { result.now ≡ known_at k }
{
    nth(&KNOWN, k)
}

/// The first known sequence that may stand for the body.
fn first_known(m: &Mig, outs: &[OutRow]) -> Option<&'static [BodyCmd]>
    requires fit { FitBody m.now outs.now }
    ensures does { IfSome result (λ cmds. DoesBody m.now outs.now cmds.now) }
    ensures late { IfSome result (λ cmds. WritesLate outs.now cmds.now) }
    ensures first { IfSome result (λ cmds. (k : ℕ) → IsFirst m.now outs.now k
        → cmds.now ≡ known_at k) }
    ensures least { IfSome result (λ cmds. (k : ℕ) → k < length known
        → Serves m.now outs.now (known_at k) → length cmds.now ≤ length (known_at k)) }
    ensures none { IfNone result ((k : ℕ) → k < length known
        → Serves m.now outs.now (known_at k) → ⊥) }
{
    for k in 0..KNOWN.len() {
        let cmds = sequence(k);
        if serves(m, outs, cmds) {
            return Some(cmds);
        }
    }
    None
}

/// A copy of commands.
pub(crate) fn copied(cmds: &[BodyCmd], alloc: Global) -> Result<Vec<BodyCmd>, NoMemory>
    ensures { IfOk result (λ v. v.items ≡ cmds.now) }
{
    Ok(cmds.to_vec(alloc)?)
}

/// The commands of a beam, where they are right and no more than these. More than `most` are not
/// looked for.
fn shorter_of(
    m: &Mig,
    outs: &[OutRow],
    plain: Vec<BodyCmd>,
    breadth: Breadth,
    most: usize,
    alloc: Global,
) -> Result<Vec<BodyCmd>, NoMemory>
    requires fit { FitBody m.now outs.now }
    requires does { DoesBody m.now outs.now plain.items }
    requires late { WritesLate outs.now plain.items }
    ensures does { IfOk result (λ cmds. DoesBody m.now outs.now cmds.items) }
    ensures late { IfOk result (λ cmds. WritesLate outs.now cmds.items) }
    ensures few { IfOk result (λ cmds. length cmds.items ≤ length plain.items) }
{
    let most = usize::min(most, plain.len());
    let cmds = beam_body(m, outs, &[], &[], breadth, most, alloc)?;
    if cmds.len() <= plain.len() && serves(m, outs, &cmds) {
        Ok(cmds)
    } else {
        Ok(plain)
    }
}

/// The given commands, where they are right and no more than these.
fn right_of(
    m: &Mig,
    outs: &[OutRow],
    plain: Vec<BodyCmd>,
    cmds: &[BodyCmd],
    alloc: Global,
) -> Result<Vec<BodyCmd>, NoMemory>
    requires fit { FitBody m.now outs.now }
    requires does { DoesBody m.now outs.now plain.items }
    requires late { WritesLate outs.now plain.items }
    ensures does { IfOk result (λ cmds. DoesBody m.now outs.now cmds.items) }
    ensures late { IfOk result (λ cmds. WritesLate outs.now cmds.items) }
    ensures few { IfOk result (λ cmds. length cmds.items ≤ length plain.items) }
{
    if cmds.len() <= plain.len() && serves(m, outs, cmds) {
        copied(cmds, alloc)
    } else {
        Ok(plain)
    }
}

/// The commands of the beam that finds the fewest, where they are right and no more than these. The
/// third is asked only where the others find none that are fewer.
fn shorter(
    m: &Mig,
    outs: &[OutRow],
    plain: Vec<BodyCmd>,
    alloc: Global,
) -> Result<Vec<BodyCmd>, NoMemory>
    requires fit { FitBody m.now outs.now }
    requires does { DoesBody m.now outs.now plain.items }
    requires late { WritesLate outs.now plain.items }
    ensures does { IfOk result (λ cmds. DoesBody m.now outs.now cmds.items) }
    ensures late { IfOk result (λ cmds. WritesLate outs.now cmds.items) }
    ensures few { IfOk result (λ cmds. length cmds.items ≤ length plain.items) }
{
    let most = plain.len();
    let few = shorter_of(m, outs, plain, NARROW, usize::MAX, alloc)?;
    let fewer = shorter_of(m, outs, few, WIDE, usize::MAX, alloc)?;
    if fewer.len() < most {
        return Ok(fewer);
    }
    shorter_of(m, outs, fewer, DEEP, usize::MAX, alloc)
}

/// These commands, where they are right and no more than those of the plain body, or else these,
/// and a known sequence in the place of both.
pub(crate) fn given_body(
    m: &Mig,
    outs: &[OutRow],
    cmds: &[BodyCmd],
    alloc: Global,
) -> Result<Vec<BodyCmd>, NoMemory>
    requires fit { FitBody m.now outs.now }
    ensures does { IfOk result (λ cmds. DoesBody m.now outs.now cmds.items) }
    ensures late { IfOk result (λ cmds. WritesLate outs.now cmds.items) }
    ensures few { IfOk result (λ cmds. length cmds.items ≤ plain_length m.now outs.now) }
    ensures least { IfOk result (λ cmds. (k : ℕ) → k < length known
        → Serves m.now outs.now (known_at k) → length cmds.items ≤ length (known_at k)) }
{
    let plain = plain_body(m, outs, alloc)?;
    match first_known(m, outs) {
        Some(first) if first.len() <= plain.len() => copied(first, alloc),
        _ => right_of(m, outs, plain, cmds, alloc),
    }
}

/// The commands of the greedy body, or more, in less time: one beam alone looks for them, and for
/// no more than `most`.
pub(crate) fn quick_body(
    m: &Mig,
    outs: &[OutRow],
    breadth: Breadth,
    most: usize,
    alloc: Global,
) -> Result<Vec<BodyCmd>, NoMemory>
    requires fit { FitBody m.now outs.now }
    ensures does { IfOk result (λ cmds. DoesBody m.now outs.now cmds.items) }
    ensures late { IfOk result (λ cmds. WritesLate outs.now cmds.items) }
    ensures few { IfOk result (λ cmds. length cmds.items ≤ plain_length m.now outs.now) }
    ensures least { IfOk result (λ cmds. (k : ℕ) → k < length known
        → Serves m.now outs.now (known_at k) → length cmds.items ≤ length (known_at k)) }
{
    let plain = plain_body(m, outs, alloc)?;
    match first_known(m, outs) {
        Some(cmds) if cmds.len() <= plain.len() => copied(cmds, alloc),
        _ => shorter_of(m, outs, plain, breadth, most, alloc),
    }
}

/// The commands that leave each output's value in its row, kept in the bitwise cells between the
/// nodes.
///
/// A copy stays one. Else the first sequence of the table that the symbolic run finds right stands
/// for the body. Where there is none, the commands that two beams find are tried, the fewer taken,
/// then those of a third, and else the plain body stands.
///
/// The row of an input that is an output too is written after the last command that reads it. The
/// B cells and the spill rows may hold anything at entry, and are left with anything. It is an
/// `Err` only where it runs out of memory.
pub fn greedy_body(m: &Mig, outs: &[OutRow], alloc: Global) -> Result<Vec<BodyCmd>, NoMemory>
    requires fit { FitBody m.now outs.now }
    ensures does { IfOk result (λ cmds. DoesBody m.now outs.now cmds.items) }
    ensures late { IfOk result (λ cmds. WritesLate outs.now cmds.items) }
    ensures few { IfOk result (λ cmds. length cmds.items ≤ plain_length m.now outs.now) }
    ensures known { IfOk result (λ cmds. (k : ℕ) → IsFirst m.now outs.now k
        → length (known_at k) ≤ plain_length m.now outs.now → cmds.items ≡ known_at k) }
    ensures least { IfOk result (λ cmds. (k : ℕ) → k < length known
        → Serves m.now outs.now (known_at k) → length cmds.items ≤ length (known_at k)) }
    ensures count { IfOk result (λ cmds. length cmds.items
        ≤ 4 * length m.now.nodes + 3 * length outs.now) }
    ensures one { IfOk result (λ cmds. length m.now.nodes ≡ 0 → length outs.now ≡ 1
        → turns (out_at outs.now 0).lit ≡ false → length cmds.items ≤ 1) }
    // A constant, or an input that is not inverted, is copied.
    ensures copy { IfOk result (λ cmds. length m.now.nodes ≡ 0 → length outs.now ≡ 1
        → turns (out_at outs.now 0).lit ≡ false → cmds.items
        ≡ Aap (source_of m.now.inputs (out_at outs.now 0).lit) (Out 0) ∷ []) }
{
    let plain = plain_body(m, outs, alloc)?;
    if plain.len() <= 1 {
        return Ok(plain);
    }
    match first_known(m, outs) {
        Some(cmds) if cmds.len() <= plain.len() => copied(cmds, alloc),
        _ => shorter(m, outs, plain, alloc),
    }
}
