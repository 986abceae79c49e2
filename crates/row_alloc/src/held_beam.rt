//! The commands of a body that holds states in cells, where they are known or a beam finds them.

ghost use Rattle.std.specs.Prelude.{◌≡◌, ◌<◌, ◌≤◌, ◌↔◌, ℕ, length, true, IsTrue};
ghost use Rattle.std.specs.Prelude.{IfOk, IfSome, IfNone};
ghost use Rattle.row_alloc.specs.Body.{FitBody};
ghost use Rattle.row_alloc.specs.Found.{IsFoundHeld};
ghost use Rattle.row_alloc.specs.Held.{have_layouts};
ghost use Rattle.row_alloc.specs.Known.{ServesHeld, MayHold, known_held, held_at};

use crate::beam::{BROAD, Breadth, DEEP, NARROW, WIDE, beam_body};
use crate::body::{BodyCmd, Held, OutRow};
use crate::found::{Search, fits};
use crate::greedy::copied;
use crate::known_held::{first_held, serves};
use crate::layout::LAYOUT_COUNT;
use mig_graph::{Mig, NoMemory};
use std::alloc::Global;

/// The commands of a beam, where they are right and at most so many.
fn found_of(
    m: &Mig,
    outs: &[OutRow],
    enter: &[Held],
    leave: &[Held],
    breadth: Breadth,
    most: usize,
    alloc: Global,
) -> Result<Option<Vec<BodyCmd>>, NoMemory>
    requires fit { FitBody m.now outs.now }
    requires enter { have_layouts enter.now ≡ true }
    requires leave { have_layouts leave.now ≡ true }
    ensures { IfOk result (λ o. IfSome o (λ cmds. IsFoundHeld m.now outs.now enter.now leave.now
        most cmds.items)) }
{
    let cmds = beam_body(m, outs, enter, leave, breadth, most, alloc)?;
    if cmds.len() <= most && serves(m, outs, enter, leave, &cmds) {
        Ok(Some(cmds))
    } else {
        Ok(None)
    }
}

/// These commands, where they are right and at most so many.
fn given(
    m: &Mig,
    outs: &[OutRow],
    enter: &[Held],
    leave: &[Held],
    cmds: &[BodyCmd],
    most: usize,
    alloc: Global,
) -> Result<Option<Vec<BodyCmd>>, NoMemory>
    requires fit { FitBody m.now outs.now }
    requires enter { have_layouts enter.now ≡ true }
    requires leave { have_layouts leave.now ≡ true }
    ensures { IfOk result (λ o. IfSome o (λ cmds. IsFoundHeld m.now outs.now enter.now leave.now
        most cmds.items)) }
{
    if cmds.len() <= most && serves(m, outs, enter, leave, cmds) {
        Ok(Some(copied(cmds, alloc)?))
    } else {
        Ok(None)
    }
}

/// The commands of the beam that finds the fewest, where they are right and at most so many.
fn fewest(
    m: &Mig,
    outs: &[OutRow],
    enter: &[Held],
    leave: &[Held],
    most: usize,
    alloc: Global,
) -> Result<Option<Vec<BodyCmd>>, NoMemory>
    requires fit { FitBody m.now outs.now }
    requires enter { have_layouts enter.now ≡ true }
    requires leave { have_layouts leave.now ≡ true }
    ensures { IfOk result (λ o. IfSome o (λ cmds. IsFoundHeld m.now outs.now enter.now leave.now
        most cmds.items)) }
{
    let Some(few) = found_of(m, outs, enter, leave, NARROW, most, alloc)? else {
        return found_of(m, outs, enter, leave, BROAD, most, alloc);
    };
    let fewer = few.len().saturating_sub(1);
    match found_of(m, outs, enter, leave, BROAD, fewer, alloc)? {
        Some(cmds) => Ok(Some(cmds)),
        None => Ok(Some(few)),
    }
}

/// The commands that such a search finds, where they are right and at most so many.
fn search_held(
    m: &Mig,
    outs: &[OutRow],
    enter: &[Held],
    leave: &[Held],
    search: Search,
    most: usize,
    alloc: Global,
) -> Result<Option<Vec<BodyCmd>>, NoMemory>
    requires fit { FitBody m.now outs.now }
    requires enter { have_layouts enter.now ≡ true }
    requires leave { have_layouts leave.now ≡ true }
    ensures { IfOk result (λ o. IfSome o (λ cmds. IsFoundHeld m.now outs.now enter.now leave.now
        most cmds.items)) }
{
    match search {
        Search::Given(cmds) => given(m, outs, enter, leave, cmds, most, alloc),
        Search::Narrow => found_of(m, outs, enter, leave, NARROW, most, alloc),
        Search::Wide => found_of(m, outs, enter, leave, WIDE, most, alloc),
        Search::Deep => found_of(m, outs, enter, leave, DEEP, most, alloc),
        Search::Broad => found_of(m, outs, enter, leave, BROAD, most, alloc),
        Search::Whole => fewest(m, outs, enter, leave, most, alloc),
    }
}

/// Whether each of the literals has a layout.
fn are_laid_out(held: &[Held]) -> bool
    ensures { result ≡ have_layouts held.now }
{
    held.iter().all(|h| h.layout < LAYOUT_COUNT)
}

/// Whether commands can be made of the body.
fn may_hold(m: &Mig, outs: &[OutRow], enter: &[Held], leave: &[Held]) -> bool
    ensures { IsTrue result ↔ MayHold m.now outs.now enter.now leave.now }
{
    fits(m, outs) && are_laid_out(enter) && are_laid_out(leave)
}

/// The commands of a body that finds these states in cells and leaves these there, if at most so
/// many are known or found: the first of the known sequences that serves, and else what the search
/// finds.
///
/// That a body has no shorter commands is not said, nor is it of one for which none are found. It
/// is an `Err` only where it runs out of memory.
pub fn held_commands_of(
    m: &Mig,
    outs: &[OutRow],
    enter: &[Held],
    leave: &[Held],
    search: Search,
    most: usize,
    alloc: Global,
) -> Result<Option<Vec<BodyCmd>>, NoMemory>
    ensures found { IfOk result (λ o. IfSome o (λ cmds. IsFoundHeld m.now outs.now enter.now
        leave.now most cmds.items)) }
    // No more than any known sequence that serves.
    ensures least { IfOk result (λ o. IfSome o (λ cmds. (k : ℕ) → k < length known_held
        → ServesHeld m.now outs.now enter.now leave.now (held_at k)
        → length cmds.items ≤ length (held_at k))) }
    // None for a body that can have commands only where no known sequence of so many serves.
    ensures none { IfOk result (λ o. IfNone o (MayHold m.now outs.now enter.now leave.now
        → (k : ℕ) → k < length known_held
        → ServesHeld m.now outs.now enter.now leave.now (held_at k) → most < length (held_at k))) }
{
    if !may_hold(m, outs, enter, leave) {
        return Ok(None);
    }
    match first_held(m, outs, enter, leave) {
        Some(cmds) if cmds.len() <= most => Ok(Some(copied(cmds, alloc)?)),
        _ => search_held(m, outs, enter, leave, search, most, alloc),
    }
}
