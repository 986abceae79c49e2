//! The instructions, one after another.

ghost use Rattle.std.specs.Prelude.{◌≡◌, ℕ, ◌+◌, ◌*◌, ◌<◌, ◌≤◌, ◌^◌, ◌∷◌, [], length, map};
ghost use Rattle.std.specs.Prelude.{None, IfOk, OnOk, OnErr, count_by, false};
ghost use Rattle.std.specs.List.{AllByRecursion};
ghost use Rattle.host_edge.specs.Views.{FolderView};
ghost use Rattle.faults.specs.Counts.{Rose};
ghost use Rattle.dram_model.specs.Chip.{Grew};
ghost use Rattle.dram_model.specs.View.{HasBegun, Kept};
ghost use Rattle.transpose_unit.specs.Stopped.{StoppedWithin};
ghost use Rattle.bbop_isa.specs.Forms.{view_of};
ghost use Rattle.machine_model.specs.Agrees.{IsPlain};
ghost use Rattle.machine_model.specs.Script.{is_refused};
ghost use Rattle.object_steps.specs.Objects.{RisesAtMost};
ghost use Rattle.cli_model.specs.World.{world};
ghost use Rattle.cli_model.specs.Steps.{Goes};
ghost use Rattle.sim_machine.specs.Machine.{GoesOn, IsLaidOut, geometry_of};
ghost use Rattle.sim_machine.specs.Machine.{operations_by, table_in, turn_in};
ghost use Rattle.guard_model.specs.Flips.{due};
ghost use Rattle.guard_model.specs.FlipText.{AreSorted, IsFlip};
ghost use Rattle.guard_model.specs.Named.{has_long_name};
ghost use Rattle.guard_model.specs.Triples.{first_stranger};
ghost use Rattle.guard_model.specs.Votes.{vote_count};
ghost use Rattle.guard_model.specs.Guarded.{guarded_replies, guarded_rows_at_end};
ghost use Rattle.guard_model.specs.Guarded.{guarded_table_at_end, guarded_tally};
ghost use Rattle.guard_model.specs.Guarded.{votes_at_end};
ghost use Rattle.tmr_guard.specs.Steps.{machine_in};
ghost use Rattle.guard_job.specs.Events.{mend_events, run_events};
ghost use Rattle.guard_job.specs.Parts.{InstrDone, IsCell, Mended as IsMended};
ghost use Rattle.guard_job.specs.Steps.{end_by, guarded_steps, instr_steps};

use crate::flipping::flip_due;
use bbop_isa::Instr;
use dram_model::{ChipFault, Dram};
use guard_model::Flip;
use host_edge::Sink;
use machine_model::Reply;
use sim_machine::StepFault;
use tmr_guard::Guard;

/// What a guarded script came to: how many instructions were refused, and how many AAP the votes
/// took.
#[derive(Clone, Copy, PartialEq, Eq)]
pub struct Outcome {
    pub refused: u64,
    pub votes: u64,
}

/// How many flips were done before a vote, and how many AAP it took.
#[derive(Clone, Copy)]
struct Mended {
    flips: usize,
    votes: u64,
}

/// Does the flips that come before instruction k, and then a vote.
fn mend<D: Dram>(
    guard: &mut Guard<'_>,
    flips: &[Flip],
    k: u32,
    stage: &mut [u64],
    chip: &mut D,
) -> Result<Mended, ChipFault>
    requires begun { HasBegun (D.view chip.old) }
    requires geometry { (D.view chip.old).geometry ≡ geometry_of (machine_in guard.old) }
    requires triples { first_stranger (table_in (machine_in guard.old)) ≡ None }
    requires cells { AllByRecursion (IsCell (D.view chip.old).geometry) flips.now }
    requires sorted { AreSorted k flips.now }
    requires stage { (D.view chip.old).geometry.words ≤ length stage.old }
    requires few { length flips.now ≤ 2 ^ 32 }
    requires aap_room { (D.view chip.old).counters.aap < 2 ^ 61 }
    requires reads_room { (D.view chip.old).counters.reads < 2 ^ 61 }
    requires writes_room { (D.view chip.old).counters.writes < 2 ^ 61 }
    ensures borrow { D.borrow chip.new ≡ D.borrow chip.old }
    ensures kept { Kept (D.view chip.old) (D.view chip.new) }
    ensures stage { length stage.new ≡ length stage.old }
    ensures same { machine_in guard.new ≡ machine_in guard.old }
    ensures laid { OnOk result (IsLaidOut (machine_in guard.old)) }
    ensures flips { IfOk result (λ mended. mended.flips ≡ length (due k flips.now)) }
    ensures within { IfOk result (λ mended. mended.flips ≤ length flips.now) }
    ensures votes { IfOk result (λ mended. mended.votes
        ≡ vote_count (geometry_of (machine_in guard.old)) (table_in (machine_in guard.old))) }
    ensures few { IfOk result (λ mended. mended.votes ≤ 2 ^ 30) }
    ensures done { OnOk result (IsMended (geometry_of (machine_in guard.old)) (due k flips.now)
        (table_in (machine_in guard.old)) (D.view chip.old) (D.view chip.new)) }
    ensures failed { OnErr result (Rose (D.view chip.old).faults (D.view chip.new).faults) }
    ensures left { OnErr result (StoppedWithin 0 (mend_events (geometry_of (machine_in guard.old))
        (due k flips.now) (table_in (machine_in guard.old)) (D.view chip.old).banks)
        (D.view chip.old).banks (D.view chip.new).banks) }
{
    let flips = flip_due(flips, k, stage, chip)?;
    let votes = guard.vote(chip)?;
    Ok(Mended { flips, votes })
}

/// What one instruction came to, with the flips and the vote before it.
#[derive(Clone, Copy)]
struct One {
    flips: usize,
    votes: u64,
    refused: u64,
}

/// Whether it is a refusal.
fn is_refused(reply: &Reply) -> bool
    ensures { result ≡ is_refused reply.now }
{
    matches!(reply, Reply::Refused(_))
}

/// Does the flips that come before instruction k, a vote, and the instruction, with its line.
fn do_one<D: Dram, S: Sink>(
    guard: &mut Guard<'_>,
    flips: &[Flip],
    k: u32,
    instr: &Instr,
    stage: &mut [u64],
    chip: &mut D,
    out: &mut S,
) -> Result<One, StepFault>
    requires begun { HasBegun (D.view chip.old) }
    requires geometry { (D.view chip.old).geometry ≡ geometry_of (machine_in guard.old) }
    requires triples { first_stranger (table_in (machine_in guard.old)) ≡ None }
    requires cells { AllByRecursion (IsCell (D.view chip.old).geometry) flips.now }
    requires sorted { AreSorted k flips.now }
    requires stage { (D.view chip.old).geometry.words ≤ length stage.old }
    requires few { length flips.now ≤ 2 ^ 32 }
    requires plain { IsPlain (view_of instr.now) }
    requires short { has_long_name (view_of instr.now) ≡ false }
    requires aap_room { (D.view chip.old).counters.aap < 2 ^ 60 }
    requires ap_room { (D.view chip.old).counters.ap < 2 ^ 60 }
    requires reads_room { (D.view chip.old).counters.reads < 2 ^ 60 + 2 ^ 59 }
    requires writes_room { (D.view chip.old).counters.writes < 2 ^ 60 + 2 ^ 59 }
    ensures borrow { D.borrow chip.new ≡ D.borrow chip.old }
    ensures kept { Kept (D.view chip.old) (D.view chip.new) }
    ensures stage { length stage.new ≡ length stage.old }
    ensures goes_on { GoesOn (machine_in guard.old) (machine_in guard.new) }
    ensures triples { OnOk result (first_stranger (table_in (machine_in guard.new)) ≡ None) }
    ensures flips { IfOk result (λ one. one.flips ≡ length (due k flips.now)) }
    ensures within { IfOk result (λ one. one.flips ≤ length flips.now) }
    ensures few_votes { IfOk result (λ one. one.votes ≤ 2 ^ 30) }
    ensures few_refused { IfOk result (λ one. one.refused ≤ 1) }
    ensures done { IfOk result (λ one. InstrDone (geometry_of (machine_in guard.old))
        (operations_by (machine_in guard.old)) (due k flips.now) (view_of instr.now)
        (turn_in (machine_in guard.old)) (turn_in (machine_in guard.new))
        (table_in (machine_in guard.old)) (table_in (machine_in guard.new))
        (D.view chip.old) (D.view chip.new) one.votes one.refused) }
    ensures rises { IfOk result (λ one. RisesAtMost (2 ^ 33 + one.flips)
        (D.view chip.old).counters (D.view chip.new).counters) }
    ensures goes { (files : FolderView) → Goes (instr_steps (geometry_of (machine_in guard.old))
        (operations_by (machine_in guard.old)) (due k flips.now) k (turn_in (machine_in guard.old))
        (table_in (machine_in guard.old)) (D.view chip.old).banks (view_of instr.now))
        (end_by result) (world files (S.view out.old) (D.view chip.old))
        (world files (S.view out.new) (D.view chip.new)) }
{
    let mended = match mend(guard, flips, k, stage, chip) {
        Ok(mended) => mended,
        Err(_) => return Err(StepFault::ChipFault),
    };
    match guard.step(k, instr, chip, out) {
        Ok(reply) => Ok(One {
            flips: mended.flips,
            votes: mended.votes,
            refused: u64::from(is_refused(&reply)),
        }),
        Err(fault) => Err(fault),
    }
}

/// Does a guarded script: for each instruction the flips that come before it, a vote, and the
/// instruction, with its line; after the last the flips that are left and one more vote. The stage
/// has room for a row. It takes no memory.
pub fn guard_script<D: Dram, S: Sink>(
    guard: &mut Guard<'_>,
    flips: &[Flip],
    script: &[Instr],
    stage: &mut [u64],
    chip: &mut D,
    out: &mut S,
) -> Result<Outcome, StepFault>
    requires begun { HasBegun (D.view chip.old) }
    requires geometry { (D.view chip.old).geometry ≡ geometry_of (machine_in guard.old) }
    requires triples { first_stranger (table_in (machine_in guard.old)) ≡ None }
    requires cells { AllByRecursion (IsFlip (geometry_of (machine_in guard.old))
        (length script.now)) flips.now }
    requires sorted { AreSorted 1 flips.now }
    requires few_flips { length flips.now ≤ 2 ^ 32 }
    requires plain { AllByRecursion IsPlain (map view_of script.now) }
    requires short { AllByRecursion (λ instr. has_long_name instr ≡ false)
        (map view_of script.now) }
    requires few { length script.now ≤ 2 ^ 25 }
    requires stage { (D.view chip.old).geometry.words ≤ length stage.old }
    requires aap_none { (D.view chip.old).counters.aap ≡ 0 }
    requires ap_none { (D.view chip.old).counters.ap ≡ 0 }
    requires few_writes { (D.view chip.old).counters.writes ≤ 2 ^ 60 }
    requires reads_none { (D.view chip.old).counters.reads ≡ 0 }
    ensures borrow { D.borrow chip.new ≡ D.borrow chip.old }
    ensures kept { Kept (D.view chip.old) (D.view chip.new) }
    ensures goes_on { GoesOn (machine_in guard.old) (machine_in guard.new) }
    ensures table { OnOk result (table_in (machine_in guard.new)
        ≡ guarded_table_at_end (geometry_of (machine_in guard.old))
        (operations_by (machine_in guard.old)) (table_in (machine_in guard.old))
        (map view_of script.now)) }
    ensures banks { OnOk result ((D.view chip.new).banks
        ≡ guarded_rows_at_end (geometry_of (machine_in guard.old))
        (operations_by (machine_in guard.old)) flips.now 1 (table_in (machine_in guard.old))
        (D.view chip.old).banks (map view_of script.now)) }
    ensures counters { OnOk result ((D.view chip.new).counters
        ≡ guarded_tally (geometry_of (machine_in guard.old))
        (operations_by (machine_in guard.old)) (table_in (machine_in guard.old))
        (map view_of script.now) flips.now (D.view chip.old).counters) }
    ensures log { OnOk result (Grew (D.view chip.old).log (D.view chip.new).log
        (run_events (geometry_of (machine_in guard.old)) (operations_by (machine_in guard.old))
        flips.now 1 (turn_in (machine_in guard.old)) (table_in (machine_in guard.old))
        (D.view chip.old).banks (map view_of script.now))) }
    ensures few_reads { OnOk result ((D.view chip.new).counters.reads < 2 ^ 62) }
    ensures votes { IfOk result (λ outcome. outcome.votes
        ≡ votes_at_end (geometry_of (machine_in guard.old)) (operations_by (machine_in guard.old))
        (table_in (machine_in guard.old)) (map view_of script.now)) }
    ensures refused { IfOk result (λ outcome. outcome.refused ≡ count_by is_refused
        (guarded_replies (geometry_of (machine_in guard.old))
        (operations_by (machine_in guard.old)) (table_in (machine_in guard.old))
        (map view_of script.now))) }
    ensures goes { (files : FolderView) → Goes (guarded_steps (geometry_of (machine_in guard.old))
        (operations_by (machine_in guard.old)) flips.now 1 (turn_in (machine_in guard.old))
        (table_in (machine_in guard.old)) (D.view chip.old).banks (map view_of script.now))
        (end_by result)
        (world files (S.view out.old) (D.view chip.old))
        (world files (S.view out.new) (D.view chip.new)) }
{
    let mut refused = 0;
    let mut votes = 0;
    let mut flipped = 0;
    let mut done = 0;
    'instrs: while done < script.len() {
        let (_, rest) = flips.split_at(flipped);
        let number = done as u32 + 1;
        let one = do_one(guard, rest, number, &script[done], stage, chip, out)?;
        flipped += one.flips;
        votes += one.votes;
        refused += one.refused;
        done += 1;
    }
    let (_, rest) = flips.split_at(flipped);
    match mend(guard, rest, done as u32 + 1, stage, chip) {
        Ok(last) => Ok(Outcome {
            refused,
            votes: votes + last.votes,
        }),
        Err(_) => Err(StepFault::ChipFault),
    }
}
