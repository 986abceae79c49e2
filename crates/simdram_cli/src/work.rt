//! A script is done, piece by piece.

ghost use Rattle.std.specs.Prelude.{◌≡◌, ◌+◌, ◌<◌, ◌≤◌, ◌^◌, length, map, IfOk};
ghost use Rattle.std.specs.Prelude.{count_by, false};
ghost use Rattle.std.specs.List.{AllByRecursion};
ghost use Rattle.host_edge.specs.Views.{FolderView};
ghost use Rattle.dram_model.specs.View.{HasBegun, Kept};
ghost use Rattle.bbop_isa.specs.Forms.{view_of};
ghost use Rattle.machine_model.specs.Agrees.{IsPlain};
ghost use Rattle.machine_model.specs.Pieces.{AreBbops, Wave, Alone, instrs_in, pieces, wave_size};
ghost use Rattle.machine_model.specs.Pieces.{events_of_pieces};
ghost use Rattle.machine_model.specs.Script.{is_bbop, is_refused, replies, rows_printed};
ghost use Rattle.machine_model.specs.Script.{sum_done, table_at_end};
ghost use Rattle.cli_model.specs.World.{world};
ghost use Rattle.cli_model.specs.Steps.{Goes};
ghost use Rattle.sim_machine.specs.Machine.{GoesOn, geometry_of, operations_by};
ghost use Rattle.sim_machine.specs.Machine.{table_in, turn_in};
ghost use Rattle.sim_machine.specs.Steps.{DidAndRead, HasRoom};
ghost use Rattle.simdram_cli.specs.Job.{piece_steps, pieces_steps};
ghost use Rattle.simdram_cli.specs.Stops.{fault_reason, end_of, reason_of};
ghost use Rattle.simdram_cli.specs.Works.{PieceDone, next_piece};

use crate::stop::Stop;
use bbop_isa::Instr;
use dram_model::Dram;
use host_edge::Sink;
use sim_machine::{Machine, Reply, StepFault};

/// Whether it is a bbop.
fn is_bbop(instr: &Instr) -> bool
    ensures { result ≡ is_bbop (view_of instr.now) }
{
    matches!(instr, Instr::Bbop { .. })
}

/// How many bbops a script begins with, 16 at most.
fn wave_len(script: &[Instr]) -> usize
    ensures value { result ≡ wave_size (map view_of script.now) }
    ensures within { result ≤ length script.now }
{
    let mut len = 0;
    'bbops: while len < 16 && len < script.len() && is_bbop(&script[len]) {
        len += 1;
    }
    len
}

/// Whether it is a refusal.
fn is_refused(reply: &Reply) -> bool
    ensures { result ≡ is_refused reply.now }
{
    matches!(reply, Reply::Refused(_))
}

/// How many of them are refusals.
fn refusals(replies: &[Reply]) -> u64
    requires { length replies.now ≤ 16 }
    ensures { result ≡ count_by is_refused replies.now }
{
    replies.iter().filter(|reply| is_refused(reply)).count() as u64
}

/// Why a command stops at an instruction.
pub(crate) fn fault_stop<'a>(fault: StepFault) -> Stop<'a>
    ensures { reason_of result ≡ fault_reason fault }
{
    match fault {
        StepFault::ChipFault => Stop::ChipFailed,
        StepFault::WriteFault => Stop::PutFailed,
    }
}

/// Does one instruction that is no bbop, with its line; answers how many were refused.
fn work_line<'a, D: Dram, S: Sink>(
    machine: &mut Machine<'_>,
    number: u32,
    instr: &Instr,
    chip: &mut D,
    out: &mut S,
) -> Result<u64, Stop<'a>>
    requires begun { HasBegun (D.view chip.old) }
    requires geometry { (D.view chip.old).geometry ≡ geometry_of machine.old }
    requires alone { is_bbop (view_of instr.now) ≡ false }
    requires plain { IsPlain (view_of instr.now) }
    requires room { HasRoom (D.view chip.old).counters }
    ensures goes_on { GoesOn machine.old machine.new }
    ensures borrow { D.borrow chip.new ≡ D.borrow chip.old }
    ensures kept { Kept (D.view chip.old) (D.view chip.new) }
    ensures done { IfOk result (PieceDone (Alone (view_of instr.now)) machine.old machine.new
        (D.view chip.old) (D.view chip.new)) }
    ensures one { IfOk result (λ refused. refused ≤ 1) }
    ensures goes { (files : FolderView) → Goes (piece_steps (geometry_of machine.old)
        (operations_by machine.old) (turn_in machine.old) (table_in machine.old)
        (D.view chip.old).banks number
        (Alone (view_of instr.now))) (end_of result)
        (world files (S.view out.old) (D.view chip.old))
        (world files (S.view out.new) (D.view chip.new)) }
{
    match machine.step(number, instr, chip, out) {
        Ok(reply) => Ok(u64::from(is_refused(&reply))),
        Err(fault) => Err(fault_stop(fault)),
    }
}

/// Does one to sixteen bbops, with their lines; answers how many were refused.
fn work_wave<'a, D: Dram, S: Sink>(
    machine: &mut Machine<'_>,
    number: u32,
    wave: &[Instr],
    chip: &mut D,
    out: &mut S,
) -> Result<u64, Stop<'a>>
    requires begun { HasBegun (D.view chip.old) }
    requires geometry { (D.view chip.old).geometry ≡ geometry_of machine.old }
    requires some { 0 < length wave.now }
    requires few { length wave.now ≤ 16 }
    requires bbops { AreBbops (map view_of wave.now) }
    requires plain { AllByRecursion IsPlain (map view_of wave.now) }
    requires room { HasRoom (D.view chip.old).counters }
    ensures goes_on { GoesOn machine.old machine.new }
    ensures borrow { D.borrow chip.new ≡ D.borrow chip.old }
    ensures kept { Kept (D.view chip.old) (D.view chip.new) }
    ensures done { IfOk result (PieceDone (Wave (map view_of wave.now)) machine.old machine.new
        (D.view chip.old) (D.view chip.new)) }
    ensures few { IfOk result (λ refused. refused ≤ length wave.now) }
    ensures goes { (files : FolderView) → Goes (piece_steps (geometry_of machine.old)
        (operations_by machine.old) (turn_in machine.old) (table_in machine.old)
        (D.view chip.old).banks number
        (Wave (map view_of wave.now))) (end_of result)
        (world files (S.view out.old) (D.view chip.old))
        (world files (S.view out.new) (D.view chip.new)) }
{
    match machine.wave(number, wave, chip, out) {
        Ok(replies) => Ok(refusals(replies.as_slice())),
        Err(failed) => Err(fault_stop(failed)),
    }
}

/// A piece that was done: how many instructions it had, and how many of them were refused.
#[derive(Clone, Copy)]
struct Taken {
    instrs: usize,
    refused: u64,
}

/// Does the first piece of a script: the bbops at its front, 16 at most, as a wave, or its first
/// instruction alone.
fn work_piece<'a, D: Dram, S: Sink>(
    machine: &mut Machine<'_>,
    number: u32,
    script: &[Instr],
    chip: &mut D,
    out: &mut S,
) -> Result<Taken, Stop<'a>>
    requires begun { HasBegun (D.view chip.old) }
    requires geometry { (D.view chip.old).geometry ≡ geometry_of machine.old }
    requires some { 0 < length script.now }
    requires plain { AllByRecursion IsPlain (map view_of script.now) }
    requires room { HasRoom (D.view chip.old).counters }
    ensures goes_on { GoesOn machine.old machine.new }
    ensures borrow { D.borrow chip.new ≡ D.borrow chip.old }
    ensures kept { Kept (D.view chip.old) (D.view chip.new) }
    ensures taken { IfOk result (λ taken. taken.instrs
        ≡ length (instrs_in (next_piece (map view_of script.now)))) }
    ensures some { IfOk result (λ taken. 0 < taken.instrs) }
    ensures within { IfOk result (λ taken. taken.instrs ≤ length script.now) }
    ensures few { IfOk result (λ taken. taken.refused ≤ taken.instrs) }
    ensures done { IfOk result (λ taken. PieceDone (next_piece (map view_of script.now))
        machine.old machine.new (D.view chip.old) (D.view chip.new) taken.refused) }
    ensures goes { (files : FolderView) → Goes (piece_steps (geometry_of machine.old)
        (operations_by machine.old) (turn_in machine.old) (table_in machine.old)
        (D.view chip.old).banks number
        (next_piece (map view_of script.now))) (end_of result)
        (world files (S.view out.old) (D.view chip.old))
        (world files (S.view out.new) (D.view chip.new)) }
{
    let len = wave_len(script);
    if len == 0 {
        let refused = work_line(machine, number, &script[0], chip, out)?;
        return Ok(Taken { instrs: 1, refused });
    }
    let (wave, _) = script.split_at(len);
    let refused = work_wave(machine, number, wave, chip, out)?;
    Ok(Taken {
        instrs: len,
        refused,
    })
}

/// Does the instructions in order, a line each; answers how many were refused.
pub(crate) fn work<'a, D: Dram, S: Sink>(
    machine: &mut Machine<'_>,
    script: &[Instr],
    chip: &mut D,
    out: &mut S,
) -> Result<u64, Stop<'a>>
    requires begun { HasBegun (D.view chip.old) }
    requires geometry { (D.view chip.old).geometry ≡ geometry_of machine.old }
    requires plain { AllByRecursion IsPlain (map view_of script.now) }
    requires few { length script.now ≤ 2 ^ 25 }
    requires aap_none { (D.view chip.old).counters.aap ≡ 0 }
    requires ap_none { (D.view chip.old).counters.ap ≡ 0 }
    requires few_writes { (D.view chip.old).counters.writes ≤ 2 ^ 60 }
    requires reads_none { (D.view chip.old).counters.reads ≡ 0 }
    ensures goes_on { GoesOn machine.old machine.new }
    ensures borrow { D.borrow chip.new ≡ D.borrow chip.old }
    ensures kept { Kept (D.view chip.old) (D.view chip.new) }
    ensures table { IfOk result (λ refused. table_in machine.new ≡ table_at_end
        (geometry_of machine.old) (operations_by machine.old) (table_in machine.old)
        (map view_of script.now)) }
    ensures did { IfOk result (λ refused. DidAndRead (events_of_pieces (geometry_of machine.old)
        (operations_by machine.old) (turn_in machine.old) (table_in machine.old)
        (pieces (map view_of script.now))) (sum_done rows_printed (geometry_of machine.old)
        (operations_by machine.old) (table_in machine.old) (map view_of script.now))
        (D.view chip.old) (D.view chip.new)) }
    ensures few_reads { IfOk result (λ refused. (D.view chip.new).counters.reads < 2 ^ 62) }
    ensures refused { IfOk result (λ refused. refused
        ≡ count_by is_refused (replies (geometry_of machine.old) (operations_by machine.old)
        (table_in machine.old) (map view_of script.now))) }
    ensures goes { (files : FolderView) → Goes (pieces_steps (geometry_of machine.old)
        (operations_by machine.old) (turn_in machine.old) (table_in machine.old)
        (D.view chip.old).banks 1
        (pieces (map view_of script.now))) (end_of result)
        (world files (S.view out.old) (D.view chip.old))
        (world files (S.view out.new) (D.view chip.new)) }
{
    let mut done = 0;
    let mut refused = 0;
    'pieces: while done < script.len() {
        let (_, rest) = script.split_at(done);
        let number = done as u32 + 1;
        let taken = work_piece(machine, number, rest, chip, out)?;
        done += taken.instrs;
        refused += taken.refused;
    }
    Ok(refused)
}
