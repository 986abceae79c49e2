//! A machine whose objects stand in three copies.

ghost use Rattle.std.specs.Prelude.{◌≡◌, ℕ, ◌+◌, ◌*◌, ◌<◌, ◌≤◌, ◌^◌, ◌∷◌, ◌++◌, [], true, false};
ghost use Rattle.std.specs.Prelude.{None, IfOk, OnOk, OnErr, IsErrOf};
ghost use Rattle.host_edge.specs.Views.{Known, AppendsPart};
ghost use Rattle.faults.specs.Counts.{Rose};
ghost use Rattle.text_lex.specs.Spelled.{fits_name};
ghost use Rattle.dram_model.specs.Chip.{Grew};
ghost use Rattle.transpose_unit.specs.Stopped.{StoppedWithin};
ghost use Rattle.dram_model.specs.View.{HasBegun, Kept, Did, DidRead, StoppedIn};
ghost use Rattle.object_alloc.specs.Spelling.{image_bytes};
ghost use Rattle.bbop_isa.specs.Forms.{view_of, Print};
ghost use Rattle.machine_model.specs.Agrees.{IsPlain};
ghost use Rattle.machine_model.specs.Opened.{rows_in_banks};
ghost use Rattle.machine_model.specs.Pieces.{piece_of};
ghost use Rattle.machine_model.specs.Script.{counted_in, plus as sum};
ghost use Rattle.object_steps.specs.Lines.{DidReadAtMost};
ghost use Rattle.object_steps.specs.Objects.{RisesAtMost};
ghost use Rattle.sim_machine.specs.Machine.{GoesOn, IsLaidOut, file_of, geometry_of, is_print};
ghost use Rattle.sim_machine.specs.Machine.{events_by as plain_events, table_in, turn_in};
ghost use Rattle.sim_machine.specs.Steps.{DidAndRead, HasRoom};
ghost use Rattle.guard_model.specs.Guarded.{on_copies, on_copy, plain_ones, removal};
ghost use Rattle.guard_model.specs.Named.{has_long_name};
ghost use Rattle.guard_model.specs.Triples.{first_stranger};
ghost use Rattle.guard_model.specs.Votes.{vote_count, vote_events};
ghost use Rattle.tmr_guard.specs.Steps.{Came, DidOne, HasMoreRoom, RanBy, RepliedBy};
ghost use Rattle.tmr_guard.specs.Steps.{banks_read_by, events_by, line_by};
ghost use Rattle.tmr_guard.specs.Steps.{machine_in, reads_by, reply_by, script_by, table_by};
ghost use Rattle.tmr_guard.specs.Steps.{turn_by};

use crate::copies::{adds_name, copied, copy_name, copy_place};
use crate::dropped::Dropped;
use crate::votes::vote_all;
use bbop_isa::{Instr, Place};
use dram_model::{ChipFault, Dram};
use guard_model::tables_stay_guarded;
use host_edge::Sink;
use machine_model::{Reply, accepted_programs_are_safe};
use sim_machine::{Machine, StepFault, put_reply};
use text_lex::Name;
use uprog_code::{Counts, WALK_MAX};

/// A reply of no commands.
const DONE: Reply = Reply::Done(Counts { aap: 0, ap: 0 });

/// The commands of two replies.
fn plus(a: Counts, b: Counts) -> Counts
    requires aap { a.aap + b.aap < 2 ^ 64 }
    requires ap { a.ap + b.ap < 2 ^ 64 }
    ensures { result ≡ sum a b }
{
    Counts {
        aap: a.aap + b.aap,
        ap: a.ap + b.ap,
    }
}

/// Does a plain instruction, and drops its line.
fn done<D: Dram>(m: &mut Machine<'_>, instr: &Instr, dram: &mut D) -> Result<Reply, ChipFault>
    requires begun { HasBegun (D.view dram.old) }
    requires geometry { (D.view dram.old).geometry ≡ geometry_of m.old }
    requires plain { IsPlain (view_of instr.now) }
    requires room { HasRoom (D.view dram.old).counters }
    ensures borrow { D.borrow dram.new ≡ D.borrow dram.old }
    ensures kept { Kept (D.view dram.old) (D.view dram.new) }
    ensures goes_on { GoesOn m.old m.new }
    ensures laid { IsLaidOut m.old }
    ensures did { IfOk result (λ reply. DidOne m.old m.new (view_of instr.now) reply
        (D.view dram.old) (D.view dram.new)) }
    ensures rises { OnOk result (RisesAtMost (16 * WALK_MAX) (D.view dram.old).counters
        (D.view dram.new).counters) }
    ensures failed { OnErr result (Rose (D.view dram.old).faults (D.view dram.new).faults) }
    ensures left { OnErr result (is_print (view_of instr.now) ≡ false
        → StoppedWithin 0 (plain_events m.old (piece_of (view_of instr.now)))
        (D.view dram.old).banks (D.view dram.new).banks) }
{
    match m.step(0, instr, dram, &mut Dropped) {
        Ok(reply) => Ok(reply),
        Err(StepFault::ChipFault) => Err(ChipFault),
        Err(StepFault::WriteFault) => unreachable!(),
    }
}

/// A machine whose objects stand in three copies, under the letters x, y and z before a name.
#[derive(Drop)]
pub struct Guard<'a> {
    pub(crate) machine: Machine<'a>,
}

impl<'a> Guard<'a> {
    /// Keeps the machine as it is.
    pub fn new(m: Machine<'a>) -> Guard<'a>
        requires triples { first_stranger (table_in m) ≡ None }
        ensures { machine_in result ≡ m.entry }
    {
        Guard { machine: m }
    }

    /// The machine that does the plain instructions.
    pub fn machine(&self) -> &Machine<'a>
        ensures { result.now ≡ machine_in self.now }
    {
        &self.machine
    }

    /// The plain instruction on the copies under a letter.
    fn plain<D: Dram>(
        &mut self,
        letter: u8,
        instr: &Instr,
        dram: &mut D,
    ) -> Result<Reply, ChipFault>
        requires begun { HasBegun (D.view dram.old) }
        requires geometry { (D.view dram.old).geometry ≡ geometry_of (machine_in self.old) }
        requires plain { IsPlain (view_of instr.now) }
        requires letter { fits_name (letter ∷ []) ≡ true }
        requires short { has_long_name (view_of instr.now) ≡ false }
        requires room { HasRoom (D.view dram.old).counters }
        ensures borrow { D.borrow dram.new ≡ D.borrow dram.old }
        ensures kept { Kept (D.view dram.old) (D.view dram.new) }
        ensures goes_on { GoesOn (machine_in self.old) (machine_in self.new) }
        ensures did { IfOk result (λ reply. DidOne (machine_in self.old) (machine_in self.new)
            (on_copy letter (view_of instr.now)) reply (D.view dram.old) (D.view dram.new)) }
        ensures few { IfOk result (λ reply. (counted_in reply).aap + (counted_in reply).ap
            ≤ 16 * WALK_MAX) }
        ensures rises { OnOk result (RisesAtMost (16 * WALK_MAX) (D.view dram.old).counters
            (D.view dram.new).counters) }
        ensures failed { OnErr result (Rose (D.view dram.old).faults (D.view dram.new).faults) }
        ensures left { OnErr result (is_print (on_copy letter (view_of instr.now)) ≡ false
            → StoppedWithin 0 (plain_events (machine_in self.old)
            (piece_of (on_copy letter (view_of instr.now)))) (D.view dram.old).banks
            (D.view dram.new).banks) }
    {
        accepted_programs_are_safe();
        match instr {
            Instr::Load { place, values } => {
                let copy = copy_place(letter, place);
                match self.machine.load_into(&copy, values.as_slice(), dram) {
                    Ok(reply) => Ok(reply),
                    Err(fault) => Err(fault),
                }
            }
            _ => match done(&mut self.machine, &copied(letter, instr), dram) {
                Ok(reply) => Ok(reply),
                Err(fault) => Err(fault),
            },
        }
    }

    /// Takes the copy under a letter away again, where the instruction has added it.
    fn take_back<D: Dram>(
        &mut self,
        letter: u8,
        instr: &Instr,
        dram: &mut D,
    ) -> Result<(), ChipFault>
        requires begun { HasBegun (D.view dram.old) }
        requires geometry { (D.view dram.old).geometry ≡ geometry_of (machine_in self.old) }
        requires letter { fits_name (letter ∷ []) ≡ true }
        requires short { has_long_name (view_of instr.now) ≡ false }
        requires room { HasRoom (D.view dram.old).counters }
        ensures borrow { D.borrow dram.new ≡ D.borrow dram.old }
        ensures kept { Kept (D.view dram.old) (D.view dram.new) }
        ensures goes_on { GoesOn (machine_in self.old) (machine_in self.new) }
        ensures ran { OnOk result (RanBy (machine_in self.old) (machine_in self.new)
            (removal (on_copy letter (view_of instr.now))) (D.view dram.old) (D.view dram.new)) }
        ensures rises { OnOk result (RisesAtMost (16 * WALK_MAX) (D.view dram.old).counters
            (D.view dram.new).counters) }
        ensures failed { OnErr result (Rose (D.view dram.old).faults (D.view dram.new).faults) }
        ensures left { OnErr result (StoppedWithin 0 [] (D.view dram.old).banks
            (D.view dram.new).banks) }
    {
        match instr {
            Instr::Init { name, .. } => {
                let free = Instr::Free {
                    name: copy_name(letter, name),
                };
                match done(&mut self.machine, &free, dram) {
                    Ok(_) => Ok(()),
                    Err(fault) => Err(fault),
                }
            }
            _ => Ok(()),
        }
    }

    /// The plain instructions on the three copies in turn, up to the first that is refused.
    fn on_three<D: Dram>(&mut self, instr: &Instr, dram: &mut D) -> Result<Reply, ChipFault>
        requires begun { HasBegun (D.view dram.old) }
        requires geometry { (D.view dram.old).geometry ≡ geometry_of (machine_in self.old) }
        requires plain { IsPlain (view_of instr.now) }
        requires short { has_long_name (view_of instr.now) ≡ false }
        requires three { plain_ones (view_of instr.now) ≡ on_copies (view_of instr.now) }
        requires room { HasMoreRoom (D.view dram.old).counters }
        ensures borrow { D.borrow dram.new ≡ D.borrow dram.old }
        ensures kept { Kept (D.view dram.old) (D.view dram.new) }
        ensures goes_on { GoesOn (machine_in self.old) (machine_in self.new) }
        ensures replied { IfOk result (λ reply. RepliedBy (machine_in self.old)
            (machine_in self.new) (view_of instr.now) reply (D.view dram.old) (D.view dram.new)) }
        ensures rises { OnOk result (RisesAtMost (80 * WALK_MAX) (D.view dram.old).counters
            (D.view dram.new).counters) }
        ensures failed { OnErr result (Rose (D.view dram.old).faults (D.view dram.new).faults) }
        ensures left { OnErr result (StoppedWithin 0 (events_by (machine_in self.old)
            (view_of instr.now)) (D.view dram.old).banks (D.view dram.new).banks) }
    {
        let x = match self.plain(b'x', instr, dram)? {
            Reply::Done(counts) => counts,
            Reply::Refused(why) => return Ok(Reply::Refused(why)),
        };
        let y = match self.plain(b'y', instr, dram)? {
            Reply::Done(counts) => counts,
            Reply::Refused(why) => {
                self.take_back(b'x', instr, dram)?;
                return Ok(Reply::Refused(why));
            }
        };
        let z = match self.plain(b'z', instr, dram)? {
            Reply::Done(counts) => counts,
            Reply::Refused(why) => {
                self.take_back(b'x', instr, dram)?;
                self.take_back(b'y', instr, dram)?;
                return Ok(Reply::Refused(why));
            }
        };
        Ok(Reply::Done(plus(plus(x, y), z)))
    }

    /// What a guarded instruction but a print comes to.
    fn reply_to<D: Dram>(&mut self, instr: &Instr, dram: &mut D) -> Result<Reply, ChipFault>
        requires begun { HasBegun (D.view dram.old) }
        requires geometry { (D.view dram.old).geometry ≡ geometry_of (machine_in self.old) }
        requires plain { IsPlain (view_of instr.now) }
        requires short { has_long_name (view_of instr.now) ≡ false }
        requires silent { is_print (view_of instr.now) ≡ false }
        requires room { HasMoreRoom (D.view dram.old).counters }
        ensures borrow { D.borrow dram.new ≡ D.borrow dram.old }
        ensures kept { Kept (D.view dram.old) (D.view dram.new) }
        ensures goes_on { GoesOn (machine_in self.old) (machine_in self.new) }
        ensures replied { IfOk result (λ reply. RepliedBy (machine_in self.old)
            (machine_in self.new) (view_of instr.now) reply (D.view dram.old) (D.view dram.new)) }
        ensures rises { OnOk result (RisesAtMost (80 * WALK_MAX) (D.view dram.old).counters
            (D.view dram.new).counters) }
        ensures failed { OnErr result (Rose (D.view dram.old).faults (D.view dram.new).faults) }
        ensures left { OnErr result (StoppedWithin 0 (events_by (machine_in self.old)
            (view_of instr.now)) (D.view dram.old).banks (D.view dram.new).banks) }
    {
        match instr {
            Instr::Order(_) => match self.plain(b'x', instr, dram) {
                Ok(reply) => Ok(reply),
                Err(fault) => Err(fault),
            },
            _ => match self.on_three(instr, dram) {
                Ok(reply) => Ok(reply),
                Err(fault) => Err(fault),
            },
        }
    }

    /// A guarded instruction but a print, and its line.
    fn reply_step<D: Dram, S: Sink>(
        &mut self,
        number: u32,
        instr: &Instr,
        dram: &mut D,
        out: &mut S,
    ) -> Result<Reply, StepFault>
        requires begun { HasBegun (D.view dram.old) }
        requires geometry { (D.view dram.old).geometry ≡ geometry_of (machine_in self.old) }
        requires plain { IsPlain (view_of instr.now) }
        requires short { has_long_name (view_of instr.now) ≡ false }
        requires silent { is_print (view_of instr.now) ≡ false }
        requires room { HasMoreRoom (D.view dram.old).counters }
        ensures borrow { D.borrow dram.new ≡ D.borrow dram.old }
        ensures kept { Kept (D.view dram.old) (D.view dram.new) }
        ensures sink_faults { (S.view out.old).faults ≤ (S.view out.new).faults }
        ensures goes_on { GoesOn (machine_in self.old) (machine_in self.new) }
        ensures came { Came (machine_in self.old) (machine_in self.new) number (view_of instr.now)
            (D.view dram.old) (D.view dram.new) (S.view out.old) (S.view out.new) result }
    {
        let reply = match self.reply_to(instr, dram) {
            Ok(reply) => reply,
            Err(_) => return Err(StepFault::ChipFault),
        };
        match put_reply(number, reply, out) {
            Ok(()) => Ok(reply),
            Err(_) => Err(StepFault::WriteFault),
        }
    }

    /// The x copy's values are shown as the guarded operand's.
    fn print_step<D: Dram, S: Sink>(
        &mut self,
        number: u32,
        place: &Place,
        dram: &mut D,
        out: &mut S,
    ) -> Result<Reply, StepFault>
        requires begun { HasBegun (D.view dram.old) }
        requires geometry { (D.view dram.old).geometry ≡ geometry_of (machine_in self.old) }
        requires short { has_long_name (Print place.now) ≡ false }
        requires room { HasMoreRoom (D.view dram.old).counters }
        ensures borrow { D.borrow dram.new ≡ D.borrow dram.old }
        ensures kept { Kept (D.view dram.old) (D.view dram.new) }
        ensures sink_faults { (S.view out.old).faults ≤ (S.view out.new).faults }
        ensures goes_on { GoesOn (machine_in self.old) (machine_in self.new) }
        ensures came { Came (machine_in self.old) (machine_in self.new) number (Print place.now)
            (D.view dram.old) (D.view dram.new) (S.view out.old) (S.view out.new) result }
    {
        let copy = copy_place(b'x', place);
        let reply = match self.machine.print_as(number, &copy, place, dram, out) {
            Ok(reply) => reply,
            Err(fault) => return Err(fault),
        };
        match reply {
            Reply::Done(_) => {}
            Reply::Refused(_) => match put_reply(number, reply, out) {
                Ok(()) => return Ok(reply),
                Err(_) => return Err(StepFault::WriteFault),
            },
        }
        Ok(reply)
    }

    /// One guarded instruction.
    fn step_of<D: Dram, S: Sink>(
        &mut self,
        number: u32,
        instr: &Instr,
        dram: &mut D,
        out: &mut S,
    ) -> Result<Reply, StepFault>
        requires begun { HasBegun (D.view dram.old) }
        requires geometry { (D.view dram.old).geometry ≡ geometry_of (machine_in self.old) }
        requires plain { IsPlain (view_of instr.now) }
        requires short { has_long_name (view_of instr.now) ≡ false }
        requires room { HasMoreRoom (D.view dram.old).counters }
        ensures borrow { D.borrow dram.new ≡ D.borrow dram.old }
        ensures kept { Kept (D.view dram.old) (D.view dram.new) }
        ensures sink_faults { (S.view out.old).faults ≤ (S.view out.new).faults }
        ensures goes_on { GoesOn (machine_in self.old) (machine_in self.new) }
        ensures came { Came (machine_in self.old) (machine_in self.new) number (view_of instr.now)
            (D.view dram.old) (D.view dram.new) (S.view out.old) (S.view out.new) result }
    {
        match instr {
            Instr::Print { place } => self.print_step(number, place, dram, out),
            _ => self.reply_step(number, instr, dram, out),
        }
    }

    /// Does one guarded instruction: the plain one on the x, y and z copies in turn, and puts one
    /// line. A `print` is of the x copy alone, and an `order` is done once. Where a plain
    /// instruction is refused, that is the reply, and the copies that this instruction added are
    /// taken away again. It takes no memory.
    pub fn step<D: Dram, S: Sink>(
        &mut self,
        number: u32,
        instr: &Instr,
        dram: &mut D,
        out: &mut S,
    ) -> Result<Reply, StepFault>
        requires begun { HasBegun (D.view dram.old) }
        requires geometry { (D.view dram.old).geometry ≡ geometry_of (machine_in self.old) }
        requires triples { first_stranger (table_in (machine_in self.old)) ≡ None }
        requires plain { IsPlain (view_of instr.now) }
        requires short { has_long_name (view_of instr.now) ≡ false }
        requires room { HasMoreRoom (D.view dram.old).counters }
        ensures borrow { D.borrow dram.new ≡ D.borrow dram.old }
        ensures kept { Kept (D.view dram.old) (D.view dram.new) }
        ensures sink_faults { (S.view out.old).faults ≤ (S.view out.new).faults }
        ensures unfailed { OnOk result ((S.view out.new).faults ≡ (S.view out.old).faults) }
        ensures goes_on { GoesOn (machine_in self.old) (machine_in self.new) }
        ensures reply { IfOk result (λ reply. reply
            ≡ reply_by (machine_in self.old) (view_of instr.now)) }
        ensures table { OnOk result (table_in (machine_in self.new)
            ≡ table_by (machine_in self.old) (view_of instr.now)) }
        ensures triples { OnOk result (first_stranger (table_in (machine_in self.new)) ≡ None) }
        ensures turn { OnOk result (turn_in (machine_in self.new)
            ≡ turn_by (machine_in self.old) (view_of instr.now)) }
        ensures did { OnOk result (DidAndRead (events_by (machine_in self.old)
            (view_of instr.now)) (reads_by (machine_in self.old) (view_of instr.now))
            (D.view dram.old) (D.view dram.new)) }
        ensures rises { OnOk result (RisesAtMost (80 * WALK_MAX) (D.view dram.old).counters
            (D.view dram.new).counters) }
        ensures sent { OnOk result (Known (λ before after. after ≡ before
            ++ line_by (machine_in self.old) number (D.view dram.old).banks (view_of instr.now))
            (S.view out.old).sent (S.view out.new).sent) }

        // After a fault nothing is said of the table. Where the chip fails, every bank but the
        // failed call's stands where the events before it leave it, and of no line but a print's a
        // part is put. Where the sink fails, all was done, but of a print perhaps not each row was
        // read.
        ensures chip_fault { IsErrOf result StepFault.ChipFault
            → Rose (D.view dram.old).faults (D.view dram.new).faults }
        ensures left { IsErrOf result StepFault.ChipFault
            → StoppedWithin (banks_read_by (machine_in self.old) (view_of instr.now))
            (events_by (machine_in self.old) (view_of instr.now)) (D.view dram.old).banks
            (D.view dram.new).banks }
        ensures unsent { IsErrOf result StepFault.ChipFault
            → is_print (view_of instr.now) ≡ false → S.view out.new ≡ S.view out.old }
        ensures write_fault { IsErrOf result StepFault.WriteFault
            → Rose (S.view out.old).faults (S.view out.new).faults }
        ensures done { IsErrOf result StepFault.WriteFault
            → is_print (view_of instr.now) ≡ false → DidAndRead (events_by (machine_in self.old)
            (view_of instr.now)) (reads_by (machine_in self.old) (view_of instr.now))
            (D.view dram.old) (D.view dram.new) }
        ensures read { IsErrOf result StepFault.WriteFault
            → is_print (view_of instr.now) ≡ true → DidReadAtMost (reads_by
            (machine_in self.old) (view_of instr.now)) (D.view dram.old) (D.view dram.new) }
        ensures part { OnErr result (Known (AppendsPart
            (line_by (machine_in self.old) number (D.view dram.old).banks (view_of instr.now)))
            (S.view out.old).sent (S.view out.new).sent) }
    {
        tables_stay_guarded();
        adds_name(instr);
        self.step_of(number, instr, dram, out)
    }

    /// Every triple takes its majority, in the order of the table. The answer is how many AAP that
    /// took. It takes no memory.
    pub fn vote<D: Dram>(&mut self, dram: &mut D) -> Result<u64, ChipFault>
        requires begun { HasBegun (D.view dram.old) }
        requires geometry { (D.view dram.old).geometry ≡ geometry_of (machine_in self.old) }
        requires triples { first_stranger (table_in (machine_in self.old)) ≡ None }
        requires room { (D.view dram.old).counters.aap < 2 ^ 62 }
        ensures borrow { D.borrow dram.new ≡ D.borrow dram.old }
        ensures kept { Kept (D.view dram.old) (D.view dram.new) }
        ensures same { machine_in self.new ≡ machine_in self.old }
        ensures laid { IsLaidOut (machine_in self.old) }
        ensures count { IfOk result (λ aap. aap ≡ vote_count (geometry_of (machine_in self.old))
            (table_in (machine_in self.old))) }
        ensures few { IfOk result (λ aap. aap ≤ 2 ^ 30) }
        ensures did { OnOk result (Did (vote_events (geometry_of (machine_in self.old))
            (table_in (machine_in self.old))) (D.view dram.old) (D.view dram.new)) }
        ensures failed { OnErr result (Rose (D.view dram.old).faults (D.view dram.new).faults) }
        // Where a call fails, the log has the commands before it, and all banks but its own are as
        // these leave them: there all rows that are no copies stand as before.
        ensures stopped { OnErr result (StoppedIn (vote_events (geometry_of
            (machine_in self.old)) (table_in (machine_in self.old))) (D.view dram.old)
            (D.view dram.new)) }
    {
        vote_all(dram.geometry(), self.machine.table(), dram)
    }

    /// Reads every row of the chip, and spells the image file of the machine. It takes no memory.
    pub fn image<D: Dram>(&mut self, dram: &mut D) -> Result<(), ChipFault>
        requires begun { HasBegun (D.view dram.old) }
        requires geometry { (D.view dram.old).geometry ≡ geometry_of (machine_in self.old) }
        requires room { (D.view dram.old).counters.reads < 2 ^ 62 }
        ensures borrow { D.borrow dram.new ≡ D.borrow dram.old }
        ensures kept { Kept (D.view dram.old) (D.view dram.new) }
        ensures did { OnOk result (DidRead ((geometry_of (machine_in self.old)).banks
            * (geometry_of (machine_in self.old)).rows) (D.view dram.old) (D.view dram.new)) }
        ensures file { OnOk result (file_of (machine_in self.new)
            ≡ image_bytes (geometry_of (machine_in self.old)) (table_in (machine_in self.old))
            (rows_in_banks (D.view dram.old).banks)) }
        ensures same { machine_in self.new
            ≡ record (machine_in self.old) { file = file_of (machine_in self.new) } }
        ensures failed { OnErr result (Rose (D.view dram.old).faults (D.view dram.new).faults) }
        ensures left { OnErr result (StoppedWithin (geometry_of (machine_in self.old)).banks []
            (D.view dram.old).banks (D.view dram.new).banks) }
        ensures no_event { Grew (D.view dram.old).log (D.view dram.new).log [] }
    {
        self.machine.image(dram)
    }
}
