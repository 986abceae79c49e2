//! One instruction.

ghost use Rattle.std.specs.Prelude.{◌≡◌, ℕ, ◌≤◌, true, length, IfOk, OnOk, OnErr};
ghost use Rattle.host_edge.specs.Views.{Known};
ghost use Rattle.faults.specs.Counts.{Rose};
ghost use Rattle.dram_model.specs.View.{HasBegun, Kept, Did};
ghost use Rattle.transpose_unit.specs.Stopped.{StoppedWithin};
ghost use Rattle.dram_model.specs.Elements.{FailedBelow};
ghost use Rattle.bbop_isa.specs.Forms.{view_of, Init, Print, Free};
ghost use Rattle.machine_model.specs.Agrees.{IsPlain};
ghost use Rattle.machine_model.specs.Pieces.{Alone, turn_of};
ghost use Rattle.uprog_ctl.specs.Orders.{turn_of as state_of};
ghost use Rattle.dram_model.specs.declared.geometry.Geometry.{Geometry};
ghost use Rattle.machine_model.specs.Routines.{Routines};
ghost use Rattle.machine_model.specs.Script.{is_bbop};
ghost use Rattle.machine_model.specs.Steps.{reply_to};
ghost use Rattle.object_steps.specs.Objects.{events_alone};
ghost use Rattle.sim_machine.specs.Machine.{banks_by, geometry_of, leaves_table};
ghost use Rattle.sim_machine.specs.Machine.{operations_by, reply_of, table_in};
ghost use Rattle.sim_machine.specs.Machine.{turn_by_piece, turn_in};
ghost use Rattle.sim_machine.specs.Outcome.{Went};
ghost use Rattle.sim_machine.specs.Steps.{HasRoom};

use crate::machine::Machine;
use crate::report::put_reply;
use bbop_isa::{Instr, Order as Orders, Place};
use dram_model::{ChipFault, Dram};
use host_edge::Sink;
use machine_model::{Reply, Why};
use object_alloc::Table;
use object_steps::{StepFault, fill, free, load, print, trsp_init};
use std::slice;
use text_lex::Name;
use uprog_code::Counts;
use uprog_ctl::{Forward, Order, Seeded, Turns};

/// A reply of no commands.
const DONE: Reply = Reply::Done(Counts { aap: 0, ap: 0 });

/// A new picker of the order that is given.
fn picker_of(order: Orders) -> Order
    ensures { state_of result ≡ turn_of order }
{
    match order {
        Orders::Forward => Order::First(Forward::new()),
        Orders::Turns => Order::Turns(Turns::new()),
        Orders::Seed(seed) => Order::Seeded(Seeded::new(seed)),
    }
}

/// What freeing an object comes to.
fn free_reply(table: &Table, name: &Name) -> Reply
    ensures { (g : Geometry) (operations : Routines) → result
        ≡ reply_to g operations table.now.pairs (Free name.now) }
{
    match table.look_up(name) {
        Some(_) => DONE,
        None => Reply::Refused(Why::NoObject(0)),
    }
}

impl<'a> Machine<'a> {
    /// A bbop is a wave of one.
    fn bbop_step<D: Dram, S: Sink>(
        &mut self,
        number: u32,
        instr: &Instr,
        dram: &mut D,
        out: &mut S,
    ) -> Result<Reply, StepFault>
        requires begun { HasBegun (D.view dram.old) }
        requires geometry { (D.view dram.old).geometry ≡ geometry_of self.old }
        requires bbop { is_bbop (view_of instr.now) ≡ true }
        requires plain { IsPlain (view_of instr.now) }
        requires room { HasRoom (D.view dram.old).counters }
        ensures borrow { D.borrow dram.new ≡ D.borrow dram.old }
        ensures went { Went self.old self.new number (view_of instr.now) (D.view dram.old)
            (D.view dram.new) (S.view out.old) (S.view out.new) result }
    {
        match self.wave(number, slice::from_ref(instr), dram, out) {
            Ok(replies) => Ok(replies.as_slice()[0]),
            Err(fault) => Err(fault),
        }
    }

    /// An object is made, and taken away again where its line cannot be put.
    fn init_step<D: Dram, S: Sink>(
        &mut self,
        number: u32,
        name: &Name,
        count: u32,
        n: u8,
        dram: &mut D,
        out: &mut S,
    ) -> Result<Reply, StepFault>
        requires begun { HasBegun (D.view dram.old) }
        requires geometry { (D.view dram.old).geometry ≡ geometry_of self.old }
        requires plain { IsPlain (Init name.now count n) }
        requires room { HasRoom (D.view dram.old).counters }
        ensures borrow { D.borrow dram.new ≡ D.borrow dram.old }
        ensures went { Went self.old self.new number (Init name.now count n) (D.view dram.old)
            (D.view dram.new) (S.view out.old) (S.view out.new) result }
    {
        let reply = match trsp_init(self.geometry, &mut self.table, name, count, n, dram) {
            Ok(reply) => reply,
            Err(_) => return Err(StepFault::ChipFault),
        };
        match put_reply(number, reply, out) {
            Ok(()) => Ok(reply),
            Err(_) => {
                if let Reply::Done(_) = reply {
                    self.table.remove(name);
                }
                Err(StepFault::WriteFault)
            }
        }
    }

    /// What a load, a fill or an order comes to. None of them changes the table.
    fn answer<D: Dram>(&mut self, instr: &Instr, dram: &mut D) -> Result<Reply, ChipFault>
        requires begun { HasBegun (D.view dram.old) }
        requires geometry { (D.view dram.old).geometry ≡ geometry_of self.old }
        requires leaves { leaves_table (view_of instr.now) ≡ true }
        requires room { HasRoom (D.view dram.old).counters }
        ensures borrow { D.borrow dram.new ≡ D.borrow dram.old }
        ensures kept { Kept (D.view dram.old) (D.view dram.new) }
        ensures same { self.new ≡ record self.old { turn = turn_in self.new } }
        ensures reply { IfOk result (λ reply. reply ≡ reply_of self.old (view_of instr.now)) }
        ensures turn { OnOk result (turn_in self.new
            ≡ turn_by_piece self.old (Alone (view_of instr.now))) }
        ensures did { OnOk result (Did (events_alone (geometry_of self.old)
            (operations_by self.old) (table_in self.old) (view_of instr.now)) (D.view dram.old)
            (D.view dram.new)) }
        ensures failed { OnErr result (FailedBelow (banks_by self.old (view_of instr.now))
            (D.view dram.old) (D.view dram.new)) }
        ensures left { OnErr result (StoppedWithin 0 (events_alone (geometry_of self.old)
            (operations_by self.old) (table_in self.old) (view_of instr.now))
            (D.view dram.old).banks (D.view dram.new).banks) }
        ensures same_turn { OnErr result (turn_in self.new ≡ turn_in self.old) }
    {
        let g = self.geometry;
        match instr {
            Instr::Load { place, values } => {
                load(
                    g,
                    &self.table,
                    place,
                    values.as_slice(),
                    &mut self.stage,
                    dram,
                )
            }
            Instr::Fill { place, value } => fill(g, &self.table, place, *value, dram),
            Instr::Order(order) => {
                self.order = picker_of(*order);
                Ok(DONE)
            }
            _ => unreachable!(),
        }
    }

    /// A load, a fill or an order.
    fn reply_step<D: Dram, S: Sink>(
        &mut self,
        number: u32,
        instr: &Instr,
        dram: &mut D,
        out: &mut S,
    ) -> Result<Reply, StepFault>
        requires begun { HasBegun (D.view dram.old) }
        requires geometry { (D.view dram.old).geometry ≡ geometry_of self.old }
        requires leaves { leaves_table (view_of instr.now) ≡ true }
        requires room { HasRoom (D.view dram.old).counters }
        ensures borrow { D.borrow dram.new ≡ D.borrow dram.old }
        ensures went { Went self.old self.new number (view_of instr.now) (D.view dram.old)
            (D.view dram.new) (S.view out.old) (S.view out.new) result }
    {
        let reply = match self.answer(instr, dram) {
            Ok(reply) => reply,
            Err(_) => return Err(StepFault::ChipFault),
        };
        match put_reply(number, reply, out) {
            Ok(()) => Ok(reply),
            Err(_) => Err(StepFault::WriteFault),
        }
    }

    /// An operand's values are shown as its own.
    fn print_step<D: Dram, S: Sink>(
        &mut self,
        number: u32,
        place: &Place,
        dram: &mut D,
        out: &mut S,
    ) -> Result<Reply, StepFault>
        requires begun { HasBegun (D.view dram.old) }
        requires geometry { (D.view dram.old).geometry ≡ geometry_of self.old }
        requires room { HasRoom (D.view dram.old).counters }
        ensures borrow { D.borrow dram.new ≡ D.borrow dram.old }
        ensures went { Went self.old self.new number (Print place.now) (D.view dram.old)
            (D.view dram.new) (S.view out.old) (S.view out.new) result }
    {
        let g = self.geometry;
        let reply = match print(
            g,
            &self.table,
            number,
            place,
            place,
            &mut self.stage,
            dram,
            out,
        ) {
            Ok(reply) => reply,
            Err(fault) => return Err(fault),
        };
        match reply {
            Reply::Done(_) => {}
            Reply::Refused(_) => match put_reply(number, reply, out) {
                Ok(()) => return Ok(reply),
                Err(_) => return Err(StepFault::WriteFault),
            },
        }
        Ok(reply)
    }

    /// An object leaves the table once the line is put.
    fn free_step<D: Dram, S: Sink>(
        &mut self,
        number: u32,
        name: &Name,
        dram: &mut D,
        out: &mut S,
    ) -> Result<Reply, StepFault>
        requires begun { HasBegun (D.view dram.old) }
        requires geometry { (D.view dram.old).geometry ≡ geometry_of self.old }
        requires room { HasRoom (D.view dram.old).counters }
        ensures borrow { D.borrow dram.new ≡ D.borrow dram.old }
        ensures went { Went self.old self.new number (Free name.now) (D.view dram.old)
            (D.view dram.new) (S.view out.old) (S.view out.new) result }
    {
        let reply = free_reply(&self.table, name);
        match put_reply(number, reply, out) {
            Ok(()) => {
                free(&mut self.table, name);
                Ok(reply)
            }
            Err(_) => Err(StepFault::WriteFault),
        }
    }

    /// One instruction.
    pub(crate) fn step_of<D: Dram, S: Sink>(
        &mut self,
        number: u32,
        instr: &Instr,
        dram: &mut D,
        out: &mut S,
    ) -> Result<Reply, StepFault>
        requires begun { HasBegun (D.view dram.old) }
        requires geometry { (D.view dram.old).geometry ≡ geometry_of self.old }
        requires plain { IsPlain (view_of instr.now) }
        requires room { HasRoom (D.view dram.old).counters }
        ensures borrow { D.borrow dram.new ≡ D.borrow dram.old }
        ensures went { Went self.old self.new number (view_of instr.now) (D.view dram.old)
            (D.view dram.new) (S.view out.old) (S.view out.new) result }
    {
        match instr {
            Instr::Bbop { .. } => self.bbop_step(number, instr, dram, out),
            Instr::Init { name, count, n } => self.init_step(number, name, *count, *n, dram, out),
            Instr::Print { place } => self.print_step(number, place, dram, out),
            Instr::Free { name } => self.free_step(number, name, dram, out),
            Instr::Load { .. } | Instr::Fill { .. } | Instr::Order(_) => {
                self.reply_step(number, instr, dram, out)
            }
        }
    }
}
