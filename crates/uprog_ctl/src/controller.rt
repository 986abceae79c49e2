//! Runs a microprogram on one bank.

ghost use Rattle.std.specs.Prelude.{◌≡◌, ℕ, List, ◌+◌, ◌<◌, ◌≤◌, ◌^◌, true, OnOk, OnErr, ◌∷◌, []};
ghost use Rattle.dram_model.specs.Column.{is_legal};
ghost use Rattle.dram_model.specs.Chip.{Event, all_counted, Grew};
ghost use Rattle.dram_model.specs.View.{HasBegun, Kept, Did, FailedIn};
ghost use Rattle.uprog_code.specs.Shape.{Shape, shape_of};
ghost use Rattle.uprog_code.specs.Machine.{HasEnded, Issue, trace};
ghost use Rattle.uprog_code.specs.Legal.{IsLegalCode};
ghost use Rattle.uprog_code.specs.OneStep.{issues_by};
ghost use Rattle.uprog_code.specs.Bound.{bound_of};
ghost use Rattle.uprog_code.specs.Fits.{Fits};
ghost use Rattle.uprog_code.specs.Issued.{AreGood};
ghost use Rattle.dram_model.specs.declared.dram.Counters.{Counters};
ghost use Rattle.uprog_code.specs.declared.binding.Binding.{Binding};
ghost use Rattle.uprog_code.specs.Count.{counts_of};
ghost use Rattle.uprog_ctl.specs.Events.{issue_events, trace_events, risen};

use bit_rows::WIDTH_MAX;
use dram_model::{ChipFault, Command, Dram};
use uprog_code::{Binding, Fetch, WALK_MAX, Walk, next_command};

/// A trace's events raise the counters by its counts.
pub fn counters_rise_by_counts()
    ensures { (bank rows : ℕ) (shape : Shape) (b : Binding) (issues : List Issue) (c : Counters)
        → all_counted (issue_events bank rows shape b issues) c ≡ risen (counts_of issues) c }
{}

/// One command on one bank.
#[inline(always)]
pub(crate) fn do_command<D: Dram>(
    dram: &mut D,
    bank: u16,
    command: Command,
) -> Result<(), ChipFault>
    requires begun { HasBegun (D.view dram.old) }
    requires bank { bank < (D.view dram.old).geometry.banks }
    requires legal { is_legal (D.view dram.old).geometry.rows command ≡ true }
    requires aap_room { (D.view dram.old).counters.aap < 2 ^ 63 }
    requires ap_room { (D.view dram.old).counters.ap < 2 ^ 63 }
    ensures borrow { D.borrow dram.new ≡ D.borrow dram.old }
    ensures kept { Kept (D.view dram.old) (D.view dram.new) }
    ensures did { OnOk result (Did (Event.Row bank command ∷ [])
        (D.view dram.old) (D.view dram.new)) }
    ensures failed { OnErr result (FailedIn bank (D.view dram.old) (D.view dram.new)) }
    ensures no_event { OnErr result (Grew (D.view dram.old).log (D.view dram.new).log []) }
{
    match command {
        Command::Ap(x) => dram.ap(bank, x),
        Command::Aap(x, y) => dram.aap(bank, x, y),
    }
}

/// Runs a microprogram on one bank to its end. A call that fails ends it: the commands before it
/// are done.
pub fn run<D: Dram, F: Fetch>(
    dram: &mut D,
    bank: u16,
    entry: &F,
    binding: &Binding,
) -> Result<(), ChipFault>
    requires begun { HasBegun (D.view dram.old) }
    requires bank { bank < (D.view dram.old).geometry.banks }
    requires legal { IsLegalCode (F.shape entry.now) (F.code entry.now) }
    requires some { 0 < binding.now.n }
    requires narrow { binding.now.n ≤ WIDTH_MAX }
    requires fits { Fits (D.view dram.old).geometry.rows (F.shape entry.now) binding.now.n
        (bound_of binding.now) }
    requires ends { HasEnded (trace (F.shape entry.now) (F.code entry.now) binding.now.n) }
    requires aap_room { (D.view dram.old).counters.aap < 2 ^ 62 + 2 ^ 61 }
    requires ap_room { (D.view dram.old).counters.ap < 2 ^ 62 + 2 ^ 61 }
    ensures borrow { D.borrow dram.new ≡ D.borrow dram.old }
    ensures kept { Kept (D.view dram.old) (D.view dram.new) }
    ensures did { OnOk result (Did (trace_events bank (D.view dram.old).geometry.rows
        (F.shape entry.now) (F.code entry.now) binding.now)
        (D.view dram.old) (D.view dram.new)) }
    ensures failed { OnErr result (FailedIn bank (D.view dram.old) (D.view dram.new)) }
{
    let head = entry.head();
    let rows = dram.geometry().rows;
    let mut walk = Walk::start();
    for k in 0..WALK_MAX {
        match next_command(entry, &head, rows, binding, &mut walk) {
            Some(command) => do_command(dram, bank, command)?,
            None => return Ok(()),
        }
    }
    Ok(())
}
