//! Commands that are sent to a chip.

ghost use Rattle.std.specs.Prelude.{◌≡◌, ◌+◌, ◌<◌, ◌≤◌, ◌^◌, length, OnOk};
ghost use Rattle.dram_model.specs.Column.{is_in_range, is_legal};
ghost use Rattle.dram_model.specs.View.{HasBegun, Kept};

use dram_chip::{Addr, Command, Dram, Geometry, legal_first, legal_second};
use std::test::Fail;

/// Whether a bank has the row.
fn is_there(g: Geometry, row: Addr) -> bool
    ensures { result ≡ is_in_range g.rows row }
{
    match row {
        Addr::B(k) => k < 16,
        Addr::C(k) => k < 2,
        Addr::D(k) => k < g.rows,
    }
}

/// Whether a bank can do the command.
fn can_do(g: Geometry, command: Command) -> bool
    ensures { result ≡ is_legal g.rows command }
{
    match command {
        Command::Ap(x) => is_there(g, x) && legal_first(x),
        Command::Aap(x, y) => {
            (is_there(g, x) && legal_first(x)) && (is_there(g, y) && legal_second(y))
        }
    }
}

/// Sends one command to a bank.
pub(crate) fn play_one<D: Dram>(
    chip: &mut D,
    g: Geometry,
    bank: u16,
    command: Command,
) -> Result<(), Fail>
    requires begun { HasBegun (D.view chip.old) }
    requires geometry { (D.view chip.old).geometry ≡ g }
    requires bank { bank < g.banks }
    requires aap_room { (D.view chip.old).counters.aap < 2 ^ 62 }
    requires ap_room { (D.view chip.old).counters.ap < 2 ^ 62 }
    ensures kept { Kept (D.view chip.old) (D.view chip.new) }
    ensures aap { OnOk result ((D.view chip.new).counters.aap
        ≤ (D.view chip.old).counters.aap + 1) }
    ensures ap { OnOk result ((D.view chip.new).counters.ap
        ≤ (D.view chip.old).counters.ap + 1) }
    ensures reads { OnOk result ((D.view chip.new).counters.reads
        ≡ (D.view chip.old).counters.reads) }
{
    if can_do(g, command) {
        match command {
            Command::Ap(x) => chip.ap(bank, x)?,
            Command::Aap(x, y) => chip.aap(bank, x, y)?,
        }
        return Ok(());
    }
    Err("an illegal command")?
}

/// Sends commands to a bank.
pub(crate) fn play<D: Dram>(
    chip: &mut D,
    g: Geometry,
    bank: u16,
    commands: &[Command],
) -> Result<(), Fail>
    requires begun { HasBegun (D.view chip.old) }
    requires geometry { (D.view chip.old).geometry ≡ g }
    requires bank { bank < g.banks }
    requires few { length commands.now < 2 ^ 32 }
    requires aap_room { (D.view chip.old).counters.aap < 2 ^ 32 }
    requires ap_room { (D.view chip.old).counters.ap < 2 ^ 32 }
    ensures kept { Kept (D.view chip.old) (D.view chip.new) }
    ensures reads { OnOk result ((D.view chip.new).counters.reads
        ≡ (D.view chip.old).counters.reads) }
{
    for command in commands {
        play_one(chip, g, bank, *command)?;
    }
    Ok(())
}
