//! The body of the full adder, on the rows of a chip.

ghost use Rattle.std.specs.Prelude.{◌≡◌, ◌+◌, ◌<◌, ◌≤◌, ◌^◌, IfOk, OnOk};
ghost use Rattle.dram_model.specs.View.{HasBegun, Kept};
ghost use Rattle.row_alloc.specs.Body.{FitBody};

use crate::rows::play;
use dram_chip::{Addr, Chip, Command, Dram, Geometry};
use mig_graph::{Lit, Mig, NoMemory};
use row_alloc::{BodyCmd, BodyRef, OutRow, check_body, greedy_body, plain_body};
use std::alloc::Global;
use std::process::Abort;
use std::test::Fail;

/// One bank of 64 columns.
pub(crate) const SMALL: Geometry = Geometry {
    banks: 1,
    rows: 64,
    words: 1,
};

/// Inputs stand from D0 on, the first output in D8 and the second in D2, and spill rows from D32
/// on.
fn address(row: BodyRef) -> Addr {
    match row {
        BodyRef::B(k) => Addr::B(k),
        BodyRef::C(k) => Addr::C(k),
        BodyRef::In(k) => Addr::D(u16::from(k)),
        BodyRef::Out(0) => Addr::D(8),
        BodyRef::Out(_) => Addr::D(2),
        BodyRef::Spill(k) => Addr::D(32 + u16::from(k)),
    }
}

fn command_of(cmd: BodyCmd) -> Command {
    match cmd {
        BodyCmd::Aap(x, y) => Command::Aap(address(x), address(y)),
        BodyCmd::Ap(x) => Command::Ap(address(x)),
    }
}

/// The word of a row.
pub(crate) fn row_of<D: Dram>(chip: &mut D, row: u16) -> Result<u64, Fail>
    requires begun { HasBegun (D.view chip.old) }
    requires geometry { (D.view chip.old).geometry ≡ SMALL }
    requires row { row < 64 }
    requires room { (D.view chip.old).counters.reads < 2 ^ 32 }
    ensures kept { Kept (D.view chip.old) (D.view chip.new) }
    ensures reads { OnOk result ((D.view chip.new).counters.reads
        ≤ (D.view chip.old).counters.reads + 1) }
{
    let mut word = [0; 1];
    chip.read_row(0, row, &mut word)?;
    Ok(word[0])
}

/// The adder's outputs: its graph has three inputs and three nodes, and they name nodes of it.
fn adder_outputs(rt: &impl Abort, m: &Mig, sum: Lit, carry: Lit) -> [OutRow; 2]
    ensures { FitBody m.now result }
{
    assert!(rt; m.inputs() == 3 && m.size() == 7);
    assert!(rt; carry.node < m.size() && sum.node < m.size());
    [
        OutRow {
            lit: sum,
            same: None,
        },
        OutRow {
            lit: carry,
            same: Some(2),
        },
    ]
}

/// The full adder's graph, with the sum as its first output, and the carry in the row of the third
/// input.
fn full_adder(rt: &impl Abort, alloc: Global) -> Result<(Mig, [OutRow; 2]), NoMemory>
    ensures { IfOk result (λ adder. FitBody adder.0 adder.1) }
{
    let plain = |node: u32| Lit {
        node,
        inverted: false,
    };
    let mut m = Mig::new(3, alloc)?;
    let carry = m.maj(plain(1), plain(2), plain(3))?;
    let complemented = Lit {
        node: 3,
        inverted: true,
    };
    let part = m.maj(plain(1), plain(2), complemented)?;
    let opposite = Lit {
        node: carry.node,
        inverted: !carry.inverted,
    };
    let sum = m.maj(opposite, plain(3), part)?;
    let outs = adder_outputs(rt, &m, sum, carry);
    Ok((m, outs))
}

/// The commands on the rows of a chip.
fn commands_of(cmds: &[BodyCmd], alloc: Global) -> Result<Vec<Command>, Fail> {
    let mut commands = Vec::new(alloc);
    for cmd in cmds {
        commands.push(command_of(*cmd))?;
    }
    Ok(commands)
}

/// Whether the commands add sixty-four columns of bits, drawn by hand, and leave all other rows.
fn adds_on<D: Dram>(chip: &mut D, commands: &[Command]) -> Result<bool, Fail> {
    let (a, b, c) = (
        0x9E37_79B9_7F4A_7C15u64,
        0xBF58_476D_1CE4_E5B9u64,
        0x94D0_49BB_1331_11EBu64,
    );
    if commands.len() > 18 {
        return Err("more commands than the plain body has")?;
    }
    chip.begin(SMALL)?;
    chip.write_row(0, 0, &[a])?;
    chip.write_row(0, 1, &[b])?;
    chip.write_row(0, 2, &[c])?;
    chip.write_row(0, 9, &[u64::MAX])?;
    play(chip, SMALL, 0, commands)?;
    let sources = [row_of(chip, 0)?, row_of(chip, 1)?, row_of(chip, 9)?];
    let carry = row_of(chip, 2)?;
    let sum = row_of(chip, 8)?;
    let is_sum = carry == ((a & b) | (a & c) | (b & c)) && sum == (a ^ b ^ c);
    Ok(is_sum && sources == [a, b, u64::MAX])
}

fn adds(cmds: &[BodyCmd], alloc: Global) -> Result<bool, Fail> {
    let commands = commands_of(cmds, alloc)?;
    let mut chip = Chip::new(alloc);
    adds_on(&mut chip, &commands)
}

/// Whether the plain body and the greedy one add, the first with at most so many commands and the
/// second with as many.
fn bodies_add(
    m: &Mig,
    outs: &[OutRow; 2],
    most: usize,
    least: usize,
    alloc: Global,
) -> Result<bool, Fail>
    requires { FitBody m.now outs.now }
{
    let plain = plain_body(m, outs, alloc)?;
    let greedy = greedy_body(m, outs, alloc)?;
    let is_short = plain.len() <= most && greedy.len() == least;
    Ok(is_short && adds(&plain, alloc)? && adds(&greedy, alloc)?)
}

// The plain body has eighteen commands, and the one that keeps values in the bitwise cells nine.
#[test]
fn a_body_adds_in_a_chip(rt: HostRuntime) -> Result<(), Fail> {
    let (m, outs) = full_adder(&rt, rt.alloc())?;
    assert!(rt; bodies_add(&m, &outs, 18, 9, rt.alloc())?);
    Ok(())
}

// Nine commands add one bit, and eight of them do not.
#[test]
fn nine_commands_add(rt: HostRuntime) -> Result<(), Fail> {
    let (m, outs) = full_adder(&rt, rt.alloc())?;
    let cmds = [
        BodyCmd::Aap(BodyRef::In(0), BodyRef::B(10)),
        BodyCmd::Aap(BodyRef::In(1), BodyRef::B(1)),
        BodyCmd::Aap(BodyRef::In(2), BodyRef::B(8)),
        BodyCmd::Ap(BodyRef::B(14)),
        BodyCmd::Aap(BodyRef::In(1), BodyRef::B(6)),
        BodyCmd::Aap(BodyRef::B(15), BodyRef::B(5)),
        BodyCmd::Aap(BodyRef::In(2), BodyRef::B(2)),
        BodyCmd::Aap(BodyRef::B(14), BodyRef::Out(0)),
        BodyCmd::Aap(BodyRef::B(0), BodyRef::Out(1)),
    ];
    assert!(rt; check_body(&m, &outs, &cmds));
    let mut fewer = Vec::new(rt.alloc());
    for (k, cmd) in cmds.iter().enumerate() {
        if k != 6 {
            fewer.push(*cmd)?;
        }
    }
    assert!(rt; !check_body(&m, &outs, &fewer));
    Ok(())
}
