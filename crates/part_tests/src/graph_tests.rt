//! Bodies of graphs that are drawn at random, on the rows of a chip.

ghost use Rattle.std.specs.Prelude.{◌≡◌, ◌<◌, ◌≤◌, OnOk};
ghost use Rattle.dram_model.specs.View.{HasBegun};
ghost use Rattle.row_alloc.specs.Body.{FitBody};

use crate::body_tests::{SMALL, row_of};
use crate::kernel_tests::word;
use crate::rows::play;
use dram_chip::{Addr, Chip, Command, Dram};
use mig_graph::{Lit, Mig};
use row_alloc::{BodyCmd, BodyRef, OutRow, check_body, greedy_body, plain_body};
use std::alloc::Global;
use std::process::Abort;
use std::test::Fail;

/// Six inputs, each word with one column for each of their values.
const INPUTS: [u64; 6] = [
    0xAAAA_AAAA_AAAA_AAAA,
    0xCCCC_CCCC_CCCC_CCCC,
    0xF0F0_F0F0_F0F0_F0F0,
    0xFF00_FF00_FF00_FF00,
    0xFFFF_0000_FFFF_0000,
    0xFFFF_FFFF_0000_0000,
];

/// Inputs stand from D0 on, the third output in the first input's row and the others in D8 and D9,
/// and spill rows from D32 on.
fn address(row: BodyRef) -> Addr {
    match row {
        BodyRef::B(k) => Addr::B(k),
        BodyRef::C(k) => Addr::C(k),
        BodyRef::In(k) => Addr::D(u16::from(k)),
        BodyRef::Out(0) => Addr::D(8),
        BodyRef::Out(1) => Addr::D(9),
        BodyRef::Out(_) => Addr::D(0),
        BodyRef::Spill(k) => Addr::D(32 + u16::from(k)),
    }
}

fn command_of(cmd: BodyCmd) -> Command {
    match cmd {
        BodyCmd::Aap(x, y) => Command::Aap(address(x), address(y)),
        BodyCmd::Ap(x) => Command::Ap(address(x)),
    }
}

/// A literal of the last nodes, or of all, by the bits of a word.
fn draw(word: u64, size: u32) -> Lit
    requires { 8 ≤ size }
    ensures { result.node < size }
{
    let far = u64::from(size);
    let near = if word % 4 == 0 { far } else { 7 };
    let back = (word >> 8) % near;
    Lit {
        node: size - 1 - back as u32,
        inverted: (word >> 4) % 4 == 0,
    }
}

/// A graph of six inputs and about as many nodes.
fn draw_graph(seed: u64, nodes: u32, alloc: Global) -> Result<Mig, Fail>
    requires { nodes < 100 }
{
    let mut m = Mig::new(6, alloc)?;
    let first = |node: u32| Lit {
        node,
        inverted: false,
    };
    m.maj(first(1), first(2), first(3))?;
    for k in 0..64u64 {
        let size = m.size();
        if 8 <= size && size < 7 + nodes {
            let drawn = seed.wrapping_add(3 * k);
            let a = draw(word(drawn), size);
            let b = draw(word(drawn.wrapping_add(1)), size);
            let c = draw(word(drawn.wrapping_add(2)), size);
            m.maj(a, b, c)?;
        }
    }
    Ok(m)
}

/// The outputs are the last three nodes, the second one inverted, the third in the first input's
/// row.
fn outputs(rt: &impl Abort, m: &Mig) -> [OutRow; 3]
    ensures { FitBody m.now result }
{
    assert!(rt; m.inputs() == 6 && 10 <= m.size() && m.size() <= 36);
    let out = |node: u32, inverted: bool, same: Option<u8>| OutRow {
        lit: Lit { node, inverted },
        same,
    };
    let last = m.size() - 1;
    [
        out(last, false, None),
        out(last - 1, true, None),
        out(last - 2, false, Some(0)),
    ]
}

/// The words of all nodes, the constant and the inputs among them.
fn words_of(m: &Mig, alloc: Global) -> Result<Vec<u64>, Fail> {
    let mut words = Vec::new(alloc);
    words.push(0)?;
    for input in INPUTS {
        words.push(input)?;
    }
    for k in u32::from(m.inputs()) + 1..m.size() {
        let [a, b, c] = m.node(k);
        let (a, b, c) = (word_of(&words, a), word_of(&words, b), word_of(&words, c));
        words.push((a & b) | (a & c) | (b & c))?;
    }
    Ok(words)
}

fn word_of(words: &[u64], l: Lit) -> u64 {
    let word = words.get(l.node as usize).copied().unwrap_or(0);
    if l.inverted { !word } else { word }
}

/// The commands after others that leave rows 20 to 23 in the bitwise cells.
fn commands_of(cmds: &[BodyCmd], alloc: Global) -> Result<Vec<Command>, Fail> {
    let mut commands = Vec::new(alloc);
    commands.push(Command::Aap(Addr::D(20), Addr::B(14)))?;
    commands.push(Command::Aap(Addr::D(21), Addr::B(15)))?;
    commands.push(Command::Aap(Addr::D(22), Addr::B(1)))?;
    commands.push(Command::Aap(Addr::D(23), Addr::B(3)))?;
    for cmd in cmds {
        commands.push(command_of(*cmd))?;
    }
    Ok(commands)
}

/// The words of rows 20 to 23, drawn with a seed.
fn drawn_words(seed: u64) -> [u64; 4] {
    [
        word(seed),
        word(seed.wrapping_add(1)),
        word(seed.wrapping_add(2)),
        word(seed.wrapping_add(3)),
    ]
}

/// Begins a chip, with the inputs in rows 0 to 5 and other words in rows 20 to 23.
fn begun<D: Dram>(chip: &mut D, other: [u64; 4]) -> Result<(), Fail>
    ensures begun { OnOk result (HasBegun (D.view chip.new)) }
    ensures geometry { OnOk result ((D.view chip.new).geometry ≡ SMALL) }
    ensures aap { OnOk result ((D.view chip.new).counters.aap ≡ 0) }
    ensures ap { OnOk result ((D.view chip.new).counters.ap ≡ 0) }
    ensures reads { OnOk result ((D.view chip.new).counters.reads ≡ 0) }
{
    chip.begin(SMALL)?;
    chip.write_row(0, 0, &[INPUTS[0]])?;
    chip.write_row(0, 1, &[INPUTS[1]])?;
    chip.write_row(0, 2, &[INPUTS[2]])?;
    chip.write_row(0, 3, &[INPUTS[3]])?;
    chip.write_row(0, 4, &[INPUTS[4]])?;
    chip.write_row(0, 5, &[INPUTS[5]])?;
    chip.write_row(0, 20, &[other[0]])?;
    chip.write_row(0, 21, &[other[1]])?;
    chip.write_row(0, 22, &[other[2]])?;
    chip.write_row(0, 23, &[other[3]])?;
    Ok(())
}

/// Whether the commands leave three words in the rows of the outputs, and other inputs.
fn leaves_on<D: Dram>(
    chip: &mut D,
    commands: &[Command],
    words: [u64; 3],
    seed: u64,
) -> Result<bool, Fail> {
    if commands.len() > 200 {
        return Err("more commands than any plain body of these graphs has")?;
    }
    begun(chip, drawn_words(seed))?;
    play(chip, SMALL, 0, commands)?;
    let found = [row_of(chip, 8)?, row_of(chip, 9)?, row_of(chip, 0)?];
    let inputs = [row_of(chip, 1)?, row_of(chip, 5)?];
    Ok(found == words && inputs == [INPUTS[1], INPUTS[5]])
}

fn leaves(cmds: &[BodyCmd], words: [u64; 3], seed: u64, alloc: Global) -> Result<bool, Fail> {
    let commands = commands_of(cmds, alloc)?;
    let mut chip = Chip::new(alloc);
    leaves_on(&mut chip, &commands, words, seed)
}

/// One graph: its greedy body is no longer than the plain one, and both are right in each column.
fn one_graph(rt: &impl Abort, seed: u64, nodes: u32, alloc: Global) -> Result<(), Fail>
    requires { nodes < 100 }
{
    let m = draw_graph(seed, nodes, alloc)?;
    let outs = outputs(rt, &m);
    let plain = plain_body(&m, &outs, alloc)?;
    let greedy = greedy_body(&m, &outs, alloc)?;
    assert!(rt; greedy.len() <= plain.len());
    assert!(rt; check_body(&m, &outs, &greedy));
    let words = words_of(&m, alloc)?;
    let [a, b, c] = outs;
    let expected = [
        word_of(&words, a.lit),
        word_of(&words, b.lit),
        word_of(&words, c.lit),
    ];
    assert!(rt; leaves(&plain, expected, seed, alloc)?);
    assert!(rt; leaves(&greedy, expected, seed, alloc)?);
    Ok(())
}

// Graphs of 4 to 16 nodes, each on all values of six inputs.
#[test]
fn bodies_of_drawn_graphs_are_right(rt: HostRuntime) -> Result<(), Fail> {
    for k in 0..26u32 {
        one_graph(&rt, 1000 * u64::from(k), 4 + k % 13, rt.alloc())?;
    }
    Ok(())
}
