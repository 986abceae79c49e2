//! Commands on the rows of a chip, and calls that fail.

ghost use Rattle.std.specs.Prelude.{◌<◌, ◌^◌, length};

use crate::rows::play;
use dram_chip::{Addr, BeginNo, Chip, Command, Counters, Dram, FailingChip, Geometry};
use std::alloc::Global;
use std::test::Fail;

/// Banks of 128 columns.
const SMALL: Geometry = Geometry {
    banks: 2,
    rows: 64,
    words: 2,
};

const A: [u64; 2] = [0x0123_4567_89ab_cdef, 0];

const B: [u64; 2] = [0xfedc_ba98_0f0f_3355, 0xaaaa_0000_ffff_5555];

/// The and of rows 0 and 1 into row 63. T0 loses its operand: row 2 takes what it holds.
const AND: [Command; 5] = [
    Command::Aap(Addr::D(0), Addr::B(0)),
    Command::Aap(Addr::D(1), Addr::B(1)),
    Command::Aap(Addr::C(0), Addr::B(2)),
    Command::Aap(Addr::B(12), Addr::D(63)),
    Command::Aap(Addr::B(0), Addr::D(2)),
];

/// The complement of row 1 into row 3.
const NOT: [Command; 2] = [
    Command::Aap(Addr::D(1), Addr::B(5)),
    Command::Aap(Addr::B(4), Addr::D(3)),
];

/// Rows 0 and 1 differ: into row 2.
const XOR: [Command; 7] = [
    Command::Aap(Addr::D(0), Addr::B(8)),
    Command::Aap(Addr::D(1), Addr::B(9)),
    Command::Aap(Addr::C(0), Addr::B(10)),
    Command::Ap(Addr::B(14)),
    Command::Ap(Addr::B(15)),
    Command::Aap(Addr::C(1), Addr::B(2)),
    Command::Aap(Addr::B(12), Addr::D(2)),
];

/// A row of bank 1 after commands on it, and the counters. Its first two rows were A and B, and the
/// others zeros.
fn row_after(commands: &[Command], row: u16, alloc: Global) -> Result<([u64; 2], Counters), Fail>
    requires few { length commands.now < 2 ^ 32 }
    requires row { row < 64 }
{
    let mut chip = Chip::new(alloc);
    chip.begin(SMALL)?;
    chip.write_row(1, 0, &A)?;
    chip.write_row(1, 1, &B)?;
    play(&mut chip, SMALL, 1, commands)?;
    let mut words = [0; 2];
    chip.read_row(1, row, &mut words)?;
    Ok((words, chip.tally()))
}

/// Whether the row holds these words then.
fn leaves(commands: &[Command], row: u16, want: [u64; 2], alloc: Global) -> Result<bool, Fail> {
    if commands.len() > 100 || row >= 64 {
        return Ok(false);
    }
    let (words, _tally) = row_after(commands, row, alloc)?;
    Ok(words == want)
}

#[test]
fn commands_leave_rows(rt: HostRuntime) -> Result<(), Fail> {
    let and = [A[0] & B[0], A[1] & B[1]];
    let cases: [(&[Command], u16, [u64; 2]); 7] = [
        (&AND, 63, and),
        (&AND, 2, and),
        (&AND, 0, A),
        (&AND, 1, B),
        (&NOT, 3, [!B[0], !B[1]]),
        (&NOT, 1, B),
        (&XOR, 2, [A[0] ^ B[0], A[1] ^ B[1]]),
    ];
    for (commands, row, want) in cases {
        assert!(rt; leaves(commands, row, want, rt.alloc())?);
    }
    Ok(())
}

#[test]
fn calls_are_counted(rt: HostRuntime) -> Result<(), Fail> {
    let (_words, tally) = row_after(&XOR, 2, rt.alloc())?;
    let counters = Counters {
        aap: 5,
        ap: 2,
        writes: 2,
        reads: 1,
    };
    assert!(rt; tally == counters);
    Ok(())
}

/// Whether each first call of the five that can fail fails, and the next one does not.
fn first_calls_fail(chip: &mut FailingChip) -> Result<bool, Fail> {
    let begin = chip.begin(SMALL) == Err(BeginNo::Failed);
    chip.begin(SMALL)?;
    let write = chip.write_row(0, 0, &A).is_err();
    chip.write_row(0, 0, &B)?;
    let aap = chip.aap(0, Addr::D(0), Addr::D(1)).is_err();
    chip.aap(0, Addr::D(0), Addr::D(1))?;
    let ap = chip.ap(0, Addr::D(0)).is_err();
    chip.ap(0, Addr::D(0))?;
    let mut out = [0; 2];
    let read = chip.read_row(0, 1, &mut out).is_err();
    chip.read_row(0, 1, &mut out)?;
    Ok(begin && write && aap && ap && read && out == B && chip.geometry() == SMALL)
}

// The calls are counted over all five that can fail.
#[test]
fn listed_calls_fail(rt: HostRuntime) -> Result<(), Fail> {
    let mut chip = FailingChip::new(rt.alloc(), [1, 3, 5, 7, 9].to_vec(rt.alloc())?);
    assert!(rt; first_calls_fail(&mut chip)?);
    Ok(())
}
