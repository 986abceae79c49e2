//! The sum of a result's numbers.

ghost use Rattle.std.specs.Prelude.{◌≡◌, ℕ, ◌+◌, ◌*◌, ◌<◌, ◌≤◌, ◌%◌, ◌^◌, length, map, OnOk};
ghost use Rattle.std.specs.Prelude.{OnErr, IfOk, []};
ghost use Rattle.std.specs.Prelude.{sum_by};
ghost use Rattle.std.specs.List.{range_with_len};
ghost use Rattle.dram_model.specs.Chip.{Grew};
ghost use Rattle.dram_model.specs.View.{HasBegun, Kept, DidRead, FailedIn};
ghost use Rattle.dram_model.specs.Elements.{below, number};
ghost use Rattle.faults.specs.Counts.{Rose};
ghost use Rattle.transpose_unit.specs.Stopped.{StoppedWithin};
ghost use Rattle.transpose_unit.specs.Stage.{stage_number};
ghost use Rattle.soak_job.specs.Layout.{soak_chip};

use crate::load::{CHIP, STAGE_WORDS};
use dram_model::{ChipFault, Dram};
use transpose_unit::{read_column, read_segment};

/// A sum, and the numbers of n bits that a stage holds, modulo 2^64.
fn add_numbers(sum: u64, stage: &[u64; STAGE_WORDS], n: u8) -> u64
    requires { n ≤ 64 }
    ensures { result ≡ (sum + sum_by (stage_number 2 n stage.now) (range_with_len 0 128)) % 2 ^ 64 }
{
    let mut all = sum;
    for column in 0..128 {
        let number = read_column(stage, n, column) % (1 << 64);
        all = all.wrapping_add(number as u64);
    }
    all
}

/// A sum, and the numbers of n rows of a bank, modulo 2^64.
fn add_bank<D: Dram>(chip: &mut D, bank: u16, base: u16, n: u8, sum: u64) -> Result<u64, ChipFault>
    requires begun { HasBegun (D.view chip.old) }
    requires geometry { (D.view chip.old).geometry ≡ soak_chip }
    requires bank { bank < 2 }
    requires narrow { n ≤ 64 }
    requires rows { base + n ≤ 512 }
    requires room { (D.view chip.old).counters.reads < 2 ^ 61 }
    ensures borrow { D.borrow chip.new ≡ D.borrow chip.old }
    ensures kept { Kept (D.view chip.old) (D.view chip.new) }
    ensures did { OnOk result (DidRead n (D.view chip.old) (D.view chip.new)) }
    ensures sum { IfOk result (λ all. all ≡ (sum + sum_by (number base n)
        ((D.view chip.old).banks bank)) % 2 ^ 64) }
    ensures failed { OnErr result (Rose (D.view chip.old).faults (D.view chip.new).faults) }
    ensures left { OnErr result (StoppedWithin 2 [] (D.view chip.old).banks
        (D.view chip.new).banks) }
{
    let mut stage = [0; STAGE_WORDS];
    read_segment(chip, CHIP, bank, base, n, &mut stage)?;
    Ok(add_numbers(sum, &stage, n))
}

/// The sum, modulo 2^64, of the numbers of n rows in all columns of both banks.
pub(crate) fn sum_of<D: Dram>(chip: &mut D, base: u16, n: u8) -> Result<u64, ChipFault>
    requires begun { HasBegun (D.view chip.old) }
    requires geometry { (D.view chip.old).geometry ≡ soak_chip }
    requires narrow { n ≤ 64 }
    requires rows { base + n ≤ 512 }
    requires room { (D.view chip.old).counters.reads < 2 ^ 60 }
    ensures borrow { D.borrow chip.new ≡ D.borrow chip.old }
    ensures kept { Kept (D.view chip.old) (D.view chip.new) }
    ensures did { OnOk result (DidRead (2 * n) (D.view chip.old) (D.view chip.new)) }
    ensures sum { IfOk result (λ all. all ≡ sum_by (number base n)
        (below 2 (D.view chip.old).banks) % 2 ^ 64) }
    ensures failed { OnErr result (Rose (D.view chip.old).faults (D.view chip.new).faults) }
    ensures left { OnErr result (StoppedWithin 2 [] (D.view chip.old).banks
        (D.view chip.new).banks) }
{
    let first = add_bank(chip, 0, base, n, 0)?;
    add_bank(chip, 1, base, n, first)
}
