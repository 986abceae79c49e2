//! Writing an object.

ghost use Rattle.std.specs.Prelude.{◌≡◌, ℕ, ◌+◌, ◌*◌, ◌<◌, ◌≤◌, ◌^◌, length, All, OnOk, OnErr};
ghost use Rattle.dram_model.specs.View.{HasBegun, Kept, Did, FailedIn};
ghost use Rattle.transpose_unit.specs.Stopped.{StoppedWithin};
ghost use Rattle.dram_model.specs.Elements.{column_count, segments_of, write_events, numbers_in};
ghost use Rattle.dram_model.specs.Elements.{padded_to, size_of, FailedBelow};
ghost use Rattle.transpose_unit.specs.Stage.{stage_events, stage_rows};
ghost use Rattle.transpose_unit.specs.Laws.{WritesHold};

use crate::stage::fill_stage;
use bit_rows::{Value, WIDTH_MAX};
use dram_model::{ChipFault, Dram, Geometry};

/// Writes the first n rows of the stage to n rows of a bank.
fn write_rows<D: Dram>(
    dram: &mut D,
    g: Geometry,
    bank: u16,
    base: u16,
    n: u8,
    stage: &[u64],
) -> Result<(), ChipFault>
    requires begun { HasBegun (D.view dram.old) }
    requires geometry { (D.view dram.old).geometry ≡ g }
    requires bank { bank < g.banks }
    requires narrow { n ≤ WIDTH_MAX }
    requires rows { base + n ≤ g.rows }
    requires stage { length stage.now ≡ stage_rows n * g.words }
    requires room { (D.view dram.old).counters.writes < 2 ^ 62 + 2 ^ 61 }
    ensures borrow { D.borrow dram.new ≡ D.borrow dram.old }
    ensures kept { Kept (D.view dram.old) (D.view dram.new) }
    ensures did { OnOk result (Did (stage_events g.words bank base n stage.now) (D.view dram.old)
        (D.view dram.new)) }
    ensures writes { OnOk result ((D.view dram.new).counters.writes
        ≡ (D.view dram.old).counters.writes + n) }
    ensures failed { OnErr result (FailedIn bank (D.view dram.old) (D.view dram.new)) }
    ensures some { OnErr result (0 < n) }
{
    let words = usize::from(g.words);
    for k in 0..n {
        let start = usize::from(k) * words;
        dram.write_row(bank, base + u16::from(k), &stage[start..start + words])?;
    }
    Ok(())
}

/// Writes the values, each of at most n bits, into the columns of n rows from `base` on: segment by
/// segment, and rows upwards in each. The columns past the last value take 0. The stage holds the
/// rows of one segment.
pub fn write_object<D: Dram>(
    dram: &mut D,
    g: Geometry,
    base: u16,
    n: u8,
    values: &[Value],
    stage: &mut [u64],
) -> Result<(), ChipFault>
    requires begun { HasBegun (D.view dram.old) }
    requires geometry { (D.view dram.old).geometry ≡ g }
    requires narrow { n ≤ WIDTH_MAX }
    requires rows { base + n ≤ g.rows }
    requires stage { length stage.old ≡ stage_rows n * g.words }
    requires small { All (λ v. v < 2 ^ n) values.now }
    requires some { 0 < length values.now }
    requires fits { length values.now ≤ column_count g * g.banks }
    requires room { (D.view dram.old).counters.writes < 2 ^ 62 + 2 ^ 60 }
    ensures borrow { D.borrow dram.new ≡ D.borrow dram.old }
    ensures kept { Kept (D.view dram.old) (D.view dram.new) }

    // The writes, in order, and what they leave in the columns.
    ensures did { OnOk result (Did (write_events g base n values.now) (D.view dram.old)
        (D.view dram.new)) }
    ensures numbers { OnOk result (numbers_in g (D.view dram.new).banks base n (length values.now)
        ≡ padded_to (size_of g (length values.now)) values.now) }
    ensures failed { OnErr result (FailedBelow (segments_of g (length values.now)) (D.view dram.old)
        (D.view dram.new)) }
    ensures stopped { OnErr result (StoppedWithin 0 (write_events g base n values.now)
        (D.view dram.old).banks (D.view dram.new).banks) }
{
    let words = usize::from(g.words);
    let columns = 64 * words;
    for bank in 0..values.len().div_ceil(columns) {
        fill_stage(values, bank * columns, words, n, stage);
        write_rows(dram, g, bank as u16, base, n, stage)?;
    }
    Ok(())
}

/// Shows what the writes of an object leave: its columns hold the numbers, all else stays, and each
/// row of each bank is counted once.
pub fn writes_hold()
    ensures { WritesHold }
{}
