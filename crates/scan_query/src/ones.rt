//! The ones of a bit object, counted a word at a time.

ghost use Rattle.std.specs.Prelude.{◌≡◌, ◌<◌, ◌≤◌, ◌-◌, ◌*◌, ◌^◌, ◌==◌, min, length, take, true};
ghost use Rattle.std.specs.Prelude.{◌+◌, [], count_by, IfOk, OnOk, OnErr};
ghost use Rattle.bit_rows.specs.Bits.{bits, bits_of_words};
ghost use Rattle.faults.specs.Counts.{Rose};
ghost use Rattle.transpose_unit.specs.Stopped.{StoppedWithin};
ghost use Rattle.dram_model.specs.View.{DidRead, FailedIn, HasBegun, Kept};
ghost use Rattle.dram_model.specs.Chip.{row_in};
ghost use Rattle.dram_model.specs.Geometry.{is_geometry};
ghost use Rattle.object_alloc.specs.Spelling.{IsObject};
ghost use Rattle.machine_model.specs.Columns.{columns, segments};

use dram_model::{ChipFault, Dram, Geometry};
use object_alloc::Object;
use object_steps::segments;

/// The ones among the lowest n bits of a word.
fn ones_in(word: u64, n: u8) -> u32
    requires { n ≤ 64 }
    ensures value { result ≡ count_by (λ b. b) (bits word n) }
    ensures few { result ≤ 64 }
{
    if n == 64 {
        word.count_ones()
    } else {
        (word % (1 << n)).count_ones()
    }
}

/// How many of the next word's bits are below the limit.
fn bits_left(columns: u32, word: usize) -> u8
    requires { word < 2 ^ 16 }
    ensures { result ≡ min 64 (columns - 64 * word) }
{
    let start = 64 * word as u32;
    if columns <= start {
        0
    } else if columns - start < 64 {
        (columns - start) as u8
    } else {
        64
    }
}

/// The ones among the first columns of a row.
fn ones_below(words: &[u64], columns: u32) -> u32
    requires { length words.now ≤ 1024 }
    ensures value { result ≡ count_by (λ b. b) (take columns (bits_of_words words.now)) }
    ensures few { result ≤ 65536 }
{
    let mut found = 0;
    'words: for word in 0..words.len() {
        found += ones_in(words[word], bits_left(columns, word));
    }
    found
}

/// The ones among the first columns of a row of a bank, which is read.
fn ones_of_row<D: Dram>(
    dram: &mut D,
    bank: u16,
    row: u16,
    columns: u32,
    words: &mut [u64],
) -> Result<u32, ChipFault>
    requires begun { HasBegun (D.view dram.old) }
    requires bank { bank < (D.view dram.old).geometry.banks }
    requires row { row < (D.view dram.old).geometry.rows }
    requires words { length words.old ≡ (D.view dram.old).geometry.words }
    requires few { length words.old ≤ 1024 }
    requires room { (D.view dram.old).counters.reads < 2 ^ 63 }
    ensures borrow { D.borrow dram.new ≡ D.borrow dram.old }
    ensures kept { Kept (D.view dram.old) (D.view dram.new) }
    ensures stage { length words.new ≡ length words.old }
    ensures ones { IfOk result (λ n. n ≡ count_by (λ b. b)
        (take columns (row_in row ((D.view dram.old).banks bank)))) }
    ensures few { IfOk result (λ n. n ≤ 65536) }
    ensures did { OnOk result (DidRead 1 (D.view dram.old) (D.view dram.new)) }
    ensures failed { OnErr result (FailedIn bank (D.view dram.old) (D.view dram.new)) }
{
    dram.read_row(bank, row, words)?;
    Ok(ones_below(words, columns))
}

/// The ones among the elements of an object of one bit, whose rows are read.
pub(crate) fn ones_of<D: Dram>(
    dram: &mut D,
    g: Geometry,
    object: Object,
    stage: &mut [u64],
) -> Result<u32, ChipFault>
    requires shape { is_geometry g ≡ true }
    requires begun { HasBegun (D.view dram.old) }
    requires geometry { (D.view dram.old).geometry ≡ g }
    requires row { object.base < g.rows }
    requires object { IsObject g object }
    requires narrow { object.width ≡ 1 }
    requires stage { length stage.old ≡ 64 * g.words }
    requires room { (D.view dram.old).counters.reads < 2 ^ 62 + 2 ^ 60 }
    ensures borrow { D.borrow dram.new ≡ D.borrow dram.old }
    ensures kept { Kept (D.view dram.old) (D.view dram.new) }
    ensures stage { length stage.new ≡ length stage.old }
    ensures ones { IfOk result (λ n. n ≡ count_by (λ v. v == 1)
        (take object.count (columns g (D.view dram.old).banks object))) }
    ensures did { OnOk result (DidRead (segments g object) (D.view dram.old) (D.view dram.new)) }
    ensures failed { OnErr result (Rose (D.view dram.old).faults (D.view dram.new).faults) }
    ensures left { OnErr result (StoppedWithin (segments g object) [] (D.view dram.old).banks
        (D.view dram.new).banks) }
{
    let words = usize::from(g.words);
    let columns = 64 * u32::from(g.words);
    let mut found = 0;
    'banks: for bank in 0..segments(g, object) {
        let left = object.count - u32::from(bank) * columns;
        found += ones_of_row(dram, bank, object.base, left, &mut stage[..words])?;
    }
    Ok(found)
}
