//! The image of a chip.

ghost use Rattle.std.specs.Prelude.{◌≡◌, ◌+◌, ◌*◌, ◌<◌, ◌≤◌, ◌^◌, ◌++◌, [], ◌∷◌, length, flat_map};
ghost use Rattle.std.specs.Prelude.{map, OnOk, OnErr, vec_len, vec_capacity};
ghost use Rattle.std.specs.List.{range_with_len};
ghost use Rattle.dram_model.specs.Chip.{Grew, row_in};
ghost use Rattle.faults.specs.Counts.{Rose};
ghost use Rattle.dram_model.specs.View.{HasBegun, Kept, DidRead, FailedIn};
ghost use Rattle.transpose_unit.specs.Stopped.{StoppedWithin};
ghost use Rattle.object_alloc.specs.Bytes.{bytes_of_bits};
ghost use Rattle.object_alloc.specs.Spelling.{rows_bytes};
ghost use Rattle.machine_model.specs.Opened.{rows_in_banks};
ghost use Rattle.sim_machine.specs.Image.{bank_bytes};

use dram_model::{ChipFault, Dram, Geometry};
use object_alloc::bytes_of_words;

/// Reads one row and appends its bytes.
fn read_row<D: Dram>(
    dram: &mut D,
    bank: u16,
    row: u16,
    stage: &mut [u64],
    file: &mut Vec<u8>,
) -> Result<(), ChipFault>
    requires begun { HasBegun (D.view dram.old) }
    requires bank { bank < (D.view dram.old).geometry.banks }
    requires row { row < (D.view dram.old).geometry.rows }
    requires words { length stage.old ≡ (D.view dram.old).geometry.words }
    requires room { vec_len file.old + 8 * (D.view dram.old).geometry.words
        ≤ vec_capacity file.old }
    requires reads { (D.view dram.old).counters.reads < 2 ^ 63 }
    ensures borrow { D.borrow dram.new ≡ D.borrow dram.old }
    ensures kept { Kept (D.view dram.old) (D.view dram.new) }
    ensures stage { length stage.new ≡ length stage.old }
    ensures did { OnOk result (DidRead 1 (D.view dram.old) (D.view dram.new)) }
    ensures file { OnOk result (file.new.items
        ≡ file.old.items ++ bytes_of_bits (8 * (D.view dram.old).geometry.words)
        (row_in row ((D.view dram.old).banks bank))) }
    ensures len { OnOk result (vec_len file.new
        ≡ vec_len file.old + 8 * (D.view dram.old).geometry.words) }
    ensures capacity { vec_capacity file.old ≤ vec_capacity file.new }
    ensures failed { OnErr result (FailedIn bank (D.view dram.old) (D.view dram.new)) }
    ensures no_event { Grew (D.view dram.old).log (D.view dram.new).log [] }
{
    dram.read_row(bank, row, stage)?;
    bytes_of_words(stage, file);
    Ok(())
}

/// Reads the rows of one bank, upwards, and appends their bytes.
fn read_bank<D: Dram>(
    dram: &mut D,
    g: Geometry,
    bank: u16,
    stage: &mut [u64],
    file: &mut Vec<u8>,
) -> Result<(), ChipFault>
    requires begun { HasBegun (D.view dram.old) }
    requires geometry { (D.view dram.old).geometry ≡ g }
    requires bank { bank < g.banks }
    requires words { length stage.old ≡ g.words }
    requires small { g.rows * (8 * g.words) < 2 ^ 40 }
    requires room { vec_len file.old + g.rows * (8 * g.words) ≤ vec_capacity file.old }
    requires reads { (D.view dram.old).counters.reads < 2 ^ 62 + 2 ^ 61 }
    ensures borrow { D.borrow dram.new ≡ D.borrow dram.old }
    ensures kept { Kept (D.view dram.old) (D.view dram.new) }
    ensures stage { length stage.new ≡ length stage.old }
    ensures did { OnOk result (DidRead g.rows (D.view dram.old) (D.view dram.new)) }
    ensures file { OnOk result (file.new.items
        ≡ file.old.items ++ bank_bytes g (D.view dram.old).banks bank g.rows) }
    ensures len { OnOk result (vec_len file.new ≡ vec_len file.old + g.rows * (8 * g.words)) }
    ensures capacity { vec_capacity file.old ≤ vec_capacity file.new }
    ensures failed { OnErr result (FailedIn bank (D.view dram.old) (D.view dram.new)) }
    ensures no_event { Grew (D.view dram.old).log (D.view dram.new).log [] }
{
    for row in 0..g.rows {
        read_row(dram, bank, row, stage, file)?;
    }
    Ok(())
}

/// Reads every row of every bank, bank by bank and rows upwards, and appends their bytes.
fn read_rows<D: Dram>(
    dram: &mut D,
    g: Geometry,
    stage: &mut [u64],
    file: &mut Vec<u8>,
) -> Result<(), ChipFault>
    requires begun { HasBegun (D.view dram.old) }
    requires geometry { (D.view dram.old).geometry ≡ g }
    requires banks { g.banks ≤ 16 }
    requires words { length stage.old ≡ g.words }
    requires small { g.rows * (8 * g.words) < 2 ^ 40 }
    requires room { vec_len file.old + g.banks * (g.rows * (8 * g.words)) ≤ vec_capacity file.old }
    requires reads { (D.view dram.old).counters.reads < 2 ^ 62 }
    ensures borrow { D.borrow dram.new ≡ D.borrow dram.old }
    ensures kept { Kept (D.view dram.old) (D.view dram.new) }
    ensures stage { length stage.new ≡ length stage.old }
    ensures did { OnOk result (DidRead (g.banks * g.rows) (D.view dram.old) (D.view dram.new)) }
    ensures file { OnOk result (file.new.items
        ≡ file.old.items ++ rows_bytes g (rows_in_banks (D.view dram.old).banks)) }
    ensures capacity { vec_capacity file.old ≤ vec_capacity file.new }
    ensures rose { OnErr result (Rose (D.view dram.old).faults (D.view dram.new).faults) }
    ensures stopped { OnErr result (StoppedWithin g.banks [] (D.view dram.old).banks
        (D.view dram.new).banks) }
    ensures no_event { Grew (D.view dram.old).log (D.view dram.new).log [] }
{
    for bank in 0..g.banks {
        read_bank(dram, g, bank, stage, file)?;
    }
    Ok(())
}

/// Reads every row of every bank by the first words of a stage, and appends their bytes.
pub(crate) fn read_image<D: Dram>(
    dram: &mut D,
    g: Geometry,
    stage: &mut [u64],
    file: &mut Vec<u8>,
) -> Result<(), ChipFault>
    requires begun { HasBegun (D.view dram.old) }
    requires geometry { (D.view dram.old).geometry ≡ g }
    requires banks { g.banks ≤ 16 }
    requires words { length stage.old ≡ 128 * g.words }
    requires small { g.rows * (8 * g.words) < 2 ^ 40 }
    requires room { vec_len file.old + g.banks * (g.rows * (8 * g.words)) ≤ vec_capacity file.old }
    requires reads { (D.view dram.old).counters.reads < 2 ^ 62 }
    ensures borrow { D.borrow dram.new ≡ D.borrow dram.old }
    ensures kept { Kept (D.view dram.old) (D.view dram.new) }
    ensures stage { length stage.new ≡ length stage.old }
    ensures did { OnOk result (DidRead (g.banks * g.rows) (D.view dram.old) (D.view dram.new)) }
    ensures file { OnOk result (file.new.items
        ≡ file.old.items ++ rows_bytes g (rows_in_banks (D.view dram.old).banks)) }
    ensures capacity { vec_capacity file.old ≤ vec_capacity file.new }
    ensures rose { OnErr result (Rose (D.view dram.old).faults (D.view dram.new).faults) }
    ensures stopped { OnErr result (StoppedWithin g.banks [] (D.view dram.old).banks
        (D.view dram.new).banks) }
    ensures no_event { Grew (D.view dram.old).log (D.view dram.new).log [] }
{
    let row = &mut stage[..usize::from(g.words)];
    read_rows(dram, g, row, file)
}
