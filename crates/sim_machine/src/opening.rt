//! Opening: memory, and a chip that is given the rows of an image.

ghost use Rattle.std.specs.Prelude.{◌≡◌, ◌+◌, ◌*◌, ◌<◌, ◌≤◌, ◌^◌, length, OnOk, OnErr, ◌∷◌, []};
ghost use Rattle.std.specs.Prelude.{IfOk, IsErrOf, true, vec_capacity};
ghost use Rattle.dram_model.specs.Geometry.{is_geometry};
ghost use Rattle.dram_model.specs.Chip.{Event};
ghost use Rattle.faults.specs.Counts.{Rose};
ghost use Rattle.dram_model.specs.View.{HasBegun, Kept, Did, FailedIn, NotBegun};
ghost use Rattle.transpose_unit.specs.Stopped.{StoppedWithin};
ghost use Rattle.object_alloc.specs.Bytes.{bits_of_bytes};
ghost use Rattle.object_alloc.specs.Reading.{rows_size};
ghost use Rattle.object_alloc.specs.Spelling.{row_at};
ghost use Rattle.sim_machine.specs.Opening.{IsLeftUnopened, Opened, all_writes, bank_writes};

use crate::machine::StartNo;
use dram_model::{BeginNo, ChipFault, Dram, Geometry};
use object_alloc::{HEAD_BYTES, OBJECTS_MAX, RECORD_BYTES, words_of_bytes};
use std::alloc::Global;

/// Writes one row, given by its bytes.
fn write_row<D: Dram>(
    dram: &mut D,
    bank: u16,
    row: u16,
    bytes: &[u8],
    stage: &mut [u64],
) -> Result<(), ChipFault>
    requires begun { HasBegun (D.view dram.old) }
    requires bank { bank < (D.view dram.old).geometry.banks }
    requires row { row < (D.view dram.old).geometry.rows }
    requires words { length stage.old ≡ (D.view dram.old).geometry.words }
    requires bytes { length bytes.now ≡ 8 * (D.view dram.old).geometry.words }
    requires room { (D.view dram.old).counters.writes < 2 ^ 63 }
    ensures borrow { D.borrow dram.new ≡ D.borrow dram.old }
    ensures kept { Kept (D.view dram.old) (D.view dram.new) }
    ensures stage { length stage.new ≡ length stage.old }
    ensures did { OnOk result (Did (Event.Write bank row (bits_of_bytes bytes.now) ∷ [])
        (D.view dram.old) (D.view dram.new)) }
    ensures failed { OnErr result (FailedIn bank (D.view dram.old) (D.view dram.new)) }
{
    words_of_bytes(bytes, stage);
    dram.write_row(bank, row, stage)
}

/// Where the bytes of a row begin among those of all rows.
fn row_start(g: Geometry, bank: u16, row: u16) -> usize
    ensures { result ≡ 8 * g.words * (bank * g.rows + row) }
{
    8 * usize::from(g.words) * (usize::from(bank) * usize::from(g.rows) + usize::from(row))
}

/// The bytes of one row among those of all rows.
fn row_bytes(g: Geometry, rows: &[u8], bank: u16, row: u16) -> &[u8]
    requires bank { bank < g.banks }
    requires row { row < g.rows }
    requires bytes { length rows.now ≡ rows_size g }
    ensures value { result.now ≡ row_at g rows.now bank row }
    ensures length { length result.now ≡ 8 * g.words }
{
    let (_, rest) = rows.split_at(row_start(g, bank, row));
    let (bytes, _) = rest.split_at(8 * usize::from(g.words));
    bytes
}

/// Writes the rows of one bank, upwards.
fn write_bank<D: Dram>(
    dram: &mut D,
    g: Geometry,
    bank: u16,
    rows: &[u8],
    stage: &mut [u64],
) -> Result<(), ChipFault>
    requires begun { HasBegun (D.view dram.old) }
    requires geometry { (D.view dram.old).geometry ≡ g }
    requires bank { bank < g.banks }
    requires small { g.banks * g.rows * g.words ≤ 8388608 }
    requires words { length stage.old ≡ g.words }
    requires bytes { length rows.now ≡ rows_size g }
    requires room { (D.view dram.old).counters.writes < 2 ^ 62 }
    ensures borrow { D.borrow dram.new ≡ D.borrow dram.old }
    ensures kept { Kept (D.view dram.old) (D.view dram.new) }
    ensures stage { length stage.new ≡ length stage.old }
    ensures did { OnOk result (Did (bank_writes g rows.now bank) (D.view dram.old)
        (D.view dram.new)) }
    ensures writes { OnOk result ((D.view dram.new).counters.writes
        ≡ (D.view dram.old).counters.writes + g.rows) }
    ensures failed { OnErr result (FailedIn bank (D.view dram.old) (D.view dram.new)) }
    ensures some { OnErr result (0 < g.rows) }
{
    for row in 0..g.rows {
        write_row(dram, bank, row, row_bytes(g, rows, bank, row), stage)?;
    }
    Ok(())
}

/// Writes every row of every bank, bank by bank and rows upwards.
fn write_rows<D: Dram>(
    dram: &mut D,
    g: Geometry,
    rows: &[u8],
    stage: &mut [u64],
) -> Result<(), ChipFault>
    requires begun { HasBegun (D.view dram.old) }
    requires geometry { (D.view dram.old).geometry ≡ g }
    requires banks { g.banks ≤ 16 }
    requires small { g.banks * g.rows * g.words ≤ 8388608 }
    requires words { length stage.old ≡ g.words }
    requires bytes { length rows.now ≡ rows_size g }
    requires fresh { (D.view dram.old).counters.writes ≡ 0 }
    ensures borrow { D.borrow dram.new ≡ D.borrow dram.old }
    ensures kept { Kept (D.view dram.old) (D.view dram.new) }
    ensures stage { length stage.new ≡ length stage.old }
    ensures did { OnOk result (Did (all_writes g rows.now) (D.view dram.old) (D.view dram.new)) }
    ensures rose { OnErr result (Rose (D.view dram.old).faults (D.view dram.new).faults) }
    ensures stopped { OnErr result (StoppedWithin 0 (all_writes g rows.now) (D.view dram.old).banks
        (D.view dram.new).banks) }
{
    for bank in 0..g.banks {
        write_bank(dram, g, bank, rows, stage)?;
    }
    Ok(())
}

/// The bytes of an image file of 256 objects.
fn file_size(g: Geometry) -> usize
    ensures { result ≡ HEAD_BYTES + RECORD_BYTES * OBJECTS_MAX + rows_size g }
{
    HEAD_BYTES
        + RECORD_BYTES * OBJECTS_MAX
        + 8 * (usize::from(g.banks) * usize::from(g.rows) * usize::from(g.words))
}

/// The words of one bank's rows of the widest object.
pub(crate) fn make_stage(words: u16, alloc: Global) -> Result<Vec<u64>, StartNo>
    ensures length { IfOk result (λ stage. length stage.items ≡ 128 * words) }
    ensures failed { IsErrOf result StartNo.ChipFault → ⊥ }
{
    match vec![in alloc; 0u64; 128 * usize::from(words)] {
        Ok(stage) => Ok(stage),
        Err(_) => Err(StartNo::NoMemory),
    }
}

/// Room for an image file.
pub(crate) fn make_file(g: Geometry, alloc: Global) -> Result<Vec<u8>, StartNo>
    ensures empty { IfOk result (λ file. file.items ≡ []) }
    ensures room { IfOk result (λ file. HEAD_BYTES + RECORD_BYTES * OBJECTS_MAX + rows_size g
        ≤ vec_capacity file) }
    ensures failed { IsErrOf result StartNo.ChipFault → ⊥ }
{
    match Vec::with_capacity(alloc, file_size(g)) {
        Ok(file) => Ok(file),
        Err(_) => Err(StartNo::NoMemory),
    }
}

/// Begins the chip, and writes the rows.
pub(crate) fn begin<D: Dram>(
    g: Geometry,
    rows: &[u8],
    stage: &mut [u64],
    dram: &mut D,
) -> Result<(), StartNo>
    requires passes { is_geometry g ≡ true }
    requires words { length stage.old ≡ g.words }
    requires bytes { length rows.now ≡ rows_size g }
    ensures borrow { D.borrow dram.new ≡ D.borrow dram.old }
    ensures stage { length stage.new ≡ length stage.old }
    ensures faults { (D.view dram.old).faults ≤ (D.view dram.new).faults }
    ensures opened { OnOk result (Opened g rows.now (D.view dram.new)) }
    ensures unfailed { OnOk result ((D.view dram.new).faults ≡ (D.view dram.old).faults) }
    ensures failed { IsErrOf result StartNo.ChipFault
        → Rose (D.view dram.old).faults (D.view dram.new).faults }
    ensures left { IsErrOf result StartNo.ChipFault
        → IsLeftUnopened g rows.now (D.view dram.new) }
    ensures unopened { IsErrOf result StartNo.NoMemory → NotBegun (D.view dram.new) }
{
    match dram.begin(g) {
        Ok(()) => {}
        Err(BeginNo::Failed) => return Err(StartNo::ChipFault),
        Err(BeginNo::NoMemory) => return Err(StartNo::NoMemory),
    }
    match write_rows(dram, g, rows, stage) {
        Ok(()) => Ok(()),
        Err(_) => Err(StartNo::ChipFault),
    }
}
