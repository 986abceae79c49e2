//! The chip of a soak, and how sources are loaded.

ghost use Rattle.std.specs.Prelude.{◌≡◌, ◌*◌, ◌<◌, ◌≤◌, ◌^◌, map, OnOk, OnErr};
ghost use Rattle.std.specs.List.{range_with_len};
ghost use Rattle.dram_model.specs.View.{HasBegun, Kept, Did};
ghost use Rattle.dram_model.specs.Elements.{below};
ghost use Rattle.faults.specs.Counts.{Rose};
ghost use Rattle.transpose_unit.specs.Stopped.{StoppedWithin};
ghost use Rattle.uprog_code.specs.Implements.{numbers};
ghost use Rattle.soak_job.specs.Layout.{bases_from, source_row_count, soak_chip, source_writes};
ghost use Rattle.soak_job.specs.Words.{after_all, elements, sources_at};
ghost use Rattle.soak_job.specs.OneCase.{WritesMore};

use crate::cases::rows_of;
use crate::words::draw;
use dram_model::{ChipFault, Dram, Geometry};
use op_text::Kind;
use rand_xoshiro::SplitMix64;
use transpose_unit::write_object;

/// The shape of the chip: the elements of a source take all columns of its two banks.
pub const CHIP: Geometry = Geometry {
    banks: 2,
    rows: 512,
    words: 2,
};

/// The words of a stage for values of at most 64 bits.
pub(crate) const STAGE_WORDS: usize = 128;

/// Loads sources of these kinds at width n, with the generator's next words, into the rows from 0
/// on, one source after the other.
pub(crate) fn load_sources<D: Dram>(
    chip: &mut D,
    kinds: &[Kind],
    n: u8,
    generator: &mut SplitMix64,
) -> Result<(), ChipFault>
    requires begun { HasBegun (D.view chip.old) }
    requires geometry { (D.view chip.old).geometry ≡ soak_chip }
    requires some { 0 < n }
    requires narrow { n ≤ 64 }
    requires rows { source_row_count n kinds.now ≤ 512 }
    requires room { (D.view chip.old).counters.writes < 2 ^ 60 }
    ensures borrow { D.borrow chip.new ≡ D.borrow chip.old }
    ensures kept { Kept (D.view chip.old) (D.view chip.new) }
    ensures did { OnOk result (Did (source_writes generator.old 0 n kinds.now) (D.view chip.old)
        (D.view chip.new)) }
    // Each column has its element of each source.
    ensures numbers { OnOk result (map (numbers n kinds.now (bases_from 0 n kinds.now))
        (below 2 (D.view chip.new).banks)
        ≡ map (sources_at generator.old n kinds.now) (range_with_len 0 elements)) }
    ensures writes { OnOk result (WritesMore (2 * source_row_count n kinds.now)
        (D.view chip.old).counters (D.view chip.new).counters) }
    ensures following { OnOk result (generator.new ≡ after_all generator.old kinds.now) }
    ensures failed { OnErr result (Rose (D.view chip.old).faults (D.view chip.new).faults) }
    ensures left { OnErr result (StoppedWithin 0 (source_writes generator.old 0 n kinds.now)
        (D.view chip.old).banks (D.view chip.new).banks) }
{
    let mut row = 0;
    for kind in kinds {
        let rows = rows_of(*kind, n);
        let values = draw(generator, rows);
        let mut stage = [0; STAGE_WORDS];
        write_object(chip, CHIP, row, rows, &values, &mut stage)?;
        row += u16::from(rows);
    }
    Ok(())
}
