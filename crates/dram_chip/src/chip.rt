//! A chip that keeps the words of its banks.

ghost use Rattle.std.specs.Prelude.{◌≡◌, IfOk};
ghost use Rattle.dram_model.specs.declared.geometry.Geometry.{Geometry};
ghost use Rattle.dram_model.specs.Chip.{blank_banks};
ghost use Rattle.dram_model.specs.View.{NotBegun};
ghost use Rattle.dram_chip.specs.ChipRows.{HasBanks, banks_in};

use crate::bank::Bank;
use dram_model::{Addr, BeginNo, ChipFault, Counters, Dram, Geometry};
use faults::{NoMemory, keep};
use std::alloc::Global;

/// A chip that never fails: its count of faults is 0. It keeps every shape that passes
/// `Geometry::check`, and tells no log. `begin` takes the memory of its rows, and no other call
/// takes any.
#[derive(Drop)]
pub struct Chip {
    alloc: Global,
    geometry: Geometry,
    pub(crate) begun: bool,
    banks: Vec<Bank>,
    counters: Counters,
}

const NO_COUNTS: Counters = Counters {
    aap: 0,
    ap: 0,
    writes: 0,
    reads: 0,
};

impl Chip {
    /// A chip that has not begun. It takes no memory.
    pub fn new(alloc: Global) -> Chip
        ensures unbegun { NotBegun (⟦<Chip as Dram>⟧.view result) }
        ensures faults { (⟦<Chip as Dram>⟧.view result).faults ≡ 0 }
    {
        Chip {
            alloc,
            geometry: Geometry {
                banks: 0,
                rows: 0,
                words: 0,
            },
            begun: false,
            banks: Vec::new(alloc),
            counters: NO_COUNTS,
        }
    }
}

/// The banks of a geometry, with zeros.
fn make_banks(g: Geometry, alloc: Global) -> Result<Vec<Bank>, NoMemory>
    ensures banks { IfOk result (λ banks. HasBanks g banks.items) }
    ensures blank { IfOk result (λ banks. banks_in banks.items ≡ blank_banks g) }
{
    let mut banks = Vec::new(alloc);
    for _i in 0..g.banks {
        keep(&mut banks, Bank::new(g.rows, g.words, alloc)?)?;
    }
    Ok(banks)
}

impl Dram for Chip {
    ghost use Rattle.std.specs.Prelude.{[]};
    ghost use Rattle.dram_chip.specs.Seen.{chip_view};
    ghost use Rattle.dram_chip.specs.ChipWidth.{chip_shape, chip_width};

    ghost view = { chip_view };

    ghost borrow = { λ s. [] };

    ghost width = { chip_width };

    ghost shape = { chip_shape };

    fn begin(&mut self, g: Geometry) -> Result<(), BeginNo> {
        self.begun = false;
        match make_banks(g, self.alloc) {
            Ok(banks) => {
                self.geometry = g;
                self.banks = banks;
                self.counters = NO_COUNTS;
                self.begun = true;
                Ok(())
            }
            Err(_e) => Err(BeginNo::NoMemory),
        }
    }

    #[inline(always)]
    fn aap(&mut self, bank: u16, x: Addr, y: Addr) -> Result<(), ChipFault> {
        self.banks[bank as usize].aap(x, y);
        self.counters.aap += 1;
        Ok(())
    }

    #[inline(always)]
    fn ap(&mut self, bank: u16, x: Addr) -> Result<(), ChipFault> {
        self.banks[bank as usize].ap(x);
        self.counters.ap += 1;
        Ok(())
    }

    fn write_row(&mut self, bank: u16, row: u16, words: &[u64]) -> Result<(), ChipFault> {
        self.banks[bank as usize].write(row, words);
        self.counters.writes += 1;
        Ok(())
    }

    fn read_row(&mut self, bank: u16, row: u16, out: &mut [u64]) -> Result<(), ChipFault> {
        self.banks[bank as usize].read(row, out);
        self.counters.reads += 1;
        Ok(())
    }

    fn geometry(&self) -> Geometry {
        self.geometry
    }

    fn tally(&self) -> Counters {
        self.counters
    }
}
