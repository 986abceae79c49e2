//! Whether two lists of commands leave the same results under many assignments.

use crate::change::Cmd;
use crate::draws::Draws;
use crate::names::{Names, Raised};
use crate::samples::{Page, Samples, fixed_of};
use crate::value::{UNKNOWN, Value};
use faults::NoMemory;
use std::alloc::Global;

/// The most assignments that are remembered of one comparison.
const MOST_FAILED: u32 = 20;

/// The cells under 64 assignments.
struct Column {
    cells: [Value; 128],
}

impl Drop for Column {
    fn drop(self) {
        let Column { cells: _ } = self;
    }
}

impl Column {
    /// What a cell gives through its wire.
    #[inline(always)]
    fn read(&self, wire: u8) -> Value {
        self.cells[usize::from(wire / 2)].flipped(wire % 2 == 1)
    }

    /// What an address senses.
    #[inline(always)]
    fn sense(&self, raised: &Raised, fixed: &[Value]) -> Value {
        let [a, b, c] = raised.wires;
        match raised.count {
            0 => match fixed.get(usize::from(raised.fixed / 2)) {
                Some(value) => value.flipped(raised.fixed % 2 == 1),
                None => UNKNOWN,
            },
            1 => self.read(a),
            _ => Value::majority(self.read(a), self.read(b), self.read(c)),
        }
    }

    /// The cells that an address raises take a value.
    #[inline(always)]
    fn put(&mut self, raised: &Raised, value: Value) {
        if raised.count != 0 {
            for wire in raised.wires {
                self.cells[usize::from(wire / 2)] = value.flipped(wire % 2 == 1);
            }
        }
    }

    /// Does the commands.
    fn run(&mut self, names: &Names, cmds: &[Cmd], fixed: &[Value]) {
        for cmd in cmds {
            let first = names.raised(cmd.x);
            let value = self.sense(first, fixed);
            if first.count == 3 {
                self.put(first, value);
            }
            self.put(names.raised(cmd.y), value);
        }
    }
}

/// The column after the commands, from one of which nothing is known.
fn after(names: &Names, cmds: &[Cmd], fixed: &[Value]) -> Column {
    let mut column = Column {
        cells: [UNKNOWN; 128],
    };
    column.run(names, cmds, fixed);
    column
}

/// The assignments of a page under which some result is not the same.
fn difference(
    names: &Names,
    (first, second): (&[Cmd], &[Cmd]),
    page: &Page,
    alloc: Global,
) -> Result<u64, NoMemory> {
    let fixed = fixed_of(page, names.sources(), alloc)?;
    let (first, second) = (after(names, first, &fixed), after(names, second, &fixed));
    let results = names.result_cells();
    let mut differ = 0u64;
    for cell in 0..128usize {
        if results >> cell & 1 == 1 {
            differ |= first.cells[cell].difference(second.cells[cell]);
        }
    }
    Ok(differ)
}

/// Remembers some of these assignments of a page.
fn remember(samples: &mut Samples, page: &Page, assignments: u64) -> Result<(), NoMemory> {
    let mut left = assignments;
    for _ in 0..MOST_FAILED {
        if left == 0 {
            break;
        }
        samples.remember(page[left.trailing_zeros() as usize % 64])?;
        left &= left.wrapping_sub(1);
    }
    Ok(())
}

/// Whether both leave the same results. Some assignments under which they do not are remembered.
pub fn agree(
    names: &Names,
    both: (&[Cmd], &[Cmd]),
    samples: &mut Samples,
    draws: &mut Draws,
    alloc: Global,
) -> Result<bool, NoMemory> {
    for number in 0..samples.compared() {
        let page = samples.page(number, draws);
        let differ = difference(names, both, &page, alloc)?;
        if differ != 0 {
            remember(samples, &page, differ)?;
            return Ok(false);
        }
    }
    Ok(true)
}
