//! The wordlines of the B addresses, as a table that no activation builds.

ghost use Rattle.std.specs.Prelude.{◌≡◌, ◌<◌, map};
ghost use Rattle.std.specs.List.{AllByRecursion};
ghost use Rattle.dram_model.specs.Column.{lines_of};
ghost use Rattle.dram_model.specs.declared.address.Addr.{Addr};
ghost use Rattle.dram_chip.specs.Rows.{IsWired};

use dram_model::{Cell, Line};

/// A wordline, and which row of a bank is its cell's.
#[derive(Clone, Copy)]
pub struct Wire {
    pub line: Line,
    pub row: usize,
}

const T0: Wire = Wire {
    line: Line {
        cell: Cell::T(0),
        inverted: false,
    },
    row: 2,
};

const T1: Wire = Wire {
    line: Line {
        cell: Cell::T(1),
        inverted: false,
    },
    row: 3,
};

const T2: Wire = Wire {
    line: Line {
        cell: Cell::T(2),
        inverted: false,
    },
    row: 4,
};

const T3: Wire = Wire {
    line: Line {
        cell: Cell::T(3),
        inverted: false,
    },
    row: 5,
};

const DCC0: Wire = Wire {
    line: Line {
        cell: Cell::Dcc(0),
        inverted: false,
    },
    row: 0,
};

const DCC1: Wire = Wire {
    line: Line {
        cell: Cell::Dcc(1),
        inverted: false,
    },
    row: 1,
};

const NOT_DCC0: Wire = Wire {
    line: Line {
        cell: Cell::Dcc(0),
        inverted: true,
    },
    row: 0,
};

const NOT_DCC1: Wire = Wire {
    line: Line {
        cell: Cell::Dcc(1),
        inverted: true,
    },
    row: 1,
};

/// The wordlines of B0 to B15.
static GROUPS: [&[Wire]; 16] = [
    &[T0],
    &[T1],
    &[T2],
    &[T3],
    &[DCC0],
    &[NOT_DCC0],
    &[DCC1],
    &[NOT_DCC1],
    &[NOT_DCC0, T0],
    &[NOT_DCC1, T1],
    &[T2, T3],
    &[T0, T3],
    &[T0, T1, T2],
    &[T1, T2, T3],
    &[DCC0, T1, T2],
    &[DCC1, T0, T3],
];

/// The wordlines that an address of the bitwise group raises.
#[inline(always)]
pub fn b_wires(k: u8) -> &'static [Wire]
    requires { k < 16 }
    ensures lines { map (λ w. w.line) result.now ≡ lines_of (Addr.B k) }
    ensures wired { AllByRecursion IsWired result.now }
{
    GROUPS[k as usize]
}
