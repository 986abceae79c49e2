//! The cells in which a state may stand from one body to the next.

ghost use Rattle.std.specs.Prelude.{◌≡◌, true};
ghost use Rattle.std.specs.List.{list_all};
ghost use Rattle.row_alloc.specs.Table.{is_kept};
ghost use Rattle.row_alloc.specs.Layouts.{layout as layout_of, is_layout};

use dram_model::{Cell, Line};

macro_rules! straight {
    ($cell:expr) => {
        Line {
            cell: $cell,
            inverted: false,
        }
    };
}

macro_rules! turned {
    ($cell:expr) => {
        Line {
            cell: $cell,
            inverted: true,
        }
    };
}

static T0: [Line; 1] = [straight!(Cell::T(0))];

static T1: [Line; 1] = [straight!(Cell::T(1))];

static T2: [Line; 1] = [straight!(Cell::T(2))];

static T3: [Line; 1] = [straight!(Cell::T(3))];

static T3_DCC1: [Line; 2] = [straight!(Cell::T(3)), straight!(Cell::Dcc(1))];

static T3_DCC1_TURNED: [Line; 2] = [turned!(Cell::T(3)), turned!(Cell::Dcc(1))];

static T3_DCC0: [Line; 2] = [straight!(Cell::T(3)), straight!(Cell::Dcc(0))];

static T3_DCC0_TURNED: [Line; 2] = [turned!(Cell::T(3)), turned!(Cell::Dcc(0))];

static T0_T1: [Line; 2] = [straight!(Cell::T(0)), straight!(Cell::T(1))];

static T0_NOT_DCC0: [Line; 2] = [straight!(Cell::T(0)), turned!(Cell::Dcc(0))];

static T3_NOT_T2: [Line; 2] = [straight!(Cell::T(3)), turned!(Cell::T(2))];

static DCC0: [Line; 1] = [straight!(Cell::Dcc(0))];

static DCC1: [Line; 1] = [straight!(Cell::Dcc(1))];

/// How many layouts there are.
pub const LAYOUT_COUNT: u8 = 13;

/// The wordlines that read a state in the layout of this number.
pub fn layout(k: u8) -> &'static [Line]
    requires { is_layout k ≡ true }
    ensures lines { result.now ≡ layout_of k }
    ensures kept { list_all (λ line. is_kept line.cell) result.now ≡ true }
{
    match k {
        0 => &T0,
        1 => &T1,
        2 => &T2,
        3 => &T3,
        4 => &T3_DCC1,
        5 => &T3_DCC1_TURNED,
        6 => &T3_DCC0,
        7 => &T3_DCC0_TURNED,
        8 => &T0_T1,
        9 => &T0_NOT_DCC0,
        10 => &T3_NOT_T2,
        11 => &DCC0,
        _ => &DCC1,
    }
}
