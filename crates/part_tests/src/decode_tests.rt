//! Bits and rows of them, the decode table, and the shapes that a chip may have.

use bit_rows::{Row, bit_of, majority};
use dram_model::{Addr, BadGeometry, Cell, Geometry, Line, legal_first, legal_second, lines};
use std::test::*;

fn line(cell: Cell, inverted: bool) -> Line {
    Line { cell, inverted }
}

#[test]
fn decode(rt: HostRuntime) {
    let t0 = line(Cell::T(0), false);
    let t1 = line(Cell::T(1), false);
    let t2 = line(Cell::T(2), false);
    let t3 = line(Cell::T(3), false);
    let d0 = line(Cell::Dcc(0), false);
    let n0 = line(Cell::Dcc(0), true);
    let d1 = line(Cell::Dcc(1), false);
    let n1 = line(Cell::Dcc(1), true);
    let table: [&[Line]; 16] = [
        &[t0],
        &[t1],
        &[t2],
        &[t3],
        &[d0],
        &[n0],
        &[d1],
        &[n1],
        &[n0, t0],
        &[n1, t1],
        &[t2, t3],
        &[t0, t3],
        &[t0, t1, t2],
        &[t1, t2, t3],
        &[d0, t1, t2],
        &[d1, t0, t3],
    ];
    for k in 0..16 {
        let a = Addr::B(k);
        assert!(rt; lines(a).as_slice() == table[k as usize]);
        assert!(rt; legal_first(a) == ![8, 9, 10, 11].contains(&k));
        assert!(rt; legal_second(a), "B{k}");
    }
    for k in 0..2 {
        let a = Addr::C(k);
        assert!(rt; lines(a).as_slice() == [line(Cell::C(k), false)].as_slice());
        assert!(rt; legal_first(a) && !legal_second(a), "C{k}");
    }
    let a = Addr::D(1005);
    assert!(rt; lines(a).as_slice() == [line(Cell::D(1005), false)].as_slice());
    assert!(rt; legal_first(a) && legal_second(a));
}

#[test]
fn bounds(rt: HostRuntime) {
    use BadGeometry::*;
    for (banks, rows, words, want) in [
        (0, 64, 1, Err(Banks)),
        (1, 64, 1, Ok(())),
        (16, 64, 1, Ok(())),
        (17, 64, 1, Err(Banks)),
        (1, 63, 1, Err(Rows)),
        (1, 1006, 1, Ok(())),
        (1, 1007, 1, Err(Rows)),
        (1, 64, 0, Err(Words)),
        (1, 64, 1024, Ok(())),
        (1, 64, 1025, Err(Words)),
        (16, 512, 1024, Ok(())),
        (16, 513, 1024, Err(Size)),
        (0, 0, 0, Err(Banks)),
        (1, 0, 0, Err(Rows)),
        (65535, 65535, 65535, Err(Banks)),
        (16, 65535, 65535, Err(Rows)),
        (16, 1006, 65535, Err(Words)),
    ] {
        let g = Geometry { banks, rows, words };
        assert!(rt; g.check() == want);
    }
}

#[test]
fn bits(rt: HostRuntime) {
    for (a, b, c, want) in [
        (false, false, false, false),
        (false, false, true, false),
        (false, true, false, false),
        (false, true, true, true),
        (true, false, false, false),
        (true, false, true, true),
        (true, true, false, true),
        (true, true, true, true),
    ] {
        assert!(rt; majority(a, b, c) == want);
    }
    let top: u128 = (1 << 127) + 1;
    for (k, want) in [
        (0, true),
        (1, false),
        (63, false),
        (126, false),
        (127, true),
    ] {
        assert!(rt; bit_of(top, k) == want);
    }
}

#[test]
fn rows(rt: HostRuntime) -> Result<(), Fail> {
    let mut row = Row::zeros(130, rt.alloc())?;
    row.set(0, true);
    row.set(63, true);
    row.set(65, true);
    row.set(129, true);
    row.set(63, false);
    let around = [
        row.get(0),
        row.get(1),
        row.get(62),
        row.get(63),
        row.get(64),
    ];
    assert!(rt; around == [true, false, false, false, false]);
    let following = [row.get(65), row.get(66), row.get(128), row.get(129)];
    assert!(rt; following == [true, false, false, true]);
    Ok(())
}
