//! Objects in the banks of a chip.

ghost use Rattle.std.specs.Prelude.{◌≡◌, ◌<◌, ◌^◌, All, true};

use bit_rows::Value;
use dram_chip::{Chip, Counters, Dram, Geometry};
use std::alloc::Global;
use std::test::Fail;
use transpose_unit::{read_block, read_column, read_segment, transpose64, write_object};

/// Banks of 64 columns.
const SMALL: Geometry = Geometry {
    banks: 2,
    rows: 64,
    words: 1,
};

/// More elements than the columns of one bank.
const ELEMENTS: [Value; 70] = [
    0, 1, 2, 3, 4, 5, 6, 7, 8, 9, 10, 11, 12, 13, 14, 15, 16, 17, 18, 19, 20, 21, 22, 23, 24, 25,
    26, 27, 28, 29, 30, 31, 0, 1, 2, 3, 4, 5, 6, 7, 8, 9, 10, 11, 12, 13, 14, 15, 16, 17, 18, 19,
    20, 21, 22, 23, 24, 25, 26, 27, 28, 29, 30, 31, 31, 1, 2, 16, 8, 21,
];

/// The rows that hold the elements, the lowest bit first.
const ELEMENT_ROWS: [[u64; 5]; 2] = [
    [
        0xaaaa_aaaa_aaaa_aaaa,
        0xcccc_cccc_cccc_cccc,
        0xf0f0_f0f0_f0f0_f0f0,
        0xff00_ff00_ff00_ff00,
        0xffff_0000_ffff_0000,
    ],
    [0x23, 0x05, 0x21, 0x11, 0x29],
];

/// Whether each value has at most 5 bits.
fn are_small(values: &[Value]) -> bool
    ensures { result ≡ true → All (λ v. v < 2 ^ 5) values.now }
{
    values.iter().all(|v| *v < 32)
}

#[test]
fn an_object_is_read_back(rt: HostRuntime) -> Result<(), Fail> {
    assert!(rt; are_small(&ELEMENTS));
    let mut chip = Chip::new(rt.alloc());
    chip.begin(SMALL)?;
    let mut stage = [u64::MAX; 64];
    write_object(&mut chip, SMALL, 7, 5, &ELEMENTS, &mut stage)?;
    let mut stages = [[0; 64]; 2];
    read_segment(&mut chip, SMALL, 0, 7, 5, &mut stages[0])?;
    read_segment(&mut chip, SMALL, 1, 7, 5, &mut stages[1])?;
    for e in 0..128usize {
        let number = read_column(&stages[e / 64], 5, (e % 64) as u32);
        let want = ELEMENTS.get(e).copied().unwrap_or(0);
        assert!(rt; number == want);
    }
    let counters = Counters {
        aap: 0,
        ap: 0,
        writes: 10,
        reads: 10,
    };
    assert!(rt; chip.tally() == counters);
    Ok(())
}

/// The word of a row that was all ones before the object was written to rows 7 to 11.
fn row_after_object(values: &[Value; 70], bank: u16, row: u16, alloc: Global) -> Result<u64, Fail>
    requires small { All (λ v. v < 2 ^ 5) values.now }
    requires bank { bank < 2 }
    requires row { row < 64 }
{
    let mut chip = Chip::new(alloc);
    chip.begin(SMALL)?;
    chip.write_row(bank, row, &[u64::MAX])?;
    let mut stage = [0; 64];
    write_object(&mut chip, SMALL, 7, 5, values, &mut stage)?;
    let mut word = [0; 1];
    chip.read_row(bank, row, &mut word)?;
    Ok(word[0])
}

#[test]
fn an_object_takes_its_rows(rt: HostRuntime) -> Result<(), Fail> {
    assert!(rt; are_small(&ELEMENTS));
    for bank in 0..2u16 {
        for row in 0..64u16 {
            let word = row_after_object(&ELEMENTS, bank, row, rt.alloc())?;
            let want = if 7 <= row && row < 12 {
                ELEMENT_ROWS[bank as usize][row as usize - 7]
            } else {
                u64::MAX
            };
            assert!(rt; word == want);
        }
    }
    Ok(())
}

#[test]
fn blocks_are_transposed(rt: HostRuntime) {
    let mut powers = [0; 64];
    for i in 0..64 {
        powers[i] = 1 << i;
    }
    let same = powers;
    transpose64(&mut powers);
    assert!(rt; powers == same);
    let mut ones = [0; 64];
    ones[0] = u64::MAX;
    transpose64(&mut ones);
    assert!(rt; ones == [1; 64]);
}

#[test]
fn columns_of_a_stage_are_read(rt: HostRuntime) {
    let mut stage = [0; 128];
    stage[1] = 0x8000_0000_0000_0001;
    stage[2] = 1;
    stage[5] = 1;
    assert!(rt; read_column(&stage, 3, 0) == 2);
    assert!(rt; read_column(&stage, 3, 64) == 5);
    assert!(rt; read_column(&stage, 3, 127) == 1);
    assert!(rt; read_column(&stage, 3, 126) == 0);
    let mut tall = [0; 128];
    tall[0] = 2;
    tall[64] = 2;
    tall[127] = 2;
    assert!(rt; read_column(&tall, 128, 1) == (1 << 127) + (1 << 64) + 1);
    assert!(rt; read_column(&tall, 65, 1) == (1 << 64) + 1);
}

// Row 3 is past the width.
#[test]
fn blocks_of_a_stage_are_read(rt: HostRuntime) {
    let mut stage = [0; 128];
    stage[1] = 0x8000_0000_0000_0001;
    stage[2] = 1;
    stage[5] = 1;
    stage[7] = u64::MAX;
    let first = read_block(&stage, 3, 0);
    assert!(rt; (first[0], first[1], first[63]) == (2, 0, 0));
    let second = read_block(&stage, 3, 1);
    assert!(rt; (second[0], second[62], second[63]) == (5, 0, 1));
    let mut tall = [0; 128];
    tall[0] = 2;
    tall[64] = 2;
    tall[127] = 2;
    let whole = read_block(&tall, 128, 0);
    assert!(rt; whole[1] == (1 << 127) + (1 << 64) + 1);
    let short = read_block(&tall, 65, 0);
    assert!(rt; short[1] == (1 << 64) + 1);
}
