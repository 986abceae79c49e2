//! Microprograms: their files, and their runs on the rows of a bank.

ghost use Rattle.std.specs.Prelude.{◌≡◌, ◌<◌, IfOk};
ghost use Rattle.uprog_code.specs.Shape.{shape_of, microprograms_of};
ghost use Rattle.uprog_code.specs.Machine.{HasEnded, trace};
ghost use Rattle.uprog_code.specs.Legal.{IsLegalCode};
ghost use Rattle.uprog_code.specs.Fits.{Fits};
ghost use Rattle.uprog_code.specs.Bound.{bound_of};
ghost use Rattle.uprog_code.specs.Programs.{IsProgram};
ghost use Rattle.part_tests.specs.Xor.{xor_shape, xor_code};
ghost use Rattle.part_tests.specs.Dup.{dup_shape, dup_code};

use arrayvec::ArrayVec;
use dram_chip::{Chip, Counters, Dram, Geometry};
use std::alloc::Global;
use std::test::Fail;
use text_lex::Name;
use uprog_bin::encode;
use uprog_code::{Binding, EntryCode, Head, Kind, Program, RowRef, RowSpace, Uop};
use uprog_ctl::run;

/// Banks of 64 columns.
pub(crate) const SMALL: Geometry = Geometry {
    banks: 2,
    rows: 64,
    words: 1,
};

/// The program file of the operation `xor` on words, straight code for width 1.
const XOR_BYTES: [u8; 99] = [
    0x53, 0x44, 0x4D, 0x50, 0x02, 0x00, 0x01, 0x00, // magic, version 2, one entry
    0x03, 0x78, 0x6F, 0x72, 0, 0, 0, 0, 0, 0, 0, 0, 0, 0, 0, 0, 0, // xor
    0x02, 0x13, 0x00, 0x00, 0x00, 0x00, 0x00, 0x00, 0x08, 0x00, // two words, no scratch
    0x09, 0x03, 0x00, 0x08, 0x00, 0x08, 0x00, 0x00, // AAP s0[0] B8
    0x09, 0x03, 0x01, 0x08, 0x00, 0x09, 0x00, 0x00, // AAP s1[0] B9
    0x09, 0x01, 0x00, 0x00, 0x00, 0x0A, 0x00, 0x00, // AAP C0 B10
    0x0A, 0x00, 0x0E, 0x00, 0x00, 0x00, 0x00, 0x00, // AP B14
    0x0A, 0x00, 0x0F, 0x00, 0x00, 0x00, 0x00, 0x00, // AP B15
    0x09, 0x01, 0x01, 0x00, 0x00, 0x02, 0x00, 0x00, // AAP C1 B2
    0x09, 0x00, 0x0C, 0x00, 0x02, 0x00, 0x08, 0x00, // AAP B12 y[0]
    0x00, 0x00, 0x00, 0x00, 0x00, 0x00, 0x00, 0x00, // DONE
];

/// The program file of `dup`, whose two results are its source, for width 1.
const DUP_BYTES: [u8; 67] = [
    0x53, 0x44, 0x4D, 0x50, 0x02, 0x00, 0x01, 0x00, // magic, version 2, one entry
    0x03, 0x64, 0x75, 0x70, 0, 0, 0, 0, 0, 0, 0, 0, 0, 0, 0, 0, 0, // dup
    0x01, 0x71, 0x00, 0x00, 0x00, 0x00, 0x00, 0x00, 0x04, 0x00, // a word into two words
    0x09, 0x03, 0x00, 0x08, 0x00, 0x00, 0x00, 0x00, // AAP s0[0] B0
    0x09, 0x00, 0x00, 0x00, 0x02, 0x00, 0x08, 0x00, // AAP B0 y[0]
    0x09, 0x00, 0x00, 0x00, 0x02, 0x01, 0x08, 0x00, // AAP B0 z[0]
    0x00, 0x00, 0x00, 0x00, 0x00, 0x00, 0x00, 0x00, // DONE
];

fn row(space: RowSpace, which: u8, index: u8) -> RowRef
    ensures { result ≡ record { space = space; which = which; index = index } }
{
    RowRef {
        space,
        which,
        index,
    }
}

fn xor_code() -> [Uop; 8]
    ensures { result ≡ xor_code }
{
    [
        Uop::Aap(row(RowSpace::Source, 0, 8), row(RowSpace::B, 8, 0)),
        Uop::Aap(row(RowSpace::Source, 1, 8), row(RowSpace::B, 9, 0)),
        Uop::Aap(row(RowSpace::C, 0, 0), row(RowSpace::B, 10, 0)),
        Uop::Ap(row(RowSpace::B, 14, 0)),
        Uop::Ap(row(RowSpace::B, 15, 0)),
        Uop::Aap(row(RowSpace::C, 1, 0), row(RowSpace::B, 2, 0)),
        Uop::Aap(row(RowSpace::B, 12, 0), row(RowSpace::Result, 0, 8)),
        Uop::Done,
    ]
}

pub(crate) fn xor_entry(alloc: Global) -> Result<EntryCode, Fail>
    ensures shape { IfOk result (λ e. shape_of e.head ≡ xor_shape) }
    ensures code { IfOk result (λ e. e.code.items ≡ xor_code) }
{
    let mut sources = ArrayVec::new();
    sources.push(Kind::Word);
    sources.push(Kind::Word);
    let head = Head {
        name: Name::new(b"xor").ok_or("a name")?,
        sources,
        result: Kind::Word,
        second: None,
        bits: 0,
        words: 0,
    };
    Ok(EntryCode {
        head,
        code: xor_code().to_vec(alloc)?,
    })
}

#[tactic(auto, using(crate::proofs::Xor::xor_is_legal))]
fn xor_program(alloc: Global) -> Result<Program, Fail>
    ensures { IfOk result (λ p. IsProgram (microprograms_of p)) }
{
    let entries = [xor_entry(alloc)?];
    Ok(Program {
        entries: Vec::from_array(alloc, entries)?,
    })
}

#[test]
fn a_program_is_its_file(rt: HostRuntime) -> Result<(), Fail> {
    let program = xor_program(rt.alloc())?;
    let file = encode(&program, rt.alloc()).ok().ok_or("there is memory")?;
    assert!(rt; file.as_slice() == XOR_BYTES.as_slice());
    Ok(())
}

/// Width 1, the sources in rows 0 and 1, and the result in row 2.
fn xor_binding() -> Binding
    ensures width { result.n ≡ 1 }
    ensures fits { Fits 64 xor_shape 1 (bound_of result) }
{
    let mut sources = ArrayVec::new();
    sources.push(0);
    sources.push(1);
    Binding {
        n: 1,
        result: 2,
        second: None,
        sources,
        scratch: 3,
    }
}

/// The operation `dup`, whose two results are its source.
fn dup_entry(alloc: Global) -> Result<EntryCode, Fail>
    ensures shape { IfOk result (λ e. shape_of e.head ≡ dup_shape) }
    ensures code { IfOk result (λ e. e.code.items ≡ dup_code) }
{
    let mut sources = ArrayVec::new();
    sources.push(Kind::Word);
    let head = Head {
        name: Name::new(b"dup").ok_or("a name")?,
        sources,
        result: Kind::Word,
        second: Some(Kind::Word),
        bits: 0,
        words: 0,
    };
    let code = [
        Uop::Aap(row(RowSpace::Source, 0, 8), row(RowSpace::B, 0, 0)),
        Uop::Aap(row(RowSpace::B, 0, 0), row(RowSpace::Result, 0, 8)),
        Uop::Aap(row(RowSpace::B, 0, 0), row(RowSpace::Result, 1, 8)),
        Uop::Done,
    ];
    Ok(EntryCode {
        head,
        code: code.to_vec(alloc)?,
    })
}

/// The program of `dup`.
#[tactic(auto, using(crate::proofs::Dup::dup_is_legal))]
fn dup_program(alloc: Global) -> Result<Program, Fail>
    ensures { IfOk result (λ p. IsProgram (microprograms_of p)) }
{
    let entries = [dup_entry(alloc)?];
    Ok(Program {
        entries: Vec::from_array(alloc, entries)?,
    })
}

#[test]
fn a_program_of_two_results_is_its_file(rt: HostRuntime) -> Result<(), Fail> {
    let program = dup_program(rt.alloc())?;
    let file = encode(&program, rt.alloc()).ok().ok_or("there is memory")?;
    assert!(rt; file.as_slice() == DUP_BYTES.as_slice());
    Ok(())
}

/// Width 1, the source in row 0, and the results in rows 1 and 2.
fn dup_binding() -> Binding
    ensures width { result.n ≡ 1 }
    ensures fits { Fits 64 dup_shape 1 (bound_of result) }
{
    let mut sources = ArrayVec::new();
    sources.push(0);
    Binding {
        n: 1,
        result: 1,
        second: Some(2),
        sources,
        scratch: 3,
    }
}

/// The word of a row after a run on bank 1, and the counters. The row was all ones before, and rows
/// 0 and 1 of bank 1 were these.
fn word_after(
    entry: &EntryCode,
    binding: &Binding,
    rows: [u64; 2],
    bank: u16,
    row: u16,
    alloc: Global,
) -> Result<(u64, Counters), Fail>
    requires legal { IsLegalCode (shape_of entry.now.head) entry.now.code.items }
    requires width { binding.now.n ≡ 1 }
    requires fits { Fits 64 (shape_of entry.now.head) 1 (bound_of binding.now) }
    requires ends { HasEnded (trace (shape_of entry.now.head) entry.now.code.items 1) }
    requires bank { bank < 2 }
    requires row { row < 64 }
{
    let mut chip = Chip::new(alloc);
    chip.begin(SMALL)?;
    chip.write_row(bank, row, &[u64::MAX])?;
    chip.write_row(1, 0, &[rows[0]])?;
    chip.write_row(1, 1, &[rows[1]])?;
    run(&mut chip, 1, entry, binding)?;
    let mut word = [0; 1];
    chip.read_row(bank, row, &mut word)?;
    Ok((word[0], chip.tally()))
}

const A: u64 = 0x0123_4567_89ab_cdef;

const B: u64 = 0xfedc_ba98_0f0f_3355;

/// The rows below the spill group.
#[test]
#[tactic(auto, using(crate::proofs::Xor::xor_is_legal, crate::proofs::Xor::xor_ends))]
fn xor_is_run(rt: HostRuntime) -> Result<(), Fail> {
    let entry = xor_entry(rt.alloc())?;
    let binding = xor_binding();
    let counters = Counters {
        aap: 5,
        ap: 2,
        writes: 3,
        reads: 1,
    };
    for bank in 0..2u16 {
        for row in 0..32u16 {
            let want = match (bank, row) {
                (1, 0) => A,
                (1, 1) => B,
                (1, 2) => 0xffff_ffff_86a4_feba,
                _ => u64::MAX,
            };
            let (word, tally) = word_after(&entry, &binding, [A, B], bank, row, rt.alloc())?;
            assert!(rt; word == want);
            assert!(rt; tally == counters);
        }
    }
    Ok(())
}

/// An entry with two results.
#[test]
#[tactic(auto, using(crate::proofs::Dup::dup_is_legal, crate::proofs::Dup::dup_ends))]
fn dup_is_run(rt: HostRuntime) -> Result<(), Fail> {
    let entry = dup_entry(rt.alloc())?;
    let binding = dup_binding();
    let counters = Counters {
        aap: 3,
        ap: 0,
        writes: 3,
        reads: 1,
    };
    for bank in 0..2u16 {
        for row in 0..32u16 {
            let want = if bank == 1 && row < 3 { 0x0C } else { u64::MAX };
            let (word, tally) = word_after(&entry, &binding, [0x0C, B], bank, row, rt.alloc())?;
            assert!(rt; word == want);
            assert!(rt; tally == counters);
        }
    }
    Ok(())
}
