//! The listing of a program.

ghost use Rattle.std.specs.Prelude.{◌≡◌, ℕ, List, ◌++◌, OnOk, IfOk};
ghost use Rattle.uprog_code.specs.declared.code.Uop.{Uop};
ghost use Rattle.uprog_code.specs.Legal.{IsLegalCode};
ghost use Rattle.uprog_code.specs.Shape.{shape_of};
ghost use Rattle.prog_text.specs.Listing.{code_lines, entry_line, entry_text, listing};
ghost use Rattle.prog_text.specs.Listing.{index_text, number_operand, position_text};
ghost use Rattle.prog_text.specs.Listing.{register_operand, results_text, row_operand, shape_text};
ghost use Rattle.prog_text.specs.Listing.{uop_line, uop_text, value_text};

use crate::pieces::{put, put_number};
use faults::NoMemory;
use std::alloc::Global;
use uprog_bin::ProgView;
use uprog_code::{Fetch, Head, RowRef, RowSpace, Uop};

/// Appends the value that a row belongs to.
fn put_value(out: &mut Vec<u8>, space: RowSpace, which: u8) -> Result<(), NoMemory>
    ensures { OnOk result (out.new.items ≡ out.old.items ++ value_text space which) }
{
    let letter: &[u8] = match space {
        RowSpace::Result => return put(out, if which == 0 { b"y" } else { b"z" }),
        RowSpace::B => b"B",
        RowSpace::C => b"C",
        RowSpace::Source => b"s",
        RowSpace::ScratchBit => b"t",
        RowSpace::ScratchWord => b"w",
        RowSpace::Spill => b"p",
    };
    put_number(out, letter, u64::from(which))
}

/// Appends the register of a position.
fn put_index(out: &mut Vec<u8>, index: u8) -> Result<(), NoMemory>
    ensures { OnOk result (out.new.items ≡ out.old.items ++ index_text index) }
{
    if index == 8 {
        return put(out, b"[0]");
    }
    put_number(out, b"[r", u64::from(index))?;
    put(out, b"]")
}

/// Appends the position in the value, where it has positions.
fn put_position(out: &mut Vec<u8>, space: RowSpace, index: u8) -> Result<(), NoMemory>
    ensures { OnOk result (out.new.items ≡ out.old.items ++ position_text space index) }
{
    match space {
        RowSpace::Result | RowSpace::Source | RowSpace::ScratchWord => put_index(out, index),
        RowSpace::B | RowSpace::C | RowSpace::ScratchBit | RowSpace::Spill => Ok(()),
    }
}

/// Appends a row after a blank.
fn put_row(out: &mut Vec<u8>, row: &RowRef) -> Result<(), NoMemory>
    ensures { OnOk result (out.new.items ≡ out.old.items ++ row_operand row.now) }
{
    put(out, b" ")?;
    put_value(out, row.space, row.which)?;
    put_position(out, row.space, row.index)
}

/// Appends a word with a register.
fn put_register(out: &mut Vec<u8>, word: &[u8], r: u8) -> Result<(), NoMemory>
    ensures { OnOk result (out.new.items ≡ out.old.items ++ (word.now ++ register_operand r)) }
{
    put(out, word)?;
    put_number(out, b" r", u64::from(r))
}

/// Appends a word with a register and a number.
fn put_with_number(out: &mut Vec<u8>, word: &[u8], r: u8, k: u16) -> Result<(), NoMemory>
    ensures { OnOk result (out.new.items ≡ out.old.items
        ++ (word.now ++ register_operand r ++ number_operand k)) }
{
    put_register(out, word, r)?;
    put_number(out, b" ", u64::from(k))
}

/// Appends a word with two registers.
fn put_registers(out: &mut Vec<u8>, word: &[u8], r: u8, s: u8) -> Result<(), NoMemory>
    ensures { OnOk result (out.new.items ≡ out.old.items
        ++ (word.now ++ register_operand r ++ register_operand s)) }
{
    put_register(out, word, r)?;
    put_number(out, b" r", u64::from(s))
}

/// Appends an instruction.
fn put_uop(out: &mut Vec<u8>, uop: &Uop) -> Result<(), NoMemory>
    ensures { OnOk result (out.new.items ≡ out.old.items ++ uop_text uop.now) }
{
    match uop {
        Uop::Done => put(out, b"DONE"),
        Uop::SetI(r, k) => put_with_number(out, b"SETI", *r, *k),
        Uop::SetN(r) => put_register(out, b"SETN", *r),
        Uop::SetT(r) => put_register(out, b"SETT", *r),
        Uop::Mov(r, s) => put_registers(out, b"MOV", *r, *s),
        Uop::Add(r, s) => put_registers(out, b"ADD", *r, *s),
        Uop::AddI(r, k) => put_with_number(out, b"ADDI", *r, *k),
        Uop::SubI(r, k) => put_with_number(out, b"SUBI", *r, *k),
        Uop::Bnez(r, target) => put_with_number(out, b"BNEZ", *r, *target),
        Uop::Aap(x, y) => {
            put(out, b"AAP")?;
            put_row(out, x)?;
            put_row(out, y)
        }
        Uop::Ap(x) => {
            put(out, b"AP")?;
            put_row(out, x)
        }
    }
}

/// Appends the line of an instruction.
fn put_line(out: &mut Vec<u8>, place: u16, uop: &Uop) -> Result<(), NoMemory>
    ensures { OnOk result (out.new.items ≡ out.old.items ++ uop_line place uop.now) }
{
    put_number(out, b"", u64::from(place))?;
    put(out, b" ")?;
    put_uop(out, uop)?;
    put(out, b"\n")
}

/// Appends what an entry takes and needs.
fn put_shape(out: &mut Vec<u8>, head: &Head) -> Result<(), NoMemory>
    ensures { OnOk result (out.new.items ≡ out.old.items ++ shape_text (shape_of head.now)) }
{
    put_number(out, b" sources=", head.sources.len() as u64)?;
    put_number(out, b" bits=", u64::from(head.bits))?;
    put_number(out, b" words=", u64::from(head.words))
}

/// Appends that there are two results, where there are.
fn put_results(out: &mut Vec<u8>, head: &Head) -> Result<(), NoMemory>
    ensures { OnOk result (out.new.items ≡ out.old.items
        ++ results_text (shape_of head.now).second) }
{
    match head.second {
        None => Ok(()),
        Some(_) => put(out, b" results=2"),
    }
}

/// Appends the line of an entry.
fn put_entry_line<F: Fetch>(out: &mut Vec<u8>, entry: &F) -> Result<(), NoMemory>
    requires { IsLegalCode (F.shape entry.now) (F.code entry.now) }
    ensures { OnOk result (out.new.items ≡ out.old.items ++ entry_line (record {
      name = F.name entry.now;
      shape = F.shape entry.now;
      code = F.code entry.now;
    })) }
{
    let head = entry.head();
    put(out, b"entry ")?;
    put(out, head.name.bytes())?;
    put_shape(out, &head)?;
    put_number(out, b" code=", u64::from(entry.len()))?;
    put_results(out, &head)?;
    put(out, b"\n")
}

/// Appends the lines of an entry's instructions.
fn put_code<F: Fetch>(out: &mut Vec<u8>, entry: &F) -> Result<(), NoMemory>
    requires { IsLegalCode (F.shape entry.now) (F.code entry.now) }
    ensures { OnOk result (out.new.items ≡ out.old.items ++ code_lines 0 (F.code entry.now)) }
{
    for place in 0..entry.len() {
        put_line(out, place, &entry.fetch(place))?;
    }
    Ok(())
}

/// The listing of an accepted program file: each entry, with its instructions.
pub fn list_text(prog: &ProgView<'_>, alloc: Global) -> Result<Vec<u8>, NoMemory>
    ensures { IfOk result (λ text. text.items ≡ listing prog.now.programs) }
{
    let mut out = Vec::new(alloc);
    for k in 0..prog.entries() {
        let entry = prog.entry(k);
        put_entry_line(&mut out, &entry)?;
        put_code(&mut out, &entry)?;
    }
    Ok(out)
}
