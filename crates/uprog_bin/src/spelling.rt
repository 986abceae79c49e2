//! The program file, written.

ghost use Rattle.std.specs.Prelude.{◌≡◌, ◌+◌, ◌<◌, ◌≤◌, ◌^◌, ◌∷◌, [], ◌++◌, length, map, replicate};
ghost use Rattle.std.specs.Prelude.{All, OnOk, IfOk};
ghost use Rattle.std.specs.List.{flat_map};
ghost use Rattle.std.specs.Int.{w16, to_le_bytes};
ghost use Rattle.arrayvec.specs.ArrayVec.{array_vec_len};
ghost use Rattle.uprog_code.specs.Shape.{microprogram_of, microprograms_of};
ghost use Rattle.uprog_bin.specs.Spelling.{row_bytes, instruction_bytes, kind_bits, result_bit};
ghost use Rattle.uprog_bin.specs.Spelling.{second_bits, kinds_byte, head_bytes, directory_bytes};
ghost use Rattle.uprog_bin.specs.Spelling.{code_bytes, program_bytes, zeros};
ghost use Rattle.uprog_code.specs.Programs.{IsProgram};
ghost use Rattle.file_fields.specs.Fields.{name_bytes};

use crate::opcode::number_of;
use faults::NoMemory;
use file_fields::name_field;
use std::alloc::Global;
use uprog_code::{EntryCode, Head, Kind, Program, RowRef, Uop};

/// A bit for each source that is a word, the first the lowest.
#[tactic(auto, using(crate::proofs::KindBits::kind_bits_small))]
fn bits_of(kinds: &[Kind]) -> u8
    requires { length kinds.now ≤ 4 }
    ensures { result ≡ kind_bits kinds.now }
{
    match kinds {
        [] => 0,
        [Kind::Word, rest @ ..] => 2 * bits_of(rest) + 1,
        [Kind::Bit, rest @ ..] => 2 * bits_of(rest),
    }
}

/// The results' bits in the byte of kinds.
fn results_bits(head: &Head) -> u8
    ensures value { result ≡ result_bit head.now.result + second_bits head.now.second }
    ensures few { result ≤ 112 }
{
    let first = match head.result {
        Kind::Word => 16,
        Kind::Bit => 0,
    };
    let second = match head.second {
        None => 0,
        Some(Kind::Bit) => 32,
        Some(Kind::Word) => 96,
    };
    first + second
}

/// Appends what stands in the directory for an entry whose code begins at this instruction.
#[tactic(auto, using(crate::proofs::KindBits::kind_bits_small))]
fn put_head(out: &mut Vec<u8>, start: u32, entry: &EntryCode) -> Result<(), NoMemory>
    requires { length entry.now.code.items < 2 ^ 16 }
    ensures { OnOk result (out.new.items ≡ out.old.items
        ++ head_bytes start (microprogram_of entry.now)) }
{
    let head = &entry.head;
    out.extend_from_slice(&name_field(&head.name))?;
    let sources = head.sources.as_slice();
    let shape = [
        sources.len() as u8,
        bits_of(sources) + results_bits(head),
        head.bits,
        head.words,
    ];
    out.extend_from_slice(&shape)?;
    out.extend_from_slice(&start.to_le_bytes())?;
    out.extend_from_slice(&(entry.code.len() as u16).to_le_bytes())?;
    Ok(())
}

/// An instruction with a register and a number.
fn with_number(opcode: u8, r: u8, k: u16) -> [u8; 8]
    ensures { result ≡ opcode ∷ r ∷ (to_le_bytes w16 k ++ zeros 4) }
{
    let k = k.to_le_bytes();
    [opcode, r, k[0], k[1], 0, 0, 0, 0]
}

/// An instruction with two registers or one, where the second is 0.
fn with_registers(opcode: u8, r: u8, s: u8) -> [u8; 8]
    ensures { result ≡ opcode ∷ r ∷ s ∷ zeros 5 }
{
    [opcode, r, s, 0, 0, 0, 0, 0]
}

fn row_of(row: &RowRef) -> [u8; 3]
    ensures { result ≡ row_bytes row.now }
{
    [number_of(row.space), row.which, row.index]
}

/// The eight bytes of an instruction.
pub(crate) fn bytes_of(uop: &Uop) -> [u8; 8]
    ensures { result ≡ instruction_bytes uop.now }
{
    match uop {
        Uop::Done => [0; 8],
        Uop::SetI(r, k) => with_number(1, *r, *k),
        Uop::SetN(r) => with_registers(2, *r, 0),
        Uop::SetT(r) => with_registers(3, *r, 0),
        Uop::Mov(r, s) => with_registers(4, *r, *s),
        Uop::Add(r, s) => with_registers(5, *r, *s),
        Uop::AddI(r, k) => with_number(6, *r, *k),
        Uop::SubI(r, k) => with_number(7, *r, *k),
        Uop::Bnez(r, target) => with_number(8, *r, *target),
        Uop::Aap(x, y) => {
            let (x, y) = (row_of(x), row_of(y));
            [9, x[0], x[1], x[2], y[0], y[1], y[2], 0]
        }
        Uop::Ap(x) => {
            let x = row_of(x);
            [10, x[0], x[1], x[2], 0, 0, 0, 0]
        }
    }
}

/// Appends the instructions.
fn put_code(out: &mut Vec<u8>, code: &[Uop]) -> Result<(), NoMemory>
    ensures { OnOk result (out.new.items ≡ out.old.items ++ flat_map instruction_bytes code.now) }
{
    for uop in code {
        out.extend_from_slice(&bytes_of(uop))?;
    }
    Ok(())
}

/// Appends the directory.
fn put_directory(out: &mut Vec<u8>, entries: &[EntryCode]) -> Result<(), NoMemory>
    requires few { length entries.now ≤ 32 }
    requires short { All (λ e. length e.code.items < 2 ^ 16) entries.now }
    ensures { OnOk result (out.new.items ≡ out.old.items
        ++ directory_bytes 0 (map microprogram_of entries.now)) }
{
    let mut start = 0u32;
    for entry in entries {
        put_head(out, start, entry)?;
        start += entry.code.len() as u32;
    }
    Ok(())
}

/// Appends the code of each entry.
fn put_codes(out: &mut Vec<u8>, entries: &[EntryCode]) -> Result<(), NoMemory>
    ensures { OnOk result (out.new.items ≡ out.old.items
        ++ flat_map code_bytes (map microprogram_of entries.now)) }
{
    for entry in entries {
        put_code(out, entry.code.as_slice())?;
    }
    Ok(())
}

/// The file of a program, which is of version 2. Each program has one.
#[tactic(auto, unfolding(crate::specs::Spelling::program_bytes))]
pub fn encode(p: &Program, alloc: Global) -> Result<Vec<u8>, NoMemory>
    requires { IsProgram (microprograms_of p.now) }
    ensures { IfOk result (λ file. file.items ≡ program_bytes 2 (microprograms_of p.now)) }
{
    let entries = p.entries.as_slice();
    let mut out = Vec::new(alloc);
    out.extend_from_slice(b"SDMP")?;
    out.extend_from_slice(&2u16.to_le_bytes())?;
    out.extend_from_slice(&(entries.len() as u16).to_le_bytes())?;
    put_directory(&mut out, entries)?;
    put_codes(&mut out, entries)?;
    Ok(out)
}
