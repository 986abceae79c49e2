//! The program file, read in place.

ghost use Rattle.std.specs.Prelude.{◌≡◌, ℕ, List, ◌+◌, ◌*◌, ◌/◌, ◌<◌, ◌≤◌, ◌^◌, length, take, drop};
ghost use Rattle.std.specs.Prelude.{position, slice_get, slice_index_or, Some, Ok, Err, IfSome};
ghost use Rattle.std.specs.Prelude.{IfOk, IfErr};
ghost use Rattle.std.specs.Str.{bytes_eq};
ghost use Rattle.uprog_code.specs.Shape.{Microprogram, shape_of};
ghost use Rattle.uprog_code.specs.Legal.{IsLegalCode};
ghost use Rattle.uprog_bin.specs.Reading.{is_named, program_in};
ghost use Rattle.uprog_bin.specs.Spelling.{HasVersion, program_bytes};
ghost use Rattle.uprog_code.specs.Programs.{IsProgram};
ghost use Rattle.uprog_bin.specs.Opened.{EntryBytes, found_of, IsOpened, code_of, program_of};
ghost use Rattle.uprog_bin.specs.Opened.{code_place};
ghost use Rattle.uprog_bin.specs.Opened.{uop_in};
ghost use Rattle.file_fields.specs.Fields.{Gives};

use crate::checks::{check_codes, opening_of};
use crate::directory::{Listed, directory_of};
use crate::fault::{ProgFault, ProgKind};
use crate::instruction::{Raw, uop_as};
use crate::opcode::{OPCODES, Opcode};
use crate::sizes::{ENTRIES_MAX, HEAD_BYTES, INSTRUCTION_BYTES, RECORD_BYTES};
use arrayvec::ArrayVec;
use file_fields::{rule, u16_at};
use std::marker::Model;
use text_lex::Name;
use uprog_code::{Fetch, Head, Uop};

/// The version and the records of a file, or its first fault.
#[tactic(auto, unfolding(crate::specs::Reading::program_in))]
fn records_of(bytes: &[u8]) -> Result<(u16, ArrayVec<Listed, 32>), ProgFault>
    requires { length bytes.now < 2 ^ 32 }
    ensures ok { IfOk result (λ found. IsOpened bytes.now found.0 found.1.items) }
    ensures err { IfErr result (λ f. program_in bytes.now ≡ Err f) }
{
    let version = opening_of(bytes)?;
    let count = u16_at(bytes, 6, ProgKind::Short)?;
    rule(count <= ENTRIES_MAX, 6, ProgKind::Directory)?;
    let listed = directory_of(version, count, bytes)?;
    let start = HEAD_BYTES + RECORD_BYTES * listed.len();
    let end = check_codes(listed.as_slice(), bytes, start)?;
    rule(bytes.len() == end, end, ProgKind::Rest)?;
    Ok((version, listed))
}

/// A program file that was accepted. It borrows the bytes.
#[derive(Drop)]
pub struct ProgView<'a> {
    bytes: &'a [u8],
    version: u16,
    listed: ArrayVec<Listed, 32>,
}

impl<'a> Model for ProgView<'a> {
    ghost use Rattle.uprog_bin.specs.Opened.{File, IsOpened, file_of};

    ghost Value = { File };

    ghost view = { λ v. file_of v.bytes.now };

    ghost invariant = { λ v. IsOpened v.bytes.now v.version v.listed.items };
}

/// An entry of a program file, which fetches from the file's own bytes.
#[derive(Drop)]
pub struct Entry<'a> {
    head: Head,
    code: &'a [u8],
}

impl<'a> Model for Entry<'a> {
    ghost use Rattle.uprog_code.specs.Shape.{shape_of};
    ghost use Rattle.uprog_bin.specs.Opened.{EntryBytes};

    ghost Value = { EntryBytes };

    ghost view = { λ e. record {
      name = e.head.name;
      shape = shape_of e.head;
      bytes = e.code.now;
    } };
}

/// An entry of no code.
impl<'a> Default for Entry<'a> {
    fn default() -> Self {
        Entry {
            head: Listed::default().head,
            code: &[],
        }
    }
}

impl<'a> ProgView<'a> {
    /// The program that the bytes spell, or the first field that is not whole or breaks its rule.
    pub fn open(bytes: &'a [u8]) -> Result<ProgView<'a>, ProgFault>
        requires { length bytes.now < 2 ^ 32 }
        // What is accepted is the one spelling of a program in a version that has it.
        ensures spelled { IfOk result (λ v. IsProgram v.programs × HasVersion v.version v.programs
            × (v.bytes ≡ program_bytes v.version v.programs)) }
        // That spelling is accepted, as that version and that program.
        ensures only { (version : ℕ) (ms : List Microprogram) → IsProgram ms → HasVersion version ms
            → bytes.now ≡ program_bytes version ms
            → Gives found_of result (Ok (version, ms)) }
        // Which version and program it is, and which fault.
        ensures exact { Gives found_of result (program_in bytes.now) }
        ensures bytes { IfOk result (λ v. v.bytes ≡ bytes.now) }
    {
        let (version, listed) = records_of(bytes)?;
        Ok(ProgView {
            bytes,
            version,
            listed,
        })
    }

    /// The version of the file: 1 or 2.
    pub fn version(&self) -> u16
        ensures { result ≡ self.now.version }
    {
        self.version
    }

    /// The number of entries.
    pub fn entries(&self) -> u16
        ensures { result ≡ length self.now.programs }
    {
        self.listed.len() as u16
    }

    /// An entry. It fetches from the part of the file that holds its code.
    pub fn entry(&self, k: u16) -> Entry<'a>
        requires { k < length self.now.programs }
        ensures program { slice_get self.now.programs k ≡ Some (program_of result) }
        ensures bytes { result.bytes ≡ take (8 * length (code_of result))
            (drop (code_place self.now.programs k) self.now.bytes) }
        ensures legal { IsLegalCode result.shape (code_of result) }
    {
        let listed = self.listed.as_slice();
        let l = &listed[usize::from(k)];
        let directory = RECORD_BYTES * listed.len();
        let start = HEAD_BYTES + directory + INSTRUCTION_BYTES * (l.start as usize);
        let code = part(self.bytes, start, INSTRUCTION_BYTES * usize::from(l.count));
        Entry {
            head: l.head.copied(),
            code,
        }
    }

    /// The entry of this name, if there is one.
    pub fn find(&self, name: &Name) -> Option<u16>
        ensures { result ≡ position (λ m. bytes_eq m.name name.now) self.now.programs }
    {
        match place_of(self.listed.as_slice(), name.bytes()) {
            Some(k) => Some(k as u16),
            None => None,
        }
    }
}

fn place_of(listed: &[Listed], name: &[u8]) -> Option<usize>
    ensures value { result ≡ position (is_named name.now) listed.now }
    ensures within { IfSome result (λ k. k < length listed.now) }
{
    listed.iter().position(|l| l.head.name.bytes() == name)
}

/// So many bytes from a place on.
fn part(bytes: &[u8], at: usize, len: usize) -> &[u8]
    requires { at + len ≤ length bytes.now }
    ensures { result.now ≡ take len (drop at bytes.now) }
{
    let (_, rest) = bytes.split_at(at);
    let (part, _) = rest.split_at(len);
    part
}

#[inline(always)]
fn opcode_or_done(number: u8) -> Opcode
    ensures { result ≡ slice_index_or OPCODES number Opcode.Done }
{
    match number {
        1 => Opcode::SetI,
        2 => Opcode::SetN,
        3 => Opcode::SetT,
        4 => Opcode::Mov,
        5 => Opcode::Add,
        6 => Opcode::AddI,
        7 => Opcode::SubI,
        8 => Opcode::Bnez,
        9 => Opcode::Aap,
        10 => Opcode::Ap,
        _ => Opcode::Done,
    }
}

/// The instruction that eight bytes are.
#[inline(always)]
fn decoded(field: &[u8]) -> Uop
    requires { length field.now ≡ 8 }
    ensures { result ≡ uop_in field.now }
{
    let raw = Raw::new(field);
    uop_as(opcode_or_done(raw.number), raw)
}

/// The instruction at a place of code.
#[inline(always)]
fn uop_at(code: &[u8], at: u16) -> Uop
    requires { at < length code.now / 8 }
    ensures { result ≡ uop_in (take 8 (drop (8 * at) code.now)) }
{
    let (_, rest) = code.split_at(INSTRUCTION_BYTES * usize::from(at));
    let (field, _) = rest.split_at(INSTRUCTION_BYTES);
    decoded(field)
}

impl<'a> Fetch for Entry<'a> {
    ghost use Rattle.uprog_bin.specs.Opened.{code_of};

    ghost name = { λ e. e.name };

    ghost shape = { λ e. e.shape };

    ghost code = { λ e. code_of e };

    fn head(&self) -> Head {
        self.head.copied()
    }

    fn len(&self) -> u16 {
        (self.code.len() / INSTRUCTION_BYTES) as u16
    }

    #[inline(always)]
    fn fetch(&self, at: u16) -> Uop {
        uop_at(self.code, at)
    }
}

impl<'a> Entry<'a> {
    /// The slice of the file that holds the code: eight bytes for each instruction.
    pub fn bytes(&self) -> &'a [u8]
        ensures { result.now ≡ self.now.bytes }
    {
        self.code
    }
}
