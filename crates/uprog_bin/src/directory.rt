//! The directory of a program file.

ghost use Rattle.std.specs.Prelude.{◌≡◌, ◌+◌, ◌*◌, ◌<◌, ◌≤◌, ◌^◌, ◌==◌, [], length, OnOk, IfOk};
ghost use Rattle.std.specs.List.{list_all, list_any};
ghost use Rattle.arrayvec.specs.ArrayVec.{array_vec_len};
ghost use Rattle.uprog_code.specs.Shape.{shape_of};
ghost use Rattle.uprog_bin.specs.Reading.{is_named, has_name, name_at, kind_of_bit, kinds_of};
ghost use Rattle.uprog_bin.specs.Reading.{second_of, is_results, is_kinds, shape_at, listing_at};
ghost use Rattle.uprog_bin.specs.Reading.{directory_at, listing_of, listings_of};
ghost use Rattle.file_fields.specs.Fields.{Gives};

use crate::fault::{ProgFault, ProgKind};
use crate::sizes::{HEAD_BYTES, RECORD_BYTES};
use arrayvec::ArrayVec;
use file_fields::{
    NAME_MAX, bytes_at, fault, is_between, padded_name, rule, u8_at, u16_at, u32_at,
};
use text_lex::Name;
use uprog_code::{Head, Kind};

/// An entry's record: its head, the number of its first instruction, and how many it has.
#[derive(Drop)]
pub(crate) struct Listed {
    pub head: Head,
    pub start: u32,
    pub count: u16,
}

impl Default for Listed {
    fn default() -> Self {
        Listed {
            head: Head {
                name: Name::default(),
                sources: ArrayVec::new(),
                result: Kind::Word,
                second: None,
                bits: 0,
                words: 0,
            },
            start: 0,
            count: 0,
        }
    }
}

fn any_named(earlier: &[Listed], name: &[u8]) -> bool
    ensures { result ≡ list_any (is_named name.now) earlier.now }
{
    earlier.iter().any(|l| l.head.name.bytes() == name)
}

/// Whether an earlier entry has the name.
fn has_name(earlier: &[Listed], name: &[u8]) -> bool
    ensures { result ≡ has_name (listings_of earlier.now) name.now }
{
    any_named(earlier, name)
}

/// The name at a place, which none of the earlier entries has.
#[tactic(auto, unfolding(file_fields::specs::Fields::name_at))]
fn name_of(earlier: &[Listed], bytes: &[u8], at: usize) -> Result<Name, ProgFault>
    requires small { length bytes.now < 2 ^ 32 }
    requires place { at ≤ length bytes.now }
    ensures gives { Gives (λ name. name) result (name_at (listings_of earlier.now) at bytes.now) }
    ensures within { OnOk result (at + 17 ≤ length bytes.now) }
{
    let len = u8_at(bytes, at, ProgKind::Short)?;
    rule(is_between(1, 16, u32::from(len)), at, ProgKind::Directory)?;
    let field = bytes_at(bytes, at + 1, NAME_MAX, ProgKind::Short)?;
    let Some(name) = padded_name(len, field) else {
        return Err(fault(at + 1, ProgKind::Directory));
    };
    rule(
        !has_name(earlier, name.bytes()),
        at + 1,
        ProgKind::Directory,
    )?;
    Ok(name)
}

fn kind_of_bit(bit: u8) -> Kind
    ensures { result ≡ kind_of_bit bit }
{
    if bit == 1 { Kind::Word } else { Kind::Bit }
}

/// The kinds of so many sources, the lowest bit first.
fn kinds_of(count: u8, bits: u8) -> ArrayVec<Kind, 4>
    requires { count ≤ 4 }
    ensures { result.items ≡ kinds_of count bits }
{
    let mut kinds = ArrayVec::new();
    let mut rest = bits;
    for _k in 0..count {
        kinds.push(kind_of_bit(rest % 2));
        rest /= 2;
    }
    kinds
}

/// The kind of the second result, if there is one.
fn second_of_bits(bits: u8) -> Option<Kind>
    ensures { result ≡ second_of bits }
{
    if bits == 0 {
        None
    } else {
        Some(kind_of_bit(bits / 2))
    }
}

/// Whether the bits from bit 4 on are those of results in a file of this version.
fn is_results(version: u16, top: u8) -> bool
    ensures { result ≡ is_results version top }
{
    let limit = if version == 1 { 2 } else { 8 };
    top < limit && top / 2 != 2
}

/// Whether the byte has bits for so many sources and the results alone.
fn is_kinds(version: u16, sources: u8, bits: u8) -> bool
    requires some { 1 ≤ sources }
    requires few { sources ≤ 4 }
    ensures { result ≡ is_kinds version sources bits }
{
    let limit = match sources {
        1 => 2,
        2 => 4,
        3 => 8,
        _ => 16,
    };
    bits % 16 < limit && is_results(version, bits / 16)
}

/// The head at a place, after its name.
#[tactic(auto, unfolding(crate::specs::Reading::shape_at))]
fn head_of(version: u16, name: Name, bytes: &[u8], at: usize) -> Result<Head, ProgFault>
    requires small { length bytes.now < 2 ^ 32 }
    requires place { at ≤ length bytes.now }
    ensures name { IfOk result (λ head. head.name ≡ name) }
    ensures gives { Gives shape_of result (shape_at version at bytes.now) }
    ensures within { OnOk result (at + 4 ≤ length bytes.now) }
{
    let sources = u8_at(bytes, at, ProgKind::Short)?;
    rule(
        is_between(1, 4, u32::from(sources)),
        at,
        ProgKind::Directory,
    )?;
    let kinds = u8_at(bytes, at + 1, ProgKind::Short)?;
    rule(
        is_kinds(version, sources, kinds),
        at + 1,
        ProgKind::Directory,
    )?;
    let bits = u8_at(bytes, at + 2, ProgKind::Short)?;
    let words = u8_at(bytes, at + 3, ProgKind::Short)?;
    Ok(Head {
        name,
        sources: kinds_of(sources, kinds),
        result: kind_of_bit(kinds / 16 % 2),
        second: second_of_bits(kinds / 16 / 2),
        bits,
        words,
    })
}

/// The record at a place of an entry whose code begins at this instruction.
#[tactic(auto, unfolding(crate::specs::Reading::listing_at))]
fn listed_of(
    version: u16,
    earlier: &[Listed],
    start: u32,
    bytes: &[u8],
    at: usize,
) -> Result<Listed, ProgFault>
    requires small { length bytes.now < 2 ^ 32 }
    requires place { at ≤ length bytes.now }
    ensures gives { Gives listing_of result (listing_at version (listings_of earlier.now) start
        at bytes.now) }
    ensures count { IfOk result (λ l. l.count < 2 ^ 16) }
    ensures within { OnOk result (at + 27 ≤ length bytes.now) }
{
    let name = name_of(earlier, bytes, at)?;
    let head = head_of(version, name, bytes, at + 17)?;
    let first = u32_at(bytes, at + 21, ProgKind::Short)?;
    rule(first == start, at + 21, ProgKind::Directory)?;
    let count = u16_at(bytes, at + 25, ProgKind::Short)?;
    rule(count >= 1, at + 25, ProgKind::Directory)?;
    Ok(Listed {
        head,
        start: first,
        count,
    })
}

/// The records of a file.
pub(crate) fn directory_of(
    version: u16,
    count: u16,
    bytes: &[u8],
) -> Result<ArrayVec<Listed, 32>, ProgFault>
    requires few { count ≤ 32 }
    requires small { length bytes.now < 2 ^ 32 }
    requires place { 8 ≤ length bytes.now }
    ensures gives { Gives (λ ls. listings_of ls.items) result (directory_at version count [] 0 8
        bytes.now) }
    ensures within { IfOk result (λ ls. 8 + 27 * length ls.items ≤ length bytes.now) }
{
    let mut listed = ArrayVec::new();
    let mut start = 0u32;
    let mut at = HEAD_BYTES;
    for _k in 0..count {
        let next = listed_of(version, listed.as_slice(), start, bytes, at)?;
        start += u32::from(next.count);
        at += RECORD_BYTES;
        listed.push(next);
    }
    Ok(listed)
}
