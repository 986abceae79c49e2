//! The image file, read in place.

ghost use Rattle.std.specs.Prelude.{◌≡◌, ℕ, List, Ok, ◌+◌, ◌*◌, ◌<◌, ◌≤◌, ◌^◌, ◌==◌, [], length};
ghost use Rattle.std.specs.Prelude.{true, OnOk, IfOk};
ghost use Rattle.std.specs.List.{list_all};
ghost use Rattle.dram_model.specs.Geometry.{is_geometry};
ghost use Rattle.dram_model.specs.declared.geometry.Geometry.{Geometry};
ghost use Rattle.object_alloc.specs.Exact.{ReadsExactly, found_in};
ghost use Rattle.object_alloc.specs.Listed.{Named, has_name, limit_of};
ghost use Rattle.object_alloc.specs.Spelling.{Rows, IsImage, image_bytes, rows_bytes, rows_in};
ghost use Rattle.object_alloc.specs.Reading.{Answers, name_at, place_at, count_at, object_at};
ghost use Rattle.object_alloc.specs.Reading.{objects_at, table_at, geometry_at, opening_in};
ghost use Rattle.object_alloc.specs.Reading.{rows_at, rows_size, rows_start, image_in};
ghost use Rattle.file_fields.specs.Fields.{Gives};

use crate::fault::{ImageFault, ImageKind, ImageNo};
use crate::image::Image;
use crate::sizes::{HEAD_BYTES, OBJECTS_MAX, RECORD_BYTES};
use crate::table::{Object, Table};
use bit_rows::WIDTH_MAX;
use dram_model::Geometry;
use file_fields::{
    NAME_MAX, bytes_at, fault, is_between, padded_name, rule, u8_at, u16_at, u32_at,
};
use std::alloc::Global;
use text_lex::Name;

/// The name at a place, which none of the earlier objects has.
#[tactic(auto, unfolding(file_fields::specs::Fields::name_at))]
fn name_of(earlier: &Table, bytes: &[u8], at: usize) -> Result<Name, ImageFault>
    requires small { length bytes.now < 2 ^ 32 }
    requires place { at ≤ length bytes.now }
    ensures gives { Gives (λ name. name) result (name_at earlier.now.pairs at bytes.now) }
    ensures within { OnOk result (at + 17 ≤ length bytes.now) }
{
    let len = u8_at(bytes, at, ImageKind::Short)?;
    rule(is_between(1, 16, u32::from(len)), at, ImageKind::Object)?;
    let field = bytes_at(bytes, at + 1, NAME_MAX, ImageKind::Short)?;
    let Some(name) = padded_name(len, field) else {
        return Err(fault(at + 1, ImageKind::Object));
    };
    rule(!earlier.has_name(name.bytes()), at + 1, ImageKind::Object)?;
    Ok(name)
}

/// The width and the base at a place, of rows that none of the earlier objects has.
#[tactic(auto, unfolding(crate::specs::Reading::place_at))]
fn place_of(g: Geometry, earlier: &Table, bytes: &[u8], at: usize) -> Result<(u8, u16), ImageFault>
    requires geometry { is_geometry g ≡ true }
    requires limit { earlier.now.limit ≡ limit_of g }
    requires small { length bytes.now < 2 ^ 32 }
    requires place { at ≤ length bytes.now }
    ensures gives { Gives (λ x. x) result (place_at g earlier.now.pairs at bytes.now) }
    ensures within { OnOk result (at + 3 ≤ length bytes.now) }
{
    let width = u8_at(bytes, at, ImageKind::Short)?;
    rule(
        is_between(1, u32::from(WIDTH_MAX), u32::from(width)),
        at,
        ImageKind::Object,
    )?;
    let base = u16_at(bytes, at + 1, ImageKind::Short)?;
    let limit = u32::from(g.rows - Geometry::SPILL_ROWS);
    let end = u32::from(base) + u32::from(width);
    rule(end <= limit, at + 1, ImageKind::Object)?;
    rule(
        earlier.is_free(base, u16::from(width)),
        at + 1,
        ImageKind::Overlap,
    )?;
    Ok((width, base))
}

/// The number of elements at a place: at most one for each column.
#[tactic(auto, unfolding(crate::specs::Reading::count_at))]
fn count_of(g: Geometry, bytes: &[u8], at: usize) -> Result<u32, ImageFault>
    requires geometry { is_geometry g ≡ true }
    requires small { length bytes.now < 2 ^ 32 }
    requires place { at ≤ length bytes.now }
    ensures gives { Gives (λ n. n) result (count_at g at bytes.now) }
    ensures within { OnOk result (at + 4 ≤ length bytes.now) }
{
    let count = u32_at(bytes, at, ImageKind::Short)?;
    let columns = 64 * u32::from(g.words) * u32::from(g.banks);
    rule(is_between(1, columns, count), at, ImageKind::Object)?;
    Ok(count)
}

/// The object's record at a place.
#[tactic(auto, unfolding(crate::specs::Reading::object_at))]
fn object_of(
    g: Geometry,
    earlier: &Table,
    bytes: &[u8],
    at: usize,
) -> Result<(Name, Object), ImageFault>
    requires geometry { is_geometry g ≡ true }
    requires limit { earlier.now.limit ≡ limit_of g }
    requires small { length bytes.now < 2 ^ 32 }
    requires place { at ≤ length bytes.now }
    ensures gives { Gives (λ x. x) result (object_at g earlier.now.pairs at bytes.now) }
    ensures within { OnOk result (at + 24 ≤ length bytes.now) }
{
    let name = name_of(earlier, bytes, at)?;
    let (width, base) = place_of(g, earlier, bytes, at + 17)?;
    let count = count_of(g, bytes, at + 20)?;
    Ok((name, Object { base, width, count }))
}

/// The geometry at a place.
#[tactic(auto, unfolding(crate::specs::Reading::geometry_at))]
pub fn read_geometry(bytes: &[u8], at: usize) -> Result<Geometry, ImageFault>
    requires small { length bytes.now < 2 ^ 32 }
    requires place { at ≤ length bytes.now }
    ensures gives { Gives (λ g. g) result (geometry_at at bytes.now) }
    ensures geometry { IfOk result (λ g. is_geometry g ≡ true) }
    ensures within { OnOk result (at + 6 ≤ length bytes.now) }
{
    let banks = u16_at(bytes, at, ImageKind::Short)?;
    rule(is_between(1, 16, u32::from(banks)), at, ImageKind::Geometry)?;
    let rows = u16_at(bytes, at + 2, ImageKind::Short)?;
    rule(
        is_between(64, 1006, u32::from(rows)),
        at + 2,
        ImageKind::Geometry,
    )?;
    let words = u16_at(bytes, at + 4, ImageKind::Short)?;
    let g = Geometry { banks, rows, words };
    rule(g.check().is_ok(), at + 4, ImageKind::Geometry)?;
    Ok(g)
}

/// Whether the file begins as an image of the version that there is.
#[tactic(auto, unfolding(crate::specs::Reading::opening_in))]
fn opening_of(bytes: &[u8]) -> Result<(), ImageFault>
    requires { length bytes.now < 2 ^ 32 }
    ensures gives { Gives (λ x. x) result (opening_in bytes.now) }
    ensures within { OnOk result (6 ≤ length bytes.now) }
{
    let magic = bytes_at(bytes, 0, 4, ImageKind::Short)?;
    rule(magic == b"SDMI".as_slice(), 0, ImageKind::Magic)?;
    let version = u16_at(bytes, 4, ImageKind::Short)?;
    rule(version == 1, 4, ImageKind::Version)?;
    Ok(())
}

/// The objects at a place, each after the one before it.
fn objects_of(
    count: u16,
    g: Geometry,
    bytes: &[u8],
    at: usize,
    alloc: Global,
) -> Result<Table, ImageNo>
    requires few { count ≤ 256 }
    requires geometry { is_geometry g ≡ true }
    requires small { length bytes.now < 2 ^ 32 }
    requires place { at ≤ length bytes.now }
    ensures gives { Answers (λ t. t.pairs) result (objects_at count g [] at bytes.now) }
    ensures limit { IfOk result (λ t. t.limit ≡ limit_of g) }
    ensures within { IfOk result (λ t. at + 24 * length t.pairs ≤ length bytes.now) }
{
    let mut table = Table::new(g, alloc)?;
    let mut place = at;
    for _k in 0..count {
        let (name, o) = object_of(g, &table, bytes, place)?;
        table.add(name, o);
        place += RECORD_BYTES;
    }
    Ok(table)
}

/// The number of objects and their records, from a place on.
#[tactic(auto, unfolding(crate::specs::Reading::table_at))]
fn table_of(bytes: &[u8], at: usize, g: Geometry, alloc: Global) -> Result<Table, ImageNo>
    requires geometry { is_geometry g ≡ true }
    requires small { length bytes.now < 2 ^ 32 }
    requires place { at ≤ length bytes.now }
    ensures gives { Answers (λ t. t.pairs) result (table_at g at bytes.now) }
    ensures limit { IfOk result (λ t. t.limit ≡ limit_of g) }
    ensures within { IfOk result (λ t. at + 2 + 24 * length t.pairs ≤ length bytes.now) }
{
    let count = u16_at(bytes, at, ImageKind::Short)?;
    rule(usize::from(count) <= OBJECTS_MAX, at, ImageKind::Object)?;
    objects_of(count, g, bytes, at + 2, alloc)
}

/// The rows of an image, which are all the bytes from a place on.
#[tactic(auto, unfolding(crate::specs::Reading::rows_at))]
fn rows_of(g: Geometry, bytes: &[u8], at: usize) -> Result<&[u8], ImageFault>
    requires geometry { is_geometry g ≡ true }
    requires small { length bytes.now < 2 ^ 32 }
    requires place { at ≤ length bytes.now }
    ensures gives { Gives (λ rows. rows.now) result (rows_at g at bytes.now) }
{
    let size = 8 * (usize::from(g.banks) * usize::from(g.rows) * usize::from(g.words));
    let rows = bytes_at(bytes, at, size, ImageKind::Short)?;
    rule(bytes.len() == at + size, at + size, ImageKind::Rest)?;
    Ok(rows)
}

/// What the file holds, or its first fault.
#[tactic(auto, unfolding(crate::specs::Reading::image_in))]
fn whole(bytes: &[u8], alloc: Global) -> Result<Image<'_>, ImageNo>
    requires { length bytes.now < 2 ^ 32 }
    ensures exact { Answers found_in result (image_in bytes.now) }
    ensures limit { IfOk result (λ i. i.table.limit ≡ limit_of i.geometry) }
{
    opening_of(bytes)?;
    let geometry = read_geometry(bytes, 6)?;
    let table = table_of(bytes, 12, geometry, alloc)?;
    let start = HEAD_BYTES + RECORD_BYTES * usize::from(table.len());
    let rows = rows_of(geometry, bytes, start)?;
    Ok(Image {
        geometry,
        table,
        rows,
    })
}

/// The table that begins at byte `at`: the number of objects and their records. Its fault is the
/// first of these fields.
pub fn read_table(bytes: &[u8], at: u32, g: Geometry, alloc: Global) -> Result<Table, ImageNo>
    requires geometry { is_geometry g ≡ true }
    requires small { length bytes.now < 2 ^ 32 }
    requires place { at ≤ length bytes.now }
    ensures exact { Answers (λ t. t.pairs) result (table_at g at bytes.now) }
    ensures limit { IfOk result (λ t. t.limit ≡ limit_of g) }
    ensures within { IfOk result (λ t. at + 2 + 24 * length t.pairs ≤ length bytes.now) }
{
    table_of(bytes, at as usize, g, alloc)
}

/// The image that the bytes spell, or their first fault. It copies no rows.
pub fn read_image(bytes: &[u8], alloc: Global) -> Result<Image<'_>, ImageNo>
    requires { length bytes.now < 2 ^ 32 }
    // What is read is an image, and the bytes are its spelling.
    ensures spelled { IfOk result (λ i. let rows = rows_in i.geometry i.rows.now in
        IsImage i.geometry i.table.pairs rows
        × (bytes.now ≡ image_bytes i.geometry i.table.pairs rows)) }
    ensures limit { IfOk result (λ i. i.table.limit ≡ limit_of i.geometry) }
    // An image's spelling is read, unless memory runs out.
    ensures only { (g : Geometry) (table : List Named) (rows : Rows) → IsImage g table rows
        → bytes.now ≡ image_bytes g table rows
        → Answers found_in result (Ok (record {
          geometry = g;
          table = table;
          rows = rows_bytes g rows;
        })) }
    // Which fault it is.
    ensures exact { Answers found_in result (image_in bytes.now) }
{
    whole(bytes, alloc)
}

/// Shows that bytes are accepted exactly where they are the spelling of an image, which they are of
/// one alone.
pub fn images_are_exact()
    ensures { ReadsExactly }
{}
