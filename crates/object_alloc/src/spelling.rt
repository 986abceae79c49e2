//! The image file, written.

ghost use Rattle.std.specs.Prelude.{◌≡◌, ℕ, ◌+◌, ◌*◌, ◌≤◌, [], ◌++◌, true, false, length};
ghost use Rattle.std.specs.Prelude.{replicate, IfOk, vec_len, vec_capacity};
ghost use Rattle.std.specs.List.{flat_map};
ghost use Rattle.arrayvec.specs.ArrayVec.{array_vec_len};
ghost use Rattle.dram_model.specs.Elements.{column_count};
ghost use Rattle.dram_model.specs.Geometry.{is_geometry};
ghost use Rattle.object_alloc.specs.Spelling.{object_bytes, opening_bytes, geometry_bytes};
ghost use Rattle.object_alloc.specs.Spelling.{head_bytes, image_bytes, blank_rows};
ghost use Rattle.file_fields.specs.Fields.{name_bytes};

use crate::sizes::HEAD_BYTES;
use crate::table::{Object, Table};
use arrayvec::ArrayVec;
use dram_model::Geometry;
use faults::NoMemory;
use file_fields::name_field;
use std::alloc::Global;
use text_lex::Name;

/// Appends bytes to a record that has room for them.
fn put(out: &mut ArrayVec<u8, 24>, bytes: &[u8])
    requires { array_vec_len out.old + length bytes.now ≤ 24 }
    ensures items { out.new.items ≡ out.old.items ++ bytes.now }
    ensures len { array_vec_len out.new ≡ array_vec_len out.old + length bytes.now }
{
    match out.try_extend_from_slice(bytes) {
        Ok(()) => {}
        Err(_) => unreachable!(),
    }
}

/// The 24 bytes of an object in an image file.
pub fn record_of(name: &Name, o: &Object) -> [u8; 24]
    ensures { result ≡ object_bytes (name.now, o.now) }
{
    let mut record = ArrayVec::new();
    put(&mut record, &name_field(name));
    record.push(o.width);
    put(&mut record, &o.base.to_le_bytes());
    put(&mut record, &o.count.to_le_bytes());
    match record.into_inner() {
        Ok(bytes) => bytes,
        Err(_) => unreachable!(),
    }
}

/// Appends bytes for which there is room.
pub(crate) fn append(out: &mut Vec<u8>, bytes: &[u8])
    requires { vec_len out.old + length bytes.now ≤ vec_capacity out.old }
    ensures items { out.new.items ≡ out.old.items ++ bytes.now }
    ensures len { vec_len out.new ≡ vec_len out.old + length bytes.now }
    ensures room { vec_capacity out.old ≤ vec_capacity out.new }
{
    match out.extend_from_slice(bytes) {
        Ok(()) => {}
        Err(_) => unreachable!(),
    }
}

/// Appends what stands before the table.
fn put_opening(out: &mut Vec<u8>, g: Geometry)
    requires { vec_len out.old + 12 ≤ vec_capacity out.old }
    ensures items { out.new.items ≡ out.old.items ++ (opening_bytes ++ geometry_bytes g) }
    ensures len { vec_len out.new ≡ vec_len out.old + 12 }
    ensures room { vec_capacity out.old ≤ vec_capacity out.new }
{
    append(out, b"SDMI");
    append(out, &1u16.to_le_bytes());
    append(out, &g.banks.to_le_bytes());
    append(out, &g.rows.to_le_bytes());
    append(out, &g.words.to_le_bytes());
}

/// Appends the records of the objects.
fn put_objects(out: &mut Vec<u8>, table: &Table)
    requires { vec_len out.old + 24 * length table.now.pairs ≤ vec_capacity out.old }
    ensures items { out.new.items ≡ out.old.items ++ flat_map object_bytes table.now.pairs }
    ensures len { vec_len out.new ≡ vec_len out.old + 24 * length table.now.pairs }
    ensures room { vec_capacity out.old ≤ vec_capacity out.new }
{
    for k in 0..table.len() {
        let (name, o) = table.at(k);
        append(out, &record_of(&name, &o));
    }
}

/// Appends all that stands before the rows in an image file. There has to be room for 14 bytes and
/// 24 for each object,
/// so that it takes no memory.
pub fn put_head(out: &mut Vec<u8>, g: Geometry, table: &Table)
    requires { vec_len out.old + (14 + 24 * length table.now.pairs) ≤ vec_capacity out.old }
    ensures items { out.new.items ≡ out.old.items ++ head_bytes g table.now.pairs }
    ensures len { vec_len out.new ≡ vec_len out.old + (14 + 24 * length table.now.pairs) }
    ensures room { vec_capacity out.old ≤ vec_capacity out.new }
{
    put_opening(out, g);
    append(out, &table.len().to_le_bytes());
    put_objects(out, table);
}

/// The file of an image without objects, whose rows are zeros.
pub fn empty_image(g: Geometry, alloc: Global) -> Result<Vec<u8>, NoMemory>
    requires { is_geometry g ≡ true }
    ensures { IfOk result (λ file. file.items ≡ image_bytes g [] (blank_rows g)) }
{
    let size = 8 * (usize::from(g.banks) * usize::from(g.rows) * usize::from(g.words));
    let mut file = Vec::with_capacity(alloc, HEAD_BYTES + size)?;
    put_opening(&mut file, g);
    append(&mut file, &0u16.to_le_bytes());
    file.resize(HEAD_BYTES + size, 0)?;
    Ok(file)
}
