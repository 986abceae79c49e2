//! The head of a trace file, written in front of the events.

ghost use Rattle.std.specs.Prelude.{◌≡◌, ℕ, ◌+◌, ◌*◌, ◌<◌, ◌≤◌, ◌^◌, ◌++◌, length};
ghost use Rattle.std.specs.Int.{to_le_bytes, w32};
ghost use Rattle.std.specs.List.{flat_map};
ghost use Rattle.object_alloc.specs.Spelling.{geometry_bytes, object_bytes};
ghost use Rattle.trace_model.specs.Spelling.{trace_head, trace_opening};
ghost use Rattle.cmd_trace.specs.Places.{IsPut};

use dram_model::Geometry;
use object_alloc::{RECORD_BYTES, Table, record_of};

/// Puts bytes in place of as many at a place.
fn put_at(out: &mut [u8], at: usize, bytes: &[u8])
    requires { at + length bytes.now ≤ length out.old }
    ensures { IsPut at bytes.now out.old out.new }
{
    let (_, rest) = out.split_at_mut(at);
    let (part, _) = rest.split_at_mut(bytes.len());
    part.copy_from_slice(bytes);
}

/// Puts what stands before the table.
fn put_opening(out: &mut [u8], at: usize, g: Geometry)
    requires { at + 12 ≤ length out.old }
    ensures { IsPut at (trace_opening ++ geometry_bytes g) out.old out.new }
{
    let [banks_low, banks_high] = g.banks.to_le_bytes();
    let [rows_low, rows_high] = g.rows.to_le_bytes();
    let [words_low, words_high] = g.words.to_le_bytes();
    let opening = [
        b'S', b'D', b'M', b'T', 1, 0, banks_low, banks_high, rows_low, rows_high, words_low,
        words_high,
    ];
    put_at(out, at, &opening);
}

/// Puts the records of the objects.
fn put_objects(out: &mut [u8], at: usize, table: &Table)
    requires { at + 24 * length table.now.pairs ≤ length out.old }
    ensures put { IsPut at (flat_map object_bytes table.now.pairs) out.old out.new }
    ensures len { length (flat_map object_bytes table.now.pairs)
        ≡ 24 * length table.now.pairs }
{
    for k in 0..table.len() {
        let (name, o) = table.at(k);
        put_at(
            out,
            at + RECORD_BYTES * usize::from(k),
            &record_of(&name, &o),
        );
    }
}

/// Puts all that stands before the events.
pub(crate) fn put_head(out: &mut [u8], at: usize, g: Geometry, table: &Table, count: u32)
    requires { at + (18 + 24 * length table.now.pairs) ≤ length out.old }
    ensures put { IsPut at (trace_head g table.now.pairs ++ to_le_bytes w32 count) out.old
        out.new }
    ensures len { length (trace_head g table.now.pairs ++ to_le_bytes w32 count)
        ≡ 18 + 24 * length table.now.pairs }
{
    put_opening(out, at, g);
    put_at(out, at + 12, &table.len().to_le_bytes());
    put_objects(out, at + 14, table);
    let end = at + 14 + RECORD_BYTES * usize::from(table.len());
    put_at(out, end, &count.to_le_bytes());
}
