//! The table of an image's objects, and the words of its rows.

ghost use Rattle.std.specs.Prelude.{◌≡◌};

use dram_model::Geometry;
use object_alloc::{Object, Table, bytes_of_words, read_table, words_of_bytes};
use std::alloc::Global;
use std::test::Fail;
use text_lex::Name;

/// A table's bytes: objects a, b and y in rows 0, 1 and 2, each of width 1 and count 4.
const TABLE: [u8; 74] = [
    3, 0, // three objects
    1, 0x61, 0, 0, 0, 0, 0, 0, 0, 0, 0, 0, 0, 0, 0, 0, 0, 1, 0, 0, 4, 0, 0, 0, // a
    1, 0x62, 0, 0, 0, 0, 0, 0, 0, 0, 0, 0, 0, 0, 0, 0, 0, 1, 1, 0, 4, 0, 0, 0, // b
    1, 0x79, 0, 0, 0, 0, 0, 0, 0, 0, 0, 0, 0, 0, 0, 0, 0, 1, 2, 0, 4, 0, 0, 0, // y
];

/// One bank of 64 rows of one word.
fn small() -> Geometry
    ensures { result ≡ record { banks = 1; rows = 64; words = 1 } }
{
    Geometry {
        banks: 1,
        rows: 64,
        words: 1,
    }
}

fn table_a(alloc: Global) -> Option<Table> {
    read_table(&TABLE, 0, small(), alloc).ok()
}

#[test]
fn rows_are_words(rt: HostRuntime) -> Result<(), Fail> {
    let bytes = *b"\x0C\0\0\0\0\0\0\0\x0A\0\0\0\0\0\0\x80";
    let mut words = [0; 2];
    words_of_bytes(&bytes, &mut words);
    assert!(rt; words == [12, 0x8000_0000_0000_000A]);
    let mut out = Vec::with_capacity(rt.alloc(), 16)?;
    bytes_of_words(&words, &mut out);
    assert!(rt; out.as_slice() == bytes.as_slice());
    Ok(())
}

#[test]
fn finds_the_least_base(rt: HostRuntime) -> Result<(), Fail> {
    let mut table = table_a(rt.alloc()).ok_or("it is a table")?;
    for (k, base) in [(0, Some(0)), (1, Some(3)), (29, Some(3)), (30, None)] {
        assert!(rt; table.find_rows(k) == base);
    }
    let name = Name::new(b"b").ok_or("it is a name")?;
    let b = Object {
        base: 1,
        width: 1,
        count: 4,
    };
    assert!(rt; table.look_up(&name) == Some(b));
    assert!(rt; table.remove(&name) == Some(b));
    assert!(rt; table.remove(&name) == None);
    assert!(rt; table.len() == 2);
    for (k, base) in [(0, Some(0)), (1, Some(1)), (2, Some(3)), (30, None)] {
        assert!(rt; table.find_rows(k) == base);
    }
    Ok(())
}
