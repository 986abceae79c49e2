//! The names of the objects that a scan makes.

ghost use Rattle.std.specs.Prelude.{◌≡◌, ◌+◌, ◌<◌, ◌++◌, ℕ, List, length, take, not, ◌∷◌, []};
ghost use Rattle.std.specs.Prelude.{filter};
ghost use Rattle.std.specs.Prelude.{◌≤◌, slice_index_or};
ghost use Rattle.object_alloc.specs.Listed.{has_name};
ghost use Rattle.scan_model.specs.Names.{free_among, free_name, scan_name};

use crate::ops::named;
use arrayvec::ArrayVec;
use itoa::Buffer;
use object_alloc::Table;
use text_lex::Name;

/// As many names as a query of the most nodes takes: one for what it compares with, and one for
/// each node.
pub(crate) const NAMES: usize = 65;

/// Whether no object has this name.
pub(crate) fn is_free(table: &Table, name: &Name) -> bool
    ensures { result ≡ not (has_name table.now.pairs name.now) }
{
    match table.look_up(name) {
        Some(_) => false,
        None => true,
    }
}

/// `scan_` and the number.
fn scan_text(i: u16) -> ArrayVec<u8, 16>
    ensures { result.items ≡ scan_name i }
{
    let mut text = ArrayVec::new();
    text.try_extend_from_slice(b"scan_").unwrap();
    let mut buffer = Buffer::new();
    text.try_extend_from_slice(buffer.format(i).as_bytes())
        .unwrap();
    text
}

fn scan_name(i: u16) -> Name
    requires { i < 1000 }
    ensures { result ≡ scan_name i }
{
    let text = scan_text(i);
    named(text.as_slice())
}

/// Keeps a name that is free, while there is room.
fn keep_free(names: &mut ArrayVec<Name, 65>, table: &Table, name: Name)
    ensures { (all : List (List ℕ)) → names.old.items ≡ take 65 all → names.new.items
        ≡ take 65 (all ++ filter (λ n. not (has_name table.now.pairs n)) (name ∷ [])) }
{
    if is_free(table, &name) && names.len() < NAMES {
        names.push(name);
    }
}

/// The first free names.
pub(crate) fn free_names(table: &Table) -> ArrayVec<Name, 65>
    ensures names { result.items ≡ take 65 (free_among table.now.pairs
        (length table.now.pairs + 65)) }
    ensures free { (k : ℕ) → k ≤ 64
        → slice_index_or result.items k [] ≡ free_name table.now.pairs k }
    ensures full { length result.items ≡ 65 }
{
    let mut names = ArrayVec::new();
    for i in 0..table.len() + 65 {
        keep_free(&mut names, table, scan_name(i));
    }
    names
}
