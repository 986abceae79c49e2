//! Tables of triples.

ghost use Rattle.std.specs.Prelude.{◌≡◌, ◌∷◌, drop};
ghost use Rattle.std.specs.Str.{bytes_eq};
ghost use Rattle.guard_model.specs.Triples.{first_stranger as stranger, is_copy as is_copy_of};
ghost use Rattle.guard_model.specs.Triples.{is_first as starts};

use object_alloc::{Object, Table};
use text_lex::Name;

/// Whether it may be the first of a triple: an x before a name.
fn is_first(named: &(Name, Object)) -> bool
    ensures { result ≡ starts named.now }
{
    match named.0.bytes() {
        [b'x', name @ ..] => Name::new(name).is_some(),
        _ => false,
    }
}

/// The name after its first letter.
fn after_letter(name: &Name) -> &[u8]
    ensures { result.now ≡ drop 1 name.now }
{
    match name.bytes().split_first() {
        Some((_, rest)) => rest,
        None => name.bytes(),
    }
}

/// Whether it is this letter before this name.
fn is_letter_before(letter: u8, name: &[u8], whole: &[u8]) -> bool
    ensures { result ≡ bytes_eq whole.now (letter ∷ name.now) }
{
    match whole.split_first() {
        Some((head, rest)) => *head == letter && rest == name,
        None => false,
    }
}

/// Whether it is the copy under this letter of an object that stands under x.
fn is_copy(letter: u8, first: &(Name, Object), named: &(Name, Object)) -> bool
    ensures { result ≡ is_copy_of letter first.now named.now }
{
    is_letter_before(letter, after_letter(&first.0), named.0.bytes())
        && (named.1.width == first.1.width && named.1.count == first.1.count)
}

/// The first object, from 0, that does not continue a list of triples, or the number of objects
/// where the list ends inside one.
pub fn first_stranger(t: &Table) -> Option<u16>
    ensures { result ≡ stranger t.now.pairs }
{
    let len = t.len();
    let mut k = 0;
    while k + 2 < len {
        let x = t.at(k);
        if !is_first(&x) {
            return Some(k);
        }
        if !is_copy(b'y', &x, &t.at(k + 1)) {
            return Some(k + 1);
        }
        if !is_copy(b'z', &x, &t.at(k + 2)) {
            return Some(k + 2);
        }
        k += 3;
    }
    if k == len {
        return None;
    }
    let x = t.at(k);
    if !is_first(&x) {
        return Some(k);
    }
    if k + 1 == len || !is_copy(b'y', &x, &t.at(k + 1)) {
        return Some(k + 1);
    }
    Some(k + 2)
}
