//! The table of objects.

ghost use Rattle.std.specs.Prelude.{List, ◌≡◌, ◌+◌, ◌-◌, ◌^◌, ◌<◌, ◌≤◌, [], ◌∷◌, ◌++◌, length, ℕ};
ghost use Rattle.std.specs.Prelude.{true, false, IfOk, Some, slice_get, All, vec_capacity};
ghost use Rattle.std.specs.Option.{option_map};
ghost use Rattle.std.specs.List.{find};
ghost use Rattle.std.specs.Str.{bytes_eq};
ghost use Rattle.text_lex.specs.Spelled.{fits_name};
ghost use Rattle.dram_model.specs.Geometry.{is_geometry};
ghost use Rattle.object_alloc.specs.declared.table.Object.{Object};
ghost use Rattle.object_alloc.specs.Free.{free, are_free, meets, end_of, IsLeastFree};
ghost use Rattle.object_alloc.specs.Listed.{IsTable, objects_of, look_up, has_name, without};

use crate::sizes::OBJECTS_MAX;
use dram_model::Geometry;
use faults::NoMemory;
use std::alloc::Global;
use std::marker::Model;
use text_lex::Name;

/// The same `width` rows of every bank from `base` on, and how many elements they hold, one in each
/// column.
#[derive(Clone, Copy, Debug, PartialEq, Eq)]
pub struct Object {
    pub base: u16,
    pub width: u8,
    pub count: u32,
}

/// The row after the last of the first object that has one of the k rows from `base` on.
fn blocker(pairs: &[(Name, Object)], base: u16, k: u16) -> Option<u16>
    requires rows { base + k < 2 ^ 16 }
    requires objects { All (λ p. end_of p.1 < 2 ^ 16) pairs.now }
    ensures { result ≡ option_map end_of (find (meets base k) (objects_of pairs.now)) }
{
    let last = base + k;
    for pair in pairs {
        let o = pair.1;
        let end = o.base + u16::from(o.width);
        if (o.base < last && base < end) && (base < last && o.base < end) {
            return Some(end);
        }
    }
    None
}

/// The least base of k free rows.
fn least_base(pairs: &[(Name, Object)], limit: u16, k: u16) -> Option<u16>
    requires limit { limit < 2 ^ 15 }
    requires objects { All (λ p. end_of p.1 ≤ limit) pairs.now }
    ensures { result ≡ free limit (objects_of pairs.now) k }
{
    if k > limit {
        return None;
    }
    let mut base = 0;
    while let Some(end) = blocker(pairs, base, k) {
        base = end;
    }
    if base + k <= limit { Some(base) } else { None }
}

/// Whether it is the same name.
fn is_same(a: &Name, b: &Name) -> bool
    ensures { result ≡ bytes_eq a.now b.now }
{
    a.bytes() == b.bytes()
}

/// The object of this name.
fn object_in(pairs: &[(Name, Object)], name: &Name) -> Option<Object>
    ensures { result ≡ look_up pairs.now name.now }
{
    for pair in pairs {
        if is_same(&pair.0, name) {
            return Some(pair.1);
        }
    }
    None
}

/// Takes the pair of this name away.
fn take_away(pairs: &mut Vec<(Name, Object)>, name: &Name)
    ensures rest { pairs.new.items ≡ without pairs.old.items name.now }
    ensures capacity { vec_capacity pairs.new ≡ vec_capacity pairs.old }
{
    let mut k = 0;
    while k < pairs.len() {
        if is_same(&pairs[k].0, name) {
            pairs.remove(k);
        } else {
            k += 1;
        }
    }
}

/// Objects under their names, in order of insertion, and in how many rows of each bank they may
/// lie. No two have one
/// name or a row in common.
pub struct Table {
    limit: u16,
    pairs: Vec<(Name, Object)>,
}

impl Drop for Table {
    fn drop(self) {
        let Table { limit: _, pairs: _ } = self;
    }
}

impl Model for Table {
    ghost use Rattle.std.specs.Prelude.{◌≡◌, ◌≤◌, true, All, vec_capacity};
    ghost use Rattle.text_lex.specs.Spelled.{fits_name};
    ghost use Rattle.object_alloc.specs.Listed.{Listing, IsTable};

    ghost Value = { Listing };

    ghost view = { λ t. record { limit = t.limit; pairs = t.pairs.items } };

    ghost invariant = { λ t. (t.limit ≤ 974) × IsTable t.limit t.pairs.items
        × (256 ≤ vec_capacity t.pairs) × All (λ p. fits_name p.0 ≡ true) t.pairs.items };
}

impl Table {
    /// No objects yet. It takes the memory for 256, so that `add` takes none.
    pub fn new(g: Geometry, alloc: Global) -> Result<Table, NoMemory>
        requires { is_geometry g ≡ true }
        ensures { IfOk result (λ t. t ≡ record { limit = g.rows - 32; pairs = [] }) }
    {
        let pairs = Vec::with_capacity(alloc, OBJECTS_MAX)?;
        Ok(Table {
            limit: g.rows - Geometry::SPILL_ROWS,
            pairs,
        })
    }

    /// The least base of k free rows.
    pub fn find_rows(&self, k: u16) -> Option<u16>
        ensures { result ≡ free self.now.limit (objects_of self.now.pairs) k }
    {
        least_base(&self.pairs, self.limit, k)
    }

    /// Whether the k rows from `base` on are free.
    pub(crate) fn is_free(&self, base: u16, k: u16) -> bool
        requires { base + k ≤ self.now.limit }
        ensures { result ≡ are_free self.now.limit (objects_of self.now.pairs) k base }
    {
        blocker(&self.pairs, base, k).is_none()
    }

    /// Whether an object has this name.
    pub(crate) fn has_name(&self, name: &[u8]) -> bool
        ensures { result ≡ has_name self.now.pairs name.now }
    {
        self.pairs.iter().any(|pair| pair.0.bytes() == name)
    }

    /// How many objects there are.
    pub fn len(&self) -> u16
        ensures value { result ≡ length self.now.pairs }
        ensures kept { IsTable self.now.limit self.now.pairs }
        ensures low { self.now.limit ≤ 974 }
        ensures names { All (λ p. fits_name p.0 ≡ true) self.now.pairs }
    {
        self.pairs.len() as u16
    }

    /// The object of this name.
    pub fn look_up(&self, name: &Name) -> Option<Object>
        ensures { result ≡ look_up self.now.pairs name.now }
    {
        object_in(&self.pairs, name)
    }

    /// The pair at a place of the list.
    pub fn at(&self, k: u16) -> (Name, Object)
        requires { k < length self.now.pairs }
        ensures { slice_get self.now.pairs k ≡ Some result }
    {
        let pair = &self.pairs[usize::from(k)];
        (pair.0.copied(), pair.1)
    }

    /// Adds an object as the last.
    pub fn add(&mut self, name: Name, o: Object)
        requires few { length self.old.pairs < 256 }
        requires new { has_name self.old.pairs name ≡ false }
        requires some { 0 < o.width }
        requires rows { are_free self.old.limit (objects_of self.old.pairs) o.width o.base ≡ true }
        ensures { self.new ≡ record {
          limit = self.old.limit;
          pairs = self.old.pairs ++ (name, o)
              ∷ [];
        } }
    {
        prove!(!self.has_name(name.bytes()));
        match self.pairs.push((name, o)) {
            Ok(()) => {}
            Err(_) => unreachable!(),
        }
    }

    /// Takes the object of this name away, and closes the list up.
    pub fn remove(&mut self, name: &Name) -> Option<Object>
        ensures found { result ≡ look_up self.old.pairs name.now }
        ensures rest { self.new ≡ record {
          limit = self.old.limit;
          pairs = without self.old.pairs name.now;
        } }
    {
        let found = object_in(&self.pairs, name);
        take_away(&mut self.pairs, name);
        found
    }
}

/// Shows that the base that `find_rows` answers is the least, and that there is none where it
/// answers none.
pub fn free_is_least()
    ensures { (limit : ℕ) (objects : List Object) (k : ℕ)
        → IsLeastFree limit objects k (free limit objects k) }
{}
