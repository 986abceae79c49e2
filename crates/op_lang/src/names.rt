//! Names in lists.

ghost use Rattle.std.specs.Prelude.{◌≡◌, ◌++◌, [], ◌∷◌, map, filter, not, Some, None, OnOk, IfOk};
ghost use Rattle.std.specs.Prelude.{if◌then◌else◌};
ghost use Rattle.op_text.specs.Rules.{is_among, is_bad, is_called, is_of_kind, kind_among};
ghost use Rattle.op_text.specs.Rules.{kind_of_word};
ghost use Rattle.op_text.specs.WordOps.{same_kind};

use faults::{NoMemory, keep};
use op_text::{Kind, Param, Spelling};
use std::alloc::Global;
use text_lex::Name;

pub(crate) fn is_among(names: &[Name], name: &[u8]) -> bool
    ensures { result ≡ is_among names.now name.now }
{
    names.iter().any(|n| n.bytes() == name)
}

/// A name that is not reserved and not too long.
pub(crate) fn good_name(spelling: Spelling, text: &[u8]) -> Option<Name>
    ensures { result ≡ (if is_bad spelling text.now then None else Some text.now) }
{
    match spelling {
        Spelling::Plain => Name::new(text),
        _ => None,
    }
}

/// A name that is reserved or too long.
pub(crate) fn is_bad(spelling: Spelling, text: &[u8]) -> bool
    ensures { result ≡ is_bad spelling text.now }
{
    match good_name(spelling, text) {
        Some(_) => false,
        None => true,
    }
}

pub(crate) fn is_called(called: &Option<Name>, text: &[u8]) -> bool
    ensures { result ≡ is_called called.now text.now }
{
    match called {
        None => false,
        Some(name) => name.bytes() == text,
    }
}

pub(crate) fn is_same_kind(a: Kind, b: Kind) -> bool
    ensures { result ≡ same_kind a b }
{
    match (a, b) {
        (Kind::Word, Kind::Word) => true,
        (Kind::Bit, Kind::Bit) => true,
        (Kind::Word, Kind::Bit) => false,
        (Kind::Bit, Kind::Word) => false,
    }
}

pub(crate) fn is_of_kind(found: Option<Kind>, kind: Kind) -> bool
    ensures { result ≡ is_of_kind found kind }
{
    match found {
        None => false,
        Some(found) => is_same_kind(found, kind),
    }
}

/// The kind of a name that can be read.
pub(crate) fn kind_of(defined: &[Param], name: &[u8]) -> Option<Kind>
    ensures { result ≡ kind_among defined.now name.now }
{
    match defined {
        [] => None,
        [first, rest @ ..] => {
            if first.name.bytes() == name {
                Some(first.kind)
            } else {
                kind_of(rest, name)
            }
        }
    }
}

/// The kind that the word `word` or `bit` names.
pub(crate) fn kind_of_word(spelling: Spelling) -> Kind
    ensures { result ≡ kind_of_word spelling }
{
    match spelling {
        Spelling::Word => Kind::Word,
        _ => Kind::Bit,
    }
}

/// Adds a name that can be read, if there is memory.
pub(crate) fn define(defined: &mut Vec<Param>, name: Name, kind: Kind) -> Result<(), NoMemory>
    ensures { OnOk result (defined.new.items ≡ defined.old.items
        ++ record { name = name; kind = kind } ∷ []) }
{
    keep(defined, Param { name, kind })
}

/// Adds names, if there is memory.
pub(crate) fn keep_all(names: &mut Vec<Name>, more: &[Name]) -> Result<(), NoMemory>
    ensures { OnOk result (names.new.items ≡ names.old.items ++ more.now) }
{
    for name in more {
        keep(names, name.copied())?;
    }
    Ok(())
}

/// Adds names that can be read, if there is memory.
pub(crate) fn define_all(
    defined: &mut Vec<Param>,
    names: &[Name],
    kind: Kind,
) -> Result<(), NoMemory>
    ensures { OnOk result (defined.new.items ≡ defined.old.items
        ++ map (λ n. record { name = n; kind = kind }) names.now) }
{
    for name in names {
        define(defined, name.copied(), kind)?;
    }
    Ok(())
}

/// Adds the names of such, if there is memory.
pub(crate) fn keep_names(names: &mut Vec<Name>, params: &[Param]) -> Result<(), NoMemory>
    ensures { OnOk result (names.new.items ≡ names.old.items
        ++ map (λ (p : Param). p.name) params.now) }
{
    for param in params {
        keep(names, param.name.copied())?;
    }
    Ok(())
}

/// Adds names that can be read, with their kinds, if there is memory.
pub(crate) fn define_params(defined: &mut Vec<Param>, params: &[Param]) -> Result<(), NoMemory>
    ensures { OnOk result (defined.new.items ≡ defined.old.items ++ params.now) }
{
    for param in params {
        define(defined, param.name.copied(), param.kind)?;
    }
    Ok(())
}

/// The names that are not among others, if there is memory.
pub(crate) fn others(names: &[Name], without: &[Name], alloc: Global) -> Result<Vec<Name>, NoMemory>
    ensures { IfOk result (λ v. v.items ≡ filter (λ n. not (is_among without.now n)) names.now) }
{
    let mut kept = Vec::new(alloc);
    for name in names {
        if !is_among(without, name.bytes()) {
            keep(&mut kept, name.copied())?;
        }
    }
    Ok(kept)
}
