//! Where the names of an operation lie.

ghost use Rattle.std.specs.Prelude.{◌≡◌, ℕ, ◌+◌, ◌<◌, ◌≤◌, List, [], ◌∷◌, length, Some, bytes_eq};
ghost use Rattle.std.specs.Prelude.{unwrap_or, OnOk, IfOk, true};
ghost use Rattle.std.specs.List.{list_any};
ghost use Rattle.op_text.specs.declared.tree.Param.{Param as Parameter};
ghost use Rattle.op_text.specs.Language.{statement, operation, result_names};
ghost use Rattle.op_text.specs.Rules.{is_among, second_of};
ghost use Rattle.op_text.specs.Meaning.{changed};
ghost use Rattle.op_text.specs.Scratch.{param, defines, result_kind};
ghost use Rattle.op_text.specs.WordOps.{forms};
ghost use Rattle.op_rules.specs.Meets.{OperationMeets};
ghost use Rattle.loop_ir.specs.Statements.{slots_of};
ghost use Rattle.uprog_gen.specs.Layout.{place_in, IsLayoutMap};
ghost use Rattle.uprog_gen.specs.Laying.{Lays, LaysSources, Knows, IsShort, kind_in};
ghost use Rattle.uprog_gen.specs.Laying.{states_defined, words_defined};

use indexmap::IndexMap;
use loop_ir::{NameMap, Slot, Space};
use mig_graph::NoMemory;
use op_text::{Assign, Kind, Op, Param, State, Stmt, WordOp, given_first, second_kind};
use std::alloc::Global;
use text_lex::Name;

/// Gives a name its place.
fn put(names: &mut NameMap, name: &Name, slot: Slot) -> Result<(), NoMemory>
    ensures slots { OnOk result ((n : List ℕ)
        → slots_of names.new n ≡ changed (slots_of names.old) name.now (Some slot) n) }
    ensures bits { names.new.free_bit ≡ names.old.free_bit }
    ensures words { names.new.free_word ≡ names.old.free_word }
{
    names.slots.insert(name.copied(), slot)?;
    Ok(())
}

/// Gives the sources their places.
fn place_sources(names: &mut NameMap, params: &[Param]) -> Result<(), NoMemory>
    requires { length params.now ≤ 4 }
    ensures { OnOk result (LaysSources 0 params.now names.old names.new) }
{
    for k in 0..params.len() {
        let param = &params[k];
        let slot = Slot {
            space: Space::Source,
            which: k as u8,
            kind: param.kind,
        };
        put(names, &param.name, slot)?;
    }
    Ok(())
}

/// Whether the name is a result's.
fn is_result(owner: &Op, name: &Name) -> bool
    ensures { result ≡ is_among (result_names (operation owner.now)) name.now }
{
    if owner.result.name.bytes() == name.bytes() {
        return true;
    }
    match &owner.second {
        Some(second) => second.name.bytes() == name.bytes(),
        None => false,
    }
}

/// Which result it is.
fn result_place(owner: &Op, name: &Name) -> u8
    requires { is_among (result_names (operation owner.now)) name.now ≡ true }
    ensures { result ≡ place_in (result_names (operation owner.now)) name.now }
{
    if owner.result.name.bytes() == name.bytes() {
        0
    } else {
        1
    }
}

/// Gives a name that the body defines the next place of its kind; a result stands in its own rows.
fn place(names: &mut NameMap, owner: &Op, name: &Name, kind: Kind) -> Result<(), NoMemory>
    requires bits { names.old.free_bit < 255 }
    requires words { names.old.free_word < 255 }
    ensures { OnOk result (Lays (result_names (operation owner.now))
        (param name.now kind ∷ []) names.old names.new) }
{
    if is_result(owner, name) {
        let slot = Slot {
            space: Space::Result,
            which: result_place(owner, name),
            kind,
        };
        return put(names, name, slot);
    }
    match kind {
        Kind::Bit => {
            let slot = Slot {
                space: Space::ScratchBit,
                which: names.free_bit,
                kind,
            };
            put(names, name, slot)?;
            names.free_bit += 1;
            Ok(())
        }
        Kind::Word => {
            let slot = Slot {
                space: Space::ScratchWord,
                which: names.free_word,
                kind,
            };
            put(names, name, slot)?;
            names.free_word += 1;
            Ok(())
        }
    }
}

fn is_state(states: &[State], name: &Name) -> bool
    ensures { result ≡ list_any (λ s. bytes_eq s.name name.now) states.now }
{
    states.iter().any(|s| s.name.bytes() == name.bytes())
}

/// Gives the states of a block their places.
fn place_states(names: &mut NameMap, owner: &Op, states: &[State]) -> Result<(), NoMemory>
    requires bits { names.old.free_bit + length states.now ≤ 255 }
    requires words { names.old.free_word < 255 }
    ensures { OnOk result (Lays (result_names (operation owner.now))
        (states_defined states.now) names.old names.new) }
{
    for state in states {
        place(names, owner, &state.name, Kind::Bit)?;
    }
    Ok(())
}

/// Gives an assigned name of a block its place, if it is no state.
fn place_word(
    names: &mut NameMap,
    owner: &Op,
    states: &[State],
    assign: &Assign,
) -> Result<(), NoMemory>
    requires bits { names.old.free_bit < 255 }
    requires words { names.old.free_word < 255 }
    ensures { OnOk result (Lays (result_names (operation owner.now))
        (words_defined states.now (assign.now ∷ [])) names.old
        names.new) }
{
    if is_state(states, &assign.name) {
        return Ok(());
    }
    place(names, owner, &assign.name, Kind::Word)
}

/// Gives the assigned names of a block that are no states their places.
fn place_words(
    names: &mut NameMap,
    owner: &Op,
    states: &[State],
    assigns: &[Assign],
) -> Result<(), NoMemory>
    requires bits { names.old.free_bit < 255 }
    requires words { names.old.free_word + length assigns.now ≤ 255 }
    ensures { OnOk result (Lays (result_names (operation owner.now))
        (words_defined states.now assigns.now) names.old
        names.new) }
{
    for assign in assigns {
        place_word(names, owner, states, assign)?;
    }
    Ok(())
}

/// The kind of a name; of one without a place, a word.
fn kind_of(names: &NameMap, name: &Name) -> Kind
    ensures { result ≡ unwrap_or (kind_in (slots_of names.now name.now)) Kind.Word }
{
    match names.slots.get(name) {
        Some(slot) => slot.kind,
        None => Kind::Word,
    }
}

/// The kind of a word statement's target.
fn kind_given(names: &NameMap, op: WordOp, args: &[Name]) -> Kind
    ensures { (known : List Parameter) → Knows known names.now
        → result ≡ result_kind known op args.now }
{
    match args {
        [] => given_first(op, None),
        [first, ..] => given_first(op, Some(kind_of(names, first))),
    }
}

/// Gives a second target its place.
fn place_second(
    names: &mut NameMap,
    owner: &Op,
    second: &Option<Name>,
    op: WordOp,
) -> Result<(), NoMemory>
    requires bits { names.old.free_bit < 255 }
    requires words { names.old.free_word < 255 }
    ensures { OnOk result (Lays (result_names (operation owner.now))
        (second_of second.now op)
        names.old names.new) }
{
    match second {
        Some(name) => place(names, owner, name, second_kind(op).unwrap_or(Kind::Word)),
        None => Ok(()),
    }
}

/// Gives the names that a statement defines their places.
fn place_statement(names: &mut NameMap, owner: &Op, stmt: &Stmt) -> Result<(), NoMemory>
    requires bits { names.old.free_bit ≤ 128 }
    requires words { names.old.free_word ≤ 128 }
    requires short { IsShort (statement stmt.now) }
    ensures { OnOk result ((known : List Parameter) → Knows known names.old
        → Lays (result_names (operation owner.now))
        (defines known (statement stmt.now)) names.old names.new) }
{
    match stmt {
        Stmt::Word {
            dst,
            second,
            op,
            args,
        } => {
            let kind = kind_given(names, *op, args);
            place(names, owner, dst, kind)?;
            place_second(names, owner, second, *op)
        }
        Stmt::Serial {
            states,
            assigns,
            ..
        } => {
            place_states(names, owner, states)?;
            place_words(names, owner, states, assigns)
        }
    }
}

/// The places of the names of an operation: the parameters are the sources, each result stands in
/// its own rows, and every other name that the body defines takes the next bit or word of scratch.
///
/// It is an `Err` only where it runs out of memory.
pub fn lay_out(op: &Op, alloc: Global) -> Result<NameMap, NoMemory>
    requires { OperationMeets (operation op.now) }
    ensures { IfOk result (IsLayoutMap (operation op.now)) }
{
    let mut names = NameMap {
        slots: IndexMap::new(alloc),
        free_bit: 0,
        free_word: 0,
    };
    place_sources(&mut names, &op.params)?;
    for stmt in &op.body {
        place_statement(&mut names, op, stmt)?;
    }
    Ok(names)
}
