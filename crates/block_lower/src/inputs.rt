//! The inputs of a block's graph: the names other than lets that it reads, in the order of the
//! text.

ghost use Rattle.indexmap.specs.IndexMap.{get};
ghost use Rattle.std.specs.Prelude.{◌≡◌, ◌≢◌, Some, bytes_eq, ◌+◌, ◌<◌, ◌≤◌, ◌^◌, ◌++◌, ◌∷◌, []};
ghost use Rattle.std.specs.Prelude.{not, Bool, List, ℕ, map, filter, length, IfOk, OnOk};
ghost use Rattle.std.specs.Prelude.{if◌then◌else◌};
ghost use Rattle.op_text.specs.Language.{term, equation};
ghost use Rattle.op_text.specs.Rules.{is_among};
ghost use Rattle.loop_ir.specs.Statements.{term_names, equation_names, targets_of};
ghost use Rattle.block_lower.specs.Inputs.{gathered, AreNumbered};

use faults::keep;
use indexmap::IndexMap;
use mig_graph::NoMemory;
use op_text::{Assign, Expr};
use std::alloc::Global;
use text_lex::Name;

/// The numbers of the inputs by their names, and the names in the order of their numbers.
pub(crate) struct Inputs {
    pub numbers: IndexMap<Name, u8>,
    pub order: Vec<Name>,
}

impl Drop for Inputs {
    fn drop(self) {
        let Inputs {
            numbers: _,
            order: _,
        } = self;
    }
}

/// The names that an expression reads, after those that were found.
fn find(found: &mut Vec<Name>, e: &Expr) -> Result<(), NoMemory>
    ensures { OnOk result (found.new.items ≡ found.old.items ++ term_names (term e.now)) }
{
    match e {
        Expr::Zero => Ok(()),
        Expr::One => Ok(()),
        Expr::Read(name) => keep(found, name.copied()),
        Expr::Not(a) => find(found, a),
        Expr::And(a, b) => {
            find(found, a)?;
            find(found, b)
        }
        Expr::Or(a, b) => {
            find(found, a)?;
            find(found, b)
        }
        Expr::Xor(a, b) => {
            find(found, a)?;
            find(found, b)
        }
        Expr::Maj(a, b, c) => {
            find(found, a)?;
            find(found, b)?;
            find(found, c)
        }
    }
}

/// The names that these expressions read.
fn find_all(found: &mut Vec<Name>, assigns: &[Assign]) -> Result<(), NoMemory>
    ensures { OnOk result (found.new.items ≡ found.old.items
        ++ equation_names (map equation assigns.now)) }
{
    match assigns {
        [] => Ok(()),
        [a, rest @ ..] => {
            find(found, &a.value)?;
            find_all(found, rest)
        }
    }
}

/// Whether a let has the name.
fn is_let(lets: &[Assign], name: &Name) -> bool
    ensures { result ≡ is_among (targets_of (map equation lets.now)) name.now }
{
    match lets {
        [] => false,
        [l, rest @ ..] => l.name == *name || is_let(rest, name),
    }
}

/// Notes the number of a name.
fn note(numbers: &mut IndexMap<Name, u8>, name: Name, k: u8) -> Result<(), NoMemory>
    ensures same { OnOk result (get bytes_eq numbers.new name ≡ Some k) }
    ensures others { OnOk result ((other : List ℕ) → other ≢ name
        → get bytes_eq numbers.new other ≡ get bytes_eq numbers.old other) }
{
    numbers.insert(name, k)?;
    Ok(())
}

/// Gives the name the next number, if it has none.
fn number(inputs: &mut Inputs, name: &Name) -> Result<(), NoMemory>
    requires numbered { AreNumbered inputs.old.order.items inputs.old.numbers }
    requires room { length inputs.old.order.items < 255 }
    ensures numbered { OnOk result (AreNumbered inputs.new.order.items inputs.new.numbers) }
    ensures order { OnOk result (inputs.new.order.items
        ≡ gathered inputs.old.order.items (name.now ∷ [])) }
{
    if inputs.numbers.contains_key(name) {
        return Ok(());
    }
    let next = inputs.order.len() as u8;
    keep(&mut inputs.order, name.copied())?;
    note(&mut inputs.numbers, name.copied(), next)?;
    Ok(())
}

/// The same, if no let has the name.
fn number_other(inputs: &mut Inputs, lets: &[Assign], name: &Name) -> Result<(), NoMemory>
    requires numbered { AreNumbered inputs.old.order.items inputs.old.numbers }
    requires room { length inputs.old.order.items < 255 }
    ensures numbered { OnOk result (AreNumbered inputs.new.order.items inputs.new.numbers) }
    ensures order { OnOk result (inputs.new.order.items
        ≡ gathered inputs.old.order.items (filter
        (λ name. not (is_among (targets_of (map equation lets.now)) name)) (name.now ∷ []))) }
{
    if is_let(lets, name) {
        return Ok(());
    }
    number(inputs, name)
}

/// Numbers the names that no let has.
fn number_all(inputs: &mut Inputs, found: &[Name], lets: &[Assign]) -> Result<(), NoMemory>
    requires numbered { AreNumbered inputs.old.order.items inputs.old.numbers }
    requires room { length inputs.old.order.items + length found.now < 256 }
    ensures numbered { OnOk result (AreNumbered inputs.new.order.items inputs.new.numbers) }
    ensures order { OnOk result (inputs.new.order.items
        ≡ gathered inputs.old.order.items (filter
        (λ name. not (is_among (targets_of (map equation lets.now)) name)) found.now)) }
{
    match found {
        [] => Ok(()),
        [name, rest @ ..] => {
            number_other(inputs, lets, name)?;
            number_all(inputs, rest, lets)
        }
    }
}

/// The inputs of a block.
pub(crate) fn inputs_of(
    lets: &[Assign],
    assigns: &[Assign],
    alloc: Global,
) -> Result<Inputs, NoMemory>
    requires room { length (equation_names (map equation lets.now)
        ++ equation_names (map equation assigns.now)) < 256 }
    ensures numbered { IfOk result (λ r. AreNumbered r.order.items r.numbers) }
    ensures order { IfOk result (λ r. r.order.items
        ≡ gathered [] (filter (λ name. not (is_among (targets_of (map equation lets.now)) name))
        (equation_names (map equation lets.now) ++ equation_names (map equation assigns.now)))) }
{
    let mut found = Vec::new(alloc);
    find_all(&mut found, lets)?;
    find_all(&mut found, assigns)?;
    let mut inputs = Inputs {
        numbers: IndexMap::new(alloc),
        order: Vec::new(alloc),
    };
    number_all(&mut inputs, &found, lets)?;
    Ok(inputs)
}
