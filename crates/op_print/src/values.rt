//! Values and what they are set to, written.

ghost use Rattle.std.specs.Prelude.{◌≡◌, ◌++◌, OnOk, codes};
ghost use Rattle.op_text.specs.Language.{term, equation};
ghost use Rattle.op_print.specs.Canonical.{value_text, equation_text};

use crate::pieces::{put, put_comma};
use faults::NoMemory;
use op_text::{Assign, Expr};

/// The last two arguments of a gate, with the parenthesis after them.
#[cycle(values)]
fn put_pair(out: &mut Vec<u8>, a: &Expr, b: &Expr) -> Result<(), NoMemory>
    ensures { OnOk result (out.new.items ≡ out.old.items ++ value_text (term a.now) ++ codes ", "
        ++ value_text (term b.now) ++ codes ")") }
{
    put_value(out, a)?;
    put_comma(out)?;
    put_value(out, b)?;
    put(out, b")")
}

#[cycle(values)]
fn put_value(out: &mut Vec<u8>, value: &Expr) -> Result<(), NoMemory>
    ensures { OnOk result (out.new.items ≡ out.old.items ++ value_text (term value.now)) }
{
    match value {
        Expr::Zero => put(out, b"0"),
        Expr::One => put(out, b"1"),
        Expr::Read(name) => put(out, name.bytes()),
        Expr::Not(a) => {
            put(out, b"not(")?;
            put_value(out, a)?;
            put(out, b")")
        }
        Expr::And(a, b) => {
            put(out, b"and(")?;
            put_pair(out, a, b)
        }
        Expr::Or(a, b) => {
            put(out, b"or(")?;
            put_pair(out, a, b)
        }
        Expr::Xor(a, b) => {
            put(out, b"xor(")?;
            put_pair(out, a, b)
        }
        Expr::Maj(a, b, c) => {
            put(out, b"maj(")?;
            put_value(out, a)?;
            put_comma(out)?;
            put_pair(out, b, c)
        }
    }
}

/// Writes a name, what it is set to, and the `;`.
pub(crate) fn put_equation(out: &mut Vec<u8>, assign: &Assign) -> Result<(), NoMemory>
    ensures { OnOk result (out.new.items
        ≡ out.old.items ++ equation_text (equation assign.now)) }
{
    put(out, assign.name.bytes())?;
    put(out, b" = ")?;
    put_value(out, &assign.value)?;
    put(out, b";")
}
