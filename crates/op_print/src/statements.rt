//! Statements, written in lines.

ghost use Rattle.std.specs.Prelude.{◌≡◌, ◌++◌, codes, map, OnOk};
ghost use Rattle.std.specs.List.{flat_map};
ghost use Rattle.op_text.specs.Language.{equation, statement};
ghost use Rattle.op_text.specs.Spelling.{direction_text};
ghost use Rattle.op_print.specs.Canonical.{listed, state_text, equation_text, let_text, word_text};
ghost use Rattle.op_print.specs.Canonical.{line, statement_lines};

use crate::lists::{put_arguments, put_states, put_targets};
use crate::pieces::put;
use crate::values::put_equation;
use faults::NoMemory;
use op_text::{Assign, State, Stmt, WordOp, op_name};
use text_lex::Name;

/// Writes the line of a let.
fn put_let(out: &mut Vec<u8>, assign: &Assign) -> Result<(), NoMemory>
    ensures { OnOk result (out.new.items
        ≡ out.old.items ++ line (codes "    ") (let_text (equation assign.now))) }
{
    put(out, b"    let ")?;
    put_equation(out, assign)?;
    put(out, b"\n")
}

fn put_lets(out: &mut Vec<u8>, lets: &[Assign]) -> Result<(), NoMemory>
    ensures { OnOk result (out.new.items ≡ out.old.items
        ++ flat_map (λ e. line (codes "    ") (let_text e)) (map equation lets.now)) }
{
    for assign in lets {
        put_let(out, assign)?;
    }
    Ok(())
}

/// Writes the line of an assignment.
fn put_assign(out: &mut Vec<u8>, assign: &Assign) -> Result<(), NoMemory>
    ensures { OnOk result (out.new.items
        ≡ out.old.items ++ line (codes "    ") (equation_text (equation assign.now))) }
{
    put(out, b"    ")?;
    put_equation(out, assign)?;
    put(out, b"\n")
}

fn put_assigns(out: &mut Vec<u8>, assigns: &[Assign]) -> Result<(), NoMemory>
    ensures { OnOk result (out.new.items
        ≡ out.old.items ++ flat_map (λ e. line (codes "    ") (equation_text e))
        (map equation assigns.now)) }
{
    for assign in assigns {
        put_assign(out, assign)?;
    }
    Ok(())
}

/// Writes the line of a word statement.
fn put_word(
    out: &mut Vec<u8>,
    dst: &Name,
    second: &Option<Name>,
    op: WordOp,
    args: &[Name],
) -> Result<(), NoMemory>
    ensures { OnOk result (out.new.items
        ≡ out.old.items ++ line (codes "  ") (word_text dst.now second.now op args.now)) }
{
    put(out, b"  ")?;
    put_targets(out, dst, second)?;
    put(out, b" = ")?;
    put(out, op_name(op))?;
    put(out, b"(")?;
    put_arguments(out, args)?;
    put(out, b");\n")
}

/// Writes the first line of a block.
fn put_block_head(out: &mut Vec<u8>, down: bool, states: &[State]) -> Result<(), NoMemory>
    ensures { OnOk result (out.new.items
        ≡ out.old.items ++ line (codes "  ") (codes "serial " ++ direction_text down ++ codes " ("
        ++ listed state_text states.now ++ codes ") {")) }
{
    put(out, b"  serial ")?;
    if down {
        put(out, b"down (")?;
    } else {
        put(out, b"up (")?;
    }
    put_states(out, states)?;
    put(out, b") {\n")
}

fn put_statement(out: &mut Vec<u8>, stmt: &Stmt) -> Result<(), NoMemory>
    ensures { OnOk result (out.new.items
        ≡ out.old.items ++ statement_lines (statement stmt.now)) }
{
    match stmt {
        Stmt::Word {
            dst,
            second,
            op,
            args,
        } => put_word(out, dst, second, *op, args),
        Stmt::Serial {
            down,
            states,
            lets,
            assigns,
        } => {
            put_block_head(out, *down, states)?;
            put_lets(out, lets)?;
            put_assigns(out, assigns)?;
            put(out, b"  }\n")
        }
    }
}

/// Writes the lines of statements.
pub(crate) fn put_body(out: &mut Vec<u8>, body: &[Stmt]) -> Result<(), NoMemory>
    ensures { OnOk result (out.new.items
        ≡ out.old.items ++ flat_map statement_lines (map statement body.now)) }
{
    for stmt in body {
        put_statement(out, stmt)?;
    }
    Ok(())
}
