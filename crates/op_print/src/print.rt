//! Ops, written.

ghost use Rattle.std.specs.Prelude.{◌≡◌, ◌++◌, ◌<◌, ◌^◌, [], length, map, codes, OnOk, IfOk};
ghost use Rattle.op_text.specs.Language.{operation, operations};
ghost use Rattle.op_text.specs.Spelling.{MeetRules};
ghost use Rattle.op_text.specs.OpsOf.{IsOpsOf};
ghost use Rattle.op_print.specs.Canonical.{op_head, line, op_lines, canonical_text, listed};
ghost use Rattle.op_print.specs.Canonical.{param_text};

use crate::lists::{put_params, put_results};
use crate::pieces::put;
use crate::statements::put_body;
use faults::NoMemory;
use op_rules::ops_meet;
use op_text::{Op, Ops};
use std::alloc::Global;

/// Writes the first line of an op up to its sources.
fn put_sources(out: &mut Vec<u8>, op: &Op) -> Result<(), NoMemory>
    ensures { OnOk result (out.new.items ≡ out.old.items ++ codes "op " ++ op.now.name ++ codes "("
        ++ listed param_text op.now.params.items) }
{
    put(out, b"op ")?;
    put(out, op.name.bytes())?;
    put(out, b"(")?;
    put_params(out, &op.params)
}

/// Writes the first line of an op.
fn put_head(out: &mut Vec<u8>, op: &Op) -> Result<(), NoMemory>
    ensures { OnOk result (out.new.items
        ≡ out.old.items ++ line [] (op_head (operation op.now))) }
{
    put_sources(out, op)?;
    put(out, b") -> ")?;
    put_results(out, &op.result, &op.second)?;
    put(out, b" {\n")
}

fn put_op(out: &mut Vec<u8>, op: &Op) -> Result<(), NoMemory>
    ensures { OnOk result (out.new.items ≡ out.old.items ++ op_lines (operation op.now)) }
{
    put_head(out, op)?;
    put_body(out, &op.body)?;
    put(out, b"}\n")
}

fn put_ops(out: &mut Vec<u8>, ops: &[Op]) -> Result<(), NoMemory>
    ensures { OnOk result (out.new.items
        ≡ out.old.items ++ canonical_text (map operation ops.now)) }
{
    for op in ops {
        put_op(out, op)?;
    }
    Ok(())
}

/// The canonical text of ops, whose ops these are. It is never too long to be read.
pub fn print_ops(ops: &Ops, alloc: Global) -> Result<Vec<u8>, NoMemory>
    requires { MeetRules (operations ops.now) }
    ensures text { IfOk result (λ text. text.items ≡ canonical_text (operations ops.now)) }
    ensures read { IfOk result (λ text. IsOpsOf text.items (operations ops.now)) }
    ensures short { IfOk result (λ text. length text.items < 2 ^ 32) }
{
    ops_meet(ops);
    let mut out = Vec::new(alloc);
    put_ops(&mut out, &ops.ops)?;
    Ok(out)
}
