//! The program of a case.

ghost use Rattle.std.specs.Prelude.{◌≡◌, None, IfOk};
ghost use Rattle.op_text.specs.WordOps.{second_kind};
ghost use Rattle.soak_job.specs.OneCase.{IsFileOf};

use crate::ops::{one_statement, one_statements_meet};
use faults::NoMemory;
use op_text::WordOp;
use std::alloc::Global;
use uprog_bin::encode;
use uprog_gen::compile_ops;

/// The file of the program of an operation's one-statement op.
pub(crate) fn program_file(op: WordOp, alloc: Global) -> Result<Vec<u8>, NoMemory>
    requires { second_kind op ≡ None }
    ensures { IfOk result (λ file. IsFileOf op file.items) }
{
    let ops = one_statement(op, alloc)?;
    one_statements_meet();
    let Ok(compiled) = compile_ops(&ops, alloc) else {
        return Err(NoMemory);
    };
    encode(&compiled.program, alloc)
}
