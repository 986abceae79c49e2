//! The round trip.

ghost use Rattle.std.specs.Prelude.{◌≡◌, IfOk};
ghost use Rattle.op_text.specs.Language.{operations};
ghost use Rattle.op_text.specs.Spelling.{MeetRules};

use faults::NoMemory;
use op_lang::{Ops, OpsNo, parse_ops};
use op_print::print_ops;
use op_text::ops_of_a_text_are_one;
use std::alloc::Global;

/// Ops, written and read again: they are the same, and want of memory is the one thing that may
/// hinder it.
pub fn reread(ops: &Ops, alloc: Global) -> Result<Ops, NoMemory>
    requires { MeetRules (operations ops.now) }
    ensures { IfOk result (λ all. operations all ≡ operations ops.now) }
{
    let text = print_ops(ops, alloc)?;
    ops_of_a_text_are_one();
    match parse_ops(text.as_slice(), alloc) {
        Ok(again) => Ok(again),
        Err(OpsNo::NoMemory) => Err(NoMemory),
        Err(OpsNo::Fault(_)) => unreachable!(),
    }
}
