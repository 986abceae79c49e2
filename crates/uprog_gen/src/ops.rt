//! The code of whole operations.

ghost use Rattle.std.specs.Prelude.{◌≡◌, ◌++◌, map, IfOk};
ghost use Rattle.op_text.specs.Language.{operation, operations};
ghost use Rattle.op_text.specs.Spelling.{Each, MeetRules};
ghost use Rattle.op_rules.specs.Meets.{OperationMeets, OpsMeet};
ghost use Rattle.uprog_code.specs.Shape.{microprogram_of, microprograms_of};
ghost use Rattle.uprog_code.specs.Programs.{IsProgram};
ghost use Rattle.uprog_code.specs.Texts.{text_op, ImplementsAll};
ghost use Rattle.uprog_gen.specs.Totals.{AreExact};
ghost use Rattle.uprog_gen.specs.Graphs.{graphed_of, AddsGraphs, AreGraphed};
ghost use Rattle.uprog_gen.specs.Programs.{IsCompiled, AreCompiled};

use crate::entry::compile_entry;
use crate::graphs::take_graphs;
use crate::head::head_of;
use crate::lowering::lower;
use block_lower::Searched;
use faults::keep;
use loop_ir::{Flow, NameMap};
use mig_graph::{MigOuts, NoMemory};
use op_rules::ops_meet;
use op_text::{Op, Ops};
use std::alloc::Global;
use uprog_code::{EntryCode, Program};

/// Where the names of an operation lie, and the flows of its statements in order.
#[derive(Drop)]
pub struct Lowered {
    pub names: NameMap,
    pub flows: Vec<Flow>,
}

/// The program of a text's operations, and the graphs of their serial blocks in the order of the
/// text.
#[derive(Drop)]
pub struct Compiled {
    pub program: Program,
    pub graphs: Vec<MigOuts>,
}

/// The code of an operation that meets the rules, and after other graphs those of its serial
/// blocks.
fn compile_op(
    op: &Op,
    graphs: &mut Vec<MigOuts>,
    searched: &mut Searched,
    alloc: Global,
) -> Result<EntryCode, NoMemory>
    requires meets { OperationMeets (operation op.now) }
    ensures compiled { IfOk result (λ entry.
        IsCompiled (microprogram_of entry) (operation op.now)) }
    ensures graphs { IfOk result (λ entry. AddsGraphs (microprogram_of entry) (operation op.now)
        (map graphed_of graphs.old.items) (map graphed_of graphs.new.items)) }
{
    let lowered = lower(op, searched, alloc)?;
    let entry = compile_entry(head_of(op, &lowered.names), &lowered.flows, alloc)?;
    take_graphs(op, lowered, graphs)?;
    Ok(entry)
}

/// The entries of operations that meet the rules, in order, and the graphs of their serial blocks.
fn compile_each(ops: &[Op], alloc: Global) -> Result<Compiled, NoMemory>
    requires meets { Each OperationMeets (map operation ops.now) }
    ensures compiled { IfOk result (λ c. AreCompiled (microprograms_of c.program)
        (map operation ops.now)) }
    ensures graphs { IfOk result (λ c. AreGraphed (microprograms_of c.program)
        (map operation ops.now) (map graphed_of c.graphs.items)) }
{
    let mut entries = Vec::new(alloc);
    let mut graphs = Vec::new(alloc);
    let mut searched = Searched::new(alloc);
    for op in ops {
        let entry = compile_op(op, &mut graphs, &mut searched, alloc)?;
        keep(&mut entries, entry)?;
    }
    Ok(Compiled {
        program: Program { entries },
        graphs,
    })
}

/// The program of a text's operations, an entry for each, in order, and the graphs of their serial
/// blocks.
///
/// It is an `Err` only where it runs out of memory.
pub fn compile_ops(ops: &Ops, alloc: Global) -> Result<Compiled, NoMemory>
    requires meets { MeetRules (operations ops.now) }
    ensures implements { IfOk result (λ c. ImplementsAll (microprograms_of c.program)
        (map text_op (operations ops.now))) }
    // A file can hold it.
    ensures program { IfOk result (λ c. IsProgram (microprograms_of c.program)) }
    // Each has a part of at most 256 instructions for each statement, which does it, and DONE; and
    // it takes exactly the commands of its parts.
    ensures compiled { IfOk result (λ c. AreCompiled (microprograms_of c.program)
        (operations ops.now)) }
    // The graphs are those of the blocks, which the code does, and no entry takes more commands
    // than they say.
    ensures graphs { IfOk result (λ c. AreGraphed (microprograms_of c.program) (operations ops.now)
        (map graphed_of c.graphs.items)) }
    // Each takes exactly the AAP and AP of its statements.
    ensures exact { IfOk result (λ c. AreExact (microprograms_of c.program)
        (operations ops.now)) }
    // The ops meet the rules as trees.
    ensures rules { OpsMeet (operations ops.now) }
{
    ops_meet(ops);
    compile_each(&ops.ops, alloc)
}
