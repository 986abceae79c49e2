//! The op of a case.

ghost use Rattle.std.specs.Prelude.{◌≡◌, ◌+◌, ◌<◌, ◌≤◌, [], ◌∷◌, ◌++◌, length, take, slice_get};
ghost use Rattle.std.specs.Prelude.{true};
ghost use Rattle.std.specs.Prelude.{Some, None, IfOk};
ghost use Rattle.text_lex.specs.Spelled.{fits_name};
ghost use Rattle.op_text.specs.declared.word_ops.WordOp.{WordOp};
ghost use Rattle.op_text.specs.Language.{operations};
ghost use Rattle.op_text.specs.Spelling.{MeetRules};
ghost use Rattle.op_text.specs.WordOps.{second_kind};
ghost use Rattle.soak_job.specs.Cases.{one_statement, params_of, source_names};

use crate::cases::{arguments_of, result_of, sources_of};
use faults::{NoMemory, keep};
use op_text::{Kind, Op, Ops, Param, Stmt, WordOp, op_name};
use std::alloc::Global;
use text_lex::Name;

/// The name of these bytes.
fn named(bytes: &[u8]) -> Name
    requires { fits_name bytes.now ≡ true }
    ensures { result ≡ bytes.now }
{
    match Name::new(bytes) {
        Some(name) => name,
        None => unreachable!(),
    }
}

/// The name of a source.
fn source_name(k: usize) -> Name
    requires { k < 3 }
    ensures there { slice_get source_names k ≡ Some result }
    ensures front { take (k + 1) source_names ≡ take k source_names ++ result ∷ [] }
{
    match k {
        0 => named(b"a"),
        1 => named(b"b"),
        _ => named(b"c"),
    }
}

/// Parameters of these kinds.
fn params_of(kinds: &[Kind], alloc: Global) -> Result<Vec<Param>, NoMemory>
    requires { length kinds.now ≤ 3 }
    ensures { IfOk result (λ params. params.items ≡ params_of kinds.now source_names) }
{
    let mut params = Vec::new(alloc);
    for k in 0..kinds.len() {
        let param = Param {
            name: source_name(k),
            kind: kinds[k],
        };
        keep(&mut params, param)?;
    }
    Ok(params)
}

/// The names of so many sources.
fn names_of(count: usize, alloc: Global) -> Result<Vec<Name>, NoMemory>
    requires { count ≤ 3 }
    ensures { IfOk result (λ names. names.items ≡ take count source_names) }
{
    let mut names = Vec::new(alloc);
    for k in 0..count {
        keep(&mut names, source_name(k))?;
    }
    Ok(names)
}

/// The op of one statement that does an operation.
pub fn one_statement(op: WordOp, alloc: Global) -> Result<Ops, NoMemory>
    ensures { IfOk result (λ ops. operations ops ≡ one_statement op ∷ []) }
{
    let params = params_of(sources_of(op), alloc)?;
    let args = names_of(arguments_of(op), alloc)?;
    let mut body = Vec::new(alloc);
    let statement = Stmt::Word {
        dst: named(b"y"),
        second: None,
        op,
        args,
    };
    keep(&mut body, statement)?;
    let mut ops = Vec::new(alloc);
    let whole = Op {
        name: named(op_name(op)),
        params,
        result: Param {
            name: named(b"y"),
            kind: result_of(op),
        },
        second: None,
        body,
    };
    keep(&mut ops, whole)?;
    Ok(Ops { ops })
}

/// Shows that the op of one statement meets the rules, whatever its operation with one result is.
pub fn one_statements_meet()
    ensures { (op : WordOp) → second_kind op ≡ None → MeetRules (one_statement op ∷ []) }
{}
