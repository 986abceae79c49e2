//! The operations that a scan's program has.

ghost use Rattle.std.specs.Prelude.{◌≡◌, IfOk, true, codes};
ghost use Rattle.op_text.specs.Language.{operation, operations};
ghost use Rattle.op_text.specs.Scratch.{param as parameter};
ghost use Rattle.op_text.specs.Spelling.{MeetRules};
ghost use Rattle.text_lex.specs.Spelled.{fits_name};
ghost use Rattle.scan_model.specs.Operations.{of_one_source, of_two_sources, scan_operations};

use faults::NoMemory;
use op_text::{Kind, Op, Ops, Param, Stmt, WordOp};
use std::alloc::Global;
use text_lex::Name;

/// The name that the bytes spell.
pub(crate) fn named(bytes: &[u8]) -> Name
    requires { fits_name bytes.now ≡ true }
    ensures { result ≡ bytes.now }
{
    match Name::new(bytes) {
        Some(name) => name,
        None => unreachable!(),
    }
}

fn param(name: &[u8], kind: Kind) -> Param
    requires { fits_name name.now ≡ true }
    ensures { result ≡ parameter name.now kind }
{
    Param {
        name: named(name),
        kind,
    }
}

/// `op NAME(a: KIND, b: KIND) -> y: bit { y = OP(a, b); }`
fn of_two_sources(name: &[u8], kind: Kind, op: WordOp, alloc: Global) -> Result<Op, NoMemory>
    requires { fits_name name.now ≡ true }
    ensures { IfOk result (λ o. operation o ≡ of_two_sources name.now kind op) }
{
    let params = Vec::from_array(alloc, [param(b"a", kind), param(b"b", kind)])?;
    let args = Vec::from_array(alloc, [named(b"a"), named(b"b")])?;
    let statement = Stmt::Word {
        dst: named(b"y"),
        second: None,
        op,
        args,
    };
    Ok(Op {
        name: named(name),
        params,
        result: param(b"y", Kind::Bit),
        second: None,
        body: Vec::from_array(alloc, [statement])?,
    })
}

/// `op NAME(a: bit) -> y: bit { y = OP(a); }`
fn of_one_source(name: &[u8], op: WordOp, alloc: Global) -> Result<Op, NoMemory>
    requires { fits_name name.now ≡ true }
    ensures { IfOk result (λ o. operation o ≡ of_one_source name.now op) }
{
    let statement = Stmt::Word {
        dst: named(b"y"),
        second: None,
        op,
        args: Vec::from_array(alloc, [named(b"a")])?,
    };
    Ok(Op {
        name: named(name),
        params: Vec::from_array(alloc, [param(b"a", Kind::Bit)])?,
        result: param(b"y", Kind::Bit),
        second: None,
        body: Vec::from_array(alloc, [statement])?,
    })
}

fn six_ops(alloc: Global) -> Result<Ops, NoMemory>
    ensures { IfOk result (λ all. operations all ≡ scan_operations) }
{
    let eq = of_two_sources(b"s_eq", Kind::Word, WordOp::Eq, alloc)?;
    let gt = of_two_sources(b"s_gt", Kind::Word, WordOp::Gt, alloc)?;
    let ge = of_two_sources(b"s_ge", Kind::Word, WordOp::Ge, alloc)?;
    let negation = of_one_source(b"s_not", WordOp::Not, alloc)?;
    let and = of_two_sources(b"s_and", Kind::Bit, WordOp::And, alloc)?;
    let or = of_two_sources(b"s_or", Kind::Bit, WordOp::Or, alloc)?;
    let ops = Vec::from_array(alloc, [eq, gt, ge, negation, and, or])?;
    Ok(Ops { ops })
}

/// The six operations of scans, of one statement each: `s_eq`, `s_gt` and `s_ge` compare words,
/// and `s_not`, `s_and` and `s_or` join bits. They meet the rules of operation texts.
pub fn scan_ops(alloc: Global) -> Result<Ops, NoMemory>
    ensures ops { IfOk result (λ all. operations all ≡ scan_operations) }
    ensures meets { IfOk result (λ all. MeetRules (operations all)) }
{
    let ops = six_ops(alloc)?;
    Ok(ops)
}
