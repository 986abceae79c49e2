//! The names of trees: each is a name by its type, and going through them tells it of all.

ghost use Rattle.std.specs.Prelude.{map};
ghost use Rattle.op_text.specs.Language.{term, equation, statement, operation, operations};
ghost use Rattle.op_text.specs.Spelling.{Each, IfThere, IsName, HasNames, HasParam, HasState};
ghost use Rattle.op_text.specs.Spelling.{HasEquation, HasStatement, HasOperation};

use crate::tree::{Assign, Expr, Op, Ops, Param, State, Stmt};
use text_lex::Name;

fn see_name(name: &Name)
    ensures { IsName name.now }
{
    let _bytes = name.bytes();
}

fn see_value(value: &Expr)
    ensures { HasNames (term value.now) }
{
    match value {
        Expr::Zero | Expr::One => {}
        Expr::Read(name) => see_name(name),
        Expr::Not(a) => see_value(a),
        Expr::And(a, b) | Expr::Or(a, b) | Expr::Xor(a, b) => {
            see_value(a);
            see_value(b);
        }
        Expr::Maj(a, b, c) => {
            see_value(a);
            see_value(b);
            see_value(c);
        }
    }
}

fn see_args(args: &[Name])
    ensures { Each IsName args.now }
{
    for arg in args {
        see_name(arg);
    }
}

fn see_params(params: &[Param])
    ensures { Each HasParam params.now }
{
    for param in params {
        see_name(&param.name);
    }
}

fn see_states(states: &[State])
    ensures { Each HasState states.now }
{
    for state in states {
        see_name(&state.name);
    }
}

fn see_assigns(assigns: &[Assign])
    ensures { Each HasEquation (map equation assigns.now) }
{
    for assign in assigns {
        see_name(&assign.name);
        see_value(&assign.value);
    }
}

fn see_second_target(second: &Option<Name>)
    ensures { IfThere IsName second.now }
{
    if let Some(name) = second {
        see_name(name);
    }
}

fn see_second_result(second: &Option<Param>)
    ensures { IfThere HasParam second.now }
{
    if let Some(param) = second {
        see_name(&param.name);
    }
}

fn see_statement(stmt: &Stmt)
    ensures { HasStatement (statement stmt.now) }
{
    match stmt {
        Stmt::Word {
            dst,
            second,
            args,
            ..
        } => {
            see_name(dst);
            see_second_target(second);
            see_args(args);
        }
        Stmt::Serial {
            states,
            lets,
            assigns,
            ..
        } => {
            see_states(states);
            see_assigns(lets);
            see_assigns(assigns);
        }
    }
}

fn see_body(body: &[Stmt])
    ensures { Each HasStatement (map statement body.now) }
{
    for stmt in body {
        see_statement(stmt);
    }
}

fn see_op(op: &Op)
    ensures { HasOperation (operation op.now) }
{
    see_name(&op.name);
    see_params(&op.params);
    see_name(&op.result.name);
    see_second_result(&op.second);
    see_body(&op.body);
}

fn see_ops(ops: &[Op])
    ensures { Each HasOperation (map operation ops.now) }
{
    for op in ops {
        see_op(op);
    }
}

/// Tells that every name in ops is a name. It reads each once, and changes nothing.
pub fn names_are_names(ops: &Ops)
    ensures { Each HasOperation (operations ops.now) }
{
    see_ops(&ops.ops);
}
