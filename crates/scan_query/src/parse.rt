//! Queries, token by token.

ghost use Rattle.std.specs.Prelude.{◌≡◌, ◌+◌, ◌<◌, ◌≤◌, [], ◌∷◌};
ghost use Rattle.std.specs.Prelude.{◌++◌, codes, length, map, IfOk, OnOk};
ghost use Rattle.std.specs.Prelude.{IfErr, ◌^◌};
ghost use Rattle.scan_model.specs.Texts as model;
ghost use Rattle.scan_query.specs.declared.reading.ReadError.TheVariants as stop;
ghost use Rattle.scan_query.specs.Parsing.{IsQueryOf, Parses};
ghost use Rattle.scan_query.specs.Queries.{node_of};
ghost use Rattle.scan_query.specs.Reading.{Finds, Moves, Reads, join_node, join_text, left, seen};

use crate::lines::line_of;
use crate::operand::operand;
use crate::parser::Parser;
use crate::query::{Node, Query, QueryNo};
use crate::reading::{Lead, Mark, ReadError, begins, bound, ends, start, symbol};
use scan_model::{CmpOp, QueryFault, texts_spell_queries};
use std::alloc::Global;

/// Puts a node after the others; answers its place.
fn push(nodes: &mut Vec<Node>, node: Node) -> Result<u8, ReadError>
    requires { length nodes.old.items < 64 }
    ensures last { IfOk result (λ k. k ≡ length nodes.old.items) }
    ensures nodes { OnOk result (nodes.new.items ≡ nodes.old.items ++ node ∷ []) }
    ensures memory { IfErr result (λ e. e ≡ stop.Memory) }
{
    let place = nodes.len() as u8;
    nodes.push(node)?;
    Ok(place)
}

/// A comparison, after its first word.
fn test(parser: &mut Parser<'_>, op: CmpOp, nodes: &mut Vec<Node>) -> Result<u8, ReadError>
    requires few { length nodes.old.items < parser.old.nodes }
    requires limit { parser.old.nodes ≤ 64 }
    ensures moves { Moves (model.wanted_after (model.Compares op)) (seen parser.old) result
        (seen parser.new) }
    ensures reads { IfOk result (λ k. Reads (model.Name (model.lead_text (model.Compares op))
        ∷ left (seen parser.old)) k (seen parser.new) (map node_of nodes.old.items)
        (map node_of nodes.new.items)) }
    ensures grown { OnOk result (parser.new.nodes + length nodes.old.items + 1
        ≡ parser.old.nodes + length nodes.new.items) }
    ensures limit { OnOk result (parser.new.nodes ≤ 64) }
    ensures shorter { OnOk result (length (left (seen parser.new))
        ≤ length (left (seen parser.old))) }
{
    symbol(parser, Mark::Opens)?;
    let place = operand(parser)?;
    let value = bound(parser)?;
    symbol(parser, Mark::Closes)?;
    push(nodes, Node::Cmp { op, place, value })
}

fn join_of(both: bool, a: u8, b: u8) -> Node
    ensures { node_of result ≡ join_node both a b }
{
    if both {
        Node::And(a, b)
    } else {
        Node::Or(a, b)
    }
}

/// What stands after `not`.
#[cycle(queries)]
fn negation(parser: &mut Parser<'_>, nodes: &mut Vec<Node>) -> Result<u8, ReadError>
    requires few { length nodes.old.items < parser.old.nodes }
    requires limit { parser.old.nodes ≤ 64 }
    ensures moves { Moves (model.wanted_after model.Negates) (seen parser.old) result
        (seen parser.new) }
    ensures reads { IfOk result (λ k. Reads (model.Name (codes "not") ∷ left (seen parser.old)) k
        (seen parser.new) (map node_of nodes.old.items) (map node_of nodes.new.items)) }
    ensures grown { OnOk result (parser.new.nodes + length nodes.old.items + 1
        ≡ parser.old.nodes + length nodes.new.items) }
    ensures limit { OnOk result (parser.new.nodes ≤ 64) }
    ensures shorter { OnOk result (length (left (seen parser.new))
        ≤ length (left (seen parser.old))) }
{
    symbol(parser, Mark::Opens)?;
    let a = query(parser, nodes)?;
    symbol(parser, Mark::Closes)?;
    push(nodes, Node::Not(a))
}

/// What stands after `and` or `or`.
#[cycle(queries)]
fn join(parser: &mut Parser<'_>, both: bool, nodes: &mut Vec<Node>) -> Result<u8, ReadError>
    requires few { length nodes.old.items < parser.old.nodes }
    requires limit { parser.old.nodes ≤ 64 }
    ensures moves { Moves (model.wanted_after model.Ands) (seen parser.old) result
        (seen parser.new) }
    ensures reads { IfOk result (λ k. Reads (model.Name (join_text both) ∷ left (seen parser.old)) k
        (seen parser.new) (map node_of nodes.old.items) (map node_of nodes.new.items)) }
    ensures grown { OnOk result (parser.new.nodes + length nodes.old.items + 1
        ≡ parser.old.nodes + length nodes.new.items) }
    ensures limit { OnOk result (parser.new.nodes ≤ 64) }
    ensures shorter { OnOk result (length (left (seen parser.new))
        ≤ length (left (seen parser.old))) }
{
    symbol(parser, Mark::Opens)?;
    let a = query(parser, nodes)?;
    symbol(parser, Mark::Comma)?;
    let b = query(parser, nodes)?;
    symbol(parser, Mark::Closes)?;
    push(nodes, join_of(both, a, b))
}

/// A query, whose nodes are put after the others; answers the place of its last.
#[cycle(queries)]
pub(crate) fn query(parser: &mut Parser<'_>, nodes: &mut Vec<Node>) -> Result<u8, ReadError>
    requires few { length nodes.old.items ≤ parser.old.nodes }
    requires limit { parser.old.nodes ≤ 64 }
    ensures moves { Moves (model.Start ∷ []) (seen parser.old) result (seen parser.new) }
    ensures reads { IfOk result (λ k. Reads (left (seen parser.old)) k (seen parser.new)
        (map node_of nodes.old.items) (map node_of nodes.new.items)) }
    ensures grown { OnOk result (parser.new.nodes + length nodes.old.items
        ≡ parser.old.nodes + length nodes.new.items) }
    ensures limit { OnOk result (parser.new.nodes ≤ 64) }
    ensures shorter { OnOk result (length (left (seen parser.new))
        < length (left (seen parser.old))) }
{
    match begins(parser)? {
        Lead::Compares(op) => test(parser, op, nodes),
        Lead::Negates => negation(parser, nodes),
        Lead::Ands => join(parser, true, nodes),
        Lead::Ors => join(parser, false, nodes),
    }
}

/// The nodes of a whole text.
fn whole(text: &[u8], alloc: Global) -> Result<Vec<Node>, ReadError>
    ensures finds { Finds (model.first_breach text.now) result }
    ensures nodes { IfOk result (λ v. IsQueryOf text.now (map node_of v.items)) }
{
    texts_spell_queries();
    let mut parser = start(text);
    let mut nodes = Vec::new(alloc);
    query(&mut parser, &mut nodes)?;
    ends(&mut parser)?;
    Ok(nodes)
}

/// The query of a text, or the line and the kind of the first token that breaks a rule. Lines count
/// from 1, and the end of the text is on the line of its last byte.
pub fn parse_query(text: &[u8], alloc: Global) -> Result<Query, QueryNo>
    requires { length text.now < 2 ^ 32 }
    ensures { Parses text.now result }
{
    match whole(text, alloc) {
        Ok(nodes) => Ok(Query { nodes }),
        Err(ReadError::Memory) => Err(QueryNo::NoMemory),
        Err(ReadError::Breach(at, kind)) => Err(QueryNo::Fault(QueryFault {
            line: line_of(text, at),
            kind,
        })),
    }
}
