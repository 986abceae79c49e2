//! Queries as lists of nodes, and what a scan answers.

use bbop_isa::Place;
use scan_model::{CmpOp, QueryFault, ScanWhy};
use uprog_code::Counts;

/// A node of a query. A comparison looks at an object, or at bits of it. A join names its sources
/// by their places among the nodes.
#[derive(Drop)]
pub enum Node {
    Cmp {
        op: CmpOp,
        place: Place,
        value: u128,
    },
    Not(u8),
    And(u8, u8),
    Or(u8, u8),
}

/// A query's nodes in postorder: each stands after its sources, and the last is the whole query.
#[derive(Drop)]
pub struct Query {
    pub nodes: Vec<Node>,
}

/// Why a text gives no query.
#[derive(Clone, Copy, PartialEq, Eq)]
pub enum QueryNo {
    Fault(QueryFault),
    NoMemory,
}

/// How many elements were found of how many, with the commands that it took; or why the scan was
/// refused, and at which comparison or node, from 0.
#[derive(Clone, Copy, PartialEq, Eq)]
pub enum ScanReply {
    Done { found: u32, of: u32, counts: Counts },
    Refused(ScanWhy, u8),
}
