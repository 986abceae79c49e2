//! What is looked at before a scan begins.

ghost use Rattle.std.specs.Prelude.{◌≡◌, ◌≤◌, ◌^◌, nat_le, length, map};
ghost use Rattle.scan_model.specs.Instructions.{count_of};
ghost use Rattle.scan_model.specs.Checks.{check_test, checked_from};
ghost use Rattle.scan_query.specs.Queries.{node_of};

use crate::names::is_free;
use crate::query::Node;
use bbop_isa::Place;
use object_alloc::Table;
use object_steps::{goes_past, rows_of};
use scan_model::ScanWhy;

/// The count of the first comparison's object.
pub(crate) fn count_of(table: &Table, nodes: &[Node]) -> u32
    ensures { result ≡ count_of table.now.pairs (map node_of nodes.now) }
{
    for node in nodes {
        if let Node::Cmp { place, .. } = node {
            return rows_of(table, place).count;
        }
    }
    0
}

/// Whether a number has more than `width` bits.
fn is_wider(value: u128, width: u8) -> bool
    ensures { result ≡ nat_le (2 ^ width) value }
{
    width < 128 && value >> width != 0
}

/// What is at fault with a comparison.
fn check_test(table: &Table, count: u32, place: &Place, value: u128) -> Option<ScanWhy>
    ensures { result ≡ check_test table.now.pairs count place.now value }
{
    if is_free(table, &place.name) {
        return Some(ScanWhy::NoObject);
    }
    if goes_past(table, place) {
        return Some(ScanWhy::Slice);
    }
    let rows = rows_of(table, place);
    if rows.count != count {
        return Some(ScanWhy::Count);
    }
    if is_wider(value, rows.width) {
        return Some(ScanWhy::Range);
    }
    None
}

/// The first comparison at fault, by its number among the comparisons.
pub(crate) fn check(table: &Table, count: u32, nodes: &[Node]) -> Option<(ScanWhy, u8)>
    requires { length nodes.now ≤ 64 }
    ensures { result ≡ checked_from table.now.pairs count 0 (map node_of nodes.now) }
{
    let mut k = 0;
    'nodes: for node in nodes {
        if let Node::Cmp { place, value, .. } = node {
            if let Some(why) = check_test(table, count, place, *value) {
                return Some((why, k));
            }
            k += 1;
        }
    }
    None
}
