// What paths cost.
ghost use Rattle.std.specs.Prelude.{◌≤◌};

use super::arcs::arc_index;
use super::paths::Row;
use test_fixtures::plain_image::Network;

// A number for each column, from column 1 on, filled up with 0.
pub type Costs = [u64; 8];

// In the place of a cost, of an arc or of a path: it is closed in that column. No path costs so much. It is the
// image's own mark, and above every cost, so that paths that are closed in a column come last in its order.
pub const CLOSED: u64 = 4294967295;

// What stands for column u. The tests name no column beyond these eight: each of the callers would take an Option apart
// by the same 0.
pub fn in_column(numbers: Costs, u: u32) -> u64 {
    match u {
        1..=8 => numbers[u as usize - 1],
        _ => 0,
    }
}

// The cost of an arc in one column, or the mark, and 0 where there is no arc.
fn arc_cost(column: &[u32], arc: Option<usize>) -> u64
    ensures { result ≤ 4294967295 }
{
    u64::from(arc.and_then(|at| column.get(at)).copied().unwrap_or(0))
}

// The arcs of a path, by their index: from each node but the last the arc to the next, if there is one.
fn path_arcs(arcs: &[u16], row: Row) -> [Option<usize>; 7] {
    let mut used = [None; 7];
    for (arc, &[from, to]) in used.iter_mut().zip(row.array_windows::<2>()) {
        *arc = arc_index(arcs, from, to);
    }
    used
}

// The sum over the arcs of a path, in one column, or the mark if one of them is closed there.
fn sum(column: &[u32], used: &[Option<usize>; 7]) -> u64 {
    let mut total = 0;
    for arc in used {
        let cost = arc_cost(column, *arc);
        if cost == CLOSED {
            return CLOSED;
        }
        total += cost;
    }
    total
}

// The cost of a path in each column, or the mark where it is closed.
pub fn path_costs(network: Network, row: Row) -> Costs {
    let m = network.nodes.len() / 2;
    let used = path_arcs(network.nodes, row);
    let mut result = [0u64; 8];
    if 0 < m {
        for (total, column) in result.iter_mut().zip(network.costs.chunks_exact(m)) {
            *total = sum(column, &used);
        }
    }
    result
}
