// Search by the words of its rule (REFERENCE, section 4.11): one partial route, which is lengthened by its
// unused heads, smallest node first, and never past the goal.
use super::costs::{CLOSED, Costs, path_costs};
use super::deviations::regret;
use super::order::{UNREACHED, labels};
use super::paths::{Paths, Row, last, length, with};
use test_fixtures::numbers::{count, node};
use test_fixtures::plain_image::Network;

// The best path so far with its figure, if there is one, and the number of arcs tried.
#[derive(Clone, Copy)]
pub struct Descent {
    pub best: Option<(Row, u64)>,
    pub tried: u32,
}

// The smallest unused head above a node, of the arcs out of the route's last node.
fn next_head(arcs: &[u16], row: Row, above: u16) -> Option<u16> {
    let end = last(row)?;
    let ahead = arcs.as_chunks::<2>().0.iter().filter(|[tail, head]| *tail == end
        && above < *head
        && !row.contains(head));
    ahead.map(|arc| arc[1]).min()
}

// The route without its last node.
fn shortened(mut row: Row) -> Row {
    let count = length(row);
    if 0 < count {
        row[count - 1] = 0;
    }
    row
}

// The route that comes up next behind those that begin with this route and a head up to `above`, if not all came up.
fn next_route(arcs: &[u16], row: Row, above: u16) -> Option<Row> {
    let mut route = row;
    let mut behind = above;
    for _ in 0..9u32 {
        if let Some(head) = next_head(arcs, route, behind) {
            return Some(with(route, head));
        }
        behind = last(route)?;
        let shorter = shortened(route);
        route = shorter;
    }
    None
}

// The route that comes up next behind this one: longer by a node, if the search goes on from it.
fn following(arcs: &[u16], route: Row, goes_on: bool) -> Option<Row> {
    if goes_on {
        return next_route(arcs, route, 0);
    }
    next_route(arcs, shortened(route), last(route)?)
}

// The cost so far with the last arc, and the label of its head, in each column.
fn outlook(costs: Costs, ahead: Costs) -> Costs {
    let mut result = costs;
    for (sum, label) in result.iter_mut().zip(&ahead) {
        *sum = sum.wrapping_add(*label);
    }
    result
}

// Whether the last node of a route is dropped, for these costs of the route and labels of the node: in some
// column an arc of the route is closed or the goal is out of reach, or the figure is no less than the best's.
fn is_dropped(held: Descent, costs: Costs, ahead: Costs, bests: Costs) -> bool {
    if costs.contains(&CLOSED) || ahead.contains(&UNREACHED) {
        return true;
    }
    let figure = regret(outlook(costs, ahead), bests).figure;
    held.best.is_some_and(|(_, least)| least <= figure)
}

// A completed path replaces the best if its figure is smaller, or if there is none yet.
fn completed(held: Descent, path: Row, figure: u64) -> Descent {
    match held.best {
        Some((_, least)) if least <= figure => held,
        _ => Descent {
            best: Some((path, figure)),
            ..held
        },
    }
}

// The labels of a node, from the labels of the nodes 1, 2 and so on.
pub fn labels_of(table: &[Costs], node: u16) -> Costs {
    if node == 0 {
        return [UNREACHED; 8];
    }
    table.get(usize::from(node) - 1).copied().unwrap_or([0; 8])
}

// The search from start to goal, with the labels of the nodes 1, 2 and so on. Eight nodes have at most
// 3,914 routes that do not pass the goal.
pub fn search(network: Network, start: u16, goal: u16, table: &[Costs]) -> Descent {
    let arcs = network.nodes;
    let bests = labels_of(table, start);
    let mut held = Descent {
        best: None,
        tried: 0,
    };
    let mut next = following(arcs, [start, 0, 0, 0, 0, 0, 0, 0], true);
    for tried in 1..=4000u32 {
        let Some(route) = next else {
            return held;
        };
        let node = last(route).unwrap_or(0);
        held.tried = tried;
        let sums = path_costs(network, route);
        let dropped = is_dropped(held, sums, labels_of(table, node), bests);
        if !dropped && node == goal {
            held = completed(held, route, regret(sums, bests).figure);
        }
        let after = following(arcs, route, !dropped && node != goal);
        next = after;
    }
    held
}

// Puts the labels of the nodes 1, 2 and so on into a table, as many as it has places, each from all paths from
// the node to the goal.
pub fn node_labels(network: Network, goal: u16, paths: &mut Paths, table: &mut [Costs]) {
    for (i, place) in table.iter_mut().enumerate() {
        let start = node(count(i) + 1);
        paths.find(network, start, goal);
        *place = labels(network.header.k, start, goal, paths.all.as_slice());
    }
}
