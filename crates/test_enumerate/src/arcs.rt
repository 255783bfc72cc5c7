// Arcs, and whether a node list is a path that is open in every column.
use test_fixtures::closing::CLOSED;
use test_fixtures::plain_image::Network;

// The index of the arc from a to b, if there is one.
pub fn arc_index(arcs: &[u16], a: u16, b: u16) -> Option<usize> {
    arcs.as_chunks::<2>()
        .0
        .iter()
        // the head is read of arcs with the tail alone: most arcs have another, and all of them are gone through for each path
        .position(|arc| arc[0] == a && arc[1] == b)
}

// Whether there is an arc from a to b that is open in every column.
fn has_arc(network: Network, a: u16, b: u16) -> bool {
    let m = network.nodes.len() / 2;
    match arc_index(network.nodes, a, b) {
        Some(arc) if 0 < m => {
            let mut columns = network.costs.chunks_exact(m);
            columns.all(|column| column.get(arc).copied() != Some(CLOSED))
        }
        _ => false,
    }
}

// Whether a node list is a path from start to goal that is open in every column; if not, the place that
// row 14 names. An arc that is closed in some column counts as no arc.
pub fn check_list(network: Network, start: u16, goal: u16, nodes: &[u16]) -> Result<(), usize> {
    if nodes.first().copied() != Some(start) {
        return Err(0);
    }
    for (i, &[from, to]) in nodes.array_windows::<2>().enumerate() {
        if nodes.iter().take(i + 1).any(|&node| node == to) || !has_arc(network, from, to) {
            return Err(i + 1);
        }
    }
    if nodes.last().copied() != Some(goal) {
        return Err(nodes.len());
    }
    Ok(())
}
