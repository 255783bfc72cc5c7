// The images of the cases of REFERENCE, section 8, and of those with closed arcs.
use super::closing::CLOSED;
use super::networks::{S_COSTS, S_NODES, line_arcs, line_nodes, s_image};
use super::plain_image::{Network, first_edition, second_edition};

// Network S.
pub fn network_s() -> [u8; 84] {
    s_image()
}

// Network S in edition 2.
pub fn second_s() -> [u8; 84] {
    closed_network(S_NODES, S_COSTS)
}

// n = 4, m = 5, k = 2, in edition 2.
fn closed_network(nodes: [u16; 10], costs: [u32; 10]) -> [u8; 84] {
    Network::new(second_edition(4, 2), &nodes, &costs).bytes()
}

// The arcs 1→2, 1→3, 1→4, 2→4 and 3→4, of which 1→4, the ferry, is closed in column 2. The paths 1 4,
// 1 2 4 and 1 3 4 cost 1, 5 and 6 in column 1; in column 2 the last two cost 12 and 2.
pub fn ferry() -> [u8; 84] {
    closed_network(
        [1, 2, 1, 3, 1, 4, 2, 4, 3, 4],
        [2, 3, 1, 3, 3, 4, 1, CLOSED, 8, 1],
    )
}

// The arcs 1→2, 1→3, 2→3, 2→4 and 3→4: 1→3 is closed in column 1, and 1→2 in column 2. So each column
// has a path from 1 to 4, and none is open in both.
pub fn apart() -> [u8; 84] {
    closed_network(
        [1, 2, 1, 3, 2, 3, 2, 4, 3, 4],
        [1, CLOSED, 1, 2, 5, CLOSED, 3, 0, 4, 1],
    )
}

// The arcs 1→2, 1→4, 2→3, 2→4 and 3→4. All arcs into 4 are closed in column 2.
pub fn cut_off() -> [u8; 84] {
    closed_network(
        [1, 2, 1, 4, 2, 3, 2, 4, 3, 4],
        [1, 4, 1, 5, 1, 1, CLOSED, 1, CLOSED, CLOSED],
    )
}

// Network S with 2→3 and 2→4 closed in column 2: node 2 is cut off from 4 in that column alone.
pub fn detour() -> [u8; 84] {
    closed_network(
        [1, 2, 1, 3, 2, 3, 2, 4, 3, 4],
        [2, 5, 1, 6, 2, 4, 1, CLOSED, CLOSED, 7],
    )
}

// n = 4, k = 1, arcs 1→3, 2→3, 2→4, 3→2, 3→4, all cost 0.
pub fn zero_costs() -> [u8; 64] {
    let nodes = [1, 3, 2, 3, 2, 4, 3, 2, 3, 4];
    Network::new(first_edition(4, 1), &nodes, &[0; 5]).bytes()
}

// n = 2, m = 0, k = 1.
pub fn no_arcs() -> [u8; 24] {
    Network::new(first_edition(2, 1), &[], &[]).bytes()
}

// 200 nodes in a line, arcs from each to the next, each cost 1,000,000.
pub fn line() -> [u8; 1616] {
    Network::new(first_edition(200, 1), &line_arcs(), &[1000000; 199]).bytes()
}

// The line's one path.
pub fn line_path() -> [u16; 200] {
    line_nodes()
}
