// A ladder of 199 nodes, whose first paths are known.
//
// The ladder has 66 steps. Step s goes from node 3s + 1 to node 3s + 4, by node 3s + 2 or by node
// 3s + 3. So there are 2^66 paths, each of 133 nodes, and a path is told by the steps at which it
// takes the higher node.
//
// In column 1 the higher node costs 1, 2, 4 .. 128 at the last eight steps, from step 58 on, and
// 1,000 at every other; all other arcs cost 0. So the first 256 paths cost 0 to 255, and the path
// that costs c takes the higher node at step 58 + b exactly if the number c has the bit b.
use super::plain_image::{Network, first_edition};
use std::array;

// The node list, four arcs to a step: to the lower node and to the higher, and from each to the next
// step.
fn arc_node(at: usize) -> usize {
    let low = 3 * (at / 8 % 100) + 1;
    match at % 8 {
        0 => low,
        1 => low + 1,
        2 => low,
        3 => low + 2,
        4 => low + 1,
        5 => low + 3,
        6 => low + 2,
        _ => low + 3,
    }
}

// The cost of an arc in column 1: of the arc to the higher node.
fn arc_cost(arc: usize) -> u32 {
    let step = arc / 4;
    if arc % 4 != 1 {
        return 0;
    }
    if step < 58 {
        return 1000;
    }
    1u32 << (step - 58) % 8
}

// The cost of an arc in the column 2 that Robust and Search are tested with: of the arc to the higher node up to
// step 57, and of the arc to the lower node from step 58 on.
fn other_cost(arc: usize) -> u32 {
    let step = arc / 4;
    let way = arc % 4;
    if step < 58 {
        return if way == 1 { 1000 } else { 0 };
    }
    if way != 0 {
        return 0;
    }
    1u32 << (step - 58) % 8
}

// 264 arcs with these costs in two columns: 24 + 4 * 264 + 8 * 264 bytes.
fn ladder(costs: [u32; 528]) -> [u8; 3192] {
    let arcs: [u16; 528] = array::from_fn(|at| (arc_node(at) % 65536) as u16);
    Network::new(first_edition(199, 2), &arcs, &costs).bytes()
}

// The ladder that Rank is tested on: in column 2 every arc costs 1.
pub fn rank_ladder() -> [u8; 3192] {
    ladder(array::from_fn(|at| if at < 264 { arc_cost(at) } else { 1 }))
}

// The ladder that Robust and Search are tested on.
pub fn robust_ladder() -> [u8; 3192] {
    ladder(array::from_fn(|at| {
        if at < 264 {
            arc_cost(at)
        } else {
            other_cost(at - 264)
        }
    }))
}

// Whether path c of a column takes the higher node at a step. The bit of step 58 is the lowest in column 1,
// and the highest in column 2.
fn is_higher(column: u32, c: usize, step: usize) -> bool {
    if step < 58 || 65 < step {
        return false;
    }
    let bit = if column == 1 { step - 58 } else { 65 - step };
    (c >> bit) % 2 == 1
}

// The node of path c at a place of its row.
fn path_node(column: u32, c: usize, place: usize) -> usize {
    let step = place / 2;
    if 132 < place {
        return 0;
    }
    if place % 2 == 0 {
        return 3 * step + 1;
    }
    3 * step + 2 + usize::from(is_higher(column, c, step))
}

// Rows of 199 places: the path `first` of a column, and those behind it. The tests have no path behind
// path 255.
pub fn ladder_rows<const N: usize>(column: u32, first: usize) -> [u16; N] {
    array::from_fn(|at| (path_node(column, first % 256 + at / 199, at % 199) % 65536) as u16)
}
