// All loopless paths between two nodes.
ghost use Rattle.std.specs.Prelude.{◌≤◌};

use super::costs::{Costs, path_costs};
use arrayvec::ArrayVec;
use test_fixtures::plain_image::Network;

// The nodes of a path, filled up with 0: as an array they are copied, and compared as node lists are. An ArrayVec could
// not be copied.
pub type Row = [u16; 8];

// The number of nodes.
pub fn length(row: Row) -> usize
    ensures { result ≤ 8 }
{
    row.iter().position(|&node| node == 0).unwrap_or(8)
}

// The last node, if there is one.
pub fn last(row: Row) -> Option<u16> {
    row[..length(row)].last().copied()
}

// The nodes with one more. Eight nodes are all that there are.
pub fn with(mut row: Row, node: u16) -> Row {
    let count = length(row);
    if count < 8 {
        row[count] = node;
    }
    row
}

// A path, and its cost in each column, or the mark where it is closed.
#[derive(Clone, Copy, Default)]
pub struct Path {
    pub row: Row,
    pub costs: Costs,
}

// All loopless paths from a start, to whatever node, that do not pass a goal, and those of them that end there,
// with their costs. Eight nodes have at most 1,957 of these, and as many that end elsewhere.
#[derive(Drop)]
pub struct Paths {
    begun: ArrayVec<Row, 3914>,
    pub all: ArrayVec<Path, 1957>,
}

impl Paths {
    pub fn new() -> Paths {
        Paths {
            begun: ArrayVec::new(),
            all: ArrayVec::new(),
        }
    }

    // Puts the paths with one node more behind the others, in every way there is. A path that has come to the
    // goal goes no further.
    fn lengthen(&mut self, network: Network, goal: u16, row: Row) {
        let end = last(row);
        if end == Some(goal) {
            return;
        }
        for &[tail, head] in network.nodes.as_chunks::<2>().0 {
            if Some(tail) == end && !row.contains(&head) {
                let _ = self.begun.try_push(with(row, head));
            }
        }
    }

    // All paths of a network from start to goal, in any order.
    pub fn find(&mut self, network: Network, start: u16, goal: u16) {
        self.begun.clear();
        self.all.clear();
        let _ = self.begun.try_push([start, 0, 0, 0, 0, 0, 0, 0]);
        // `lengthen` puts paths behind those that are read here, so the list cannot be lent to an iterator.
        for i in 0..3914usize {
            let Some(row) = self.begun.as_slice().get(i).copied() else {
                return;
            };
            self.lengthen(network, goal, row);
            if last(row) == Some(goal) {
                let costs = path_costs(network, row);
                let _ = self.all.try_push(Path { row, costs });
            }
        }
    }
}
