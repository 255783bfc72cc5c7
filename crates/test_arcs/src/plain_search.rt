// What Find answers, written apart from the library: the index by a scan of all records, and the looks by
// a count of the rule's steps.
use test_calls::answers::{Answer, found};
use test_fixtures::plain_image::Network;

// The number at a place of the node list, or 0 behind its end. The plain answers of test_images read arcs by the like:
// each plain answer is written apart from all else.
fn node_at(nodes: &[u16], at: usize) -> u32 {
    nodes.get(at).copied().map_or(0, u32::from)
}

// The tail and the head of the record at an index.
fn record_at(nodes: &[u16], index: u32) -> (u32, u32) {
    let at = 2 * (index as usize);
    (node_at(nodes, at), node_at(nodes, at + 1))
}

// How many records are looked at. What is left are `left` records behind the first `first`; at each look
// these are the records in front of the middle one, the middle one, and those behind it.
fn plain_looks(network: Network, arc: (u32, u32)) -> u32 {
    let nodes = network.nodes;
    let mut first: u32 = 0;
    let mut left = network.arc_count();
    let mut looks = 0;
    for look in 1..=1000u32 {
        if left == 0 {
            return looks;
        }
        looks = look;
        let front = (left - 1) / 2;
        let middle = first.wrapping_add(front);
        let record = record_at(nodes, middle);
        if record == arc {
            return looks;
        }
        if record < arc {
            first = middle.wrapping_add(1);
            left = left - 1 - front;
        } else {
            left = front;
        }
    }
    looks
}

// Find's answer on the image of a network.
pub fn plain_find(network: Network, tail: u32, head: u32) -> Answer {
    let nodes = network.nodes;
    let looks = plain_looks(network, (tail, head));
    let at = (0..network.arc_count()).find(|&index| record_at(nodes, index) == (tail, head));
    found(at, looks)
}
