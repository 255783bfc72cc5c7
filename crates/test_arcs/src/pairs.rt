// Find from every node to every node of an image, and between numbers that are no nodes.
use super::plain_search::plain_find;
use arrayvec::ArrayVec;
use test_calls::find_calls::find_agrees;
use test_fixtures::plain_image::Network;
use test_fixtures::report::{Call, Report};

// Numbers that no network has as nodes: some whose lower bytes are a node's, and the largest.
const NO_NODES: [u32; 5] = [201, 65536, 65537, 16777218, 4294967295];

// A network with its image.
#[derive(Clone, Copy)]
struct Tried<'a> {
    network: Network<'a>,
    image: &'a [u8],
}

impl Tried<'_> {
    fn note_pair(self, report: Report, tail: u32, head: u32) -> Report {
        let expected = plain_find(self.network, tail, head);
        report.note(Call::Find, find_agrees(self.image, tail, head, expected))
    }

    // Between a number and the numbers 0 to n + 1.
    fn note_heads(self, mut report: Report, tail: u32) -> Report {
        for head in 0..self.network.header.n % 1000 + 2 {
            report = self.note_pair(report, tail, head);
        }
        report
    }

    // Between a number and those that are no nodes, both ways, and between each of these and itself.
    fn note_outside(self, mut report: Report, number: u32) -> Report {
        for other in NO_NODES {
            report = self.note_pair(report, number, other);
            report = self.note_pair(report, other, number);
            report = self.note_pair(report, other, other);
        }
        report
    }

    // Between all numbers from 0 to n + 1, and between each of them and those that are no nodes.
    fn note_pairs(self, mut report: Report) -> Report {
        for tail in 0..self.network.header.n % 1000 + 2 {
            report = self.note_heads(report, tail);
            report = self.note_outside(report, tail);
        }
        report
    }
}

// The pairs of a network, whose image has at most 8,024 bytes.
pub fn note_network(report: Report, network: Network) -> Report {
    let image: ArrayVec<u8, 8024> = network.image();
    let tried = Tried {
        network,
        image: image.as_slice(),
    };
    tried.note_pairs(report)
}
