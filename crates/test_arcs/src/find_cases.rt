// Find on networks of 0 to 3 and of 1,000 arcs, and between nodes for which the answer is written down.
use super::pairs::note_network;
use arrayvec::ArrayVec;
use std::io;
use test_calls::answers::found;
use test_calls::find_calls::find_agrees;
use test_fixtures::case_images::network_s;
use test_fixtures::networks::{S_COSTS, S_NODES, largest_nodes};
use test_fixtures::plain_image::{Network, first_edition};
use test_fixtures::report::{Call, Report};

// A row of a table: tail and head; the index, if there is one, and the looks.
type Row = (u32, u32, Option<u32>, u32);

// On network S.
const S_FOUND: [Row; 9] = [
    (2, 3, Some(2), 1), // the middle record
    (1, 2, Some(0), 2),
    (1, 3, Some(1), 3),
    (2, 4, Some(3), 2),
    (3, 4, Some(4), 3),
    (4, 1, None, 3), // behind the last record
    (0, 0, None, 2), // before the first
    (2, 1, None, 3),
    (3, 2, None, 3),
];

// Find on an image gives what the rows say.
fn note_rows(mut report: Report, image: &[u8], rows: &[Row]) -> Report {
    for &(tail, head, index, looks) in rows {
        let expected = found(index, looks);
        report = report.note(Call::Find, find_agrees(image, tail, head, expected));
    }
    report
}

fn note_s() -> Report {
    let network = Network::new(first_edition(4, 2), &S_NODES, &S_COSTS);
    note_rows(note_network(Report::new(), network), &network_s(), &S_FOUND)
}

// n = 4, k = 1: the first arcs of the line 1 2 3 4.
fn note_lines() -> Report {
    let nodes = [1u16, 2, 2, 3, 3, 4];
    let costs = [7u32; 3];
    let mut report = Report::new();
    for m in 0..4usize {
        let network = Network::new(first_edition(4, 1), &nodes[..2 * m], &costs[..m]);
        report = note_network(report, network);
    }
    report
}

// On the largest network: the last record, and what stands behind it, take 10 looks.
const LARGEST_FOUND: [Row; 4] = [
    (200, 5, Some(999), 10),
    (200, 6, None, 10),
    (100, 5, Some(499), 1), // the middle record
    (1, 2, Some(0), 9),
];

// n = 200, m = 1,000, k = 1.
fn note_largest() -> Report {
    let nodes = largest_nodes();
    let network = Network::new(first_edition(200, 1), &nodes, &[7; 1000]);
    let image: ArrayVec<u8, 8024> = network.image();
    let report = note_network(Report::new(), network);
    note_rows(report, image.as_slice(), &LARGEST_FOUND)
}

pub fn run(rt: &impl Print) -> io::Result<()> {
    note_s().print(rt, "network S")?;
    note_lines().print(rt, "0 to 3 arcs")?;
    note_largest().print(rt, "1,000 arcs")
}
