// Find on random networks of 2 to 8 nodes.
use super::pairs::note_network;
use std::io;
use test_fixtures::networks::draw_network;
use test_fixtures::random::note_networks;

// 500 networks, of edition 1 and 2 in turn: an arc that is closed in a column is found as any other.
pub fn run(rt: &impl Print) -> io::Result<()> {
    let report = note_networks(
        1,
        &mut [0; 520],
        500,
        |numbers, i| draw_network(1 + i % 2, numbers),
        |report, network, _| note_network(report, network.lent()),
    );
    report.print(rt, "random networks")
}
