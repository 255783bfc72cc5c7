// Random networks of 2 to 8 nodes: the calls on their image.
use super::path_random::note_paths;
use arrayvec::ArrayVec;
use std::io;
use test_fixtures::networks::draw_network;
use test_fixtures::plain_image::Network;
use test_fixtures::random::note_networks;
use test_fixtures::report::Report;

fn note_drawn(report: Report, network: Network, numbers: &[u32]) -> Report {
    let image: ArrayVec<u8, 2040> = network.image();
    note_paths(report, network, numbers, image.as_slice())
}

// 3,000 networks of an edition.
fn networks(edition: u32) -> Report {
    note_networks(
        1,
        &mut [0; 520],
        3000,
        |numbers, _| draw_network(edition, numbers),
        |report, small, numbers| note_drawn(report, small.lent(), numbers),
    )
}

pub fn run(rt: &impl Print) -> io::Result<()> {
    networks(1).print(rt, "random networks")?;
    networks(2).print(rt, "random networks of edition 2")
}
