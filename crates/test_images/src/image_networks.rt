// Sound networks: Build gives the image of the lists, and Check and Unpack take it. Tried with
// network S, the network without arcs and the largest network.
use super::image_calls::{build_agrees, check_agrees, rebuild_agrees, unpack_agrees};
use arrayvec::ArrayVec;
use std::io;
use test_calls::answers::{Answer, refusal, single, sizes};
use test_fixtures::case_images::network_s;
use test_fixtures::networks::{S_COSTS, S_NODES, largest_nodes};
use test_fixtures::plain_image::{Header, Network, first_edition};
use test_fixtures::report::{Call, Report};

// Build into a slice that is exactly long enough, into a longer one and into one a byte too short.
fn note_builds(report: Report, network: Network, image: &[u8]) -> Report {
    let result = single(network.total());
    let room = network.total() as usize;
    let exact = build_agrees(network, room, result, image);
    let longer = build_agrees(network, room + 9, result, image);
    let shorter = build_agrees(network, room - 1, refusal(13, 0), &[]);
    report
        .note(Call::Build, exact)
        .note(Call::Build, longer)
        .note(Call::Build, shorter)
}

// Unpack into slices that are exactly long enough, and into longer ones.
fn note_unpacks(report: Report, network: Network, image: &[u8], res: Answer) -> Report {
    let nodes = network.nodes;
    let costs = network.costs;
    let node_room = nodes.len();
    let cost_room = costs.len();
    let exact = unpack_agrees(image, node_room, cost_room, res, nodes, costs);
    let longer = unpack_agrees(image, node_room + 9, cost_room + 9, res, nodes, costs);
    report.note(Call::Unpack, exact).note(Call::Unpack, longer)
}

// Unpack into slices of which one is a place too short, where the network has arcs.
fn note_short_unpacks(report: Report, image: &[u8], node_room: usize, cost_room: usize) -> Report {
    if node_room == 0 || cost_room == 0 {
        return report;
    }
    let short = refusal(13, 0);
    let short_nodes = unpack_agrees(image, node_room - 1, cost_room, short, &[], &[]);
    let short_costs = unpack_agrees(image, node_room, cost_room - 1, short, &[], &[]);
    report
        .note(Call::Unpack, short_nodes)
        .note(Call::Unpack, short_costs)
}

// All calls of the image layer, on a network and its image.
pub fn note_network(mut report: Report, network: Network, image: &[u8]) -> Report {
    let result = sizes(network.header, network.arc_count());
    report = note_builds(report, network, image);
    report = report.note(Call::Check, check_agrees(image, result));
    report = note_unpacks(report, network, image, result);
    report = note_short_unpacks(report, image, network.nodes.len(), network.costs.len());
    report.note(Call::Rebuild, rebuild_agrees(image))
}

// Network S's image, with the numbers of REFERENCE, section 8.1.
fn note_s(image: &[u8]) -> Report {
    let network = Network::new(first_edition(4, 2), &S_NODES, &S_COSTS);
    let report = note_network(Report::new(), network, image);
    report
        .note(Call::Build, build_agrees(network, 84, single(84), image))
        .note(Call::Check, check_agrees(image, sizes(network.header, 5)))
}

fn on_network_s(rt: &impl Print) -> io::Result<()> {
    note_s(&network_s()).print(rt, "network S")
}

// n = 2, m = 0, k = 1: the image is the header, 24 bytes.
fn network_without_arcs(rt: &impl Print) -> io::Result<()> {
    let image = b"\x01\0\x02\0\0\0\x01\0\x18\0\0\0\x18\0\0\0\x18\0\0\0\0\0\0\0";
    let network = Network::new(first_edition(2, 1), &[], &[]);
    note_network(Report::new(), network, image)
        .note(Call::Check, check_agrees(image, sizes(network.header, 0)))
        .print(rt, "network without arcs")
}

// n = 200, m = 1,000, k = 8, with this number as each cost.
pub fn note_largest(edition: u32, cost: u32) -> Report {
    let header = Header {
        edition,
        n: 200,
        k: 8,
    };
    let nodes = largest_nodes();
    let costs = [cost; 8000];
    let network = Network::new(header, &nodes, &costs);
    let image: ArrayVec<u8, 36024> = network.image();
    note_network(Report::new(), network, image.as_slice())
}

fn largest_network(rt: &impl Print) -> io::Result<()> {
    note_largest(1, 1000000).print(rt, "largest network")
}

pub fn run(rt: &impl Print) -> io::Result<()> {
    on_network_s(rt)?;
    network_without_arcs(rt)?;
    largest_network(rt)
}
