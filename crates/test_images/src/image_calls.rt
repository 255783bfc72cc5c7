// The calls of the image layer, each held to the answer that it should give and to what the slices
// that are lent to it should hold after it.
use super::plain_answers::check_answer;
use image::check::check;
use packing::build::build;
use packing::unpack::unpack;
use test_calls::answers::{Answer, answer_of, header_of, single};
use test_calls::refused_images::note_refused_paths;
use test_fixtures::numbers::{count, product};
use test_fixtures::plain_image::{Header, Network};
use test_fixtures::report::{Call, Report};
use test_fixtures::slices::{Pattern, holds};

// Places for the largest network's image and lists, and some more.
const IMAGE_PLACES: usize = 36100;

const NODE_PLACES: usize = 2020;

const COST_PLACES: usize = 8020;

// Whether Check gives the answer.
pub fn check_agrees(image: &[u8], expected: Answer) -> bool {
    answer_of(check(image)) == expected
}

// Whether Build into a slice of `room` bytes that hold the pattern gives the answer, and writes these bytes and
// no others.
pub fn build_agrees(network: Network, room: usize, expected: Answer, written: &[u8]) -> bool {
    let mut places = [u8::PATTERN; IMAGE_PLACES];
    let Header { edition, n, k } = network.header;
    places.get_mut(..room).is_some_and(|image| {
        let answer = answer_of(build(edition, n, k, network.nodes, network.costs, image));
        answer == expected && holds(image, written)
    })
}

// Unpack into slices that hold the pattern.
fn unpack_into(
    image: &[u8],
    nodes: &mut [u16],
    costs: &mut [u32],
    expected: Answer,
    written_nodes: &[u16],
    written_costs: &[u32],
) -> bool {
    let answer = answer_of(unpack(image, nodes, costs));
    answer == expected && holds(nodes, written_nodes) && holds(costs, written_costs)
}

// Whether Unpack into slices of so many places gives the answer, and writes these lists and nothing
// else.
pub fn unpack_agrees(
    image: &[u8],
    node_room: usize,
    cost_room: usize,
    expected: Answer,
    nodes: &[u16],
    costs: &[u32],
) -> bool {
    let mut node_places = [u16::PATTERN; NODE_PLACES];
    let mut cost_places = [u32::PATTERN; COST_PLACES];
    match (
        node_places.get_mut(..node_room),
        cost_places.get_mut(..cost_room),
    ) {
        (Some(lent_nodes), Some(lent_costs)) => {
            unpack_into(image, lent_nodes, lent_costs, expected, nodes, costs)
        }
        _ => false,
    }
}

// Whether Build gives an image back from the lists of a header with m arcs, at the front of two slices.
fn build_back(image: &[u8], header: Header, m: u32, nodes: &[u16], costs: &[u32]) -> bool {
    let node_count = 2 * (m as usize);
    let cost_count = product(m, header.k) as usize;
    match (nodes.get(..node_count), costs.get(..cost_count)) {
        (Some(nodes), Some(costs)) => {
            let network = Network::new(header, nodes, costs);
            build_agrees(network, image.len(), single(count(image.len())), image)
        }
        _ => false,
    }
}

// Unpack into slices, and Build from what it wrote.
fn rebuild_with(image: &[u8], nodes: &mut [u16], costs: &mut [u32]) -> bool {
    let answer = unpack(image, nodes, costs);
    let Ok(sizes) = answer else {
        return false;
    };
    build_back(image, header_of(sizes), sizes.m, nodes, costs)
}

// Whether Unpack, and Build from the lists that it wrote, give an image back byte for byte.
pub fn rebuild_agrees(image: &[u8]) -> bool {
    let mut nodes = [u16::PATTERN; NODE_PLACES];
    let mut costs = [u32::PATTERN; COST_PLACES];
    rebuild_with(image, &mut nodes, &mut costs)
}

// Every call with an image refuses it with this answer and writes nothing, whatever else it is
// given.
pub fn note_refused_image(mut report: Report, image: &[u8], expected: Answer) -> Report {
    report = report.note(Call::Check, check_agrees(image, expected));
    report = report.note(
        Call::Unpack,
        unpack_agrees(image, 12, 12, expected, &[], &[]),
    );
    report = report.note(Call::Unpack, unpack_agrees(image, 0, 0, expected, &[], &[]));
    note_refused_paths(report, image, expected)
}

// An image is refused as the plain check says, or else Unpack and Build give it back.
pub fn note_image(mut report: Report, image: &[u8]) -> Report {
    let expected = check_answer(image);
    if expected.is_err() {
        return note_refused_image(report, image, expected);
    }
    report = report.note(Call::Check, check_agrees(image, expected));
    report.note(Call::Rebuild, rebuild_agrees(image))
}
