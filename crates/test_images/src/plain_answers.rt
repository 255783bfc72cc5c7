// What Check and Build answer by the refusal table (REFERENCE, section 6), row by row, written apart
// from the library.
ghost use Rattle.std.specs.Prelude.{◌≤◌};

use test_calls::answers::{Answer, refusal, single, sizes};
use test_fixtures::closing::CLOSED;
use test_fixtures::numbers::{count, product};
use test_fixtures::plain_image::{Header, Network, decode_costs, decode_nodes, number16, number32};

// Row 2.
fn edition_is_wrong(edition: u32) -> bool {
    edition != 1 && edition != 2
}

// Row 3.
fn size_out_of_range(n: u32, m: u32, k: u32) -> bool {
    n < 2 || 200 < n || 1000 < m || k < 1 || 8 < k
}

fn node_at(nodes: &[u16], i: usize) -> u32 {
    nodes.get(i).copied().map_or(0, u32::from)
}

// An arc's tail and head.
fn arc_at(nodes: &[u16], arc: u32) -> (u32, u32) {
    let at = 2 * (arc as usize);
    (node_at(nodes, at), node_at(nodes, at + 1))
}

// The first of rows 6, 7 and 8 that applies to an arc, if one does.
fn arc_row(n: u32, nodes: &[u16], arc: u32) -> Option<u32> {
    let (tail, head) = arc_at(nodes, arc);
    if tail == 0 || n < tail || head == 0 || n < head {
        return Some(6);
    }
    if tail == head {
        return Some(7);
    }
    if 0 < arc && (tail, head) <= arc_at(nodes, arc - 1) {
        return Some(8);
    }
    None
}

// The refusal for the first arc in error.
fn arcs_fault(network: Network) -> Option<Answer> {
    let Network { header, nodes, .. } = network;
    (0..network.arc_count()).find_map(|arc| Some(refusal(arc_row(header.n, nodes, arc)?, arc)))
}

// Row 9 for a number: in edition 2 the mark may stand in the place of a cost.
fn cost_is_wrong(edition: u32, cost: u32) -> bool {
    1000000 < cost && !(edition == 2 && cost == CLOSED)
}

// The refusal for the first cost that is too large.
fn costs_fault(network: Network) -> Option<Answer> {
    let edition = network.header.edition;
    let place = network
        .costs
        .iter()
        .position(|&cost| cost_is_wrong(edition, cost))?;
    Some(refusal(9, count(place)))
}

// The refusal of two lists by rows 6 to 9, or else the answer given.
fn lists_answer(network: Network, otherwise: Answer) -> Answer {
    let fault = arcs_fault(network).or_else(|| costs_fault(network));
    fault.unwrap_or(otherwise)
}

// Build's answer with a slice of `room` bytes.
pub fn build_answer(network: Network, room: usize) -> Answer {
    let Header { edition, n, k } = network.header;
    let m = network.arc_count();
    if edition_is_wrong(edition) {
        return refusal(2, 0);
    }
    if size_out_of_range(n, m, k) {
        return refusal(3, 0);
    }
    if network.nodes.len() % 2 == 1 || product(m, k) != network.costs.len() as u64 {
        return refusal(4, 0);
    }
    let bytes = network.total();
    let otherwise = if room < bytes as usize {
        refusal(13, 0)
    } else {
        single(bytes)
    };
    lists_answer(network, otherwise)
}

// Row 4 for an image.
fn field_is_wrong(image: &[u8], m: u32, k: u32) -> bool
    requires { m ≤ 65535 }
{
    let costs_offset = 24 + 4 * (m as u64);
    let bytes = costs_offset + product(4 * m, k);
    number32(image, 8) != 24
        || number32(image, 12) as u64 != costs_offset
        || number32(image, 16) as u64 != bytes
        || number32(image, 20) != 0
}

// The number of the first of rows 1 to 5 that applies to an image, if one does.
fn header_row(image: &[u8]) -> Option<u32> {
    if image.len() < 24 {
        return Some(1);
    }
    if edition_is_wrong(u32::from(number16(image, 0))) {
        return Some(2);
    }
    let n = u32::from(number16(image, 2));
    let m = u32::from(number16(image, 4));
    let k = u32::from(number16(image, 6));
    if size_out_of_range(n, m, k) {
        return Some(3);
    }
    if field_is_wrong(image, m, k) {
        return Some(4);
    }
    if image.len() != number32(image, 16) as usize {
        return Some(5);
    }
    None
}

// Check's answer, with slices for the image's lists. Where they are too short, which they are not
// after rows 1 to 5, the answer is none that a call gives.
fn check_with(image: &[u8], nodes: &mut [u16], costs: &mut [u32]) -> Answer {
    if let Some(row) = header_row(image) {
        return refusal(row, 0);
    }
    let header = Header {
        edition: u32::from(number16(image, 0)),
        n: u32::from(number16(image, 2)),
        k: u32::from(number16(image, 6)),
    };
    let m = u32::from(number16(image, 4));
    let node_count = 2 * (m as usize);
    let cost_count = product(m, header.k) as usize;
    if nodes.len() < node_count || costs.len() < cost_count {
        // no call gives this answer: the lists made for the comparison are too short
        return refusal(0, 0);
    }
    decode_nodes(image, &mut nodes[..node_count]);
    decode_costs(image, 24 + 4 * m, &mut costs[..cost_count]);
    let network = Network::new(header, &nodes[..node_count], &costs[..cost_count]);
    lists_answer(network, sizes(header, m))
}

pub fn check_answer(image: &[u8]) -> Answer {
    let mut nodes = [0u16; 2000];
    let mut costs = [0u32; 8000];
    check_with(image, &mut nodes, &mut costs)
}
