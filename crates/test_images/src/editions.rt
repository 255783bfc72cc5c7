// The editions: which of them are accepted, and what may stand in the place of a cost in each. Tried
// with network S, as it is and with arcs closed in columns, and with the smallest and largest networks.
use super::image_calls::note_refused_image;
use super::image_changes::{changed_s, note_changed_bytes, note_changed_rows, note_lengths};
use super::image_networks::{note_largest, note_network};
use super::image_refusals::{all_refuse, build_refuses};
use std::io;
use test_calls::answers::refusal;
use test_fixtures::closing::CLOSED;
use test_fixtures::networks::{S_COSTS, S_NODES};
use test_fixtures::plain_image::{Header, Network, second_edition};
use test_fixtures::report::{Call, Report};

// Network S with 1→3 closed in column 1, and 1→2 and 3→4 in column 2.
const CLOSED_COSTS: [u32; 10] = [2, CLOSED, 1, 6, 2, CLOSED, 1, 2, 1, CLOSED];

// Network S in edition 2 with these costs.
fn second_s(costs: &[u32]) -> Network<'_> {
    Network::new(second_edition(4, 2), &S_NODES, costs)
}

fn s_image(costs: &[u32]) -> [u8; 84] {
    second_s(costs).bytes()
}

// All calls of the image layer on network S in edition 2, with these costs.
fn note_s(costs: &[u32]) -> Report {
    note_network(Report::new(), second_s(costs), &s_image(costs))
}

fn network_without_arcs() -> Report {
    let image = b"\x02\0\x02\0\0\0\x01\0\x18\0\0\0\x18\0\0\0\x18\0\0\0\0\0\0\0";
    note_network(
        Report::new(),
        Network::new(second_edition(2, 1), &[], &[]),
        image,
    )
}

fn accepted(rt: &impl Print) -> io::Result<()> {
    note_s(&S_COSTS).print(rt, "network S in edition 2")?;
    note_s(&CLOSED_COSTS).print(rt, "network S with closed arcs")?;
    network_without_arcs().print(rt, "network without arcs in edition 2")?;
    note_largest(2, CLOSED).print(rt, "largest network, all closed")
}

// Network S's image with fields changed, in rows like those of image_changes.rt.
const CHANGED_FIELDS: [[u16; 7]; 24] = [
    [1, 0, 3, 0, 3, 2, 0], // edition
    [1, 0, 258, 0, 258, 2, 0],
    [1, 0, 512, 0, 512, 2, 0],
    [1, 0, 65535, 0, 65535, 2, 0],
    [1, 0, 3, 2, 1, 2, 0], // edition, and n as well
    [1, 0, 0, 2, 65535, 2, 0],
    [1, 0, 3, 20, 1, 2, 0], // edition, and the reserved field as well
    [1, 44, 65535, 46, 65535, 9, 0], // the mark in edition 1
    [1, 52, 65535, 54, 65535, 9, 2],
    [1, 64, 65535, 66, 65535, 9, 5],
    [1, 80, 65535, 82, 65535, 9, 9],
    [1, 44, 65534, 46, 65535, 9, 0], // 4,294,967,294 in edition 1
    [1, 80, 65534, 82, 65535, 9, 9],
    [2, 44, 65534, 46, 65535, 9, 0], // 4,294,967,294 in edition 2
    [2, 80, 65534, 82, 65535, 9, 9],
    [2, 44, 65535, 46, 65534, 9, 0], // more numbers near the mark
    [2, 60, 65535, 62, 32767, 9, 4],
    [2, 64, 0, 66, 32768, 9, 5],
    [2, 44, 16961, 46, 15, 9, 0], // 1,000,001 in edition 2
    [2, 80, 16961, 82, 15, 9, 9],
    [2, 2, 1, 20, 1, 3, 0], // the other rows in edition 2
    [2, 4, 4, 4, 4, 4, 0],
    [2, 24, 0, 46, 65535, 6, 0],
    [2, 30, 2, 46, 99, 8, 1],
];

// Row 1 before row 2: 23 bytes of an image of edition 3.
fn note_cut(report: Report) -> Report {
    let image = changed_s(3, [2, 1, 2, 1]);
    note_refused_image(report, &image[..23], refusal(1, 0))
}

fn changed_fields(rt: &impl Print) -> io::Result<()> {
    note_cut(note_changed_rows(&CHANGED_FIELDS)).print(rt, "changed editions")
}

// Numbers that are no edition, some of which have 1 or 2 as their low bytes.
const WRONG_EDITIONS: [u32; 9] = [
    0, 3, 257, 65535, 65536, 65537, 65538, 2147483650, 4294967295,
];

// Build refuses an edition, by row 2: also where n is out of its range, the costs are too few or the
// slice is too short.
fn edition_refused(mut report: Report, edition: u32) -> Report {
    let sound = Header {
        edition,
        n: 4,
        k: 2,
    };
    let one_node = Header {
        edition,
        n: 1,
        k: 2,
    };
    let network = Network::new(sound, &S_NODES, &S_COSTS);
    report = build_refuses(report, network, 84, 2, 0);
    report = build_refuses(
        report,
        Network::new(sound, &S_NODES, &CLOSED_COSTS),
        84,
        2,
        0,
    );
    report = build_refuses(report, Network::new(one_node, &S_NODES, &S_COSTS), 84, 2, 0);
    report = build_refuses(report, Network::new(sound, &S_NODES, &[]), 84, 2, 0);
    build_refuses(report, network, 0, 2, 0)
}

fn editions_refused() -> Report {
    let mut report = Report::new();
    for edition in WRONG_EDITIONS {
        report = edition_refused(report, edition);
    }
    report
}

// Each row: the edition; an index of network S's costs and the number that is put there, the same once
// more; and the place that row 9 names.
const WRONG_COSTS: [[u32; 6]; 8] = [
    [1, 0, CLOSED, 0, CLOSED, 0], // the mark in edition 1
    [1, 1, CLOSED, 5, CLOSED, 1],
    [1, 9, CLOSED, 9, CLOSED, 9],
    [1, 5, CLOSED - 1, 9, CLOSED, 5], // 4,294,967,294 in edition 1
    [2, 5, CLOSED - 1, 5, CLOSED - 1, 5], // 4,294,967,294 in edition 2
    [2, 0, CLOSED, 9, CLOSED - 1, 9],
    [2, 1, CLOSED, 3, 1000001, 3], // 1,000,001 in edition 2
    [2, 3, 1000001, 4, CLOSED - 1, 3],
];

fn put_cost(costs: &mut [u32], index: u32, cost: u32) {
    if let Some(place) = costs.get_mut(index as usize) {
        *place = cost;
    }
}

// Build, and all calls with the image of the lists, refuse network S's costs with the two numbers of a row.
fn costs_refused(report: Report, row: [u32; 6]) -> Report {
    let [edition, index, cost, next_index, next_cost, place] = row;
    let mut costs = S_COSTS;
    put_cost(&mut costs, index, cost);
    put_cost(&mut costs, next_index, next_cost);
    let header = Header {
        edition,
        n: 4,
        k: 2,
    };
    all_refuse(report, Network::new(header, &S_NODES, &costs), 9, place)
}

fn note_wrong_costs(mut report: Report) -> Report {
    for row in WRONG_COSTS {
        report = costs_refused(report, row);
    }
    report
}

// Which row is given where several apply in edition 2.
fn rows_in_order(mut report: Report) -> Report {
    let second = second_edition(4, 1);
    report = all_refuse(
        report,
        Network::new(second_edition(1, 1), &[1, 2], &[CLOSED - 1]),
        3,
        0,
    );
    report = all_refuse(
        report,
        Network::new(second, &[1, 2, 1, 2], &[CLOSED, CLOSED - 1]),
        8,
        1,
    );
    report = build_refuses(
        report,
        Network::new(second, &[1, 2, 3], &[CLOSED]),
        200,
        4,
        0,
    );
    report = build_refuses(
        report,
        Network::new(second, &[1, 2], &[CLOSED - 1]),
        0,
        9,
        0,
    );
    build_refuses(report, Network::new(second, &[1, 2], &[CLOSED]), 31, 13, 0)
}

fn refused_lists(rt: &impl Print) -> io::Result<()> {
    rows_in_order(note_wrong_costs(editions_refused())).print(rt, "refused editions")
}

// The image of network S with closed arcs, cut short or made longer.
fn other_lengths(rt: &impl Print) -> io::Result<()> {
    let image: [u8; 120] = second_s(&CLOSED_COSTS).bytes();
    note_lengths(&image).print(rt, "other lengths in edition 2")
}

// The same image with each byte changed.
fn changed_bytes(rt: &impl Print) -> io::Result<()> {
    note_changed_bytes(&mut s_image(&CLOSED_COSTS)).print(rt, "changed bytes in edition 2")
}

pub fn run(rt: &impl Print) -> io::Result<()> {
    accepted(rt)?;
    changed_fields(rt)?;
    refused_lists(rt)?;
    other_lengths(rt)?;
    changed_bytes(rt)
}
