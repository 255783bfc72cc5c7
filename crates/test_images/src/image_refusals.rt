// The refusal table on lists: what Build answers, and what Check and Unpack answer for the image of
// the same lists. All are of edition 1; editions.rt has what differs in edition 2.
use super::image_calls::{build_agrees, note_refused_image};
use arrayvec::ArrayVec;
use std::io;
use test_calls::answers::refusal;
use test_fixtures::plain_image::{Network, first_edition};
use test_fixtures::report::{Call, Report};

// Build into a slice of `room` bytes refuses with this number and place, and writes nothing.
pub fn build_refuses(
    report: Report,
    network: Network,
    room: usize,
    number: u32,
    place: u32,
) -> Report {
    let agrees = build_agrees(network, room, refusal(number, place), &[]);
    report.note(Call::Build, agrees)
}

// Build, and Check and Unpack on the image of the lists, refuse with this number and place. The image has at
// most 200 bytes.
pub fn all_refuse(report: Report, network: Network, number: u32, place: u32) -> Report {
    let image: ArrayVec<u8, 200> = network.image();
    let noted = build_refuses(report, network, 200, number, place);
    note_refused_image(noted, image.as_slice(), refusal(number, place))
}

// All calls refuse, by row 3, the first so many of 1, 2 as nodes and of 5 as costs.
fn sizes_refused(report: Report, n: u32, k: u32, node_count: usize, cost_count: usize) -> Report {
    if 2 < node_count || 1 < cost_count {
        return report.note(Call::Check, false);
    }
    let nodes = &[1, 2][..node_count];
    let costs = &[5][..cost_count];
    all_refuse(
        report,
        Network::new(first_edition(n, k), nodes, costs),
        3,
        0,
    )
}

// Build refuses the first so many of 1, 2, 3 as nodes and of 5, 6, 7 as costs.
fn lists_refused(
    report: Report,
    n: u32,
    k: u32,
    node_count: usize,
    cost_count: usize,
    room: usize,
    number: u32,
) -> Report {
    if 3 < node_count || 3 < cost_count {
        return report.note(Call::Build, false);
    }
    let nodes = &[1, 2, 3][..node_count];
    let costs = &[5, 6, 7][..cost_count];
    let network = Network::new(first_edition(n, k), nodes, costs);
    build_refuses(report, network, room, number, 0)
}

// Build refuses lists of so many zeros.
fn zeros_refused(report: Report, node_count: usize, cost_count: usize, number: u32) -> Report {
    let nodes = [0u16; 2003];
    let costs = [0u32; 1001];
    if 2003 < node_count || 1001 < cost_count {
        return report.note(Call::Build, false);
    }
    let lists = Network::new(
        first_edition(4, 1),
        &nodes[..node_count],
        &costs[..cost_count],
    );
    build_refuses(report, lists, 9000, number, 0)
}

// All calls refuse the only arc.
fn arc_refused(report: Report, n: u32, tail: u16, head: u16, number: u32) -> Report {
    all_refuse(
        report,
        Network::new(first_edition(n, 1), &[tail, head], &[5]),
        number,
        0,
    )
}

// All calls refuse the arc that stands second, behind 1→2.
fn second_arc_refused(report: Report, tail: u16, head: u16, number: u32) -> Report {
    all_refuse(
        report,
        Network::new(first_edition(4, 1), &[1, 2, tail, head], &[5, 6]),
        number,
        1,
    )
}

// All calls refuse three arcs.
fn arcs_refused(report: Report, nodes: [u16; 6], number: u32, place: u32) -> Report {
    all_refuse(
        report,
        Network::new(first_edition(4, 1), &nodes, &[5, 6, 7]),
        number,
        place,
    )
}

// Row 3, by n and by k.
fn sizes_out_of_range(mut report: Report) -> Report {
    report = sizes_refused(report, 0, 1, 0, 0);
    report = sizes_refused(report, 1, 1, 0, 0);
    report = sizes_refused(report, 201, 1, 2, 1);
    report = sizes_refused(report, 2, 0, 2, 0);
    report = all_refuse(
        report,
        Network::new(first_edition(2, 9), &[1, 2], &[1, 2, 3, 4, 5, 6, 7, 8, 9]),
        3,
        0,
    );
    report = lists_refused(report, 65538, 1, 2, 1, 200, 3);
    lists_refused(report, 2, 4294967295, 0, 0, 200, 3)
}

// Rows 3 and 4, by lists for Build of more than 1,000 arcs and of nearly so many.
fn lists_too_long(mut report: Report) -> Report {
    report = zeros_refused(report, 2002, 1001, 3);
    report = zeros_refused(report, 2003, 1001, 3);
    zeros_refused(report, 2001, 1000, 4)
}

// Row 4, by the lengths of Build's lists; and row 3 before it.
fn lengths_wrong(mut report: Report) -> Report {
    report = lists_refused(report, 4, 1, 1, 0, 200, 4);
    report = lists_refused(report, 4, 1, 3, 1, 200, 4);
    report = lists_refused(report, 1, 1, 3, 1, 200, 3);
    report = lists_refused(report, 4, 2, 2, 1, 200, 4);
    report = lists_refused(report, 4, 2, 2, 3, 200, 4);
    report = lists_refused(report, 4, 1, 0, 1, 200, 4);
    build_refuses(
        report,
        Network::new(first_edition(4, 1), &[0, 2], &[]),
        200,
        4,
        0,
    )
}

// Row 6, for the first arc and for a later one.
fn nodes_wrong(mut report: Report) -> Report {
    report = arc_refused(report, 4, 0, 2, 6);
    report = arc_refused(report, 4, 2, 0, 6);
    report = second_arc_refused(report, 5, 2, 6);
    report = second_arc_refused(report, 2, 5, 6);
    arc_refused(report, 200, 1, 65535, 6)
}

// Rows 7 and 8, for the first arc that they can apply to and for a later one.
fn arcs_wrong(mut report: Report) -> Report {
    report = arc_refused(report, 4, 2, 2, 7);
    report = arcs_refused(report, [1, 2, 1, 3, 4, 4], 7, 2);
    report = second_arc_refused(report, 1, 2, 8);
    report = all_refuse(
        report,
        Network::new(first_edition(4, 1), &[1, 3, 1, 2], &[5, 6]),
        8,
        1,
    );
    arcs_refused(report, [1, 2, 2, 3, 1, 4], 8, 2)
}

// All calls refuse the cost of the only arc.
fn cost_refused(report: Report, cost: u32) -> Report {
    all_refuse(
        report,
        Network::new(first_edition(4, 1), &[1, 2], &[cost]),
        9,
        0,
    )
}

// All calls refuse two columns of costs for two arcs.
fn columns_refused(report: Report, costs: [u32; 4], place: u32) -> Report {
    all_refuse(
        report,
        Network::new(first_edition(4, 2), &[1, 2, 1, 3], &costs),
        9,
        place,
    )
}

// Row 9, in the first column and in a later one, with the first such cost in front.
fn costs_wrong(mut report: Report) -> Report {
    report = cost_refused(report, 1000001);
    report = cost_refused(report, 4294967295);
    report = columns_refused(report, [1000000, 0, 5, 1000001], 3);
    columns_refused(report, [5, 6, 1000001, 1000001], 2)
}

// Which row is given where several apply to arcs: the first arc in error, and for one arc 6, 7, 8.
fn several_arc_rows(mut report: Report) -> Report {
    report = arcs_refused(report, [1, 2, 1, 2, 0, 2], 8, 1);
    report = arcs_refused(report, [1, 2, 3, 3, 2, 5], 7, 1);
    report = arc_refused(report, 4, 0, 0, 6);
    report = second_arc_refused(report, 5, 5, 6);
    report = second_arc_refused(report, 0, 1, 6);
    second_arc_refused(report, 1, 1, 7)
}

// Which row is given where several apply to lists: the sizes and the lengths first, and arcs before
// costs.
fn several_list_rows(mut report: Report) -> Report {
    report = all_refuse(
        report,
        Network::new(first_edition(4, 1), &[1, 2, 1, 2], &[1000001, 6]),
        8,
        1,
    );
    report = all_refuse(
        report,
        Network::new(first_edition(1, 1), &[1, 2], &[1000001]),
        3,
        0,
    );
    build_refuses(
        report,
        Network::new(first_edition(4, 1), &[0, 2, 1], &[5]),
        200,
        4,
        0,
    )
}

// Which row is given where the slice is too short as well: the other row.
fn slices_last(mut report: Report) -> Report {
    report = lists_refused(report, 1, 1, 2, 1, 0, 3);
    report = lists_refused(report, 4, 1, 2, 0, 0, 4);
    report = build_refuses(
        report,
        Network::new(first_edition(4, 1), &[2, 2], &[5]),
        0,
        7,
        0,
    );
    build_refuses(
        report,
        Network::new(first_edition(4, 1), &[1, 2], &[1000001]),
        0,
        9,
        0,
    )
}

// Row 13.
fn slices_too_short(mut report: Report) -> Report {
    report = lists_refused(report, 4, 1, 2, 1, 0, 13);
    report = lists_refused(report, 4, 1, 2, 1, 31, 13);
    lists_refused(report, 2, 1, 0, 0, 23, 13)
}

pub fn run(rt: &impl Print) -> io::Result<()> {
    let mut report = sizes_out_of_range(Report::new());
    report = lists_too_long(report);
    report = lengths_wrong(report);
    report = nodes_wrong(report);
    report = arcs_wrong(report);
    report = costs_wrong(report);
    report = several_arc_rows(report);
    report = several_list_rows(report);
    report = slices_last(report);
    slices_too_short(report).print(rt, "refused lists")
}
