// Search on networks for which the answers are written down.
use std::io;
use test_calls::searches::{Choice, Quest, note_no_path, note_refused, note_search};
use test_fixtures::case_images::{
    apart, detour, ferry, line, line_path, network_s, no_arcs, second_s, zero_costs,
};
use test_fixtures::ladder::{ladder_rows, robust_ladder};
use test_fixtures::report::Report;

// Search from start to goal finds this path, and tries so many arcs. `ends` are the start and the goal, `values` the
// figure, the worst column and the arcs tried: arrays, as each case is a line of a table.
fn finds(
    report: Report,
    image: &[u8],
    n: usize,
    ends: [u32; 2],
    nodes: &[u16],
    values: [u32; 3],
) -> Report {
    let [start, goal] = ends;
    let [figure, worst, limit] = values;
    let quest = Quest { start, goal, limit };
    let choice = Choice { figure, worst };
    note_search(report, image, n, quest, choice, nodes)
}

fn finds_none(report: Report, image: &[u8], n: usize, ends: [u32; 2]) -> Report {
    let quest = Quest {
        start: ends[0],
        goal: ends[1],
        limit: 1000,
    };
    note_no_path(report, image, n, quest)
}

// Each row: start, goal, limit and the places of the lent slice; the refusal's number and place.
const REFUSED: [[u32; 6]; 18] = [
    [1, 0, 9, 9, 10, 0], // goal
    [1, 5, 9, 9, 10, 0],
    [1, 65540, 9, 9, 10, 0],
    [1, 4294967295, 9, 9, 10, 0],
    [0, 4, 9, 9, 10, 0], // start
    [5, 4, 9, 9, 10, 0],
    [65537, 4, 9, 9, 10, 0],
    [4294967295, 4, 9, 9, 10, 0],
    [1, 1, 9, 9, 10, 0], // start and goal
    [4, 4, 0, 0, 10, 0],
    [1, 4, 9, 3, 13, 0], // places
    [1, 4, 0, 0, 13, 0],
    [4, 1, 0, 3, 13, 0],
    [4, 1, 0, 4, 15, 0], // no path, whatever the limit
    [4, 1, 4294967295, 4, 15, 0],
    [1, 4, 0, 4, 19, 0], // the limit
    [1, 4, 1, 4, 19, 1],
    [1, 4, 4, 4, 19, 4],
];

fn note_rows(mut report: Report, image: &[u8]) -> Report {
    for [start, goal, limit, room, number, place] in REFUSED {
        let quest = Quest { start, goal, limit };
        report = note_refused(report, image, quest, room as usize, number, place);
    }
    report
}

// From 1 to 4 each of the five arcs is tried once. From 2 to 4 and from 1 to 3 the path that is completed first has
// the larger figure, and from 1 to 3 the arc to node 4 is dropped, which does not lead to 3.
fn note_s(mut report: Report, image: &[u8]) -> Report {
    report = note_rows(report, image);
    report = finds(report, image, 4, [1, 4], &[1, 2, 4], [3, 1, 5]);
    report = finds(report, image, 4, [2, 4], &[2, 4], [3, 1, 3]);
    report = finds(report, image, 4, [1, 3], &[1, 3], [2, 1, 4]);
    finds_none(report, image, 4, [4, 1])
}

fn of_network_s(rt: &impl Print) -> io::Result<()> {
    note_s(Report::new(), &network_s()).print(rt, "network S")?;
    note_s(Report::new(), &second_s()).print(rt, "network S in edition 2")
}

// All paths have the figure 0: the first in node order is found, and no later arc is followed.
fn of_equal_figures(rt: &impl Print) -> io::Result<()> {
    let image = zero_costs();
    let report = finds(Report::new(), &image, 4, [1, 4], &[1, 3, 2, 4], [0, 1, 4]);
    finds_none(report, &image, 4, [4, 1]).print(rt, "network of zero costs")?;
    finds_none(Report::new(), &no_arcs(), 2, [1, 2]).print(rt, "network without arcs")
}

// An arc that is closed in a column, and one to a node that is cut off from the goal there, is tried and
// dropped.
fn of_closed_arcs(rt: &impl Print) -> io::Result<()> {
    let by_ferry = ferry();
    let report = finds(Report::new(), &by_ferry, 4, [1, 4], &[1, 3, 4], [5, 1, 5]);
    report.print(rt, "ferry closed in a column")?;
    let parted = apart();
    let none = finds_none(Report::new(), &parted, 4, [1, 4]);
    finds(none, &parted, 4, [2, 4], &[2, 4], [3, 2, 3]).print(rt, "no path open in every column")?;
    let cut = detour();
    let way = finds(Report::new(), &cut, 4, [1, 4], &[1, 3, 4], [2, 1, 3]);
    finds_none(way, &cut, 4, [2, 4]).print(rt, "node cut off in a column")
}

// The search goes down all 200 nodes, by one arc to each.
fn of_line(rt: &impl Print) -> io::Result<()> {
    let image = line();
    let report = finds(
        Report::new(),
        &image,
        200,
        [1, 200],
        &line_path(),
        [0, 1, 199],
    );
    finds_none(report, &image, 200, [200, 1]).print(rt, "line of 200 nodes")
}

// The ladder that Robust is tested on, of 133 nodes to a path. The paths with the numbers 127 and 128 have the
// least figure; 128 is the first in node order. Up to step 57 the way by the lower node takes two arcs, and the
// arc to the higher node is dropped: 58 * 3 arcs. Path 0 is completed first, then path 128, and from then on all
// that takes 128 or more in a column is dropped: at 127 nodes of the steps 58 to 64 all four arcs are tried, at
// the 128 of step 65 the two arcs to the lower and the higher node, and two arcs to the goal.
fn of_ladder(rt: &impl Print) -> io::Result<()> {
    let nodes: [u16; 133] = ladder_rows(1, 128);
    let image = robust_ladder();
    finds(Report::new(), &image, 199, [1, 199], &nodes, [128, 1, 940]).print(
        rt,
        "ladder of 199 nodes",
    )
}

pub fn run(rt: &impl Print) -> io::Result<()> {
    of_network_s(rt)?;
    of_equal_figures(rt)?;
    of_closed_arcs(rt)?;
    of_line(rt)?;
    of_ladder(rt)
}
