// The cases of Label, Shortest and Regret (REFERENCE, section 8): network S, the network of zero costs,
// the network without arcs and the line of 200 nodes.
use super::cases;
use std::{array, io};
use test_calls::answers::{pair, refusal};
use test_calls::path_calls::{note_label, note_shortest, regret_agrees, shortest_agrees};
use test_fixtures::numbers::count;
use test_fixtures::report::{Call, Report};

// The label of a node that cannot reach the goal.
pub const UNREACHED: u32 = 4294967295;

// Regret of a path gives this figure and worst column.
pub fn regret_is(
    report: Report,
    image: &[u8],
    start: u32,
    goal: u32,
    nodes: &[u16],
    figure: u32,
    worst: u32,
) -> Report {
    let agrees = regret_agrees(image, start, goal, nodes, pair(figure, worst));
    report.note(Call::Regret, agrees)
}

// Regret of a list that is no path gives 14 at this place.
pub fn list_refused(
    report: Report,
    image: &[u8],
    start: u32,
    goal: u32,
    nodes: &[u16],
    place: u32,
) -> Report {
    let agrees = regret_agrees(image, start, goal, nodes, refusal(14, place));
    report.note(Call::Regret, agrees)
}

// Shortest from a start from which the goal cannot be reached in a column.
pub fn no_path(report: Report, image: &[u8], column: u32, start: u32, goal: u32) -> Report {
    let agrees = shortest_agrees(image, column, start, goal, 9, refusal(15, 0), &[]);
    report.note(Call::Shortest, agrees)
}

fn labels_of_s(mut report: Report, image: &[u8]) -> Report {
    report = note_label(report, image, 1, 4, &[5, 3, 2, 0]);
    report = note_label(report, image, 2, 4, &[5, 1, 7, 0]);
    report = note_label(report, image, 2, 3, &[1, 2, 0, UNREACHED]);
    note_label(report, image, 1, 1, &[0, UNREACHED, UNREACHED, UNREACHED])
}

fn paths_of_s(mut report: Report, image: &[u8]) -> Report {
    report = note_shortest(report, image, 1, 1, 4, 4, &[1, 2, 3, 4], 5);
    report = note_shortest(report, image, 2, 1, 4, 4, &[1, 2, 4], 5);
    report = note_shortest(report, image, 2, 1, 3, 4, &[1, 3], 1);
    report = no_path(report, image, 1, 4, 1);
    no_path(report, image, 1, 3, 2)
}

fn figures_of_s(mut report: Report, image: &[u8]) -> Report {
    report = regret_is(report, image, 1, 4, &[1, 2, 4], 3, 1);
    report = regret_is(report, image, 1, 4, &[1, 3, 4], 3, 2);
    report = regret_is(report, image, 1, 4, &[1, 2, 3, 4], 8, 2);
    report = regret_is(report, image, 2, 4, &[2, 4], 3, 1);
    regret_is(report, image, 1, 2, &[1, 2], 0, 1)
}

// The places of row 14: at the front, at a node that repeats or has no arc to it, at the end.
fn lists_on_s(mut report: Report, image: &[u8]) -> Report {
    report = list_refused(report, image, 1, 4, &[], 0);
    report = list_refused(report, image, 1, 4, &[2, 4], 0);
    report = list_refused(report, image, 1, 4, &[1, 4], 1);
    report = list_refused(report, image, 1, 4, &[1, 0, 4], 1);
    report = list_refused(report, image, 1, 4, &[1, 65535], 1);
    report = list_refused(report, image, 1, 4, &[1, 2, 1, 3, 4], 2);
    report = list_refused(report, image, 1, 4, &[1, 2, 2, 4], 2);
    report = list_refused(report, image, 1, 4, &[1, 2, 4, 3], 3);
    report = list_refused(report, image, 1, 4, &[1], 1);
    report = list_refused(report, image, 1, 4, &[1, 2], 2);
    report = list_refused(report, image, 1, 3, &[1, 2, 4], 3);
    report = list_refused(report, image, 4, 1, &[4], 1);
    list_refused(report, image, 4, 1, &[4, 1], 1)
}

pub fn note_s(mut report: Report, image: &[u8]) -> Report {
    report = labels_of_s(report, image);
    report = paths_of_s(report, image);
    report = figures_of_s(report, image);
    lists_on_s(report, image)
}

fn note_zero_costs(mut report: Report, image: &[u8]) -> Report {
    report = note_label(report, image, 1, 4, &[0, 0, 0, 0]);
    report = note_label(report, image, 1, 2, &[0, 0, 0, UNREACHED]);
    report = note_shortest(report, image, 1, 1, 4, 4, &[1, 3, 2, 4], 0);
    report = note_shortest(report, image, 1, 3, 4, 4, &[3, 2, 4], 0);
    report = regret_is(report, image, 1, 4, &[1, 3, 2, 4], 0, 1);
    report = regret_is(report, image, 1, 4, &[1, 3, 4], 0, 1);
    list_refused(report, image, 1, 4, &[1, 3, 2, 3, 4], 3)
}

fn note_no_arcs(mut report: Report, image: &[u8]) -> Report {
    report = note_label(report, image, 1, 2, &[UNREACHED, 0]);
    report = no_path(report, image, 1, 1, 2);
    list_refused(report, image, 1, 2, &[1, 2], 1)
}

// The labels of the line's nodes to the last of 200.
fn line_labels() -> [u32; 200] {
    array::from_fn(|i| 1000000 * 199u32.saturating_sub(count(i)))
}

fn note_line(mut report: Report, image: &[u8], nodes: &[u16]) -> Report {
    report = note_label(report, image, 1, 200, &line_labels());
    if nodes.len() != 200 {
        return report.note(Call::Regret, false);
    }
    report = note_shortest(report, image, 1, 1, 200, 200, nodes, 199000000);
    report = regret_is(report, image, 1, 200, nodes, 0, 1);
    report = list_refused(report, image, 1, 200, &nodes[0..199], 199);
    list_refused(report, image, 2, 1, &nodes[1..200], 199)
}

pub fn run(rt: &impl Print) -> io::Result<()> {
    cases::print(rt, note_s, note_zero_costs, note_no_arcs, note_line)
}
