// The refusal table on the numbers and slices that the path layer's calls are given with network S.
// Their node lists stand with the cases of test_routes, and the images that they refuse with those of
// Check.
use super::note_rows;
use std::io;
use test_calls::answers::refusal;
use test_calls::path_calls::{label_agrees, regret_agrees, shortest_agrees};
use test_fixtures::case_images::network_s;
use test_fixtures::report::{Call, Report};

// Each row: column, start, goal and the places of the lent slice; and the numbers of the refusals
// by Label, Shortest and Regret, or 0 where the call is left out: a table of numbers, which no `Some` makes wider.
const REFUSED_NUMBERS: [[u32; 7]; 21] = [
    [1, 1, 0, 9, 10, 10, 10], // goal
    [1, 1, 5, 9, 10, 10, 10],
    [1, 1, 65540, 9, 10, 10, 10],
    [1, 1, 4294967295, 9, 10, 10, 10],
    [1, 0, 4, 9, 0, 10, 10], // start
    [1, 5, 4, 9, 0, 10, 10],
    [1, 65537, 4, 9, 0, 10, 10],
    [1, 4294967295, 4, 9, 0, 10, 10],
    [1, 1, 1, 9, 0, 10, 10], // start and goal
    [1, 4, 4, 9, 0, 10, 10],
    [0, 1, 4, 9, 11, 11, 0], // column
    [3, 1, 4, 9, 11, 11, 0],
    [65537, 1, 4, 9, 11, 11, 0],
    [4294967295, 1, 4, 9, 11, 11, 0],
    [1, 1, 4, 3, 13, 13, 0], // places
    [1, 1, 4, 0, 13, 13, 0],
    [0, 1, 5, 0, 10, 10, 10], // several: the lowest number is given
    [0, 1, 1, 0, 11, 10, 10],
    [0, 1, 4, 0, 11, 11, 0],
    [1, 4, 1, 3, 13, 13, 14],
    [1, 4, 1, 4, 0, 15, 14],
];

fn note_row(mut report: Report, image: &[u8], row: [u32; 7]) -> Report {
    let [column, start, goal, room, by_label, by_shortest, by_regret] = row;
    let room = room as usize;
    let label = label_agrees(image, column, goal, room, refusal(by_label, 0), &[]);
    let shortest = shortest_agrees(
        image,
        column,
        start,
        goal,
        room,
        refusal(by_shortest, 0),
        &[],
    );
    let regret = regret_agrees(image, start, goal, &[1, 3, 4], refusal(by_regret, 0));
    if by_label != 0 {
        report = report.note(Call::Label, label);
    }
    if by_shortest != 0 {
        report = report.note(Call::Shortest, shortest);
    }
    if by_regret != 0 {
        report = report.note(Call::Regret, regret);
    }
    report
}

pub fn run(rt: &impl Print) -> io::Result<()> {
    note_rows(
        &REFUSED_NUMBERS,
        |report, row| note_row(report, &network_s(), row),
    )
    .print(rt, "refused numbers")
}
