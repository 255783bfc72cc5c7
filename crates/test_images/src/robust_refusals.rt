// The refusal table on the numbers and slices that Robust is given with network S.
use super::note_rows;
use std::io;
use test_calls::answers::refusal;
use test_calls::rank_calls::{Request, Rooms};
use test_calls::robust_calls::robust_agrees;
use test_fixtures::case_images::network_s;
use test_fixtures::report::{Call, Report};

// Each row: column, start, goal and K; the places of the path and the workspace; and the number of
// the refusal. The path needs 4 places, and the workspace 168 with K = 1, 248 with K = 5 and 5,268
// with K = 256.
const REFUSED_NUMBERS: [[u32; 7]; 37] = [
    [1, 1, 0, 5, 4, 248, 10], // goal
    [1, 1, 5, 5, 4, 248, 10],
    [1, 1, 65540, 5, 4, 248, 10],
    [1, 1, 4294967295, 5, 4, 248, 10],
    [1, 0, 4, 5, 4, 248, 10], // start
    [1, 5, 4, 5, 4, 248, 10],
    [1, 65537, 4, 5, 4, 248, 10],
    [1, 4294967295, 4, 5, 4, 248, 10],
    [1, 1, 1, 5, 4, 248, 10], // start and goal
    [1, 4, 4, 5, 4, 248, 10],
    [0, 1, 4, 5, 4, 248, 11], // column
    [3, 1, 4, 5, 4, 248, 11],
    [65537, 1, 4, 5, 4, 248, 11],
    [4294967295, 1, 4, 5, 4, 248, 11],
    [1, 1, 4, 0, 4, 248, 12], // K
    [1, 1, 4, 257, 4, 5288, 12],
    [1, 1, 4, 257, 20, 6370, 12],
    [1, 1, 4, 65541, 20, 6370, 12],
    [1, 1, 4, 4294967295, 20, 6370, 12],
    [1, 1, 4, 5, 3, 248, 13], // places
    [1, 1, 4, 5, 4, 247, 13],
    [1, 1, 4, 5, 0, 248, 13],
    [1, 1, 4, 5, 4, 0, 13],
    [1, 1, 4, 5, 0, 0, 13],
    [1, 1, 4, 1, 3, 168, 13],
    [1, 1, 4, 1, 4, 167, 13],
    [1, 1, 4, 256, 3, 5268, 13],
    [1, 1, 4, 256, 4, 5267, 13],
    [0, 1, 1, 0, 0, 0, 10], // several: the lowest number is given
    [0, 1, 4, 0, 0, 0, 11],
    [0, 4, 1, 5, 4, 248, 11],
    [1, 4, 1, 0, 0, 0, 12],
    [1, 4, 1, 257, 0, 0, 12],
    [1, 4, 1, 5, 3, 248, 13],
    [1, 4, 1, 5, 4, 247, 13],
    [1, 4, 1, 5, 4, 248, 15],
    [1, 4, 1, 256, 4, 5268, 15],
];

fn note_row(report: Report, image: &[u8], row: [u32; 7]) -> Report {
    let [column, start, goal, wanted, path, work, number] = row;
    let request = Request {
        column,
        start,
        goal,
        wanted,
    };
    let lent = Rooms {
        rows: path as usize,
        costs: 0,
        work: work as usize,
    };
    let agrees = robust_agrees(image, request, lent, refusal(number, 0), &[]);
    report.note(Call::Robust, agrees)
}

pub fn run(rt: &impl Print) -> io::Result<()> {
    note_rows(
        &REFUSED_NUMBERS,
        |report, row| note_row(report, &network_s(), row),
    )
    .print(rt, "refused numbers")
}
