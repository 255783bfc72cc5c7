// The refusal table on the numbers and slices that Rank is given with network S.
use super::note_rows;
use std::io;
use test_calls::answers::refusal;
use test_calls::rank_calls::{Request, Rooms, rank_agrees};
use test_fixtures::case_images::network_s;
use test_fixtures::report::{Call, Report};

// Each row: column, start, goal and K; the places of the rows, the costs and the workspace; and the
// number of the refusal. K = 5 needs 20, 5 and 248 places, K = 1 needs 4, 1 and 168 and K = 256
// needs 1,024, 256 and 5,268.
const REFUSED_NUMBERS: [[u32; 8]; 39] = [
    [1, 1, 0, 5, 20, 5, 248, 10], // goal
    [1, 1, 5, 5, 20, 5, 248, 10],
    [1, 1, 65540, 5, 20, 5, 248, 10],
    [1, 1, 4294967295, 5, 20, 5, 248, 10],
    [1, 0, 4, 5, 20, 5, 248, 10], // start
    [1, 5, 4, 5, 20, 5, 248, 10],
    [1, 65537, 4, 5, 20, 5, 248, 10],
    [1, 4294967295, 4, 5, 20, 5, 248, 10],
    [1, 1, 1, 5, 20, 5, 248, 10], // start and goal
    [1, 4, 4, 5, 20, 5, 248, 10],
    [0, 1, 4, 5, 20, 5, 248, 11], // column
    [3, 1, 4, 5, 20, 5, 248, 11],
    [65537, 1, 4, 5, 20, 5, 248, 11],
    [4294967295, 1, 4, 5, 20, 5, 248, 11],
    [1, 1, 4, 0, 20, 5, 248, 12], // K
    [1, 1, 4, 257, 1028, 257, 5288, 12],
    [1, 1, 4, 257, 2060, 270, 6370, 12],
    [1, 1, 4, 65541, 2060, 270, 6370, 12],
    [1, 1, 4, 4294967295, 2060, 270, 6370, 12],
    [1, 1, 4, 5, 19, 5, 248, 13], // places
    [1, 1, 4, 5, 20, 4, 248, 13],
    [1, 1, 4, 5, 20, 5, 247, 13],
    [1, 1, 4, 5, 0, 5, 248, 13],
    [1, 1, 4, 5, 20, 0, 248, 13],
    [1, 1, 4, 5, 20, 5, 0, 13],
    [1, 1, 4, 5, 12, 3, 248, 13],
    [1, 1, 4, 1, 3, 1, 168, 13],
    [1, 1, 4, 1, 4, 0, 168, 13],
    [1, 1, 4, 1, 4, 1, 167, 13],
    [1, 1, 4, 256, 1023, 256, 5268, 13],
    [1, 1, 4, 256, 1024, 255, 5268, 13],
    [1, 1, 4, 256, 1024, 256, 5267, 13],
    [0, 1, 1, 0, 0, 0, 0, 10], // several: the lowest number is given
    [0, 1, 4, 0, 0, 0, 0, 11],
    [1, 4, 1, 0, 0, 0, 0, 12],
    [1, 4, 1, 257, 0, 0, 0, 12],
    [1, 4, 1, 5, 20, 5, 247, 13],
    [1, 4, 1, 5, 20, 5, 248, 15],
    [1, 4, 1, 256, 1024, 256, 5268, 15],
];

fn note_row(report: Report, image: &[u8], row: [u32; 8]) -> Report {
    let [column, start, goal, wanted, rows, costs, work, number] = row;
    let request = Request {
        column,
        start,
        goal,
        wanted,
    };
    let lent = Rooms {
        rows: rows as usize,
        costs: costs as usize,
        work: work as usize,
    };
    let agrees = rank_agrees(image, request, lent, refusal(number, 0), &[], &[]);
    report.note(Call::Rank, agrees)
}

pub fn run(rt: &impl Print) -> io::Result<()> {
    note_rows(
        &REFUSED_NUMBERS,
        |report, row| note_row(report, &network_s(), row),
    )
    .print(rt, "refused numbers")
}
