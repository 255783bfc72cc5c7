// Rank with K = 256 on the ladder of 199 nodes.
//
// In column 2 every arc costs 1, so all paths cost 132, and the first are those that differ at the
// end: path c takes the higher node at step 65 - b exactly if c has the bit b.
use std::{array, io};
use test_calls::answers::single;
use test_calls::rank_calls::{Request, rank_into};
use test_fixtures::ladder::{ladder_rows, rank_ladder};
use test_fixtures::numbers::count;
use test_fixtures::report::{Call, Report};
use test_fixtures::slices::Pattern;

// What path c costs.
fn path_cost(column: u32, c: usize) -> u32 {
    if column == 1 { count(c) } else { 132 }
}

// Rank in a column, with slices as long as K = 256 needs: 256 rows of 199 places, 256 costs and
// 257 * 215 + 16 * 199 + 64 = 58,503 numbers of work.
fn rank_column(image: &[u8], column: u32, rows: &[u16], costs: &[u32]) -> bool {
    let mut row_places = [u16::PATTERN; 50944];
    let mut cost_places = [u32::PATTERN; 256];
    let mut work = [u32::PATTERN; 58503];
    let request = Request {
        column,
        start: 1,
        goal: 199,
        wanted: 256,
    };
    rank_into(
        image,
        request,
        &mut row_places,
        &mut cost_places,
        &mut work,
        single(256),
        rows,
        costs,
    )
}

fn note_column(report: Report, image: &[u8], column: u32) -> Report {
    let rows: [u16; 50944] = ladder_rows(column, 0);
    let costs: [u32; 256] = array::from_fn(|c| path_cost(column, c));
    report.note(Call::Rank, rank_column(image, column, &rows, &costs))
}

fn note_columns(mut report: Report, image: &[u8]) -> Report {
    report = note_column(report, image, 1);
    note_column(report, image, 2)
}

pub fn run(rt: &impl Print) -> io::Result<()> {
    note_columns(Report::new(), &rank_ladder()).print(rt, "ladder of 199 nodes")
}
