// Robust on the ladder of 199 nodes that Rank is tested on, with another column 2.
//
// At the last eight steps, from step 58 on, the higher node costs 1, 2, 4 .. 128 in column 1, and the
// lower node as much in column 2. At every other step the higher node costs 1,000 in both. So the
// best is 0 in both, and the 256 paths that take the lower node at every other step are the first in
// both: the path that takes the higher node at step 58 + b exactly if the number c has the bit b
// costs c in column 1 and 255 - c in column 2. Its figure is the larger of the two.
//
// By column 1 the path j + 1 has c = j, so the least figure of the first j is 256 - j up to j = 128,
// and the stopping rule needs 128 paths. The same holds by column 2, where the path j + 1 has
// c = 255 - j.
use std::io;
use test_calls::answers::{Answer, left_open, settled};
use test_calls::rank_calls::Request;
use test_calls::robust_calls::{needed_route_rooms, robust_into};
use test_fixtures::ladder::{ladder_rows, robust_ladder};
use test_fixtures::report::{Call, Report};
use test_fixtures::slices::Pattern;

// Robust with slices for K = 256, which needs 257 * 215 + 16 * 199 + 64 = 58,503 numbers of work.
fn robust_column(image: &[u8], column: u32, wanted: u32, expected: Answer, nodes: &[u16]) -> bool {
    let mut path = [u16::PATTERN; 199];
    let mut work = [u32::PATTERN; 58503];
    let Some(work) = work.get_mut(..needed_route_rooms(199, wanted).work) else {
        return false;
    };
    let request = Request {
        column,
        start: 1,
        goal: 199,
        wanted,
    };
    robust_into(image, request, &mut path, work, expected, nodes)
}

// Robust by a column gives the path with the number c.
fn chosen(
    report: Report,
    image: &[u8],
    column: u32,
    wanted: u32,
    expected: Answer,
    c: usize,
) -> Report {
    let nodes: [u16; 133] = ladder_rows(1, c);
    report.note(
        Call::Robust,
        robust_column(image, column, wanted, expected, &nodes),
    )
}

// K below, at and above 128.
fn note_ladder(mut report: Report, image: &[u8]) -> Report {
    report = chosen(report, image, 1, 1, left_open(133, 255, 2, 1, 1), 0);
    report = chosen(report, image, 1, 127, left_open(133, 129, 2, 127, 127), 126);
    report = chosen(report, image, 1, 128, settled(133, 128, 2, 128), 127);
    report = chosen(report, image, 1, 256, settled(133, 128, 2, 128), 127);
    report = chosen(report, image, 2, 1, left_open(133, 255, 1, 1, 1), 255);
    report = chosen(report, image, 2, 127, left_open(133, 129, 1, 127, 127), 129);
    report = chosen(report, image, 2, 128, settled(133, 128, 1, 128), 128);
    chosen(report, image, 2, 256, settled(133, 128, 1, 128), 128)
}

pub fn run(rt: &impl Print) -> io::Result<()> {
    note_ladder(Report::new(), &robust_ladder()).print(rt, "ladder of 199 nodes")
}
