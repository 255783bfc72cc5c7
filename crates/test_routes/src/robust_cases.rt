// The cases of Robust (REFERENCE, section 8): network S, the network of zero costs, the network without
// arcs and the line of 200 nodes.
use super::cases;
use std::io;
use test_calls::answers::{Answer, left_open, refusal, settled};
use test_calls::rank_calls::{Request, Rooms};
use test_calls::robust_calls::{needed_route_rooms, note_robust, robust_agrees, robust_into};
use test_fixtures::report::{Call, Report};
use test_fixtures::slices::Pattern;

// Robust from 1 to 4, in a network of four nodes.
pub fn chosen(
    report: Report,
    image: &[u8],
    column: u32,
    wanted: u32,
    found: Answer,
    nodes: &[u16],
) -> Report {
    let request = Request {
        column,
        start: 1,
        goal: 4,
        wanted,
    };
    note_robust(report, image, 4, request, found, nodes)
}

// Robust refuses with 15 and writes nothing.
pub fn no_path(report: Report, image: &[u8], n: u32, column: u32, start: u32, goal: u32) -> Report {
    let request = Request {
        column,
        start,
        goal,
        wanted: 1,
    };
    let agrees = robust_agrees(
        image,
        request,
        needed_route_rooms(n, 1),
        refusal(15, 0),
        &[],
    );
    report.note(Call::Robust, agrees)
}

// K below, at and above the number of paths that the stopping rule needs: 2 in column 1, and 1 in
// column 2.
pub fn note_s(mut report: Report, image: &[u8]) -> Report {
    let first = settled(3, 3, 2, 2);
    report = chosen(report, image, 1, 1, left_open(4, 8, 2, 1, 2), &[1, 2, 3, 4]);
    report = chosen(report, image, 1, 2, first, &[1, 3, 4]);
    report = chosen(report, image, 1, 3, first, &[1, 3, 4]);
    report = chosen(report, image, 1, 48, first, &[1, 3, 4]);
    report = chosen(report, image, 1, 256, first, &[1, 3, 4]);
    let second = settled(3, 3, 1, 1);
    report = chosen(report, image, 2, 1, second, &[1, 2, 4]);
    report = chosen(report, image, 2, 2, second, &[1, 2, 4]);
    report = chosen(report, image, 2, 256, second, &[1, 2, 4]);
    report = no_path(report, image, 4, 1, 4, 1);
    no_path(report, image, 4, 1, 3, 2)
}

// The first ranked path is as good as any.
fn note_zero_costs(mut report: Report, image: &[u8]) -> Report {
    let found = settled(4, 0, 1, 1);
    report = chosen(report, image, 1, 1, found, &[1, 3, 2, 4]);
    chosen(report, image, 1, 5, found, &[1, 3, 2, 4])
}

// Robust on the line, whose one path is all nodes. K = 256 needs 58,776 numbers of work.
fn robust_line(image: &[u8], wanted: u32, lent: Rooms, nodes: &[u16]) -> bool {
    let mut path = [u16::PATTERN; 200];
    let mut work = [u32::PATTERN; 58776];
    let request = Request {
        column: 1,
        start: 1,
        goal: 200,
        wanted,
    };
    match (path.get_mut(..lent.rows), work.get_mut(..lent.work)) {
        (Some(path), Some(work)) => {
            robust_into(image, request, path, work, settled(200, 0, 1, 1), nodes)
        }
        _ => false,
    }
}

fn note_line(mut report: Report, image: &[u8], nodes: &[u16]) -> Report {
    for wanted in [1, 2, 256] {
        let agrees = robust_line(image, wanted, needed_route_rooms(200, wanted), nodes);
        report = report.note(Call::Robust, agrees);
    }
    report
}

pub fn run(rt: &impl Print) -> io::Result<()> {
    cases::print(
        rt,
        note_s,
        note_zero_costs,
        |report, image| no_path(report, image, 2, 1, 1, 2),
        note_line,
    )
}
