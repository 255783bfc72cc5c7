// The cases of Rank (REFERENCE, section 8): network S, the network of zero costs, the network without
// arcs and the line of 200 nodes.
use super::cases;
use std::io;
use test_calls::answers::{refusal, single};
use test_calls::rank_calls::{Request, Rooms, needed_rooms, note_rank, rank_agrees, rank_into};
use test_fixtures::report::{Call, Report};
use test_fixtures::slices::Pattern;

// Rank from 1 to 4, in a network of four nodes.
pub fn ranked(
    report: Report,
    image: &[u8],
    column: u32,
    wanted: u32,
    rows: &[u16],
    costs: &[u32],
) -> Report {
    let request = Request {
        column,
        start: 1,
        goal: 4,
        wanted,
    };
    note_rank(report, image, 4, request, rows, costs)
}

// Rank refuses with 15 and writes nothing. Robust's cases have the like of this and of the line's: the two calls are
// lent other slices, so one function for both would have the call itself as its argument, and be longer.
pub fn no_path(report: Report, image: &[u8], n: u32, column: u32, start: u32, goal: u32) -> Report {
    let request = Request {
        column,
        start,
        goal,
        wanted: 5,
    };
    let agrees = rank_agrees(image, request, needed_rooms(n, 5), refusal(15, 0), &[], &[]);
    report.note(Call::Rank, agrees)
}

// Rank on network S by column 1 gives the first so many of three paths, in so many places.
fn first_of_s(report: Report, image: &[u8], wanted: u32, places: usize, paths: usize) -> Report {
    let rows = [1u16, 2, 3, 4, 1, 3, 4, 0, 1, 2, 4, 0];
    let costs = [5u32, 7, 8];
    if 12 < places || 3 < paths {
        return report.note(Call::Rank, false);
    }
    ranked(report, image, 1, wanted, &rows[..places], &costs[..paths])
}

// Network S by column 2.
fn second_of_s(mut report: Report, image: &[u8]) -> Report {
    let rows = [1, 2, 4, 0, 1, 3, 4, 0, 1, 2, 3, 4];
    report = ranked(report, image, 2, 5, &rows, &[5, 8, 13]);
    ranked(report, image, 2, 2, &rows[..8], &[5, 8])
}

// K below, at and above the number of paths.
pub fn note_s(mut report: Report, image: &[u8]) -> Report {
    report = first_of_s(report, image, 5, 12, 3);
    report = first_of_s(report, image, 256, 12, 3);
    report = first_of_s(report, image, 3, 12, 3);
    report = first_of_s(report, image, 2, 8, 2);
    report = first_of_s(report, image, 1, 4, 1);
    report = second_of_s(report, image);
    report = no_path(report, image, 4, 1, 4, 1);
    no_path(report, image, 4, 1, 3, 2)
}

fn note_zero_costs(mut report: Report, image: &[u8]) -> Report {
    let rows = [1, 3, 2, 4, 1, 3, 4, 0];
    report = ranked(report, image, 1, 5, &rows, &[0, 0]);
    ranked(report, image, 1, 1, &rows[..4], &[0])
}

// Rank on the line, whose one path is all nodes. K = 256 needs 51,200 places for rows, 256 for costs and 58,776 for work.
fn rank_line(image: &[u8], wanted: u32, lent: Rooms, nodes: &[u16]) -> bool {
    let mut rows = [u16::PATTERN; 51200];
    let mut costs = [u32::PATTERN; 256];
    let mut work = [u32::PATTERN; 58776];
    let request = Request {
        column: 1,
        start: 1,
        goal: 200,
        wanted,
    };
    match (
        rows.get_mut(..lent.rows),
        costs.get_mut(..lent.costs),
        work.get_mut(..lent.work),
    ) {
        (Some(rows), Some(costs), Some(work)) => rank_into(
            image,
            request,
            rows,
            costs,
            work,
            single(1),
            nodes,
            &[199000000],
        ),
        _ => false,
    }
}

fn note_line(mut report: Report, image: &[u8], nodes: &[u16]) -> Report {
    for wanted in [1, 2, 256] {
        let agrees = rank_line(image, wanted, needed_rooms(200, wanted), nodes);
        report = report.note(Call::Rank, agrees);
    }
    report
}

pub fn run(rt: &impl Print) -> io::Result<()> {
    cases::print(
        rt,
        note_s,
        note_zero_costs,
        |report, image| no_path(report, image, 2, 1, 1, 2),
        note_line,
    )
}
