// Networks of edition 2, in which an arc may be closed in a column: all calls of the path layer.
use super::path_cases::{UNREACHED, list_refused, regret_is};
use super::rank_cases::ranked;
use super::robust_cases::chosen;
use super::{path_cases, rank_cases, robust_cases};
use std::io;
use test_calls::answers::{left_open, settled};
use test_calls::path_calls::{note_label, note_shortest};
use test_calls::rank_calls::Request;
use test_calls::robust_calls::note_robust;
use test_fixtures::case_images::{apart, cut_off, detour, ferry, second_s};
use test_fixtures::report::Report;

// Network S with no arc closed: all answers are those of edition 1.
fn open_everywhere() -> Report {
    let image = second_s();
    let mut report = path_cases::note_s(Report::new(), &image);
    report = rank_cases::note_s(report, &image);
    robust_cases::note_s(report, &image)
}

fn ferry_in_columns(mut report: Report, image: &[u8]) -> Report {
    report = note_label(report, image, 1, 4, &[1, 3, 3, 0]);
    report = note_label(report, image, 2, 4, &[2, 8, 1, 0]);
    report = note_shortest(report, image, 1, 1, 4, 4, &[1, 4], 1);
    report = note_shortest(report, image, 2, 1, 4, 4, &[1, 3, 4], 2);
    let rows = [1, 4, 0, 0, 1, 2, 4, 0, 1, 3, 4, 0];
    report = ranked(report, image, 1, 5, &rows, &[1, 5, 6]);
    report = ranked(report, image, 1, 1, &rows[..4], &[1]);
    report = ranked(report, image, 2, 5, &[1, 3, 4, 0, 1, 2, 4, 0], &[2, 12]);
    ranked(report, image, 2, 2, &[1, 3, 4, 0, 1, 2, 4, 0], &[2, 12])
}

// Deviations in column 1 are held against the ferry's cost, 1, though no path with it is admitted: those
// of 1 2 4 and 1 3 4 are 4 and 5 there, and 10 and 0 in column 2. So the first path's own deviation in
// column 1 is 4, and the floor after it is 5.
fn ferry_in_all(mut report: Report, image: &[u8]) -> Report {
    report = list_refused(report, image, 1, 4, &[1, 4], 1);
    report = regret_is(report, image, 1, 4, &[1, 2, 4], 10, 2);
    report = regret_is(report, image, 1, 4, &[1, 3, 4], 5, 1);
    report = chosen(report, image, 1, 1, left_open(3, 10, 2, 1, 5), &[1, 2, 4]);
    report = chosen(report, image, 1, 2, settled(3, 5, 1, 2), &[1, 3, 4]);
    report = chosen(report, image, 1, 256, settled(3, 5, 1, 2), &[1, 3, 4]);
    report = chosen(report, image, 2, 1, settled(3, 5, 1, 1), &[1, 3, 4]);
    chosen(report, image, 2, 48, settled(3, 5, 1, 1), &[1, 3, 4])
}

fn note_ferry() -> Report {
    let image = ferry();
    ferry_in_all(ferry_in_columns(Report::new(), &image), &image)
}

fn apart_in_columns(mut report: Report, image: &[u8]) -> Report {
    report = note_label(report, image, 1, 4, &[3, 2, 5, 0]);
    report = note_label(report, image, 2, 4, &[4, 1, 1, 0]);
    report = note_shortest(report, image, 1, 1, 4, 4, &[1, 2, 4], 3);
    report = note_shortest(report, image, 2, 1, 4, 4, &[1, 3, 4], 4);
    report = ranked(report, image, 1, 5, &[1, 2, 4, 0, 1, 2, 3, 4], &[3, 7]);
    ranked(report, image, 2, 5, &[1, 3, 4, 0], &[4])
}

// From 2 to 4 both columns have all paths.
fn apart_from_2(mut report: Report, image: &[u8]) -> Report {
    let request = Request {
        column: 1,
        start: 2,
        goal: 4,
        wanted: 5,
    };
    report = regret_is(report, image, 2, 4, &[2, 4], 3, 2);
    report = regret_is(report, image, 2, 4, &[2, 3, 4], 4, 1);
    note_robust(report, image, 4, request, settled(2, 3, 2, 1), &[2, 4])
}

fn apart_in_all(mut report: Report, image: &[u8]) -> Report {
    report = list_refused(report, image, 1, 4, &[1, 2, 4], 1);
    report = list_refused(report, image, 1, 4, &[1, 3, 4], 1);
    report = robust_cases::no_path(report, image, 4, 1, 1, 4);
    report = robust_cases::no_path(report, image, 4, 2, 1, 4);
    apart_from_2(report, image)
}

fn note_apart() -> Report {
    let image = apart();
    apart_in_all(apart_in_columns(Report::new(), &image), &image)
}

fn cut_off_in_columns(mut report: Report, image: &[u8]) -> Report {
    report = note_label(report, image, 1, 4, &[3, 2, 1, 0]);
    report = note_label(report, image, 2, 4, &[UNREACHED, UNREACHED, UNREACHED, 0]);
    report = note_label(report, image, 2, 3, &[2, 1, 0, UNREACHED]);
    report = note_shortest(report, image, 1, 1, 4, 4, &[1, 2, 3, 4], 3);
    report = note_shortest(report, image, 2, 1, 3, 4, &[1, 2, 3], 2);
    report = path_cases::no_path(report, image, 2, 1, 4);
    report = path_cases::no_path(report, image, 2, 3, 4);
    report = rank_cases::no_path(report, image, 4, 2, 1, 4);
    let rows = [1, 2, 3, 4, 1, 4, 0, 0, 1, 2, 4, 0];
    ranked(report, image, 1, 5, &rows, &[3, 4, 6])
}

// The place of row 14 is that of the first arc that is closed somewhere, and a node that repeats before
// it comes first.
fn cut_off_in_all(mut report: Report, image: &[u8]) -> Report {
    report = list_refused(report, image, 1, 4, &[1, 4], 1);
    report = list_refused(report, image, 1, 4, &[1, 2, 4], 2);
    report = list_refused(report, image, 1, 4, &[1, 2, 3, 4], 3);
    report = list_refused(report, image, 1, 4, &[1, 2, 1, 4], 2);
    report = list_refused(report, image, 1, 4, &[1, 2, 3], 3);
    report = regret_is(report, image, 1, 3, &[1, 2, 3], 0, 1);
    report = robust_cases::no_path(report, image, 4, 1, 1, 4);
    robust_cases::no_path(report, image, 4, 2, 1, 4)
}

fn note_cut_off() -> Report {
    let image = cut_off();
    cut_off_in_all(cut_off_in_columns(Report::new(), &image), &image)
}

// 1 3 4 is the one path that is open in both columns.
fn detour_in_all(mut report: Report, image: &[u8]) -> Report {
    report = note_label(report, image, 1, 4, &[5, 3, 2, 0]);
    report = note_label(report, image, 2, 4, &[8, UNREACHED, 7, 0]);
    report = path_cases::no_path(report, image, 2, 2, 4);
    report = list_refused(report, image, 1, 4, &[1, 2, 4], 2);
    report = regret_is(report, image, 1, 4, &[1, 3, 4], 2, 1);
    report = chosen(report, image, 1, 1, settled(3, 2, 1, 1), &[1, 3, 4]);
    chosen(report, image, 2, 1, settled(3, 2, 1, 1), &[1, 3, 4])
}

fn note_detour() -> Report {
    detour_in_all(Report::new(), &detour())
}

pub fn run(rt: &impl Print) -> io::Result<()> {
    open_everywhere().print(rt, "network S in edition 2")?;
    note_ferry().print(rt, "ferry closed in a column")?;
    note_apart().print(rt, "no path open in every column")?;
    note_cut_off().print(rt, "goal cut off in a column")?;
    note_detour().print(rt, "node cut off in a column")
}
