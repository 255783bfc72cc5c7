// The refusal table on what Fresh and Event are given with network S. A refused event gives the state back, whatever it
// holds, and a refused fresh week is all 0.
use super::held::{Asked, event_agrees, fresh_agrees};
use super::left::numbered;
use std::io;
use test_calls::answers::{Answer, refusal};
use test_calls::rank_calls::Request;
use test_fixtures::case_images::network_s;
use test_fixtures::report::{Call, Report};
use week_calls::Week;

// Each row: column, start, goal and K; the places of the workspace; the arc; and the number and the place of the
// refusal. The workspace needs 168 places with K = 1, and 248 with K = 5.
const REFUSED_EVENTS: [[u32; 8]; 20] = [
    [1, 1, 0, 5, 248, 0, 10, 0], // start and goal
    [1, 1, 5, 5, 248, 0, 10, 0],
    [1, 0, 4, 5, 248, 0, 10, 0],
    [1, 65537, 4, 5, 248, 0, 10, 0],
    [1, 4, 4, 5, 248, 0, 10, 0],
    [0, 1, 4, 5, 248, 0, 11, 0], // column
    [3, 1, 4, 5, 248, 0, 11, 0],
    [1, 1, 4, 0, 248, 0, 12, 0], // K
    [1, 1, 4, 257, 6370, 0, 12, 0],
    [1, 1, 4, 5, 247, 0, 13, 0], // places
    [1, 1, 4, 1, 167, 0, 13, 0],
    [1, 1, 4, 5, 0, 0, 13, 0],
    [0, 1, 1, 0, 0, 5, 10, 0], // several: the first of the table is given
    [0, 1, 4, 0, 0, 5, 11, 0],
    [1, 1, 4, 0, 0, 5, 12, 0],
    [1, 1, 4, 5, 247, 5, 13, 0],
    [1, 1, 4, 5, 248, 5, 20, 5], // the arc
    [1, 1, 4, 5, 248, 63, 20, 63],
    [1, 4, 1, 5, 248, 1024, 20, 1024],
    [1, 1, 4, 1, 168, 4294967295, 20, 4294967295],
];

// A state that no call makes.
fn odd_week() -> Week {
    Week {
        closed: [12345678912345678912; 16],
        route: [777; 200],
        state: 9,
        length: 300,
        figure: 1,
        worst: 2,
        count: 3,
        floor: 4,
    }
}

fn request_in(row: [u32; 8]) -> Request {
    Request {
        column: row[0],
        start: row[1],
        goal: row[2],
        wanted: row[3],
    }
}

fn note_refused_event(
    report: Report,
    image: &[u8],
    row: [u32; 8],
    close: bool,
    expected: Answer,
) -> Report {
    let asked = Asked {
        request: request_in(row),
        arc: row[5],
        close,
        room: row[4] as usize,
    };
    let week = odd_week();
    report.note(
        Call::Refused,
        event_agrees(image, asked, week, week, expected),
    )
}

fn note_refused_fresh(report: Report, image: &[u8], row: [u32; 8], expected: Answer) -> Report {
    let nothing = numbered([0; 16], 0);
    let agrees = fresh_agrees(image, request_in(row), row[4] as usize, nothing, expected);
    report.note(Call::Fresh, agrees)
}

// An event that closes the arc, one that opens it, and, if the arc is not the reason, a fresh week.
fn note_row(mut report: Report, image: &[u8], row: [u32; 8], expected: Answer) -> Report {
    report = note_refused_event(report, image, row, true, expected);
    report = note_refused_event(report, image, row, false, expected);
    if matches!(expected, Err((20, _))) {
        return report;
    }
    note_refused_fresh(report, image, row, expected)
}

fn note_rows(mut report: Report, image: &[u8], rows: &[[u32; 8]]) -> Report {
    for row in rows {
        report = note_row(report, image, *row, refusal(row[6], row[7]));
    }
    report
}

fn note_table(image: &[u8]) -> Report {
    note_rows(Report::new(), image, &REFUSED_EVENTS)
}

// Byte `at` of the image has been given a content: the image's rows stand before all others.
fn note_wrong(report: Report, at: usize, content: u8, expected: Answer) -> Report {
    let mut image = network_s();
    if let Some(byte) = image.get_mut(at) {
        *byte = content;
    }
    let noted = note_row(report, &image, [1, 1, 4, 5, 248, 0, 0, 0], expected);
    note_row(noted, &image, [0, 0, 0, 0, 0, 4294967295, 0, 0], expected)
}

fn note_images(mut report: Report) -> Report {
    report = note_row(report, &[], [1, 1, 4, 5, 248, 0, 0, 0], refusal(1, 0));
    report = note_wrong(report, 0, 7, refusal(2, 0));
    report = note_wrong(report, 2, 1, refusal(3, 0));
    report = note_wrong(report, 20, 1, refusal(4, 0));
    report = note_wrong(report, 24, 9, refusal(6, 0));
    report = note_wrong(report, 36, 1, refusal(8, 3));
    note_wrong(report, 46, 255, refusal(9, 0))
}

pub fn run(rt: &impl Print) -> io::Result<()> {
    note_images(note_table(&network_s())).print(rt, "refused on network S")
}
