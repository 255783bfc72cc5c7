// The calls of the path layer on an image that is refused.
use super::answers::Answer;
use super::find_calls::find_agrees;
use super::path_calls::{label_agrees, regret_agrees, shortest_agrees};
use super::rank_calls::{Request, Rooms, needed_rooms, rank_agrees};
use super::robust_calls::{needed_route_rooms, robust_agrees};
use super::searches::{Quest, note_given};
use test_fixtures::report::{Call, Report};

// A request that network S admits.
fn admitted() -> Request {
    Request {
        column: 1,
        start: 1,
        goal: 4,
        wanted: 5,
    }
}

// A request that no network admits.
fn nothing() -> Request {
    Request {
        column: 0,
        start: 0,
        goal: 0,
        wanted: 0,
    }
}

// No place of any slice.
const NONE: Rooms = Rooms {
    rows: 0,
    costs: 0,
    work: 0,
};

fn note_refused_ranks(report: Report, image: &[u8], expected: Answer) -> Report {
    let asked = rank_agrees(image, admitted(), needed_rooms(4, 5), expected, &[], &[]);
    let not_asked = rank_agrees(image, nothing(), NONE, expected, &[], &[]);
    report.note(Call::Rank, asked).note(Call::Rank, not_asked)
}

fn note_refused_robusts(report: Report, image: &[u8], expected: Answer) -> Report {
    let asked = robust_agrees(image, admitted(), needed_route_rooms(4, 5), expected, &[]);
    let not_asked = robust_agrees(image, nothing(), NONE, expected, &[]);
    report
        .note(Call::Robust, asked)
        .note(Call::Robust, not_asked)
}

fn note_refused_searches(report: Report, image: &[u8], expected: Answer) -> Report {
    let asked = Quest {
        start: 1,
        goal: 4,
        limit: 100,
    };
    let not_asked = Quest {
        start: 0,
        goal: 0,
        limit: 0,
    };
    let noted = note_given(report, image, asked, 12, expected, &[]);
    note_given(noted, image, not_asked, 0, expected, &[])
}

// Every call of the path layer refuses the image with this answer and writes nothing, whatever else
// it is given.
pub fn note_refused_paths(mut report: Report, image: &[u8], expected: Answer) -> Report {
    report = report.note(Call::Label, label_agrees(image, 1, 4, 12, expected, &[]));
    report = report.note(Call::Label, label_agrees(image, 0, 0, 0, expected, &[]));
    report = report.note(
        Call::Shortest,
        shortest_agrees(image, 1, 1, 4, 12, expected, &[]),
    );
    report = report.note(
        Call::Shortest,
        shortest_agrees(image, 0, 0, 0, 0, expected, &[]),
    );
    report = report.note(
        Call::Regret,
        regret_agrees(image, 1, 4, &[1, 3, 4], expected),
    );
    report = report.note(Call::Regret, regret_agrees(image, 0, 0, &[], expected));
    report = report.note(Call::Find, find_agrees(image, 1, 2, expected));
    report = report.note(Call::Find, find_agrees(image, 0, 0, expected));
    report = note_refused_searches(report, image, expected);
    report = note_refused_ranks(report, image, expected);
    note_refused_robusts(report, image, expected)
}
