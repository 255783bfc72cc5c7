// Weeks on network S from 1 to 4, with states that are written down. Its paths are 1 2 4, 1 3 4 and 1 2 3 4; they cost
// 8, 7 and 5 in column 1, and 5, 8 and 13 in column 2.
use super::held::{Asked, event_agrees, fresh_agrees};
use std::io;
use test_calls::answers::single;
use test_calls::rank_calls::Request;
use test_calls::robust_calls::needed_route_rooms;
use test_fixtures::case_images::network_s;
use test_fixtures::report::{Call, Report};
use week_calls::Week;

// An event and what it comes to: the arc, whether it is closed, what the event does, and the number of closed roads.
// Behind these stands the state after it: the first word of the map, the six numbers from `state` to `floor`, and the
// first four places of the route. It is a tuple, and a state that no event made is a line whose first four places are
// not read: a struct of an event and a state would name nine numbers in each of the 23 lines below.
type Line = (u32, bool, Call, u32, u64, [u32; 6], [u16; 4]);

// In column 2 the first path is settled, and its own count is 1.
const SETTLED: Line = (0, false, Call::Runs, 0, 0, [1, 3, 3, 1, 1, 0], [1, 2, 4, 0]);

// The same state with another count, length and map: bits from 5 on close nothing.
const MADE: Line = (
    0,
    false,
    Call::Unchanged,
    0,
    96,
    [1, 300, 3, 1, 7, 0],
    [1, 2, 4, 0],
);

const MADE_EVENTS: [Line; 12] = [
    (
        1,
        true,
        Call::Stands,
        1,
        98,
        [1, 300, 3, 1, 7, 0],
        [1, 2, 4, 0],
    ), // 1 3 4 is no best
    (
        1,
        true,
        Call::Unchanged,
        1,
        98,
        [1, 300, 3, 1, 7, 0],
        [1, 2, 4, 0],
    ),
    (
        2,
        true,
        Call::Runs,
        2,
        102,
        [1, 3, 0, 1, 1, 0],
        [1, 2, 4, 0],
    ), // column 1 loses its best
    (
        4,
        true,
        Call::Stands,
        3,
        118,
        [1, 3, 0, 1, 1, 0],
        [1, 2, 4, 0],
    ),
    (
        0,
        false,
        Call::Unchanged,
        3,
        118,
        [1, 3, 0, 1, 1, 0],
        [1, 2, 4, 0],
    ),
    (
        0,
        true,
        Call::Runs,
        4,
        119,
        [15, 0, 0, 0, 0, 0],
        [0, 0, 0, 0],
    ), // no path is left
    (
        3,
        true,
        Call::Runs,
        5,
        127,
        [15, 0, 0, 0, 0, 0],
        [0, 0, 0, 0],
    ),
    (
        1,
        false,
        Call::Runs,
        4,
        125,
        [15, 0, 0, 0, 0, 0],
        [0, 0, 0, 0],
    ),
    (
        4,
        false,
        Call::Runs,
        3,
        109,
        [1, 3, 0, 1, 1, 0],
        [1, 3, 4, 0],
    ),
    (
        0,
        false,
        Call::Runs,
        2,
        108,
        [1, 3, 0, 1, 1, 0],
        [1, 3, 4, 0],
    ),
    (
        3,
        false,
        Call::Runs,
        1,
        100,
        [1, 3, 1, 1, 1, 0],
        [1, 2, 4, 0],
    ),
    (
        2,
        false,
        Call::Runs,
        0,
        96,
        [1, 3, 3, 1, 1, 0],
        [1, 2, 4, 0],
    ),
];

// In column 1 the answer is open, with K = 1, where there is a second path.
const OPEN: Line = (0, false, Call::Runs, 0, 0, [2, 4, 8, 2, 1, 2], [1, 2, 3, 4]);

const OPEN_EVENTS: [Line; 6] = [
    (1, true, Call::Runs, 1, 2, [2, 4, 8, 2, 1, 3], [1, 2, 3, 4]), // another floor
    (0, true, Call::Runs, 2, 3, [15, 0, 0, 0, 0, 0], [0, 0, 0, 0]),
    (1, false, Call::Runs, 1, 1, [1, 3, 0, 1, 1, 0], [1, 3, 4, 0]),
    (
        3,
        true,
        Call::Stands,
        2,
        9,
        [1, 3, 0, 1, 1, 0],
        [1, 3, 4, 0],
    ),
    (0, false, Call::Runs, 1, 8, [2, 4, 5, 2, 1, 2], [1, 2, 3, 4]),
    (2, true, Call::Runs, 2, 12, [1, 3, 0, 1, 1, 0], [1, 3, 4, 0]),
];

// From 4 to 1 there is no path.
const NO_PATH: Line = (
    0,
    false,
    Call::Runs,
    0,
    0,
    [15, 0, 0, 0, 0, 0],
    [0, 0, 0, 0],
);

const NO_PATH_EVENTS: [Line; 2] = [
    (0, true, Call::Runs, 1, 1, [15, 0, 0, 0, 0, 0], [0, 0, 0, 0]),
    (
        0,
        false,
        Call::Runs,
        0,
        0,
        [15, 0, 0, 0, 0, 0],
        [0, 0, 0, 0],
    ),
];

fn week_of(line: Line) -> Week {
    let (_, _, _, _, word, [state, length, figure, worst, count, floor], nodes) = line;
    let mut closed = [0u64; 16];
    let mut route = [0u16; 200];
    closed[0] = word;
    route[..4].copy_from_slice(&nodes);
    Week {
        closed,
        route,
        state,
        length,
        figure,
        worst,
        count,
        floor,
    }
}

fn note_line(report: Report, image: &[u8], request: Request, before: Line, line: Line) -> Report {
    let (arc, close, call, roads, ..) = line;
    let asked = Asked {
        request,
        arc,
        close,
        room: needed_route_rooms(4, request.wanted).work,
    };
    let agrees = event_agrees(image, asked, week_of(before), week_of(line), single(roads));
    report.note(call, agrees)
}

// Events one after the other, from the state of a line.
fn note_lines(
    mut report: Report,
    image: &[u8],
    request: Request,
    first: Line,
    lines: &[Line],
) -> Report {
    let mut before = first;
    for line in lines {
        report = note_line(report, image, request, before, *line);
        before = *line;
    }
    report
}

fn note_fresh(report: Report, image: &[u8], request: Request, line: Line) -> Report {
    let room = needed_route_rooms(4, request.wanted).work;
    let agrees = fresh_agrees(image, request, room, week_of(line), single(0));
    report.note(Call::Fresh, agrees)
}

// One path wanted between two nodes, in a column.
fn between(column: u32, start: u32, goal: u32) -> Request {
    Request {
        column,
        start,
        goal,
        wanted: 1,
    }
}

fn note_weeks(mut report: Report, image: &[u8]) -> Report {
    report = note_fresh(report, image, between(2, 1, 4), SETTLED);
    report = note_lines(report, image, between(2, 1, 4), MADE, &MADE_EVENTS);
    report = note_fresh(report, image, between(1, 1, 4), OPEN);
    report = note_lines(report, image, between(1, 1, 4), OPEN, &OPEN_EVENTS);
    report = note_fresh(report, image, between(1, 4, 1), NO_PATH);
    note_lines(report, image, between(1, 4, 1), NO_PATH, &NO_PATH_EVENTS)
}

pub fn run(rt: &impl Print) -> io::Result<()> {
    note_weeks(Report::new(), &network_s()).print(rt, "network S")
}
