// Node lists for Regret: paths, damaged paths and drawn nodes, held to the plain enumeration.
use std::array;
use test_calls::answers::{Answer, pair, refusal};
use test_calls::path_calls::regret_agrees;
use test_enumerate::{Costs, Path, Row};
use test_fixtures::networks::number_at;
use test_fixtures::numbers::{count, narrow, node};
use test_fixtures::plain_image::Network;
use test_fixtures::report::{Call, Report};

// The nodes between which a path is looked for, in a network of n nodes.
#[derive(Clone, Copy)]
pub struct Trip {
    pub n: u32,
    pub start: u32,
    pub goal: u32,
}

// Regret's answer for a list of up to eight nodes, which is given as a row too.
fn regret_answer(trip: Trip, network: Network, bests: Costs, list: &[u16], row: Row) -> Answer {
    let start = node(trip.start);
    let goal = node(trip.goal);
    if let Err(place) = test_enumerate::check_list(network, start, goal, list) {
        return refusal(14, count(place));
    }
    let own = test_enumerate::regret(test_enumerate::path_costs(network, row), bests);
    pair(narrow(own.figure), own.worst)
}

// The row of the first `size` nodes.
fn beginning(mut row: Row, size: usize) -> Row {
    if size < 8 {
        row[size..].fill(0);
    }
    row
}

// Regret of the list of a row's first `length` nodes.
fn note_list(
    report: Report,
    trip: Trip,
    network: Network,
    bests: Costs,
    row: Row,
    length: usize,
    image: &[u8],
) -> Report {
    if 8 < length {
        return report.note(Call::Regret, false);
    }
    let first = beginning(row, length);
    let list = &row[..length];
    let expected = regret_answer(trip, network, bests, list, first);
    let agrees = regret_agrees(image, trip.start, trip.goal, list, expected);
    report.note(Call::Regret, agrees)
}

// A node from 0 to n + 1.
fn drawn_node(n: u32, number: u32) -> u16 {
    if 200 < n {
        return 0;
    }
    node(number % (n + 2))
}

// A row of nodes from 0 to n + 1, by the numbers from an index on, with the start in front.
fn drawn_row(n: u32, start: u32, numbers: &[u32], from: u32) -> Row {
    let mut row: Row = array::from_fn(|i| drawn_node(n, number_at(numbers, from as usize + i % 8)));
    row[0] = node(start);
    row
}

// The row with another node at a place.
fn changed_row(mut row: Row, place: usize, other: u16) -> Row {
    row[place % 8] = other;
    row
}

// The list of a row's first `length` nodes. The row is an array, as the plain enumeration has paths; an ArrayVec of the
// list would be made of it and be made a row again.
#[derive(Clone, Copy)]
struct List {
    row: Row,
    length: usize,
}

// What a list is: a path; the path without its last node, with one node more or with one node changed; or drawn nodes.
#[derive(Clone, Copy)]
enum Kind {
    Path,
    Shorter,
    Longer,
    Changed,
    Drawn,
}

const KINDS: [Kind; 5] = [
    Kind::Path,
    Kind::Shorter,
    Kind::Longer,
    Kind::Changed,
    Kind::Drawn,
];

// A list of a kind. One that the path is too short or too long for has drawn nodes.
fn drawn_list(kind: Kind, n: u32, start: u32, path: Row, numbers: &[u32], from: u32) -> List {
    let place = number_at(numbers, from as usize);
    let other = drawn_node(n, number_at(numbers, from as usize + 1));
    let length = test_enumerate::length(path);
    match kind {
        Kind::Path => List { row: path, length },
        Kind::Shorter if 0 < length => List {
            row: path,
            length: length - 1,
        },
        Kind::Longer if length < 8 => List {
            row: changed_row(path, length, other),
            length: length + 1,
        },
        Kind::Changed => List {
            row: changed_row(path, place as usize, other),
            length,
        },
        _ => List {
            row: drawn_row(n, start, numbers, from),
            length: (place % 9) as usize,
        },
    }
}

// Regret of a list of each kind.
pub fn note_lists(
    mut report: Report,
    trip: Trip,
    network: Network,
    bests: Costs,
    path: Row,
    numbers: &[u32],
    image: &[u8],
) -> Report {
    let from = 50 * (trip.goal % 9) + 6 * (trip.start % 9);
    for kind in KINDS {
        let list = drawn_list(kind, trip.n, trip.start, path, numbers, from);
        let row = list.row;
        let length = list.length;
        report = note_list(report, trip, network, bests, row, length, image);
    }
    report
}

// One of these paths, or a row of zeros if there is none.
pub fn drawn_path(paths: &[Path], number: u32) -> Row {
    let at = number as usize % paths.len().max(1);
    paths.get(at).map_or([0; 8], |path| path.row)
}
