// Random networks: the calls of the path layer, held to the plain enumeration of all paths.
ghost use Rattle.std.specs.Prelude.{◌<◌};

use super::path_lists::{Trip, drawn_path, note_lists};
use super::rank_random::note_ranks;
use test_calls::answers::{pair, refusal};
use test_calls::path_calls::{note_label, shortest_agrees};
use test_enumerate::{Costs, Path, Paths};
use test_fixtures::networks::number_at;
use test_fixtures::numbers::{count, narrow, node};
use test_fixtures::plain_image::{Header, Network};
use test_fixtures::report::{Call, Report};

// Puts the labels of a node into the table, which has eight places for each column.
fn put_labels(labels: &mut [u32], start: u32, of_node: Costs)
    requires { 0 < start }
{
    for (u, label) in of_node.iter().enumerate() {
        if let Some(place) = labels.get_mut(8 * u + start as usize - 1) {
            *place = narrow(*label);
        }
    }
}

// Shortest in column u, by all paths with their costs. The slice is exactly long enough or longer.
fn note_first(
    report: Report,
    n: u32,
    u: u32,
    start: u32,
    goal: u32,
    image: &[u8],
    paths: &[Path],
) -> Report {
    let room = n as usize + 9 * (u % 2) as usize;
    let Some(path) = test_enumerate::first_open(u, paths) else {
        let agrees = shortest_agrees(image, u, start, goal, room, refusal(15, 0), &[]);
        return report.note(Call::Shortest, agrees);
    };
    let cost = test_enumerate::in_column(path.costs, u);
    let row = path.row;
    let length = test_enumerate::length(row);
    let found = pair(count(length), narrow(cost));
    let agrees = shortest_agrees(image, u, start, goal, room, found, &row[..length]);
    report.note(Call::Shortest, agrees)
}

// Shortest in each column, and into a slice that is a place too short.
fn note_firsts(
    mut report: Report,
    n: u32,
    k: u32,
    start: u32,
    goal: u32,
    image: &[u8],
    paths: &[Path],
) -> Report {
    if n == 0 {
        return report.note(Call::Shortest, false);
    }
    let short = shortest_agrees(image, 1, start, goal, n as usize - 1, refusal(13, 0), &[]);
    report = report.note(Call::Shortest, short);
    for u in 1..=k {
        report = note_first(report, n, u, start, goal, image, paths);
    }
    report
}

// The calls from a start to a goal, if they differ, by all paths with their costs. Rank and Robust put
// these into their order. Regret has lists made from a path that is open in every column, and in edition
// 2 also from any path.
fn note_pair(
    mut report: Report,
    code: u32,
    network: Network,
    numbers: &[u32],
    image: &[u8],
    bests: Costs,
    paths: &mut [Path],
) -> Report {
    let start = code % 8 + 1;
    let goal = code / 8 + 1;
    if start == goal {
        return report;
    }
    let Header { edition, n, k } = network.header;
    report = note_firsts(report, n, k, start, goal, image, paths);
    let trip = Trip { n, start, goal };
    let open = test_enumerate::open_everywhere(paths);
    let number = number_at(numbers, start as usize);
    let path = drawn_path(paths.get(..open).unwrap_or(&[]), number);
    report = note_lists(report, trip, network, bests, path, numbers, image);
    if edition == 2 {
        let other = drawn_path(paths, number);
        report = note_lists(report, trip, network, bests, other, numbers, image);
    }
    note_ranks(report, n, k, code, numbers, image, bests, paths)
}

// Label with a goal, in each column, held to the table of labels.
fn note_columns(
    mut report: Report,
    n: u32,
    k: u32,
    goal: u32,
    image: &[u8],
    labels: &[u32],
) -> Report {
    for u in 0..k {
        let from = 8 * (u % 8) as usize;
        let end = from + (n % 9) as usize;
        if labels.len() < end {
            return report.note(Call::Label, false);
        }
        report = note_label(report, image, u + 1, goal, &labels[from..end]);
    }
    report
}

// Label with the goal of a pair, when its last start has filled the table.
fn note_goal(report: Report, code: u32, header: Header, image: &[u8], labels: &[u32]) -> Report {
    let Header { n, k, .. } = header;
    let start = code % 8 + 1;
    let goal = code / 8 + 1;
    if start != n || n < goal {
        return report;
    }
    note_columns(report, n, k, goal, image, labels)
}

// The calls for one of the 64 pairs of eight nodes, if the network has both. Puts the start's labels
// into the table.
fn note_code(
    report: Report,
    code: u32,
    network: Network,
    numbers: &[u32],
    image: &[u8],
    paths: &mut Paths,
    labels: &mut [u32],
) -> Report {
    let start = code % 8 + 1;
    let goal = code / 8 + 1;
    let Header { n, k, .. } = network.header;
    if n < start || n < goal {
        return report;
    }
    paths.find(network, node(start), node(goal));
    let all = paths.all.as_mut_slice();
    let bests = test_enumerate::labels(k, node(start), node(goal), all);
    put_labels(labels, start, bests);
    note_pair(report, code, network, numbers, image, bests, all)
}

// The calls of the path layer on a network of up to eight nodes, between all of them and in all
// columns.
pub fn note_paths(mut report: Report, network: Network, numbers: &[u32], image: &[u8]) -> Report {
    let mut paths = Paths::new();
    let mut labels = [0u32; 64];
    for code in 0..64u32 {
        report = note_code(
            report,
            code,
            network,
            numbers,
            image,
            &mut paths,
            &mut labels,
        );
        report = note_goal(report, code, network.header, image, &labels);
    }
    report
}
