// Random networks of 2 to 8 nodes: Search from every node to one.
use arrayvec::ArrayVec;
use std::io;
use test_calls::rank_calls::{Request, WORK_PLACES, needed_rooms};
use test_calls::robust_calls::robust_of;
use test_calls::searches::{Choice, Quest, note_no_path, note_search};
use test_enumerate::{Costs, Descent, Path, Paths};
use test_fixtures::networks::{draw_network, number_at};
use test_fixtures::numbers::{count, narrow, node};
use test_fixtures::plain_image::{Header, Network};
use test_fixtures::random::note_networks;
use test_fixtures::report::{Call, Report};

// Whether Robust shows this figure, if it is settled.
fn robust_shows(image: &[u8], n: u32, request: Request, figure: u32) -> bool {
    let mut path = [0u16; 8];
    let mut work = [0u32; WORK_PLACES];
    let Some(lent) = work.get_mut(..needed_rooms(n, request.wanted).work) else {
        return false;
    };
    let answer = robust_of(image, request, &mut path, lent);
    answer.is_ok_and(|given| given.floor.is_some() || given.figure == figure)
}

// Robust in the column that a count names, of k, which are at most 8.
fn request_of(quest: Quest, k: u32, tried: u32) -> Request {
    let column = if k == 0 { 1 } else { tried % k % 8 + 1 };
    Request {
        column,
        start: quest.start,
        goal: quest.goal,
        wanted: 256,
    }
}

// Search where this path comes first in node order of all with the least figure that are open in every column. The rule
// finds that path, and Search finds it with the rule's count.
fn note_found(
    mut report: Report,
    header: Header,
    quest: Quest,
    image: &[u8],
    search: Descent,
    bests: Costs,
    path: Path,
) -> Report {
    let row = path.row;
    let length = test_enumerate::length(row);
    let measure = test_enumerate::regret(path.costs, bests);
    let figure = narrow(measure.figure);
    let found = search.best == Some((row, measure.figure));
    report = report.note(Call::Search, found);
    let asked = Quest {
        limit: search.tried,
        ..quest
    };
    let choice = Choice {
        figure,
        worst: measure.worst,
    };
    let n = header.n as usize;
    report = note_search(report, image, n, asked, choice, &row[..length]);
    let request = request_of(quest, header.k, search.tried);
    report.note(Call::Search, robust_shows(image, header.n, request, figure))
}

// Search from start to goal, if they differ, with the labels of all nodes to the goal.
fn note_start(
    report: Report,
    network: Network,
    quest: Quest,
    image: &[u8],
    table: &[Costs],
    paths: &mut Paths,
) -> Report {
    let start = node(quest.start);
    let goal = node(quest.goal);
    if start == goal {
        return report;
    }
    let header = network.header;
    let bests = test_enumerate::labels_of(table, start);
    paths.find(network, start, goal);
    let all = paths.all.as_mut_slice();
    let open = test_enumerate::open_everywhere(all);
    let listed = all.get(..open).unwrap_or(&[]);
    let Some(path) = test_enumerate::first_least(listed, bests) else {
        return note_no_path(report, image, header.n as usize, quest);
    };
    let search = test_enumerate::search(network, start, goal, table);
    note_found(report, header, quest, image, search, bests, path)
}

// Search from every node to the goal.
fn note_starts(
    mut report: Report,
    network: Network,
    goal: u32,
    image: &[u8],
    table: &mut [Costs],
) -> Report {
    let mut paths = Paths::new();
    test_enumerate::node_labels(network, node(goal), &mut paths, table);
    for start in 1..=count(table.len()) {
        let quest = Quest {
            start,
            goal,
            limit: 100,
        };
        report = note_start(report, network, quest, image, table, &mut paths);
    }
    report
}

// The same, with room made for the labels of up to eight nodes.
fn note_goal(report: Report, network: Network, goal: u32, image: &[u8]) -> Report {
    let mut table = [[0u64; 8]; 8];
    match table.get_mut(..network.header.n as usize) {
        Some(table) => note_starts(report, network, goal, image, table),
        None => report.note(Call::Search, false),
    }
}

// Search to the goal that is drawn with a network.
fn note_drawn(report: Report, network: Network, numbers: &[u32]) -> Report {
    let image: ArrayVec<u8, 2040> = network.image();
    let goal = number_at(numbers, 4) % network.header.n.max(1) % 8 + 1;
    note_goal(report, network, goal, image.as_slice())
}

// 2,000 networks of an edition, each with a goal.
fn networks(edition: u32) -> Report {
    note_networks(
        6,
        &mut [0; 520],
        2000,
        |numbers, _| draw_network(edition, numbers),
        |report, small, numbers| note_drawn(report, small.lent(), numbers),
    )
}

pub fn run(rt: &impl Print) -> io::Result<()> {
    networks(1).print(rt, "random networks")?;
    networks(2).print(rt, "random networks of edition 2")
}
