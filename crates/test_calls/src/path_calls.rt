// The calls of the path layer, each held to the answer that it should give and to what the slice
// that is lent to it should hold after it.
use super::answers::{Answer, answer_of, pair, refusal, written};
use column_calls::label::label;
use column_calls::shortest::shortest;
use network_calls::regret::regret;
use test_fixtures::numbers::count;
use test_fixtures::report::{Call, Report};
use test_fixtures::slices::{Pattern, holds};

// Places for 200 nodes, and some more.
const PLACES: usize = 210;

// Whether Label into a slice of `room` places gives the answer, and writes these labels and no
// others.
pub fn label_agrees(
    image: &[u8],
    column: u32,
    goal: u32,
    room: usize,
    expected: Answer,
    written: &[u32],
) -> bool {
    let mut places = [u32::PATTERN; PLACES];
    places.get_mut(..room).is_some_and(|labels| {
        answer_of(label(image, column, goal, labels)) == expected && holds(labels, written)
    })
}

// Label of a network with as many nodes as labels, into a slice that is exactly long enough, into a
// longer one and into one a place too short.
pub fn note_label(report: Report, image: &[u8], column: u32, goal: u32, labels: &[u32]) -> Report {
    let n = labels.len();
    if n == 0 || 200 < n {
        return report.note(Call::Label, false);
    }
    let exact = label_agrees(image, column, goal, n, written(), labels);
    let longer = label_agrees(image, column, goal, n + 9, written(), labels);
    let shorter = label_agrees(image, column, goal, n - 1, refusal(13, 0), &[]);
    report
        .note(Call::Label, exact)
        .note(Call::Label, longer)
        .note(Call::Label, shorter)
}

// Whether Shortest into a slice of `room` places gives the answer, and writes these nodes and no
// others.
pub fn shortest_agrees(
    image: &[u8],
    column: u32,
    start: u32,
    goal: u32,
    room: usize,
    expected: Answer,
    written: &[u16],
) -> bool {
    let mut places = [u16::PATTERN; PLACES];
    places.get_mut(..room).is_some_and(|path| {
        answer_of(shortest(image, column, start, goal, path)) == expected && holds(path, written)
    })
}

// Shortest of a network of n nodes, into a slice that is exactly long enough, into a longer one and
// into one a place too short.
pub fn note_shortest(
    report: Report,
    image: &[u8],
    column: u32,
    start: u32,
    goal: u32,
    n: usize,
    nodes: &[u16],
    cost: u32,
) -> Report {
    if n == 0 || 200 < n {
        return report.note(Call::Shortest, false);
    }
    let found = pair(count(nodes.len()), cost);
    let short = refusal(13, 0);
    let exact = shortest_agrees(image, column, start, goal, n, found, nodes);
    let longer = shortest_agrees(image, column, start, goal, n + 9, found, nodes);
    let shorter = shortest_agrees(image, column, start, goal, n - 1, short, &[]);
    report
        .note(Call::Shortest, exact)
        .note(Call::Shortest, longer)
        .note(Call::Shortest, shorter)
}

// Whether Regret gives the answer.
pub fn regret_agrees(image: &[u8], start: u32, goal: u32, nodes: &[u16], expected: Answer) -> bool {
    answer_of(regret(image, start, goal, nodes)) == expected
}
