// Search, held to the answer that it should give and to what the slice that is lent to it should hold after
// it.
use super::answers::{Answer, answer_of, refusal, settled};
use search_calls::search::search;
use test_fixtures::numbers::count;
use test_fixtures::report::{Call, Report};
use test_fixtures::slices::{Pattern, holds};

// Places for 200 nodes, and some more.
const PLACES: usize = 210;

// What is asked of Search.
#[derive(Clone, Copy)]
pub struct Quest {
    pub start: u32,
    pub goal: u32,
    pub limit: u32,
}

// Whether Search into a slice of `room` places gives the answer, and writes these nodes and no others.
pub fn search_agrees(
    image: &[u8],
    quest: Quest,
    room: usize,
    expected: Answer,
    written: &[u16],
) -> bool {
    let mut places = [u16::PATTERN; PLACES];
    let Quest { start, goal, limit } = quest;
    places.get_mut(..room).is_some_and(|path| {
        answer_of(search(image, start, goal, limit, path)) == expected && holds(path, written)
    })
}

// Search with a limit gives the answer.
pub fn note_given(
    report: Report,
    image: &[u8],
    quest: Quest,
    room: usize,
    expected: Answer,
    nodes: &[u16],
) -> Report {
    report.note(
        Call::Search,
        search_agrees(image, quest, room, expected, nodes),
    )
}

// Search with a limit gives this refusal, at its place.
pub fn note_refused(
    report: Report,
    image: &[u8],
    quest: Quest,
    room: usize,
    number: u32,
    place: u32,
) -> Report {
    note_given(report, image, quest, room, refusal(number, place), &[])
}

// The same ends with another limit.
fn within(quest: Quest, limit: u32) -> Quest {
    Quest { limit, ..quest }
}

// What Search finds: a path's figure and worst column. The enumeration has 64 bits of both: it is written apart from what
// it is held to.
#[derive(Clone, Copy)]
pub struct Choice {
    pub figure: u32,
    pub worst: u32,
}

// Search in a network of n nodes that finds this path, and tries as many arcs as the quest's limit. It does
// with this limit, with one more and with the largest, into a slice that is exactly long enough and into a
// longer one, and not with one less, nor with 0, nor into a slice a place too short.
pub fn note_search(
    mut report: Report,
    image: &[u8],
    n: usize,
    quest: Quest,
    choice: Choice,
    nodes: &[u16],
) -> Report {
    let tried = quest.limit;
    if n == 0 || 200 < n || tried == 0 || tried == u32::MAX {
        return report.note(Call::Search, false);
    }
    let below = tried - 1;
    let above = tried + 1;
    let shorter = n - 1;
    let longer = n + 9;
    let found = settled(count(nodes.len()), choice.figure, choice.worst, tried);
    let most = within(quest, u32::MAX);
    report = note_given(report, image, quest, n, found, nodes);
    report = note_given(report, image, within(quest, above), longer, found, nodes);
    report = note_given(report, image, most, n, found, nodes);
    report = note_refused(report, image, within(quest, below), n, 19, below);
    report = note_refused(report, image, within(quest, 0), longer, 19, 0);
    note_refused(report, image, quest, shorter, 13, 0)
}

// Search in a network of n nodes with no path that is open in every column, whatever the limit.
pub fn note_no_path(mut report: Report, image: &[u8], n: usize, quest: Quest) -> Report {
    if n == 0 || 200 < n {
        return report.note(Call::Search, false);
    }
    let shorter = n - 1;
    let longer = n + 9;
    report = note_refused(report, image, quest, n, 15, 0);
    report = note_refused(report, image, within(quest, 0), longer, 15, 0);
    note_refused(report, image, quest, shorter, 13, 0)
}
