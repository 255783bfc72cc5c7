// What is left of a network without its closed arcs: its lists, Robust on their image, and each column's best.
use super::map::is_closed;
use arrayvec::ArrayVec;
use image::Refusal;
use network_calls::Decision;
use network_calls::robust::robust;
use test_calls::rank_calls::{Request, WORK_PLACES};
use test_enumerate::{Costs, Paths};
use test_fixtures::networks::SmallNetwork;
use test_fixtures::numbers::node;
use test_fixtures::plain_image::Network;
use week_calls::Week;

// A network of up to 56 arcs without those that a map closes.
fn left_lists(network: Network, words: [u64; 16]) -> SmallNetwork {
    let mut small = SmallNetwork::new(network.header);
    for (i, arc) in network.nodes.chunks_exact(2).enumerate() {
        if !is_closed(words, i) {
            let _ = small.nodes.try_extend_from_slice(arc);
        }
    }
    let m = network.nodes.len() / 2;
    if m == 0 {
        return small;
    }
    for column in network.costs.chunks_exact(m) {
        for (i, cost) in column.iter().enumerate() {
            if !is_closed(words, i) {
                let _ = small.costs.try_push(*cost);
            }
        }
    }
    small
}

fn decided(words: [u64; 16], route: [u16; 200], state: u32, given: Decision, floor: u32) -> Week {
    Week {
        closed: words,
        route,
        state,
        length: given.length,
        figure: given.figure,
        worst: given.worst,
        count: given.count,
        floor,
    }
}

// A state with a number and nothing else.
pub fn numbered(words: [u64; 16], state: u32) -> Week {
    Week {
        closed: words,
        route: [0; 200],
        state,
        length: 0,
        figure: 0,
        worst: 0,
        count: 0,
        floor: 0,
    }
}

// The state that Robust's answer makes: 1 if it is settled, 2 if it is open, and the number of the refusal, which is
// to be 15.
fn state_of(words: [u64; 16], route: [u16; 200], answer: Result<Decision, Refusal>) -> Week {
    match answer {
        Ok(given) => match given.floor {
            None => decided(words, route, 1, given, 0),
            Some(floor) => decided(words, route, 2, given, floor),
        },
        Err(row) => numbered(words, row.number()),
    }
}

// The state with Robust's answer on an image.
fn robust_week(image: &[u8], request: Request, words: [u64; 16]) -> Week {
    let mut route = [0u16; 200];
    let mut work = [0u32; WORK_PLACES];
    let answer = robust(
        image,
        request.column,
        request.start,
        request.goal,
        request.wanted,
        &mut route,
        &mut work,
    );
    state_of(words, route, answer)
}

// The state with Robust's answer on the image without the closed arcs.
pub fn left_week(network: Network, request: Request, words: [u64; 16]) -> Week {
    let left = left_lists(network, words);
    let image: ArrayVec<u8, 2040> = left.lent().image();
    robust_week(image.as_slice(), request, words)
}

// best(u) for each column, by all paths, or the mark where no path is open in u.
fn bests(network: Network, request: Request) -> Costs {
    let start = node(request.start);
    let goal = node(request.goal);
    let mut paths = Paths::new();
    paths.find(network, start, goal);
    test_enumerate::labels(network.header.k, start, goal, paths.all.as_slice())
}

// Each column's best without the closed arcs.
pub fn left_bests(network: Network, request: Request, words: [u64; 16]) -> Costs {
    bests(left_lists(network, words).lent(), request)
}
