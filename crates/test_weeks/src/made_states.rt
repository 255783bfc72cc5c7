// States made otherwise on a random network: an event on each. Such a state may hold anything, and is read as it is.
use super::drawing::{Drawn, EVENTS, below};
use super::left::left_week;
use super::map::{is_closed, turned};
use super::step::note_event;
use std::array;
use test_calls::rank_calls::Request;
use test_fixtures::networks::number_at;
use test_fixtures::numbers::count;
use test_fixtures::report::Report;
use week_calls::Week;

// How a state is made from one that Robust's answer makes. All but `State` and `BitsBeyond` are read as settled.
#[derive(Clone, Copy)]
enum Made {
    State(u32),
    Length(u32),
    // the event's arc at the route's last two places
    LastArc(u32),
    ShortOtherRoute,
    LongOtherRoute,
    BitsBeyond,
    OtherMapAndNumbers,
    AllOnes,
}

const KINDS: [Made; 14] = [
    Made::State(0),
    Made::State(9),
    Made::State(2),
    Made::State(15),
    Made::State(1),
    Made::Length(300),
    Made::LastArc(300),
    Made::LastArc(200),
    Made::LastArc(199),
    Made::ShortOtherRoute,
    Made::LongOtherRoute,
    Made::BitsBeyond,
    Made::OtherMapAndNumbers,
    Made::AllOnes,
];

// The map with an arc closed.
fn closed(words: [u64; 16], arc: usize) -> [u64; 16] {
    if is_closed(words, arc) {
        return words;
    }
    turned(words, arc)
}

// A map that closes up to three of m arcs.
fn drawn_map(m: u32, number: u32) -> [u64; 16] {
    let first = closed([0; 16], below(number / 64, m) as usize);
    let second = closed(first, below(number / 4096, m) as usize);
    closed(second, below(number / 262144, m) as usize)
}

// The map with bit m, the last bit of the first word and all bits of the other words set: they close nothing.
fn with_bits_beyond(words: [u64; 16], m: usize) -> [u64; 16] {
    let mut next = closed(closed(words, m), 63);
    next[1..].fill(u64::MAX);
    next
}

// The route with an arc's nodes at its last two places.
fn with_last(route: [u16; 200], arcs: &[u16], arc: usize) -> [u16; 200] {
    let mut next = route;
    if let Some(ends) = arcs.as_chunks::<2>().0.get(arc) {
        next[198..].copy_from_slice(ends);
    }
    next
}

// A route of nodes that this network need not have.
fn other_route(numbers: &[u32]) -> [u16; 200] {
    array::from_fn(|i| (number_at(numbers, 8 + count(i) as usize) / 64 % 9) as u16)
}

// A state with another length and route, read as settled.
fn routed(week: Week, length: u32, route: [u16; 200]) -> Week {
    Week {
        state: 1,
        length,
        route,
        ..week
    }
}

// A state with another map, and with one number as figure, worst column and floor, read as settled.
fn mapped(week: Week, closed: [u64; 16], number: u32) -> Week {
    Week {
        closed,
        state: 1,
        figure: number,
        worst: number,
        floor: number,
        ..week
    }
}

// A state of a kind. The arc is the event's, and the number a drawn one.
fn state_of(kind: Made, week: Week, drawn: Drawn, arc: usize, number: u32) -> Week {
    let Drawn {
        network,
        numbers,
        ..
    } = drawn;
    let m = network.arc_count();
    let bits_beyond = with_bits_beyond(week.closed, m as usize);
    match kind {
        Made::State(state) => Week { state, ..week },
        Made::Length(length) => routed(week, length, week.route),
        Made::LastArc(length) => { routed(week, length, with_last(week.route, network.nodes, arc)) }
        Made::ShortOtherRoute => routed(week, number % 9, other_route(numbers)),
        Made::LongOtherRoute => routed(week, u32::MAX, other_route(numbers)),
        Made::BitsBeyond => Week {
            closed: bits_beyond,
            ..week
        },
        Made::OtherMapAndNumbers => mapped(week, drawn_map(m, number), number),
        Made::AllOnes => mapped(week, bits_beyond, u32::MAX),
    }
}

fn note_made(report: Report, drawn: Drawn, request: Request, at: usize, kind: Made) -> Report {
    let Drawn {
        network,
        numbers,
        ..
    } = drawn;
    let words = drawn_map(
        network.arc_count(),
        number_at(numbers, count(at) as usize + 40),
    );
    let asked = drawn.event(request, number_at(numbers, at));
    let week = left_week(network, request, words);
    let number = number_at(numbers, 525);
    let other = state_of(kind, week, drawn, asked.arc as usize, number);
    note_event(report, drawn, asked, other).report
}

// A state of each kind.
pub fn note_made_states(mut report: Report, drawn: Drawn) -> Report {
    let request = drawn.request();
    for (i, &kind) in KINDS.iter().enumerate() {
        report = note_made(report, drawn, request, EVENTS + i, kind);
    }
    report
}
