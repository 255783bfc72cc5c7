// What an event comes to, by plain rules: a refusal, nothing, an answer that stands, or one that is found anew.
use super::held::Asked;
use super::left::left_bests;
use super::map::{is_closed, turned};
use test_calls::rank_calls::Request;
use test_calls::robust_calls::needed_route_rooms;
use test_fixtures::plain_image::{Header, Network};
use test_fixtures::report::Call;
use week_calls::Week;

fn is_outside(number: u32, last: u32) -> bool {
    number < 1 || last < number
}

// The number of Robust's refusal on an accepted image, if there is one up to 13.
pub fn question_fault(header: Header, request: Request, room: usize) -> Option<u32> {
    if is_outside(request.start, header.n) || is_outside(request.goal, header.n) {
        return Some(10);
    }
    if request.start == request.goal {
        return Some(10);
    }
    if is_outside(request.column, header.k) {
        return Some(11);
    }
    if is_outside(request.wanted, 256) {
        return Some(12);
    }
    if room < needed_route_rooms(header.n, request.wanted).work {
        return Some(13);
    }
    None
}

// The number of an event's refusal: also 20, if there is no such arc.
pub fn event_fault(network: Network, asked: Asked) -> Option<u32> {
    let fault = question_fault(network.header, asked.request, asked.room);
    if fault.is_none() && network.arc_count() <= asked.arc {
        return Some(20);
    }
    fault
}

// Whether a list has these two nodes one behind the other, among the first `count`.
fn goes_by(nodes: &[u16], count: u32, arc: [u16; 2]) -> bool {
    let mut pairs = nodes.windows(2).take((count as usize).saturating_sub(1));
    pairs.any(|pair| pair == arc.as_slice())
}

// Whether a state's route, which has 200 places, goes by an arc.
fn is_touched(arcs: &[u16], arc: usize, week: Week) -> bool {
    match arcs.as_chunks::<2>().0.get(arc) {
        Some(ends) => goes_by(&week.route, week.length, *ends),
        None => false,
    }
}

// Whether the answer stands when an arc is closed: it is settled, its route is not touched, and no column's best
// changes.
fn stands(network: Network, asked: Asked, week: Week) -> bool {
    let request = asked.request;
    let arc = asked.arc as usize;
    if week.state != 1 || is_touched(network.nodes, arc, week) {
        return false;
    }
    let words = week.closed;
    let before = left_bests(network, request, words);
    let after = left_bests(network, request, turned(words, arc));
    let k = network.header.k as usize;
    before.get(..k) == after.get(..k)
}

// What an event comes to, as the report's line for it.
pub fn verdict(network: Network, asked: Asked, week: Week) -> Call {
    if event_fault(network, asked).is_some() {
        return Call::Refused;
    }
    let words = week.closed;
    if is_closed(words, asked.arc as usize) == asked.close {
        return Call::Unchanged;
    }
    if asked.close && stands(network, asked, week) {
        return Call::Stands;
    }
    Call::Runs
}
