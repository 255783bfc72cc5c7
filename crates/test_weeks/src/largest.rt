// A week on the network with the most nodes and arcs, 200 and 1,000, whose map fills all words: every arc is closed, in
// rising order, and then opened, in falling order. All arcs cost 1, and node 200 has the last five, 995 to 999, to the
// nodes 1 to 5. So the way from 200 to 1 is arc 995 until that is closed; then there is none, as all arcs into 1 that
// are left are those from 200.
use super::held::{Asked, event_agrees, fresh_agrees};
use super::left::numbered;
use super::map::turned;
use super::step::Run;
use arrayvec::ArrayVec;
use std::io;
use test_calls::answers::{refusal, single};
use test_calls::rank_calls::Request;
use test_calls::robust_calls::needed_route_rooms;
use test_fixtures::networks::largest_nodes;
use test_fixtures::plain_image::{Network, first_edition};
use test_fixtures::report::{Call, Report};
use week_calls::Week;

// The arc from 200 to 1.
const WAY: u32 = 995;

// No full run here counts so many paths.
const MADE_COUNT: u32 = 7;

fn request() -> Request {
    Request {
        column: 1,
        start: 200,
        goal: 1,
        wanted: 1,
    }
}

fn room() -> usize {
    needed_route_rooms(200, 1).work
}

fn asked(arc: u32, close: bool) -> Asked {
    Asked {
        request: request(),
        arc,
        close,
        room: room(),
    }
}

// The state in which the way is open.
fn direct(words: [u64; 16], count: u32) -> Week {
    let mut route = [0u16; 200];
    route[0] = 200;
    route[1] = 1;
    Week {
        closed: words,
        route,
        state: 1,
        length: 2,
        figure: 0,
        worst: 1,
        count,
        floor: 0,
    }
}

// The state after the closure of an arc, where all before it are closed: the answer stands, with its count, as long as
// the way is open. After an opening, where all behind the arc are open, the answer is found anew.
fn week_after(words: [u64; 16], arc: u32, close: bool) -> Week {
    if close {
        return if arc < WAY {
            direct(words, MADE_COUNT)
        } else {
            numbered(words, 15)
        };
    }
    if WAY < arc {
        numbered(words, 15)
    } else {
        direct(words, 1)
    }
}

fn line_of(arc: u32, close: bool) -> Call {
    if close && arc < WAY {
        Call::Stands
    } else {
        Call::Runs
    }
}

fn next(run: Run, image: &[u8], arc: u32, close: bool) -> Run {
    let week = run.week;
    let roads = arc.wrapping_add(u32::from(close));
    let words = week.closed;
    let after = week_after(turned(words, arc as usize), arc, close);
    let agrees = event_agrees(image, asked(arc, close), week, after, single(roads));
    Run {
        report: run.report.note(line_of(arc, close), agrees),
        week: after,
    }
}

// The map with all bits from 1000 on, which close nothing.
fn bits_beyond() -> [u64; 16] {
    let mut words = [0u64; 16];
    words[15] = 18446742974197923840;
    words
}

// All events, and before them those whose arc is beyond the last.
fn note_events(image: &[u8]) -> Report {
    let week = direct(bits_beyond(), MADE_COUNT);
    let fresh = direct([0; 16], 1);
    let begun = Report::new()
        .note(
            Call::Fresh,
            fresh_agrees(image, request(), room(), fresh, single(0)),
        )
        .note(
            Call::Refused,
            event_agrees(image, asked(1000, true), week, week, refusal(20, 1000)),
        )
        .note(
            Call::Refused,
            event_agrees(image, asked(1023, false), week, week, refusal(20, 1023)),
        );
    let mut run = Run {
        report: begun,
        week,
    };
    for arc in 0..1000u32 {
        run = next(run, image, arc, true);
    }
    for arc in (0..1000u32).rev() {
        run = next(run, image, arc, false);
    }
    run.report
}

pub fn run(rt: &impl Print) -> io::Result<()> {
    let arcs = largest_nodes();
    let network = Network::new(first_edition(200, 1), &arcs, &[1; 1000]);
    let image: ArrayVec<u8, 8024> = network.image();
    note_events(image.as_slice()).print(rt, "largest network")
}
