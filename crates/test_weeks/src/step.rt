// One event, on a state and on the same state with another count; and what the state of a week shows.
use super::drawing::Drawn;
use super::held::{Asked, event_agrees, fresh_agrees};
use super::left::{left_week, numbered};
use super::map::{closed_count, turned};
use super::verdict::{event_fault, question_fault, verdict};
use test_calls::answers::{Answer, refusal, single};
use test_calls::rank_calls::Request;
use test_fixtures::plain_image::Network;
use test_fixtures::report::{Call, Report};
use week_calls::Week;

// The state after some events, and the report of them.
#[derive(Clone, Copy)]
pub struct Run {
    pub report: Report,
    pub week: Week,
}

// No full run counts so many paths.
const OTHER_COUNT: u32 = 4123456789;

fn with_count(week: Week, count: u32) -> Week {
    Week { count, ..week }
}

// The state after an event that comes to this.
fn week_after(kind: Call, network: Network, asked: Asked, week: Week) -> Week {
    let words = week.closed;
    let turned_words = turned(words, asked.arc as usize);
    match kind {
        Call::Stands => Week {
            closed: turned_words,
            ..week
        },
        Call::Runs => left_week(network, asked.request, turned_words),
        _ => week,
    }
}

// The answer beside the state: the refusal, or the number of closed roads.
fn answer_to(fault: Option<u32>, m: u32, arc: u32, after: Week) -> Answer {
    match fault {
        Some(20) => refusal(20, arc),
        Some(number) => refusal(number, 0),
        None => single(closed_count(after.closed, m as usize)),
    }
}

// What a state with another count becomes: a full run counts anew, and all else leaves the count.
fn counted_after(kind: Call, after: Week) -> Week {
    if kind == Call::Runs {
        return after;
    }
    with_count(after, OTHER_COUNT)
}

// One event on a state, however it was made.
pub fn note_event(report: Report, drawn: Drawn, asked: Asked, week: Week) -> Run {
    let network = drawn.network;
    let image = drawn.image;
    let m = network.arc_count();
    let kind = verdict(network, asked, week);
    let after = week_after(kind, network, asked, week);
    let answer = answer_to(event_fault(network, asked), m, asked.arc, after);
    let agrees = event_agrees(image, asked, week, after, answer);
    let other = with_count(week, OTHER_COUNT);
    let other_agrees = event_agrees(image, asked, other, counted_after(kind, after), answer);
    Run {
        report: report.note(kind, agrees).note(kind, other_agrees),
        week: after,
    }
}

// The report's line for what a state shows.
fn shown(state: u32) -> Call {
    match state {
        1 => Call::Settled,
        2 => Call::Open,
        _ => Call::NoPath,
    }
}

// Whether a state shows Robust's answer on the image without the closed arcs: all of it but the count.
fn note_shown(report: Report, network: Network, request: Request, week: Week) -> Report {
    let full = left_week(network, request, week.closed);
    let agrees = week == with_count(full, week.count);
    report.note(shown(full.state), agrees)
}

// The next event of a week that asks `request` all along; the event itself may ask something else, and be refused.
pub fn next(run: Run, drawn: Drawn, request: Request, asked: Asked) -> Run {
    let after = note_event(run.report, drawn, asked, run.week);
    let week = after.week;
    Run {
        report: note_shown(after.report, drawn.network, request, week),
        week,
    }
}

// A fresh week.
pub fn begin(report: Report, drawn: Drawn, request: Request, room: usize) -> Run {
    let week = left_week(drawn.network, request, [0; 16]);
    let agrees = fresh_agrees(drawn.image, request, room, week, single(0));
    Run {
        report: report.note(Call::Fresh, agrees),
        week,
    }
}

// A fresh week that is refused: the state holds nothing.
pub fn note_refused_fresh(report: Report, drawn: Drawn, request: Request, room: usize) -> Report {
    let fault = question_fault(drawn.network.header, request, room);
    let nothing = numbered([0; 16], 0);
    let agrees = fault.is_some_and(|number| {
        fresh_agrees(drawn.image, request, room, nothing, refusal(number, 0))
    });
    report.note(Call::Fresh, agrees)
}
