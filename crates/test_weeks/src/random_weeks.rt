// A week on a random network: a fresh one, and a list of up to 30 events, some of which are refused.
use super::drawing::{Drawn, EVENTS};
use super::step::{begin, next, note_refused_fresh};
use test_fixtures::networks::number_at;
use test_fixtures::report::Report;

pub fn note_week(report: Report, drawn: Drawn) -> Report {
    let request = drawn.request();
    let room = drawn.room_for(request, drawn.network.header.n % 2 == 1);
    let mut run = begin(report, drawn, request, room);
    let events = number_at(drawn.numbers, 524) / 64 % 31;
    for &number in drawn.numbers.iter().skip(EVENTS).take(events as usize) {
        run = next(run, drawn, request, drawn.event(request, number));
    }
    let short = drawn.room_for(request, false).saturating_sub(1);
    note_refused_fresh(run.report, drawn, request, short)
}
