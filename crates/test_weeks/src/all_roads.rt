// All roads of a random network closed one by one, until there is no path, and reopened one by one, until the week is
// a fresh one again.
use super::drawing::Drawn;
use super::held::Asked;
use super::step::{begin, next};
use test_fixtures::report::{Call, Report};

pub fn note_all_roads(report: Report, drawn: Drawn) -> Report {
    let request = drawn.request();
    let room = drawn.room_for(request, false);
    let m = drawn.network.arc_count();
    let first = begin(report, drawn, request, room);
    let mut run = first;
    for close in [true, false] {
        for arc in 0..m {
            let asked = Asked {
                request,
                arc,
                close,
                room,
            };
            run = next(run, drawn, request, asked);
        }
    }
    run.report.note(Call::Fresh, run.week == first.week)
}
