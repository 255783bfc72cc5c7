// Fresh and Event, held to the state and the answer that they should give, and the workspace to what it should hold
// after them.
use test_calls::answers::{Answer, answer_of};
use test_calls::rank_calls::{Request, WORK_PLACES, work_after};
use test_fixtures::slices::{Pattern, is_filled};
use week_calls::event::event;
use week_calls::fresh::fresh;
use week_calls::{Week, Weekly};

// What is asked of Event beside an image and a state, and how many places of the workspace are lent.
#[derive(Clone, Copy)]
pub struct Asked {
    pub request: Request,
    pub arc: u32,
    pub close: bool,
    pub room: usize,
}

fn same_weekly(given: Weekly, expected: Week, answer: Answer) -> bool {
    answer_of(given.tally) == answer && given.week == expected
}

// Event with a workspace that holds the pattern. After a result the workspace is 0.
fn event_into(
    image: &[u8],
    asked: Asked,
    week: Week,
    work: &mut [u32],
    expected: Week,
    answer: Answer,
) -> bool {
    let request = asked.request;
    let given = event(
        image,
        request.column,
        request.start,
        request.goal,
        request.wanted,
        week,
        asked.arc,
        asked.close,
        work,
    );
    same_weekly(given, expected, answer) && is_filled(work, work_after(answer))
}

// Whether Event gives the state and the answer, with a workspace made for it. Fresh has the same below: a closure for the
// call would take the workspace and give what is compared, and leave one line of each here.
pub fn event_agrees(
    image: &[u8],
    asked: Asked,
    week: Week,
    expected: Week,
    answer: Answer,
) -> bool {
    let mut work = [u32::PATTERN; WORK_PLACES];
    work.get_mut(..asked.room).is_some_and(|work| event_into(
        image, asked, week, work, expected, answer,
    ))
}

fn fresh_into(
    image: &[u8],
    request: Request,
    work: &mut [u32],
    expected: Week,
    answer: Answer,
) -> bool {
    let given = fresh(
        image,
        request.column,
        request.start,
        request.goal,
        request.wanted,
        work,
    );
    same_weekly(given, expected, answer) && is_filled(work, work_after(answer))
}

// Whether Fresh gives the state and the answer, with a workspace of `room` places.
pub fn fresh_agrees(
    image: &[u8],
    request: Request,
    room: usize,
    expected: Week,
    answer: Answer,
) -> bool {
    let mut work = [u32::PATTERN; WORK_PLACES];
    work.get_mut(..room)
        .is_some_and(|work| fresh_into(image, request, work, expected, answer))
}
