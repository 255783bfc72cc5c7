// The calls on a week in which roads close and reopen: Fresh and Event. The state passes by value.
ghost use Rattle.std.specs.Prelude.{◌≡◌, length};
ghost use Rattle.outcomes.specs.Calls.{cleared};
ghost use Rattle.week_calls.specs.Weeks.{fresh_fault, fresh_week, fresh_outcome, event_fault, event_week, event_outcome};
ghost use Rattle.week_calls.specs.Promise.{KeptWeek};
ghost use Rattle.c_replies.specs.Replies.{week_numbers, week_reply_of, closes};

use c_replies::WeekReply;
use week_calls::Week;
use week_calls::event::event;
use week_calls::fresh::fresh;

// REFERENCE, section 4.12: a week that begins with every road open.
#[unsafe(no_mangle)]
pub extern "C" fn vihrolom_week_fresh(
    image: &[u8],
    column: u32,
    start: u32,
    goal: u32,
    wanted: u32,
    work: &mut [u32],
) -> WeekReply
    ensures result_value { week_numbers result ≡ week_reply_of (fresh_outcome image.now column start goal wanted (length work.old)) }
    ensures week_value { result.week ≡ fresh_week image.now column start goal wanted (length work.old) }
    ensures work_after { work.new ≡ cleared (fresh_fault image.now column start goal wanted (length work.old)) work.old }
    ensures kept_week { KeptWeek image.now column start goal wanted (length work.old) }
{
    let answer = fresh(image, column, start, goal, wanted, work);
    WeekReply::from(answer)
}

// REFERENCE, section 4.13: a road that closes or opens. `close` is 0 to open it, and any other number to close it.
#[unsafe(no_mangle)]
pub extern "C" fn vihrolom_week_event(
    image: &[u8],
    column: u32,
    start: u32,
    goal: u32,
    wanted: u32,
    week: Week,
    arc: u32,
    close: u32,
    work: &mut [u32],
) -> WeekReply
    ensures result_value { week_numbers result ≡ week_reply_of (event_outcome image.now column start goal wanted (length work.old) week arc (closes close)) }
    ensures week_value { result.week ≡ event_week image.now column start goal wanted (length work.old) week arc (closes close) }
    ensures work_after { work.new ≡ cleared (event_fault image.now column start goal wanted (length work.old) arc) work.old }
{
    let answer = event(
        image,
        column,
        start,
        goal,
        wanted,
        week,
        arc,
        close != 0,
        work,
    );
    WeekReply::from(answer)
}
