// Event: a road that closes or opens, and the state after it.
ghost use Rattle.std.specs.Prelude.{◌≡◌, not, cond, ◌<◌, length, replicate};
ghost use Rattle.outcomes.specs.Calls.{cleared};
ghost use Rattle.loading.specs.Networks.{net};
ghost use Rattle.week_calls.specs.Asked.{Asked};
ghost use Rattle.week_calls.specs.Weeks.{changed, next_week, event_fault, event_week, event_outcome};
ghost use Rattle.image.specs.Answers.{answer, one_number};

use super::running::run;
use super::standing::stands;
use super::week::{Question, Week, Weekly};
use closures::{closed_roads, is_closed, turn};
use image::Refusal;
use listing::clear;
use loading::Network;
use outcomes::check_ranking;

// The state after an event that turns over the bit of an arc: the answer stands, or it is found anew.
fn change(
    network: &Network<'_>,
    asked: Question,
    week: Week,
    arc: usize,
    close: bool,
    work: &mut [u32],
) -> Week
    requires asked { Asked network.now.image.now asked work.old }
    requires arc { arc < network.now.sizes.m }
    ensures value { result ≡ changed (net network.now) asked.column asked.start asked.goal asked.wanted week arc close }
    ensures work_after { work.new ≡ replicate (length work.old) 0 }
{
    let words = week.closed;
    let next = turn(words, arc);
    if close {
        let start = asked.start as usize;
        let goal = asked.goal as usize;
        if stands(network, start, goal, week, next, arc) {
            clear(work);
            return Week {
                closed: next,
                ..week
            };
        }
    }
    run(network, asked, next, work)
}

// Whether an event turns over the bit of an arc: it closes an open one, or opens a closed one. A function of its own:
// `!=` of two bools inside a test leaves a form that no law has in its words, and here the contract puts it as a `cond`.
fn turns(was_closed: bool, close: bool) -> bool
    ensures { result ≡ cond close (not was_closed) was_closed }
{
    close != was_closed
}

// The state after an event. One that closes a closed arc or opens an open one changes nothing.
fn follow(
    network: &Network<'_>,
    asked: Question,
    week: Week,
    arc: usize,
    close: bool,
    work: &mut [u32],
) -> Week
    requires asked { Asked network.now.image.now asked work.old }
    requires arc { arc < network.now.sizes.m }
    ensures value { result ≡ next_week (net network.now) asked.column asked.start asked.goal asked.wanted week arc close }
    ensures work_after { work.new ≡ replicate (length work.old) 0 }
{
    let words = week.closed;
    let closed = is_closed(&words, arc);
    if turns(closed, close) {
        return change(network, asked, week, arc, close, work);
    }
    clear(work);
    week
}

// REFERENCE, section 4.13. `close` closes the arc, else the event opens it.
pub fn event(
    image: &[u8],
    column: u32,
    start: u32,
    goal: u32,
    wanted: u32,
    week: Week,
    arc: u32,
    close: bool,
    work: &mut [u32],
) -> Weekly
    ensures week_value { result.week ≡ event_week image.now column start goal wanted (length work.old) week arc close }
    ensures tally_value { answer one_number result.tally ≡ event_outcome image.now column start goal wanted (length work.old) week arc close }
    ensures work_after { work.new ≡ cleared (event_fault image.now column start goal wanted (length work.old) arc) work.old }
{
    // no `?`: what is refused comes with a state
    let sizes = match check_ranking(image, column, start, goal, wanted, work.len()) {
        Ok(sizes) => sizes,
        Err(refusal) => {
            return Weekly {
                week,
                tally: Err(refusal),
            };
        }
    };
    if sizes.m <= arc {
        return Weekly {
            week,
            tally: Err(Refusal::WrongEventArc(arc)),
        };
    }
    let asked = Question {
        column,
        start,
        goal,
        wanted,
    };
    let network = Network { image, sizes };
    let after = follow(&network, asked, week, arc as usize, close, work);
    let words = after.closed;
    let roads = closed_roads(&words, sizes.m as usize);
    Weekly {
        week: after,
        tally: Ok(roads),
    }
}
