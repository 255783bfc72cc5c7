// An answer of the calls on a week as three numbers and the state.
ghost use Rattle.std.specs.Prelude.{◌≡◌};
ghost use Rattle.image.specs.Answers.{answer, one_number};
ghost use Rattle.c_replies.specs.Replies.{week_numbers, week_reply_of};

use week_calls::{Week, Weekly};

// refusal is 0 for a result, and roads is then how many roads the map closes; it is else the number of the
// refusal, place is its place, and roads is 0. The state is the one that the call gives. C has no enum with values:
// the number stands beside them.
#[repr(C)]
#[derive(Clone, Copy)]
pub struct WeekReply {
    pub refusal: u32,
    pub place: u32,
    pub roads: u32,
    pub week: Week,
}

impl From<Weekly> for WeekReply {
    ghost from_gives = { λ given reply. (week_numbers reply ≡ week_reply_of (answer one_number given.tally)) × (reply.week ≡ given.week) };

    fn from(given: Weekly) -> WeekReply {
        let week = given.week;
        match given.tally {
            Ok(roads) => WeekReply {
                refusal: 0,
                place: 0,
                roads,
                week,
            },
            Err(refusal) => WeekReply {
                refusal: refusal.number(),
                place: refusal.place(),
                roads: 0,
                week,
            },
        }
    }
}
