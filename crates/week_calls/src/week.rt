// A week's state, and what a call gives.
// Arrays have room for the largest network: the library allocates nothing, its memory is fixed.
ghost use Rattle.std.specs.Prelude.{◌≡◌};
ghost use Rattle.week_calls.specs.Weeks.{no_week};

use image::Refusal;

// The state beside an image: the map of closed arcs, and the current answer with its route. `state` is 1 if the
// answer is settled, 2 if it is open, and 15 if there is no path. What an answer has not got is 0. It is a number with
// `floor` beside it, as `length` is beside `route`, since C has the state by value and may hand in any.
#[repr(C)]
#[derive(Clone, Copy, PartialEq, Eq)]
pub struct Week {
    pub closed: [u64; 16],
    pub route: [u16; 200],
    pub state: u32,
    pub length: u32,
    pub figure: u32,
    pub worst: u32,
    pub count: u32,
    pub floor: u32,
}

// A state that holds nothing.
pub fn blank() -> Week
    ensures { result ≡ no_week }
{
    Week {
        closed: [0u64; 16],
        route: [0u16; 200],
        state: 0,
        length: 0,
        figure: 0,
        worst: 0,
        count: 0,
        floor: 0,
    }
}

// The state after a call, and how many roads its map closes. A refused event leaves the state as it was, and a
// refused fresh one is all 0.
#[derive(Clone, Copy)]
pub struct Weekly {
    pub week: Week,
    pub tally: Result<u32, Refusal>,
}

// What is asked all week: Robust's question.
#[derive(Clone, Copy)]
pub struct Question {
    pub column: u32,
    pub start: u32,
    pub goal: u32,
    pub wanted: u32,
}
