// Robust's answer: the search, and the route of the path that it chose.
ghost use Rattle.std.specs.Prelude.{◌≡◌, ◌++◌, ◌+◌, ◌*◌, ◌≤◌, length, take, drop, IfSome};
ghost use Rattle.terms.specs.Paths.{Route};
ghost use Rattle.ranking.specs.Ranking.{Space};
ghost use Rattle.choosing.specs.Answers.{chosen_length, answered};
ghost use Rattle.choosing.specs.Contests.{nodes_in, answer_in};
ghost use Rattle.choosing.specs.Finding.{told};

use crate::contest::Contest;
use crate::searching::{Finding, search};
use candidates::{Entries, Routes};

// The chosen path: how many nodes it has, its figure and its worst column; how many paths were counted, and
// the floor if the answer is open.
#[derive(Clone, Copy)]
pub struct Decision {
    pub length: u32,
    pub figure: u32,
    pub worst: u32,
    pub count: u32,
    pub floor: Option<u32>,
}

// The finding as a decision, with the length of the path.
fn state(found: Finding, length: usize) -> Decision
    requires small_figure { found.leader.figure ≤ 199000000 }
    requires small_floor { IfSome found.floor (λ floor. floor ≤ 199000000) }
    requires small_count { found.count ≤ 256 }
    requires short { length ≤ 200 }
    ensures length_is { chosen_length result ≡ length }
    ensures answers { (p : Route) → answered p result ≡ told p found }
{
    Decision {
        length: length as u32,
        figure: found.leader.figure as u32,
        worst: found.leader.worst,
        count: found.count as u32,
        floor: found.floor.map(|floor| floor as u32),
    }
}

// Robust (REFERENCE, section 5) against bests that are given. Writes the chosen path over the beginning of
// route.
pub fn least_regret(contest: &Contest<'_>, work: &mut [u32], route: &mut [u16]) -> Decision
    requires space { Space (nodes_in contest.now) contest.now.query.slots work.old }
    requires route_long { nodes_in contest.now ≤ length route.old }
    ensures beyond_same { drop (contest.now.query.slots * (nodes_in contest.now + 16)) work.new ≡ drop (contest.now.query.slots * (nodes_in contest.now + 16)) work.old }
    ensures answer_given { answered (take (chosen_length result) route.new) result ≡ answer_in contest.now }
    ensures path_fits { chosen_length result ≤ nodes_in contest.now }
    ensures rest_kept { route.new ≡ take (chosen_length result) route.new ++ drop (chosen_length result) route.old }
{
    let found = search(contest, work);
    let place = found.leader.place;
    // those up to the leader's: its route takes over nodes of routes before it
    let entries = Entries {
        nodes: contest.query.graph.nodes,
        work,
        count: place + 1,
    };
    let ranked = Routes {
        entries,
        start: contest.query.start,
    };
    let length = ranked.length(place);
    ranked.lay_out(place, length, route);
    state(found, length)
}
