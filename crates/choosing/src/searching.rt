// The search: paths are ranked and counted until the stopping rule holds or no more are wanted.
ghost use Rattle.std.specs.Prelude.{◌≡◌, ◌+◌, ◌*◌, ◌<◌, drop};
ghost use Rattle.ranking.specs.Ranking.{Space};
ghost use Rattle.choosing.specs.Contests.{nodes_in, answer_in};
ghost use Rattle.choosing.specs.Finding.{Decided};

use crate::contest::Contest;
use crate::counting::{Leader, count_path, next_deviation};
use candidates::{Entries, Routes};
use labels::FAR;
use ranking::{begin, split};

// What the search found: the leader, how many paths are counted, and the floor if the stopping rule doesn't
// hold.
#[derive(Clone, Copy)]
pub struct Finding {
    pub leader: Leader,
    pub count: usize,
    pub floor: Option<u64>,
}

// Ranks and counts paths in the ranking order of the column until the rule holds, or as many as wanted
// are counted. What is left out on the way costs too much to count or to be the floor: at least the
// column's best and the least figure so far.
pub fn search(contest: &Contest<'_>, work: &mut [u32]) -> Finding
    requires { Space (nodes_in contest.now) contest.now.query.slots work.old }
    ensures beyond_same { drop (contest.now.query.slots * (nodes_in contest.now + 16)) work.new ≡ drop (contest.now.query.slots * (nodes_in contest.now + 16)) work.old }
    ensures counted { result.leader.place < result.count }
    ensures decided { Decided (nodes_in contest.now) contest.now.query.start work.new (answer_in contest.now) result }
{
    let query = &contest.query;
    let wanted = contest.wanted;
    let best = contest.best();
    let mut count = begin(query, work);
    // before a path is counted: each figure is smaller, and with `best` it is FAR, so that one comparison serves for the
    // first path and for the others. An Option would be opened at each, here and in `next_deviation`
    let mut leader = Leader {
        place: 0,
        figure: FAR - best,
        worst: 0,
    };
    let mut j = 0;
    // the floor if the count ends here: none where the rule holds
    let mut floor = next_deviation(contest, work, count, j, leader);
    // no `for`: one test ends it, when as many as are wanted are counted or at the rule
    while j < wanted && floor.is_some() {
        let entries = Entries {
            nodes: query.graph.nodes,
            work,
            count,
        };
        let ranked = Routes {
            entries,
            start: query.start,
        };
        leader = count_path(contest, &ranked, j, leader);
        // the path that is ranked costs less than the limit, also where its own deviation reaches the
        // least figure
        let limit = (best + leader.figure).max(entries.cost(j) + 1);
        count = split(query, limit, work, count, j);
        j += 1;
        floor = next_deviation(contest, work, count, j, leader);
    }
    Finding {
        leader,
        count: j,
        floor,
    }
}
