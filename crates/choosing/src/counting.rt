// Paths are counted in the ranking order, and the earliest with the least figure leads.
// Arrays have room for the largest network: the library allocates nothing, its memory is fixed.
ghost use Rattle.std.specs.Prelude.{◌≡◌, ◌<◌};
ghost use Rattle.terms.specs.Paths.{Path};
ghost use Rattle.candidates.specs.Views.{route_in};
ghost use Rattle.choosing.specs.Contests.{graph_in};
ghost use Rattle.choosing.specs.Counting.{CountingIn, CountedIn, OutlookIn};

use crate::contest::Contest;
use candidates::{Entries, Routes};
use measuring::measure;

// The earliest path with the least figure of those counted: its place among the ranked paths, its
// figure and its worst column.
#[derive(Clone, Copy)]
pub struct Leader {
    pub place: usize,
    pub figure: u64,
    pub worst: u32,
}

// The deviation of the path at a place, behind those counted, if there is one and its deviation is below the
// least figure so far: else the stopping rule holds there.
pub fn next_deviation(
    contest: &Contest<'_>,
    work: &[u32],
    count: usize,
    place: usize,
    leader: Leader,
) -> Option<u64>
    requires { CountingIn contest.now work.now count place leader }
    ensures { OutlookIn contest.now work.now count place leader.figure result }
{
    if place < count {
        let entries = Entries {
            nodes: contest.query.graph.nodes,
            work,
            count,
        };
        let next = entries.cost(place);
        let deviation = next - contest.best();
        if deviation < leader.figure {
            return Some(deviation);
        }
    }
    None
}

// Counts the path at the place `rank`, which is the next: it is measured, and leads from now on if its
// figure is smaller than the leader's.
pub fn count_path(contest: &Contest<'_>, ranked: &Routes<'_>, rank: usize, leader: Leader) -> Leader
    requires inside { rank < ranked.now.entries.count }
    requires is_path { Path (graph_in contest.now) contest.now.query.start contest.now.query.goal (route_in ranked.now.start ranked.now.entries rank) }
    ensures { CountedIn contest.now (route_in ranked.now.start ranked.now.entries rank) rank leader result }
{
    let len = ranked.length(rank);
    let mut room = [0u16; 200];
    let path = &mut room[..len];
    ranked.lay_out(rank, len, path);
    let limit = leader.figure;
    let found = measure(&contest.columns, contest.bests, path, limit);
    if found.figure < limit {
        return Leader {
            place: rank,
            figure: found.figure,
            worst: found.worst,
        };
    }
    leader
}
