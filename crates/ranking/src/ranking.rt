// The ranked list: the first path of all is the first candidate, and each path that is ranked leaves
// further candidates.
// Arrays have room for the largest network: the library allocates nothing, its memory is fixed.
ghost use Rattle.std.specs.Prelude.{◌≡◌, [], ◌+◌, ◌<◌};
ghost use Rattle.labels.specs.Labels.{far};
ghost use Rattle.ranking.specs.Queries.{entries_for, FilledFor, ChangedFor, SearchingFor, BeginsFor, RankedFor, StageFor, SpaceFor};

use crate::branches::consider;
use crate::query::{Detour, Query};
use crate::splitting::split;
use candidates::reset;
use labels::FAR;

// No limit is FAR, which is more than any path costs: as an Option each test of a bound would look for it first.

// Frees all slots, and puts in the first of all paths, if there is one, whatever it costs. Returns how
// many entries there are then.
pub fn begin(query: &Query<'_>, work: &mut [u32]) -> usize
    requires space { SpaceFor query.now work.old }
    ensures { BeginsFor query.now work.old work.new result }
{
    let n = query.graph.nodes;
    let places = n + 1;
    let mut flags = [false; 201];
    let unbarred = [false; 201];
    let mut room = [0u16; 200];
    let used = &mut flags[..places];
    let barred = &unbarred[..places];
    let path = &mut room[..n];
    reset(work, n, query.slots);
    path[0] = query.start;
    used[query.start as usize] = true;
    let detour = Detour {
        count: 0,
        parent: 0,
        d: 1,
        before: 0,
    };
    consider(query, FAR, used, barred, path, work, detour)
}

// Ranks the path at the place `rank`, which is the next. After the last that is wanted no candidates are
// looked for.
fn advance(query: &Query<'_>, work: &mut [u32], count: usize, rank: usize) -> usize
    requires filled { FilledFor query.now rank work.old count }
    requires rank_is_next { (rank < count) × SearchingFor query.now far (entries_for query.now work.old count) rank [] }
    ensures changed { ChangedFor query.now (rank + 1) work.old count work.new result }
    ensures stage { StageFor query.now (entries_for query.now work.new result) (rank + 1) }
{
    let slots = query.slots;
    if rank + 1 == slots {
        return count;
    }
    split(query, FAR, work, count, rank)
}

// Ranks the first paths from start to goal, as many as there are slots or all, and returns their
// number. No path is too dear.
pub fn rank_paths(query: &Query<'_>, work: &mut [u32]) -> usize
    requires space { SpaceFor query.now work.old }
    ensures { RankedFor query.now work.old work.new result }
{
    let mut count = begin(query, work);
    let mut j = 0;
    // no `for`: how many entries there are changes with each that is ranked
    while j < count {
        count = advance(query, work, count, j);
        j += 1;
    }
    count
}
