// A path is ranked: the branch whose first path it is falls into parts, which leave the path after each
// of its nodes from those on that it takes over, and these are looked into.
// Arrays have room for the largest network: the library allocates nothing, its memory is fixed.
ghost use Rattle.std.specs.Prelude.{◌≡◌, true, List, [], ℕ, ◌+◌, ◌-◌, ◌≤◌, ◌<◌, length, get_or};
ghost use Rattle.terms.specs.Network.{linked, weight};
ghost use Rattle.candidates.specs.Slots.{none};
ghost use Rattle.candidates.specs.Routes.{size};
ghost use Rattle.candidates.specs.Bars.{barred, marked};
ghost use Rattle.branching.specs.Laid.{Laid};
ghost use Rattle.ranking.specs.Ranking.{Restored, Markable};
ghost use Rattle.ranking.specs.Queries.{entries_for, FilledFor, ChangedFor, SettledFor, EmptiedFor, SearchingFor, DueFor, AlongFor};
ghost use Rattle.star.specs.Graphs.{arcs_of};
ghost use Rattle.ranking.specs.State.{branch_of, taking_over, waiting_to};

use crate::branches::consider;
use crate::query::{Detour, Query, Stem};
use candidates::{Entries, Routes};
use star::Graph;

// The weight of the arc from v to y.
fn arc_weight(graph: &Graph<'_>, v: usize, y: u16) -> u32
    requires { v ≤ graph.now.nodes }
    ensures { linked (arcs_of graph.now) v y ≡ true → result ≡ weight (arcs_of graph.now) v y }
{
    // `map_or` is no plainer: its closure would need a contract that says which weight it reads
    match graph.arc(v, y) {
        Some(i) => graph.weights[i as usize],
        None => 0,
    }
}

// Flags the nodes in path[..len]. `len` stands beside path: what is flagged is Laid, which says too that path has a
// place for each node of the network, and path[..len] has not. `unmark` of branching is no twin: it starts from Laid.
fn mark(path: &[u16], len: usize, used: &mut [bool])
    requires { Markable (length used.old) used.old path.now len }
    ensures { Laid (length used.old) used.new path.now len }
{
    for &v in &path[..len] {
        used[v as usize] = true;
    }
}

// Clears the flag of path[d], and returns the weight of the arc to it.
fn step_back(graph: &Graph<'_>, used: &mut [bool], path: &[u16], d: usize) -> u64
    requires places { length used.old ≡ graph.now.nodes + 1 }
    requires laid { Laid (length used.old) used.old path.now (d + 1) × (1 ≤ d) }
    ensures one_less { Laid (length used.old) used.new path.now d }
    ensures value { linked (arcs_of graph.now) (get_or path.now (d - 1) 0) (get_or path.now d 0) ≡ true → result ≡ weight (arcs_of graph.now) (get_or path.now (d - 1) 0) (get_or path.now d 0) }
{
    let y = path[d];
    used[y as usize] = false;
    let v = path[d - 1] as usize;
    u64::from(arc_weight(graph, v, y))
}

// Sets the flags of the nodes with which ranked paths go on behind the first d nodes of the path at the place
// `rank`.
fn set_bars(
    query: &Query<'_>,
    work: &[u32],
    count: usize,
    rank: usize,
    d: usize,
    flags: &mut [bool],
    value: bool,
)
    requires filled { FilledFor query.now (rank + 1) work.now count }
    requires places { length flags.old ≡ query.now.graph.nodes + 1 }
    requires in_tail { ((get_or (entries_for query.now work.now count) rank none).shared ≤ d) × (d < size (get_or (entries_for query.now work.now count) rank none)) }
    ensures { flags.new ≡ marked value (barred (entries_for query.now work.now count) (taking_over d (rank + 1))) flags.old }
{
    let entries = Entries {
        nodes: query.graph.nodes,
        work,
        count,
    };
    let routes = Routes {
        entries,
        start: query.start,
    };
    routes.set_bars(rank, d, flags, value);
}

// The part that leaves a ranked path where the detour says: the nodes with which ranked paths go on there are
// barred while it is looked into.
fn deviate(
    query: &Query<'_>,
    limit: u64,
    used: &mut [bool],
    barred: &mut [bool],
    path: &mut [u16],
    work: &mut [u32],
    detour: Detour,
) -> usize
    requires ranked { 1 ≤ detour.parent }
    requires filled { FilledFor query.now detour.parent work.old detour.count }
    requires along { AlongFor query.now (entries_for query.now work.old detour.count) (detour.parent - 1) used.old barred.old path.old detour.d detour.before }
    requires inside { detour.d < size (get_or (entries_for query.now work.old detour.count) (detour.parent - 1) none) }
    ensures restored { Restored used.old path.old detour.d used.new path.new }
    ensures barred_same { barred.new ≡ barred.old }
    ensures changed { ChangedFor query.now detour.parent work.old detour.count work.new result }
    ensures settled { SettledFor query.now limit (entries_for query.now work.old detour.count) detour.parent (branch_of query.now.start (entries_for query.now work.old detour.count) (taking_over detour.d detour.parent)) (entries_for query.now work.new result) }
{
    let rank = detour.parent - 1;
    let d = detour.d;
    set_bars(query, work, detour.count, rank, d, barred, true);
    let now = consider(query, limit, used, barred, path, work, detour);
    set_bars(query, work, now, rank, d, barred, false);
    now
}

// All parts, from the path's end backwards. All of the path is laid out and flagged. What it costs behind
// the fork is added up from the goal; what it costs before it is the rest.
fn deviations(
    query: &Query<'_>,
    limit: u64,
    used: &mut [bool],
    barred: &mut [bool],
    path: &mut [u16],
    work: &mut [u32],
    count: usize,
    stem: Stem,
) -> usize
    requires filled { FilledFor query.now (stem.rank + 1) work.old count }
    requires along { AlongFor query.now (entries_for query.now work.old count) stem.rank used.old barred.old path.old stem.len stem.cost }
    requires shared_is { stem.shared ≡ (get_or (entries_for query.now work.old count) stem.rank none).shared }
    ensures changed { ChangedFor query.now (stem.rank + 1) work.old count work.new result }
    ensures emptied { EmptiedFor query.now limit (entries_for query.now work.old count) (stem.rank + 1) (waiting_to query.now.start (entries_for query.now work.old count) stem.rank stem.len) (entries_for query.now work.new result) }
{
    let Stem {
        rank,
        shared,
        len,
        cost,
    } = stem;
    let mut now = count;
    // what the path costs from its node d on
    let mut behind: u64 = 0;
    // by number of nodes: path is lent to be changed in the loop, so that no iterator can hold it, and d goes on as the
    // place where the path is left
    for d in (shared..len).rev() {
        behind += step_back(&query.graph, used, path, d);
        let before = cost - behind;
        let detour = Detour {
            count: now,
            parent: rank + 1,
            d,
            before,
        };
        now = deviate(query, limit, used, barred, path, work, detour);
    }
    now
}

// Ranks the path at the place `rank`, which is the next, and costs less than the limit: the first paths of
// the parts of its branch are put in their places, but for those that cost the limit at least. Returns
// how many entries there are then.
pub fn split(query: &Query<'_>, limit: u64, work: &mut [u32], count: usize, rank: usize) -> usize
    requires filled { FilledFor query.now rank work.old count }
    requires due { DueFor query.now limit (entries_for query.now work.old count) rank }
    ensures changed { ChangedFor query.now (rank + 1) work.old count work.new result }
    ensures searching { SearchingFor query.now limit (entries_for query.now work.new result) (rank + 1) [] }
{
    let nodes = query.graph.nodes;
    let places = nodes + 1;
    let mut flags = [false; 201];
    let mut bars = [false; 201];
    let mut room = [0u16; 200];
    let used = &mut flags[..places];
    let barred = &mut bars[..places];
    let path = &mut room[..nodes];
    let entries = Entries { nodes, work, count };
    let shared = entries.shared(rank);
    let len = shared + entries.tail_length(rank);
    let routes = Routes {
        entries,
        start: query.start,
    };
    routes.lay_out(rank, len, path);
    mark(path, len, used);
    let cost = entries.cost(rank);
    let stem = Stem {
        rank,
        shared,
        len,
        cost,
    };
    deviations(query, limit, used, barred, path, work, count, stem)
}
