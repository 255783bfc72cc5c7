// A branch is looked into: its first path is put in its place among the candidates, or there is no
// need to.
ghost use Rattle.std.specs.Prelude.{ℕ, ◌+◌, ◌-◌, ◌≤◌, get_or};
ghost use Rattle.star.specs.Graphs.{arcs_of};
ghost use Rattle.candidates.specs.Views.{listed};
ghost use Rattle.exits.specs.Exits.{Unmarked};
ghost use Rattle.ranking.specs.Ranking.{Restored, TooDear, Wanted};
ghost use Rattle.ranking.specs.Queries.{entries_for, FilledFor, ChangedFor, SettledFor, DeviationFor};
ghost use Rattle.ranking.specs.State.{branch_of, taking_over};
ghost use Rattle.exits.specs.Walks.{Choice};

use crate::query::{Detour, Query};
use branching::{Step, Tail, first_path};
use candidates::{Entries, NewEntry, Routes, insert};
use exits::least_exit;
use sharpening::LONGEST;

// Whether every slot is taken, and the last entry costs less than `bound`.
fn too_dear(entries: &Entries<'_>, slots: usize, bound: u64) -> bool
    requires { 1 ≤ slots }
    ensures { TooDear slots entries.now.count (listed entries.now) bound result }
{
    entries.count == slots && entries.cost(entries.count - 1) < bound
}

// What the tail of a path may cost at the most, behind a beginning that costs `before`, so that the path
// does not come after the last entry where every slot is taken.
fn most_wanted(entries: &Entries<'_>, slots: usize, before: u64) -> u64
    requires { (1 ≤ slots) × (entries.now.count ≤ slots) }
    ensures { Wanted slots entries.now.count (listed entries.now) before result }
{
    if entries.count < slots {
        return LONGEST;
    }
    let dearest = entries.cost(entries.count - 1);
    dearest.saturating_sub(before).min(LONGEST)
}

// The first path of a branch, of which the step is the least exit, is found and put in its place. The
// branch is that of the nodes of path from which the detour leaves. Returns how many entries there are
// then.
fn enter(
    query: &Query<'_>,
    used: &mut [bool],
    barred: &[bool],
    path: &mut [u16],
    work: &mut [u32],
    detour: Detour,
    step: Step,
) -> usize
    requires filled { FilledFor query.now detour.parent work.old detour.count }
    requires deviation { DeviationFor query.now (entries_for query.now work.old detour.count) detour.parent used.old barred.now path.old detour.parent detour.d detour.before }
    requires choice { Choice (arcs_of query.now.graph) query.now.labels.now (Unmarked used.old barred.now) (get_or path.old (detour.d - 1) 0) step.rest step.node }
    ensures restored { Restored used.old path.old detour.d used.new path.new }
    ensures changed { ChangedFor query.now detour.parent work.old detour.count work.new result }
    ensures settled { (limit : ℕ) → SettledFor query.now limit (entries_for query.now work.old detour.count) detour.parent (branch_of query.now.start (entries_for query.now work.old detour.count) (taking_over detour.d detour.parent)) (entries_for query.now work.new result) }
{
    let n = query.graph.nodes;
    let slots = query.slots;
    let Detour {
        count,
        parent,
        d,
        before,
    } = detour;
    let entries = Entries {
        nodes: n,
        work,
        count,
    };
    let most = most_wanted(&entries, slots, before);
    let Some(Tail { len, cost: rest }) = first_path(
        &query.graph,
        query.goal,
        query.labels,
        used,
        barred,
        path,
        d,
        step,
        most,
    ) else {
        return count;
    };
    let cost = before + rest;
    let routes = Routes {
        entries,
        start: query.start,
    };
    let place = routes.place_for(parent, cost, &path[..len]);
    if place == slots {
        return count;
    }
    let new = NewEntry {
        cost,
        shared: d as u32,
        parent: parent as u32,
        tail: &path[d..len],
    };
    insert(work, n, slots, count, place, &new)
}

// The same, but a branch is left out that has no path, or whose paths cost the limit at least, or more
// than the last candidate where every slot is taken.
pub fn consider(
    query: &Query<'_>,
    limit: u64,
    used: &mut [bool],
    barred: &[bool],
    path: &mut [u16],
    work: &mut [u32],
    detour: Detour,
) -> usize
    requires filled { FilledFor query.now detour.parent work.old detour.count }
    requires deviation { DeviationFor query.now (entries_for query.now work.old detour.count) detour.parent used.old barred.now path.old detour.parent detour.d detour.before }
    ensures restored { Restored used.old path.old detour.d used.new path.new }
    ensures changed { ChangedFor query.now detour.parent work.old detour.count work.new result }
    ensures settled { SettledFor query.now limit (entries_for query.now work.old detour.count) detour.parent (branch_of query.now.start (entries_for query.now work.old detour.count) (taking_over detour.d detour.parent)) (entries_for query.now work.new result) }
{
    let count = detour.count;
    let d = detour.d;
    let before = detour.before;
    let v = path[d - 1] as usize;
    let Some(step) = least_exit(&query.graph, v, query.labels, used, barred) else {
        return count;
    };
    let bound = before + step.rest;
    if limit <= bound {
        return count;
    }
    let entries = Entries {
        nodes: query.graph.nodes,
        work,
        count,
    };
    if too_dear(&entries, query.slots, bound) {
        return count;
    }
    enter(query, used, barred, path, work, detour, step)
}
