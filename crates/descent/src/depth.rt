// The search, depth first. That route, flags and path have a place for each node is asked of each function (Begun): a
// struct over lent &mut slices is lent on whole at each step, and its contracts would still say of each what is kept.
// Arrays have room for the largest network: the library allocates nothing, its memory is fixed.
ghost use Rattle.std.specs.Prelude.{◌≡◌, List, map, ℕ, ◌+◌, ◌-◌, ◌≤◌, ◌<◌, length, get_or, take};
ghost use Rattle.terms.specs.Lists.{largest, numbers};
ghost use Rattle.terms.specs.Network.{Net};
ghost use Rattle.terms.specs.Paths.{Route};
ghost use Rattle.descent.specs.Rule.{State, complete};
ghost use Rattle.descent.specs.Limit.{descend_within};
ghost use Rattle.descent.specs.Rows.{Low};
ghost use Rattle.descent.specs.Depth.{Begun, Kept, Matches, Ends, heads_in, outs_in, Say, GivenIn, at_arc, Fresh, Outcome};

use crate::columns::Columns;
use labels::FAR;
use outcomes::write_path;

// What is searched for: a path from start to goal, with a limit on the arcs tried.
#[derive(Clone, Copy)]
pub struct Task {
    pub start: u16,
    pub goal: usize,
    pub limit: u32,
}

// The partial route, but for its nodes: how many they are, and their cost in each column.
#[derive(Clone, Copy)]
struct Partial {
    depth: usize,
    sums: [u64; 8],
}

// What is held besides the best path: its length, 0 if there is none yet, its figure, then FAR, and the
// number of arcs tried. FAR is above each figure, so that one comparison serves for every arc and every
// completed path, before the first is found and after; an Option would be opened at each. `search` gives it as it is,
// since the number of arcs tried belongs to the answer with and without a path.
#[derive(Clone, Copy)]
pub struct Held {
    pub length: usize,
    pub figure: u64,
    pub tried: u64,
}

// The search was cut before the arc that would be one too many.
#[derive(Clone, Copy, Debug, PartialEq, Eq)]
pub struct Cut;

// The route arrived at the goal: it replaces the best if its figure is smaller.
fn complete(
    columns: &Columns<'_>,
    partial: &Partial,
    route: &[u16],
    path: &mut [u16],
    held: Held,
) -> Held
    requires sums_low { Low 200 partial.now.sums }
    requires depth_fits { (1 ≤ partial.now.depth) × (partial.now.depth ≤ length route.now) × (partial.now.depth ≤ length path.old) }
    ensures { (fig : Route → ℕ) (z : State) → fig (take partial.now.depth route.now) ≡ largest (map (λ u. get_or partial.now.sums (u - 1) 0 - get_or columns.now.bests.now (u - 1) 0) (numbers 1 (length columns.now.bests.now))) → Matches path.old held z → Matches path.new result (complete fig (take partial.now.depth route.now) z) }
{
    let figure = columns.figure_of(&partial.sums);
    if figure < held.figure {
        write_path(route, partial.depth, path);
        return Held {
            length: partial.depth,
            figure,
            ..held
        };
    }
    held
}

// Tries arc i out of the last node of the partial route, unless its head is on the route.
#[cycle(descend_try_arc)]
fn try_arc(
    columns: &Columns<'_>,
    task: Task,
    partial: &Partial,
    i: usize,
    held: Held,
    route: &mut [u16],
    used: &mut [bool],
    path: &mut [u16],
) -> Result<Held, Cut>
    requires begun { Begun columns.now.places route.old used.old path.old partial.now.sums partial.now.depth }
    requires arc_inside { i < columns.now.arcs }
    ensures kept { Kept partial.now.depth route.old used.old route.new used.new }
    ensures ends { (net : Net) (s t v : ℕ) (seen : List ℕ) (z : State) → v < columns.now.places → get_or (outs_in columns.now) v 0 ≤ i → i < get_or (outs_in columns.now) (v + 1) 0 → GivenIn net s t seen z columns.now task partial.now v route.old path.old held → Ends path.new (at_arc task.limit (columns.now.places - (partial.now.depth + 1)) net s t seen v (get_or (heads_in columns.now) i 0) z) result }
{
    let head = columns.star[columns.arcs + i];
    let h = usize::from(head);
    if used[h] {
        return Ok(held);
    }
    if u64::from(task.limit) <= held.tried {
        return Err(Cut);
    }
    let more = Held {
        tried: held.tried + 1,
        ..held
    };
    if columns.drops(i, h, &partial.sums, held.figure) {
        return Ok(more);
    }
    used[h] = true;
    route[partial.depth] = head;
    let next = Partial {
        depth: partial.depth + 1,
        sums: columns.lengthen(i, &partial.sums),
    };
    let run = descend(columns, task, &next, h, more, route, used, path);
    used[h] = false;
    run
}

// Goes on from the partial route, which ends with v.
#[cycle(descend_try_arc)]
fn descend(
    columns: &Columns<'_>,
    task: Task,
    partial: &Partial,
    v: usize,
    held: Held,
    route: &mut [u16],
    used: &mut [bool],
    path: &mut [u16],
) -> Result<Held, Cut>
    requires begun { Begun columns.now.places route.old used.old path.old partial.now.sums partial.now.depth }
    requires node_inside { v < columns.now.places }
    ensures kept { Kept partial.now.depth route.old used.old route.new used.new }
    ensures ends { (net : Net) (s t : ℕ) (seen : List ℕ) (z : State) → GivenIn net s t seen z columns.now task partial.now v route.old path.old held → Ends path.new (descend_within task.limit (columns.now.places - partial.now.depth) net s t seen v z) result }
{
    if v == task.goal {
        return Ok(complete(columns, partial, route, path, held));
    }
    let outs = 3 * columns.arcs;
    let from = usize::from(columns.star[outs + v]);
    let to = usize::from(columns.star[outs + v + 1]);
    let mut now = held;
    for i in from..to {
        now = try_arc(columns, task, partial, i, now, route, used, path)?;
    }
    Ok(now)
}

// Writes the first in node order of all paths with the least figure into path.
pub fn search(columns: &Columns<'_>, task: Task, path: &mut [u16]) -> Result<Held, Cut>
    requires { (1 ≤ task.start) × (task.start < columns.now.places) × (columns.now.places ≤ length path.old + 1) }
    ensures { (net : Net) → Say net task.start task.goal columns.now → Outcome task.limit net task.start task.goal path.new result }
{
    let mut route = [0u16; 200];
    let mut flags = [false; 201];
    let used = &mut flags[..columns.places];
    let v = usize::from(task.start);
    route[0] = task.start;
    used[v] = true;
    let first = Partial {
        depth: 1,
        sums: [0; 8],
    };
    let none = Held {
        length: 0,
        figure: FAR,
        tried: 0,
    };
    descend(columns, task, &first, v, none, &mut route, used, path)
}
