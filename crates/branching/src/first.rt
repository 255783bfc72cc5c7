// The first path of a branch: by a walk along labels that are at hand, or else along these sharpened for
// the branch, or else along labels with the beginning barred, or else step by step.
// A struct of path, used, barred and d with Begun as a ghost field proves and is no plainer: `Kept` compares used and the first d nodes of path before and after each call, which such a struct can't say, and each function takes it apart to walk.
// Graph, goal and labels are no struct: one call of `first_path` walks along three kinds of labels, of which each has facts of its own (Consistent, Small, Least), and Ahead and the lengths are of slices that the call lends.
// Arrays have room for the largest network: the library allocates nothing, its memory is fixed.
ghost use Rattle.std.specs.Prelude.{◌≡◌, true, false, List, [], ◌∷◌, ◌++◌, ℕ, ◌+◌, ◌-◌, ◌≤◌, ◌<◌, length, take, get_or};
ghost use Rattle.terms.specs.Paths.{Route};
ghost use Rattle.branching.specs.Branches.{branch, In, First, Beginning};
ghost use Rattle.exits.specs.Exits.{Unmarked};
ghost use Rattle.exits.specs.Flags.{Flagged, Fresh};
ghost use Rattle.branching.specs.Found.{Ahead, Begun, Kept, FirstFound, FirstWithin};
ghost use Rattle.branching.specs.Laid.{Laid, Longer, Tried};
ghost use Rattle.exits.specs.Small.{Small, longest};
ghost use Rattle.star.specs.Graphs.{arcs_of};
ghost use Rattle.exits.specs.Walks.{Consistent, Choice};

use crate::walk::{attempt, unmark};
use exits::{Step, least_exit};
use labels::least;
use sharpening::{LONGEST, Quest, sharpen};
use star::Graph;

// The path of a branch: its length, and what it costs from the end of the beginning on.
#[derive(Clone, Copy, Debug, PartialEq, Eq)]
pub struct Tail {
    pub len: usize,
    pub cost: u64,
}

// From path[at - 1], each step to the node that labels made anew show to be the next.
// One loop for this and `walk`, with the next node by a closure, is no plainer: each loop keeps a fact of its own (a first path here, a tight walk there), which it would have to be given with the closure.
fn steps(
    graph: &Graph<'_>,
    goal: usize,
    used: &mut [bool],
    path: &mut [u16],
    at: usize,
    labels: &mut [u64],
) -> usize
    requires used_long { length used.old ≡ graph.now.nodes + 1 }
    requires laid { Laid (length used.old) used.old path.old at × (1 ≤ at) }
    requires goal_unmet { (goal < length used.old) × ((get_or path.old (at - 1) 0 ≡ goal → ⊥) → get_or used.old goal false ≡ false) }
    requires labels_long { length labels.old ≡ length used.old }
    ensures longer { Longer (length used.old) path.old at used.new path.new result }
    ensures is_first { (s : ℕ) (p : Route) → In (arcs_of graph.now) s goal (branch (take at path.old) []) p → First (arcs_of graph.now) s goal (branch (take at path.old) []) (take result path.new) }
{
    let mut len = at;
    let mut x = path[at - 1] as usize;
    while x != goal {
        least(graph, used, goal, labels);
        let Some(step) = least_exit(graph, x, labels, used, used) else {
            return len;
        };
        path[len] = step.node;
        x = step.node as usize;
        used[x] = true;
        len += 1;
    }
    len
}

// The first of the paths that go on from path[..d] with y, step by step. The flags are then as before.
fn by_steps(
    graph: &Graph<'_>,
    goal: usize,
    used: &mut [bool],
    path: &mut [u16],
    d: usize,
    y: u16,
    labels: &mut [u64],
) -> usize
    requires used_long { length used.old ≡ graph.now.nodes + 1 }
    requires laid { Laid (length used.old) used.old path.old d × Fresh (length used.old) used.old y }
    requires ahead { Ahead (length used.old) goal used.old }
    requires labels_long { length labels.old ≡ length used.old }
    ensures tried { Tried used.old path.old d used.new path.new result }
    ensures is_first { (s : ℕ) (p : Route) → In (arcs_of graph.now) s goal (branch (take d path.old ++ (y ∷ [])) []) p → First (arcs_of graph.now) s goal (branch (take d path.old ++ (y ∷ [])) []) (take result path.new) }
{
    path[d] = y;
    used[y as usize] = true;
    let len = steps(graph, goal, used, path, d + 1, labels);
    unmark(path, d, len, used);
    len
}

// The first path of the branch of path[..d], whose next node is not barred, by labels with the nodes
// of path[..d] barred.
fn exact_path(
    graph: &Graph<'_>,
    goal: usize,
    used: &mut [bool],
    barred: &[bool],
    path: &mut [u16],
    d: usize,
) -> Option<Tail>
    requires used_long { length used.old ≡ graph.now.nodes + 1 }
    requires begun { Begun (length used.old) used.old barred.now path.old d }
    requires ahead { Ahead (length used.old) goal used.old }
    ensures kept { Kept used.old path.old d used.new path.new result }
    ensures first_found { (s : ℕ) (F : List ℕ) → Beginning (arcs_of graph.now) s goal (take d path.old) → Flagged barred.now F → FirstFound (arcs_of graph.now) s goal (branch (take d path.old) F) path.new result }
{
    let mut room = [0u64; 201];
    let places = used.len();
    let labels = &mut room[..places];
    least(graph, used, goal, labels);
    let v = path[d - 1] as usize;
    let step = least_exit(graph, v, labels, used, barred)?;
    if let Some(tail) = attempt(graph, goal, labels, used, path, d, step) {
        return Some(tail);
    }
    let len = by_steps(graph, goal, used, path, d, step.node, labels);
    Some(Tail {
        len,
        cost: step.rest,
    })
}

// The first path of the branch of path[..d], whose next node is not barred. The step is its least exit
// by the labels `overall`: the walk along these, or else the path by labels of the branch's own.
pub fn along(
    graph: &Graph<'_>,
    goal: usize,
    overall: &[u64],
    used: &mut [bool],
    barred: &[bool],
    path: &mut [u16],
    d: usize,
    step: Step,
) -> Option<Tail>
    requires used_long { length used.old ≡ graph.now.nodes + 1 }
    requires begun { Begun (length used.old) used.old barred.now path.old d }
    requires ahead { Ahead (length used.old) goal used.old }
    requires consistent { Consistent (arcs_of graph.now) goal overall.now (take d path.old) }
    requires small { Small (length used.old) overall.now }
    requires choice { Choice (arcs_of graph.now) overall.now (Unmarked used.old barred.now) (get_or path.old (d - 1) 0) step.rest step.node }
    ensures kept { Kept used.old path.old d used.new path.new result }
    ensures first_found { (s : ℕ) (F : List ℕ) → Beginning (arcs_of graph.now) s goal (take d path.old) → Flagged barred.now F → FirstFound (arcs_of graph.now) s goal (branch (take d path.old) F) path.new result }
{
    if let Some(tail) = attempt(graph, goal, overall, used, path, d, step) {
        return Some(tail);
    }
    exact_path(graph, goal, used, barred, path, d)
}

// Whether l is above the most that is wanted, if that is a limit at all: LONGEST is none, since no path costs more.
// As an Option the limit would be matched here, at the `min` that makes it (ranking) and where labels are sharpened.
fn is_dear(l: u64, most: u64) -> bool
    ensures { result ≡ true → (most < l) × (most < longest) }
{
    most < LONGEST && most < l
}

// The first path of that branch as by `along`, but with no exit chosen yet, and only if the path's tail costs
// `most` at the most: the walk is along sharper labels.
fn sharp_path(
    graph: &Graph<'_>,
    goal: usize,
    overall: &[u64],
    used: &mut [bool],
    barred: &[bool],
    path: &mut [u16],
    d: usize,
    most: u64,
) -> Option<Tail>
    requires used_long { length used.old ≡ graph.now.nodes + 1 }
    requires begun { Begun (length used.old) used.old barred.now path.old d }
    requires ahead { Ahead (length used.old) goal used.old }
    requires consistent { Consistent (arcs_of graph.now) goal overall.now (take d path.old) }
    requires small { Small (length used.old) overall.now }
    requires most_small { most ≤ longest }
    ensures kept { Kept used.old path.old d used.new path.new result }
    ensures first_within { (s : ℕ) (F : List ℕ) → Beginning (arcs_of graph.now) s goal (take d path.old) → Flagged barred.now F → FirstWithin (arcs_of graph.now) s goal (branch (take d path.old) F) path.new most result }
{
    let v = path[d - 1] as usize;
    let quest = Quest {
        from: v,
        goal,
        most,
    };
    let mut room = [0u64; 201];
    let places = used.len();
    let labels = &mut room[..places];
    let sharp = sharpen(graph, quest, overall, used, barred, labels);
    if !sharp {
        return exact_path(graph, goal, used, barred, path, d);
    }
    let step = least_exit(graph, v, labels, used, barred)?;
    if is_dear(step.rest, most) {
        return None;
    }
    along(graph, goal, labels, used, barred, path, d, step)
}

// The first path of the branch of path[..d], whose next node is not barred, if its tail costs `most` at
// the most. The step is its least exit by the labels `overall`, which may be those of the whole network:
// the walk along these arrives mostly, and the branch is searched by labels of its own where it does not. It is
// `along` but for the call that it ends with: as a closure that call would need a contract as long as either has.
pub fn first_path(
    graph: &Graph<'_>,
    goal: usize,
    overall: &[u64],
    used: &mut [bool],
    barred: &[bool],
    path: &mut [u16],
    d: usize,
    step: Step,
    most: u64,
) -> Option<Tail>
    requires used_long { length used.old ≡ graph.now.nodes + 1 }
    requires begun { Begun (length used.old) used.old barred.now path.old d }
    requires ahead { Ahead (length used.old) goal used.old }
    requires consistent { Consistent (arcs_of graph.now) goal overall.now (take d path.old) }
    requires small { Small (length used.old) overall.now }
    requires most_small { most ≤ longest }
    requires choice { Choice (arcs_of graph.now) overall.now (Unmarked used.old barred.now) (get_or path.old (d - 1) 0) step.rest step.node }
    ensures kept { Kept used.old path.old d used.new path.new result }
    ensures first_within { (s : ℕ) (F : List ℕ) → Beginning (arcs_of graph.now) s goal (take d path.old) → Flagged barred.now F → FirstWithin (arcs_of graph.now) s goal (branch (take d path.old) F) path.new most result }
{
    if let Some(tail) = attempt(graph, goal, overall, used, path, d, step) {
        return Some(tail);
    }
    sharp_path(graph, goal, overall, used, barred, path, d, most)
}
