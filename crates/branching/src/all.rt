// The first of all paths: that of the branch that holds them all.
// Arrays have room for the largest network: the library allocates nothing, its memory is fixed.
ghost use Rattle.std.specs.Prelude.{◌≡◌, [], ◌+◌, ◌≤◌, length};
ghost use Rattle.labels.specs.Labels.{Least};
ghost use Rattle.branching.specs.Branches.{everything};
ghost use Rattle.branching.specs.Found.{Ends, Extent, FirstFound};
ghost use Rattle.star.specs.Graphs.{arcs_of};

use crate::first::{Tail, along};
use exits::least_exit;
use star::Graph;

// Writes the first path from start to goal into path; overall are the labels to the goal.
pub fn shortest(
    graph: &Graph<'_>,
    start: u16,
    goal: usize,
    overall: &[u64],
    path: &mut [u16],
) -> Option<Tail>
    requires overall_long { length overall.now ≡ graph.now.nodes + 1 }
    requires ends { Ends (length overall.now) start goal }
    requires path_long { length overall.now ≤ length path.old + 1 }
    requires least { Least (arcs_of graph.now) [] goal overall.now }
    ensures extent { Extent 1 path.new result }
    ensures first_found { FirstFound (arcs_of graph.now) start goal (everything start) path.new result }
{
    let places = overall.len();
    let mut flags = [false; 201];
    let unbarred = [false; 201];
    let used = &mut flags[..places];
    let barred = &unbarred[..places];
    let v = start as usize;
    path[0] = start;
    used[v] = true;
    let step = least_exit(graph, v, overall, used, barred)?;
    along(graph, goal, overall, used, barred, path, 1, step)
}
