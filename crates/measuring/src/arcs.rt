// The arcs of a path.
ghost use Rattle.std.specs.Prelude.{◌+◌, ◌≤◌, length};
ghost use Rattle.terms.specs.Paths.{ByArcs};
ghost use Rattle.star.specs.Graphs.{arcs_of, tails, heads};
ghost use Rattle.measuring.specs.Steps.{Steps};

use star::Graph;

// Writes the index of the arc of each step of the path.
pub fn path_arcs(graph: &Graph<'_>, path: &[u16], arcs: &mut [u16])
    requires by_arcs { ByArcs (arcs_of graph.now) path.now }
    requires room { length path.now ≤ length arcs.old + 1 }
    ensures { Steps (tails graph.now) (heads graph.now) path.now arcs.new (length path.now) }
{
    for (i, step) in path.windows(2).enumerate() {
        // there is an arc to each next node
        arcs[i] = graph.arc(step[0] as usize, step[1]).unwrap_or(0);
    }
}
