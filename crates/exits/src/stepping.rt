// The exits of a node: the arcs from it to nodes that may come next. That the lent slices have a place for
// each node is asked of each function: labels and flags change between the calls, so that a struct over them
// and the graph would be made anew, with its facts, before each.
ghost use Rattle.std.specs.Prelude.{◌≡◌, ◌+◌, ◌≤◌, ◌<◌, ◌↔◌, length, get_or, IfSome, IsTrue};
ghost use Rattle.labels.specs.Labels.{far};
ghost use Rattle.exits.specs.Exits.{Unmarked, Unused, via, Below, Usable, Chosen, Keeps};
ghost use Rattle.exits.specs.Flags.{Fresh};
ghost use Rattle.exits.specs.Small.{Small, longest};
ghost use Rattle.exits.specs.Walks.{Tight};
ghost use Rattle.star.specs.Graphs.{arcs_of};

use labels::FAR;
use star::Graph;

// The next node of a path, and what a path by it costs from the node before it on, by the labels at hand.
#[derive(Clone, Copy, Debug, PartialEq, Eq)]
pub struct Step {
    pub node: u16,
    pub rest: u64,
}

// Weight and label of an arc to y, if y is neither used nor barred and that is less than `best`.
// The label is looked at first, since most arcs lead no better.
pub fn via_below(
    y: usize,
    w: u32,
    best: u64,
    labels: &[u64],
    used: &[bool],
    barred: &[bool],
) -> Option<u64>
    requires node { y < length labels.now }
    requires small { get_or labels.now y 0 < far → get_or labels.now y 0 ≤ longest }
    requires used_long { length used.now ≡ length labels.now }
    requires barred_long { length barred.now ≡ length labels.now }
    ensures { Below (via labels.now used.now barred.now y w) best result }
{
    let rest = labels[y];
    if best <= rest {
        return None;
    }
    let l = w as u64 + rest;
    if best <= l || used[y] || barred[y] {
        return None;
    }
    Some(l)
}

// The least weight and label over the exits of v that are neither used nor barred, and the smallest
// node that has it. Here and below the arcs are gone through by index: a `zip` of heads and weights, both cut
// to the arcs of the node, takes 1 in 100 instructions more.
pub fn least_exit(
    graph: &Graph<'_>,
    v: usize,
    labels: &[u64],
    used: &[bool],
    barred: &[bool],
) -> Option<Step>
    requires node { v < length labels.now }
    requires labels_long { length labels.now ≡ graph.now.nodes + 1 }
    requires small { Small (length labels.now) labels.now }
    requires used_long { length used.now ≡ length labels.now }
    requires barred_long { length barred.now ≡ length labels.now }
    ensures usable { Usable (length labels.now) used.now result }
    ensures chosen { Chosen (arcs_of graph.now) labels.now (Unmarked used.now barred.now) v result }
{
    let heads = graph.heads();
    let weights = graph.weights;
    let outs = graph.outs(v);
    let mut found = None;
    // what the step that was found costs; FAR before one is found: read out of `found` in each turn it
    // takes 11 in 100 instructions more
    let mut best = FAR;
    for i in outs.start..outs.end {
        let node = heads[i];
        if let Some(rest) = via_below(node as usize, weights[i], best, labels, used, barred) {
            best = rest;
            found = Some(Step { node, rest });
        }
    }
    found
}

// Whether y is not used, and weight and label of an arc to it are `want` together.
fn keeps(y: usize, w: u32, labels: &[u64], used: &[bool], want: u64) -> bool
    requires node { y < length labels.now }
    requires used_long { length used.now ≡ length labels.now }
    ensures { IsTrue result ↔ Keeps labels.now used.now y w want }
{
    want.checked_sub(labels[y]) == Some(u64::from(w)) && !used[y]
}

// The smallest unused node to which an arc goes from x so that weight and label make up the label of x.
pub fn tight_exit(graph: &Graph<'_>, x: usize, labels: &[u64], used: &[bool]) -> Option<u16>
    requires node { x < length labels.now }
    requires labels_long { length labels.now ≡ graph.now.nodes + 1 }
    requires used_long { length used.now ≡ length labels.now }
    ensures usable { IfSome result (Fresh (length labels.now) used.now) }
    ensures tight { get_or labels.now x 0 < far → IfSome result (Tight (arcs_of graph.now) labels.now (Unused used.now) x) }
{
    let heads = graph.heads();
    let weights = graph.weights;
    let want = labels[x];
    let outs = graph.outs(x);
    for i in outs.start..outs.end {
        let y = heads[i];
        if keeps(y as usize, weights[i], labels, used, want) {
            return Some(y);
        }
    }
    None
}
