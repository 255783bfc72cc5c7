// What is asked of the ranking, and where the first path of a branch leaves another.
ghost use Rattle.star.specs.Graphs.{arcs_of};
ghost use Rattle.ranking.specs.Ranking.{Problem};

use star::Graph;

// The first paths from start to goal in a graph, as many as there are slots. `labels` has the least cost from
// each node to the goal.
#[derive(Clone, Copy)]
pub struct Query<'a> {
    pub graph: Graph<'a>,
    pub labels: &'a [u64],
    pub start: u16,
    pub goal: usize,
    pub slots: usize,
    pub ghost posed: { Problem graph.nodes start goal (arcs_of graph) labels.now },
}

// `Entries` and `Routes` are made where they are read: a method that makes them would ask `Filled` and ensure what each of
// their fields is, which each proof would have to put in; the fields written out give a proof both at once.

// The first path of a branch leaves the path with the rank `parent` after d nodes, which cost `before`, or
// is the first of all, if parent is 0. There are `count` entries, and those below `parent` are ranked: as it is the number of
// ranked paths too, which is 0 there, it is no Option.
#[derive(Clone, Copy)]
pub struct Detour {
    pub count: usize,
    pub parent: usize,
    pub d: usize,
    pub before: u64,
}

// The path at the place `rank`: it has len nodes, of which it takes over `shared`, and costs `cost`.
#[derive(Clone, Copy)]
pub struct Stem {
    pub rank: usize,
    pub shared: usize,
    pub len: usize,
    pub cost: u64,
}
