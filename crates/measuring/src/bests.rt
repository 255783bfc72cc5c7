// The least cost of a path from start to goal, in each column.
// Arrays have room for the largest network: the library allocates nothing, its memory is fixed.
ghost use Rattle.std.specs.Prelude.{◌≡◌, ◌≤◌, length, IfSome};
ghost use Rattle.terms.specs.Network.{column};
ghost use Rattle.terms.specs.Paths.{Route, Path};
ghost use Rattle.terms.specs.Regret as terms;
ghost use Rattle.star.specs.Graphs.{arcs_of};
ghost use Rattle.measuring.specs.Networks.{network_of, IsColumn};
ghost use Rattle.measuring.specs.Bests.{Joined, Labelled};

use crate::columns::Columns;
use labels::least;
use star::Graph;

// The least cost of a path from start to goal: the label of the start. There is a path.
fn least_cost(graph: &Graph<'_>, start: usize, goal: usize) -> u64
    requires start { (1 ≤ start) × (start ≤ graph.now.nodes) }
    requires goal { goal ≤ graph.now.nodes }
    ensures { (p : Route) → Path (arcs_of graph.now) start goal p → result ≡ terms.best graph.now.nodes (arcs_of graph.now) start goal }
{
    let barred = [false; 201];
    let mut labels = [0u64; 201];
    let places = graph.nodes + 1;
    least(graph, &barred[..places], goal, &mut labels[..places]);
    labels[start]
}

// The labels of one column: each node's least cost to the goal there.
#[derive(Clone, Copy)]
pub struct ColumnLabels<'a> {
    pub column: usize,
    pub labels: &'a [u64],
}

// The best of column u. Where its labels are known it is the start's.
fn column_best(
    columns: &Columns<'_>,
    known: Option<ColumnLabels<'_>>,
    start: usize,
    goal: usize,
    u: usize,
) -> u64
    requires joined { Joined columns.now start goal }
    requires column { IsColumn columns.now u }
    requires labelled { IfSome known (λ own. Labelled columns.now goal own.column own.labels.now) }
    ensures { result ≡ terms.best columns.now.nodes (column (network_of columns.now) u) start goal }
{
    if let Some(own) = known {
        if own.column == u {
            return own.labels[start];
        }
    }
    least_cost(&columns.column(u), start, goal)
}

// Fills bests with the least cost of a path from start to goal in each column, of which one may be labelled.
pub fn column_bests(
    columns: &Columns<'_>,
    known: Option<ColumnLabels<'_>>,
    start: usize,
    goal: usize,
    bests: &mut [u64],
)
    requires joined { Joined columns.now start goal }
    requires bests_long { length bests.old ≡ columns.now.count }
    requires labelled { IfSome known (λ own. Labelled columns.now goal own.column own.labels.now) }
    ensures { bests.new ≡ terms.bests (network_of columns.now) start goal }
{
    for (i, best) in bests.iter_mut().enumerate() {
        *best = column_best(columns, known, start, goal, i + 1);
    }
}
