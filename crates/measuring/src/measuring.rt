// The greatest regret of a path, and its worst column.
// Arrays have room for the largest network: the library allocates nothing, its memory is fixed.
ghost use Rattle.std.specs.Prelude.{◌≡◌, ℕ, ◌+◌, ◌-◌, ◌≤◌, length, get_or};
ghost use Rattle.terms.specs.Network.{column};
ghost use Rattle.terms.specs.Paths.{ByArcs, cost};
ghost use Rattle.terms.specs.Regret.{figure_over, worst_over};
ghost use Rattle.measuring.specs.Networks.{network_of};
ghost use Rattle.measuring.specs.Steps.{Measured};

use crate::arcs::path_arcs;
use crate::columns::Columns;
use crate::excesses::{Measure, greatest_excess};

// The largest cost of a path beyond the bests, and the first column that has it, if it is below the limit;
// else some number that the limit does not exceed. Where the bests are each column's least cost these are
// the path's figure and worst column. The path's arcs are looked up once, among the arcs out of each node,
// and summed in each column. A number that reaches the limit, and no None for it: a caller without a limit, as
// `measure_path` of network_calls, would unwrap an Option, and one with a limit makes the same test of `figure`.
pub fn measure(columns: &Columns<'_>, bests: &[u64], path: &[u16], limit: u64) -> Measure
    requires bests_long { length bests.now ≡ columns.now.count }
    requires by_arcs { ByArcs (column (network_of columns.now) 1) path.now }
    requires from_2_to_200_nodes { (2 ≤ length path.now) × (length path.now ≤ 200) }
    requires no_less { (u : ℕ) → 1 ≤ u → u ≤ columns.now.count → get_or bests.now (u - 1) 0 ≤ cost (column (network_of columns.now) u) path.now }
    ensures { Measured limit (figure_over (network_of columns.now) bests.now path.now) (worst_over (network_of columns.now) bests.now path.now) result.figure result.worst }
{
    let mut room = [0u16; 200];
    let arcs = &mut room[..path.len() - 1];
    path_arcs(&columns.column(1), path, arcs);
    greatest_excess(columns, bests, arcs, limit)
}
