// The largest excess of a path over the bests, column by column.
ghost use Rattle.std.specs.Prelude.{◌≡◌, suc, eqb};
ghost use Rattle.terms.specs.Lists.{largest, index};
ghost use Rattle.measuring.specs.Steps.{Summed, excesses, Measured};

use crate::columns::Columns;
use crate::sums::arc_sum;

// A path's greatest regret, and the lowest-numbered column that has it.
#[derive(Clone, Copy)]
pub struct Measure {
    pub figure: u64,
    pub worst: u32,
}

// The largest excess over the bests, and the first column that has it; an excess that reaches the limit
// ends it.
pub fn greatest_excess(columns: &Columns<'_>, bests: &[u64], arcs: &[u16], limit: u64) -> Measure
    requires { Summed columns.now bests.now arcs.now }
    ensures { Measured limit (largest (excesses columns.now.arcs columns.now.costs.now bests.now arcs.now)) (suc (index (eqb (largest (excesses columns.now.arcs columns.now.costs.now bests.now arcs.now))) (excesses columns.now.arcs columns.now.costs.now bests.now arcs.now))) result.figure result.worst }
{
    let mut greatest = Measure {
        figure: 0,
        worst: 1,
    };
    for (i, &best) in bests.iter().enumerate() {
        let excess = arc_sum(columns.costs_in(i + 1), arcs) - best;
        if greatest.figure < excess {
            greatest = Measure {
                figure: excess,
                worst: i as u32 + 1,
            };
            if limit <= excess {
                return greatest;
            }
        }
    }
    greatest
}
