// What the search for the path of least greatest regret is asked. The entries and routes of the workspace are made where
// they are read, from its count there: a method that made them would name each of their fields again in its contract.
ghost use Rattle.choosing.specs.Given.{Posed};

use measuring::Columns;
use ranking::Query;

// The paths that the query ranks, which are those of one column, are measured against the bests: each column
// has one, and no path from start to goal costs less there. One of the first `wanted` is to be chosen. The
// query has a slot more, for the path behind them.
#[derive(Clone, Copy)]
pub struct Contest<'a> {
    pub columns: Columns<'a>,
    pub bests: &'a [u64],
    pub column: usize,
    pub query: Query<'a>,
    pub wanted: usize,
    pub ghost posed: { Posed columns bests.now column wanted query },
}

impl Contest<'_> {
    ghost use Rattle.std.specs.Prelude.{◌≡◌};
    ghost use Rattle.choosing.specs.Contests.{low_in};

    // The best of the column in which paths are ranked.
    pub fn best(&self) -> u64
        ensures { result ≡ low_in self.now }
    {
        self.bests[self.column - 1]
    }
}
