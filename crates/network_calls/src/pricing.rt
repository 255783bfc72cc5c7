// Each column's best: the least cost of a path that is open in it.
// Arrays have room for the largest network: the library allocates nothing, its memory is fixed.
ghost use Rattle.std.specs.Prelude.{◌≡◌, length, IfSome};
ghost use Rattle.terms.specs.Network.{common};
ghost use Rattle.terms.specs.Regret as terms;
ghost use Rattle.closures.specs.Map.{without};
ghost use Rattle.loading.specs.Accepted.{Ends};
ghost use Rattle.loading.specs.Networks.{net};
ghost use Rattle.measuring.specs.Bests.{Labelled};
ghost use Rattle.measuring.specs.Networks.{network_of};
ghost use Rattle.network_calls.specs.Held.{Reached, Held};

use closures::closed_roads;
use loading::{Network, load_left};
use measuring::{ColumnLabels, Columns, column_bests};
use outcomes::narrow;

// The best of each column by itself: its open arcs are loaded and labelled. Where no path is open in a column, the mark
// stands in the place of its best.
pub fn own_bests(
    network: &Network<'_>,
    closed: &[u64],
    start: usize,
    goal: usize,
    bests: &mut [u64],
)
    requires ends { Ends (net network.now).nodes start goal }
    requires bests_len { length bests.old ≡ network.now.sizes.k }
    ensures { bests.new ≡ terms.bests (without closed.now (net network.now)) start goal }
{
    let mut star_room = [0u16; 3403];
    let mut weight_room = [0u32; 1000];
    let mut label_room = [0u64; 201];
    let arcs = network.sizes.m as usize;
    let places = network.sizes.n as usize + 1;
    let star = &mut star_room[..3 * arcs + places + 1 + places];
    let weights = &mut weight_room[..arcs];
    let labels = &mut label_room[..places];
    for (u, best) in bests.iter_mut().enumerate() {
        load_left(network, closed, u as u32 + 1, goal, star, weights, labels);
        *best = u64::from(narrow(labels[start]));
    }
}

// Finds each column's best. A path that is open in every column goes from start to goal; the columns have the
// arcs that the map leaves and that are open in every column, and one of them may be labelled. Where these are
// all arcs that the map leaves, one star serves all columns.
pub fn price(
    network: &Network<'_>,
    closed: &[u64],
    columns: &Columns<'_>,
    known: Option<ColumnLabels<'_>>,
    start: usize,
    goal: usize,
    bests: &mut [u64],
)
    requires common { network_of columns.now ≡ common (without closed.now (net network.now)) }
    requires reached { Reached (without closed.now (net network.now)) start goal }
    requires bests_long { length bests.old ≡ network.now.sizes.k }
    requires labelled { IfSome known (λ own. Labelled columns.now goal own.column own.labels.now) }
    ensures { Held (without closed.now (net network.now)) columns.now start goal bests.new }
{
    let arcs = network.sizes.m as usize;
    let gone = closed_roads(closed, arcs) as usize;
    if columns.arcs == arcs - gone {
        column_bests(columns, known, start, goal, bests);
    } else {
        own_bests(network, closed, start, goal, bests);
    }
}
