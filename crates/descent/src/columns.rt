// A network in arrays: its arcs, and what its columns say of one arc, and of a completed path.
// That sums are low is asked of each function, and stands in no type: how low goes by the depth of the route, which
// `lengthen` raises by one (Low d gives Low (d + 1)); three functions ask for it, and a type of sums with their depth would
// be made anew with each arc that is tried, where the same has to be shown.
ghost use Rattle.std.specs.Prelude.{◌≡◌, map, ◌-◌, ◌≤◌, ◌<◌, length, get_or};
ghost use Rattle.terms.specs.Lists.{largest, numbers};
ghost use Rattle.labels.specs.Labels.{far};
ghost use Rattle.descent.specs.Rows.{stops, Low, Drops, Lengthened};
ghost use Rattle.descent.specs.Tables.{Fits};

use image::CLOSED;
use labels::FAR;

// Whether in one column an arc is closed, its head can't reach the goal, or the outlook is at least the
// figure.
#[tactic(auto, unfolding(crate::specs::Rows::stops))]
fn drops_in(cost: u32, label: u64, best: u64, sum: u64, figure: u64) -> bool
    requires { (sum ≤ 1000000000000) × (label < far → label ≤ 1000000000000) }
    ensures { result ≡ stops cost label best sum figure }
{
    cost == CLOSED || label == FAR || (sum + u64::from(cost) + label).saturating_sub(best) >= figure
}

// The star has all arcs of a network, open or not. The costs of its columns, marks included, and the labels to
// the goal stand one column after the other: a cost for each arc, a label for each node and one place that is
// not used. bests has the best of each column. No `measuring::Columns`: that holds no mark of a closed arc, its costs are
// weights, and here each closed arc keeps its place, since the search counts by the arcs of the image.
#[derive(Clone, Copy)]
pub struct Columns<'a> {
    pub arcs: usize,
    pub places: usize,
    pub star: &'a [u16],
    pub costs: &'a [u32],
    pub labels: &'a [u64],
    pub bests: &'a [u64],
    pub ghost fits: { Fits arcs places star.now costs.now labels.now bests.now },
}

impl Columns<'_> {
    // Whether the head of arc i, which is node h, is dropped.
    pub fn drops(&self, i: usize, h: usize, sums: &[u64; 8], figure: u64) -> bool
        requires { (i < self.now.arcs) × (h < self.now.places) × Low 200 sums.now }
        ensures { Drops self.now.arcs self.now.places i h self.now.costs.now self.now.labels.now self.now.bests.now sums.now figure result }
    {
        // read once: in the loop each column would read the slices' addresses anew. And by u, in this the hottest loop of
        // Search: an arc's cost and its head's label stand a stride apart, so `any` would ask the same of a closure by u
        let (costs, labels, bests) = (self.costs, self.labels, self.bests);
        for u in 0..bests.len() {
            let cost = costs[u * self.arcs + i];
            let label = labels[u * self.places + h];
            if drops_in(cost, label, bests[u], sums[u], figure) {
                return true;
            }
        }
        false
    }

    // The costs of the partial route with arc i, in each column.
    pub fn lengthen(&self, i: usize, sums: &[u64; 8]) -> [u64; 8]
        requires { (i < self.now.arcs) × Low 200 sums.now }
        ensures { Lengthened self.now.arcs i (length self.now.bests.now) self.now.costs.now sums.now result }
    {
        let mut longer = *sums;
        // by u: what the arc costs in the columns stands `arcs` places apart, so each form asks for u
        for u in 0..self.bests.len() {
            longer[u] += u64::from(self.costs[u * self.arcs + i]);
        }
        longer
    }

    // The figure of a path, from its cost in each column.
    pub fn figure_of(&self, sums: &[u64; 8]) -> u64
        ensures { result ≡ largest (map (λ u. get_or sums.now (u - 1) 0 - get_or self.now.bests.now (u - 1) 0) (numbers 1 (length self.now.bests.now))) }
    {
        // folded: the greatest of a chain would be an Option, and 0 is its least value here
        let mut figure: u64 = 0;
        for (&sum, &best) in sums.iter().zip(self.bests) {
            figure = figure.max(sum.saturating_sub(best));
        }
        figure
    }
}
