// The labels at hand, sharpened for a branch.
// Arrays have room for the largest network: the library allocates nothing, its memory is fixed.
ghost use Rattle.std.specs.Prelude.{◌≡◌, true, false, List, ℕ, ◌+◌, ◌≤◌, ◌<◌, length, get_or};
ghost use Rattle.terms.specs.Lists.{elem};
ghost use Rattle.star.specs.Graphs.{arcs_of};
ghost use Rattle.exits.specs.Small.{Small};
ghost use Rattle.exits.specs.Walks.{Consistent};

use crate::front::Front;
use crate::raise::{lift_all, mend_all};
use crate::search::{Quest, search_from};
use labels::FAR;
use star::Graph;

// Fills labels from overall, and sharpens them for the branch whose beginning, which is flagged in
// used, ends with the node from which the quest goes. Says whether they can be relied on.
pub fn sharpen(
    graph: &Graph<'_>,
    quest: Quest,
    overall: &[u64],
    used: &[bool],
    barred: &[bool],
    labels: &mut [u64],
) -> bool
    requires overall_long { length overall.now ≡ graph.now.nodes + 1 }
    requires small { Small (length overall.now) overall.now }
    requires from { quest.from < length overall.now }
    requires labels_long { length labels.old ≡ length overall.now }
    requires used_long { length used.now ≡ length overall.now }
    requires barred_long { length barred.now ≡ length overall.now }
    ensures still_small { Small (length overall.now) labels.new }
    ensures consistent { (bar : List ℕ) → result ≡ true → ((z : ℕ) → elem z bar ≡ false → get_or used.now z false ≡ false) → Consistent (arcs_of graph.now) quest.goal overall.now bar → Consistent (arcs_of graph.now) quest.goal labels.new bar }
{
    let places = overall.len();
    let mut keys = [FAR; 201];
    let mut nodes = [0u16; 201];
    let mut front = Front::new(&mut keys[..places], &mut nodes[..places]);
    let level = search_from(graph, quest, overall, used, barred, &mut front);
    labels.copy_from_slice(overall);
    lift_all(&front, quest.goal, level, labels);
    mend_all(graph, &front, quest.goal, used, labels)
}
