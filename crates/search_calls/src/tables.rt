// What the search reads, from an accepted image: all arcs, all columns, and in each column the labels to the
// goal.
// Arrays have room for the largest network: the library allocates nothing, its memory is fixed.
ghost use Rattle.std.specs.Prelude.{◌≡◌, ℕ, ◌+◌, ◌*◌, ◌≤◌, ◌<◌, length, get_or};
ghost use Rattle.loading.specs.Accepted.{Node};
ghost use Rattle.loading.specs.Networks.{net};
ghost use Rattle.network_calls.specs.Held.{Reached};
ghost use Rattle.descent.specs.Rows.{at_row};
ghost use Rattle.descent.specs.Depth.{Outcome};
ghost use Rattle.search_calls.specs.Labelled.{LabelRows};

use descent::{Columns, Cut, Held, Task};
use loading::{Network, load_all, load_whole};

// Labels each node with its least cost to the goal, in each column by itself, one column after the other.
fn label_columns(network: &Network<'_>, goal: usize, labels: &mut [u64])
    requires goal { Node (net network.now).nodes goal }
    requires labels_len { length labels.old ≡ network.now.sizes.k * (network.now.sizes.n + 1) }
    ensures { LabelRows (net network.now) goal network.now.sizes.k (network.now.sizes.n + 1) labels.new }
{
    let mut star_room = [0u16; 3403];
    let mut weight_room = [0u32; 1000];
    let arcs = network.sizes.m as usize;
    let places = network.sizes.n as usize + 1;
    let star = &mut star_room[..3 * arcs + places + 1 + places];
    let weights = &mut weight_room[..arcs];
    // by number: of what is written through `chunks_exact_mut` a proof knows the length alone
    for u in 0..network.sizes.k {
        let from = u as usize * places;
        let to = from + places;
        let row = &mut labels[from..to];
        load_whole(network, u + 1, goal, star, weights, row);
    }
}

// The best of each column: the start's label. Each column has so many places for labels.
fn take_bests(labels: &[u64], places: usize, start: usize, bests: &mut [u64])
    requires { (length labels.now ≡ length bests.old * places) × (start < places) × (length bests.old ≤ 8) × (places ≤ 201) }
    ensures { (u : ℕ) → u < length bests.new → get_or bests.new u 0 ≡ at_row places labels.now u start }
{
    for (u, best) in bests.iter_mut().enumerate() {
        *best = labels[u * places + start];
    }
}

// Searches an image: the rule's own answer, and the path that goes with it in best.
pub fn search_image(network: &Network<'_>, task: Task, best: &mut [u16]) -> Result<Held, Cut>
    requires reached { Reached (net network.now) task.start task.goal }
    requires best_long { network.now.sizes.n ≤ length best.old }
    ensures { Outcome task.limit (net network.now) task.start task.goal best.new result }
{
    let mut star_room = [0u16; 3403];
    let mut cost_room = [0u32; 8000];
    let mut label_room = [0u64; 1608];
    let mut best_room = [0u64; 8];
    let arcs = network.sizes.m as usize;
    let k = network.sizes.k as usize;
    let places = network.sizes.n as usize + 1;
    let star = &mut star_room[..3 * arcs + places + 1 + places];
    let costs = &mut cost_room[..arcs * k];
    let labels = &mut label_room[..k * places];
    let bests = &mut best_room[..k];
    load_all(network, star, costs);
    label_columns(network, task.goal, labels);
    take_bests(labels, places, usize::from(task.start), bests);
    let columns = Columns {
        arcs,
        places,
        star,
        costs,
        labels,
        bests,
    };
    descent::search(&columns, task, best)
}
